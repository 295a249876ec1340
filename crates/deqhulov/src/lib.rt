// The interface for programs in other languages: a function is evaluated, a recipe judged, a job mapped, a mapping priced and checked. Each call
// returns the number of document 01's refusal, 0 for none, stores its place, and puts the values that come with the answer into the caller's
// `out`. `deqhulov_c` exports these calls.
#![tactic(auto)]

mod answers;

ghost use Rattle.std.specs.Prelude.{◌≡◌};
ghost use Rattle.alu.specs.Evaluate as E;
ghost use Rattle.pricer.specs.Pricing as P;
ghost use Rattle.mapper.specs.Mapping as M;
ghost use Rattle.report.specs.Told as R;
ghost use Rattle.deqhulov.specs.Tells as D;

// Evaluates a function at a width, two operands and a carry. The values are the four ports.
#[tactic(auto, using(report::proofs::Telling::told_of, report::proofs::Telling::report_fits))]
pub fn deqhulov_evaluate(
    function: u32,
    width: u32,
    left: u64,
    right: u64,
    carry: u32,
    place: &mut u64,
    out: &mut [u64],
) -> u32
    ensures { R.Told (E.paper_of (E.evaluation function width left right carry)) result place.new out.old out.new }
{
    let evaluation = alu::evaluate(function, width, left, right, carry);
    let told = answers::of_evaluation(evaluation);
    report::tell(told, place, out)
}

// Prices a mapping under its job. The value is the glue count; that of a refusal 1 to 6 is 0 for the job and 1 for the mapping.
#[tactic(auto, using(report::proofs::Telling::told_of, report::proofs::Telling::report_fits))]
pub fn deqhulov_price(job: &[u32], mapping: &[u32], place: &mut u64, out: &mut [u64]) -> u32
    ensures { R.Told (P.paper_of (P.pricing_of job.now mapping.now)) result place.new out.old out.new }
{
    let priced = pricer::price(job, mapping);
    let told = answers::of_price(priced);
    report::tell(told, place, out)
}

// Maps a job into lent words. The value is the number of words written.
#[tactic(auto, using(report::proofs::Telling::told_of, report::proofs::Telling::report_fits))]
pub fn deqhulov_map(job: &[u32], lent: &mut [u32], place: &mut u64, out: &mut [u64]) -> u32
    ensures told { R.Told (M.paper_of (M.answer_of job.now lent.old)) result place.new out.old out.new }
    ensures written { lent.new ≡ M.lent_after_map job.now lent.old }
{
    let answer = mapper::map(job, lent);
    let told = answers::of_mapping(answer);
    report::tell(told, place, out)
}

// Checks a mapping against its job. The value of a refusal 1 to 6 is 0 for the job and 1 for the mapping; those of 10 are the port,
// the operands and the carry.
#[tactic(auto, using(report::proofs::Telling::told_of, report::proofs::Telling::report_fits))]
pub fn deqhulov_check(job: &[u32], mapping: &[u32], place: &mut u64, out: &mut [u64]) -> u32
    ensures { D.TellsCheck job.now mapping.now result place.new out.old out.new }
{
    let checked = checker::check(job, mapping);
    let told = answers::of_check(checked);
    report::tell(told, place, out)
}

// Judges a recipe word at a width; its target is plain for the mark 0, negated for 1. The values of 10 are the port, the operands and the
// carry.
#[tactic(auto, using(report::proofs::Telling::told_of, report::proofs::Telling::report_fits))]
pub fn deqhulov_judge(word: u32, width: u32, mark: u32, place: &mut u64, out: &mut [u64]) -> u32
    ensures { D.TellsJudgement word width mark result place.new out.old out.new }
{
    let judgement = verdict::judge(word, width, mark);
    let told = answers::of_judgement(judgement);
    report::tell(told, place, out)
}
