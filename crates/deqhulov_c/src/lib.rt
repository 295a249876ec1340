// The calls of `deqhulov` as a program in C finds them: words and lent words pass as a pointer and a length.
// Kept: calls alike to those of `deqhulov`. Only a static library exports to C, and no crate can stand on one.
#![tactic(auto)]

ghost use Rattle.std.specs.Prelude.{◌≡◌};
ghost use Rattle.alu.specs.Evaluate as E;
ghost use Rattle.pricer.specs.Pricing as P;
ghost use Rattle.mapper.specs.Mapping as M;
ghost use Rattle.report.specs.Told as R;
ghost use Rattle.deqhulov.specs.Tells as D;

// Evaluates a function at a width, two operands and a carry. The values are the four ports.
#[unsafe(no_mangle)]
pub extern "C" fn deqhulov_evaluate(
    function: u32,
    width: u32,
    left: u64,
    right: u64,
    carry: u32,
    place: &mut u64,
    out: &mut [u64],
) -> u32
    ensures { R.Told (E.paper_of (E.evaluation function width left right carry)) result place.new out.old out.new }
{
    deqhulov::deqhulov_evaluate(function, width, left, right, carry, place, out)
}

// Prices a mapping under its job. The value is the glue count; that of a refusal 1 to 6 is 0 for the job and 1 for the mapping.
#[unsafe(no_mangle)]
pub extern "C" fn deqhulov_price(
    job: &[u32],
    mapping: &[u32],
    place: &mut u64,
    out: &mut [u64],
) -> u32
    ensures { R.Told (P.paper_of (P.pricing_of job.now mapping.now)) result place.new out.old out.new }
{
    deqhulov::deqhulov_price(job, mapping, place, out)
}

// Maps a job into lent words. The value is the number of words written.
#[unsafe(no_mangle)]
pub extern "C" fn deqhulov_map(
    job: &[u32],
    lent: &mut [u32],
    place: &mut u64,
    out: &mut [u64],
) -> u32
    ensures told { R.Told (M.paper_of (M.answer_of job.now lent.old)) result place.new out.old out.new }
    ensures written { lent.new ≡ M.lent_after_map job.now lent.old }
{
    deqhulov::deqhulov_map(job, lent, place, out)
}

// Checks a mapping against its job. The value of a refusal 1 to 6 is 0 for the job and 1 for the mapping; those of 10 are the port,
// the operands and the carry.
#[unsafe(no_mangle)]
pub extern "C" fn deqhulov_check(
    job: &[u32],
    mapping: &[u32],
    place: &mut u64,
    out: &mut [u64],
) -> u32
    ensures { D.TellsCheck job.now mapping.now result place.new out.old out.new }
{
    deqhulov::deqhulov_check(job, mapping, place, out)
}

// Judges a recipe word at a width; its target is plain for the mark 0, negated for 1. The values of 10 are the port, the operands and the
// carry.
#[unsafe(no_mangle)]
pub extern "C" fn deqhulov_judge(
    word: u32,
    width: u32,
    mark: u32,
    place: &mut u64,
    out: &mut [u64],
) -> u32
    ensures { D.TellsJudgement word width mark result place.new out.old out.new }
{
    deqhulov::deqhulov_judge(word, width, mark, place, out)
}
