// The mapper: for each source of a job the rule of document 01's choice, written as a mapping into lent words.
#![tactic(auto)]

ghost use Rattle.std.specs.Prelude.{◌≡◌, take};
ghost use Rattle.writer.specs.Write as W;
ghost use Rattle.choice.specs.Chosen as K;
ghost use Rattle.mapper.specs.Mapping as M;

use bits::Width;
use book::BOOK;
use choice::Chosen;
use reader::Job;
use table::JobWords;
use words::{Fault, Refusal};

// The choice for a job that was read. Its rules are a part of its words that begins after its tables; the book, if it asks for it, stands
// behind them.
fn choice_of(read: &JobWords) -> Result<Chosen, u32>
    ensures { K.KeptChoice result read.now.job.sources (M.choice_of read.now.words.now read.now.job) }
{
    let terms = read.terms();
    let rules = read.rules();
    if read.job.book {
        return choice::choose(&terms, rules, &BOOK);
    }
    choice::choose(&terms, rules, &[])
}

// Writes the mapping that binds by the chosen rules.
#[tactic(auto, using(crate::proofs::Answering::bound_length, crate::proofs::Answering::writable, crate::proofs::Answering::count_is))]
fn write_chosen(job: Job, chosen: Chosen, lent: &mut [u32]) -> Result<usize, Refusal>
    requires { K.WritableChoice job chosen }
    ensures answer { result ≡ W.written_of job.sources lent.old }
    ensures written { lent.new ≡ W.lent_after (M.chosen_words job (take job.sources chosen.words)) lent.old }
{
    let width = Width { n: job.width };
    let prices = job.prices;
    let count = tally::price(chosen.used, width, prices);
    let sources = job.sources as usize;
    let bound = chosen.words;
    writer::write_mapping(job.width, &bound[..sources], count, lent)
}

// The mapping of a job that was read: 12 comes before 23.
#[tactic(auto, using(crate::proofs::Answering::unmapped_answer, crate::proofs::Answering::unmapped_lent, crate::proofs::Answering::ready, crate::proofs::Answering::mapped_answer, crate::proofs::Answering::mapped_lent))]
fn map_read(read: &JobWords, lent: &mut [u32]) -> Result<usize, Refusal>
    ensures answer { result ≡ M.answer_to (M.choice_of read.now.words.now read.now.job) lent.old }
    ensures written { lent.new ≡ M.lent_to read.now.job (M.choice_of read.now.words.now read.now.job) lent.old }
{
    match choice_of(read) {
        Err(function) => Err(Refusal {
            fault: Fault::Unmappable,
            place: function as usize,
        }),
        Ok(chosen) => write_chosen(read.job, chosen, lent),
    }
}

// Maps a job into lent words, and answers how many words it wrote; or the job's refusal, 1 to 6, 12, then 23. Refused, it leaves every lent word
// as it was.
#[tactic(auto, unfolding(crate::specs::Mapping::answer_of, crate::specs::Mapping::lent_after_map))]
pub fn map(words: &[u32], lent: &mut [u32]) -> Result<usize, Refusal>
    ensures answer { result ≡ M.answer_of words.now lent.old }
    ensures written { lent.new ≡ M.lent_after_map words.now lent.old }
{
    let job = reader::read_job(words)?;
    map_read(&JobWords { words, job }, lent)
}
