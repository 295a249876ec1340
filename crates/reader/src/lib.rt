// The reader of jobs and mappings: what their words say, or the first refusal, 1 to 6. Document 01, "Words" and "Refusals that
// come from the input".
#![tactic(auto)]

ghost use Rattle.std.specs.Prelude.{◌≡◌};
ghost use Rattle.reader.specs.Starts as S;
ghost use Rattle.reader.specs.Words as W;
ghost use Rattle.reader.specs.Job as J;
ghost use Rattle.reader.specs.Mapping as M;

use sequence::{File, MOST_JOB_WORDS, MOST_MAPPING_WORDS, State};
use words::{Fault, Prices, Refusal, WordKind};

// The word at which the sources of a job begin, and the one at which the bindings of a mapping do.
pub const SOURCES_START: usize = 2;

pub const BINDINGS_START: usize = 1;

// What a job says: its width, its prices, how many sources, targets and rules its words hold, in this order, behind these, and whether it
// asks for the book.
#[derive(Clone, Copy)]
pub struct Job {
    pub width: u32,
    pub prices: Prices,
    pub sources: u32,
    pub targets: u32,
    pub rules: u32,
    pub book: bool,
}

// What a mapping says: its width, how many bindings its words hold, and its glue count.
#[derive(Clone, Copy)]
pub struct Mapping {
    pub width: u32,
    pub bindings: u32,
    pub glue: u32,
}

// The prices of a job's second word.
fn prices_in(word: u32) -> Prices
    ensures { result ≡ J.prices_in word }
{
    Prices {
        inverter: ((word >> 16) & 0xff) as u8,
        gate: ((word >> 8) & 0xff) as u8,
        multiplexer: (word & 0xff) as u8,
    }
}

fn job_facts(header: u32, prices: u32, s: State) -> Job
    ensures { result ≡ J.job_facts header prices s }
{
    let prices = prices_in(prices);
    Job {
        width: header & 0x7f,
        prices,
        sources: s.sources,
        targets: s.targets,
        rules: s.rules,
        book: (header >> 7) & 1 == 1,
    }
}

// The most words of a file.
fn most_words(file: File) -> usize
    ensures { result ≡ W.most_words file }
{
    match file {
        File::AsJob => MOST_JOB_WORDS,
        File::AsMapping => MOST_MAPPING_WORDS,
    }
}

// The words of a file one by one: refusal 1, or the first of 2 to 6.
#[inline(always)]
#[tactic(auto, unfolding(crate::specs::Words::words_read))]
fn words_read(file: File, words: &[u32]) -> Result<State, Refusal>
    ensures { result ≡ W.words_read file words.now }
{
    let bad_length = Err(Refusal {
        fault: Fault::BadLength,
        place: 0,
    });
    if words.len() < 1 {
        return bad_length;
    }
    if most_words(file) < words.len() {
        return bad_length;
    }
    scan::read_words(file, words)
}

#[tactic(auto, using(crate::proofs::Limits::prices_there), unfolding(crate::specs::Job::job_of))]
pub fn read_job(words: &[u32]) -> Result<Job, Refusal>
    ensures { result ≡ J.job_of words.now }
{
    let s = words_read(File::AsJob, words)?;
    if s.sources < 1 {
        return Err(Refusal {
            fault: Fault::OutOfSequence,
            place: words.len(),
        });
    }
    Ok(job_facts(words[0], words[1], s))
}

fn mapping_facts(header: u32, last: u32, s: State) -> Mapping
    ensures { result ≡ M.mapping_facts header last s }
{
    Mapping {
        width: header & 0x7f,
        bindings: s.bindings,
        glue: words::content_of(last),
    }
}

#[tactic(auto, using(crate::proofs::Limits::some_there), unfolding(crate::specs::Mapping::mapping_of))]
pub fn read_mapping(words: &[u32]) -> Result<Mapping, Refusal>
    ensures { result ≡ M.mapping_of words.now }
{
    let s = words_read(File::AsMapping, words)?;
    if !s.ends_in(WordKind::Glue) {
        return Err(Refusal {
            fault: Fault::OutOfSequence,
            place: words.len(),
        });
    }
    Ok(mapping_facts(words[0], words[words.len() - 1], s))
}

// The words at which a job's targets and rules begin.
pub fn targets_start(job: Job) -> usize
    ensures { result ≡ S.targets_start job }
{
    SOURCES_START + job.sources as usize
}

pub fn rules_start(job: Job) -> usize
    ensures { result ≡ S.rules_start job }
{
    SOURCES_START + job.sources as usize + job.targets as usize
}
