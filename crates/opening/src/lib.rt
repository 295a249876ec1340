// The tables of a bench: those of a job, and those of zeros.
#![tactic(auto)]

ghost use Rattle.std.specs.Prelude.{◌≡◌, ◌≤◌, length};
ghost use Rattle.opening.specs.Opening as O;

use reader::Job;
use sequence::{MOST_SOURCES, MOST_TARGETS};
use soundness::{NOTHING, Tables};
use table::JobWords;
use words::Prices;

// What a job of zeros would be.
const NO_JOB: Job = Job {
    width: 0,
    prices: Prices {
        inverter: 0,
        gate: 0,
        multiplexer: 0,
    },
    sources: 0,
    targets: 0,
    rules: 0,
    book: false,
};

// The tables of a job with these words in them.
fn tables_with(job: Job, sources: [u32; MOST_SOURCES], targets: [u32; MOST_TARGETS]) -> Tables
    ensures { result ≡ O.tables_with job sources targets }
{
    let prices = job.prices;
    Tables {
        width: job.width,
        prices,
        sources,
        nsources: job.sources,
        targets,
        ntargets: job.targets,
    }
}

pub fn tables_of_zeros() -> Tables
    ensures { result ≡ O.tables_of_zeros }
{
    tables_with(NO_JOB, [0u32; MOST_SOURCES], [0u32; MOST_TARGETS])
}

// A table of these words, with NOTHING past them.
#[tactic(auto, using(crate::proofs::Copying::table_filled))]
fn table_of<const ENTRIES: usize>(words: &[u32]) -> [u32; ENTRIES]
    requires { length words.now ≤ ENTRIES }
    ensures { result ≡ O.table_of ENTRIES words.now }
{
    let mut table = [NOTHING; ENTRIES];
    soundness::copy(words, &mut table, 0);
    table
}

// The tables of a job that was read.
#[tactic(auto, using(crate::proofs::Opened::few_sources, crate::proofs::Opened::few_targets, crate::proofs::Opened::job_tables))]
pub fn tables_of(read: &JobWords) -> Tables
    ensures { result ≡ O.tables_in read.now.words.now read.now.job }
{
    let terms = read.terms();
    let sources: [u32; MOST_SOURCES] = table_of(terms.sources);
    let targets: [u32; MOST_TARGETS] = table_of(terms.targets);
    tables_with(read.job, sources, targets)
}
