// The library's reader beside the second one, with what tests say of both.
#![tactic(auto)]

use accounts::reading::{File, JobFacts, MappingFacts, read_job, read_mapping};
use reader::{Job, Mapping};
use reference::answer::{Refusal, Subject};
use testing::say;
use testing::tally::{Numbers, noted};

// What document 01 says of a file: that it is accepted, or refused with a number at a place.
pub type Said = Result<(), (u32, usize)>;

fn facts_of(job: Job) -> JobFacts {
    let prices = job.prices;
    JobFacts {
        width: job.width,
        inverter: prices.inverter as u32,
        gate: prices.gate as u32,
        multiplexer: prices.multiplexer as u32,
        sources: job.sources,
        targets: job.targets,
        rules: job.rules,
        book: job.book,
    }
}

fn from_job(answer: Result<Job, words::Refusal>) -> Result<JobFacts, Refusal> {
    answer
        .map(facts_of)
        .map_err(|refusal| told::refusal_of(Subject::Job, refusal))
}

fn from_mapping(answer: Result<Mapping, words::Refusal>) -> Result<MappingFacts, Refusal> {
    let mapping = answer.map_err(|refusal| told::refusal_of(Subject::Mapping, refusal))?;
    Ok(MappingFacts {
        width: mapping.width,
        bindings: mapping.bindings,
        glue: mapping.glue,
    })
}

// The refusal of the library's reader, and whether the second one refuses the same, or finds the same facts.
fn read_by_both(file: File, words: &[u32]) -> (Option<Refusal>, bool) {
    match file {
        File::Job => {
            let told = from_job(reader::read_job(words));
            (told.err(), told == read_job(words))
        }
        File::Mapping => {
            let told = from_mapping(reader::read_mapping(words));
            (told.err(), told == read_mapping(words))
        }
    }
}

// Compares the readers on a file, with each other and with what document 01 says of it, where it tells.
pub fn compare(all: Numbers, file: File, words: &[u32], said: Option<Said>) -> Numbers {
    let (refusal, same) = read_by_both(file, words);
    let told = match refusal {
        Some(refusal) => Err((refusal.number, refusal.place)),
        None => Ok(()),
    };
    let as_said = said.is_none_or(|said| told == said);
    noted(all, refusal.map(|refusal| refusal.number), as_said && same)
}

pub fn report(rt: &HostRuntime, name: &[u8], all: Numbers) {
    let tally = all.tally;
    let by = all.by;
    say::text(rt, name);
    let _ = println!(rt;
        ": {tally}; accepted {}, refused 1: {}, 2: {}, 3: {}, 4: {}, 5: {}, 6: {}",
        by[0], by[1], by[2], by[3], by[4], by[5], by[6]
    );
}
