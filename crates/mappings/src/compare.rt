// The mapper beside the second account of it, on random jobs.
use crate::jobs::BOOK_BIT;
use crate::marks::mark;
use crate::random::{Shape, job_of};
use book::BOOK;
use reference::answer::Subject;
use reference::trial::next;
use rulings::choosing::map;
use testing::say;
use testing::tally::{Tally, more};
use testing::words::{LENT, at, lent_holds};

// A series of random jobs: eight widths, how many jobs of each shape, the bits of the header that are set besides the width, and whether
// some of the targets are negated.
struct Series {
    name: &'static [u8],
    widths: [u32; 8],
    jobs: [(Shape, u32); 6],
    asked: u32,
    negated: bool,
}

// Widths at which the second account tries all operands, and at which it knows which rules are right.
const TRIED: [u32; 8] = [1, 2, 2, 3, 3, 4, 4, 4];

const KNOWN: [u32; 8] = [5, 8, 16, 31, 32, 33, 63, 64];

const JOBS: [(Shape, u32); 6] = [
    (Shape::SomeRules, 1600),
    (Shape::Prices0, 800),
    (Shape::NoRules, 40),
    (Shape::AllSources, 400),
    (Shape::ManyRules, 80),
    (Shape::BitTurned, 400),
];

// Of the jobs that ask for the book, which take longer and are mapped without rules too.
const BOOK_JOBS: [(Shape, u32); 6] = [
    (Shape::SomeRules, 400),
    (Shape::Prices0, 200),
    (Shape::NoRules, 200),
    (Shape::AllSources, 100),
    (Shape::ManyRules, 80),
    (Shape::BitTurned, 200),
];

// Of the jobs with negated targets, whose rules the second account tries at every width.
const NEGATED_JOBS: [(Shape, u32); 6] = [
    (Shape::SomeRules, 400),
    (Shape::Prices0, 200),
    (Shape::NoRules, 40),
    (Shape::AllSources, 100),
    (Shape::ManyRules, 24),
    (Shape::BitTurned, 200),
];

const SERIES: [Series; 8] = [
    Series {
        name: b"widths 1 to 4, ",
        widths: TRIED,
        jobs: JOBS,
        asked: 0,
        negated: false,
    },
    Series {
        name: b"widths 5 to 64, ",
        widths: KNOWN,
        jobs: JOBS,
        asked: 0,
        negated: false,
    },
    Series {
        name: b"the book, widths 1 to 4, ",
        widths: TRIED,
        jobs: BOOK_JOBS,
        asked: BOOK_BIT,
        negated: false,
    },
    Series {
        name: b"the book, widths 5 to 64, ",
        widths: KNOWN,
        jobs: BOOK_JOBS,
        asked: BOOK_BIT,
        negated: false,
    },
    Series {
        name: b"negated targets, widths 1 to 4, ",
        widths: TRIED,
        jobs: NEGATED_JOBS,
        asked: 0,
        negated: true,
    },
    Series {
        name: b"negated targets, widths 5 to 64, ",
        widths: KNOWN,
        jobs: NEGATED_JOBS,
        asked: 0,
        negated: true,
    },
    Series {
        name: b"negated targets, the book, widths 1 to 4, ",
        widths: TRIED,
        jobs: NEGATED_JOBS,
        asked: BOOK_BIT,
        negated: true,
    },
    Series {
        name: b"negated targets, the book, widths 5 to 64, ",
        widths: KNOWN,
        jobs: NEGATED_JOBS,
        asked: BOOK_BIT,
        negated: true,
    },
];

// The number of the mapper's refusal, and whether the second account answers and writes the same.
#[derive(Clone, Copy)]
struct Outcome {
    number: Option<u32>,
    same: bool,
}

// A job mapped into lent words.
fn outcome_in(job: &[u32], lent: &mut [u32]) -> Outcome {
    let told = mapper::map(job, lent).map_err(|refusal| told::refusal_of(Subject::Job, refusal));
    let same = match map(job, &BOOK, lent.len()) {
        Ok(mapping) => {
            let words = mapping.written();
            (told == Ok(words.len())) & lent_holds(lent, words)
        }
        Err(refusal) => (told == Err(refusal)) & lent_holds(lent, &[]),
    };
    let number = told.err().map(|refusal| refusal.number);
    Outcome { number, same }
}

// A job mapped with so many words lent, 32 at most.
fn outcome_of(job: &[u32], size: usize) -> Outcome {
    let mut lent = [LENT; 32];
    outcome_in(job, &mut lent[..size.min(32)])
}

// The jobs compared; how many were mapped, and how many were refused with 12, with 23 and with 1 to 6.
#[derive(Clone, Copy, Default)]
struct Counts {
    tally: Tally,
    mapped: u64,
    unmappable: u64,
    too_few_words: u64,
    ill_formed: u64,
}

impl Counts {
    // A job more. The first that differs is written out.
    fn count(&mut self, rt: &HostRuntime, job: &[u32], outcome: Outcome) {
        self.tally.count_or(outcome.same, || {
            say::words(rt, b"differs:", job);
            say::text(rt, b"\n");
        });
        match outcome.number {
            None => self.mapped = more(self.mapped, true),
            Some(12) => self.unmappable = more(self.unmappable, true),
            Some(23) => self.too_few_words = more(self.too_few_words, true),
            Some(1..=6) => self.ill_formed = more(self.ill_formed, true),
            Some(_) => {}
        }
    }
}

// The random jobs of a shape in a series. Half of them are lent more words than any mapping needs.
fn random_jobs(rt: &HostRuntime, series: &Series, shape: Shape, count: u32) -> Counts {
    let widths = series.widths;
    let mut all = Counts::default();
    let mut random = next(0x9e37_79b9_7f4a_7c15 ^ (shape as u64) ^ ((at(&widths, 0) as u64) << 8));
    for i in 0..count {
        let n = widths[(i % 8) as usize];
        let mut words = job_of(shape, n, series.asked, random);
        if series.negated {
            mark(&mut words, random);
        }
        let job = words.written();
        all.count(rt, job, outcome_of(job, (random % 64) as usize));
        random = next(random);
    }
    all
}

// A line for each shape.
fn report_series(rt: &HostRuntime, series: &Series) {
    for (shape, count) in series.jobs {
        let all = random_jobs(rt, series, shape, count);
        say::text(rt, series.name);
        let _ = println!(rt;
            "{}: {} jobs, {} mapped, {} refused 12, {} refused 23, {} refused 1 to 6, {} differ",
            shape.name(),
            all.tally.compared,
            all.mapped,
            all.unmappable,
            all.too_few_words,
            all.ill_formed,
            all.tally.differ
        );
    }
}

pub fn report_random(rt: &HostRuntime) {
    for series in &SERIES {
        report_series(rt, series);
    }
}
