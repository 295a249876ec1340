// The bench's calls, on benches as the second account has them. Here alone a bench and its answers are taken apart.
use accounts::reading::recipe_in;
use accounts::sound;
use accounts::sound::{BenchWords, Table};
use bench::{After, Bench, CallError};
use reference::answer::{Answer, Given, Subject};
use soundness::Tables;
use testing::words::{LENT, MAPPING, first, lent_holds};
use words::Prices;

fn bench_of(words: BenchWords) -> Bench {
    let prices = Prices {
        inverter: words.prices.inverter,
        gate: words.prices.gate,
        multiplexer: words.prices.multiplexer,
    };
    let sources = words.sources.words;
    let targets = words.targets.words;
    let bound = words.bound;
    let tables = Tables {
        width: words.width,
        prices,
        sources,
        nsources: words.sources.count,
        targets,
        ntargets: words.targets.count,
    };
    Bench {
        tables,
        bound,
        glue: words.glue,
    }
}

fn words_of(bench: Bench) -> BenchWords {
    let tables = bench.tables;
    let prices = sound::Prices {
        inverter: tables.prices.inverter,
        gate: tables.prices.gate,
        multiplexer: tables.prices.multiplexer,
    };
    let sources = tables.sources;
    let targets = tables.targets;
    let bound = bench.bound;
    BenchWords {
        width: tables.width,
        prices,
        sources: Table {
            words: sources,
            count: tables.nsources,
        },
        targets: Table {
            words: targets,
            count: tables.ntargets,
        },
        bound,
        glue: bench.glue,
    }
}

// The answer to a call with a rule, 0 where it has none, on a bench.
fn answer_of(answer: Result<Given, CallError>, rule: u32, bench: &BenchWords) -> Answer {
    let recipe = recipe_in(&bench.targets.words, rule);
    answer.map_err(|error| match error {
        CallError::Refused(refusal) => told::refusal_of(Subject::Word, refusal),
        CallError::Wrong(witness) => told::wrong_of(recipe, bench.width, witness),
    })
}

// What a call answers, the bench that comes back, and the words lent to it: whether all are untouched, and whether the printed mapping
// stands in them and nothing past it.
#[derive(Clone, Copy)]
pub struct Told {
    pub answer: Answer,
    pub bench: BenchWords,
    pub untouched: bool,
    pub printed: bool,
}

fn told_by(bench: Bench, answer: Result<Given, CallError>, lent: &[u32], rule: u32) -> Told {
    let bench = words_of(bench);
    Told {
        answer: answer_of(answer, rule, &bench),
        bench,
        untouched: lent_holds(lent, &[]),
        printed: lent_holds(lent, &MAPPING),
    }
}

fn told_by_step(after: After<()>, rule: u32) -> Told {
    let answer = after.answer.map(|()| Given::Nothing);
    told_by(after.bench, answer, &[], rule)
}

pub fn open(job: &[u32]) -> Told {
    told_by_step(Bench::open(job), 0)
}

pub fn bind(words: BenchWords, rule: u32) -> Told {
    let bench = bench_of(words);
    told_by_step(bench.bind(rule), rule)
}

pub fn release(words: BenchWords, function: u32) -> Told {
    let bench = bench_of(words);
    told_by_step(bench.release(function), 0)
}

pub fn price(words: BenchWords) -> Told {
    let after = bench_of(words).price();
    let answer = after.answer.map(|count| Given::Count(count as u64));
    told_by(after.bench, answer, &[], 0)
}

fn finish_into(words: BenchWords, lent: &mut [u32]) -> Told {
    let after = bench_of(words).finish(lent);
    let answer = after.answer.map(Given::Words);
    told_by(after.bench, answer, lent, 0)
}

// Finishes into so many lent words, 32 at most.
pub fn finish(words: BenchWords, size: usize) -> Told {
    let mut lent = [LENT; 32];
    finish_into(words, &mut lent[..size.min(32)])
}

// Whether a bench finishes with a mapping, and writes nothing past it.
pub fn writes(words: BenchWords, mapping: &[u32]) -> bool {
    let mut lent = [LENT; 32];
    let after = bench_of(words).finish(&mut lent);
    after.answer.is_ok_and(|size| size == mapping.len()) & lent_holds(&lent, mapping)
}

// Whether the checker accepts the words that a bench writes as a job's.
pub fn is_accepted(words: BenchWords, job: &[u32]) -> bool {
    let mut lent = [LENT; 32];
    let after = bench_of(words).finish(&mut lent);
    let size = after.answer.unwrap_or(0);
    checker::check(job, first(&lent, size)).is_ok()
}
