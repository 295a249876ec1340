// Random runs of binds and releases, each answer and each bench beside the account's; and at the end of a run the list bound again, in its
// own order, from the bench with nothing bound.
use crate::account::{List, answer_to, bench_of};
use accounts::sound::BenchWords;
use bench_calls::steps::Step;
use bench_calls::{calls, lines};
use reference::trial::next;
use testing::kinds::Kind;
use testing::tally::more;
use testing::words::{from_scratch, word_of};

// A job of all functions but those that 5 divides, onto all but those that 7 divides.
const JOB: [u32; 48] = [
    0x1000_0003,
    0x2001_0103,
    0x3000_0001,
    0x3000_0002,
    0x3000_0003,
    0x3000_0004,
    0x3000_0006,
    0x3000_0007,
    0x3000_0008,
    0x3000_0009,
    0x3000_000B,
    0x3000_000C,
    0x3000_000D,
    0x3000_000E,
    0x3000_0010,
    0x3000_0011,
    0x3000_0012,
    0x3000_0013,
    0x3000_0015,
    0x3000_0016,
    0x3000_0017,
    0x3000_0018,
    0x3000_001A,
    0x3000_001B,
    0x4000_0001,
    0x4000_0002,
    0x4000_0003,
    0x4000_0004,
    0x4000_0005,
    0x4000_0006,
    0x4000_0008,
    0x4000_0009,
    0x4000_000A,
    0x4000_000B,
    0x4000_000C,
    0x4000_000D,
    0x4000_000F,
    0x4000_0010,
    0x4000_0011,
    0x4000_0012,
    0x4000_0013,
    0x4000_0014,
    0x4000_0016,
    0x4000_0017,
    0x4000_0018,
    0x4000_0019,
    0x4000_001A,
    0x4000_001B,
];

// A run: the bench, the account's list, the binds and the releases that were done, the steps that were refused, and those at which the
// two differ.
#[derive(Clone, Copy)]
struct Run {
    bench: BenchWords,
    list: List,
    bound: u64,
    released: u64,
    refused: u64,
    differ: u64,
}

// The tables of the job at a width, with nothing bound.
fn tables_at(width: u32) -> BenchWords {
    let opened = calls::open(&JOB);
    let mut bench = opened.bench;
    bench.width = width;
    bench
}

// A rule of a function: from scratch, if it is a logic function, or out of itself; now and then with a bit turned.
fn rule_of(function: u32, random: u64) -> u32 {
    let plain = from_scratch(Kind::Rule, function)
        .filter(|_| random % 2 == 0)
        .unwrap_or(word_of(Kind::Rule, function));
    if random / 2 % 4 == 0 {
        return plain ^ (1u32 << (random / 8 % 32));
    }
    plain
}

// After a step: what was told beside the answer of the account, and its list, which is another where the step was to be done.
fn with_step(run: Run, tables: BenchWords, step: Step) -> Run {
    let before = run.list;
    let told = step.taken_on(run.bench);
    let answer = told.answer;
    let bench = told.bench;
    let expected = answer_to(&tables, before, step);
    let list = if expected.is_ok() {
        before.after(step)
    } else {
        before
    };
    let same = answer == expected && bench == bench_of(tables, list);
    let done = answer.is_ok();
    let binds = matches!(step, Step::Bind(_));
    Run {
        bench,
        list,
        bound: more(run.bound, done && binds),
        released: more(run.released, done && !binds),
        refused: more(run.refused, !done),
        differ: more(run.differ, !same),
    }
}

// A bind so often out of 64 times, else a release.
fn step_of(random: u64, binds: u64) -> Step {
    let function = (random / 64 % 30) as u32;
    if random % 64 < binds {
        Step::Bind(rule_of(function % 28, random / 2048))
    } else {
        Step::Release(function)
    }
}

fn begun(tables: BenchWords) -> Run {
    Run {
        bench: tables,
        list: List::empty(),
        bound: 0,
        released: 0,
        refused: 0,
        differ: 0,
    }
}

// The list bound again from the first on.
fn bound_again(tables: BenchWords, list: List) -> BenchWords {
    let mut bench = tables;
    for rule in list.rules() {
        let told = calls::bind(bench, *rule);
        bench = told.bench;
    }
    bench
}

fn run_of(tables: BenchWords, binds: u64) -> Run {
    let mut run = begun(tables);
    let mut random: u64 = 88172645463325252 ^ binds;
    for _ in 0..20000 {
        random = next(random);
        run = with_step(run, tables, step_of(random >> 8, binds));
    }
    run
}

fn report_run(rt: &HostRuntime, width: u32, binds: u64) {
    let tables = tables_at(width);
    let run = run_of(tables, binds);
    let list = run.list;
    let again = bound_again(tables, list);
    let _ = print!(rt;
        "a run at width {width}: {} bound, {} released, {} refused, {} differ; {} bound at the end, ",
        run.bound,
        run.released,
        run.refused,
        run.differ,
        list.rules().len()
    );
    lines::whether(
        rt,
        again == run.bench,
        b"the same bench when bound again\n",
        b"ANOTHER BENCH WHEN BOUND AGAIN\n",
    );
}

pub fn report(rt: &HostRuntime) {
    report_run(rt, 1, 32);
    report_run(rt, 2, 44);
    report_run(rt, 3, 56);
}
