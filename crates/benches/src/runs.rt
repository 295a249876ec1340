// The printed job bound again, with calls that are refused before and after each bind.
use crate::orders::writes_the_mapping;
use accounts::sound::BenchWords;
use bench_calls::calls::Told;
use bench_calls::files::{ADD_RULE, AND_RULE, LT_RULE, RSUB_RULE, WRONG_LT_RULE};
use bench_calls::{calls, lines};
use reference::answer::{Given, Subject, refused};
use testing::tally::more;
use testing::words::JOB;

// Rules that bind refuses as long as LT is not bound, and the numbers.
const REFUSED: [(u32, u32); 8] = [
    (0x6085_4960, 2),
    (0x5185_C970, 3),
    (0x5C89_4401, 5),
    (0x5185_C920, 6),
    (0x5109_4960, 8),
    (0x5421_4100, 8),
    (WRONG_LT_RULE, 10),
    (0x5C8A_240B, 10),
];

// The rules that are bound, each with the lowest source that is not bound before it.
const BINDS: [(u32, usize); 4] = [(ADD_RULE, 1), (RSUB_RULE, 3), (AND_RULE, 8), (LT_RULE, 25)];

// The bench of a run; its calls that were to be refused; those that were, as expected; those that left the bench, and the lent words,
// as they were; and the binds that were done.
#[derive(Clone, Copy)]
pub struct Run {
    pub bench: BenchWords,
    tried: u64,
    refused: u64,
    kept: u64,
    pub done: u64,
}

// The printed job opened.
pub fn begun() -> Run {
    let opened = calls::open(&JOB);
    let bench = opened.bench;
    Run {
        bench,
        tried: 0,
        refused: 0,
        kept: 0,
        done: 0,
    }
}

// A call that was to be refused.
fn noted(run: Run, told: Told, refused: bool) -> Run {
    let bench = told.bench;
    let kept = told.untouched & (bench == run.bench);
    Run {
        bench,
        tried: more(run.tried, true),
        refused: more(run.refused, refused),
        kept: more(run.kept, kept),
        done: run.done,
    }
}

fn with_refused(run: Run, word: u32, number: u32) -> Run {
    let bench = run.bench;
    let told = calls::bind(bench, word);
    let answer = told.answer;
    let refused = answer.is_err_and(|refusal| (refusal.number == number) & refusal.shown);
    noted(run, told, refused)
}

fn with_each_refused(run: Run) -> Run {
    let mut run = run;
    for (word, number) in REFUSED {
        run = with_refused(run, word, number);
    }
    run
}

pub fn with_bound(run: Run, word: u32) -> Run {
    let bench = run.bench;
    let told = calls::bind(bench, word);
    let answer = told.answer;
    let bench = told.bench;
    Run {
        bench,
        done: more(run.done, answer == Ok(Given::Nothing)),
        ..run
    }
}

// A finish into so many words, which is to be refused.
fn with_finish(run: Run, size: usize, number: u32, place: usize) -> Run {
    let bench = run.bench;
    let told = calls::finish(bench, size);
    let answer = told.answer;
    let refused = answer == Err(refused(Subject::Word, number, place));
    noted(run, told, refused)
}

// Refused calls and a finish into words that are enough; then a bind, and the same bind again.
fn with_step(run: Run, rule: u32, unbound: usize) -> Run {
    let kept = with_finish(with_each_refused(run), 6, 22, unbound);
    with_refused(with_bound(kept, rule), rule, 21)
}

fn with_steps() -> Run {
    let mut run = begun();
    for (rule, unbound) in BINDS {
        run = with_step(run, rule, unbound);
    }
    run
}

// At the end a finish into words that are too few.
pub fn report(rt: &HostRuntime) {
    let run = with_finish(with_steps(), 5, 23, 6);
    let _ = print!(rt;
        "a run with refused calls: {} tried, refused as expected {}, bench and lent words kept {}; binds done {}",
        run.tried, run.refused, run.kept, run.done
    );
    let last = run.bench;
    lines::whether(
        rt,
        writes_the_mapping(last),
        b"; the printed mapping written\n",
        b"; OTHER WORDS WRITTEN\n",
    );
}
