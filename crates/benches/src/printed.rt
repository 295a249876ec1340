// The printed job bound in the order of its sources, finished and checked, and released in another order; the stored count and the price
// after each call.
use accounts::sound::BenchWords;
use bench_calls::calls::Told;
use bench_calls::files::{ADD_RULE, AND_RULE, LT_RULE, RSUB_RULE};
use bench_calls::steps::Step;
use bench_calls::{calls, lines};
use reference::answer::Given;
use testing::say;
use testing::words::JOB;

// The four rules, and the counts after each.
const BINDS: [(Step, usize); 4] = [
    (Step::Bind(ADD_RULE), 0),
    (Step::Bind(RSUB_RULE), 64),
    (Step::Bind(AND_RULE), 128),
    (Step::Bind(LT_RULE), 132),
];

// RSUB, LT, ADD and AND, and the counts after each is released.
const RELEASES: [(Step, usize); 4] = [
    (Step::Release(3), 68),
    (Step::Release(25), 64),
    (Step::Release(1), 16),
    (Step::Release(8), 0),
];

// The price of a bench and the count that it stores, which are to be the expected one.
fn show_price(rt: &HostRuntime, bench: BenchWords, expected: usize) {
    let told = calls::price(bench);
    let price = told.answer;
    lines::answer(rt, b"", price);
    let _ = print!(rt; ", stored {}", bench.glue);
    let same = (price == Ok(Given::Count(expected as u64))) & (bench.glue as usize == expected);
    lines::whether(rt, same, b"\n", b" NOT AS EXPECTED\n");
}

// Whether a call was done, and the price of the bench that came back with it.
fn show_step(rt: &HostRuntime, told: Told, expected: usize) {
    let answer = told.answer;
    let bench = told.bench;
    lines::whether(rt, answer == Ok(Given::Nothing), b" done", b" REFUSED");
    show_price(rt, bench, expected);
}

// Takes steps on a bench one after another, each with the count after it; the bench that comes back from the last.
pub fn show_steps(rt: &HostRuntime, bench: BenchWords, steps: &[(Step, usize)]) -> BenchWords {
    let mut bench = bench;
    for (step, expected) in steps {
        let told = step.taken_on(bench);
        step.say(rt);
        show_step(rt, told, *expected);
        bench = told.bench;
    }
    bench
}

// Into eight words, of which six are written.
fn show_finish(rt: &HostRuntime, bench: BenchWords) {
    let finished = calls::finish(bench, 8);
    let written = finished.answer;
    lines::answer(rt, b"    finish", written);
    lines::whether(
        rt,
        finished.printed,
        b", as printed and nothing past them\n",
        b", OTHER WORDS\n",
    );
    lines::answer(rt, b"    checked", written);
    let accepted = calls::is_accepted(bench, &JOB);
    lines::whether(rt, accepted, b", accepted\n", b", NOT ACCEPTED\n");
}

pub fn report(rt: &HostRuntime) {
    say::text(rt, b"the printed job\n    open");
    let opened = calls::open(&JOB);
    show_step(rt, opened, 0);
    let bench = show_steps(rt, opened.bench, &BINDS);
    show_finish(rt, bench);
    show_steps(rt, bench, &RELEASES);
}
