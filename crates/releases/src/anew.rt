// What was released is bound anew, by the same rule and by another, and the price follows.
use accounts::sound::BenchWords;
use bench_calls::steps::Step;
use bench_calls::steps::Step::{Bind, Release};
use bench_calls::{calls, lines};
use testing::say;
use testing::words::JOB;

// One after another; RSUB has two right rules in the printed job, and LT one that is wrong.
const STEPS: [Step; 16] = [
    Bind(0x5085_4960),
    Bind(0x5185_C960),
    Release(3),
    Bind(0x518A_2960),
    Bind(0x5185_C960),
    Release(3),
    Bind(0x5185_C960),
    Bind(0x5C89_440C),
    Release(25),
    Bind(0x5C89_4407),
    Bind(0x5C89_440C),
    Release(25),
    Release(25),
    Release(1),
    Release(3),
    Release(3),
];

fn show_price(rt: &HostRuntime, bench: BenchWords) {
    let priced = calls::price(bench);
    let price = priced.answer;
    lines::answer(rt, b"", price);
}

// At the end the bench is the opened one again.
pub fn report(rt: &HostRuntime) {
    say::text(rt, b"bound, released and bound anew\n");
    let opened = calls::open(&JOB);
    let mut bench = opened.bench;
    for step in STEPS {
        let told = step.taken_on(bench);
        step.say(rt);
        let answer = told.answer;
        bench = told.bench;
        lines::answer(rt, b"", answer);
        show_price(rt, bench);
        lines::whether(rt, bench == opened.bench, b", as opened\n", b"\n");
    }
}
