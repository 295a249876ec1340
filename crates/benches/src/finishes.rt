// Benches that finish and price refuse, and one that they take, with lent words of several lengths.
use accounts::sound::BenchWords;
use bench_calls::calls::Told;
use bench_calls::files::Made::{Printed, Zeros};
use bench_calls::files::{ADD_RULE, AND_RULE, LT_RULE, Made, RSUB_RULE, RULES, WRONG_LT_RULE};
use bench_calls::{calls, lines};
use testing::say;

// A finish: its name, the bench and the number of lent words. The printed LT, which is wrong, is bound with the rest or alone.
const FINISHES: [(&[u8], Made, usize); 12] = [
    (b"nothing bound, no words", Printed(16, &[]), 0),
    (
        b"ADD and AND bound, 32 words",
        Printed(16, &[ADD_RULE, AND_RULE]),
        32,
    ),
    (
        b"ADD, RSUB and AND bound, 6 words",
        Printed(16, &[ADD_RULE, RSUB_RULE, AND_RULE]),
        6,
    ),
    (
        b"all but ADD bound, 5 words",
        Printed(16, &[RSUB_RULE, AND_RULE, LT_RULE]),
        5,
    ),
    (b"all bound, no words", Printed(16, &RULES), 0),
    (b"all bound, 5 words", Printed(16, &RULES), 5),
    (b"all bound, 6 words", Printed(16, &RULES), 6),
    (b"all bound, 32 words", Printed(16, &RULES), 32),
    (b"zeros, no words", Zeros, 0),
    (b"zeros, 32 words", Zeros, 32),
    (
        b"the printed LT bound, 6 words",
        Printed(16, &[ADD_RULE, RSUB_RULE, AND_RULE, WRONG_LT_RULE]),
        6,
    ),
    (
        b"the printed LT alone bound, no words",
        Printed(16, &[WRONG_LT_RULE]),
        0,
    ),
];

// The same of a price, which has no lent words.
const PRICES: [(&[u8], Made); 4] = [
    (b"nothing bound", Printed(16, &[])),
    (b"all bound", Printed(16, &RULES)),
    (b"zeros", Zeros),
    (
        b"the printed LT bound",
        Printed(16, &[ADD_RULE, RSUB_RULE, AND_RULE, WRONG_LT_RULE]),
    ),
];

// A call that keeps its bench.
fn show_told(rt: &HostRuntime, name: &[u8], told: Told, bench: BenchWords) {
    let answer = told.answer;
    say::text(rt, b"    ");
    lines::answer(rt, name, answer);
    lines::whether(rt, told.bench == bench, b", bench kept", b", BENCH CHANGED");
}

fn show_finish(rt: &HostRuntime, name: &[u8], bench: BenchWords, size: usize) {
    let finished = calls::finish(bench, size);
    show_told(rt, name, finished, bench);
    if finished.untouched {
        say::text(rt, b", lent words untouched\n");
    } else {
        lines::whether(
            rt,
            finished.printed,
            b", the printed mapping and nothing past it\n",
            b", OTHER WORDS\n",
        );
    }
}

fn show_finishes(rt: &HostRuntime) {
    for (name, bench, size) in &FINISHES {
        show_finish(rt, name, bench.words(), *size);
    }
}

fn show_prices(rt: &HostRuntime) {
    for (name, bench) in &PRICES {
        let bench = bench.words();
        show_told(rt, name, calls::price(bench), bench);
        say::text(rt, b"\n");
    }
}

pub fn report(rt: &HostRuntime) {
    say::text(rt, b"finish\n");
    show_finishes(rt);
    say::text(rt, b"price\n");
    show_prices(rt);
}
