// Rules that bind refuses, and some that it binds.
use accounts::sound::BenchWords;
use bench_calls::calls::Told;
use bench_calls::files::Made::{Inhibit, Printed, Zeros};
use bench_calls::files::{ADD_RULE, Made, WRONG_LT_RULE};
use bench_calls::{calls, lines};
use reference::answer::Refusal;
use testing::say;
use testing::words::put;

// The printed job's bench with ADD bound.
const ADD_BOUND: Made = Printed(16, &[ADD_RULE]);

// A bind: its name, the bench, the entry in which the word is to stand then, or none where it is to be refused, and the word.
pub type Bind = (&'static [u8], Made, Option<usize>, u32);

const WITH_ADD: [Bind; 28] = [
    (b"no kind", ADD_BOUND, None, 0x0000_0000),
    (b"a binding", ADD_BOUND, None, 0x6085_4960),
    (b"a source", ADD_BOUND, None, 0x3000_0003),
    (b"bit 4", ADD_BOUND, None, 0x5185_C970),
    (b"right wiring 7", ADD_BOUND, None, 0x5185_F960),
    (b"main output 3", ADD_BOUND, None, 0x5185_CB60),
    (b"target 28", ADD_BOUND, None, 0x51F1_C960),
    (b"wired from scratch", ADD_BOUND, None, 0x5401_0001),
    (b"LT from scratch", ADD_BOUND, None, 0x5C80_0001),
    (b"TO1 of SUB", ADD_BOUND, None, 0x5C89_4401),
    (b"no carry out", ADD_BOUND, None, 0x5185_C920),
    (b"SUB, no source", ADD_BOUND, None, 0x5109_4960),
    (b"AND from AND, no target", ADD_BOUND, None, 0x5421_4100),
    (b"ADD again", ADD_BOUND, None, 0x5085_4960),
    (b"LT as printed", ADD_BOUND, None, 0x5C89_4407),
    (b"LT of the appendix", ADD_BOUND, None, 0x5C8A_240B),
    (b"RSUB as ADD", ADD_BOUND, None, 0x5185_4960),
    (b"AND of another vector", ADD_BOUND, None, 0x5400_0002),
    (b"2 before 3", ADD_BOUND, None, 0x6FFF_FFFF),
    (b"3 before 5", ADD_BOUND, None, 0x5CA1_401C),
    (b"5 before 6", ADD_BOUND, None, 0x5185_C801),
    (b"5 before 8", ADD_BOUND, None, 0x5CA1_400C),
    (b"6 before 8", ADD_BOUND, None, 0x5109_4920),
    (b"8 before 21", ADD_BOUND, None, 0x508D_4960),
    (b"8 before 10", ADD_BOUND, None, 0x5105_4960),
    (b"21 before 10", ADD_BOUND, None, 0x5089_4960),
    (b"RSUB", ADD_BOUND, Some(1), 0x5185_C960),
    (b"LT", ADD_BOUND, Some(3), 0x5C89_440C),
];

// LT as GOR of RINHI is right at width 1 alone.
const OF_LT: [Bind; 2] = [
    (b"LT at width 1", Inhibit(1), Some(0), 0x5CCD_4003),
    (b"LT at width 2", Inhibit(2), None, 0x5CCD_4003),
];

// 20 comes before every other: on zeros, on the printed job's bench at width 65, and on the one that has the printed LT bound, which is
// wrong.
const NOT_SOUND: [Bind; 6] = [
    (b"on zeros, no kind", Zeros, None, 0x0000_0000),
    (b"on zeros, ADD", Zeros, None, 0x5085_4960),
    (
        b"width 65, bit 4",
        Printed(65, &[ADD_RULE]),
        None,
        0x5185_C970,
    ),
    (
        b"width 65, SUB, no source",
        Printed(65, &[ADD_RULE]),
        None,
        0x5109_4960,
    ),
    (
        b"the printed LT bound, LT again",
        Printed(16, &[WRONG_LT_RULE]),
        None,
        0x5C89_440C,
    ),
    (
        b"the printed LT bound, RSUB as ADD",
        Printed(16, &[WRONG_LT_RULE]),
        None,
        0x5185_4960,
    ),
];

// What becomes of the bench: the word stands in its entry; or the bench is kept, and refusal 10 is borne out.
fn say_outcome(rt: &HostRuntime, as_said: bool, entry: Option<usize>, refusal: Option<Refusal>) {
    if entry.is_some() {
        lines::whether(rt, as_said, b", at its place\n", b", NOT AT ITS PLACE\n");
    } else if refusal.is_some_and(|refusal| refusal.number == 10) {
        lines::whether(
            rt,
            as_said,
            b", borne out, bench kept\n",
            b", borne out, NOT SO\n",
        );
    } else {
        lines::whether(rt, as_said, b", bench kept\n", b", NOT SO\n");
    }
}

// The bench then has the word in the entry, or is kept; and the operands of refusal 10 show it.
fn is_as_said(bench: BenchWords, word: u32, entry: Option<usize>, told: Told) -> bool {
    let answer = told.answer;
    let mut expected = bench;
    if let Some(entry) = entry {
        put(&mut expected.bound, entry, word);
    }
    (told.bench == expected.counted()) & !answer.is_err_and(|refusal| !refusal.shown)
}

fn show(rt: &HostRuntime, row: Bind) {
    let (name, bench, entry, word) = row;
    let bench = bench.words();
    let told = calls::bind(bench, word);
    let answer = told.answer;
    let as_said = is_as_said(bench, word, entry, told);
    say::word(rt, b"    ", word);
    say::text(rt, b", ");
    lines::answer(rt, name, answer);
    say_outcome(rt, as_said, entry, answer.err());
}

pub fn show_rows(rt: &HostRuntime, title: &[u8], rows: &[Bind]) {
    say::text(rt, title);
    for row in rows {
        show(rt, *row);
    }
}

pub fn report(rt: &HostRuntime) {
    show_rows(rt, b"bind, ADD being bound\n", &WITH_ADD);
    show_rows(rt, b"bind, LT as GOR of RINHI\n", &OF_LT);
    show_rows(rt, b"bind on benches that are not sound\n", &NOT_SOUND);
}
