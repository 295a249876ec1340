// Releases that are done and releases that are refused, on benches of the printed job.
use bench_calls::files::Made::{Inhibit, Printed, Zeros};
use bench_calls::files::{ADD_RULE, AND_RULE, LT_RULE, Made, WRONG_LT_RULE};
use bench_calls::{calls, lines};
use testing::say;
use testing::words::put;

// The printed job's bench with all but RSUB bound.
const WITHOUT_RSUB: Made = Printed(16, &[ADD_RULE, AND_RULE, LT_RULE]);

// A release: its name, the bench, the entry in which nothing is to stand then, or none where it is to be refused, and the function.
type Release = (&'static [u8], Made, Option<usize>, u32);

// 20 comes before 24: on zeros, on the printed job's bench at width 65, and on the one that has the printed LT bound, which is wrong.
const RELEASES: [Release; 20] = [
    (b"ADD", WITHOUT_RSUB, Some(0), 1),
    (b"AND", WITHOUT_RSUB, Some(2), 8),
    (b"LT", WITHOUT_RSUB, Some(3), 25),
    (b"RSUB, not bound", WITHOUT_RSUB, None, 3),
    (b"SUB, no source", WITHOUT_RSUB, None, 2),
    (b"no function", WITHOUT_RSUB, None, 0),
    (b"past the last function", WITHOUT_RSUB, None, 28),
    (b"the last of five bits", WITHOUT_RSUB, None, 31),
    (b"bit 5 alone", WITHOUT_RSUB, None, 32),
    (b"ADD and bit 5", WITHOUT_RSUB, None, 33),
    (b"a source word", WITHOUT_RSUB, None, 0x3000_0001),
    (b"the largest number", WITHOUT_RSUB, None, 0xFFFF_FFFF),
    (b"ADD, nothing bound", Printed(16, &[]), None, 1),
    (b"LT, nothing bound", Inhibit(1), None, 25),
    (b"on zeros, no function", Zeros, None, 0),
    (b"on zeros, ADD", Zeros, None, 1),
    (b"width 65, ADD", Printed(65, &[ADD_RULE]), None, 1),
    (b"width 65, no function", Printed(65, &[ADD_RULE]), None, 28),
    (
        b"the printed LT bound, LT",
        Printed(16, &[WRONG_LT_RULE]),
        None,
        25,
    ),
    (
        b"the printed LT bound, RSUB, not bound",
        Printed(16, &[WRONG_LT_RULE]),
        None,
        3,
    ),
];

// What becomes of the bench: nothing stands in the entry, or the bench is kept.
fn say_outcome(rt: &HostRuntime, as_said: bool, entry: Option<usize>) {
    if entry.is_some() {
        lines::whether(rt, as_said, b", taken off\n", b", NOT TAKEN OFF\n");
    } else {
        lines::whether(rt, as_said, b", bench kept\n", b", NOT SO\n");
    }
}

// Kept: like a bind's row in `benches`, but a release has a number and no word, empties an entry, and has no operands to bear out.
fn show(rt: &HostRuntime, row: Release) {
    let (name, bench, entry, function) = row;
    let bench = bench.words();
    let told = calls::release(bench, function);
    let answer = told.answer;
    let mut expected = bench;
    if let Some(entry) = entry {
        put(&mut expected.bound, entry, 0);
    }
    let _ = print!(rt; "    {function}, ");
    lines::answer(rt, name, answer);
    say_outcome(rt, told.bench == expected.counted(), entry);
}

pub fn report(rt: &HostRuntime) {
    say::text(rt, b"release, ADD, AND and LT being bound\n");
    for row in &RELEASES {
        show(rt, *row);
    }
}
