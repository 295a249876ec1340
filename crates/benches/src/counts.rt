// The bench of the printed job with all bound, handed in with counts that are its own and others.
use accounts::sound::BenchWords;
use bench_calls::calls::Told;
use bench_calls::files::{ADD_RULE, Made, RULES};
use bench_calls::{calls, lines};
use testing::say;

// Its own; one off; none; the largest; that of width 8 and of width 17; its own with the highest bit set; and document 01's older one, with
// a control gate for each minterm.
const COUNTS: [u32; 9] = [132, 131, 133, 0, 0xFFFF_FFFF, 68, 140, 0x8000_0084, 148];

// What a call says, and whether the bench and the lent words are as they were.
fn show_call(rt: &HostRuntime, name: &[u8], told: Told, bench: BenchWords) {
    let answer = told.answer;
    lines::answer(rt, name, answer);
    lines::whether(rt, (told.bench == bench) & told.untouched, b" kept", b"");
}

fn show_count(rt: &HostRuntime, count: u32) {
    let mut bench = Made::Printed(16, &RULES).words();
    bench.glue = count;
    let _ = print!(rt; "    stored {count}");
    show_call(rt, b", bind", calls::bind(bench, ADD_RULE), bench);
    show_call(rt, b", release", calls::release(bench, 8), bench);
    show_call(rt, b", price", calls::price(bench), bench);
    show_call(rt, b", finish", calls::finish(bench, 6), bench);
    say::text(rt, b"\n");
}

pub fn report(rt: &HostRuntime) {
    say::text(rt, b"the printed job bound, with a count\n");
    for count in COUNTS {
        show_count(rt, count);
    }
}
