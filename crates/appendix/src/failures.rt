// Records that do not show what their source function shows, each at the least left, right and carry where it does not.
use crate::judged::is_answer;
use crate::shown::{Narrow, by_library, by_reference, plain};
use reference::evaluator::Operands;
use reference::recipe::{Port, first_difference};
use reference::trial::ones;
use testing::say;
use testing::tally::Tally;

// A record of the report's appendix by its name, and its word.
pub type Record = (&'static str, u32);

// All operands of a width in turn, by the left one, then the right one, then the carry.
pub fn operands_at(width: Narrow, i: u64) -> Operands {
    let n = width.n;
    Operands {
        left: (i >> (n + 1)) & ones(n),
        right: (i >> 1) & ones(n),
        carry: (i % 2) as u32,
    }
}

// The first operands at which the reference finds a difference, and the port.
fn first_failure(word: u32, width: Narrow) -> Option<(Operands, Port)> {
    let n = width.n;
    for i in 0..2u64 << (2 * n) {
        let at = operands_at(width, i);
        if let Ok(Some(port)) = first_difference(plain(word), n, at) {
            return Some((at, port));
        }
    }
    None
}

// The line of a record at a width. It counts as differing unless both accounts show the same and the judge answers as expected.
fn show_failure(
    rt: &HostRuntime,
    tally: &mut Tally,
    record: Record,
    width: Narrow,
    expected: Option<u32>,
) {
    let (name, word) = record;
    let n = width.n;
    say::text(rt, name.as_bytes());
    let _ = print!(rt; " {word:08X} ");
    let _ = print!(rt; "width {n}");
    let Some((at, port)) = first_failure(word, width) else {
        say::text(rt, b" shows no difference\n");
        tally.count(false);
        return;
    };
    let told = by_library(word, width, at);
    let second = by_reference(word, n, at);
    let answer = told::judged(word, n, 0);
    let _ = print!(rt;
        " left {} right {} carry {} port ",
        at.left, at.right, at.carry
    );
    let (source, recipe) = told.at_port(port);
    let _ = print!(rt; "{port}: source shows {source}, recipe shows {recipe}");
    let (source, recipe) = second.at_port(port);
    let _ = print!(rt; "; by the reference {source}, {recipe}");
    let number = answer.err().map_or(0, |refusal| refusal.number);
    let _ = println!(rt; "; judge: refusal {number}");
    tally.count((told == second) & is_answer(answer, expected));
}

// Each record at width 1, which is the least, and at width 8.
pub fn report_failures(rt: &HostRuntime, name: &[u8], records: &[Record], expected: Option<u32>) {
    let mut tally = Tally::default();
    for record in records {
        show_failure(rt, &mut tally, *record, Narrow { n: 1 }, expected);
        show_failure(rt, &mut tally, *record, Narrow { n: 8 }, expected);
    }
    say::text(rt, name);
    say::report(rt, b", at widths 1 and 8", tally);
}
