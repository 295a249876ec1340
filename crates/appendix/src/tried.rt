// The book's rules tried by the reference, whole at small widths, above at corner operands and random ones.
use crate::failures::operands_at;
use crate::shown::{Narrow, plain};
use reference::evaluator::Operands;
use reference::recipe::first_difference;
use reference::trial::{next, sampled};
use testing::tally::Tally;

const WIDTHS: [u32; 11] = [1, 2, 3, 4, 8, 16, 31, 32, 33, 63, 64];

// How many operands are tried at a width: all of them to width 3.
fn trials(n: u32) -> u32 {
    match n {
        1 => 8,
        2 => 32,
        3 => 128,
        _ => 300,
    }
}

fn operands_of(n: u32, i: u32, seed: u64) -> Operands {
    if (1 <= n) & (n <= 3) {
        return operands_at(Narrow { n }, i as u64);
    }
    sampled(n, i, seed)
}

// A rule at a width.
fn try_rule(tally: &mut Tally, word: u32, n: u32) {
    let mut x = next((word as u64) ^ ((n as u64) << 40));
    for i in 0..trials(n) {
        tally.count(first_difference(plain(word), n, operands_of(n, i, x)) == Ok(None));
        x = next(next(next(x)));
    }
}

// All rules at a width.
fn report_width(rt: &HostRuntime, words: &[u32], n: u32) {
    let mut tally = Tally::default();
    for word in words {
        try_rule(&mut tally, *word, n);
    }
    let _ = println!(rt; "rules of the book by the reference, width {n}: {tally}");
}

pub fn report_tried(rt: &HostRuntime) {
    for n in WIDTHS {
        report_width(rt, &book::BOOK, n);
    }
}
