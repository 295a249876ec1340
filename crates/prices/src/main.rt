// The count of many sets of bindings, by the library and by the reference.
#![tactic(auto)]

mod compare;
mod random;
mod tables;
mod vectors;

use accounts::glue::Costs;
use compare::{agrees, price, try_grown};
use random::{costs_from, word_from};
use reference::trial::next;
use tables::{ALL, SINGLE};
use testing::say;
use testing::tally::Tally;

const SEED: u64 = 0x9e37_79b9_7f4a_7c15;

// The same words at a thousand widths and prices.
fn try_many(tally: &mut Tally, words: &[u32]) {
    let mut x = SEED;
    for _ in 0..1000 {
        tally.count(agrees(words, x));
        x = next(x);
    }
}

fn at_many(words: &[u32]) -> Tally {
    let mut tally = Tally::default();
    try_many(&mut tally, words);
    tally
}

fn single_codes() -> Tally {
    let mut tally = Tally::default();
    for word in &SINGLE {
        try_many(&mut tally, &[*word]);
    }
    tally
}

// One code with each other.
fn pairs() -> Tally {
    let mut tally = Tally::default();
    let mut x = SEED;
    for i in 0..3136 {
        tally.count(agrees(&[SINGLE[i / 56], SINGLE[i % 56]], x));
        x = next(x);
    }
    tally
}

fn words_from(x: u64) -> [u32; 27] {
    let mut words = [0; 27];
    let mut y = x;
    for word in &mut words {
        *word = word_from(y);
        y = next(y);
    }
    words
}

fn random_sets() -> Tally {
    let mut tally = Tally::default();
    let mut x = SEED;
    for _ in 0..20000 {
        let y = next(x);
        let words = words_from(y);
        try_grown(&mut tally, &words, (y % 28 + 1) as usize, costs_from(x));
        x = next(y / 32 + 1);
    }
    tally
}

// One count, printed.
fn total(rt: &HostRuntime, name: &[u8], words: &[u32], n: u64, multiplexer: u64, other: u64) {
    let costs = Costs {
        n,
        inverter: other,
        gate: other,
        multiplexer,
    };
    if let Some(count) = price(usage::joined(words), costs) {
        say::text(rt, name);
        let _ = println!(rt; "{count}");
    }
}

fn report_totals(rt: &HostRuntime) {
    let printed = testing::words::MAPPING;
    total(
        rt,
        b"no bindings at width 64 and prices 255: ",
        &[],
        64,
        255,
        255,
    );
    total(
        rt,
        b"all codes at width 64 and prices 255: ",
        &ALL,
        64,
        255,
        255,
    );
    total(
        rt,
        b"printed mapping: ",
        testing::words::bindings_of(&printed),
        16,
        3,
        1,
    );
}

fn main(rt: HostRuntime) {
    say::report(&rt, b"no bindings", at_many(&[]));
    say::report(&rt, b"one code", single_codes());
    say::report(&rt, b"two codes", pairs());
    say::report(&rt, b"all codes", at_many(&ALL));
    say::report(&rt, b"random sets", random_sets());
    vectors::report(&rt);
    report_totals(&rt);
}
