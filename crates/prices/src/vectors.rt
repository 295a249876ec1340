// Sets of vectors. The gates of bindings from scratch depend on what all of them need. Each of the sixteen vectors stands at each of three
// places, and each beginning of the three is counted beside the second account; then come some sets whose gates are known.
use crate::compare::{price, try_grown};
use crate::random::costs_from;
use crate::tables::SINGLE;
use accounts::glue::Costs;
use reference::trial::next;
use testing::say;
use testing::tally::Tally;
use testing::words::first;

// Gates alone cost, and the width is 1.
const GATES: Costs = Costs {
    n: 1,
    inverter: 0,
    gate: 1,
    multiplexer: 0,
};

// Some vectors, and how many gates they have.
const KNOWN: [(&[usize], u64); 12] = [
    (&[0b0000], 0),
    (&[0b0001], 1),
    (&[0b0001, 0b0001], 1),
    (&[0b0001, 0b0000], 2),
    (&[0b0001, 0b1000], 5),
    (&[0b0011], 3),
    (&[0b0011, 0b0001], 4),
    (&[0b0111, 0b0011, 0b0001], 7),
    (&[0b0011, 0b0101, 0b0110], 8),
    (&[0b1111], 7),
    (&[0b1111, 0b1111, 0b1110], 8),
    (&[0b1111, 0b0000], 11),
];

// A binding from scratch by a vector.
fn from_scratch(vector: usize) -> u32 {
    SINGLE[40 + vector % 16]
}

fn three_from(i: usize) -> [u32; 3] {
    [from_scratch(i / 256), from_scratch(i / 16), from_scratch(i)]
}

// None, one, two and three of the words.
fn up_to_three() -> Tally {
    let mut tally = Tally::default();
    let mut x = 1;
    for i in 0..4096 {
        try_grown(&mut tally, &three_from(i), 4, costs_from(x));
        x = next(x);
    }
    tally
}

fn gates_of(words: &[u32]) -> Option<u64> {
    price(usage::joined(words), GATES)
}

// Whether a vector more has no fewer gates.
fn one_more() -> Tally {
    let mut tally = Tally::default();
    for i in 0..12288 {
        let words = three_from(i / 3);
        let before = first(&words, i % 3);
        let after = first(&words, i % 3 + 1);
        tally.count(gates_of(before) <= gates_of(after));
    }
    tally
}

fn known() -> Tally {
    let mut tally = Tally::default();
    for (vectors, gates) in KNOWN {
        let mut words = [0; 3];
        for (word, vector) in words.iter_mut().zip(vectors) {
            *word = from_scratch(*vector);
        }
        tally.count(gates_of(first(&words, vectors.len())) == Some(gates));
    }
    tally
}

pub fn report(rt: &HostRuntime) {
    say::report(rt, b"up to three vectors", up_to_three());
    say::report(rt, b"a vector more, no gate fewer", one_more());
    say::report(rt, b"known gates", known());
}
