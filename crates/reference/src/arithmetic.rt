// Table 1, by carries that ripple from the lowest place to the top. OVF is 1 where the carry into the top place is not the carry
// out of it.
use crate::evaluator::Shown;
use crate::places::{bit, with_bit};

// The sum of two words and a carry, each word complemented where it is told to be: a full adder at each place.
fn ripple(n: u32, left: u64, left_not: bool, right: u64, right_not: bool, carry: bool) -> Shown {
    let mut word = 0;
    let mut into = false;
    let mut out = carry;
    for place in 0..n {
        let x = bit(left, place) ^ left_not;
        let y = bit(right, place) ^ right_not;
        word = with_bit(word, place, x ^ y ^ out);
        into = out;
        out = (x & y) | ((x ^ y) & out);
    }
    Shown {
        o0: word,
        ocout: out,
        ovf: into ^ out,
        o1: false,
    }
}

// One more, or one less: a bit turns where a carry, or a borrow, comes up to it, and a 0, or a 1, stops that. The sum with the word of
// ones carries out where nothing is borrowed from beyond the top.
fn count(n: u32, word: u64, down: bool) -> Shown {
    let mut next = 0;
    let mut into = true;
    let mut out = true;
    for place in 0..n {
        let b = bit(word, place);
        next = with_bit(next, place, b ^ out);
        into = out;
        out &= b ^ down;
    }
    Shown {
        o0: next,
        ocout: out ^ down,
        ovf: into ^ out,
        o1: false,
    }
}

pub fn arithmetic(function: u32, n: u32, left: u64, right: u64, carry: bool) -> Shown {
    match function {
        // ADD, SUB, RSUB
        1 => ripple(n, left, false, right, false, carry),
        2 => ripple(n, left, false, right, true, carry),
        3 => ripple(n, left, true, right, false, carry),
        // INC, DEC
        4 => count(n, left, false),
        _ => count(n, left, true),
    }
}
