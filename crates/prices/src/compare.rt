// The library's count of what is in use beside the second account's.
use crate::random::costs_from;
use accounts::glue::{Costs, glue_count};
use bits::Width;
use testing::tally::Tally;
use testing::words::{at, first};
use words::Prices;

// The library's count of what is in use, at widths from 1 to 64; at no others.
pub fn price(usage: u64, costs: Costs) -> Option<u64> {
    let n = (costs.n % 0x1_0000_0000) as u32;
    if (n == 0) || (n > 64) {
        return None;
    }
    let prices = Prices {
        inverter: (costs.inverter % 256) as u8,
        gate: (costs.gate % 256) as u8,
        multiplexer: (costs.multiplexer % 256) as u8,
    };
    Some(tally::price(usage, Width { n }, prices) as u64)
}

// Whether the words have the same count at a width and prices made of x.
pub fn agrees(words: &[u32], x: u64) -> bool {
    let costs = costs_from(x);
    price(usage::joined(words), costs) == Some(glue_count(words, costs))
}

// Sets of none of the words and more, each made of the one before by joining one word's set.
pub fn try_grown(tally: &mut Tally, words: &[u32], sets: usize, costs: Costs) {
    let mut usage: u64 = 0;
    for k in 0..sets {
        let second = glue_count(first(words, k), costs);
        tally.count(price(usage, costs) == Some(second));
        usage |= usage::usage_of(at(words, k));
    }
}
