// Values out of range at each of the five places, alone and together. Each place has five values, of which the last three are out of
// range, and every choice of five is tried.
use crate::beside::{Given, agree, count};
use reference::evaluator::Operands;
use reference::trial::ones;
use testing::tally::Tally;

const FUNCTIONS: [u32; 5] = [1, 27, 0, 28, 4294967295];

// Each width and the one that the operands are made for: 8 where the width itself is out of range.
const WIDTHS: [(u32, u32); 5] = [(1, 1), (63, 63), (0, 8), (65, 8), (4294967295, 8)];

const CARRIES: [u32; 5] = [0, 1, 2, 3, 4294967295];

// The values of an operand: two have n bits and three have more.
fn operands(n: u32) -> [u64; 5] {
    let above = 1u64 << (n % 64);
    [0, ones(n), above, above | 1, 0xffff_ffff_ffff_ffff]
}

// The i-th choice of five.
fn choice(i: u32) -> Given {
    let function = i % 5;
    let left = i / 25 % 5;
    let right = i / 125 % 5;
    let carry = i / 625 % 5;
    let (width, n) = WIDTHS[(i / 5 % 5) as usize];
    let values = operands(n);
    Given {
        function: FUNCTIONS[function as usize],
        width,
        operands: Operands {
            left: values[left as usize],
            right: values[right as usize],
            carry: CARRIES[carry as usize],
        },
    }
}

// The first place at which the i-th choice is out of range.
fn first_place(i: u32) -> Option<usize> {
    let values = [i % 5, i / 5 % 5, i / 25 % 5, i / 125 % 5, i / 625 % 5];
    values.iter().position(|value| 2 <= *value)
}

// All choices that are first out of range at a place; at none, all that are in range.
pub fn first_out_at(rt: &HostRuntime, place: Option<usize>) -> Tally {
    let mut tally = Tally::default();
    for i in (0..3125).filter(|i| first_place(*i) == place) {
        let given = choice(i);
        count(rt, &mut tally, given, agree(given, place));
    }
    tally
}
