// A recipe tried against its source function: at every left, right and carry of a small width, above at corner operands and random
// ones.
ghost use Rattle.std.specs.Prelude.{◌≤◌};

use crate::evaluator::Operands;
use crate::recipe::{Port, Recipe, fields_of, first_difference};

// The next of Marsaglia's 64-bit xorshift numbers.
pub fn next(x: u64) -> u64 {
    let a = x ^ (x << 13);
    let b = a ^ (a >> 7);
    b ^ (b << 17)
}

// The word of n ones.
pub fn ones(n: u32) -> u64 {
    if n == 0 {
        return 0;
    }
    if n > 63 {
        return 0xffff_ffff_ffff_ffff;
    }
    0xffff_ffff_ffff_ffffu64 >> (64 - n)
}

// Where sums wrap, signs change and bits alternate.
fn corners(n: u32) -> [u64; 7] {
    let all = ones(n);
    let alternate = 0x5555_5555_5555_5555 & all;
    [
        0,
        1,
        all / 2,
        all ^ (all / 2),
        all,
        alternate,
        all ^ alternate,
    ]
}

// A right operand that is random, or equals the left one or differs from it in the lowest bit, in the top bit or in all, as random words
// hardly ever do.
fn related(n: u32, left: u64, random: u64) -> u64 {
    let all = ones(n);
    match random % 8 {
        0 => left,
        1 => left ^ (all & 1),
        2 => left ^ (all ^ (all / 2)),
        3 => left ^ all,
        _ => next(random) & all,
    }
}

// Some operands of n bits, in turn: 98 corners, 7 to the left by 7 to the right by 2 carries; then random ones.
pub fn sampled(n: u32, i: u32, seed: u64) -> Operands {
    if i < 98 {
        let corners = corners(n);
        return Operands {
            left: corners[(i % 7) as usize],
            right: corners[(i / 7 % 7) as usize],
            carry: i / 49,
        };
    }
    let left = seed & ones(n);
    let other = next(seed);
    Operands {
        left,
        right: related(n, left, other),
        carry: (other >> 63) as u32,
    }
}

// All operands of n bits in turn: the bits of a number are the left one's, the right one's and the carry.
fn agrees_at_all(recipe: Recipe, n: u32) -> bool
    requires { n ≤ 7 }
{
    let end = 2u64 << (2 * n);
    for i in 0..end {
        let operands = Operands {
            left: i & ones(n),
            right: (i >> n) & ones(n),
            carry: ((i >> (2 * n)) % 2) as u32,
        };
        if first_difference(recipe, n, operands) != Ok(None) {
            return false;
        }
    }
    true
}

fn agrees_at_many(recipe: Recipe, n: u32) -> bool {
    let mut x = next((recipe.word as u64) ^ ((n as u64) << 40));
    for i in 0..200 {
        if first_difference(recipe, n, sampled(n, i, x)) != Ok(None) {
            return false;
        }
        x = next(next(next(x)));
    }
    true
}

// Whether a recipe is right, as far as it is tried: whole at widths to 7.
// Kept: a recipe and a width, not a struct of both. They come from two places, a word of a file or a bench and its width, so that each
// caller would put the struct together for one call.
pub fn is_right(recipe: Recipe, n: u32) -> bool {
    if n <= 7 {
        return agrees_at_all(recipe, n);
    }
    agrees_at_many(recipe, n)
}

// What is said of a wrong recipe: its source function, the lowest port that differs, and operands at which it does.
// Kept: a type like that of `words`, since the second account stands on no crate that it is compared with.
#[derive(Clone, Copy)]
pub struct Witness {
    pub function: u32,
    pub port: Port,
    pub left: u64,
    pub right: u64,
    pub carry: bool,
}

// Whether a witness shows that a recipe is wrong: of its word's source function, at operands in range, with the lowest port that differs
// there.
pub fn bears_out(recipe: Recipe, n: u32, w: Witness) -> bool {
    let operands = Operands {
        left: w.left,
        right: w.right,
        carry: w.carry as u32,
    };
    let Ok(Some(port)) = first_difference(recipe, n, operands) else {
        return false;
    };
    (w.function == fields_of(recipe.word).source) & (w.port == port)
}
