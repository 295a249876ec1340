// One place of a function of a kind: its bits there, and what ripples on.
ghost use Rattle.std.specs.Prelude.{◌≡◌};
ghost use Rattle.bits.specs.Vector as F;
ghost use Rattle.automaton.specs.Place as P;

use crate::{Cell, Ripple};
use alu::Kind;

// A wiring code on one bit of each operand. The rest of the code chooses the bit, its low bit complements it.
// Kept: no array is indexed, as `bits::carried` does: a verdict wires some fifty bits, and by an array it took 3% longer, of right rules 5%.
#[tactic(auto, using(crate::proofs::Codes::wire_by_arithmetic))]
pub fn wire(code: u32, x: bool, y: bool) -> bool
    ensures { result ≡ P.wire code x y }
{
    if 6 <= code {
        return false;
    }
    let left = (code / 2 % 2 == 1) & x;
    let right = (code / 4 == 1) & y;
    (left ^ right) ^ (code % 2 == 1)
}

// The carry out of a full adder.
fn majority(x: bool, y: bool, c: bool) -> bool
    ensures { result ≡ P.majority x y c }
{
    (x & y) | (c & (x | y))
}

// x below y, or where they are equal what the lower places said.
fn less_at(x: bool, y: bool, l: bool) -> bool
    ensures { result ≡ P.less_at x y l }
{
    (!x & y) | (l & !(x ^ y))
}

// A vector's bit for two bits.
#[tactic(auto, unfolding(bits::specs::Bits::bit))]
fn minterm(vector: u32, x: bool, y: bool) -> bool
    ensures { result ≡ F.minterm vector x y }
{
    match (x, y) {
        (true, true) => vector % 2 == 1,
        (true, false) => vector / 2 % 2 == 1,
        (false, true) => vector / 4 % 2 == 1,
        (false, false) => vector / 8 % 2 == 1,
    }
}

// Nothing ripples.
fn still() -> Ripple
    ensures { result ≡ P.still }
{
    Ripple {
        lo: false,
        hi: false,
    }
}

// Before the lowest place.
pub fn start(kind: Kind, carry: bool) -> Ripple
    ensures { result ≡ P.start kind carry }
{
    match kind {
        Kind::Arithmetic { carry: k, .. } => Ripple {
            lo: bits::carried(k, carry),
            hi: false,
        },
        Kind::Logic(_) | Kind::Comparison { .. } => still(),
    }
}

// What a comparison shows, where x and y are the top bits. The top bit counts negative, so they change places.
fn top_order(less: bool, equal: bool, greater: bool, a: Ripple, x: bool, y: bool) -> bool
    ensures { result ≡ P.ordered less equal greater a x y }
{
    let below = less_at(y, x, a.lo);
    let above = less_at(x, y, a.hi);
    (below & less) | (!below & ((above & greater) | (!above & equal)))
}

// What a function does at the bits x and y of its inputs.
#[inline(always)]
pub fn cell(kind: Kind, a: Ripple, x: bool, y: bool) -> Cell
    ensures { result ≡ P.cell kind a x y }
{
    match kind {
        Kind::Arithmetic { left, right, .. } => {
            let p = wire(left, x, y);
            let q = wire(right, x, y);
            let carry = majority(p, q, a.lo);
            Cell {
                ripple: Ripple {
                    lo: carry,
                    hi: false,
                },
                bit: p ^ (q ^ a.lo),
                carry,
                overflow: a.lo ^ carry,
                order: false,
            }
        }
        Kind::Logic(vector) => Cell {
            ripple: still(),
            bit: minterm(vector, x, y),
            carry: false,
            overflow: false,
            order: false,
        },
        Kind::Comparison {
            less,
            equal,
            greater,
        } => Cell {
            ripple: Ripple {
                lo: less_at(x, y, a.lo),
                hi: less_at(y, x, a.hi),
            },
            bit: false,
            carry: false,
            overflow: false,
            order: top_order(less, equal, greater, a, x, y),
        },
    }
}
