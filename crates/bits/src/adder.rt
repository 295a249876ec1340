// "O0 is the sum modulo 2^n, wrapping at every width, 64 included": a wrapping add of u64 operands and carry, cut to the width
// below 64, with the carry out recovered from the wrapped sum.
ghost use Rattle.std.specs.Prelude.{◌≡◌, ◌+◌, ◌<◌, ◌&&◌, nat_le, nat_lt, if◌then◌else◌};
ghost use Rattle.std.specs.Bool.{beq};
ghost use Rattle.bits.specs.Bits as B;
ghost use Rattle.bits.specs.Sum as S;
ghost use Rattle.bits.specs.Adder.{cut};

use crate::{Operands, Ports, ones, top};

// A sum cut to the width, and whether it reached 2^n.
#[derive(Clone, Copy)]
pub struct CutSum {
    pub word: u64,
    pub carry: bool,
}

// Whether a sum of a, another word and a carry passed 2^64, from what is left of it.
fn wrapped(s: u64, a: u64, c: bool) -> bool
    ensures { result ≡ (if c then nat_le s a else nat_lt s a) }
{
    if c { s <= a } else { s < a }
}

#[tactic(auto, using(crate::proofs::Sums::narrow))]
fn add(operands: Operands, c: bool) -> CutSum
    ensures { result ≡ cut operands.width.n (operands.left + operands.right + B.num c) }
{
    let Operands { width, left, right } = operands;
    let s = left.wrapping_add(right).wrapping_add(u64::from(c));
    if width.n < 64 {
        let m = ones(width);
        return CutSum {
            word: s & m,
            carry: m < s,
        };
    }
    CutSum {
        word: s,
        carry: wrapped(s, left, c),
    }
}

// The exact sum is out of range where the words have one sign and their sum has the other.
fn overflow(p: bool, q: bool, s: bool) -> bool
    ensures { result ≡ (beq p q && B.exor p s) }
{
    p == q && p != s
}

// The ports of a sum.
#[tactic(auto, using(crate::proofs::Sums::sum_parts))]
pub fn sum(operands: Operands, c: bool) -> Ports
    ensures { result ≡ S.sum operands.width.n operands.left operands.right c }
{
    let Operands { width, left, right } = operands;
    let t = add(operands, c);
    Ports {
        o0: t.word,
        ocout: t.carry,
        ovf: overflow(top(width, left), top(width, right), top(width, t.word)),
        o1: false,
    }
}
