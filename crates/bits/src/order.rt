// "Comparisons are of two's complement values": of words with one sign the lower is less, else the negative one is.
ghost use Rattle.std.specs.Prelude.{◌≡◌};
ghost use Rattle.bits.specs.Order as O;

use crate::{Operands, top};

#[tactic(auto, using(crate::proofs::Orders::one_sign, crate::proofs::Orders::two_signs))]
fn below(operands: Operands) -> bool
    ensures { result ≡ O.below operands.width.n operands.left operands.right }
{
    let Operands { width, left, right } = operands;
    let p = top(width, left);
    if p == top(width, right) {
        left < right
    } else {
        p
    }
}

pub fn compared(operands: Operands, less: bool, equal: bool, greater: bool) -> bool
    ensures { result ≡ O.compared operands.width.n less equal greater operands.left operands.right }
{
    if below(operands) {
        return less;
    }
    let exchanged = Operands {
        width: operands.width,
        left: operands.right,
        right: operands.left,
    };
    if below(exchanged) {
        return greater;
    }
    equal
}
