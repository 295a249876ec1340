// A logic vector at each place of two words, with whole words: each minterm's word is added where the vector has its bit.
ghost use Rattle.std.specs.Prelude.{◌≡◌, ◌*◌, ◌≤◌};
ghost use Rattle.bits.specs.Bits as B;
ghost use Rattle.bits.specs.Vector as L;

use crate::{Operands, ones};

fn gated(b: bool, word: u64) -> u64
    ensures { (result ≡ B.num b * word) × (result ≤ word) }
{
    u64::from(b) * word
}

#[tactic(auto, using(crate::proofs::Minterms::by_gates, crate::proofs::Minterms::union_fits))]
pub fn logic_word(operands: Operands, vector: u32) -> u64
    ensures { result ≡ L.logic_word operands.width.n vector operands.left operands.right }
{
    let Operands { width, left, right } = operands;
    let both = left & right;
    let left_alone = left - both;
    let right_alone = right - both;
    let neither = ones(width) - left - right_alone;
    gated(vector % 2 == 1, both)
        + gated(vector / 2 % 2 == 1, left_alone)
        + gated(vector / 4 % 2 == 1, right_alone)
        + gated(vector / 8 % 2 == 1, neither)
}
