// Words of n bits, and what wiring and carry codes give of them.
ghost use Rattle.std.specs.Prelude.{◌≡◌, ◌-◌, ◌*◌, ◌^◌, ◌<◌};
ghost use Rattle.bits.specs.Bits as B;
ghost use Rattle.bits.specs.Wiring as W;

use crate::{Operands, Width};

// The word of n ones.
#[tactic(auto, using(crate::proofs::Words::ones_shift))]
pub fn ones(width: Width) -> u64
    ensures { result ≡ 2 ^ width.n - 1 }
{
    0xffff_ffff_ffff_ffffu64 >> (64 - width.n)
}

// All n bits of a word complemented.
// Kept: this, `top`, two functions of `output` and one of `binding` ask for a word below 2^n. A type for one word would be packed at each call,
// no plainer.
pub fn complement(width: Width, word: u64) -> u64
    requires { word < 2 ^ width.n }
    ensures { result ≡ W.complement width.n word }
{
    ones(width) - word
}

// n ones for the bit 1, n zeros for the bit 0: 0 less the bit, cut to the width.
#[tactic(auto, using(crate::proofs::Wirings::cut_mask))]
fn mask(width: Width, bit: u64) -> u64
    requires { bit < 2 }
    ensures { result ≡ bit * (2 ^ width.n - 1) }
{
    0u64.wrapping_sub(bit) & ones(width)
}

// The word that a wiring code gives of two words. The rest of the code chooses the word, its low bit complements it.
pub fn wired(operands: Operands, code: u32) -> u64
    ensures { (result ≡ W.wired operands.width.n code operands.left operands.right) × (result < 2 ^ operands.width.n) }
{
    if 6 <= code {
        return 0;
    }
    let words = [0, operands.left, operands.right];
    words[(code / 2) as usize] ^ mask(operands.width, (code % 2) as u64)
}

// The bit that a carry code gives of a carry, in the same way.
#[tactic(auto, using(crate::proofs::Wirings::carried_codes))]
pub fn carried(code: u32, carry: bool) -> bool
    ensures { result ≡ W.carried code carry }
{
    if 4 <= code {
        return false;
    }
    let bits = [false, carry];
    bits[(code / 2) as usize] ^ (code % 2 == 1)
}

// The top bit of a word of n bits.
#[tactic(auto, using(crate::proofs::Words::top_test))]
pub fn top(width: Width, word: u64) -> bool
    requires { word < 2 ^ width.n }
    ensures { result ≡ B.top width.n word }
{
    ones(width) / 2 < word
}
