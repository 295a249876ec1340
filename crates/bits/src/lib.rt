// Words of n bits, n from 1 to 64: what wiring and carry codes give of them, their sums, logic vectors and order.
#![tactic(auto)]

ghost use Rattle.std.specs.Prelude.{◌≡◌, ◌<◌};
ghost use Rattle.bits.specs.Bits as B;

mod adder;
mod logic;
mod operands;
mod order;
mod wiring;

pub use adder::sum;
pub use logic::logic_word;
pub use operands::{Operands, Width};
pub use order::compared;
pub use wiring::{carried, complement, ones, top, wired};

// The codes of wirings and of the carry. Codes 2j and 2j + 1 are complements.
// Kept: numbers, since a code is a field of a word, and arithmetic with its low bit says what it does.
pub const ZEROS: u32 = 0;

pub const ONES: u32 = 1;

pub const I0: u32 = 2;

pub const NOT_I0: u32 = 3;

pub const I1: u32 = 4;

pub const NOT_I1: u32 = 5;

pub const CARRY_ZERO: u32 = 0;

pub const CARRY_ONE: u32 = 1;

pub const ICIN: u32 = 2;

// A bit of a set.
#[tactic(auto, unfolding(crate::specs::Bits::bit))]
pub fn bit(set: u64, at: u32) -> bool
    requires { at < 64 }
    ensures { result ≡ B.bit set at }
{
    (set >> at) % 2 == 1
}

// What is shown: O0, OCOUT, OVF and O1. An undriven port shows 0.
#[derive(Clone, Copy)]
pub struct Ports {
    pub o0: u64,
    pub ocout: bool,
    pub ovf: bool,
    pub o1: bool,
}
