// The machine that compares a source side and a recipe, place by place from the lowest: what the lower places leave behind, and what a side
// does at a place.
#![tactic(auto)]

mod place;
mod side;

ghost use Rattle.std.specs.Prelude.{◌≡◌};
ghost use Rattle.automaton.specs.Machine as M;

use binding::{Recipe, Side};
pub use side::cell_of;

// What ripples from place to place of one side: in lo a sum's carry, or that the left word is less so far; in hi that it is greater.
#[derive(Clone, Copy)]
pub struct Ripple {
    pub lo: bool,
    pub hi: bool,
}

// What the lower places of both sides leave behind, and whether any or all bits of the target's O0 are 1 there.
#[derive(Clone, Copy)]
pub struct State {
    pub source: Ripple,
    pub target: Ripple,
    pub any: bool,
    pub all: bool,
}

// What a side does at one place: what ripples on, the bit of O0, and OCOUT, OVF and O1 if it is the top place.
#[derive(Clone, Copy)]
pub struct Cell {
    pub ripple: Ripple,
    pub bit: bool,
    pub carry: bool,
    pub overflow: bool,
    pub order: bool,
}

// Before the lowest place.
pub fn first(s: Side, t: Recipe, carry: bool) -> State
    ensures { result ≡ M.first s t carry }
{
    let target = t.target;
    State {
        source: side::start(s, carry),
        target: side::start(target, carry),
        any: false,
        all: true,
    }
}
