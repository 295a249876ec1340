// One place of a side: the function's inputs are wired from the bits of left and right, and what it shows may be negated.
ghost use Rattle.std.specs.Prelude.{◌≡◌};
ghost use Rattle.automaton.specs.Place as P;
ghost use Rattle.automaton.specs.Machine as M;

use crate::{Cell, Ripple, place};
use binding::Side;

pub fn start(s: Side, carry: bool) -> Ripple
    ensures { result ≡ P.side_start s carry }
{
    let kind = s.kind;
    place::start(kind, bits::carried(s.carry, carry))
}

// What a side does at the bits x and y of a place.
#[inline(always)]
pub fn cell_of(s: Side, a: Ripple, x: bool, y: bool) -> Cell
    ensures { result ≡ M.cell_of s a x y }
{
    let kind = s.kind;
    let cell = place::cell(
        kind,
        a,
        place::wire(s.left, x, y),
        place::wire(s.right, x, y),
    );
    Cell {
        bit: s.negated ^ cell.bit,
        order: s.negated ^ cell.order,
        ..cell
    }
}
