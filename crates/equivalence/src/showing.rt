// What a side shows at a place through output codes, asked once for each thing that it can remember and each pair of bits.
ghost use Rattle.std.specs.Prelude.{◌≡◌, ◌<◌};
ghost use Rattle.equivalence.specs.Shown as N;
ghost use Rattle.equivalence.specs.States as T;

use crate::shown::{self, Shown};
use alu::Kind;
use automaton::Ripple;
use binding::Side;
use output::Outputs;

// Output codes, a side, the number of things that it can remember, and what shows: at 4 times what is remembered the four of the pairs of
// bits. Entries past these are not looked at.
#[derive(Clone, Copy)]
pub struct Showing {
    pub outputs: Outputs,
    pub side: Side,
    pub memories: usize,
    pub shown: [Shown; 16],
    pub ghost made: { T.Shows outputs side memories shown },
}

fn ripple_of(m: usize) -> Ripple
    ensures { result ≡ N.ripple_of m }
{
    Ripple {
        lo: m % 2 == 1,
        hi: m / 2 % 2 == 1,
    }
}

// What stands where nothing is asked for.
fn nothing() -> Shown
    ensures { result ≡ T.nothing }
{
    Shown {
        memory: 0,
        bit: false,
        main: false,
        cout: false,
        ovf: false,
        orders: 0,
    }
}

#[inline(always)]
fn shown_at(outputs: Outputs, side: Side, m: usize, pair: usize) -> Shown
    ensures { result ≡ T.shown_at outputs side m pair }
{
    let cell = automaton::cell_of(side, ripple_of(m), pair / 2 % 2 == 1, pair % 2 == 1);
    shown::shown_of(outputs, cell)
}

// Of a side that can remember so many things.
// It is put in place at each kind, so that the kind is not looked at again for each entry.
#[inline(always)]
#[tactic(auto, using(crate::proofs::Memories::few, crate::proofs::Memories::made))]
fn filled(outputs: Outputs, side: Side, memories: usize) -> Showing
    requires { memories ≡ T.memories side.kind }
    ensures { (result.outputs ≡ outputs) × (result.side ≡ side) }
{
    let mut shown = [nothing(); 16];
    for c in 0..4 * memories {
        shown[c] = shown_at(outputs, side, c / 4, c % 4);
    }
    Showing {
        outputs,
        side,
        memories,
        shown,
    }
}

// A side can remember nothing, a carry or none, an order or none.
// It is put in place where it is called, since there it is known that the source shows all as it is.
#[inline(always)]
pub fn showing_of(outputs: Outputs, side: Side) -> Showing
    ensures { (result.outputs ≡ outputs) × (result.side ≡ side) }
{
    match side.kind {
        Kind::Logic(_) => filled(outputs, side, 1),
        Kind::Arithmetic { .. } => filled(outputs, side, 2),
        Kind::Comparison { .. } => filled(outputs, side, 3),
    }
}

impl Showing {
    pub fn at(&self, m: usize, pair: usize) -> Shown
        requires { (m < 4) × (m < self.now.memories) × (pair < 4) }
        ensures { result ≡ T.shown_at self.now.outputs self.now.side m pair }
    {
        self.shown[4 * m + pair]
    }
}
