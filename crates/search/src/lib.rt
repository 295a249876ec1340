// The search for operands at which a recipe fails: what both sides show at a place, the sets of failing states, and from a start state that
// is in the set of the lowest place a walk to operands.
#![tactic(auto)]

ghost use Rattle.std.specs.Prelude.{◌<◌};
ghost use Rattle.equivalence.specs.Sets as F;
ghost use Rattle.search.specs.Search as S;

use binding::{Recipe, Side};
use bits::Width;
use equivalence::rounds::{self, Rounds};
use equivalence::sides::{self, Sides};
use equivalence::{numbers, witness};

// Operands and a carry at which a recipe does not show what a source side shows.
// Kept: two words, put together bit by bit by a walk that counts places and has no width; `bits::Operands` carries one.
#[derive(Clone, Copy)]
pub struct Counterexample {
    pub left: u64,
    pub right: u64,
    pub carry: bool,
}

// From the start state with a carry or without, with k + 1 places to go.
fn refuted(
    sides: &Sides,
    rounds: &Rounds,
    k: usize,
    start: usize,
    carry: bool,
) -> Option<Counterexample>
    requires { (k < 64) × (start < 64) × F.Kept sides.now.source.side (F.recipe sides.now) k rounds.now }
    ensures { S.ConcludedFrom sides.now.source.side (F.recipe sides.now) k start carry result }
{
    if !bits::bit(rounds.sets[rounds.last], start as u32) {
        return None;
    }
    let w = witness::walk(sides, rounds, k, start);
    Some(Counterexample {
        left: w.left,
        right: w.right,
        carry,
    })
}

// From the start states without and with a carry, with k + 1 places to go.
fn decide(sides: &Sides, k: usize, plain: usize, carried: usize) -> Option<Counterexample>
    requires { (k < 64) × (plain < 64) × (carried < 64) }
    ensures { S.Concluded sides.now.source.side (F.recipe sides.now) k plain carried result }
{
    let rounds = rounds::failing_sets(sides, k);
    if let Some(found) = refuted(sides, &rounds, k, plain, false) {
        return Some(found);
    }
    refuted(sides, &rounds, k, carried, true)
}

// Nothing where the recipe shows what the source side shows at all operands and both carries.
pub fn search(s: Side, t: Recipe, width: Width) -> Option<Counterexample>
    ensures { S.Found s t width.n result }
{
    let sides = sides::sides_of(s, t);
    let plain = numbers::index_of(automaton::first(s, t, false));
    let carried = numbers::index_of(automaton::first(s, t, true));
    decide(&sides, (width.n - 1) as usize, plain, carried)
}
