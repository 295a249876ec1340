// Operands at which a recipe fails, by a walk from the lowest place up.
ghost use Rattle.std.specs.Prelude.{◌≡◌, true, ◌-◌, ◌/◌, ◌%◌, ◌^◌, ◌<◌};
ghost use Rattle.equivalence.specs.Sets as S;
ghost use Rattle.equivalence.specs.States as T;

use crate::groups::{self, group_by_pair};
use crate::rounds::Rounds;
use crate::sides::Sides;

// Kept: two words put together bit by bit, before a width is at hand; `bits::Operands` carries one.
#[derive(Clone, Copy)]
pub struct Operands {
    pub left: u64,
    pub right: u64,
}

// The pair of bits at some places, and the state to which it leads, if the walk does not end there.
#[derive(Clone, Copy)]
pub struct Step {
    pub pair: usize,
    pub places: usize,
    pub leads: Option<usize>,
}

// Whether a state fails by a pair of bits.
#[tactic(auto, using(crate::proofs::Walks::fails_there))]
fn fails(sides: &Sides, above: Option<u64>, i: usize, pair: usize) -> bool
    requires { (i < 64) × (T.can_be sides.now.source.side (S.recipe sides.now) (i / 4) ≡ true) × (pair < 4) }
    ensures { result ≡ S.fails sides.now.source.side (S.recipe sides.now) above (T.state_of i) pair }
{
    bits::bit(group_by_pair(sides, above, i / 4, pair), (i % 4) as u32)
}

// Of the four pairs of bits the first that fails: where none of three does, the fourth.
#[tactic(auto, using(crate::proofs::Walks::member_can_be))]
fn failing_pair(sides: &Sides, above: Option<u64>, i: usize) -> usize
    requires { (i < 64) × (S.member sides.now.source.side (S.recipe sides.now) above i ≡ true) }
    ensures { (result < 4) × (S.fails sides.now.source.side (S.recipe sides.now) above (T.state_of i) result ≡ true) }
{
    for pair in 0..3 {
        if fails(sides, above, i, pair) {
            return pair;
        }
    }
    3
}

// The states that fail from the place above one with j + 1 places to go, if there is such a place.
#[tactic(auto, using(crate::proofs::Walks::top_above, crate::proofs::Walks::low_above))]
fn above_at(rounds: &Rounds, j: usize) -> Option<u64>
    requires { (rounds.now.last < 64) × (j < 64) }
    ensures { result ≡ S.kept_above rounds.now j }
{
    if j == 0 {
        return None;
    }
    Some(rounds.sets[rounds.last.min(j - 1)])
}

// The bits of a pair at some places, with operands above them.
#[tactic(auto, using(crate::proofs::Runs::shifted, crate::proofs::Runs::one_shifted, crate::proofs::Runs::run_fits))]
fn run_below(pair: usize, places: usize, rest: Operands) -> Operands
    requires { (pair < 4) × (0 < places) × (places < 64) × (rest.left < 2 ^ (64 - places)) × (rest.right < 2 ^ (64 - places)) }
    ensures { (result.left ≡ S.run places (pair / 2) rest.left) × (result.right ≡ S.run places (pair % 2) rest.right) }
{
    let ones = (1u64 << places) - 1;
    Operands {
        left: (pair / 2) as u64 * ones + (rest.left << places),
        right: (pair % 2) as u64 * ones + (rest.right << places),
    }
}

// Where a state leads by a pair of bits, unless O0 differs.
#[tactic(auto, using(crate::proofs::Walks::leads_shown, crate::proofs::Places::orders_lt, crate::proofs::States::memory_lt))]
fn leads(sides: &Sides, i: usize, pair: usize) -> Option<usize>
    requires { (i < 64) × (T.can_be sides.now.source.side (S.recipe sides.now) (i / 4) ≡ true) × (pair < 4) }
    ensures { result ≡ S.leads sides.now.source.side (S.recipe sides.now) i pair }
{
    let u = sides.source.at(i / 4 / 4, pair);
    let v = sides.target.at(i / 4 % 4, pair);
    groups::leads_by(u, v, i % 4)
}

// For how many places a state leads on by the same pair of bits: one that leads to itself, down to the last set that is kept.
fn places_of(last: usize, j: usize, i: usize, leads: Option<usize>) -> usize
    ensures { result ≡ S.places_of last j i leads }
{
    match leads {
        None => 1,
        Some(m) => { if (m == i) & (last < j) { j - last } else { 1 } }
    }
}

// A step of the walk, with j + 1 places to go. Where O0 differs at the place, or it is the top one, the walk ends.
fn step_from(sides: &Sides, rounds: &Rounds, j: usize, i: usize) -> Step
    requires { S.Failing sides.now.source.side (S.recipe sides.now) rounds.now j i }
    ensures { S.Stepped sides.now.source.side (S.recipe sides.now) rounds.now j i result }
{
    let pair = failing_pair(sides, above_at(rounds, j), i);
    if j == 0 {
        return Step {
            pair,
            places: 1,
            leads: None,
        };
    }
    let leads = leads(sides, i, pair);
    Step {
        pair,
        places: places_of(rounds.last, j, i, leads),
        leads,
    }
}

// From the state i with j + 1 places to go. The operands are 0 above the place at which the walk ends.
pub fn walk(sides: &Sides, rounds: &Rounds, j: usize, i: usize) -> Operands
    requires { S.Failing sides.now.source.side (S.recipe sides.now) rounds.now j i }
    ensures { S.Refuted sides.now.source.side (S.recipe sides.now) j i result.left result.right }
{
    let step = step_from(sides, rounds, j, i);
    let pair = step.pair;
    let places = step.places;
    match step.leads {
        None => run_below(pair, 1, Operands { left: 0, right: 0 }),
        Some(m) => run_below(pair, places, walk(sides, rounds, j - places, m)),
    }
}
