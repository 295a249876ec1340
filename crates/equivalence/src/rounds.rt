// The sets of failing states, from the top place down: a bit for each of the 64 states.
ghost use Rattle.std.specs.Prelude.{◌≡◌, true, ◌*◌, ◌^◌, ◌≤◌, ◌<◌};
ghost use Rattle.equivalence.specs.Sets as S;
ghost use Rattle.equivalence.specs.States as T;

use crate::groups::group_by_pair;
use crate::sides::Sides;

// The sets with 1, 2, .. places to go, up to sets[last]; from there on they are all the same.
// Kept: an array with an index beside it, since there is no heap here. The index is no count of what stands in the array: from it on there
// is a set for each number of places, and it is this one.
#[derive(Clone, Copy)]
pub struct Rounds {
    pub sets: [u64; 64],
    pub last: usize,
}

// Those that fail by some pair of bits.
fn group_at(sides: &Sides, above: Option<u64>, g: usize) -> u64
    requires { (g < 16) × (T.can_be sides.now.source.side (S.recipe sides.now) g ≡ true) }
    ensures { (result ≡ S.group_at sides.now.source.side (S.recipe sides.now) above g) × (result < 16) }
{
    group_by_pair(sides, above, g, 0)
        | (group_by_pair(sides, above, g, 1)
            | (group_by_pair(sides, above, g, 2) | group_by_pair(sides, above, g, 3)))
}

#[tactic(auto, using(crate::proofs::Sets::placed_there))]
fn placed(word: u64, at: usize) -> u64
    requires { (word < 2 ^ 16) × (at ≤ 48) }
    ensures { result ≡ word * 2 ^ at }
{
    word << at
}

// The states that fail, of those in which the source remembers p.
#[inline(always)]
#[tactic(auto, using(crate::proofs::Memories::few, crate::proofs::Sets::within, crate::proofs::Sets::row_start, crate::proofs::Sets::row_next, crate::proofs::Sets::row_fits))]
fn row(sides: &Sides, above: Option<u64>, p: usize) -> u64
    requires { p < sides.now.source.memories }
    ensures { (result ≡ S.row_at sides.now.source.side (S.recipe sides.now) above p) × (result < 2 ^ 16) }
{
    let mut failing: u64 = 0;
    for q in 0..sides.target.memories {
        failing += placed(group_at(sides, above, 4 * p + q), 4 * q);
    }
    failing
}

// The states that fail at a place, or from the place above if it is not the top one.
// It is put in place where it is called, so that it is not asked again for each pair of bits which of the two it is.
#[inline(always)]
#[tactic(auto, using(crate::proofs::Memories::few, crate::proofs::Sets::round_start, crate::proofs::Sets::round_next, crate::proofs::Sets::round_fits, crate::proofs::Sets::round_done))]
fn round(sides: &Sides, above: Option<u64>) -> u64
    ensures { result ≡ S.round sides.now.source.side (S.recipe sides.now) above }
{
    let mut failing: u64 = 0;
    for p in 0..sides.source.memories {
        failing += placed(row(sides, above, p), 16 * p);
    }
    failing
}

// A set follows from the one before it alone, so one that repeats stays.
#[tactic(auto, using(crate::proofs::Filled::filled, crate::proofs::Sets::stable), unfolding(crate::specs::Sets::failing))]
pub fn failing_sets(sides: &Sides, k: usize) -> Rounds
    requires { k < 64 }
    ensures { S.Kept sides.now.source.side (S.recipe sides.now) k result }
{
    let mut rounds = Rounds {
        sets: [0; 64],
        last: k,
    };
    let mut set = round(sides, None);
    rounds.sets[0] = set;
    for j in 0..k {
        let lower = round(sides, Some(set));
        if lower == set {
            rounds.last = j;
            return rounds;
        }
        rounds.sets[j + 1] = lower;
        set = lower;
    }
    rounds
}
