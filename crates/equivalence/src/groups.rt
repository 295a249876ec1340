// Groups of four states, which differ in any and all alone: the one at k says by the low bit of k whether any bit of the target's O0 is 1,
// and by the high one whether all are. What fails of a group at a place follows from what both sides show there.
ghost use Rattle.std.specs.Prelude.{◌≡◌, true, ◌<◌};
ghost use Rattle.equivalence.specs.Sets as S;
ghost use Rattle.equivalence.specs.States as T;

use crate::shown::{Shown, group_of};
use crate::sides::Sides;

// What becomes of any and all at a bit of the target's O0.
fn after(bit: bool, k: usize) -> usize
    requires { k < 4 }
    ensures { (result ≡ S.after bit k) × (result < 4) }
{
    if bit { 2 * (k / 2) + 1 } else { k % 2 }
}

// The states that the bit leads to those of a group: 0 and 1 to 1, 2 and 3 to 3 by a 1; 0 and 2 to 0, 1 and 3 to 1 by a 0.
#[tactic(auto, using(crate::proofs::Places::pulled_by_one, crate::proofs::Places::pulled_by_zero))]
fn pulled(bit: bool, group: u64) -> u64
    requires { group < 16 }
    ensures { (result ≡ S.pulled bit group) × (result < 16) }
{
    if bit {
        group / 2 % 2 * 3 + group / 8 * 12
    } else {
        group % 4 * 5
    }
}

// All four states if something differs.
fn all_if(differs: bool) -> u64
    ensures { result ≡ S.all_if differs }
{
    15 * u64::from(differs)
}

// Of the four states those that fail, at the top place or from the set of the place above.
// Kept: all four are joined by an or. A branch is guessed wrong too often: with branches here and at a place of a function verdicts took 7%
// longer.
#[tactic(auto, using(crate::proofs::Places::xor_fits, crate::proofs::Places::join_fits))]
fn group_by(above: Option<u64>, u: Shown, v: Shown) -> u64
    requires { (u.memory < 4) × (v.memory < 4) × (u.orders < 16) × (v.orders < 16) }
    ensures { (result ≡ S.group_by above u v) × (result < 16) }
{
    let main = v.main != u.main;
    match above {
        None => {
            let results = main | ((v.cout != u.cout) | (v.ovf != u.ovf));
            pulled(v.bit, u64::from(u.orders ^ v.orders)) | all_if(results)
        }
        Some(set) => {
            let there = (set >> (4 * group_of(u.memory, v.memory))) % 16;
            pulled(v.bit, there) | all_if(main)
        }
    }
}

// The same by a pair of bits.
#[tactic(auto, using(crate::proofs::Places::place_shown, crate::proofs::Places::orders_lt, crate::proofs::States::memory_lt))]
pub fn group_by_pair(sides: &Sides, above: Option<u64>, g: usize, pair: usize) -> u64
    requires { (g < 16) × (T.can_be sides.now.source.side (S.recipe sides.now) g ≡ true) × (pair < 4) }
    ensures { (result ≡ S.group_by_pair sides.now.source.side (S.recipe sides.now) above g pair) × (result < 16) }
{
    let u = sides.source.at(g / 4, pair);
    let v = sides.target.at(g % 4, pair);
    group_by(above, u, v)
}

// Where a state of a group leads, unless O0 differs.
pub fn leads_by(u: Shown, v: Shown, k: usize) -> Option<usize>
    requires { (u.memory < 4) × (v.memory < 4) × (k < 4) }
    ensures { result ≡ S.leads_by u v k }
{
    if v.main != u.main {
        return None;
    }
    Some(4 * usize::from(group_of(u.memory, v.memory)) + after(v.bit, k))
}
