// The number of a state.
ghost use Rattle.std.specs.Prelude.{◌≡◌, ◌<◌};
ghost use Rattle.equivalence.specs.States as T;

use crate::shown;
use automaton::State;

pub fn index_of(a: State) -> usize
    ensures { (result ≡ T.index_of a) × (result < 64) }
{
    let group = shown::group_of(shown::memory(a.source), shown::memory(a.target));
    usize::from(4 * group + u8::from(a.any) + 2 * u8::from(a.all))
}
