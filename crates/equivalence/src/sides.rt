// A source side, which shows all as it is, and a recipe.
ghost use Rattle.std.specs.Prelude.{◌≡◌};
ghost use Rattle.equivalence.specs.Shown as N;

use crate::showing::{self, Showing};
use binding::{Recipe, Side};
use output::Outputs;

#[derive(Clone, Copy)]
pub struct Sides {
    pub source: Showing,
    pub target: Showing,
    pub ghost whole: { source.outputs ≡ N.whole },
}

pub fn sides_of(s: Side, t: Recipe) -> Sides
    ensures { (result.source.side ≡ s) × (result.target.side ≡ t.target) × (result.target.outputs ≡ t.outputs) }
{
    let whole = Outputs {
        main: 1,
        cout: 1,
        ovf: 1,
        code: 1,
    };
    let target = t.target;
    Sides {
        source: showing::showing_of(whole, s),
        target: showing::showing_of(t.outputs, target),
    }
}
