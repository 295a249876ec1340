// What a recipe and its source function show at operands: by the library, and by the reference.
ghost use Rattle.std.specs.Prelude.{◌≤◌};

use bits::Width;
use reference::evaluator::{Operands, Shown, evaluate};
use reference::recipe::{Port, Recipe, fields_of, recipe_shows};

#[derive(Clone, Copy, PartialEq, Eq)]
pub struct Both {
    pub source: Shown,
    pub recipe: Shown,
}

impl Both {
    // What the source and the recipe show at a port.
    pub fn at_port(self, port: Port) -> (u64, u64) {
        (at_port(self.source, port), at_port(self.recipe, port))
    }
}

// A width at which all operands can be tried in turn.
#[derive(Clone, Copy)]
pub struct Narrow {
    pub n: u32,
    pub ghost within: { (1 ≤ n) × (n ≤ 8) },
}

// The report has no negated targets.
pub fn plain(word: u32) -> Recipe {
    let negated = false;
    Recipe { word, negated }
}

pub fn by_reference(word: u32, n: u32, at: Operands) -> Both {
    Both {
        source: evaluate(fields_of(word).source, n, at),
        recipe: recipe_shows(plain(word), n, at),
    }
}

// As the judge has them shown; zeros where an operand is out of range.
pub fn by_library(word: u32, narrow: Narrow, at: Operands) -> Both {
    let width = Width { n: narrow.n };
    let most = bits::ones(width);
    if (at.left > most) || (at.right > most) {
        return by_reference(0, 0, at);
    }
    let claim = binding::claim_against(false, word);
    let source = claim.source;
    let recipe = claim.recipe;
    let operands = bits::Operands {
        width,
        left: at.left,
        right: at.right,
    };
    let carry = at.carry == 1;
    Both {
        source: told::shown_of(binding::side_shows(source, operands, carry)),
        recipe: told::shown_of(binding::shows(recipe, operands, carry)),
    }
}

fn at_port(shown: Shown, port: Port) -> u64 {
    match port {
        Port::O0 => shown.o0,
        Port::Ocout => shown.ocout as u64,
        Port::Ovf => shown.ovf as u64,
        Port::O1 => shown.o1 as u64,
    }
}
