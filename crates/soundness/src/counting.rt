// The glue count of what is bound: of the set that the bindings in all entries use.
ghost use Rattle.std.specs.Prelude.{◌≡◌, eqb, if◌then◌else◌};
ghost use Rattle.usage.specs.Sets as U;
ghost use Rattle.soundness.specs.Sound as S;

use crate::{BoundTables, NOTHING};

// What the binding in an entry uses; an empty one uses nothing.
fn entry_usage(word: u32) -> u64
    ensures { result ≡ (if eqb word S.nothing then 0 else U.usage_of word) }
{
    if word == NOTHING {
        return 0;
    }
    usage::usage_of(word)
}

// What the bindings in all entries use.
#[tactic(auto, using(crate::proofs::Count::all_used))]
fn usage_of(bound: &[u32]) -> u64
    ensures { result ≡ U.usage (S.filled bound.now) }
{
    bound.iter().fold(0, |used, word| used | entry_usage(*word))
}

impl BoundTables {
    // The glue count of what is bound.
    #[tactic(auto, using(crate::proofs::Count::set_counted))]
    pub fn glue(&self) -> u32
        ensures { result ≡ S.glue_on self.now.tables.tables self.now.bound }
    {
        let terms = self.tables.terms();
        tally::price(usage_of(&self.bound), terms.width, terms.prices)
    }
}
