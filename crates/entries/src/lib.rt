// What is asked of sound tables, and of what is bound to their sources. The bench stands on this crate, so it hands over its parts.
#![tactic(auto)]

mod lookup;

ghost use Rattle.std.specs.Prelude.{◌≡◌, ◌<◌, IfSome};
ghost use Rattle.sequence.specs.Limits.{most_sources};
ghost use Rattle.verdict.specs.Verdicts as D;
ghost use Rattle.table.specs.Table as T;
ghost use Rattle.claims.specs.Claim as C;
ghost use Rattle.soundness.specs.Sound as S;
ghost use Rattle.entries.specs.Entries as E;

use sequence::MOST_SOURCES;
use soundness::{BoundTables, NOTHING, SoundTables};
use verdict::Verdict;

// Whether a rule's source is in the job, and its target too, if it has one.
pub fn in_tables(tables: SoundTables, word: u32) -> bool
    ensures { result ≡ T.in_job (S.sources_on tables.tables) (S.targets_on tables.tables) word }
{
    tables.terms().in_job(word)
}

// The entry of the source whose function it is.
#[tactic(auto, using(soundness::proofs::Shapes::sound_shaped, crate::proofs::Tabled::entry_few))]
pub fn entry_for(tables: SoundTables, function: u32) -> Option<usize>
    ensures entry { result ≡ E.entry_of (S.sources_on tables.tables) function }
    ensures few { IfSome result (λ i. i < most_sources) }
{
    lookup::entry_of(tables.terms().sources, function)
}

// Whether something is bound to a function. Of one that is no source's, the entry past the sources is looked at, in which a sound
// bench holds nothing.
#[tactic(auto, using(soundness::proofs::Shapes::held_entries, crate::proofs::Searching::bound_some, crate::proofs::Searching::bound_past, crate::proofs::Searching::bound_nowhere))]
pub fn is_bound(held: BoundTables, function: u32) -> bool
    ensures { result ≡ E.is_bound (S.sources_on held.tables.tables) held.bound function }
{
    let past = held.tables.terms().sources.len();
    match entry_for(held.tables, function) {
        Some(entry) => held.bound[entry] != NOTHING,
        None if past < MOST_SOURCES => held.bound[past] != NOTHING,
        None => false,
    }
}

// The verdict on a rule under the tables: refusal 10.
pub fn verdict_on(tables: SoundTables, word: u32) -> Verdict
    ensures { D.Says (C.claim_in (S.sources_on tables.tables) (S.targets_on tables.tables) word) tables.tables.width result }
{
    claims::verdict_on(&tables.terms(), word)
}

// The function of the first source with nothing bound.
pub fn unbound_on(held: BoundTables) -> Option<u32>
    ensures { result ≡ E.first_empty (S.sources_on held.tables.tables) held.bound }
{
    lookup::first_empty(held.tables.terms().sources, &held.bound)
}
