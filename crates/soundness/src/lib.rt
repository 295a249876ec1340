// What a sound bench is: values in range, tables that a job could hold, in each source's entry nothing or a right recipe of it, and a
// stored count that is the glue count of what is bound.
#![tactic(auto)]

mod counting;
mod range;
mod reading;
mod sound;

ghost use Rattle.std.specs.Prelude.{◌≡◌};
ghost use Rattle.soundness.specs.Sound as S;

pub use range::InRange;
pub use reading::copy;
use sequence::{MOST_SOURCES, MOST_TARGETS};
pub use sound::{BoundTables, SoundTables};
use table::Terms;
use words::{Fault, Prices, WordKind};

// What stands in an entry to which nothing is bound, and in those of a table past its words.
// Kept: a bench is a value of words that callers hold, and document 01 says zeros there.
pub const NOTHING: u32 = 0;

// A job's width, prices and tables: so many of the source and target words are there, and NOTHING past them.
// Kept: counts beside the tables, as callers and the definitions read a bench, which is copied and compared whole. No heap is a rule of
// the project.
#[derive(Clone, Copy)]
pub struct Tables {
    pub width: u32,
    pub prices: Prices,
    pub sources: [u32; MOST_SOURCES],
    pub nsources: u32,
    pub targets: [u32; MOST_TARGETS],
    pub ntargets: u32,
}

// Whether nothing stands in these entries.
fn is_empty(entries: &[u32]) -> bool
    ensures { result ≡ S.empty entries.now }
{
    entries.iter().all(|entry| *entry == NOTHING)
}

// The refusal of a word as a rule: 2, 3, 5 or 6, or none.
#[tactic(auto, using(crate::proofs::Soundness::rule_faults))]
pub fn rule_fault(word: u32) -> Option<Fault>
    ensures { result ≡ S.rule_fault word }
{
    let Some(kind) = WordKind::of(word) else {
        return Some(Fault::OutOfSequence);
    };
    match kind {
        WordKind::Rule => layout::recipe_fault(word),
        _ => Some(Fault::OutOfSequence),
    }
}

// Whether a word may be bound to a source: a right rule of it, from scratch or from a target of the table.
#[tactic(auto, using(crate::proofs::Soundness::bad_rule, crate::proofs::Soundness::other_source, crate::proofs::Soundness::no_target, crate::proofs::Soundness::by_rightness))]
fn bindable(terms: &Terms, source: u32, word: u32) -> bool
    ensures { result ≡ S.bindable terms.now.width.n terms.now.sources.now terms.now.targets.now source word }
{
    if rule_fault(word).is_some() {
        return false;
    }
    if recipe::source_of(word) != words::source_function(source) {
        return false;
    }
    if !terms.has_target(word) {
        return false;
    }
    claims::is_right(terms, word)
}

#[tactic(auto, using(crate::proofs::Soundness::nothing_bound, crate::proofs::Soundness::something_bound))]
fn entry_sound(terms: &Terms, source: u32, word: u32) -> bool
    ensures { result ≡ S.entry_sound terms.now.width.n terms.now.sources.now terms.now.targets.now source word }
{
    if word == NOTHING {
        return true;
    }
    bindable(terms, source, word)
}

// Each source's entry, and nothing in the entries past them.
#[tactic(auto, using(crate::proofs::Soundness::rest_past, crate::proofs::Soundness::sound_entry, crate::proofs::Soundness::past_sources))]
fn bound_sound(terms: &Terms, bound: &[u32]) -> bool
    ensures { result ≡ S.bound_sound terms.now.width.n terms.now.sources.now terms.now.targets.now terms.now.sources.now bound.now }
{
    for (source, word) in terms.sources.iter().zip(bound) {
        if !entry_sound(terms, *source, *word) {
            return false;
        }
    }
    let past = terms.sources.len().min(bound.len());
    is_empty(&bound[past..])
}

#[tactic(auto, using(crate::proofs::Shapes::tables_shaped, crate::proofs::Soundness::tables_hold, crate::proofs::Soundness::tables_sources, crate::proofs::Soundness::tables_targets, crate::proofs::Soundness::unsound_tables, crate::proofs::Soundness::source_past, crate::proofs::Soundness::target_past, crate::proofs::Soundness::unsound_entries, crate::proofs::Soundness::by_count))]
pub fn is_sound(tables: Tables, bound: [u32; MOST_SOURCES], glue: u32) -> bool
    ensures { result ≡ S.is_sound tables bound glue }
{
    if !reading::tables_sound(tables) {
        return false;
    }
    let sources = tables.sources;
    let targets = tables.targets;
    if !is_empty(&sources[tables.nsources as usize..]) {
        return false;
    }
    if !is_empty(&targets[tables.ntargets as usize..]) {
        return false;
    }
    let held = BoundTables {
        tables: SoundTables { tables },
        bound,
    };
    if !bound_sound(&held.tables.terms(), &held.bound) {
        return false;
    }
    glue == held.glue()
}
