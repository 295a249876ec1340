// Entries searched: for a source's, and for the first empty one.
ghost use Rattle.std.specs.Prelude.{◌≡◌};
ghost use Rattle.entries.specs.Entries as E;

use soundness::NOTHING;

// The entry of the source whose function it is.
pub fn entry_of(sources: &[u32], function: u32) -> Option<usize>
    ensures { result ≡ E.entry_of sources.now function }
{
    sources
        .iter()
        .position(|source| words::source_function(*source) == function)
}

// The function of the first source with nothing bound.
#[tactic(auto, using(crate::proofs::Searching::unbound_passed, crate::proofs::Searching::none_left))]
pub fn first_empty(sources: &[u32], bound: &[u32]) -> Option<u32>
    ensures { result ≡ E.first_empty sources.now bound.now }
{
    for (source, word) in sources.iter().zip(bound) {
        if *word == NOTHING {
            return Some(words::source_function(*source));
        }
    }
    None
}
