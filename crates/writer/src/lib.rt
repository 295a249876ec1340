// The writer of mappings: header, bindings and glue count into lent words, or refusal 23 and no word touched.
#![tactic(auto)]

ghost use Rattle.std.specs.Prelude.{◌≡◌, ◌≤◌, length};
ghost use Rattle.sequence.specs.Limits.{most_bindings};
ghost use Rattle.writer.specs.Asked as Q;
ghost use Rattle.writer.specs.Write as W;

use words::{Fault, Refusal, WordKind};

// The words that a mapping of so many bindings takes.
fn words_needed(sources: usize) -> usize
    requires { sources ≤ most_bindings }
    ensures { result ≡ W.words_needed sources }
{
    sources + 2
}

// A rule's recipe as a binding.
pub fn binding_word(word: u32) -> u32
    ensures { result ≡ W.binding_word word }
{
    WordKind::Binding.word(words::content_of(word))
}

// Writes the mapping that binds each of these recipes, and answers how many words it has; or refusal 23 with the words needed.
#[tactic(auto, using(crate::proofs::Writing::binding_written, crate::proofs::Writing::glue_written, crate::proofs::Writing::kept, crate::proofs::Writing::all_written), unfolding(crate::specs::Write::written_of))]
pub fn write_mapping(
    width: u32,
    bound: &[u32],
    glue: u32,
    lent: &mut [u32],
) -> Result<usize, Refusal>
    requires { Q.Writable width glue bound.now }
    ensures answer { result ≡ W.written_of (length bound.now) lent.old }
    ensures written { lent.new ≡ W.lent_after (W.mapping_words width bound.now glue) lent.old }
{
    let needed = words_needed(bound.len());
    if lent.len() < needed {
        return Err(Refusal {
            fault: Fault::TooFewWords,
            place: needed,
        });
    }
    lent[0] = WordKind::Header.word(width);
    for (i, word) in bound.iter().enumerate() {
        lent[reader::BINDINGS_START + i] = binding_word(*word);
    }
    lent[reader::BINDINGS_START + bound.len()] = WordKind::Glue.word(glue);
    Ok(needed)
}
