// A word in document 01's words: what it is, or its refusal, put as one line behind what stands of a text.
#![tactic(auto)]

mod fault;
mod kind;
mod recipes;

ghost use Rattle.std.specs.Prelude.{◌≡◌, ◌+◌, ◌≤◌, ◌++◌, length};
ghost use Rattle.describe.specs.Describe as D;
ghost use Rattle.describe.specs.Room as M;

use sequence::File;
use text::Text;
use words::{Fault, Word};

// What a word means, with its refusal if it has one all the same; or the refusal of a word that means nothing.
#[tactic(auto, using(crate::proofs::Meaning::meanings))]
fn put_meaning<const ROOM: usize>(word: u32, text: &mut Text<ROOM>)
    requires { length text.old + M.most_meaning ≤ ROOM }
    ensures short { length text.new ≤ length text.old + M.most_meaning }
    ensures text { text.new ≡ text.old ++ D.meaning_text word }
{
    let Ok(word) = Word::try_from(word) else {
        return fault::put_fault(b"", Some(Fault::OutOfSequence), text);
    };
    if !grammar::fits(File::AsJob, word.bits) {
        return fault::put_fault(b"", Some(Fault::NotLaidOut), text);
    }
    kind::put_kind(word, text);
    fault::put_fault(b", ", fault::output_fault(word), text);
}

// A word's digits and its meaning.
#[tactic(auto, unfolding(crate::specs::Describe::word_line, text::specs::Text::hexadecimal))]
pub fn put_word<const ROOM: usize>(word: u32, line: &mut Text<ROOM>)
    requires { length line.old + D.most_word_bytes ≤ ROOM }
    ensures short { length line.new ≤ length line.old + D.most_word_bytes }
    ensures text { line.new ≡ line.old ++ D.word_line word }
{
    line.put_digits(word as u64, 16, 8);
    line.put(b" ");
    put_meaning(word, line);
    line.put(b"\n");
}
