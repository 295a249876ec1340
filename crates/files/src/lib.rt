// Files of words: the words of a file's bytes, and the bytes of a word.
#![tactic(auto)]

ghost use Rattle.std.specs.Prelude.{◌≡◌, ◌/◌, ◌≤◌, length};
ghost use Rattle.std.proofs.lemmas.List.Edits.{sets};
ghost use Rattle.files.specs.Files as F;

// The four bytes of a word.
pub fn bytes_of(word: u32) -> [u8; 4]
    ensures { result ≡ F.bytes_of word }
{
    word.to_le_bytes()
}

// The whole words of a file, put into lent ones, and how many they are.
// Kept: lent words and their count, since no heap is a rule of the project.
#[tactic(auto, using(crate::proofs::Unpacking::one_word, crate::proofs::Unpacking::all_words, crate::proofs::Unpacking::unpacked))]
pub fn words_of(bytes: &[u8], words: &mut [u32]) -> usize
    requires { length bytes.now / 4 ≤ length words.old }
    ensures count { result ≡ length bytes.now / 4 }
    ensures words { words.new ≡ sets words.old 0 (F.words_of bytes.now) }
{
    let (whole, _) = bytes.as_chunks::<4>();
    // Kept: the words by index. Through `words.iter_mut().zip(whole)` an invariant has no name for what the words are so far.
    for (i, four) in whole.iter().enumerate() {
        words[i] = u32::from_le_bytes(*four);
    }
    whole.len()
}
