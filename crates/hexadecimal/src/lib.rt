// Words written as text, one byte at a time.
#![tactic(auto)]

ghost use Rattle.std.specs.Prelude.{◌≡◌};
ghost use Rattle.hexadecimal.specs.Hex as T;

// The digits of a word so far, their value, and whether this is in a comment.
#[derive(Clone, Copy)]
pub struct Hex {
    pub digits: u32,
    pub value: u32,
    pub comment: bool,
}

// After a byte: the text goes on, or a word is complete and the text goes on.
// Kept: two cases by name, as the definitions have them. An `Option` of the word beside what comes next would say no more.
#[derive(Clone, Copy)]
pub enum Step {
    More(Hex),
    Word(u32, Hex),
}

// Between two words, in a comment or not.
pub fn between(comment: bool) -> Hex
    ensures { result ≡ T.between comment }
{
    Hex {
        digits: 0,
        value: 0,
        comment,
    }
}

// A digit's value, capital or small.
#[tactic(auto, unfolding(crate::specs::Hex::digit_of))]
pub fn digit_of(byte: u8) -> Option<u32>
    ensures { result ≡ T.digit_of byte }
{
    char::from(byte).to_digit(16)
}

#[tactic(auto, unfolding(crate::specs::Hex::parts))]
fn parts(byte: u8) -> bool
    ensures { result ≡ T.parts byte }
{
    byte == b' ' || byte == b'\n'
}

// What a gap, or the end of the text, makes of the digits before it, where it can stand there; a comment may begin there.
#[tactic(auto, unfolding(crate::specs::Hex::ended))]
pub fn ended(hex: Hex, comment: bool) -> Option<Step>
    ensures { result ≡ T.ended hex comment }
{
    match hex.digits {
        0 => Some(Step::More(between(comment))),
        8 => Some(Step::Word(hex.value, between(comment))),
        _ => None,
    }
}

// A digit more, if it is one and the word is not full.
#[tactic(auto, unfolding(crate::specs::Hex::with_digit, crate::specs::Hex::digit_of))]
fn with_digit(hex: Hex, byte: u8) -> Option<Hex>
    ensures { result ≡ T.with_digit hex byte }
{
    if 8 <= hex.digits {
        return None;
    }
    let digit = digit_of(byte)?;
    Some(Hex {
        digits: hex.digits + 1,
        value: hex.value % 268435456 * 16 + digit,
        comment: false,
    })
}

// One byte of the text, where it can stand there.
#[tactic(auto, unfolding(crate::specs::Hex::taken))]
pub fn taken(hex: Hex, byte: u8) -> Option<Step>
    ensures { result ≡ T.taken hex byte }
{
    if hex.comment {
        return Some(Step::More(between(byte != b'\n')));
    }
    if byte == b'#' {
        return ended(hex, true);
    }
    if parts(byte) {
        return ended(hex, false);
    }
    Some(Step::More(with_digit(hex, byte)?))
}

// What a text comes to whose bytes are all digits of one word: that word, or nothing of one where there are none.
#[tactic(auto, using(crate::proofs::Digits::one_read, crate::proofs::Digits::none_read, crate::proofs::Digits::all_read))]
pub fn step_in(text: &[u8]) -> Option<Step>
    ensures { result ≡ T.step_in text.now }
{
    let mut hex = between(false);
    for byte in text {
        hex = with_digit(hex, *byte)?;
    }
    ended(hex, false)
}

// The word whose digits are all of a text.
#[tactic(auto, using(crate::proofs::Digits::word_read))]
pub fn word_in(text: &[u8]) -> Option<u32>
    ensures { result ≡ T.word_in text.now }
{
    match step_in(text)? {
        Step::Word(word, _) => Some(word),
        Step::More(_) => None,
    }
}
