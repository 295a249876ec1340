// 32-bit words: document 01, "Words". The top four bits are the kind; what stands below is the content. And what all crates share:
// refusals, the values of refusal 10, and the prices.
#![tactic(auto)]

mod kind;
mod port;

ghost use Rattle.std.specs.Prelude.{◌≡◌};
ghost use Rattle.words.specs.Field.{content_of, source_function, target_function, target_negated};
ghost use Rattle.words.specs.Paper.{number_of};

pub use kind::{NoKind, Word, WordKind, is_recipe, kind_of, word_of};
pub use port::Port;

// Why something is refused, in the order of document 01's numbers: 1 to 12, and 20 to 24 from `NotSound` on.
#[derive(Clone, Copy, PartialEq, Eq)]
pub enum Fault {
    BadLength,
    OutOfSequence,
    NotLaidOut,
    NotRising,
    ReadsUndriven,
    OtherOutputs,
    OtherWidth,
    NotInJob,
    Incomplete,
    WrongRecipe,
    OtherGlue,
    Unmappable,
    NotSound,
    AlreadyBound,
    Unbound,
    TooFewWords,
    NotBound,
}

// A refusal: why, and its place.
#[derive(Clone, Copy)]
pub struct Refusal {
    pub fault: Fault,
    pub place: usize,
}

// Document 01's number.
impl From<Fault> for u32 {
    ghost from_gives = { λ fault number. number ≡ number_of fault };

    fn from(fault: Fault) -> u32 {
        match fault {
            Fault::BadLength => 1,
            Fault::OutOfSequence => 2,
            Fault::NotLaidOut => 3,
            Fault::NotRising => 4,
            Fault::ReadsUndriven => 5,
            Fault::OtherOutputs => 6,
            Fault::OtherWidth => 7,
            Fault::NotInJob => 8,
            Fault::Incomplete => 9,
            Fault::WrongRecipe => 10,
            Fault::OtherGlue => 11,
            Fault::Unmappable => 12,
            Fault::NotSound => 20,
            Fault::AlreadyBound => 21,
            Fault::Unbound => 22,
            Fault::TooFewWords => 23,
            Fault::NotBound => 24,
        }
    }
}

// What comes with refusal 10: the function as refusals write it, the lowest port that differs, and operands and a carry at which it does.
#[derive(Clone, Copy)]
pub struct Witness {
    pub function: u32,
    pub port: Port,
    pub left: u64,
    pub right: u64,
    pub carry: bool,
}

// The prices of an inverter, a two-input gate and a two-way multiplexer.
#[derive(Clone, Copy)]
pub struct Prices {
    pub inverter: u8,
    pub gate: u8,
    pub multiplexer: u8,
}

// The 28 bits below the kind.
#[tactic(auto, using(crate::proofs::Fields::masks))]
pub fn content_of(word: u32) -> u32
    ensures { result ≡ content_of word }
{
    word & 0x0fff_ffff
}

// The function of a source word.
pub fn source_function(word: u32) -> u32
    ensures { result ≡ source_function word }
{
    content_of(word)
}

// The function of a target word.
pub fn target_function(word: u32) -> u32
    ensures { result ≡ target_function word }
{
    word & 0x1f
}

// Whether a target word is marked: its function comes negated.
pub fn target_negated(word: u32) -> bool
    ensures { result ≡ target_negated word }
{
    (word >> 5) & 1 == 1
}
