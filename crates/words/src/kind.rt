// The kind of a word: its top four bits.
ghost use Rattle.std.specs.Prelude.{◌≡◌, ◌<◌, ◌^◌, None, Some, IfOk, IfErr};
ghost use Rattle.std.specs.Result.{result_ok};
ghost use Rattle.words.specs.Field.{kind_of, word_of};
ghost use Rattle.words.specs.Kinds.{kind_number, kind_named, is_recipe};

// The kinds of words.
#[derive(Clone, Copy, PartialEq, Eq)]
pub enum WordKind {
    Header,
    Prices,
    Source,
    Target,
    Rule,
    Binding,
    Glue,
}

// A kind's number.
impl From<WordKind> for u32 {
    ghost from_gives = { λ kind number. number ≡ kind_number kind };

    fn from(kind: WordKind) -> u32 {
        match kind {
            WordKind::Header => 1,
            WordKind::Prices => 2,
            WordKind::Source => 3,
            WordKind::Target => 4,
            WordKind::Rule => 5,
            WordKind::Binding => 6,
            WordKind::Glue => 7,
        }
    }
}

// A number that is no kind's.
#[derive(Clone, Copy, PartialEq, Eq)]
pub struct NoKind;

impl TryFrom<u32> for WordKind {
    type Error = NoKind;

    ghost try_from_gives = { λ number kind. result_ok kind ≡ kind_named number };

    fn try_from(number: u32) -> Result<WordKind, NoKind> {
        match number {
            1 => Ok(WordKind::Header),
            2 => Ok(WordKind::Prices),
            3 => Ok(WordKind::Source),
            4 => Ok(WordKind::Target),
            5 => Ok(WordKind::Rule),
            6 => Ok(WordKind::Binding),
            7 => Ok(WordKind::Glue),
            _ => Err(NoKind),
        }
    }
}

// The number of a word's kind, which may be no kind's.
pub fn kind_of(word: u32) -> u32
    ensures { result ≡ kind_of word }
{
    word >> 28
}

// The word of a kind's number and a content.
#[tactic(auto, using(crate::proofs::Named::kind_laid))]
pub fn word_of(kind: u32, content: u32) -> u32
    requires { (kind < 2 ^ 4) × (content < 2 ^ 28) }
    ensures { result ≡ word_of kind content }
{
    (kind << 28) | content
}

impl WordKind {
    // The kind of a word, if its number is one of a kind.
    pub fn of(word: u32) -> Option<WordKind>
        ensures { result ≡ kind_named (kind_of word) }
    {
        WordKind::try_from(kind_of(word)).ok()
    }

    // The word of this kind with a content.
    #[tactic(auto, using(crate::proofs::Named::kind_small))]
    pub fn word(self, content: u32) -> u32
        requires { content < 2 ^ 28 }
        ensures { result ≡ word_of (kind_number self) content }
    {
        word_of(u32::from(self), content)
    }

    // Whether words of this kind hold a recipe.
    #[tactic(auto, unfolding(crate::specs::Kinds::is_recipe))]
    pub fn is_recipe(self) -> bool
        ensures { result ≡ is_recipe (kind_number self) }
    {
        match self {
            WordKind::Rule | WordKind::Binding => true,
            _ => false,
        }
    }
}

// Whether words of the kind of a number hold a recipe.
#[tactic(auto, using(crate::proofs::Named::is_recipe_named, crate::proofs::Named::is_recipe_unnamed))]
pub fn is_recipe(kind: u32) -> bool
    ensures { result ≡ is_recipe kind }
{
    match WordKind::try_from(kind) {
        Ok(kind) => kind.is_recipe(),
        Err(_) => false,
    }
}

// A word of a kind that document 01 names.
#[derive(Clone, Copy)]
pub struct Word {
    pub bits: u32,
    pub kind: WordKind,
    pub ghost of_kind: { kind_of bits ≡ kind_number kind },
}

// These bits as a word, if they are one of a kind.
impl TryFrom<u32> for Word {
    type Error = NoKind;

    ghost try_from_gives = { λ bits word. (IfErr word (λ _. kind_named (kind_of bits) ≡ None))
        × IfOk word (λ w. (w.bits ≡ bits) × (kind_named (kind_of bits) ≡ Some w.kind)) };

    fn try_from(bits: u32) -> Result<Word, NoKind> {
        let kind = WordKind::try_from(kind_of(bits))?;
        Ok(Word { bits, kind })
    }
}
