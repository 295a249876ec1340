// Recipe words: document 01, "Words". Shifts and masks take a word apart and build it.
#![tactic(auto)]

ghost use Rattle.std.specs.Prelude.{◌≡◌};
ghost use Rattle.recipe.specs.Asked as Q;
ghost use Rattle.recipe.specs.Fields as F;

// The target of a recipe from scratch.
// Kept: the field's own number, as document 01 has it.
pub const SCRATCH: u32 = 0;

// The fields of a recipe word. `blank` is bit 4, which the layout wants zero.
#[derive(Clone, Copy)]
pub struct Fields {
    pub source: u32,
    pub target: u32,
    pub left: u32,
    pub right: u32,
    pub carry: u32,
    pub main: u32,
    pub cout: u32,
    pub ovf: u32,
    pub blank: u32,
    pub code: u32,
}

pub fn source_of(word: u32) -> u32
    ensures { result ≡ F.source_of word }
{
    (word >> 23) & 31
}

pub fn target_of(word: u32) -> u32
    ensures { result ≡ F.target_of word }
{
    (word >> 18) & 31
}

// Whether a recipe is from scratch.
pub fn from_scratch(word: u32) -> bool
    ensures { result ≡ F.from_scratch word }
{
    target_of(word) == SCRATCH
}

pub fn vector_of(word: u32) -> u32
    ensures { result ≡ F.vector_of word }
{
    word & 15
}

pub fn unpack(word: u32) -> Fields
    ensures { result ≡ F.fields_of word }
{
    Fields {
        source: (word >> 23) & 31,
        target: (word >> 18) & 31,
        left: (word >> 15) & 7,
        right: (word >> 12) & 7,
        carry: (word >> 10) & 3,
        main: (word >> 8) & 3,
        cout: (word >> 6) & 3,
        ovf: (word >> 5) & 1,
        blank: (word >> 4) & 1,
        code: word & 15,
    }
}

#[tactic(auto, using(crate::proofs::Packing::joined))]
// The word of a kind's number and fields.
// Kept: a number for the kind, since each of the sixteen is packed back.
pub fn pack(kind: u32, fields: Fields) -> u32
    requires { Q.Fit kind fields }
    ensures { result ≡ F.packed kind fields }
{
    (kind << 28)
        | (fields.source << 23)
        | (fields.target << 18)
        | (fields.left << 15)
        | (fields.right << 12)
        | (fields.carry << 10)
        | (fields.main << 8)
        | (fields.cout << 6)
        | (fields.ovf << 5)
        | (fields.blank << 4)
        | fields.code
}
