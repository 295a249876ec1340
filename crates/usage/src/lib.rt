// What bindings use, kept as one set of bits: a bit for each value of each field, one for LO, and two for each minterm, since a vector has
// it or lacks it. Two sets are joined by `|`, so a set knows neither the order of the bindings nor how often one stands.
#![tactic(auto)]

ghost use Rattle.std.specs.Prelude.{◌≡◌, ◌+◌, ◌<◌};
ghost use Rattle.recipe.specs.Fields as F;
ghost use Rattle.usage.specs.Sets as S;

// The set that holds one code of a port, whose bits begin at `from`.
fn code_bit(from: u32, code: u32) -> u64
    requires { from + code < 64 }
    ensures { result ≡ S.code_bit from code }
{
    1u64 << (from + code)
}

// The codes of a binding with a target.
#[tactic(auto, using(crate::proofs::Codes::joined_codes))]
fn target_usage(word: u32) -> u64
    ensures { result ≡ S.target_usage (F.fields_of word) }
{
    let fields = recipe::unpack(word);
    code_bit(28, fields.code)
        | code_bit(24, fields.cout)
        | code_bit(20, fields.main)
        | code_bit(16, fields.carry)
        | code_bit(8, fields.right)
        | code_bit(0, fields.left)
}

// LO, the minterms of a binding from scratch and those that it lacks.
#[tactic(auto, using(crate::proofs::Codes::joined_minterms))]
fn scratch_usage(word: u32) -> u64
    ensures { result ≡ S.scratch_usage (F.vector_of word) }
{
    let vector = recipe::vector_of(word);
    (((15 - vector) as u64) << 49) | ((vector as u64) << 45) | code_bit(44, 0)
}

// What one binding uses.
#[tactic(auto, unfolding(crate::specs::Sets::usage_of))]
pub fn usage_of(word: u32) -> u64
    ensures { result ≡ S.usage_of word }
{
    if recipe::from_scratch(word) {
        return scratch_usage(word);
    }
    target_usage(word)
}

// What some bindings use.
pub fn joined(words: &[u32]) -> u64
    ensures { result ≡ S.usage words.now }
{
    words.iter().fold(0, |usage, word| usage | usage_of(*word))
}
