// Whether every source of a job has a binding: refusal 9.
#![tactic(auto)]

ghost use Rattle.std.specs.Prelude.{◌≡◌};
ghost use Rattle.completeness.specs.Complete as C;

// Whether a binding has the function as its source.
#[tactic(auto, unfolding(crate::specs::Complete::binds))]
fn binds(bindings: &[u32], function: u32) -> bool
    ensures { result ≡ C.binds bindings.now function }
{
    bindings
        .iter()
        .any(|word| recipe::source_of(*word) == function)
}

// The function of the first source without a binding.
pub fn first_unbound(sources: &[u32], bindings: &[u32]) -> Option<u32>
    ensures { result ≡ C.first_unbound sources.now bindings.now }
{
    sources
        .iter()
        .map(|word| words::source_function(*word))
        .find(|function| !binds(bindings, *function))
}
