// One word of a job or a mapping: what a word of each kind must be, and its refusal, 2 to 6. Document 01, "Words" and "Refusals that come
// from the input".
#![tactic(auto)]

mod step;

pub use step::{fits, pass};
