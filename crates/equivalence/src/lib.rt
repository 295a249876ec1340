// The states from which a recipe fails: what both sides show at a place, sets of failing states from the top place down, and a walk to
// operands from the lowest place up.
#![tactic(auto)]

mod groups;
pub mod numbers;
pub mod rounds;
mod showing;
mod shown;
pub mod sides;
pub mod witness;
