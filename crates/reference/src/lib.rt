// Second accounts of functions and recipes, for tests of the first. The evaluator works place by place with gates and takes its tables
// from Tables 1 to 3 of the report as document 01 settles them; it shares no code, no table and no definition with the crates that it
// tests. Over it, in the same way, stand what a recipe shows, whether it is right, and the refusals of its word. So the contracts say
// only what safety needs, on purpose: what is shown rests on nothing that is proved elsewhere.
#![tactic(auto)]

pub mod answer;
mod arithmetic;
mod comparison;
pub mod evaluator;
mod logic;
pub mod negated;
mod places;
pub mod recipe;
pub mod refusal;
pub mod trial;
