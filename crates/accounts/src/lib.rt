// Second accounts of files and benches, for tests of the first, over the reference's of functions and recipes: the refusals of files,
// the glue count, and which benches are sound. They share no code, no table and no definition with the crates that are tested, so
// their contracts say only what safety needs, on purpose.
#![tactic(auto)]

pub mod glue;
pub mod reading;
pub mod sound;
