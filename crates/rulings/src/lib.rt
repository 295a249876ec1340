// Second rulings, for tests of the first: what a pricer, a checker and a mapper answer, over the second accounts of files and glue. They
// share no code, no table and no definition with the crates that are tested, so their contracts say only what safety needs, on purpose.
#![tactic(auto)]

pub mod checking;
pub mod choosing;
pub mod known;
