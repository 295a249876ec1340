// What the tests of the bench share: its calls on benches as the reference has them, benches put together without the library, and what
// is written of an answer. Contracts say only what safety needs.
#![tactic(auto)]

pub mod calls;
pub mod files;
pub mod lines;
pub mod steps;
