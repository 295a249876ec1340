// What the tests share: words taken apart and put together, counts of what was compared, and lines of output. They are tests, so their
// contracts say only what safety needs.
#![tactic(auto)]

pub mod kinds;
pub mod say;
pub mod tally;
pub mod words;
