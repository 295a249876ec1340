// Tries the judge against the reference on recipes of negated targets, and on the same recipes of plain ones: on every recipe at widths 1, 2
// and 3, and on some thousands of them above. Then what the mark means: a recipe that reads the complement of what another reads is judged
// with the negated target as the other is with the plain one. A line for each group says how many answers were compared and how many of them
// differ; before it, where there are any, stands the first. The program is a test, so its contracts say only what safety needs.
#![tactic(auto)]

mod codes;
mod pairings;
mod rewriting;
mod rights;
mod sample;
mod trial;

fn main(rt: HostRuntime) {
    pairings::report_pairings(&rt);
}
