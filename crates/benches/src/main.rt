// Tries the bench: document 01's printed job bound by hand, in every order, and released; each refusal of each call; counts that are not
// the bench's; runs in which calls are refused; benches spoilt in a bit or a word, beside the second account of which benches are sound; a
// job with negated targets bound by hand; and marks that are put to targets and taken from them. The lines that show an answer are compared
// with those that document 01 asks for. The program is a test, so its contracts say only what safety needs.
#![tactic(auto)]

mod binds;
mod counts;
mod finishes;
mod marks;
mod negated;
mod opens;
mod orders;
mod printed;
mod runs;
mod tallies;

fn main(rt: HostRuntime) {
    printed::report(&rt);
    orders::report(&rt);
    opens::report(&rt);
    binds::report(&rt);
    finishes::report(&rt);
    counts::report(&rt);
    runs::report(&rt);
    tallies::report(&rt);
    negated::report(&rt);
    marks::report(&rt);
}
