// Tries releases: of each number on benches with something bound and with nothing; of benches that are not sound; of what is bound anew
// by another rule; and in long random runs of binds and releases, beside an account that keeps a plain list. The lines that show an
// answer are compared with those that request #102 asks for. The program is a test, so its contracts say only what safety needs.
#![tactic(auto)]

mod account;
mod anew;
mod every;
mod rows;
mod runs;

fn main(rt: HostRuntime) {
    rows::report(&rt);
    every::report(&rt);
    anew::report(&rt);
    runs::report(&rt);
}
