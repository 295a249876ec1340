// Compares the crate `reader` with the reference's: files at each limit, each refusal at every place, every kind of word at every
// place, each bit of a header turned, targets that are negated, and random files with random damage. A line for each group says how many
// files were compared, at how many of them the two differ (or, where document 01 tells the answer, differ from it), and how many were
// accepted or met each refusal. The program is a test, so its contracts say only what safety needs.
#![tactic(auto)]

mod damage;
mod files;
mod limits;
mod marks;
mod places;
mod random;

use accounts::reading::File;
use damage::{damaged_files, damaged_marked};
use readers::report;

fn main(rt: HostRuntime) {
    limits::report_sizes(&rt);
    limits::report_words(&rt);
    places::report_places(&rt);
    marks::report_marks(&rt);
    report(
        &rt,
        b"jobs with random damage",
        damaged_files(File::Job, 300000),
    );
    report(
        &rt,
        b"mappings with random damage",
        damaged_files(File::Mapping, 300000),
    );
    report(
        &rt,
        b"jobs with negated targets and random damage",
        damaged_marked(300000),
    );
}
