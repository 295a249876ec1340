// Compares the checker and the pricer with the reference's: on document 01's printed job and mapping, on what becomes of them when
// bits and words are changed, on mappings with their own and the older count, on jobs with negated targets, and on random jobs and mappings, with plain
// targets and with some negated. Two lines for each group say how many answers were compared, how many differ, and how many had each number;
// before them, where any differ, stands the first. Of the mappings with the two counts and of the jobs with negated targets that are not
// random a line each says what is answered. The program is a test, so its contracts say only what safety needs.
#![tactic(auto)]

mod changes;
mod compare;
mod counts;
mod negated;
mod random;
mod show;

use changes::{report_one_change, report_two_changes};
use compare::{price_of, report};
use counts::report_counts;
use negated::report_negated;
use random::{Targets, random_files};
use rulings::checking::Pair;
use testing::words::{JOB, MAPPING};

// At each width one change after another.
const WIDTHS: [u32; 4] = [16, 1, 2, 3];

// Widths, and how many random files at each.
const RANDOM: [(u32, u64); 5] = [(1, 4000), (2, 4000), (3, 4000), (16, 2000), (64, 1000)];

fn report_changes(rt: &HostRuntime) {
    for n in WIDTHS {
        report_one_change(rt, n);
    }
    report_two_changes(rt, 2);
    report_two_changes(rt, 16);
}

fn report_random(rt: &HostRuntime, name: &[u8], targets: Targets) {
    for (n, count) in RANDOM {
        report(rt, name, n, random_files(rt, targets, n, count));
    }
}

fn main(rt: HostRuntime) {
    // Document 01 prints a count of 148, which request #106 lowers to 132.
    let priced = price_of(&Pair {
        job: &JOB,
        mapping: &MAPPING,
    });
    let count = match priced {
        Ok(count) => count as u64,
        Err(refusal) => refusal.place as u64,
    };
    let _ = println!(rt; "the printed mapping: price {count}");
    report_changes(&rt);
    report_counts(&rt);
    report_negated(&rt);
    report_random(&rt, b"random files", Targets::Plain);
    report_random(
        &rt,
        b"random files, some targets negated",
        Targets::SomeNegated,
    );
}
