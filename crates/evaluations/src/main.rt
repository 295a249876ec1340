// Compares the evaluator with the reference: document 01's cases that carry no star, corner operands, random operands and values out
// of range. A line for each group says how many inputs were compared and at how many of them the two differ; before it, where any do,
// stands the first. The program is a test, so its contracts say only what safety needs.
#![tactic(auto)]

mod beside;
mod groups;
mod ranges;

use groups::{at_width, turns, vectors};
use ranges::first_out_at;
use testing::say::report;

const RANGES: [(&str, Option<usize>); 6] = [
    ("function out of range", Some(0)),
    ("width out of range", Some(1)),
    ("left out of range", Some(2)),
    ("right out of range", Some(3)),
    ("carry out of range", Some(4)),
    ("nothing out of range", None),
];

// By the first place that is out of range.
fn report_ranges(rt: &HostRuntime) {
    for (name, place) in RANGES {
        report(rt, name.as_bytes(), first_out_at(rt, place));
    }
}

fn main(rt: HostRuntime) {
    report(&rt, b"width 64 accepted", at_width(&rt, 64, None));
    report(&rt, b"width 65 refused", at_width(&rt, 65, Some(1)));
    report(&rt, b"vectors of Table 4", vectors(&rt));
    report(&rt, b"corner operands", turns(&rt, 0, 169344));
    report(&rt, b"random operands", turns(&rt, 169344, 1206144));
    report_ranges(&rt);
}
