// Benches to whose targets marks are put by hand, and from whose targets they are taken, beside the reference's account of which are sound.
use crate::tallies::{Tally, report_bench, report_group, with};
use accounts::sound::{BenchWords, Table};
use bench_calls::files::{Made, NEGATED, NEGATED_RULES, whole_bench};
use rulings::known::for_negated;
use testing::words::MARK;

// Of the rules of the job with negated targets those in a set, by bits, bound where another set says which targets are negated.
fn bound_in(width: u32, marks: u32, rules: u32) -> BenchWords {
    let mut bench = Made::Marked(width, marks, &[]).words();
    for i in 0..4usize {
        if (rules >> i) % 2 == 1 {
            bench = bench.with_rule(NEGATED_RULES[i]);
        }
    }
    bench.counted()
}

// Each set of the three targets negated.
fn with_marks(all: Tally, width: u32, rules: u32) -> Tally {
    let mut all = all;
    for marks in 0..8 {
        all = with(all, bound_in(width, marks, rules));
    }
    all
}

// Each set of the four rules bound.
fn with_rules(width: u32) -> Tally {
    let mut all = Tally::default();
    for rules in 0..16 {
        all = with_marks(all, width, rules);
    }
    all
}

// Every function bound to itself, each target negated and each rule rewritten.
fn whole_negated(width: u32) -> BenchWords {
    let plain = whole_bench(width);
    let bench = BenchWords {
        targets: Table::of(&plain.targets.words.map(|word| word | MARK)),
        bound: plain.bound.map(|rule| for_negated(rule)),
        ..plain
    };
    bench.counted()
}

pub fn report(rt: &HostRuntime) {
    report_group(
        rt,
        b"any of three targets negated, any of four rules bound, width 2",
        with_rules(2),
    );
    report_group(rt, b"the same at width 16", with_rules(16));
    report_bench(
        rt,
        b"the job with negated targets at width 3, its rules bound",
        Made::Marked(3, NEGATED, &NEGATED_RULES).words(),
    );
    report_bench(
        rt,
        b"every function bound to itself negated at width 2",
        whole_negated(2),
    );
}
