// Targets that are marked as negated, in a job of one source, these targets and one rule.
use crate::files::FileWords;
use accounts::reading::File;
use readers::{Said, compare, report};
use testing::kinds::Kind;
use testing::tally::Numbers;
use testing::words::{MARK, Words, word_of};

// The place of a job's first target.
const FIRST: usize = 3;

// The targets of a job, and what is said of it.
type Marked = (&'static [u32], Said);

const GROUPS: [(&[u8], &[Marked]); 4] = [
    (
        b"negated targets",
        &[
            (&[0x4000_0021], Ok(())),
            (&[0x4000_003b], Ok(())),
            (&[0x4000_0021, 0x4000_0002], Ok(())),
            (&[0x4000_0001, 0x4000_0022], Ok(())),
            (&[0x4000_0021, 0x4000_0022], Ok(())),
        ],
    ),
    (
        b"negated targets of no function",
        &[
            (&[0x4000_0020], Err((3, FIRST))),
            (&[0x4000_003c], Err((3, FIRST))),
            (&[0x4000_003d], Err((3, FIRST))),
            (&[0x4000_003e], Err((3, FIRST))),
            (&[0x4000_003f], Err((3, FIRST))),
            (&[0x4000_0021, 0x4000_003c], Err((3, FIRST + 1))),
        ],
    ),
    (
        b"negated targets that do not rise",
        &[
            (&[0x4000_0021, 0x4000_0001], Err((4, FIRST + 1))),
            (&[0x4000_0001, 0x4000_0021], Err((4, FIRST + 1))),
            (&[0x4000_0021, 0x4000_0021], Err((4, FIRST + 1))),
            (&[0x4000_0022, 0x4000_0001], Err((4, FIRST + 1))),
            (&[0x4000_0002, 0x4000_0021], Err((4, FIRST + 1))),
        ],
    ),
    (
        b"3 before 4 of a negated target",
        &[
            (&[0x4000_0021, 0x4000_0020], Err((3, FIRST + 1))),
            (&[0x4000_0021, 0x4000_0061], Err((3, FIRST + 1))),
            (&[0x4000_0022, 0x4000_0041], Err((3, FIRST + 1))),
        ],
    ),
];

// A job of a source, these targets, and ADD from ADD.
fn job_with(source: u32, targets: &[u32]) -> FileWords {
    let mut words = Words::empty();
    words.push(Kind::Header.word(16));
    words.push(0x2001_0103);
    words.push(source);
    for target in targets {
        words.push(*target);
    }
    words.push(word_of(Kind::Rule, 1));
    words
}

fn with_targets(all: Numbers, targets: &[u32], said: Said) -> Numbers {
    let words = job_with(Kind::Source.word(1), targets);
    compare(all, File::Job, words.written(), Some(said))
}

fn with_group(rows: &[Marked]) -> Numbers {
    let mut all = Numbers::default();
    for (targets, said) in rows {
        all = with_targets(all, targets, *said);
    }
    all
}

// A bit above the mark, in a target that is marked and in one that is not.
fn bits_above() -> Numbers {
    let mut all = Numbers::default();
    for bit in 6..28u32 {
        let word = Kind::Target.word(1) | (1u32 << bit);
        all = with_targets(all, &[word], Err((3, FIRST)));
        all = with_targets(all, &[word | MARK], Err((3, FIRST)));
    }
    all
}

// All functions, those of a set negated.
fn all_targets(set: u32) -> Words<27> {
    let mut targets = Words::empty();
    for function in 1..28u32 {
        let mark = (set >> function) % 2 * MARK;
        targets.push(Kind::Target.word(function) | mark);
    }
    targets
}

// None of all targets negated, every other one, and all.
fn whole_tables() -> Numbers {
    let mut all = Numbers::default();
    for set in [0, 0x0555_5555, 0x0aaa_aaaa, 0x0fff_ffff] {
        all = with_targets(all, all_targets(set).written(), Ok(()));
    }
    all
}

// Each of all targets negated by itself.
fn each_negated() -> Numbers {
    let mut all = Numbers::default();
    for function in 1..28u32 {
        let targets = all_targets(1u32 << function);
        all = with_targets(all, targets.written(), Ok(()));
    }
    all
}

// The same bit of a source, which refuses it.
fn marked_sources() -> Numbers {
    let mut all = Numbers::default();
    for function in 1..28 {
        let words = job_with(Kind::Source.word(function) | MARK, &[]);
        all = compare(all, File::Job, words.written(), Some(Err((3, 2))));
    }
    all
}

pub fn report_marks(rt: &HostRuntime) {
    for (name, rows) in &GROUPS {
        report(rt, name, with_group(rows));
    }
    report(rt, b"27 targets, some negated", whole_tables());
    report(rt, b"27 targets, one negated", each_negated());
    report(rt, b"a bit above a target's mark", bits_above());
    report(rt, b"a mark on a source", marked_sources());
}
