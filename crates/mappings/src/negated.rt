// Jobs whose mapping is known, with a plain target and with the negated one.
use crate::jobs::largest;
use crate::show::{mapped, mapped_with};
use rulings::known::for_negated;
use testing::words::{JOB, MARK, at, first};

// The place of the only target of the jobs below.
const TARGET: usize = 3;

// A name for the job with the plain target, one for that with the negated target, and the job.
type Pair = (&'static [u8], &'static [u8], &'static [u32]);

const PAIRS: [Pair; 9] = [
    // The output as it is, and complemented.
    (
        b"ADD from ADD",
        b"ADD from negated ADD",
        &[0x10000008, 0x20010101, 0x30000001, 0x40000001, 0x50854960],
    ),
    (
        b"NAND as AND",
        b"NAND as negated AND",
        &[0x10000008, 0x20010101, 0x30000009, 0x40000008, 0x54A14100],
    ),
    // OCOUT and OVF do not come out complemented.
    (
        b"SUB as NOT SUB",
        b"SUB as NOT negated SUB",
        &[0x10000008, 0x20010101, 0x30000002, 0x40000002, 0x51094A60],
    ),
    (
        b"SUB as NOT SUB, NOT its carry",
        b"SUB as NOT negated SUB, NOT its carry",
        &[0x10000008, 0x20010101, 0x30000002, 0x40000002, 0x51094AA0],
    ),
    // TO1; all bits joined; and S beside TOVF.
    (
        b"NEQ as EQ",
        b"NEQ as negated EQ",
        &[0x10000008, 0x20010101, 0x30000017, 0x40000016, 0x5BD94001],
    ),
    (
        b"EQ as GAND of XOR",
        b"EQ as GAND of negated XOR",
        &[0x10000008, 0x20010101, 0x30000016, 0x4000000C, 0x5B314005],
    ),
    (
        b"LT as NOT S XOR TOVF of SUB",
        b"LT as NOT S XOR TOVF of negated SUB",
        &[0x10000008, 0x20010101, 0x30000019, 0x40000002, 0x5C89440D],
    ),
    // Two rules, of which NOT TO0 costs eight inverters.
    (
        b"AND as AND or NOT AND",
        b"AND as negated AND or NOT negated AND",
        &[
            0x10000008, 0x20010101, 0x30000008, 0x40000008, 0x54214100, 0x54214200,
        ],
    ),
    (
        b"NAND as NOT AND or AND",
        b"NAND as NOT negated AND or negated AND",
        &[
            0x10000008, 0x20010101, 0x30000009, 0x40000008, 0x54A14200, 0x54A14100,
        ],
    ),
];

// The same of jobs that ask for the book: what it has of the target or from scratch, and a rule before it.
const BOOK_PAIRS: [Pair; 4] = [
    (
        b"the book, AND, target AND",
        b"the book, AND, target negated AND",
        &[0x10000088, 0x20010101, 0x30000008, 0x40000008],
    ),
    (
        b"the book, NAND as AND",
        b"the book, NAND as negated AND",
        &[0x10000088, 0x20010101, 0x30000009, 0x40000008, 0x54A14100],
    ),
    (
        b"the book, LT, target SUB",
        b"the book, LT, target negated SUB",
        &[0x10000088, 0x20010101, 0x30000019, 0x40000002],
    ),
    (
        b"the book, LT as NOT S XOR TOVF of SUB",
        b"the book, LT as NOT S XOR TOVF of negated SUB",
        &[0x10000088, 0x20010101, 0x30000019, 0x40000002, 0x5C89440D],
    ),
];

// The printed job with a header and its two targets, and how many of its words: all, or those before its rules.
type Printed = (&'static [u8], u32, [u32; 2], usize);

const PRINTED: [Printed; 8] = [
    (
        b"printed job, ADD negated",
        0x10000010,
        [0x40000021, 0x40000002],
        14,
    ),
    (
        b"printed job, SUB negated",
        0x10000010,
        [0x40000001, 0x40000022],
        14,
    ),
    (
        b"the book, printed job, ADD negated",
        0x10000090,
        [0x40000021, 0x40000002],
        14,
    ),
    (
        b"the book, printed job, SUB negated",
        0x10000090,
        [0x40000001, 0x40000022],
        14,
    ),
    (
        b"the book, printed job, both negated",
        0x10000090,
        [0x40000021, 0x40000022],
        14,
    ),
    (
        b"the book, printed job without its rules, ADD negated",
        0x10000090,
        [0x40000021, 0x40000002],
        8,
    ),
    (
        b"the book, printed job without its rules, SUB negated",
        0x10000090,
        [0x40000001, 0x40000022],
        8,
    ),
    (
        b"the book, printed job without its rules, both negated",
        0x10000090,
        [0x40000021, 0x40000022],
        8,
    ),
];

// A job, and the same with its target negated.
fn with_pair(rt: &HostRuntime, pair: Pair) {
    let (plain, negated, job) = pair;
    mapped(rt, plain, job, 3);
    mapped_with(rt, negated, job, (TARGET, at(job, TARGET) | MARK), 3);
}

fn with_printed(rt: &HostRuntime, row: Printed) {
    let (name, header, targets, size) = row;
    let mut job = JOB;
    job[0] = header;
    job[6] = targets[0];
    job[7] = targets[1];
    mapped(rt, name, first(&job, size), 6);
}

// The largest job with each target negated.
fn largest_negated() -> [u32; 568] {
    let mut job = largest();
    for target in &mut job[29..56] {
        *target |= MARK;
    }
    job
}

// The same with its rules rewritten.
fn largest_rewritten() -> [u32; 568] {
    let mut job = largest_negated();
    for rule in &mut job[56..] {
        *rule = for_negated(*rule);
    }
    job
}

fn report_pairs(rt: &HostRuntime, pairs: &[Pair]) {
    for pair in pairs {
        with_pair(rt, *pair);
    }
}

fn report_printed(rt: &HostRuntime) {
    for row in &PRINTED {
        with_printed(rt, *row);
    }
}

pub fn report_negated(rt: &HostRuntime) {
    report_pairs(rt, &PAIRS);
    report_pairs(rt, &BOOK_PAIRS);
    report_printed(rt);
    mapped(
        rt,
        b"27 sources, 27 negated targets, 512 rules, width 64",
        &largest_negated(),
        29,
    );
    mapped(
        rt,
        b"27 sources, 27 negated targets, 512 rules, rewritten, width 64",
        &largest_rewritten(),
        29,
    );
}
