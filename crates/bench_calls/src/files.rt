// The rules of the mapping that document 01 prints, a job with negated targets, and benches put together without the library.
use accounts::sound::{BenchWords, Prices, Table};
use testing::kinds::Kind;
use testing::words::{JOB, MARK, after, first, word_of};

// In the order of the printed job's sources.
pub const ADD_RULE: u32 = 0x5085_4960;

pub const RSUB_RULE: u32 = 0x5185_C960;

pub const AND_RULE: u32 = 0x5400_0001;

pub const LT_RULE: u32 = 0x5C89_440C;

pub const RULES: [u32; 4] = [ADD_RULE, RSUB_RULE, AND_RULE, LT_RULE];

// The job's other rule of LT, which is wrong.
pub const WRONG_LT_RULE: u32 = 0x5C89_4407;

// ADD, SUB, NAND and LT; ADD as target, and SUB and AND, which are negated; and a right rule of each source: ADD from ADD, SUB as NOT SUB,
// NAND as AND, and LT by NOT S XOR TOVF of SUB.
pub const NEGATED_JOB: [u32; 13] = [
    0x1000_0010,
    0x2001_0103,
    0x3000_0001,
    0x3000_0002,
    0x3000_0009,
    0x3000_0019,
    0x4000_0001,
    0x4000_0022,
    0x4000_0028,
    0x5085_4960,
    0x5109_4A60,
    0x54A1_4100,
    0x5C89_440D,
];

// Its rules in the order of its sources.
pub const NEGATED_RULES: [u32; 4] = [
    NEGATED_JOB[9],
    NEGATED_JOB[10],
    NEGATED_JOB[11],
    NEGATED_JOB[12],
];

// The set of its negated targets, by bits, the first target the lowest.
pub const NEGATED: u32 = 0b110;

// A bench that is put together.
#[derive(Clone, Copy)]
pub enum Made {
    // All words 0.
    Zeros,
    // Of the printed job, at a width, with rules bound.
    Printed(u32, &'static [u32]),
    // Of the job with negated targets, at a width, with this set of them negated and rules bound.
    Marked(u32, u32, &'static [u32]),
    // Of the job of LT and, as its target, RINHI, at a width, with nothing bound.
    Inhibit(u32),
}

impl Made {
    // As the second account has benches, with the count of what is bound.
    pub fn words(self) -> BenchWords {
        match self {
            Made::Zeros => BenchWords::zeros(),
            Made::Printed(width, rules) => with_rules(printed_bench(width), rules),
            Made::Marked(width, set, rules) => with_rules(marked_bench(width, set), rules),
            Made::Inhibit(width) => inhibit_bench(width),
        }
    }
}

// With rules bound, and their count.
fn with_rules(bench: BenchWords, rules: &[u32]) -> BenchWords {
    let mut bench = bench;
    for rule in rules {
        bench = bench.with_rule(*rule);
    }
    bench.counted()
}

fn printed_bench(width: u32) -> BenchWords {
    BenchWords {
        width,
        prices: Prices {
            inverter: 1,
            gate: 1,
            multiplexer: 3,
        },
        sources: Table::of(first(after(&JOB, 2), 4)),
        targets: Table::of(first(after(&JOB, 6), 2)),
        ..BenchWords::zeros()
    }
}

// A target, negated where a number is odd.
fn marked_target(function: u32, number: u32) -> u32 {
    Kind::Target.word(function | (number % 2 * MARK))
}

fn marked_bench(width: u32, set: u32) -> BenchWords {
    let targets = [
        marked_target(1, set),
        marked_target(2, set / 2),
        marked_target(8, set / 4),
    ];
    BenchWords {
        sources: Table::of(first(after(&NEGATED_JOB, 2), 4)),
        targets: Table::of(&targets),
        ..printed_bench(width)
    }
}

fn inhibit_bench(width: u32) -> BenchWords {
    BenchWords {
        width,
        sources: Table::of(&[0x3000_0019]),
        targets: Table::of(&[0x4000_0013]),
        ..BenchWords::zeros()
    }
}

// The words of a kind for all functions.
fn of_all_functions(kind: Kind) -> [u32; 27] {
    let mut words = [0u32; 27];
    for (word, function) in words.iter_mut().zip(1..28) {
        *word = word_of(kind, function);
    }
    words
}

// The largest bench: every function a source and a target, and each bound to itself; no two prices are alike.
pub fn whole_bench(width: u32) -> BenchWords {
    let bench = BenchWords {
        width,
        prices: Prices {
            inverter: 2,
            gate: 5,
            multiplexer: 7,
        },
        sources: Table::of(&of_all_functions(Kind::Source)),
        targets: Table::of(&of_all_functions(Kind::Target)),
        bound: of_all_functions(Kind::Rule),
        glue: 0,
    };
    bench.counted()
}
