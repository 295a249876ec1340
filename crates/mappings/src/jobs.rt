// Jobs whose mapping is known, besides document 01's.
use testing::kinds::Kind;
use testing::words::word_of;

// The bit of a job's header that asks for the book.
pub const BOOK_BIT: u32 = 0x80;

// Document 01's job without its last rule: LT is left with the published rule, which is wrong.
pub const PRINTED_RULE_ONLY: [u32; 13] = [
    0x10000010, 0x20010103, 0x30000001, 0x30000003, 0x30000008, 0x30000019, 0x40000001, 0x40000002,
    0x50854960, 0x518A2960, 0x5185C960, 0x54000001, 0x5C894407,
];

// Two sources and no rule for them.
pub const NO_RULE: [u32; 4] = [0x10000008, 0x20010101, 0x30000008, 0x3000000A];

// AND from AND, and no AND among the targets.
pub const TARGET_MISSING: [u32; 5] = [0x10000008, 0x20010101, 0x30000008, 0x40000001, 0x54214100];

// ADD, which no recipe makes from AND or from scratch, by a rule from ADD, which is not among the targets.
pub const NEITHER: [u32; 5] = [0x10000008, 0x20010101, 0x30000001, 0x40000008, 0x50854960];

// AND from AND, with the operands in either order: both cost nothing.
pub const EQUAL_GLUE: [u32; 6] = [
    0x10000008, 0x20010101, 0x30000008, 0x40000008, 0x54214100, 0x54222100,
];

pub const EQUAL_GLUE_REVERSED: [u32; 6] = [
    0x10000008, 0x20010101, 0x30000008, 0x40000008, 0x54222100, 0x54214100,
];

// These jobs with the bit that asks for the book; document 01's too. Of equal glue one rule is left, which the book has behind the other.
pub const BOOK_JOB: [u32; 14] = [
    0x10000090, 0x20010103, 0x30000001, 0x30000003, 0x30000008, 0x30000019, 0x40000001, 0x40000002,
    0x50854960, 0x518A2960, 0x5185C960, 0x54000001, 0x5C894407, 0x5C89440C,
];

pub const BOOK_NO_RULE: [u32; 4] = [0x10000088, 0x20010101, 0x30000008, 0x3000000A];

pub const BOOK_TARGET_MISSING: [u32; 5] = [
    0x10000088, 0x20010101, 0x30000008, 0x40000001, 0x54214100,
];

pub const BOOK_NEITHER: [u32; 5] = [0x10000088, 0x20010101, 0x30000001, 0x40000008, 0x50854960];

pub const BOOK_EQUAL_GLUE: [u32; 5] = [0x10000088, 0x20010101, 0x30000008, 0x40000008, 0x54222100];

// All 27 functions as sources and targets at width 64; 485 wrong rules (ADD from SUB), then each function from itself.
pub fn largest() -> [u32; 568] {
    let mut words = [0x50894960u32; 568];
    words[0] = 0x10000040;
    words[1] = 0x20FFFFFF;
    for function in 1..28 {
        let place = function as usize;
        words[place + 1] = word_of(Kind::Source, function);
        words[place + 28] = word_of(Kind::Target, function);
        words[place + 540] = word_of(Kind::Rule, function);
    }
    words
}
