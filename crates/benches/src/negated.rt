// A job with negated targets opened, bound, finished, checked and released; and rules that are right of the negated or of the plain targets
// alone.
use crate::binds::{Bind, show_rows};
use crate::printed::show_steps;
use accounts::sound::BenchWords;
use bench_calls::files::Made::Marked;
use bench_calls::files::{ADD_RULE, Made, NEGATED, NEGATED_JOB, NEGATED_RULES};
use bench_calls::steps::Step;
use bench_calls::{calls, lines};
use testing::say;
use testing::words::MARK;

// The job's bench, and the same with plain targets; nothing is bound.
const OPENED: Made = Marked(16, NEGATED, &[]);

const PLAIN: Made = Marked(16, 0, &[]);

const OF_NEGATED: [Bind; 10] = [
    (b"ADD from ADD", OPENED, Some(0), 0x5085_4960),
    (b"SUB as NOT negated SUB", OPENED, Some(1), 0x5109_4A60),
    (b"SUB from negated SUB", OPENED, None, 0x5109_4960),
    (b"and NOT its carry", OPENED, None, 0x5109_4AA0),
    (b"NAND as negated AND", OPENED, Some(2), 0x54A1_4100),
    (b"NAND as NOT negated AND", OPENED, None, 0x54A1_4200),
    (b"NAND from scratch", OPENED, Some(2), 0x5480_000E),
    (b"LT as NOT S XOR TOVF", OPENED, Some(3), 0x5C89_440D),
    (b"LT as S XOR TOVF", OPENED, None, 0x5C89_440C),
    (b"LT from ADD", OPENED, Some(3), 0x5C85_540C),
];

const OF_PLAIN: [Bind; 6] = [
    (b"SUB as NOT SUB", PLAIN, None, 0x5109_4A60),
    (b"SUB from SUB", PLAIN, Some(1), 0x5109_4960),
    (b"NAND as AND", PLAIN, None, 0x54A1_4100),
    (b"NAND as NOT AND", PLAIN, Some(2), 0x54A1_4200),
    (b"LT as NOT S XOR TOVF", PLAIN, None, 0x5C89_440D),
    (b"LT as S XOR TOVF", PLAIN, Some(3), 0x5C89_440C),
];

const NAND_RULE: &[u32] = &[0x54A1_4100];

// NAND is bound as negated AND: its mark is taken, then that of SUB, and one is put to ADD.
const BY_HAND: [Bind; 4] = [
    (
        b"as it was",
        Marked(16, 0b110, NAND_RULE),
        Some(0),
        ADD_RULE,
    ),
    (
        b"no mark on AND",
        Marked(16, 0b010, NAND_RULE),
        None,
        ADD_RULE,
    ),
    (
        b"no mark on SUB",
        Marked(16, 0b100, NAND_RULE),
        Some(0),
        ADD_RULE,
    ),
    (
        b"a mark on ADD",
        Marked(16, 0b111, NAND_RULE),
        None,
        ADD_RULE,
    ),
];

// The bindings do not know the marks.
const MAPPING: [u32; 6] = [
    0x1000_0010,
    0x6085_4960,
    0x6109_4A60,
    0x64A1_4100,
    0x6C89_440D,
    0x7000_0048,
];

// Its rules, and the counts after each.
const BINDS: [(Step, usize); 4] = [
    (Step::Bind(NEGATED_RULES[0]), 0),
    (Step::Bind(NEGATED_RULES[1]), 64),
    (Step::Bind(NEGATED_RULES[2]), 67),
    (Step::Bind(NEGATED_RULES[3]), 72),
];

// SUB, NAND, LT and ADD, and the counts after each is released.
const RELEASES: [(Step, usize); 4] = [
    (Step::Release(2), 8),
    (Step::Release(9), 5),
    (Step::Release(25), 0),
    (Step::Release(1), 0),
];

// Its bench, which has the marks of its targets.
fn show_open(rt: &HostRuntime) -> BenchWords {
    let opened = calls::open(&NEGATED_JOB);
    say::text(rt, b"the job with negated targets\n    ");
    lines::answer(rt, b"open", opened.answer);
    let same = opened.bench == OPENED.words();
    lines::whether(rt, same, b", its targets marked\n", b", ANOTHER BENCH\n");
    opened.bench
}

// The mapping is checked beside the job, and beside the same with plain targets, where it is wrong.
fn show_finish(rt: &HostRuntime, bench: BenchWords) {
    let written = calls::writes(bench, &MAPPING);
    lines::whether(
        rt,
        written,
        b"    finish: as known\n",
        b"    finish: OTHER WORDS\n",
    );
    let mut plain = NEGATED_JOB;
    plain[7] ^= MARK;
    plain[8] ^= MARK;
    let accepted = calls::is_accepted(bench, &NEGATED_JOB) & !calls::is_accepted(bench, &plain);
    lines::whether(
        rt,
        accepted,
        b"    checked: accepted, but not with plain targets\n",
        b"    checked: OTHERWISE\n",
    );
}

// Bound, finished and released, which leaves the bench as it was opened.
fn show_run(rt: &HostRuntime) {
    let bound = show_steps(rt, show_open(rt), &BINDS);
    show_finish(rt, bound);
    let released = show_steps(rt, bound, &RELEASES);
    let same = released == OPENED.words();
    lines::whether(rt, same, b"    as opened\n", b"    ANOTHER BENCH\n");
}

pub fn report(rt: &HostRuntime) {
    show_run(rt);
    show_rows(rt, b"bind, SUB and AND being negated\n", &OF_NEGATED);
    show_rows(rt, b"bind, SUB and AND being plain\n", &OF_PLAIN);
    show_rows(rt, b"bind, NAND being bound as negated AND\n", &BY_HAND);
}
