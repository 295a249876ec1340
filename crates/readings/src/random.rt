// Random files that both readers accept.
use crate::files::FileWords;
use accounts::reading::File;
use reference::trial::next;
use testing::kinds::{Kind, kind_of};
use testing::words::{MARK, Words, at};

// A random number below another; below 0 it is 0.
pub fn draw(state: &mut u64, below: u32) -> u32 {
    let x = next(*state);
    *state = x;
    ((x >> 32) as u32).checked_rem(below).unwrap_or(0)
}

// A random one of so many numbers from another on.
fn draw_from(state: &mut u64, first: u32, count: u32) -> u32 {
    draw(state, count).wrapping_add(first)
}

// Targets of one kind: the first function and how many there are, the first comparison code of them and how many.
struct Targets {
    function: u32,
    functions: u32,
    code: u32,
    codes: u32,
}

const TARGETS: [Targets; 3] = [
    Targets {
        function: 1,
        functions: 5,
        code: 3,
        codes: 13,
    },
    Targets {
        function: 6,
        functions: 16,
        code: 3,
        codes: 9,
    },
    Targets {
        function: 22,
        functions: 6,
        code: 1,
        codes: 2,
    },
];

// The target and the comparison code of a recipe for a comparison.
fn comparison(state: &mut u64) -> u32 {
    let targets = &TARGETS[(draw(state, 3) % 3) as usize];
    let target = draw_from(state, targets.function, targets.functions);
    (target << 18) | draw_from(state, targets.code, targets.codes)
}

// The target and the outputs of a recipe for a function.
fn outputs(state: &mut u64, function: u32) -> u32 {
    if 21 < function {
        return comparison(state);
    }
    let main = draw_from(state, 1, 2) << 8;
    if 5 < function {
        return (draw_from(state, 1, 21) << 18) | main;
    }
    let cout = draw_from(state, 1, 2) << 6;
    (draw_from(state, 1, 5) << 18) | main | cout | 32
}

fn wired(state: &mut u64, function: u32) -> u32 {
    let left = draw(state, 6) << 15;
    let right = draw(state, 6) << 12;
    let carry = draw(state, 4) << 10;
    left | right | carry | outputs(state, function)
}

// A word of a kind for a function; a recipe passes 3, 5 and 6.
// Kept: the kind by number, since a damaged file has any of the sixteen.
pub fn random_word(state: &mut u64, kind: u32, function: u32) -> u32 {
    if kind < 5 {
        return (kind << 28) | function;
    }
    let head = (kind << 28) | (function << 23);
    let scratch = draw(state, 2) == 0;
    if (5 < function) & (function < 22) & scratch {
        return head | draw(state, 16);
    }
    head | wired(state, function)
}

// Words of one kind for some of the functions, in order: of each one time in one to eight.
fn push_table(words: &mut FileWords, kind: Kind, state: &mut u64) {
    let odds = draw(state, 8);
    for function in 1..=27 {
        if draw(state, odds % 8 + 1) == 0 {
            words.push(random_word(state, u32::from(kind), function));
        }
    }
}

// More than 12 rules now and then.
fn push_rules(words: &mut FileWords, state: &mut u64) {
    let most = if draw(state, 50) == 0 { 513 } else { 12 };
    for _ in 0..draw(state, most) {
        let function = draw_from(state, 1, 27);
        words.push(random_word(state, u32::from(Kind::Rule), function));
    }
}

// Half of the jobs ask for the book, by a bit that no draw uses.
fn random_job(width: u32, state: &mut u64) -> FileWords {
    let asked = (*state >> 20) % 2 * 128;
    let mut words = Words::empty();
    words.push(Kind::Header.word(width | asked as u32));
    words.push(Kind::Prices.word(draw(state, 0x0100_0000)));
    // The one source, where the table has none.
    let source = draw_from(state, 1, 27);
    push_table(&mut words, Kind::Source, state);
    if words.written().len() == 2 {
        words.push(Kind::Source.word(source));
    }
    push_table(&mut words, Kind::Target, state);
    push_rules(&mut words, state);
    words
}

fn random_mapping(width: u32, state: &mut u64) -> FileWords {
    let mut words = Words::empty();
    words.push(Kind::Header.word(width));
    push_table(&mut words, Kind::Binding, state);
    words.push(Kind::Glue.word(draw(state, 0x1000_0000)));
    words
}

pub fn random_file(file: File, state: &mut u64) -> FileWords {
    let width = draw_from(state, 1, 64);
    match file {
        File::Job => random_job(width, state),
        File::Mapping => random_mapping(width, state),
    }
}

// Marks a job's targets as negated: in half of the jobs none, in the others each one time in two.
pub fn mark_targets(words: &mut FileWords, state: &mut u64) {
    let some = draw(state, 2) == 1;
    for i in 0..words.written().len() {
        let word = at(words.written(), i);
        let marked = some & (draw(state, 2) == 1);
        if marked & (kind_of(word) == Some(Kind::Target)) {
            words.put(i, word ^ MARK);
        }
    }
}
