// Random jobs with most targets, half of which ask for the book, and mappings of most of their sources, each binding right but for some
// that have a bit turned. Now and then a source is left out, another is added, the width is another, or the count is. Where some targets
// are negated, the bindings are by more rules, and right of the targets as they are marked, but for a few.
use crate::compare::{Tallies, compared};
use accounts::reading::recipe_in;
use reference::trial::next;
use rulings::checking::Pair;
use rulings::known::{for_negated, known_rules};
use testing::kinds::Kind;
use testing::words::{MARK, Words, content, from_scratch, glue_word, word_of};

// What the targets of the jobs are.
#[derive(Clone, Copy, PartialEq, Eq)]
pub enum Targets {
    Plain,
    // Each one time in two.
    SomeNegated,
}

// No file of these has more words.
type File = Words<64>;

// One time in so many, by a function's own random number.
fn seldom(random: u64, function: u32, times: u64) -> bool {
    if times == 0 {
        return false;
    }
    next(next(random ^ (function as u64))) % times == 0
}

// Another number of a function's own. `seldom` divides such numbers whole, and their lowest bits depend on one another: these are the
// highest.
fn drawn(random: u64, function: u32) -> u64 {
    next(next(random ^ (function as u64))) >> 32
}

fn is_source(function: u32, random: u64) -> bool {
    seldom(random, function, 2)
}

// The word of a source, if the function is one.
fn source_of(function: u32, random: u64) -> Option<u32> {
    if is_source(function, random) {
        Some(word_of(Kind::Source, function))
    } else {
        None
    }
}

fn target_of(function: u32, targets: Targets, random: u64) -> Option<u32> {
    if seldom(random, function | 32, 100) {
        return None;
    }
    let negated = (targets == Targets::SomeNegated) & (drawn(random, function) % 2 == 1);
    let mark = if negated { MARK } else { 0 };
    Some(word_of(Kind::Target, function) | mark)
}

// A binding, if the function has one: most sources have, and few others.
fn bound_of(function: u32, random: u64) -> Option<u32> {
    let is_bound = if is_source(function, random) {
        !seldom(random, function | 256, 200)
    } else {
        seldom(random, function | 256, 400)
    };
    if is_bound {
        Some(binding_of(function, random))
    } else {
        None
    }
}

// A binding of a function out of itself; or, half of those that can be, from scratch. Some have a bit turned.
fn binding_of(function: u32, random: u64) -> u32 {
    let word = from_scratch(Kind::Binding, function)
        .filter(|_| seldom(random, function | 64, 2))
        .unwrap_or(word_of(Kind::Binding, function));
    if seldom(random, function | 128, 30) {
        return word ^ (1u32 << (next(random) % 18));
    }
    word
}

// The words of the functions that have one.
fn put_table<F: Fn(u32) -> Option<u32>>(file: &mut File, entry: F)
    requires { F.IsAlwaysCallable entry }
{
    for function in 1..28 {
        if let Some(word) = entry(function) {
            file.push(word);
        }
    }
}

fn begun(n: u32) -> File {
    let mut file = Words::empty();
    file.push(Kind::Header.word(n));
    file
}

fn job_of(n: u32, targets: Targets, random: u64) -> File {
    let asked = if seldom(random, 2048, 2) { 128 } else { 0 };
    let mut file = begun(n | asked);
    file.push(Kind::Prices.word((next(random) % 0x100_0000) as u32));
    put_table(&mut file, |function| source_of(function, random));
    put_table(&mut file, |function| target_of(function, targets, random));
    file
}

// A binding of a function by a rule that is known to be right, rewritten where the target is negated, but for one time in 40.
fn fitted(job: &[u32], function: u32, random: u64) -> u32 {
    let known = known_rules(function);
    let x = drawn(random, function | 4096);
    let binding = Kind::Binding.word(content(known[(x % 4) as usize]));
    if recipe_in(job, binding).negated & (x / 4 % 40 != 0) {
        return for_negated(binding);
    }
    binding
}

// A binding, if the function has one, in a job of such targets.
fn bound_in(job: &[u32], targets: Targets, function: u32, random: u64) -> Option<u32> {
    let bound = bound_of(function, random);
    if targets == Targets::Plain {
        return bound;
    }
    bound.map(|_| fitted(job, function, random))
}

fn mapping_of(job: &[u32], targets: Targets, n: u32, random: u64) -> File {
    let width = if seldom(random, 1024, 40) { n ^ 1 } else { n };
    let mut file = begun(width);
    put_table(&mut file, |function| {
        bound_in(job, targets, function, random)
    });
    // With a word where the glue count is to stand.
    let mut whole = file;
    whole.push(glue_word(0));
    let pair = Pair {
        job,
        mapping: whole.written(),
    };
    let count = pair.glue_count();
    let other = if seldom(random, 512, 6) {
        1 + random % 8
    } else {
        0
    };
    file.push(glue_word(count ^ other));
    file
}

fn with_random(rt: &HostRuntime, all: Tallies, targets: Targets, n: u32, random: u64) -> Tallies {
    let job = job_of(n, targets, random);
    let mapping = mapping_of(job.written(), targets, n, random);
    let pair = Pair {
        job: job.written(),
        mapping: mapping.written(),
    };
    compared(rt, all, &pair)
}

// So many, at a width.
pub fn random_files(rt: &HostRuntime, targets: Targets, n: u32, count: u64) -> Tallies {
    let mut all = Tallies::default();
    let mut random = next(0x2545_f491_4f6c_dd1d ^ (n as u64));
    for _ in 0..count {
        all = with_random(rt, all, targets, n, random);
        random = next(next(next(random)));
    }
    all
}
