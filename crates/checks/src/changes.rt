// The printed job and mapping, changed.
use crate::compare::{Tallies, compared, report};
use rulings::checking::Pair;
use std::ops::Range;
use testing::kinds::Kind;
use testing::words::{JOB, MAPPING, after, at, content, first, glue_word, put};

// The words of the job; the bits of the job, and of both.
const MIDDLE: usize = 14;

const JOB_BITS: u32 = 448;

const BITS: u32 = 640;

const BOOK_BIT: u32 = 7;

// The job and the mapping of an array that holds both.
// Kept: one array, the mapping after the job, since bits are turned in the one and the other alike.
fn pair_of(both: &[u32]) -> Pair<'_> {
    Pair {
        job: first(both, MIDDLE),
        mapping: after(both, MIDDLE),
    }
}

fn rightly_priced(both: [u32; 20]) -> [u32; 20] {
    let mut words = both;
    let count = pair_of(&both).glue_count();
    words[19] = glue_word(count);
    words
}

// At a width, rightly priced.
fn printed_at(n: u32) -> [u32; 20] {
    let mut words = [0u32; 20];
    words[..MIDDLE].copy_from_slice(&JOB);
    words[MIDDLE..].copy_from_slice(&MAPPING);
    words[0] = 0x1000_0000 | n;
    words[MIDDLE] = 0x1000_0000 | n;
    rightly_priced(words)
}

fn with_both(rt: &HostRuntime, all: Tallies, both: &[u32]) -> Tallies {
    compared(rt, all, &pair_of(both))
}

fn turned(both: [u32; 20], bit: u32) -> [u32; 20] {
    let mut words = both;
    let i = (bit / 32 % 20) as usize;
    words[i] = words[i] ^ (1u32 << (bit % 32));
    words
}

// Each of these bits turned. They are counted from the lowest of the first word.
fn with_each_bit(rt: &HostRuntime, all: Tallies, both: [u32; 20], bits: Range<u32>) -> Tallies {
    let mut all = all;
    for bit in bits {
        all = with_both(rt, all, &turned(both, bit));
    }
    all
}

// Each of these bits turned, with each bit of the mapping after it.
fn two_bits(rt: &HostRuntime, n: u32, bits: Range<u32>) -> Tallies {
    let both = printed_at(n);
    let mut all = Tallies::default();
    for bit in bits {
        let start = JOB_BITS.max(bit.wrapping_add(1));
        all = with_each_bit(rt, all, turned(both, bit), start..BITS);
    }
    all
}

// The mapping cut short, to none of its words and more.
fn mapping_cut(rt: &HostRuntime, all: Tallies, both: &[u32]) -> Tallies {
    let mut all = all;
    for size in 0..6 {
        let pair = Pair {
            mapping: first(after(both, MIDDLE), size),
            ..pair_of(both)
        };
        all = compared(rt, all, &pair);
    }
    all
}

// The job cut short in the same way.
fn job_cut(rt: &HostRuntime, all: Tallies, both: &[u32]) -> Tallies {
    let mut all = all;
    for size in 0..MIDDLE {
        let pair = Pair {
            job: first(both, size),
            ..pair_of(both)
        };
        all = compared(rt, all, &pair);
    }
    all
}

// The mapping without its binding at an index, from 1 on, rightly priced.
fn without(both: &[u32], index: usize) -> [u32; 5] {
    let mapping = after(both, MIDDLE);
    let second = if index == 1 { 2 } else { 1 };
    let third = if index < 3 { 3 } else { 2 };
    let fourth = if index < 4 { 4 } else { 3 };
    let mut words = [
        at(mapping, 0),
        at(mapping, second),
        at(mapping, third),
        at(mapping, fourth),
        0,
    ];
    let pair = Pair {
        mapping: &words,
        ..pair_of(both)
    };
    let count = pair.glue_count();
    words[4] = glue_word(count);
    words
}

fn a_binding_left_out(rt: &HostRuntime, both: [u32; 20]) -> Tallies {
    let mut all = Tallies::default();
    for index in 1..5 {
        let pair = Pair {
            mapping: &without(&both, index),
            ..pair_of(&both)
        };
        all = compared(rt, all, &pair);
    }
    all
}

// A rule bound instead of a binding: as the mapping is priced, and rightly priced.
fn with_rule(
    rt: &HostRuntime,
    all: Tallies,
    both: [u32; 20],
    rule: usize,
    binding: usize,
) -> Tallies {
    let word = at(&both, rule.wrapping_add(8));
    let mut words = both;
    let index = binding.wrapping_add(MIDDLE + 1);
    put(&mut words, index, Kind::Binding.word(content(word)));
    let priced = rightly_priced(words);
    with_both(rt, with_both(rt, all, &words), &priced)
}

// Each of the six rules of the job instead of each of the four bindings.
fn a_rule_bound(rt: &HostRuntime, both: [u32; 20]) -> Tallies {
    let mut all = Tallies::default();
    for i in 0..24 {
        all = with_rule(rt, all, both, i % 6, i / 6);
    }
    all
}

// The bit that asks for the book, in the header of neither, of the job, of the mapping and of both.
fn the_book_asked_for(rt: &HostRuntime, both: [u32; 20]) -> Tallies {
    let asked = turned(both, BOOK_BIT);
    let of_job = with_both(rt, with_both(rt, Tallies::default(), &both), &asked);
    let of_mapping = with_both(rt, of_job, &turned(both, JOB_BITS + BOOK_BIT));
    with_both(rt, of_mapping, &turned(asked, JOB_BITS + BOOK_BIT))
}

// One change after another, at a width.
pub fn report_one_change(rt: &HostRuntime, n: u32) {
    let both = printed_at(n);
    let printed = with_both(rt, Tallies::default(), &both);
    report(rt, b"as printed", n, printed);
    let of_mapping = with_each_bit(rt, Tallies::default(), both, JOB_BITS..BITS);
    report(rt, b"a bit of the mapping changed", n, of_mapping);
    let of_job = with_each_bit(rt, Tallies::default(), both, 0..JOB_BITS);
    report(rt, b"a bit of the job changed", n, of_job);
    let cut = job_cut(rt, mapping_cut(rt, Tallies::default(), &both), &both);
    report(rt, b"cut short", n, cut);
    report(rt, b"a binding left out", n, a_binding_left_out(rt, both));
    report(rt, b"a rule bound", n, a_rule_bound(rt, both));
    report(rt, b"the book asked for", n, the_book_asked_for(rt, both));
}

// Two bits changed, at a width.
pub fn report_two_changes(rt: &HostRuntime, n: u32) {
    let of_mapping = two_bits(rt, n, JOB_BITS..BITS);
    report(rt, b"two bits of the mapping changed", n, of_mapping);
    let of_each = two_bits(rt, n, 0..JOB_BITS);
    report(rt, b"a bit of each changed", n, of_each);
}
