// Random damage to a file.
use crate::files::FileWords;
use crate::random::{draw, mark_targets, random_file, random_word};
use accounts::reading::File;
use readers::compare;
use testing::tally::Numbers;
use testing::words::at;

// Some word of a kind.
// Kept: the kind by number, since it is any of the sixteen.
fn any_word(state: &mut u64) -> u32 {
    let kind = draw(state, 16);
    let function = draw(state, 30);
    if draw(state, 2) == 0 {
        return random_word(state, kind, function);
    }
    (kind << 28) | draw(state, 0x1000_0000)
}

// A word changed: a bit turned, another kind, or some other word.
fn changed(old: u32, state: &mut u64) -> u32 {
    let how = draw(state, 4);
    let bit = draw(state, 32);
    match how {
        0 | 1 => old ^ (1u32 << (bit % 32)),
        2 => (old & 0x0fff_ffff) | (draw(state, 16) << 28),
        _ => any_word(state),
    }
}

// Damages words at an index: a change, a cut, a word too few, a word twice, or one too many; past the end, one more.
fn damage(words: &mut FileWords, index: usize, state: &mut u64) {
    if words.written().len() <= index {
        return words.push(any_word(state));
    }
    let word = at(words.written(), index);
    let how = draw(state, 16);
    match how {
        0..=9 => words.put(index, changed(word, state)),
        10 => words.resize(index),
        11 | 12 => words.remove(index),
        13 => words.insert(index, word),
        _ => words.insert(index, any_word(state)),
    }
}

// An index among n words: near the front, near the end, or anywhere.
fn draw_index(state: &mut u64, n: usize) -> usize {
    let any = draw(state, 600) as usize;
    let near = draw(state, 4);
    if (n < 6) | (near == 0) {
        return any % 6;
    }
    if near == 1 {
        return n.wrapping_sub(1 + any % 6);
    }
    any % n
}

// Damages words up to three times.
fn damage_some(words: &mut FileWords, state: &mut u64) {
    let times = draw(state, 4);
    for _ in 0..times {
        let index = draw_index(state, words.written().len());
        damage(words, index, state);
    }
}

// Random files, each damaged up to three times. The seed is fixed.
pub fn damaged_files(file: File, files: u32) -> Numbers {
    let mut state = 0x2545_f491_4f6c_dd1d;
    let mut all = Numbers::default();
    for _ in 0..files {
        let mut words = random_file(file, &mut state);
        damage_some(&mut words, &mut state);
        all = compare(all, file, words.written(), None);
    }
    all
}

// Random jobs of which some targets are negated, each damaged up to three times. The seed is another.
pub fn damaged_marked(jobs: u32) -> Numbers {
    let mut state = 0x9e37_79b9_7f4a_7c15;
    let mut all = Numbers::default();
    for _ in 0..jobs {
        let mut words = random_file(File::Job, &mut state);
        mark_targets(&mut words, &mut state);
        damage_some(&mut words, &mut state);
        all = compare(all, File::Job, words.written(), None);
    }
    all
}
