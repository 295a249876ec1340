// The job and the mapping that document 01 prints, with request #106's count, and how words are taken apart and put together.
ghost use Rattle.std.specs.Prelude.{◌≤◌};

use crate::kinds::Kind;

pub const JOB: [u32; 14] = [
    0x1000_0010,
    0x2001_0103,
    0x3000_0001,
    0x3000_0003,
    0x3000_0008,
    0x3000_0019,
    0x4000_0001,
    0x4000_0002,
    0x5085_4960,
    0x518A_2960,
    0x5185_C960,
    0x5400_0001,
    0x5C89_4407,
    0x5C89_440C,
];

pub const MAPPING: [u32; 6] = [
    0x1000_0010,
    0x6085_4960,
    0x6185_C960,
    0x6400_0001,
    0x6C89_440C,
    0x7000_0084,
];

// The vectors of the logic functions, from 6 on: document 01's Table 4, with LIMPL and RIMPL as in Table 2.
pub const VECTORS: [u32; 16] = [
    0b0000, 0b1111, 0b0001, 0b1110, 0b0111, 0b1000, 0b0110, 0b1001, 0b0011, 0b0101, 0b1100, 0b1010,
    0b0100, 0b0010, 0b1101, 0b1011,
];

// The bit of a target word that marks it: the function comes negated.
pub const MARK: u32 = 0x20;

// What a lent word holds before.
pub const LENT: u32 = 0xEEEE_EEEE;

pub fn content(word: u32) -> u32 {
    word % 0x1000_0000
}

// The word at an index, 0 past the end.
pub fn at(words: &[u32], i: usize) -> u32 {
    if i < words.len() { words[i] } else { 0 }
}

// Sets the word at an index; past the end nothing.
pub fn put(words: &mut [u32], i: usize, word: u32) {
    if i < words.len() {
        words[i] = word;
    }
}

// The first n words, or all.
pub fn first(words: &[u32], n: usize) -> &[u32] {
    &words[..n.min(words.len())]
}

// The words from an index on, or none.
pub fn after(words: &[u32], n: usize) -> &[u32] {
    &words[n.min(words.len())..]
}

// Whether these words stand in lent words, and nothing past them.
pub fn lent_holds(lent: &[u32], words: &[u32]) -> bool {
    let size = words.len();
    first(lent, size) == words && after(lent, size).iter().all(|word| *word == LENT)
}

// Words written one after another, ROOM at most.
// Kept: no heap, a rule of the project.
#[derive(Clone, Copy)]
pub struct Words<const ROOM: usize> {
    words: [u32; ROOM],
    size: usize,
    ghost few: { size ≤ ROOM },
}

impl<const ROOM: usize> Words<ROOM> {
    pub fn empty() -> Words<ROOM> {
        Words {
            words: [0; ROOM],
            size: 0,
        }
    }

    // These words, or the first ROOM of them.
    pub fn of(words: &[u32]) -> Words<ROOM> {
        let mut copied = Words::empty();
        for word in words {
            copied.push(*word);
        }
        copied
    }

    pub fn written(&self) -> &[u32] {
        first(&self.words, self.size)
    }

    // One word more; where all are written nothing.
    pub fn push(&mut self, word: u32) {
        if self.size < ROOM {
            self.words[self.size] = word;
            self.size += 1;
        }
    }

    // A word instead of the one at an index; past the last nothing.
    pub fn put(&mut self, i: usize, word: u32) {
        if i < self.size {
            put(&mut self.words, i, word);
        }
    }

    // A word before the one at an index. Where all are written the last goes.
    pub fn insert(&mut self, index: usize, word: u32) {
        self.push(word);
        let end = self.size.min(ROOM);
        if index < end {
            let words = &mut self.words[..];
            words[index..end].rotate_right(1);
            words[index] = word;
        }
    }

    // Takes the word at an index out.
    pub fn remove(&mut self, index: usize) {
        let end = self.size.min(ROOM);
        if index < end {
            let words = &mut self.words[..];
            words[index..end].rotate_left(1);
            self.size = end - 1;
        }
    }

    // Cut to so many words, or lengthened to them by zeros.
    pub fn resize(&mut self, size: usize) {
        for _ in self.size..size {
            self.push(0);
        }
        self.size = self.size.min(size);
    }
}

// The words of a mapping between its header and its glue count.
pub fn bindings_of(mapping: &[u32]) -> &[u32] {
    first(after(mapping, 1), mapping.len().wrapping_sub(2))
}

// A word of a kind for a function: a source or a target; or a recipe of the function out of itself, SI0 to the left, SI1 to the
// right, and every port that it drives.
pub fn word_of(kind: Kind, function: u32) -> u32 {
    if (kind != Kind::Rule) & (kind != Kind::Binding) {
        return kind.word(function);
    }
    let outputs = match function {
        // With SICIN to the carry.
        1..=5 => 0x960,
        6..=21 => 0x100,
        _ => 0x001,
    };
    kind.word((function << 23) | (function << 18) | 0x1_4000 | outputs)
}

// A recipe of a logic function from scratch; no other function has one.
pub fn from_scratch(kind: Kind, function: u32) -> Option<u32> {
    let place = (function as usize).wrapping_sub(6);
    if place < VECTORS.len() {
        Some(kind.word((function << 23) | VECTORS[place]))
    } else {
        None
    }
}

// The glue count's word.
pub fn glue_word(count: u64) -> u32 {
    Kind::Glue.word((count % 0x1000_0000) as u32)
}
