// Which benches are sound, entry by entry: each entry of a table by the word before it, each bound word by what the reference shows, and
// the stored count by the second count.
use crate::glue::{Costs, glue_count};
use crate::reading::{function, index_of, recipe_in};
use reference::recipe::fields_of;
use reference::refusal::refusal_of;
use reference::trial::is_right;
use testing::kinds::{Kind, kind_of};
use testing::words::{at, content, put};

// Of an inverter, a gate and a multiplexer.
// Kept: a type like that of `words`, since the second account stands on no crate that it is compared with.
#[derive(Clone, Copy, PartialEq, Eq)]
pub struct Prices {
    pub inverter: u8,
    pub gate: u8,
    pub multiplexer: u8,
}

// The sources or the targets of a bench, and the number that it stores of them.
// Kept: a bench is copied and compared whole, and no heap is a rule of the project.
#[derive(Clone, Copy, PartialEq, Eq)]
pub struct Table {
    pub words: [u32; 27],
    pub count: u32,
}

// A bench. What is bound stands in the entry of its source, and 0 where nothing is; the glue count is what the bench stores.
// Kept: a type like that of the library, since the second account stands on no crate that it is compared with.
#[derive(Clone, Copy, PartialEq, Eq)]
pub struct BenchWords {
    pub width: u32,
    pub prices: Prices,
    pub sources: Table,
    pub targets: Table,
    pub bound: [u32; 27],
    pub glue: u32,
}

impl Table {
    // 27 words at most.
    pub fn of(words: &[u32]) -> Table {
        let count = words.len().min(27);
        let mut table = [0; 27];
        table[..count].copy_from_slice(&words[..count]);
        Table {
            words: table,
            count: count as u32,
        }
    }

    // The index of the word of a kind for a function.
    pub fn entry_of(&self, of: Kind, function: u32) -> Option<usize> {
        index_of(&self.words, of, function)
    }

    // So many words of a kind whose functions rise, with nothing above them but a target's mark; and zeros after them.
    fn fits(&self, of: Kind) -> bool {
        let room = if of == Kind::Target { 64 } else { 32 };
        let mut last = 0;
        for (i, word) in self.words.iter().enumerate() {
            let word = *word;
            if i < self.count as usize {
                let next = function(word);
                if (kind_of(word) != Some(of))
                    | (content(word) >= room)
                    | (next > 27)
                    | (next <= last)
                {
                    return false;
                }
                last = next;
            } else if word != 0 {
                return false;
            }
        }
        true
    }
}

impl BenchWords {
    pub fn zeros() -> BenchWords {
        BenchWords {
            width: 0,
            prices: Prices {
                inverter: 0,
                gate: 0,
                multiplexer: 0,
            },
            sources: Table::of(&[]),
            targets: Table::of(&[]),
            bound: [0; 27],
            glue: 0,
        }
    }

    // With a rule bound, if its source is one of the bench's.
    pub fn with_rule(self, rule: u32) -> BenchWords {
        let mut bench = self;
        if let Some(entry) = self.sources.entry_of(Kind::Source, fields_of(rule).source) {
            put(&mut bench.bound, entry, rule);
        }
        bench
    }

    // With the count of what is bound, whatever it stored; 0 where the width is past 64.
    pub fn counted(self) -> BenchWords {
        BenchWords {
            glue: self.count(),
            ..self
        }
    }

    fn count(&self) -> u32 {
        if self.width > 64 {
            return 0;
        }
        let costs = Costs {
            n: self.width as u64,
            inverter: self.prices.inverter as u64,
            gate: self.prices.gate as u64,
            multiplexer: self.prices.multiplexer as u64,
        };
        (glue_count(&self.bound, costs) % 0x1_0000_0000) as u32
    }

    // A right rule of the source in an entry, from scratch or from a target of the table.
    fn may_bind(&self, word: u32, entry: usize) -> bool {
        let fields = fields_of(word);
        if (kind_of(word) != Some(Kind::Rule)) | refusal_of(word, self.width, 0).is_some() {
            return false;
        }
        let source = Kind::Source.word(fields.source);
        if (entry >= self.sources.count as usize) | (source != at(&self.sources.words, entry)) {
            return false;
        }
        let target = fields.target;
        if (target != 0) & self.targets.entry_of(Kind::Target, target).is_none() {
            return false;
        }
        is_right(recipe_in(&self.targets.words, word), self.width)
    }

    pub fn is_sound(&self) -> bool {
        let width = self.width;
        let sources = self.sources.count;
        if (width == 0)
            | (width > 64)
            | (sources == 0)
            | (sources > 27)
            | (self.targets.count > 27)
        {
            return false;
        }
        if !self.sources.fits(Kind::Source) | !self.targets.fits(Kind::Target) {
            return false;
        }
        for (entry, word) in self.bound.iter().enumerate() {
            if (*word != 0) && !self.may_bind(*word, entry) {
                return false;
            }
        }
        self.glue == self.count()
    }
}
