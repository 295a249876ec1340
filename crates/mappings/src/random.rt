// Random jobs. Of their rules most are known to be right, some to be wrong; and at widths to 4, where all operands can be tried, some
// have a field drawn anew.
use reference::recipe::fields_of;
use reference::trial::next;
use rulings::known::known_rules;
use testing::kinds::Kind;
use testing::words::{Words, at, content, word_of};

// No job of these has more words; the largest has a rule too many.
pub type JobWords = Words<569>;

// What a job is like. The seed of its jobs is its place among the shapes.
#[derive(Clone, Copy, PartialEq, Eq)]
pub enum Shape {
    SomeRules,
    Prices0,
    NoRules,
    AllSources,
    ManyRules,
    BitTurned,
}

impl Shape {
    pub fn name(self) -> &'static str {
        match self {
            Shape::SomeRules => "some rules",
            Shape::Prices0 => "prices 0, where all rules tie",
            Shape::NoRules => "no rules",
            Shape::AllSources => "27 sources",
            Shape::ManyRules => "512 or 513 rules",
            Shape::BitTurned => "a bit turned",
        }
    }
}

// Prices at which some cost nothing, or as much as can be; and document 01's.
const PRICES: [u32; 8] = [
    0x00_00_01, 0x00_00_FF, 0x00_FF_00, 0xFF_00_00, 0xFF_FF_00, 0x01_00_FF, 0xFF_FF_FF, 0x01_01_03,
];

// The set of all functions, by bits.
const ALL_FUNCTIONS: u64 = 0xFFFF_FFFF;

// A number below another, 0 where there is none.
fn below(x: u64, end: usize) -> usize {
    ((x % 0x1_0000_0000) as usize).checked_rem(end).unwrap_or(0)
}

// A recipe with another vector; or with a wiring or the carry in drawn anew.
fn redrawn(x: u64, rule: u32) -> u32 {
    let drawn = (x / 4 % 0x1_0000) as u32;
    if fields_of(rule).target == 0 {
        return rule ^ (drawn % 16);
    }
    match x % 4 {
        0 => (rule & 0xFFFC_7FFF) | ((drawn % 6) << 15),
        1 => (rule & 0xFFFF_8FFF) | ((drawn % 6) << 12),
        _ => rule ^ ((drawn % 4) << 10),
    }
}

// A rule: three in four for this source, the others for any function. One in nine is known to be wrong.
fn rule_from(x: u64, source: u32, n: u32) -> u32 {
    let any = (x / 4 % 27 + 1) as u32;
    let function = if x % 4 == 0 { any } else { source };
    let rule = known_rules(function)[(x / 128 % 9 % 5) as usize];
    if (n < 5) & (x / 2048 % 4 == 0) {
        return redrawn(x / 8192, rule);
    }
    rule
}

// A set of a quarter of the functions, by bits.
fn a_quarter(x: u64) -> u64 {
    x & (x >> 28)
}

// None of the functions, a quarter, three quarters or all of them.
fn set_from(x: u64) -> u64 {
    match x >> 61 {
        0 => 0,
        1 => a_quarter(x),
        2..=4 => x | (x >> 28),
        _ => ALL_FUNCTIONS,
    }
}

// Words of a kind for the functions of a set.
fn push_table(words: &mut JobWords, kind: Kind, set: u64) {
    let mut rest = set;
    for function in 1..28 {
        if rest % 2 == 1 {
            words.push(word_of(kind, function));
        }
        rest = rest / 2;
    }
}

// The function of a job's source, in turn.
fn source_at(words: &[u32], sources: usize, i: usize) -> u32 {
    content(at(words, below(i as u64, sources).wrapping_add(2)))
}

// So many rules.
fn push_rules(words: &mut JobWords, count: usize, sources: usize, n: u32, random: u64) {
    let mut x = random;
    for _ in 0..count {
        let before = words.written();
        let source = source_at(before, sources, before.len());
        words.push(rule_from(x, source, n));
        x = next(x);
    }
}

// How many rules a job of so many sources has.
fn rule_count(shape: Shape, sources: usize, x: u64) -> usize {
    match shape {
        Shape::NoRules => 0,
        Shape::ManyRules => 512 + (x % 8 / 7) as usize,
        _ => {
            let some = sources % 32 * 3;
            some.wrapping_add(below(x, some))
        }
    }
}

fn prices_from(shape: Shape, x: u64) -> u32 {
    if shape == Shape::Prices0 {
        return 0;
    }
    if x % 2 == 0 {
        return at(&PRICES, (x / 2 % 8) as usize);
    }
    (x / 2 % 0x100_0000) as u32
}

// Turns a bit of one of so many words, but not of the header, where b.
fn turn_bit(words: &mut JobWords, end: usize, b: bool, x: u64) {
    let place = below(x / 32, end.wrapping_sub(1)).wrapping_add(1);
    let word = at(words.written(), place) ^ ((b as u32) << (x % 32));
    words.put(place, word);
}

// Header, prices and sources, of which there is one at least.
fn begun(shape: Shape, header: u32, x: u64) -> JobWords {
    let mut words = Words::empty();
    words.push(header);
    words.push(Kind::Prices.word(prices_from(shape, next(x))));
    let set = if shape == Shape::AllSources {
        ALL_FUNCTIONS
    } else {
        a_quarter(x) | (1u64 << (x % 27))
    };
    push_table(&mut words, Kind::Source, set);
    words
}

// A job of a shape at a width, and the bits of its header that are set besides. Above width 4 a turned bit is none of the rules',
// whose rightness is known.
pub fn job_of(shape: Shape, n: u32, asked: u32, random: u64) -> JobWords {
    let mut words = begun(shape, Kind::Header.word(n | asked), next(random));
    let sources = words.written().len().wrapping_sub(2);
    push_table(&mut words, Kind::Target, set_from(random));
    let rules = words.written().len();
    // Another sequence than the one from which the jobs after this one come.
    let x = next(random ^ 0x5555_5555_5555_5555);
    push_rules(
        &mut words,
        rule_count(shape, sources, x),
        sources,
        n,
        next(x),
    );
    let end = if n < 5 { words.written().len() } else { rules };
    turn_bit(&mut words, end, shape == Shape::BitTurned, x);
    words
}
