// Each refusal at every place where it can be met, and every kind of word at every place.
use crate::files::{FileWords, Sizes, plain};
use accounts::reading::File;
use accounts::reading::File::{Job, Mapping};
use readers::{Said, compare, report};
use testing::kinds::{Kind, kind_of};
use testing::tally::Numbers;
use testing::words::{at, first, word_of};

// How a word is spoilt.
#[derive(Clone, Copy)]
enum Spoil {
    // It is of a kind that no file has.
    Kind,
    // It has no width, a bit above the prices, no function or no source function.
    Layout,
    // It is the word before it.
    Repeated,
    // Its outputs read one that its target does not drive.
    Undriven,
    // Its outputs are others than its source's.
    OtherOutputs,
}

impl Spoil {
    // Of the refusal.
    fn number(self) -> u32 {
        match self {
            Spoil::Kind => 2,
            Spoil::Layout => 3,
            Spoil::Repeated => 4,
            Spoil::Undriven => 5,
            Spoil::OtherOutputs => 6,
        }
    }

    // The word instead of one that stands after another.
    fn word(self, word: u32, before: u32) -> u32 {
        match self {
            Spoil::Kind => 0xf000_0000 | word,
            Spoil::Layout => {
                if kind_of(word) == Some(Kind::Prices) {
                    word | 0x0100_0000
                } else {
                    word & 0xf000_0000
                }
            }
            Spoil::Repeated => before,
            Spoil::Undriven => (word & 0xff80_0000) | 0x0018_0140,
            Spoil::OtherOutputs => (word & 0xff80_0000) | 0x0004_0000,
        }
    }
}

// What is done to a file of 17 words.
#[derive(Clone, Copy)]
enum Done {
    // A word at each of a set of places, the lowest bit the first.
    Spoilt(Spoil, u32),
    Cut,
    // Every kind of word put at every place.
    EveryKind,
    // Each bit of the header turned, and the set of those that leave it a header.
    HeaderTurned(u32),
}

use Done::{Cut, EveryKind, HeaderTurned, Spoilt};

// The width turned in bit 4 is 0, in bit 6 above 64; bit 7 stands in a job alone.
const GROUPS: [(&[u8], File, Done); 16] = [
    (
        b"job, unknown kind at every place",
        Job,
        Spoilt(Spoil::Kind, 0x1FFFF),
    ),
    (b"job, cut after every word", Job, Cut),
    (
        b"job, bad layout at every place",
        Job,
        Spoilt(Spoil::Layout, 0xFFFF),
    ),
    (
        b"job, a function repeated",
        Job,
        Spoilt(Spoil::Repeated, 0xF78),
    ),
    (
        b"job, undriven output in every rule",
        Job,
        Spoilt(Spoil::Undriven, 0x1F000),
    ),
    (
        b"job, other outputs in every rule",
        Job,
        Spoilt(Spoil::OtherOutputs, 0x1F000),
    ),
    (b"job, every kind at every place", Job, EveryKind),
    (b"job, a bit of the header turned", Job, HeaderTurned(0xAF)),
    (
        b"mapping, unknown kind at every place",
        Mapping,
        Spoilt(Spoil::Kind, 0x1FFFF),
    ),
    (b"mapping, cut after every word", Mapping, Cut),
    (
        b"mapping, bad layout at every place",
        Mapping,
        Spoilt(Spoil::Layout, 0xFFFF),
    ),
    (
        b"mapping, a function repeated",
        Mapping,
        Spoilt(Spoil::Repeated, 0xFFFC),
    ),
    (
        b"mapping, undriven output in every binding",
        Mapping,
        Spoilt(Spoil::Undriven, 0xFFFE),
    ),
    (
        b"mapping, other outputs in every binding",
        Mapping,
        Spoilt(Spoil::OtherOutputs, 0xFFFE),
    ),
    (b"mapping, every kind at every place", Mapping, EveryKind),
    (
        b"mapping, a bit of the header turned",
        Mapping,
        HeaderTurned(0x2F),
    ),
];

// A file of 17 words: 5 sources, 5 targets and 5 rules, or 15 bindings.
fn seventeen(file: File) -> FileWords {
    let sizes = match file {
        Job => Sizes::JobOf(5, 5, 5),
        Mapping => Sizes::MappingOf(15),
    };
    plain(sizes)
}

// The word that a file has at an index.
fn word_there(file: File, place: usize) -> u32 {
    let words = seventeen(file);
    at(words.written(), place)
}

// A word instead of the one at an index.
fn instead(all: Numbers, file: File, place: usize, word: u32, said: Option<Said>) -> Numbers {
    let mut words = seventeen(file);
    words.put(place, word);
    compare(all, file, words.written(), said)
}

fn spoilt_at(all: Numbers, file: File, place: usize, spoil: Spoil) -> Numbers {
    let before = word_there(file, place.wrapping_sub(1));
    let word = spoil.word(word_there(file, place), before);
    instead(all, file, place, word, Some(Err((spoil.number(), place))))
}

// A word spoilt at each of a set of places, by bits.
fn spoilt(file: File, places: u32, spoil: Spoil) -> Numbers {
    let mut all = Numbers::default();
    for place in 0..17usize {
        if (places >> place) % 2 == 1 {
            all = spoilt_at(all, file, place, spoil);
        }
    }
    all
}

// The file cut short after each of its words.
fn cuts(file: File) -> Numbers {
    let words = seventeen(file);
    let mut all = Numbers::default();
    for n in 1..17 {
        all = compare(all, file, first(words.written(), n), None);
    }
    all
}

// A word before the one at an index.
fn inserted(all: Numbers, file: File, place: usize, word: u32) -> Numbers {
    let mut words = seventeen(file);
    words.insert(place, word);
    compare(all, file, words.written(), None)
}

// A word of a kind at an index, instead of the one there and before it: with what stands there, or as each kind can have it.
// Kept: the kind by number, since it is each of the sixteen, of which nine are of no kind.
fn with_kind(all: Numbers, file: File, place: usize, kind: u32) -> Numbers {
    let mut all = all;
    for content in [word_there(file, place), 27, word_of(Kind::Rule, 27)] {
        let word = (kind << 28) | (content & 0x0fff_ffff);
        all = instead(all, file, place, word, None);
        all = inserted(all, file, place, word);
    }
    all
}

fn with_each_kind(all: Numbers, file: File, place: usize) -> Numbers {
    let mut all = all;
    for kind in 0..16 {
        all = with_kind(all, file, place, kind);
    }
    all
}

// The last of the places is past the end.
fn every_kind(file: File) -> Numbers {
    let mut all = Numbers::default();
    for place in 0..18 {
        all = with_each_kind(all, file, place);
    }
    all
}

// What is said of a header with a bit turned: the top four are its kind.
fn said_of_turned(bit: u32, fits: u32) -> Said {
    if bit > 27 {
        return Err((2, 0));
    }
    if (fits >> bit) % 2 == 1 {
        return Ok(());
    }
    Err((3, 0))
}

fn turned(file: File, fits: u32) -> Numbers {
    let header = word_there(file, 0);
    let mut all = Numbers::default();
    for bit in 0..32 {
        let word = header ^ (1u32 << bit);
        all = instead(all, file, 0, word, Some(said_of_turned(bit, fits)));
    }
    all
}

fn group(file: File, done: Done) -> Numbers {
    match done {
        Spoilt(spoil, places) => spoilt(file, places, spoil),
        Cut => cuts(file),
        EveryKind => every_kind(file),
        HeaderTurned(fits) => turned(file, fits),
    }
}

pub fn report_places(rt: &HostRuntime) {
    for (name, file, done) in &GROUPS {
        report(rt, name, group(*file, *done));
    }
}
