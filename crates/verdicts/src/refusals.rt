// The refusals of the judge, against those that the reference finds in the same word, width and mark.
ghost use Rattle.std.specs.Prelude.{◌<◌};

use crate::stored::RECIPES;
use crate::trial::Case;
use reference::answer::Refusal;
use reference::trial::next;
use testing::say;
use testing::tally::{Numbers, more};

// The index of the count, by what the reference refuses: 0 for nothing, 1 for the width, 4 for the mark, or the word's number, which is 2, 3, 5
// or 6.
fn group(refusal: Option<Refusal>) -> usize {
    match refusal {
        None => 0,
        Some(refusal) if refusal.place == 1 => 1,
        Some(refusal) if refusal.place == 2 => 4,
        Some(refusal) => (refusal.number % 12) as usize,
    }
}

// Whether a word taken apart and packed again is the same word.
fn packs_back(word: u32) -> bool {
    let kind = word >> 28;
    let fields = recipe::unpack(word);
    recipe::pack(kind, fields) == word
}

// Whether the judge refuses as the reference does, which leaves open what is right: a refusal 10 is none if its operands bear it out. Of each
// word that is judged, the packing is tried too.
fn agrees(case: Case, refusal: Option<Refusal>) -> bool {
    let told = case
        .judged()
        .err()
        .filter(|refusal| (refusal.number != 10) | !refusal.shown);
    packs_back(case.word) & (told == refusal)
}

// A word with a value put into the field of `most` ones from bit `low`, cut to it.
fn with_field(word: u32, low: u32, most: u32, value: u32) -> u32
    requires { low < 32 }
{
    let field = most << low;
    ((word | field) ^ field) | ((value & most) << low)
}

// A word with one field at one of its values: 128 of them, the kind's 16 first, the comparison code's last.
// Kept: ranges of a number, since the width of a case is drawn by the same number. A table of the fields would have a line for each too,
// and would be searched by adding up how many values they have.
fn with_one_field(word: u32, i: u32) -> u32 {
    match i {
        0..=15 => with_field(word, 28, 15, i),
        16..=47 => with_field(word, 23, 31, i),
        48..=79 => with_field(word, 18, 31, i),
        80..=87 => with_field(word, 15, 7, i),
        88..=95 => with_field(word, 12, 7, i),
        96..=99 => with_field(word, 10, 3, i),
        100..=103 => with_field(word, 8, 3, i),
        104..=107 => with_field(word, 6, 3, i),
        108..=109 => with_field(word, 5, 1, i),
        110..=111 => with_field(word, 4, 1, i),
        _ => with_field(word, 0, 15, i),
    }
}

const FOUR: [u32; 4] = [0, 1, 64, 65];

// The stored recipes, each with every value of every field.
const CHANGED: u32 = 280 * 128;

// Every word of kind 5; a random word at four widths; a stored recipe with one field changed, at a width that is mostly 0, 1 or 65, which
// are judged at once; and such a recipe at each of three widths and four marks.
#[derive(Clone, Copy, PartialEq, Eq)]
enum Lot {
    EveryWord,
    AtRandom,
    OneField,
    Marked,
}

// The i-th word, width and mark of a lot.
fn case_of(lot: Lot, i: u32, random: u64) -> Case {
    match lot {
        Lot::EveryWord => Case {
            word: 0x5000_0000 | i,
            width: 65,
            mark: 0,
        },
        Lot::AtRandom => {
            let turn = (i % 4) as usize;
            Case {
                word: (random >> 32) as u32,
                width: FOUR[turn],
                mark: 0,
            }
        }
        Lot::OneField => with_field_changed(i),
        Lot::Marked => marked(i),
    }
}

// A stored recipe with one field changed.
fn changed(i: u32) -> u32 {
    let recipe = (i / 128 % 280) as usize;
    with_one_field(RECIPES[recipe], i % 128)
}

fn with_field_changed(i: u32) -> Case {
    let field = i % 128;
    let width = match (field ^ (i / 128)) % 16 {
        0..=4 => 0,
        5..=9 => 1,
        10..=14 => 65,
        _ => 64,
    };
    Case {
        word: changed(i),
        width,
        mark: 0,
    }
}

// The last width and the last mark that pass, and others, which do not.
fn marked(i: u32) -> Case {
    let turn = i / CHANGED;
    Case {
        word: changed(i),
        width: [64, 0, 65][(turn / 4 % 3) as usize],
        mark: [1, 2, 3, 0xffff_ffff][(turn % 4) as usize],
    }
}

fn compared(rt: &HostRuntime, lot: Lot, cases: u32) -> Numbers {
    let mut all = Numbers::default();
    let mut random = 0x2545_f491_4f6c_dd1d;
    for i in 0..cases {
        let case = case_of(lot, i, random);
        let refusal = case.refused();
        case.count(rt, &mut all.tally, agrees(case, refusal));
        let place = group(refusal) % 12;
        all.by[place] = more(all.by[place], true);
        if i % 4 == 3 {
            random = next(random);
        }
    }
    all
}

fn report(rt: &HostRuntime, name: &[u8], all: Numbers) {
    let tally = all.tally;
    let by = all.by;
    say::text(rt, name);
    let _ = print!(rt;
        ": {tally}; refused 2: {}, 3: {}, 5: {}, 6: {}, 3 for the width: {}",
        by[2], by[3], by[5], by[6], by[1]
    );
    if 0 < by[4] {
        let _ = print!(rt; ", 3 for the mark: {}", by[4]);
    }
    let _ = println!(rt; ", not refused: {}", by[0]);
}

pub fn report_refusals(rt: &HostRuntime) {
    report(
        rt,
        b"every word of kind 5 at width 65",
        compared(rt, Lot::EveryWord, 0x1000_0000),
    );
    report(
        rt,
        b"random words at widths 0, 1, 64 and 65",
        compared(rt, Lot::AtRandom, 400000),
    );
    report(
        rt,
        b"recipes with one field changed, at one of these widths",
        compared(rt, Lot::OneField, CHANGED),
    );
    report(
        rt,
        b"the same at widths 64, 0 and 65 and marks 1, 2, 3 and 4294967295",
        compared(rt, Lot::Marked, 12 * CHANGED),
    );
}
