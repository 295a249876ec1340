// The refusals of a recipe word and a width, each judged from the fields' numbers. A set of ports is a number: 1 for O0, 2 for OCOUT, 4
// for OVF and 8 for O1, added up.
// Kept: a struct of four flags would need its own union and comparison, which | and == are.
use crate::answer::{Refusal, Subject, refused};
use crate::recipe::{Fields, fields_of};

// The ports that a function drives.
fn driven(function: u32) -> u32 {
    match function {
        1..=5 => 7,
        6..=21 => 1,
        _ => 8,
    }
}

// The outputs of its target that a comparison code reads: TO1; TO0; TO0 and TOVF.
fn compares(code: u32) -> u32 {
    match code {
        0 => 0,
        1 | 2 => 8,
        3..=11 => 1,
        _ => 5,
    }
}

// A port, where its output's code is in use.
fn port_if_used(code: u32, port: u32) -> u32 {
    if code == 0 { 0 } else { port }
}

// Refusal 3 of a recipe from scratch: what stands in bits 17 to 4 is not zero, or the source is no logic function. Then of one with a
// target.
fn misfits(word: u32, fields: Fields) -> bool {
    if fields.target == 0 {
        return (word / 16 % 16384 != 0) | (fields.source < 6) | (fields.source > 21);
    }
    (fields.source == 0)
        | (fields.source > 27)
        | (fields.target > 27)
        | (fields.left > 5)
        | (fields.right > 5)
        | (fields.main == 3)
        | (fields.cout == 3)
        | (fields.zero == 1)
}

// What refuses a recipe word by itself: the number, 2, 3, 5 or 6.
pub fn recipe_fits(word: u32) -> Result<(), u32> {
    let fields = fields_of(word);
    // Kept: a rule's kind and a binding's by number, since this crate stands on no other, nor on the tests' names of kinds.
    if (fields.kind != 5) & (fields.kind != 6) {
        return Err(2);
    }
    if misfits(word, fields) {
        return Err(3);
    }
    if fields.target == 0 {
        return Ok(());
    }
    // The main output, carry out and overflow that the recipe shows, and reads from its target under the same names.
    let plain = port_if_used(fields.main, 1)
        | port_if_used(fields.cout, 2)
        | port_if_used(fields.ovf, 4);
    let from = driven(fields.target);
    if plain | compares(fields.code) | from != from {
        return Err(5);
    }
    if plain | port_if_used(fields.code, 8) != driven(fields.source) {
        return Err(6);
    }
    Ok(())
}

// What a judge of a recipe word, a width and a mark refuses: the word, place 0, then the width, place 1, then the mark, place 2.
pub fn refusal_of(word: u32, width: u32, mark: u32) -> Option<Refusal> {
    if let Err(number) = recipe_fits(word) {
        return Some(refused(Subject::Word, number, 0));
    }
    if (width == 0) | (width > 64) {
        return Some(refused(Subject::Word, 3, 1));
    }
    if mark > 1 {
        return Some(refused(Subject::Word, 3, 2));
    }
    None
}
