// What a recipe word shows, place by place. The word is taken apart by division from its low end, as a number in mixed bases.
use crate::evaluator::{Operands, Shown, evaluate, in_range};
use crate::places::{at_each_place, bit};
use std::fmt;

// The fields of a recipe word.
// Kept: a type like that of the library, since the second account stands on no crate that it is compared with.
#[derive(Clone, Copy)]
pub struct Fields {
    pub kind: u32,
    pub source: u32,
    pub target: u32,
    pub left: u32,
    pub right: u32,
    pub carry: u32,
    pub main: u32,
    pub cout: u32,
    pub ovf: u32,
    pub zero: u32,
    pub code: u32,
}

pub fn fields_of(word: u32) -> Fields {
    let above_code = word / 16;
    let above_zero = above_code / 2;
    let above_overflow = above_zero / 2;
    let above_carry_out = above_overflow / 4;
    let above_main = above_carry_out / 4;
    let above_carry = above_main / 4;
    let above_right = above_carry / 8;
    let above_left = above_right / 8;
    let above_target = above_left / 32;
    Fields {
        kind: above_target / 32,
        source: above_target % 32,
        target: above_left % 32,
        left: above_right % 8,
        right: above_carry % 8,
        carry: above_main % 4,
        main: above_carry_out % 4,
        cout: above_overflow % 4,
        ovf: above_zero % 2,
        zero: above_code % 2,
        code: word % 16,
    }
}

// A recipe's word, and whether its target is negated.
#[derive(Clone, Copy)]
pub struct Recipe {
    pub word: u32,
    pub negated: bool,
}

// The vector's bit for a place's bits: bit 3 for 00, bit 2 for 01, bit 1 for 10, bit 0 for 11.
fn minterm(vector: u32, x: bool, y: bool) -> bool {
    let from = if x { vector } else { vector / 4 };
    let at = if y { from } else { from / 2 };
    at % 2 == 1
}

// The word that a vector makes of two.
fn by_vector(vector: u32, n: u32, left: u64, right: u64) -> u64 {
    at_each_place(n, left, right, |x, y| minterm(vector, x, y))
}

// A wiring is the gate that lets through one operand or its complement, or neither.
fn wire(code: u32) -> u32 {
    match code {
        // zeros, ones
        0 => 0b0000,
        1 => 0b1111,
        // SI0, NOT SI0
        2 => 0b0011,
        3 => 0b1100,
        // SI1, NOT SI1
        4 => 0b0101,
        _ => 0b1010,
    }
}

// A comparison code reads of TO0 the top bit S and all bits joined by OR and by AND.
fn compared(code: u32, n: u32, target: Shown) -> bool {
    let ovf = target.ovf;
    let to1 = target.o1;
    let mut s = false;
    let mut gor = false;
    let mut gand = true;
    for place in 0..n {
        s = bit(target.o0, place);
        gor |= s;
        gand &= s;
    }
    match code {
        0 => false,
        // TO1, NOT TO1
        1 => to1,
        2 => !to1,
        // GOR, GNOR, GAND, GNAND
        3 => gor,
        4 => !gor,
        5 => gand,
        6 => !gand,
        // S, NOT S
        7 => s,
        8 => !s,
        // S OR GNOR, NOT S AND GOR, NOT S AND GNOR
        9 => s | !gor,
        10 => !s & gor,
        11 => !s & !gor,
        // S XOR TOVF, and its NOT
        12 => s ^ ovf,
        13 => !(s ^ ovf),
        // code 12 OR GNOR, and its NOT
        14 => (s ^ ovf) | !gor,
        _ => !((s ^ ovf) | !gor),
    }
}

// What a target shows through the outputs of a recipe.
fn outputs(fields: Fields, n: u32, target: Shown) -> Shown {
    let o0 = match fields.main {
        0 => 0,
        1 => target.o0,
        // NOT TO0, by the gate of NOT SI0
        _ => by_vector(wire(3), n, target.o0, 0),
    };
    let ocout = match fields.cout {
        0 => false,
        1 => target.ocout,
        _ => !target.ocout,
    };
    Shown {
        o0,
        ocout,
        ovf: (fields.ovf == 1) & target.ovf,
        o1: compared(fields.code, n, target),
    }
}

// What a negated target shows: each bit of O0 by the gate of NOT SI0, and O1, the other way round.
fn complemented(n: u32, target: Shown) -> Shown {
    Shown {
        o0: by_vector(wire(3), n, target.o0, 0),
        o1: !target.o1,
        ..target
    }
}

fn carry_in(code: u32, carry: u32) -> u32 {
    match code {
        0 => 0,
        1 => 1,
        // SICIN, NOT SICIN
        2 => carry,
        _ => (carry == 0) as u32,
    }
}

// The four ports; zeros where a value is out of range.
// Kept: zeros, as the evaluator has them.
pub fn recipe_shows(recipe: Recipe, width: u32, at: Operands) -> Shown {
    let fields = fields_of(recipe.word);
    if in_range(1, width, at).is_err() {
        return evaluate(0, width, at);
    }
    if fields.target == 0 {
        return Shown {
            o0: by_vector(fields.code, width, at.left, at.right),
            ocout: false,
            ovf: false,
            o1: false,
        };
    }
    let wired = Operands {
        left: by_vector(wire(fields.left), width, at.left, at.right),
        right: by_vector(wire(fields.right), width, at.left, at.right),
        carry: carry_in(fields.carry, at.carry),
    };
    let plain = evaluate(fields.target, width, wired);
    let target = if recipe.negated {
        complemented(width, plain)
    } else {
        plain
    };
    outputs(fields, width, target)
}

// The ports, in document 01's order.
// Kept: a type like that of `words`, since the second account stands on no crate that it is compared with.
#[derive(Clone, Copy, PartialEq, Eq)]
pub enum Port {
    O0,
    Ocout,
    Ovf,
    O1,
}

impl fmt::Display for Port {
    fn fmt<W: fmt::Write>(&self, f: &mut fmt::Formatter<W>) -> fmt::Result {
        f.write_str(match self {
            Port::O0 => "O0",
            Port::Ocout => "OCOUT",
            Port::Ovf => "OVF",
            Port::O1 => "O1",
        })
    }
}

// The lowest port at which a recipe does not show what its source function does, if there is one. Of a function or operands out of range
// nothing is shown, so that they would bear out anything: the place of what is out of range.
pub fn first_difference(recipe: Recipe, width: u32, at: Operands) -> Result<Option<Port>, usize> {
    let function = fields_of(recipe.word).source;
    in_range(function, width, at)?;
    Ok(first_differing(
        recipe_shows(recipe, width, at),
        evaluate(function, width, at),
    ))
}

fn first_differing(recipe: Shown, source: Shown) -> Option<Port> {
    if recipe.o0 != source.o0 {
        return Some(Port::O0);
    }
    if recipe.ocout != source.ocout {
        return Some(Port::Ocout);
    }
    if recipe.ovf != source.ovf {
        return Some(Port::Ovf);
    }
    if recipe.o1 != source.o1 {
        return Some(Port::O1);
    }
    None
}
