// What a function shows at operands.
use crate::arithmetic::arithmetic;
use crate::comparison::comparison;
use crate::logic::logic;
use crate::places::fits;

// Kept: a type like that of the library, since the second account stands on no crate that it is compared with.
#[derive(Clone, Copy, PartialEq, Eq)]
pub struct Operands {
    pub left: u64,
    pub right: u64,
    pub carry: u32,
}

// The four ports.
// Kept: a type like that of the library, since the second account stands on no crate that it is compared with.
#[derive(Clone, Copy, PartialEq, Eq)]
pub struct Shown {
    pub o0: u64,
    pub ocout: bool,
    pub ovf: bool,
    pub o1: bool,
}

// A function, a width and operands, in document 01's order, counted from 0: the place of the first of these five that is out of range.
pub fn in_range(function: u32, width: u32, at: Operands) -> Result<(), usize> {
    if (function == 0) | (function > 27) {
        return Err(0);
    }
    if (width == 0) | (width > 64) {
        return Err(1);
    }
    if !fits(at.left, width) {
        return Err(2);
    }
    if !fits(at.right, width) {
        return Err(3);
    }
    if at.carry > 1 {
        return Err(4);
    }
    Ok(())
}

// The four ports; zeros where a value is out of range.
// Kept: zeros. `in_range` tells it, and a `Result` would be taken apart by callers who have asked.
pub fn evaluate(function: u32, width: u32, at: Operands) -> Shown {
    if in_range(function, width, at).is_err() {
        return Shown {
            o0: 0,
            ocout: false,
            ovf: false,
            o1: false,
        };
    }
    match function {
        1..=5 => arithmetic(function, width, at.left, at.right, at.carry == 1),
        6..=21 => logic(function, width, at.left, at.right),
        _ => comparison(function, width, at.left, at.right),
    }
}
