// Table 2, a gate at each place. Its LINHI, which the scan prints without the bar, is as document 01 has it.
use crate::evaluator::Shown;
use crate::places::at_each_place;

fn gate(function: u32, x: bool, y: bool) -> bool {
    match function {
        // ZERO, ONE
        6 => false,
        7 => true,
        // AND, NAND, OR, NOR
        8 => x & y,
        9 => !(x & y),
        10 => x | y,
        11 => !(x | y),
        // XOR, XNOR
        12 => x ^ y,
        13 => !(x ^ y),
        // LID, RID, LNOT, RNOT
        14 => x,
        15 => y,
        16 => !x,
        17 => !y,
        // LINHI, RINHI
        18 => !x & y,
        19 => x & !y,
        // LIMPL, RIMPL
        20 => !x | y,
        _ => x | !y,
    }
}

pub fn logic(function: u32, n: u32, left: u64, right: u64) -> Shown {
    Shown {
        o0: at_each_place(n, left, right, |x, y| gate(function, x, y)),
        ocout: false,
        ovf: false,
        o1: false,
    }
}
