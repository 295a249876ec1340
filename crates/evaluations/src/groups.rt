// Document 01's cases of functions and widths that carry no star, Table 4, and operands in turn.
use crate::beside::{Given, agree, count, of_reference};
use reference::evaluator::Operands;
use reference::trial::{next, sampled};
use testing::tally::Tally;
use testing::words::VECTORS;

// Each function at a width, of zeros: refused at a place, or shown.
pub fn at_width(rt: &HostRuntime, width: u32, out_of_range: Option<usize>) -> Tally {
    let mut tally = Tally::default();
    for function in 1..28 {
        let given = Given {
            function,
            width,
            operands: Operands {
                left: 0,
                right: 0,
                carry: 0,
            },
        };
        count(rt, &mut tally, given, agree(given, out_of_range));
    }
    tally
}

// At 0011 and 0101 each pair of bits stands at the place of its minterm, so that a logic function shows its vector.
pub fn vectors(rt: &HostRuntime) -> Tally {
    let mut tally = Tally::default();
    for (function, vector) in (6..22).zip(&VECTORS) {
        let given = Given {
            function,
            width: 4,
            operands: Operands {
                left: 0b0011,
                right: 0b0101,
                carry: 0,
            },
        };
        let is_vector = of_reference(given).is_ok_and(|shown| shown.o0 == *vector as u64);
        count(rt, &mut tally, given, agree(given, None) & is_vector);
    }
    tally
}

// The inputs from one on to before another: 27 functions turning fastest, then 64 widths, then the reference's operands, of which 98
// are corners and the rest random.
pub fn turns(rt: &HostRuntime, from: u32, to: u32) -> Tally {
    let mut tally = Tally::default();
    let mut x = 0x2545_f491_4f6c_dd1d;
    for i in from..to {
        let width = i / 27 % 64 + 1;
        let given = Given {
            function: i % 27 + 1,
            width,
            operands: sampled(width, i / 1728, x),
        };
        count(rt, &mut tally, given, agree(given, None));
        x = next(next(next(x)));
    }
    tally
}
