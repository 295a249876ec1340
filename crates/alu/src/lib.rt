// The ALU functions of document 01, "Functions (Tables 1 to 4)": their ports at a width from 1 to 64, and the evaluator.
#![tactic(auto)]

ghost use Rattle.std.specs.Prelude.{◌≡◌};
ghost use Rattle.alu.specs.Function as F;
ghost use Rattle.alu.specs.Range as R;
ghost use Rattle.alu.specs.Evaluate as E;

use bits::{
    CARRY_ONE, CARRY_ZERO, I0, I1, ICIN, NOT_I0, NOT_I1, ONES, Operands, Ports, Width, ZEROS,
    carried, compared, logic_word, ones, sum, wired,
};
use words::{Fault, Refusal};

// The number of functions, and the greatest width.
pub const FUNCTIONS: u32 = 27;

pub const WIDEST: u32 = 64;

// Some of the four ports.
#[derive(Clone, Copy, PartialEq, Eq)]
pub struct PortSet {
    pub o0: bool,
    pub ocout: bool,
    pub ovf: bool,
    pub o1: bool,
}

// The three kinds of function. An arithmetic one adds the words that two wiring codes and the bit that a carry code choose of its
// inputs; a logic one has its vector; a comparison has what it shows for less, equal and greater.
#[derive(Clone, Copy)]
pub enum Kind {
    Arithmetic {
        left: u32,
        right: u32,
        carry: u32,
    },
    Logic(u32),
    Comparison {
        less: bool,
        equal: bool,
        greater: bool,
    },
}

#[tactic(auto, unfolding(crate::specs::Range::is_function))]
pub fn is_function(number: u32) -> bool
    ensures { result ≡ R.is_function number }
{
    (1..=FUNCTIONS).contains(&number)
}

#[tactic(auto, unfolding(crate::specs::Range::is_width))]
pub fn is_width(n: u32) -> bool
    ensures { result ≡ R.is_width n }
{
    (1..=WIDEST).contains(&n)
}

// The kinds of the functions, by number; 0 is none. LIMPL and RIMPL are those of Table 2.
// Kept: a function is its number wherever words and the C interface hold one, and this table is where it is read. An enum of 27 would be
// made from the number and turned back at each word.
const FUNCTION_KINDS: [Kind; 28] = [
    Kind::Logic(0),
    Kind::Arithmetic {
        left: I0,
        right: I1,
        carry: ICIN,
    },
    Kind::Arithmetic {
        left: I0,
        right: NOT_I1,
        carry: ICIN,
    },
    Kind::Arithmetic {
        left: NOT_I0,
        right: I1,
        carry: ICIN,
    },
    Kind::Arithmetic {
        left: I0,
        right: ZEROS,
        carry: CARRY_ONE,
    },
    Kind::Arithmetic {
        left: I0,
        right: ONES,
        carry: CARRY_ZERO,
    },
    Kind::Logic(0b0000),
    Kind::Logic(0b1111),
    Kind::Logic(0b0001),
    Kind::Logic(0b1110),
    Kind::Logic(0b0111),
    Kind::Logic(0b1000),
    Kind::Logic(0b0110),
    Kind::Logic(0b1001),
    Kind::Logic(0b0011),
    Kind::Logic(0b0101),
    Kind::Logic(0b1100),
    Kind::Logic(0b1010),
    Kind::Logic(0b0100),
    Kind::Logic(0b0010),
    Kind::Logic(0b1101),
    Kind::Logic(0b1011),
    Kind::Comparison {
        less: false,
        equal: true,
        greater: false,
    },
    Kind::Comparison {
        less: true,
        equal: false,
        greater: true,
    },
    Kind::Comparison {
        less: false,
        equal: false,
        greater: true,
    },
    Kind::Comparison {
        less: true,
        equal: false,
        greater: false,
    },
    Kind::Comparison {
        less: false,
        equal: true,
        greater: true,
    },
    Kind::Comparison {
        less: true,
        equal: true,
        greater: false,
    },
];

// The kind of a function, by its number.
pub fn function_of(number: u32) -> Kind
    ensures { result ≡ F.function_of number }
{
    FUNCTION_KINDS
        .get(number as usize)
        .copied()
        .unwrap_or(Kind::Logic(0))
}

// The ports that a function drives.
pub fn drives(kind: Kind) -> PortSet
    ensures { result ≡ F.drives kind }
{
    match kind {
        Kind::Arithmetic { .. } => PortSet {
            o0: true,
            ocout: true,
            ovf: true,
            o1: false,
        },
        Kind::Logic(_) => PortSet {
            o0: true,
            ocout: false,
            ovf: false,
            o1: false,
        },
        Kind::Comparison { .. } => PortSet {
            o0: false,
            ocout: false,
            ovf: false,
            o1: true,
        },
    }
}

// The four ports of a function.
#[tactic(auto, unfolding(crate::specs::Function::ports))]
pub fn ports_of(kind: Kind, operands: Operands, carry: bool) -> Ports
    ensures { result ≡ F.ports kind operands.width.n operands.left operands.right carry }
{
    match kind {
        Kind::Arithmetic {
            left,
            right,
            carry: code,
        } => {
            let addends = Operands {
                width: operands.width,
                left: wired(operands, left),
                right: wired(operands, right),
            };
            sum(addends, carried(code, carry))
        }
        Kind::Logic(vector) => Ports {
            o0: logic_word(operands, vector),
            ocout: false,
            ovf: false,
            o1: false,
        },
        Kind::Comparison {
            less,
            equal,
            greater,
        } => Ports {
            o0: 0,
            ocout: false,
            ovf: false,
            o1: compared(operands, less, equal, greater),
        },
    }
}

// The place of the first value out of range.
#[tactic(auto, unfolding(crate::specs::Evaluate::first_out_of_range, crate::specs::Range::is_function, crate::specs::Range::is_width))]
fn first_out_of_range(function: u32, width: u32, left: u64, right: u64, carry: u32) -> Option<usize>
    ensures { result ≡ E.first_out_of_range function width left right carry }
{
    if !is_function(function) {
        return Some(0);
    }
    if !is_width(width) {
        return Some(1);
    }
    let greatest = ones(Width { n: width });
    if greatest < left {
        return Some(2);
    }
    if greatest < right {
        return Some(3);
    }
    if 1 < carry {
        return Some(4);
    }
    None
}

// The ports of a function at a width, two operands and a carry; or refusal 3 with the place, 0 to 4, of the first value out of range.
#[tactic(auto, unfolding(crate::specs::Evaluate::evaluation, crate::specs::Evaluate::first_out_of_range, crate::specs::Range::is_function, crate::specs::Range::is_width))]
pub fn evaluate(
    function: u32,
    width: u32,
    left: u64,
    right: u64,
    carry: u32,
) -> Result<Ports, Refusal>
    ensures { result ≡ E.evaluation function width left right carry }
{
    match first_out_of_range(function, width, left, right, carry) {
        Some(place) => Err(Refusal {
            fault: Fault::NotLaidOut,
            place,
        }),
        None => {
            let operands = Operands {
                width: Width { n: width },
                left,
                right,
            };
            Ok(ports_of(function_of(function), operands, carry == 1))
        }
    }
}
