// What a side shows at a place through output codes: a bit of its main output, and OCOUT, OVF and O1 if it is the top place.
ghost use Rattle.std.specs.Prelude.{◌≡◌, ◌<◌};
ghost use Rattle.equivalence.specs.Shown as N;

use automaton::{Cell, Ripple};
use output::Outputs;

// Besides what shows, what the side remembers afterwards, as a number, and the bit of its own O0. O1 hangs on whether any and whether all
// bits of that are 1, those of the lower places too: so it has a bit for each of the four.
#[derive(Clone, Copy)]
pub struct Shown {
    pub memory: u8,
    pub bit: bool,
    pub main: bool,
    pub cout: bool,
    pub ovf: bool,
    pub orders: u8,
}

// What a side remembers, as a number.
pub fn memory(r: Ripple) -> u8
    ensures { (result ≡ N.memory r) × (result < 4) }
{
    u8::from(r.lo) + 2 * u8::from(r.hi)
}

// What both sides remember, as one number.
pub fn group_of(p: u8, q: u8) -> u8
    requires { (p < 4) × (q < 4) }
    ensures { (result ≡ N.group_of p q) × (result < 16) }
{
    4 * p + q
}

// For each comparison code, at 4 * (TO1 + 2 S + 4 TOVF), the four bits that it shows where neither, any, all and both is true.
const ORDERS: [u32; 16] = [
    0x0000_0000,
    0xF0F0_F0F0,
    0x0F0F_0F0F,
    0xAAAA_AAAA,
    0x5555_5555,
    0xCCCC_CCCC,
    0x3333_3333,
    0xFF00_FF00,
    0x00FF_00FF,
    0xFF55_FF55,
    0x00AA_00AA,
    0x0055_0055,
    0x00FF_FF00,
    0xFF00_00FF,
    0x55FF_FF55,
    0xAA00_00AA,
];

// What a comparison code shows for each any and all.
#[tactic(auto, using(crate::proofs::Orders::orders_there), unfolding(crate::specs::Shown::order_table))]
fn orders(code: u32, to1: bool, s: bool, tovf: bool) -> u8
    ensures { (result ≡ N.orders code to1 s tovf) × (result < 16) }
{
    let of_code = ORDERS.get(code as usize).copied().unwrap_or(0);
    let at = 4 * (u32::from(to1) + 2 * u32::from(s) + 4 * u32::from(tovf));
    ((of_code >> at) % 16) as u8
}

#[inline(always)]
pub fn shown_of(outputs: Outputs, cell: Cell) -> Shown
    ensures { result ≡ N.shown_of outputs cell }
{
    Shown {
        memory: memory(cell.ripple),
        bit: cell.bit,
        main: output::shown_bit(outputs.main, cell.bit),
        cout: output::shown_bit(outputs.cout, cell.carry),
        ovf: output::shown_bit(outputs.ovf, cell.overflow),
        orders: orders(outputs.code, cell.order, cell.bit, cell.overflow),
    }
}
