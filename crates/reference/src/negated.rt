// A recipe for a negated target: its codes for an output that comes out complemented are those of the complement.
use crate::recipe::fields_of;

// The comparison code that reads of complemented outputs what another reads of the plain ones: TO1 and NOT TO1, GOR and GNAND, GNOR and GAND, S
// and NOT S, S XOR TOVF and its NOT. The codes that join S with GOR or GNOR have none, but for 11, which is GNOR: where no bit is 1, S is 0.
fn complement_code(code: u32) -> Option<u32> {
    match code {
        0 => Some(0),
        1 => Some(2),
        2 => Some(1),
        3 => Some(6),
        4 => Some(5),
        5 => Some(4),
        6 => Some(3),
        7 => Some(8),
        8 => Some(7),
        11 => Some(5),
        12 => Some(13),
        13 => Some(12),
        _ => None,
    }
}

// The recipe that shows with a negated target what this one shows with the plain one, if there are codes for it. From scratch there is no
// target.
pub fn rewritten(recipe: u32) -> Option<u32> {
    let fields = fields_of(recipe);
    if fields.target == 0 {
        return None;
    }
    let code = complement_code(fields.code)?;
    // A main output's code 1 is TO0 and 2 its complement.
    let main = if fields.main == 0 { 0 } else { 0x300 };
    Some(recipe ^ main ^ fields.code ^ code)
}
