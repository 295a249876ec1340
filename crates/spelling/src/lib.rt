// How the codes of a recipe are written, put behind what stands of a text: document 01, "Words".
#![tactic(auto)]

ghost use Rattle.std.specs.Prelude.{◌≡◌, ◌+◌, ◌≤◌, ◌++◌, length};
ghost use Rattle.spelling.specs.Room.{most_spelling};
ghost use Rattle.spelling.specs.Spelling.{spelling_of};

use text::Text;

// The fields of a recipe that hold a code; the two wirings share theirs.
#[derive(Clone, Copy)]
pub enum Codes {
    Wiring,
    Carry,
    Main,
    CarryOut,
    Overflow,
    Comparison,
}

// The spellings of each from code 0 on.
const WIRINGS: [&str; 6] = ["zeros", "ones", "SI0", "NOT SI0", "SI1", "NOT SI1"];

const CARRIES: [&str; 4] = ["0", "1", "SICIN", "NOT SICIN"];

const MAINS: [&str; 3] = ["none", "TO0", "NOT TO0"];

const CARRIES_OUT: [&str; 3] = ["none", "TOCOUT", "NOT TOCOUT"];

const OVERFLOWS: [&str; 2] = ["none", "TOVF"];

const COMPARISONS: [&str; 16] = [
    "none",
    "TO1",
    "NOT TO1",
    "GOR",
    "GNOR",
    "GAND",
    "GNAND",
    "S",
    "NOT S",
    "S OR GNOR",
    "NOT S AND GOR",
    "NOT S AND GNOR",
    "S XOR TOVF",
    "NOT (S XOR TOVF)",
    "(S XOR TOVF) OR GNOR",
    "NOT ((S XOR TOVF) OR GNOR)",
];

// Puts what a code says; of a code past its table, nothing.
#[tactic(auto, unfolding(crate::specs::Spelling::spelling_of))]
pub fn put_spelling<const ROOM: usize>(codes: Codes, code: u32, text: &mut Text<ROOM>)
    requires { length text.old + most_spelling codes ≤ ROOM }
    ensures short { length text.new ≤ length text.old + most_spelling codes }
    ensures text { text.new ≡ text.old ++ spelling_of codes code }
{
    match codes {
        Codes::Wiring => text.put_entry(&WIRINGS, code as usize),
        Codes::Carry => text.put_entry(&CARRIES, code as usize),
        Codes::Main => text.put_entry(&MAINS, code as usize),
        Codes::CarryOut => text.put_entry(&CARRIES_OUT, code as usize),
        Codes::Overflow => text.put_entry(&OVERFLOWS, code as usize),
        Codes::Comparison => text.put_entry(&COMPARISONS, code as usize),
    }
}
