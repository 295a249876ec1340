// A text put together in place: bytes, names and numbers put behind what stands so far.
ghost use Rattle.std.specs.Prelude.{◌≡◌, ◌+◌, ◌≤◌, ◌++◌, [], length};
ghost use Rattle.text.specs.Text as T;

use std::marker::Model;

// What stands so far, of at most ROOM bytes.
// Kept: bytes with their count, since no heap is a rule of the project. What is left of the room is less after each put, so what puts a
// text asks for the room of that text; a type for what is left would be made anew at each put.
#[derive(Drop)]
pub struct Text<const ROOM: usize> {
    bytes: [u8; ROOM],
    end: usize,
}

impl<const ROOM: usize> Model for Text<ROOM> {
    ghost use Rattle.std.specs.Prelude.{ℕ, List, take, ◌≤◌};

    ghost Value = { List ℕ };

    ghost view = { λ t. take t.end t.bytes };

    ghost invariant = { λ t. t.end ≤ ROOM };
}

// The names of the functions from 1 on; LV stands for 0.
const NAMES: [&str; 28] = [
    "LV", "ADD", "SUB", "RSUB", "INC", "DEC", "ZERO", "ONE", "AND", "NAND", "OR", "NOR", "XOR",
    "XNOR", "LID", "RID", "LNOT", "RNOT", "LINHI", "RINHI", "LIMPL", "RIMPL", "EQ", "NEQ", "GT",
    "LT", "GEQ", "LEQ",
];

fn glyph(digit: u64) -> u8
    requires { digit ≤ 15 }
    ensures { result ≡ T.glyph digit }
{
    if digit < 10 {
        return 48 + digit as u8;
    }
    55 + digit as u8
}

// Fills places with the last digits of a number in a base, from the last place down.
#[tactic(auto, using(crate::proofs::Digits::no_digit_yet, crate::proofs::Digits::one_digit, crate::proofs::Digits::all_digits))]
fn fill_digits(places: &mut [u8], n: u64, base: u64)
    requires { (2 ≤ base) × (base ≤ 16) }
    ensures { places.new ≡ T.digits base (length places.old) n }
{
    let count = places.len();
    let mut rest = n;
    for i in 0..count {
        places[count - 1 - i] = glyph(rest % base);
        rest = rest / base;
    }
}

// How many decimal digits a number has.
#[tactic(auto, using(crate::proofs::Digits::count_ends, crate::proofs::Digits::count_goes_on, crate::proofs::Digits::count_full))]
fn digit_count(n: u64) -> usize
    ensures { (result ≡ T.digits_in 20 n) × (result ≤ 20) }
{
    let mut rest = n;
    for i in 0..20 {
        if rest < 10 {
            return i + 1;
        }
        rest = rest / 10;
    }
    20
}

impl<const ROOM: usize> Text<ROOM> {
    // Nothing yet.
    pub fn new() -> Text<ROOM>
        ensures { result ≡ [] }
    {
        Text {
            bytes: [0; ROOM],
            end: 0,
        }
    }

    // What stands so far.
    pub fn as_bytes(&self) -> &[u8]
        ensures { result.now ≡ self.now }
    {
        &self.bytes[..self.end]
    }

    // Puts bytes.
    pub fn put(&mut self, bytes: &[u8])
        requires { length self.old + length bytes.now ≤ ROOM }
        ensures { self.new ≡ self.old ++ bytes.now }
    {
        let start = self.end;
        let end = start + bytes.len();
        let room = &mut self.bytes[..];
        room[start..end].copy_from_slice(bytes);
        self.end = end;
    }

    // Puts the text of a table at an index; past the last there is none.
    #[tactic(auto, using(crate::proofs::Tables::entries))]
    pub fn put_entry(&mut self, table: &[&str], index: usize)
        requires { length self.old + T.longest (T.texts table.now) ≤ ROOM }
        ensures short { length self.new ≤ length self.old + T.longest (T.texts table.now) }
        ensures text { self.new ≡ self.old ++ T.entry (T.texts table.now) index }
    {
        if index < table.len() {
            self.put(table[index].as_bytes());
        }
    }

    // Puts the name of a function; there is none for a number above the last.
    #[tactic(auto, unfolding(crate::specs::Text::name_of))]
    pub fn put_name(&mut self, function: u32)
        requires { length self.old + 5 ≤ ROOM }
        ensures short { length self.new ≤ length self.old + 5 }
        ensures text { self.new ≡ self.old ++ T.name_of function }
    {
        self.put_entry(&NAMES, function as usize);
    }

    // Puts the last k digits of a number in a base.
    // Kept: by hand and not by `write!`. The library says what `{}` and `{:x}` write, but not the capital digits of `{:X}`; and a write
    // through `fmt::Write` can fail, while a put cannot.
    #[tactic(auto, using(crate::proofs::Digits::digits_length))]
    pub fn put_digits(&mut self, n: u64, base: u64, k: usize)
        requires { (length self.old + k ≤ ROOM) × (2 ≤ base) × (base ≤ 16) }
        ensures short { length self.new ≡ length self.old + k }
        ensures text { self.new ≡ self.old ++ T.digits base k n }
    {
        let start = self.end;
        let room = &mut self.bytes[..];
        fill_digits(&mut room[start..start + k], n, base);
        self.end = start + k;
    }

    // Puts a number in decimal.
    #[tactic(auto, unfolding(crate::specs::Text::decimal))]
    fn put_decimal(&mut self, n: u64)
        requires { length self.old + 20 ≤ ROOM }
        ensures short { length self.new ≤ length self.old + 20 }
        ensures text { self.new ≡ self.old ++ T.decimal n }
    {
        self.put_digits(n, 10, digit_count(n));
    }

    // Puts a label, and a number in decimal after it.
    #[tactic(auto, unfolding(crate::specs::Text::labelled))]
    pub fn put_labelled(&mut self, label: &[u8], n: u64)
        requires { length self.old + length label.now + 20 ≤ ROOM }
        ensures short { length self.new ≤ length self.old + length label.now + 20 }
        ensures text { self.new ≡ self.old ++ T.labelled label.now n }
    {
        self.put(label);
        self.put_decimal(n);
    }
}
