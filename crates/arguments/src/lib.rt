// What the programs' arguments mean.
#![tactic(auto)]

ghost use Rattle.std.specs.Prelude.{◌≡◌, ◌≤◌, length, take};
ghost use Rattle.arguments.specs.Arguments as W;

use std::env::FillError;
use std::rt::Env;

// More bytes than the path of a file has.
pub const MOST_BYTES: usize = 4096;

// Puts an argument at the start of a buffer and answers its length, or 0 if there is no such argument or it is longer.
// Kept: a lent buffer, since no heap is a rule of the project; and the 0, since an empty name opens no file either, and is said by the system.
pub fn put_argument(rt: &HostRuntime, index: usize, out: &mut [u8]) -> usize
    ensures { result ≤ length out.new }
{
    rt.arg(index, out).unwrap_or(0)
}

// An argument of a program; an empty one where there is none, or a longer one, and no file has that name.
// Kept: bytes with their count, since no heap is a rule of the project.
#[derive(Drop)]
pub struct Argument {
    bytes: [u8; MOST_BYTES],
    length: usize,
    ghost held: { length ≤ 4096 },
}

impl Argument {
    // The argument of an index.
    pub fn at(rt: &HostRuntime, index: usize) -> Argument {
        let mut bytes = [0u8; MOST_BYTES];
        let length = put_argument(rt, index, &mut bytes);
        Argument { bytes, length }
    }

    // Its bytes.
    pub fn as_bytes(&self) -> &[u8]
        ensures { result.now ≡ take self.now.length self.now.bytes }
    {
        &self.bytes[..self.length]
    }
}

// Whether a program was called with an argument of this index.
fn has_argument(rt: &HostRuntime, index: usize) -> bool {
    let mut none = [0u8; 1];
    match rt.arg(index, &mut none) {
        Ok(_) | Err(FillError::TooLong) => true,
        Err(FillError::NotPresent) => false,
    }
}

// How many arguments a program was called with, its own name among them.
pub fn count(rt: &HostRuntime) -> usize {
    for index in 0..usize::MAX {
        if !has_argument(rt, index) {
            return index;
        }
    }
    usize::MAX
}

// judge_rule's WIDTH: one width, or every width.
#[derive(Clone, Copy)]
pub enum Widths {
    At(u32),
    All,
}

fn is_help(argument: &[u8]) -> bool
    ensures { result ≡ W.is_help argument.now }
{
    argument == b"--help".as_slice()
}

// Whether the first argument asks for help.
fn asks_help(rt: &HostRuntime) -> bool {
    if count(rt) < 2 {
        return false;
    }
    let argument = Argument::at(rt, 1);
    is_help(argument.as_bytes())
}

// Prints the parts of a help. A part that cannot be printed is said, and the next is tried.
fn print_help(rt: &HostRuntime, help: &[&[u8]]) {
    for part in help {
        let _ = console::print(rt, part);
    }
}

// Whether a program is to run, by how many arguments it was called with, its own name among them. If not, it is said how it is called: on
// standard output by the parts of the help that was asked for, or on standard error.
pub fn may_run(rt: &HostRuntime, fewest: usize, most: usize, usage: &[u8], help: &[&[u8]]) -> bool
    ensures { W.MayRun fewest most result }
{
    if asks_help(rt) {
        print_help(rt, help);
        return false;
    }
    let count = count(rt);
    if count < fewest || most < count {
        console::tell(rt, usage);
        return false;
    }
    true
}

// Whether judge_rule's second argument, of so many, says that targets are negated. Where there is none they are plain.
#[tactic(auto, unfolding(crate::specs::Arguments::negated_in))]
pub fn negated_in(count: usize, argument: &[u8]) -> Option<bool>
    ensures { result ≡ W.negated_in count argument.now }
{
    if count < 3 {
        return Some(false);
    }
    if argument == b"negated".as_slice() {
        return Some(true);
    }
    None
}

// The value of a decimal digit.
#[tactic(auto, unfolding(crate::specs::Arguments::decimal_digit))]
fn decimal_digit(byte: u8) -> Option<u32>
    ensures { result ≡ W.decimal_digit byte }
{
    char::from(byte).to_digit(10)
}

fn width_at(n: u32) -> Option<Widths>
    ensures { result ≡ W.width_at n }
{
    if alu::is_width(n) {
        return Some(Widths::At(n));
    }
    None
}

// The width of one or two digits.
#[tactic(auto, unfolding(crate::specs::Arguments::decimal_digit))]
fn digits_width(digits: &[u8]) -> Option<Widths>
    ensures { result ≡ W.digits_width digits.now }
{
    match digits {
        [only] => width_at(decimal_digit(*only)?),
        [first, second] => width_at(10 * decimal_digit(*first)? + decimal_digit(*second)?),
        _ => None,
    }
}

// What stands for WIDTH, if it is a width or all.
#[tactic(auto, unfolding(crate::specs::Arguments::widths_in))]
pub fn widths_in(argument: &[u8]) -> Option<Widths>
    ensures { result ≡ W.widths_in argument.now }
{
    if argument == b"all".as_slice() {
        return Some(Widths::All);
    }
    digits_width(argument)
}
