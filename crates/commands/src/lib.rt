// The commands of work_bench: what a line means, and a line as it is read.
#![tactic(auto)]

ghost use Rattle.std.specs.Prelude.{◌≡◌};
ghost use Rattle.hexadecimal.specs.Hex as T;
ghost use Rattle.commands.specs.Commands as C;

// A line passed over, or a command of the bench.
#[derive(Clone, Copy)]
pub enum Command {
    Pass,
    Bind(u32),
    Release(u32),
    Price,
    Show,
    Finish,
}

// How many bytes of a line are kept. No command has so many.
const LINE_BYTES: usize = 32;

// The first bytes of a line so far, and how many they are.
// Kept: no heap, a rule of the project.
#[derive(Clone, Copy)]
pub struct Line {
    pub bytes: [u8; LINE_BYTES],
    pub length: usize,
}

// A line of which nothing is read.
pub fn empty_line() -> Line
    ensures { result ≡ C.empty_line }
{
    Line {
        bytes: [0; LINE_BYTES],
        length: 0,
    }
}

// A byte more, if it is kept.
#[tactic(auto, unfolding(crate::specs::Commands::with_byte))]
pub fn with_byte(mut line: Line, byte: u8) -> Line
    ensures { result ≡ C.with_byte line byte }
{
    let length = line.length;
    if length < LINE_BYTES {
        line.bytes[length] = byte;
        line.length = length + 1;
    }
    line
}

fn passed_over(line: &[u8]) -> bool
    ensures { result ≡ C.passed_over line.now }
{
    match line {
        [] => true,
        [first, ..] => *first == b'#',
    }
}

// A bind of the word whose digits these are.
fn bind_command(digits: &[u8]) -> Option<Command>
    ensures { result ≡ C.bind_command (T.word_in digits.now) }
{
    Some(Command::Bind(hexadecimal::word_in(digits)?))
}

// A release of the function whose decimal digits these are.
#[tactic(auto, using(crate::proofs::Release::one_read, crate::proofs::Release::all_read), unfolding(crate::specs::Commands::release_command))]
fn release_command(digits: &[u8]) -> Option<Command>
    ensures { result ≡ C.release_command digits.now }
{
    if digits.is_empty() || 10 < digits.len() {
        return None;
    }
    let mut function: u32 = 0;
    for byte in digits {
        let digit = char::from(*byte).to_digit(10)?;
        function = function.checked_mul(10)?.checked_add(digit)?;
    }
    Some(Command::Release(function))
}

// "bind " and a word's digits, "release " and a function's, or no command.
#[tactic(auto, unfolding(crate::specs::Commands::command_with))]
fn command_with(line: &[u8]) -> Option<Command>
    ensures { result ≡ C.command_with line.now }
{
    if let Some(digits) = line.strip_prefix(b"bind ") {
        return bind_command(digits);
    }
    if let Some(digits) = line.strip_prefix(b"release ") {
        return release_command(digits);
    }
    None
}

// What a line means, if it means anything.
#[tactic(auto, unfolding(crate::specs::Commands::command_of))]
fn command_of(line: &[u8]) -> Option<Command>
    ensures { result ≡ C.command_of line.now }
{
    if passed_over(line) {
        return Some(Command::Pass);
    }
    if line == b"price".as_slice() {
        return Some(Command::Price);
    }
    if line == b"show".as_slice() {
        return Some(Command::Show);
    }
    if line == b"finish".as_slice() {
        return Some(Command::Finish);
    }
    command_with(line)
}

// What a line that was read means.
pub fn command_in(line: Line) -> Option<Command>
    ensures { result ≡ C.command_in line }
{
    let bytes = line.bytes;
    let length = line.length;
    if LINE_BYTES < length {
        return command_of(&bytes);
    }
    command_of(&bytes[..length])
}
