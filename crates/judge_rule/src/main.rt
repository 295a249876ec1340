// Judges rules and bindings: judge_rule WIDTH [negated], words as eight hexadecimal digits on standard input. Each word's line is printed as
// soon as the word has ended.
#![tactic(auto)]

ghost use Rattle.std.specs.Prelude.{◌+◌, ◌≤◌, length};
ghost use Rattle.lines.specs.Lines.{most_line_bytes};
ghost use Rattle.judge_rule.specs.Asked.{SaysAsked};

use arguments::{Argument, Widths};
use console::Failed;
use text::{Said, Text};

// What is asked: at which widths, and whether each word's target is negated.
#[derive(Clone, Copy)]
struct Asked {
    widths: Widths,
    negated: bool,
}

// The line of a word.
fn put_line<const ROOM: usize>(word: u32, asked: Asked, line: &mut Text<ROOM>)
    requires { length line.old + most_line_bytes ≤ ROOM }
    ensures short { length line.new ≤ length line.old + most_line_bytes }
    ensures said { SaysAsked asked.widths asked.negated word line.old line.new }
{
    let mark = u32::from(asked.negated);
    match asked.widths {
        Widths::At(width) => judge_answers::put_at(word, width, mark, line),
        Widths::All => judge_answers::put_everywhere(word, mark, line),
    }
}

// Prints a word's line.
fn judge_word(rt: &HostRuntime, word: u32, asked: Asked) -> Result<(), Failed> {
    let mut line = Said::new();
    put_line(word, asked, &mut line);
    console::print(rt, line.as_bytes())
}

// Judges each word, until the text is over.
#[tactic(auto, unfolding(word_text::specs::Next::Forward))]
fn judge_all(rt: &HostRuntime, asked: Asked) -> Result<(), Failed> {
    let mut text = word_text::unread();
    while let Some(word) = text.next(rt, b"judge_rule") {
        judge_word(rt, word, asked)?;
    }
    Ok(())
}

// What the arguments ask.
fn read_arguments(rt: &HostRuntime) -> Option<Asked> {
    let first = Argument::at(rt, 1);
    let second = Argument::at(rt, 2);
    let widths = arguments::widths_in(first.as_bytes())?;
    let negated = arguments::negated_in(arguments::count(rt), second.as_bytes())?;
    Some(Asked { widths, negated })
}

// How the program is called.
const USAGE: [u8; 121] = *b"usage: judge_rule WIDTH [negated] < WORDS\n\
    WIDTH is 1 to 64, or all for every width; with negated, each target is negated\n";

fn main(rt: HostRuntime) {
    let run = arguments::may_run(
        &rt,
        2,
        3,
        &USAGE,
        &[
            &USAGE,
            b"\n\
        Prints a line for each rule or binding: RIGHT, WRONG and where it differs from its source function, or the refusal.\n\
        With all, WRONG comes with the least width at which it does. With negated, the O0 and O1 of each word's target come\n\
        out complemented. A word is eight hexadecimal digits. Spaces or line feeds part words; # begins a comment, which\n\
        ends with its line.\n\
        \n\
        example: echo '5C894407 # LT as the sign of SUB' | judge_rule 8\n",
        ],
    );
    if !run {
        return;
    }
    match read_arguments(&rt) {
        Some(asked) => {
            let _ = judge_all(&rt, asked);
        }
        None => console::tell(&rt, &USAGE),
    }
}
