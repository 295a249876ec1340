// Shows the words of a job or of a mapping, whose bytes come on standard input: a line for each word, as soon as its four bytes have come.
#![tactic(auto)]

ghost use Rattle.std.specs.Prelude.{◌≤◌};

use console::Failed;
use text::Said;

// The bytes of a word so far, and how many they are.
// Kept: no heap, a rule of the project.
#[derive(Clone, Copy)]
struct Word {
    bytes: [u8; 4],
    kept: usize,
    ghost few: { kept ≤ 3 },
}

// Before the first byte of a word.
fn next_word() -> Word {
    Word {
        bytes: [0; 4],
        kept: 0,
    }
}

// Prints a word's line.
fn show(rt: &HostRuntime, bytes: [u8; 4]) -> Result<(), Failed> {
    let mut line = Said::new();
    describe::put_word(u32::from_le_bytes(bytes), &mut line);
    console::print(rt, line.as_bytes())
}

impl Word {
    // The word after a byte more; the fourth has it shown.
    fn with(self, rt: &HostRuntime, byte: u8) -> Result<Word, Failed> {
        let mut bytes = self.bytes;
        bytes[self.kept] = byte;
        if self.kept < 3 {
            return Ok(Word {
                bytes,
                kept: self.kept + 1,
            });
        }
        show(rt, bytes)?;
        Ok(next_word())
    }

    // The end of standard input: a word of which some bytes came is cut short.
    fn end(self, rt: &HostRuntime) {
        if 0 < self.kept {
            console::tell(rt, b"show_words: the last word is cut short\n");
        }
    }
}

// Shows the words of standard input until it ends.
fn show_all(rt: &HostRuntime) -> Result<(), Failed> {
    let start = next_word();
    let last = console::each_byte(rt, start, |word, byte| word.with(rt, byte))?;
    last.end(rt);
    Ok(())
}

fn main(rt: HostRuntime) {
    let run = arguments::may_run(
        &rt,
        1,
        1,
        b"usage: show_words < FILE\n",
        &[
            b"usage: show_words < FILE\n\
        \n\
        Prints a line for each word of a job or a mapping: its eight digits and what it is, or its refusal. What is printed,\n\
        cut to the digits, is text for pack_words.\n\
        \n\
        example: echo 54000001 | pack_words | show_words\n",
        ],
    );
    if run {
        let _ = show_all(&rt);
    }
}
