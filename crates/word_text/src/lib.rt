// A text of words on standard input, taken one word at a time, each as soon as it has ended.
#![tactic(auto)]

ghost use Rattle.std.specs.Prelude.{◌≡◌, ◌^◌, ◌<◌};
ghost use Rattle.hexadecimal.specs.Hex as T;
ghost use Rattle.word_text.specs.Next as W;

use console::{Failed, Stdin};
use hexadecimal::{Hex, Step};

// More bytes than a text has. A text that is over stands here.
// Kept: a place past every text, so that the loop which goes on from a place ends at once; an `Option` would be taken apart first.
const MOST: usize = 2305843009213693952;

// Standard input, the word being read, and how many bytes came before.
#[derive(Clone, Copy)]
pub struct WordText {
    stdin: Stdin,
    hex: Hex,
    at: usize,
}

// The text before anything is read.
pub fn unread() -> WordText
    ensures { W.Unread result }
{
    WordText {
        stdin: console::unread(),
        hex: hexadecimal::between(false),
        at: 0,
    }
}

impl WordText {
    // Nothing more is taken. What was found last is handed on.
    fn over(&mut self, found: Option<u32>) -> Option<u32>
        ensures word { result ≡ found }
        ensures after { self.new ≡ W.over self.old }
    {
        self.hex = hexadecimal::between(false);
        self.at = MOST;
        found
    }

    // What is found by the step of the byte at a place: nothing yet, or the word that it ends. A byte that cannot stand where it is is said on
    // standard error; there is no word then, and the text is over.
    fn word_by(
        &mut self,
        rt: &HostRuntime,
        step: Option<Step>,
        at: usize,
        program: &[u8],
    ) -> Option<Option<u32>>
        requires { at < 2 ^ 61 }
        ensures found { result ≡ W.word_by step }
        ensures behind { self.new ≡ W.behind step at self.old }
    {
        let Some(step) = step else {
            console::complain(rt, program, at);
            return Some(self.over(None));
        };
        match step {
            Step::More(more) => {
                self.hex = more;
                None
            }
            Step::Word(word, rest) => {
                self.hex = rest;
                self.at = at + 1;
                Some(Some(word))
            }
        }
    }

    // What is found by what was got at a place of standard input; nothing yet where the text only goes on. Where a read failed there is no word,
    // and the text is over.
    fn take_got(
        &mut self,
        rt: &HostRuntime,
        got: Result<Option<u8>, Failed>,
        at: usize,
        program: &[u8],
    ) -> Option<Option<u32>>
        requires { at < 2 ^ 61 }
        ensures found { result ≡ W.found got self.old }
        ensures after { self.new ≡ W.after got at self.old }
    {
        match got {
            Ok(Some(byte)) => {
                let step = hexadecimal::taken(self.hex, byte);
                self.word_by(rt, step, at, program)
            }
            Ok(None) => {
                let last = last_word(rt, self.hex, at, program);
                Some(self.over(last))
            }
            Err(_) => Some(self.over(None)),
        }
    }

    // Takes the next word. There is none where the text has ended, a read failed, or a byte cannot stand where it is. A read that fails is said
    // on standard error, and so is a byte that cannot stand where it is, with the program's name.
    #[tactic(auto, using(crate::proofs::Onward::forward), unfolding(crate::specs::Next::Forward))]
    pub fn next(&mut self, rt: &HostRuntime, program: &[u8]) -> Option<u32>
        ensures { W.Forward self.old.at result self.new.at }
    {
        // Kept: this gives one word a call and keeps its place between calls; `console::each_byte` reads to the end.
        for at in self.at..MOST {
            let got = self.stdin.next(rt);
            if let Some(found) = self.take_got(rt, got, at, program) {
                return found;
            }
        }
        self.over(None)
    }
}

// The word that the end of the text ends: a last word may stand there without a gap behind it. Too few digits are said on standard error.
fn last_word(rt: &HostRuntime, hex: Hex, at: usize, program: &[u8]) -> Option<u32>
    ensures { result ≡ T.last_word hex }
{
    let Some(step) = hexadecimal::ended(hex, false) else {
        console::complain(rt, program, at);
        return None;
    };
    match step {
        Step::Word(word, _) => Some(word),
        Step::More(_) => None,
    }
}
