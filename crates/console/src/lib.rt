// Standard output and standard input. What cannot be read or written is said on standard error.
#![tactic(auto)]

ghost use Rattle.std.specs.Prelude.{◌≤◌, IfOk};
ghost use Rattle.console.specs.Bytes as B;

use std::io::{Error, Read};

// How many bytes are read at a time.
const BUFFER: usize = 512;

// More bytes than standard input has.
const MOST: usize = 2305843009213693952;

// Writes bytes to standard error.
pub fn tell(rt: &HostRuntime, bytes: &[u8]) {
    let _ = rt.stderr().write_all(bytes);
}

// Says on standard error what could not be opened, read or written, and why.
pub fn fail(rt: &HostRuntime, what: &[u8], why: Error) {
    tell(rt, what);
    let _ = eprintln!(rt; ": {why}");
}

// A read or a write failed, which was said.
#[derive(Clone, Copy)]
pub struct Failed;

// Says what could not be opened, read or written, and why; and that this was said.
pub fn said(rt: &HostRuntime, what: &[u8], why: Error) -> Failed {
    fail(rt, what, why);
    Failed
}

// Writes bytes to standard output.
pub fn print(rt: &HostRuntime, bytes: &[u8]) -> Result<(), Failed> {
    rt.write_all(bytes)
        .map_err(|why| said(rt, b"standard output", why))
}

// Says at which byte a text of words cannot go on.
pub fn complain(rt: &HostRuntime, program: &[u8], at: usize) {
    tell(rt, program);
    let _ = eprint!(rt; ": byte {at}");
    tell(
        rt,
        b": words are eight hexadecimal digits, parted by spaces or line feeds; # begins a comment\n",
    );
}

// The bytes of standard input that were read and not yet taken: those from `at` on, up to `end`.
// Kept: no heap, a rule of the project.
#[derive(Clone, Copy)]
pub struct Stdin {
    bytes: [u8; BUFFER],
    at: usize,
    end: usize,
    ghost held: { end ≤ 512 },
}

// Standard input before anything is read.
pub fn unread() -> Stdin {
    Stdin {
        bytes: [0; BUFFER],
        at: 0,
        end: 0,
    }
}

impl Stdin {
    // Reads more in the place of what was taken.
    fn refill(&mut self, rt: &HostRuntime) -> Result<(), Failed> {
        let mut bytes = [0u8; BUFFER];
        let read = rt.stdin().read(&mut bytes);
        let end = read.map_err(|why| said(rt, b"standard input", why))?;
        *self = Stdin { bytes, at: 0, end };
        Ok(())
    }

    // Takes the next byte; there is none at the end of standard input. A read that fails is said on standard error.
    pub fn next(&mut self, rt: &HostRuntime) -> Result<Option<u8>, Failed> {
        if self.end <= self.at {
            self.refill(rt)?;
        }
        if self.end <= self.at {
            return Ok(None);
        }
        let byte = self.bytes[self.at];
        self.at += 1;
        Ok(Some(byte))
    }
}

// Hands each byte of standard input to a step, with the state that the step before made, and answers the state at its end. There is none where
// a step or a read failed.
#[tactic(auto, using(crate::proofs::Steps::one_more))]
pub fn each_byte<S: Drop, F: Fn(S, u8) -> Result<S, Failed>>(
    rt: &HostRuntime,
    start: S,
    step: F,
) -> Result<S, Failed>
    requires { F.IsAlwaysCallable step }
    ensures { IfOk result (B.Leads F.Fn step start) }
{
    let mut stdin = unread();
    let mut state = start;
    for _ in 0..MOST {
        let Some(byte) = stdin.next(rt)? else {
            return Ok(state);
        };
        state = step(state, byte)?;
    }
    Err(Failed)
}
