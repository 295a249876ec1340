// What a test writes.
use crate::tally::Tally;

pub fn text(rt: &HostRuntime, bytes: &[u8]) {
    let _ = rt.write_all(bytes);
}

// A word in hexadecimal digits.
pub fn word(rt: &HostRuntime, bytes: &[u8], w: u32) {
    text(rt, bytes);
    let _ = print!(rt; "{w:08x}");
}

pub fn words(rt: &HostRuntime, bytes: &[u8], words: &[u32]) {
    text(rt, bytes);
    for w in words {
        word(rt, b" ", *w);
    }
}

// A line of its own.
pub fn report(rt: &HostRuntime, name: &[u8], all: Tally) {
    text(rt, name);
    let _ = println!(rt; ": {all}");
}
