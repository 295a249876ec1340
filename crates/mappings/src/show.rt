// What the mapper answers, and the lent words afterwards.
use testing::say;
use testing::words::{LENT, Words};
use words::Refusal;

// Eight capital hexadecimal digits, or that the word was not touched.
fn say_word(rt: &HostRuntime, word: u32) {
    if word == LENT {
        say::text(rt, b" -");
    } else {
        let _ = print!(rt; " {word:08X}");
    }
}

fn say_words(rt: &HostRuntime, words: &[u32]) {
    for word in words {
        say_word(rt, *word);
    }
}

fn say_answer(rt: &HostRuntime, answer: Result<usize, Refusal>) {
    match answer {
        Ok(n) => {
            let _ = print!(rt; ": mapping of {n} words");
        }
        Err(refusal) => {
            let _ = print!(rt; ": refused {} {}", u32::from(refusal.fault), refusal.place);
        }
    }
}

// Maps a job into lent words, and shows what they hold then.
fn mapped_into(rt: &HostRuntime, name: &[u8], job: &[u32], lent: &mut [u32]) {
    let answer = mapper::map(job, lent);
    say::text(rt, name);
    say_answer(rt, answer);
    say::text(rt, b";");
    say_words(rt, lent);
    say::text(rt, b"\n");
}

// Maps a job into so many lent words, 32 at most.
pub fn mapped(rt: &HostRuntime, name: &[u8], job: &[u32], lent: usize) {
    let mut words = [LENT; 32];
    mapped_into(rt, name, job, &mut words[..lent.min(32)]);
}

// The same of a job, of 8 words at most, with another word at an index.
pub fn mapped_with(rt: &HostRuntime, name: &[u8], job: &[u32], changed: (usize, u32), lent: usize) {
    let (i, word) = changed;
    let mut words: Words<8> = Words::of(job);
    words.put(i, word);
    mapped(rt, name, words.written(), lent);
}
