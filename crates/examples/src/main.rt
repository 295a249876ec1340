// Maps the jobs of the examples and checks their mappings; each file is a text of words in hexadecimal digits, with comments. Then inputs for
// every other kind of answer. All goes through the functions of the programs.
#![tactic(auto)]

mod cases;
mod said;

ghost use Rattle.std.specs.Prelude.{◌≤◌, length};

use hexadecimal::Step;
use input::{Input, KEPT_WORDS};
use std::fs::File;
use std::io::Read;
use testing::words::Words;

// The words of a text, as many as are kept. A text that is wrong ends at the byte that is.
fn words_in(bytes: &[u8]) -> Words<KEPT_WORDS> {
    let mut words = Words::empty();
    let mut hex = hexadecimal::between(false);
    for byte in bytes {
        let Some(step) = hexadecimal::taken(hex, *byte) else {
            break;
        };
        hex = match step {
            Step::More(more) => more,
            Step::Word(word, next) => {
                words.push(word);
                next
            }
        };
    }
    words
}

// The most bytes that are read of a file.
const MOST_FILE_BYTES: usize = 8192;

// Reads until the bytes that are lent are full, the file ends or a read fails, and answers how many were read.
fn read_full(file: &mut File, bytes: &mut [u8]) -> usize
    ensures { result ≤ length bytes.new }
{
    let mut done = 0;
    // Kept: no range is gone through; the system says how many bytes came.
    while done < bytes.len() {
        let n = file.read(&mut bytes[done..]).unwrap_or(0);
        if n == 0 {
            break;
        }
        done += n;
    }
    done
}

// Reads the bytes of a file, and answers how many were read: none where it cannot be opened.
fn read_file(rt: &HostRuntime, path: &[u8], bytes: &mut [u8]) -> usize
    ensures { result ≤ length bytes.new }
{
    match input::open(rt, path) {
        Ok(mut file) => read_full(&mut file, bytes),
        Err(why) => {
            console::fail(rt, path, why);
            0
        }
    }
}

// Reads the words of a file's text.
fn read_words(rt: &HostRuntime, path: &[u8]) -> Input {
    let mut bytes = [0u8; MOST_FILE_BYTES];
    let n = read_file(rt, path, &mut bytes);
    let words = words_in(&bytes[..n]);
    let written = words.written();
    Input::of_words(written, 4 * written.len())
}

// Maps a job.
fn map(rt: &HostRuntime, path: &[u8]) {
    let job = read_words(rt, path);
    let _ = console::print(rt, b"map ");
    let _ = console::print(rt, path);
    let _ = console::print(rt, b"\n");
    said::map(rt, job);
}

// Checks a mapping against its job.
fn check(rt: &HostRuntime, path: &[u8], mapping_path: &[u8]) {
    let job = read_words(rt, path);
    let mapping = read_words(rt, mapping_path);
    let _ = console::print(rt, b"check ");
    let _ = console::print(rt, path);
    let _ = console::print(rt, b" ");
    let _ = console::print(rt, mapping_path);
    let _ = console::print(rt, b"\n");
    said::check(rt, job, mapping);
}

fn main(rt: HostRuntime) {
    map(&rt, b"printed.job");
    check(&rt, b"printed.job", b"printed.mapping");
    check(&rt, b"printed.job", b"published_lt.mapping");
    map(&rt, b"published_lt.job");
    map(&rt, b"board.job");
    check(&rt, b"board.job", b"board.mapping");
    map(&rt, b"book.job");
    check(&rt, b"book.job", b"book.mapping");
    map(&rt, b"negated.job");
    check(&rt, b"negated.job", b"negated.mapping");
    let _ = console::print(&rt, b"map inputs\n");
    cases::map_inputs(&rt);
    let _ = console::print(&rt, b"check inputs\n");
    cases::check_inputs(&rt);
}
