// Reads a job's words on standard input and prints its mapping, or the refusal. With one argument it also writes the mapping's words
// to the file of that name. What cannot be read or written is said on standard error.
#![tactic(auto)]

use sequence::MOST_MAPPING_WORDS;
use text::Said;

// Maps the job, and saves a mapping that was written, if a file is named for it.
fn map(rt: &HostRuntime) {
    let input = input::read_words(rt, &mut rt.stdin(), b"standard input");
    // Kept: lent words and how many were written, as document 01 has a mapping written.
    let mut lent = [0u32; MOST_MAPPING_WORDS];
    let mut text = Said::new();
    let Ok(count) = map_answers::map_input(input, &mut lent, &mut text) else {
        return;
    };
    let _ = console::print(rt, text.as_bytes());
    if count == 0 {
        return;
    }
    if arguments::count(rt) == 2 {
        saving::save(rt, 1, &lent[..count]);
    }
}

// How the program is called.
const USAGE: [u8; 28] = *b"usage: map_job [FILE] < JOB\n";

fn main(rt: HostRuntime) {
    let run = arguments::may_run(
        &rt,
        1,
        2,
        &USAGE,
        &[
            &USAGE,
            b"\n\
        Prints a line for each binding of the job's mapping, and its glue count; or the refusal. Writes the mapping's words to\n\
        FILE, if it is named. A job is words of four bytes, the lowest first, as pack_words makes them of text.\n\
        \n\
        example: pack_words < examples/printed.job | map_job mapping\n",
        ],
    );
    if run {
        map(&rt);
    }
}
