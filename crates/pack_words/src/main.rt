// Words written as eight hexadecimal digits, parted by spaces or line feeds, on standard input; their bytes on standard output. From # to
// the end of the line is a comment.
#![tactic(auto)]

use console::Failed;

// Writes a word's bytes.
fn write_word(rt: &HostRuntime, word: u32) -> Result<(), Failed> {
    let bytes = files::bytes_of(word);
    console::print(rt, &bytes)
}

// Writes each word, until the text is over.
#[tactic(auto, unfolding(word_text::specs::Next::Forward))]
fn pack(rt: &HostRuntime) -> Result<(), Failed> {
    let mut text = word_text::unread();
    while let Some(word) = text.next(rt, b"pack_words") {
        write_word(rt, word)?;
    }
    Ok(())
}

// How the program is called.
const USAGE: [u8; 33] = *b"usage: pack_words < TEXT > WORDS\n";

fn main(rt: HostRuntime) {
    let run = arguments::may_run(
        &rt,
        1,
        1,
        &USAGE,
        &[
            &USAGE,
            b"\n\
        Writes the bytes of words, four each, the lowest first. A word is eight hexadecimal digits. Spaces or line feeds\n\
        part words; # begins a comment, which ends with its line.\n\
        \n\
        example: echo '10000010 20010103 # width 16, prices' | pack_words > words\n",
        ],
    );
    if run {
        let _ = pack(&rt);
    }
}
