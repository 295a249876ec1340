// What work_bench says: the answer to its job's file and to each command, all lines of it, put behind what stands of a text.
#![tactic(auto)]

ghost use Rattle.std.specs.Prelude.{◌≡◌, ◌+◌, ◌≤◌, ◌++◌, length};
ghost use Rattle.lines.specs.Lines.{most_line_bytes};
ghost use Rattle.bench.specs.Calls as B;
ghost use Rattle.listing.specs.Listing as L;
ghost use Rattle.bench_answers.specs.Answers as S;
ghost use Rattle.bench_answers.specs.Asked as Q;

use bench::{After, Bench, CallError};
use commands::Command;
use console::Failed;
use input::Input;
use sequence::MOST_SOURCES;
use soundness::NOTHING;
use text::Text;

// The bench after a command, and how many words of a mapping were written.
// Kept: 0 words is a count, as none were written then; an `Option` would say no more.
#[derive(Clone, Copy)]
pub struct Worked {
    pub bench: Bench,
    pub words: usize,
}

// The text of a refusal.
fn put_error<const ROOM: usize>(error: CallError, text: &mut Text<ROOM>)
    requires { length text.old + most_line_bytes ≤ ROOM }
    ensures { text.new ≡ text.old ++ S.error_text error }
{
    match error {
        CallError::Refused(refusal) => lines::refused_line(refusal, text),
        CallError::Wrong(witness) => lines::wrong_line(witness, text),
    }
}

// The text of an answer, with what is said where the call is done.
// Kept: this and the two below differ in what is put where a call is done. One function with a closure would need what the closure puts in
// its clauses, and each caller would say it again.
fn put_done<const ROOM: usize>(answer: Result<(), CallError>, done: &[u8], text: &mut Text<ROOM>)
    requires { Q.LineRoom ROOM done.now text.old }
    ensures { text.new ≡ text.old ++ S.answer_text (λ _. done.now) answer }
{
    match answer {
        Ok(()) => text.put(done),
        Err(error) => put_error(error, text),
    }
}

// The text of a price.
fn put_count<const ROOM: usize>(answer: Result<u32, CallError>, text: &mut Text<ROOM>)
    requires { length text.old + most_line_bytes ≤ ROOM }
    ensures { text.new ≡ text.old ++ S.answer_text L.glue_line answer }
{
    match answer {
        Ok(count) => listing::glue_line(count, text),
        Err(error) => put_error(error, text),
    }
}

// The text of the mapping that a finish wrote into lent words.
fn put_mapping<const ROOM: usize>(
    answer: Result<usize, CallError>,
    lent: &[u32],
    text: &mut Text<ROOM>,
)
    requires { Q.MappingRoom ROOM answer lent.now text.old }
    ensures { text.new ≡ text.old ++ S.answer_text (S.written_text lent.now) answer }
{
    match answer {
        Ok(count) => listing::put_mapping(&lent[..count], text),
        Err(error) => put_error(error, text),
    }
}

// What is said of a bind or a release.
fn say<const ROOM: usize>(call: After<()>, done: &[u8], text: &mut Text<ROOM>) -> Worked
    requires { Q.LineRoom ROOM done.now text.old }
    ensures { S.SaysCall call (λ _. done.now) 0 text.old text.new result }
{
    put_done(call.answer, done, text);
    Worked {
        bench: call.bench,
        words: 0,
    }
}

// What is said of a price.
fn price<const ROOM: usize>(bench: Bench, text: &mut Text<ROOM>) -> Worked
    requires { length text.old + most_line_bytes ≤ ROOM }
    ensures { S.SaysCall (B.price_of bench) L.glue_line 0 text.old text.new result }
{
    let call = bench.price();
    put_count(call.answer, text);
    Worked {
        bench: call.bench,
        words: 0,
    }
}

// The line of a source: what is bound to it, or that nothing is.
fn entry_line<const ROOM: usize>(source: u32, word: u32, text: &mut Text<ROOM>)
    requires { length text.old + L.most_binding_bytes ≤ ROOM }
    ensures short { length text.new ≤ length text.old + L.most_binding_bytes }
    ensures text { text.new ≡ text.old ++ S.entry_line source word }
{
    if word == NOTHING {
        text.put_name(words::source_function(source));
        text.put(b" -\n");
        return;
    }
    listing::binding_line(writer::binding_word(word), text);
}

// The lines of sources, with what is bound in the entry of each.
#[tactic(auto, using(std::proofs::lemmas::List::append_assoc, crate::proofs::Entries::entry_first, crate::proofs::Entries::no_entries))]
fn put_entries<const ROOM: usize>(sources: &[u32], bound: &[u32], text: &mut Text<ROOM>)
    requires { Q.EntryRoom ROOM sources.now text.old }
    ensures { text.new ≡ text.old ++ S.entry_lines sources.now bound.now }
{
    for (source, word) in sources.iter().zip(bound) {
        entry_line(*source, *word, text);
    }
}

// A line for each source of a bench.
#[tactic(auto, using(bench::proofs::Shapes::shaped, crate::proofs::Entries::full_room, crate::proofs::Entries::full_table, crate::proofs::Entries::few_fit, crate::proofs::Entries::few_taken, crate::proofs::Entries::few_room))]
fn put_bench<const ROOM: usize>(bench: Bench, text: &mut Text<ROOM>)
    requires { length text.old + Q.most_text_bytes ≤ ROOM }
    ensures { text.new ≡ text.old ++ S.bench_text bench }
{
    let tables = bench.tables;
    let sources = tables.sources;
    let nsources = tables.nsources as usize;
    let bound = bench.bound;
    if MOST_SOURCES < nsources {
        put_entries(&sources, &bound, text);
        return;
    }
    put_entries(&sources[..nsources], &bound, text);
}

// A text that no call answers.
fn say_text<const ROOM: usize>(bench: Bench, said: &[u8], text: &mut Text<ROOM>) -> Worked
    requires { length text.old + length said.now ≤ ROOM }
    ensures { S.SaysText said.now text.old text.new bench result }
{
    text.put(said);
    Worked { bench, words: 0 }
}

// What is bound, shown.
fn show<const ROOM: usize>(bench: Bench, text: &mut Text<ROOM>) -> Worked
    requires { length text.old + Q.most_text_bytes ≤ ROOM }
    ensures { S.SaysText (S.bench_text bench) text.old text.new bench result }
{
    put_bench(bench, text);
    Worked { bench, words: 0 }
}

// How many words of a mapping a finish wrote.
fn words_of(answer: Result<usize, CallError>) -> usize
    ensures { result ≡ S.words_finished answer }
{
    answer.unwrap_or(0)
}

// What is said of a finish. The mapping is written into lent words.
#[tactic(auto, using(crate::proofs::Within::finish_within_now, crate::proofs::Within::words_within))]
fn finish<const ROOM: usize>(bench: Bench, lent: &mut [u32], text: &mut Text<ROOM>) -> Worked
    requires { Q.Room ROOM lent.old text.old }
    ensures fits { result.words ≤ length lent.old }
    ensures said { S.SaysFinish bench lent.old lent.new text.old text.new result }
{
    let call = bench.finish(lent);
    put_mapping(call.answer, lent, text);
    Worked {
        bench: call.bench,
        words: words_of(call.answer),
    }
}

// What is said of a command. A mapping is written into lent words.
fn obey<const ROOM: usize>(
    bench: Bench,
    command: Command,
    lent: &mut [u32],
    text: &mut Text<ROOM>,
) -> Worked
    requires { Q.Room ROOM lent.old text.old }
    ensures fits { result.words ≤ length lent.old }
    ensures said { S.SaysCommand command bench lent.old lent.new text.old text.new result }
{
    match command {
        Command::Pass => say_text(bench, b"", text),
        Command::Bind(word) => {
            let call = bench.bind(word);
            say(call, b"BOUND\n", text)
        }
        Command::Release(function) => {
            let call = bench.release(function);
            say(call, b"RELEASED\n", text)
        }
        Command::Price => price(bench, text),
        Command::Show => show(bench, text),
        Command::Finish => finish(bench, lent, text),
    }
}

// What is said of a line: of its command, or that it is none.
pub fn work<const ROOM: usize>(
    bench: Bench,
    command: Option<Command>,
    lent: &mut [u32],
    text: &mut Text<ROOM>,
) -> Worked
    requires { Q.Room ROOM lent.old text.old }
    ensures fits { result.words ≤ length lent.old }
    ensures said { S.Says command bench lent.old lent.new text.old text.new result }
{
    match command {
        Some(command) => obey(bench, command, lent, text),
        None => say_text(bench, b"NOT A COMMAND\n", text),
    }
}

// The answer to a job's file: a last word cut short comes before all else.
#[tactic(auto, unfolding(crate::specs::Answers::open_input))]
fn open_input(input: &Input) -> After<()>
    ensures { result ≡ S.open_input input.now }
{
    if let Some(refusal) = input.cut() {
        return After {
            bench: bench::zeros(),
            answer: Err(CallError::Refused(refusal)),
        };
    }
    Bench::open(input.words())
}

// What is said of a job's file, if it could be read; and its bench, or the one that a job which is not opened leaves.
pub fn open<const ROOM: usize>(
    input: Result<Input, Failed>,
    text: &mut Text<ROOM>,
) -> Result<Bench, Bench>
    requires { length text.old + most_line_bytes ≤ ROOM }
    ensures { S.SaysInput input text.old text.new result }
{
    let Ok(input) = input else {
        return Err(bench::zeros());
    };
    let call = open_input(&input);
    match call.answer {
        Ok(()) => {
            text.put(b"OPENED\n");
            Ok(call.bench)
        }
        Err(error) => {
            put_error(error, text);
            Err(call.bench)
        }
    }
}
