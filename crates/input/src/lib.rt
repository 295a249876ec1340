// Words read to the end of a file. Of a file longer than any job the first words are kept, one more than a job can have.
#![tactic(auto)]

ghost use Rattle.std.specs.Prelude.{◌≡◌, ◌-◌, ◌≤◌, IfOk, length, take};
ghost use Rattle.std.proofs.lemmas.List.Edits.{sets};
ghost use Rattle.input.specs.Read as R;
ghost use Rattle.input.specs.Kept as K;

use arguments::Argument;
use console::Failed;
use std::fs::File;
use std::io::{Error, ErrorKind, Read};
use std::marker::Model;
use std::str;
use words::{Fault, Refusal};

// The most words that are kept, and their bytes.
pub const KEPT_WORDS: usize = sequence::MOST_JOB_WORDS + 1;

const KEPT_BYTES: usize = 4 * KEPT_WORDS;

// How many bytes are read at a time.
const CHUNK: usize = 4096;

// More bytes than a file has.
const MOST: usize = 4611686018427387904;

// What was read of a file: the words that were kept, and how many bytes the file has.
// Kept: no heap, a rule of the project.
#[derive(Clone, Copy)]
pub struct Input {
    words: [u32; KEPT_WORDS],
    kept: usize,
    bytes: usize,
}

impl Model for Input {
    ghost use Rattle.std.specs.Prelude.{length, take};
    ghost use Rattle.input.specs.Read.{Words};
    ghost use Rattle.input.specs.Room.{StandFirst, room_with, room_back};

    ghost Value = { Words };

    ghost view = { λ i. record { words = take i.kept i.words; bytes = i.bytes } };

    ghost invariant = { λ i. StandFirst i.kept i.words };

    // The room behind the words that were kept is zeros, so the view forgets nothing.
    ghost inverse = { λ v. record { words = room_with v.words; kept = length v.words; bytes = v.bytes } };

    ghost inverse_ok = { λ i h x. record { words = room_back i.kept i.words h x; kept = h.there x; bytes = i.bytes } };
}

impl Input {
    // What is read of so many bytes of a file of these words: the first of its whole words, as many as are kept.
    #[tactic(auto, using(crate::proofs::Chunks::words_taken, crate::proofs::Room::copied_first))]
    pub fn of_words(words: &[u32], bytes: usize) -> Input
        ensures { result ≡ R.kept_of words.now bytes }
    {
        let mut room = [0u32; KEPT_WORDS];
        let whole = words.len().min(bytes / 4);
        let kept = KEPT_WORDS.min(whole);
        room[..kept].copy_from_slice(&words[..kept]);
        Input {
            words: room,
            kept,
            bytes,
        }
    }

    // The words that were kept.
    pub fn words(&self) -> &[u32]
        ensures { result.now ≡ self.now.words }
    {
        &self.words[..self.kept]
    }

    // The refusal of a last word that is cut short, if it is.
    pub fn cut(&self) -> Option<Refusal>
        ensures { result ≡ R.cut self.now }
    {
        if self.bytes % 4 == 0 {
            return None;
        }
        Some(Refusal {
            fault: Fault::OutOfSequence,
            place: self.whole(),
        })
    }

    // The whole words of the file, kept or not.
    pub fn whole(&self) -> usize
        ensures { result ≡ R.whole self.now }
    {
        self.bytes / 4
    }
}

// Puts bytes behind those that are kept already, as far as there is room.
#[tactic(auto, using(crate::proofs::Parts::some_kept))]
fn keep(chunk: &[u8], kept: &mut [u8], at: usize)
    ensures { kept.new ≡ sets kept.old at (take (length kept.old - at) chunk.now) }
{
    if kept.len() <= at {
        return;
    }
    let count = (kept.len() - at).min(chunk.len());
    kept[at..at + count].copy_from_slice(&chunk[..count]);
}

// Reads into a chunk, and answers how many bytes came. A read that fails is said by the reader's name.
fn read_chunk<S: Read>(
    rt: &HostRuntime,
    reader: &mut S,
    name: &[u8],
    chunk: &mut [u8],
) -> Result<usize, Failed>
    ensures { IfOk result (λ n. n ≤ length chunk.old) }
{
    let read = reader.read(chunk);
    read.map_err(|why| console::said(rt, name, why))
}

// Takes what the system answered to a read: that it failed, or how many bytes of the chunk it brought, which are kept behind those before.
fn take_read(
    got: Result<usize, Failed>,
    chunk: &[u8],
    kept: &mut [u8],
    at: usize,
) -> Result<usize, Failed>
    requires { IfOk got (λ n. n ≤ length chunk.now) }
    ensures answer { result ≡ got }
    ensures kept { kept.new ≡ K.kept_after kept.old at chunk.now got }
{
    let count = got?;
    keep(&chunk[..count], kept, at);
    Ok(count)
}

// Reads once, and answers how many bytes came.
fn read_some<S: Read>(
    rt: &HostRuntime,
    reader: &mut S,
    name: &[u8],
    kept: &mut [u8],
    at: usize,
) -> Result<usize, Failed>
    ensures few { IfOk result (λ n. n ≤ 4096) }
    ensures brings { K.Brings kept.old at kept.new result }
{
    let mut chunk = [0u8; CHUNK];
    let got = read_chunk(rt, reader, name, &mut chunk);
    take_read(got, &chunk, kept, at)
}

// Reads to the end of the file, and answers how many bytes it has.
#[tactic(auto, using(crate::proofs::Chunks::more_kept))]
fn read_bytes<S: Read>(
    rt: &HostRuntime,
    reader: &mut S,
    name: &[u8],
    kept: &mut [u8],
) -> Result<usize, Failed>
    ensures { IfOk result (λ bytes. K.Keeps kept.old kept.new bytes) }
{
    let mut bytes = 0;
    while bytes < MOST {
        let count = read_some(rt, reader, name, kept, bytes)?;
        if count == 0 {
            break;
        }
        bytes += count;
    }
    Ok(bytes)
}

// What is read of a file of so many bytes, by those of them that were kept; nothing of a file whose reading failed.
#[tactic(auto, using(crate::proofs::Chunks::words_put, crate::proofs::Room::put_first))]
fn input_from(bytes: &[u8], size: Result<usize, Failed>) -> Result<Input, Failed>
    requires { length bytes.now ≡ R.kept_bytes }
    ensures { result ≡ K.input_from bytes.now size }
{
    let size = size?;
    let mut words = [0u32; KEPT_WORDS];
    let n = size.min(KEPT_BYTES);
    let kept = files::words_of(&bytes[..n], &mut words);
    Ok(Input {
        words,
        kept,
        bytes: size,
    })
}

// Reads words to the end of a reader. A read that fails is said on standard error, by the reader's name.
#[tactic(auto, using(crate::proofs::Chunks::all_read))]
pub fn read_words<S: Read>(rt: &HostRuntime, reader: &mut S, name: &[u8]) -> Result<Input, Failed>
    ensures { R.Read result }
{
    let mut bytes = [0u8; KEPT_BYTES];
    let size = read_bytes(rt, reader, name, &mut bytes);
    input_from(&bytes, size)
}

// Opens a file in the given way. Its name is text.
pub fn open_by<F: FnOnce(&str) -> Result<File, Error>>(path: &[u8], way: F) -> Result<File, Error>
    requires { F.IsAlwaysCallable way }
{
    match str::from_utf8(path) {
        Ok(name) => way(name),
        Err(_) => Err(Error::from(ErrorKind::InvalidFilename)),
    }
}

// Opens a file for reading.
pub fn open(rt: &HostRuntime, path: &[u8]) -> Result<File, Error> {
    open_by(path, |name| File::open(rt, name))
}

// Reads the file that an argument names, or says why it cannot.
pub fn read_file(rt: &HostRuntime, argument: usize) -> Result<Input, Failed>
    ensures { R.Read result }
{
    let argument = Argument::at(rt, argument);
    let path = argument.as_bytes();
    let mut file = open(rt, path).map_err(|why| console::said(rt, path, why))?;
    read_words(rt, &mut file, path)
}
