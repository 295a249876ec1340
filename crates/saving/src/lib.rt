// A mapping's words written to a file that an argument names.
#![tactic(auto)]

ghost use Rattle.std.specs.Prelude.{◌≡◌, ◌+◌, ◌*◌, ◌≤◌, ◌++◌, length};
ghost use Rattle.files.specs.Files as F;
ghost use Rattle.sequence.specs.Limits.{most_mapping_words};

use arguments::Argument;
use std::fs::File;
use std::io::{Error, Write};
use text::{Said, Text};

// The bytes of a mapping's file.
#[tactic(auto, using(crate::proofs::Filed::one_filed, crate::proofs::Filed::all_filed, std::proofs::lemmas::Grind::common_steps))]
fn put_file<const ROOM: usize>(words: &[u32], file: &mut Text<ROOM>)
    requires { length file.old + 4 * length words.now ≤ ROOM }
    ensures { file.new ≡ file.old ++ F.file_of words.now }
{
    for word in words {
        file.put(&files::bytes_of(*word));
    }
}

// Writes bytes to the file of a name, which is empty before.
fn write_file(rt: &HostRuntime, path: &[u8], bytes: &[u8]) -> Result<(), Error> {
    let mut file = input::open_by(path, |name| File::create(rt, name))?;
    file.write_all(bytes)
}

// Writes bytes to the file, or says why it cannot.
fn save_bytes(rt: &HostRuntime, argument: usize, bytes: &[u8]) {
    let argument = Argument::at(rt, argument);
    let path = argument.as_bytes();
    if let Err(why) = write_file(rt, path, bytes) {
        console::fail(rt, path, why);
    }
}

// Saves a mapping's words.
pub fn save(rt: &HostRuntime, argument: usize, words: &[u32])
    requires { length words.now ≤ most_mapping_words }
{
    let mut file = Said::new();
    put_file(words, &mut file);
    save_bytes(rt, argument, file.as_bytes());
}
