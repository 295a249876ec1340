// Files that both readers accept, of the sizes asked for: functions rise from 1, recipes are of functions out of themselves.
use accounts::reading::File;
use testing::kinds::Kind;
use testing::words::{Words, word_of};

// No file of these tests has more words.
pub type FileWords = Words<600>;

// What a file is made with.
#[derive(Clone, Copy)]
pub enum Sizes {
    // How many sources, targets and rules, in the order of the file.
    JobOf(usize, usize, usize),
    // How many bindings.
    MappingOf(usize),
}

impl Sizes {
    pub fn file(self) -> File {
        match self {
            Sizes::JobOf(..) => File::Job,
            Sizes::MappingOf(_) => File::Mapping,
        }
    }
}

// So many words of a kind. Rules begin again after the last function.
fn push_entries(words: &mut FileWords, kind: Kind, count: usize) {
    for i in 0..count {
        let function = if kind == Kind::Rule {
            i % 27 + 1
        } else {
            i + 1
        };
        words.push(word_of(kind, (function % 0x1_0000_0000) as u32));
    }
}

// A job's words after its header.
fn push_job(words: &mut FileWords, sources: usize, targets: usize, rules: usize) {
    words.push(0x2001_0103);
    push_entries(words, Kind::Source, sources);
    push_entries(words, Kind::Target, targets);
    push_entries(words, Kind::Rule, rules);
}

fn push_mapping(words: &mut FileWords, bindings: usize) {
    push_entries(words, Kind::Binding, bindings);
    words.push(0x7000_0084);
}

pub fn plain(sizes: Sizes) -> FileWords {
    let mut words = Words::empty();
    words.push(0x1000_0010);
    match sizes {
        Sizes::JobOf(sources, targets, rules) => push_job(&mut words, sources, targets, rules),
        Sizes::MappingOf(bindings) => push_mapping(&mut words, bindings),
    }
    words
}
