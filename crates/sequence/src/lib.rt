// How many words of each kind a job and a mapping may have, and in which sequence: refusal 2, "Kind out of sequence or past its count".
#![tactic(auto)]

ghost use Rattle.std.specs.Prelude.{◌≡◌, eqb};
ghost use Rattle.words.specs.Kinds.{kind_number};
ghost use Rattle.sequence.specs.Sequence as S;

use words::WordKind;

// The most sources, targets and rules of a job, and the most bindings of a mapping.
pub const MOST_SOURCES: usize = 27;

pub const MOST_TARGETS: usize = 27;

pub const MOST_RULES: usize = 512;

pub const MOST_BINDINGS: usize = 27;

// The most words of a job and of a mapping.
pub const MOST_JOB_WORDS: usize = 568;

pub const MOST_MAPPING_WORDS: usize = 29;

// What the words are read as.
#[derive(Clone, Copy)]
pub enum File {
    AsJob,
    AsMapping,
}

// The last word of a file so far: its kind, and the function by which it rises.
#[derive(Clone, Copy)]
pub struct Last {
    pub kind: WordKind,
    pub function: u32,
}

// What the words so far have shown: the last word, and how many words of each kind there were.
#[derive(Clone, Copy)]
pub struct State {
    pub last: Option<Last>,
    pub sources: u32,
    pub targets: u32,
    pub rules: u32,
    pub bindings: u32,
}

impl State {
    // Whether the last word so far is of this kind.
    pub fn ends_in(self, kind: WordKind) -> bool
        ensures { result ≡ eqb (S.stage_of self) (kind_number kind) }
    {
        match self.last {
            Some(last) => last.kind == kind,
            None => false,
        }
    }
}

// May a word of this kind come next in a job?
#[tactic(auto, unfolding(crate::specs::Sequence::job_sequence))]
fn job_sequence(s: State, kind: WordKind) -> bool
    ensures { result ≡ S.job_sequence s (kind_number kind) }
{
    match kind {
        WordKind::Header => s.last.is_none(),
        WordKind::Prices => s.ends_in(WordKind::Header),
        WordKind::Source => {
            (s.ends_in(WordKind::Prices) | s.ends_in(WordKind::Source))
                & ((s.sources as usize) < MOST_SOURCES)
        }
        WordKind::Target => {
            (s.ends_in(WordKind::Source) | s.ends_in(WordKind::Target))
                & ((s.targets as usize) < MOST_TARGETS)
        }
        WordKind::Rule => {
            (s.ends_in(WordKind::Source) | s.ends_in(WordKind::Target) | s.ends_in(WordKind::Rule))
                & ((s.rules as usize) < MOST_RULES)
        }
        WordKind::Binding | WordKind::Glue => false,
    }
}

// May a word of this kind come next in a mapping?
// Kept: two functions, as document 01 has a sequence for each file. One with the file in each arm would be no plainer.
#[tactic(auto, unfolding(crate::specs::Sequence::mapping_sequence))]
fn mapping_sequence(s: State, kind: WordKind) -> bool
    ensures { result ≡ S.mapping_sequence s (kind_number kind) }
{
    match kind {
        WordKind::Header => s.last.is_none(),
        WordKind::Binding => {
            (s.ends_in(WordKind::Header) | s.ends_in(WordKind::Binding))
                & ((s.bindings as usize) < MOST_BINDINGS)
        }
        WordKind::Glue => s.ends_in(WordKind::Header) | s.ends_in(WordKind::Binding),
        _ => false,
    }
}

// May a word of this kind come next?
#[tactic(auto, unfolding(crate::specs::Sequence::in_sequence))]
pub fn may_come(file: File, s: State, kind: WordKind) -> bool
    ensures { result ≡ S.in_sequence file s (kind_number kind) }
{
    match file {
        File::AsJob => job_sequence(s, kind),
        File::AsMapping => mapping_sequence(s, kind),
    }
}

// May a word whose kind has this number come next? Of a number that is no kind's, never.
#[tactic(auto, using(crate::proofs::Numbers::named_word, crate::proofs::Numbers::unnamed_word))]
pub fn in_sequence(file: File, s: State, kind: u32) -> bool
    ensures { result ≡ S.in_sequence file s kind }
{
    match WordKind::try_from(kind) {
        Ok(kind) => may_come(file, s, kind),
        Err(_) => false,
    }
}
