// A reader of jobs and mappings: a table of which kind may follow which, a count of the words of the same kind before, and the
// recipes' refusals.
use reference::answer::{Refusal, Subject, refused};
use reference::recipe::{Recipe, fields_of};
use reference::refusal::recipe_fits;
use testing::kinds::{Kind, kind_of};
use testing::words::{at, content};

// What the words of a job hold: the width, the prices of an inverter, a gate and a multiplexer, the numbers of sources, targets and rules,
// and whether the book is asked for.
// Kept: this and the two below are like those of the library, since the second account stands on no crate that it is compared with.
#[derive(Clone, Copy, PartialEq, Eq)]
pub struct JobFacts {
    pub width: u32,
    pub inverter: u32,
    pub gate: u32,
    pub multiplexer: u32,
    pub sources: u32,
    pub targets: u32,
    pub rules: u32,
    pub book: bool,
}

// What the words of a mapping hold: the width, the number of bindings and the glue count.
#[derive(Clone, Copy, PartialEq, Eq)]
pub struct MappingFacts {
    pub width: u32,
    pub bindings: u32,
    pub glue: u32,
}

// The two kinds of files.
#[derive(Clone, Copy, PartialEq, Eq)]
pub enum File {
    Job,
    Mapping,
}

// The function of a source or target word, or of a recipe's source. A target's mark stands above its function.
pub fn function(word: u32) -> u32 {
    match kind_of(word) {
        Some(Kind::Rule | Kind::Binding) => fields_of(word).source,
        Some(Kind::Target) => word % 32,
        _ => content(word),
    }
}

// The index of the word of a kind for a function.
pub fn index_of(words: &[u32], of: Kind, function_sought: u32) -> Option<usize> {
    words.iter().position(|word| (kind_of(*word) == Some(of))
        & (function(*word) == function_sought))
}

// A recipe whose target is negated where one of these words says so.
pub fn recipe_in(words: &[u32], word: u32) -> Recipe {
    let marked = match index_of(words, Kind::Target, fields_of(word).target) {
        Some(index) => at(words, index) / 32 % 2,
        None => 0,
    };
    Recipe {
        word,
        negated: marked == 1,
    }
}

// The width in the header of a file, without the bit above it that asks for the book.
pub fn width_of(words: &[u32]) -> u32 {
    at(words, 0) % 128
}

// Whether a kind may stand behind that of the word before, or first. Prices, sources, targets and rules stand in jobs only, bindings and a glue
// count in mappings only.
fn follows(file: File, before: Option<Kind>, kind: Kind) -> bool {
    use Kind::{Binding, Glue, Header, Prices, Rule, Source, Target};
    match before {
        None => kind == Header,
        Some(Header) => match file {
            File::Job => kind == Prices,
            File::Mapping => (kind == Binding) | (kind == Glue),
        },
        Some(Prices) => kind == Source,
        Some(Source) => (kind == Source) | (kind == Target) | (kind == Rule),
        Some(Target) => (kind == Target) | (kind == Rule),
        Some(Rule) => kind == Rule,
        Some(Binding) => (kind == Binding) | (kind == Glue),
        Some(Glue) => false,
    }
}

// How many words are of a kind.
fn count_of(words: &[u32], of: Kind) -> u32 {
    let count = words
        .iter()
        .filter(|word| kind_of(**word) == Some(of))
        .count();
    (count % 0x1_0000_0000) as u32
}

// 3 of a word of a kind, and 5 and 6 of a recipe. The header of a job has room for one bit above the width, that of a mapping has not.
fn content_fits(file: File, of: Kind, word: u32) -> Result<(), u32> {
    let rest = content(word);
    let room = match file {
        File::Job => 256,
        File::Mapping => 128,
    };
    let bad = match of {
        Kind::Header => (rest >= room) | (rest % 128 == 0) | (rest % 128 > 64),
        Kind::Prices => rest > 0xff_ffff,
        Kind::Source => (rest == 0) | (rest > 27),
        Kind::Target => (rest > 63) | (rest % 32 == 0) | (rest % 32 > 27),
        Kind::Rule | Kind::Binding => return recipe_fits(word),
        Kind::Glue => false,
    };
    if bad { Err(3) } else { Ok(()) }
}

// 2 to 6 of a word, by the words before it, which fit. Rules need not rise. A word of no kind may stand nowhere.
fn word_fits(file: File, before: &[u32], word: u32) -> Result<(), u32> {
    let last = before.last().copied().unwrap_or(0);
    let Some(of) = kind_of(word) else {
        return Err(2);
    };
    if !follows(file, kind_of(last), of) {
        return Err(2);
    }
    let most = if of == Kind::Rule { 512 } else { 27 };
    if count_of(before, of) >= most {
        return Err(2);
    }
    let fits = content_fits(file, of, word);
    if fits == Err(3) {
        return fits;
    }
    let again = kind_of(last) == Some(of);
    if again & (of != Kind::Rule) & (function(word) <= function(last)) {
        return Err(4);
    }
    fits
}

// Whether a file may end with a word of a kind: a job after a source at the earliest, a mapping with its glue count.
fn may_end(file: File, kind: Option<Kind>) -> bool {
    match (file, kind) {
        (File::Job, Some(Kind::Source | Kind::Target | Kind::Rule)) => true,
        (File::Mapping, Some(Kind::Glue)) => true,
        _ => false,
    }
}

// The first refusal of a file's words, 1 to 6, and its place.
fn is_well_formed(file: File, words: &[u32]) -> Result<(), (u32, usize)> {
    let size = words.len();
    let most = match file {
        File::Job => 568,
        File::Mapping => 29,
    };
    if (size == 0) | (size > most) {
        return Err((1, 0));
    }
    for (i, word) in words.iter().enumerate() {
        word_fits(file, &words[..i], *word).map_err(|number| (number, i))?;
    }
    if !may_end(file, kind_of(words[size - 1])) {
        return Err((2, size));
    }
    Ok(())
}

pub fn read_job(words: &[u32]) -> Result<JobFacts, Refusal> {
    is_well_formed(File::Job, words).map_err(|(number, place)| refused(
        Subject::Job,
        number,
        place,
    ))?;
    let prices = at(words, 1);
    Ok(JobFacts {
        width: width_of(words),
        inverter: prices / 0x1_0000 % 256,
        gate: prices / 256 % 256,
        multiplexer: prices % 256,
        sources: count_of(words, Kind::Source),
        targets: count_of(words, Kind::Target),
        rules: count_of(words, Kind::Rule),
        book: at(words, 0) / 128 % 2 == 1,
    })
}

pub fn read_mapping(words: &[u32]) -> Result<MappingFacts, Refusal> {
    is_well_formed(File::Mapping, words).map_err(|(number, place)| refused(
        Subject::Mapping,
        number,
        place,
    ))?;
    Ok(MappingFacts {
        width: width_of(words),
        bindings: count_of(words, Kind::Binding),
        glue: content(words.last().copied().unwrap_or(0)),
    })
}
