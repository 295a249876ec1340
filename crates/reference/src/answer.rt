// Answers as the tests compare them: a library's answer is turned into one of these once, and then compared by ==.

// What a refusal is about: a bare word, a job by itself, a mapping by itself, or a mapping as a job's.
#[derive(Clone, Copy, PartialEq, Eq)]
pub enum Subject {
    Word,
    Job,
    Mapping,
    Both,
}

// A refusal's number and place, as document 01 has them.
// Kept: the number, as document 01 speaks of refusals: it is what is compared, and an enum of the second account would be turned into it at
// once.
#[derive(Clone, Copy, PartialEq, Eq)]
pub struct Refusal {
    pub subject: Subject,
    pub number: u32,
    pub place: usize,
    // False of a refusal 10 whose operands do not show that the recipe is wrong, so that it equals none that is expected.
    pub shown: bool,
}

pub fn refused(subject: Subject, number: u32, place: usize) -> Refusal {
    Refusal {
        subject,
        number,
        place,
        shown: true,
    }
}

// Refusal 10, its place the function. The operands are the program's choice, so all that is kept of them is whether they show it.
pub fn wrong(subject: Subject, function: u32, shown: bool) -> Refusal {
    Refusal {
        subject,
        number: 10,
        place: function as usize,
        shown,
    }
}

// What is given where nothing is refused: nothing, a glue count, or so many words.
#[derive(Clone, Copy, PartialEq, Eq)]
pub enum Given {
    Nothing,
    Count(u64),
    Words(usize),
}

pub type Answer = Result<Given, Refusal>;
