// One word: refusals 2 to 6 in this order, or the state after it.
ghost use Rattle.std.specs.Prelude.{◌≡◌, ◌≤◌};
ghost use Rattle.sequence.specs.Limits.{most_job_words};
ghost use Rattle.grammar.specs.Reading as R;
ghost use Rattle.grammar.specs.Asked as Q;

use sequence::{File, Last, State, may_come};
use words::{Fault, Word, WordKind, content_of};

// What a header must be: a width, and in a job bit 7 besides, which asks for the book.
fn header_fits(file: File, word: u32) -> bool
    ensures { result ≡ R.header_fits file word }
{
    match file {
        File::AsJob => (content_of(word) < 0x100) & alu::is_width(word & 0x7f),
        File::AsMapping => alu::is_width(content_of(word)),
    }
}

// What a target word must be: a function, and bit 5 besides, which marks it.
fn target_fits(word: u32) -> bool
    ensures { result ≡ R.target_fits word }
{
    (content_of(word) < 0x40) & alu::is_function(words::target_function(word))
}

// What stands below a word's kind is as the layout says.
#[tactic(auto, unfolding(crate::specs::Reading::fits))]
fn kind_fits(file: File, word: Word) -> bool
    ensures { result ≡ R.fits file word.bits }
{
    let content = content_of(word.bits);
    match word.kind {
        WordKind::Header => header_fits(file, word.bits),
        WordKind::Prices => content < 0x0100_0000,
        WordKind::Source => alu::is_function(content),
        WordKind::Target => target_fits(word.bits),
        WordKind::Glue => true,
        WordKind::Rule => layout::laid_out(word.bits),
        WordKind::Binding => layout::laid_out(word.bits),
    }
}

// Refusal 3 unless this holds: the bits below the kind are as the layout says.
#[tactic(auto, unfolding(crate::specs::Reading::fits))]
pub fn fits(file: File, word: u32) -> bool
    ensures { result ≡ R.fits file word }
{
    match Word::try_from(word) {
        Ok(word) => kind_fits(file, word),
        Err(_) => layout::laid_out(word),
    }
}

// The function by which a word rises.
fn function_in(word: Word) -> u32
    ensures { result ≡ R.function_in word.bits }
{
    match word.kind {
        WordKind::Source => words::source_function(word.bits),
        WordKind::Target => words::target_function(word.bits),
        _ => recipe::source_of(word.bits),
    }
}

// Refusal 4 unless this holds: the function is above the one before, of a word of the same kind. Rules need no order.
#[tactic(auto, using(crate::proofs::Steps::not_at_start), unfolding(crate::specs::Reading::rises))]
fn rises(s: State, word: Word) -> bool
    ensures { result ≡ R.rises s word.bits }
{
    let Some(last) = s.last else {
        return true;
    };
    match word.kind {
        WordKind::Rule => true,
        _ if s.ends_in(word.kind) => last.function < function_in(word),
        _ => true,
    }
}

// The refusal of a word, 2 to 6, or none.
#[tactic(auto, unfolding(crate::specs::Reading::word_fault))]
fn word_fault(file: File, s: State, word: Word) -> Option<Fault>
    ensures { result ≡ R.word_fault file s word.bits }
{
    if !may_come(file, s, word.kind) {
        return Some(Fault::OutOfSequence);
    }
    if !kind_fits(file, word) {
        return Some(Fault::NotLaidOut);
    }
    if !rises(s, word) {
        return Some(Fault::NotRising);
    }
    if !word.kind.is_recipe() {
        return None;
    }
    layout::output_fault(word.bits)
}

fn raised(count: u32, more: bool) -> u32
    requires { count ≤ most_job_words }
    ensures { result ≡ R.raised count more }
{
    count + u32::from(more)
}

// The state after a word that passed.
fn after(s: State, word: Word) -> State
    requires { Q.Counted s most_job_words }
    ensures { result ≡ R.after s word.bits }
{
    let kind = word.kind;
    let function = function_in(word);
    State {
        last: Some(Last { kind, function }),
        sources: raised(s.sources, kind == WordKind::Source),
        targets: raised(s.targets, kind == WordKind::Target),
        rules: raised(s.rules, kind == WordKind::Rule),
        bindings: raised(s.bindings, kind == WordKind::Binding),
    }
}

// The next state, or why the word is refused.
// Kept: three functions ask that no count is large. A count is at most the words before, which grows by one a word; a type has one bound.
#[tactic(auto, using(crate::proofs::Steps::no_step))]
pub fn pass(file: File, s: State, word: u32) -> Result<State, Fault>
    requires { Q.Counted s most_job_words }
    ensures { result ≡ R.step_of file s word }
{
    let Ok(word) = Word::try_from(word) else {
        return Err(Fault::OutOfSequence);
    };
    match word_fault(file, s, word) {
        None => Ok(after(s, word)),
        Some(fault) => Err(fault),
    }
}
