// A mapper: for each source it goes from the last rule back to the first, puts each usable rule behind the bindings so far, and counts
// the glue of that list anew. The book, whose words are handed in, stands behind the job's own rules where the job asks for it. At widths
// to 4 a rule is tried at all operands. Above them, of a plain target, it is right if it is known to be, so that jobs of these widths may
// hold only rules of which it is known whether they are right; those of the book are right at every width. Of a negated one it is tried.
use crate::checking::{Pair, has_word};
use crate::known::is_known_right;
use accounts::reading::{function, read_job, recipe_in, width_of};
use reference::answer::{Refusal, Subject, refused};
use reference::recipe::fields_of;
use reference::trial::is_right;
use testing::kinds::{Kind, kind_of};
use testing::words::{Words, at, content, glue_word};

// No mapping has more words.
pub type Mapping = Words<29>;

// Whether a source can be bound by a rule.
fn is_usable(job: &[u32], rule: u32, of_book: bool, source: u32) -> bool {
    if (kind_of(rule) != Some(Kind::Rule)) | (function(rule) != source) {
        return false;
    }
    let target = fields_of(rule).target;
    if (target != 0) & !has_word(job, Kind::Target, target) {
        return false;
    }
    let n = width_of(job);
    let recipe = recipe_in(job, rule);
    if (n < 5) | recipe.negated {
        is_right(recipe, n)
    } else {
        of_book | is_known_right(rule)
    }
}

// The glue of a mapping that has no glue count yet.
fn glue_of(job: &[u32], bound: Mapping) -> u64 {
    let mut words = bound;
    words.push(glue_word(0));
    let mapping = words.written();
    Pair { job, mapping }.glue_count()
}

fn glue_with(job: &[u32], bound: Mapping, rule: u32) -> u64 {
    let mut words = bound;
    words.push(rule);
    glue_of(job, words)
}

// The rule with the least glue, of several the earliest, which comes last here.
fn best_rule(job: &[u32], book: &[u32], bound: Mapping, source: u32) -> Option<u32> {
    let own_rules = job.iter().map(|rule| (*rule, false));
    let book_rules = book.iter().map(|rule| (*rule, true));
    let mut best = None;
    for (rule, of_book) in own_rules.chain(book_rules).rev() {
        if is_usable(job, rule, of_book, source) {
            let glue = glue_with(job, bound, rule);
            best = match best {
                Some((_, least)) if least < glue => best,
                _ => Some((rule, glue)),
            };
        }
    }
    best.map(|(rule, _)| rule)
}

// The header of a mapping and a binding for each source, to before an index; or the source for which there is no usable rule.
fn bound_by_best(job: &[u32], book: &[u32], end: usize) -> Result<Mapping, u32> {
    let mut words = Words::empty();
    words.push(Kind::Header.word(width_of(job)));
    for i in 1..end {
        let source = content(at(job, i + 1));
        let rule = best_rule(job, book, words, source).ok_or(source)?;
        words.push(Kind::Binding.word(content(rule)));
    }
    Ok(words)
}

// What a mapper that has a book answers with so many words lent.
pub fn map(job: &[u32], book: &[u32], lent: usize) -> Result<Mapping, Refusal> {
    let facts = read_job(job)?;
    let last = facts.sources as usize + 1;
    let asked = if facts.book { book } else { &book[..0] };
    let mut words = bound_by_best(job, asked, last).map_err(|source| refused(
        Subject::Job,
        12,
        source as usize,
    ))?;
    let size = last + 1;
    if lent < size {
        return Err(refused(Subject::Job, 23, size));
    }
    let glue = glue_of(job, words);
    words.push(glue_word(glue));
    Ok(words)
}
