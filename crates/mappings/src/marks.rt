// Random marks on a job's targets, and rules that are right of the targets as they are marked.
use crate::random::JobWords;
use accounts::reading::recipe_in;
use reference::trial::next;
use rulings::known::{for_negated, is_known_right};
use testing::kinds::{Kind, kind_of};
use testing::words::{MARK, at};

// A rule that is known to be right, rewritten where its target is negated; one time in four the other way round. Any other
// rule stays, since above width 4 it is to be known of a rule whether it is right.
fn fitted(job: &[u32], rule: u32, x: u64) -> u32 {
    let negated = recipe_in(job, rule).negated;
    if is_known_right(rule) & (negated ^ (x % 4 == 0)) {
        return for_negated(rule);
    }
    rule
}

// A target marked by a random bit, or a rule for targets that are marked.
fn marked(job: &[u32], word: u32, x: u64) -> u32 {
    match kind_of(word) {
        Some(Kind::Target) if x % 2 == 1 => word ^ MARK,
        Some(Kind::Rule) => fitted(job, word, x),
        _ => word,
    }
}

// Marks a job's targets, and then rewrites some of its rules, which stand behind them.
pub fn mark(words: &mut JobWords, random: u64) {
    let mut x = next(random);
    for i in 0..words.written().len() {
        let job = words.written();
        let word = marked(job, at(job, i), x >> 32);
        words.put(i, word);
        x = next(x);
    }
}
