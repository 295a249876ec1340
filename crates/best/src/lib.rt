// The best rule for a source: one rule more beside the best so far.
#![tactic(auto)]

ghost use Rattle.std.specs.Prelude.{◌≡◌};
ghost use Rattle.table.specs.Parts as T;
ghost use Rattle.best.specs.Best as C;
ghost use Rattle.best.specs.Beside as K;

use table::Terms;

// A rule for a source, and the glue that it makes with the bindings before it.
#[derive(Clone, Copy)]
pub struct Best {
    pub word: u32,
    pub total: u32,
}

// Whether a rule that makes this glue is better than the best so far, if there is one: only strictly less is.
#[tactic(auto, unfolding(crate::specs::Best::beats))]
fn beats(best: Option<Best>, total: u32) -> bool
    ensures { result ≡ C.beats best total }
{
    match best {
        None => true,
        Some(best) => total < best.total,
    }
}

// One rule more for a function, beside bindings that use a set. A rule is judged last, and only if it would make less glue.
#[tactic(auto, unfolding(crate::specs::Best::better, crate::specs::Best::serves, crate::specs::Best::usable))]
pub fn consider(
    best: Option<Best>,
    word: u32,
    function: u32,
    used: u64,
    terms: &Terms,
) -> Option<Best>
    ensures { result ≡ C.better (K.besides terms.now.width.n terms.now.prices used) (T.terms_held terms.now) function best word }
{
    if recipe::source_of(word) != function {
        return best;
    }
    if !terms.has_target(word) {
        return best;
    }
    let total = tally::price(used | usage::usage_of(word), terms.width, terms.prices);
    if !beats(best, total) {
        return best;
    }
    if !claims::is_right(terms, word) {
        return best;
    }
    Some(Best { word, total })
}
