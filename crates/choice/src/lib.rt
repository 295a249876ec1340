// The choice of a rule for each source.
#![tactic(auto)]

ghost use Rattle.std.specs.Prelude.{◌≡◌, [], ◌++◌, ◌+◌, ◌<◌, ◌≤◌, length, get_or};
ghost use Rattle.sequence.specs.Limits.{most_sources};
ghost use Rattle.table.specs.Parts as T;
ghost use Rattle.choice.specs.Choose as C;
ghost use Rattle.choice.specs.Chosen as K;

use best::Best;
use sequence::MOST_SOURCES;
use table::Terms;

// A rule for each source in table order, and what they use.
// Kept: as many words as the job has sources, in an array, since no heap is a rule of the project.
#[derive(Clone, Copy)]
pub struct Chosen {
    pub words: [u32; MOST_SOURCES],
    pub used: u64,
}

// A rule by its index, where the book's stand behind the job's own.
fn rule_at(rules: &[u32], book: &[u32], index: usize) -> u32
    requires { index < length rules.now + length book.now }
    ensures { result ≡ get_or (rules.now ++ book.now) index 0 }
{
    if index < rules.len() {
        return rules[index];
    }
    book[index - rules.len()]
}

// "Sources are taken in order; each gets the usable rule that makes the glue of the bindings so far least, the earlier rule on equal
// glue." The loop over the sources is left from inside when a function proves unmappable, which is the error.
#[tactic(auto, using(crate::proofs::Choosing::next_rule, crate::proofs::Choosing::no_rule_left, crate::proofs::Choosing::none_used, crate::proofs::Choosing::source_bound, crate::proofs::Choosing::source_unmappable, crate::proofs::Choosing::all_sources))]
pub fn choose(terms: &Terms, rules: &[u32], book: &[u32]) -> Result<Chosen, u32>
    requires { (length terms.now.sources.now ≤ most_sources) × K.FewRules rules.now book.now }
    ensures { K.KeptChoice result (length terms.now.sources.now)
        (C.choose (T.terms_held terms.now) (rules.now ++ book.now) [] terms.now.sources.now) }
{
    let count = rules.len() + book.len();
    let mut bound = [0u32; MOST_SOURCES];
    let mut used: u64 = 0;
    let mut unmappable: Option<u32> = None;
    'sources: for (i, source) in terms.sources.iter().enumerate() {
        let function = words::source_function(*source);
        let mut best: Option<Best> = None;
        // Kept: document 01 names the form: "an inner loop over rules, left from inside when a function proves unmappable". A `for` over the
        // rules would end by itself, and the loop over the sources would be left behind it.
        let mut j = 0;
        let chosen = loop {
            if count <= j {
                match best {
                    Some(found) => break found,
                    None => {
                        unmappable = Some(function);
                        break 'sources;
                    }
                }
            }
            let rule = rule_at(rules, book, j);
            best = best::consider(best, rule, function, used, terms);
            j += 1;
        };
        bound[i] = chosen.word;
        used = used | usage::usage_of(chosen.word);
    }
    match unmappable {
        Some(function) => Err(function),
        None => Ok(Chosen { words: bound, used }),
    }
}
