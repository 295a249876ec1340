// The words of a job or a mapping one after another, up to the first refusal: document 01, "word by word, 2 to 6 in each".
#![tactic(auto)]

ghost use Rattle.std.specs.Prelude.{◌≡◌, ◌≤◌, length};
ghost use Rattle.sequence.specs.Limits.{most_job_words};
ghost use Rattle.grammar.specs.Reading as R;

use sequence::{File, State};
use words::Refusal;

// Word by word: the state after the last one, or the first refusal.
#[tactic(auto, using(grammar::proofs::Turns::turns))]
pub fn read_words(file: File, words: &[u32]) -> Result<State, Refusal>
    requires { length words.now ≤ most_job_words }
    ensures { result ≡ R.reading file R.beginning 0 words.now }
{
    let mut s = State {
        last: None,
        sources: 0,
        targets: 0,
        rules: 0,
        bindings: 0,
    };
    for (place, word) in words.iter().enumerate() {
        match grammar::pass(file, s, *word) {
            Ok(next) => s = next,
            Err(fault) => return Err(Refusal { fault, place }),
        }
    }
    Ok(s)
}
