// Whether the bindings of a mapping are right: refusal 10.
#![tactic(auto)]

ghost use Rattle.table.specs.Parts as T;
ghost use Rattle.rightness.specs.FirstWrong as W;

use table::Terms;
use verdict::Verdict;

// The verdict on the first binding that is wrong, or Right.
#[tactic(auto, using(crate::proofs::Judging::a_wrong_one, crate::proofs::Judging::next_binding, crate::proofs::Judging::all_right))]
pub fn first_wrong(terms: &Terms, bindings: &[u32]) -> Verdict
    ensures { W.SaysOfAll (T.terms_held terms.now) bindings.now result }
{
    for word in bindings {
        let verdict = claims::verdict_on(terms, *word);
        let Verdict::Right = verdict else {
            return verdict;
        };
    }
    Verdict::Right
}
