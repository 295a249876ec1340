// What a rule or a binding claims under a job's tables, and the verdict on it.
#![tactic(auto)]

ghost use Rattle.std.specs.Prelude.{◌≡◌};
ghost use Rattle.binding.specs.Right as R;
ghost use Rattle.verdict.specs.Verdicts as D;
ghost use Rattle.claims.specs.Claim as C;

use binding::Claim;
use table::Terms;
use verdict::Verdict;

// The side and the recipe that are compared to judge a rule or a binding under these terms.
fn claim_in(terms: &Terms, word: u32) -> Claim
    ensures { result ≡ C.claim_in terms.now.sources.now terms.now.targets.now word }
{
    binding::claim_against(terms.lists_negated(recipe::target_of(word)), word)
}

// The verdict on a rule or a binding under these terms.
pub fn verdict_on(terms: &Terms, word: u32) -> Verdict
    ensures { D.Says (C.claim_in terms.now.sources.now terms.now.targets.now word) terms.now.width.n result }
{
    verdict::verdict_on(claim_in(terms, word), terms.width)
}

// Whether it is right.
pub fn is_right(terms: &Terms, word: u32) -> bool
    ensures { result ≡ R.is_right (C.claim_in terms.now.sources.now terms.now.targets.now word) terms.now.width.n }
{
    verdict::is_right(claim_in(terms, word), terms.width)
}
