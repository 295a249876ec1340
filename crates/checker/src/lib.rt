// The checker: a job and a mapping are accepted, or refused by the first of 1 to 11 that holds. Document 01, "Refusals that come
// from the input".
#![tactic(auto)]

ghost use Rattle.std.specs.Prelude.{◌≡◌};
ghost use Rattle.table.specs.Parts as T;
ghost use Rattle.checker.specs.Check as C;
ghost use Rattle.checker.specs.declared.CheckError.TheVariants.{Refused};

use fitting::{Pair, PairError};
use verdict::Verdict;
use words::{Fault, Refusal, Witness};

// A refusal of the checker: the first, 1 to 6, of the job or of the mapping; another, 7, 8, 9 or 11; or 10, with its values.
// Kept: the three cases of `PairError` again. A case that holds one would have each caller take it apart in two steps; this way the three
// are turned once, below.
#[derive(Clone, Copy)]
pub enum CheckError {
    JobRefused(Refusal),
    MappingRefused(Refusal),
    Refused(Refusal),
    Wrong(Witness),
}

impl From<Refusal> for CheckError {
    ghost from_gives = { λ refusal error. error ≡ Refused refusal };

    fn from(refusal: Refusal) -> CheckError {
        CheckError::Refused(refusal)
    }
}

impl From<PairError> for CheckError {
    ghost from_gives = { λ refused error. error ≡ C.of_pair refused };

    fn from(refused: PairError) -> CheckError {
        match refused {
            PairError::JobRefused(refusal) => CheckError::JobRefused(refusal),
            PairError::MappingRefused(refusal) => CheckError::MappingRefused(refusal),
            PairError::Refused(refusal) => CheckError::Refused(refusal),
        }
    }
}

// Whether the glue word says what the glue of the bindings is. The tables of a job have no part in that.
#[tactic(auto, unfolding(crate::specs::Check::account_of))]
fn account(pair: &Pair) -> Result<(), CheckError>
    ensures { result ≡ C.account_of (T.terms_held pair.now.terms) pair.now.mapping pair.now.bindings.now }
{
    if pricer::glue_of(&pair.terms, pair.bindings) != pair.mapping.glue {
        return Err(CheckError::Refused(Refusal {
            fault: Fault::OtherGlue,
            place: reader::BINDINGS_START + pair.bindings.len(),
        }));
    }
    Ok(())
}

// A mapping that fits its job: is it complete, right and rightly priced?
#[tactic(auto, using(crate::proofs::Rulings::no_wrong, crate::proofs::Rulings::still_wrong), unfolding(crate::specs::Check::fitting_of))]
fn judge_fitting(pair: &Pair) -> Result<(), CheckError>
    ensures { C.CheckRuled (C.fitting_of (T.terms_held pair.now.terms) pair.now.mapping pair.now.bindings.now) result }
{
    if let Some(unbound) = completeness::first_unbound(pair.terms.sources, pair.bindings) {
        return Err(CheckError::Refused(Refusal {
            fault: Fault::Incomplete,
            place: unbound as usize,
        }));
    }
    let verdict = rightness::first_wrong(&pair.terms, pair.bindings);
    match verdict {
        Verdict::Wrong(witness) => Err(CheckError::Wrong(witness)),
        Verdict::Right => account(pair),
    }
}

// A mapping that was read is judged against the job that was read with it.
#[tactic(auto, unfolding(crate::specs::Check::judgement_of))]
fn judge_mapping(pair: &Pair) -> Result<(), CheckError>
    ensures { C.CheckRuled (C.judgement_of (T.terms_held pair.now.terms) pair.now.mapping pair.now.bindings.now) result }
{
    pair.fits()?;
    judge_fitting(pair)
}

// The words of a job and of a mapping.
#[tactic(auto, unfolding(crate::specs::Check::ruling_of))]
pub fn check(job: &[u32], mapping: &[u32]) -> Result<(), CheckError>
    ensures { C.Checks job.now mapping.now result }
{
    let pair = Pair::read(job, mapping)?;
    judge_mapping(&pair)
}
