// A job and a mapping that are read together, and whether the mapping fits the job: refusals 1 to 6 of either, then 7 and 8.
#![tactic(auto)]

ghost use Rattle.std.specs.Prelude.{◌≡◌};
ghost use Rattle.reader.specs.Starts.{bindings_start};
ghost use Rattle.table.specs.Parts as T;
ghost use Rattle.fitting.specs.Pair as P;
ghost use Rattle.fitting.specs.Pairing as Q;
ghost use Rattle.fitting.specs.Fitting as F;
ghost use Rattle.fitting.specs.declared.PairError.TheVariants.{Refused};

use reader::{Job, Mapping};
use table::{JobWords, MappingWords, Terms};
use words::{Fault, Refusal};

// A refusal of a job and a mapping handed in together: 1 to 6 of the one or of the other, or a later one, which speaks of both.
#[derive(Clone, Copy)]
pub enum PairError {
    JobRefused(Refusal),
    MappingRefused(Refusal),
    Refused(Refusal),
}

impl From<Refusal> for PairError {
    ghost from_gives = { λ refusal error. error ≡ Refused refusal };

    fn from(refusal: Refusal) -> PairError {
        PairError::Refused(refusal)
    }
}

// A job and a mapping, or the first refusal, 1 to 6. The job is read in full before the mapping.
#[tactic(auto, unfolding(crate::specs::Pair::pair_of))]
pub fn read_pair(job: &[u32], mapping: &[u32]) -> Result<(Job, Mapping), PairError>
    ensures { result ≡ P.pair_of job.now mapping.now }
{
    let facts = reader::read_job(job).map_err(PairError::JobRefused)?;
    let binds = reader::read_mapping(mapping).map_err(PairError::MappingRefused)?;
    Ok((facts, binds))
}

// A mapping that was read, with its bindings, under the terms of the job that was read with it.
#[derive(Clone, Copy)]
pub struct Pair<'a> {
    pub terms: Terms<'a>,
    pub mapping: Mapping,
    pub bindings: &'a [u32],
}

impl<'a> Pair<'a> {
    // Reads the words of a job and of a mapping, or gives the first refusal, 1 to 6.
    #[tactic(auto, using(crate::proofs::Pairs::job_read, crate::proofs::Pairs::mapping_read))]
    pub fn read(job: &'a [u32], mapping: &'a [u32]) -> Result<Pair<'a>, PairError>
        ensures { Q.held_of result ≡ Q.pairing_of job.now mapping.now }
    {
        let (facts, binds) = read_pair(job, mapping)?;
        let job_words = JobWords {
            words: job,
            job: facts,
        };
        let mapping_words = MappingWords {
            words: mapping,
            mapping: binds,
        };
        Ok(Pair {
            terms: job_words.terms(),
            mapping: binds,
            bindings: mapping_words.bindings(),
        })
    }

    // Whether the mapping fits the job, or the first refusal, 7 or 8.
    #[tactic(auto, unfolding(crate::specs::Fitting::fit_of))]
    pub fn fits(&self) -> Result<(), Refusal>
        ensures { result ≡ F.fit_of (T.terms_held self.now.terms) self.now.mapping self.now.bindings.now }
    {
        let terms = &self.terms;
        fit_at_width(
            terms.width.n,
            terms.sources,
            terms.targets,
            self.mapping,
            self.bindings,
        )
    }
}

// Whether the functions of all bindings are in the job.
#[tactic(auto, using(crate::proofs::Fitted::next_binding, crate::proofs::Fitted::none_strange))]
fn all_in_job(sources: &[u32], targets: &[u32], bindings: &[u32]) -> Result<(), Refusal>
    ensures { result ≡ F.all_in_job sources.now targets.now bindings_start bindings.now }
{
    for (i, binding) in bindings.iter().enumerate() {
        if !table::in_job(sources, targets, *binding) {
            return Err(Refusal {
                fault: Fault::NotInJob,
                place: reader::BINDINGS_START + i,
            });
        }
    }
    Ok(())
}

// Whether a mapping fits a job of this width, with these tables: the width first, then the bindings.
fn fit_at_width(
    width: u32,
    sources: &[u32],
    targets: &[u32],
    mapping: Mapping,
    bindings: &[u32],
) -> Result<(), Refusal>
    ensures { result ≡ F.fit_at_width width sources.now targets.now mapping bindings.now }
{
    if width != mapping.width {
        return Err(Refusal {
            fault: Fault::OtherWidth,
            place: 0,
        });
    }
    all_in_job(sources, targets, bindings)
}

// Whether a mapping fits its job, or the first refusal, 7 or 8. The job may be of any width.
#[tactic(auto, unfolding(crate::specs::Fitting::fit_of))]
pub fn fit_of(
    job: Job,
    sources: &[u32],
    targets: &[u32],
    mapping: Mapping,
    bindings: &[u32],
) -> Result<(), Refusal>
    ensures { result ≡ F.fit_of (T.terms_with job sources.now targets.now) mapping bindings.now }
{
    fit_at_width(job.width, sources, targets, mapping, bindings)
}
