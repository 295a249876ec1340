// The pricer: the glue count of a mapping that fits its job. Document 01, "Glue count".
#![tactic(auto)]

ghost use Rattle.std.specs.Prelude.{◌≡◌};
ghost use Rattle.glue.specs.Glue.{glue};
ghost use Rattle.table.specs.Parts as T;
ghost use Rattle.pricer.specs.Pricing as P;

use fitting::{Pair, PairError};
use table::Terms;

// The glue count of bindings under the terms of a job.
#[tactic(auto, using(tally::proofs::Joining::price_is_glue))]
pub fn glue_of(terms: &Terms, bindings: &[u32]) -> u32
    ensures { result ≡ glue terms.now.width.n terms.now.prices bindings.now }
{
    let used = usage::joined(bindings);
    tally::price(used, terms.width, terms.prices)
}

// A mapping that was read is priced under the job that was read with it.
fn price_under(pair: &Pair) -> Result<u32, PairError>
    ensures { result ≡ P.priced_under (T.terms_held pair.now.terms) pair.now.mapping pair.now.bindings.now }
{
    pair.fits()?;
    Ok(glue_of(&pair.terms, pair.bindings))
}

// The glue count of a mapping's bindings; or the first refusal, of the job or of the mapping by itself, or of the mapping as the job's.
#[tactic(auto, unfolding(crate::specs::Pricing::pricing_of))]
pub fn price(job: &[u32], mapping: &[u32]) -> Result<u32, PairError>
    ensures { result ≡ P.pricing_of job.now mapping.now }
{
    let pair = Pair::read(job, mapping)?;
    price_under(&pair)
}
