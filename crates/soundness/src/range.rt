// Tables whose numbers are in range, and what is asked of them without a test.
ghost use Rattle.std.specs.Prelude.{◌≡◌, ◌≤◌};
ghost use Rattle.bits.specs.Asked as Q;
ghost use Rattle.sequence.specs.Limits.{most_sources, most_targets};
ghost use Rattle.table.specs.Parts as T;
ghost use Rattle.soundness.specs.Sound as S;

use crate::Tables;
use bits::Width;
use table::Terms;

// Tables of a width from 1 to 64, with no more words than a job's tables hold.
#[derive(Clone, Copy)]
pub struct InRange<'a> {
    pub tables: &'a Tables,
    pub ghost is_width: { Q.Width tables.now.width },
    pub ghost few_sources: { tables.now.nsources ≤ most_sources },
    pub ghost few_targets: { tables.now.ntargets ≤ most_targets },
}

impl<'a> InRange<'a> {
    // The terms of the job.
    pub fn terms(&self) -> Terms<'a>
        ensures { T.terms_held result ≡ S.terms_on self.now.tables.now }
    {
        let tables = self.tables;
        Terms {
            width: Width { n: tables.width },
            prices: tables.prices,
            sources: &tables.sources[..tables.nsources as usize],
            targets: &tables.targets[..tables.ntargets as usize],
        }
    }
}
