// Tables that a job could hold, and what is asked of them without a test.
ghost use Rattle.std.specs.Prelude.{◌≡◌, true};
ghost use Rattle.table.specs.Parts as T;
ghost use Rattle.soundness.specs.Sound as S;

use crate::{InRange, Tables};
use sequence::MOST_SOURCES;
use table::Terms;

// Tables that a job could hold.
#[derive(Clone, Copy)]
pub struct SoundTables {
    pub tables: Tables,
    pub ghost sound: { S.tables_sound tables ≡ true },
}

impl SoundTables {
    // The terms of the job.
    #[tactic(auto, using(crate::proofs::Soundness::in_range))]
    pub fn terms(&self) -> Terms<'_>
        ensures { T.terms_held result ≡ S.terms_on self.now.tables }
    {
        let in_range = InRange {
            tables: &self.tables,
        };
        in_range.terms()
    }
}

// Sound tables, and what is bound to their sources.
#[derive(Clone, Copy)]
pub struct BoundTables {
    pub tables: SoundTables,
    pub bound: [u32; MOST_SOURCES],
}
