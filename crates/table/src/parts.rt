// The parts of a job's and a mapping's words.
ghost use Rattle.std.specs.Prelude.{◌≡◌};
ghost use Rattle.reader.specs.Job as J;
ghost use Rattle.reader.specs.Mapping as M;
ghost use Rattle.table.specs.Parts as P;

use crate::Terms;
use bits::Width;
use reader::{Job, Mapping};

// A job that was read, with its words.
#[derive(Clone, Copy)]
pub struct JobWords<'a> {
    pub words: &'a [u32],
    pub job: Job,
    pub ghost well_formed: { J.WellFormedJob words.now job },
}

impl<'a> JobWords<'a> {
    // The terms of the job.
    #[tactic(auto, using(crate::proofs::Slices::width_there, crate::proofs::Slices::terms_there))]
    pub fn terms(&self) -> Terms<'a>
        ensures { P.terms_held result ≡ P.terms_of self.now.words.now self.now.job }
    {
        let job = self.job;
        let start = reader::SOURCES_START;
        let targets_start = reader::targets_start(job);
        let rules_start = reader::rules_start(job);
        Terms {
            width: Width { n: job.width },
            prices: job.prices,
            sources: &self.words[start..targets_start],
            targets: &self.words[targets_start..rules_start],
        }
    }

    // Its rules: the part that begins after its tables.
    #[tactic(auto, using(crate::proofs::Slices::rules_part))]
    pub fn rules(&self) -> &'a [u32]
        ensures { result.now ≡ P.rules_of self.now.words.now self.now.job }
    {
        let start = reader::rules_start(self.job);
        &self.words[start..]
    }
}

// A mapping that was read, with its words.
#[derive(Clone, Copy)]
pub struct MappingWords<'a> {
    pub words: &'a [u32],
    pub mapping: Mapping,
    pub ghost well_formed: { M.WellFormedMapping words.now mapping },
}

impl<'a> MappingWords<'a> {
    // Its bindings: the part before its glue word.
    pub fn bindings(&self) -> &'a [u32]
        ensures { result.now ≡ P.bindings_of self.now.words.now self.now.mapping }
    {
        let start = reader::BINDINGS_START;
        let end = start + self.mapping.bindings as usize;
        &self.words[start..end]
    }
}
