// The terms of a job, the parts of a job and of a mapping, and what stands in a job's tables of source and target words.
#![tactic(auto)]

mod parts;
mod terms;

ghost use Rattle.std.specs.Prelude.{◌≡◌};
ghost use Rattle.table.specs.Table as T;

pub use parts::{JobWords, MappingWords};
pub use terms::Terms;

// Whether a recipe is from scratch or from a target of the job.
#[tactic(auto, unfolding(crate::specs::Table::has_target))]
pub fn has_target(targets: &[u32], word: u32) -> bool
    ensures { result ≡ T.has_target targets.now word }
{
    let target = recipe::target_of(word);
    recipe::from_scratch(word)
        || targets
            .iter()
            .any(|entry| words::target_function(*entry) == target)
}

// Whether the source and the target function of a recipe are in the job.
#[tactic(auto, unfolding(crate::specs::Table::in_job, crate::specs::Table::lists_source))]
pub fn in_job(sources: &[u32], targets: &[u32], word: u32) -> bool
    ensures { result ≡ T.in_job sources.now targets.now word }
{
    let source = recipe::source_of(word);
    sources
        .iter()
        .any(|entry| words::source_function(*entry) == source)
        && has_target(targets, word)
}

impl Terms<'_> {
    // Whether a recipe is from scratch or from a target of these terms.
    pub fn has_target(&self, word: u32) -> bool
        ensures { result ≡ T.has_target self.now.targets.now word }
    {
        has_target(self.targets, word)
    }

    // Whether a function is among the targets, negated.
    #[tactic(auto, unfolding(crate::specs::Table::lists_negated))]
    pub fn lists_negated(&self, function: u32) -> bool
        ensures { result ≡ T.lists_negated self.now.targets.now function }
    {
        self.targets.iter().any(|entry| {
            (words::target_function(*entry) == function) & words::target_negated(*entry)
        })
    }

    // Whether the source and the target function of a recipe are in these terms.
    pub fn in_job(&self, word: u32) -> bool
        ensures { result ≡ T.in_job self.now.sources.now self.now.targets.now word }
    {
        in_job(self.sources, self.targets, word)
    }
}
