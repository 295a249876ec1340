// A checker and a pricer of mappings.
use accounts::glue::{Costs, glue_count};
use accounts::reading::{function, index_of, read_job, read_mapping, recipe_in, width_of};
use reference::answer::{Refusal, Subject, refused, wrong};
use reference::recipe::fields_of;
use reference::trial::{Witness, bears_out, is_right};
use testing::kinds::{Kind, kind_of};
use testing::words::{at, bindings_of, content};

// Whether there is a word of a kind for a function.
pub fn has_word(words: &[u32], of: Kind, function_sought: u32) -> bool {
    index_of(words, of, function_sought).is_some()
}

// The words of a job and of a mapping that is judged beside it.
#[derive(Clone, Copy)]
pub struct Pair<'a> {
    pub job: &'a [u32],
    pub mapping: &'a [u32],
}

impl Pair<'_> {
    // Whether a word is a binding of or from a function that the job has not.
    fn is_stranger(&self, word: u32) -> bool {
        let fields = fields_of(word);
        let is_known = has_word(self.job, Kind::Source, fields.source)
            & ((fields.target == 0) | has_word(self.job, Kind::Target, fields.target));
        (kind_of(word) == Some(Kind::Binding)) & !is_known
    }

    // The lowest source that has no binding.
    fn lowest_unbound(&self) -> Option<u32> {
        (1..28).find(|f| has_word(self.job, Kind::Source, *f)
            & !has_word(self.mapping, Kind::Binding, *f))
    }

    // The glue count of the mapping's bindings at the job's width and prices.
    pub fn glue_count(&self) -> u64 {
        let n = width_of(self.job);
        let prices = at(self.job, 1);
        let inverter = prices / 0x1_0000 % 256;
        let gate = prices / 256 % 256;
        let multiplexer = prices % 256;
        let costs = Costs {
            n: n as u64,
            inverter: inverter as u64,
            gate: gate as u64,
            multiplexer: multiplexer as u64,
        };
        glue_count(bindings_of(self.mapping), costs)
    }

    // The lowest function whose binding is found wrong, by the job's targets as they are marked.
    fn first_found_wrong(&self) -> Option<u32> {
        let n = width_of(self.job);
        self.mapping
            .iter()
            .find(|word| (kind_of(**word) == Some(Kind::Binding))
                && !is_right(recipe_in(self.job, **word), n))
            .map(|word| function(*word))
    }

    // 1 to 8.
    fn before_pricing(&self) -> Result<(), Refusal> {
        let of_job = read_job(self.job)?;
        let own = read_mapping(self.mapping)?;
        if of_job.width != own.width {
            return Err(refused(Subject::Both, 7, 0));
        }
        if let Some(stranger) = self.mapping.iter().position(|word| self.is_stranger(*word)) {
            return Err(refused(Subject::Both, 8, stranger));
        }
        Ok(())
    }

    // What a pricer answers.
    pub fn price(&self) -> Result<u32, Refusal> {
        self.before_pricing()?;
        Ok((self.glue_count() % 0x1_0000_0000) as u32)
    }

    // 1 to 9.
    fn before_rightness(&self) -> Result<(), Refusal> {
        self.before_pricing()?;
        if let Some(unbound) = self.lowest_unbound() {
            return Err(refused(Subject::Both, 9, unbound as usize));
        }
        Ok(())
    }

    // What a checker answers, 10 as far as it is found.
    pub fn check(&self) -> Result<(), Refusal> {
        self.before_rightness()?;
        if let Some(function) = self.first_found_wrong() {
            return Err(wrong(Subject::Both, function, true));
        }
        let last = self.mapping.len().wrapping_sub(1);
        if self.glue_count() != content(at(self.mapping, last)) as u64 {
            return Err(refused(Subject::Both, 11, last));
        }
        Ok(())
    }

    // Whether refusal 10 is borne out: nothing comes before it, its witness shows that the function's binding is wrong, and no lower
    // function's binding is found wrong.
    pub fn wrong_is_borne_out(&self, witness: Witness) -> bool {
        let n = width_of(self.job);
        let Some(index) = index_of(self.mapping, Kind::Binding, witness.function) else {
            return false;
        };
        let is_lowest = match self.first_found_wrong() {
            Some(found) => witness.function <= found,
            None => true,
        };
        let recipe = recipe_in(self.job, at(self.mapping, index));
        self.before_rightness().is_ok() & bears_out(recipe, n, witness) & is_lowest
    }
}
