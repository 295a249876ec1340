// The bench: a mapping put together by hand. Document 01, "Mapper and bench" and "Refusals that come from the state". A bench
// passes through each call by value and the next bench comes back, with the answer.
#![tactic(auto)]

mod faults;
mod sound;

ghost use Rattle.std.specs.Prelude.{◌≡◌};
ghost use Rattle.bench.specs.Calls as C;
ghost use Rattle.bench.specs.declared.CallError.TheVariants.{Refused};

use sequence::MOST_SOURCES;
use soundness::{NOTHING, Tables};
use table::JobWords;
use words::{Refusal, Witness};

// A job's tables, an entry for each source, in table order, for what is bound to it, and the glue count of what is bound.
// Kept: the entries beside the tables, as document 01 has a bench, which is copied and compared whole.
#[derive(Clone, Copy)]
pub struct Bench {
    pub tables: Tables,
    pub bound: [u32; MOST_SOURCES],
    pub glue: u32,
}

// Why a call is refused: a refusal, or 10 with its values.
#[derive(Clone, Copy)]
pub enum CallError {
    Refused(Refusal),
    Wrong(Witness),
}

impl From<Refusal> for CallError {
    ghost from_gives = { λ refusal error. error ≡ Refused refusal };

    fn from(refusal: Refusal) -> CallError {
        CallError::Refused(refusal)
    }
}

// The bench after a call, and the answer.
#[derive(Clone, Copy)]
pub struct After<T> {
    pub bench: Bench,
    pub answer: Result<T, CallError>,
}

// A bench with nothing bound.
fn empty_bench(tables: Tables) -> Bench
    ensures { result ≡ C.empty_bench tables }
{
    let bound = [NOTHING; MOST_SOURCES];
    Bench {
        tables,
        bound,
        glue: 0,
    }
}

// The bench of zeros, which a job that is not opened leaves.
pub fn zeros() -> Bench
    ensures { result ≡ C.bench_of_zeros }
{
    empty_bench(opening::tables_of_zeros())
}

impl Bench {
    // Opens a job: refusals 1 to 6, and then the bench of zeros.
    #[tactic(auto, unfolding(crate::specs::Calls::open_of))]
    pub fn open(words: &[u32]) -> After<()>
        ensures { result ≡ C.open_of words.now }
    {
        match reader::read_job(words) {
            Err(refusal) => After {
                bench: zeros(),
                answer: Err(CallError::Refused(refusal)),
            },
            Ok(job) => After {
                bench: empty_bench(opening::tables_of(&JobWords { words, job })),
                answer: Ok(()),
            },
        }
    }

    // The bench that comes next, or this one with the refusal.
    fn next(self, next: Result<Bench, CallError>) -> After<()>
        ensures { result ≡ C.next_of self next }
    {
        match next {
            Ok(bench) => After {
                bench,
                answer: Ok(()),
            },
            Err(error) => After {
                bench: self,
                answer: Err(error),
            },
        }
    }

    // The bench with a rule bound.
    #[tactic(auto, unfolding(crate::specs::Calls::bind_of, crate::specs::Calls::bind_check))]
    fn bound(self, word: u32) -> Result<Bench, CallError>
        ensures { C.Binds self word (C.next_of self result) }
    {
        let sound = faults::sound(self)?;
        sound.bound(word)
    }

    // Binds a rule: refusals 20, 2, 3, 5, 6, 8, 21, 10.
    pub fn bind(mut self, word: u32) -> After<()>
        ensures { C.Binds self word result }
    {
        self.next(self.bound(word))
    }

    // The bench with the binding of a function taken off.
    #[tactic(auto, unfolding(crate::specs::Calls::release_of))]
    fn released(self, function: u32) -> Result<Bench, CallError>
        ensures { C.next_of self result ≡ C.release_of self function }
    {
        let sound = faults::sound(self)?;
        sound.released(function)
    }

    // Takes the binding of a function off: refusals 20, 24.
    pub fn release(mut self, function: u32) -> After<()>
        ensures { result ≡ C.release_of self function }
    {
        self.next(self.released(function))
    }

    // The stored count of a sound bench.
    #[tactic(auto, unfolding(crate::specs::Calls::price_of))]
    fn count(self) -> Result<u32, CallError>
        ensures { C.gives self result ≡ C.price_of self }
    {
        let sound = faults::sound(self)?;
        Ok(sound.glue)
    }

    // The glue count of what is bound, as it is stored: refusal 20.
    pub fn price(mut self) -> After<u32>
        ensures { result ≡ C.price_of self }
    {
        After {
            bench: self,
            answer: self.count(),
        }
    }

    // How many words of the mapping are written into lent words.
    #[tactic(auto, unfolding(crate::specs::Calls::finish_of, crate::specs::Calls::lent_after_finish))]
    fn mapped(self, lent: &mut [u32]) -> Result<usize, CallError>
        ensures answer { C.gives self result ≡ C.finish_of self lent.old }
        ensures written { lent.new ≡ C.lent_after_finish self lent.old }
    {
        let sound = faults::sound(self)?;
        sound.mapped(lent)
    }

    // Writes the mapping into lent words: refusals 20, 22, 23.
    pub fn finish(mut self, lent: &mut [u32]) -> After<usize>
        ensures answer { result ≡ C.finish_of self lent.old }
        ensures written { lent.new ≡ C.lent_after_finish self lent.old }
    {
        let answer = self.mapped(lent);
        After {
            bench: self,
            answer,
        }
    }
}
