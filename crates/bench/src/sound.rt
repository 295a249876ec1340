// A sound bench, and what a call makes of it: what comes after refusal 20.
ghost use Rattle.std.specs.Prelude.{◌≡◌, true, None};
ghost use Rattle.writer.specs.Write as W;
ghost use Rattle.soundness.specs.Sound as S;
ghost use Rattle.bench.specs.Calls as C;

use crate::{Bench, CallError, faults};
use sequence::MOST_SOURCES;
use soundness::{BoundTables, NOTHING};
use verdict::Verdict;
use words::{Fault, Refusal};

// A bench that is sound.
#[derive(Clone, Copy)]
pub struct SoundBench {
    pub held: BoundTables,
    pub glue: u32,
    pub ghost sound: { S.is_sound held.tables.tables held.bound glue ≡ true },
}

// The bench of what is held, with a count.
fn bench_of(held: BoundTables, glue: u32) -> Bench
    ensures { result ≡ C.bench_with held.tables.tables held.bound glue }
{
    let bound = held.bound;
    Bench {
        tables: held.tables.tables,
        bound,
        glue,
    }
}

impl SoundBench {
    ghost use Rattle.bench.specs.Held.{bench_held};

    // The bench with a word, or NOTHING, in the entry of a function's source, and the count of what is bound then. Where it is no
    // source's, the entry past the sources is meant, if there is one.
    fn put(self, function: u32, word: u32) -> Bench
        ensures { result ≡ C.bound_at (bench_held self) (C.entry_for (bench_held self) function) word }
    {
        let mut held = self.held;
        let past = held.tables.terms().sources.len();
        let entry = entries::entry_for(held.tables, function).unwrap_or(past);
        if entry < MOST_SOURCES {
            held.bound[entry] = word;
        }
        bench_of(held, held.glue())
    }

    // The bench with a rule bound: refusals 2, 3, 5, 6, 8, 21, 10.
    #[tactic(auto, using(crate::proofs::Binds::bind_wrong, crate::proofs::Binds::bind_right), unfolding(crate::specs::Calls::bind_of))]
    pub fn bound(self, word: u32) -> Result<Bench, CallError>
        ensures { C.Binds (bench_held self) word (C.next_of (bench_held self) result) }
    {
        faults::bind_check(self, word)?;
        let verdict = entries::verdict_on(self.held.tables, word);
        match verdict {
            Verdict::Wrong(witness) => Err(CallError::Wrong(witness)),
            Verdict::Right => Ok(self.put(recipe::source_of(word), word)),
        }
    }

    // The bench with the binding of a function taken off: refusal 24.
    #[tactic(auto, unfolding(crate::specs::Calls::release_of))]
    pub fn released(self, function: u32) -> Result<Bench, CallError>
        ensures { C.next_of (bench_held self) result ≡ C.release_of (bench_held self) function }
    {
        if !entries::is_bound(self.held, function) {
            return Err(CallError::Refused(Refusal {
                fault: Fault::NotBound,
                place: function as usize,
            }));
        }
        Ok(self.put(function, NOTHING))
    }

    // Writes the mapping of a bench whose sources are all bound: refusal 23.
    #[tactic(auto, using(crate::proofs::Shapes::held_shaped, crate::proofs::Finishing::entries_fit, crate::proofs::Finishing::entries_taken, crate::proofs::Finishing::mapping_laid, crate::proofs::Finishing::held_width, crate::proofs::Finishing::held_count, crate::proofs::Finishing::held_few))]
    fn write(self, lent: &mut [u32]) -> Result<usize, Refusal>
        requires { C.unbound_on (bench_held self) ≡ None }
        ensures answer { result ≡ W.written_of self.held.tables.tables.nsources lent.old }
        ensures written { lent.new ≡ W.lent_after (C.mapping_on (bench_held self)) lent.old }
    {
        let tables = self.held.tables.tables;
        let nsources = tables.nsources as usize;
        let bound = self.held.bound;
        writer::write_mapping(tables.width, &bound[..nsources], self.glue, lent)
    }

    // How many words of the mapping are written into lent words: refusals 22, 23.
    #[tactic(auto, unfolding(crate::specs::Calls::finish_of, crate::specs::Calls::lent_after_finish))]
    pub fn mapped(self, lent: &mut [u32]) -> Result<usize, CallError>
        ensures answer { C.gives (bench_held self) result ≡ C.finish_of (bench_held self) lent.old }
        ensures written { lent.new ≡ C.lent_after_finish (bench_held self) lent.old }
    {
        if let Some(unbound) = entries::unbound_on(self.held) {
            return Err(CallError::Refused(Refusal {
                fault: Fault::Unbound,
                place: unbound as usize,
            }));
        }
        let count = self.write(lent)?;
        Ok(count)
    }
}
