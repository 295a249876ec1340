// Soundness, and the refusals of a bind before 10.
ghost use Rattle.std.specs.Prelude.{◌≡◌};
ghost use Rattle.bench.specs.Calls as C;
ghost use Rattle.bench.specs.Held as H;

use crate::Bench;
use crate::sound::SoundBench;
use soundness::{BoundTables, SoundTables};
use words::{Fault, Refusal};

pub fn is_sound(bench: Bench) -> bool
    ensures { result ≡ C.sound_bench bench }
{
    let tables = bench.tables;
    let bound = bench.bound;
    soundness::is_sound(tables, bound, bench.glue)
}

// Refusal 20, which comes before all others.
#[tactic(auto, using(soundness::proofs::Soundness::sound_tables))]
pub fn sound(bench: Bench) -> Result<SoundBench, Refusal>
    ensures { H.held_or result ≡ H.sound_check bench }
{
    if !is_sound(bench) {
        return Err(Refusal {
            fault: Fault::NotSound,
            place: 0,
        });
    }
    let tables = SoundTables {
        tables: bench.tables,
    };
    let bound = bench.bound;
    let held = BoundTables { tables, bound };
    Ok(SoundBench {
        held,
        glue: bench.glue,
    })
}

// Refusals 2, 3, 5, 6, 8 and 21 of a bind: at the word, but for 21, which is at the function.
#[tactic(auto, unfolding(crate::specs::Calls::bind_check, crate::specs::Calls::table_check))]
pub fn bind_check(bench: SoundBench, word: u32) -> Result<(), Refusal>
    ensures { result ≡ C.bind_check (H.bench_held bench) word }
{
    if let Some(fault) = soundness::rule_fault(word) {
        return Err(Refusal { fault, place: 0 });
    }
    let held = bench.held;
    if !entries::in_tables(held.tables, word) {
        return Err(Refusal {
            fault: Fault::NotInJob,
            place: 0,
        });
    }
    let function = recipe::source_of(word);
    if entries::is_bound(held, function) {
        return Err(Refusal {
            fault: Fault::AlreadyBound,
            place: function as usize,
        });
    }
    Ok(())
}
