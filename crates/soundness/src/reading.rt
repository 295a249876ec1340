// Tables that a job could hold: the reader is asked.
ghost use Rattle.std.specs.Prelude.{◌≡◌, ◌+◌, ◌≤◌, length};
ghost use Rattle.std.proofs.lemmas.List.Edits.{sets};
ghost use Rattle.reader.specs.Job as J;
ghost use Rattle.soundness.specs.Sound as S;

use crate::{InRange, Tables};
use reader::{Job, SOURCES_START};
use sequence::{MOST_SOURCES, MOST_TARGETS};
use words::{Prices, Refusal, WordKind};

// The most words of a job without rules.
const MOST_WORDS: usize = SOURCES_START + MOST_SOURCES + MOST_TARGETS;

// Copies words into lent ones, from one on.
#[tactic(auto, using(crate::proofs::Copying::part_copied))]
pub fn copy(words: &[u32], lent: &mut [u32], at: usize)
    requires { at + length words.now ≤ length lent.old }
    ensures { lent.new ≡ sets lent.old at words.now }
{
    lent[at..at + words.len()].copy_from_slice(words);
}

// The prices as a job's second word has them.
#[tactic(auto, using(crate::proofs::Soundness::prices_laid))]
fn prices_word(prices: Prices) -> u32
    ensures { result ≡ S.prices_word prices }
{
    WordKind::Prices.word(
        ((prices.inverter as u32) << 16)
            | ((prices.gate as u32) << 8)
            | (prices.multiplexer as u32),
    )
}

// Reads the job without rules that has these tables.
#[tactic(auto, using(crate::proofs::Copying::few_sources, crate::proofs::Copying::few_targets))]
fn read_tables(in_range: &InRange) -> Result<Job, Refusal>
    ensures { result ≡ J.job_of (S.table_words in_range.now.tables.now) }
{
    let terms = in_range.terms();
    let mut words = [0u32; MOST_WORDS];
    words[0] = WordKind::Header.word(terms.width.n);
    words[1] = prices_word(terms.prices);
    copy(terms.sources, &mut words, SOURCES_START);
    let targets_start = SOURCES_START + terms.sources.len();
    copy(terms.targets, &mut words, targets_start);
    let end = targets_start + terms.targets.len();
    reader::read_job(&words[..end])
}

// Whether the job was accepted with so many sources and targets.
#[tactic(auto, using(crate::proofs::Soundness::as_accepted))]
fn holds(nsources: u32, ntargets: u32, read: Result<Job, Refusal>) -> bool
    ensures { result ≡ S.holds nsources ntargets read }
{
    match read {
        Err(_) => false,
        Ok(job) => { (job.sources == nsources) & (job.targets == ntargets) }
    }
}

#[tactic(auto, using(crate::proofs::Soundness::no_width, crate::proofs::Soundness::width_tested, crate::proofs::Soundness::many_sources, crate::proofs::Soundness::many_targets, crate::proofs::Soundness::tables_read))]
pub fn tables_sound(tables: Tables) -> bool
    ensures { result ≡ S.tables_sound tables }
{
    if !alu::is_width(tables.width) {
        return false;
    }
    if MOST_SOURCES < tables.nsources as usize {
        return false;
    }
    if MOST_TARGETS < tables.ntargets as usize {
        return false;
    }
    let read = read_tables(&InRange { tables: &tables });
    holds(tables.nsources, tables.ntargets, read)
}
