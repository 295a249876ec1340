// The bench's calls on spoilt benches, beside the reference's account of which are sound.
use accounts::sound::{BenchWords, Prices, Table};
use bench_calls::calls;
use bench_calls::calls::Told;
use bench_calls::files::{ADD_RULE, AND_RULE, LT_RULE, Made, RSUB_RULE, whole_bench};
use reference::answer::{Given, Subject, refused};
use testing::say;
use testing::tally::more;
use testing::words::{JOB, MAPPING, at, put};

// Benches tried, those that the reference calls sound, and those on which the bench's calls say otherwise.
#[derive(Clone, Copy, Default)]
pub struct Tally {
    tried: u64,
    sound: u64,
    differ: u64,
}

// Refused with 20 where the bench is not sound, and only there; refused, the bench and the lent words are as they were.
fn is_fair(told: Told, bench: BenchWords, sound: bool) -> bool {
    let answer = told.answer;
    let refused = answer == Err(refused(Subject::Word, 20, 0));
    let kept = (told.bench == bench) & told.untouched;
    (refused ^ sound) & (sound | kept)
}

// A bench that is sound is priced at what it stores, and keeps as it is.
fn price_is_fair(bench: BenchWords, sound: bool) -> bool {
    let told = calls::price(bench);
    let price = told.answer;
    let priced = price == Ok(Given::Count(bench.glue as u64));
    (priced ^ !sound) & (told.bench == bench) & is_fair(told, bench, sound)
}

pub fn with(all: Tally, bench: BenchWords) -> Tally {
    let sound = bench.is_sound();
    let fair = price_is_fair(bench, sound)
        & is_fair(calls::bind(bench, RSUB_RULE), bench, sound)
        & is_fair(calls::release(bench, 8), bench, sound)
        & is_fair(calls::finish(bench, 29), bench, sound);
    Tally {
        tried: more(all.tried, true),
        sound: more(all.sound, sound),
        differ: more(all.differ, !fair),
    }
}

// A bench with the word in an entry changed, in each of its three tables.
fn in_each_table<F: Fn(u32) -> u32>(bench: BenchWords, entry: usize, change: F) -> [BenchWords; 3]
    requires { F.IsAlwaysCallable change }
{
    let mut source = bench;
    put(
        &mut source.sources.words,
        entry,
        change(at(&bench.sources.words, entry)),
    );
    let mut target = bench;
    put(
        &mut target.targets.words,
        entry,
        change(at(&bench.targets.words, entry)),
    );
    let mut bound = bench;
    put(&mut bound.bound, entry, change(at(&bench.bound, entry)));
    [source, target, bound]
}

// A bench with a bit of a number turned: of the width, of the counts of sources and targets, and of the stored count.
fn in_each_number(bench: BenchWords, bit: u32) -> [BenchWords; 4] {
    let sources = Table {
        count: bench.sources.count ^ bit,
        ..bench.sources
    };
    let targets = Table {
        count: bench.targets.count ^ bit,
        ..bench.targets
    };
    [
        BenchWords {
            width: bench.width ^ bit,
            ..bench
        },
        BenchWords { sources, ..bench },
        BenchWords { targets, ..bench },
        BenchWords {
            glue: bench.glue ^ bit,
            ..bench
        },
    ]
}

fn in_each_price(bench: BenchWords, bit: u8) -> [BenchWords; 3] {
    let prices = bench.prices;
    let inverter = Prices {
        inverter: prices.inverter ^ bit,
        ..prices
    };
    let gate = Prices {
        gate: prices.gate ^ bit,
        ..prices
    };
    let multiplexer = Prices {
        multiplexer: prices.multiplexer ^ bit,
        ..prices
    };
    [inverter, gate, multiplexer].map(|prices| BenchWords { prices, ..bench })
}

// The count that a bench stores once it is changed: the one from before, or the right one.
#[derive(Clone, Copy)]
enum Stored {
    Before,
    Anew,
}

use Stored::{Anew, Before};

impl Stored {
    fn set(self, bench: BenchWords) -> BenchWords {
        match self {
            Before => bench,
            Anew => bench.counted(),
        }
    }
}

fn with_all(all: Tally, benches: &[BenchWords], stored: Stored) -> Tally {
    let mut all = all;
    for bench in benches {
        all = with(all, stored.set(*bench));
    }
    all
}

fn with_each_bit(bench: BenchWords, stored: Stored) -> Tally {
    let mut all = Tally::default();
    for i in 0..32u32 {
        let bit = 1u32 << (i % 32);
        for entry in 0..27 {
            let turned = in_each_table(bench, entry, |word| word ^ bit);
            all = with_all(all, &turned, stored);
        }
        all = with_all(all, &in_each_number(bench, bit), stored);
    }
    for i in 0..8u32 {
        all = with_all(all, &in_each_price(bench, 1u8 << (i % 8)), stored);
    }
    all
}

// The words of the printed job and of its mapping, and 0, in each entry of the three tables.
fn with_each_word(bench: BenchWords, stored: Stored) -> Tally {
    let mut all = Tally::default();
    for word in JOB.iter().chain(&MAPPING).chain(&[0]) {
        for entry in 0..27 {
            let replaced = in_each_table(bench, entry, |_| *word);
            all = with_all(all, &replaced, stored);
        }
    }
    all
}

pub fn report_group(rt: &HostRuntime, name: &[u8], all: Tally) {
    say::text(rt, name);
    let unsound = all.tried.wrapping_sub(all.sound);
    let _ = println!(rt;
        ": {} tried, {} sound, {unsound} not, {} differ",
        all.tried, all.sound, all.differ
    );
}

pub fn report_bench(rt: &HostRuntime, name: &[u8], bench: BenchWords) {
    say::text(rt, name);
    report_group(rt, b"\n    as it is", with(Tally::default(), bench));
    report_group(rt, b"    a bit turned", with_each_bit(bench, Before));
    report_group(rt, b"    and counted anew", with_each_bit(bench, Anew));
    report_group(rt, b"    a word replaced", with_each_word(bench, Before));
    report_group(rt, b"    and counted anew", with_each_word(bench, Anew));
}

pub fn report(rt: &HostRuntime) {
    report_bench(
        rt,
        b"the printed job at width 3, ADD, AND and LT bound",
        Made::Printed(3, &[ADD_RULE, AND_RULE, LT_RULE]).words(),
    );
    report_bench(
        rt,
        b"LT as GOR of RINHI at width 1",
        Made::Inhibit(1).words().with_rule(0x5CCD_4003).counted(),
    );
    report_bench(
        rt,
        b"every function bound to itself at width 2",
        whole_bench(2),
    );
    report_bench(rt, b"zeros", BenchWords::zeros());
}
