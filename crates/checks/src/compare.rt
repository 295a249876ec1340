// The checker and the pricer, each beside the reference's.
use checker::CheckError;
use fitting::PairError;
use reference::answer::{Refusal, Subject, wrong};
use rulings::checking::Pair;
use testing::say;
use testing::tally::{Numbers, noted_or};

// Of the checker and of the pricer.
#[derive(Clone, Copy, Default)]
pub struct Tallies {
    pub checks: Numbers,
    pub prices: Numbers,
}

// Refusal 10 is borne out by a trial, since its operands are the checker's choice.
fn of_checked(answer: Result<(), CheckError>, pair: &Pair) -> Result<(), Refusal> {
    answer.map_err(|error| match error {
        CheckError::JobRefused(refusal) => told::refusal_of(Subject::Job, refusal),
        CheckError::MappingRefused(refusal) => told::refusal_of(Subject::Mapping, refusal),
        CheckError::Refused(refusal) => told::refusal_of(Subject::Both, refusal),
        CheckError::Wrong(witness) => wrong(
            Subject::Both,
            witness.function,
            pair.wrong_is_borne_out(told::witness_of(witness)),
        ),
    })
}

fn of_priced(answer: Result<u32, PairError>) -> Result<u32, Refusal> {
    answer.map_err(|error| match error {
        PairError::JobRefused(refusal) => told::refusal_of(Subject::Job, refusal),
        PairError::MappingRefused(refusal) => told::refusal_of(Subject::Mapping, refusal),
        PairError::Refused(refusal) => told::refusal_of(Subject::Both, refusal),
    })
}

// What the checker says.
pub fn check_of(pair: &Pair) -> Result<(), Refusal> {
    of_checked(checker::check(pair.job, pair.mapping), pair)
}

// What the pricer says.
pub fn price_of(pair: &Pair) -> Result<u32, Refusal> {
    of_priced(pricer::price(pair.job, pair.mapping))
}

fn say_difference(rt: &HostRuntime, what: &[u8], number: Option<u32>, pair: &Pair) {
    say::text(rt, what);
    let _ = print!(rt; " differs, with {}", number.unwrap_or(0));
    say::words(rt, b": job", pair.job);
    say::words(rt, b", mapping", pair.mapping);
    say::text(rt, b"\n");
}

// An answer more, by its number, 0 for no refusal. The first difference of a tally is written out.
fn with(
    rt: &HostRuntime,
    what: &[u8],
    all: Numbers,
    number: Option<u32>,
    same: bool,
    pair: &Pair,
) -> Numbers {
    noted_or(all, number, same, || say_difference(rt, what, number, pair))
}

fn with_check(rt: &HostRuntime, all: Numbers, pair: &Pair) -> Numbers {
    let told = check_of(pair);
    let is_shown_wrong = told.is_err_and(|refusal| (refusal.number == 10) & refusal.shown);
    let same = is_shown_wrong | (told == pair.check());
    let number = told.err().map(|refusal| refusal.number);
    with(rt, b"check", all, number, same, pair)
}

fn with_price(rt: &HostRuntime, all: Numbers, pair: &Pair) -> Numbers {
    let told = price_of(pair);
    let same = told == pair.price();
    let number = told.err().map(|refusal| refusal.number);
    with(rt, b"price", all, number, same, pair)
}

// One job and mapping more.
pub fn compared(rt: &HostRuntime, all: Tallies, pair: &Pair) -> Tallies {
    let checks = all.checks;
    let prices = all.prices;
    Tallies {
        checks: with_check(rt, checks, pair),
        prices: with_price(rt, prices, pair),
    }
}

// How many had each number that some had.
fn say_refused(rt: &HostRuntime, by: [u64; 12]) {
    for (number, count) in by.iter().enumerate().skip(1) {
        if *count != 0 {
            let _ = print!(rt; ", refused {number}: {count}");
        }
    }
}

fn report_one(rt: &HostRuntime, name: &str, accepted: &str, all: Numbers) {
    let tally = all.tally;
    let by = all.by;
    let _ = print!(rt; "{name}: {tally}; {accepted}: {}", by[0]);
    say_refused(rt, by);
}

// Two lines for a group at a width.
pub fn report(rt: &HostRuntime, name: &[u8], n: u32, all: Tallies) {
    let checks = all.checks;
    let prices = all.prices;
    let _ = print!(rt; "width {n}, ");
    say::text(rt, name);
    report_one(rt, "", "accepted", checks);
    report_one(rt, "\n    price", "counted", prices);
    say::text(rt, b"\n");
}
