// What the judge answers, at every width.
use reference::answer::Refusal;
use testing::say;
use testing::tally::Tally;

// Whether a judge answers with the number of a refusal, 10 as the reference bears it out, or refuses nothing.
pub fn is_answer(answer: Result<(), Refusal>, number: Option<u32>) -> bool {
    match answer {
        Ok(()) => number.is_none(),
        Err(refusal) => refusal.shown & (number == Some(refusal.number)),
    }
}

// A word judged at each width.
fn judge_everywhere(tally: &mut Tally, word: u32, expected: Option<u32>) {
    for n in 1..65 {
        tally.count(is_answer(told::judged(word, n, 0), expected));
    }
}

// Words that have to be judged alike at every width.
pub fn report_judged(rt: &HostRuntime, name: &[u8], words: &[u32], expected: Option<u32>) {
    let mut tally = Tally::default();
    for word in words {
        judge_everywhere(&mut tally, *word, expected);
    }
    say::text(rt, name);
    say::report(rt, b" at each width from 1 to 64", tally);
}
