// Every number up to 63 on the largest bench, with each function bound to itself and with nothing bound.
use accounts::sound::BenchWords;
use bench_calls::calls;
use bench_calls::files::whole_bench;
use reference::answer::{Answer, Given, Subject, refused};
use testing::say;
use testing::tally::more;
use testing::words::put;

// Numbers tried, those released, and those at which the answer or the bench is not as it should be.
#[derive(Clone, Copy, Default)]
struct Tally {
    tried: u64,
    released: u64,
    differ: u64,
}

fn expected_answer(is_bound: bool, function: u32) -> Answer {
    if is_bound {
        return Ok(Given::Nothing);
    }
    Err(refused(Subject::Word, 24, function as usize))
}

fn with(all: Tally, bench: BenchWords, function: u32, is_bound: bool) -> Tally {
    let told = calls::release(bench, function);
    let answer = told.answer;
    let mut expected = bench;
    if is_bound {
        let entry = (function as usize).wrapping_sub(1);
        put(&mut expected.bound, entry, 0);
    }
    let same = (answer == expected_answer(is_bound, function)) & (told.bench == expected.counted());
    Tally {
        tried: more(all.tried, true),
        released: more(all.released, answer.is_ok()),
        differ: more(all.differ, !same),
    }
}

fn report_bench<F: Fn(u32) -> bool>(rt: &HostRuntime, name: &[u8], bench: BenchWords, is_bound: F)
    requires { F.IsAlwaysCallable is_bound }
{
    let mut all = Tally::default();
    for function in 0..64 {
        all = with(all, bench, function, is_bound(function));
    }
    say::text(rt, name);
    let _ = println!(rt;
        ": {} numbers tried, {} released, {} differ",
        all.tried, all.released, all.differ
    );
}

pub fn report(rt: &HostRuntime) {
    let bench = whole_bench(2);
    report_bench(rt, b"every function bound to itself", bench, |function| {
        (1..28).contains(&function)
    });
    report_bench(
        rt,
        b"every function a source, nothing bound",
        BenchWords {
            bound: [0; 27],
            ..bench
        }
        .counted(),
        |_| false,
    );
}
