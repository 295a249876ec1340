// The printed job bound in every order.
use crate::runs::{Run, begun, with_bound};
use accounts::sound::BenchWords;
use bench_calls::calls;
use bench_calls::files::{Made, RULES};
use reference::answer::Given;
use testing::tally::more;

// Orders tried; those in which every bind was done; that end in the stored bench; and in the printed words.
#[derive(Clone, Copy, Default)]
struct Orders {
    tried: u64,
    done: u64,
    same: u64,
    written: u64,
}

// Whether a bench finishes with the printed mapping.
pub fn writes_the_mapping(bench: BenchWords) -> bool {
    let finished = calls::finish(bench, 6);
    let told = finished.answer;
    (told == Ok(Given::Words(6))) & finished.printed
}

// The digits to base 4 of a number name the rules one after another, the lowest first. Whether each rule is named once.
fn is_order(code: u32) -> bool {
    let first = (1u32 << (code % 4)) | (1u32 << (code / 4 % 4));
    let last = (1u32 << (code / 16 % 4)) | (1u32 << (code / 64 % 4));
    first | last == 15
}

// The rules bound in an order.
fn bound_in(code: u32) -> Run {
    let mut run = begun();
    let mut rest = code;
    for _ in 0..4 {
        let rule = (rest % 4) as usize;
        run = with_bound(run, RULES[rule]);
        rest = rest / 4;
    }
    run
}

fn with_order(all: Orders, code: u32) -> Orders {
    let run = bound_in(code);
    let bench = run.bench;
    let full = Made::Printed(16, &RULES).words();
    Orders {
        tried: more(all.tried, true),
        done: more(all.done, run.done == 4),
        same: more(all.same, bench == full),
        written: more(all.written, writes_the_mapping(bench)),
    }
}

fn with_orders() -> Orders {
    let mut all = Orders::default();
    for code in 0..256 {
        if is_order(code) {
            all = with_order(all, code);
        }
    }
    all
}

pub fn report(rt: &HostRuntime) {
    let all = with_orders();
    let _ = println!(rt;
        "the four rules in each order: {} tried, all binds done in {}, the same bench in {}, the printed mapping in {}",
        all.tried, all.done, all.same, all.written
    );
}
