// What the checker and the pricer say of a job and a mapping, in a line; and where the second account says otherwise that it does.
use crate::compare::{check_of, price_of};
use reference::answer::Refusal;
use rulings::checking::Pair;
use testing::say;

// A refusal: its number and place, and of 10 that its operands show it.
fn say_refusal(rt: &HostRuntime, refusal: Refusal) {
    let _ = print!(rt; "refused {} {}", refusal.number, refusal.place);
    if (refusal.number == 10) & refusal.shown {
        say::text(rt, b", borne out");
    }
}

fn say_checked(rt: &HostRuntime, told: Result<(), Refusal>) {
    match told {
        Ok(()) => say::text(rt, b"accepted"),
        Err(refusal) => say_refusal(rt, refusal),
    }
}

fn say_priced(rt: &HostRuntime, told: Result<u32, Refusal>) {
    match told {
        Ok(count) => {
            let _ = print!(rt; "price {count}");
        }
        Err(refusal) => say_refusal(rt, refusal),
    }
}

pub fn show(rt: &HostRuntime, name: &[u8], pair: &Pair) {
    let checked = check_of(pair);
    let priced = price_of(pair);
    say::text(rt, name);
    say::text(rt, b": ");
    say_checked(rt, checked);
    say::text(rt, b"; ");
    say_priced(rt, priced);
    let same = (checked == pair.check()) & (priced == pair.price());
    say::text(rt, if same { b"\n" } else { b"; DIFFERS\n" });
}
