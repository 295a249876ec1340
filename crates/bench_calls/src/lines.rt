// What the program writes of an answer.
use reference::answer::{Answer, Given};
use testing::say;

// After a name. Of refusal 10 the function; the operands are the program's choice.
pub fn answer(rt: &HostRuntime, name: &[u8], told: Answer) {
    say::text(rt, name);
    match told {
        Ok(Given::Nothing) => say::text(rt, b": done"),
        Ok(Given::Count(count)) => {
            let _ = print!(rt; ": price {count}");
        }
        Ok(Given::Words(size)) => {
            let _ = print!(rt; ": words written {size}");
        }
        Err(refusal) => {
            let _ = print!(rt; ": refused {} {}", refusal.number, refusal.place);
        }
    }
}

// What is said where something is as it should be, else what is said where it is not.
pub fn whether(rt: &HostRuntime, b: bool, so: &[u8], not: &[u8]) {
    say::text(rt, if b { so } else { not });
}
