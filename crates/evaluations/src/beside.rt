// The evaluator and the reference side by side.
use reference::evaluator::{Operands, Shown, evaluate, in_range};
use testing::say;
use testing::tally::Tally;

// What an evaluator is given, in document 01's order.
#[derive(Clone, Copy)]
pub struct Given {
    pub function: u32,
    pub width: u32,
    pub operands: Operands,
}

// The four ports; or the number of the refusal and its place.
pub type Told = Result<Shown, (u32, usize)>;

fn of_alu(g: Given) -> Told {
    let at = g.operands;
    alu::evaluate(g.function, g.width, at.left, at.right, at.carry)
        .map(told::shown_of)
        .map_err(|refusal| (u32::from(refusal.fault), refusal.place))
}

pub fn of_reference(g: Given) -> Told {
    in_range(g.function, g.width, g.operands).map_err(|place| (3, place))?;
    Ok(evaluate(g.function, g.width, g.operands))
}

// Whether both refuse with 3 at a place, or, where none is out of range, both show the same four ports.
pub fn agree(given: Given, out_of_range: Option<usize>) -> bool {
    let told = of_alu(given);
    (told == of_reference(given)) & (told.err() == out_of_range.map(|place| (3, place)))
}

// No refusal is written as 0 at 5, and of a refusal all ports as 0.
fn say_told(rt: &HostRuntime, told: Told) {
    match told {
        Ok(shown) => {
            let _ = print!(rt;
                "0 at 5 O0 {} OCOUT {} OVF {} O1 {}",
                shown.o0, shown.ocout as u8, shown.ovf as u8, shown.o1 as u8
            );
        }
        Err((number, place)) => {
            let _ = print!(rt; "{number} at {place} O0 0 OCOUT 0 OVF 0 O1 0");
        }
    }
}

fn say_difference(rt: &HostRuntime, given: Given) {
    let at = given.operands;
    let _ = print!(rt;
        "differs: function {} width {} left {} right {} carry {}; alu: refused ",
        given.function, given.width, at.left, at.right, at.carry
    );
    say_told(rt, of_alu(given));
    say::text(rt, b"; reference: refused ");
    say_told(rt, of_reference(given));
    say::text(rt, b"\n");
}

// One comparison more. The first difference of a tally is written out.
pub fn count(rt: &HostRuntime, tally: &mut Tally, given: Given, same: bool) {
    tally.count_or(same, || say_difference(rt, given));
}
