// Document 01's cases of recipes.
use crate::nine::WIDTHS;
use crate::trial::Case;
use reference::evaluator::Operands;
use reference::recipe::{Port, first_difference};
use testing::tally::Tally;

// A recipe that is wrong at a width, where its O1 differs at a left and a right that document 01 names, whatever the carry.
fn wrong(rt: &HostRuntime, tally: &mut Tally, case: Case, left: u64, right: u64) {
    let trial = case.tried();
    let named = [0, 1].iter().all(|carry| {
        let carry = *carry;
        let operands = Operands { left, right, carry };
        first_difference(case.recipe(), case.width, operands) == Ok(Some(Port::O1))
    });
    case.count(rt, tally, trial.holds & !trial.right & named);
}

// A recipe that is right at some widths.
fn right(rt: &HostRuntime, tally: &mut Tally, word: u32, widths: &[u32]) {
    for width in widths {
        let case = Case {
            word,
            width: *width,
            mark: 0,
        };
        let trial = case.tried();
        case.count(rt, tally, trial.holds & trial.right);
    }
}

pub fn report_cases(rt: &HostRuntime) {
    let mut tally = Tally::default();
    let case = |word, width| Case {
        word,
        width,
        mark: 0,
    };
    wrong(rt, &mut tally, case(0x5C89_4407, 8), 127, 255);
    right(rt, &mut tally, 0x5C89_440C, &WIDTHS);
    wrong(rt, &mut tally, case(0x5C8A_240B, 8), 0, 0);
    right(rt, &mut tally, 0x5CCD_4003, &[1]);
    wrong(rt, &mut tally, case(0x5CCD_4003, 2), 1, 0);
    right(rt, &mut tally, 0x5105_CEA0, &WIDTHS);
    testing::say::report(rt, b"cases of document 01", tally);
}
