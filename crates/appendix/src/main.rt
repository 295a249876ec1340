// Judges the report's appendix A again: the records that are wrong or refused, at the least operands where they fail, and the book. The
// lines are the figures of docs/BOOK.md. The program is a test, so its contracts say only what safety needs.
#![tactic(auto)]

mod failures;
mod judged;
mod shown;
mod tried;

use failures::{Record, report_failures};
use judged::report_judged;
use tried::report_tried;

// The records that a recipe holds and that are wrong, and their words, as docs/BOOK.md reads the report.
const WRONG: [Record; 36] = [
    ("LDRD", 0x573C_4100),
    ("LNRN", 0x5844_4100),
    ("RILI", 0x59C9_4100),
    ("EQNEQ2", 0x5B5E_2001),
    ("LTSB1", 0x5C89_4407),
    ("LTSB2", 0x5C8A_240B),
    ("LTRB1", 0x5C8E_2407),
    ("LTRB2", 0x5C8D_440B),
    ("LTAD1", 0x5C85_5407),
    ("LTAD2", 0x5C86_A407),
    ("LTAD3", 0x5C85_C40B),
    ("LTAD4", 0x5C86_340B),
    ("LQSB1", 0x5D89_4409),
    ("LQSB2", 0x5D8A_2408),
    ("LQRB1", 0x5D8E_2409),
    ("LQRB2", 0x5D8D_4408),
    ("LQAD1", 0x5D85_5409),
    ("LQAD2", 0x5D86_A409),
    ("LQAD3", 0x5D85_C408),
    ("LQAD4", 0x5D86_3408),
    ("GQSB1", 0x5D09_440B),
    ("GQSB2", 0x5D0A_2407),
    ("GQRB1", 0x5D0E_240B),
    ("GQRB2", 0x5D0D_4407),
    ("GQAD1", 0x5D05_540B),
    ("GQAD2", 0x5D06_A40B),
    ("GQAD3", 0x5D05_C407),
    ("GQAD4", 0x5D06_3407),
    ("GTSB1", 0x5C09_4408),
    ("GTSB2", 0x5C0A_2409),
    ("GTRB1", 0x5C0E_2408),
    ("GTRB2", 0x5C0D_4409),
    ("GTAD1", 0x5C05_5408),
    ("GTAD2", 0x5C06_A408),
    ("GTAD3", 0x5C05_C409),
    ("GTAD4", 0x5C06_3409),
];

// Two more leave out ports that their source drives.
const REFUSED: [Record; 2] = [("II", 0x5211_0100), ("DD", 0x5295_0100)];

fn main(rt: HostRuntime) {
    report_failures(&rt, b"wrong records", &WRONG, Some(10));
    report_failures(&rt, b"refused records", &REFUSED, Some(6));
    let wrong = WRONG.map(|(_, word)| word);
    report_judged(&rt, b"wrong records judged wrong", &wrong, Some(10));
    let refused = REFUSED.map(|(_, word)| word);
    report_judged(&rt, b"refused records refused with 6", &refused, Some(6));
    report_judged(&rt, b"rules of the book judged right", &book::BOOK, None);
    report_tried(&rt);
}
