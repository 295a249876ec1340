// Tries the judge of recipes against the reference: its refusals on every recipe word, its verdicts on every recipe at widths 1 and 2 and
// on some thousands of recipes at nine widths. A line for each group says how many answers were compared and how many of them the
// reference does not bear out; before it, where there are any, stands the first. The program is a test, so its contracts say only
// what safety needs.
#![tactic(auto)]

mod cases;
mod nine;
mod pairings;
mod refusals;
mod stored;
mod trial;

fn main(rt: HostRuntime) {
    cases::report_cases(&rt);
    refusals::report_refusals(&rt);
    pairings::report_pairings(&rt);
}
