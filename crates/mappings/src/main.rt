// The mapper tried on jobs whose mapping is known: the printed job, jobs that leave a function unmappable, equal glue, the largest
// job, lent words of several lengths, these jobs with the book behind their rules, jobs in which the minterms that all vectors have decide,
// and jobs whose targets are negated. Each line says what was answered and what the lent words then hold. Then how many rules of the book
// are right of plain and of negated targets, and the mapper beside a second account of it on random jobs: a line for each shape of them
// says how many were compared, how many were mapped or refused, and on how many the two differ; before it, where any do, stands the first.
#![tactic(auto)]

mod book_rules;
mod compare;
mod jobs;
mod marks;
mod needed_by_all;
mod negated;
mod random;
mod show;

use book_rules::report_book;
use compare::report_random;
use jobs::{
    BOOK_EQUAL_GLUE, BOOK_JOB, BOOK_NEITHER, BOOK_NO_RULE, BOOK_TARGET_MISSING, EQUAL_GLUE,
    EQUAL_GLUE_REVERSED, NEITHER, NO_RULE, PRINTED_RULE_ONLY, TARGET_MISSING,
};
use needed_by_all::report_needed_by_all;
use negated::report_negated;
use show::mapped;
use testing::words::{first, put};

fn printed(rt: &HostRuntime) {
    let job = testing::words::JOB;
    mapped(rt, b"printed job", &job, 6);
    mapped(rt, b"printed job, one word too few", &job, 5);
    mapped(rt, b"printed job, no words", &job, 0);
    mapped(rt, b"printed job, more words", &job, 8);
    mapped(rt, b"no job", &job[..0], 6);
}

fn unmappable(rt: &HostRuntime) {
    mapped(rt, b"LT by the published rule alone", &PRINTED_RULE_ONLY, 6);
    mapped(rt, b"no rules", &NO_RULE, 6);
    mapped(rt, b"no rules and too few words", &NO_RULE, 1);
    mapped(
        rt,
        b"a rule whose target is not in the job",
        &TARGET_MISSING,
        6,
    );
}

// What only the book maps; and on equal glue the job's own rule, which stands before the book's.
fn by_the_book(rt: &HostRuntime) {
    mapped(
        rt,
        b"the book, printed job without its rules",
        first(&BOOK_JOB, 8),
        6,
    );
    mapped(
        rt,
        b"the book, LT by the published rule alone",
        first(&BOOK_JOB, 13),
        6,
    );
    mapped(rt, b"the book, printed job", &BOOK_JOB, 6);
    mapped(
        rt,
        b"the book, a rule whose target is not in the job",
        &BOOK_TARGET_MISSING,
        6,
    );
    mapped(rt, b"the book, no rules", &BOOK_NO_RULE, 6);
    mapped(
        rt,
        b"the book, equal glue in it",
        first(&BOOK_EQUAL_GLUE, 4),
        3,
    );
    mapped(
        rt,
        b"the book, equal glue of a rule before it",
        &BOOK_EQUAL_GLUE,
        3,
    );
    mapped(rt, b"ADD from AND", &NEITHER, 6);
    mapped(rt, b"the book, ADD from AND", &BOOK_NEITHER, 6);
}

// So many words of the largest job, with a header and a wrong rule instead of its last, LEQ's.
fn largest_with(rt: &HostRuntime, name: &[u8], header: u32, size: usize) {
    let mut job = jobs::largest();
    put(&mut job, 0, header);
    put(&mut job, 567, 0x50894960);
    mapped(rt, name, first(&job, size), 29);
}

fn main(rt: HostRuntime) {
    printed(&rt);
    unmappable(&rt);
    mapped(&rt, b"equal glue", &EQUAL_GLUE, 3);
    mapped(&rt, b"equal glue, other order", &EQUAL_GLUE_REVERSED, 3);
    let largest = jobs::largest();
    mapped(
        &rt,
        b"27 sources, 27 targets, 512 rules, width 64",
        &largest,
        29,
    );
    by_the_book(&rt);
    largest_with(&rt, b"512 rules, none for LEQ", 0x10000040, 568);
    largest_with(&rt, b"the book, 512 rules, none for LEQ", 0x100000C0, 568);
    largest_with(
        &rt,
        b"the book, 27 sources, 27 targets, width 64",
        0x100000C0,
        56,
    );
    largest_with(
        &rt,
        b"the book, 27 sources, 27 targets, width 8",
        0x10000088,
        56,
    );
    largest_with(
        &rt,
        b"the book, 27 sources, 27 targets, width 1",
        0x10000081,
        56,
    );
    report_needed_by_all(&rt);
    report_negated(&rt);
    report_book(&rt);
    report_random(&rt);
}
