// Prints the book: a line for each of its rules.
#![tactic(auto)]

use book::Rule;
use console::Failed;
use text::Said;

// Prints the line of a rule.
fn print_rule(rt: &HostRuntime, rule: Rule) -> Result<(), Failed> {
    let mut line = Said::new();
    book_lines::put_rule(rule, &mut line);
    console::print(rt, line.as_bytes())
}

// Prints the rules in the book's order.
#[tactic(auto, unfolding(book::specs::Book::book))]
fn print_all(rt: &HostRuntime) -> Result<(), Failed> {
    for index in 0..book::SIZE {
        print_rule(rt, Rule { index })?;
    }
    Ok(())
}

fn main(rt: HostRuntime) {
    let run = arguments::may_run(
        &rt,
        1,
        1,
        b"usage: print_book\n",
        &[
            b"usage: print_book\n\
        \n\
        Prints a line for each rule of the book: source, target or LV, word, and the record of the report's appendix A that\n\
        it comes from, or - for a companion. Its words are text for judge_rule and pack_words.\n\
        \n\
        example: print_book | cut -d ' ' -f 3 | judge_rule all\n",
        ],
    );
    if run {
        let _ = print_all(&rt);
    }
}
