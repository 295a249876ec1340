// Prints the lines of some words judged at every width, as judge_rule does with all; and again with their targets negated.
#![tactic(auto)]

use text::Said;

// Right at every width; wrong at 1, at an output port and at the comparison; right at 1 and wrong at 2; refused with 2, 3, 5 and 6.
const WORDS: [u32; 13] = [
    0x5C89440C, 0x5105CEA0, 0x54000001, 0x60854960, 0x5C894407, 0x528D15A0, 0x518C1260, 0x5CCD4003,
    0x58929E00, 0x10000010, 0x54000011, 0x5CA1400C, 0x5C894400,
];

// Right only with a negated target: LT by SUB with code 13 for 12, ADD, AND and EQ by NOT of their own output, NEQ by GNAND of XOR.
const RIGHT_IF_NEGATED: [u32; 5] = [0x5C89440D, 0x50854A60, 0x54214200, 0x5B594002, 0x5BB14006];

// Prints the line of a word whose target is marked or not.
fn print_line(rt: &HostRuntime, word: u32, mark: u32) {
    let mut line = Said::new();
    judge_answers::put_everywhere(word, mark, &mut line);
    let _ = console::print(rt, line.as_bytes());
}

fn main(rt: HostRuntime) {
    for word in WORDS {
        print_line(&rt, word, 0);
    }
    for word in WORDS {
        print_line(&rt, word, 1);
    }
    for word in RIGHT_IF_NEGATED {
        print_line(&rt, word, 0);
        print_line(&rt, word, 1);
    }
}
