// Jobs that open refuses, and some at the edge that it does not.
use accounts::sound::BenchWords;
use bench_calls::files::Made;
use bench_calls::{calls, lines};
use testing::say;
use testing::words::{JOB, first, put};

// So many words of the printed job, or of a longer one.
const SIZES: [(&[u8], usize); 8] = [
    (b"the printed job", 14),
    (b"no words", 0),
    (b"512 rules", 515),
    (b"a 513th", 516),
    (b"568 words", 568),
    (b"569 words", 569),
    (b"a header alone", 1),
    (b"a header and prices", 2),
];

// The printed job with the word at an index set to another.
const CHANGES: [(&[u8], usize, u32); 30] = [
    (b"prices first", 0, 0x2001_0103),
    (b"a target before any source", 2, 0x4000_0001),
    (b"a source after a target", 7, 0x3000_001A),
    (b"a binding for a rule", 8, 0x6085_4960),
    (b"width 64", 0, 0x1000_0040),
    (b"width 65", 0, 0x1000_0041),
    (b"width 0", 0, 0x1000_0000),
    (b"the book asked for", 0, 0x1000_0090),
    (b"bit 8 of the header", 0, 0x1000_0110),
    (b"bit 24 of the prices", 1, 0x2101_0103),
    (b"source 0", 2, 0x3000_0000),
    (b"source 28", 5, 0x3000_001C),
    (b"target 28", 7, 0x4000_001C),
    (b"bit 4 of a rule", 8, 0x5085_4970),
    (b"left wiring 6", 8, 0x5087_4960),
    (b"ADD from scratch", 8, 0x5080_0001),
    (b"a source twice", 3, 0x3000_0001),
    (b"a source below the one before", 5, 0x3000_0002),
    (b"a target twice", 7, 0x4000_0001),
    (b"a rule that reads TO1 of SUB", 12, 0x5C89_4401),
    (b"a rule without overflow", 8, 0x5085_4940),
    (b"a rule with O1 besides", 8, 0x5085_4963),
    (b"2 before 3", 8, 0x6FFF_FFFF),
    (b"3 before 4", 3, 0x3000_0000),
    (b"5 before 6", 8, 0x5085_4801),
    (b"a negated target", 7, 0x4000_0022),
    (b"a negated target twice", 7, 0x4000_0021),
    (b"target 28, negated", 7, 0x4000_003C),
    (b"bit 6 of a target", 7, 0x4000_0042),
    (b"bit 5 of a source", 5, 0x3000_0039),
];

// Opens a job; refused, it hands back the bench of zeros. The bench of the printed job is named too: it does not tell of the book.
fn show(rt: &HostRuntime, name: &[u8], words: &[u32]) {
    let opened = calls::open(words);
    let told = opened.answer;
    let bench = opened.bench;
    say::text(rt, b"    ");
    lines::answer(rt, name, told);
    lines::whether(rt, bench == BenchWords::zeros(), b", zeros", b"");
    let of_printed = bench == Made::Printed(16, &[]).words();
    lines::whether(rt, of_printed, b", the printed job's bench\n", b"\n");
}

// AND, no targets, and AND from scratch as often as there is room.
fn show_long(rt: &HostRuntime, name: &[u8], size: usize) {
    let mut words = [0x5400_0001u32; 569];
    words[0] = 0x1000_0010;
    words[1] = 0x2001_0103;
    words[2] = 0x3000_0008;
    show(rt, name, first(&words, size));
}

fn show_size(rt: &HostRuntime, name: &[u8], size: usize) {
    if size > 14 {
        show_long(rt, name, size);
    } else {
        show(rt, name, first(&JOB, size));
    }
}

fn show_sizes(rt: &HostRuntime) {
    for (name, size) in &SIZES {
        show_size(rt, name, *size);
    }
}

fn show_changed(rt: &HostRuntime, name: &[u8], job: [u32; 14], index: usize, word: u32) {
    let mut words = job;
    put(&mut words, index, word);
    show(rt, name, &words);
}

fn show_changes(rt: &HostRuntime) {
    for (name, index, word) in &CHANGES {
        show_changed(rt, name, JOB, *index, *word);
    }
}

pub fn report(rt: &HostRuntime) {
    say::text(rt, b"open\n");
    show_sizes(rt);
    show_changes(rt);
    let mut other = JOB;
    other[5] = 0x3000_001C;
    show_changed(rt, b"the first of two words", other, 3, 0x3000_0001);
}
