// Files just within and just past each limit, and words of which two refusals hold.
use crate::files::Sizes::{JobOf, MappingOf};
use crate::files::{Sizes, plain};
use accounts::reading::File;
use accounts::reading::File::{Job, Mapping};
use readers::{Said, compare, report};
use testing::tally::Numbers;

// A file of these sizes; how many words are read, if not just its own, with 0 behind them; and what is said of it.
type Counted = (Sizes, Option<usize>, Said);

struct Files {
    name: &'static [u8],
    files: &'static [Counted],
}

const FILES: [Files; 6] = [
    Files {
        name: b"0 and 1, 27 and 28 sources",
        files: &[
            (JobOf(0, 0, 0), None, Err((2, 2))),
            (JobOf(0, 1, 0), None, Err((2, 2))),
            (JobOf(1, 0, 0), None, Ok(())),
            (JobOf(1, 1, 1), None, Ok(())),
            (JobOf(27, 0, 0), None, Ok(())),
            (JobOf(27, 27, 0), None, Ok(())),
            (JobOf(28, 0, 0), None, Err((2, 29))),
            (JobOf(28, 27, 9), None, Err((2, 29))),
        ],
    },
    Files {
        name: b"27 and 28 targets",
        files: &[
            (JobOf(1, 0, 1), None, Ok(())),
            (JobOf(1, 27, 1), None, Ok(())),
            (JobOf(1, 28, 0), None, Err((2, 30))),
            (JobOf(27, 28, 9), None, Err((2, 56))),
        ],
    },
    Files {
        name: b"512 and 513 rules",
        files: &[
            (JobOf(1, 0, 512), None, Ok(())),
            (JobOf(27, 26, 512), None, Ok(())),
            (JobOf(1, 0, 513), None, Err((2, 515))),
            (JobOf(27, 26, 513), None, Err((2, 567))),
        ],
    },
    Files {
        name: b"0, 568 and 569 words of a job",
        files: &[
            (JobOf(27, 27, 512), None, Ok(())),
            (JobOf(27, 27, 513), None, Err((1, 0))),
            (JobOf(28, 27, 512), None, Err((1, 0))),
            (JobOf(27, 27, 540), None, Err((1, 0))),
            (JobOf(0, 0, 0), Some(0), Err((1, 0))),
        ],
    },
    Files {
        name: b"0, 27 and 28 bindings, the glue count last",
        files: &[
            (MappingOf(0), Some(2), Ok(())),
            (MappingOf(27), Some(29), Ok(())),
            (MappingOf(0), Some(1), Err((2, 1))),
            (MappingOf(27), Some(28), Err((2, 28))),
            (MappingOf(28), Some(29), Err((2, 28))),
            (MappingOf(28), Some(28), Err((2, 28))),
            (MappingOf(0), Some(3), Err((2, 2))),
            (MappingOf(26), Some(29), Err((2, 28))),
        ],
    },
    Files {
        name: b"0, 29 and 30 words of a mapping",
        files: &[
            (MappingOf(27), Some(30), Err((1, 0))),
            (MappingOf(28), Some(30), Err((1, 0))),
            (MappingOf(0), Some(600), Err((1, 0))),
            (MappingOf(0), Some(0), Err((1, 0))),
        ],
    },
];

// A file with one word set to another: which file, the place, the number with which it is refused, and the word.
type Change = (File, usize, Option<u32>, u32);

// In the last of them two refusals hold of each word: the lower number is given.
const CHANGES: [(&[u8], &[Change]); 5] = [
    (
        b"widths",
        &[
            (Job, 0, None, 0x1000_0001),
            (Job, 0, None, 0x1000_0040),
            (Job, 0, Some(3), 0x1000_0000),
            (Job, 0, Some(3), 0x1000_0041),
            (Job, 0, None, 0x1000_0081),
            (Job, 0, None, 0x1000_0090),
            (Job, 0, None, 0x1000_00c0),
            (Job, 0, Some(3), 0x1000_0080),
            (Job, 0, Some(3), 0x1000_00c1),
            (Job, 0, Some(3), 0x1000_0110),
            (Job, 0, Some(3), 0x1800_0010),
            (Mapping, 0, None, 0x1000_0001),
            (Mapping, 0, None, 0x1000_0040),
            (Mapping, 0, Some(3), 0x1000_0000),
            (Mapping, 0, Some(3), 0x1000_0041),
            (Mapping, 0, Some(3), 0x1000_0080),
            (Mapping, 0, Some(3), 0x1000_0090),
            (Mapping, 0, Some(3), 0x1000_00c1),
            (Mapping, 0, Some(3), 0x1000_0110),
            (Mapping, 0, Some(3), 0x1800_0010),
        ],
    ),
    (
        b"prices",
        &[
            (Job, 1, None, 0x2000_0000),
            (Job, 1, None, 0x20ff_ffff),
            (Job, 1, Some(3), 0x2100_0000),
            (Job, 1, Some(3), 0x2800_0000),
        ],
    ),
    (
        b"functions",
        &[
            (Job, 4, None, 0x3000_001b),
            (Job, 4, Some(3), 0x3000_001c),
            (Job, 2, Some(3), 0x3000_0000),
            (Job, 5, Some(3), 0x4000_0000),
            (Job, 7, None, 0x4000_001b),
            (Job, 7, Some(3), 0x4000_001c),
            (Job, 4, Some(3), 0x3000_0023),
            (Job, 7, Some(3), 0x4800_0003),
        ],
    ),
    (
        b"glue counts",
        &[
            (Mapping, 4, None, 0x7000_0000),
            (Mapping, 4, None, 0x7fff_ffff),
        ],
    ),
    (
        b"two refusals of one word",
        &[
            (Job, 6, Some(2), 0x3000_0000),
            (Job, 1, Some(2), 0x1000_0000),
            (Job, 5, Some(4), 0x3000_0001),
            (Mapping, 2, Some(3), 0x6087_c960),
            (Mapping, 2, Some(4), 0x6098_0140),
            (Mapping, 2, Some(4), 0x6084_0000),
            (Mapping, 2, Some(5), 0x6118_0140),
        ],
    ),
];

fn with_file(all: Numbers, counted: Counted) -> Numbers {
    let (sizes, read, said) = counted;
    let mut words = plain(sizes);
    if let Some(n) = read {
        words.resize(n);
    }
    compare(all, sizes.file(), words.written(), Some(said))
}

// In a job of 3 sources, 3 targets and 3 rules, or a mapping of 3 bindings.
fn with_change(all: Numbers, change: Change) -> Numbers {
    let (file, place, refused, word) = change;
    let sizes = match file {
        Job => JobOf(3, 3, 3),
        Mapping => MappingOf(3),
    };
    let mut words = plain(sizes);
    words.put(place, word);
    let said = match refused {
        Some(number) => Err((number, place)),
        None => Ok(()),
    };
    compare(all, file, words.written(), Some(said))
}

fn with_files(files: &[Counted]) -> Numbers {
    let mut all = Numbers::default();
    for counted in files {
        all = with_file(all, *counted);
    }
    all
}

fn with_changes(changes: &[Change]) -> Numbers {
    let mut all = Numbers::default();
    for change in changes {
        all = with_change(all, *change);
    }
    all
}

pub fn report_sizes(rt: &HostRuntime) {
    for group in &FILES {
        report(rt, group.name, with_files(group.files));
    }
}

pub fn report_words(rt: &HostRuntime) {
    for (name, changes) in &CHANGES {
        report(rt, name, with_changes(changes));
    }
}
