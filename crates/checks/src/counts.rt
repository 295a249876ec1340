// Mappings that have bindings from scratch, with their own count and with document 01's older one, which has a control gate for each minterm:
// request #106 refuses it with 11, where it differs.
use crate::show::show;
use rulings::checking::Pair;
use testing::words::{JOB, MAPPING, Words, glue_word};

// A name for the mapping with its own count, and one for that with the older; the job; the mapping; and the older count.
type Known = (
    &'static [u8],
    &'static [u8],
    &'static [u32],
    &'static [u32],
    u64,
);

const KNOWN: [Known; 5] = [
    (b"printed, 132", b"printed, 148", &JOB, &MAPPING, 148),
    (
        b"AND from scratch, 16",
        b"AND from scratch, 32",
        &[0x1000_0010, 0x2001_0103, 0x3000_0008],
        &[0x1000_0010, 0x6400_0001, 0x7000_0010],
        32,
    ),
    (
        b"AND and OR from scratch, 144",
        b"AND and OR from scratch, 160",
        &[0x1000_0010, 0x2001_0103, 0x3000_0008, 0x3000_000A],
        &[0x1000_0010, 0x6400_0001, 0x6500_0007, 0x7000_0090],
        160,
    ),
    // No minterm that both have; and none at all in the first.
    (
        b"AND and NOR from scratch, 112",
        b"AND and NOR from scratch, 112 by the older count too",
        &[0x1000_0010, 0x2001_0103, 0x3000_0008, 0x3000_000B],
        &[0x1000_0010, 0x6400_0001, 0x6580_0008, 0x7000_0070],
        112,
    ),
    (
        b"0000 and AND from scratch, 32",
        b"0000 and AND from scratch, 32 by the older count too",
        &[0x1000_0010, 0x2001_0103, 0x3000_0006, 0x3000_0008],
        &[0x1000_0010, 0x6300_0000, 0x6400_0001, 0x7000_0020],
        32,
    ),
];

// The mapping with another count.
fn with_count(mapping: &[u32], count: u64) -> Words<6> {
    let mut words = Words::of(mapping);
    words.put(mapping.len().wrapping_sub(1), glue_word(count));
    words
}

fn show_known(rt: &HostRuntime, known: Known) {
    let (own, older, job, mapping, count) = known;
    show(rt, own, &Pair { job, mapping });
    let other = with_count(mapping, count);
    let pair = Pair {
        job,
        mapping: other.written(),
    };
    show(rt, older, &pair);
}

pub fn report_counts(rt: &HostRuntime) {
    for known in KNOWN {
        show_known(rt, known);
    }
}
