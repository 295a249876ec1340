// An input for every kind of answer that the programs print: the printed job and its mapping, cut to so many bytes and with a word changed.
use crate::said;
use input::Input;
use testing::words::{JOB, MAPPING};

// A word of a file changed: its place, and the word.
type Change = Option<(usize, u32)>;

fn put(words: &mut [u32], changed: Change) {
    if let Some((place, word)) = changed {
        if place < words.len() {
            words[place] = word;
        }
    }
}

// So many bytes of a job with a word changed, mapped and opened.
fn map(rt: &HostRuntime, bytes: usize, changed: Change) {
    let mut job = JOB;
    put(&mut job, changed);
    said::map(rt, Input::of_words(&job, bytes));
    said::open(rt, Input::of_words(&job, bytes));
}

pub fn map_inputs(rt: &HostRuntime) {
    map(rt, 56, None);
    map(rt, 0, None); // 1
    map(rt, 56, Some((1, 0x30000001))); // 2
    map(rt, 56, Some((0, 0x10000041))); // 3
    map(rt, 56, Some((3, 0x30000001))); // 4
    map(rt, 56, Some((8, 0x50A14960))); // 5
    map(rt, 56, Some((8, 0x50854940))); // 6
    map(rt, 56, Some((13, 0x5C894407))); // 12
    map(rt, 57, None); // cut short
    map(rt, 58, Some((0, 0x10000041))); // cut short, which comes before 3
    map(rt, 3, None); // cut short in its first word
}

// So many bytes of a job with a word changed, and of its mapping.
fn check_job(rt: &HostRuntime, bytes: usize, changed: Change, mapping_bytes: usize) {
    let mut job = JOB;
    put(&mut job, changed);
    let mapping = Input::of_words(&MAPPING, mapping_bytes);
    said::check(rt, Input::of_words(&job, bytes), mapping);
}

// The whole job, and so many bytes of a mapping with a word changed.
fn check_mapping(rt: &HostRuntime, bytes: usize, changed: Change) {
    let mut mapping = MAPPING;
    put(&mut mapping, changed);
    let mapping = Input::of_words(&mapping, bytes);
    said::check(rt, Input::of_words(&JOB, 56), mapping);
}

fn check_jobs(rt: &HostRuntime) {
    check_job(rt, 0, None, 24); // 1
    check_job(rt, 56, Some((1, 0x30000001)), 24); // 2
    check_job(rt, 56, Some((0, 0x10000041)), 24); // 3
    check_job(rt, 56, Some((3, 0x30000001)), 24); // 4
    check_job(rt, 56, Some((8, 0x50A14960)), 24); // 5
    check_job(rt, 56, Some((8, 0x50854940)), 24); // 6
    check_job(rt, 57, None, 24); // cut short
    check_job(rt, 58, Some((0, 0x10000041)), 24); // cut short, which comes before 3
    check_job(rt, 57, None, 25); // both cut short
    check_job(rt, 56, Some((3, 0x30000001)), 25); // 4, which comes before the mapping cut short
}

pub fn check_inputs(rt: &HostRuntime) {
    check_mapping(rt, 24, None);
    check_jobs(rt);
    check_mapping(rt, 0, None); // 1
    check_mapping(rt, 20, None); // 2
    check_mapping(rt, 24, Some((0, 0x10000041))); // 3
    check_mapping(rt, 24, Some((2, 0x60854960))); // 4
    check_mapping(rt, 24, Some((1, 0x60A14960))); // 5
    check_mapping(rt, 24, Some((1, 0x60854940))); // 6
    check_mapping(rt, 24, Some((0, 0x10000008))); // 7
    check_mapping(rt, 24, Some((2, 0x618D4960))); // 8
    check_mapping(rt, 20, Some((4, 0x70000000))); // 9
    check_mapping(rt, 24, Some((4, 0x6C894407))); // 10
    check_mapping(rt, 24, Some((5, 0x70000085))); // 11
    check_mapping(rt, 24, Some((5, 0x70000094))); // 11: document 01's count, a control gate for each minterm
    check_mapping(rt, 25, None); // cut short
}
