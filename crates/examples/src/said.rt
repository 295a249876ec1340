// What map_job, work_bench and check_mapping print of what was read of files.
use input::Input;
use sequence::MOST_MAPPING_WORDS;
use text::Said;

pub fn map(rt: &HostRuntime, job: Input) {
    // Kept: lent words and how many were written, as document 01 has a mapping written.
    let mut lent = [0u32; MOST_MAPPING_WORDS];
    let mut text = Said::new();
    let mapped = map_answers::map_input(Ok(job), &mut lent, &mut text);
    if mapped.is_ok() {
        let _ = console::print(rt, text.as_bytes());
    }
}

pub fn open(rt: &HostRuntime, job: Input) {
    let mut text = Said::new();
    let _ = bench_answers::open(Ok(job), &mut text);
    let _ = console::print(rt, text.as_bytes());
}

pub fn check(rt: &HostRuntime, job: Input, mapping: Input) {
    let mut text = Said::new();
    check_answers::check_inputs(Ok(job), Ok(mapping), &mut text);
    let _ = console::print(rt, text.as_bytes());
}
