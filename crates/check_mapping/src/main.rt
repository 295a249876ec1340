// Checks a mapping against its job: check_mapping JOB MAPPING, two file names. It prints ACCEPTED, or the refusal. What cannot be read or
// written is said on standard error.
#![tactic(auto)]

use text::Said;

// Checks the mapping of the two files.
fn check(rt: &HostRuntime) {
    let job = input::read_file(rt, 1);
    let mapping = input::read_file(rt, 2);
    let mut text = Said::new();
    check_answers::check_inputs(job, mapping, &mut text);
    let _ = console::print(rt, text.as_bytes());
}

// How the program is called.
const USAGE: [u8; 33] = *b"usage: check_mapping JOB MAPPING\n";

fn main(rt: HostRuntime) {
    let run = arguments::may_run(
        &rt,
        3,
        3,
        &USAGE,
        &[
            &USAGE,
            b"\n\
        Prints ACCEPTED, or the refusal of the mapping or of its job. The files hold words of four bytes, the lowest first, as\n\
        map_job writes them and pack_words makes them of text.\n\
        \n\
        example: map_job mapping < job && check_mapping job mapping\n",
        ],
    );
    if run {
        check(&rt);
    }
}
