// Jobs and mappings of which it is known what the checker and the pricer say, with plain and with negated targets.
use crate::show::show;
use rulings::checking::Pair;
use testing::words::{JOB, MAPPING, MARK};

// A name for the job with the plain target, and one for that with the negated target; the job, its target last; and the mapping.
type Known = (&'static [u8], &'static [u8], [u32; 4], [u32; 3]);

const KNOWN: [Known; 10] = [
    // The output as it is, and complemented.
    (
        b"NAND as AND",
        b"NAND as negated AND",
        [0x1000_0010, 0x2001_0103, 0x3000_0009, 0x4000_0008],
        [0x1000_0010, 0x64A1_4100, 0x7000_0000],
    ),
    (
        b"NAND as NOT AND",
        b"NAND as NOT negated AND",
        [0x1000_0010, 0x2001_0103, 0x3000_0009, 0x4000_0008],
        [0x1000_0010, 0x64A1_4200, 0x7000_0010],
    ),
    // OCOUT and OVF do not come out complemented.
    (
        b"SUB as NOT SUB",
        b"SUB as NOT negated SUB",
        [0x1000_0010, 0x2001_0103, 0x3000_0002, 0x4000_0002],
        [0x1000_0010, 0x6109_4A60, 0x7000_0010],
    ),
    (
        b"SUB as NOT SUB, NOT its carry",
        b"SUB as NOT negated SUB, NOT its carry",
        [0x1000_0010, 0x2001_0103, 0x3000_0002, 0x4000_0002],
        [0x1000_0010, 0x6109_4AA0, 0x7000_0011],
    ),
    // TO1; all bits joined; and S beside TOVF.
    (
        b"NEQ as EQ",
        b"NEQ as negated EQ",
        [0x1000_0010, 0x2001_0103, 0x3000_0017, 0x4000_0016],
        [0x1000_0010, 0x6BD9_4001, 0x7000_0000],
    ),
    (
        b"EQ as GAND of XOR",
        b"EQ as GAND of negated XOR",
        [0x1000_0010, 0x2001_0103, 0x3000_0016, 0x4000_000C],
        [0x1000_0010, 0x6B31_4005, 0x7000_000F],
    ),
    (
        b"LT as S XOR TOVF of SUB",
        b"LT as S XOR TOVF of negated SUB",
        [0x1000_0010, 0x2001_0103, 0x3000_0019, 0x4000_0002],
        [0x1000_0010, 0x6C89_440C, 0x7000_0001],
    ),
    (
        b"LT as NOT S XOR TOVF of SUB",
        b"LT as NOT S XOR TOVF of negated SUB",
        [0x1000_0010, 0x2001_0103, 0x3000_0019, 0x4000_0002],
        [0x1000_0010, 0x6C89_440D, 0x7000_0002],
    ),
    // No target, and one that is not in the job.
    (
        b"AND from scratch beside AND",
        b"AND from scratch beside negated AND",
        [0x1000_0010, 0x2001_0103, 0x3000_0008, 0x4000_0008],
        [0x1000_0010, 0x6400_0001, 0x7000_0010],
    ),
    (
        b"NAND as AND beside SUB",
        b"NAND as AND beside negated SUB",
        [0x1000_0010, 0x2001_0103, 0x3000_0009, 0x4000_0002],
        [0x1000_0010, 0x64A1_4100, 0x7000_0000],
    ),
];

// The printed job with its targets marked, beside the printed mapping.
const PRINTED: [(&[u8], [u32; 2]); 4] = [
    (b"printed, no target negated", [0x4000_0001, 0x4000_0002]),
    (b"printed, ADD negated", [0x4000_0021, 0x4000_0002]),
    (b"printed, SUB negated", [0x4000_0001, 0x4000_0022]),
    (b"printed, both negated", [0x4000_0021, 0x4000_0022]),
];

// The target plain, and negated.
fn show_known(rt: &HostRuntime, known: Known) {
    let (plain, negated, job, mapping) = known;
    let mut marked = job;
    marked[3] = job[3] | MARK;
    for (name, job) in [(plain, job), (negated, marked)] {
        let pair = Pair {
            job: &job,
            mapping: &mapping,
        };
        show(rt, name, &pair);
    }
}

fn show_printed(rt: &HostRuntime, name: &[u8], targets: [u32; 2]) {
    let mut job = JOB;
    job[6..8].copy_from_slice(&targets);
    let pair = Pair {
        job: &job,
        mapping: &MAPPING,
    };
    show(rt, name, &pair);
}

fn report_known(rt: &HostRuntime) {
    for known in KNOWN {
        show_known(rt, known);
    }
}

fn report_printed(rt: &HostRuntime) {
    for (name, targets) in PRINTED {
        show_printed(rt, name, targets);
    }
}

pub fn report_negated(rt: &HostRuntime) {
    report_known(rt);
    report_printed(rt);
}
