// Jobs in which the minterms that all vectors have decide between a rule from scratch and one from a target (request #106): at the first
// prices the target's is taken, at the second, which differ by 1, the one from scratch.
use crate::show::mapped_with;

// Names for the two prices; the prices; and the job, whose second word is to be the prices.
struct Known {
    names: [&'static [u8]; 2],
    prices: [u32; 2],
    job: &'static [u32],
}

const KNOWN: [Known; 4] = [
    // From scratch 16, the only vector's minterm having no control gate; NOT of a target's NAND 8 or 16.
    Known {
        names: [
            b"AND, from scratch or NOT NAND, inverter 1",
            b"AND, from scratch or NOT NAND, inverter 2",
        ],
        prices: [0x20010201, 0x20020201],
        job: &[
            0x10000008, 0, 0x30000008, 0x40000009, 0x54000001, 0x54254200,
        ],
    },
    // Beside AND, which then has its control gate too, from scratch 80 more; NOT of a target's OR 72 or 80 more.
    Known {
        names: [
            b"NOR beside AND, from scratch or NOT OR, multiplexer 8",
            b"NOR beside AND, from scratch or NOT OR, multiplexer 9",
        ],
        prices: [0x20010208, 0x20010209],
        job: &[
            0x10000008, 0, 0x30000008, 0x3000000B, 0x4000000A, 0x54000001, 0x55800008, 0x55A94200,
        ],
    },
    // Beside LID, with which it shares one of two minterms, from scratch 72 more; NOT of a target's RNOT 64 or 72 more.
    Known {
        names: [
            b"RID beside LID, from scratch or NOT RNOT, multiplexer 7",
            b"RID beside LID, from scratch or NOT RNOT, multiplexer 8",
        ],
        prices: [0x20010207, 0x20010208],
        job: &[
            0x10000008, 0, 0x3000000E, 0x3000000F, 0x40000011, 0x57000003, 0x57800005, 0x57C54200,
        ],
    },
    // Beside the vector 0000, which has no minterm, from scratch 32 more; NOT of a target's NAND 24 or 32 more.
    Known {
        names: [
            b"AND beside 0000, from scratch or NOT NAND, multiplexer 2",
            b"AND beside 0000, from scratch or NOT NAND, multiplexer 3",
        ],
        prices: [0x20010202, 0x20010203],
        job: &[
            0x10000008, 0, 0x30000006, 0x30000008, 0x40000009, 0x53000000, 0x54000001, 0x54254200,
        ],
    },
];

pub fn report_needed_by_all(rt: &HostRuntime) {
    for known in &KNOWN {
        for (name, prices) in known.names.iter().zip(known.prices) {
            mapped_with(rt, name, known.job, (1, prices), 4);
        }
    }
}
