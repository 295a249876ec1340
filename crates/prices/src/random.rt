// Recipe words, widths and prices made of random numbers.
use accounts::glue::Costs;
use reference::trial::next;

// A binding with a target, its codes those of the layout, or one from scratch. One word in eight has any bits.
pub fn word_from(x: u64) -> u32 {
    let y = x / 8;
    if x % 8 == 0 {
        return (y % 0x1_0000_0000) as u32;
    }
    if x % 8 < 3 {
        return 0x6000_0000 | (((y % 16) as u32 + 6) << 23) | (y / 16 % 16) as u32;
    }
    let functions = ((y % 27) as u32) << 23 | (((y / 32 % 27) as u32 + 1) << 18);
    let wirings = ((y / 1024 % 6) as u32) << 15 | (((y / 8192 % 6) as u32) << 12);
    let carry = ((y / 65536 % 4) as u32) << 10;
    let main = ((y / 262144 % 3) as u32) << 8;
    let cout = ((y / 1048576 % 3) as u32) << 6;
    let ovf = ((y / 4194304 % 2) as u32) << 5;
    0x6000_0000 | functions | wirings | carry | main | cout | ovf | (y / 8388608 % 16) as u32
}

// From 1 to 64, often one of the two.
fn width_from(x: u64) -> u64 {
    match x % 8 {
        0 => 1,
        1 => 64,
        _ => x / 8 % 64 + 1,
    }
}

// From 0 to 255, often 0, 1 or 255.
fn price_from(x: u64) -> u64 {
    match x % 8 {
        0 => 0,
        1 => 1,
        2 => 255,
        _ => x / 8 % 256,
    }
}

pub fn costs_from(x: u64) -> Costs {
    let y = next(x);
    Costs {
        n: width_from(x),
        inverter: price_from(y),
        gate: price_from(y / 2048),
        multiplexer: price_from(y / 4194304),
    }
}
