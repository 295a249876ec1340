// What the lines of the glue count are made of: codes counted, amounts of pieces, and the prices of the comparison codes.
#![tactic(auto)]

ghost use Rattle.std.specs.Prelude.{◌≡◌, ◌+◌, ◌*◌, ◌≤◌, ◌<◌, if◌then◌else◌};
ghost use Rattle.bits.specs.Bits as B;
ghost use Rattle.glue.specs.Glue as G;
ghost use Rattle.glue.specs.Codes as C;

use bits::Width;
use words::Prices;

// Whether a code is in use.
pub fn has(part: u64, code: u32) -> bool
    requires { code < 32 }
    ensures { result ≡ B.bit part code }
{
    bits::bit(part, code)
}

// How many of `size` codes are in use, from one code on.
#[tactic(auto, using(crate::proofs::Counts::counted, crate::proofs::Counts::counted_most))]
pub fn distinct(part: u64, from: u32, size: u32) -> u32
    requires { (from < 32) × (size ≤ 15) }
    ensures { (result ≡ G.distinct (B.bit part) (C.codes from size)) × (result ≤ size) }
{
    u64::count_ones((part >> from) % (1 << size))
}

pub fn steps(distinct: u32) -> u32
    ensures { result ≡ G.steps distinct }
{
    distinct.saturating_sub(1)
}

// So many pieces at a price.
pub fn amount(pieces: u32, price: u8) -> u32
    requires { pieces ≤ 4096 }
    ensures { (result ≡ pieces * price) × (result ≤ 1044480) }
{
    pieces * (price as u32)
}

// The same so many times.
pub fn amount_each(pieces: u32, times: u32, price: u8) -> u32
    requires { (pieces ≤ 64) × (times ≤ 64) }
    ensures { (result ≡ pieces * times * price) × (result ≤ 1044480) }
{
    amount(pieces * times, price)
}

// What is paid only if it is used.
pub fn when(used: bool, amount: u32) -> u32
    ensures { (result ≡ (if used then amount else 0)) × (result ≤ amount) }
{
    if used { amount } else { 0 }
}

// The price of a comparison code.
fn code_price(width: Width, prices: Prices, code: u32) -> u32
    requires { code < 16 }
    ensures { result ≡ G.code_price width.n prices code }
{
    let a = prices.inverter as u32;
    let b = prices.gate as u32;
    let joined = amount(width.n - 1, prices.gate);
    let signed = amount(width.n, prices.gate);
    let overflowed = amount(width.n + 1, prices.gate);
    let codes = [
        0, // 0 none
        0, // 1 TO1
        a, // 2 NOT TO1
        joined, // 3 GOR
        joined + a, // 4 GNOR
        joined, // 5 GAND
        joined + a, // 6 GNAND
        0, // 7 S
        a, // 8 NOT S
        signed + a, // 9 S OR GNOR
        signed + a, // 10 NOT S AND GOR
        signed + 2 * a, // 11 NOT S AND GNOR
        b, // 12 S XOR TOVF
        b + a, // 13 NOT of 12
        overflowed + a, // 14 (code 12) OR GNOR
        overflowed + 2 * a, // 15 NOT of 14
    ];
    codes[code as usize]
}

// The prices of the comparison codes in use, summed.
pub fn codes_count(width: Width, prices: Prices, part: u64) -> u32
    ensures { (result ≡ G.codes_count (G.code_price width.n prices) (B.bit part) G.comparison_codes) × (result ≤ 149940) }
{
    let mut total = 0;
    for code in 1..16 {
        total += when(has(part, code), code_price(width, prices, code));
    }
    total
}
