// A glue count: for each code it asks the bindings whether one of them has it, and it multiplies by adding.
use reference::recipe::fields_of;
use testing::tally::more;

// The width and the prices of an inverter, a gate and a multiplexer.
#[derive(Clone, Copy)]
pub struct Costs {
    pub n: u64,
    pub inverter: u64,
    pub gate: u64,
    pub multiplexer: u64,
}

// The bit that stands in each vector besides its own four.
const IN_EACH: u32 = 16;

// The ports for which a binding with a target has codes; and the vector of a binding from scratch, which has a code if they share a
// bit.
#[derive(Clone, Copy, PartialEq, Eq)]
enum Port {
    Left,
    Right,
    CarryIn,
    Main,
    CarryOut,
    Comparison,
    Vector,
}

// An entry in which nothing stands has none.
fn has(word: u32, port: Port, code: u32) -> bool {
    if word == 0 {
        return false;
    }
    let fields = fields_of(word);
    if fields.target == 0 {
        return (port == Port::Vector) & ((fields.code | IN_EACH) & code != 0);
    }
    match port {
        Port::Left => fields.left == code,
        Port::Right => fields.right == code,
        Port::CarryIn => fields.carry == code,
        Port::Main => fields.main == code,
        Port::CarryOut => fields.cout == code,
        Port::Comparison => fields.code == code,
        Port::Vector => false,
    }
}

// An amount so many times.
fn times(amount: u64, count: u64) -> u64 {
    let mut sum = 0u64;
    for _ in 0..count {
        sum = sum.wrapping_add(amount);
    }
    sum
}

impl Costs {
    // The gates and the inverters of a comparison code.
    fn of_code(self, code: u32) -> u64 {
        let n = self.n;
        let gates = match code {
            3..=6 => n.saturating_sub(1),
            9..=11 => n,
            12 | 13 => 1,
            14 | 15 => n.wrapping_add(1),
            _ => 0,
        };
        let inverters = match code {
            2 | 4 | 6 | 8 | 9 | 10 | 13 | 14 => 1,
            11 | 15 => 2,
            _ => 0,
        };
        times(self.gate, gates).wrapping_add(times(self.inverter, inverters))
    }
}

// Bindings whose glue is counted.
#[derive(Clone, Copy)]
struct Glue<'a> {
    bindings: &'a [u32],
    costs: Costs,
}

impl Glue<'_> {
    // Whether a binding has a code at a port.
    fn uses(&self, port: Port, code: u32) -> bool {
        self.bindings.iter().any(|word| has(*word, port, code))
    }

    // An amount, where a code is in use.
    fn paid(&self, port: Port, code: u32, amount: u64) -> u64 {
        if self.uses(port, code) { amount } else { 0 }
    }

    // How many of the codes from one on to before another are in use at a port.
    fn distinct(&self, port: Port, from: u32, end: u32) -> u64 {
        (from..end).filter(|code| self.uses(port, *code)).count() as u64
    }

    fn codes(&self) -> u64 {
        let mut sum = 0u64;
        for code in 1..16 {
            let cost = self.costs.of_code(code);
            sum = sum.wrapping_add(self.paid(Port::Comparison, code, cost));
        }
        sum
    }

    // The multiplexers at one place of a word, and those of a bit: one for each code past the first of a port.
    fn multiplexers(&self) -> u64 {
        let left = self.distinct(Port::Left, 0, 6).saturating_sub(1);
        let right = self.distinct(Port::Right, 0, 6).saturating_sub(1);
        let scratch = self.paid(Port::Vector, IN_EACH, 1);
        let main = self
            .distinct(Port::Main, 1, 3)
            .wrapping_add(scratch)
            .saturating_sub(1);
        let carry_in = self.distinct(Port::CarryIn, 0, 4).saturating_sub(1);
        let carry_out = self.distinct(Port::CarryOut, 1, 3).saturating_sub(1);
        let comparison = self.distinct(Port::Comparison, 1, 16).saturating_sub(1);
        let words = left.wrapping_add(right).wrapping_add(main);
        let bits = carry_in.wrapping_add(carry_out).wrapping_add(comparison);
        times(words, self.costs.n).wrapping_add(bits)
    }

    // The inverters, but for those of comparison codes: of an operand for both sides together, and of one for the minterms.
    fn inverters(&self) -> u64 {
        let left = more(0, self.uses(Port::Left, 3) | self.uses(Port::Right, 3));
        let wired = more(left, self.uses(Port::Left, 5) | self.uses(Port::Right, 5));
        let main = self.paid(Port::Main, 2, 1);
        let minterms = self
            .paid(Port::Vector, 12, 1)
            .wrapping_add(self.paid(Port::Vector, 10, 1));
        let words = wired.wrapping_add(main).wrapping_add(minterms);
        let bits = self
            .paid(Port::CarryIn, 3, 1)
            .wrapping_add(self.paid(Port::CarryOut, 2, 1));
        times(words, self.costs.n).wrapping_add(bits)
    }

    // Whether each binding from scratch has a minterm.
    fn all_need(&self, minterm: u32) -> bool {
        self.bindings.iter().all(|word| {
            !has(*word, Port::Vector, IN_EACH) | has(*word, Port::Vector, minterm)
        })
    }

    // The gates of a minterm at a place: its own, one to join it, and one to control it unless all need it.
    fn gates_of(&self, minterm: u32) -> u64 {
        self.paid(Port::Vector, minterm, more(2, !self.all_need(minterm)))
    }

    // The gates of the minterms, of which the first has none to join it to.
    fn gates(&self) -> u64 {
        let mut sum = 0u64;
        for minterm in [1, 2, 4, 8] {
            sum = sum.wrapping_add(self.gates_of(minterm));
        }
        times(sum.saturating_sub(1), self.costs.n)
    }

    fn count(&self) -> u64 {
        let muxes = times(self.costs.multiplexer, self.multiplexers());
        let nots = times(self.costs.inverter, self.inverters());
        let made = times(self.costs.gate, self.gates());
        muxes
            .wrapping_add(nots)
            .wrapping_add(made.wrapping_add(self.codes()))
    }
}

// The glue count of bindings at a width and prices.
pub fn glue_count(bindings: &[u32], costs: Costs) -> u64 {
    Glue { bindings, costs }.count()
}
