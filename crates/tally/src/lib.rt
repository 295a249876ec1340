// The glue count of the bindings that use a set: document 01, "Glue count", line by line, and the gates of the minterms as request #106 has
// them.
#![tactic(auto)]

ghost use Rattle.std.specs.Prelude.{◌≡◌, ◌-◌, ◌*◌, ◌≤◌, ◌<◌};
ghost use Rattle.bits.specs.Bits as B;
ghost use Rattle.glue.specs.Codes as C;
ghost use Rattle.glue.specs.Glue as G;
ghost use Rattle.tally.specs.Parts as P;

use bits::Width;
use glue::{amount, amount_each, codes_count, distinct, has, steps, when};
use words::Prices;

// A set of what is in use, taken apart: of each port a bit for each code, one for LO, and of the minterms one for each that some vector
// has, and one for each that some vector lacks.
#[derive(Clone, Copy)]
struct Parts {
    left: u64,
    right: u64,
    carry: u64,
    main: u64,
    cout: u64,
    code: u64,
    scratch: u64,
    minterms: u64,
    lacking: u64,
}

fn parts_of(usage: u64) -> Parts
    ensures { result ≡ P.parts_of usage }
{
    Parts {
        left: usage & 0xff,
        right: (usage >> 8) & 0xff,
        carry: (usage >> 16) & 0xf,
        main: (usage >> 20) & 0xf,
        cout: (usage >> 24) & 0xf,
        code: (usage >> 28) & 0xffff,
        scratch: (usage >> 44) & 1,
        minterms: (usage >> 45) & 0xf,
        lacking: (usage >> 49) & 0xf,
    }
}

// Glue to be counted: what is in use, at a width and at prices. It has a method for each line of document 01's count.
#[derive(Clone, Copy)]
struct Glue {
    width: Width,
    prices: Prices,
    parts: Parts,
}

impl Glue {
    // A multiplexer of n bits for each code in use but one, of `size` codes from one code on.
    fn multiplexers(self, n: u32, codes: u64, from: u32, size: u32) -> u32
        requires { (n ≤ 64) × (from < 32) × (size ≤ 15) }
        ensures { (result ≡ G.steps (G.distinct (B.bit codes) (C.codes from size)) * n * self.prices.multiplexer) × (result ≤ (size - 1) * n * 255) }
    {
        amount_each(
            steps(distinct(codes, from, size)),
            n,
            self.prices.multiplexer,
        )
    }

    // Left and right.
    #[tactic(auto, unfolding(glue::specs::Glue::wirings))]
    fn wirings(self) -> u32
        ensures { (result ≡ G.wirings self.width.n self.prices (P.used self.parts)) × (result ≤ 163200) }
    {
        self.multiplexers(self.width.n, self.parts.left, 0, 6)
            + self.multiplexers(self.width.n, self.parts.right, 0, 6)
    }

    // NOT SI0 and NOT SI1, each once, whichever port uses it.
    #[tactic(auto, unfolding(glue::specs::Glue::complements))]
    fn complements(self) -> u32
        ensures { (result ≡ G.complements self.width.n self.prices (P.used self.parts)) × (result ≤ 32640) }
    {
        let parts = self.parts;
        let inverters = amount(self.width.n, self.prices.inverter);
        when(has(parts.left, 3) | has(parts.right, 3), inverters)
            + when(has(parts.left, 5) | has(parts.right, 5), inverters)
    }

    // Kept: this and carry_out differ in constants, but each is a line of document 01's glue count.
    #[tactic(auto, unfolding(glue::specs::Glue::carry_in))]
    fn carry_in(self) -> u32
        ensures { (result ≡ G.carry_in self.prices (P.used self.parts)) × (result ≤ 1020) }
    {
        self.multiplexers(1, self.parts.carry, 0, 4)
            + when(has(self.parts.carry, 3), self.prices.inverter as u32)
    }

    #[tactic(auto, unfolding(glue::specs::Glue::main_output))]
    fn main_output(self) -> u32
        ensures { (result ≡ G.main_output self.width.n self.prices (P.used self.parts)) × (result ≤ 48960) }
    {
        let outputs = distinct(self.parts.main, 1, 2) + when(has(self.parts.scratch, 0), 1);
        amount_each(steps(outputs), self.width.n, self.prices.multiplexer)
            + when(
                has(self.parts.main, 2),
                amount(self.width.n, self.prices.inverter),
            )
    }

    #[tactic(auto, unfolding(glue::specs::Glue::carry_out))]
    fn carry_out(self) -> u32
        ensures { (result ≡ G.carry_out self.prices (P.used self.parts)) × (result ≤ 510) }
    {
        self.multiplexers(1, self.parts.cout, 1, 2)
            + when(has(self.parts.cout, 2), self.prices.inverter as u32)
    }

    #[tactic(auto, unfolding(glue::specs::Glue::comparison))]
    fn comparison(self) -> u32
        ensures { (result ≡ G.comparison self.width.n self.prices (P.used self.parts)) × (result ≤ 153510) }
    {
        self.multiplexers(1, self.parts.code, 1, 15)
            + codes_count(self.width, self.prices, self.parts.code)
    }

    // The gates at a place of so many minterms: "minterm, control gate, joining". A minterm that no vector lacks has no control gate.
    #[tactic(auto, using(crate::proofs::Gates::gates_are))]
    fn gates(self, minterms: u32) -> u32
        requires { (minterms ≡ G.distinct (B.bit self.parts.minterms) (C.codes 0 4)) × (1 ≤ minterms) × (minterms ≤ 4) }
        ensures { (result ≡ G.gates (P.used self.parts)) × (result ≤ 11) }
    {
        let controlled = distinct(self.parts.minterms & self.parts.lacking, 0, 4);
        minterms + controlled + (minterms - 1)
    }

    // The gates of the minterms in use, and the complements that they read.
    #[tactic(auto, unfolding(glue::specs::Glue::scratch))]
    fn scratch(self) -> u32
        ensures { (result ≡ G.scratch self.width.n self.prices (P.used self.parts)) × (result ≤ 212160) }
    {
        let minterms = distinct(self.parts.minterms, 0, 4);
        if minterms < 1 {
            return 0;
        }
        let inverters = amount(self.width.n, self.prices.inverter);
        let neither = has(self.parts.minterms, 3);
        amount_each(self.width.n, self.gates(minterms), self.prices.gate)
            + when(neither | has(self.parts.minterms, 2), inverters)
            + when(neither | has(self.parts.minterms, 1), inverters)
    }
}

// The count of a set.
#[tactic(auto, unfolding(crate::specs::Parts::set_count))]
pub fn price(usage: u64, width: Width, prices: Prices) -> u32
    ensures { (result ≡ P.set_count width.n prices usage) × (result ≤ 612000) }
{
    let glue = Glue {
        width,
        prices,
        parts: parts_of(usage),
    };
    let inputs = glue.wirings() + glue.complements() + glue.carry_in();
    let outputs = glue.main_output() + glue.carry_out() + glue.comparison();
    inputs + outputs + glue.scratch()
}
