// Counts of what was compared. They never come near 2^64.
use std::fmt;

// A count, raised by one where b.
pub fn more(n: u64, b: bool) -> u64 {
    n.wrapping_add(b as u64)
}

// The answers compared, and how many of them differ.
#[derive(Clone, Copy, PartialEq, Eq, Default)]
pub struct Tally {
    pub compared: u64,
    pub differ: u64,
}

impl Tally {
    // One comparison more.
    pub fn count(&mut self, same: bool) {
        self.count_or(same, || {});
    }

    // One comparison more. The first that differs is told.
    pub fn count_or<F: FnOnce()>(&mut self, same: bool, tell: F)
        requires { F.IsAlwaysCallable tell }
    {
        if !same & (self.differ == 0) {
            tell();
        }
        self.compared = more(self.compared, true);
        self.differ = more(self.differ, !same);
    }

    // The comparisons of another tally more.
    pub fn add(&mut self, others: Tally) {
        self.compared = self.compared.wrapping_add(others.compared);
        self.differ = self.differ.wrapping_add(others.differ);
    }
}

impl fmt::Display for Tally {
    fn fmt<W: fmt::Write>(&self, f: &mut fmt::Formatter<W>) -> fmt::Result {
        write!(f, "{} compared, {} differ", self.compared, self.differ)
    }
}

// The same with how many had each number of a refusal, and before these how many had none.
#[derive(Clone, Copy, Default)]
pub struct Numbers {
    pub tally: Tally,
    pub by: [u64; 12],
}

pub fn noted(all: Numbers, number: Option<u32>, same: bool) -> Numbers {
    noted_or(all, number, same, || {})
}

// The first that differs is told.
pub fn noted_or<F: FnOnce()>(all: Numbers, number: Option<u32>, same: bool, tell: F) -> Numbers
    requires { F.IsAlwaysCallable tell }
{
    let mut all = all;
    all.tally.count_or(same, tell);
    let i = (number.unwrap_or(0) % 12) as usize;
    all.by[i] = more(all.by[i], true);
    all
}
