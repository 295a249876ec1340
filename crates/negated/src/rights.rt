// How many recipes are right with a plain target, with a negated one, and with both.
use crate::trial::Right;
use std::fmt;
use testing::tally::more;

#[derive(Clone, Copy, Default)]
pub struct Rights {
    plain: u64,
    negated: u64,
    both: u64,
}

impl Rights {
    pub fn count(&mut self, right: Right) {
        self.plain = more(self.plain, right.plain);
        self.negated = more(self.negated, right.negated);
        self.both = more(self.both, right.plain & right.negated);
    }
}

impl fmt::Display for Rights {
    fn fmt<W: fmt::Write>(&self, f: &mut fmt::Formatter<W>) -> fmt::Result {
        write!(
            f,
            "{} plain, {} negated, {} both",
            self.plain, self.negated, self.both
        )
    }
}
