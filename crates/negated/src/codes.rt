// The comparison codes of the recipes that have a target: how many recipes with each were judged with a negated target, and how many of
// them are right at width 1 and at width 3.
use crate::trial::Right;
use reference::recipe::fields_of;
use testing::tally::more;

#[derive(Clone, Copy, Default)]
struct OfCode {
    recipes: u64,
    one: u64,
    three: u64,
}

#[derive(Clone, Copy, Default)]
pub struct Codes {
    by: [OfCode; 16],
}

impl Codes {
    // From scratch there is no code: its bits are the vector's.
    pub fn count(&mut self, content: u32, one: Right, three: Right) {
        let fields = fields_of(content);
        if fields.target == 0 {
            return;
        }
        let of = &mut self.by[(fields.code % 16) as usize];
        of.recipes = more(of.recipes, true);
        of.one = more(of.one, one.negated);
        of.three = more(of.three, three.negated);
    }

    pub fn report(&self, rt: &HostRuntime) {
        for (code, of) in self.by.iter().enumerate() {
            let _ = println!(rt;
                "comparison code {code}: {} recipes with a negated target; right at 1: {}, at 3: {}",
                of.recipes, of.one, of.three
            );
        }
    }
}
