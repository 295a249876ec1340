// Some recipes judged at widths above 3: a width that can be tried whole still, and those about the halves and the ends of machine words.
use crate::rights::Rights;
use crate::trial::{Right, judge};
use reference::recipe::fields_of;
use reference::trial::next;
use testing::say;
use testing::tally::{Tally, more};

const WIDTHS: [u32; 6] = [4, 8, 31, 32, 63, 64];

// How many recipes are right at a width.
#[derive(Clone, Copy)]
struct AtWidth {
    n: u32,
    rights: Rights,
}

#[derive(Clone, Copy)]
pub struct Sample {
    recipes: u64,
    tally: Tally,
    by_width: [AtWidth; 6],
}

// Of a thousand recipes that are right at width 3, with the plain target or with the negated one, at width 1 only, or at neither, how many
// are drawn. Logic from logic has nearly all recipes that are right.
fn share(content: u32, one: bool, three: bool) -> u64 {
    let fields = fields_of(content);
    let is_logic = |function| (6..22).contains(&function);
    if is_logic(fields.source) & is_logic(fields.target) {
        return if three { 60 } else { 3 };
    }
    if three {
        return 1000;
    }
    if one { 200 } else { 6 }
}

impl Sample {
    pub fn none() -> Sample {
        Sample {
            recipes: 0,
            tally: Tally::default(),
            by_width: WIDTHS.map(|n| AtWidth {
                n,
                rights: Rights::default(),
            }),
        }
    }

    // A recipe at each width.
    fn judge_at_each(&mut self, rt: &HostRuntime, content: u32) {
        self.recipes = more(self.recipes, true);
        for at in &mut self.by_width {
            at.rights.count(judge(rt, &mut self.tally, content, at.n));
        }
    }

    // A recipe that was judged at widths 1 and 3, if it is drawn, by a random number that the word itself seeds.
    pub fn draw(&mut self, rt: &HostRuntime, content: u32, one: Right, three: Right) {
        let random = next(next(next(content as u64))) % 1000;
        if random < share(content, one.either(), three.either()) {
            self.judge_at_each(rt, content);
        }
    }

    pub fn report(&self, rt: &HostRuntime) {
        let _ = print!(rt;
            "a random share of all these: {} recipes at widths above 3, {}",
            self.recipes, self.tally
        );
        for at in &self.by_width {
            let _ = print!(rt; "; right at {}: {}", at.n, at.rights);
        }
        say::text(rt, b"\n");
    }
}
