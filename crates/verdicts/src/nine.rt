// Recipes judged at nine widths: the small ones that can be tried whole, and those about the halves and the ends of machine words.
use crate::trial::Case;
use testing::say;
use testing::tally::{Tally, more};

pub const WIDTHS: [u32; 9] = [1, 2, 3, 4, 8, 31, 32, 63, 64];

// How many recipes are right at a width.
#[derive(Clone, Copy)]
struct AtWidth {
    n: u32,
    right: u64,
}

// How many recipes there are, what was compared, how many recipes are right at all of the widths, at width 1 only and at none, and how
// many at each of the nine.
#[derive(Clone, Copy)]
pub struct Recipes {
    recipes: u64,
    tally: Tally,
    always: u64,
    narrow: u64,
    never: u64,
    by_width: [AtWidth; 9],
}

// A recipe, given by the low 28 bits of its word, at a width: a rule at odd widths, a binding at even ones.
pub fn case_at(content: u32, width: u32) -> Case {
    let kind = if width % 2 == 1 {
        0x5000_0000
    } else {
        0x6000_0000
    };
    Case {
        word: kind | content,
        width,
        mark: 0,
    }
}

impl Recipes {
    pub fn none() -> Recipes {
        Recipes {
            recipes: 0,
            tally: Tally::default(),
            always: 0,
            narrow: 0,
            never: 0,
            by_width: WIDTHS.map(|n| AtWidth { n, right: 0 }),
        }
    }

    pub fn is_none(&self) -> bool {
        self.recipes == 0
    }

    // A recipe judged at each width; the widths at which it is right. The first difference of the tally is written out.
    fn judge_at_each(&mut self, rt: &HostRuntime, content: u32) -> [bool; 9] {
        let mut rights = [false; 9];
        for (right, n) in rights.iter_mut().zip(&WIDTHS) {
            let case = case_at(content, *n);
            let trial = case.tried();
            case.count(rt, &mut self.tally, trial.holds);
            *right = trial.right;
        }
        rights
    }

    // One recipe more.
    pub fn judge(&mut self, rt: &HostRuntime, content: u32) {
        let rights = self.judge_at_each(rt, content);
        let widths = rights.iter().filter(|right| **right).count();
        self.recipes = more(self.recipes, true);
        self.always = more(self.always, widths == 9);
        self.narrow = more(self.narrow, rights[0] & (widths == 1));
        self.never = more(self.never, widths == 0);
        for (at, right) in self.by_width.iter_mut().zip(&rights) {
            at.right = more(at.right, *right);
        }
    }

    // Other recipes more.
    pub fn add(&mut self, others: Recipes) {
        self.recipes = self.recipes.wrapping_add(others.recipes);
        self.tally.add(others.tally);
        self.always = self.always.wrapping_add(others.always);
        self.narrow = self.narrow.wrapping_add(others.narrow);
        self.never = self.never.wrapping_add(others.never);
        for (at, added) in self.by_width.iter_mut().zip(&others.by_width) {
            at.right = at.right.wrapping_add(added.right);
        }
    }

    // Ends a line that begins with the recipes' name.
    pub fn report(&self, rt: &HostRuntime) {
        let _ = print!(rt;
            ": {} recipes at nine widths, {}; right at all {}, at width 1 only {}, at none {}; by width",
            self.recipes, self.tally, self.always, self.narrow, self.never
        );
        for at in &self.by_width {
            let _ = print!(rt; " {}: {}", at.n, at.right);
        }
        say::text(rt, b"\n");
    }
}
