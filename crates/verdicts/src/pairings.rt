// Every recipe there is, by the kinds of its source and of its target. Of the twelve pairings seven hold recipes.
ghost use Rattle.std.specs.Prelude.{◌≤◌};

use crate::nine::{Recipes, case_at};
use crate::stored::RECIPES;
use reference::trial::next;
use testing::say;
use testing::tally::{Tally, more};

// The kinds of functions, and from scratch, which is a target alone.
// Kept: not `alu::Kind`, which has what its functions need; here a kind is a name.
#[derive(Clone, Copy, PartialEq, Eq)]
enum Kind {
    Arithmetic,
    Logic,
    Comparison,
    Scratch,
}

const KINDS: [Kind; 4] = [
    Kind::Arithmetic,
    Kind::Logic,
    Kind::Comparison,
    Kind::Scratch,
];

impl Kind {
    fn name(self) -> &'static str {
        match self {
            Kind::Arithmetic => "arithmetic",
            Kind::Logic => "logic",
            Kind::Comparison => "comparison",
            Kind::Scratch => "scratch",
        }
    }

    // The functions of a kind, from the first to before another. From scratch has the number 0.
    fn functions(self) -> (u32, u32)
        ensures { (result.0 ≤ 28) × (result.1 ≤ 28) }
    {
        match self {
            Kind::Arithmetic => (1, 6),
            Kind::Logic => (6, 22),
            Kind::Comparison => (22, 28),
            Kind::Scratch => (0, 1),
        }
    }

    fn has(self, function: u32) -> bool {
        let (first, end) = self.functions();
        (first <= function) & (function < end)
    }
}

#[derive(Clone, Copy)]
struct Pairing {
    sources: Kind,
    targets: Kind,
}

// The recipes of a pairing, the verdicts compared at widths 1 and 2, and how many are right at each; some at nine widths.
#[derive(Clone, Copy)]
struct Counts {
    recipes: u64,
    tally: Tally,
    one: u64,
    two: u64,
    nine: Recipes,
}

impl Pairing {
    fn say(self, rt: &HostRuntime) {
        say::text(rt, self.sources.name().as_bytes());
        say::text(rt, b" from ");
        say::text(rt, self.targets.name().as_bytes());
    }

    // Of a thousand recipes right at widths 1 and 2, at 1 only, or at neither, how many are judged at nine widths. Logic from logic has
    // nearly all recipes that are right; the pairings of a kind with itself and with scratch hold few others.
    fn share(self, one: bool, two: bool) -> u64 {
        if (self.sources == Kind::Logic) & (self.targets == Kind::Logic) {
            return if one | two { 120 } else { 5 };
        }
        if two {
            return 1000;
        }
        if (self.sources == self.targets) | (self.targets == Kind::Scratch) {
            return if one { 1000 } else { 30 };
        }
        if one { 200 } else { 6 }
    }

    // Those judged at nine widths are chosen by a random number that the word itself seeds.
    fn judge(self, rt: &HostRuntime, all: &mut Counts, content: u32) {
        let one = case_at(content, 1).tried();
        let two = case_at(content, 2).tried();
        case_at(content, 1).count(rt, &mut all.tally, one.holds);
        case_at(content, 2).count(rt, &mut all.tally, two.holds);
        all.recipes = more(all.recipes, true);
        all.one = more(all.one, one.right);
        all.two = more(all.two, two.right);
        let random = next(next(next(content as u64))) % 1000;
        if random < self.share(one.right, two.right) {
            all.nine.judge(rt, content);
        }
    }

    // Every recipe of one source from one target, which stand above the other bits of its word.
    fn judge_block(self, rt: &HostRuntime, all: &mut Counts, block: u32) {
        let from = block % 1024 * 0x4_0000;
        for content in from..from + 0x4_0000 {
            if case_at(content, 1).refused().is_none() {
                self.judge(rt, all, content);
            }
        }
    }

    // Every recipe of a pairing.
    fn judged(self, rt: &HostRuntime) -> Counts {
        let mut all = Counts {
            recipes: 0,
            tally: Tally::default(),
            one: 0,
            two: 0,
            nine: Recipes::none(),
        };
        let (first, end) = self.sources.functions();
        for block in 32 * first..32 * end {
            if self.targets.has(block % 32) {
                self.judge_block(rt, &mut all, block);
            }
        }
        all
    }

    // A line for the pairing, and one for those judged at nine widths, where there are any.
    fn report(self, rt: &HostRuntime, these: Counts) {
        self.say(rt);
        let _ = println!(rt;
            ": {} recipes at widths 1 and 2, {}; right at 1: {}, at 2: {}",
            these.recipes, these.tally, these.one, these.two
        );
        if !these.nine.is_none() {
            self.say(rt);
            these.nine.report(rt);
        }
    }
}

// Three kinds of sources, four of targets.
fn with_pairings(rt: &HostRuntime) -> Recipes {
    let mut all = Recipes::none();
    for i in 0..12 {
        let pairing = Pairing {
            sources: KINDS[i / 4],
            targets: KINDS[i % 4],
        };
        let these = pairing.judged(rt);
        pairing.report(rt, these);
        all.add(these.nine);
    }
    all
}

fn stored(rt: &HostRuntime) -> Recipes {
    let mut all = Recipes::none();
    for recipe in &RECIPES {
        all.judge(rt, *recipe % 0x1000_0000);
    }
    all
}

pub fn report_pairings(rt: &HostRuntime) {
    let mut all = with_pairings(rt);
    let kept = stored(rt);
    say::text(rt, b"stored recipes");
    kept.report(rt);
    all.add(kept);
    say::text(rt, b"all");
    all.report(rt);
}
