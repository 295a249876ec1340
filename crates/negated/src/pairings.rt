// Every recipe there is, by the kinds of its source and of its target.
use crate::codes::Codes;
use crate::rewriting::Rewritten;
use crate::rights::Rights;
use crate::sample::Sample;
use crate::trial::judge;
use reference::refusal::recipe_fits;
use testing::kinds::Kind;
use testing::tally::{Tally, more};

// Functions of a kind, from the first to before another.
#[derive(Clone, Copy)]
struct Functions {
    name: &'static str,
    first: u32,
    end: u32,
}

const SOURCES: [Functions; 3] = [
    Functions {
        name: "arithmetic",
        first: 1,
        end: 6,
    },
    Functions {
        name: "logic",
        first: 6,
        end: 22,
    },
    Functions {
        name: "comparison",
        first: 22,
        end: 28,
    },
];

// From scratch has the number 0, and is a target alone.
const SCRATCH: Functions = Functions {
    name: "scratch",
    first: 0,
    end: 1,
};

// The recipes of some sources and targets, the verdicts compared at widths 1, 2 and 3, and how many are right at 3.
#[derive(Clone, Copy, Default)]
struct Counts {
    recipes: u64,
    tally: Tally,
    rights: Rights,
}

// What is counted over all recipes.
#[derive(Clone, Copy)]
struct All {
    codes: Codes,
    rewritten: Rewritten,
    sample: Sample,
}

impl All {
    fn judge(&mut self, rt: &HostRuntime, counts: &mut Counts, content: u32) {
        let one = judge(rt, &mut counts.tally, content, 1);
        judge(rt, &mut counts.tally, content, 2);
        let three = judge(rt, &mut counts.tally, content, 3);
        counts.recipes = more(counts.recipes, true);
        counts.rights.count(three);
        self.codes.count(content, one, three);
        self.rewritten.judge(rt, content);
        self.sample.draw(rt, content, one, three);
    }

    // Every recipe of one source from one target, which stand above the other bits of its word.
    fn judge_block(&mut self, rt: &HostRuntime, counts: &mut Counts, source: u32, target: u32) {
        let functions = (source << 23) | (target << 18);
        for fields in 0..0x4_0000 {
            let content = functions | fields;
            if recipe_fits(Kind::Rule.word(content)).is_ok() {
                self.judge(rt, counts, content);
            }
        }
    }

    fn judge_source(
        &mut self,
        rt: &HostRuntime,
        counts: &mut Counts,
        source: u32,
        targets: Functions,
    ) {
        for target in targets.first..targets.end {
            self.judge_block(rt, counts, source, target);
        }
    }

    // A line for the recipes of these sources and targets, where there are any.
    fn report(&mut self, rt: &HostRuntime, sources: Functions, targets: Functions) {
        let mut counts = Counts::default();
        for source in sources.first..sources.end {
            self.judge_source(rt, &mut counts, source, targets);
        }
        if counts.recipes == 0 {
            return;
        }
        let _ = println!(rt;
            "{} from {}: {} recipes at widths 1, 2 and 3, {}; right at 3: {}",
            sources.name, targets.name, counts.recipes, counts.tally, counts.rights
        );
    }

    fn report_sources(&mut self, rt: &HostRuntime, sources: Functions) {
        for targets in &SOURCES {
            self.report(rt, sources, *targets);
        }
        self.report(rt, sources, SCRATCH);
    }
}

pub fn report_pairings(rt: &HostRuntime) {
    let mut all = All {
        codes: Codes::default(),
        rewritten: Rewritten::default(),
        sample: Sample::none(),
    };
    for sources in &SOURCES {
        all.report_sources(rt, *sources);
    }
    all.sample.report(rt);
    all.codes.report(rt);
    all.rewritten.report(rt);
}
