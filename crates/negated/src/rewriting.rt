// What the mark means: with a negated target a recipe shows what it shows with the plain one, if its codes for an output of the target that
// comes out complemented are rewritten for the complement. So both are right, or both are wrong.
use crate::trial::Case;
use reference::answer::Refusal;
use reference::negated::rewritten;
use testing::say;
use testing::tally::{Tally, more};

// The widths at which this is tried.
const WIDTHS: [u32; 4] = [1, 2, 3, 64];

// The recipes that can be rewritten, the verdicts compared, and how many of these say right.
#[derive(Clone, Copy, Default)]
pub struct Rewritten {
    recipes: u64,
    tally: Tally,
    right: u64,
}

// Right, or wrong, which is refusal 10. None of what is refused otherwise.
fn verdict_of(judged: Result<(), Refusal>) -> Option<bool> {
    match judged {
        Ok(()) => Some(true),
        Err(refusal) if refusal.number == 10 => Some(false),
        Err(_) => None,
    }
}

impl Rewritten {
    // A recipe with the plain target, and the rewritten one with the negated target. The first difference is written out.
    fn compare(&mut self, rt: &HostRuntime, plain: Case, negated: Case) {
        let verdict = verdict_of(plain.judged());
        let same = verdict.is_some() & (verdict == verdict_of(negated.judged()));
        self.tally.count_or(same, || {
            say::text(rt, b"differs: ");
            plain.say(rt);
            say::text(rt, b"; rewritten ");
            negated.say(rt);
            say::text(rt, b"\n");
        });
        self.right = more(self.right, verdict == Some(true));
    }

    // One recipe more, if it can be rewritten.
    pub fn judge(&mut self, rt: &HostRuntime, content: u32) {
        let Some(other) = rewritten(content) else {
            return;
        };
        self.recipes = more(self.recipes, true);
        for width in WIDTHS {
            let plain = Case {
                content,
                width,
                negated: false,
            };
            let negated = Case {
                content: other,
                width,
                negated: true,
            };
            self.compare(rt, plain, negated);
        }
    }

    pub fn report(&self, rt: &HostRuntime) {
        let _ = println!(rt;
            "codes rewritten and the target negated: {} recipes at widths 1, 2, 3 and 64, {}; right in {}",
            self.recipes, self.tally, self.right
        );
    }
}
