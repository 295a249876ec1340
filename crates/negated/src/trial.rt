// A recipe judged with a plain target and with a negated one, each verdict tried by the reference. A right one is tried at operands, all of
// them at small widths. A wrong one is tried at its own operands, so it is borne out only if the recipe is wrong.
use reference::answer::Refusal;
use reference::recipe::Recipe;
use reference::trial::is_right;
use testing::kinds::Kind;
use testing::say;
use testing::tally::Tally;

// A recipe, given by the low 28 bits of its word, at a width, with a plain target or a negated one.
#[derive(Clone, Copy)]
pub struct Case {
    pub content: u32,
    pub width: u32,
    pub negated: bool,
}

impl Case {
    // A rule at odd widths, a binding at even ones.
    fn recipe(self) -> Recipe {
        let kind = if self.width % 2 == 1 {
            Kind::Rule
        } else {
            Kind::Binding
        };
        Recipe {
            word: kind.word(self.content),
            negated: self.negated,
        }
    }

    // What the judge says. A wrong recipe is refusal 10.
    pub fn judged(self) -> Result<(), Refusal> {
        told::judged(self.recipe().word, self.width, self.negated as u32)
    }

    // What the judge says, a refusal's number and place, or 0 and 0.
    pub fn say(self, rt: &HostRuntime) {
        let (number, place) = match self.judged() {
            Ok(()) => (0, 0),
            Err(refusal) => (refusal.number, refusal.place),
        };
        say::word(rt, b"", self.recipe().word);
        say::text(rt, if self.negated { b" negated" } else { b" plain" });
        let _ = print!(rt; " at width {}, judge: {number} {place}", self.width);
    }

    // One comparison more, the first difference of a tally written out; whether the judge says right.
    fn compare(self, rt: &HostRuntime, tally: &mut Tally) -> bool {
        let judged = self.judged();
        let borne_out = told::is_borne_out(self.recipe(), self.width, judged);
        tally.count_or(borne_out, || {
            say::text(rt, b"differs: ");
            self.say(rt);
            let right = is_right(self.recipe(), self.width);
            say::text(
                rt,
                if right {
                    b"; right by the reference\n"
                } else {
                    b"; wrong by the reference\n"
                },
            );
        });
        judged.is_ok()
    }
}

// Whether a recipe is right with a plain target, and with a negated one.
#[derive(Clone, Copy)]
pub struct Right {
    pub plain: bool,
    pub negated: bool,
}

impl Right {
    pub fn either(self) -> bool {
        self.plain | self.negated
    }
}

// The two verdicts on a recipe at a width, compared.
pub fn judge(rt: &HostRuntime, tally: &mut Tally, content: u32, width: u32) -> Right {
    let case = |negated| Case {
        content,
        width,
        negated,
    };
    Right {
        plain: case(false).compare(rt, tally),
        negated: case(true).compare(rt, tally),
    }
}
