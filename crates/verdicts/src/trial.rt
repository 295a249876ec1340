// One verdict of the judge, tried by the reference. A right one is tried at operands, all of them at small widths. A wrong one is tried
// at its own operands, so it is borne out only if the recipe is wrong.
use reference::answer::Refusal;
use reference::recipe::Recipe;
use reference::refusal::refusal_of;
use testing::say;
use testing::tally::Tally;

// A recipe's word, a width and a mark, about which the judge and the reference are asked.
#[derive(Clone, Copy)]
pub struct Case {
    pub word: u32,
    pub width: u32,
    pub mark: u32,
}

// Whether a verdict is borne out, and whether it says right.
#[derive(Clone, Copy)]
pub struct Trial {
    pub holds: bool,
    pub right: bool,
}

// Of no refusal 0 and 0.
fn numbers_of(refusal: Option<Refusal>) -> (u32, usize) {
    refusal.map_or((0, 0), |refusal| (refusal.number, refusal.place))
}

impl Case {
    // The recipe, whose target the mark says to be negated.
    pub fn recipe(self) -> Recipe {
        Recipe {
            word: self.word,
            negated: self.mark == 1,
        }
    }

    // What the judge says. A wrong recipe is refusal 10.
    pub fn judged(self) -> Result<(), Refusal> {
        told::judged(self.word, self.width, self.mark)
    }

    // What the reference refuses.
    pub fn refused(self) -> Option<Refusal> {
        refusal_of(self.word, self.width, self.mark)
    }

    pub fn tried(self) -> Trial {
        let judged = self.judged();
        Trial {
            holds: told::is_borne_out(self.recipe(), self.width, judged),
            right: judged.is_ok(),
        }
    }

    fn say_difference(self, rt: &HostRuntime) {
        say::word(rt, b"differs: ", self.word);
        let (number, place) = numbers_of(self.judged().err());
        let _ = print!(rt;
            " at width {}, mark {}; judge: {number} {place}",
            self.width, self.mark
        );
        let (number, place) = numbers_of(self.refused());
        let _ = println!(rt; "; reference: {number} {place}");
    }

    // One comparison more. The first difference of a tally is written out.
    pub fn count(self, rt: &HostRuntime, tally: &mut Tally, same: bool) {
        tally.count_or(same, || self.say_difference(rt));
    }
}
