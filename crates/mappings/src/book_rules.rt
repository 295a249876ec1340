// The book's rules from targets, at widths 1 to 3, judged of plain and of negated targets, beside the second account.
use book::BOOK;
use reference::recipe::{Recipe, fields_of};
use rulings::known::for_negated;
use testing::say;
use testing::tally::{Tally, more};

// The rules judged, and how many are right.
#[derive(Clone, Copy, Default)]
struct Judged {
    tally: Tally,
    right: u64,
}

impl Judged {
    // A rule more.
    fn judge(&mut self, recipe: Recipe, n: u32) {
        let judged = told::judged(recipe.word, n, recipe.negated as u32);
        self.tally.count(told::is_borne_out(recipe, n, judged));
        self.right = more(self.right, judged.is_ok());
    }

    fn judge_at_widths(&mut self, recipe: Recipe) {
        for n in 1..4 {
            self.judge(recipe, n);
        }
    }
}

// What is judged: the book's rules, or these rewritten for negated targets; of plain or of negated targets.
fn judged_all(rewritten: bool, negated: bool) -> Judged {
    let mut all = Judged::default();
    for rule in &BOOK {
        let word = if rewritten { for_negated(*rule) } else { *rule };
        if fields_of(word).target != 0 {
            all.judge_at_widths(Recipe { word, negated });
        }
    }
    all
}

fn report(rt: &HostRuntime, name: &[u8], all: Judged) {
    let tally = all.tally;
    say::text(rt, b"the book's rules from targets, ");
    say::text(rt, name);
    let _ = println!(rt; ", widths 1 to 3: {tally}; right {}", all.right);
}

// Of those that are rewritten not all are right of negated targets, since four comparison codes have no other.
pub fn report_book(rt: &HostRuntime) {
    report(rt, b"plain", judged_all(false, false));
    report(rt, b"negated", judged_all(false, true));
    report(rt, b"plain, rewritten", judged_all(true, false));
    report(rt, b"negated, rewritten", judged_all(true, true));
}
