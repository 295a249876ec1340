// The verdict on a claim at a width: whether a recipe shows what the side of its source shows, at all operands and both carries.
#![tactic(auto)]

ghost use Rattle.std.specs.Prelude.{◌≡◌};
ghost use Rattle.binding.specs.Right as R;
ghost use Rattle.verdict.specs.Verdicts as D;

use binding::Claim;
use bits::{Operands, Ports, Width};
use search::Counterexample;
use words::{Fault, Port, Refusal, Witness};

// Right, or Wrong with function, port, both operands and carry.
// Kept: document 01 names this form: "verdict enum: Right, or Wrong with its values".
#[derive(Clone, Copy)]
pub enum Verdict {
    Right,
    Wrong(Witness),
}

// The lowest port at which two differ.
#[tactic(auto, unfolding(crate::specs::Verdicts::lowest_port))]
fn lowest_port(p: Ports, q: Ports) -> Option<Port>
    ensures { result ≡ D.lowest_port p q }
{
    if p.o0 != q.o0 {
        return Some(Port::O0);
    }
    if p.ocout != q.ocout {
        return Some(Port::Ocout);
    }
    if p.ovf != q.ovf {
        return Some(Port::Ovf);
    }
    if p.o1 != q.o1 {
        return Some(Port::O1);
    }
    None
}

// The verdict on a claim. Of a wrong one the operands are those that the search meets first.
#[tactic(auto, using(crate::proofs::Verdicting::is_some_port))]
pub fn verdict_on(claim: Claim, width: Width) -> Verdict
    ensures { D.Says claim width.n result }
{
    let source = claim.source;
    let recipe = claim.recipe;
    let Some(found) = search::search(source, recipe, width) else {
        return Verdict::Right;
    };
    let Counterexample { left, right, carry } = found;
    let operands = Operands { width, left, right };
    let p = binding::shows(recipe, operands, carry);
    let q = binding::side_shows(source, operands, carry);
    Verdict::Wrong(Witness {
        function: claim.function,
        port: lowest_port(p, q).unwrap(),
        left,
        right,
        carry,
    })
}

// Whether a claim holds.
#[tactic(auto, using(crate::proofs::Verdicting::right_says, crate::proofs::Verdicting::wrong_says))]
pub fn is_right(claim: Claim, width: Width) -> bool
    ensures { result ≡ R.is_right claim width.n }
{
    matches!(verdict_on(claim, width), Verdict::Right)
}

// Judges a recipe word, a width and a mark handed in by anybody: 2 for a kind that is no recipe's; then 3, 5 and 6 of the word, place 0; then 3
// for the width, place 1, and for the mark, place 2.
#[tactic(auto, using(alu::proofs::Shown::has_width), unfolding(crate::specs::Verdicts::judge_of))]
pub fn judge(word: u32, width: u32, mark: u32) -> Result<Verdict, Refusal>
    ensures { D.Judged word width mark result }
{
    if !words::is_recipe(words::kind_of(word)) {
        return Err(Refusal {
            fault: Fault::OutOfSequence,
            place: 0,
        });
    }
    if let Some(fault) = layout::recipe_fault(word) {
        return Err(Refusal { fault, place: 0 });
    }
    if !alu::is_width(width) {
        return Err(Refusal {
            fault: Fault::NotLaidOut,
            place: 1,
        });
    }
    if 2 <= mark {
        return Err(Refusal {
            fault: Fault::NotLaidOut,
            place: 2,
        });
    }
    let claim = binding::claim_against(mark == 1, word);
    Ok(verdict_on(claim, Width { n: width }))
}
