// What the library says, in the terms of the second account, which stands on no crate that it is compared with.
#![tactic(auto)]

use bits::Ports;
use reference::answer::{Refusal, Subject, wrong};
use reference::evaluator::Shown;
use reference::recipe::{Port, Recipe};
use reference::trial::{Witness, bears_out, is_right};
use verdict::Verdict;

// A refusal of a file, of both, or of a word. Only operands show that a recipe is wrong, and a refusal 10 has none.
pub fn refusal_of(subject: Subject, refusal: words::Refusal) -> Refusal {
    Refusal {
        subject,
        number: u32::from(refusal.fault),
        place: refusal.place,
        shown: refusal.fault != words::Fault::WrongRecipe,
    }
}

// What the four ports show.
pub fn shown_of(ports: Ports) -> Shown {
    Shown {
        o0: ports.o0,
        ocout: ports.ocout,
        ovf: ports.ovf,
        o1: ports.o1,
    }
}

// A port.
fn port_of(port: words::Port) -> Port {
    match port {
        words::Port::O0 => Port::O0,
        words::Port::Ocout => Port::Ocout,
        words::Port::Ovf => Port::Ovf,
        words::Port::O1 => Port::O1,
    }
}

// What is said of a wrong recipe.
pub fn witness_of(witness: words::Witness) -> Witness {
    Witness {
        function: witness.function,
        port: port_of(witness.port),
        left: witness.left,
        right: witness.right,
        carry: witness.carry,
    }
}

// Whether a witness shows that a recipe is wrong at a width, by the second account.
fn is_shown(recipe: Recipe, n: u32, witness: words::Witness) -> bool {
    bears_out(recipe, n, witness_of(witness))
}

// A recipe that is wrong at a width, by a witness.
pub fn wrong_of(recipe: Recipe, n: u32, witness: words::Witness) -> Refusal {
    wrong(
        Subject::Word,
        witness.function,
        is_shown(recipe, n, witness),
    )
}

// Whether what the judge answers of a recipe at a width is borne out: it is right by the second account, or its witness shows it wrong.
pub fn is_borne_out(recipe: Recipe, n: u32, judged: Result<(), Refusal>) -> bool {
    match judged {
        Ok(()) => is_right(recipe, n),
        Err(refusal) => (refusal.number == 10) & refusal.shown,
    }
}

// What the judge answers of a word, a width and a mark; a wrong recipe is refusal 10.
pub fn judged(word: u32, n: u32, mark: u32) -> Result<(), Refusal> {
    let negated = mark == 1;
    match verdict::judge(word, n, mark) {
        Ok(Verdict::Right) => Ok(()),
        Ok(Verdict::Wrong(witness)) => Err(wrong_of(Recipe { word, negated }, n, witness)),
        Err(refusal) => Err(refusal_of(Subject::Word, refusal)),
    }
}
