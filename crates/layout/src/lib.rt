// Refusals 3, 5 and 6 of a recipe word, in this order.
#![tactic(auto)]

ghost use Rattle.std.specs.Prelude.{◌≡◌};
ghost use Rattle.layout.specs.Layout as L;

use alu::PortSet;
use recipe::{Fields, from_scratch, source_of, unpack};
use words::Fault;

#[tactic(auto, unfolding(crate::specs::Layout::is_logic))]
fn is_logic(function: u32) -> bool
    ensures { result ≡ L.is_logic function }
{
    (6..=21).contains(&function)
}

#[tactic(auto, unfolding(crate::specs::Layout::scratch_laid_out))]
fn scratch_laid_out(word: u32) -> bool
    ensures { result ≡ L.scratch_laid_out word }
{
    is_logic(source_of(word)) && (word >> 4) & 0x3fff == 0
}

#[tactic(auto, unfolding(crate::specs::Layout::target_laid_out))]
fn target_laid_out(fields: Fields) -> bool
    ensures { result ≡ L.target_laid_out fields }
{
    fields.target <= alu::FUNCTIONS
        && fields.left <= 5
        && fields.right <= 5
        && fields.main != 3
        && fields.cout != 3
        && fields.blank == 0
}

// Whether the fields are as the layout says.
#[tactic(auto, unfolding(crate::specs::Layout::laid_out))]
pub fn laid_out(word: u32) -> bool
    ensures { result ≡ L.laid_out word }
{
    if !alu::is_function(source_of(word)) {
        return false;
    }
    if from_scratch(word) {
        return scratch_laid_out(word);
    }
    target_laid_out(unpack(word))
}

// The outputs of the target that a recipe reads.
fn reads(fields: Fields) -> PortSet
    ensures { result ≡ L.reads fields }
{
    PortSet {
        o0: (fields.main != 0) | (3 <= fields.code),
        ocout: fields.cout != 0,
        ovf: (fields.ovf != 0) | (12 <= fields.code),
        o1: (1 <= fields.code) & (fields.code <= 2),
    }
}

// The ports that a recipe shows.
fn outputs(fields: Fields) -> PortSet
    ensures { result ≡ L.outputs fields }
{
    PortSet {
        o0: fields.main != 0,
        ocout: fields.cout != 0,
        ovf: fields.ovf != 0,
        o1: fields.code != 0,
    }
}

// Each of the first ports is among the second.
fn within(p: PortSet, q: PortSet) -> bool
    ensures { result ≡ L.within p q }
{
    (!p.o0 | q.o0) & ((!p.ocout | q.ocout) & ((!p.ovf | q.ovf) & (!p.o1 | q.o1)))
}

#[tactic(auto, unfolding(crate::specs::Layout::reads_driven))]
fn reads_driven(fields: Fields) -> bool
    ensures { result ≡ L.reads_driven fields }
{
    within(reads(fields), alu::drives(alu::function_of(fields.target)))
}

// Whether a recipe reads an output that its target does not drive: refusal 5.
#[tactic(auto, unfolding(crate::specs::Layout::reads_undriven))]
pub fn reads_undriven(word: u32) -> bool
    ensures { result ≡ L.reads_undriven word }
{
    !from_scratch(word) && !reads_driven(unpack(word))
}

#[tactic(auto, unfolding(crate::specs::Layout::shows_source))]
fn shows_source(fields: Fields) -> bool
    ensures { result ≡ L.shows_source fields }
{
    outputs(fields) == alu::drives(alu::function_of(fields.source))
}

// Whether a recipe's outputs are not exactly its source function's ports: refusal 6.
#[tactic(auto, unfolding(crate::specs::Layout::shows_other))]
pub fn shows_other(word: u32) -> bool
    ensures { result ≡ L.shows_other word }
{
    !from_scratch(word) && !shows_source(unpack(word))
}

// The refusal of a recipe word for its outputs, 5 or 6, or none.
pub fn output_fault(word: u32) -> Option<Fault>
    ensures { result ≡ L.output_fault word }
{
    if reads_undriven(word) {
        return Some(Fault::ReadsUndriven);
    }
    if shows_other(word) {
        return Some(Fault::OtherOutputs);
    }
    None
}

// The refusal of a recipe word, 3, 5 or 6, or none.
// Kept: an `Option`, as the definition has it: the refusal is what is asked for, also where it is shown with the word.
#[tactic(auto, unfolding(crate::specs::Layout::recipe_fault))]
pub fn recipe_fault(word: u32) -> Option<Fault>
    ensures { result ≡ L.recipe_fault word }
{
    if !laid_out(word) {
        return Some(Fault::NotLaidOut);
    }
    output_fault(word)
}
