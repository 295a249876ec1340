// What a binding shows: document 01, "What a binding shows". A recipe's target works on wired inputs, and output codes show its ports.
#![tactic(auto)]

ghost use Rattle.std.specs.Prelude.{◌≡◌, ◌^◌, ◌<◌};
ghost use Rattle.binding.specs.Binding as B;
ghost use Rattle.binding.specs.Right as R;

use alu::Kind;
use bits::{Operands, Ports, Width};
use output::Outputs;

// A function on wired inputs, and whether it is negated.
#[derive(Clone, Copy)]
pub struct Side {
    pub kind: Kind,
    pub left: u32,
    pub right: u32,
    pub carry: u32,
    pub negated: bool,
}

#[derive(Clone, Copy)]
pub struct Recipe {
    pub target: Side,
    pub outputs: Outputs,
}

// What is claimed of a recipe: that it shows what the side of its source shows. Refusals write the source as `function`.
#[derive(Clone, Copy)]
pub struct Claim {
    pub function: u32,
    pub source: Side,
    pub recipe: Recipe,
}

// A function on its own inputs.
pub fn plain(function: u32) -> Side
    ensures { result ≡ B.plain function }
{
    Side {
        kind: alu::function_of(function),
        left: bits::I0,
        right: bits::I1,
        carry: bits::ICIN,
        negated: false,
    }
}

// A vector on the operands themselves, whose output is the main output.
fn from_vector(vector: u32) -> Recipe
    ensures { result ≡ B.from_vector vector }
{
    Recipe {
        target: Side {
            kind: Kind::Logic(vector),
            left: bits::I0,
            right: bits::I1,
            carry: bits::ICIN,
            negated: false,
        },
        outputs: Outputs {
            main: 1,
            cout: 0,
            ovf: 0,
            code: 0,
        },
    }
}

fn from_target(negated: bool, fields: recipe::Fields) -> Recipe
    ensures { result ≡ B.from_target negated fields }
{
    Recipe {
        target: Side {
            kind: alu::function_of(fields.target),
            left: fields.left,
            right: fields.right,
            carry: fields.carry,
            negated,
        },
        outputs: Outputs {
            main: fields.main,
            cout: fields.cout,
            ovf: fields.ovf,
            code: fields.code,
        },
    }
}

// The recipe that a word holds, whose target is negated or not.
#[tactic(auto, unfolding(crate::specs::Binding::recipe_of))]
fn recipe_of(negated: bool, word: u32) -> Recipe
    ensures { result ≡ B.recipe_of negated word }
{
    if recipe::from_scratch(word) {
        return from_vector(recipe::vector_of(word));
    }
    from_target(negated, recipe::unpack(word))
}

// The claim of a recipe word whose target is negated or not: its source function on its own inputs.
pub fn claim_against(negated: bool, word: u32) -> Claim
    ensures { result ≡ R.claim_against negated word }
{
    let function = recipe::source_of(word);
    let source = plain(function);
    let recipe = recipe_of(negated, word);
    Claim {
        function,
        source,
        recipe,
    }
}

// "Its O0 and O1 come out complemented, OCOUT and OVF do not", where a side is negated.
fn as_marked(negated: bool, width: Width, ports: Ports) -> Ports
    requires { ports.o0 < 2 ^ width.n }
    ensures { (result ≡ B.as_marked negated width.n ports) × (result.o0 < 2 ^ width.n) }
{
    if !negated {
        return ports;
    }
    Ports {
        o0: bits::complement(width, ports.o0),
        ocout: ports.ocout,
        ovf: ports.ovf,
        o1: !ports.o1,
    }
}

// The ports of a side. It is put in place where it is called, which took 5% off a verdict.
#[tactic(auto, using(alu::proofs::Shown::ports_lt), unfolding(crate::specs::Binding::side_shows))]
#[inline(always)]
pub fn side_shows(side: Side, operands: Operands, carry: bool) -> Ports
    ensures { (result ≡ B.side_shows side operands.width.n operands.left operands.right carry) × (result.o0 < 2 ^ operands.width.n) }
{
    let inputs = Operands {
        width: operands.width,
        left: bits::wired(operands, side.left),
        right: bits::wired(operands, side.right),
    };
    let kind = side.kind;
    let ports = alu::ports_of(kind, inputs, bits::carried(side.carry, carry));
    as_marked(side.negated, operands.width, ports)
}

// The ports of a recipe.
pub fn shows(recipe: Recipe, operands: Operands, carry: bool) -> Ports
    ensures { result ≡ B.shows recipe operands.width.n operands.left operands.right carry }
{
    let target = recipe.target;
    let outputs = recipe.outputs;
    output::outputs_show(outputs, operands.width, side_shows(target, operands, carry))
}
