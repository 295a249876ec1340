// What output codes show of a target's ports: document 01, "What a binding shows".
#![tactic(auto)]

ghost use Rattle.std.specs.Prelude.{◌≡◌, ◌^◌, ◌<◌, [], ◌∷◌, slice_index_or};
ghost use Rattle.output.specs.Output as B;

use bits::{Ports, Width};

// The codes of a recipe's outputs.
#[derive(Clone, Copy)]
pub struct Outputs {
    pub main: u32,
    pub cout: u32,
    pub ovf: u32,
    pub code: u32,
}

// What a code of three shows: nothing, a value, or its complement.
fn shown<T: Copy>(code: u32, nothing: T, value: T, complement: T) -> T
    ensures { result ≡ slice_index_or (nothing ∷ value ∷ complement ∷ []) code nothing }
{
    match code {
        1 => value,
        2 => complement,
        _ => nothing,
    }
}

// A one bit output.
pub fn shown_bit(code: u32, bit: bool) -> bool
    ensures { result ≡ B.shown_bit code bit }
{
    shown(code, false, bit, !bit)
}

// The main output.
fn shown_word(width: Width, code: u32, word: u64) -> u64
    requires { word < 2 ^ width.n }
    ensures { result ≡ B.shown_word width.n code word }
{
    shown(code, 0, word, bits::complement(width, word))
}

// A comparison code on TO1, GOR and GAND of TO0, S and TOVF.
pub fn shown_comparison(code: u32, to1: bool, gor: bool, gand: bool, s: bool, tovf: bool) -> bool
    ensures { result ≡ B.shown_comparison code to1 gor gand s tovf }
{
    let less = s ^ tovf;
    let bits = [
        false,
        to1,
        !to1,
        gor,
        !gor,
        gand,
        !gand,
        s,
        !s,
        s | !gor,
        !s & gor,
        !s & !gor,
        less,
        !less,
        less | !gor,
        !(less | !gor),
    ];
    bits.get(code as usize).copied().unwrap_or(false)
}

// The ports that the output codes show of a target's.
#[tactic(auto, using(crate::proofs::Codes::output_parts))]
pub fn outputs_show(outputs: Outputs, width: Width, target: Ports) -> Ports
    requires { target.o0 < 2 ^ width.n }
    ensures { result ≡ B.outputs_show outputs width.n target }
{
    let to0 = target.o0;
    let tovf = target.ovf;
    Ports {
        o0: shown_word(width, outputs.main, to0),
        ocout: shown_bit(outputs.cout, target.ocout),
        ovf: shown_bit(outputs.ovf, tovf),
        o1: shown_comparison(
            outputs.code,
            target.o1,
            to0 != 0,
            to0 == bits::ones(width),
            bits::top(width, to0),
            tovf,
        ),
    }
}
