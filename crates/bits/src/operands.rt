// Widths, and two words of a width.
ghost use Rattle.bits.specs.Asked as Q;

// How many bits words have: 1 to 64.
#[derive(Clone, Copy)]
pub struct Width {
    pub n: u32,
    pub ghost in_range: { Q.Width n },
}

// Two words of a width.
#[derive(Clone, Copy)]
pub struct Operands {
    pub width: Width,
    pub left: u64,
    pub right: u64,
    pub ghost fit: { Q.Operands width.n left right },
}
