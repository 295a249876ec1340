// Rules of which it is known at every width whether they are right, as their making shows without a trial: of each function out of
// itself, and of each a row of three that are right and one that is wrong. Operands that are exchanged stand where the other function has
// them. Complements of operands and of the output cancel, or go together by De Morgan's laws. A vector from scratch is the function's
// own. Words are equal where no bit of their XOR is 1. SUB with a carry of 1 is the difference, whose sign is wrong exactly where it
// overflows. What is wrong shows another function, or differs where both operands are 0, or, with the sign of SUB, where it overflows;
// those of EQ, NEQ and GT are right at width 1, and differ above it at 0 and 1.
use reference::negated::rewritten;
use reference::recipe::fields_of;
use testing::kinds::Kind;
use testing::words::word_of;

const ROWS: [[u32; 4]; 27] = [
    // ADD: exchanged; SUB of NOT SI1; RSUB of NOT SI0. Wrong: SUB as it is.
    [0x5086_2960, 0x5089_5960, 0x508D_C960, 0x5089_4960],
    // SUB: RSUB exchanged; ADD of NOT SI1; ADD, all complemented, of document 01. Wrong: the last with SICIN.
    [0x510E_2960, 0x5105_5960, 0x5105_CEA0, 0x5105_CAA0],
    // RSUB: SUB exchanged and ADD of NOT SI0, both of document 01; the latter exchanged. Wrong: ADD of NOT SI1.
    [0x518A_2960, 0x5185_C960, 0x5186_3960, 0x5185_5960],
    // INC: a carry of 1 to ADD of zeros, to SUB of ones, to RSUB of ones. Wrong: ADD of zeros and a carry of 0.
    [0x5205_0560, 0x5209_1560, 0x520C_A560, 0x5205_0160],
    // DEC: a carry of 0 to ADD of ones, to SUB of zeros, to RSUB of zeros. Wrong: ADD of ones and a carry of 1.
    [0x5285_1160, 0x5289_0160, 0x528C_2160, 0x5285_1560],
    // ZERO: from scratch; XOR of SI0 and SI0; NOT ONE. Wrong: ONE's vector.
    [0x5300_0000, 0x5331_2100, 0x531D_4200, 0x5300_000F],
    // ONE: from scratch; XNOR of SI1 and SI1; NOT ZERO. Wrong: ZERO's vector.
    [0x5380_000F, 0x53B6_4100, 0x5399_4200, 0x5380_0000],
    // AND: from scratch; exchanged; NOR of the complements. Wrong: NOR as it is.
    [0x5400_0001, 0x5422_2100, 0x542D_D100, 0x542D_4100],
    // NAND: from scratch; NOT AND; OR of the complements. Wrong: AND as it is.
    [0x5480_000E, 0x54A1_4200, 0x54A9_D100, 0x54A1_4100],
    // OR: from scratch; exchanged; NOT NOR. Wrong: AND of the complements.
    [0x5500_0007, 0x552A_2100, 0x552D_4200, 0x5521_D100],
    // NOR: from scratch; NOT OR; AND of the complements. Wrong: OR of the complements.
    [0x5580_0008, 0x55A9_4200, 0x55A1_D100, 0x55A9_D100],
    // XOR: from scratch; NOT XNOR; XOR of the complements. Wrong: XNOR as it is.
    [0x5600_0006, 0x5635_4200, 0x5631_D100, 0x5635_4100],
    // XNOR: from scratch; NOT XOR; XOR of NOT SI0 and SI1. Wrong: XOR of the complements.
    [0x5680_0009, 0x56B1_4200, 0x56B1_C100, 0x56B1_D100],
    // LID: from scratch; RID exchanged; AND of SI0 and SI0. Wrong: LID exchanged.
    [0x5700_0003, 0x573E_2100, 0x5721_2100, 0x573A_2100],
    // RID: from scratch; LID exchanged; OR of SI1 and SI1. Wrong: RID exchanged.
    [0x5780_0005, 0x57BA_2100, 0x57AA_4100, 0x57BE_2100],
    // LNOT: from scratch; NOT LID; LID of NOT SI0. Wrong: LID as it is.
    [0x5800_000C, 0x5839_4200, 0x5839_C100, 0x5839_4100],
    // RNOT: from scratch; NOT RID; XNOR of zeros and SI1. Wrong: LNOT as it is.
    [0x5880_000A, 0x58BD_4200, 0x58B4_4100, 0x58C1_4100],
    // LINHI: from scratch; RINHI exchanged; AND of NOT SI0 and SI1. Wrong: RINHI's vector.
    [0x5900_0004, 0x594E_2100, 0x5921_C100, 0x5900_0002],
    // RINHI: from scratch; LINHI exchanged; AND of SI0 and NOT SI1. Wrong: LINHI's vector.
    [0x5980_0002, 0x59CA_2100, 0x59A1_5100, 0x5980_0004],
    // LIMPL: from scratch; RIMPL exchanged; OR of NOT SI0 and SI1. Wrong: the vector of Table 4.
    [0x5A00_000D, 0x5A56_2100, 0x5A29_C100, 0x5A00_000B],
    // RIMPL: from scratch; LIMPL exchanged; NOT LINHI. Wrong: the vector of Table 4.
    [0x5A80_000B, 0x5AD2_2100, 0x5AC9_4200, 0x5A80_000D],
    // EQ: exchanged; GNOR of XOR; GAND of XNOR. Wrong: GOR of XNOR.
    [0x5B5A_2001, 0x5B31_4004, 0x5B35_4005, 0x5B35_4003],
    // NEQ: NOT EQ; GOR of XOR; GNAND of XNOR. Wrong: GAND of XOR.
    [0x5BD9_4002, 0x5BB1_4003, 0x5BB5_4006, 0x5BB1_4005],
    // GT: LT exchanged; NOT LEQ; SUB, neither less nor equal. Wrong: GOR of LINHI.
    [0x5C66_2001, 0x5C6D_4002, 0x5C09_440F, 0x5C49_4003],
    // LT: GT exchanged; NOT GEQ; SUB, less, of document 01. Wrong: the sign of SUB, as published.
    [0x5CE2_2001, 0x5CE9_4002, 0x5C89_440C, 0x5C89_4407],
    // GEQ: LEQ exchanged; NOT LT; SUB, not less. Wrong: NOT the sign of SUB.
    [0x5D6E_2001, 0x5D65_4002, 0x5D09_440D, 0x5D09_4408],
    // LEQ: GEQ exchanged; NOT GT; SUB, less or equal. Wrong: SUB, less.
    [0x5DEA_2001, 0x5DE1_4002, 0x5D89_440E, 0x5D89_440C],
];

// The rules known of a function: out of itself, the three right ones of its row, and last the wrong one; zeros where it has no row.
pub fn known_rules(function: u32) -> [u32; 5] {
    let itself = word_of(Kind::Rule, function);
    let index = ((function % 32) as usize).wrapping_sub(1);
    match ROWS.get(index) {
        Some([first, second, third, wrong]) => [itself, *first, *second, *third, *wrong],
        None => [itself, 0, 0, 0, 0],
    }
}

// Whether a rule is known to be right.
pub fn is_known_right(rule: u32) -> bool {
    let known = known_rules(fields_of(rule).source);
    known[..4].contains(&rule)
}

// A recipe rewritten for a negated target; as it is where there is no such recipe, or no target.
pub fn for_negated(recipe: u32) -> u32 {
    rewritten(recipe).unwrap_or(recipe)
}
