// A recipe: what the target's inputs are wired to, and what its outputs give.
ghost use Rattle.std.specs.Prelude.{◌≡◌, ◌+◌, ◌≤◌, ◌++◌, length};
ghost use Rattle.spelling.specs.Spelling.{spelling_of};
ghost use Rattle.spelling.specs.Room.{most_spelling};
ghost use Rattle.describe.specs.Describe as D;
ghost use Rattle.describe.specs.Room as M;

use recipe::Fields;
use spelling::Codes;
use text::Text;

// A code's spelling behind what it is of.
fn put_spelt<const ROOM: usize>(label: &[u8], codes: Codes, code: u32, text: &mut Text<ROOM>)
    requires { length text.old + length label.now + most_spelling codes ≤ ROOM }
    ensures short { length text.new ≤ length text.old + length label.now + most_spelling codes }
    ensures text { text.new ≡ text.old ++ label.now ++ spelling_of codes code }
{
    text.put(label);
    spelling::put_spelling(codes, code, text);
}

// An output behind its name; code 0 is none.
#[tactic(auto, unfolding(crate::specs::Describe::shown_as))]
fn put_shown<const ROOM: usize>(label: &[u8], codes: Codes, code: u32, text: &mut Text<ROOM>)
    requires { length text.old + length label.now + most_spelling codes ≤ ROOM }
    ensures short { length text.new ≤ length text.old + length label.now + most_spelling codes }
    ensures text { text.new ≡ text.old ++ D.shown_as label.now codes code }
{
    if code != 0 {
        put_spelt(label, codes, code, text);
    }
}

// What the target's inputs are wired to.
#[tactic(auto, unfolding(crate::specs::Describe::inputs_text))]
fn put_inputs<const ROOM: usize>(fields: Fields, text: &mut Text<ROOM>)
    requires { length text.old + M.most_inputs ≤ ROOM }
    ensures short { length text.new ≤ length text.old + M.most_inputs }
    ensures text { text.new ≡ text.old ++ D.inputs_text fields }
{
    put_spelt(b": left ", Codes::Wiring, fields.left, text);
    put_spelt(b", right ", Codes::Wiring, fields.right, text);
    put_spelt(b", carry ", Codes::Carry, fields.carry, text);
}

// What its outputs give.
#[tactic(auto, unfolding(crate::specs::Describe::outputs_text))]
fn put_outputs<const ROOM: usize>(fields: Fields, text: &mut Text<ROOM>)
    requires { length text.old + M.most_outputs ≤ ROOM }
    ensures short { length text.new ≤ length text.old + M.most_outputs }
    ensures text { text.new ≡ text.old ++ D.outputs_text fields }
{
    put_shown(b", main ", Codes::Main, fields.main, text);
    put_shown(b", carry out ", Codes::CarryOut, fields.cout, text);
    put_shown(b", overflow ", Codes::Overflow, fields.ovf, text);
    put_shown(b", comparison ", Codes::Comparison, fields.code, text);
}

// From scratch: the vector's four bits.
#[tactic(auto, unfolding(crate::specs::Describe::scratch_text))]
fn put_scratch<const ROOM: usize>(word: u32, text: &mut Text<ROOM>)
    requires { length text.old + M.most_from ≤ ROOM }
    ensures short { length text.new ≤ length text.old + M.most_from }
    ensures text { text.new ≡ text.old ++ D.scratch_text word }
{
    text.put(b" from scratch: vector ");
    text.put_digits(recipe::vector_of(word) as u64, 2, 4);
}

// From a target: its inputs and its outputs.
#[tactic(auto, unfolding(crate::specs::Describe::wired_text))]
fn put_wired<const ROOM: usize>(word: u32, text: &mut Text<ROOM>)
    requires { length text.old + M.most_from ≤ ROOM }
    ensures short { length text.new ≤ length text.old + M.most_from }
    ensures text { text.new ≡ text.old ++ D.wired_text word }
{
    let fields = recipe::unpack(word);
    text.put(b" from ");
    text.put_name(recipe::target_of(word));
    put_inputs(fields, text);
    put_outputs(fields, text);
}

// A recipe behind what it is.
#[tactic(auto, unfolding(crate::specs::Describe::recipe_text))]
pub fn put_recipe<const ROOM: usize>(label: &[u8], word: u32, text: &mut Text<ROOM>)
    requires { length text.old + length label.now + M.most_recipe ≤ ROOM }
    ensures short { length text.new ≤ length text.old + length label.now + M.most_recipe }
    ensures text { text.new ≡ text.old ++ label.now ++ D.recipe_text word }
{
    text.put(label);
    text.put_name(recipe::source_of(word));
    if recipe::from_scratch(word) {
        put_scratch(word, text);
    } else {
        put_wired(word, text);
    }
}
