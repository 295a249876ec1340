// The refusal of a word by itself, wherever it stands.
ghost use Rattle.std.specs.Prelude.{◌≡◌, ◌+◌, ◌≤◌, ◌++◌, length};
ghost use Rattle.text.specs.Text as P;
ghost use Rattle.describe.specs.Describe as D;
ghost use Rattle.describe.specs.Room as M;

use text::Text;
use words::{Fault, Word};

// The refusal of a recipe for its outputs.
#[tactic(auto, unfolding(crate::specs::Describe::output_fault))]
pub fn output_fault(word: Word) -> Option<Fault>
    ensures { result ≡ D.output_fault word.bits }
{
    if !word.kind.is_recipe() {
        return None;
    }
    layout::output_fault(word.bits)
}

// A refusal behind what stands before it; of none, nothing.
#[tactic(auto, unfolding(crate::specs::Describe::fault_text, text::specs::Text::labelled))]
pub fn put_fault<const ROOM: usize>(before: &[u8], fault: Option<Fault>, text: &mut Text<ROOM>)
    requires { length text.old + length before.now + M.most_fault ≤ ROOM }
    ensures short { length text.new ≤ length text.old + length before.now + M.most_fault }
    ensures text { text.new ≡ text.old ++ D.fault_text before.now fault }
{
    if let Some(fault) = fault {
        text.put(before);
        text.put_labelled(b"REFUSED ", u32::from(fault) as u64);
    }
}
