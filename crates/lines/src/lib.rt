// The lines of refusals, put behind what stands of a text.
#![tactic(auto)]

ghost use Rattle.std.specs.Prelude.{◌≡◌, ◌+◌, ◌≤◌, ◌++◌, length};
ghost use Rattle.lines.specs.Lines as L;

use sequence::File;
use text::Text;
use words::{Fault, Refusal, Witness};

// A refusal's number and place.
#[tactic(auto, unfolding(crate::specs::Lines::refusal_text))]
pub fn put_refusal<const ROOM: usize>(refusal: Refusal, line: &mut Text<ROOM>)
    requires { length line.old + L.most_refusal_bytes ≤ ROOM }
    ensures short { length line.new ≤ length line.old + L.most_refusal_bytes }
    ensures text { line.new ≡ line.old ++ L.refusal_text refusal }
{
    line.put_labelled(b"REFUSED ", u32::from(refusal.fault) as u64);
    line.put_labelled(b" ", refusal.place as u64);
}

// A refusal.
#[tactic(auto, unfolding(crate::specs::Lines::refused_line))]
pub fn refused_line<const ROOM: usize>(refusal: Refusal, line: &mut Text<ROOM>)
    requires { length line.old + L.most_line_bytes ≤ ROOM }
    ensures short { length line.new ≤ length line.old + L.most_line_bytes }
    ensures text { line.new ≡ line.old ++ L.refused_line refusal }
{
    put_refusal(refusal, line);
    line.put(b"\n");
}

// A refusal of the job or of the mapping.
#[tactic(auto, unfolding(crate::specs::Lines::refused_file_line))]
pub fn refused_file_line<const ROOM: usize>(refusal: Refusal, file: File, line: &mut Text<ROOM>)
    requires { length line.old + L.most_line_bytes ≤ ROOM }
    ensures short { length line.new ≤ length line.old + L.most_line_bytes }
    ensures text { line.new ≡ line.old ++ L.refused_file_line refusal file }
{
    put_refusal(refusal, line);
    match file {
        File::AsJob => line.put(b" JOB\n"),
        File::AsMapping => line.put(b" MAPPING\n"),
    }
}

// The port, the operands and the carry at which a recipe differs from its source function.
#[tactic(auto, unfolding(crate::specs::Lines::witness_text))]
pub fn put_witness<const ROOM: usize>(witness: Witness, line: &mut Text<ROOM>)
    requires { length line.old + L.most_witness_bytes ≤ ROOM }
    ensures short { length line.new ≤ length line.old + L.most_witness_bytes }
    ensures text { line.new ≡ line.old ++ L.witness_text witness }
{
    line.put_labelled(b" PORT ", u32::from(witness.port) as u64);
    line.put_labelled(b" LEFT ", witness.left);
    line.put_labelled(b" RIGHT ", witness.right);
    line.put_labelled(b" CARRY ", witness.carry as u64);
}

// A wrong recipe: where it differs from its source function.
#[tactic(auto, unfolding(crate::specs::Lines::wrong_line))]
pub fn wrong_line<const ROOM: usize>(witness: Witness, line: &mut Text<ROOM>)
    requires { length line.old + L.most_line_bytes ≤ ROOM }
    ensures short { length line.new ≤ length line.old + L.most_line_bytes }
    ensures text { line.new ≡ line.old ++ L.wrong_line witness }
{
    let refusal = Refusal {
        fault: Fault::WrongRecipe,
        place: witness.function as usize,
    };
    put_refusal(refusal, line);
    put_witness(witness, line);
    line.put(b"\n");
}
