// What map_job says of what it read: the answer to its input, and its text, all lines of it, put behind what stands of a text.
#![tactic(auto)]

ghost use Rattle.std.specs.Prelude.{◌≡◌, ◌≤◌, IfOk, length};
ghost use Rattle.map_answers.specs.Answers as S;
ghost use Rattle.map_answers.specs.Asked as Q;

use console::Failed;
use input::Input;
use text::Text;
use words::Refusal;

// The answer to a job that was read: a last word cut short comes before all else.
#[tactic(auto, unfolding(crate::specs::Answers::job_answer, crate::specs::Answers::job_lent))]
fn map_file(input: &Input, lent: &mut [u32]) -> Result<usize, Refusal>
    ensures answer { result ≡ S.job_answer input.now lent.old }
    ensures written { lent.new ≡ S.job_lent input.now lent.old }
{
    if let Some(refusal) = input.cut() {
        return Err(refusal);
    }
    mapper::map(input.words(), lent)
}

// The text of the mapper's answer, with the words that it wrote; and how many they are.
// Kept: the 0 of a refusal is a count, since no words were written then; an `Option` would say no more.
fn put_answer<const ROOM: usize>(
    answer: Result<usize, Refusal>,
    lent: &[u32],
    text: &mut Text<ROOM>,
) -> usize
    requires { Q.RoomFor ROOM answer lent.now text.old }
    ensures fits { result ≤ length lent.now }
    ensures said { S.SaysAnswer answer lent.now text.old text.new result }
{
    match answer {
        Ok(count) => {
            listing::put_mapping(&lent[..count], text);
            count
        }
        Err(refusal) => {
            lines::refused_line(refusal, text);
            0
        }
    }
}

// What map_job says of its input, if it could be read. The mapping is written into lent words, and how many were written is answered.
#[tactic(auto, using(crate::proofs::Mapped::words_within))]
pub fn map_input<const ROOM: usize>(
    input: Result<Input, Failed>,
    lent: &mut [u32],
    text: &mut Text<ROOM>,
) -> Result<usize, Failed>
    requires { Q.Room ROOM lent.old text.old }
    ensures fits { IfOk result (λ words. words ≤ length lent.old) }
    ensures said { S.SaysMapped input lent.old lent.new text.old text.new result }
{
    let input = input?;
    let answer = map_file(&input, lent);
    Ok(put_answer(answer, lent, text))
}
