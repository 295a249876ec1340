// What judge_rule says of a word: its judgement at a width, or at every width, as a line put behind what stands of a text.
#![tactic(auto)]

ghost use Rattle.std.specs.Prelude.{◌≡◌, ◌+◌, ◌≤◌, ◌++◌, length, Ok, Err, Some};
ghost use Rattle.lines.specs.Lines as L;
ghost use Rattle.verdict.specs.declared.Verdict.TheVariants as D;
ghost use Rattle.judge_answers.specs.Everywhere as E;
ghost use Rattle.judge_answers.specs.Lines as S;
ghost use Rattle.judge_answers.specs.Room as M;

use text::Text;
use verdict::Verdict;
use words::{Refusal, Witness};

// A width at which a recipe is wrong, and operands there.
#[derive(Clone, Copy)]
pub struct WrongAt {
    width: u32,
    witness: Witness,
}

// Judges a recipe word, its target marked or not, at every width, the least first: none where it is right at all, or the least at which
// it is wrong.
#[tactic(auto, using(crate::proofs::Widths::refused_everywhere, crate::proofs::Widths::right_at_all, crate::proofs::Widths::right_at_none, crate::proofs::Widths::right_more, crate::proofs::Widths::wrong_first))]
fn judge_everywhere(word: u32, mark: u32) -> Result<Option<WrongAt>, Refusal>
    ensures { E.JudgedEverywhere word mark result }
{
    for width in 1..=64 {
        let verdict = verdict::judge(word, width, mark)?;
        if let Verdict::Wrong(witness) = verdict {
            return Ok(Some(WrongAt { width, witness }));
        }
    }
    Ok(None)
}

// A refusal behind the word.
fn put_refused<const ROOM: usize>(refusal: Refusal, line: &mut Text<ROOM>)
    requires { length line.old + M.most_behind_bytes ≤ ROOM }
    ensures short { length line.new ≤ length line.old + M.most_behind_bytes }
    ensures text { line.new ≡ line.old ++ S.judgement_text (Err refusal) }
{
    line.put(b" ");
    lines::put_refusal(refusal, line);
    line.put(b"\n");
}

// A wrong recipe's operands behind the word.
fn put_wrong<const ROOM: usize>(witness: Witness, line: &mut Text<ROOM>)
    requires { length line.old + M.most_behind_bytes ≤ ROOM }
    ensures short { length line.new ≤ length line.old + M.most_behind_bytes }
    ensures text { line.new ≡ line.old ++ S.judgement_text (Ok (D.Wrong witness)) }
{
    line.put(b" WRONG");
    lines::put_witness(witness, line);
    line.put(b"\n");
}

// The width and a wrong recipe's operands behind the word.
fn put_wrong_at<const ROOM: usize>(wrong: WrongAt, line: &mut Text<ROOM>)
    requires { length line.old + M.most_behind_bytes ≤ ROOM }
    ensures short { length line.new ≤ length line.old + M.most_behind_bytes }
    ensures text { line.new ≡ line.old ++ S.everywhere_text (Ok (Some wrong)) }
{
    line.put_labelled(b" WRONG WIDTH ", wrong.width as u64);
    lines::put_witness(wrong.witness, line);
    line.put(b"\n");
}

// A judgement behind the word.
fn put_judgement<const ROOM: usize>(judgement: Result<Verdict, Refusal>, line: &mut Text<ROOM>)
    requires { length line.old + M.most_behind_bytes ≤ ROOM }
    ensures short { length line.new ≤ length line.old + M.most_behind_bytes }
    ensures text { line.new ≡ line.old ++ S.judgement_text judgement }
{
    match judgement {
        Ok(Verdict::Right) => line.put(b" RIGHT\n"),
        Ok(Verdict::Wrong(witness)) => put_wrong(witness, line),
        Err(refusal) => put_refused(refusal, line),
    }
}

// The judgement at every width behind the word.
// Kept: one function for this and put_judgement would take a width that may be lacking, or a closure; no plainer than three arms.
fn put_everywhere_text<const ROOM: usize>(
    everywhere: Result<Option<WrongAt>, Refusal>,
    line: &mut Text<ROOM>,
)
    requires { length line.old + M.most_behind_bytes ≤ ROOM }
    ensures short { length line.new ≤ length line.old + M.most_behind_bytes }
    ensures text { line.new ≡ line.old ++ S.everywhere_text everywhere }
{
    match everywhere {
        Ok(None) => line.put(b" RIGHT\n"),
        Ok(Some(wrong)) => put_wrong_at(wrong, line),
        Err(refusal) => put_refused(refusal, line),
    }
}

// The line of a word judged at a width.
#[tactic(auto, unfolding(text::specs::Text::hexadecimal))]
pub fn put_at<const ROOM: usize>(word: u32, width: u32, mark: u32, line: &mut Text<ROOM>)
    requires { length line.old + L.most_line_bytes ≤ ROOM }
    ensures short { length line.new ≤ length line.old + L.most_line_bytes }
    ensures said { S.SaysAt word width mark line.old line.new }
{
    let judgement = verdict::judge(word, width, mark);
    line.put_digits(word as u64, 16, 8);
    put_judgement(judgement, line);
}

// The line of a word judged at every width.
#[tactic(auto, unfolding(text::specs::Text::hexadecimal))]
pub fn put_everywhere<const ROOM: usize>(word: u32, mark: u32, line: &mut Text<ROOM>)
    requires { length line.old + L.most_line_bytes ≤ ROOM }
    ensures short { length line.new ≤ length line.old + L.most_line_bytes }
    ensures said { S.SaysEverywhere word mark line.old line.new }
{
    let everywhere = judge_everywhere(word, mark);
    line.put_digits(word as u64, 16, 8);
    put_everywhere_text(everywhere, line);
}
