// What check_mapping says of what it read: the answer to its two files, and its text, put behind what stands of a text.
#![tactic(auto)]

ghost use Rattle.std.specs.Prelude.{◌≡◌, ◌+◌, ◌≤◌, ◌++◌, length};
ghost use Rattle.lines.specs.Lines as L;
ghost use Rattle.reader.specs.Job as J;
ghost use Rattle.checker.specs.Check as C;
ghost use Rattle.check_answers.specs.Answers as S;

use checker::CheckError;
use console::Failed;
use input::Input;
use sequence::File;
use text::Text;
use words::Refusal;

// A mapping whose last word is cut short: the job's refusals come before it.
fn cut_mapping(job: &[u32], refusal: Refusal) -> Result<(), CheckError>
    ensures { result ≡ S.cut_mapping refusal (J.job_of job.now) }
{
    reader::read_job(job).map_err(CheckError::JobRefused)?;
    Err(CheckError::MappingRefused(refusal))
}

// The answer to two files that were read.
#[tactic(auto, unfolding(crate::specs::Answers::files_ruling))]
fn check_files(job: &Input, mapping: &Input) -> Result<(), CheckError>
    ensures { C.CheckRuled (S.files_ruling job.now mapping.now) result }
{
    if let Some(refusal) = job.cut() {
        return Err(CheckError::JobRefused(refusal));
    }
    if let Some(refusal) = mapping.cut() {
        return cut_mapping(job.words(), refusal);
    }
    checker::check(job.words(), mapping.words())
}

// The text of a refusal.
fn put_refused<const ROOM: usize>(error: CheckError, text: &mut Text<ROOM>)
    requires { length text.old + L.most_line_bytes ≤ ROOM }
    ensures short { length text.new ≤ length text.old + L.most_line_bytes }
    ensures text { text.new ≡ text.old ++ S.refused_text error }
{
    match error {
        CheckError::JobRefused(refusal) => lines::refused_file_line(refusal, File::AsJob, text),
        CheckError::MappingRefused(refusal) => lines::refused_file_line(
            refusal,
            File::AsMapping,
            text,
        ),
        CheckError::Refused(refusal) => lines::refused_line(refusal, text),
        CheckError::Wrong(witness) => lines::wrong_line(witness, text),
    }
}

// The text of the checker's answer.
fn put_checked<const ROOM: usize>(checked: Result<(), CheckError>, text: &mut Text<ROOM>)
    requires { length text.old + L.most_line_bytes ≤ ROOM }
    ensures short { length text.new ≤ length text.old + L.most_line_bytes }
    ensures text { text.new ≡ text.old ++ S.checked_text checked }
{
    match checked {
        Ok(()) => text.put(b"ACCEPTED\n"),
        Err(error) => put_refused(error, text),
    }
}

// What check_mapping says of its two files; nothing, if one of them could not be read.
pub fn check_inputs<const ROOM: usize>(
    job: Result<Input, Failed>,
    mapping: Result<Input, Failed>,
    text: &mut Text<ROOM>,
)
    requires { length text.old + L.most_line_bytes ≤ ROOM }
    ensures short { length text.new ≤ length text.old + L.most_line_bytes }
    ensures said { S.SaysChecked job mapping text.old text.new }
{
    let (Ok(job), Ok(mapping)) = (job, mapping) else {
        return;
    };
    let checked = check_files(&job, &mapping);
    put_checked(checked, text);
}
