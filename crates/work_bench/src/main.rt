// A mapping put together by hand: work_bench JOB [MAPPING] opens the job of that file and reads commands on standard input, one a line. Each
// is answered on standard output as soon as its line has ended. A finish also writes the mapping's words to the second file, if it is named.
#![tactic(auto)]

ghost use Rattle.std.specs.Prelude.{◌≤◌, length};
ghost use Rattle.sequence.specs.Limits.{most_mapping_words};

use bench::Bench;
use commands::Line;
use console::Failed;
use sequence::MOST_MAPPING_WORDS;
use text::Said;

// Saves a mapping that was written, if a file is named for it.
fn save(rt: &HostRuntime, words: &[u32])
    requires { length words.now ≤ most_mapping_words }
{
    if words.len() == 0 {
        return;
    }
    if arguments::count(rt) == 3 {
        saving::save(rt, 2, words);
    }
}

// The bench after a line, which is answered.
fn answer(rt: &HostRuntime, bench: Bench, line: Line) -> Result<Bench, Failed> {
    let command = commands::command_in(line);
    // Kept: lent words and how many were written, as document 01 has a mapping written.
    let mut lent = [0u32; MOST_MAPPING_WORDS];
    let mut text = Said::new();
    let worked = bench_answers::work(bench, command, &mut lent, &mut text);
    let printed = console::print(rt, text.as_bytes());
    let words = worked.words;
    save(rt, &lent[..words]);
    printed?;
    Ok(worked.bench)
}

// The bench, and the line of a command so far.
#[derive(Drop)]
struct Session {
    bench: Bench,
    line: Line,
}

impl Session {
    // The session after a byte more; a line feed has its line answered.
    fn with(self, rt: &HostRuntime, byte: u8) -> Result<Session, Failed> {
        if byte != b'\n' {
            return Ok(Session {
                bench: self.bench,
                line: commands::with_byte(self.line, byte),
            });
        }
        Ok(Session {
            bench: answer(rt, self.bench, self.line)?,
            line: commands::empty_line(),
        })
    }
}

// Reads commands and answers each at its line feed, which the last line may lack; until they end.
fn work(rt: &HostRuntime, bench: Bench) -> Result<(), Failed> {
    let start = Session {
        bench,
        line: commands::empty_line(),
    };
    let last = console::each_byte(rt, start, |session, byte| session.with(rt, byte))?;
    answer(rt, last.bench, last.line)?;
    Ok(())
}

// How the program is called.
const USAGE: [u8; 43] = *b"usage: work_bench JOB [MAPPING] < COMMANDS\n";

fn main(rt: HostRuntime) {
    let run = arguments::may_run(
        &rt,
        2,
        3,
        &USAGE,
        &[
            &USAGE,
            b"\n\
        Opens the job of a file, and answers commands, one a line: bind WORD (a rule's eight hexadecimal digits), release F (a\n\
        function's number in decimal), price, show, finish. A finish prints the mapping and writes its words to the file\n\
        MAPPING, if it is named. Empty lines, and lines that begin with #, are passed over.\n\
        \n\
        example: printf 'bind 50854960\\nprice\\nshow\\n' | work_bench job\n",
        ],
    );
    if run {
        let _ = open_and_work(&rt);
    }
}

// Opens the job and works on its bench.
fn open_and_work(rt: &HostRuntime) -> Result<(), Failed> {
    let input = input::read_file(rt, 1);
    let mut text = Said::new();
    let opened = bench_answers::open(input, &mut text);
    console::print(rt, text.as_bytes())?;
    match opened {
        Ok(bench) => work(rt, bench),
        Err(_) => Ok(()),
    }
}
