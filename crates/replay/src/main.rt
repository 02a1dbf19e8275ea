// The recorded answers of the Rust (data/answers.bin), replayed through the crate `store`: how many of the recorded cases agree, and the first that
// does not. README.md says how they were recorded.
#![tactic(auto)]

mod cases;
mod compare;
mod recorded;

ghost use Rattle.std.specs.Prelude.{◌≡◌, ◌≤◌, ◌<◌, length};
ghost use Rattle.std.specs.Io.{ReadsAtMost};
ghost use Rattle.replay.specs.Agreement.{CountedCase, Replayed};

use std::fs::File;
use std::process::ExitCode;
use std::rt::Files;
use std::{fmt, io};

// The file's name.
const ANSWERS: &str = "answers.bin";
// More bytes than the file has.
const FILE: usize = 262144;
// What a recorded case needs at most: words of a store, and bytes of answers or of a roll.
const WORDS: usize = 8192;

const BYTES: usize = 4096;
// The file's first bytes, and the number of its cases after them.
const HEAD: usize = 12;

// How many cases there are, how many of them agree, and the first that does not. Cases count from 1.
#[derive(Drop, Default)]
struct Tally {
    cases: u32,
    agree: u32,
    first: Option<u32>,
}

// One case more.
fn counted(tally: Tally, agrees: bool) -> Tally
    requires cases_bound { tally.cases < 4294967295 }
    requires agree_le_cases { tally.agree ≤ tally.cases }
    ensures { CountedCase tally agrees result }
{
    let cases = tally.cases + 1;
    if agrees {
        return Tally {
            cases,
            agree: tally.agree + 1,
            first: tally.first,
        };
    }
    Tally {
        cases,
        agree: tally.agree,
        first: tally.first.or(Some(cases)),
    }
}

// All cases of the file.
fn replay_cases(words: &mut [u32], file: &[u8], cases: u32, out: &mut [u8]) -> Tally
    requires words_len { length words.old ≡ 8192 }
    requires in_bounds { 12 ≤ length file.now }
    ensures { Replayed file.now cases result }
{
    let mut tally = Tally::default();
    let mut at = HEAD;
    for done in 0..cases {
        let step = cases::replay_case(words, file, at, out);
        at = step.at;
        tally = counted(tally, step.agrees);
    }
    tally
}

// A case starts on words that the one before has left.
fn replay(file: &[u8], cases: u32) -> Tally
    requires { 12 ≤ length file.now }
    ensures { Replayed file.now cases result }
{
    let mut words = [0u32; WORDS];
    let mut out = [0u8; BYTES];
    replay_cases(&mut words, file, cases, &mut out)
}

// Of a line that fails a front part may be written, and no line after it; no clause can say what standard output takes.
fn report(rt: &impl Print, tally: Tally) -> io::Result<()> {
    let Tally {
        cases,
        agree,
        first,
    } = tally;
    println!(rt; "{agree} of {cases} recorded cases agree")?;
    if let Some(first) = first {
        println!(rt; "the first that does not is case {first}")?;
    }
    Ok(())
}

// A file that is none of recorded answers is refused.
fn replay_file(rt: &impl Print, file: &[u8]) -> io::Result<()> {
    if file.len() < HEAD || !file.starts_with(b"TAPES 2\n") {
        return println!(rt; "no recorded answers");
    }
    report(rt, replay(file, codec::get::<4>(file, 8)))
}

// The file's bytes, as many as there is room for. Where a read fails, those before it stand at the front.
fn read_answers(rt: &impl Files, buffer: &mut [u8]) -> io::Result<usize>
    ensures { ReadsAtMost result buffer.new }
{
    let mut file = File::open(rt, ANSWERS)?;
    input::read_up_to(&mut file, buffer)
}

// Where the program failed.
#[derive(Drop)]
enum Failure {
    Answers(io::Error),
    Output(io::Error),
}

impl fmt::Display for Failure {
    fn fmt<W: fmt::Write>(&self, f: &mut fmt::Formatter<W>) -> fmt::Result {
        match self {
            Failure::Answers(error) => write!(f, "{ANSWERS}: {error}"),
            Failure::Output(error) => write!(f, "standard output: {error}"),
        }
    }
}

fn replay_answers(rt: &(impl Files + Print)) -> Result<(), Failure> {
    let mut file = [0u8; FILE];
    let n = read_answers(rt, &mut file).map_err(Failure::Answers)?;
    replay_file(rt, &file[..n]).map_err(Failure::Output)
}

fn main(rt: HostRuntime) -> ExitCode {
    match replay_answers(&rt) {
        Ok(()) => ExitCode::SUCCESS,
        Err(failure) => {
            let _ = eprintln!(rt; "{failure}");
            ExitCode::FAILURE
        }
    }
}
