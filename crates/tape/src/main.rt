// Commands from standard input, on an empty store of 64 entities and 8 kinds; the answers to standard output, and then the stop number, how many
// commands were done, how many bytes of them were read and how many bytes of answers written.
#![tactic(auto)]

ghost use Rattle.std.specs.Prelude.{◌≡◌, ◌+◌, ◌≤◌, ◌<◌, length, OnOk, OnErr, IfErr};
ghost use Rattle.std.proofs.lemmas.List.Edits.{sets};
ghost use Rattle.std.specs.Io.KnownBytes.{Appends};
ghost use Rattle.tape.specs.Output.{numbers, output, Served};
ghost use Rattle.tape.specs.Played.{Played, CutShort, Unanswered};

use run::Ran;
use std::io::{Read, Write};
use std::process::ExitCode;
use std::{fmt, io};

const ENTITIES: usize = 64;

const KINDS: usize = 8;
// 1,024 + 16 × 64 + 8 × (8 + 6 × 64).
const WORDS: usize = 5184;
// The most bytes of commands, and of answers.
const MOST: usize = 16384;
// With the numbers after the answers.
const OUTPUT: usize = 16397;

// The run's four numbers, at the end of its answers.
fn put_numbers(out: &mut [u8], ran: Ran) -> usize
    requires commands_fit { ran.commands < 4294967296 }
    requires read_fits { ran.read < 4294967296 }
    requires written_fits { ran.written < 4294967296 }
    requires room { ran.written + 13 ≤ length out.old }
    ensures { (result ≡ ran.written + 13) × (out.new ≡ sets out.old ran.written (numbers ran.stop ran.commands ran.read ran.written)) }
{
    let at = ran.written;
    out[at] = ran.stop;
    codec::put::<4>(out, at + 1, ran.commands as u32);
    codec::put::<4>(out, at + 5, ran.read as u32);
    codec::put::<4>(out, at + 9, ran.written as u32);
    at + 13
}

// All that the program writes for a tape, and how long it is.
fn serve(tape: &[u8], out: &mut [u8]) -> usize
    requires tape_len_bound { length tape.now ≤ 16384 }
    requires out_len { length out.old ≡ 16397 }
    ensures { Served tape.now out.old out.new result }
{
    let mut words = [0u32; WORDS];
    store::start(&mut words, ENTITIES, KINDS);
    let ran = store::run(&mut words, tape, &mut out[..MOST]);
    put_numbers(out, ran)
}

// Which end failed.
#[derive(Drop)]
enum Failure {
    Input(io::Error),
    Output(io::Error),
}

impl fmt::Display for Failure {
    fn fmt<W: fmt::Write>(&self, f: &mut fmt::Formatter<W>) -> fmt::Result {
        match self {
            Failure::Input(error) => write!(f, "standard input: {error}"),
            Failure::Output(error) => write!(f, "standard output: {error}"),
        }
    }
}

// Writes until all is written or a write fails. One that takes nothing, or that a signal interrupts, counts as failed.
// `Write::write_all` does not say what is written where one fails.
fn write_out<W: Write>(bytes: &[u8], writer: &mut W) -> io::Result<()>
    ensures ok { OnOk result (Appends (W.contents writer.old) (W.contents writer.new) bytes.now) }
    ensures err { OnErr result (CutShort (W.contents writer.old) (W.contents writer.new) bytes.now) }
{
    let mut n = 0;
    // a `while`: how far a write came is known only after it
    while n < bytes.len() {
        let more = writer.write(&bytes[n..])?;
        if more == 0 {
            return Err(io::Error::from(io::ErrorKind::WriteZero));
        }
        n += more;
    }
    Ok(())
}

fn answer<W: Write>(tape: &[u8], writer: &mut W) -> io::Result<()>
    requires { length tape.now ≤ 16384 }
    ensures ok { OnOk result (Appends (W.contents writer.old) (W.contents writer.new) (output tape.now)) }
    ensures err { OnErr result (CutShort (W.contents writer.old) (W.contents writer.new) (output tape.now)) }
{
    let mut out = [0u8; OUTPUT];
    let n = serve(tape, &mut out);
    write_out(&out[..n], writer)
}

// The program, over any reader and writer. Commands past the most that it serves are left unread. Where a read fails,
// nothing is answered; where a write fails, the writer has a front part of the output.
fn play<R: Read, W: Write>(reader: &mut R, writer: &mut W) -> Result<(), Failure>
    ensures played { OnOk result (Played (R.remaining reader.old) (R.remaining reader.new) (W.contents writer.old) (W.contents writer.new)) }
    ensures unanswered { IfErr result (λ failure. Unanswered failure (R.remaining reader.old) (R.remaining reader.new) (W.contents writer.old) (W.contents writer.new)) }
{
    let mut tape = [0u8; MOST];
    match input::read_up_to(reader, &mut tape) {
        Ok(n) => match answer(&tape[..n], writer) {
            Ok(()) => Ok(()),
            Err(error) => Err(Failure::Output(error)),
        },
        Err(error) => Err(Failure::Input(error)),
    }
}

fn main(rt: HostRuntime) -> ExitCode {
    match play(&mut rt.stdin(), &mut rt.stdout()) {
        Ok(()) => ExitCode::SUCCESS,
        Err(failure) => {
            let _ = eprintln!(rt; "{failure}");
            ExitCode::FAILURE
        }
    }
}
