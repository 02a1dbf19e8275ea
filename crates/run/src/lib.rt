// A run: command after command off a tape, up to its end or a stop.
#![tactic(auto)]

ghost use Rattle.std.specs.Prelude.{◌≡◌, List, ℕ, ◌+◌, ◌-◌, ◌<◌, ◌≤◌, length, get_or};
ghost use Rattle.model.specs.Numbers.{LONG_VALUE_BYTES};
ghost use Rattle.model.specs.Codes.{command_byte};
ghost use Rattle.model.specs.Commands.{widths, command_at, answer_length};
ghost use Rattle.model.specs.Run.{run};
ghost use Rattle.memory.specs.Meaning.{meaning};
ghost use Rattle.memory.specs.Arranged.{Arranged, Sound};
ghost use Rattle.run.specs.Stepping.{answers, StepReady, step_at, Stepped, Completed};

use control::lists::{KindsInWords, StagedKinds};
use model::commands::{Command, LAST_COMMAND};
use model::refusals::Refusal;
use words::VALUE_WIDTH;

// How many bytes there are up to the last command's.
const BYTES: usize = LAST_COMMAND as usize + 1;
// Operand bytes by command byte, where a value has 8 bytes, and where it has 16: const arrays, by a rule of the project.
const WIDTHS: [u8; BYTES] = [0, 1, 9, 0, 8, 8, 8, 8, 0, 0, 0, 1, 0, 0, 0, 2, 1];

const LONG_WIDTHS: [u8; BYTES] = [0, 1, 17, 0, 8, 8, 8, 8, 0, 0, 0, 1, 0, 0, 0, 2, 1];
// Bytes of the accepted answer by command byte. TAKE has one more, and a value's, for each staged component.
const ANSWERS: [u8; BYTES] = [5, 2, 1, 9, 1, 1, 1, 1, 1, 2, 1, 1, 10, 1, 5, 3, 1];

// How far a run is: so many bytes of the tape are read, and so many of the answers written.
#[derive(Clone, Copy, PartialEq, Eq, Debug)]
pub struct Progress {
    pub read: usize,
    pub written: usize,
}

// What a run answers.
#[derive(Drop)]
pub struct Ran {
    pub stop: u8,
    pub commands: usize,
    pub read: usize,
    pub written: usize,
}

// The table for the store's values.
fn widths_of(words: &[u32]) -> [u8; BYTES]
    requires { Arranged words.now }
    ensures { result ≡ widths (meaning words.now).settings.value_bytes }
{
    if words[VALUE_WIDTH] as usize == model::LONG_VALUE_BYTES {
        return LONG_WIDTHS;
    }
    WIDTHS
}

fn operand_bytes(lengths: &[u8; BYTES], command: Command) -> usize
    requires { get_or lengths.now (command_byte command) 0 ≤ 1 + LONG_VALUE_BYTES }
    ensures { (result ≡ get_or lengths.now (command_byte command) 0) × (result ≤ 1 + LONG_VALUE_BYTES) }
{
    lengths[u8::from(command) as usize] as usize
}

// Bytes that the accepted answer takes, whatever the operands are.
fn answer_bytes(words: &[u32], rooms: &[u8; BYTES], command: Command) -> usize
    requires arranged { Arranged words.now }
    requires rooms_value { rooms.now ≡ answers }
    ensures { (ops : List ℕ) → result ≡ answer_length (command_at (command_byte command) ops) (meaning words.now) }
{
    let fixed = rooms[u8::from(command) as usize] as usize;
    if command == Command::Take {
        let each = 1 + words::word(words, VALUE_WIDTH);
        return fixed + each * StagedKinds::len(words);
    }
    fixed
}

// One command, or the refusal that stops the run before it.
pub fn step(
    words: &mut [u32],
    lengths: &[u8; BYTES],
    rooms: &[u8; BYTES],
    tape: &[u8],
    at: usize,
    out: &mut [u8],
    to: usize,
) -> Result<Progress, Refusal>
    requires step_ready { StepReady words.old tape.now at out.old to }
    requires tables { (lengths.now ≡ widths (meaning words.old).settings.value_bytes) × (rooms.now ≡ answers) }
    ensures { Stepped words.old words.new tape.now out.old out.new at to result (step_at (meaning words.old) tape.now at (length out.old - to)) }
{
    let command = Command::try_from(tape[at])?;
    let read = 1 + operand_bytes(lengths, command);
    if tape.len() - at < read {
        return Err(Refusal::Cut);
    }
    if out.len() - to < answer_bytes(words, rooms, command) {
        return Err(Refusal::NoRoom);
    }
    let written = run_command::act(words, command, tape, at + 1, out, to);
    Ok(Progress {
        read: at + read,
        written: to + written,
    })
}

// The whole tape, over words that are sound. The tables are made once and lent to each step: a const array is made anew where it is used.
pub fn run_sound(words: &mut [u32], tape: &[u8], out: &mut [u8]) -> Ran
    requires { Sound words.old }
    ensures { Completed words.old words.new tape.now out.old out.new result (run tape.now (length out.old) (meaning words.old)) }
{
    let lengths = widths_of(words);
    let rooms = ANSWERS;
    let mut at: usize = 0;
    let mut to: usize = 0;
    let mut done: usize = 0;
    // No `for`: how many bytes a command takes is known only after its step.
    while at < tape.len() {
        match step(words, &lengths, &rooms, tape, at, out, to) {
            Ok(next) => {
                at = next.read;
                to = next.written;
                done += 1;
            }
            Err(refusal) => {
                return Ran {
                    stop: u8::from(refusal),
                    commands: done,
                    read: at,
                    written: to,
                };
            }
        }
    }
    Ran {
        stop: 0,
        commands: done,
        read: at,
        written: to,
    }
}
