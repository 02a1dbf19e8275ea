// One command of a run: its operands are read off the tape, and its function is called.
#![tactic(auto)]

pub mod operands;

ghost use Rattle.model.specs.Codes.{command_byte};
ghost use Rattle.model.specs.Run.{does};
ghost use Rattle.memory.specs.Meaning.{meaning};
ghost use Rattle.command.specs.Acted.{Acted};
ghost use Rattle.run_command.specs.Given.{command_in, Given, Rare};

use model::commands::Command;

// A command whose operands stand at `at`. The rare ones are behind a call of their own, so that their code does not come into the loop of a run.
pub fn act(
    words: &mut [u32],
    command: Command,
    tape: &[u8],
    at: usize,
    out: &mut [u8],
    to: usize,
) -> usize
    requires { Given words.old (command_byte command) tape.now at out.old to }
    ensures { Acted words.old words.new out.old out.new to result (does (command_in (command_byte command) tape.now at (meaning words.old)) (meaning words.old)) }
{
    match command {
        Command::Hold => operands::hold(words, tape, at, out, to),
        Command::New => command_entity::entities::new(words, out, to),
        Command::Put => command_entity::components::put(words, operands::entity(tape, at), out, to),
        Command::Take => command_take::take(words, operands::entity(tape, at), out, to),
        Command::Drop => command_entity::components::drop(
            words,
            operands::entity(tape, at),
            out,
            to,
        ),
        Command::Kill => command_entity::entities::kill(words, operands::entity(tape, at), out, to),
        Command::Register
        | Command::Wipe
        | Command::Group
        | Command::Apply
        | Command::Bar
        | Command::Range
        | Command::Empty
        | Command::Tally
        | Command::Tray
        | Command::SetCaller => rare(words, command, tape, at, out, to),
    }
}

// The commands that a line of work meets now and then: all but HOLD, NEW, PUT, TAKE, DROP and KILL.
#[inline(never)]
fn rare(
    words: &mut [u32],
    command: Command,
    tape: &[u8],
    at: usize,
    out: &mut [u8],
    to: usize,
) -> usize
    requires rare { Rare (command_byte command) }
    requires given { Given words.old (command_byte command) tape.now at out.old to }
    ensures { Acted words.old words.new out.old out.new to result (does (command_in (command_byte command) tape.now at (meaning words.old)) (meaning words.old)) }
{
    match command {
        Command::Register => operands::reg(words, tape, at, out, to),
        Command::Wipe => command_entity::components::wipe(words, out, to),
        Command::Group => command_group::group(words, out, to),
        Command::Apply => command_entity::applying::apply(words, out, to),
        Command::Bar => operands::bar(words, tape, at, out, to),
        Command::Range => command_range::range(words, out, to),
        Command::Empty => command_list::lists::empty(words, out, to),
        Command::Tally => command_list::callers::tally(words, out, to),
        Command::Tray => operands::tray(words, tape, at, out, to),
        Command::SetCaller => operands::set_caller(words, tape, at, out, to),
        Command::Hold
        | Command::New
        | Command::Put
        | Command::Take
        | Command::Drop
        | Command::Kill => { unreachable!() }
    }
}
