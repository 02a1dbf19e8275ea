// Commands with operands: they are read off the tape, at `at`. The two stay two parameters: what a run says of its tape, in
// its stops and in its clauses, is by places on the whole of it.
ghost use Rattle.std.specs.Prelude.{◌≡◌, ◌+◌, ◌≤◌, length, take, drop};
ghost use Rattle.model.specs.Numbers.{REG_BYTE, HOLD_BYTE, BAR_BYTE, TRAY_BYTE, SETCALLER_BYTE};
ghost use Rattle.model.specs.Model as model;
ghost use Rattle.model.specs.Commands.{entity_of_bytes};
ghost use Rattle.model.specs.Run.{does};
ghost use Rattle.memory.specs.Meaning.{meaning};
ghost use Rattle.command.specs.Acted.{Acted};
ghost use Rattle.run_command.specs.Given.{command_in, Given};

use words::Entity;

pub fn reg(words: &mut [u32], tape: &[u8], at: usize, out: &mut [u8], to: usize) -> usize
    requires { Given words.old REG_BYTE tape.now at out.old to }
    ensures { Acted words.old words.new out.old out.new to result (does (command_in REG_BYTE tape.now at (meaning words.old)) (meaning words.old)) }
{
    let kind = tape[at];
    command_list::registering::reg(words, kind, out, to)
}

pub fn hold(words: &mut [u32], tape: &[u8], at: usize, out: &mut [u8], to: usize) -> usize
    requires { Given words.old HOLD_BYTE tape.now at out.old to }
    ensures { Acted words.old words.new out.old out.new to result (does (command_in HOLD_BYTE tape.now at (meaning words.old)) (meaning words.old)) }
{
    let kind = tape[at];
    let z = words::shape_of(words);
    let x = values::get_bytes(tape, at + 1, z.width());
    command_list::lists::hold(words, kind, x, out, to)
}

// PUT's, TAKE's, DROP's and KILL's: the entity whose index and version stand there.
pub fn entity(tape: &[u8], at: usize) -> Entity
    requires { at + 8 ≤ length tape.now }
    ensures { model.entity result.index result.version ≡ entity_of_bytes (take 8 (drop at tape.now)) }
{
    Entity {
        index: codec::get::<4>(tape, at),
        version: codec::get::<4>(tape, at + 4),
    }
}

pub fn bar(words: &mut [u32], tape: &[u8], at: usize, out: &mut [u8], to: usize) -> usize
    requires { Given words.old BAR_BYTE tape.now at out.old to }
    ensures { Acted words.old words.new out.old out.new to result (does (command_in BAR_BYTE tape.now at (meaning words.old)) (meaning words.old)) }
{
    let kind = tape[at];
    command_list::lists::bar(words, kind, out, to)
}

pub fn tray(words: &mut [u32], tape: &[u8], at: usize, out: &mut [u8], to: usize) -> usize
    requires { Given words.old TRAY_BYTE tape.now at out.old to }
    ensures { Acted words.old words.new out.old out.new to result (does (command_in TRAY_BYTE tape.now at (meaning words.old)) (meaning words.old)) }
{
    let count = codec::get::<2>(tape, at);
    command_entity::entities::tray(words, count, out, to)
}

pub fn set_caller(words: &mut [u32], tape: &[u8], at: usize, out: &mut [u8], to: usize) -> usize
    requires { Given words.old SETCALLER_BYTE tape.now at out.old to }
    ensures { Acted words.old words.new out.old out.new to result (does (command_in SETCALLER_BYTE tape.now at (meaning words.old)) (meaning words.old)) }
{
    let caller = tape[at];
    command_list::callers::set_caller(words, caller, out, to)
}
