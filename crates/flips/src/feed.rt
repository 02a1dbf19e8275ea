// Commands of the tape, one run each.
ghost use Rattle.flips.specs.Trial.{Keeps};

use model::commands::Command;

// Whether the tape was served to its end. Sound words stay sound.
pub fn feed(words: &mut [u32], tape: &[u8]) -> bool
    ensures { Keeps words.old words.new }
{
    let mut out = [0u8; 64];
    let ran = store::run(words, tape, &mut out);
    ran.stop == 0
}

pub fn command(words: &mut [u32], which: Command) -> bool
    ensures { Keeps words.old words.new }
{
    feed(words, &[u8::from(which)])
}

// A command on an entity.
pub fn command_on(words: &mut [u32], which: Command, index: u8, version: u8) -> bool
    ensures { Keeps words.old words.new }
{
    feed(words, &[u8::from(which), index, 0, 0, 0, version, 0, 0, 0])
}

// HOLD of each kind, with a value of its own.
pub fn hold(words: &mut [u32], kinds: &[u8])
    ensures { Keeps words.old words.new }
{
    let byte = u8::from(Command::Hold);
    for &kind in kinds {
        feed(words, &[byte, kind, kind, 0, 0, 0, 1, 0, 0, 0]);
    }
}

// A command with these kinds staged.
pub fn command_with(words: &mut [u32], kinds: &[u8], which: Command) -> bool
    ensures { Keeps words.old words.new }
{
    hold(words, kinds);
    command(words, which)
}
