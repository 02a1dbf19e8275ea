// A store that has something of everything.
ghost use Rattle.flips.specs.Trial.{Keeps};

use crate::feed::{command, command_on, command_with, feed, hold};
use model::commands::Command;

// Five kinds, nested groups {1, 2} and {1, 2, 3}, and {4, 9} beside them.
fn lay_out(words: &mut [u32])
    ensures { Keeps words.old words.new }
{
    feed(words, b"\x01\x03\x01\x01\x01\x09\x01\x02\x01\x04");
    command_with(words, b"\x01\x02", Command::Group);
    command_with(words, b"\x01\x02\x03", Command::Group);
    command_with(words, b"\x04\x09", Command::Group);
    command(words, Command::Apply);
}

// Six entities, one of them with no component.
fn create(words: &mut [u32])
    ensures { Keeps words.old words.new }
{
    command_with(words, b"\x01\x02\x03", Command::New);
    command_with(words, b"\x01\x02", Command::New);
    command_with(words, b"\x01\x02\x03\x09", Command::New);
    command_with(words, b"\x01\x04", Command::New);
    command_with(words, b"\x04\x09", Command::New);
    command(words, Command::New);
}

// Three entities go, and one of their numbers comes again.
fn recycle(words: &mut [u32])
    ensures { Keeps words.old words.new }
{
    command_on(words, Command::Kill, 1, 1);
    command_on(words, Command::Kill, 4, 1);
    command_on(words, Command::Kill, 0, 1);
    command_with(words, b"\x02\x01", Command::New);
}

// A draft of nested groups and one beside them, and a refusal: entity 0 is gone.
fn draft(words: &mut [u32])
    ensures { Keeps words.old words.new }
{
    command_with(words, b"\x02\x09", Command::Group);
    command_with(words, b"\x04\x02\x09", Command::Group);
    command_with(words, b"\x01\x03", Command::Group);
    command_on(words, Command::Kill, 0, 1);
}

pub fn set_up(words: &mut [u32])
    ensures { Keeps words.old words.new }
{
    lay_out(words);
    create(words);
    recycle(words);
    draft(words);
    // staged and excluded kinds
    hold(words, b"\x04\x01");
    feed(words, b"\x0B\x03\x0B\x09");
}
