// RANGE: where in their columns the entities with the staged kinds and without the excluded ones stand.
#![tactic(auto)]

pub mod query;

ghost use Rattle.std.specs.Prelude.{◌∷◌, ◌++◌, ◌+◌, ◌≤◌, length};
ghost use Rattle.model.specs.Store.{bytes_of};
ghost use Rattle.model.specs.Commands.{RANGE};
ghost use Rattle.model.specs.Run.{does};
ghost use Rattle.memory.specs.Meaning.{meaning};
ghost use Rattle.command.specs.Acted.{Ready, Written, Acted};

use command::answers::ack_byte;

// Accepted, with a range to tell.
fn ack_range(out: &mut [u8], at: usize, found: u8, start: u32, end: u32) -> usize
    requires { at + 10 ≤ length out.old }
    ensures { Written out.old out.new at result (0 ∷ found ∷ bytes_of 4 start ++ bytes_of 4 end) }
{
    ack_byte(out, at, found);
    codec::put::<4>(out, at + 2, start);
    codec::put::<4>(out, at + 6, end);
    10
}

// RANGE: never refused. It empties both lists, also where there is none.
pub fn range(words: &mut [u32], out: &mut [u8], at: usize) -> usize
    requires { Ready words.old out.old at RANGE }
    ensures { Acted words.old words.new out.old out.new at result (does RANGE (meaning words.old)) }
{
    let found = query::range_under(words);
    control::staged::clear_lists(words);
    let Some(rows) = found else {
        return ack_range(out, at, 0, 0, 0);
    };
    ack_range(out, at, 1, rows.start as u32, rows.end as u32)
}
