// NEW, TRAY and KILL: an entity comes, many come, or one goes.
ghost use Rattle.std.specs.Prelude.{◌∷◌, ◌++◌, ◌+◌, ◌≤◌, length};
ghost use Rattle.model.specs.Store.{bytes_of};
ghost use Rattle.model.specs.Commands.{NEW, TRAY, KILL};
ghost use Rattle.model.specs.Run.{does};
ghost use Rattle.model.specs.Model.{entity};
ghost use Rattle.memory.specs.Meaning.{meaning};
ghost use Rattle.command.specs.Acted.{Ready, Written, Acted};

use command::answers::{ack, ack_count, ack_number, refuse};
use model::refusals::Refusal;
use words::{Entity, Found};

// KILL: a live entity goes, with all its components. The staged ones stay.
pub fn kill(words: &mut [u32], e: Entity, out: &mut [u8], at: usize) -> usize
    requires { Ready words.old out.old at (KILL (entity e.index e.version)) }
    ensures { Acted words.old words.new out.old out.new at result (does (KILL (entity e.index e.version)) (meaning words.old)) }
{
    let found = control::entities::get(words, e);
    let Found::At(place) = found else {
        return refuse(words, out, at, Refusal::Dead);
    };
    world::destroy(words, place, e);
    ack(out, at)
}

// Accepted, with an entity to tell.
fn ack_entity(out: &mut [u8], at: usize, e: Entity) -> usize
    requires { at + 9 ≤ length out.old }
    ensures { Written out.old out.new at result (0 ∷ bytes_of 4 e.index ++ bytes_of 4 e.version) }
{
    ack_number(out, at, e.index);
    codec::put::<4>(out, at + 5, e.version);
    9
}

// NEW: an entity with the staged components.
pub fn new(words: &mut [u32], out: &mut [u8], at: usize) -> usize
    requires { Ready words.old out.old at NEW }
    ensures { Acted words.old words.new out.old out.new at result (does NEW (meaning words.old)) }
{
    if control::entities::is_full(words) {
        return refuse(words, out, at, Refusal::Full);
    }
    let e = world::create(words);
    control::staged::clear_staged(words);
    ack_entity(out, at, e)
}

// TRAY: that many entities with the staged components.
pub fn tray(words: &mut [u32], count: u32, out: &mut [u8], at: usize) -> usize
    requires { Ready words.old out.old at (TRAY count) }
    ensures { Acted words.old words.new out.old out.new at result (does (TRAY count) (meaning words.old)) }
{
    let many = count as usize;
    if control::entities::free_numbers(words) < many {
        return refuse(words, out, at, Refusal::Full);
    }
    world::extend(words, many);
    control::staged::clear_staged(words);
    ack_count(out, at, count)
}
