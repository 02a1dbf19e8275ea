// PUT, DROP and WIPE: components go into an entity, or go.
ghost use Rattle.model.specs.Commands.{PUT, DROP, WIPE};
ghost use Rattle.model.specs.Run.{does};
ghost use Rattle.model.specs.Model.{entity};
ghost use Rattle.memory.specs.Meaning.{meaning};
ghost use Rattle.command.specs.Acted.{Ready, Acted};

use command::answers::{ack, refuse};
use model::refusals::Refusal;
use words::{Entity, Found};

// PUT: the staged components go into a live entity.
pub fn put(words: &mut [u32], e: Entity, out: &mut [u8], at: usize) -> usize
    requires { Ready words.old out.old at (PUT (entity e.index e.version)) }
    ensures { Acted words.old words.new out.old out.new at result (does (PUT (entity e.index e.version)) (meaning words.old)) }
{
    let found = control::entities::get(words, e);
    let Found::At(place) = found else {
        return refuse(words, out, at, Refusal::Dead);
    };
    world::component_set::insert(words, e);
    control::staged::clear_staged(words);
    ack(out, at)
}

// DROP: a live entity's components of the staged kinds go.
pub fn drop(words: &mut [u32], e: Entity, out: &mut [u8], at: usize) -> usize
    requires { Ready words.old out.old at (DROP (entity e.index e.version)) }
    ensures { Acted words.old words.new out.old out.new at result (does (DROP (entity e.index e.version)) (meaning words.old)) }
{
    let found = control::entities::get(words, e);
    let Found::At(place) = found else {
        return refuse(words, out, at, Refusal::Dead);
    };
    world::component_set::delete(words, e);
    control::staged::clear_staged(words);
    ack(out, at)
}

// WIPE: all components go, entities live on.
pub fn wipe(words: &mut [u32], out: &mut [u8], at: usize) -> usize
    requires { Ready words.old out.old at WIPE }
    ensures { Acted words.old words.new out.old out.new at result (does WIPE (meaning words.old)) }
{
    world::component_storage::clear(words);
    ack(out, at)
}
