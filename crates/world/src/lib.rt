// The world (world/mod.rs): entities and their components together.
#![tactic(auto)]

pub mod component_set;
pub mod component_storage;
pub mod mask;

ghost use Rattle.std.specs.Prelude.{◌≡◌, false, ◌≤◌};
ghost use Rattle.entity.specs.Answers.{LiveAt};
ghost use Rattle.memory.specs.Meaning.{meaning};
ghost use Rattle.memory.specs.Arranged.{Arranged, Becomes, Sound};
ghost use Rattle.world.specs.World.{NewEntity, killed};
ghost use Rattle.world.specs.Insert.{with_created, extended};
ghost use Rattle.model.specs.Model.{entity, is_full, free_numbers};

use crate::mask::{Walk, staged_mask};
use words::Entity;

// A new entity with the staged components. The caller has seen that there is a number left.
pub fn create(words: &mut [u32]) -> Entity
    requires sound { Sound words.old }
    requires not_full { is_full (meaning words.old).settings.capacity (meaning words.old).entities ≡ false }
    ensures { NewEntity words.old words.new result }
{
    let e = control::entities::create(words);
    component_set::insert(words, e);
    e
}

// That many new entities, which have no component yet.
fn create_each(words: &mut [u32], count: usize)
    requires arranged { Arranged words.old }
    requires count_bound { count ≤ free_numbers (meaning words.old).settings.capacity (meaning words.old).entities }
    ensures { Becomes words.old words.new (with_created count (meaning words.old)) }
{
    for done in 0..count {
        control::entities::create(words);
    }
}

// Many new entities, each with the staged components: all insertions first, then grouping. The caller has seen that there are numbers left.
pub fn extend(words: &mut [u32], count: usize)
    requires sound { Sound words.old }
    requires count_bound { count ≤ free_numbers (meaning words.old).settings.capacity (meaning words.old).entities }
    ensures { Becomes words.old words.new (extended count (meaning words.old)) }
{
    let z = words::shape_of(words);
    let mask = staged_mask(words, z, Walk::Insert);
    let start = control::entities::live_len(words);
    create_each(words, count);
    component_set::insert_each(words, start);
    group::group_each(words, mask, start);
}

// A live entity goes, with all its components. The caller has looked up its place in the live list, which stays while the components go.
pub fn destroy(words: &mut [u32], place: usize, e: Entity)
    requires sound { Sound words.old }
    requires live_at { LiveAt (entity e.index e.version) place (meaning words.old).entities }
    ensures { Becomes words.old words.new (killed (entity e.index e.version) (meaning words.old)) }
{
    component_storage::strip(words, e);
    control::entities::destroy(words, place, e);
}
