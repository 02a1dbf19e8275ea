// What concerns all kinds at once (component_storage.rs): an entity loses all its components, or all entities do.
ghost use Rattle.std.specs.Prelude.{◌≡◌, map, ◌<◌, length, get_or};
ghost use Rattle.model.specs.Model.{Storage, zero_count, clear_all, remove_row, remove, entity};
ghost use Rattle.model.specs.Store.{on_set, on_storage, with_layout};
ghost use Rattle.model.specs.Sound.{Distinct};
ghost use Rattle.words.specs.Shape.{shape_of};
ghost use Rattle.memory.specs.Meaning.{meaning};
ghost use Rattle.memory.specs.Arranged.{Arranged, Becomes, Sound};
ghost use Rattle.world.specs.Remove.{removed};

use words::{Entity, Shape};

// The entity's component of the kind in a slot goes: no kind needs to be looked up. z is the shape of its columns, read once for all slots.
fn strip_slot(words: &mut [u32], z: Shape, slot: usize, e: Entity)
    requires arranged { Arranged words.old }
    requires shape_is { z ≡ shape_of words.old }
    requires slot_in_bounds { slot < length (meaning words.old).kinds }
    ensures { Becomes words.old words.new (on_storage (on_set (get_or (meaning words.old).kinds slot 0) (remove_row (entity e.index e.version))) (meaning words.old)) }
{
    component::slots::remove_in(words, z, slot, e);
}

// Its components of all kinds go; no group is walked.
fn strip_sets(words: &mut [u32], z: Shape, e: Entity)
    requires arranged { Arranged words.old }
    requires shape_is { z ≡ shape_of words.old }
    requires distinct { Distinct (meaning words.old).kinds }
    ensures { Becomes words.old words.new (on_storage (removed (entity e.index e.version) (meaning words.old).kinds) (meaning words.old)) }
{
    let m = words::word(words, words::REGISTERED);
    for slot in 0..m {
        strip_slot(words, z, slot, e);
    }
}

// All components of an entity go, after it has left all groups.
pub fn strip(words: &mut [u32], e: Entity)
    requires { Sound words.old }
    ensures { Becomes words.old words.new (on_storage (remove (entity e.index e.version) (meaning words.old).kinds) (meaning words.old)) }
{
    let z = words::shape_of(words);
    group::ungroup_all(words, z, e);
    strip_sets(words, z, e);
}

// Every group's count is 0.
fn clear_counts(words: &mut [u32])
    requires { Arranged words.old }
    ensures { Becomes words.old words.new (on_storage (λ (s : Storage). with_layout s (map (map zero_count) s.layout)) (meaning words.old)) }
{
    let n = group::group_metadata::group_count(words);
    for g in 0..n {
        group::group_metadata::set_count(words, g, 0);
    }
}

// All components go: no group has an entity left.
pub fn clear(words: &mut [u32])
    requires { Arranged words.old }
    ensures { Becomes words.old words.new (on_storage clear_all (meaning words.old)) }
{
    kinds::clear_sets(words);
    clear_counts(words);
}
