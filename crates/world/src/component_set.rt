// Components go into an entity and out of it, with the groups kept right (component_set.rs). Insertion: all staged components go in, then the
// touched families' groups are walked upward. Removal: before any component goes, the entity leaves the groups that have one of the kinds. z is the store's shape:
// it is read once for a command, and by a tray, which goes kind by kind, once more for each kind. It goes beside the words for the
// reason that the crate `kinds` gives.
ghost use Rattle.std.specs.Prelude.{◌≡◌, true, ◌<◌, length, get_or, drop};
ghost use Rattle.model.specs.Model.{is_live, insert_components, remove, entity};
ghost use Rattle.model.specs.Store.{staged_kinds, on_storage};
ghost use Rattle.model.specs.Sound.{no_component};
ghost use Rattle.words.specs.Shape.{shape_of};
ghost use Rattle.memory.specs.Meaning.{meaning};
ghost use Rattle.memory.specs.Arranged.{Becomes, Sound};
ghost use Rattle.kinds.specs.Kinds.{RemovesKind};
ghost use Rattle.world.specs.Insert.{Insertable, insert_one, inserted, AllInsertable, insert_column, inserted_each};
ghost use Rattle.world.specs.Remove.{Staged, ungrouped, removed};

use crate::mask::{Walk, staged_mask};
use control::lists::{KindsInWords, StagedKinds};
use values::Value;
use words::{Entity, Shape};

// The staged component at i goes into the entity.
fn insert_one(words: &mut [u32], z: Shape, i: usize, e: Entity)
    requires insertable { Insertable words.old e.index e.version }
    requires shape_is { z ≡ shape_of words.old }
    requires i_in_bounds { i < length (meaning words.old).control.staged }
    ensures { Becomes words.old words.new (on_storage (insert_one (entity e.index e.version) (get_or (meaning words.old).control.staged i no_component)) (meaning words.old)) }
{
    let c = control::staged::staged_at(words, z, i);
    kinds::insert(words, z, c.kind, e, c.value);
}

// All staged components go into the entity; no group is walked yet.
pub fn insert_staged(words: &mut [u32], z: Shape, e: Entity)
    requires insertable { Insertable words.old e.index e.version }
    requires shape_is { z ≡ shape_of words.old }
    ensures { Becomes words.old words.new (on_storage (inserted (entity e.index e.version) (meaning words.old).control.staged) (meaning words.old)) }
{
    let n = StagedKinds::len(words);
    for i in 0..n {
        insert_one(words, z, i, e);
    }
}

// The staged components go into a live entity.
pub fn insert(words: &mut [u32], e: Entity)
    requires sound { Sound words.old }
    requires live { is_live (entity e.index e.version) (meaning words.old).entities ≡ true }
    ensures { Becomes words.old words.new (on_storage (insert_components (entity e.index e.version) (meaning words.old).control.staged) (meaning words.old)) }
{
    let z = words::shape_of(words);
    let mask = staged_mask(words, z, Walk::Insert);
    insert_staged(words, z, e);
    group::group(words, z, mask, e);
}

// The staged component at i goes into each live entity from place start on.
fn insert_column(words: &mut [u32], i: usize, start: usize)
    requires all_insertable { AllInsertable words.old }
    requires i_in_bounds { i < length (meaning words.old).control.staged }
    ensures { Becomes words.old words.new (on_storage (insert_column (drop start (meaning words.old).entities.live) (get_or (meaning words.old).control.staged i no_component)) (meaning words.old)) }
{
    let z = words::shape_of(words);
    let c = control::staged::staged_at(words, z, i);
    let slot = kinds::slot_of(words, c.kind);
    let len = control::entities::live_len(words);
    for place in start..len {
        let e = control::entities::live_at(words, place);
        component::slots::insert_in(words, z, slot, e, c.value);
    }
}

// All staged components go into each live entity from place start on, kind by kind; no group is walked yet.
pub fn insert_each(words: &mut [u32], start: usize)
    requires { AllInsertable words.old }
    ensures { Becomes words.old words.new (on_storage (inserted_each (drop start (meaning words.old).entities.live) (meaning words.old).control.staged) (meaning words.old)) }
{
    let n = StagedKinds::len(words);
    for i in 0..n {
        insert_column(words, i, start);
    }
}

// The entity leaves the groups that have a staged kind, highest first.
pub fn ungroup_staged(words: &mut [u32], z: Shape, e: Entity)
    requires sound { Sound words.old }
    requires shape_is { z ≡ shape_of words.old }
    ensures { Becomes words.old words.new (on_storage (ungrouped (entity e.index e.version) (staged_kinds (meaning words.old))) (meaning words.old)) }
{
    let mask = staged_mask(words, z, Walk::Delete);
    group::ungroup(words, z, mask, e);
}

// The entity's component of the staged kind at i goes, if it has one, and its value is handed back.
pub fn remove_one(words: &mut [u32], z: Shape, i: usize, e: Entity) -> Option<Value>
    requires staged { Staged words.old }
    requires shape_is { z ≡ shape_of words.old }
    requires i_in_bounds { i < length (meaning words.old).control.staged }
    ensures { RemovesKind words.old words.new (get_or (staged_kinds (meaning words.old)) i 0) (entity e.index e.version) result }
{
    let kind = control::staged::staged_kind(words, i);
    kinds::remove(words, z, kind, e)
}

// Its components of all staged kinds go; no group is walked.
fn delete_staged(words: &mut [u32], z: Shape, e: Entity)
    requires staged { Staged words.old }
    requires shape_is { z ≡ shape_of words.old }
    ensures { Becomes words.old words.new (on_storage (removed (entity e.index e.version) (staged_kinds (meaning words.old))) (meaning words.old)) }
{
    let n = StagedKinds::len(words);
    for i in 0..n {
        remove_one(words, z, i, e);
    }
}

// The components of the staged kinds go.
pub fn delete(words: &mut [u32], e: Entity)
    requires { Sound words.old }
    ensures { Becomes words.old words.new (on_storage (remove (entity e.index e.version) (staged_kinds (meaning words.old))) (meaning words.old)) }
{
    let z = words::shape_of(words);
    ungroup_staged(words, z, e);
    delete_staged(words, z, e);
}
