// Groups: the walks that bring an entity into its groups and out of them (group.rs).
// z is the store's shape, read once for a walk; it goes beside the words for the reason that the crate `kinds` gives.
#![tactic(auto)]

pub mod group_metadata;
pub mod group_status;
pub mod in_words;
pub mod lookups;

ghost use Rattle.std.specs.Prelude.{◌≡◌, reverse, ◌-◌, ◌<◌, ◌≤◌, drop};
ghost use Rattle.model.specs.Model.{groups_of, entity};
ghost use Rattle.model.specs.Store.{on_storage};
ghost use Rattle.words.specs.Part.{between};
ghost use Rattle.words.specs.Shape.{shape_of};
ghost use Rattle.masks.specs.Masks.{bits_of, up_from};
ghost use Rattle.masks.specs.Walk.{Highest};
ghost use Rattle.memory.specs.Meaning.{meaning};
ghost use Rattle.memory.specs.Arranged.{Arranged, Becomes};
ghost use Rattle.group.specs.Flat.{located, status_at, group_at, ungroup_at, step_down, walk_up, walk_each, walk_down};
ghost use Rattle.group.specs.Ready.{Swappable, StandsAt, ReadyIn, ReadyOut, ReadyUp, ReadyEach, ReadyDown};
ghost use Rattle.group.specs.Metadata.{order_of, PlacesKnown, Stands};
ghost use Rattle.group.specs.Steps.{swap_kinds, Below, StepsUp};

use crate::group_metadata::{count, group_count, kind_at, metadata, set_count};
use crate::group_status::{GroupStatus, status_by, status_in};
use crate::in_words::InWords;
use crate::lookups::Lookups;
use layout::group_metadata::GroupMetadata;
use masks::group_mask::GroupMask;
use words::{Entity, Shape};

// Swaps the entity to a place in every sparse set of a group.
fn swap_kinds<L: Lookups>(
    words: &mut [u32],
    lookups: L,
    metadata: GroupMetadata,
    e: Entity,
    swap_index: usize,
)
    requires arranged { Arranged words.old }
    requires lookups { L.valid lookups words.old }
    requires places_known { PlacesKnown (meaning words.old) metadata.storage_start metadata.storage_end }
    requires swappable { Swappable (entity e.index e.version) (between metadata.storage_start metadata.storage_end (order_of (meaning words.old))) swap_index (meaning words.old).storage.sets }
    ensures { Becomes words.old words.new (on_storage (swap_kinds (entity e.index e.version) swap_index (between metadata.storage_start metadata.storage_end (order_of (meaning words.old)))) (meaning words.old)) }
{
    for place in metadata.storage_start..metadata.storage_end {
        lookups.swap(words, place, e, swap_index);
    }
}

// Brings the entity into the group, in every sparse set of the group.
fn group_components<L: Lookups>(
    words: &mut [u32],
    lookups: L,
    metadata: GroupMetadata,
    g: usize,
    group_len: usize,
    e: Entity,
)
    requires arranged { Arranged words.old }
    requires lookups { L.valid lookups words.old }
    requires stands { Stands (meaning words.old) g metadata group_len }
    requires swappable { Swappable (entity e.index e.version) (located (meaning words.old).storage.layout g).kinds (located (meaning words.old).storage.layout g).count (meaning words.old).storage.sets }
    ensures { Becomes words.old words.new (on_storage (group_at (entity e.index e.version) g) (meaning words.old)) }
{
    swap_kinds(words, lookups, metadata, e, group_len);
    set_count(words, g, group_len + 1);
}

// Brings it out again. It stands at the same place in every sparse set of the group;
// at the last counted place it needs no swap.
fn ungroup_components(
    words: &mut [u32],
    z: Shape,
    metadata: GroupMetadata,
    g: usize,
    group_len: usize,
    place: usize,
    e: Entity,
)
    requires arranged { Arranged words.old }
    requires shape_is { z ≡ shape_of words.old }
    requires stands { Stands (meaning words.old) g metadata group_len }
    requires le_group_len { 1 ≤ group_len }
    requires swappable { Swappable (entity e.index e.version) (located (meaning words.old).storage.layout g).kinds ((located (meaning words.old).storage.layout g).count - 1) (meaning words.old).storage.sets }
    requires stands_at { StandsAt (entity e.index e.version) (located (meaning words.old).storage.layout g).kinds place (meaning words.old).storage.sets }
    ensures { Becomes words.old words.new (on_storage (ungroup_at (entity e.index e.version) g) (meaning words.old)) }
{
    let swap_index = group_len - 1;
    if place == swap_index {
        set_count(words, g, swap_index);
        return;
    }
    let lookups = InWords { shape: z };
    swap_kinds(words, lookups, metadata, e, swap_index);
    set_count(words, g, swap_index);
}

// One group of the walk upward; answers what is left of the groups after it.
fn group_step<L: Lookups>(
    words: &mut [u32],
    lookups: L,
    g: usize,
    rest: GroupMask,
    e: Entity,
) -> GroupMask
    requires arranged { Arranged words.old }
    requires lookups { L.valid lookups words.old }
    requires g_bound { g < groups_of (meaning words.old).storage.layout }
    requires ready_in { ReadyIn (status_at (entity e.index e.version) g (meaning words.old).storage) (entity e.index e.version) (located (meaning words.old).storage.layout g) (meaning words.old).storage.sets }
    requires covered { L.covers lookups (entity e.index e.version) }
    ensures { StepsUp words.old words.new (entity e.index e.version) g rest.0 result.0 }
{
    let metadata = lookups.metadata(words, g);
    let group_len = count(words, g);
    let status = status_by(words, lookups, g, metadata, group_len, e);
    match status {
        GroupStatus::Incomplete => {
            let skip = lookups.left_after(words, g, metadata);
            rest.intersection(skip)
        }
        GroupStatus::Ungrouped => {
            group_components(words, lookups, metadata, g, group_len, e);
            rest
        }
        GroupStatus::Grouped(_) => rest,
    }
}

// The walk upward over the groups of a mask, lowest first, by such lookups.
fn group_by<L: Lookups>(words: &mut [u32], lookups: L, mask: GroupMask, e: Entity)
    requires arranged { Arranged words.old }
    requires lookups { L.valid lookups words.old }
    requires below { Below (bits_of 64 mask.0) (meaning words.old).storage }
    requires ready_up { ReadyUp (entity e.index e.version) 0 (bits_of 64 mask.0) (meaning words.old).storage }
    requires covered { L.covers lookups (entity e.index e.version) }
    ensures { Becomes words.old words.new (on_storage (walk_up (entity e.index e.version) 0 (bits_of 64 mask.0)) (meaning words.old)) }
{
    let mut left = mask;
    while let Some((g, rest)) = left.next() {
        left = group_step(words, lookups, g as usize, rest, e);
    }
}

// The walk upward, with everything read of the words.
pub fn group(words: &mut [u32], z: Shape, mask: GroupMask, e: Entity)
    requires arranged { Arranged words.old }
    requires shape_is { z ≡ shape_of words.old }
    requires below { Below (bits_of 64 mask.0) (meaning words.old).storage }
    requires ready_up { ReadyUp (entity e.index e.version) 0 (bits_of 64 mask.0) (meaning words.old).storage }
    ensures { Becomes words.old words.new (on_storage (walk_up (entity e.index e.version) 0 (bits_of 64 mask.0)) (meaning words.old)) }
{
    let lookups = InWords { shape: z };
    group_by(words, lookups, mask, e);
}

// Each live entity from place start on is walked upward over the groups of a mask, one after another,
// by such lookups.
pub fn group_each_by<L: Lookups>(words: &mut [u32], lookups: L, mask: GroupMask, start: usize)
    requires arranged { Arranged words.old }
    requires lookups { L.valid lookups words.old }
    requires below { Below (bits_of 64 mask.0) (meaning words.old).storage }
    requires ready_each { ReadyEach (drop start (meaning words.old).entities.live) (bits_of 64 mask.0) (meaning words.old).storage }
    ensures { Becomes words.old words.new (on_storage (walk_each (drop start (meaning words.old).entities.live) (bits_of 64 mask.0)) (meaning words.old)) }
{
    let len = control::entities::live_len(words);
    for place in start..len {
        let entity = control::entities::live_at(words, place);
        group_by(words, lookups, mask, entity);
    }
}

// The same, with everything read of the words. It stands beside group_tables::group_each, which has the same contract,
// since a TRAY has few entities, which do not pay for the making of tables.
pub fn group_each(words: &mut [u32], mask: GroupMask, start: usize)
    requires arranged { Arranged words.old }
    requires below { Below (bits_of 64 mask.0) (meaning words.old).storage }
    requires ready_each { ReadyEach (drop start (meaning words.old).entities.live) (bits_of 64 mask.0) (meaning words.old).storage }
    ensures { Becomes words.old words.new (on_storage (walk_each (drop start (meaning words.old).entities.live) (bits_of 64 mask.0)) (meaning words.old)) }
{
    if mask == GroupMask::empty() {
        return;
    }
    let lookups = InWords {
        shape: words::shape_of(words),
    };
    group_each_by(words, lookups, mask, start);
}

// One group of the walk downward.
fn ungroup_step(words: &mut [u32], z: Shape, g: usize, e: Entity)
    requires arranged { Arranged words.old }
    requires shape_is { z ≡ shape_of words.old }
    requires g_bound { g < groups_of (meaning words.old).storage.layout }
    requires ready_out { ReadyOut (status_at (entity e.index e.version) g (meaning words.old).storage) (entity e.index e.version) (located (meaning words.old).storage.layout g) (meaning words.old).storage.sets }
    ensures { Becomes words.old words.new (on_storage (step_down (status_at (entity e.index e.version) g (meaning words.old).storage) (entity e.index e.version) g) (meaning words.old)) }
{
    let metadata = metadata(words, g);
    let status = status_in(words, z, g, metadata, e);
    if let GroupStatus::Grouped(place) = status {
        let group_len = count(words, g);
        ungroup_components(words, z, metadata, g, group_len, place, e);
    }
}

// The walk downward leaves a larger group before the smaller ones in it.
fn highest(mask: GroupMask) -> Option<(u32, GroupMask)>
    ensures { Highest mask.0 result }
{
    mask.next_back()
}

// The walk downward over the groups of a mask, highest first.
pub fn ungroup(words: &mut [u32], z: Shape, mask: GroupMask, e: Entity)
    requires arranged { Arranged words.old }
    requires shape_is { z ≡ shape_of words.old }
    requires below { Below (bits_of 64 mask.0) (meaning words.old).storage }
    requires ready_down { ReadyDown (entity e.index e.version) (reverse (bits_of 64 mask.0)) (meaning words.old).storage }
    ensures { Becomes words.old words.new (on_storage (walk_down (entity e.index e.version) (reverse (bits_of 64 mask.0))) (meaning words.old)) }
{
    let mut left = mask;
    while let Some((g, rest)) = highest(left) {
        ungroup_step(words, z, g as usize, e);
        left = rest;
    }
}

// Out of all groups, highest first.
pub fn ungroup_all(words: &mut [u32], z: Shape, e: Entity)
    requires arranged { Arranged words.old }
    requires shape_is { z ≡ shape_of words.old }
    requires ready_down { ReadyDown (entity e.index e.version) (reverse (up_from 0 (groups_of (meaning words.old).storage.layout))) (meaning words.old).storage }
    ensures { Becomes words.old words.new (on_storage (walk_down (entity e.index e.version) (reverse (up_from 0 (groups_of (meaning words.old).storage.layout)))) (meaning words.old)) }
{
    let n = group_count(words);
    let mask = GroupMask::from_to(0, n);
    ungroup(words, z, mask, e);
}
