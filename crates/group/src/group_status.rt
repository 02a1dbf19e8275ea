// Whether an entity holds a group's kinds, and whether it is inside the group (group.rs).
ghost use Rattle.std.specs.Prelude.{◌≡◌, ◌<◌};
ghost use Rattle.model.specs.Model.{all_held, groups_of, entity};
ghost use Rattle.words.specs.Part.{between};
ghost use Rattle.words.specs.Shape.{shape_of};
ghost use Rattle.memory.specs.Meaning.{meaning};
ghost use Rattle.memory.specs.Arranged.{Arranged};
ghost use Rattle.group.specs.Flat.{status_at};
ghost use Rattle.group.specs.Metadata.{order_of, PlacesKnown, Describes, Stands};
ghost use Rattle.group.specs.Steps.{status_in};

use crate::group_metadata::count;
use crate::in_words::InWords;
use crate::lookups::Lookups;
use layout::group_metadata::GroupMetadata;
use words::{Entity, Found, Shape};

#[derive(Clone, Copy, Debug, PartialEq, Eq)]
pub enum GroupStatus {
    Incomplete,
    Ungrouped,
    // with the place where the entity stands
    Grouped(usize),
}

// Does the entity hold each of the layout's kinds from start to end?
fn holds_all<L: Lookups>(words: &[u32], lookups: L, start: usize, end: usize, e: Entity) -> bool
    requires arranged { Arranged words.now }
    requires lookups { L.valid lookups words.now }
    requires places_known { PlacesKnown (meaning words.now) start end }
    requires covered { L.covers lookups (entity e.index e.version) }
    ensures { result ≡ all_held (entity e.index e.version) (between start end (order_of (meaning words.now))) (meaning words.now).storage.sets }
{
    (start..end).all(|place| lookups.holds(words, place, e))
}

// The status of an entity in the group whose new kinds stand from start to end and whose count is group_len.
fn get_group_status<L: Lookups>(
    words: &[u32],
    lookups: L,
    start: usize,
    end: usize,
    group_len: usize,
    e: Entity,
) -> GroupStatus
    requires arranged { Arranged words.now }
    requires lookups { L.valid lookups words.now }
    requires places_known { PlacesKnown (meaning words.now) start end }
    requires start_lt_end { start < end }
    requires covered { L.covers lookups (entity e.index e.version) }
    ensures { result ≡ status_in (entity e.index e.version) (between start end (order_of (meaning words.now))) group_len (meaning words.now).storage.sets }
{
    let found = lookups.find(words, start, e);
    let Found::At(place) = found else {
        return GroupStatus::Incomplete;
    };
    if !holds_all(words, lookups, start + 1, end, e) {
        return GroupStatus::Incomplete;
    }
    if place < group_len {
        return GroupStatus::Grouped(place);
    }
    GroupStatus::Ungrouped
}

// The entity's status in group g, by the group's metadata and its count, by such lookups.
pub fn status_by<L: Lookups>(
    words: &[u32],
    lookups: L,
    g: usize,
    metadata: GroupMetadata,
    group_len: usize,
    e: Entity,
) -> GroupStatus
    requires arranged { Arranged words.now }
    requires lookups { L.valid lookups words.now }
    requires stands { Stands (meaning words.now) g metadata group_len }
    requires covered { L.covers lookups (entity e.index e.version) }
    ensures { result ≡ status_at (entity e.index e.version) g (meaning words.now).storage }
{
    let start = metadata.new_storage_start;
    let end = metadata.storage_end;
    get_group_status(words, lookups, start, end, group_len, e)
}

// The same, with everything read of the words.
pub fn status_in(
    words: &[u32],
    z: Shape,
    g: usize,
    metadata: GroupMetadata,
    e: Entity,
) -> GroupStatus
    requires arranged { Arranged words.now }
    requires shape_is { z ≡ shape_of words.now }
    requires g_bound { g < groups_of (meaning words.now).storage.layout }
    requires describes { Describes (meaning words.now) g metadata }
    ensures { result ≡ status_at (entity e.index e.version) g (meaning words.now).storage }
{
    let group_len = count(words, g);
    let lookups = InWords { shape: z };
    status_by(words, lookups, g, metadata, group_len, e)
}
