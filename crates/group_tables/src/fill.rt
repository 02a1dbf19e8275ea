// The tables are filled from the words.
ghost use Rattle.std.specs.Prelude.{◌≡◌, ◌≤◌, length};
ghost use Rattle.model.specs.Numbers.{MAX_GROUP_COUNT, MAX_KINDS};
ghost use Rattle.words.specs.Shape.{shape_of};
ghost use Rattle.memory.specs.Meaning.{meaning};
ghost use Rattle.memory.specs.Arranged.{Arranged};
ghost use Rattle.group.specs.Metadata.{order_of};
ghost use Rattle.group.specs.Tables.{Starts, Groups, Skips, Tables};

use crate::tables::WalkTables;
use group::group_metadata::{group_count, kind_at, metadata};
use layout::group_metadata::GroupMetadata;
use layout::starts::start_of;
use masks::group_mask::GroupMask;
use words::{LAYOUT_KIND_ENDS, Shape};

// How many kinds the layout has.
fn width(words: &[u32]) -> usize
    requires { Arranged words.now }
    ensures { result ≡ length (order_of (meaning words.now)) }
{
    let families = words::word(words, words::LAYOUT_FAMILIES);
    start_of(words, LAYOUT_KIND_ENDS, families)
}

// The starts, from the front of a table that has room for all kinds.
pub fn fill_starts(words: &[u32], z: Shape, starts: &mut [usize])
    requires arranged { Arranged words.now }
    requires shape_is { z ≡ shape_of words.now }
    requires in_bounds { MAX_KINDS ≤ length starts.old }
    ensures { Starts words.now z starts.new }
{
    let end = width(words);
    for place in 0..end {
        let kind = kind_at(words, place);
        let slot = kinds::slot_of(words, kind);
        starts[place] = words::column_start(z, slot);
    }
}

// The metadata of all groups, from the front of a table that has room for as many as a layout may have.
pub fn fill_groups(words: &[u32], groups: &mut [GroupMetadata])
    requires arranged { Arranged words.now }
    requires in_bounds { MAX_GROUP_COUNT ≤ length groups.old }
    ensures { Groups words.now groups.new }
{
    let count = group_count(words);
    for g in 0..count {
        groups[g] = metadata(words, g);
    }
}

// For each group the mask of the groups that are left to walk where an entity lacks one of its new kinds.
pub fn fill_skips(words: &[u32], skips: &mut [GroupMask])
    requires arranged { Arranged words.now }
    requires in_bounds { MAX_GROUP_COUNT ≤ length skips.old }
    ensures { Skips words.now skips.new }
{
    let count = group_count(words);
    for g in 0..count {
        let metadata = metadata(words, g);
        skips[g] = GroupMask::skip_from_to(g, metadata.top);
    }
}

// The three tables, in a store whose columns are of their shape.
pub fn fill(words: &[u32], tables: &mut WalkTables)
    requires arranged { Arranged words.now }
    requires shape_is { tables.old.shape ≡ shape_of words.now }
    ensures { Tables words.now tables.new.shape tables.new.starts tables.new.groups tables.new.skips }
{
    fill_starts(words, tables.shape, &mut tables.starts);
    fill_groups(words, &mut tables.groups);
    fill_skips(words, &mut tables.skips);
}
