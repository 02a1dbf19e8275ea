// Three tables of the layout in force, made once and lent to the walk of many entities: where the columns of its kinds
// start, by the kinds' places; its groups' metadata; and for each group the mask of what is left to walk where an
// entity lacks one of the group's new kinds.
ghost use Rattle.std.specs.Prelude.{◌<◌, ◌≤◌};
ghost use Rattle.model.specs.Model.{Storage};
ghost use Rattle.memory.specs.Meaning.{meaning};
ghost use Rattle.group.specs.Tables.{Tables};
ghost use Rattle.group.proofs.Kept.{tables_kept};
ghost use Rattle.group.proofs.Live.{live_issued};

use group::lookups::Lookups;
use layout::group_metadata::GroupMetadata;
use masks::group_mask::GroupMask;
use words::{Entity, Found, Shape};

#[derive(Drop)]
pub struct WalkTables {
    pub shape: Shape,
    pub starts: [usize; model::MAX_KINDS],
    pub groups: [GroupMetadata; model::MAX_GROUP_COUNT],
    pub skips: [GroupMask; model::MAX_GROUP_COUNT],
}

// What a table has where no group is.
pub const NO_GROUP: GroupMetadata = GroupMetadata {
    storage_start: 0,
    new_storage_start: 0,
    storage_end: 0,
    first: 0,
    top: 0,
};

// The tables, lent to a walk.
#[derive(Clone, Copy)]
pub struct InTables<'a> {
    pub tables: &'a WalkTables,
}

// Of an entity with an index that there is room for and a version that was issued, a lookup is read without a test. Each
// table is read as a slice, since it is of a slice's length that `Tables` speaks.
impl Lookups for InTables<'_> {
    ghost valid = { λ l w. Tables w l.tables.now.shape l.tables.now.starts l.tables.now.groups l.tables.now.skips };

    ghost covers = { λ l e. (e.index < l.tables.now.shape.capacity) × (1 ≤ e.version) };

    fn metadata(self, words: &[u32], g: usize) -> GroupMetadata {
        let groups = &self.tables.groups[..];
        groups[g]
    }

    fn left_after(self, words: &[u32], g: usize, metadata: GroupMetadata) -> GroupMask {
        let skips = &self.tables.skips[..];
        skips[g]
    }

    fn find(self, words: &[u32], place: usize, e: Entity) -> Found {
        let starts = &self.tables.starts[..];
        component::at_start::find_from(words, self.tables.shape, starts[place], e)
    }

    fn holds(self, words: &[u32], place: usize, e: Entity) -> bool {
        let starts = &self.tables.starts[..];
        component::at_start::holds_from(words, self.tables.shape, starts[place], e)
    }

    fn swap(self, words: &mut [u32], place: usize, e: Entity, swap_index: usize) {
        let starts = &self.tables.starts[..];
        component::at_start::swap_to_from(words, self.tables.shape, starts[place], e, swap_index);
    }

    ghost kept = { λ l w w' arranged becomes same valid. tables_kept w w' l.tables.now.shape l.tables.now.starts (λ (s : Storage). (meaning w').storage) arranged becomes same l.tables.now.groups l.tables.now.skips valid };

    ghost covers_live = { λ l w i x y arranged valid within is. live_issued w arranged i x y within is valid.columns.shape };
}
