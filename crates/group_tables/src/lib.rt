// The walk upward of many entities in turn (group.rs), over tables that are made once for all of them.
#![tactic(auto)]

pub mod fill;
pub mod tables;

ghost use Rattle.std.specs.Prelude.{drop};
ghost use Rattle.model.specs.Store.{on_storage};
ghost use Rattle.masks.specs.Masks.{bits_of};
ghost use Rattle.memory.specs.Meaning.{meaning};
ghost use Rattle.memory.specs.Arranged.{Arranged, Becomes};
ghost use Rattle.group.specs.Flat.{walk_each};
ghost use Rattle.group.specs.Ready.{ReadyEach};
ghost use Rattle.group.specs.Steps.{Below};

use crate::fill::fill;
use crate::tables::{InTables, NO_GROUP, WalkTables};
use masks::group_mask::GroupMask;

// Each live entity from place start on is walked upward over the groups of a mask, one after another: what
// group::group_each does, for many entities.
pub fn group_each(words: &mut [u32], mask: GroupMask, start: usize)
    requires arranged { Arranged words.old }
    requires below { Below (bits_of 64 mask.0) (meaning words.old).storage }
    requires ready_each { ReadyEach (drop start (meaning words.old).entities.live) (bits_of 64 mask.0) (meaning words.old).storage }
    ensures { Becomes words.old words.new (on_storage (walk_each (drop start (meaning words.old).entities.live) (bits_of 64 mask.0)) (meaning words.old)) }
{
    if mask == GroupMask::empty() {
        return;
    }
    let mut tables = WalkTables {
        shape: words::shape_of(words),
        starts: [0; model::MAX_KINDS],
        groups: [NO_GROUP; model::MAX_GROUP_COUNT],
        skips: [GroupMask(0); model::MAX_GROUP_COUNT],
    };
    fill(words, &mut tables);
    let lookups = InTables { tables: &tables };
    group::group_each_by(words, lookups, mask, start);
}
