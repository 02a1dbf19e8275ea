// The groups that an insertion and a removal walk (component_set.rs): one bit a group of the layout in force.
ghost use Rattle.std.specs.Prelude.{◌≡◌, [], ◌∷◌, ◌<◌, length, get_or};
ghost use Rattle.model.specs.Sound.{In};
ghost use Rattle.model.specs.Store.{staged_kinds};
ghost use Rattle.words.specs.Shape.{shape_of};
ghost use Rattle.masks.specs.Masks.{bits_of};
ghost use Rattle.memory.specs.Meaning.{meaning};
ghost use Rattle.memory.specs.Arranged.{Arranged};
ghost use Rattle.world.specs.Walked.{lowest_of, walk_positions};
ghost use Rattle.world.specs.Remove.{Staged};

use control::lists::{KindsInWords, StagedKinds};
use masks::group_mask::GroupMask;
use words::{Found, Shape};

// What is walked for a kind: all groups of its family where it goes in, those that have it where it goes out.
// Two names and not a rule that the caller lends: the contracts say which of the model's two walks is meant, and of a
// closure they would have to ask that it gives one of just these two.
#[derive(Clone, Copy, PartialEq, Eq, Debug)]
pub enum Walk {
    Insert,
    Delete,
}

// The lowest group that is walked: the family's first, or the kind's own.
fn lowest(walk: Walk, first: usize, own: usize) -> usize
    ensures { result ≡ lowest_of walk first own }
{
    match walk {
        Walk::Insert => first,
        Walk::Delete => own,
    }
}

// The groups to walk for a kind, up to its family's largest.
fn kind_mask(words: &[u32], z: Shape, walk: Walk, kind: usize) -> GroupMask
    requires arranged { Arranged words.now }
    requires shape_is { z ≡ shape_of words.now }
    requires kind_known { In (meaning words.now).kinds kind }
    ensures { bits_of 64 result.0 ≡ walk_positions walk (kind ∷ []) (meaning words.now).storage.layout }
{
    let found = kinds::own_group(words, z, kind);
    let Found::At(place) = found else {
        return GroupMask::empty();
    };
    let metadata = group::group_metadata::metadata(words, place);
    let from = lowest(walk, metadata.first, place);
    GroupMask::some_from_to(from, metadata.top)
}

fn mask_at(words: &[u32], z: Shape, walk: Walk, i: usize) -> GroupMask
    requires staged { Staged words.now }
    requires shape_is { z ≡ shape_of words.now }
    requires i_in_bounds { i < length (meaning words.now).control.staged }
    ensures { bits_of 64 result.0 ≡ walk_positions walk (get_or (staged_kinds (meaning words.now)) i 0 ∷ []) (meaning words.now).storage.layout }
{
    let kind = control::staged::staged_kind(words, i);
    kind_mask(words, z, walk, kind)
}

// The groups to walk for all staged kinds.
pub fn staged_mask(words: &[u32], z: Shape, walk: Walk) -> GroupMask
    requires staged { Staged words.now }
    requires shape_is { z ≡ shape_of words.now }
    ensures { bits_of 64 result.0 ≡ walk_positions walk (staged_kinds (meaning words.now)) (meaning words.now).storage.layout }
{
    let n = StagedKinds::len(words);
    let mut mask = GroupMask::empty();
    for i in 0..n {
        let more = mask_at(words, z, walk, i);
        mask = mask.union(more);
    }
    mask
}
