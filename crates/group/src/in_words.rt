// Everything is read of the words when it is asked for.
ghost use Rattle.std.specs.Prelude.{◌≡◌};
ghost use mathlib.Core.Path.{ap, sym, ◌∙◌};
ghost use Rattle.model.specs.Store.{Store};
ghost use Rattle.words.specs.Shape.{shape_of, shape};
ghost use Rattle.memory.proofs.Becomes.{shape_means};

use crate::group_metadata::{kind_at, metadata};
use crate::lookups::Lookups;
use layout::group_metadata::GroupMetadata;
use masks::group_mask::GroupMask;
use words::{Entity, Found, Shape};

// The store's shape, read once for a walk.
#[derive(Clone, Copy)]
pub struct InWords {
    pub shape: Shape,
}

impl Lookups for InWords {
    ghost valid = { λ l w. l.shape ≡ shape_of w };

    ghost covers = { λ l e. Unit {0} };

    fn metadata(self, words: &[u32], g: usize) -> GroupMetadata {
        metadata(words, g)
    }

    fn left_after(self, words: &[u32], g: usize, metadata: GroupMetadata) -> GroupMask {
        GroupMask::skip_from_to(g, metadata.top)
    }

    fn find(self, words: &[u32], place: usize, e: Entity) -> Found {
        let kind = kind_at(words, place);
        kinds::find(words, self.shape, kind, e)
    }

    fn holds(self, words: &[u32], place: usize, e: Entity) -> bool {
        let kind = kind_at(words, place);
        kinds::holds(words, self.shape, kind, e)
    }

    fn swap(self, words: &mut [u32], place: usize, e: Entity, swap_index: usize) {
        let kind = kind_at(words, place);
        let slot = kinds::slot_of(words, kind);
        component::slots::swap_to_in(words, self.shape, slot, e, swap_index);
    }

    ghost kept = { λ l w w' arranged becomes same valid. valid ∙ sym (sym (shape_means w') ∙ ap (λ (m : Store). shape m.settings.capacity m.settings.value_bytes) becomes.means ∙ shape_means w) };

    ghost covers_live = { λ l w i x y arranged valid within is. tt };
}
