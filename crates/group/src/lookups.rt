// What a walk looks up of a group, of a column and of an entity, and from where: of the words each time, or of tables
// that are made once for many entities (the crate group_tables). A walk is one function over either.
// It is handed on by value, so that what it has of the words need not be read again behind each write.
ghost use Rattle.std.specs.Prelude.{◌≡◌, true, List, ℕ, ◌<◌, length, get_or};
ghost use Rattle.model.specs.Model.{Entity, Storage, groups_of, held, swap_to, entity, no_entity};
ghost use Rattle.model.specs.Store.{on_storage};
ghost use Rattle.words.specs.Shape.{shape_of};
ghost use Rattle.masks.specs.Masks.{bits_of, skipping};
ghost use Rattle.component.specs.Answers.{Finds};
ghost use Rattle.component.specs.Changes.{Only};
ghost use Rattle.memory.specs.Header.{slot_of};
ghost use Rattle.memory.specs.Meaning.{meaning};
ghost use Rattle.memory.specs.Arranged.{Arranged, Becomes};
ghost use Rattle.kinds.specs.Kinds.{kind_set};
ghost use Rattle.group.specs.Flat.{located};
ghost use Rattle.group.specs.Metadata.{order_of, Describes};
ghost use Rattle.group.specs.Places.{kind_no, SameLayout};

use layout::group_metadata::GroupMetadata;
use masks::group_mask::GroupMask;
use words::{Entity, Found};

pub trait Lookups: Copy {
    // What it has of the words is so.
    ghost valid: { Self → List ℕ → Type 0 };

    // The entities that it may be asked for.
    ghost covers: { Self → Entity → Type 0 };

    fn metadata(self, words: &[u32], g: usize) -> GroupMetadata
        requires arranged { Arranged words.now }
        requires lookups { valid self words.now }
        requires g_bound { g < groups_of (meaning words.now).storage.layout }
        ensures { Describes (meaning words.now) g result };

    // The groups left to walk where an entity lacks one of g's new kinds: all but those from g to its family's last.
    fn left_after(self, words: &[u32], g: usize, metadata: GroupMetadata) -> GroupMask
        requires arranged { Arranged words.now }
        requires lookups { valid self words.now }
        requires g_bound { g < groups_of (meaning words.now).storage.layout }
        requires describes { Describes (meaning words.now) g metadata }
        ensures { bits_of 64 result.0 ≡ skipping 64 g (located (meaning words.now).storage.layout g).top };

    // Where the entity stands in the sparse set of the kind at a place of the layout's.
    fn find(self, words: &[u32], place: usize, e: Entity) -> Found
        requires arranged { Arranged words.now }
        requires lookups { valid self words.now }
        requires place_in_bounds { place < length (order_of (meaning words.now)) }
        requires covered { covers self (entity e.index e.version) }
        ensures { Finds (shape_of words.now) (entity e.index e.version) (kind_set words.now (kind_no words.now place)) result };

    // Whether the entity holds the kind at a place.
    fn holds(self, words: &[u32], place: usize, e: Entity) -> bool
        requires arranged { Arranged words.now }
        requires lookups { valid self words.now }
        requires place_in_bounds { place < length (order_of (meaning words.now)) }
        requires covered { covers self (entity e.index e.version) }
        ensures { result ≡ held (entity e.index e.version) (kind_set words.now (kind_no words.now place)) };

    // Exchanges the entity's row with the one at swap_index, in the column of the kind at a place.
    fn swap(self, words: &mut [u32], place: usize, e: Entity, swap_index: usize)
        requires arranged { Arranged words.old }
        requires lookups { valid self words.old }
        requires place_in_bounds { place < length (order_of (meaning words.old)) }
        requires holds { held (entity e.index e.version) (kind_set words.old (kind_no words.old place)) ≡ true }
        requires room { swap_index < length (kind_set words.old (kind_no words.old place)) }
        ensures { Only (shape_of words.old) (slot_of words.old (kind_no words.old place)) (swap_to (entity e.index e.version) swap_index) words.old words.new };

    // A change of rows and of counts leaves it so.
    ghost kept: { (l : Self) (w w' : List ℕ) → Arranged w → Becomes w w' (on_storage (λ (s : Storage). (meaning w').storage) (meaning w)) → SameLayout w w' → valid l w → valid l w' };

    // Of a live entity it may be asked.
    ghost covers_live: { (l : Self) (w : List ℕ) (i x y : ℕ) → Arranged w → valid l w → i < length (meaning w).entities.live → entity x y ≡ get_or (meaning w).entities.live i no_entity → covers l (entity x y) };
}
