// The table of kinds (component_storage.rs): a kind's sparse set, reached by the slot that the table has for it. z is the store's shape,
// which the caller has read.
// The shape and the words stay two parameters, and their facts clauses: that words are well arranged goes by cases, and a
// type's fact has one proof at most; a struct over words that are written would have to show its facts again at each write.
// That a kind is registered, and that a version was issued, are facts of the words as well, and go with them.
#![tactic(auto)]

ghost use Rattle.std.specs.Prelude.{◌≡◌, true, false, [], ◌∷◌, ◌++◌, ◌<◌, ◌≤◌, length, get_or};
ghost use Rattle.model.specs.Numbers.{MAX_KINDS};
ghost use Rattle.words.specs.Offsets.{ROWS};
ghost use Rattle.words.specs.Shape.{shape_of};
ghost use Rattle.values.specs.Values.{value_of};
ghost use Rattle.model.specs.Model.{no_row, mem, held, insert_row, entity};
ghost use Rattle.model.specs.Store.{on_set, on_storage, with_kinds};
ghost use Rattle.model.specs.Sound.{In};
ghost use Rattle.component.specs.Stored.{Current};
ghost use Rattle.component.specs.Answers.{Finds};
ghost use Rattle.component.specs.Changes.{Lent};
ghost use Rattle.memory.specs.Header.{capacity_of, slot_of};
ghost use Rattle.memory.specs.Meaning.{local_at, meaning};
ghost use Rattle.memory.specs.Arranged.{Arranged, Becomes};
ghost use Rattle.kinds.specs.Kinds.{kind_set, OwnGroup, RemovesKind, emptied};
ghost use Rattle.kinds.specs.Steps.{InSlot, head_word, with_head};

use values::Value;
use words::{Entity, Found, Shape};

// 255 in the table says that the kind has no column.
pub fn is_registered(words: &[u32], kind: usize) -> bool
    requires arranged { Arranged words.now }
    requires kind_bound { kind < MAX_KINDS }
    ensures { result ≡ mem kind (meaning words.now).kinds }
{
    words::word(words, words::TABLE + kind) != words::UNREGISTERED as usize
}

// The slot of a registered kind's column.
pub fn slot_of(words: &[u32], kind: usize) -> usize
    requires arranged { Arranged words.now }
    requires kind_known { In (meaning words.now).kinds kind }
    ensures { InSlot words.now kind result }
{
    words::word(words, words::TABLE + kind)
}

pub fn set_len(words: &[u32], kind: usize) -> usize
    requires arranged { Arranged words.now }
    requires kind_known { In (meaning words.now).kinds kind }
    ensures { length (kind_set words.now kind) ≡ result }
{
    let z = words::shape_of(words);
    let slot = slot_of(words, kind);
    component::slots::len_in(words, z, slot)
}

// Any index and version may be asked for.
pub fn find(words: &[u32], z: Shape, kind: usize, e: Entity) -> Found
    requires arranged { Arranged words.now }
    requires shape_is { z ≡ shape_of words.now }
    requires kind_known { In (meaning words.now).kinds kind }
    ensures { Finds (shape_of words.now) (entity e.index e.version) (kind_set words.now kind) result }
{
    let slot = slot_of(words, kind);
    component::slots::find_in(words, z, slot, e)
}

// Whether the entity holds the kind.
pub fn holds(words: &[u32], z: Shape, kind: usize, e: Entity) -> bool
    requires arranged { Arranged words.now }
    requires shape_is { z ≡ shape_of words.now }
    requires kind_known { In (meaning words.now).kinds kind }
    ensures { result ≡ held (entity e.index e.version) (kind_set words.now kind) }
{
    let slot = slot_of(words, kind);
    component::slots::holds_in(words, z, slot, e)
}

// The value of the row at a place.
pub fn value_of(words: &[u32], z: Shape, kind: usize, place: usize) -> Value
    requires arranged { Arranged words.now }
    requires shape_is { z ≡ shape_of words.now }
    requires kind_known { In (meaning words.now).kinds kind }
    requires place_in_bounds { place < length (kind_set words.now kind) }
    ensures { value_of (shape_of words.now).stride result ≡ (get_or (kind_set words.now kind) place no_row).value }
{
    let slot = slot_of(words, kind);
    component::slots::value_in(words, z, slot, place)
}

// Puts a value with an entity: in the entity's row, or in a new one at the end.
pub fn insert(words: &mut [u32], z: Shape, kind: usize, e: Entity, x: Value)
    requires arranged { Arranged words.old }
    requires shape_is { z ≡ shape_of words.old }
    requires kind_known { In (meaning words.old).kinds kind }
    requires issued { (e.index < capacity_of words.old) × (1 ≤ e.version) }
    requires current { Current e.index e.version (kind_set words.old kind) }
    ensures { Becomes words.old words.new (on_storage (on_set kind (insert_row (entity e.index e.version) (value_of (shape_of words.old).stride x))) (meaning words.old)) }
{
    let slot = slot_of(words, kind);
    component::slots::insert_in(words, z, slot, e, x);
}

// The entity's row goes, if it has one, and its value is handed back.
pub fn remove(words: &mut [u32], z: Shape, kind: usize, e: Entity) -> Option<Value>
    requires arranged { Arranged words.old }
    requires shape_is { z ≡ shape_of words.old }
    requires kind_known { In (meaning words.old).kinds kind }
    ensures { RemovesKind words.old words.new kind (entity e.index e.version) result }
{
    let slot = slot_of(words, kind);
    component::slots::remove_in(words, z, slot, e)
}

// Every kind's rows go. A slot that no kind has is empty as it is.
pub fn clear_sets(words: &mut [u32])
    requires { Arranged words.old }
    ensures { Becomes words.old words.new (on_storage emptied (meaning words.old)) }
{
    let z = words::shape_of(words);
    let m = words::word(words, words::REGISTERED);
    component::slots::clear_all(words, z, m);
}

// A word of the head of the kind's column.
fn head(words: &[u32], z: Shape, kind: usize, i: usize) -> usize
    requires arranged { Arranged words.now }
    requires shape_is { z ≡ shape_of words.now }
    requires kind_known { In (meaning words.now).kinds kind }
    requires i_bound { i < ROWS }
    ensures { result ≡ head_word words.now kind i }
{
    let slot = slot_of(words, kind);
    let base = words::column_start(z, slot);
    words::word(words, base + i)
}

// The place of the kind's own group among the groups: the one whose new kinds have it.
pub fn own_group(words: &[u32], z: Shape, kind: usize) -> Found
    requires arranged { Arranged words.now }
    requires shape_is { z ≡ shape_of words.now }
    requires kind_known { In (meaning words.now).kinds kind }
    ensures { OwnGroup words.now kind result }
{
    let own = head(words, z, kind, words::OWN_GROUP);
    if own == 0 {
        return Found::Nothing;
    }
    Found::At(own - 1)
}

// The kind's place among its family's kinds, where it is in a group.
pub fn place_in_family(words: &[u32], z: Shape, kind: usize) -> usize
    requires arranged { Arranged words.now }
    requires shape_is { z ≡ shape_of words.now }
    requires kind_known { In (meaning words.now).kinds kind }
    ensures { result ≡ local_at words.now (slot_of words.now kind) }
{
    head(words, z, kind, words::PLACE_IN_FAMILY)
}

// The head of a column that a kind gets: the kind, in no group.
fn put_head(words: &mut [u32], z: Shape, slot: usize, kind: usize)
    requires lent { Lent z slot words.old }
    requires kind_bound { kind < MAX_KINDS }
    ensures { words.new ≡ with_head z slot kind words.old }
{
    let base = words::column_start(z, slot);
    words[base + words::COLUMN_KIND] = kind as u32;
    words[base + words::OWN_GROUP] = 0;
    words[base + words::PLACE_IN_FAMILY] = 0;
}

// The first slot that no kind has becomes the kind's. Its column has no rows.
pub fn register(words: &mut [u32], kind: usize)
    requires arranged { Arranged words.old }
    requires kind_bound { kind < MAX_KINDS }
    requires unregistered { mem kind (meaning words.old).kinds ≡ false }
    requires room { length (meaning words.old).kinds < (meaning words.old).settings.kind_capacity }
    ensures { Becomes words.old words.new (with_kinds (meaning words.old) ((meaning words.old).kinds ++ (kind ∷ []))) }
{
    let z = words::shape_of(words);
    let slot = words::word(words, words::REGISTERED);
    put_head(words, z, slot, kind);
    words[words::TABLE + kind] = slot as u32;
    words[words::REGISTERED] = slot as u32 + 1;
}
