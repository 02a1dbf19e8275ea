// The sparse sets of a store, each reached by the slot that it lies in: its part of the words is lent on.
ghost use Rattle.std.specs.Prelude.{◌≡◌, true, [], ℕ, ◌<◌, ◌≤◌, length, get_or};
ghost use Rattle.model.specs.Model.{SparseSet, no_row, held, insert_row, swap_to, entity};
ghost use Rattle.model.specs.Numbers.{MAX_KINDS};
ghost use Rattle.words.specs.Shape.{Shaped};
ghost use Rattle.values.specs.Values.{value_of};
ghost use Rattle.component.specs.Stored.{Current};
ghost use Rattle.component.specs.Answers.{Finds};
ghost use Rattle.component.specs.Columns.{rows_of, SlotBounds, Columns};
ghost use Rattle.component.specs.Changes.{Lent, Only, RemovesIn, Changes};

use crate::{at_start, component_sparse_set, sparse_vec};
use values::Value;
use words::{Entity, Found, Shape};

// Where the slot's part starts and ends.
fn bounds(z: Shape, slot: usize) -> (usize, usize)
    requires { Shaped z × (slot < MAX_KINDS) }
    ensures { SlotBounds z slot result }
{
    let start = words::column_start(z, slot);
    (start, start + words::column_len(z))
}

pub fn len_in(words: &[u32], z: Shape, slot: usize) -> usize
    requires { Lent z slot words.now }
    ensures { length (rows_of z slot words.now) ≡ result }
{
    let (start, end) = bounds(z, slot);
    component_sparse_set::len(&words[start..end])
}

pub fn find_in(words: &[u32], z: Shape, slot: usize, e: Entity) -> Found
    requires { Lent z slot words.now }
    ensures { Finds z (entity e.index e.version) (rows_of z slot words.now) result }
{
    let (start, end) = bounds(z, slot);
    sparse_vec::find(&words[start..end], z, e)
}

// Whether the slot's rows have the entity.
pub fn holds_in(words: &[u32], z: Shape, slot: usize, e: Entity) -> bool
    requires { Lent z slot words.now }
    ensures { result ≡ held (entity e.index e.version) (rows_of z slot words.now) }
{
    let found = find_in(words, z, slot, e);
    matches!(found, Found::At(_))
}

pub fn value_in(words: &[u32], z: Shape, slot: usize, place: usize) -> Value
    requires lent { Lent z slot words.now }
    requires place_in_bounds { place < length (rows_of z slot words.now) }
    ensures { value_of z.stride result ≡ (get_or (rows_of z slot words.now) place no_row).value }
{
    let (start, end) = bounds(z, slot);
    component_sparse_set::value_at(&words[start..end], z, place)
}

pub fn insert_in(words: &mut [u32], z: Shape, slot: usize, e: Entity, x: Value)
    requires lent { Lent z slot words.old }
    requires issued { (e.index < z.capacity) × (1 ≤ e.version) }
    requires current { Current e.index e.version (rows_of z slot words.old) }
    ensures { Only z slot (insert_row (entity e.index e.version) (value_of z.stride x)) words.old words.new }
{
    let (start, end) = bounds(z, slot);
    component_sparse_set::insert(&mut words[start..end], z, e, x);
}

pub fn remove_in(words: &mut [u32], z: Shape, slot: usize, e: Entity) -> Option<Value>
    requires { Lent z slot words.old }
    ensures { RemovesIn z slot (entity e.index e.version) words.old words.new result }
{
    let (start, end) = bounds(z, slot);
    component_sparse_set::remove(&mut words[start..end], z, e)
}

pub fn swap_to_in(words: &mut [u32], z: Shape, slot: usize, e: Entity, place: usize)
    requires lent { Lent z slot words.old }
    requires holds { held (entity e.index e.version) (rows_of z slot words.old) ≡ true }
    requires place_in_bounds { place < length (rows_of z slot words.old) }
    ensures { Only z slot (swap_to (entity e.index e.version) place) words.old words.new }
{
    at_start::swap_to_from(words, z, words::column_start(z, slot), e, place);
}

pub fn clear_in(words: &mut [u32], z: Shape, slot: usize)
    requires { Lent z slot words.old }
    ensures { Only z slot (λ (rs : SparseSet). []) words.old words.new }
{
    let (start, end) = bounds(z, slot);
    component_sparse_set::clear(&mut words[start..end], z);
}

// Every slot's rows go: 01's WIPE, as far as the sparse sets are concerned.
pub fn clear_all(words: &mut [u32], z: Shape, m: usize)
    requires { Columns z m words.old }
    ensures { Changes z m (λ (s : ℕ) (rs : SparseSet). []) words.old words.new }
{
    for slot in 0..m {
        clear_in(words, z, slot);
    }
}
