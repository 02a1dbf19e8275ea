// The rows (component_sparse_set.rs): entities one after another, the lookups that follow them, and the values. The capacity of a shape is the entities'
// capacity, so that an append always finds room. Words 1 to 7 of the part are the storage's.
ghost use Rattle.std.specs.Prelude.{◌≡◌, true, [], ◌∷◌, ◌++◌, ◌<◌, ◌≤◌, length, get_or};
ghost use Rattle.model.specs.Lists.{cut_at};
ghost use Rattle.model.specs.Model.{SparseSet, no_row, held, insert_row, swap_to, entity};
ghost use Rattle.words.specs.declared.Shape.{Shape};
ghost use Rattle.words.specs.Stores.{stores};
ghost use Rattle.values.specs.Values.{value_of};
ghost use Rattle.component.specs.SparseSet.{length_of, index_at, version_at, row, rows, ColumnSound};
ghost use Rattle.component.specs.Stored.{ColumnSized, RowsChanged, swap_rows, Current, row_entity, entity_stores, Absent, valued, popped};
ghost use Rattle.component.specs.Answers.{Removes};

use crate::sparse_vec::{clear_lookup, find, place_of, put_lookup, put_place};
use crate::values_part::{put_value, swap_values, value_of};
use values::Value;
use words::{Entity, Found, Shape};

// The entity of row i.
fn entity_at(part: &[u32], z: Shape, i: usize) -> Entity
    requires { ColumnSized z part.now × (i < z.capacity) }
    ensures { result ≡ row_entity part.now i }
{
    let c = words::entity_place(i);
    Entity {
        index: part[c],
        version: part[c + 1],
    }
}

fn put_entity(part: &mut [u32], z: Shape, i: usize, e: Entity)
    requires { ColumnSized z part.old × (i < z.capacity) }
    ensures { part.new ≡ stores part.old (entity_stores i e.index e.version) }
{
    let c = words::entity_place(i);
    part[c] = e.index;
    part[c + 1] = e.version;
}

// How many rows there are.
pub fn len(part: &[u32]) -> usize
    requires { 1 ≤ length part.now }
    ensures { (z : Shape) → length (rows z part.now) ≡ result }
{
    part[words::ROWS_LEN] as usize
}

// The value of the row at a place.
pub fn value_at(part: &[u32], z: Shape, place: usize) -> Value
    requires { ColumnSound z part.now × (place < length (rows z part.now)) }
    ensures { value_of z.stride result ≡ (get_or (rows z part.now) place no_row).value }
{
    value_of(part, z, place)
}

// Exchanges the row at a, which is the entity's, with the one at b. The lookups keep their versions.
pub fn swap(part: &mut [u32], z: Shape, a: usize, b: usize, e: Entity)
    requires column_sound { ColumnSound z part.old }
    requires in_bounds { (a < length_of part.old) × (b < length_of part.old) }
    requires entity_at_a { (index_at part.old a ≡ e.index) × (version_at part.old a ≡ e.version) }
    ensures { RowsChanged z (swap_rows a b) part.old part.new }
{
    if a == b {
        return;
    }
    let other = entity_at(part, z, b);
    put_entity(part, z, b, e);
    put_entity(part, z, a, other);
    put_place(part, z, e.index, b);
    put_place(part, z, other.index, a);
    swap_values(part, z, a, b);
}

// Exchanges the entity's row with the one at place.
pub fn swap_to(part: &mut [u32], z: Shape, e: Entity, place: usize)
    requires column_sound { ColumnSound z part.old }
    requires holds { held (entity e.index e.version) (rows z part.old) ≡ true }
    requires place_in_bounds { place < length (rows z part.old) }
    ensures { RowsChanged z (swap_to (entity e.index e.version) place) part.old part.new }
{
    let at = place_of(part, z, e);
    swap(part, z, at, place, e);
}

// One more row, of an index that no row has.
fn append(part: &mut [u32], z: Shape, e: Entity, x: Value)
    requires column_sound { ColumnSound z part.old }
    requires issued { (e.index < z.capacity) × (1 ≤ e.version) }
    requires absent { Absent e.index (rows z part.old) }
    ensures { RowsChanged z (λ (rs : SparseSet). rs ++ (row e.index e.version (value_of z.stride x) ∷ [])) part.old part.new }
{
    let k = part[words::ROWS_LEN];
    let at = k as usize;
    put_entity(part, z, at, e);
    put_lookup(part, z, e.index, at, e.version);
    part[words::ROWS_LEN] = k + 1;
    put_value(part, z, at, x);
}

// Another value in the row at place.
fn replace(part: &mut [u32], z: Shape, place: usize, x: Value)
    requires column_sound { ColumnSound z part.old }
    requires place_in_bounds { place < length_of part.old }
    ensures { RowsChanged z (valued place (value_of z.stride x)) part.old part.new }
{
    put_value(part, z, place, x);
}

// Puts a value with an entity: in the entity's row, or in a new one at the end.
pub fn insert(part: &mut [u32], z: Shape, e: Entity, x: Value)
    requires column_sound { ColumnSound z part.old }
    requires issued { (e.index < z.capacity) × (1 ≤ e.version) }
    requires current { Current e.index e.version (rows z part.old) }
    ensures { RowsChanged z (insert_row (entity e.index e.version) (value_of z.stride x)) part.old part.new }
{
    let found = find(part, z, e);
    let Found::At(place) = found else {
        append(part, z, e, x);
        return;
    };
    replace(part, z, place, x);
}

// The row at place, whose entity has this index, goes, and the last row takes its place.
fn remove_at(part: &mut [u32], z: Shape, place: usize, index: u32)
    requires column_sound { ColumnSound z part.old }
    requires place_in_bounds { (place < length_of part.old) × (index_at part.old place ≡ index) }
    ensures { RowsChanged z (cut_at no_row place) part.old part.new }
{
    let k = part[words::ROWS_LEN] - 1;
    let last = k as usize;
    let moved = entity_at(part, z, last);
    let value = value_of(part, z, last);
    put_entity(part, z, place, moved);
    put_place(part, z, moved.index, place);
    clear_lookup(part, z, index, k);
    put_value(part, z, place, value);
}

// The entity's row goes, if it has one, and its value is handed back.
pub fn remove(part: &mut [u32], z: Shape, e: Entity) -> Option<Value>
    requires { ColumnSound z part.old }
    ensures { Removes z (entity e.index e.version) part.old part.new result }
{
    let found = find(part, z, e);
    let Found::At(place) = found else {
        return None;
    };
    let x = value_at(part, z, place);
    remove_at(part, z, place, e.index);
    Some(x)
}

// The last row goes.
fn pop(part: &mut [u32], z: Shape)
    requires column_sound { ColumnSound z part.old }
    requires some_row { 1 ≤ length_of part.old }
    ensures { RowsChanged z popped part.old part.new }
{
    let k = part[words::ROWS_LEN] - 1;
    let last = entity_at(part, z, k as usize);
    clear_lookup(part, z, last.index, k);
}

// Every row goes, one by one from the end: the cost is that of the rows held.
pub fn clear(part: &mut [u32], z: Shape)
    requires { ColumnSound z part.old }
    ensures { RowsChanged z (λ (rs : SparseSet). []) part.old part.new }
{
    for done in 0..part[words::ROWS_LEN] {
        pop(part, z);
    }
}
