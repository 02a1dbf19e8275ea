// The lookups by index: an entity's place among the rows, and the version held, 0 where the index is not held (sparse_vec.rs).
ghost use Rattle.std.specs.Prelude.{◌≡◌, true, ◌<◌, ◌≤◌};
ghost use Rattle.words.specs.Stores.{stores};
ghost use Rattle.component.specs.SparseSet.{rows, ColumnSound};
ghost use Rattle.component.specs.Stored.{ColumnSized, lookup_stores, place_stores, clear_stores};
ghost use Rattle.component.specs.Answers.{HeldAt, Finds};
ghost use Rattle.model.specs.Model.{held, entity};

use words::{Entity, Found, Shape};

// Has index x's lookup say the place p.
pub fn put_place(part: &mut [u32], z: Shape, x: u32, p: usize)
    requires { ColumnSized z part.old × (x < z.capacity) × (p < z.capacity) }
    ensures { part.new ≡ stores part.old (place_stores z x p) }
{
    let s = words::lookup_place(z, x as usize);
    part[s] = p as u32;
}

// The place p and the version v.
pub fn put_lookup(part: &mut [u32], z: Shape, x: u32, p: usize, v: u32)
    requires { ColumnSized z part.old × (x < z.capacity) × (p < z.capacity) }
    ensures { part.new ≡ stores part.old (lookup_stores z x p v) }
{
    let s = words::lookup_place(z, x as usize);
    part[s] = p as u32;
    part[s + 1] = v;
}

// Index x is not held, and k rows are left.
pub fn clear_lookup(part: &mut [u32], z: Shape, x: u32, k: u32)
    requires { ColumnSized z part.old × (x < z.capacity) }
    ensures { part.new ≡ stores part.old (clear_stores z x k) }
{
    let s = words::lookup_place(z, x as usize);
    part[s + 1] = 0;
    part[words::ROWS_LEN] = k;
}

// The place of an entity that the rows have: no test is needed (`get_sparse_unchecked`).
pub fn place_of(part: &[u32], z: Shape, e: Entity) -> usize
    requires column_sound { ColumnSound z part.now }
    requires holds { held (entity e.index e.version) (rows z part.now) ≡ true }
    ensures { HeldAt z (entity e.index e.version) (rows z part.now) result }
{
    let s = words::lookup_place(z, e.index as usize);
    part[s] as usize
}

// Where the entity's row is, of an index that there is room for and a version that was issued.
pub fn find_issued(part: &[u32], z: Shape, e: Entity) -> Found
    requires column_sound { ColumnSound z part.now }
    requires issued { (e.index < z.capacity) × (1 ≤ e.version) }
    ensures { Finds z (entity e.index e.version) (rows z part.now) result }
{
    let s = words::lookup_place(z, e.index as usize);
    let v = part[s + 1];
    if v != e.version {
        return Found::Nothing;
    }
    Found::At(part[s] as usize)
}

// Any index and version may be asked for.
pub fn find(part: &[u32], z: Shape, e: Entity) -> Found
    requires { ColumnSound z part.now }
    ensures { Finds z (entity e.index e.version) (rows z part.now) result }
{
    if z.capacity <= e.index as usize || e.version == 0 {
        return Found::Nothing;
    }
    find_issued(part, z, e)
}
