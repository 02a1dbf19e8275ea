// A column of a store by where it starts, for a caller that has the starts of many columns at hand: its part of the words is lent on.
ghost use Rattle.std.specs.Prelude.{◌≡◌, true, ℕ, ◌≤◌, ◌<◌, length};
ghost use Rattle.model.specs.Model.{held, swap_to, entity};
ghost use Rattle.words.specs.Shape.{column_start};
ghost use Rattle.component.specs.SparseSet.{rows, ColumnSound};
ghost use Rattle.component.specs.Stored.{RowsChanged};
ghost use Rattle.component.specs.Answers.{Finds, HeldAt};
ghost use Rattle.component.specs.Columns.{rows_of};
ghost use Rattle.component.specs.Changes.{Lent, Only};
ghost use Rattle.component.specs.Start.{LentFrom, SwapsFrom};

use crate::{component_sparse_set, sparse_vec};
use words::{Entity, Found, Shape};

// Where the entity's row is, in the column that starts at base. Beside slots::find_in, since it makes two tests fewer: of an index that there is room for
// and a version that was issued.
pub fn find_from(words: &[u32], z: Shape, base: usize, e: Entity) -> Found
    requires lent_from { LentFrom z base words.now }
    requires issued { (e.index < z.capacity) × (1 ≤ e.version) }
    ensures { (s : ℕ) → base ≡ column_start z s → Finds z (entity e.index e.version) (rows_of z s words.now) result }
{
    let end = base + words::column_len(z);
    sparse_vec::find_issued(&words[base..end], z, e)
}

// Whether the column's rows have the entity.
pub fn holds_from(words: &[u32], z: Shape, base: usize, e: Entity) -> bool
    requires lent_from { LentFrom z base words.now }
    requires issued { (e.index < z.capacity) × (1 ≤ e.version) }
    ensures { (s : ℕ) → base ≡ column_start z s → result ≡ held (entity e.index e.version) (rows_of z s words.now) }
{
    let found = find_from(words, z, base, e);
    matches!(found, Found::At(_))
}

// Exchanges the entity's row with the one at place, in the column that starts at base.
pub fn swap_to_from(words: &mut [u32], z: Shape, base: usize, e: Entity, place: usize)
    requires { SwapsFrom z base (entity e.index e.version) place words.old }
    ensures { (s : ℕ) → base ≡ column_start z s → Lent z s words.old → Only z s (swap_to (entity e.index e.version) place) words.old words.new }
{
    let end = base + words::column_len(z);
    component_sparse_set::swap_to(&mut words[base..end], z, e, place);
}
