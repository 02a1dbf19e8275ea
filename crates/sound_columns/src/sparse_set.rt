// Whether a column's part is a sound sparse set of live entities, in time linear in its words.
ghost use Rattle.std.specs.Prelude.{◌≡◌, ◌<◌, ◌≤◌};
ghost use Rattle.component.specs.Stored.{ColumnSized};
ghost use Rattle.words.specs.Decides.{Decides, Each};
ghost use Rattle.sound_columns.specs.Checks.{RowTied, RowOk, LiveSet};

use entity::entity_part::EntityPart;
use words::{Entity, Shape};

// Words of a column's length, whatever they hold, and the entities that its rows may have.
#[derive(Clone, Copy)]
pub struct Column<'a> {
    pub part: &'a [u32],
    pub shape: Shape,
    pub entities: EntityPart<'a>,
    ghost sized: { ColumnSized shape part.now },
    ghost same_capacity: { entities.capacity ≡ shape.capacity },
}

impl Column<'_> {
    fn row_tied(&self, i: usize) -> bool
        requires { i < self.now.shape.capacity }
        ensures { Decides result (RowTied self.now.shape self.now.part.now i) }
    {
        let at = words::entity_place(i);
        let index = self.part[at] as usize;
        if self.shape.capacity <= index {
            return false;
        }
        let version = self.part[at + 1];
        let lookup = words::lookup_place(self.shape, index);
        let place = self.part[lookup] as usize;
        let held = self.part[lookup + 1];
        1 <= version && place == i && held == version
    }

    // Do row i and its index's lookup agree, and is its entity live?
    fn row_ok(&self, i: usize) -> bool
        requires { i < self.now.shape.capacity }
        ensures { Decides result (RowOk self.now.shape self.now.entities.part.now self.now.part.now i) }
    {
        let at = words::entity_place(i);
        let e = Entity {
            index: self.part[at],
            version: self.part[at + 1],
        };
        self.row_tied(i) && self.entities.contains(e)
    }

    fn rows_ok(&self, k: usize) -> bool
        requires { k ≤ self.now.shape.capacity }
        ensures { Decides result (Each k (RowOk self.now.shape self.now.entities.part.now self.now.part.now)) }
    {
        (0..k).all(|i| self.row_ok(i))
    }

    // Where all rows agree with their lookups, no other index is held exactly if as many are held as there are rows.
    pub fn is_sound(&self) -> bool
        ensures { Decides result (LiveSet self.now.shape self.now.entities.part.now self.now.part.now) }
    {
        let k = self.part[words::ROWS_LEN] as usize;
        let capacity = self.shape.capacity;
        let lookups = words::lookup_place(self.shape, 0);
        k <= capacity
            && self.rows_ok(k)
            && words::count_held(self.part, lookups, capacity) as usize == k
    }
}
