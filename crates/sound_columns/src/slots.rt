// The columns, each with its own lookups, hold live entities only.
ghost use Rattle.words.specs.Decides.{Decides, Each};
ghost use Rattle.entity.specs.Change.{SoundIn};
ghost use Rattle.sound_columns.specs.Slots.{Slot, Room};
ghost use Rattle.sound_columns.specs.Rows.{ColumnOk};

use crate::sparse_set::Column;
use entity::entity_part::EntityPart;
use words::Shape;

// A slot that no kind has is empty.
fn column_ok(words: &[u32], z: Shape, registered: usize, s: usize) -> bool
    requires slot { Slot z s words.now }
    requires sound_in { SoundIn z.capacity words.now }
    ensures { Decides result (ColumnOk z registered words.now s) }
{
    let base = words::column_start(z, s);
    let end = base + words::column_len(z);
    let entities = words::ENTITIES + model::ENTITY_LEN * z.capacity;
    let column = Column {
        part: &words[base..end],
        shape: z,
        entities: EntityPart {
            part: &words[words::ENTITIES..entities],
            capacity: z.capacity,
        },
    };
    let rows = words[base];
    (s < registered || rows == 0) && column.is_sound()
}

// Are all k columns so?
pub fn are_columns(words: &[u32], z: Shape, k: usize, registered: usize) -> bool
    requires room { Room z k words.now }
    requires sound_in { SoundIn z.capacity words.now }
    ensures { Decides result (Each k (ColumnOk z registered words.now)) }
{
    (0..k).all(|s| column_ok(words, z, registered, s))
}
