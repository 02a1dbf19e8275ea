// The table of kinds and the columns' heads point to each other.
ghost use Rattle.std.specs.Prelude.{◌≡◌, ◌<◌};
ghost use Rattle.model.specs.Numbers.{MAX_KINDS};
ghost use Rattle.words.specs.Offsets.{ROWS};
ghost use Rattle.words.specs.Decides.{Decides, Each};
ghost use Rattle.sound_columns.specs.Slots.{Slot, Room, head_at};
ghost use Rattle.sound_columns.specs.Table.{KindOk, SlotOk, TableOk};

use words::Shape;

// Word i of the head of slot s's column.
pub fn head(words: &[u32], z: Shape, s: usize, i: usize) -> usize
    requires slot { Slot z s words.now }
    requires i_bound { i < ROWS }
    ensures { result ≡ head_at z words.now s i }
{
    let base = words::column_start(z, s);
    words[base + i] as usize
}

// The columns in use, among words that hold anything else.
#[derive(Clone, Copy)]
struct Columns<'a> {
    words: &'a [u32],
    shape: Shape,
    registered: usize,
    ghost room: { Room shape registered words.now },
}

impl Columns<'_> {
    // A registered kind has a slot in use, whose column says the kind.
    fn kind_ok(&self, kind: usize) -> bool
        requires { kind < MAX_KINDS }
        ensures { Decides result (KindOk self.now.shape self.now.registered self.now.words.now kind) }
    {
        let s = self.words[words::TABLE + kind] as usize;
        s == words::UNREGISTERED as usize
            || (s < self.registered && head(self.words, self.shape, s, words::COLUMN_KIND) == kind)
    }

    // A slot in use says a kind, and the table says the slot.
    fn slot_ok(&self, s: usize) -> bool
        requires { s < self.now.registered }
        ensures { Decides result (SlotOk self.now.shape self.now.words.now s) }
    {
        let kind = head(self.words, self.shape, s, words::COLUMN_KIND);
        kind < model::MAX_KINDS && self.words[words::TABLE + kind] as usize == s
    }

    fn kinds_ok(&self) -> bool
        ensures { Decides result (Each MAX_KINDS (KindOk self.now.shape self.now.registered self.now.words.now)) }
    {
        (0..model::MAX_KINDS).all(|kind| self.kind_ok(kind))
    }

    fn slots_ok(&self) -> bool
        ensures { Decides result (Each self.now.registered (SlotOk self.now.shape self.now.words.now)) }
    {
        (0..self.registered).all(|s| self.slot_ok(s))
    }
}

// Are at most k kinds registered, each with a column of its own?
pub fn is_table(words: &[u32], z: Shape, k: usize) -> bool
    requires { Room z k words.now }
    ensures { Decides result (TableOk z k words.now) }
{
    let registered = words[words::REGISTERED] as usize;
    if k < registered {
        return false;
    }
    let columns = Columns {
        words,
        shape: z,
        registered,
    };
    columns.kinds_ok() && columns.slots_ok()
}
