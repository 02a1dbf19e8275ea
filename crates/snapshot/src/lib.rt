// The snapshot of a store, which *roll* writes: how long it is, and its bytes. The live entities by rising index, the components of each by rising kind.
// One lookup for each live entity and registered kind: the length comes from the columns' lengths, an entity's count from the bytes of its components.
#![tactic(auto)]

ghost use Rattle.std.specs.Prelude.{◌≡◌, ◌+◌, ◌*◌, ◌<◌, ◌≤◌, length};
ghost use Rattle.model.specs.Numbers.{MAX_ENTITIES, MAX_KINDS};
ghost use Rattle.model.specs.Sound.{In};
ghost use Rattle.model.specs.Snapshot.{value_at, components_of, component_bytes, entry_bytes, flat, listing, snapshot};
ghost use Rattle.model.specs.Model.{entity};
ghost use Rattle.model.specs.Listed.{rising_kinds};
ghost use Rattle.words.specs.Shape.{shape_of};
ghost use Rattle.memory.specs.Meaning.{meaning};
ghost use Rattle.memory.specs.Arranged.{Arranged, Sound};
ghost use Rattle.kinds.specs.Kinds.{kind_set};
ghost use Rattle.snapshot.specs.Rising.{rows_in, Counted};
ghost use Rattle.snapshot.specs.Wrote.{one_bytes, entry_for, index_bytes, WrittenUntil};

use kind_list::KindList;
use model::{MAX_KINDS, WORD_BYTES};
use words::{Entity, Found, Shape};

// The rows of a kind's column, none where the kind has no column.
fn set_length(words: &[u32], kind: usize) -> usize
    requires sound { Sound words.now }
    requires kind_bound { kind < MAX_KINDS }
    ensures { Counted result (length (kind_set words.now kind)) MAX_ENTITIES }
{
    if kinds::is_registered(words, kind) {
        return kinds::set_len(words, kind);
    }
    0
}

// How many components there are.
fn count_components(words: &[u32]) -> usize
    requires { Sound words.now }
    ensures { Counted result (rows_in (meaning words.now).storage.sets) (MAX_ENTITIES * MAX_KINDS) }
{
    let mut total = 0;
    for kind in 0..MAX_KINDS {
        total += set_length(words, kind);
    }
    total
}

// How many bytes the snapshot takes.
pub fn snapshot_length(words: &[u32]) -> usize
    requires { Sound words.now }
    ensures { result ≡ length (snapshot (meaning words.now)) }
{
    let width = words::word(words, words::VALUE_WIDTH);
    let live = control::entities::live_len(words);
    4 + 9 * live + (1 + width) * count_components(words)
}

// The registered kinds, rising.
fn rising_kinds(words: &[u32]) -> KindList<MAX_KINDS>
    requires { Arranged words.now }
    ensures { result ≡ rising_kinds (meaning words.now).kinds }
{
    let mut list = KindList::new();
    for kind in 0..MAX_KINDS {
        if kinds::is_registered(words, kind) {
            list.push(kind as u8);
        }
    }
    list
}

// What a snapshot is read from: the words of a store, its shape, and its registered kinds, rising.
// That the words are well arranged is a clause of each method, and no ghost field: it goes by cases, and a field takes a
// fact that has one proof at most. The bytes and the place in them stay two parameters: of a struct that holds lent bytes
// each method would have to say as well that they are still the same lent ones.
#[derive(Drop)]
struct Roll<'a> {
    words: &'a [u32],
    shape: Shape,
    kinds: &'a [u8],
    ghost shape_is: { shape ≡ shape_of words.now },
    ghost rising: { kinds.now ≡ rising_kinds (meaning words.now).kinds },
}

impl Roll<'_> {
    // One component, if the entity holds the kind.
    fn write_one(&self, kind: usize, e: Entity, out: &mut [u8], at: usize) -> usize
        requires arranged { Arranged self.now.words.now }
        requires kind_known { In (meaning self.now.words.now).kinds kind }
        requires room { at + length (one_bytes (WORD_BYTES * self.now.shape.stride) (value_at (entity e.index e.version) (kind_set self.now.words.now kind)) kind) ≤ length out.old }
        ensures { WrittenUntil out.old out.new at result (one_bytes (WORD_BYTES * self.now.shape.stride) (value_at (entity e.index e.version) (kind_set self.now.words.now kind)) kind) }
    {
        let found = kinds::find(self.words, self.shape, kind, e);
        let Found::At(place) = found else {
            return at;
        };
        let value = kinds::value_of(self.words, self.shape, kind, place);
        out[at] = kind as u8;
        values::put_bytes(out, at + 1, self.shape.width(), value);
        at + 1 + WORD_BYTES * self.shape.stride
    }

    // The entity's components.
    fn write_components(&self, e: Entity, out: &mut [u8], at: usize) -> usize
        requires arranged { Arranged self.now.words.now }
        requires room { at + length (component_bytes (WORD_BYTES * self.now.shape.stride) (components_of (entity e.index e.version) 0 (meaning self.now.words.now).storage.sets)) ≤ length out.old }
        ensures { WrittenUntil out.old out.new at result (component_bytes (WORD_BYTES * self.now.shape.stride) (components_of (entity e.index e.version) 0 (meaning self.now.words.now).storage.sets)) }
    {
        let mut next = at;
        for &kind in self.kinds {
            next = self.write_one(kind as usize, e, out, next);
        }
        next
    }

    // One entity: its numbers, how many components it has, and these.
    fn write_entity(&self, e: Entity, out: &mut [u8], at: usize) -> usize
        requires arranged { Arranged self.now.words.now }
        requires room { at + length (entry_bytes (WORD_BYTES * self.now.shape.stride) (entry_for self.now.words.now e.index e.version)) ≤ length out.old }
        ensures { WrittenUntil out.old out.new at result (entry_bytes (WORD_BYTES * self.now.shape.stride) (entry_for self.now.words.now e.index e.version)) }
    {
        codec::put::<4>(out, at, e.index);
        codec::put::<4>(out, at + 4, e.version);
        let start = at + 9;
        let end = self.write_components(e, out, start);
        out[at + 8] = ((end - start) / (1 + WORD_BYTES * self.shape.stride)) as u8;
        end
    }

    // The live entity with this index, if there is one.
    fn write_index(&self, index: usize, out: &mut [u8], at: usize) -> usize
        requires arranged { Arranged self.now.words.now }
        requires index_bound { index < (meaning self.now.words.now).settings.capacity }
        requires room { at + length (index_bytes (WORD_BYTES * self.now.shape.stride) self.now.words.now index) ≤ length out.old }
        ensures { WrittenUntil out.old out.new at result (index_bytes (WORD_BYTES * self.now.shape.stride) self.now.words.now index) }
    {
        let version = control::entities::version_at(self.words, index);
        if version == 0 {
            return at;
        }
        let e = Entity {
            index: index as u32,
            version,
        };
        self.write_entity(e, out, at)
    }

    // All live entities.
    fn write_entities(&self, out: &mut [u8], at: usize) -> usize
        requires arranged { Arranged self.now.words.now }
        requires room { at + length (flat (WORD_BYTES * self.now.shape.stride) (listing (meaning self.now.words.now))) ≤ length out.old }
        ensures { WrittenUntil out.old out.new at result (flat (WORD_BYTES * self.now.shape.stride) (listing (meaning self.now.words.now))) }
    {
        let issued = control::entities::issued(self.words);
        let mut next = at;
        for index in 0..issued {
            next = self.write_index(index, out, next);
        }
        next
    }
}

// The snapshot, at the front of bytes that have room for it.
pub fn write_snapshot(words: &[u32], out: &mut [u8]) -> usize
    requires arranged { Arranged words.now }
    requires room { length (snapshot (meaning words.now)) ≤ length out.old }
    ensures { WrittenUntil out.old out.new 0 result (snapshot (meaning words.now)) }
{
    let shape = words::shape_of(words);
    let list = rising_kinds(words);
    let live = control::entities::live_len(words);
    codec::put::<4>(out, 0, live as u32);
    let roll = Roll {
        words,
        shape,
        kinds: list.as_slice(),
    };
    roll.write_entities(out, 4)
}
