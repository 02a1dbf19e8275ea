// The entities of a store.
ghost use Rattle.std.specs.Prelude.{◌≡◌, false, ◌<◌, length, get_or};
ghost use Rattle.model.specs.Model.{no_entity, destroy, entity, is_full, free_numbers};
ghost use Rattle.model.specs.Store.{with_entities};
ghost use Rattle.model.specs.Snapshot.{live_version};
ghost use Rattle.entity.specs.Answers.{entity_of_answer, found_of, LiveAt};
ghost use Rattle.memory.specs.Meaning.{meaning};
ghost use Rattle.memory.specs.Arranged.{Arranged, Becomes};
ghost use Rattle.control.specs.Entities.{Capacity, PartLent, Creates};

use entity::entity_part::EntityPart;
use entity::in_words;
use words::{CAPACITY, ENTITIES, Entity, Found};

// How many entities there is room for.
pub fn capacity(words: &[u32]) -> usize
    requires { Arranged words.now }
    ensures { Capacity words.now result }
{
    words::word(words, CAPACITY)
}

// The entity part, lent to read.
fn entity_part(words: &[u32]) -> EntityPart<'_>
    requires { Arranged words.now }
    ensures { PartLent words.now result }
{
    let capacity = capacity(words);
    let end = ENTITIES + model::ENTITY_LEN * capacity;
    EntityPart {
        part: &words[ENTITIES..end],
        capacity,
    }
}

// Where the entity is in the live list.
pub fn get(words: &[u32], e: Entity) -> Found
    requires { Arranged words.now }
    ensures { result ≡ found_of (entity e.index e.version) (meaning words.now).entities }
{
    entity_part(words).get(e)
}

// Whether no number is left: 01's FULL.
pub fn is_full(words: &[u32]) -> bool
    requires { Arranged words.now }
    ensures { result ≡ is_full (meaning words.now).settings.capacity (meaning words.now).entities }
{
    entity_part(words).is_full()
}

// How many numbers are left: those that wait, and those not yet issued.
pub fn free_numbers(words: &[u32]) -> usize
    requires { Arranged words.now }
    ensures { result ≡ free_numbers (meaning words.now).settings.capacity (meaning words.now).entities }
{
    entity_part(words).free_numbers()
}

// A new entity. The caller has seen that there is a number left.
pub fn create(words: &mut [u32]) -> Entity
    requires arranged { Arranged words.old }
    requires number_left { is_full (meaning words.old).settings.capacity (meaning words.old).entities ≡ false }
    ensures { Creates words.old words.new result }
{
    let n = capacity(words);
    in_words::create_in(words, n)
}

// Destroys a live entity, whose place in the live list the caller has looked up. That it holds no component any more is the caller's.
pub fn destroy(words: &mut [u32], place: usize, e: Entity)
    requires arranged { Arranged words.old }
    requires live_at { LiveAt (entity e.index e.version) place (meaning words.old).entities }
    ensures { Becomes words.old words.new (with_entities (meaning words.old) (destroy (entity e.index e.version) (meaning words.old).entities)) }
{
    let n = capacity(words);
    in_words::destroy_in(words, n, place, e);
}

// How many entities are live.
pub fn live_len(words: &[u32]) -> usize
    requires { Arranged words.now }
    ensures { result ≡ length (meaning words.now).entities.live }
{
    entity_part(words).len()
}

// The live list's entity at place.
pub fn live_at(words: &[u32], place: usize) -> Entity
    requires arranged { Arranged words.now }
    requires place_in_bounds { place < length (meaning words.now).entities.live }
    ensures { entity_of_answer result ≡ get_or (meaning words.now).entities.live place no_entity }
{
    entity_part(words).live_at(place)
}

// How many numbers are issued.
pub fn issued(words: &[u32]) -> usize
    requires { Arranged words.now }
    ensures { result ≡ (meaning words.now).entities.issued }
{
    entity_part(words).issued()
}

// The version of the live entity with this index, 0 where there is none.
pub fn version_at(words: &[u32], index: usize) -> u32
    requires arranged { Arranged words.now }
    requires index_bound { index < (meaning words.now).settings.capacity }
    ensures { result ≡ live_version index (meaning words.now).entities.live }
{
    entity_part(words).version_at(index)
}
