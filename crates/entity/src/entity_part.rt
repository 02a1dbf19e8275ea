// The entity part, lent to read: what it answers of the entities.
ghost use Rattle.std.specs.Prelude.{◌≡◌, ◌<◌, length, get_or};
ghost use Rattle.model.specs.Model.{no_entity, entity, is_full, is_live, free_numbers};
ghost use Rattle.model.specs.Snapshot.{live_version};
ghost use Rattle.entity.specs.Meaning.{EntityPartSound};
ghost use Rattle.entity.specs.Answers.{entity_of_answer, found_of};

use words::{Entity, Found};

// The words of a sound entity part, and how many entities there is room for. What changes the part takes the words and
// the capacity by themselves: between two of its writes the part is not sound, and this always is.
#[derive(Clone, Copy)]
pub struct EntityPart<'a> {
    pub part: &'a [u32],
    pub capacity: usize,
    ghost sound: { EntityPartSound capacity part.now },
}

impl EntityPart<'_> {
    ghost use Rattle.entity.specs.Lent.{entities};

    // How many entities are live.
    pub fn len(&self) -> usize
        ensures { result ≡ length (entities self.now).live }
    {
        self.part[words::LIVE_LEN] as usize
    }

    // The live list's entity at place.
    #[tactic(auto, using(crate::proofs::Lookups::live_most))]
    pub fn live_at(&self, place: usize) -> Entity
        requires in_range { place < length (entities self.now).live }
        ensures { entity_of_answer result ≡ get_or (entities self.now).live place no_entity }
    {
        let at = words::LIVE_LIST + 2 * place;
        Entity {
            index: self.part[at],
            version: self.part[at + 1],
        }
    }

    // How many numbers are issued.
    pub fn issued(&self) -> usize
        ensures { result ≡ (entities self.now).issued }
    {
        self.part[words::ISSUED] as usize
    }

    // Whether no number is left: none waits, and all are issued.
    pub fn is_full(&self) -> bool
        ensures { result ≡ is_full self.now.capacity (entities self.now) }
    {
        self.part[words::RECYCLED_LEN] == 0 && self.capacity <= self.part[words::ISSUED] as usize
    }

    // How many numbers are left: those that wait, and those not yet issued.
    pub fn free_numbers(&self) -> usize
        ensures { result ≡ free_numbers self.now.capacity (entities self.now) }
    {
        let waiting = self.part[words::RECYCLED_LEN] as usize;
        let issued = self.part[words::ISSUED] as usize;
        waiting + (self.capacity - issued)
    }

    // Where the entity is in the live list.
    pub fn get(&self, e: Entity) -> Found
        ensures { result ≡ found_of (entity e.index e.version) (entities self.now) }
    {
        let index = e.index as usize;
        if self.capacity <= index || e.version < 1 {
            return Found::Nothing;
        }
        let slot = words::LIVE_LIST + 2 * self.capacity + 2 * index;
        if self.part[slot + 1] != e.version {
            return Found::Nothing;
        }
        Found::At(self.part[slot] as usize)
    }

    // Whether the entity is live.
    pub fn contains(&self, e: Entity) -> bool
        ensures { result ≡ is_live (entity e.index e.version) (entities self.now) }
    {
        let found = self.get(e);
        matches!(found, Found::At(_))
    }

    // The version of the live entity with this index, 0 where there is none.
    pub fn version_at(&self, index: usize) -> u32
        requires in_range { index < self.now.capacity }
        ensures { result ≡ live_version index (entities self.now).live }
    {
        self.part[words::LIVE_LIST + 2 * self.capacity + 2 * index + 1]
    }
}
