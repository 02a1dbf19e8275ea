// What changes the entities, on the whole lent words: the entity part is lent on, and the words around it stay.
ghost use Rattle.std.specs.Prelude.{◌≡◌, false};
ghost use Rattle.model.specs.Model.{destroy, entity, is_full};
ghost use Rattle.entity.specs.Meaning.{entities_in};
ghost use Rattle.entity.specs.Change.{SoundIn, EntityChange};
ghost use Rattle.entity.specs.Answers.{LiveAt, CreatedIn};

use crate::entity_storage;
use words::Entity;

// A new entity. The caller has seen that there is a number left.
pub fn create_in(words: &mut [u32], n: usize) -> Entity
    requires sound { SoundIn n words.old }
    requires room { is_full n (entities_in n words.old) ≡ false }
    ensures { CreatedIn n words.old words.new result }
{
    let end = words::ENTITIES + model::ENTITY_LEN * n;
    entity_storage::create(&mut words[words::ENTITIES..end], n)
}

// Destroys a live entity, whose place in the live list the caller has looked up.
pub fn destroy_in(words: &mut [u32], n: usize, place: usize, e: Entity)
    requires sound { SoundIn n words.old }
    requires live_at { LiveAt (entity e.index e.version) place (entities_in n words.old) }
    ensures { EntityChange n (destroy (entity e.index e.version)) words.old words.new }
{
    let end = words::ENTITIES + model::ENTITY_LEN * n;
    entity_storage::destroy(&mut words[words::ENTITIES..end], n, place, e);
}
