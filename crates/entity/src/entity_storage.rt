// Entities: created, destroyed.
ghost use Rattle.std.specs.Prelude.{◌≡◌, false};
ghost use Rattle.model.specs.Model.{destroy, entity, is_full};
ghost use Rattle.entity.specs.Meaning.{EntityPartSound, entities_of};
ghost use Rattle.entity.specs.Change.{EntitiesChanged};
ghost use Rattle.entity.specs.Answers.{LiveAt, EntityCreated};

use crate::{entity_allocator, entity_sparse_set};
use words::Entity;

// A new entity. The caller has seen that there is a number left.
pub fn create(part: &mut [u32], n: usize) -> Entity
    requires sound { EntityPartSound n part.old }
    requires room { is_full n (entities_of n part.old) ≡ false }
    ensures { EntityCreated n part.old part.new result }
{
    let entity = entity_allocator::allocate(part, n);
    entity_sparse_set::insert(part, n, entity);
    entity
}

// Destroys a live entity, whose place in the live list the caller has looked up.
pub fn destroy(part: &mut [u32], n: usize, place: usize, e: Entity)
    requires sound { EntityPartSound n part.old }
    requires live_at { LiveAt (entity e.index e.version) place (entities_of n part.old) }
    ensures { EntitiesChanged n (destroy (entity e.index e.version)) part.old part.new }
{
    entity_sparse_set::remove(part, n, place);
    entity_allocator::recycle(part, n, e);
}
