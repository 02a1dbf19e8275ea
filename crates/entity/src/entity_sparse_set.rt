// The live list: a sparse set of entities.
ghost use Rattle.std.specs.Prelude.{◌≡◌, ◌≤◌, ◌<◌, length, get_or};
ghost use Rattle.model.specs.Model.{no_entity, entity};
ghost use Rattle.words.specs.Stores.{stores};
ghost use Rattle.entity.specs.Meaning.{EntityPartSized, EntityPartSound, entities_of, len_of, live_index_at};
ghost use Rattle.entity.specs.Change.{Idle, EntitiesChanged, joined, left};
ghost use Rattle.entity.specs.Answers.{entity_of_answer};
ghost use Rattle.entity.specs.Stored.{put_stores};

use words::Entity;

// Has the live list's place say the entity, and the index's lookup the place.
fn put(part: &mut [u32], n: usize, place: usize, e: Entity)
    requires sized { EntityPartSized n part.old }
    requires in_range { (place < n) × (e.index < n) }
    ensures { part.new ≡ stores part.old (put_stores n place e.index e.version) }
{
    let at = words::LIVE_LIST + 2 * place;
    let slot = words::LIVE_LIST + 2 * n + 2 * (e.index as usize);
    part[at] = e.index;
    part[at + 1] = e.version;
    part[slot] = place as u32;
    part[slot + 1] = e.version;
}

// The entity joins the live list at its end.
pub fn insert(part: &mut [u32], n: usize, e: Entity)
    requires sound { EntityPartSound n part.old }
    requires idle { Idle n part.old e.index × (1 ≤ e.version) }
    ensures { EntitiesChanged n (joined (entity e.index e.version)) part.old part.new }
{
    let k = part[words::LIVE_LEN];
    put(part, n, k as usize, e);
    part[words::LIVE_LEN] = k + 1;
}

// The entity at place leaves the live list, and the list's last takes its place.
pub fn remove(part: &mut [u32], n: usize, place: usize)
    requires sound { EntityPartSound n part.old }
    requires in_range { place < len_of part.old }
    ensures { EntitiesChanged n (left place) part.old part.new × Idle n part.new (live_index_at part.old place) }
{
    let k = part[words::LIVE_LEN] - 1;
    let last = words::LIVE_LIST + 2 * (k as usize);
    let gone = part[words::LIVE_LIST + 2 * place] as usize;
    let index = part[last];
    let version = part[last + 1];
    put(part, n, place, Entity { index, version });
    part[words::LIVE_LIST + 2 * n + 2 * gone + 1] = 0;
    part[words::LIVE_LEN] = k;
}
