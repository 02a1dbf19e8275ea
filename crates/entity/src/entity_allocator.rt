// The numbers: those issued, and the queue of those that wait to be used again.
ghost use Rattle.std.specs.Prelude.{◌≡◌, false, ◌≤◌, ◌<◌, ◌+◌};
ghost use Rattle.entity.specs.Queue.{wrapped};
ghost use Rattle.entity.specs.Meaning.{EntityPartSound, entities_of, recycled_len, issued_of};
ghost use Rattle.entity.specs.Change.{Idle, EntitiesChanged, queued, recycled_as};
ghost use Rattle.entity.specs.Answers.{Allocated, Unqueued, Issued};
ghost use Rattle.model.specs.Model.{entity, is_full};

use words::Entity;

// The queue's place k, counted on past the end.
pub fn wrap(n: usize, k: usize) -> usize
    requires { k < n + n }
    ensures { (result ≡ wrapped n k) × (result < n) }
{
    if k < n { k } else { k - n }
}

// The longest waiting number, which waits no more.
fn pop_front(part: &mut [u32], n: usize) -> Entity
    requires sound { EntityPartSound n part.old }
    requires waiting { 1 ≤ recycled_len part.old }
    ensures { Unqueued n part.old part.new result }
{
    let head = part[words::QUEUE_HEAD] as usize;
    let rest = part[words::RECYCLED_LEN] as usize - 1;
    let next = wrap(n, head + 1);
    let at = words::LIVE_LIST + 4 * n + 2 * head;
    let index = part[at];
    let version = part[at + 1];
    part[words::QUEUE_HEAD] = next as u32;
    part[words::RECYCLED_LEN] = rest as u32;
    part[words::LIVE_LIST + 6 * n + (index as usize)] = 0;
    Entity { index, version }
}

// The number waits behind all others.
fn push_back(part: &mut [u32], n: usize, e: Entity)
    requires sound { EntityPartSound n part.old }
    requires idle { Idle n part.old e.index × (1 ≤ e.version) }
    ensures { EntitiesChanged n (queued (entity e.index e.version)) part.old part.new }
{
    let count = part[words::RECYCLED_LEN];
    let place = wrap(n, part[words::QUEUE_HEAD] as usize + count as usize);
    let at = words::LIVE_LIST + 4 * n + 2 * place;
    part[at] = e.index;
    part[at + 1] = e.version;
    part[words::LIVE_LIST + 6 * n + (e.index as usize)] = (place + 1) as u32;
    part[words::RECYCLED_LEN] = count + 1;
}

// The next index, at version 1.
fn issue(part: &mut [u32], n: usize) -> Entity
    requires sound { EntityPartSound n part.old }
    requires room { issued_of part.old < n }
    ensures { Issued n part.old part.new result }
{
    let index = part[words::ISSUED];
    part[words::ISSUED] = index + 1;
    Entity { index, version: 1 }
}

// A number for a new entity: the longest waiting one, else the next index at version 1.
pub fn allocate(part: &mut [u32], n: usize) -> Entity
    requires sound { EntityPartSound n part.old }
    requires room { is_full n (entities_of n part.old) ≡ false }
    ensures { Allocated n part.old part.new result }
{
    if part[words::RECYCLED_LEN] == 0 {
        issue(part, n)
    } else {
        pop_front(part, n)
    }
}

// The number waits with its version plus one, or is retired if there is none.
pub fn recycle(part: &mut [u32], n: usize, e: Entity)
    requires sound { EntityPartSound n part.old }
    requires idle { Idle n part.old e.index }
    ensures { EntitiesChanged n (recycled_as (entity e.index e.version)) part.old part.new }
{
    if e.version < model::LAST_VERSION {
        let next = Entity {
            index: e.index,
            version: e.version + 1,
        };
        push_back(part, n, next);
    }
}
