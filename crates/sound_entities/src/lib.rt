// Is an entity part sound? Each check is exact, and together they are linear in the words.
#![tactic(auto)]

ghost use Rattle.std.specs.Prelude.{◌≡◌, ◌+◌, ◌*◌, ◌≤◌, ◌<◌, length};
ghost use Rattle.model.specs.Numbers.{ENTITY_LEN, MAX_ENTITIES};
ghost use Rattle.words.specs.Offsets.{ENTITIES};
ghost use Rattle.words.specs.Decides.{Decides, Each};
ghost use Rattle.words.specs.Counted.{filled};
ghost use Rattle.entity.specs.Meaning.{entity_part, EntityPartSized, EntityPartSound, len_of, recycled_len, queue_slot};
ghost use Rattle.sound_entities.specs.Checks.{CountsFit, LiveOk, WaitsOk, IndexesOk};

use entity::entity_allocator::wrap;

// Words of an entity part's length, whatever they hold, and how many entities there is room for.
#[derive(Clone, Copy)]
struct Part<'a> {
    words: &'a [u32],
    capacity: usize,
    ghost sized: { EntityPartSized capacity words.now },
}

impl Part<'_> {
    // The counts are within the capacity.
    fn counts_ok(&self) -> bool
        ensures { Decides result (CountsFit self.now.capacity self.now.words.now) }
    {
        let issued = self.words[words::ISSUED] as usize;
        let live = self.words[words::LIVE_LEN] as usize;
        let head = self.words[words::QUEUE_HEAD] as usize;
        let recycled = self.words[words::RECYCLED_LEN] as usize;
        let n = self.capacity;
        issued <= n && live <= n && head < n && recycled <= n
    }

    // The live list's place i has an issued index, whose lookup points back.
    fn live_ok(&self, i: usize) -> bool
        requires { i < self.now.capacity }
        ensures { Decides result (LiveOk self.now.capacity self.now.words.now i) }
    {
        let index = self.words[words::LIVE_LIST + 2 * i] as usize;
        if self.capacity <= index {
            return false;
        }
        let issued = self.words[words::ISSUED] as usize;
        let version = self.words[words::LIVE_LIST + 2 * i + 1];
        let slot = words::LIVE_LIST + 2 * self.capacity + 2 * index;
        let place = self.words[slot] as usize;
        let held = self.words[slot + 1];
        index < issued && 1 <= version && place == i && held == version
    }

    fn live_list_ok(&self) -> bool
        requires { CountsFit self.now.capacity self.now.words.now }
        ensures { Decides result (Each (len_of self.now.words.now) (LiveOk self.now.capacity self.now.words.now)) }
    {
        let k = self.words[words::LIVE_LEN] as usize;
        (0..k).all(|i| self.live_ok(i))
    }

    // The number that waits behind j others is issued and not live, and its index says where it waits.
    fn waits_ok(&self, j: usize) -> bool
        requires in_range { j < self.now.capacity }
        requires counts_fit { CountsFit self.now.capacity self.now.words.now }
        ensures { Decides result (WaitsOk self.now.capacity self.now.words.now j) }
    {
        let n = self.capacity;
        let place = wrap(n, self.words[words::QUEUE_HEAD] as usize + j);
        let at = words::LIVE_LIST + 4 * n + 2 * place;
        let index = self.words[at] as usize;
        let issued = self.words[words::ISSUED] as usize;
        if issued <= index {
            return false;
        }
        let version = self.words[at + 1];
        let slot = self.words[words::LIVE_LIST + 6 * n + index] as usize;
        let held = self.words[words::LIVE_LIST + 2 * n + 2 * index + 1];
        1 <= version && slot == place + 1 && held == 0
    }

    fn queue_ok(&self) -> bool
        requires { CountsFit self.now.capacity self.now.words.now }
        ensures { Decides result (Each (recycled_len self.now.words.now) (WaitsOk self.now.capacity self.now.words.now)) }
    {
        let k = self.words[words::RECYCLED_LEN] as usize;
        (0..k).all(|j| self.waits_ok(j))
    }

    // How many indexes say that they wait. No branch on what they say.
    fn count_waiting(&self) -> u32
        ensures { result ≡ filled self.now.capacity (queue_slot self.now.capacity self.now.words.now) }
    {
        let from = words::LIVE_LIST + 6 * self.capacity;
        let mut count = 0u32;
        for x in 0..self.capacity {
            count += (0 < self.words[from + x]) as u32;
        }
        count
    }

    // As many lookups say live as the live list is long, and as many indexes say that they wait as the queue has
    // numbers.
    fn indexes_ok(&self) -> bool
        ensures { Decides result (IndexesOk self.now.capacity self.now.words.now) }
    {
        let live = words::count_held(
            self.words,
            words::LIVE_LIST + 2 * self.capacity,
            self.capacity,
        );
        live == self.words[words::LIVE_LEN]
            && self.count_waiting() == self.words[words::RECYCLED_LEN]
    }
}

// Whether a part is a sound entity part of capacity n.
pub fn is_sound(part: &[u32], n: usize) -> bool
    requires { n ≤ MAX_ENTITIES }
    ensures { Decides result (EntityPartSound n part.now) }
{
    if n < 1 || part.len() != model::ENTITY_LEN * n {
        return false;
    }
    let part = Part {
        words: part,
        capacity: n,
    };
    part.counts_ok() && part.live_list_ok() && part.queue_ok() && part.indexes_ok()
}

// Whether the words have a sound entity part.
pub fn is_sound_in(words: &[u32], n: usize) -> bool
    requires { (n ≤ MAX_ENTITIES) × (ENTITIES + ENTITY_LEN * n ≤ length words.now) }
    ensures { Decides result (EntityPartSound n (entity_part n words.now)) }
{
    let end = words::ENTITIES + model::ENTITY_LEN * n;
    is_sound(&words[words::ENTITIES..end], n)
}
