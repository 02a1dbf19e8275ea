// A group of the layout in force: its place among the layout's kinds, its family's groups, its count (group.rs).
ghost use Rattle.std.specs.Prelude.{◌≡◌, ◌<◌, length, get_or};
ghost use Rattle.model.specs.Model.{Storage, groups_of};
ghost use Rattle.model.specs.Store.{on_storage, with_layout};
ghost use Rattle.memory.specs.Meaning.{meaning};
ghost use Rattle.memory.specs.Arranged.{Arranged, Becomes};
ghost use Rattle.group.specs.Flat.{located, set_count};
ghost use Rattle.group.specs.Metadata.{order_of, Describes};

use layout::group_metadata::GroupMetadata;

pub fn metadata(words: &[u32], g: usize) -> GroupMetadata
    requires arranged { Arranged words.now }
    requires g_bound { g < groups_of (meaning words.now).storage.layout }
    ensures { Describes (meaning words.now) g result }
{
    let f = words::word(words, words::GROUP_FAMILIES + g);
    layout::group_metadata::read(words, g, f)
}

// The kind at a place among the layout's.
pub fn kind_at(words: &[u32], place: usize) -> usize
    requires arranged { Arranged words.now }
    requires place_in_bounds { place < length (order_of (meaning words.now)) }
    ensures { result ≡ get_or (order_of (meaning words.now)) place 0 }
{
    words::word(words, words::LAYOUT + place)
}

pub fn group_count(words: &[u32]) -> usize
    requires { Arranged words.now }
    ensures { result ≡ groups_of (meaning words.now).storage.layout }
{
    words::word(words, words::LAYOUT_GROUPS)
}

// How many entities are inside group g.
pub fn count(words: &[u32], g: usize) -> usize
    requires arranged { Arranged words.now }
    requires g_bound { g < groups_of (meaning words.now).storage.layout }
    ensures { result ≡ (located (meaning words.now).storage.layout g).count }
{
    words::word(words, words::GROUP_COUNTS + g)
}

pub fn set_count(words: &mut [u32], g: usize, count: usize)
    requires arranged { Arranged words.old }
    requires g_bound { g < groups_of (meaning words.old).storage.layout }
    requires count_bound { count < 4294967296 }
    ensures { Becomes words.old words.new (on_storage (λ (s : Storage). with_layout s (set_count g count s.layout)) (meaning words.old)) }
{
    let at = words::GROUP_COUNTS + g;
    words[at] = count as u32;
}
