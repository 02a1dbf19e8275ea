// The layout in force and the columns' heads: which group is a kind's own, and the kind's place in its family.
ghost use Rattle.std.specs.Prelude.{◌≡◌, ℕ, ◌+◌, ◌<◌, ◌≤◌, length, get_or};
ghost use Rattle.model.specs.Numbers.{MAX_GROUP_COUNT, MAX_KINDS};
ghost use Rattle.words.specs.Offsets.{COLUMN_KIND, ENTITIES, GROUP_PLACES, LAYOUT, LAYOUT_ARITIES};
ghost use Rattle.words.specs.Part.{between};
ghost use Rattle.words.specs.Decides.{Decides, Each};
ghost use Rattle.layout.specs.Group.{InFamily};
ghost use Rattle.memory.specs.Header.{layout_families};
ghost use Rattle.memory.specs.Meaning.{layout_arrays};
ghost use Rattle.sound_columns.specs.Slots.{Slot, Room, head_at, Over};
ghost use Rattle.sound_groups.specs.Spans.{KindAt, KindsAt, Force, HeadOk, NewOk, HeadsOk, OwnOk, Marked, SeenOk};

use crate::slot_at;
use layout::starts::start_of;
use sound_columns::table::head;
use words::Shape;

// The head of the column of the kind at word j says its own group and its place in its family.
fn head_ok(words: &[u32], z: Shape, g: usize, first: usize, j: usize) -> bool
    requires in_bounds { (LAYOUT_ARITIES ≤ length words.now) × (first ≤ j) × (j < LAYOUT_ARITIES) × (g < GROUP_PLACES) }
    requires kind_at { KindAt z words.now j }
    ensures { Decides result (HeadOk z words.now g first j) }
{
    let s = slot_at(words, j);
    head(words, z, s, words::OWN_GROUP) == g + 1
        && head(words, z, s, words::PLACE_IN_FAMILY) == j - first
}

fn span_ok(words: &[u32], z: Shape, g: usize, first: usize, from: usize, to: usize) -> bool
    requires in_bounds { (LAYOUT_ARITIES ≤ length words.now) × (first ≤ from) × (g < GROUP_PLACES) }
    requires kinds_at { KindsAt z words.now from to }
    ensures { Decides result (Over from to (HeadOk z words.now g first)) }
{
    (from..to).all(|j| head_ok(words, z, g, first, j))
}

// The heads of the new kinds of group g of family f.
fn new_ok(words: &[u32], z: Shape, families: usize, g: usize, f: usize) -> bool
    requires force { Force z families words.now }
    requires g_bound { (g < GROUP_PLACES) × InFamily (layout_arrays words.now) f g }
    ensures { Decides result (NewOk z words.now f g) }
{
    let metadata = layout::group_metadata::read(words, g, f);
    span_ok(
        words,
        z,
        g,
        words::LAYOUT + metadata.storage_start,
        words::LAYOUT + metadata.new_storage_start,
        words::LAYOUT + metadata.storage_end,
    )
}

// Group g is of the family that is said to have it.
fn family_ok(words: &[u32], families: usize, g: usize, f: usize) -> bool
    requires { (ENTITIES ≤ length words.now) × (families ≤ MAX_GROUP_COUNT) × (families ≡ layout_families words.now) }
    ensures { Decides result (InFamily (layout_arrays words.now) f g) }
{
    if families <= f {
        return false;
    }
    let start = start_of(words, words::LAYOUT_ENDS, f);
    let end = words[words::LAYOUT_ENDS + f] as usize;
    (start..end).contains(&g)
}

fn group_ok(words: &[u32], z: Shape, families: usize, g: usize) -> bool
    requires force { Force z families words.now }
    requires g_bound { g < GROUP_PLACES }
    ensures { Decides result (HeadsOk z words.now g) }
{
    let f = words[words::GROUP_FAMILIES + g] as usize;
    family_ok(words, families, g, f) && new_ok(words, z, families, g, f)
}

// Are the groups' families and the heads of the grouped kinds right?
pub fn are_heads(words: &[u32], z: Shape, families: usize, groups: usize) -> bool
    requires force { Force z families words.now }
    requires groups_bound { groups ≤ MAX_GROUP_COUNT }
    ensures { Decides result (Each groups (HeadsOk z words.now)) }
{
    (0..groups).all(|g| group_ok(words, z, families, g))
}

// A table of the kinds that stand in the list.
fn mark(kinds: &[u32]) -> [bool; model::MAX_KINDS]
    requires { (i : ℕ) → i < length kinds.now → get_or kinds.now i 0 < MAX_KINDS }
    ensures { Marked result kinds.now }
{
    let mut seen = [false; model::MAX_KINDS];
    for &kind in kinds {
        seen[kind as usize] = true;
    }
    seen
}

// A column that says a group has a kind that was seen.
fn own_ok(words: &[u32], z: Shape, seen: &[bool; model::MAX_KINDS], s: usize) -> bool
    requires slot { Slot z s words.now }
    requires s_bound { head_at z words.now s COLUMN_KIND < MAX_KINDS }
    ensures { Decides result (SeenOk z words.now seen.now s) }
{
    head(words, z, s, words::OWN_GROUP) == 0 || seen[head(words, z, s, words::COLUMN_KIND)]
}

fn own_all_ok(words: &[u32], z: Shape, seen: &[bool; model::MAX_KINDS], registered: usize) -> bool
    requires room { Room z registered words.now }
    requires by_index { (s : ℕ) → s < registered → head_at z words.now s COLUMN_KIND < MAX_KINDS }
    ensures { Decides result (Each registered (SeenOk z words.now seen.now)) }
{
    (0..registered).all(|s| own_ok(words, z, seen, s))
}

// Does a column say a group only if its kind is one of the layout's, which has so many?
pub fn are_own(words: &[u32], z: Shape, registered: usize, width: usize) -> bool
    requires room { Room z registered words.now }
    requires by_index { (s : ℕ) → s < registered → head_at z words.now s COLUMN_KIND < MAX_KINDS }
    requires width_bound { (width ≤ MAX_KINDS) × (LAYOUT_ARITIES ≤ length words.now) }
    requires by_index_2 { (i : ℕ) → i < width → get_or words.now (LAYOUT + i) 0 < MAX_KINDS }
    ensures { Decides result (Each registered (OwnOk z words.now (between LAYOUT (LAYOUT + width) words.now))) }
{
    let end = words::LAYOUT + width;
    let seen = mark(&words[words::LAYOUT..end]);
    own_all_ok(words, z, &seen, registered)
}
