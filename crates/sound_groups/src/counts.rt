// The groups' counts: a group's first places hold the same entities in each of its columns, and past them each lacks a kind.
ghost use Rattle.std.specs.Prelude.{◌≡◌, true, ◌+◌, ◌*◌, ◌<◌, ◌≤◌, length};
ghost use Rattle.model.specs.Numbers.{MAX_ENTITIES, MAX_GROUP_COUNT};
ghost use Rattle.model.specs.Model.{entity, held};
ghost use Rattle.words.specs.Offsets.{GROUP_PLACES, LAYOUT_ARITIES};
ghost use Rattle.words.specs.Decides.{Decides, Each};
ghost use Rattle.component.specs.Columns.{rows_of};
ghost use Rattle.component.specs.Changes.{Lent};
ghost use Rattle.layout.specs.Group.{InFamily};
ghost use Rattle.memory.specs.Header.{group_family_at};
ghost use Rattle.memory.specs.Meaning.{layout_arrays};
ghost use Rattle.sound_columns.specs.Slots.{Over};
ghost use Rattle.sound_groups.specs.Spans.{KindAt, KindsAt, Force};
ghost use Rattle.sound_columns.specs.Rows.{key_at};
ghost use Rattle.sound_groups.specs.Counts.{SameWord, EvenOk, rows_at, HoldsAll, CountOk, CountedOk};

use crate::slot_at;
use layout::starts::prior_of;
use words::{Entity, Shape};

// Are c entities from two words on the same? The words that differ are counted, with no end before the last, so that several are passed at once.
fn same_rows(words: &[u32], a: usize, b: usize, c: usize) -> bool
    requires { (a + 2 * c ≤ length words.now) × (b + 2 * c ≤ length words.now) × (c ≤ MAX_ENTITIES) }
    ensures { Decides result (Each (2 * c) (SameWord words.now a b)) }
{
    let mut differ = 0u32;
    for i in 0..2 * c {
        differ += (words[a + i] != words[b + i]) as u32;
    }
    differ == 0
}

// Has the kind at word j the entities of slot h in its first c rows?
fn even_ok(words: &[u32], z: Shape, h: usize, c: usize, j: usize) -> bool
    requires in_bounds { (LAYOUT_ARITIES ≤ length words.now) × (j < LAYOUT_ARITIES) × Lent z h words.now × (c ≤ length (rows_of z h words.now)) }
    requires kind_at { KindAt z words.now j }
    ensures { Decides result (EvenOk z words.now h c j) }
{
    let s = slot_at(words, j);
    let a = words::column_start(z, s) + words::ROWS;
    let b = words::column_start(z, h) + words::ROWS;
    c <= component::slots::len_in(words, z, s) && same_rows(words, a, b, c)
}

fn span_even(words: &[u32], z: Shape, h: usize, c: usize, from: usize, to: usize) -> bool
    requires in_bounds { (LAYOUT_ARITIES ≤ length words.now) × Lent z h words.now × (c ≤ length (rows_of z h words.now)) }
    requires kinds_at { KindsAt z words.now from to }
    ensures { Decides result (Over from to (EvenOk z words.now h c)) }
{
    (from..to).all(|j| even_ok(words, z, h, c, j))
}

// Has the entity the kind at word j?
fn holds_at(words: &[u32], z: Shape, e: Entity, j: usize) -> bool
    requires in_bounds { (LAYOUT_ARITIES ≤ length words.now) × (j < LAYOUT_ARITIES) }
    requires kind_at { KindAt z words.now j }
    ensures { Decides result (held (entity e.index e.version) (rows_at z words.now j) ≡ true) }
{
    component::slots::holds_in(words, z, slot_at(words, j), e)
}

// Has the entity the kinds at the words from `from` on, below `to`?
fn holds_all(words: &[u32], z: Shape, e: Entity, from: usize, to: usize) -> bool
    requires in_bounds { LAYOUT_ARITIES ≤ length words.now }
    requires kinds_at { KindsAt z words.now from to }
    ensures { Decides result (HoldsAll z words.now from to (entity e.index e.version)) }
{
    (from..to).all(|j| holds_at(words, z, e, j))
}

// Does the entity in row i of slot h lack one of the kinds?
fn lacks(words: &[u32], z: Shape, h: usize, from: usize, to: usize, i: usize) -> bool
    requires in_bounds { (LAYOUT_ARITIES ≤ length words.now) × Lent z h words.now × (i < length (rows_of z h words.now)) }
    requires kinds_at { KindsAt z words.now from to }
    ensures { Decides result (HoldsAll z words.now from to (key_at z words.now h i) → ⊥) }
{
    let at = words::column_start(z, h) + words::ROWS + 2 * i;
    let e = Entity {
        index: words[at],
        version: words[at + 1],
    };
    !holds_all(words, z, e, from, to)
}

fn rows_lack(words: &[u32], z: Shape, h: usize, from: usize, to: usize, c: usize, b: usize) -> bool
    requires in_bounds { (LAYOUT_ARITIES ≤ length words.now) × Lent z h words.now × (b ≤ length (rows_of z h words.now)) }
    requires kinds_at { KindsAt z words.now from to }
    ensures { Decides result (Over c b (λ i. HoldsAll z words.now from to (key_at z words.now h i) → ⊥)) }
{
    (c..b).all(|i| lacks(words, z, h, from, to, i))
}

// Is c the count of the group with these new kinds, b being that of the next smaller one?
fn count_ok(words: &[u32], z: Shape, h: usize, from: usize, to: usize, b: usize, c: usize) -> bool
    requires in_bounds { (LAYOUT_ARITIES ≤ length words.now) × Lent z h words.now }
    requires kinds_at { KindsAt z words.now from to }
    ensures { Decides result (CountOk z words.now h from to b c) }
{
    c <= b
        && b <= component::slots::len_in(words, z, h)
        && span_even(words, z, h, c, from, to)
        && rows_lack(words, z, h, from, to, c, b)
}

// Is the count of group g right?
fn group_counted(words: &[u32], z: Shape, families: usize, g: usize) -> bool
    requires force { Force z families words.now }
    requires g_bound { (g < GROUP_PLACES) × InFamily (layout_arrays words.now) (group_family_at words.now g) g }
    ensures { Decides result (CountedOk z words.now g) }
{
    let f = words[words::GROUP_FAMILIES + g] as usize;
    let metadata = layout::group_metadata::read(words, g, f);
    let first = words::LAYOUT + metadata.storage_start;
    let h = slot_at(words, first);
    let whole = component::slots::len_in(words, z, h);
    let b = prior_of(words, words::GROUP_COUNTS, metadata.first, g, whole);
    count_ok(
        words,
        z,
        h,
        words::LAYOUT + metadata.new_storage_start,
        words::LAYOUT + metadata.storage_end,
        b,
        words[words::GROUP_COUNTS + g] as usize,
    )
}

// Are all groups' counts right?
pub fn are_counts(words: &[u32], z: Shape, families: usize, groups: usize) -> bool
    requires force { Force z families words.now }
    requires groups_bound { (groups ≤ MAX_GROUP_COUNT) × Each groups (λ g. InFamily (layout_arrays words.now) (group_family_at words.now g) g) }
    ensures { Decides result (Each groups (CountedOk z words.now)) }
{
    (0..groups).all(|g| group_counted(words, z, families, g))
}
