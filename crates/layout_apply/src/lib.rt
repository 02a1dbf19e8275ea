// A layout put in force (component_storage.rs, set_layout).
#![tactic(auto)]

ghost use Rattle.std.specs.Prelude.{◌≡◌, ◌+◌, ◌≤◌, ◌<◌, length, get_or};
ghost use Rattle.model.specs.Numbers.{MAX_KINDS};
ghost use Rattle.words.specs.Offsets.{BLOCK_LEN, ENTITIES, GROUP_PLACES};
ghost use Rattle.words.specs.Shape.{shape_of};
ghost use Rattle.model.specs.Model.{regroup};
ghost use Rattle.model.specs.Store.{on_storage};
ghost use Rattle.model.specs.Sound.{StoreSound};
ghost use Rattle.component.specs.Columns.{Columns};
ghost use Rattle.component.specs.Changes.{Lent};
ghost use Rattle.layout.specs.Layout.{start_of, width_of};
ghost use Rattle.layout.specs.Group.{InFamily, prior_arity};
ghost use Rattle.memory.specs.Meaning.{layout_arrays, meaning};
ghost use Rattle.memory.specs.Arranged.{Arranged, Becomes};
ghost use Rattle.group.specs.Flat.{all_positions};
ghost use Rattle.group.specs.Ready.{ReadyEach};
ghost use Rattle.layout_apply.specs.Steps.{installed, applied, Filled, Copied, FamilyEndsAsk, Numbered, switched, Prepared};
ghost use Rattle.layout_apply.specs.Heads.{with_own, ClearsHeads, slot_no, HeadsReady, place_no, Upto, HeadedUpto, HeadsGroup};

use layout::starts::start_of;
use masks::group_mask::GroupMask;
use words::{LAYOUT_ARITIES, LAYOUT_ENDS, LAYOUT_KIND_ENDS, Shape};

// One value from start to end.
fn fill(words: &mut [u32], start: usize, end: usize, value: usize)
    requires inside { (start ≤ end) × (end ≤ length words.old) }
    requires one_word { value < 4294967296 }
    ensures { Filled words.old start end value words.new }
{
    words[start..end].fill(value as u32);
}

// The draft's block becomes the layout's.
fn copy_block(words: &mut [u32])
    requires { ENTITIES ≤ length words.old }
    ensures { Copied words.old BLOCK_LEN words.new }
{
    let (before, layout) = words.split_at_mut(words::LAYOUT);
    layout[..words::BLOCK_LEN].copy_from_slice(&before[words::DRAFT..]);
}

// Each group gets the number of its family.
fn number_groups(words: &mut [u32], families: usize)
    requires { FamilyEndsAsk words.old families }
    ensures { Numbered words.old families words.new }
{
    for f in 0..families {
        let start = start_of(words, LAYOUT_ENDS, f);
        let end = words::word(words, LAYOUT_ENDS + f);
        fill(
            words,
            words::GROUP_FAMILIES + start,
            words::GROUP_FAMILIES + end,
            f,
        );
    }
}

// The draft's numbers of families and groups become the layout's. No draft is left.
fn switch(words: &mut [u32])
    requires { ENTITIES ≤ length words.old }
    ensures { words.new ≡ switched words.old }
{
    words[words::LAYOUT_FAMILIES] = words[words::DRAFT_FAMILIES];
    words[words::LAYOUT_GROUPS] = words[words::DRAFT_GROUPS];
    words[words::DRAFT_FAMILIES] = 0;
    words[words::DRAFT_GROUPS] = 0;
}

// All of it but the columns' heads.
fn prepare(words: &mut [u32])
    requires { Arranged words.old }
    ensures { Prepared words.old words.new }
{
    copy_block(words);
    let families = words::word(words, words::DRAFT_FAMILIES);
    number_groups(words, families);
    fill(words, words::GROUP_COUNTS, words::ENTITIES, 0);
    switch(words);
}

// Here and below z is the store's shape, read once. A struct of the words and their shape would have `shape_is` for
// itself, and in its place each of these functions would say that the struct still lends the same words.

// A column's own group plus one, 0 where it is in none, and its place in its family.
fn put_own(words: &mut [u32], z: Shape, slot: usize, own: usize, place: usize)
    requires lent { Lent z slot words.old }
    requires one_word { (own < 4294967296) × (place < 4294967296) }
    ensures { words.new ≡ with_own z slot own place words.old }
{
    let base = words::column_start(z, slot);
    words[base + words::OWN_GROUP] = own as u32;
    words[base + words::PLACE_IN_FAMILY] = place as u32;
}

// No column of the first m is in a group.
fn clear_heads(words: &mut [u32], z: Shape, m: usize)
    requires { Columns z m words.old }
    ensures { ClearsHeads z m words.old words.new }
{
    for slot in 0..m {
        put_own(words, z, slot, 0, 0);
    }
}

// The column of the p-th kind: new in group g, at place j of its family.
fn put_member(words: &mut [u32], z: Shape, p: usize, g: usize, j: usize)
    requires heads_ready { HeadsReady words.old }
    requires shape_is { z ≡ shape_of words.old }
    requires kind_inside { p < width_of (layout_arrays words.old) }
    requires group_inside { (g < GROUP_PLACES) × (j < MAX_KINDS) }
    ensures { words.new ≡ with_own z (slot_no words.old p) (g + 1) j words.old }
{
    let kind = words::word(words, words::LAYOUT + p);
    let slot = words::word(words, words::TABLE + kind);
    put_own(words, z, slot, g + 1, j);
}

// The columns of the kinds that are new in group g, from place prior of its family on. Answers the group's arity.
fn put_group(words: &mut [u32], z: Shape, f: usize, g: usize, prior: usize) -> usize
    requires heads_ready { HeadsReady words.old }
    requires shape_is { z ≡ shape_of words.old }
    requires in_family { InFamily (layout_arrays words.old) f g }
    requires prior_is { prior ≡ prior_arity (layout_arrays words.old) f g }
    requires upto { Upto words.old (place_no (layout_arrays words.old) f prior) }
    ensures { HeadsGroup words.old words.new f g result }
{
    let start = start_of(words, LAYOUT_KIND_ENDS, f);
    let arity = words::word(words, LAYOUT_ARITIES + g);
    for j in prior..arity {
        put_member(words, z, start + j, g, j);
    }
    arity
}

// The columns of a family's kinds, one group after another.
fn put_family(words: &mut [u32], z: Shape, f: usize)
    requires heads_ready { HeadsReady words.old }
    requires shape_is { z ≡ shape_of words.old }
    requires family_inside { f < (layout_arrays words.old).families }
    requires upto { Upto words.old (start_of (layout_arrays words.old).kind_ends f) }
    ensures { HeadedUpto words.old words.new (get_or (layout_arrays words.old).kind_ends f 0) }
{
    let start = start_of(words, LAYOUT_ENDS, f);
    let end = words::word(words, LAYOUT_ENDS + f);
    let mut prior = 0;
    for g in start..end {
        prior = put_group(words, z, f, g, prior);
    }
}

// The columns of all kinds of the layout.
fn put_heads(words: &mut [u32], z: Shape)
    requires heads_ready { HeadsReady words.old }
    requires shape_is { z ≡ shape_of words.old }
    requires upto { Upto words.old 0 }
    ensures { HeadedUpto words.old words.new (width_of (layout_arrays words.old)) }
{
    let families = words::word(words, words::LAYOUT_FAMILIES);
    for f in 0..families {
        put_family(words, z, f);
    }
}

/// The draft becomes the layout in force, with no entity in its groups yet, and no draft is left.
pub fn install(words: &mut [u32])
    requires arranged { Arranged words.old }
    requires store_sound { StoreSound (meaning words.old) }
    ensures { Becomes words.old words.new (installed (meaning words.old)) }
{
    prepare(words);
    let z = words::shape_of(words);
    let m = words::word(words, words::REGISTERED);
    clear_heads(words, z, m);
    put_heads(words, z);
}

// Each live entity in turn is walked upward over all groups.
fn regroup(words: &mut [u32])
    requires arranged { Arranged words.old }
    requires ready_each { ReadyEach (meaning words.old).entities.live (all_positions (meaning words.old).storage.layout) (meaning words.old).storage }
    ensures { Becomes words.old words.new (on_storage (regroup (meaning words.old).entities.live) (meaning words.old)) }
{
    let groups = group::group_metadata::group_count(words);
    let mask = GroupMask::from_to(0, groups);
    group_tables::group_each(words, mask, 0);
}

/// APPLY: the draft becomes the layout in force, and its groups take in the live entities that belong to them.
pub fn set_layout(words: &mut [u32])
    requires arranged { Arranged words.old }
    requires store_sound { StoreSound (meaning words.old) }
    ensures { Becomes words.old words.new (applied (meaning words.old)) }
{
    install(words);
    regroup(words);
}
