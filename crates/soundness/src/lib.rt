// Whether lent words are a sound store (01), in time linear in the words.
#![tactic(auto)]

ghost use Rattle.std.specs.Prelude.{◌≤◌, length};
ghost use Rattle.words.specs.Offsets.{ENTITIES};
ghost use Rattle.words.specs.Decides.{Decides};
ghost use Rattle.words.specs.Shape.{shape_of};
ghost use Rattle.memory.specs.Header.{capacity_of, kind_capacity_of, value_bytes_of};
ghost use Rattle.memory.specs.Arranged.{Sound};
ghost use Rattle.soundness.specs.Parts.{SizeOk, PartsOk, ListsOk, Ground, LayoutOk, CountsOk, Clauses};

use layout::starts::start_of;
use layout_block::block_ok;
use memory::empty::within_limits;
use sound_columns::lists::is_list;
use sound_columns::slots::are_columns;
use sound_columns::table::is_table;
use sound_groups::counts::are_counts;
use sound_groups::heads::{are_heads, are_own};
use words::{
    CALLER, CAPACITY, DRAFT, DRAFT_FAMILIES, DRAFT_GROUPS, ENTITIES, EXCLUDED_KINDS, EXCLUDED_LEN,
    GROUP_FAMILIES, KIND_CAPACITY, LAYOUT, LAYOUT_FAMILIES, LAYOUT_GROUPS, LAYOUT_KIND_ENDS, NEWER,
    REGISTERED, RULE, STAGED_KINDS, STAGED_LEN, TABLE, VALUE_WIDTH,
};

// N, K and the bytes of a value within the limits, and enough words for them.
fn has_room(words: &[u32]) -> bool
    requires { ENTITIES ≤ length words.now }
    ensures { Decides result (SizeOk (capacity_of words.now) (kind_capacity_of words.now) (value_bytes_of words.now) words.now) }
{
    let n = words[CAPACITY] as usize;
    let k = words[KIND_CAPACITY] as usize;
    let v = words[VALUE_WIDTH] as usize;
    within_limits(n, k, v) && model::words_needed(n, k, v) <= words.len()
}

// The table of kinds, the entities, the columns.
fn has_parts(words: &[u32]) -> bool
    requires { SizeOk (capacity_of words.now) (kind_capacity_of words.now) (value_bytes_of words.now) words.now }
    ensures { Decides result (PartsOk (shape_of words.now) (kind_capacity_of words.now) words.now) }
{
    let z = words::shape_of(words);
    let k = words[KIND_CAPACITY] as usize;
    is_table(words, z, k)
        && sound_entities::is_sound_in(words, z.capacity)
        && are_columns(words, z, k, words[REGISTERED] as usize)
}

// The staged and the excluded kinds, the caller, the rule, and the draft.
fn has_lists(words: &[u32]) -> bool
    requires { ENTITIES ≤ length words.now }
    ensures { Decides result (ListsOk words.now) }
{
    let families = words[DRAFT_FAMILIES] as usize;
    let groups = words[DRAFT_GROUPS] as usize;
    is_list(words, STAGED_KINDS, words[STAGED_LEN] as usize)
        && is_list(words, EXCLUDED_KINDS, words[EXCLUDED_LEN] as usize)
        && words[CALLER] <= model::LAST_CALLER
        && words[RULE] <= NEWER
        && block_ok(
            &words[DRAFT..LAYOUT],
            families,
            groups,
            &words[TABLE..STAGED_KINDS],
        )
}

// The layout in force, and the heads of the columns that it names.
fn has_layout(words: &[u32]) -> bool
    requires { Ground words.now }
    ensures { Decides result (LayoutOk (shape_of words.now) words.now) }
{
    let z = words::shape_of(words);
    let families = words[LAYOUT_FAMILIES] as usize;
    let groups = words[LAYOUT_GROUPS] as usize;
    if !block_ok(
        &words[LAYOUT..GROUP_FAMILIES],
        families,
        groups,
        &words[TABLE..STAGED_KINDS],
    ) {
        return false;
    }
    let width = start_of(words, LAYOUT_KIND_ENDS, families);
    are_heads(words, z, families, groups) && are_own(words, z, words[REGISTERED] as usize, width)
}

// The groups' counts.
fn has_counts(words: &[u32]) -> bool
    requires grounded { Ground words.now }
    requires layout_ok { LayoutOk (shape_of words.now) words.now }
    ensures { Decides result (CountsOk (shape_of words.now) words.now) }
{
    let z = words::shape_of(words);
    are_counts(
        words,
        z,
        words[LAYOUT_FAMILIES] as usize,
        words[LAYOUT_GROUPS] as usize,
    )
}

// What the clauses on the layout stand on.
fn has_ground(words: &[u32]) -> bool
    requires { ENTITIES ≤ length words.now }
    ensures { Decides result (Ground words.now) }
{
    has_room(words) && has_parts(words)
}

// The clauses, each where those before it hold.
fn has_clauses(words: &[u32]) -> bool
    requires { ENTITIES ≤ length words.now }
    ensures { Decides result (Clauses words.now) }
{
    has_ground(words) && has_lists(words) && has_layout(words) && has_counts(words)
}

// Whether the words, however many and whatever they hold, are a sound store.
pub fn is_sound(words: &[u32]) -> bool
    ensures { Decides result (Sound words.now) }
{
    if words.len() < ENTITIES {
        return false;
    }
    has_clauses(words)
}
