// A layout's block of 320 words: read into the struct, written from it, and checked. The draft and the layout in
// force are such blocks.
#![tactic(auto)]

ghost use Rattle.std.specs.Prelude.{◌≡◌, [], ◌+◌, ◌-◌, ◌≤◌, ◌<◌, length};
ghost use Rattle.model.specs.Numbers.{MAX_KINDS};
ghost use Rattle.words.specs.Offsets.{BLOCK_LEN, GROUP_PLACES};
ghost use Rattle.words.specs.Decides.{Decides};
ghost use Rattle.layout.specs.Layout.{AritiesRising, arrays_in};
ghost use Rattle.layout.specs.ByValue.{Formed};
ghost use Rattle.layout_block.specs.Blocks.{BlockFormed, ReadFrom, WrittenTo, FetchAsk, Fetched, PutAt};
ghost use Rattle.layout_block.specs.Checks.{BlockSound, KindsOk, FamilyInside, FamiliesFormed, EndsAsk};

use layout::group_layout::Layout;
use layout::starts::start_of;
use words::{ARITIES, BLOCK_LEN, ENDS, KIND_ENDS};

// Copies words that are bytes to the front of an array.
fn fetch(dst: &mut [u8], src: &[u32])
    requires { FetchAsk dst.old src.now }
    ensures { Fetched dst.old src.now dst.new }
{
    for (i, &word) in src.iter().enumerate() {
        dst[i] = word as u8;
    }
}

// Copies bytes into words from a place on.
fn put(dst: &mut [u32], at: usize, src: &[u8])
    requires { at + length src.now ≤ length dst.old }
    ensures { PutAt dst.old at src.now dst.new }
{
    for (i, &byte) in src.iter().enumerate() {
        dst[at + i] = u32::from(byte);
    }
}

/// The layout of a well-formed block.
pub fn read_layout(block: &[u32], families: usize, groups: usize) -> Layout
    requires { BlockFormed block.now families groups }
    ensures { ReadFrom block.now families groups result }
{
    let width = start_of(&block[KIND_ENDS..ENDS], 0, families);
    let mut kinds = [0u8; model::MAX_KINDS];
    fetch(&mut kinds, &block[..width]);
    let groups_end = ARITIES + groups;
    let mut arities = [0u8; words::GROUP_PLACES];
    fetch(&mut arities, &block[ARITIES..groups_end]);
    let kinds_end = KIND_ENDS + families;
    let mut kind_ends = [0u8; words::GROUP_PLACES];
    fetch(&mut kind_ends, &block[KIND_ENDS..kinds_end]);
    let ends_end = ENDS + families;
    let mut ends = [0u8; words::GROUP_PLACES];
    fetch(&mut ends, &block[ENDS..ends_end]);
    Layout {
        kinds,
        arities,
        kind_ends,
        ends,
        families,
        width,
        groups,
    }
}

/// Writes a layout into a block.
pub fn write_layout(block: &mut [u32], l: Layout)
    requires { Formed l × (length block.old ≡ BLOCK_LEN) }
    ensures { WrittenTo l block.new }
{
    put(block, 0, &l.kinds[..l.width]);
    put(block, ARITIES, &l.arities[..l.groups]);
    put(block, KIND_ENDS, &l.kind_ends[..l.families]);
    put(block, ENDS, &l.ends[..l.families]);
}

// Do the arities rise strictly, from 2 or more to n?
fn rises(arities: &[u32], n: usize) -> bool
    ensures { Decides result (AritiesRising 1 n arities.now) }
{
    let mut before: usize = 1;
    for &arity in arities {
        let a = arity as usize;
        if a <= before {
            return false;
        }
        before = a;
    }
    before == n
}

// Is there a family of the kinds from one place to another, and of the groups?
fn family_ok(
    arities: &[u32],
    kind_start: usize,
    kind_end: usize,
    group_start: usize,
    group_end: usize,
) -> bool
    requires { (length arities.now ≡ GROUP_PLACES) × (kind_start ≤ MAX_KINDS) }
    ensures { Decides result (FamilyInside arities.now kind_start kind_end group_start group_end) }
{
    kind_start + 2 <= kind_end
        && kind_end <= kind_start + model::MAX_GROUP_ARITY
        && kind_end <= model::MAX_KINDS
        && group_start < group_end
        && group_end <= model::MAX_GROUP_COUNT
        && rises(&arities[group_start..group_end], kind_end - kind_start)
}

// Are there families up to each of the ends?
fn families_ok<'a>(
    arities: &'a [u32],
    kind_ends: &'a [u32],
    ends: &'a [u32],
    families: usize,
) -> bool
    requires { EndsAsk arities.now kind_ends.now ends.now families }
    ensures { Decides result (FamiliesFormed (arrays_in [] arities.now kind_ends.now ends.now families)) }
{
    let mut kind_start: usize = 0;
    let mut group_start: usize = 0;
    for f in 0..families {
        let kind_end = kind_ends[f] as usize;
        let group_end = ends[f] as usize;
        if !family_ok(arities, kind_start, kind_end, group_start, group_end) {
            return false;
        }
        kind_start = kind_end;
        group_start = group_end;
    }
    true
}

/// Are the kinds registered, and none there twice? A table of what was seen saves the scan.
pub fn kinds_ok(kinds: &[u32], table: &[u32]) -> bool
    requires { length table.now ≡ MAX_KINDS }
    ensures { Decides result (KindsOk table.now kinds.now) }
{
    let mut seen = [false; model::MAX_KINDS];
    for &kind in kinds {
        let k = kind as usize;
        if model::MAX_KINDS <= k || seen[k] || table[k] == words::UNREGISTERED {
            return false;
        }
        seen[k] = true;
    }
    true
}

/// Is the block such as commands can build, of registered kinds?
pub fn block_ok(block: &[u32], families: usize, groups: usize, table: &[u32]) -> bool
    requires { (length block.now ≡ BLOCK_LEN) × (length table.now ≡ MAX_KINDS) }
    ensures { Decides result (BlockSound block.now table.now families groups) }
{
    let arities = &block[ARITIES..KIND_ENDS];
    let kind_ends = &block[KIND_ENDS..ENDS];
    let ends = &block[ENDS..BLOCK_LEN];
    if model::MAX_GROUP_COUNT < families || !families_ok(arities, kind_ends, ends, families) {
        return false;
    }
    let width = start_of(kind_ends, 0, families);
    start_of(ends, 0, families) == groups && kinds_ok(&block[..width], table)
}
