// A group of the layout in force: its place among the layout's kinds, and its family's groups (group.rs).
ghost use Rattle.std.specs.Prelude.{◌<◌, ◌≤◌, length};
ghost use Rattle.words.specs.Offsets.{ENTITIES, GROUP_PLACES};
ghost use Rattle.layout.specs.Reading.{word_arrays, ReadMetadata};

use crate::starts::{prior_of, start_of};
use words::{LAYOUT_ARITIES, LAYOUT_ENDS, LAYOUT_KIND_ENDS};

/// Say a family is made of two groups, (A, B) and (A, B, C, D). The larger has the kinds A B C D, which are new from
/// C on: storage_start is A's place among the layout's kinds, new_storage_start C's, storage_end the one past D's.
/// The family's groups are numbered from first to top - 1.
#[derive(Clone, Copy, PartialEq, Eq, Debug)]
pub struct GroupMetadata {
    pub storage_start: usize,
    pub new_storage_start: usize,
    pub storage_end: usize,
    pub first: usize,
    pub top: usize,
}

/// That of group g of family f, as the words have it.
pub fn read(words: &[u32], g: usize, f: usize) -> GroupMetadata
    requires { (ENTITIES ≤ length words.now) × (g < GROUP_PLACES) × (f < GROUP_PLACES) }
    ensures { ReadMetadata (word_arrays words.now) f g result }
{
    let start = start_of(words, LAYOUT_KIND_ENDS, f);
    let first = start_of(words, LAYOUT_ENDS, f);
    let top = words::word(words, LAYOUT_ENDS + f);
    let arity = words::word(words, LAYOUT_ARITIES + g);
    let prior = prior_of(words, LAYOUT_ARITIES, first, g, 0);
    GroupMetadata {
        storage_start: start,
        new_storage_start: start + prior,
        storage_end: start + arity,
        first,
        top,
    }
}
