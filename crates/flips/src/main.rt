// A store with something of everything in it, one word of it changed at a time: how many of those stores are refused, and whether each that is still
// sound serves commands and is sound after them.
#![tactic(auto)]

mod feed;
mod setup;
mod trial;

use std::io;
use trial::{Counts, WORDS, flip_part};

// The store has six entities and five kinds.
const CAPACITY: usize = 6;

const KIND_CAPACITY: usize = 5;
// Where the entities, the columns and the words beyond the store begin.
const ENTITIES: usize = words::ENTITIES;

const COLUMNS: usize = ENTITIES + model::ENTITY_LEN * CAPACITY;

const ROW_LEN: usize = model::LINKS_LEN + model::VALUE_BYTES / model::WORD_BYTES;

const BEYOND: usize = COLUMNS + KIND_CAPACITY * (model::COLUMN_HEAD + ROW_LEN * CAPACITY);
// How many are live, and how many numbers are recycled.
const LIVE_LEN: usize = ENTITIES + words::LIVE_LEN;

const RECYCLED_LEN: usize = ENTITIES + words::RECYCLED_LEN;

// What the store has, by its counts (docs/WORDS.md). Here and in `report`: of a line that fails a front part may be
// written, and no line after it; no clause can say what standard output takes.
fn describe(rt: &impl Print, words: &[u32; WORDS]) -> io::Result<()> {
    let kinds = words[words::REGISTERED];
    let groups = words[words::LAYOUT_GROUPS];
    let live = words[LIVE_LEN];
    let recycled = words[RECYCLED_LEN];
    let staged = words[words::STAGED_LEN];
    let excluded = words[words::EXCLUDED_LEN];
    let drafted = words[words::DRAFT_GROUPS];
    let refusals = words[words::REFUSALS];
    print!(rt; "{kinds} kinds, {groups} groups, {live} live entities, {recycled} recycled, ")?;
    println!(rt;
        "{staged} kinds staged, {excluded} excluded, {drafted} groups in the draft, {refusals} refusal"
    )
}

fn report(rt: &impl Print, part: &str, counts: Counts) -> io::Result<()> {
    println!(rt; "{part}: {counts}")
}

fn main(rt: HostRuntime) -> io::Result<()> {
    let mut words = [0u32; WORDS];
    store::start(&mut words, CAPACITY, KIND_CAPACITY);
    setup::set_up(&mut words);
    describe(&rt, &words)?;
    let header = flip_part(words, 0, ENTITIES);
    let entities = flip_part(words, ENTITIES, COLUMNS);
    let columns = flip_part(words, COLUMNS, BEYOND);
    let beyond = flip_part(words, BEYOND, WORDS);
    report(&rt, "header", header)?;
    report(&rt, "entities", entities)?;
    report(&rt, "columns", columns)?;
    report(&rt, "beyond the store", beyond)?;
    report(&rt, "all", (header + entities) + (columns + beyond))
}
