// One word changed at a time, and what comes of it.
ghost use Rattle.std.specs.Prelude.{◌-◌, ◌*◌, ◌<◌, ◌≤◌};
ghost use Rattle.memory.specs.Arranged.{Sound};
ghost use Rattle.flips.specs.Trial.{Keeps, Most, Tried, Summed};

use crate::feed::{command, command_on, command_with, hold};
use model::commands::Command;
use std::fmt;
use std::ops::Add;

// 1,024 + 16 × 6 + 5 × (8 + 6 × 6), and four words that are lent beyond the store.
pub const WORDS: usize = 1344;
// How many values a word is changed to.
const VALUES: usize = 8;

// Of the changed stores: how many are refused, and how many are sound; of these, how many serve commands, and are sound after them.
#[derive(Clone, Copy, Default)]
pub struct Counts {
    pub refused: u32,
    pub sound: u32,
    pub served: u32,
    pub stayed: u32,
}

impl fmt::Display for Counts {
    fn fmt<W: fmt::Write>(&self, f: &mut fmt::Formatter<W>) -> fmt::Result {
        let Counts {
            refused,
            sound,
            served,
            stayed,
        } = *self;
        write!(
            f,
            "{refused} refused, {sound} still sound; of these {served} serve commands, {stayed} are sound after them"
        )
    }
}

impl Add for Counts {
    type Output = Counts;

    ghost can_add = { λ a b. Most a 1000000 × Most b 1000000 };

    ghost add_gives = { Summed };

    fn add(self, other: Counts) -> Counts {
        Counts {
            refused: self.refused + other.refused,
            sound: self.sound + other.sound,
            served: self.served + other.served,
            stayed: self.stayed + other.stayed,
        }
    }
}

// Whether EMPTY, RANGE and NEW are served.
fn serves_queries(words: &mut [u32]) -> bool
    ensures { Keeps words.old words.new }
{
    let emptied = command(words, Command::Empty);
    let ranged = command_with(words, b"\x01\x02", Command::Range);
    let created = command_with(words, b"\x01\x02\x03", Command::New);
    emptied & ranged & created
}

// Whether PUT, TAKE and KILL are served.
fn serves_entities(words: &mut [u32]) -> bool
    ensures { Keeps words.old words.new }
{
    hold(words, b"\x03\x09");
    let inserted = command_on(words, Command::Put, 1, 2);
    hold(words, b"\x01\x02");
    let removed = command_on(words, Command::Take, 2, 1);
    let destroyed = command_on(words, Command::Kill, 3, 1);
    inserted & removed & destroyed
}

// Whether commands of each kind are served, with APPLY and WIPE at the end.
fn serves(words: &mut [u32]) -> bool
    ensures { Keeps words.old words.new }
{
    let queries = serves_queries(words);
    let entities = serves_entities(words);
    let applied = command(words, Command::Apply);
    let cleared = command(words, Command::Wipe);
    queries & entities & applied & cleared
}

// A sound store, and what commands leave of it.
fn try_commands(words: [u32; WORDS]) -> Counts
    requires { Sound words }
    ensures { Tried words result }
{
    let mut after = words;
    let served = serves(&mut after);
    let stayed = soundness::is_sound(&after);
    Counts {
        sound: 1,
        served: u32::from(served),
        stayed: u32::from(stayed),
        ..Counts::default()
    }
}

// Any words.
fn try_store(words: [u32; WORDS]) -> Counts
    ensures { Tried words result }
{
    if soundness::is_sound(&words) {
        return try_commands(words);
    }
    Counts {
        refused: 1,
        ..Counts::default()
    }
}

// The store with another value in one word.
fn flip(words: [u32; WORDS], at: usize, value: u32) -> Counts
    requires { at < 1344 }
    ensures { Most result 1 }
{
    if words[at] == value {
        return Counts::default();
    }
    let mut changed = words;
    changed[at] = value;
    try_store(changed)
}

// What a word is changed to: small numbers, the largest, and what is near the word's own value.
fn values_for(old: u32) -> [u32; VALUES] {
    [
        0,
        1,
        2,
        255,
        old.wrapping_add(1),
        old.wrapping_sub(1),
        old ^ 2147483648,
        u32::MAX,
    ]
}

fn flip_word(words: [u32; WORDS], at: usize) -> Counts
    requires { at < 1344 }
    ensures { Most result 8 }
{
    let mut counts = Counts::default();
    let values = values_for(words[at]);
    for &value in &values {
        counts = counts + flip(words, at, value);
    }
    counts
}

// Each word from `from` to `to`.
pub fn flip_part(words: [u32; WORDS], from: usize, to: usize) -> Counts
    requires { (from ≤ to) × (to ≤ 1344) }
    ensures { Most result (8 * (to - from)) }
{
    let mut counts = Counts::default();
    for at in from..to {
        counts = counts + flip_word(words, at);
    }
    counts
}
