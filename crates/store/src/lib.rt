// The public entries of document 01: *start*, *run*, *column* and its number, *roll*; and *start_with* and its words of
// 02. None asks anything of its caller; those of `held` do, and `roll_sound`. The crate `store_c` exports them to C.
#![tactic(auto)]

// Two exports to C for each of run, column and roll: the plain one asks nothing and tests, that of `held` (or `roll_sound`) asks that the words are sound.
pub mod held;

ghost use Rattle.model.specs.Numbers.{VALUE_BYTES};
ghost use Rattle.columns.specs.Refused.{refusal_number};
ghost use Rattle.model.specs.Store.{told};
ghost use Rattle.memory.specs.Arranged.{Sound};
ghost use Rattle.store.specs.Entries.{Needs, Starts, StartsWith, Runs, ColumnNumbered, ColumnPart, Rolls};
ghost use Rattle.store.specs.Linked.{ColumnPlaced, ColumnCopied};

use memory::empty;
use memory::empty::within_limits;
use model::refusals::Refusal;
use run::Ran;

// What roll answers: 0 and how many bytes, or the number of a refusal and 0. C gets it by value, so that it keeps C's layout and a number for the refusal.
#[repr(C)]
#[derive(Drop)]
pub struct Rolled {
    pub number: u8,
    pub written: usize,
}

// What other entries that write answer: 0 and how many words or bytes, or the number of a refusal and 0. C gets it by value, as it does Rolled.
#[repr(C)]
#[derive(Drop)]
pub struct Reply {
    pub number: u8,
    pub written: usize,
}

// How many words to lend to a store with values of eight bytes, 0 where start would refuse n or k.
pub fn words_needed(n: usize, k: usize) -> usize
    ensures { Needs n k VALUE_BYTES result }
{
    words_needed_with(n, k, model::VALUE_BYTES)
}

// 02, No. 13: with values of so many bytes, 0 where start_with would refuse n, k or them.
pub fn words_needed_with(n: usize, k: usize, v: usize) -> usize
    ensures { Needs n k v result }
{
    if !within_limits(n, k, v) {
        return 0;
    }
    model::words_needed(n, k, v)
}

// An empty store of n entities and k kinds with values of eight bytes under the older rule, whatever the words held.
pub fn start(words: &mut [u32], n: usize, k: usize) -> u8
    ensures { Starts n k words.old words.new result }
{
    start_with(words, n, k, model::VALUE_BYTES, false)
}

// 02, No. 8 and No. 13: with values of so many bytes, and under the rule that is told.
pub fn start_with(words: &mut [u32], n: usize, k: usize, v: usize, newer: bool) -> u8
    ensures { StartsWith (told n k v newer) words.old words.new result }
{
    if !within_limits(n, k, v) {
        return u8::from(Refusal::Size);
    }
    if words.len() < model::words_needed(n, k, v) {
        return u8::from(Refusal::Short);
    }
    empty::make(words, n, k, v, newer);
    0
}

// The commands of the tape, up to its end or a stop. Answers are written from the front of the bytes.
pub fn run(words: &mut [u32], tape: &[u8], out: &mut [u8]) -> Ran
    ensures { Runs words.old words.new tape.now out.old out.new result }
{
    if !soundness::is_sound(words) {
        return Ran {
            stop: u8::from(Refusal::Unsound),
            commands: 0,
            read: 0,
            written: 0,
        };
    }
    run::run_sound(words, tape, out)
}

// Why column refuses, if it does.
pub fn column_number(
    words: &[u32],
    kind: u8,
    values: bool,
    start: usize,
    end: usize,
) -> Option<Refusal>
    ensures { ColumnNumbered words.now kind start end (refusal_number result) }
{
    if !soundness::is_sound(words) {
        return Some(Refusal::Unsound);
    }
    columns::refusal(words, kind as usize, start, end)
}

// The entities, or the values, of a kind's rows from start to end, where they lie in the words.
pub fn column(words: &[u32], kind: u8, values: bool, start: usize, end: usize) -> &[u32]
    ensures { ColumnPart words.entry result values kind start end }
{
    if column_number(words, kind, values, start, end).is_some() {
        return &words[0..0];
    }
    columns::rows(words, kind as usize, values, start, end)
}

// Where the part that column hands back stands in the words.
pub fn column_at(words: &[u32], kind: u8, values: bool, start: usize, end: usize) -> usize
    ensures { ColumnPlaced words.now values kind start end result }
{
    if !soundness::is_sound(words) {
        return 0;
    }
    held::column_at(words, kind, values, start, end)
}

// The words that column hands back, copied to the front of out if they have room there.
pub fn copy_column(
    words: &[u32],
    kind: u8,
    values: bool,
    start: usize,
    end: usize,
    out: &mut [u32],
) -> Reply
    ensures { ColumnCopied words.now out.old out.new values kind start end result }
{
    if !soundness::is_sound(words) {
        return Reply {
            number: u8::from(Refusal::Unsound),
            written: 0,
        };
    }
    held::copy_column(words, kind, values, start, end, out)
}

// The snapshot, from the front of the bytes.
pub fn roll(words: &[u32], out: &mut [u8]) -> Rolled
    ensures { Rolls words.now out.old out.new result }
{
    if !soundness::is_sound(words) {
        return Rolled {
            number: u8::from(Refusal::Unsound),
            written: 0,
        };
    }
    roll_sound(words, out)
}

// The same of words that are sound.
pub fn roll_sound(words: &[u32], out: &mut [u8]) -> Rolled
    requires { Sound words.now }
    ensures { Rolls words.now out.old out.new result }
{
    if out.len() < snapshot::snapshot_length(words) {
        return Rolled {
            number: u8::from(Refusal::NoRoom),
            written: 0,
        };
    }
    let written = snapshot::write_snapshot(words, out);
    Rolled {
        number: 0,
        written: written,
    }
}
