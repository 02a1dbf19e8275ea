// The entries of `store` for C and Rust, under plain names: each calls the function of `store` that has its work, and
// promises what that one does. An exported function returns no part of a slice, so that *column* comes as the part's
// place in the words, and as a copy.
#![tactic(auto)]

// Two exports for each of run, column's entries and roll: the plain one asks nothing and tests the words, that of `held` asks that they are sound.
pub mod held;

ghost use Rattle.std.specs.Prelude.{◌≡◌};
ghost use Rattle.model.specs.Numbers.{VALUE_BYTES};
ghost use Rattle.columns.specs.Refused.{refusal_number};
ghost use Rattle.model.specs.Store.{told};
ghost use Rattle.store.specs.Entries.{Needs, Starts, StartsWith, Runs, ColumnNumbered, Rolls};
ghost use Rattle.store.specs.Linked.{ColumnPlaced, ColumnCopied};
ghost use Rattle.store_c.specs.Exported.{as_ran};

use model::refusals::Refusal;
use run::Ran;
use store::{Reply, Rolled};

// What run answers: C gets it by value, so that it has C's layout and a number for the refusal.
#[repr(C)]
#[derive(Drop)]
pub struct ExportedRan {
    pub stop: u8,
    pub commands: usize,
    pub read: usize,
    pub written: usize,
}

impl From<Ran> for ExportedRan {
    ghost from_gives = { λ ran exported. as_ran exported ≡ ran };

    fn from(ran: Ran) -> ExportedRan {
        ExportedRan {
            stop: ran.stop,
            commands: ran.commands,
            read: ran.read,
            written: ran.written,
        }
    }
}

// A refusal's number, 0 where there is none, as C is told it.
fn number_of(refusal: Option<Refusal>) -> u8
    ensures { result ≡ refusal_number refusal }
{
    match refusal {
        Some(refusal) => u8::from(refusal),
        None => 0,
    }
}

#[unsafe(no_mangle)]
pub extern "C" fn yirbarn_words_needed(n: usize, k: usize) -> usize
    ensures { Needs n k VALUE_BYTES result }
{
    store::words_needed(n, k)
}

#[unsafe(no_mangle)]
pub extern "C" fn yirbarn_words_needed_with(n: usize, k: usize, v: usize) -> usize
    ensures { Needs n k v result }
{
    store::words_needed_with(n, k, v)
}

#[unsafe(no_mangle)]
pub extern "C" fn yirbarn_start(words: &mut [u32], n: usize, k: usize) -> u8
    ensures { Starts n k words.old words.new result }
{
    store::start(words, n, k)
}

#[unsafe(no_mangle)]
pub extern "C" fn yirbarn_start_with(
    words: &mut [u32],
    n: usize,
    k: usize,
    v: usize,
    newer: bool,
) -> u8
    ensures { StartsWith (told n k v newer) words.old words.new result }
{
    store::start_with(words, n, k, v, newer)
}

#[unsafe(no_mangle)]
pub extern "C" fn yirbarn_run(words: &mut [u32], tape: &[u8], out: &mut [u8]) -> ExportedRan
    ensures { Runs words.old words.new tape.now out.old out.new (as_ran result) }
{
    ExportedRan::from(store::run(words, tape, out))
}

#[unsafe(no_mangle)]
pub extern "C" fn yirbarn_column_number(
    words: &[u32],
    kind: u8,
    values: bool,
    start: usize,
    end: usize,
) -> u8
    ensures { ColumnNumbered words.now kind start end result }
{
    number_of(store::column_number(words, kind, values, start, end))
}

// Where the part that column hands back stands in the words.
#[unsafe(no_mangle)]
pub extern "C" fn yirbarn_column_at(
    words: &[u32],
    kind: u8,
    values: bool,
    start: usize,
    end: usize,
) -> usize
    ensures { ColumnPlaced words.now values kind start end result }
{
    store::column_at(words, kind, values, start, end)
}

// The words that column hands back, copied to the front of out if they have room there.
#[unsafe(no_mangle)]
pub extern "C" fn yirbarn_column(
    words: &[u32],
    kind: u8,
    values: bool,
    start: usize,
    end: usize,
    out: &mut [u32],
) -> Reply
    ensures { ColumnCopied words.now out.old out.new values kind start end result }
{
    store::copy_column(words, kind, values, start, end, out)
}

#[unsafe(no_mangle)]
pub extern "C" fn yirbarn_roll(words: &[u32], out: &mut [u8]) -> Rolled
    ensures { Rolls words.now out.old out.new result }
{
    store::roll(words, out)
}
