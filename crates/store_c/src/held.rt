// The entries over words that are known to hold a sound store, for a caller that holds them. Each asks that they are sound, tests nothing, and promises what
// the entry of its name does.
ghost use Rattle.memory.specs.Arranged.{Sound};
ghost use Rattle.store.specs.Entries.{Runs, ColumnNumbered, Rolls};
ghost use Rattle.store.specs.Linked.{ColumnPlaced, ColumnCopied};
ghost use Rattle.store_c.specs.Exported.{as_ran};

use crate::ExportedRan;
use store::{Reply, Rolled};

#[unsafe(no_mangle)]
pub extern "C" fn yirbarn_held_run(words: &mut [u32], tape: &[u8], out: &mut [u8]) -> ExportedRan
    requires { Sound words.old }
    ensures { Runs words.old words.new tape.now out.old out.new (as_ran result) }
{
    ExportedRan::from(store::held::run(words, tape, out))
}

#[unsafe(no_mangle)]
pub extern "C" fn yirbarn_held_column_number(
    words: &[u32],
    kind: u8,
    values: bool,
    start: usize,
    end: usize,
) -> u8
    requires { Sound words.now }
    ensures { ColumnNumbered words.now kind start end result }
{
    crate::number_of(store::held::column_number(words, kind, values, start, end))
}

#[unsafe(no_mangle)]
pub extern "C" fn yirbarn_held_column_at(
    words: &[u32],
    kind: u8,
    values: bool,
    start: usize,
    end: usize,
) -> usize
    requires { Sound words.now }
    ensures { ColumnPlaced words.now values kind start end result }
{
    store::held::column_at(words, kind, values, start, end)
}

#[unsafe(no_mangle)]
pub extern "C" fn yirbarn_held_column(
    words: &[u32],
    kind: u8,
    values: bool,
    start: usize,
    end: usize,
    out: &mut [u32],
) -> Reply
    requires { Sound words.now }
    ensures { ColumnCopied words.now out.old out.new values kind start end result }
{
    store::held::copy_column(words, kind, values, start, end, out)
}

#[unsafe(no_mangle)]
pub extern "C" fn yirbarn_held_roll(words: &[u32], out: &mut [u8]) -> Rolled
    requires { Sound words.now }
    ensures { Rolls words.now out.old out.new result }
{
    store::roll_sound(words, out)
}
