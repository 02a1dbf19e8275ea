// The entries over words that are known to hold a sound store, for a caller that holds them: a start or a run left them so, and nothing else has changed
// them since. Each asks that they are sound, tests nothing, and promises what the entry of its name does. `roll_sound` is *roll*'s.
ghost use Rattle.columns.specs.Refused.{refusal_number};
ghost use Rattle.memory.specs.Arranged.{Sound};
ghost use Rattle.store.specs.Entries.{Runs, ColumnNumbered};
ghost use Rattle.store.specs.Linked.{ColumnPlaced, ColumnCopied};

use crate::Reply;
use model::refusals::Refusal;
use run::Ran;

pub fn run(words: &mut [u32], tape: &[u8], out: &mut [u8]) -> Ran
    requires { Sound words.old }
    ensures { Runs words.old words.new tape.now out.old out.new result }
{
    run::run_sound(words, tape, out)
}

pub fn column_number(
    words: &[u32],
    kind: u8,
    values: bool,
    start: usize,
    end: usize,
) -> Option<Refusal>
    requires { Sound words.now }
    ensures { ColumnNumbered words.now kind start end (refusal_number result) }
{
    columns::refusal(words, kind as usize, start, end)
}

pub fn column_at(words: &[u32], kind: u8, values: bool, start: usize, end: usize) -> usize
    requires { Sound words.now }
    ensures { ColumnPlaced words.now values kind start end result }
{
    if column_number(words, kind, values, start, end).is_some() {
        return 0;
    }
    columns::row_start(words, kind as usize, values, start)
}

pub fn copy_column(
    words: &[u32],
    kind: u8,
    values: bool,
    start: usize,
    end: usize,
    out: &mut [u32],
) -> Reply
    requires { Sound words.now }
    ensures { ColumnCopied words.now out.old out.new values kind start end result }
{
    if let Some(refusal) = column_number(words, kind, values, start, end) {
        return Reply {
            number: u8::from(refusal),
            written: 0,
        };
    }
    let part = columns::rows(words, kind as usize, values, start, end);
    let count = part.len();
    if out.len() < count {
        return Reply {
            number: u8::from(Refusal::NoRoom),
            written: 0,
        };
    }
    columns::copy(part, out);
    Reply {
        number: 0,
        written: count,
    }
}
