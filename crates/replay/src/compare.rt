// What the store gives, beside what is recorded.
ghost use Rattle.std.specs.Prelude.{◌≡◌, true, ◌+◌, ◌*◌, ◌<◌, ◌≤◌, length};
ghost use Rattle.words.specs.Decides.{Decides};
ghost use Rattle.memory.specs.Meaning.{meaning};
ghost use Rattle.memory.specs.Arranged.{Sound};
ghost use Rattle.replay.specs.Recorded.{short, SameWord, SameWords, SameColumn};
ghost use Rattle.replay.specs.Agreement.{GaveSame, RolledSame};

use crate::recorded::short_at;
use model::refusals::Refusal;
use run::Ran;
use store::Rolled;

// A run, with its answers at the front of `out`, beside its numbers and answers, recorded at `at`.
pub fn is_same_run(file: &[u8], at: usize, ran: Ran, out: &[u8]) -> bool
    requires at_in_bounds { at + 7 + short file.now (at + 5) ≤ length file.now }
    requires written_in_bounds { ran.written ≤ length out.now }
    ensures { Decides result (GaveSame file.now at ran out.now) }
{
    let written = ran.written;
    let answers = at + 7;
    ran.stop == file[at]
        && ran.commands == short_at(file, at + 1)
        && ran.read == short_at(file, at + 3)
        && written == short_at(file, at + 5)
        && file[answers..answers + written] == out[..written]
}

// A roll at the front of `out`, beside the recorded one.
pub fn is_same_roll(recorded: &[u8], rolled: Rolled, out: &[u8]) -> bool
    requires { rolled.written ≤ length out.now }
    ensures { Decides result (RolledSame recorded.now rolled out.now) }
{
    rolled.number == 0 && recorded == &out[..rolled.written]
}

// The word at i beside its four bytes.
fn is_same_word(words: &[u32], bytes: &[u8], i: usize) -> bool
    requires sized { length bytes.now ≡ 4 * length words.now }
    requires in_bounds { i < length words.now }
    ensures { Decides result (SameWord words.now bytes.now i) }
{
    words[i] == codec::get::<4>(bytes, 4 * i)
}

// Words beside their bytes, four each.
fn are_same_words(words: &[u32], bytes: &[u8]) -> bool
    ensures { Decides result (SameWords words.now bytes.now) }
{
    if bytes.len() % 4 != 0 || bytes.len() / 4 != words.len() {
        return false;
    }
    (0..words.len()).all(|i| is_same_word(words, bytes, i))
}

// The kind's column from its first row to `length`, the number of its rows, beside the recorded bytes.
pub fn is_same_column(words: &[u32], kind: u8, values: bool, length: usize, bytes: &[u8]) -> bool
    requires { length ≤ 65535 }
    ensures { result ≡ true → Sound words.now → SameColumn (meaning words.now) kind values length bytes.now }
{
    store::column_number(words, kind, values, 0, length).is_none()
        && store::column_number(words, kind, values, 0, length + 1) == Some(Refusal::Beyond)
        && are_same_words(store::column(words, kind, values, 0, length), bytes)
}
