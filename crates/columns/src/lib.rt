// The work of *column*, over words that are arranged: its number, where the rows of a kind stand, the part that they are, and a copy.
#![tactic(auto)]

ghost use Rattle.std.specs.Prelude.{◌≡◌, ◌++◌, ◌≤◌, length, drop};
ghost use Rattle.std.proofs.Math.Option.{none};
ghost use Rattle.model.specs.Refusals.{number_of};
ghost use Rattle.columns.specs.Refused.{refusal_number};
ghost use Rattle.model.specs.Entries.{item_words, column_refusal};
ghost use Rattle.model.specs.Sound.{In};
ghost use Rattle.memory.specs.Meaning.{meaning};
ghost use Rattle.memory.specs.Arranged.{Arranged};
ghost use Rattle.kinds.specs.Kinds.{kind_set};
ghost use Rattle.columns.specs.Parts.{RowStart, RowsPart};

use model::refusals::Refusal;

// Why column refuses, if it does.
pub fn refusal(words: &[u32], kind: usize, start: usize, end: usize) -> Option<Refusal>
    requires { Arranged words.now }
    ensures { refusal_number result ≡ number_of (column_refusal kind start end (meaning words.now)) }
{
    if model::LAST_KIND < kind {
        return Some(Refusal::Kind);
    }
    if !kinds::is_registered(words, kind) {
        return Some(Refusal::Kind);
    }
    if end < start {
        return Some(Refusal::Beyond);
    }
    if kinds::set_len(words, kind) < end {
        return Some(Refusal::Beyond);
    }
    None
}

// Where the words of the kind's row at a place stand: its entity, or its value. `values`, here and below, is the bool that the C interface hands on: an enum
// would be made of it in each caller, only to be tested here.
pub fn row_start(words: &[u32], kind: usize, values: bool, place: usize) -> usize
    requires arranged { Arranged words.now }
    requires kind_known { In (meaning words.now).kinds kind }
    requires place_in_bounds { place ≤ length (kind_set words.now kind) }
    ensures { RowStart values words.now kind place result }
{
    let z = words::shape_of(words);
    let slot = words::word(words, words::TABLE + kind);
    let start = words::column_start(z, slot);
    if values {
        return start + words::value_place(z, place);
    }
    start + words::entity_place(place)
}

// How many words a row has among the entities, or among the values.
fn item_words(words: &[u32], values: bool) -> usize
    requires { Arranged words.now }
    ensures { result ≡ item_words (meaning words.now).settings.value_bytes values }
{
    if values {
        let z = words::shape_of(words);
        return z.stride;
    }
    2
}

// The entities, or the values, of the rows from start to end, which column accepts: where they lie in the words.
pub fn rows(words: &[u32], kind: usize, values: bool, start: usize, end: usize) -> &[u32]
    requires arranged { Arranged words.now }
    requires accepted { column_refusal kind start end (meaning words.now) ≡ none }
    ensures { RowsPart words.entry result values kind start end }
{
    let first = row_start(words, kind, values, start);
    let last = first + item_words(words, values) * (end - start);
    &words[first..last]
}

// All of `from`, to the front of `to`.
pub fn copy(from: &[u32], to: &mut [u32])
    requires { length from.now ≤ length to.old }
    ensures { to.new ≡ from.now ++ drop (length from.now) to.old }
{
    // No `copy_from_slice`: with it the archive for C asks for one function more from outside, memmove.
    for i in 0..from.len() {
        to[i] = from[i];
    }
}
