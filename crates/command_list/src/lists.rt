// HOLD, BAR and EMPTY: the staged components and the excluded kinds.
ghost use Rattle.std.specs.Prelude.{◌≡◌};
ghost use Rattle.model.specs.Commands.{HOLD, BAR, EMPTY};
ghost use Rattle.model.specs.Refusals.{first_line, unknown_kind};
ghost use Rattle.model.specs.Run.{does};
ghost use Rattle.words.specs.Shape.{shape_of};
ghost use Rattle.values.specs.Values.{value_of};
ghost use Rattle.memory.specs.Meaning.{meaning};
ghost use Rattle.memory.specs.Arranged.{Arranged};
ghost use Rattle.command.specs.Acted.{Ready, Acted};
ghost use Rattle.command_list.specs.Listing.{list_lines, number_of};

use command::answers::{ack, refuse};
use control::lists::{ExcludedKinds, KindsInWords, StagedKinds};
use model::refusals::Refusal;
use values::Value;

// Whether a kind is above 127 or unregistered.
pub fn is_unknown(words: &[u32], kind: usize) -> bool
    requires { Arranged words.now }
    ensures { result ≡ unknown_kind kind (meaning words.now) }
{
    model::LAST_KIND < kind || !kinds::is_registered(words, kind)
}

// Why the list takes no such kind, if it does not: the first line that holds, in the table's order.
fn refusal<L: KindsInWords>(words: &[u32], kind: usize) -> Option<Refusal>
    requires { Arranged words.now }
    ensures { number_of result ≡ first_line (list_lines L.kinds L.count kind) (meaning words.now) }
{
    if is_unknown(words, kind) {
        return Some(Refusal::Kind);
    }
    if L::contains(words, kind) {
        return Some(Refusal::Again);
    }
    if model::LIST_CAPACITY <= L::len(words) {
        return Some(Refusal::Handful);
    }
    None
}

// HOLD: a kind with its value, staged. It stays beside BAR, which has no value: two commands with other operands, and one `refusal`.
pub fn hold(words: &mut [u32], kind: u8, x: Value, out: &mut [u8], at: usize) -> usize
    requires { Ready words.old out.old at (HOLD kind (value_of (shape_of words.old).stride x)) }
    ensures { Acted words.old words.new out.old out.new at result (does (HOLD kind (value_of (shape_of words.old).stride x)) (meaning words.old)) }
{
    let kind = kind as usize;
    if let Some(refusal) = refusal::<StagedKinds>(words, kind) {
        return refuse(words, out, at, refusal);
    }
    control::staged::stage(words, kind, x);
    ack(out, at)
}

// BAR: a kind, excluded.
pub fn bar(words: &mut [u32], kind: u8, out: &mut [u8], at: usize) -> usize
    requires { Ready words.old out.old at (BAR kind) }
    ensures { Acted words.old words.new out.old out.new at result (does (BAR kind) (meaning words.old)) }
{
    let kind = kind as usize;
    if let Some(refusal) = refusal::<ExcludedKinds>(words, kind) {
        return refuse(words, out, at, refusal);
    }
    control::excluded::exclude(words, kind);
    ack(out, at)
}

// EMPTY: both lists.
pub fn empty(words: &mut [u32], out: &mut [u8], at: usize) -> usize
    requires { Ready words.old out.old at EMPTY }
    ensures { Acted words.old words.new out.old out.new at result (does EMPTY (meaning words.old)) }
{
    control::staged::clear_lists(words);
    ack(out, at)
}
