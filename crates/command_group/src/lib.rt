// GROUP: the staged kinds go into the draft. The draft is a layout by value: read from the words, added to, and written back.
#![tactic(auto)]

ghost use Rattle.std.specs.Prelude.{◌≡◌};
ghost use Rattle.model.specs.Commands.{GROUP};
ghost use Rattle.model.specs.Store.{staged_kinds};
ghost use Rattle.model.specs.Run.{does};
ghost use Rattle.memory.specs.Meaning.{meaning};
ghost use Rattle.memory.specs.Arranged.{Sound};
ghost use Rattle.command.specs.Acted.{Ready, Acted};
ghost use Rattle.command_group.specs.Drafts.{Drafts};

use command::answers::{ack_byte, refuse};
use control::lists::{KindsInWords, StagedKinds};
use kind_list::KindList;
use layout::group_layout::Answer;
use model::LIST_CAPACITY;

// The staged kinds, in their order.
fn staged_kinds(words: &[u32]) -> KindList<LIST_CAPACITY>
    requires { Sound words.now }
    ensures { result ≡ staged_kinds (meaning words.now) }
{
    let mut kinds = KindList::new();
    for i in 0..StagedKinds::len(words) {
        kinds.push(control::staged::staged_kind(words, i) as u8);
    }
    kinds
}

// The draft with a group of the staged kinds, by value; no word changes.
fn add_staged(words: &[u32]) -> Answer
    requires { Sound words.now }
    ensures { Drafts (meaning words.now) result }
{
    let draft = control::draft::draft(words);
    layout::group_layout::add_group(draft, staged_kinds(words).as_slice())
}

// Told 1 where a group is added, 0 where nothing is.
pub fn group(words: &mut [u32], out: &mut [u8], at: usize) -> usize
    requires { Ready words.old out.old at GROUP }
    ensures { Acted words.old words.new out.old out.new at result (does GROUP (meaning words.old)) }
{
    let answer = add_staged(words);
    match answer.outcome {
        Ok(false) => {
            control::staged::clear_staged(words);
            ack_byte(out, at, 0)
        }
        Ok(true) => {
            control::draft::set_draft(words, answer.layout);
            control::staged::clear_staged(words);
            ack_byte(out, at, 1)
        }
        Err(refusal) => refuse(words, out, at, refusal),
    }
}
