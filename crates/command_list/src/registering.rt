// REG: a kind gets its sparse set.
ghost use Rattle.std.specs.Prelude.{◌≡◌, leb, length};
ghost use Rattle.model.specs.Commands.{REG};
ghost use Rattle.model.specs.Run.{does};
ghost use Rattle.memory.specs.Meaning.{meaning};
ghost use Rattle.memory.specs.Arranged.{Arranged};
ghost use Rattle.command.specs.Acted.{Ready, Acted};

use command::answers::{ack_byte, refuse};
use model::refusals::Refusal;

// Whether K kinds are registered.
fn no_slot(words: &[u32]) -> bool
    requires { Arranged words.now }
    ensures { result ≡ leb (meaning words.now).settings.kind_capacity (length (meaning words.now).kinds) }
{
    words::word(words, words::KIND_CAPACITY) <= words::word(words, words::REGISTERED)
}

// Told 1 where the kind is new, 0 where it is known.
pub fn reg(words: &mut [u32], kind: u8, out: &mut [u8], at: usize) -> usize
    requires { Ready words.old out.old at (REG kind) }
    ensures { Acted words.old words.new out.old out.new at result (does (REG kind) (meaning words.old)) }
{
    let k = kind as usize;
    if model::LAST_KIND < k {
        return refuse(words, out, at, Refusal::Kind);
    }
    if kinds::is_registered(words, k) {
        return ack_byte(out, at, 0);
    }
    if no_slot(words) {
        return refuse(words, out, at, Refusal::Kinds);
    }
    kinds::register(words, k);
    ack_byte(out, at, 1)
}
