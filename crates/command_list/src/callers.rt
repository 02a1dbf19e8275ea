// SETCALLER and TALLY: the caller, and the count of its refusals.
ghost use Rattle.model.specs.Commands.{TALLY, SETCALLER};
ghost use Rattle.model.specs.Run.{does};
ghost use Rattle.memory.specs.Meaning.{meaning};
ghost use Rattle.command.specs.Acted.{Ready, Acted};

use command::answers::{ack, ack_number, refuse};
use model::refusals::Refusal;

// SETCALLER: the caller for what follows.
pub fn set_caller(words: &mut [u32], caller: u8, out: &mut [u8], at: usize) -> usize
    requires { Ready words.old out.old at (SETCALLER caller) }
    ensures { Acted words.old words.new out.old out.new at result (does (SETCALLER caller) (meaning words.old)) }
{
    let c = caller as u32;
    if model::LAST_CALLER < c {
        return refuse(words, out, at, Refusal::Caller);
    }
    control::refusals::set_caller(words, c);
    ack(out, at)
}

// TALLY: how many commands of the caller were refused.
pub fn tally(words: &[u32], out: &mut [u8], at: usize) -> usize
    requires { Ready words.now out.old at TALLY }
    ensures { Acted words.now words.now out.old out.new at result (does TALLY (meaning words.now)) }
{
    let count = control::refusals::refusals(words);
    ack_number(out, at, count)
}
