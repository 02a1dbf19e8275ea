// APPLY: the draft becomes the layout.
ghost use Rattle.model.specs.Commands.{APPLY};
ghost use Rattle.model.specs.Run.{does};
ghost use Rattle.memory.specs.Meaning.{meaning};
ghost use Rattle.command.specs.Acted.{Ready, Acted};

use command::answers::ack;

// The components are grouped anew, and the draft is empty.
pub fn apply(words: &mut [u32], out: &mut [u8], at: usize) -> usize
    requires { Ready words.old out.old at APPLY }
    ensures { Acted words.old words.new out.old out.new at result (does APPLY (meaning words.old)) }
{
    layout_apply::set_layout(words);
    ack(out, at)
}
