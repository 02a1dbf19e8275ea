// The caller, and the refusal counts of the callers: 01's tally, of which 02's No. 7 gives each caller one.
ghost use Rattle.std.specs.Prelude.{◌≡◌, ◌≤◌};
ghost use Rattle.model.specs.Numbers.{LAST_CALLER};
ghost use Rattle.model.specs.Store.{with_control, with_caller, own_refusals};
ghost use Rattle.memory.specs.Meaning.{meaning};
ghost use Rattle.memory.specs.Arranged.{Arranged, Becomes};
ghost use Rattle.control.specs.Refusals.{Caller, CountsRefusal};

use words::{CALLER, REFUSALS};

pub fn caller(words: &[u32]) -> usize
    requires { Arranged words.now }
    ensures { Caller words.now result }
{
    words[CALLER] as usize
}

// Another caller, for what follows.
pub fn set_caller(words: &mut [u32], caller: u32)
    requires arranged { Arranged words.old }
    requires caller_bound { caller ≤ LAST_CALLER }
    ensures { Becomes words.old words.new (with_control (meaning words.old) (with_caller (meaning words.old).control caller)) }
{
    words[CALLER] = caller;
}

// How many refusals are counted against the caller.
pub fn refusals(words: &[u32]) -> u32
    requires { Arranged words.now }
    ensures { result ≡ own_refusals (meaning words.now).control }
{
    let c = caller(words);
    words[REFUSALS + c]
}

// One refusal more of the caller; the count stays at its largest.
pub fn count_refusal(words: &mut [u32])
    requires { Arranged words.old }
    ensures { CountsRefusal words.old words.new }
{
    let c = caller(words);
    let at = REFUSALS + c;
    let count = words[at];
    if count < model::MAX_REFUSALS {
        words[at] = count + 1;
    }
}
