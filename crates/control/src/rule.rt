// The rule of RANGE that a start was told (02, No. 8).
ghost use Rattle.std.specs.Prelude.{◌≡◌};
ghost use Rattle.memory.specs.Meaning.{meaning};
ghost use Rattle.memory.specs.Arranged.{Arranged};

use words::{NEWER, RULE};

pub fn is_newer(words: &[u32]) -> bool
    requires { Arranged words.now }
    ensures { result ≡ (meaning words.now).settings.newer }
{
    words[RULE] == NEWER
}
