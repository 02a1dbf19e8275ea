// The excluded kinds: 01's bar.
ghost use Rattle.std.specs.Prelude.{◌<◌, length};
ghost use Rattle.model.specs.Numbers.{LIST_CAPACITY, MAX_KINDS};
ghost use Rattle.memory.specs.Meaning.{meaning};
ghost use Rattle.memory.specs.Arranged.{Arranged, Becomes};
ghost use Rattle.control.specs.Lists.{excluding};

use crate::lists::{self, ExcludedKinds};

// One kind more.
pub fn exclude(words: &mut [u32], kind: usize)
    requires arranged { Arranged words.old }
    requires room { length (meaning words.old).control.excluded < LIST_CAPACITY }
    requires kind_bound { kind < MAX_KINDS }
    ensures { Becomes words.old words.new (excluding kind (meaning words.old)) }
{
    lists::push::<ExcludedKinds>(words, kind);
}
