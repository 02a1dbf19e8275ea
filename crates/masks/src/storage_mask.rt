// One bit a place in a family's kinds.
ghost use Rattle.std.specs.Prelude.{◌≡◌, [], ◌∷◌, ◌-◌, ◌<◌};
ghost use Rattle.masks.specs.Masks.{bits_of, up_from, union_of, Ordered};

// A tuple struct of its own beside GroupMask, each with its own `from_to`: a rule of the project.
// A place in a family is no group's number, so that neither mask stands for the other; the widths differ too.
#[derive(Clone, Copy, Debug, PartialEq, Eq)]
pub struct StorageMask(pub u16);

const ALL_BITS: u16 = 0xffff;

impl StorageMask {
    pub fn empty() -> StorageMask
        ensures { bits_of 16 result.0 ≡ [] }
    {
        StorageMask(0)
    }

    // The bits `from` to `to` - 1; the empty run is a case of its own, as in a group mask.
    pub fn from_to(from: usize, to: usize) -> StorageMask
        requires { Ordered 16 from to }
        ensures { bits_of 16 result.0 ≡ up_from from (to - from) }
    {
        if from == to {
            return StorageMask(0);
        }
        StorageMask((ALL_BITS >> (16 - (to - from))) << from)
    }

    pub fn single(index: usize) -> StorageMask
        requires { index < 16 }
        ensures { bits_of 16 result.0 ≡ index ∷ [] }
    {
        StorageMask(1 << index)
    }

    pub fn union(self, other: StorageMask) -> StorageMask
        ensures { bits_of 16 result.0 ≡ union_of 16 (bits_of 16 self.0) (bits_of 16 other.0) }
    {
        StorageMask(self.0 | other.0)
    }
}
