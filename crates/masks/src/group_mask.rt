// One bit a group of the layout, and the walk over the set bits from either end.
ghost use Rattle.std.specs.Prelude.{◌≡◌, [], ◌-◌, ◌≤◌, ◌<◌};
ghost use Rattle.masks.specs.Masks.{bits_of, up_from, union_of, common_of, skipping, Ordered};
ghost use Rattle.masks.specs.Walk.{Lowest, Highest, Asks};

use crate::storage_mask::StorageMask;

// A tuple struct of its own beside StorageMask, each with its own `from_to`: a rule of the project.
// A group's number is no place in a family, so that neither mask stands for the other; the widths differ too.
#[derive(Clone, Copy, Debug, PartialEq, Eq)]
pub struct GroupMask(pub u64);

const ALL_BITS: u64 = 0xffff_ffff_ffff_ffff;

impl GroupMask {
    pub fn empty() -> GroupMask
        ensures { bits_of 64 result.0 ≡ [] }
    {
        GroupMask(0)
    }

    // The bits `from` to `to` - 1, one or more.
    pub fn some_from_to(from: usize, to: usize) -> GroupMask
        requires { (from < to) × (to ≤ 64) }
        ensures { bits_of 64 result.0 ≡ up_from from (to - from) }
    {
        GroupMask((ALL_BITS >> (64 - (to - from))) << from)
    }

    // The bits `from` to `to` - 1. There is no shift by the whole width, so the empty run is a case of its own.
    pub fn from_to(from: usize, to: usize) -> GroupMask
        requires { Ordered 64 from to }
        ensures { bits_of 64 result.0 ≡ up_from from (to - from) }
    {
        if from == to {
            return GroupMask(0);
        }
        GroupMask::some_from_to(from, to)
    }

    // All but the bits `from` to `to` - 1.
    pub fn skip_from_to(from: usize, to: usize) -> GroupMask
        requires { Ordered 64 from to }
        ensures { bits_of 64 result.0 ≡ skipping 64 from to }
    {
        let m = GroupMask::from_to(from, to);
        GroupMask(!m.0)
    }

    pub fn union(self, other: GroupMask) -> GroupMask
        ensures { bits_of 64 result.0 ≡ union_of 64 (bits_of 64 self.0) (bits_of 64 other.0) }
    {
        GroupMask(self.0 | other.0)
    }

    pub fn intersection(self, other: GroupMask) -> GroupMask
        ensures { bits_of 64 result.0 ≡ common_of (bits_of 64 self.0) (bits_of 64 other.0) }
    {
        GroupMask(self.0 & other.0)
    }

    // A step of the walk: the lowest set bit and the mask without it, or None at the end.
    // The position is below 64: eight bits hold it.
    pub fn next(self) -> Option<(u32, GroupMask)>
        ensures { Lowest self.0 result }
    {
        let m = self.0;
        if m == 0 {
            return None;
        }
        let at = u64::trailing_zeros(m) as u8;
        Some((at as u32, GroupMask(m - (1 << at))))
    }

    // The same from the other end: the highest set bit; the position in eight bits too.
    pub fn next_back(self) -> Option<(u32, GroupMask)>
        ensures { Highest self.0 result }
    {
        let m = self.0;
        if m == 0 {
            return None;
        }
        let at = (63 - u64::leading_zeros(m)) as u8;
        Some((at as u32, GroupMask(m - (1 << at))))
    }
}

// What a query asks of a family: the places of the kinds it includes and of those it excludes.
#[derive(Clone, Copy, Debug, PartialEq, Eq)]
pub struct QueryMask {
    pub include: StorageMask,
    pub exclude: StorageMask,
}

impl QueryMask {
    // A group's kinds, and nothing excluded.
    pub fn include(arity: usize) -> QueryMask
        requires { arity ≤ 16 }
        ensures { Asks result (up_from 0 arity) [] }
    {
        let include = StorageMask::from_to(0, arity);
        let exclude = StorageMask::empty();
        QueryMask { include, exclude }
    }

    // The next smaller group's kinds, without the group's new kinds.
    pub fn exclude(prev: usize, arity: usize) -> QueryMask
        requires { Ordered 16 prev arity }
        ensures { Asks result (up_from 0 prev) (up_from prev (arity - prev)) }
    {
        let include = StorageMask::from_to(0, prev);
        let exclude = StorageMask::from_to(prev, arity);
        QueryMask { include, exclude }
    }
}
