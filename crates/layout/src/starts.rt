// Where a family's kinds or groups start, and what stands for the group before a group, in words that have such
// numbers from a word on.
ghost use Rattle.std.specs.Prelude.{◌+◌, ◌≤◌, ◌<◌, length};
ghost use Rattle.layout.specs.Reading.{ReadStart, ReadPrior};

/// Where number f starts, of the ends that stand from `at` on: where the one before ends.
pub fn start_of(words: &[u32], at: usize, f: usize) -> usize
    requires { at + f ≤ length words.now }
    ensures { ReadStart words.now at f result }
{
    if f == 0 {
        return 0;
    }
    words::word(words, at + (f - 1))
}

/// What stands for the group before g, of the arities or counts from `at` on; `none` where g is `start`, its family's
/// smallest.
pub fn prior_of(words: &[u32], at: usize, start: usize, g: usize, none: usize) -> usize
    requires { (at + g ≤ length words.now) × (none < 4294967296) }
    ensures { ReadPrior words.now at start g none result }
{
    if start < g {
        return words::word(words, at + (g - 1));
    }
    none
}
