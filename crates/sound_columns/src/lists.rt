// Lists of registered kinds: the staged and the excluded ones.
ghost use Rattle.std.specs.Prelude.{◌+◌, ◌≤◌, length};
ghost use Rattle.model.specs.Numbers.{LIST_CAPACITY};
ghost use Rattle.words.specs.Offsets.{STAGED_KINDS};
ghost use Rattle.words.specs.Decides.{Decides};
ghost use Rattle.sound_columns.specs.Listed.{ListOk};

use layout_block::kinds_ok;

// Are the words from a place on a list of at most 16 registered kinds?
pub fn is_list(words: &[u32], at: usize, len: usize) -> bool
    requires { (at + LIST_CAPACITY ≤ length words.now) × (STAGED_KINDS ≤ length words.now) }
    ensures { Decides result (ListOk words.now at len) }
{
    len <= model::LIST_CAPACITY
        && kinds_ok(
            &words[at..at + len],
            &words[words::TABLE..words::STAGED_KINDS],
        )
}
