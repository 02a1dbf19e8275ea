// An empty store, whatever the words held.
ghost use Rattle.std.specs.Prelude.{◌≤◌, length};
ghost use Rattle.model.specs.Numbers.{MAX_KINDS};
ghost use Rattle.model.specs.Store.{told};
ghost use Rattle.model.specs.Sound.{EightOrSixteen, Limits};
ghost use Rattle.words.specs.Offsets.{STAGED_KINDS};
ghost use Rattle.words.specs.Decides.{Decides};
ghost use Rattle.words.specs.Shape.{column_start, shape};
ghost use Rattle.memory.specs.Fresh.{Cleared, TableCleared, Made};

// 8 or 16 bytes for a value.
pub fn is_width(v: usize) -> bool
    ensures { Decides result (EightOrSixteen v) }
{
    v == model::VALUE_BYTES || v == model::LONG_VALUE_BYTES
}

// N from 1 to 4,096, K from 1 to 128, and 8 or 16 bytes for a value.
pub fn within_limits(n: usize, k: usize, v: usize) -> bool
    ensures { Decides result (Limits n k v) }
{
    is_width(v) && 1 <= n && n <= model::MAX_ENTITIES && 1 <= k && k <= model::MAX_KINDS
}

// Zeros up to `end`.
fn clear(words: &mut [u32], end: usize)
    requires { end ≤ length words.old }
    ensures { Cleared words.old end words.new }
{
    words[..end].fill(0);
}

// The table of 128 kinds, all unregistered.
fn put_table(words: &mut [u32])
    requires { STAGED_KINDS ≤ length words.old }
    ensures { TableCleared words.old MAX_KINDS words.new }
{
    words[words::TABLE..words::STAGED_KINDS].copy_from_slice(&[255u32; 128]);
}

// The empty store of n entities and k kinds with values of v bytes, under the rule that is told. C hands the settings
// over one by one, and one by one they are written: a struct of them would be built for this call alone.
pub fn make(words: &mut [u32], n: usize, k: usize, v: usize, newer: bool)
    requires limits { Limits n k v }
    requires k_in_bounds { column_start (shape n v) k ≤ length words.old }
    ensures { Made (told n k v newer) words.old words.new }
{
    let end = model::words_needed(n, k, v);
    clear(words, end);
    put_table(words);
    words[words::CAPACITY] = n as u32;
    words[words::KIND_CAPACITY] = k as u32;
    words[words::RULE] = newer as u32;
    words[words::VALUE_WIDTH] = v as u32;
}
