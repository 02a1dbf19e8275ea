// The clauses of a sound store (01) that speak of the layout in force: the columns' heads, and the groups' counts.
#![tactic(auto)]

ghost use Rattle.std.specs.Prelude.{◌≡◌, ◌<◌, ◌≤◌, length, get_or};
ghost use Rattle.model.specs.Numbers.{MAX_KINDS};
ghost use Rattle.words.specs.Offsets.{LAYOUT_ARITIES};
ghost use Rattle.memory.specs.Header.{slot_of};

pub mod counts;
pub mod heads;

// The slot of the kind at word j.
fn slot_at(words: &[u32], j: usize) -> usize
    requires in_bounds { (LAYOUT_ARITIES ≤ length words.now) × (j < LAYOUT_ARITIES) }
    requires small { get_or words.now j 0 < MAX_KINDS }
    ensures { result ≡ slot_of words.now (get_or words.now j 0) }
{
    let kind = words[j] as usize;
    words[words::TABLE + kind] as usize
}
