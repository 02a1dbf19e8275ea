// The draft layout: 01's draft, by value and in its block of words.
ghost use Rattle.layout.specs.ByValue.{Formed};
ghost use Rattle.memory.specs.Meaning.{meaning};
ghost use Rattle.memory.specs.Arranged.{Arranged, Becomes};
ghost use Rattle.control.specs.Draft.{IsDraft, drafting};

use layout::group_layout::Layout;
use words::{DRAFT, DRAFT_FAMILIES, DRAFT_GROUPS, LAYOUT};

pub fn draft(words: &[u32]) -> Layout
    requires { Arranged words.now }
    ensures { IsDraft words.now result }
{
    let families = words::word(words, DRAFT_FAMILIES);
    let groups = words::word(words, DRAFT_GROUPS);
    layout_block::read_layout(&words[DRAFT..LAYOUT], families, groups)
}

pub fn set_draft(words: &mut [u32], l: Layout)
    requires arranged { Arranged words.old }
    requires formed { Formed l }
    ensures { Becomes words.old words.new (drafting l (meaning words.old)) }
{
    words[DRAFT_FAMILIES] = l.families as u32;
    words[DRAFT_GROUPS] = l.groups as u32;
    layout_block::write_layout(&mut words[DRAFT..LAYOUT], l);
}
