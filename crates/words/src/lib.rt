// The arrangement of the lent words (docs/WORDS.md): the offsets of the header, of a layout's block, of the entity part and of a column, and where the
// columns start.
#![tactic(auto)]

ghost use Rattle.std.specs.Prelude.{◌≡◌, ◌+◌, ◌*◌, ◌<◌, ◌≤◌, length, get_or};
ghost use Rattle.model.specs.Numbers.{MAX_ENTITIES, MAX_KINDS};
ghost use Rattle.words.specs.Offsets.{VALUE_WIDTH};
ghost use Rattle.words.specs.Shape.{TwoOrFour, words_in, Shaped, entity_place, lookup_place, value_place, column_len, column_start, Shapes, InColumn, InWords};
ghost use Rattle.words.specs.Counted.{filled};
ghost use Rattle.words.specs.Word.{Word};

// The header: capacity, most kinds, kinds registered, lengths of the lists.
pub const CAPACITY: usize = 0;

pub const KIND_CAPACITY: usize = 1;

pub const REGISTERED: usize = 2;

pub const STAGED_LEN: usize = 3;

pub const EXCLUDED_LEN: usize = 4;

pub const DRAFT_FAMILIES: usize = 5;

pub const DRAFT_GROUPS: usize = 6;

pub const LAYOUT_FAMILIES: usize = 7;

pub const LAYOUT_GROUPS: usize = 8;
// The caller.
pub const CALLER: usize = 9;
// The rule, 0 the older, and the word of the newer.
pub const RULE: usize = 10;

pub const NEWER: u32 = 1;
// The bytes of a value, 8 or 16.
pub const VALUE_WIDTH: usize = 11;
// The refusal counts of the sixteen callers.
pub const REFUSALS: usize = 16;
// The slot of each of the 128 kinds, and the word of a kind that has none.
pub const TABLE: usize = 32;

pub const UNREGISTERED: u32 = 255;
// Sixteen staged kinds, their values at four words each, sixteen excluded kinds.
pub const STAGED_KINDS: usize = 160;

pub const STAGED_VALUES: usize = 176;

pub const STAGED_VALUE_LEN: usize = 4;

pub const EXCLUDED_KINDS: usize = 240;
// Two blocks of 320 words: kinds in order, arities, kind ends, group ends.
pub const DRAFT: usize = 256;

pub const LAYOUT: usize = 576;
// Where the last three start in a block, and how long it is.
pub const ARITIES: usize = 128;

pub const KIND_ENDS: usize = 192;

pub const ENDS: usize = 256;

pub const BLOCK_LEN: usize = 320;
// How many groups a block has places for.
pub const GROUP_PLACES: usize = 64;
// The same three of the layout in force.
pub const LAYOUT_ARITIES: usize = LAYOUT + ARITIES;

pub const LAYOUT_KIND_ENDS: usize = LAYOUT + KIND_ENDS;

pub const LAYOUT_ENDS: usize = LAYOUT + ENDS;
// The family and the count of each group of the layout in force.
pub const GROUP_FAMILIES: usize = 896;

pub const GROUP_COUNTS: usize = 960;
// The entity part follows the header.
pub const ENTITIES: usize = model::HEADER_LEN;
// The entity part: how many are live, how many numbers are issued, where the queue of recycled numbers begins and how many it has. The live list follows.
pub const LIVE_LEN: usize = 0;

pub const ISSUED: usize = 1;

pub const QUEUE_HEAD: usize = 2;

pub const RECYCLED_LEN: usize = 3;

pub const LIVE_LIST: usize = 8;
// A column's head: how many rows it has, its kind, the kind's own group plus one, the kind's place in its family. The rows follow the head.
pub const ROWS_LEN: usize = 0;

pub const COLUMN_KIND: usize = 1;

pub const OWN_GROUP: usize = 2;

pub const PLACE_IN_FAMILY: usize = 3;

pub const ROWS: usize = model::COLUMN_HEAD;

// What a column is made for: so many entities, and so many words for each value.
#[derive(Clone, Copy, PartialEq, Eq, Debug)]
pub struct Shape {
    pub capacity: usize,
    pub stride: usize,
}

// How long a store's values are: two words each or, in a store that is started so, four.
#[derive(Clone, Copy, PartialEq, Eq, Debug)]
pub enum Width {
    Short,
    Long,
}

impl Shape {
    // How long the values of a column are. The stride stays a number beside it, since lent words that are unsound have a shape too.
    pub fn width(self) -> Width
        requires { TwoOrFour self.stride }
        ensures { words_in result ≡ self.stride }
    {
        if self.stride == 2 {
            Width::Short
        } else {
            Width::Long
        }
    }
}

// What the columns of a store are made for.
pub fn shape_of(words: &[u32]) -> Shape
    requires { VALUE_WIDTH < length words.now }
    ensures { Shapes words.now result }
{
    Shape {
        capacity: words[CAPACITY] as usize,
        stride: words[VALUE_WIDTH] as usize / model::WORD_BYTES,
    }
}

// In a column: where the entity of row i stands, its index and its version.
pub fn entity_place(i: usize) -> usize
    requires { i ≤ MAX_ENTITIES }
    ensures { InColumn (entity_place i) result }
{
    ROWS + 2 * i
}

// Where the lookup of index x stands, its place and its version.
pub fn lookup_place(z: Shape, x: usize) -> usize
    requires { Shaped z × (x ≤ z.capacity) }
    ensures { InColumn (lookup_place z x) result }
{
    ROWS + 2 * z.capacity + 2 * x
}

// Where the value of row i stands.
pub fn value_place(z: Shape, i: usize) -> usize
    requires { Shaped z × (i ≤ z.capacity) }
    ensures { InColumn (value_place z i) result }
{
    ROWS + model::LINKS_LEN * z.capacity + z.stride * i
}

// How many words a column has: the values are its last.
pub fn column_len(z: Shape) -> usize
    requires { Shaped z }
    ensures { InColumn (column_len z) result }
{
    value_place(z, z.capacity)
}

// Where the column in slot s starts.
pub fn column_start(z: Shape, s: usize) -> usize
    requires { Shaped z × (s ≤ MAX_KINDS) }
    ensures { InWords (column_start z s) result }
{
    let len = column_len(z);
    ENTITIES + model::ENTITY_LEN * z.capacity + s * len
}

// An entity (01: card): an index and a version. Versions start at 1.
#[derive(Clone, Copy, PartialEq, Eq, Debug)]
pub struct Entity {
    pub index: u32,
    pub version: u32,
}

// Where what was looked up is: an entity in the live list, its row in a sparse set, or a kind's own group among the groups. An enum of its own and no
// Option, by a rule of the project: the steps of status, PUT and RANGE read `let Found::At(place) = found else`.
#[derive(Clone, Copy, PartialEq, Eq, Debug)]
pub enum Found {
    At(usize),
    Nothing,
}

// The word at i, as a number for counting.
pub fn word(words: &[u32], i: usize) -> usize
    requires { i < length words.now }
    ensures { Word words.now i result }
{
    words[i] as usize
}

// Of n pairs of words from a place on, how many have a second word that is not 0. No branch on what they hold, so that several are passed at once.
pub fn count_held(words: &[u32], from: usize, n: usize) -> u32
    requires { (from + 2 * n ≤ length words.now) × (n ≤ MAX_ENTITIES) }
    ensures { result ≡ filled n (λ x. get_or words.now (from + 2 * x + 1) 0) }
{
    let mut count = 0u32;
    for x in 0..n {
        count += (0 < words[from + 2 * x + 1]) as u32;
    }
    count
}
