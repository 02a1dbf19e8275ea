// The staged components: 01's hand.
ghost use Rattle.std.specs.Prelude.{◌≡◌, ◌<◌, length, get_or};
ghost use Rattle.model.specs.Numbers.{LIST_CAPACITY, MAX_KINDS};
ghost use Rattle.model.specs.Sound.{no_component};
ghost use Rattle.model.specs.Store.{staged_kinds, with_control, empty_staged, empty_both};
ghost use Rattle.words.specs.Shape.{shape_of};
ghost use Rattle.values.specs.Values.{value_of};
ghost use Rattle.memory.specs.Meaning.{meaning};
ghost use Rattle.memory.specs.Arranged.{Arranged, Becomes};
ghost use Rattle.control.specs.Lists.{component_of, staging};

use crate::lists::{self, StagedKinds};
use values::Value;
use words::{EXCLUDED_LEN, STAGED_KINDS, STAGED_LEN, STAGED_VALUE_LEN, STAGED_VALUES, Shape};

// A kind with its value.
#[derive(Drop)]
pub struct Component {
    pub kind: usize,
    pub value: Value,
}

pub fn staged_kind(words: &[u32], i: usize) -> usize
    requires arranged { Arranged words.now }
    requires i_in_bounds { i < length (meaning words.now).control.staged }
    ensures { result ≡ (get_or (meaning words.now).control.staged i no_component).kind }
{
    words::word(words, STAGED_KINDS + i)
}

pub fn staged_at(words: &[u32], z: Shape, i: usize) -> Component
    requires arranged { Arranged words.now }
    requires shape_is { z ≡ shape_of words.now }
    requires i_in_bounds { i < length (meaning words.now).control.staged }
    ensures { component_of (shape_of words.now).stride result ≡ get_or (meaning words.now).control.staged i no_component }
{
    let kind = words::word(words, STAGED_KINDS + i);
    let value = values::get(words, STAGED_VALUES + STAGED_VALUE_LEN * i, z.width());
    Component { kind, value }
}

// One component more. `exclude` stays beside it: a staged kind has a value, an excluded one has none, and one `push` serves both.
pub fn stage(words: &mut [u32], kind: usize, x: Value)
    requires arranged { Arranged words.old }
    requires room { length (meaning words.old).control.staged < LIST_CAPACITY }
    requires kind_bound { kind < MAX_KINDS }
    ensures { Becomes words.old words.new (staging kind (value_of (shape_of words.old).stride x) (meaning words.old)) }
{
    let z = words::shape_of(words);
    let place = lists::push::<StagedKinds>(words, kind);
    let at = STAGED_VALUES + STAGED_VALUE_LEN * place;
    values::put(words, at, z.width(), x);
}

// None is staged.
pub fn clear_staged(words: &mut [u32])
    requires { Arranged words.old }
    ensures { Becomes words.old words.new (with_control (meaning words.old) (empty_staged (meaning words.old).control)) }
{
    words[STAGED_LEN] = 0;
}

// None is staged, and none excluded.
pub fn clear_lists(words: &mut [u32])
    requires { Arranged words.old }
    ensures { Becomes words.old words.new (with_control (meaning words.old) (empty_both (meaning words.old).control)) }
{
    words[STAGED_LEN] = 0;
    words[EXCLUDED_LEN] = 0;
}
