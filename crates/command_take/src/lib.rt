// TAKE (component_set.rs, remove): a live entity's components of the staged kinds go, and are told. The groups are left first; then each removal
// gives the value that was held.
#![tactic(auto)]

ghost use Rattle.std.specs.Prelude.{◌≡◌, ◌∷◌, ◌+◌, ◌*◌, ◌≤◌, ◌<◌, length, get_or};
ghost use Rattle.std.proofs.lemmas.List.Edits.{sets};
ghost use Rattle.model.specs.Store.{staged_kinds, bytes_of};
ghost use Rattle.model.specs.Commands.{TAKE};
ghost use Rattle.model.specs.Run.{does};
ghost use Rattle.words.specs.Shape.{words_in, shape_of};
ghost use Rattle.values.specs.Values.{value_of};
ghost use Rattle.model.specs.Model.{entity};
ghost use Rattle.memory.specs.Meaning.{meaning};
ghost use Rattle.memory.specs.Arranged.{Sound};
ghost use Rattle.world.specs.Remove.{Staged};
ghost use Rattle.command.specs.Acted.{Ready, Acted};
ghost use Rattle.command_take.specs.Take.{TakesKind, TakesStaged, Takes};

use command::answers::{ack, refuse};
use control::lists::{KindsInWords, StagedKinds};
use model::WORD_BYTES;
use model::refusals::Refusal;
use values::Value;
use words::{Entity, Found, Shape, Width};
use world::component_set;

// The byte held and the bytes of the value's words, at `at`.
fn put_held(out: &mut [u8], at: usize, width: Width, held: u8, x: Value)
    requires { at + (1 + WORD_BYTES * words_in width) ≤ length out.old }
    ensures { out.new ≡ sets out.old at (held ∷ bytes_of (WORD_BYTES * words_in width) (value_of (words_in width) x)) }
{
    out[at] = held;
    values::put_bytes(out, at + 1, width, x);
}

// The entity's component of the staged kind at i goes, and is written out; z is the store's shape.
fn take_one(words: &mut [u32], z: Shape, i: usize, e: Entity, out: &mut [u8], at: usize)
    requires staged { Staged words.old }
    requires shape_is { z ≡ shape_of words.old }
    requires i_in_bounds { i < length (meaning words.old).control.staged }
    requires room { at + (1 + WORD_BYTES * z.stride) ≤ length out.old }
    ensures { TakesKind words.old words.new out.old out.new (entity e.index e.version) (get_or (staged_kinds (meaning words.old)) i 0) at }
{
    match component_set::remove_one(words, z, i, e) {
        Some(x) => put_held(out, at, z.width(), 1, x),
        None => put_held(out, at, z.width(), 0, values::zero()),
    }
}

// Its components of all staged kinds go, and are written out; no group is walked.
fn take_staged(words: &mut [u32], z: Shape, e: Entity, out: &mut [u8], at: usize) -> usize
    requires staged { Staged words.old }
    requires shape_is { z ≡ shape_of words.old }
    requires room { at + (1 + (meaning words.old).settings.value_bytes) * length (meaning words.old).control.staged ≤ length out.old }
    ensures { TakesStaged words.old words.new out.old out.new (entity e.index e.version) at result }
{
    let n = StagedKinds::len(words);
    let len = 1 + WORD_BYTES * z.stride;
    for i in 0..n {
        take_one(words, z, i, e, out, at + len * i);
    }
    len * n
}

// The groups that have a staged kind are left; then the components go, and are written out.
fn take_out(words: &mut [u32], e: Entity, out: &mut [u8], at: usize) -> usize
    requires sound { Sound words.old }
    requires room { at + (1 + (meaning words.old).settings.value_bytes) * length (meaning words.old).control.staged ≤ length out.old }
    ensures { Takes words.old words.new out.old out.new (entity e.index e.version) at result }
{
    let z = words::shape_of(words);
    component_set::ungroup_staged(words, z, e);
    take_staged(words, z, e, out, at)
}

// TAKE: a live entity's components of the staged kinds go, and are told.
pub fn take(words: &mut [u32], e: Entity, out: &mut [u8], at: usize) -> usize
    requires { Ready words.old out.old at (TAKE (entity e.index e.version)) }
    ensures { Acted words.old words.new out.old out.new at result (does (TAKE (entity e.index e.version)) (meaning words.old)) }
{
    let found = control::entities::get(words, e);
    let Found::At(place) = found else {
        return refuse(words, out, at, Refusal::Dead);
    };
    ack(out, at);
    let written = take_out(words, e, out, at + 1);
    control::staged::clear_staged(words);
    1 + written
}
