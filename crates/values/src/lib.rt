// The values of components (01: parts) in words and in bytes. Of a value's words and bytes no other code stores or reads any: they are two words or, where 02's No. 13 asks for
// sixteen bytes, four.
#![tactic(auto)]

ghost use Rattle.std.specs.Prelude.{◌≡◌, ℕ, ◌+◌, ◌*◌, ◌≤◌, length, take, drop};
ghost use Rattle.std.proofs.lemmas.List.Edits.{sets};
ghost use Rattle.model.specs.Store.{bytes_of, number};
ghost use Rattle.words.specs.Shape.{words_in};
ghost use Rattle.values.specs.Values.{words_of, value_of};

use words::Width;

// A value, its lowest word first. One of two words has them first, and then zeros. Four fields and no array: that there are four is in the type, where an
// array's length would be one more fact of each proof, and a value goes by value wherever a row moves.
#[derive(Clone, Copy, PartialEq, Eq, Debug)]
pub struct Value {
    pub first: u32,
    pub second: u32,
    pub third: u32,
    pub fourth: u32,
}

// The value 0, of either length.
pub fn zero() -> Value
    ensures { (d : ℕ) → value_of d result ≡ 0 }
{
    Value {
        first: 0,
        second: 0,
        third: 0,
        fourth: 0,
    }
}

// The value in the words at `at`.
pub fn get(words: &[u32], at: usize, width: Width) -> Value
    requires { at + words_in width ≤ length words.now }
    ensures { words_of (words_in width) result ≡ take (words_in width) (drop at words.now) }
{
    let first = words[at];
    let second = words[at + 1];
    match width {
        Width::Short => Value {
            first,
            second,
            third: 0,
            fourth: 0,
        },
        Width::Long => Value {
            first,
            second,
            third: words[at + 2],
            fourth: words[at + 3],
        },
    }
}

// The words of x, at `at`.
pub fn put(words: &mut [u32], at: usize, width: Width, x: Value)
    requires { at + words_in width ≤ length words.old }
    ensures { words.new ≡ sets words.old at (words_of (words_in width) x) }
{
    words[at] = x.first;
    words[at + 1] = x.second;
    if width == Width::Long {
        words[at + 2] = x.third;
        words[at + 3] = x.fourth;
    }
}

// The value in the bytes at `at`, four for each of its words.
pub fn get_bytes(bytes: &[u8], at: usize, width: Width) -> Value
    requires { at + 4 * words_in width ≤ length bytes.now }
    ensures { value_of (words_in width) result ≡ number (take (4 * words_in width) (drop at bytes.now)) }
{
    let first = codec::get::<4>(bytes, at);
    let second = codec::get::<4>(bytes, at + 4);
    match width {
        Width::Short => Value {
            first,
            second,
            third: 0,
            fourth: 0,
        },
        Width::Long => Value {
            first,
            second,
            third: codec::get::<4>(bytes, at + 8),
            fourth: codec::get::<4>(bytes, at + 12),
        },
    }
}

// The bytes of x, four for each of its words, at `at`.
pub fn put_bytes(out: &mut [u8], at: usize, width: Width, x: Value)
    requires { at + 4 * words_in width ≤ length out.old }
    ensures { out.new ≡ sets out.old at (bytes_of (4 * words_in width) (value_of (words_in width) x)) }
{
    codec::put::<4>(out, at, x.first);
    codec::put::<4>(out, at + 4, x.second);
    if width == Width::Long {
        codec::put::<4>(out, at + 8, x.third);
        codec::put::<4>(out, at + 12, x.fourth);
    }
}
