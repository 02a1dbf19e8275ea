// The two lists of kinds that a store keeps in its words: the staged kinds and the excluded ones, a hand and a bar.
ghost use Rattle.std.specs.Prelude.{◌≡◌, ℕ, ◌+◌, ◌∷◌, [], ◌<◌, ◌≤◌, List, length, get_or};
ghost use Rattle.model.specs.Numbers.{LIST_CAPACITY, MAX_KINDS};
ghost use Rattle.model.specs.Model.{mem};
ghost use Rattle.model.specs.Store.{Store, staged_kinds};
ghost use Rattle.words.specs.Offsets.{STAGED_LEN, STAGED_KINDS, EXCLUDED_LEN, EXCLUDED_KINDS};
ghost use Rattle.words.specs.Stores.{stores};
ghost use Rattle.memory.specs.Meaning.{meaning};
ghost use Rattle.memory.specs.Arranged.{Arranged};
ghost use Rattle.memory.specs.KindLists.{KeptAt};
ghost use Rattle.memory.proofs.KindLists.{staged_kept, excluded_kept};

use words::{EXCLUDED_KINDS, EXCLUDED_LEN, STAGED_KINDS, STAGED_LEN};

/// A list of kinds in the words: a word counts them, and they stand one after another.
pub trait KindsInWords {
    /// The word that counts them.
    const LEN_AT: usize;

    /// The word of the first.
    const KINDS_AT: usize;

    ghost LEN_AT: { ℕ };

    ghost KINDS_AT: { ℕ };

    ghost kinds: { Store → List ℕ };

    ghost count: { Store → ℕ };

    ghost kept: { KeptAt LEN_AT KINDS_AT kinds count };

    /// How many there are.
    final fn len(words: &[u32]) -> usize
        requires { Arranged words.now }
        ensures is { result ≡ count (meaning words.now) }
        ensures few { result ≤ LIST_CAPACITY }
    {
        words::word(words, Self::LEN_AT)
    }

    /// Whether the kind is among them.
    final fn contains(words: &[u32], kind: usize) -> bool
        requires { Arranged words.now }
        ensures { result ≡ mem kind (kinds (meaning words.now)) }
    {
        let end = Self::KINDS_AT + Self::len(words);
        words[Self::KINDS_AT..end]
            .iter()
            .any(|&word| word as usize == kind)
    }
}

/// The staged kinds.
pub struct StagedKinds;

impl KindsInWords for StagedKinds {
    const LEN_AT: usize = STAGED_LEN;

    const KINDS_AT: usize = STAGED_KINDS;

    ghost LEN_AT = { STAGED_LEN };

    ghost KINDS_AT = { STAGED_KINDS };

    ghost kinds = { staged_kinds };

    ghost count = { λ s. length s.control.staged };

    ghost kept = { staged_kept };
}

/// The excluded kinds.
pub struct ExcludedKinds;

impl KindsInWords for ExcludedKinds {
    const LEN_AT: usize = EXCLUDED_LEN;

    const KINDS_AT: usize = EXCLUDED_KINDS;

    ghost LEN_AT = { EXCLUDED_LEN };

    ghost KINDS_AT = { EXCLUDED_KINDS };

    ghost kinds = { λ s. s.control.excluded };

    ghost count = { λ s. length s.control.excluded };

    ghost kept = { excluded_kept };
}

/// Puts a kind at the end, and answers its place in the list.
pub(crate) fn push<L: KindsInWords>(words: &mut [u32], kind: usize) -> usize
    requires arranged { Arranged words.old }
    requires room { L.count (meaning words.old) < LIST_CAPACITY }
    requires kind_bound { kind < MAX_KINDS }
    ensures place { result ≡ get_or words.old L.LEN_AT 0 }
    ensures stored { words.new ≡ stores words.old ((L.LEN_AT, result + 1) ∷ (L.KINDS_AT + result, kind) ∷ []) }
{
    let place = L::len(words);
    words[L::LEN_AT] = (place + 1) as u32;
    words[L::KINDS_AT + place] = kind as u32;
    place
}
