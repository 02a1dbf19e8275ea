// Kinds in the front of an array: a list of up to `N` of them that needs no heap.
#![tactic(auto)]

ghost use Rattle.std.specs.Prelude.{◌≡◌, ℕ, ◌+◌, ◌<◌, ◌≤◌, List, [], ◌∷◌, ◌++◌, length, take};

use std::marker::Model;

/// A list of at most `N` kinds, seen as the list of them.
#[derive(Clone, Debug, Drop)]
pub struct KindList<const N: usize> {
    kinds: [u8; N],
    len: usize,
}

impl<const N: usize> Model for KindList<N> {
    ghost Value = { List ℕ };

    ghost view = { λ l. take l.len l.kinds };

    ghost invariant = { λ l. l.len ≤ N };
}

impl<const N: usize> KindList<N> {
    /// The list of no kind.
    pub fn new() -> Self
        ensures { result ≡ [] }
    {
        KindList {
            kinds: [0; N],
            len: 0,
        }
    }

    /// Puts a kind at the end.
    pub fn push(&mut self, kind: u8)
        requires { length self.old < N }
        ensures { self.new ≡ self.old ++ kind ∷ [] }
    {
        self.kinds[self.len] = kind;
        self.len += 1;
    }

    /// Puts kinds at the end, in their order.
    pub fn extend_from_slice(&mut self, more: &[u8])
        requires { length self.old + length more.now ≤ N }
        ensures { self.new ≡ self.old ++ more.now }
    {
        let end = self.len + more.len();
        let kinds = &mut self.kinds[..];
        kinds[self.len..end].copy_from_slice(more);
        self.len = end;
    }

    /// The kinds, in their order.
    pub fn as_slice(&self) -> &[u8]
        ensures { result.now ≡ self.now }
    {
        &self.kinds[..self.len]
    }
}

impl<const N: usize> Default for KindList<N> {
    fn default() -> Self
        ensures { result ≡ [] }
    {
        KindList::new()
    }
}
