//! Texts that are read from their start, and places that letters or bytes are put into.
#![tactic(auto)]

ghost use Rattle.std.specs.Prelude.{◌≡◌, ◌∷◌, ◌++◌, [], ℕ, List, MatchOption, length};

/// A text that is read from its start. A contract sees it as its letters, `T.codes text`.
pub trait Text: Copy {
    ghost codes: { Self → List ℕ };

    /// Returns the first letter and the rest of the text, or `None` if the text is empty.
    fn split_first(self) -> Option<(u8, Self)>
        ensures { MatchOption result (codes self ≡ []) (λ x. codes self ≡ x.0 ∷ codes x.1) };

    /// Returns the number of letters.
    fn len(self) -> usize
        ensures { result ≡ length (codes self) };
}

/// A text of bytes.
impl Text for &[u8] {
    ghost codes = { λ text. text.now };

    fn split_first(self) -> Option<(u8, Self)> {
        match self {
            [first, rest @ ..] => Some((*first, rest)),
            [] => None,
        }
    }

    fn len(self) -> usize {
        <[u8]>::len(self)
    }
}

/// What letters or bytes are put into. A contract sees it as what it contains, `S.content sink`.
pub trait Sink {
    ghost content: { Self → List ℕ };

    /// Adds a letter or a byte.
    fn put(&mut self, code: u8)
        ensures { content self.new ≡ content self.old ++ code ∷ [] };
}
