//! Texts that are read from their start.
#![tactic(auto)]

ghost use Rattle.std.specs.Prelude.{◌≡◌, ◌≤◌, ◌∷◌, [], ℕ, List, MatchOption, drop, length, take};
ghost use Rattle.uefi_node_reader.specs.TableReading.{is_empty};

/// A text that is read from its start. A contract sees it as the bytes of its UTF-8, `T.bytes text`.
pub trait Text: Copy {
    ghost bytes: { Self → List ℕ };

    /// Returns the first byte and the rest of the text, or `None` if the text is empty.
    fn split_first(self) -> Option<(u8, Self)>
        ensures { MatchOption result (bytes self ≡ []) (λ x. bytes self ≡ x.0 ∷ bytes x.1) };

    /// Returns the number of bytes.
    fn len(self) -> usize
        ensures { result ≡ length (bytes self) };

    /// Splits the text after its first `count` bytes.
    fn split_at(self, count: usize) -> (Self, Self)
        requires { count ≤ length (bytes self) }
        ensures front { bytes result.0 ≡ take count (bytes self) }
        ensures back { bytes result.1 ≡ drop count (bytes self) };
}

/// A text of bytes.
impl Text for &[u8] {
    ghost bytes = { λ text. text.now };

    #[inline(always)]
    fn split_first(self) -> Option<(u8, Self)> {
        match self {
            [first, rest @ ..] => Some((*first, rest)),
            [] => None,
        }
    }

    #[inline(always)]
    fn len(self) -> usize {
        <[u8]>::len(self)
    }

    #[inline(always)]
    fn split_at(self, count: usize) -> (Self, Self) {
        <[u8]>::split_at(self, count)
    }
}

/// Returns whether a text is empty.
pub fn is_empty<T: Text>(text: T) -> bool
    ensures { result ≡ is_empty (T.bytes text) }
{
    text.split_first().is_none()
}
