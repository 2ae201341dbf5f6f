//! Sinks of characters: a [`String`], an [`ArrayString`] with a fixed capacity, or a caller's own
//! type. A call that writes to a sink relies only on the trait's clauses.
ghost use Rattle.std.specs.Prelude.{◌≡◌, ℕ, ◌+◌, ◌<◌, ◌≤◌, ◌++◌, ◌↔◌, List, IsOk, OnErr, OnOk, encode_utf8, false, length, string_bytes, true, ⊤};

use arrayvec::ArrayString;
use std::alloc::Allocator;
use std::fmt;

/// A sink that characters can be written to. A contract sees a sink as `text` of it: its contents
/// in UTF-8.
///
/// ```rust
/// use arrayvec::ArrayString;
///
/// let mut label = ArrayString::<3>::new();
/// assert!(rt; label.write_whole("ab") && label.write_char('c').is_ok());
/// assert!(rt; label.write_char('d').is_err() && !label.write_whole("d"));
/// assert_eq!(rt; label.as_str(), "abc");
/// ```
pub trait CharSink {
    /// The contents, in UTF-8.
    ghost text: { Self → List ℕ };

    /// Whether a character may be refused after a text. An implementation states here when it may.
    ghost may_refuse: { List ℕ → ℕ → Type 0 };

    /// Appends a character. On an error the text is unchanged.
    fn write_char(&mut self, c: char) -> fmt::Result
        ensures ok { OnOk result (text self.new ≡ text self.old ++ encode_utf8 c) }
        ensures err { OnErr result (text self.new ≡ text self.old) }
        ensures refused { OnErr result (may_refuse (text self.old) c) };

    /// Appends a whole Rust text and returns `true`, or returns `false` and leaves the text
    /// unchanged. If it returns `false`, the caller appends the characters one by one, up to the
    /// first that is refused. The default always returns `false`.
    fn write_whole(&mut self, string: &str) -> bool
        ensures all { result ≡ true → text self.new ≡ text self.old ++ string.now }
        ensures none { result ≡ false → text self.new ≡ text self.old }
    {
        false
    }
}

/// Any character may be refused, because no contract can state that an allocation succeeds. It is
/// refused only if memory runs out.
impl<A: Allocator> CharSink for String<A> {
    ghost text = { string_bytes };

    ghost may_refuse = { λ _ _. ⊤ };

    fn write_char(&mut self, c: char) -> fmt::Result {
        match self.push(c) {
            Ok(()) => Ok(()),
            Err(_) => Err(fmt::Error),
        }
    }

    /// Does not allocate: returns `false` for a text that needs more memory.
    fn write_whole(&mut self, string: &str) -> bool {
        string.len() <= self.capacity() - self.len() && self.push_str(string).is_ok()
    }
}

/// Refuses a character exactly if the text with it would be longer than `N` bytes. Does not
/// allocate.
impl<const N: usize> CharSink for ArrayString<N> {
    ghost text = { λ string. string.bytes };

    ghost may_refuse = { λ text c. N < length text + length (encode_utf8 c) };

    fn write_char(&mut self, c: char) -> fmt::Result
        ensures ok { OnOk result (self.new.bytes ≡ self.old.bytes ++ encode_utf8 c) }
        ensures err { OnErr result (self.new.bytes ≡ self.old.bytes) }
        ensures refused { OnErr result (N < length self.old.bytes + length (encode_utf8 c)) }
        ensures exact { IsOk result ↔ (length self.old.bytes + length (encode_utf8 c) ≤ N) }
    {
        match self.try_push(c) {
            Ok(()) => Ok(()),
            Err(_) => Err(fmt::Error),
        }
    }

    fn write_whole(&mut self, string: &str) -> bool {
        self.try_push_str(string).is_ok()
    }
}
