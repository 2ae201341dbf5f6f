//! Calls in upper case and without blanks, and where their bytes are in the text.
#![tactic(auto)]

ghost use Rattle.std.specs.Option.{option_map};
ghost use Rattle.std.specs.Prelude.{◌≡◌, ◌+◌, ◌<◌, ◌≤◌, ◌==◌, ℕ, List, Some, drop, length, take};
ghost use Rattle.std.specs.List.{list_any};
ghost use Rattle.uefi_node_reader.specs.LenientCalls.{cut_call, from_mark, is_blank, place_at, tidied, tidied_byte, tidied_rest};
ghost use Rattle.uefi_node_reader.specs.Mistakes.{past_mark};

use crate::named_files::NameText;
use crate::texts::Text;

/// Returns whether a byte of a call is skipped: a blank, a line end, or a brace around a GUID.
pub(crate) fn is_blank(byte: u8) -> bool
    ensures { result ≡ is_blank byte }
{
    byte.is_ascii_whitespace() || byte == b'{' || byte == b'}'
}

/// Returns a byte in upper case, except for `x`, which the table has in `0x`.
fn tidied_byte(byte: u8) -> u8
    ensures { result ≡ tidied_byte byte }
{
    match byte.to_ascii_uppercase() {
        b'X' => b'x',
        upper => upper,
    }
}

/// A call in upper case except for `x`, without blanks, and with its `)`.
#[derive(Clone, Copy)]
pub struct Tidied<T: NameText> {
    /// The part of the call before its `)`.
    text: T,
    /// Whether the `)` follows.
    is_open: bool,
}

/// Returns the tidied call with this text before its `)`.
pub(crate) fn tidy<T: NameText>(text: T) -> Tidied<T>
    ensures { ⟦<Tidied<T> as Text>⟧.bytes result ≡ tidied (T.bytes text) }
{
    Tidied {
        text,
        is_open: true,
    }
}

/// The tidied bytes.
impl<T: NameText> Text for Tidied<T> {
    ghost bytes = { λ call. tidied_rest call.is_open (T.bytes call.text) };

    fn split_first(self) -> Option<(u8, Self)> {
        let mut rest = self.text;
        'blanks: while let Some((byte, text)) = rest.split_first() {
            if !is_blank(byte) {
                let after = Tidied {
                    text,
                    is_open: self.is_open,
                };
                return Some((tidied_byte(byte), after));
            }
            rest = text;
        }
        if !self.is_open {
            return None;
        }
        let end = Tidied {
            text: rest,
            is_open: false,
        };
        Some((b')', end))
    }

    fn len(self) -> usize {
        let mut len = 0;
        let mut rest = self.text;
        'bytes: for _ in 1..self.text.len_with_end() {
            if let Some((byte, after)) = rest.split_first() {
                if !is_blank(byte) {
                    len += 1;
                }
                rest = after;
            }
        }
        if self.is_open { len + 1 } else { len }
    }

    fn split_at(self, count: usize) -> (Self, Self) {
        let (front, back) = self.text.split_at(place_at(count, self.text));
        let is_whole = self.is_open && count == self.len();
        (
            Tidied {
                text: front,
                is_open: is_whole,
            },
            Tidied {
                text: back,
                is_open: self.is_open && !is_whole,
            },
        )
    }
}

/// Returns the text from the first of these bytes on.
fn from_mark<T: Text>(mark: u8, text: T) -> Option<T>
    ensures { option_map T.bytes result ≡ from_mark mark (T.bytes text) }
{
    let mut rest = text;
    'bytes: while let Some((byte, after)) = rest.split_first() {
        if byte == mark {
            return Some(rest);
        }
        rest = after;
    }
    None
}

/// Returns whether a text contains this byte.
pub(crate) fn has_mark<T: Text>(mark: u8, text: T) -> bool
    ensures { result ≡ list_any (λ c. c == mark) (T.bytes text) }
{
    from_mark(mark, text).is_some()
}

/// Returns the text after the first of these bytes, or an empty text.
pub(crate) fn past_mark<T: Text>(mark: u8, text: T) -> T
    ensures { T.bytes result ≡ past_mark mark (T.bytes text) }
{
    let mut rest = text;
    'bytes: while let Some((byte, after)) = rest.split_first() {
        if byte == mark {
            return after;
        }
        rest = after;
    }
    rest
}

/// Splits a text before the first byte of `rest`, which the text ends with, and omits that byte.
pub(crate) fn cut_before<T: Text>(text: T, rest: T) -> Option<(T, T)>
    ensures { (place : ℕ) → T.bytes rest ≡ drop place (T.bytes text) → place < length (T.bytes text)
        → option_map {U = List ℕ × List ℕ} (λ x. (T.bytes x.0, T.bytes x.1)) result
        ≡ Some (take place (T.bytes text), drop (place + 1) (T.bytes text)) }
{
    let (_, back) = rest.split_first()?;
    let (front, _) = text.split_at(text.len().saturating_sub(rest.len()));
    Some((front, back))
}

/// Splits a text at its first `)`, and omits that byte.
pub(crate) fn cut_call<T: Text>(text: T) -> Option<(T, T)>
    ensures { option_map (λ x. (T.bytes x.0, T.bytes x.1)) result ≡ cut_call (T.bytes text) }
{
    cut_before(text, from_mark(b')', text)?)
}

/// Returns the index of the byte that this many other bytes precede, not counting blanks.
pub(crate) fn place_at<T: Text>(count: usize, text: T) -> usize
    ensures place { result ≡ place_at count (T.bytes text) }
    ensures within { result ≤ length (T.bytes text) }
{
    let mut left = count;
    let mut rest = text;
    for place in 0..text.len() {
        if let Some((byte, after)) = rest.split_first() {
            if !is_blank(byte) {
                if left == 0 {
                    return place;
                }
                left -= 1;
            }
            rest = after;
        }
    }
    text.len()
}
