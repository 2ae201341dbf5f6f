//! Borrowed strings of Latin-1, and calls on Rust texts of Latin-1.
#![tactic(auto, unfolding(crate::specs::Views::bytes_of))]

ghost use Rattle.std.specs.Prelude.{◌≡◌, ◌≢◌, ◌<◌, ◌+◌, ◌^◌, ◌↔◌, All, length, IsTrue, IsOk, IfOk, nat_eq, Some};
ghost use Rattle.std.specs.Result.{result_err};
ghost use Rattle.std.specs.Str.{chars, encode_utf8_all};
ghost use Rattle.uefi_text.specs.Units.{nul_terminated, without_nul};
ghost use Rattle.uefi_text.specs.Latin1.{IsLatin1, IsLatin1String};
ghost use Rattle.uefi_text.specs.FromSliceWithNul.{first_nul_refusal};
ghost use Rattle.std.specs.Cmp.{on_per, partial_equiv_from_equiv, on_po};
ghost use Rattle.std.specs.Cmp.Lexicographic.{nat_list_eq_equiv, pointwise, on_texts_equal, slice_cmp, texts_po, on_texts, texts_ties};
ghost use Rattle.std.specs.Ordering.{nat_cmp, as_partial_cmp, on};
ghost use Rattle.std.proofs.Common.{refl};

use crate::chars::Char8;
use crate::decode::{PRINTED, write_latin1};
use crate::errors::FromSliceWithNulError;
use crate::scan::{find_zero, has_byte_beyond_latin1, has_zero};
use crate::strings::eq_str_until_nul::EqStrUntilNul;
use std::cmp::Ordering;
use std::fmt;
use std::hash::{Hash, Hasher};

/// A borrowed string of Latin-1: a view of bytes of which only the last is zero. A contract sees it
/// as `bytes_of` it: all its bytes, including the zero. No call on it allocates.
#[derive(Clone, Copy)]
pub struct CStr8<'a> {
    bytes: &'a [u8],
    pub ghost is_string: { IsLatin1String bytes.now },
}

impl<'a> CStr8<'a> {
    ghost use Rattle.uefi_text.specs.Views.{bytes_of};

    /// Borrows all of the bytes as a string.
    ///
    /// The first zero decides. At the last index it ends the string. At an earlier index it is
    /// refused as `InteriorNul` with that index, even if the bytes don't end in zero. If there is
    /// no zero, the result is `NotNulTerminated`.
    ///
    /// ```rust
    /// let name = CStr8::from_bytes_with_nul(b"Boot\0")?;
    /// assert_eq!(rt; name.as_bytes(), b"Boot\0".as_slice());
    /// let refused = CStr8::from_bytes_with_nul(b"Bo\0t\0");
    /// assert_eq!(rt; refused.err(), Some(FromSliceWithNulError::InteriorNul(2)));
    /// ```
    pub fn from_bytes_with_nul(chars: &'a [u8]) -> Result<CStr8<'a>, FromSliceWithNulError>
        ensures ok { IfOk result (λ string. bytes_of string ≡ chars.now) }
        ensures accepts { IsOk result ↔ IsLatin1String chars.now }
        ensures refusal { result_err result ≡ first_nul_refusal chars.now }
    {
        let Some(place) = find_zero(chars) else {
            return Err(FromSliceWithNulError::NotNulTerminated);
        };
        if place + 1 != chars.len() {
            return Err(FromSliceWithNulError::InteriorNul(place));
        }
        Ok(CStr8 { bytes: chars })
    }

    /// Returns the bytes of the string, including the zero.
    ///
    /// See [`CStr8::from_bytes_with_nul`].
    pub fn as_bytes(&self) -> &'a [u8]
        ensures { result.now ≡ bytes_of self.now }
    {
        self.bytes
    }

    /// The bytes before the zero.
    pub(crate) fn text(&self) -> &'a [u8]
        ensures { result.now ≡ without_nul (bytes_of self.now) }
    {
        &self.bytes[..self.bytes.len() - 1]
    }
}

/// Two strings are equal exactly when their bytes are.
impl<'a> PartialEq for CStr8<'a> {
    ghost use Rattle.uefi_text.specs.Views.{bytes_of};

    ghost eq = { λ a b. pointwise nat_eq (bytes_of a) (bytes_of b) };

    ghost laws = { on_per bytes_of (partial_equiv_from_equiv nat_list_eq_equiv) };

    fn eq(&self, other: &Self) -> bool {
        self.bytes == other.bytes
    }
}

impl<'a> Eq for CStr8<'a> {
    ghost use Rattle.uefi_text.specs.Views.{bytes_of};

    ghost laws = { on_texts_equal bytes_of };
}

/// Compares the bytes, in list order.
impl<'a> PartialOrd for CStr8<'a> {
    ghost use Rattle.uefi_text.specs.Views.{bytes_of};

    ghost partial_cmp = { as_partial_cmp (on bytes_of (slice_cmp nat_cmp)) };

    ghost laws = { on_po bytes_of texts_po };

    fn partial_cmp(&self, other: &Self) -> Option<Ordering> {
        Some(self.cmp(other))
    }
}

/// Returns `Equal` exactly for equal strings.
impl<'a> Ord for CStr8<'a> {
    ghost use Rattle.uefi_text.specs.Views.{bytes_of};

    ghost cmp = { on bytes_of (slice_cmp nat_cmp) };

    ghost total = { on_texts bytes_of };

    ghost matches_partial_cmp = { λ _ _. refl };

    ghost matches_eq = { λ a b. texts_ties (bytes_of a) (bytes_of b) };

    fn cmp(&self, other: &Self) -> Ordering {
        self.bytes.cmp(&other.bytes)
    }
}

/// Hashes the bytes, so that equal strings hash alike.
impl<'a> Hash for CStr8<'a> {
    ghost use Rattle.std.proofs.Common.{rules};
    ghost use Rattle.std.specs.Hash as fed;
    ghost use Rattle.std.specs.Cmp.Rules.{comparing, hashing};
    ghost use Rattle.uefi_text.specs.Views.{bytes_of};

    ghost hash_input = { λ a. fed.slice fed.u8 (bytes_of a) };

    ghost respects_eq = { Prim.search (hashing, comparing, rules) };

    fn hash<H: Hasher>(&self, state: &mut H) {
        self.bytes.hash(state);
    }
}

/// Writes the character of each byte before the zero.
impl<'a> fmt::Display for CStr8<'a> {
    ghost use Rattle.uefi_text.specs.Views.{bytes_of};

    ghost output = { λ string. Some (encode_utf8_all (without_nul (bytes_of string))) };

    fn fmt<W: fmt::Write>(&self, f: &mut fmt::Formatter<W>) -> fmt::Result {
        let text = self.text();
        let mut room = [0; 3 * PRINTED];
        let mut start = 0;
        while start < text.len() {
            let end = start + PRINTED.min(text.len() - start);
            let len = write_latin1(&mut room, &text[start..end]);
            // SAFETY: the bytes are UTF-8, which is proved here as the condition of the call.
            f.write_str(unsafe { str::from_utf8_unchecked(&room[..len]) })?;
            start = end;
        }
        Ok(())
    }
}

/// Prints the characters, each as a Rust character.
impl<'a> fmt::Debug for CStr8<'a> {
    fn fmt<W: fmt::Write>(&self, f: &mut fmt::Formatter<W>) -> fmt::Result {
        f.write_str("CStr8(")?;
        let mut list = f.debug_list();
        for byte in self.text() {
            list.entry(&Char8::from(*byte));
        }
        list.finish()?;
        f.write_str(")")
    }
}

/// Compares the characters of the bytes before the zero.
impl<'a> EqStrUntilNul for CStr8<'a> {
    ghost use Rattle.uefi_text.specs.Views.{bytes_of};

    ghost characters = { λ string. without_nul (bytes_of string) };

    fn eq_str_until_nul(&self, other: &str) -> bool {
        let mut characters = other.chars();
        for byte in self.text() {
            let Some(character) = characters.next() else {
                return true;
            };
            if character == '\0' {
                return true;
            }
            if char::from(*byte) != character {
                return false;
            }
        }
        true
    }
}

/// Returns whether every character of a Rust text is Latin-1: at most U+00FF. Does not allocate.
///
/// ```rust
/// assert!(rt; is_latin1("café"));
/// assert!(rt; !is_latin1("5 €"));
/// ```
#[tactic(auto, using(crate::proofs::Utf8Bytes::latin1_bytes))]
pub fn is_latin1(s: &str) -> bool
    ensures { IsTrue result ↔ IsLatin1 (chars s.now) }
{
    !has_byte_beyond_latin1(s.as_bytes())
}

/// Returns whether no character of a Rust text is NUL. Does not allocate.
///
/// ```rust
/// assert!(rt; has_no_nul("Boot"));
/// assert!(rt; !has_no_nul("Boot\0"));
/// ```
#[tactic(auto, using(crate::proofs::Utf8Bytes::no_zero_bytes))]
pub fn has_no_nul(s: &str) -> bool
    ensures { IsTrue result ↔ All (λ c. c ≢ 0) (chars s.now) }
{
    !has_zero(s.as_bytes())
}

/// Returns the number of characters of a Rust text of Latin-1, including any NULs. This is the
/// number of bytes that the text takes in Latin-1. [`is_latin1`] tests the condition. Does not
/// allocate.
///
/// ```rust
/// assert_eq!(rt; str_num_latin1_chars("café"), 4);
/// assert_eq!(rt; str_num_latin1_chars("a\0"), 2);
/// ```
#[tactic(auto, using(std::proofs::lemmas::Str::chars_from_encodes))]
pub fn str_num_latin1_chars(s: &str) -> usize
    requires { IsLatin1 (chars s.now) }
    ensures count { result ≡ length (chars s.now) }
    ensures bound { result + 1 < 2 ^ 64 }
{
    let _bytes = s.len();
    s.chars().count()
}

/// Encodes a Rust text of Latin-1 that contains no NUL: one byte for each character, followed by a
/// NUL. `N` must be the number of characters plus one. Does not allocate.
///
/// [`is_latin1`], [`has_no_nul`] and [`str_num_latin1_chars`] test the conditions.
///
/// ```rust
/// let bytes: [u8; 5] = str_to_latin1("café");
/// assert_eq!(rt; bytes, [0x63, 0x61, 0x66, 0xe9, 0]);
/// ```
pub fn str_to_latin1<const N: usize>(s: &str) -> [u8; N]
    requires latin1 { IsLatin1 (chars s.now) }
    requires no_nul { All (λ c. c ≢ 0) (chars s.now) }
    requires fits { length (chars s.now) + 1 ≡ N }
    ensures { result ≡ nul_terminated (chars s.now) }
{
    let mut bytes = [0; N];
    for (place, character) in s.chars().enumerate() {
        bytes[place] = character as u8;
    }
    bytes
}
