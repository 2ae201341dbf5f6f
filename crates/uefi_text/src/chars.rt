//! Characters of Latin-1 and of UCS-2, and their constants.
//!
//! A [`Char8`] is any byte, and a [`Char16`] is any code unit that is not a surrogate. The fields
//! of both are private to this module, so this module defines the constants for all crates.
//! `specs/Units.antt` defines code units, texts and NUL-terminated strings.

ghost use Rattle.std.specs.Prelude.{◌≡◌, ◌<◌, ◌^◌, ◌↔◌, IsTrue, Some, codes, encode_utf8};
ghost use Rattle.std.specs.Result.{OkIff};
ghost use Rattle.uefi_text.specs.Units.{IsChar16, denied_characters, is_surrogate};

use crate::text_sink::{Printed, TextSink, print};
use std::error::Error;
use std::fmt;
use std::marker::Model;

/// The error of a conversion to a character that the target type does not have.
#[derive(Clone, Copy, Debug, PartialEq, Eq)]
pub struct CharConversionError;

/// Puts the text `CharConversionError`.
impl Printed for CharConversionError {
    ghost printed = { λ _. codes "CharConversionError" };

    fn put<S: TextSink>(&self, sink: &mut S) {
        sink.put_str("CharConversionError");
    }
}

/// Prints the same text.
impl fmt::Display for CharConversionError {
    ghost output = { λ _. Some (codes "CharConversionError") };

    fn fmt<W: fmt::Write>(&self, f: &mut fmt::Formatter<W>) -> fmt::Result {
        print(f, self)
    }
}

impl Error for CharConversionError {}

/// A character of Latin-1: any byte. It is compared and hashed by its number, and its default is
/// NUL. A contract sees it as its number. No call on it allocates.
#[derive(Clone, Copy, PartialEq, Eq, PartialOrd, Ord, Hash)]
pub struct Char8 {
    byte: u8,
}

impl Model for Char8 {
    ghost use Rattle.std.specs.Prelude.{ℕ, ◌<◌, ◌^◌};

    ghost Value = { ℕ };

    ghost view = { λ c. c.byte };

    ghost invariant = { λ c. c.byte < 2 ^ 8 };

    ghost inverse = { λ number. record { byte = number } };
}

impl Char8 {
    /// Returns whether this character and a Rust character have the same number.
    ///
    /// ```rust
    /// assert!(rt; Char8::from(0xe9).eq_char('é'));
    /// assert!(rt; !Char8::from(0xe9).eq_char('e'));
    /// ```
    pub fn eq_char(&self, other: char) -> bool
        ensures { IsTrue result ↔ (self.now ≡ other) }
    {
        u32::from(self.byte) == u32::from(other)
    }
}

/// The default is NUL.
impl Default for Char8 {
    ghost is_default = { λ c. c ≡ 0 };

    fn default() -> Self {
        NUL_8
    }
}

/// Returns `Ok` exactly for the characters up to U+00FF, which keep their number, and otherwise
/// `CharConversionError`.
impl TryFrom<char> for Char8 {
    type Error = CharConversionError;

    ghost try_from_gives = { λ value result. OkIff result (value < 2 ^ 8) value };

    fn try_from(value: char) -> Result<Self, CharConversionError> {
        let number = u32::from(value);
        if number <= 0xff {
            Ok(Char8 { byte: number as u8 })
        } else {
            Err(CharConversionError)
        }
    }
}

/// The number stays the same.
impl From<u8> for Char8 {
    ghost from_gives = { λ value result. result ≡ value };

    fn from(value: u8) -> Self {
        Char8 { byte: value }
    }
}

/// The number stays the same.
impl From<Char8> for u8 {
    ghost from_gives = { λ value result. (result ≡ value) × (value < 2 ^ 8) };

    fn from(value: Char8) -> u8 {
        value.byte
    }
}

/// The number stays the same.
impl From<Char8> for char {
    ghost from_gives = { λ value result. result ≡ value };

    fn from(value: Char8) -> char {
        char::from(value.byte)
    }
}

/// Writes the character.
impl fmt::Display for Char8 {
    ghost output = { λ c. Some (encode_utf8 c) };

    fn fmt<W: fmt::Write>(&self, f: &mut fmt::Formatter<W>) -> fmt::Result {
        f.write_char(char::from(self.byte))
    }
}

/// Prints what the Rust character with the same number prints.
impl fmt::Debug for Char8 {
    fn fmt<W: fmt::Write>(&self, f: &mut fmt::Formatter<W>) -> fmt::Result {
        fmt::Debug::fmt(&char::from(*self), f)
    }
}

/// The character that ends a string of Latin-1.
pub const NUL_8: Char8 = Char8 { byte: 0 };

/// A character of UCS-2: a code unit that is not a surrogate (UEFI Specification 2.10, section
/// 2.3.1). It is compared and hashed by its number, and its default is NUL. A contract sees it as
/// its number. No call on it allocates.
#[derive(Clone, Copy, PartialEq, Eq, PartialOrd, Ord, Hash)]
pub struct Char16 {
    unit: u16,
}

impl Model for Char16 {
    ghost use Rattle.std.specs.Prelude.{ℕ};
    ghost use Rattle.uefi_text.specs.Units.{IsChar16};

    ghost Value = { ℕ };

    ghost view = { λ c. c.unit };

    ghost invariant = { λ c. IsChar16 c.unit };

    ghost inverse = { λ number. record { unit = number } };
}

/// Returns whether a code unit is a surrogate (Unicode Standard, section 3.8).
fn is_surrogate(unit: u16) -> bool
    ensures { result ≡ is_surrogate unit }
{
    0xd800 <= unit && unit <= 0xdfff
}

impl Char16 {
    /// Returns the character of a code unit that is not a surrogate.
    pub(crate) fn from_unit(unit: u16) -> Self
        requires { IsChar16 unit }
        ensures { result ≡ unit }
    {
        Char16 { unit }
    }

    /// Returns the UCS-2 character with the number of a Rust character. Succeeds exactly up to
    /// U+FFFF, and otherwise returns `CharConversionError`.
    ///
    /// ```rust
    /// assert_eq!(rt; Char16::try_from_char('€').map(u16::from), Ok(0x20ac));
    /// assert_eq!(rt; Char16::try_from_char('\u{1f600}'), Err(CharConversionError));
    /// ```
    pub fn try_from_char(value: char) -> Result<Self, CharConversionError>
        ensures { OkIff result (value < 2 ^ 16) value }
    {
        let number = u32::from(value);
        if number <= 0xffff {
            Ok(Char16 {
                unit: number as u16,
            })
        } else {
            Err(CharConversionError)
        }
    }

    /// Returns whether the character is ASCII, which means that its number is at most 127.
    ///
    /// ```rust
    /// assert!(rt; Char16::try_from_char('~')?.is_ascii());
    /// assert!(rt; !Char16::try_from_char('é')?.is_ascii());
    /// ```
    pub fn is_ascii(&self) -> bool
        ensures { IsTrue result ↔ (self.now < 2 ^ 7) }
    {
        self.unit < 0x80
    }

    /// Returns whether this character and a Rust character have the same number.
    ///
    /// ```rust
    /// assert!(rt; Char16::try_from(0x20acu16)?.eq_char('€'));
    /// assert!(rt; !NUL_16.eq_char('0'));
    /// ```
    pub fn eq_char(&self, other: char) -> bool
        ensures { IsTrue result ↔ (self.now ≡ other) }
    {
        u32::from(self.unit) == u32::from(other)
    }
}

/// The default is NUL.
impl Default for Char16 {
    ghost is_default = { λ c. c ≡ 0 };

    fn default() -> Self {
        NUL_16
    }
}

/// Does what [`Char16::try_from_char`] does.
impl TryFrom<char> for Char16 {
    type Error = CharConversionError;

    ghost try_from_gives = { λ value result. OkIff result (value < 2 ^ 16) value };

    fn try_from(value: char) -> Result<Self, CharConversionError> {
        Char16::try_from_char(value)
    }
}

/// Returns `Ok` exactly for the code units that are not surrogates, which keep their number, and
/// otherwise `CharConversionError`.
impl TryFrom<u16> for Char16 {
    type Error = CharConversionError;

    ghost try_from_gives = { λ value result. OkIff result (IsChar16 value) value };

    fn try_from(value: u16) -> Result<Self, CharConversionError> {
        if is_surrogate(value) {
            Err(CharConversionError)
        } else {
            Ok(Char16 { unit: value })
        }
    }
}

/// The number stays the same.
impl From<Char16> for u16 {
    ghost from_gives = { λ value result. (result ≡ value) × IsChar16 value };

    fn from(value: Char16) -> u16 {
        value.unit
    }
}

/// The number stays the same.
impl From<Char16> for char {
    ghost from_gives = { λ value result. result ≡ value };

    fn from(value: Char16) -> char {
        char::from_u32(u32::from(value.unit)).unwrap()
    }
}

/// Writes the character.
impl fmt::Display for Char16 {
    ghost output = { λ c. Some (encode_utf8 c) };

    fn fmt<W: fmt::Write>(&self, f: &mut fmt::Formatter<W>) -> fmt::Result {
        f.write_char(char::from(*self))
    }
}

/// Prints what the Rust character with the same number prints.
impl fmt::Debug for Char16 {
    fn fmt<W: fmt::Write>(&self, f: &mut fmt::Formatter<W>) -> fmt::Result {
        fmt::Debug::fmt(&char::from(*self), f)
    }
}

/// The character that ends a string of UCS-2.
pub const NUL_16: Char16 = Char16 { unit: 0 };

/// The separator between the components of a path, `\`.
pub const SEPARATOR: Char16 = Char16 { unit: 92 };

/// The separator of other systems, `/`, which path buffers replace by [`SEPARATOR`].
pub const SLASH: Char16 = Char16 { unit: 47 };

/// The characters that a file name must not contain: NUL and `"*/:<>?\|`.
pub const CHARACTER_DENY_LIST: [Char16; 10] = [
    NUL_16,
    Char16 { unit: 34 },
    Char16 { unit: 42 },
    SLASH,
    Char16 { unit: 58 },
    Char16 { unit: 60 },
    Char16 { unit: 62 },
    Char16 { unit: 63 },
    SEPARATOR,
    Char16 { unit: 124 },
];

/// Returns the characters of [`CHARACTER_DENY_LIST`] in the same order, by ascending number.
///
/// Public so that a contract can state what the list contains, because no clause can name a
/// constant. Callers use the list.
#[doc(hidden)]
pub fn denied_characters() -> [Char16; 10]
    ensures { result ≡ denied_characters }
{
    CHARACTER_DENY_LIST
}
