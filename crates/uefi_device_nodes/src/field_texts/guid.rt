//! GUIDs, which identify vendors, partitions, protocols and the owners of variables.
#![tactic(auto, using(uefi_text::proofs::Puts::puts), unfolding(crate::specs::Guids::guid_text))]

ghost use Rattle.std.specs.Char.{to_ascii_uppercase};
ghost use Rattle.std.specs.Fmt.{digit_glyph};
ghost use Rattle.std.specs.Prelude.{◌≡◌, ℕ, ◌+◌, ◌<◌, ◌↔◌, All, IfNone, IfSome, IsSome, IsTrue, List, length, true, Some};
ghost use Rattle.uefi_device_nodes.specs.Guids.{HasBytes, IsDashed, IsGuid, IsGuidText, StandsAt, guid_text};
ghost use Rattle.uefi_text.specs.Packed.{IsByte};

use crate::field_texts::hexadecimal::{put_back, put_bytes};
use std::fmt;
use std::marker::Model;
use uefi_text::text_sink::{Printed, TextSink, print};

/// The number of bytes of a GUID's text.
const TEXT_LEN: usize = 36;

/// Where the two digits of each byte begin in the text.
const PLACES: [usize; 16] = [6, 4, 2, 0, 11, 9, 16, 14, 19, 21, 24, 26, 28, 30, 32, 34];

/// A GUID, as the 16 bytes of nodes and variables: three numbers with the low byte first, and then
/// bytes in order (UEFI Specification 2.10, appendix A). GUIDs are compared and hashed by these
/// bytes. A contract sees a GUID as the list of its bytes.
#[derive(Clone, Copy, Debug, PartialEq, Eq, PartialOrd, Ord, Hash)]
pub struct Guid([u8; 16]);

impl Model for Guid {
    ghost use Rattle.std.specs.Prelude.{ℕ, List};
    ghost use Rattle.uefi_device_nodes.specs.Guids.{IsGuid};

    ghost Value = { List ℕ };

    ghost view = { λ guid. guid.0 };

    ghost invariant = { λ guid. IsGuid guid.0 };

    ghost inverse = { λ bytes. record { 0 = bytes } };
}

/// Returns the value of a hexadecimal digit in either case, or 16 for another byte.
fn digit_of(byte: u8) -> u8
    ensures is { result < 16 → digit_glyph true result ≡ to_ascii_uppercase byte }
    ensures only { (n : ℕ) → n < 16 → digit_glyph true n ≡ to_ascii_uppercase byte → n ≡ result }
{
    match byte {
        b'0'..=b'9' => byte - b'0',
        b'A'..=b'F' => byte - b'A' + 10,
        b'a'..=b'f' => byte - b'a' + 10,
        _ => 16,
    }
}

/// Returns the byte whose two digits begin at a place of a text, in either case, or `None` if there
/// are no digits.
fn byte_at(text: &[u8], place: usize) -> Option<u8>
    requires { place + 1 < length text.now }
    ensures some { IfSome result (λ byte. StandsAt text.now place byte) }
    ensures small { IfSome result IsByte }
    ensures none { IfNone result ((byte : ℕ) → IsByte byte → StandsAt text.now place byte → ⊥) }
{
    let high = digit_of(text[place]);
    let low = digit_of(text[place + 1]);
    if high >= 16 || low >= 16 {
        return None;
    }
    Some(high * 16 + low)
}

/// Returns whether a text has the length of a GUID's text, and its dashes.
fn is_dashed(text: &[u8]) -> bool
    ensures { IsTrue result ↔ IsDashed text.now }
{
    text.len() == TEXT_LEN
        && text[8] == b'-'
        && text[13] == b'-'
        && text[18] == b'-'
        && text[23] == b'-'
}

/// Reads the bytes of a GUID from their digits in a text, or returns `None` if a digit is missing.
fn bytes_in(text: &[u8]) -> Option<[u8; 16]>
    requires { length text.now ≡ 36 }
    ensures some { IfSome result (λ bytes. HasBytes text.now bytes) }
    ensures is_guid { IfSome result IsGuid }
    ensures none { IfNone result ((bytes : List ℕ) → IsGuid bytes → HasBytes text.now bytes → ⊥) }
{
    let mut bytes = [0; 16];
    for place in 0..16 {
        let Some(byte) = byte_at(text, PLACES[place]) else {
            return None;
        };
        bytes[place] = byte;
    }
    Some(bytes)
}

/// Does nothing. Its contract states that each byte is below 256, which the prover knows only of
/// slices.
const fn are_bytes(bytes: &[u8])
    ensures { All IsByte bytes.now }
{}

impl Guid {
    /// Creates a GUID from its bytes, as nodes and variables store them.
    ///
    /// ```rust
    /// let guid = Guid::from_bytes(*b"abcdefghijklmnop");
    /// assert_eq!(rt; guid.to_bytes(), *b"abcdefghijklmnop");
    /// let text = format!(in rt.alloc(); "{guid}")?;
    /// assert_eq!(rt; text.as_str(), "64636261-6665-6867-696A-6B6C6D6E6F70");
    /// ```
    pub const fn from_bytes(bytes: [u8; 16]) -> Self
        ensures { result ≡ bytes }
    {
        are_bytes(&bytes);
        Guid(bytes)
    }

    /// Returns the bytes, as nodes and variables store them.
    ///
    /// See [`Guid::from_bytes`].
    pub const fn to_bytes(self) -> [u8; 16]
        ensures same { result ≡ self }
        ensures is_guid { IsGuid result }
    {
        self.0
    }

    /// Reads a GUID from its text, such as `8be4df61-93ca-11d2-aa0d-00e098032b8c`, in either case.
    /// Returns `None` for any other text, such as a GUID in braces, without dashes, or with blanks.
    /// Does not allocate.
    ///
    /// ```rust
    /// let guid = Guid::try_parse("8be4df61-93ca-11d2-aa0d-00e098032b8c");
    /// assert_eq!(rt; guid.map(|it| it.to_bytes()[0]), Some(0x61));
    /// assert_eq!(rt; Guid::try_parse("{8be4df61-93ca-11d2-aa0d-00e098032b8c}"), None);
    /// ```
    pub fn try_parse(text: &str) -> Option<Self>
        ensures text { IfSome result (λ guid. IsGuidText text.now guid) }
        ensures only { IfSome result (λ guid. (bytes : List ℕ) → IsGuid bytes
            → IsGuidText text.now bytes → bytes ≡ guid) }
        ensures accepts { IsSome result
            ↔ ((bytes : List ℕ) × IsGuid bytes × IsGuidText text.now bytes) }
    {
        let text = text.as_bytes();
        if !is_dashed(text) {
            return None;
        }
        match bytes_in(text) {
            Some(bytes) => Some(Guid(bytes)),
            None => None,
        }
    }
}

/// Puts the text in upper case, as nodes print it.
impl Printed for Guid {
    ghost printed = { λ guid. guid_text guid };

    fn put<S: TextSink>(&self, sink: &mut S) {
        put_back(sink, "", &self.0[..4]);
        put_back(sink, "-", &self.0[4..6]);
        put_back(sink, "-", &self.0[6..8]);
        put_bytes(sink, "-", &self.0[8..10]);
        put_bytes(sink, "-", &self.0[10..]);
    }
}

/// Prints the text in upper case, as nodes print it: `8BE4DF61-93CA-11D2-AA0D-00E098032B8C`.
impl fmt::Display for Guid {
    ghost output = { λ guid. Some (guid_text guid) };

    fn fmt<W: fmt::Write>(&self, f: &mut fmt::Formatter<W>) -> fmt::Result {
        print(f, self)
    }
}
