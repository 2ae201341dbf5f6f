//! Names of files in texts.
#![tactic(auto)]

ghost use Rattle.std.specs.Prelude.{◌≡◌, ◌+◌, ◌<◌, ◌≤◌, ◌&&◌, ℕ, drop, false, length, slice_index, true};
ghost use Rattle.std.specs.Char.Escape.{encode_utf16};
ghost use Rattle.std.specs.List.{flat_map, list_all, position_or_len};
ghost use Rattle.std.specs.Str.{IsAscii, chars, is_utf8};
ghost use Rattle.uefi_text.specs.UnitBytes.{unit_bytes};
ghost use Rattle.uefi_node_reader.specs.CountedBytes.{pushed_bytes};
ghost use Rattle.uefi_node_reader.specs.NamedFiles.{before_spaces, ends_name, is_after_node, is_name_char, name_bytes, past_spaces};

use crate::name_data::push_text;
use crate::texts::Text;
use uefi_device_nodes::field_texts::shown_texts::is_escaped;

/// Returns whether a byte ends a name.
pub(crate) fn ends_name(byte: u8) -> bool
    ensures { result ≡ ends_name byte }
{
    byte == b'/' || byte == b','
}

/// A text that may be the name of a file.
pub trait NameText: Text {
    /// Splits the text before its first slash or comma.
    fn split_name(self) -> (Self, Self)
        ensures name { Self.bytes result.0 ≡ name_bytes (Self.bytes self) }
        ensures rest { Self.bytes result.1
            ≡ drop (position_or_len ends_name (Self.bytes self)) (Self.bytes self) };

    /// Returns the number of bytes, and one for an end.
    fn len_with_end(self) -> usize
        ensures { result ≡ length (Self.bytes self) + 1 };

    /// Returns whether the text is UTF-8, and all its characters may be in a name.
    fn has_name_chars(self) -> bool
        ensures { result ≡ (is_utf8 (Self.bytes self) && list_all is_name_char (chars (Self.bytes self))) };

    /// Puts the text in UTF-16 after `len` bytes, the low byte of each unit first, as far as there is room.
    /// Returns the new number of bytes.
    fn push_utf16(self, places: &mut [u8], len: usize) -> usize
        requires { is_utf8 (Self.bytes self) ≡ true }
        ensures { (places.new, result) ≡ pushed_bytes (places.old, len)
            (unit_bytes (flat_map encode_utf16 (chars (Self.bytes self)))) };
}

/// Returns whether a node may end before a text: before no byte, a slash or a comma.
pub fn is_after_node<T: Text>(text: T) -> bool
    ensures { result ≡ is_after_node (T.bytes text) }
{
    match text.split_first() {
        Some((first, _)) => ends_name(first),
        None => true,
    }
}

/// Returns a text without the blanks and line ends at its start.
pub fn past_spaces<T: Text>(text: T) -> T
    ensures rest { T.bytes result ≡ past_spaces (T.bytes text) }
    ensures within { length (T.bytes result) ≤ length (T.bytes text) }
{
    let mut rest = text;
    'bytes: while let Some((byte, after)) = rest.split_first() {
        if !byte.is_ascii_whitespace() {
            return rest;
        }
        rest = after;
    }
    rest
}

/// Returns a text without the blanks and line ends at its end.
pub fn before_spaces<T: Text>(text: T) -> T
    ensures { T.bytes result ≡ before_spaces (T.bytes text) }
{
    let mut end = 0;
    let mut rest = text;
    for place in 0..text.len() {
        if let Some((byte, after)) = rest.split_first() {
            if !byte.is_ascii_whitespace() {
                end = place + 1;
            }
            rest = after;
        }
    }
    text.split_at(end).0
}

/// The number of bytes that are tested together. Without an early exit among them, the test becomes
/// vector code.
const BLOCK: usize = 16;

/// Returns `true` only if no byte of a block ends a name.
#[inline(always)]
fn is_inside_name(block: &[u8]) -> bool
    ensures { result ≡ true → (k : ℕ) → k < length block.now → ends_name (slice_index block.now k) ≡ false }
{
    let mut is_inside = true;
    for i in 0..block.len() {
        is_inside &= (block[i] != b'/') & (block[i] != b',');
    }
    is_inside
}

/// Returns an index before which no byte of a text ends a name. Tests the bytes in blocks, up to a
/// block with a byte that does, or to less than a block.
#[inline(always)]
fn inner_blocks_end(text: &[u8]) -> usize
    ensures within { result ≤ length text.now }
    ensures inside { (k : ℕ) → k < result → ends_name (slice_index text.now k) ≡ false }
{
    let mut end = 0;
    while BLOCK <= text.len() - end && is_inside_name(&text[end..end + BLOCK]) {
        end += BLOCK;
    }
    end
}

/// Returns the number of bytes of a text before its first slash or comma.
fn name_len(text: &[u8]) -> usize
    ensures place { result ≡ position_or_len ends_name text.now }
    ensures within { result ≤ length text.now }
{
    for place in inner_blocks_end(text)..text.len() {
        if ends_name(text[place]) {
            return place;
        }
    }
    text.len()
}

/// Returns whether a character may be in a name: texts do not escape it, and it does not end a name.
pub(crate) fn is_name_char(c: char) -> bool
    ensures { result ≡ is_name_char c }
{
    let is_shown = if c < '\u{7f}' {
        ' ' <= c
    } else {
        !is_escaped(c)
    };
    is_shown && c != '/' && c != ','
}

/// Returns whether an ASCII character may be in a name.
#[inline(always)]
pub(crate) fn is_name_byte(byte: u8) -> bool
    requires { byte < 128 }
    ensures { result ≡ is_name_char byte }
{
    (0x20 <= byte) & (byte < 0x7f) & (byte != b'/') & (byte != b',')
}

/// Returns whether all characters of an ASCII text may be in a name. Without an early exit, the
/// loop becomes vector code.
fn are_name_bytes(text: &[u8]) -> bool
    requires { IsAscii text.now }
    ensures { result ≡ list_all is_name_char text.now }
{
    let mut are_all = true;
    for i in 0..text.len() {
        are_all &= is_name_byte(text[i]);
    }
    are_all
}

/// Returns whether all characters of a text may be in a name.
fn has_name_chars(text: &str) -> bool
    ensures { result ≡ list_all is_name_char (chars text.now) }
{
    if text.is_ascii() {
        return are_name_bytes(text.as_bytes());
    }
    text.chars().all(|c| is_name_char(c))
}

/// A text of bytes.
impl NameText for &[u8] {
    fn split_name(self) -> (Self, Self) {
        self.split_at(name_len(self))
    }

    fn len_with_end(self) -> usize {
        self.len() + 1
    }

    fn has_name_chars(self) -> bool {
        match str::from_utf8(self) {
            Ok(text) => has_name_chars(text),
            Err(_) => false,
        }
    }

    fn push_utf16(self, places: &mut [u8], len: usize) -> usize {
        // SAFETY: the text is UTF-8, which is the condition of this function, and is proved for each call.
        push_text(places, len, unsafe { str::from_utf8_unchecked(self) })
    }
}
