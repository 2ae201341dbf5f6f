//! Texts in UTF-16, which are read as the bytes that they have in UTF-8.
#![tactic(auto)]

ghost use Rattle.std.specs.Prelude.{◌≡◌, ℕ, ◌-◌, ◌/◌, ◌%◌, ◌<◌, ◌≤◌, ◌++◌, ◌∷◌, [], List, IfSome, MatchOption, drop, encode_utf8, false, length, take, true};
ghost use Rattle.std.specs.Char.Escape.{encode_utf16};
ghost use Rattle.std.specs.List.{list_all, list_any, position_or_len};
ghost use Rattle.std.specs.Result.{result_map_both};
ghost use Rattle.std.specs.Str.{IsAscii, encode_utf8_all, is_utf8};
ghost use Rattle.uefi_node_reader.specs.NamedFiles.{ends_name, is_name_char};
ghost use Rattle.uefi_node_reader.specs.Utf16Texts.{utf8_from, nul_padded, paired_chars, units_within, utf16_read};

use crate::name_data::{push_char, push_units};
use crate::named_files::{NameText, ends_name, is_name_byte, is_name_char};
use crate::texts::Text;
use uefi_text::decode::lossy_char;
use uefi_text::scan::is_ascii;

/// Returns the first character of units and the units after it, or `None` if there is no unit, or a
/// surrogate without a partner first.
#[inline(always)]
fn first_char(units: &[u16]) -> Option<(char, &[u16])>
    ensures { MatchOption result (paired_chars units.now ≡ [])
        (λ x. (paired_chars units.now ≡ x.0 ∷ paired_chars x.1.now)
        × (units.now ≡ encode_utf16 x.0 ++ x.1.now)) }
{
    let [unit, after @ ..] = units else {
        return None;
    };
    if let Some(c) = char::from_u32(u32::from(*unit)) {
        return Some((c, after));
    }
    let [next, after @ ..] = after else {
        return None;
    };
    let (c, count) = lossy_char(*unit, *next);
    if count == 1 {
        return None;
    }
    Some((c, after))
}

/// Returns the first character of units and the units after it, or NUL and the same units where
/// [`first_char`] returns `None`.
#[inline(always)]
fn first_char_or_nul(units: &[u16]) -> (char, &[u16])
    ensures chars { (n passed : ℕ) → nul_padded n (utf8_from passed (paired_chars units.now))
        ≡ nul_padded n (utf8_from passed (result.0 ∷ paired_chars result.1.now)) }
    ensures within { (front : List ℕ) × (units.now ≡ front ++ result.1.now) }
{
    match first_char(units) {
        Some(split) => split,
        None => ('\0', units),
    }
}

/// Returns the units that a reference to them leads to.
#[inline(always)]
fn units_of<'a>(units: &'a &'a [u16]) -> &'a [u16]
    ensures { result.now ≡ units.now.now }
{
    *units
}

/// Returns the units from the character on that is read next at a place.
#[inline(always)]
fn units_from<'a>(units: &'a [u16], place: usize) -> &'a [u16]
    ensures { result.now ≡ drop (place / 4) units.now }
{
    &units[units.len().min(place / 4)..]
}

/// Returns the byte at a place of units in UTF-8, and the place after it.
fn byte_at(units: &[u16], place: usize) -> (u8, usize)
    ensures { (n : ℕ) → 0 < n
        → nul_padded n (utf8_from (place % 4) (paired_chars (drop (place / 4) units.now)))
        ≡ result.0 ∷ nul_padded (n - 1)
        (utf8_from (result.1 % 4) (paired_chars (drop (result.1 / 4) units.now))) }
{
    let (c, after) = first_char_or_nul(units_from(units, place));
    let mut room = [0; 4];
    let bytes = c.encode_utf8(&mut room).as_bytes();
    let passed = (place % 4).min(bytes.len() - 1);
    let next = if passed + 1 < bytes.len() {
        place / 4 * 4 + passed + 1
    } else {
        4 * (units.len() - after.len())
    };
    (bytes[passed], next)
}

/// A text in UTF-16. A contract sees it as the bytes of its UTF-8.
#[derive(Clone, Copy)]
pub struct Utf16Text<'a> {
    /// All units. The second reference keeps a text small: each node that is read contains a text.
    units: &'a &'a [u16],
    /// Four times the index of the character that is read next, and how many of its bytes were read.
    place: usize,
    /// The number of bytes of the text, and one for an end. NULs stand for bytes after the units.
    end: usize,
}

impl<'a> Utf16Text<'a> {
    /// Returns the text of units, or the index of the first surrogate without a partner.
    pub fn new(units: &'a &'a [u16]) -> Result<Self, usize>
        ensures { result_map_both (λ x. ⟦<Utf16Text<'a> as Text>⟧.bytes x) (λ place. place) result
            ≡ utf16_read units.now.now }
    {
        let all = units_of(units);
        if is_ascii(all) {
            return Ok(Utf16Text {
                units,
                place: 0,
                end: all.len() + 1,
            });
        }
        let mut rest = all;
        let mut end = 1;
        'chars: while let Some((c, after)) = first_char(rest) {
            end += c.len_utf8();
            rest = after;
        }
        if !rest.is_empty() {
            return Err(all.len() - rest.len());
        }
        Ok(Utf16Text {
            units,
            place: 0,
            end,
        })
    }

    /// Returns the first character and the text after it, or `None` if the text is empty, or does not
    /// begin with a whole character.
    #[inline(always)]
    fn next_char(self) -> Option<(char, Self)>
        ensures { MatchOption result
            (is_utf8 (⟦<Utf16Text<'a> as Text>⟧.bytes self.entry) ≡ true
            → ⟦<Utf16Text<'a> as Text>⟧.bytes self.entry ≡ [])
            (λ x. ⟦<Utf16Text<'a> as Text>⟧.bytes self.entry
            ≡ encode_utf8 x.0 ++ ⟦<Utf16Text<'a> as Text>⟧.bytes x.1) }
    {
        let units = units_of(self.units);
        let (c, after) = first_char_or_nul(units_from(units, self.place));
        let len = c.len_utf8();
        if self.end <= len || (self.place % 4 != 0 && len != 1) {
            return None;
        }
        let after = Utf16Text {
            units: self.units,
            place: 4 * (units.len() - after.len()),
            end: self.end - len,
        };
        Some((c, after))
    }

    /// Returns the units of the text's first `count` bytes and the text after them, if these bytes are
    /// ASCII.
    #[inline(always)]
    fn split_ascii(self, count: usize) -> Option<(&'a [u16], Self)>
        ensures ascii { IfSome result (λ x. IsAscii x.0.now) }
        ensures len { IfSome result (λ x. length x.0.now ≡ count) }
        ensures units { IfSome result (λ x.
            x.0.now ≡ take count (drop (self.entry.place / 4) self.entry.units.now.now)) }
        ensures bytes { IfSome result (λ x. ⟦<Utf16Text<'a> as Text>⟧.bytes self.entry
            ≡ x.0.now ++ ⟦<Utf16Text<'a> as Text>⟧.bytes x.1) }
    {
        let units = units_of(self.units);
        let rest = units_from(units, self.place);
        if rest.len() < count || self.end <= count || self.place % 4 != 0 {
            return None;
        }
        let (front, back) = rest.split_at(count);
        if !is_ascii(front) {
            return None;
        }
        let after = Utf16Text {
            units: self.units,
            place: 4 * (units.len() - back.len()),
            end: self.end - count,
        };
        Some((front, after))
    }

    /// Returns the text after a part of the name at its start: after all of it, if it is ASCII.
    #[inline(always)]
    fn past_ascii_name(self) -> Self
        ensures { (front : List ℕ) × (list_any ends_name front ≡ false)
            × (⟦<Utf16Text<'a> as Text>⟧.bytes self.entry ≡ front ++ ⟦<Utf16Text<'a> as Text>⟧.bytes result) }
    {
        let units = units_from(units_of(self.units), self.place);
        let (within, _) = units.split_at(units.len().min(self.len()));
        match self.split_ascii(name_units(within)) {
            Some((_, after)) => after,
            None => self,
        }
    }
}

/// Returns the number of units before the first slash or comma.
fn name_units(units: &[u16]) -> usize
    ensures place { result ≡ position_or_len ends_name units.now }
    ensures within { result ≤ length units.now }
{
    for place in 0..units.len() {
        if (units[place] == 0x2f) | (units[place] == 0x2c) {
            return place;
        }
    }
    units.len()
}

/// Returns whether all characters of an ASCII text may be in a name. Without an early exit, the
/// loop becomes vector code.
fn are_name_units(units: &[u16]) -> bool
    requires { IsAscii units.now }
    ensures { result ≡ list_all is_name_char units.now }
{
    let mut are_all = true;
    for i in 0..units.len() {
        are_all &= is_name_byte(units[i] as u8);
    }
    are_all
}

/// The bytes of its UTF-8.
impl Text for Utf16Text<'_> {
    ghost bytes = { λ text. nul_padded (text.end - 1)
        (utf8_from (text.place % 4) (paired_chars (drop (text.place / 4) text.units.now.now))) };

    #[inline(always)]
    fn split_first(self) -> Option<(u8, Self)> {
        if self.end <= 1 {
            return None;
        }
        let units = units_of(self.units);
        let index = self.place / 4;
        let (byte, place) = if index < units.len() && units[index] < 0x80 {
            (units[index] as u8, 4 * (index + 1))
        } else {
            byte_at(units, self.place)
        };
        let after = Utf16Text {
            units: self.units,
            place,
            end: self.end - 1,
        };
        Some((byte, after))
    }

    #[inline(always)]
    fn len(self) -> usize {
        self.end.saturating_sub(1)
    }

    fn split_at(self, count: usize) -> (Self, Self) {
        let front = Utf16Text {
            end: count + 1,
            ..self
        };
        if let Some((_, back)) = self.split_ascii(count) {
            return (front, back);
        }
        let mut back = self;
        'bytes: for _ in 0..count {
            if let Some((_, after)) = back.split_first() {
                back = after;
            }
        }
        (front, back)
    }
}

/// A text in UTF-16 that may be the name of a file.
impl NameText for Utf16Text<'_> {
    fn split_name(self) -> (Self, Self) {
        let mut rest = self.past_ascii_name();
        'chars: while let Some((c, after)) = rest.next_char() {
            if c == '/' || c == ',' {
                break;
            }
            rest = after;
        }
        'bytes: while let Some((byte, after)) = rest.split_first() {
            if ends_name(byte) {
                break;
            }
            rest = after;
        }
        let name = Utf16Text {
            end: self.len() - rest.len() + 1,
            ..self
        };
        (name, rest)
    }

    #[inline(always)]
    fn len_with_end(self) -> usize {
        self.end.max(1)
    }

    fn has_name_chars(self) -> bool {
        if let Some((units, _)) = self.split_ascii(self.len()) {
            return are_name_units(units);
        }
        let mut rest = self;
        'chars: while let Some((c, after)) = rest.next_char() {
            if !is_name_char(c) {
                return false;
            }
            rest = after;
        }
        rest.len() == 0
    }

    fn push_utf16(self, places: &mut [u8], len: usize) -> usize {
        if let Some((units, _)) = self.split_ascii(self.len()) {
            return push_units(places, len, units);
        }
        let mut count = len;
        let mut rest = self;
        'chars: while let Some((c, after)) = rest.next_char() {
            count = push_char(places, count, c);
            rest = after;
        }
        count
    }
}

/// Returns the number of units whose characters end within this many bytes of the UTF-8.
pub fn units_within(units: &[u16], bytes: usize) -> usize
    ensures { result ≡ units_within bytes (paired_chars units.now) }
{
    let mut rest = units;
    let mut left = bytes;
    'chars: while let Some((c, after)) = first_char(rest) {
        let len = c.len_utf8();
        if left < len {
            break;
        }
        left -= len;
        rest = after;
    }
    units.len() - rest.len()
}
