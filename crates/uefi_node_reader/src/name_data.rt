//! Texts in UTF-16, put into a buffer and counted.
#![tactic(auto)]

ghost use Rattle.std.specs.Prelude.{◌≡◌, ◌/◌, ◌%◌};
ghost use Rattle.std.specs.Char.Escape.{encode_utf16};
ghost use Rattle.std.specs.List.{flat_map};
ghost use Rattle.std.specs.Str.{chars};
ghost use Rattle.uefi_text.specs.UnitBytes.{unit_bytes};
ghost use Rattle.uefi_node_reader.specs.CountedBytes.{pushed_byte, pushed_bytes};

use crate::counted_bytes::push;

/// Puts the bytes of a unit after `len` bytes, the low byte first. Returns the number of bytes then.
#[inline(always)]
fn push_unit(places: &mut [u8], len: usize, unit: u16) -> usize
    ensures { (places.new, result) ≡ pushed_byte (pushed_byte (places.old, len) (unit % 256)) (unit / 256) }
{
    let (low, high) = ((unit % 256) as u8, (unit / 256) as u8);
    if len < places.len() && 2 <= places.len() - len {
        places[len] = low;
        places[len + 1] = high;
        return len + 2;
    }
    let count = push(places, len, low);
    push(places, count, high)
}

/// Puts the bytes of units after `len` bytes, the low byte of each first. Returns the number of bytes then.
pub(crate) fn push_units(places: &mut [u8], len: usize, units: &[u16]) -> usize
    ensures { (places.new, result) ≡ pushed_bytes (places.old, len) (unit_bytes units.now) }
{
    let mut count = len;
    for place in 0..units.len() {
        if places.len() <= count {
            // Nothing else fits, so the rest is only counted.
            return count.saturating_add((units.len() - place).saturating_mul(2));
        }
        count = push_unit(places, count, units[place]);
    }
    count
}

/// Puts the bytes of a character in UTF-16 after `len` bytes, the low byte of each unit first. Returns the
/// number of bytes then.
pub(crate) fn push_char(places: &mut [u8], len: usize, c: char) -> usize
    ensures { (places.new, result) ≡ pushed_bytes (places.old, len) (unit_bytes (encode_utf16 c)) }
{
    push_units(places, len, c.encode_utf16(&mut [0; 2]))
}

/// Puts the bytes of an ASCII text in UTF-16 after `len` bytes, and returns the number of bytes then.
fn push_ascii(places: &mut [u8], len: usize, text: &[u8]) -> usize
    ensures { (places.new, result) ≡ pushed_bytes (places.old, len) (unit_bytes text.now) }
{
    let mut count = len;
    for place in 0..text.len() {
        if places.len() <= count {
            // Nothing else fits, so the rest is only counted.
            return count.saturating_add((text.len() - place).saturating_mul(2));
        }
        count = push_unit(places, count, u16::from(text[place]));
    }
    count
}

/// Puts the bytes of a text in UTF-16 after `len` bytes, and returns the number of bytes then.
pub(crate) fn push_text(places: &mut [u8], len: usize, text: &str) -> usize
    ensures { (places.new, result)
        ≡ pushed_bytes (places.old, len) (unit_bytes (flat_map encode_utf16 (chars text.now))) }
{
    if text.is_ascii() {
        return push_ascii(places, len, text.as_bytes());
    }
    let mut count = len;
    for c in text.chars() {
        count = push_char(places, count, c);
    }
    count
}
