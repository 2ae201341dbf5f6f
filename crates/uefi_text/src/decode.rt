//! Code units as characters and as UTF-8. Each unit of a text is one character, so it has one, two
//! or three bytes (Unicode Standard, section 3.9, table 3-6). The number of all bytes is known
//! before the first is written, so that one allocation is enough, and a call that fails leaves
//! everything unchanged. Any other units are characters of UTF-16.
ghost use Rattle.std.specs.Char.Utf16.{is_high_surrogate, is_low_surrogate, lone_unit_char, surrogate_pair_char, utf16_lossy_chars};
ghost use Rattle.std.specs.Option.{unwrap_or};
ghost use Rattle.std.specs.Prelude.{◌≡◌, ℕ, ◌+◌, ◌-◌, ◌<◌, ◌≤◌, ◌^◌, ◌++◌, ◌*◌, OnErr, OnOk, length, encode_utf8, min, slice_index, take, true, ◌∷◌, ◌&&◌, List, drop};
ghost use Rattle.std.specs.Str.{IsAscii, encode_utf8_all};
ghost use Rattle.uefi_text.specs.UnalignedCStr16.{with_prefix};
ghost use Rattle.uefi_text.specs.Units.{IsText, nul_terminated};
ghost use Rattle.uefi_text.specs.UnitTexts.{written_len};

use crate::scan::{count_wide, find_deciding_place, is_ascii, narrow, widen};
use crate::unit_sink::BufferTooSmall;
use std::alloc::{AllocError, Allocator};

/// The number of characters that are printed at a time.
pub(crate) const PRINTED: usize = 64;

/// Returns the number of bytes that units have in UTF-8: one each, a second from U+0080 on, and a
/// third from U+0800 on.
fn utf8_len(units: &[u16]) -> usize
    ensures { result ≡ length (encode_utf8_all units.now) }
{
    let (two, three) = count_wide(units);
    units.len() + two + three
}

/// Adds units of ASCII.
fn add_ascii<A: Allocator>(bytes: &mut Vec<u8, A>, units: &[u16]) -> Result<(), AllocError>
    requires { IsAscii units.now }
    ensures ok { OnOk result (bytes.new.items ≡ bytes.old.items ++ units.now) }
    ensures err { OnErr result (bytes.new.items ≡ bytes.old.items) }
{
    let start = bytes.len();
    bytes.resize(start + units.len(), 0)?;
    narrow(&mut bytes[start..], units);
    Ok(())
}

/// Writes the UTF-8 of a unit from an index on, and returns the index after it.
#[inline(always)]
#[tactic(auto, using(crate::proofs::Utf8Bytes::unit_widths, crate::proofs::Writing::places_in_turn))]
fn write_unit(bytes: &mut [u8], place: usize, unit: u16) -> usize
    requires { place + length (encode_utf8 unit) ≤ length bytes.old }
    ensures end { result ≡ place + length (encode_utf8 unit) }
    ensures bytes { take result bytes.new ≡ take place bytes.old ++ encode_utf8 unit }
{
    if unit < 0x80 {
        bytes[place] = unit as u8;
        return place + 1;
    }
    if unit < 0x800 {
        bytes[place] = (0xc0 + unit / 64) as u8;
        bytes[place + 1] = (0x80 + unit % 64) as u8;
        return place + 2;
    }
    bytes[place] = (0xe0 + unit / 4096) as u8;
    bytes[place + 1] = (0x80 + unit / 64 % 64) as u8;
    bytes[place + 2] = (0x80 + unit % 64) as u8;
    place + 3
}

/// Writes the UTF-8 of units to the start of a slice of bytes, and returns the number of bytes that
/// it wrote.
#[inline(never)]
fn write_units(bytes: &mut [u8], units: &[u16]) -> usize
    requires { length (encode_utf8_all units.now) ≤ length bytes.old }
    ensures len { result ≡ length (encode_utf8_all units.now) }
    ensures bytes { take result bytes.new ≡ encode_utf8_all units.now }
{
    let mut end = 0;
    for unit in units {
        end = write_unit(bytes, end, *unit);
    }
    end
}

/// Writes the UTF-8 of units into the prefix of bytes that have room for it, and returns how many
/// bytes they are. Units of ASCII are written all at once.
pub(crate) fn write_utf8(bytes: &mut [u8], units: &[u16]) -> usize
    requires { 3 * length units.now ≤ length bytes.old }
    ensures len { result ≤ length bytes.new }
    ensures bytes { take result bytes.new ≡ encode_utf8_all units.now }
{
    if is_ascii(units) {
        narrow(&mut bytes[..units.len()], units);
        return units.len();
    }
    write_units(bytes, units)
}

/// Does what [`write_utf8`] does, of at most [`PRINTED`] characters of Latin-1.
pub(crate) fn write_latin1(bytes: &mut [u8], characters: &[u8]) -> usize
    requires block { length characters.now ≤ 64 }
    requires room { 3 * length characters.now ≤ length bytes.old }
    ensures len { result ≤ length bytes.new }
    ensures bytes { take result bytes.new ≡ encode_utf8_all characters.now }
{
    let mut units = [0; PRINTED + 1];
    let len = characters.len();
    widen(&mut units[..len + 1], characters);
    write_utf8(bytes, &units[..len])
}

/// Does what [`add_utf8`] does, in memory whose size is counted first.
fn add_wide<A: Allocator>(bytes: &mut Vec<u8, A>, units: &[u16]) -> Result<(), AllocError>
    ensures ok { OnOk result (bytes.new.items ≡ bytes.old.items ++ encode_utf8_all units.now) }
    ensures err { OnErr result (bytes.new.items ≡ bytes.old.items) }
{
    let start = bytes.len();
    let Some(end) = start.checked_add(utf8_len(units)) else {
        return Err(AllocError);
    };
    bytes.resize(end, 0)?;
    write_units(&mut bytes[start..], units);
    Ok(())
}

/// Adds the UTF-8 of units to bytes, which stay unchanged where memory is refused.
pub(crate) fn add_utf8<A: Allocator>(
    bytes: &mut Vec<u8, A>,
    units: &[u16],
) -> Result<(), AllocError>
    ensures ok { OnOk result (bytes.new.items ≡ bytes.old.items ++ encode_utf8_all units.now) }
    ensures err { OnErr result (bytes.new.items ≡ bytes.old.items) }
{
    if is_ascii(units) {
        return add_ascii(bytes, units);
    }
    add_wide(bytes, units)
}

/// Returns whether two units are the surrogates of one character.
fn is_pair(first: u16, second: u16) -> bool
    ensures { result ≡ is_high_surrogate first && is_low_surrogate second }
{
    first >= 0xd800 && first < 0xdc00 && second >= 0xdc00 && second < 0xe000
}

/// Returns the character of two surrogates.
fn pair_char(first: u16, second: u16) -> char
    requires { (is_high_surrogate first && is_low_surrogate second) ≡ true }
    ensures { result ≡ surrogate_pair_char first second }
{
    let (high, low) = (first as u32 - 0xd800, second as u32 - 0xdc00);
    char::from_u32(0x10000 + high * 0x400 + low).unwrap()
}

/// Returns the character of a unit that belongs to no pair: U+FFFD if it is a surrogate.
fn lone_char(unit: u16) -> char
    ensures { result ≡ unwrap_or (lone_unit_char unit) 0xfffd }
{
    if unit >= 0xd800 && unit < 0xe000 {
        return '\u{fffd}';
    }
    char::from_u32(unit as u32).unwrap()
}

/// Returns the character at an index of units, and the number of units that it has. The arguments
/// are the unit at that index and the unit after it, or 0 after the last. A surrogate that has no
/// partner becomes U+FFFD (Unicode Standard, section 3.9).
pub fn lossy_char(unit: u16, next: u16) -> (char, usize)
    ensures first { (units : List ℕ) (place : ℕ) → place < length units
        → slice_index units place ≡ unit → slice_index units (place + 1) ≡ next
        → utf16_lossy_chars (drop place units)
        ≡ result.0 ∷ utf16_lossy_chars (drop (place + result.1) units) }
    ensures some { 0 < result.1 }
    ensures within { (units : List ℕ) (place : ℕ) → place < length units
        → slice_index units (place + 1) ≡ next → place + result.1 ≤ length units }
{
    if is_pair(unit, next) {
        return (pair_char(unit, next), 2);
    }
    (lone_char(unit), 1)
}

/// Returns the first character of any units, and the number of units that it has, as [`lossy_char`]
/// does.
fn first_lossy(units: &[u16]) -> (char, usize)
    requires { 0 < length units.now }
    ensures some { 0 < result.1 }
    ensures within { result.1 ≤ length units.now }
    ensures first { utf16_lossy_chars units.now
        ≡ result.0 ∷ utf16_lossy_chars (drop result.1 units.now) }
{
    let next = if 1 < units.len() { units[1] } else { 0 };
    lossy_char(units[0], next)
}

/// Returns the number of bytes that any units have in UTF-8, or the greatest `usize` if they have
/// more.
fn lossy_len(units: &[u16]) -> usize
    ensures { result ≡ min (length (encode_utf8_all (utf16_lossy_chars units.now))) (2 ^ 64 - 1) }
{
    if find_deciding_place(units).is_none() {
        return utf8_len(units);
    }
    let mut len = 0usize;
    let mut place = 0;
    while place < units.len() {
        let (character, count) = first_lossy(&units[place..]);
        len = len.saturating_add(character.len_utf8());
        place += count;
    }
    len
}

/// Writes a character above U+FFFF in UTF-8 from a place on.
#[inline(always)]
#[tactic(auto, using(crate::proofs::Utf8Bytes::four_bytes, crate::proofs::Writing::place_four))]
fn write_four(bytes: &mut [u8], place: usize, code: u32)
    requires above { 0x10000 ≤ code }
    requires character { code < 0x110000 }
    requires room { place + length (encode_utf8 code) ≤ length bytes.old }
    ensures { take (place + 4) bytes.new ≡ take place bytes.old ++ encode_utf8 code }
{
    bytes[place] = (0xf0 + code / 0x40000) as u8;
    bytes[place + 1] = (0x80 + code / 0x1000 % 64) as u8;
    bytes[place + 2] = (0x80 + code / 64 % 64) as u8;
    bytes[place + 3] = (0x80 + code % 64) as u8;
}

/// Writes a character in UTF-8 from a place on, and returns the place after it.
#[tactic(auto, using(crate::proofs::Utf8Bytes::four_bytes))]
fn write_char(character: char, bytes: &mut [u8], place: usize) -> usize
    requires { place + length (encode_utf8 character) ≤ length bytes.old }
    ensures end { result ≡ place + length (encode_utf8 character) }
    ensures bytes { take result bytes.new ≡ take place bytes.old ++ encode_utf8 character }
{
    let code = character as u32;
    if code < 0x10000 {
        return write_unit(bytes, place, code as u16);
    }
    write_four(bytes, place, code);
    place + 4
}

/// Writes any units in UTF-8 into a slice that has exactly the room.
fn fill_lossy(units: &[u16], bytes: &mut [u8])
    requires { length bytes.now ≡ length (encode_utf8_all (utf16_lossy_chars units.now)) }
    ensures { bytes.new ≡ encode_utf8_all (utf16_lossy_chars units.now) }
{
    if is_ascii(units) {
        narrow(bytes, units);
        return;
    }
    if find_deciding_place(units).is_none() {
        write_units(bytes, units);
        return;
    }
    let mut end = 0;
    let mut place = 0;
    while place < units.len() {
        let (character, count) = first_lossy(&units[place..]);
        end = write_char(character, bytes, end);
        place += count;
    }
}

/// Writes any units in UTF-8, and a NUL, to the start of a buffer. Returns the number of bytes,
/// without the NUL. If the buffer is too small, the result is [`BufferTooSmall`], and the buffer is
/// unchanged. If the units are a text, each of them is one character.
pub fn write_lossy(units: &[u16], bytes: &mut [u8]) -> Result<usize, BufferTooSmall>
    ensures len { result
        ≡ written_len (encode_utf8_all (utf16_lossy_chars units.now)) bytes.old }
    ensures bytes { bytes.new
        ≡ with_prefix (nul_terminated (encode_utf8_all (utf16_lossy_chars units.now))) bytes.old }
    ensures of_text { IsText units.now → utf16_lossy_chars units.now ≡ units.now }
{
    let len = lossy_len(units);
    if bytes.len() <= len {
        return Err(BufferTooSmall(len.saturating_add(1)));
    }
    fill_lossy(units, &mut bytes[..len]);
    bytes[len] = 0;
    Ok(len)
}
