//! Texts that are written to a caller's buffer as UTF-16.
#![tactic(auto, using(crate::proofs::Puts::puts))]

ghost use Rattle.std.specs.Prelude.{◌≡◌, ℕ, ◌∷◌, ◌++◌, ◌+◌, ◌-◌, ◌<◌, ◌≤◌, [], List, length, map, min, take, Some};
ghost use Rattle.std.specs.Char.Escape.{encode_utf16};
ghost use Rattle.uefi_text.specs.UnalignedCStr16.{with_prefix};
ghost use Rattle.uefi_text.specs.UnitTexts.{AreSunk, utf16_units, written_len, buffer_too_small_text};
ghost use Rattle.uefi_text.specs.Units.{nul_terminated, replaced};
ghost use Rattle.std.specs.Str.{IsUtf8};

use crate::number_texts::put_decimal;
use crate::scan::unit_after;
use crate::text_sink::{Printed, TextSink, print};
use std::error::Error;
use std::fmt;

/// The buffer has fewer places than the call needs. The number is how many it needs, or
/// `usize::MAX` if it needs more. The buffer is unchanged.
#[derive(Clone, Copy, Debug, PartialEq, Eq)]
pub struct BufferTooSmall(pub usize);

/// Puts the number of units that are needed.
impl Printed for BufferTooSmall {
    ghost printed = { buffer_too_small_text };

    fn put<S: TextSink>(&self, sink: &mut S) {
        put_decimal(sink, "buffer too small: ", self.0 as u64);
        sink.put_str(" units are needed");
    }
}

/// Prints the same text.
impl fmt::Display for BufferTooSmall {
    ghost output = { λ error. Some (buffer_too_small_text error) };

    fn fmt<W: fmt::Write>(&self, f: &mut fmt::Formatter<W>) -> fmt::Result {
        print(f, self)
    }
}

impl Error for BufferTooSmall {}

/// Adds a unit to a buffer that was given `len` units before. Writes the unit if the buffer has a
/// place for it, and returns the number of units now, or `usize::MAX` if there are more.
///
/// Texts and paths that are made in a caller's buffer go through this call or [`sink_replaced`],
/// once to count their units, and once to write them. Hidden, because this call may change.
#[doc(hidden)]
#[inline(always)]
pub fn sink_unit(buffer: &mut [u16], len: usize, unit: u16) -> usize
    ensures sunk { (units old : List ℕ) → AreSunk units old buffer.old len →
        AreSunk (units ++ unit ∷ []) old buffer.new result }
    ensures most { result ≤ len + 1 }
{
    if len < buffer.len() {
        buffer[len] = unit;
    }
    len.saturating_add(1)
}

/// Returns from where to where a buffer that was given `len` units before takes `count` more, as many
/// as fit.
fn places_of_part(room: usize, len: usize, count: usize) -> (usize, usize)
    ensures start { result.0 ≡ min len room }
    ensures end { result.1 ≡ result.0 + min count (room - result.0) }
{
    let start = len.min(room);
    (start, start + count.min(room - start))
}

/// Copies the first of some units to `places`, with `replace` for each `search`.
fn copy_replaced(places: &mut [u16], units: &[u16], search: u16, replace: u16)
    requires { length places.now ≤ length units.now }
    ensures { places.new ≡ map (replaced search replace) (take (length places.old) units.now) }
{
    for i in 0..places.len() {
        places[i] = unit_after(units[i], search, replace);
    }
}

/// Adds units as [`sink_unit`] adds each, with `replace` for each `search`.
#[doc(hidden)]
pub fn sink_replaced(
    buffer: &mut [u16],
    len: usize,
    units: &[u16],
    search: u16,
    replace: u16,
) -> usize
    ensures { (before old : List ℕ) → AreSunk before old buffer.old len →
        AreSunk (before ++ map (replaced search replace) units.now) old buffer.new result }
{
    let (start, end) = places_of_part(buffer.len(), len, units.len());
    copy_replaced(&mut buffer[start..end], units, search, replace);
    len.saturating_add(units.len())
}

/// Copies the first of some bytes to `places`, each as a unit.
fn copy_bytes(places: &mut [u16], bytes: &[u8])
    requires { length places.now ≤ length bytes.now }
    ensures { places.new ≡ take (length places.old) bytes.now }
{
    for i in 0..places.len() {
        places[i] = u16::from(bytes[i]);
    }
}

/// A buffer, and how many units were written to it, whether it has room for them or not.
#[derive(Drop)]
struct UnitSink<'b> {
    buffer: &'b mut [u16],
    len: usize,
}

impl<'b> UnitSink<'b> {
    /// Returns a sink for the buffer, before any unit.
    fn of(buffer: &'b mut [u16]) -> Self
        ensures same_reference { result.buffer.ghost_name ≡ buffer.entry.ghost_name }
        ensures none { AreSunk [] buffer.old result.buffer.now result.len }
    {
        UnitSink { buffer, len: 0 }
    }

    /// Adds a unit, and writes it if the buffer has a place for it.
    fn add_unit(&mut self, unit: u16)
        ensures same_reference { self.new.buffer.ghost_name ≡ self.old.buffer.ghost_name }
        ensures sunk { (units old : List ℕ) → AreSunk units old self.old.buffer.now self.old.len →
            AreSunk (units ++ unit ∷ []) old self.new.buffer.now self.new.len }
    {
        self.len = sink_unit(self.buffer, self.len, unit);
    }

    /// Adds bytes, each as a unit.
    fn add_bytes(&mut self, bytes: &[u8])
        ensures same_reference { self.new.buffer.ghost_name ≡ self.old.buffer.ghost_name }
        ensures sunk { (units old : List ℕ) → AreSunk units old self.old.buffer.now self.old.len →
            AreSunk (units ++ bytes.now) old self.new.buffer.now self.new.len }
    {
        let (start, end) = places_of_part(self.buffer.len(), self.len, bytes.len());
        copy_bytes(&mut self.buffer[start..end], bytes);
        self.len = self.len.saturating_add(bytes.len());
    }

    /// Adds the one or two units of a character.
    fn add_char(&mut self, character: char)
        ensures same_reference { self.new.buffer.ghost_name ≡ self.old.buffer.ghost_name }
        ensures sunk { (units old : List ℕ) → AreSunk units old self.old.buffer.now self.old.len →
            AreSunk (units ++ encode_utf16 character) old self.new.buffer.now self.new.len }
    {
        let code = character as u32;
        if code < 0x10000 {
            self.add_unit(code as u16);
            return;
        }
        self.add_unit((0xd800 + (code - 0x10000) / 0x400) as u16);
        self.add_unit((0xdc00 + (code - 0x10000) % 0x400) as u16);
    }
}

/// Adds the units of each character.
impl<'b> TextSink for UnitSink<'b> {
    ghost puts = { λ old text new. (new.buffer.ghost_name ≡ old.buffer.ghost_name)
        × (IsUtf8 text × ((units start : List ℕ) → AreSunk units start old.buffer.now old.len →
        AreSunk (units ++ utf16_units text) start new.buffer.now new.len)) };

    fn put_str(&mut self, text: &str) {
        if text.is_ascii() {
            self.add_bytes(text.as_bytes());
            return;
        }
        for character in text.chars() {
            self.add_char(character);
        }
    }

    fn put_char(&mut self, character: char) {
        self.add_char(character);
    }
}

/// Adds the units of the text of a value.
fn put_text<P: Printed>(sink: &mut UnitSink<'_>, value: &P)
    ensures same_reference { sink.new.buffer.ghost_name ≡ sink.old.buffer.ghost_name }
    ensures sunk { (start : List ℕ) → AreSunk [] start sink.old.buffer.now sink.old.len →
        AreSunk (utf16_units (P.printed value.now)) start sink.new.buffer.now sink.new.len }
{
    value.put(sink);
}

/// Writes the units of the text of a value to a buffer, as many as fit, and counts all of them.
fn fill_units<P: Printed>(buffer: &mut [u16], value: &P) -> usize
    ensures { AreSunk (utf16_units (P.printed value.now)) buffer.old buffer.new result }
{
    let mut sink = UnitSink::of(buffer);
    put_text(&mut sink, value);
    sink.len
}

/// Writes the text of a value to the start of a buffer as UTF-16, with a NUL after it, and returns
/// the length of the text without the NUL. The rest of the buffer is unchanged.
///
/// Fails only if the buffer is too small, and then leaves it unchanged. Makes the text twice: once
/// to count its units, and once to write them. Does not allocate.
///
/// ```rust
/// let mut buffer = [0xffff; 18];
/// assert_eq!(rt; write_units(&mut buffer, &FromSliceUntilNulError::NoNul), Ok(16));
/// assert!(rt; CStr16::from_u16_with_nul(&buffer[..17])?.eq_str_until_nul("no nul character"));
/// assert_eq!(rt; buffer[17], 0xffff);
/// let refused = write_units(&mut buffer[..16], &FromSliceUntilNulError::NoNul);
/// assert_eq!(rt; refused, Err(BufferTooSmall(17)));
/// ```
pub fn write_units<P: Printed>(buffer: &mut [u16], value: &P) -> Result<usize, BufferTooSmall>
    ensures len { result ≡ written_len (utf16_units (P.printed value.now)) buffer.old }
    ensures buffer { buffer.new
        ≡ with_prefix (nul_terminated (utf16_units (P.printed value.now))) buffer.old }
{
    let len = fill_units(&mut [], value);
    if buffer.len() <= len {
        return Err(BufferTooSmall(len.saturating_add(1)));
    }
    fill_units(buffer, value);
    buffer[len] = 0;
    Ok(len)
}

/// Writes the text of a value as [`write_units`] does, but makes it only once if the buffer has
/// more than `most` places. The text must then have at most `most` units.
///
/// Hidden: the crates of device paths know such a number, and the call may change.
#[doc(hidden)]
pub fn write_bounded_units<P: Printed>(
    buffer: &mut [u16],
    value: &P,
    most: usize,
) -> Result<usize, BufferTooSmall>
    requires { most < length buffer.old → length (utf16_units (P.printed value.now)) ≤ most }
    ensures len { result ≡ written_len (utf16_units (P.printed value.now)) buffer.old }
    ensures buffer { buffer.new
        ≡ with_prefix (nul_terminated (utf16_units (P.printed value.now))) buffer.old }
{
    if buffer.len() <= most {
        return write_units(buffer, value);
    }
    let len = fill_units(buffer, value);
    buffer[len] = 0;
    Ok(len)
}
