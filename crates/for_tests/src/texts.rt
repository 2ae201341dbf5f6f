//! Strings made from Rust texts and compared with them, printed values, rows of tables in texts, and bytes in
//! hexadecimal.

use std::alloc::{Allocator, Global};
use std::cmp::Ordering;
use std::fmt::{Debug, Display};
use std::test::Fail;
use uefi_text::{CStr16, CString16, Char16, Printed, write_units};

/// The device path with no node but its end.
pub const END: &[u8] = &[0x7f, 0xff, 4, 0];

/// Creates a string from a Rust text.
pub fn string<A: Allocator>(alloc: A, text: &str) -> Result<CString16<A>, Fail> {
    Ok(CString16::try_from_str(alloc, text)?)
}

/// Repeats a text `count` times.
pub fn repeated<A: Allocator>(alloc: A, piece: &str, count: u64) -> Result<String<A>, Fail> {
    Ok(piece.repeat(alloc, count as usize)?)
}

/// Returns whether a string has the characters of a text.
pub fn has_text(string: CStr16<'_>, want: &str) -> bool {
    let mut characters = string.iter();
    for c in want.chars() {
        match characters.next() {
            Some(character) if character.eq_char(c) => {}
            _ => return false,
        }
    }
    characters.next().is_none()
}

/// Returns whether the `Display` of a value is this text.
pub fn shows<T: Display>(alloc: Global, value: &T, want: &str) -> bool {
    matches!(format!(in alloc; "{value}"), Ok(printed) if printed.as_str() == want)
}

/// Returns whether the message of an error is this text, both in `Display` and in units.
pub fn says<T: Display + Printed>(alloc: Global, error: &T, want: &str) -> bool {
    let mut buffer = [0xffff; 128];
    let Ok(len) = write_units(&mut buffer, error) else {
        return false;
    };
    matches!(CStr16::from_u16_with_nul(&buffer[..len + 1]), Ok(string) if has_text(string, want))
        && shows(alloc, error, want)
}

/// Returns whether a value prints this text: its `Display`, a bar and its `Debug`.
pub fn prints<T: Display + Debug>(alloc: Global, value: &T, want: &str) -> bool {
    matches!(format!(in alloc; "{value}|{value:?}"), Ok(printed) if printed.as_str() == want)
}

/// Splits a row of a table at its first space.
pub fn split_row(line: &str) -> (&str, &str) {
    line.split_once(' ').unwrap_or((line, ""))
}

/// Returns whether two values compare like this, and are equal only if `want` is `Equal`.
pub fn are_ordered<T: Ord>(a: &T, b: &T, want: Ordering) -> bool {
    a.cmp(b) == want && a.partial_cmp(b) == Some(want) && (a == b) == (want == Ordering::Equal)
}

/// Returns whether a buffer begins with `front` and otherwise contains only `filler`.
pub fn holds<T: PartialEq>(buffer: &[T], front: &[T], filler: &T) -> bool {
    let mut rest = buffer.get(front.len()..).unwrap_or(&[]).iter();
    buffer.starts_with(front) && rest.all(|it| it == filler)
}

/// Returns the bytes of a text in hexadecimal, two digits each.
pub fn bytes(alloc: Global, digits: &str) -> Result<Vec<u8>, Fail> {
    let mut bytes = Vec::new(alloc);
    let mut high = None;
    for digit in digits.chars() {
        let value = digit.to_digit(16).ok_or("a digit")? as u8;
        match high {
            None => high = Some(value),
            Some(first) => {
                bytes.push(first % 16 * 16 + value % 16)?;
                high = None;
            }
        }
    }
    Ok(bytes)
}

/// A call that writes items into a buffer, and its arguments.
pub trait BufferCall<T> {
    /// Returns how many items the call wrote, or how many it needs.
    fn write(&self, room: &mut [T]) -> Result<usize, usize>;
}

/// Returns whether a call writes all of `want` into each buffer with enough room, writes nothing into a
/// shorter one, and changes no other item.
pub fn writes_whole<T: Copy + PartialEq, C: BufferCall<T>>(
    alloc: Global,
    want: &[T],
    filler: T,
    call: &C,
) -> Result<bool, Fail> {
    for len in 0..want.len().saturating_add(2) {
        let mut room = vec![in alloc; filler; want.len().saturating_add(9)]?;
        let answer = call.write(room.as_mut_slice().get_mut(..len).unwrap_or_default());
        let is_right = if len < want.len() {
            answer == Err(want.len()) && holds(&room, &[], &filler)
        } else {
            answer == Ok(want.len()) && holds(&room, want, &filler)
        };
        if !is_right {
            return Ok(false);
        }
    }
    Ok(true)
}

/// Returns the units before the first surrogate as characters.
pub fn characters(alloc: Global, units: &[u16]) -> Result<Vec<Char16>, Fail> {
    let mut characters = Vec::new(alloc);
    for unit in units {
        match Char16::try_from(*unit) {
            Ok(character) => characters.push(character)?,
            Err(_) => break,
        }
    }
    Ok(characters)
}
