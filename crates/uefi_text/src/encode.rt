//! Code units of Rust texts: in a vector, if the text is UCS-2, or in a buffer; and compared with
//! other units.
ghost use Rattle.std.specs.Prelude.{All, IsTrue, ◌↔◌, ◌≢◌, ◌≡◌, ◌+◌, ◌<◌, ◌≤◌, ◌++◌, if◌then◌else◌, None, Some, drop, find, length, take, unwrap_or, IfOk, IfErr, IfSome, IsSome};
ghost use Rattle.std.specs.Option.{SomeIff};
ghost use Rattle.std.specs.Vec.{vec_len, vec_capacity};
ghost use Rattle.std.specs.Char.Escape.{encode_utf16};
ghost use Rattle.std.specs.Result.{result_err};
ghost use Rattle.std.specs.Str.{chars, IsUtf8};
ghost use Rattle.uefi_text.specs.Units.{IsText, nul_terminated};
ghost use Rattle.uefi_text.specs.FromStr.{IsAcceptedChar, is_deciding_char, from_str_refusal};
ghost use Rattle.uefi_text.specs.FromStrWithBuf.{from_str_with_buf_refusal, refusal_of_char_at, with_text, with_units};

use crate::errors::{FromStrError, FromStrWithBufError};
use crate::scan::{count_undecided_chars, has_deciding_byte, is_ascii_text, widen};
use std::alloc::{AllocError, Allocator};
use std::simd::prelude::*;

/// The first character that no UCS-2 text holds.
fn find_deciding_char(text: &str) -> Option<char>
    ensures { result ≡ find is_deciding_char (chars text.now) }
{
    text.chars().find(|c| *c == '\0' || *c > '\u{ffff}')
}

/// Returns whether none of the characters of a text is refused. No byte is decoded.
fn is_undecided(text: &str) -> bool
    ensures { IsTrue result ↔ (find is_deciding_char (chars text.now) ≡ None) }
{
    !has_deciding_byte(text.as_bytes())
}

/// The number of units of a UCS-2 text, which is its number of characters; or `None` for any other text.
/// Looks at the bytes, and decodes none of them.
///
/// ```rust
/// assert_eq!(rt; text_len("B\u{f6}ot"), Some(4));
/// assert_eq!(rt; text_len("\u{1f600}"), None);
/// ```
pub fn text_len(text: &str) -> Option<usize>
    ensures text { SomeIff result (IsText (chars text.now)) (length (chars text.now)) }
    ensures undecided { SomeIff result (find is_deciding_char (chars text.now) ≡ None)
        (length (chars text.now)) }
{
    count_undecided_chars(text.as_bytes())
}

/// Appends bytes as units to a vector that has room for them, so that none is filled before.
fn push_bytes<A: Allocator>(units: &mut Vec<u16, A>, bytes: &[u8])
    requires { vec_len units.old + length bytes.now ≤ vec_capacity units.old }
    ensures items { units.new.items ≡ units.old.items ++ bytes.now }
    ensures len { vec_len units.new ≡ vec_len units.old + length bytes.now }
    ensures capacity { vec_capacity units.new ≡ vec_capacity units.old }
{
    for place in 0..bytes.len() {
        units.push_reserved(u16::from(bytes[place]));
    }
}

/// The units of ASCII bytes without NUL, and a NUL.
fn units_of_ascii<A: Allocator>(alloc: A, bytes: &[u8]) -> Result<Vec<u16, A>, AllocError>
    ensures { IfOk result (λ units. units.items ≡ nul_terminated bytes.now) }
{
    let mut units = Vec::with_capacity(alloc, bytes.len() + 1)?;
    push_bytes(&mut units, bytes);
    units.push_reserved(0);
    Ok(units)
}

/// The units of a text of UCS-2, which has `len` characters, and a NUL.
fn units_of_chars<A: Allocator>(alloc: A, text: &str, len: usize) -> Result<Vec<u16, A>, AllocError>
    requires undecided { find is_deciding_char (chars text.now) ≡ None }
    requires len { length (chars text.now) ≡ len }
    ensures { IfOk result (λ units. units.items ≡ nul_terminated (chars text.now)) }
{
    let mut units = Vec::new(alloc);
    units.resize(len + 1, 0)?;
    let _len = write_chars(text, &mut units);
    Ok(units)
}

/// Texts of fewer bytes get room for as many units as they have bytes, into which each character is pushed:
/// to count them, and to fill the room first, costs more.
const FEW: usize = 32;

/// The units of a text of UCS-2 of few bytes, and a NUL.
fn units_of_few_chars<A: Allocator>(alloc: A, text: &str) -> Result<Vec<u16, A>, AllocError>
    requires { find is_deciding_char (chars text.now) ≡ None }
    ensures { IfOk result (λ units. units.items ≡ nul_terminated (chars text.now)) }
{
    let mut units = Vec::with_capacity(alloc, text.len() + 1)?;
    for character in text.chars() {
        units.push_reserved(character as u16);
    }
    units.push_reserved(0);
    Ok(units)
}

/// Reads the first eight characters of a text if a UCS-2 text can contain each of them, and returns
/// the rest.
#[inline(always)]
fn read_eight<'a>(text: &'a str, eight: &mut [u16; 8]) -> Option<&'a str>
    ensures { IfSome result (λ rest. (chars text.now ≡ eight.new ++ chars rest.now) × IsUtf8 rest.now
        × All IsAcceptedChar eight.new) }
{
    let mut characters = text.chars();
    for place in 0..8 {
        let character = u32::from(characters.next()?);
        if character == 0 || 0xffff < character {
            return None;
        }
        eight[place] = character as u16;
    }
    Some(characters.as_str())
}

/// Writes eight units from a place on.
#[inline(always)]
fn write_lanes(units: &mut [u16], place: usize, lanes: u16x8)
    requires { place + 8 ≤ length units.old }
    ensures { units.new ≡ take place units.old ++ (lanes ++ drop (place + 8) units.old) }
{
    lanes.copy_to_slice(&mut units[place..]);
}

/// Writes characters of a text to the start of units, eight at a time, up to a character that UCS-2
/// texts cannot contain, or to near the end of the text or of the units. Returns the number of
/// units written, and the rest of the text.
#[inline(never)]
fn write_front<'a>(text: &'a str, units: &mut [u16]) -> (usize, &'a str)
    requires some { 0 < length units.old }
    ensures place { result.0 < length units.new }
    ensures count { result.0 ≤ length (chars text.now) }
    ensures rest { take result.0 (chars text.now) ++ chars result.1.now ≡ chars text.now }
    ensures accepted { All IsAcceptedChar (take result.0 (chars text.now)) }
    ensures units { units.new ≡ take result.0 (chars text.now) ++ drop result.0 units.old }
{
    let mut eight = [0; 8];
    let mut rest = text;
    let mut len = 0;
    while 8 < units.len() - len {
        let Some(others) = read_eight(rest, &mut eight) else {
            break;
        };
        write_lanes(units, len, u16x8::from_array(eight));
        rest = others;
        len += 8;
    }
    (len, rest)
}

/// Returns why a text that is not UCS-2 is refused.
fn refusal_of_text(text: &str) -> FromStrError
    requires { ¬ (find is_deciding_char (chars text.now) ≡ None) }
    ensures { Some result ≡ from_str_refusal (chars text.now) }
{
    match find_deciding_char(text) {
        Some('\0') => FromStrError::InteriorNul,
        _ => FromStrError::InvalidChar,
    }
}

/// Returns the units of a text of UCS-2 and a NUL, unless memory runs out; `None` exactly for other
/// texts.
fn try_units<A: Allocator>(alloc: A, text: &str) -> Option<Result<Vec<u16, A>, AllocError>>
    ensures some { IsSome result ↔ (find is_deciding_char (chars text.now) ≡ None) }
    ensures units { IfSome result (λ tried.
        IfOk tried (λ units. units.items ≡ nul_terminated (chars text.now))) }
{
    if is_ascii_text(text.as_bytes()) {
        return Some(units_of_ascii(alloc, text.as_bytes()));
    }
    if text.len() < FEW && is_undecided(text) {
        return Some(units_of_few_chars(alloc, text));
    }
    let len = text_len(text)?;
    Some(units_of_chars(alloc, text, len))
}

/// The units of a text of UCS-2 and a NUL, in one allocation. It has just their room, unless the text is
/// short.
pub(crate) fn units_of_text<A: Allocator>(alloc: A, text: &str) -> Result<Vec<u16, A>, FromStrError>
    ensures ok { IfOk result (λ units. units.items ≡ nul_terminated (chars text.now)) }
    ensures accepted { IfOk result (λ _. find is_deciding_char (chars text.now) ≡ None) }
    ensures refusal { IfErr result (λ error.
        error ≡ unwrap_or (from_str_refusal (chars text.now)) FromStrError.OutOfMemory) }
{
    match try_units(alloc, text) {
        Some(Ok(units)) => Ok(units),
        Some(Err(AllocError)) => Err(FromStrError::OutOfMemory),
        None => Err(refusal_of_text(text)),
    }
}

/// Writes a Rust text and a NUL into the prefix of a buffer, and returns how many units the text has:
/// `CStr16::write_str` says the rest. Takes no memory.
pub(crate) fn write_text(input: &str, buffer: &mut [u16]) -> Result<usize, FromStrWithBufError>
    ensures ok { IfOk result (λ len. len ≡ length (chars input.now)) }
    ensures refusal { result_err result
        ≡ from_str_with_buf_refusal (chars input.now) (length buffer.old) }
    ensures buffer { buffer.new ≡ with_text (chars input.now) buffer.old }
{
    if input.len() < buffer.len() && is_ascii_text(input.as_bytes()) {
        return Ok(write_ascii(input.as_bytes(), buffer));
    }
    write_chars(input, buffer)
}

/// Does what [`write_text`] does for a text of ASCII without NUL that fits in the buffer: its bytes
/// are its units.
fn write_ascii(bytes: &[u8], buffer: &mut [u16]) -> usize
    requires { length bytes.now < length buffer.old }
    ensures len { result ≡ length bytes.now }
    ensures buffer { buffer.new ≡ nul_terminated bytes.now ++ drop (length bytes.now + 1) buffer.old }
{
    let end = bytes.len();
    widen(&mut buffer[..end + 1], bytes);
    buffer[end] = 0;
    end
}

/// Does what [`write_text`] does for any text: writes its UCS-2 prefix at once, and then goes on
/// character by character.
fn write_chars(input: &str, buffer: &mut [u16]) -> Result<usize, FromStrWithBufError>
    ensures ok { IfOk result (λ len. len ≡ length (chars input.now)) }
    ensures refusal { result_err result
        ≡ from_str_with_buf_refusal (chars input.now) (length buffer.old) }
    ensures buffer { buffer.new ≡ with_text (chars input.now) buffer.old }
{
    if buffer.is_empty() {
        return Err(FromStrWithBufError::BufferTooSmall);
    }
    let (start, rest) = write_front(input, buffer);
    let mut len = start;
    let mut refusal = None;
    for character in rest.chars() {
        // Every character before the first that is refused is one unit.
        refusal = refusal.or(refusal_of_char(character, len));
        len += write_char(character, buffer, len);
        if buffer.len() <= len {
            return Err(FromStrWithBufError::BufferTooSmall);
        }
    }
    buffer[len] = 0;
    match refusal {
        Some(error) => Err(error),
        None => Ok(len),
    }
}

/// Returns why a character at an index of a text is refused, if it is.
fn refusal_of_char(character: char, place: usize) -> Option<FromStrWithBufError>
    ensures { result ≡ (if is_deciding_char character
        then Some (refusal_of_char_at character place)
        else None) }
{
    match character {
        '\0' => Some(FromStrWithBufError::InteriorNul(place)),
        '\u{1_0000}'.. => Some(FromStrWithBufError::InvalidChar(place)),
        _ => None,
    }
}

/// Writes the one or two units of a character into a buffer from an index on, and returns the
/// number of units. If that index is the last, only the first unit is written.
fn write_char(character: char, buffer: &mut [u16], place: usize) -> usize
    requires { place < length buffer.old }
    ensures len { result ≡ length (encode_utf16 character) }
    ensures buffer { buffer.new
        ≡ take place buffer.old ++ with_units (encode_utf16 character) (drop place buffer.old) }
{
    let mut pair = [0; 2];
    let units = character.encode_utf16(&mut pair);
    buffer[place] = units[0];
    if 1 < units.len() && place + 1 < buffer.len() {
        buffer[place + 1] = units[1];
    }
    units.len()
}

/// Returns whether eight units are equal to these.
#[inline(always)]
fn are_these(units: &[u16], others: &[u16; 8]) -> bool
    requires { length units.now ≡ 8 }
    ensures { IsTrue result → units.now ≡ others.now }
{
    let mut same = true;
    for i in 0..8 {
        same &= units[i] == others[i];
    }
    same
}

/// Returns the length of a common prefix of units and a text, without NUL, and the rest of the
/// text. The prefix need not be the longest.
#[inline(never)]
pub(crate) fn same_front<'a>(units: &[u16], text: &'a str) -> (usize, &'a str)
    ensures within { result.0 ≤ length units.now }
    ensures same { chars text.now ≡ take result.0 units.now ++ chars result.1.now }
    ensures no_nul { All (λ unit. unit ≢ 0) (take result.0 units.now) }
{
    let mut eight = [0; 8];
    let mut rest = text;
    let mut end = 0;
    while 8 <= units.len() - end {
        let Some(others) = read_eight(rest, &mut eight) else {
            break;
        };
        if !are_these(&units[end..end + 8], &eight) {
            break;
        }
        rest = others;
        end += 8;
    }
    (end, rest)
}
