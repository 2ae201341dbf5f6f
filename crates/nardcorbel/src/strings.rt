//! Strings in units that C holds: checks, comparisons, case and patterns, as in the firmware's
//! Unicode collation (UEFI Specification 2.10, section 21.1).
//!
//! The text of units is the units before their first NUL, or all units if there is no NUL. Only the
//! checks reject units; the other calls accept surrogates too, because names on FAT volumes may have
//! them.
ghost use Rattle.std.specs.Prelude.{◌≡◌, ◌≢◌, ◌↔◌, ◌++◌, drop, length, true, IsTrue};
ghost use Rattle.std.specs.Cmp.Lexicographic.{slice_cmp};
ghost use Rattle.std.specs.Ordering.{nat_cmp};
ghost use Rattle.std.specs.Str.{IsAscii};
ghost use Rattle.uefi_text.specs.Case.{caseless_order, lowers, uppers};
ghost use Rattle.uefi_text.specs.FromSliceWithNul.{with_nul_refusal};
ghost use Rattle.uefi_text.specs.Patterns.{Matches};
ghost use Rattle.uefi_text.specs.Units.{BeginsWithString, IsString, without_nul};
ghost use Rattle.nardcorbel.specs.Outcomes.{ShowsNumber, when_read, unless};
ghost use Rattle.nardcorbel.specs.Outcomes.Outcome.{Number};
ghost use Rattle.nardcorbel.specs.Reading.{read_string};
ghost use Rattle.nardcorbel.specs.Reasons.{order_number};
ghost use Rattle.nardcorbel.specs.Refusals.{with_nul_refused};
ghost use Rattle.nardcorbel.specs.Strings.{text_until_nul};

use crate::outcomes::{Refusal, read_string, refuse};
use crate::reasons::{OK, order_number, with_nul_reason};
use uefi_text::case::{cmp_ignore_case, eq_ignore_case, make_lowercase, make_uppercase, upper};
use uefi_text::laws::pattern_rules;
use uefi_text::patterns::matches;
use uefi_text::scan::{find_nul, is_ascii};
use uefi_text::{CStr16, FromSliceWithNulError};

/// Returns why units are not one string.
fn with_nul_refused(error: FromSliceWithNulError, units: &[u16]) -> Refusal
    ensures { result ≡ with_nul_refused units.now error }
{
    let place = match error {
        FromSliceWithNulError::InvalidChar(index) => index,
        FromSliceWithNulError::InteriorNul(index) => index,
        FromSliceWithNulError::NotNulTerminated
        | FromSliceWithNulError::NotAligned
        | FromSliceWithNulError::OutOfMemory => units.len(),
    };
    Refusal::at(with_nul_reason(error), place)
}

/// The units before the first NUL, or all of them if there is none.
pub(crate) fn until_nul(units: &[u16]) -> &[u16]
    ensures { result.now ≡ text_until_nul units.now }
{
    match find_nul(units) {
        Some(end) => &units[..end],
        None => units,
    }
}

/// Checks that the units are exactly one string: a NUL is the last unit, and no unit is a surrogate.
///
/// At `OK`, `len` becomes the length of the text. Otherwise the first unit that is a NUL or a
/// surrogate decides: the call returns `INTERIOR_NUL` or `INVALID_CHAR`, and `fault` becomes its
/// index. If no unit is a NUL, the call returns `NO_NUL`, and `fault` becomes the number of units.
/// Does not allocate.
#[unsafe(no_mangle)]
pub extern "C" fn nard_string_check(units: &[u16], len: &mut usize, fault: &mut usize) -> u32
    ensures shows { ShowsNumber (unless (with_nul_refusal units.now) (with_nul_refused units.now)
        (Number (length (without_nul units.now)))) len.old fault.old result len.new fault.new }
    ensures accepts { (result ≡ OK) ↔ IsString units.now }
{
    match CStr16::from_u16_with_nul(units) {
        Ok(string) => {
            *len = string.num_chars();
            OK
        }
        Err(error) => refuse(with_nul_refused(error, units), len, fault),
    }
}

/// Returns the length of the string that the units begin with. What follows the first NUL is
/// ignored, but must be initialized.
///
/// At `OK`, `len` becomes the length of the text. The call returns `INVALID_CHAR` if a surrogate
/// comes before the first NUL, and `fault` becomes its index. It returns `NO_NUL` if no unit is a
/// NUL, and `fault` becomes the number of units. Does not allocate.
#[unsafe(no_mangle)]
pub extern "C" fn nard_string_length(units: &[u16], len: &mut usize, fault: &mut usize) -> u32
    ensures shows { ShowsNumber (when_read (read_string units.now) (λ text. Number (length text)))
        len.old fault.old result len.new fault.new }
    ensures accepts { (result ≡ OK) ↔ BeginsWithString units.now }
{
    match read_string(units) {
        Ok(string) => {
            *len = string.num_chars();
            OK
        }
        Err(refusal) => refuse(refusal, len, fault),
    }
}

/// Returns `true` only if the first units already show that two texts differ without case. Most texts that
/// differ do so there, before the ends of both are searched.
#[inline(always)]
fn begin_apart(first: &[u16], second: &[u16]) -> bool
    ensures { result ≡ true → uppers (text_until_nul first.now) ≢ uppers (text_until_nul second.now) }
{
    if first.is_empty() || second.is_empty() {
        return false;
    }
    upper(first[0]) != upper(second[0])
}

/// Returns whether two texts are the same. Does not allocate.
#[unsafe(no_mangle)]
pub extern "C" fn nard_string_equal(first: &[u16], second: &[u16]) -> bool
    ensures { IsTrue result ↔ (text_until_nul first.now ≡ text_until_nul second.now) }
{
    if begin_apart(first, second) {
        return false;
    }
    // If all units are the same, no end is searched.
    first == second || until_nul(first) == until_nul(second)
}

/// Returns the order of two texts, by code unit: -1, 0 or 1 if the first is less, equal or greater.
/// Does not allocate.
#[unsafe(no_mangle)]
pub extern "C" fn nard_string_compare(first: &[u16], second: &[u16]) -> i32
    ensures { result
        ≡ order_number (slice_cmp nat_cmp (text_until_nul first.now) (text_until_nul second.now)) }
{
    order_number(until_nul(first).cmp(until_nul(second)))
}

/// Returns whether each character of a text is ASCII. Does not allocate.
#[unsafe(no_mangle)]
pub extern "C" fn nard_string_is_ascii(units: &[u16]) -> bool
    ensures { IsTrue result ↔ IsAscii (text_until_nul units.now) }
{
    is_ascii(until_nul(units))
}

/// Returns whether two texts are the same without case. Does not allocate.
#[unsafe(no_mangle)]
pub extern "C" fn nard_string_equal_ignore_case(first: &[u16], second: &[u16]) -> bool
    ensures { IsTrue result ↔ (uppers (text_until_nul first.now) ≡ uppers (text_until_nul second.now)) }
{
    if begin_apart(first, second) {
        return false;
    }
    // If all units are the same, no end is searched.
    eq_ignore_case(first, second) || eq_ignore_case(until_nul(first), until_nul(second))
}

/// Returns the order of two texts without case, as `StriColl` does: -1, 0 or 1 if the first is
/// less, equal or greater. Does not allocate.
#[unsafe(no_mangle)]
pub extern "C" fn nard_string_compare_ignore_case(first: &[u16], second: &[u16]) -> i32
    ensures { result
        ≡ order_number (caseless_order (text_until_nul first.now) (text_until_nul second.now)) }
{
    order_number(cmp_ignore_case(until_nul(first), until_nul(second)))
}

/// Returns `true` only if the first units of a text and of a pattern already show that they do not
/// match. Most names that a pattern does not match are told there, before the ends of both are searched.
#[inline(always)]
pub(crate) fn begin_otherwise(units: &[u16], pattern: &[u16]) -> bool
    ensures { result ≡ true → ¬ Matches (text_until_nul pattern.now) (text_until_nul units.now) }
{
    pattern_rules();
    if units.is_empty() || pattern.is_empty() {
        return false;
    }
    let (unit, first) = (units[0], pattern[0]);
    let is_itself = (first != 0x2a) & (first != 0x3f) & (first != 0x5b);
    is_itself & (upper(unit) != upper(first))
}

/// Returns whether a pattern matches a whole text without case, as `MetaiMatch` does. For p units of
/// the pattern's text and t of the other, `CountedReader::matches` reads fewer than (p + 1) * (t + 1)
/// units of each. Does not allocate.
#[unsafe(no_mangle)]
pub extern "C" fn nard_string_matches(units: &[u16], pattern: &[u16]) -> bool
    ensures { IsTrue result ↔ Matches (text_until_nul pattern.now) (text_until_nul units.now) }
{
    !begin_otherwise(units, pattern) && matches(until_nul(units), until_nul(pattern))
}

/// Converts a text to upper case, as `StrUpr` does, and returns its length. The rest of the buffer is
/// unchanged. Does not allocate.
#[unsafe(no_mangle)]
pub extern "C" fn nard_string_make_uppercase(buffer: &mut [u16]) -> usize
    ensures length { result ≡ length (text_until_nul buffer.old) }
    ensures buffer { buffer.new
        ≡ uppers (text_until_nul buffer.old) ++ drop (length (text_until_nul buffer.old)) buffer.old }
{
    let len = until_nul(buffer).len();
    make_uppercase(&mut buffer[..len]);
    len
}

/// Converts a text to lower case, as `StrLwr` does, and returns its length. The rest of the buffer is
/// unchanged. Does not allocate.
#[unsafe(no_mangle)]
pub extern "C" fn nard_string_make_lowercase(buffer: &mut [u16]) -> usize
    ensures length { result ≡ length (text_until_nul buffer.old) }
    ensures buffer { buffer.new
        ≡ lowers (text_until_nul buffer.old) ++ drop (length (text_until_nul buffer.old)) buffer.old }
{
    let len = until_nul(buffer).len();
    make_lowercase(&mut buffer[..len]);
    len
}
