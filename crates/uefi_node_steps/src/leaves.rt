//! The leaves of forms, read from a text.
#![tactic(auto)]

ghost use Rattle.std.specs.Prelude.{◌≡◌, ◌==◌, ◌+◌, ◌<◌, IfSome};
ghost use Rattle.std.specs.Char.{to_ascii_uppercase};
ghost use Rattle.std.specs.Option.{option_map};
ghost use Rattle.uefi_node_steps.specs.Leaves.{after_base, any_number, at_digits, digit_of, digits_read, has_comma, has_digit, id_letters, is_blank, is_spare, letter_of, literal, letter_read, letters_read, number_read, pair, pair_read, past_blanks, stop_at, two_decimals};
ghost use Rattle.uefi_node_steps.specs.Views.{rest_of, value_of};

use crate::steps::{Expected, Stop};
use crate::texts::Text;

/// Returns where a text stops being read.
pub(crate) fn stop_at<T: Text>(text: T, expected: Expected) -> Stop
    ensures { result ≡ stop_at (T.codes text) expected }
{
    Stop {
        left: text.len(),
        expected,
    }
}

/// Returns whether a letter is skipped between the parts of a call: a blank, a line end, or a brace around
/// a GUID.
pub(crate) fn is_blank(letter: u8) -> bool
    ensures { result ≡ is_blank letter }
{
    letter.is_ascii_whitespace() || letter == b'{' || letter == b'}'
}

/// Returns a text without the blanks at its start.
pub(crate) fn past_blanks<T: Text>(text: T) -> T
    ensures { T.codes result ≡ past_blanks (T.codes text) }
{
    let mut rest = text;
    'blanks: while let Some((first, others)) = rest.split_first() {
        if !is_blank(first) {
            return rest;
        }
        rest = others;
    }
    rest
}

/// Returns whether letters are the same in either case.
fn are_alike(one: u8, other: u8) -> bool
    ensures { result ≡ (to_ascii_uppercase one == to_ascii_uppercase other) }
{
    one.to_ascii_uppercase() == other.to_ascii_uppercase()
}

/// Reads a letter.
fn letter<T: Text>(letter: u8, text: T) -> Result<T, Stop>
    ensures { rest_of T.codes result ≡ letter_read letter (T.codes text) }
{
    match text.split_first() {
        Some((first, rest)) if are_alike(letter, first) => Ok(rest),
        _ => Err(stop_at(text, Expected::Letter(letter))),
    }
}

/// Reads letters.
pub(crate) fn letters<T: Text>(letters: &[u8], text: T) -> Result<T, Stop>
    ensures { rest_of T.codes result ≡ letters_read letters.now (T.codes text) }
{
    let mut rest = text;
    for byte in letters {
        rest = letter(*byte, past_blanks(rest))?;
    }
    Ok(rest)
}

/// Returns whether people may leave this literal out before this text.
pub(crate) fn is_spare<T: Text>(letters: &[u8], text: T) -> bool
    ensures { result ≡ is_spare letters.now (T.codes text) }
{
    matches!(letters, [b',']) && matches!(text.split_first(), Some((b')', _)))
}

/// Reads a literal.
pub(crate) fn literal<T: Text>(wanted: &[u8], text: T) -> Result<T, Stop>
    ensures { rest_of T.codes result ≡ (literal wanted.now).read (T.codes text) }
{
    if is_spare(wanted, past_blanks(text)) {
        return Ok(text);
    }
    letters(wanted, text)
}

/// Returns the value of a digit, or 16 for another letter.
fn digit_of(letter: u8) -> u64
    ensures { result ≡ digit_of letter }
{
    match letter {
        b'0'..=b'9' => u64::from(letter - b'0'),
        b'A'..=b'F' => u64::from(letter - b'A') + 10,
        _ => 16,
    }
}

/// Returns whether a text begins with a digit.
pub(crate) fn has_digit<T: Text>(base: u64, text: T) -> bool
    ensures { result ≡ has_digit base (T.codes text) }
{
    match text.split_first() {
        Some((first, _)) => digit_of(first.to_ascii_uppercase()) < base,
        None => false,
    }
}

/// Returns whether a text begins with two decimal digits.
pub(crate) fn two_decimals<T: Text>(text: T) -> bool
    ensures { result ≡ two_decimals (T.codes text) }
{
    match text.split_first() {
        Some((first, rest)) => digit_of(first.to_ascii_uppercase()) < 10 && has_digit(10, rest),
        None => false,
    }
}

/// Reads all digits at the start of a text, after digits with the value `number`.
fn digits<T: Text>(base: u64, last: u64, number: u64, text: T) -> Option<(u64, T)>
    ensures { option_map (λ x. (x.0, T.codes x.1)) result
        ≡ digits_read base (last + 1) number (T.codes text) }
{
    let mut value = number;
    let mut rest = text;
    'digits: while let Some((first, others)) = rest.split_first() {
        let digit = digit_of(first.to_ascii_uppercase());
        if base <= digit {
            return Some((value, rest));
        }
        let next = value.checked_mul(base)?.checked_add(digit)?;
        if last < next {
            return None;
        }
        value = next;
        rest = others;
    }
    Some((value, rest))
}

/// Reads a number up to `last`.
fn number<T: Text>(base: u64, last: u64, text: T) -> Option<(u64, T)>
    ensures { option_map (λ x. (x.0, T.codes x.1)) result ≡ number_read base (last + 1) (T.codes text) }
{
    if !has_digit(base, text) {
        return None;
    }
    digits(base, last, 0, text)
}

/// Reads `0x`.
fn after_base<T: Text>(text: T) -> Option<T>
    ensures { option_map (λ x. T.codes x) result ≡ after_base (T.codes text) }
{
    let (first, rest) = text.split_first()?;
    let (second, rest) = rest.split_first()?;
    if first == b'0' && second.to_ascii_uppercase() == b'X' {
        return Some(rest);
    }
    None
}

/// Reads a number in decimal, or in hexadecimal after `0x`.
pub(crate) fn any_number<T: Text>(last: u64, text: T) -> Option<(u64, T)>
    ensures { option_map (λ x. (x.0, T.codes x.1)) result ≡ any_number (last + 1) (T.codes text) }
{
    match after_base(text) {
        Some(rest) => number(16, last, rest),
        None => number(10, last, text),
    }
}

/// Reads two digits.
pub(crate) fn two_digits<T: Text>(text: T) -> Option<(u8, T)>
    ensures { option_map (λ x. (x.0, T.codes x.1)) result ≡ pair_read (T.codes text) }
{
    let (first, rest) = text.split_first()?;
    let (second, rest) = rest.split_first()?;
    let (high, low) = (
        digit_of(first.to_ascii_uppercase()),
        digit_of(second.to_ascii_uppercase()),
    );
    if high >= 16 || low >= 16 {
        return None;
    }
    Some(((high * 16 + low) as u8, rest))
}

/// Reads a byte of two digits.
pub(crate) fn pair<T: Text>(text: T) -> Result<(u8, T), Stop>
    ensures { value_of T.codes result ≡ pair.read (T.codes text) }
{
    match two_digits(text) {
        Some(read) => Ok(read),
        None => Err(stop_at(text, Expected::Digits(2))),
    }
}

/// Returns a text from its digits on, which may follow `0x`.
pub(crate) fn at_digits<T: Text>(text: T) -> T
    ensures { T.codes result ≡ at_digits (T.codes text) }
{
    let text = past_blanks(text);
    after_base(text).unwrap_or(text)
}

/// Returns whether a comma is next.
pub(crate) fn has_comma<T: Text>(text: T) -> bool
    ensures { result ≡ has_comma (T.codes text) }
{
    matches!(past_blanks(text).split_first(), Some((b',', _)))
}

/// Returns the five bits that a letter of an EISA ID encodes, or 32.
fn letter_of(letter: u8) -> u64
    ensures { result ≡ letter_of letter }
{
    match letter {
        64..=95 => u64::from(letter - 64),
        _ => 32,
    }
}

/// Reads the three letters of an EISA ID.
pub(crate) fn id_letters<T: Text>(text: T) -> Option<(u64, T)>
    ensures value { option_map (λ x. (x.0, T.codes x.1)) result ≡ id_letters (T.codes text) }
    ensures small { IfSome result (λ x. x.0 < 32768) }
{
    let (first, rest) = text.split_first()?;
    let (second, rest) = rest.split_first()?;
    let (third, rest) = rest.split_first()?;
    let first = letter_of(first.to_ascii_uppercase());
    let second = letter_of(second.to_ascii_uppercase());
    let third = letter_of(third.to_ascii_uppercase());
    if 32 <= first || 32 <= second || 32 <= third {
        return None;
    }
    Some((first * 1024 + second * 32 + third, rest))
}
