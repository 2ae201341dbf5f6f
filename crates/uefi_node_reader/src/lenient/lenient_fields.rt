//! Fields read as people write them. The texts contain no blanks, and are in upper case except for each `x`.
#![tactic(auto)]

ghost use Rattle.std.specs.Prelude.{◌≡◌, ◌+◌, ◌^◌, ◌≤◌, IsTrue, if◌then◌else◌, length, map};
ghost use Rattle.std.specs.Option.{option_and_then, option_map};
ghost use Rattle.std.proofs.Math.ListN.{replicate};
ghost use Rattle.uefi_device_nodes.specs.Fields.{fits_shape};
ghost use Rattle.uefi_device_nodes.specs.Words.{as_word, words_of};
ghost use Rattle.uefi_node_reader.specs.ReadViews.{filled_with, rest_or_err, value_of};
ghost use Rattle.uefi_node_reader.specs.FieldReading.{as_bytes, less_one};
ghost use Rattle.uefi_node_reader.specs.LenientFields.{after_ending, after_letter, after_literal, any_field, any_number, any_word, begins_base, expected_field, expected_word, is_number, number_or_word, past_base, some_digits, spare_byte, value_or_spare};

use crate::errors::faults::{Expected, Stop};
use crate::errors::stops::stop_at;
use crate::exact::clear_texts::first_of;
use crate::exact::fields::{after, last, put_low, read_value};
use crate::exact::numerals::{digit_of, digits_after};
use crate::texts::Text;
use uefi_device_nodes::node_table::rows::{Shape, Spare};
use uefi_device_nodes::node_table::word_lists::words_of;
use uefi_device_nodes::node_table::words::{Word, Words};

/// Returns whether a text begins with `0x`.
pub(crate) fn begins_base<T: Text>(text: T) -> bool
    ensures { result ≡ begins_base (T.bytes text) }
{
    after(b"0x", text).is_some()
}

/// Returns the text after `0x`, or the whole text if it does not begin with `0x`.
pub(crate) fn past_base<T: Text>(text: T) -> T
    ensures { T.bytes result ≡ past_base (T.bytes text) }
{
    match after(b"0x", text) {
        Some(rest) => rest,
        None => text,
    }
}

/// Reads a byte in either case, and returns the rest of the text.
pub(crate) fn after_letter<T: Text>(letter: u8, text: T) -> Option<T>
    ensures { option_map T.bytes result ≡ after_letter letter (T.bytes text) }
{
    let (first, rest) = text.split_first()?;
    if letter.to_ascii_uppercase() != first.to_ascii_uppercase() {
        return None;
    }
    Some(rest)
}

/// Reads a literal of the table in either case, and returns the rest of the text, or the byte that differs.
/// The text may omit the literal's `0x`. A `0x` at the end of the literal is left to the number after it.
pub(crate) fn after_literal<T: Text>(literal: &[u8], text: T) -> Result<T, Stop>
    ensures { rest_or_err T.bytes result ≡ after_literal literal.now (T.bytes text) }
{
    let mut left = literal;
    let mut at_x = false;
    let mut rest = text;
    'letters: while let [letter, others @ ..] = left {
        if at_x {
            rest = if others.is_empty() {
                rest
            } else {
                past_base(rest)
            };
            at_x = false;
        } else if begins_base(left) {
            at_x = true;
        } else {
            let Some(after) = after_letter(*letter, rest) else {
                return Err(stop_at(rest, Expected::Byte(*letter)));
            };
            rest = after;
        }
        left = others;
    }
    Ok(rest)
}

/// Reads a number up to `last` of at least one digit, and returns the rest of the text too.
fn some_digits<T: Text>(base: u64, last: u64, text: T) -> Option<(u64, T)>
    ensures { value_of T.bytes result ≡ some_digits base (last + 1) (T.bytes text) }
{
    let (first, _) = text.split_first()?;
    if base <= digit_of(first) {
        return None;
    }
    digits_after(base, last, 0, text)
}

/// Reads a number up to `last`, in decimal, or in hexadecimal after `0x`. Returns the rest of the text too.
pub(crate) fn any_number<T: Text>(last: u64, text: T) -> Option<(u64, T)>
    ensures { value_of T.bytes result ≡ any_number (last + 1) (T.bytes text) }
{
    if begins_base(text) {
        return some_digits(16, last, past_base(text));
    }
    some_digits(10, last, text)
}

/// Reads a number up to `last`, or the word `DEFAULT` for 0. Returns the rest of the text too.
fn number_or_word<T: Text>(last: u64, text: T) -> Option<(u64, T)>
    ensures { value_of T.bytes result ≡ number_or_word (last + 1) (T.bytes text) }
{
    if digit_of(first_of(text)) < 10 {
        return any_number(last, text);
    }
    Some((0, after(b"DEFAULT", text)?))
}

/// Fills a buffer with the bytes of a number, or of 0 for the word `DEFAULT` if `or_word`. Returns the rest
/// of the text.
fn number_into<T: Text>(or_word: bool, found: &mut [u8], text: T) -> Option<T>
    requires some { 1 ≤ length found.old }
    requires few { length found.old ≤ 8 }
    ensures { filled_with T.bytes found.new result ≡ option_and_then (as_bytes (length found.old))
        (if or_word then number_or_word (256 ^ length found.old) (T.bytes text)
        else any_number (256 ^ length found.old) (T.bytes text)) }
{
    let most = last(found.len());
    let (value, rest) = if or_word {
        number_or_word(most, text)?
    } else {
        any_number(most, text)?
    };
    put_low(found, value);
    Some(rest)
}

/// Fills a buffer of one byte with one less than a number. Returns the rest of the text.
fn next_into<T: Text>(found: &mut [u8], text: T) -> Option<T>
    ensures { filled_with T.bytes found.new result
        ≡ option_and_then (as_bytes (length found.old))
        (option_and_then less_one (any_number 257 (T.bytes text))) }
{
    let (value, rest) = any_number(256, text)?;
    if value == 0 {
        return None;
    }
    put_low(found, value - 1);
    Some(rest)
}

/// Reads a word in either case, and returns its number and the rest of the text.
fn any_word<T: Text>(words: &[Word], text: T) -> Option<(u64, T)>
    ensures { value_of T.bytes result ≡ any_word (map as_word words.now) (T.bytes text) }
{
    for word in words {
        if let Ok(rest) = after_literal(word.text.as_bytes(), text) {
            return Some((word.number as u64, rest));
        }
    }
    None
}

/// Fills a buffer with the bytes of the number of a word. Returns the rest of the text.
fn word_into<T: Text>(words: Words, found: &mut [u8], text: T) -> Option<T>
    ensures { filled_with T.bytes found.new result
        ≡ option_and_then (as_bytes (length found.old)) (any_word (words_of words) (T.bytes text)) }
{
    let (value, rest) = any_word(words_of(words), text)?;
    put_low(found, value);
    Some(rest)
}

/// Fills a buffer with the bytes of a field. Returns the rest of the text.
fn read_field<T: Text>(shape: Shape, found: &mut [u8], text: T) -> Option<T>
    requires { IsTrue (fits_shape shape (length found.old)) }
    ensures { filled_with T.bytes found.new result
        ≡ any_field shape (length found.old) (T.bytes text) }
{
    match shape {
        Shape::Hexadecimal => number_into(false, found, text),
        Shape::Decimal => number_into(false, found, text),
        Shape::OrDefault => number_into(true, found, text),
        Shape::Next => next_into(found, text),
        Shape::Word(words) => word_into(words, found, text),
        _ => read_value(shape, found, past_base(text)),
    }
}

/// Returns whether a field of this shape may be omitted: whether it is a number.
fn is_number(shape: Shape) -> bool
    ensures { result ≡ is_number shape }
{
    matches!(shape, Shape::Hexadecimal | Shape::Decimal)
}

/// Returns each byte of a number that is omitted.
fn spare_byte(spare: Spare) -> u8
    ensures { result ≡ spare_byte spare }
{
    match spare {
        Spare::Zeros => 0,
        Spare::Ones => 0xff,
    }
}

/// Fills a buffer with the bytes of a field, or with those of a number that is omitted. Returns the rest of
/// the text.
pub(crate) fn value_or_spare<T: Text>(
    shape: Shape,
    spare: Spare,
    found: &mut [u8],
    text: T,
) -> Option<T>
    requires { IsTrue (fits_shape shape (length found.old)) }
    ensures { filled_with T.bytes found.new result
        ≡ value_or_spare shape spare (length found.old) (T.bytes text) }
{
    if is_number(shape) && first_of(text) == b')' {
        found.fill(spare_byte(spare));
        return Some(text);
    }
    read_field(shape, found, text)
}

/// Reads the ending of a field, and returns the rest of the text. Before `)`, a comma and its `0x` may be
/// omitted.
pub(crate) fn after_ending<T: Text>(ending: &[u8], text: T) -> Result<T, Stop>
    ensures { rest_or_err T.bytes result ≡ after_ending ending.now (T.bytes text) }
{
    if first_of(text) == b')' && after_literal(ending, b",".as_slice()).is_ok() {
        return Ok(text);
    }
    after_literal(ending, text)
}

/// Returns what is expected where a list requires a word.
fn expected_word(words: Words) -> Expected
    ensures { result ≡ expected_word words }
{
    match words {
        Words::Parity => Expected::Parity,
        Words::StopBits => Expected::StopBits,
        _ => Expected::AsPrinted,
    }
}

/// Returns what is expected where a field is required.
pub(crate) fn expected_field(shape: Shape, width: usize) -> Expected
    requires fits { IsTrue (fits_shape shape width) }
    requires few { width ≤ 255 }
    ensures { result ≡ expected_field shape width }
{
    match shape {
        Shape::Hexadecimal => Expected::Number(last(width)),
        Shape::Decimal => Expected::Number(last(width)),
        Shape::OrDefault => Expected::NumberOrDefault(last(width)),
        Shape::Back => Expected::Digits(width * 2),
        Shape::Forth => Expected::Digits(width * 2),
        Shape::Dashed => Expected::DashedDigits(width * 2),
        Shape::Next => Expected::NumberFromOne(256),
        Shape::Eisa => Expected::Id,
        Shape::Word(words) => expected_word(words),
    }
}
