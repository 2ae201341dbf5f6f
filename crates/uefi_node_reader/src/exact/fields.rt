//! Fields of nodes, read from their texts.
#![tactic(auto)]

ghost use Rattle.std.specs.Prelude.{◌≡◌, ◌+◌, ◌*◌, ◌^◌, ◌<◌, ◌≤◌, IfSome, IsTrue, length, map, if◌then◌else◌};
ghost use Rattle.std.specs.Option.{option_and_then, option_map};
ghost use Rattle.uefi_node_reader.specs.ReadViews.{filled_with, value_of};
ghost use Rattle.uefi_node_reader.specs.FieldReading.{as_bytes, byte_read, bytes_read, default_read, eisa_read, field_read, letter_of, letters_read, low_bytes, next_read, turned};
ghost use Rattle.uefi_node_reader.specs.WordReading.{after, word_read};
ghost use Rattle.uefi_device_nodes.specs.Words.{as_word, words_of};
ghost use Rattle.uefi_device_nodes.specs.Fields.{fits_shape};
ghost use Rattle.uefi_node_reader.specs.Numerals.{number_read};

use crate::exact::numerals::{digit_of, number};
use crate::texts::Text;
use uefi_device_nodes::node_table::rows::Shape;
use uefi_device_nodes::node_table::word_lists::words_of;
use uefi_device_nodes::node_table::words::{Word, Words};

/// Reads a literal at the start of a text, and returns the rest.
pub(crate) fn after<T: Text>(literal: &[u8], text: T) -> Option<T>
    ensures { option_map T.bytes result ≡ after literal.now (T.bytes text) }
{
    let mut left = literal;
    let mut rest = text;
    'bytes: while let [byte, others @ ..] = left {
        match rest.split_first() {
            Some((first, after)) => {
                if first != *byte {
                    return None;
                }
                rest = after;
            }
            None => return None,
        }
        left = others;
    }
    Some(rest)
}

/// Reads a byte of two digits, and returns the rest of the text too.
pub(crate) fn byte<T: Text>(text: T) -> Option<(u8, T)>
    ensures { value_of T.bytes result ≡ byte_read (T.bytes text) }
{
    let (first, after) = text.split_first()?;
    let (second, rest) = after.split_first()?;
    let (high, low) = (digit_of(first), digit_of(second));
    if high >= 16 || low >= 16 {
        return None;
    }
    Some(((high * 16 + low) as u8, rest))
}

/// Reads the next byte of two digits, after `between` unless it is the first, and returns the rest of the
/// text too.
fn next_byte<T: Text>(between: &[u8], is_first: bool, text: T) -> Option<(u8, T)>
    ensures { value_of T.bytes result
        ≡ (if is_first then byte_read (T.bytes text)
        else option_and_then byte_read (after between.now (T.bytes text))) }
{
    if is_first {
        return byte(text);
    }
    byte(after(between, text)?)
}

/// Fills a buffer with bytes of two digits each, with `between` between each two. Returns the rest of the
/// text.
fn fill<T: Text>(between: &[u8], found: &mut [u8], text: T) -> Option<T>
    ensures { filled_with T.bytes found.new result
        ≡ bytes_read between.now (length found.old) (T.bytes text) }
{
    let mut rest = text;
    for place in 0..found.len() {
        let (byte, after_byte) = next_byte(between, place == 0, rest)?;
        found[place] = byte;
        rest = after_byte;
    }
    Some(rest)
}

/// Returns the highest number of a width.
pub(crate) fn last(width: usize) -> u64
    requires some { 1 ≤ width }
    requires few { width ≤ 8 }
    ensures { result + 1 ≡ 256 ^ width }
{
    match width {
        1 => 0xff,
        2 => 0xffff,
        3 => 0xff_ffff,
        4 => 0xffff_ffff,
        5 => 0xff_ffff_ffff,
        6 => 0xffff_ffff_ffff,
        7 => 0xff_ffff_ffff_ffff,
        _ => u64::MAX,
    }
}

/// Fills a buffer with the low bytes of a number, the lowest first.
pub(crate) fn put_low(found: &mut [u8], number: u64)
    ensures { found.new ≡ low_bytes (length found.old) number }
{
    let mut rest = number;
    for place in 0..found.len() {
        found[place] = (rest % 256) as u8;
        rest /= 256;
    }
}

/// Fills a buffer with the bytes of a number in a base. Returns the rest of the text.
fn number_into<T: Text>(base: u64, found: &mut [u8], text: T) -> Option<T>
    requires some { 1 ≤ length found.old }
    requires few { length found.old ≤ 8 }
    ensures { filled_with T.bytes found.new result
        ≡ option_and_then (as_bytes (length found.old))
        (number_read base (256 ^ length found.old) (T.bytes text)) }
{
    let (value, rest) = number(base, last(found.len()), text)?;
    put_low(found, value);
    Some(rest)
}

/// Reads a decimal number from 1 to `last`, or the word `DEFAULT` for 0. Returns the rest of the text too.
fn number_or_default<T: Text>(last: u64, text: T) -> Option<(u64, T)>
    ensures { value_of T.bytes result ≡ default_read (last + 1) (T.bytes text) }
{
    match number(10, last, text) {
        Some((0, _)) => None,
        Some(read) => Some(read),
        None => Some((0, after(b"DEFAULT", text)?)),
    }
}

/// Fills a buffer with the bytes of a decimal number, or of 0 for the word `DEFAULT`. Returns the rest of
/// the text.
fn default_into<T: Text>(found: &mut [u8], text: T) -> Option<T>
    requires some { 1 ≤ length found.old }
    requires few { length found.old ≤ 8 }
    ensures { filled_with T.bytes found.new result
        ≡ option_and_then (as_bytes (length found.old))
        (default_read (256 ^ length found.old) (T.bytes text)) }
{
    let (value, rest) = number_or_default(last(found.len()), text)?;
    put_low(found, value);
    Some(rest)
}

/// Fills a buffer of one byte with one less than a hexadecimal number. Returns the rest of the text.
fn next_into<T: Text>(found: &mut [u8], text: T) -> Option<T>
    requires { length found.old ≡ 1 }
    ensures { filled_with T.bytes found.new result
        ≡ option_and_then (as_bytes (length found.old)) (next_read (T.bytes text)) }
{
    let (value, rest) = number(16, 256, text)?;
    if value == 0 {
        return None;
    }
    put_low(found, value - 1);
    Some(rest)
}

/// Returns the five bits that a letter of an ID encodes, or 32 for another byte.
fn letter_of(byte: u8) -> u64
    ensures { result ≡ letter_of byte }
{
    match byte {
        b'@'..=b'_' => u64::from(byte - b'@'),
        _ => 32,
    }
}

/// Reads the 15 bits of three letters, and returns the rest of the text too.
fn letters<T: Text>(text: T) -> Option<(u64, T)>
    ensures letters { value_of T.bytes result ≡ letters_read (T.bytes text) }
    ensures small { IfSome result (λ x. x.0 < 32768) }
{
    let (first, rest) = text.split_first()?;
    let (second, rest) = rest.split_first()?;
    let (third, rest) = rest.split_first()?;
    let (first, second, third) = (letter_of(first), letter_of(second), letter_of(third));
    if first >= 32 || second >= 32 || third >= 32 {
        return None;
    }
    Some((first * 1024 + second * 32 + third, rest))
}

/// Reads an EISA ID, or 0, and returns the rest of the text too.
fn eisa<T: Text>(text: T) -> Option<(u64, T)>
    ensures { value_of T.bytes result ≡ eisa_read (T.bytes text) }
{
    if let Some(rest) = after(b"0", text) {
        return Some((0, rest));
    }
    let (letters, rest) = letters(text)?;
    let (high, rest) = byte(rest)?;
    let (low, rest) = byte(rest)?;
    let id = letters + (u64::from(high) * 256 + u64::from(low)) * 65536;
    if id == 0 {
        return None;
    }
    Some((id, rest))
}

/// Fills a buffer with the bytes of an EISA ID, or of 0. Returns the rest of the text.
fn eisa_into<T: Text>(found: &mut [u8], text: T) -> Option<T>
    ensures { filled_with T.bytes found.new result
        ≡ option_and_then (as_bytes (length found.old)) (eisa_read (T.bytes text)) }
{
    let (value, rest) = eisa(text)?;
    put_low(found, value);
    Some(rest)
}

/// Reads a word, and returns its number and the rest of the text.
fn word<T: Text>(words: &[Word], text: T) -> Option<(u64, T)>
    ensures { value_of T.bytes result ≡ word_read (map as_word words.now) (T.bytes text) }
{
    for word in words {
        if let Some(rest) = after(word.text.as_bytes(), text) {
            return Some((word.number as u64, rest));
        }
    }
    None
}

/// Fills a buffer with the bytes of the number of a word. Returns the rest of the text.
fn word_into<T: Text>(words: Words, found: &mut [u8], text: T) -> Option<T>
    ensures { filled_with T.bytes found.new result
        ≡ option_and_then (as_bytes (length found.old)) (word_read (words_of words) (T.bytes text)) }
{
    let (value, rest) = word(words_of(words), text)?;
    put_low(found, value);
    Some(rest)
}

/// Fills a buffer with bytes of two digits each, the last byte first. Returns the rest of the text.
fn fill_back<T: Text>(between: &[u8], found: &mut [u8], text: T) -> Option<T>
    ensures { filled_with T.bytes found.new result
        ≡ option_and_then turned (bytes_read between.now (length found.old) (T.bytes text)) }
{
    let rest = fill(between, found, text)?;
    found.reverse();
    Some(rest)
}

/// Fills a buffer with the bytes of a field. Returns the rest of the text.
pub(crate) fn read_value<T: Text>(shape: Shape, found: &mut [u8], text: T) -> Option<T>
    requires { IsTrue (fits_shape shape (length found.old)) }
    ensures { filled_with T.bytes found.new result
        ≡ field_read shape (length found.old) (T.bytes text) }
{
    match shape {
        Shape::Hexadecimal => number_into(16, found, text),
        Shape::Decimal => number_into(10, found, text),
        Shape::OrDefault => default_into(found, text),
        Shape::Back => fill_back(&[], found, text),
        Shape::Forth => fill(&[], found, text),
        Shape::Dashed => fill_back(b"-", found, text),
        Shape::Next => next_into(found, text),
        Shape::Eisa => eisa_into(found, text),
        Shape::Word(words) => word_into(words, found, text),
    }
}
