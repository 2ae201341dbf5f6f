//! The fields of forms, read.
#![tactic(auto)]

ghost use Rattle.std.specs.Prelude.{◌≡◌, ◌+◌, ◌^◌, ◌<◌, ◌≤◌, ◌∷◌, [], IsTrue, codes, length, map};
ghost use Rattle.std.specs.Option.{option_map};
ghost use Rattle.std.specs.Result.{result_map_both};
ghost use Rattle.uefi_node_steps.specs.Leaves.{after, apart, backwards, behind_each, dashed, decimal, eisa_read, groups, guid, in_bytes, ipv4, ipv6, low_bytes, pair, pairs, repeat_read, word_read, zero_read};
ghost use Rattle.uefi_node_steps.specs.Steps.{fits_shape, shape_leaf, word_by};
ghost use Rattle.uefi_node_steps.specs.declared.steps.Shape.TheVariants.{BaseBack, Marked, Next};
ghost use Rattle.uefi_node_steps.specs.Views.{filled_with, number_view};

use crate::any_address::any_address;
use crate::leaves::{
    any_number, at_digits, id_letters, letters, pair, past_blanks, stop_at, two_decimals,
    two_digits,
};
use crate::steps::{Expected, Shape, Stop};
use crate::texts::Text;
use crate::words::{Word, words_of};

/// Fills a buffer with bytes of two digits each.
fn fill<T: Text>(found: &mut [u8], text: T) -> Result<T, Stop>
    ensures { filled_with T.codes found.new result ≡ repeat_read pair (length found.old) (T.codes text) }
{
    let mut rest = text;
    for place in 0..found.len() {
        let (byte, after) = pair(rest)?;
        found[place] = byte;
        rest = after;
    }
    Ok(rest)
}

/// Fills a buffer with the low bytes of a number, the lowest first.
fn put_low(found: &mut [u8], number: u64)
    ensures { found.new ≡ low_bytes (length found.old) number }
{
    let mut rest = number;
    for place in 0..found.len() {
        found[place] = (rest % 256) as u8;
        rest /= 256;
    }
}

/// Returns the highest number of a width.
fn last(width: usize) -> u64
    requires some { 1 ≤ width }
    requires few { width ≤ 8 }
    ensures { result + 1 ≡ 256 ^ width }
{
    match width {
        1 => 0xff,
        2 => 0xffff,
        3 => 0xff_ffff,
        4 => 0xffff_ffff,
        5 => 0xff_ffff_ffff,
        6 => 0xffff_ffff_ffff,
        7 => 0xff_ffff_ffff_ffff,
        _ => u64::MAX,
    }
}

/// Fills a buffer with the bytes of a number, which may be a word or a numeral.
fn number_into<T: Text>(
    found: &mut [u8],
    expected: Expected,
    read: Option<(u64, T)>,
    text: T,
) -> Result<T, Stop>
    ensures { filled_with T.codes found.new result ≡ number_view (length found.old) expected (T.codes text)
        (option_map (λ x. (x.0, T.codes x.1)) read) }
{
    let Some((number, rest)) = read else {
        return Err(stop_at(text, expected));
    };
    put_low(found, number);
    Ok(rest)
}

/// Reads a word of a list.
fn word<T: Text>(words: &[Word], text: T) -> Option<(u64, T)>
    ensures { option_map (λ x. (x.0, T.codes x.1)) result
        ≡ word_read (map (word_by (λ l. l.now)) words.now) (T.codes text) }
{
    for word in words {
        if let Ok(rest) = letters(word.letters.as_bytes(), text) {
            return Some((word.number, rest));
        }
    }
    None
}

/// Reads a number in decimal up to `last`, or `DEFAULT` for 0.
fn or_default<T: Text>(last: u64, text: T) -> Option<(u64, T)>
    ensures { option_map (λ x. (x.0, T.codes x.1)) result
        ≡ zero_read (codes "DEFAULT") (last + 1) (T.codes text) }
{
    if let Ok(rest) = letters(b"DEFAULT", text) {
        return Some((0, rest));
    }
    any_number(last, past_blanks(text))
}

/// Reads a byte in decimal.
fn octet<T: Text>(text: T) -> Result<(u8, T), Stop>
    ensures { result_map_both (λ read. (read.0 ∷ [], T.codes read.1)) (λ stop. stop) result
        ≡ (in_bytes 1 (decimal 256)).read (T.codes text) }
{
    match any_number(255, past_blanks(text)) {
        Some((number, rest)) => Ok(((number % 256) as u8, rest)),
        None => Err(stop_at(text, Expected::Number(255))),
    }
}

/// Reads a byte in decimal after a dot.
fn next_octet<T: Text>(text: T) -> Result<(u8, T), Stop>
    ensures { result_map_both (λ read. (read.0 ∷ [], T.codes read.1)) (λ stop. stop) result
        ≡ (after (codes ".") (in_bytes 1 (decimal 256))).read (T.codes text) }
{
    match letters(b".", text) {
        Ok(rest) => octet(rest),
        Err(stop) => Err(stop),
    }
}

/// Fills a buffer with an address of IP version 4.
fn fill_ipv4<T: Text>(found: &mut [u8], text: T) -> Result<T, Stop>
    requires { length found.old ≡ 4 }
    ensures { filled_with T.codes found.new result ≡ ipv4.read (T.codes text) }
{
    let (first, rest) = octet(text)?;
    let (second, rest) = next_octet(rest)?;
    let (third, rest) = next_octet(rest)?;
    let (fourth, rest) = next_octet(rest)?;
    found.copy_from_slice(&[first, second, third, fourth]);
    Ok(rest)
}

/// Reads a byte of two digits.
fn one_byte<T: Text>(text: T) -> Result<(u8, T), Stop>
    ensures { result_map_both (λ read. (read.0 ∷ [], T.codes read.1)) (λ stop. stop) result
        ≡ (pairs 1).read (T.codes text) }
{
    let (byte, rest) = pair(text)?;
    Ok((byte, rest))
}

/// Reads a byte of two digits after a letter.
fn next_byte<T: Text>(letter: u8, text: T) -> Result<(u8, T), Stop>
    ensures { result_map_both (λ read. (read.0 ∷ [], T.codes read.1)) (λ stop. stop) result
        ≡ (after (letter ∷ []) (pairs 1)).read (T.codes text) }
{
    match letters(&[letter], text) {
        Ok(rest) => one_byte(rest),
        Err(stop) => Err(stop),
    }
}

/// Fills a buffer with bytes of two digits each, with a letter before each.
fn fill_behind<T: Text>(letter: u8, found: &mut [u8], text: T) -> Result<T, Stop>
    ensures { filled_with T.codes found.new result
        ≡ (behind_each (letter ∷ []) 1 (pairs 1) (length found.old)).read (T.codes text) }
{
    let mut rest = text;
    for place in 0..found.len() {
        let (byte, after) = next_byte(letter, rest)?;
        found[place] = byte;
        rest = after;
    }
    Ok(rest)
}

/// Fills a buffer with bytes of two digits each, with a letter between each two.
fn fill_apart<T: Text>(letter: u8, found: &mut [u8], text: T) -> Result<T, Stop>
    ensures { filled_with T.codes found.new result
        ≡ (apart (letter ∷ []) (length found.old)).read (T.codes text) }
{
    if found.is_empty() {
        return Ok(text);
    }
    let (byte, rest) = one_byte(at_digits(text))?;
    let (first, others) = found.split_at_mut(1);
    first.copy_from_slice(&[byte]);
    fill_behind(letter, others, rest)
}

/// Fills a buffer with bytes of two digits each, the last byte first, with dashes between them.
fn fill_dashed<T: Text>(found: &mut [u8], text: T) -> Result<T, Stop>
    ensures { filled_with T.codes found.new result ≡ (dashed (length found.old)).read (T.codes text) }
{
    let rest = fill_apart(b'-', found, text)?;
    found.reverse();
    Ok(rest)
}

/// Fills a buffer with bytes of two digits each, the last byte first.
fn fill_reversed<T: Text>(found: &mut [u8], text: T) -> Result<T, Stop>
    ensures { filled_with T.codes found.new result
        ≡ (backwards (length found.old)).read (T.codes text) }
{
    let rest = fill(found, text)?;
    found.reverse();
    Ok(rest)
}

/// Reads two bytes.
fn two_bytes<T: Text>(text: T) -> Result<((u8, u8), T), Stop>
    ensures { result_map_both (λ read. (read.0.0 ∷ read.0.1 ∷ [], T.codes read.1)) (λ stop. stop) result
        ≡ (pairs 2).read (T.codes text) }
{
    let (first, rest) = pair(text)?;
    let (second, rest) = pair(rest)?;
    Ok(((first, second), rest))
}

/// Reads two bytes after a letter.
fn next_two<T: Text>(letter: u8, text: T) -> Result<((u8, u8), T), Stop>
    ensures { result_map_both (λ read. (read.0.0 ∷ read.0.1 ∷ [], T.codes read.1)) (λ stop. stop) result
        ≡ (after (letter ∷ []) (pairs 2)).read (T.codes text) }
{
    match letters(&[letter], text) {
        Ok(rest) => two_bytes(rest),
        Err(stop) => Err(stop),
    }
}

/// Reads two bytes, the last one first.
fn two_reversed<T: Text>(text: T) -> Result<((u8, u8), T), Stop>
    ensures { result_map_both (λ read. (read.0.0 ∷ read.0.1 ∷ [], T.codes read.1)) (λ stop. stop) result
        ≡ (backwards 2).read (T.codes text) }
{
    let (first, rest) = pair(text)?;
    let (second, rest) = pair(rest)?;
    Ok(((second, first), rest))
}

/// Reads two bytes after a dash, the last one first.
fn next_reversed<T: Text>(text: T) -> Result<((u8, u8), T), Stop>
    ensures { result_map_both (λ read. (read.0.0 ∷ read.0.1 ∷ [], T.codes read.1)) (λ stop. stop) result
        ≡ (after (codes "-") (backwards 2)).read (T.codes text) }
{
    match letters(b"-", text) {
        Ok(rest) => two_reversed(rest),
        Err(stop) => Err(stop),
    }
}

/// Reads four bytes, the last one first.
fn four_reversed<T: Text>(text: T) -> Result<((u8, u8, u8, u8), T), Stop>
    ensures { result_map_both (λ read. (read.0.0 ∷ read.0.1 ∷ read.0.2 ∷ read.0.3 ∷ [], T.codes read.1))
        (λ stop. stop) result ≡ (backwards 4).read (T.codes text) }
{
    let (a, rest) = pair(text)?;
    let (b, rest) = pair(rest)?;
    let (c, rest) = pair(rest)?;
    let (d, rest) = pair(rest)?;
    Ok(((d, c, b, a), rest))
}

/// Reads six bytes.
fn six_bytes<T: Text>(text: T) -> Result<((u8, u8, u8, u8, u8, u8), T), Stop>
    ensures { result_map_both (λ read. (
      read.0.0 ∷ read.0.1 ∷ read.0.2 ∷ read.0.3 ∷ read.0.4 ∷ read.0.5
          ∷ [],
      T.codes read.1,
    )) (λ stop. stop) result ≡ (pairs 6).read (T.codes text) }
{
    let (a, rest) = pair(text)?;
    let (b, rest) = pair(rest)?;
    let (c, rest) = pair(rest)?;
    let (d, rest) = pair(rest)?;
    let (e, rest) = pair(rest)?;
    let (f, rest) = pair(rest)?;
    Ok(((a, b, c, d, e, f), rest))
}

/// Reads six bytes after a dash.
fn next_six<T: Text>(text: T) -> Result<((u8, u8, u8, u8, u8, u8), T), Stop>
    ensures { result_map_both (λ read. (
      read.0.0 ∷ read.0.1 ∷ read.0.2 ∷ read.0.3 ∷ read.0.4 ∷ read.0.5
          ∷ [],
      T.codes read.1,
    )) (λ stop. stop) result ≡ (after (codes "-") (pairs 6)).read (T.codes text) }
{
    match letters(b"-", text) {
        Ok(rest) => six_bytes(rest),
        Err(stop) => Err(stop),
    }
}

/// Fills a buffer with a GUID.
fn fill_guid<T: Text>(found: &mut [u8], text: T) -> Result<T, Stop>
    requires { length found.old ≡ 16 }
    ensures { filled_with T.codes found.new result ≡ guid.read (T.codes text) }
{
    let (a, rest) = four_reversed(at_digits(text))?;
    let (b, rest) = next_reversed(rest)?;
    let (c, rest) = next_reversed(rest)?;
    let (d, rest) = next_two(b'-', rest)?;
    let (e, rest) = next_six(rest)?;
    found.copy_from_slice(&[
        a.0, a.1, a.2, a.3, b.0, b.1, c.0, c.1, d.0, d.1, e.0, e.1, e.2, e.3, e.4, e.5,
    ]);
    Ok(rest)
}

/// Fills a buffer with an address of IP version 6, in eight groups of four digits.
fn fill_groups<T: Text>(found: &mut [u8], text: T) -> Result<T, Stop>
    requires { length found.old ≡ 16 }
    ensures { filled_with T.codes found.new result ≡ groups.read (T.codes text) }
{
    let (a, rest) = two_bytes(at_digits(text))?;
    let (b, rest) = next_two(b':', rest)?;
    let (c, rest) = next_two(b':', rest)?;
    let (d, rest) = next_two(b':', rest)?;
    let (e, rest) = next_two(b':', rest)?;
    let (f, rest) = next_two(b':', rest)?;
    let (g, rest) = next_two(b':', rest)?;
    let (h, rest) = next_two(b':', rest)?;
    found.copy_from_slice(&[
        a.0, a.1, b.0, b.1, c.0, c.1, d.0, d.1, e.0, e.1, f.0, f.1, g.0, g.1, h.0, h.1,
    ]);
    Ok(rest)
}

/// Fills a buffer with an address of IP version 6.
fn fill_ipv6<T: Text>(found: &mut [u8], text: T) -> Result<T, Stop>
    requires { length found.old ≡ 16 }
    ensures { filled_with T.codes found.new result ≡ ipv6.read (T.codes text) }
{
    match fill_groups(found, text) {
        Ok(rest) => Ok(rest),
        Err(stop) => {
            let Some((address, rest)) = any_address(text) else {
                return Err(stop);
            };
            found.copy_from_slice(&address.octets());
            Ok(rest)
        }
    }
}

/// Fills a buffer with the bytes of a number that some programs print without `0x`.
fn fill_marked<T: Text>(found: &mut [u8], text: T) -> Result<T, Stop>
    requires some { 1 ≤ length found.old }
    requires few { length found.old ≤ 8 }
    ensures { filled_with T.codes found.new result
        ≡ (shape_leaf Marked (length found.old)).read (T.codes text) }
{
    if two_decimals(past_blanks(text)) {
        return Err(stop_at(text, Expected::Base));
    }
    let most = last(found.len());
    number_into(
        found,
        Expected::Number(most),
        any_number(most, past_blanks(text)),
        text,
    )
}

/// Fills a buffer with bytes of two digits each, the last byte first, which some programs print without
/// `0x`.
fn fill_base_back<T: Text>(found: &mut [u8], text: T) -> Result<T, Stop>
    ensures { filled_with T.codes found.new result
        ≡ (shape_leaf BaseBack (length found.old)).read (T.codes text) }
{
    if two_decimals(past_blanks(text)) {
        return Err(stop_at(text, Expected::Base));
    }
    fill_reversed(found, at_digits(text))
}

/// Fills a buffer of one byte with one less than a number.
fn fill_next<T: Text>(found: &mut [u8], text: T) -> Result<T, Stop>
    requires { length found.old ≡ 1 }
    ensures { filled_with T.codes found.new result ≡ (shape_leaf Next 1).read (T.codes text) }
{
    match any_number(256, past_blanks(text)) {
        Some((number, rest)) if number > 0 => {
            put_low(found, number - 1);
            Ok(rest)
        }
        _ => Err(stop_at(text, Expected::NumberFromOne(256))),
    }
}

/// Reads an EISA ID, or 0.
fn eisa_id<T: Text>(text: T) -> Option<(u64, T)>
    ensures { option_map (λ x. (x.0, T.codes x.1)) result ≡ eisa_read (T.codes text) }
{
    if let Ok(rest) = letters(b"0", text) {
        return Some((0, rest));
    }
    let (letters, rest) = id_letters(past_blanks(text))?;
    let (high, rest) = two_digits(rest)?;
    let (low, rest) = two_digits(rest)?;
    let id = letters + (u64::from(high) * 256 + u64::from(low)) * 65536;
    if id == 0 {
        return None;
    }
    Some((id, rest))
}

/// Fills a buffer with the bytes of a field.
pub(crate) fn read_shape<T: Text>(shape: Shape, found: &mut [u8], text: T) -> Result<T, Stop>
    requires { IsTrue (fits_shape shape (length found.old)) }
    ensures { filled_with T.codes found.new result
        ≡ (shape_leaf shape (length found.old)).read (T.codes text) }
{
    match shape {
        Shape::Hexadecimal => {
            let most = last(found.len());
            number_into(
                found,
                Expected::Number(most),
                any_number(most, past_blanks(text)),
                text,
            )
        }
        Shape::Marked => fill_marked(found, text),
        Shape::Decimal => {
            let most = last(found.len());
            number_into(
                found,
                Expected::Number(most),
                any_number(most, past_blanks(text)),
                text,
            )
        }
        Shape::OrDefault => {
            let most = last(found.len());
            number_into(
                found,
                Expected::NumberOrDefault(most),
                or_default(most, text),
                text,
            )
        }
        Shape::Next => fill_next(found, text),
        Shape::Forth => fill(found, at_digits(text)),
        Shape::Back => fill_reversed(found, at_digits(text)),
        Shape::BaseForth => fill(found, at_digits(text)),
        Shape::BaseBack => fill_base_back(found, text),
        Shape::Apart(letter) => fill_apart(letter, found, text),
        Shape::Dashed => fill_dashed(found, text),
        Shape::Guid => fill_guid(found, text),
        Shape::Ipv4 => fill_ipv4(found, text),
        Shape::Ipv6 => fill_ipv6(found, text),
        Shape::Eisa => number_into(found, Expected::Id, eisa_id(text), text),
        Shape::Word(words) => {
            let read = word(words_of(words), text);
            number_into(found, Expected::Word(words), read, text)
        }
    }
}
