//! Calls that programs print for different nodes.
//!
//! Some programs print some numbers in hexadecimal without `0x`, which EDK II reads as decimal. Some omit the
//! number of an ACPI device if the node has a text instead.
#![tactic(auto)]

ghost use Rattle.std.specs.Prelude.{◌≡◌};
ghost use Rattle.std.specs.Option.{option_map};
ghost use Rattle.uefi_node_reader.specs.Ambiguous.{ambiguous_stop, bare_number_left, begins_with, digits_left, is_empty_call, is_named_alone, left_after, two_digits};
ghost use Rattle.uefi_node_reader.specs.WordReading.{after};

use crate::errors::faults::{Expected, Stop};
use crate::exact::clear_texts::first_of;
use crate::exact::fields::after;
use crate::exact::numerals::digit_of;
use crate::texts::Text;

/// Returns whether a text begins with two decimal digits.
fn two_digits<T: Text>(text: T) -> bool
    ensures { result ≡ two_digits (T.bytes text) }
{
    match text.split_first() {
        Some((byte, rest)) => digit_of(byte) < 10 && digit_of(first_of(rest)) < 10,
        None => false,
    }
}

/// Returns how much of a text is left after a mark at its start, if two digits follow the mark.
fn digits_after<T: Text>(mark: &[u8], text: T) -> Option<usize>
    ensures { result ≡ digits_left (after mark.now (T.bytes text)) }
{
    let rest = after(mark, text)?;
    if two_digits(rest) {
        Some(rest.len())
    } else {
        None
    }
}

/// Returns how much of a text is left after the first mark that two digits follow.
fn left_after<T: Text>(mark: &[u8], text: T) -> Option<usize>
    ensures { result ≡ left_after mark.now (T.bytes text) }
{
    let mut rest = text;
    'bytes: while let Some((_, after)) = rest.split_first() {
        if let Some(left) = digits_after(mark, rest) {
            return Some(left);
        }
        rest = after;
    }
    None
}

/// Returns whether a text begins with another.
pub fn begins_with<T: Text>(start: &[u8], text: T) -> bool
    ensures { result ≡ begins_with start.now (T.bytes text) }
{
    after(start, text).is_some()
}

/// Returns how much of a tidied call is left from the first number that some programs print in hexadecimal
/// without `0x`, and others in decimal.
fn bare_number_left<T: Text>(text: T) -> Option<usize>
    ensures { result ≡ bare_number_left (T.bytes text) }
{
    if begins_with(b"HD(", text) {
        left_after(b"MBR,", text)
    } else if begins_with(b"ACPI(", text) {
        left_after(b"(", text)
    } else if begins_with(b"BLUETOOTHLE(", text) {
        left_after(b",", text)
    } else if begins_with(b"FIBRE(", text)
        || begins_with(b"SAS(", text)
        || begins_with(b"USBCLASS(", text)
    {
        match left_after(b"(", text) {
            Some(left) => Some(left),
            None => left_after(b",", text),
        }
    } else {
        None
    }
}

/// Returns whether nothing is between the parentheses of a tidied call.
fn is_empty_call<T: Text>(text: T) -> bool
    ensures { result ≡ is_empty_call (T.bytes text) }
{
    let (_, end) = text.split_at(text.len().saturating_sub(2));
    first_of(end) == b'('
}

/// Returns whether a tidied call is a short name, which never has numbers.
fn is_named_alone<T: Text>(text: T) -> bool
    ensures { result ≡ is_named_alone (T.bytes text) }
{
    begins_with(b"VENPCANSI()", text)
        || begins_with(b"VENVT100()", text)
        || begins_with(b"VENVT100PLUS()", text)
        || begins_with(b"VENUTF8()", text)
        || begins_with(b"DEBUGPORT()", text)
}

/// Returns where a tidied call becomes ambiguous, if it does.
pub(crate) fn ambiguous_stop<T: Text>(text: T) -> Option<Stop>
    ensures { result ≡ ambiguous_stop (T.bytes text) }
{
    if is_named_alone(text) {
        return None;
    }
    let left = if is_empty_call(text) {
        1
    } else {
        bare_number_left(text)?
    };
    Some(Stop {
        left,
        expected: Expected::Base,
    })
}
