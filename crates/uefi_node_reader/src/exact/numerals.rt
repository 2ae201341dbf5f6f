//! Numbers read from their digits, without leading zeros.
#![tactic(auto)]

ghost use Rattle.std.specs.Prelude.{◌≡◌, ◌+◌, ◌<◌};
ghost use Rattle.uefi_node_reader.specs.ReadViews.{value_of};
ghost use Rattle.uefi_node_reader.specs.Numerals.{digit_of, digits_after, number_read};

use crate::texts::Text;

/// Returns the value of a digit, from 0 to 9 or A to F in upper case, or 16 for another byte.
pub(crate) fn digit_of(byte: u8) -> u64
    ensures { result ≡ digit_of byte }
{
    match byte {
        b'0'..=b'9' => u64::from(byte - b'0'),
        b'A'..=b'F' => u64::from(byte - b'A') + 10,
        _ => 16,
    }
}

/// Reads all digits at the start of a text, after digits with the value `first`. Returns the number and
/// the rest of the text, or `None` if the number is above `last`.
pub(crate) fn digits_after<T: Text>(base: u64, last: u64, first: u64, text: T) -> Option<(u64, T)>
    ensures { value_of T.bytes result
        ≡ digits_after base (last + 1) first (T.bytes text) }
{
    let mut number = first;
    let mut rest = text;
    'digits: while let Some((byte, after)) = rest.split_first() {
        let digit = digit_of(byte);
        if base <= digit {
            return Some((number, rest));
        }
        let next = number.checked_mul(base)?.checked_add(digit)?;
        if last < next {
            return None;
        }
        number = next;
        rest = after;
    }
    Some((number, rest))
}

/// Reads a number up to `last`, without leading zeros, and returns the rest of the text too.
pub(crate) fn number<T: Text>(base: u64, last: u64, text: T) -> Option<(u64, T)>
    ensures { value_of T.bytes result ≡ number_read base (last + 1) (T.bytes text) }
{
    let (byte, after) = text.split_first()?;
    let digit = digit_of(byte);
    if base <= digit {
        return None;
    }
    if digit == 0 {
        return match after.split_first() {
            Some((next, _)) if digit_of(next) < base => None,
            _ => Some((0, after)),
        };
    }
    digits_after(base, last, digit, after)
}
