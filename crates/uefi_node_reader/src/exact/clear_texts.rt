//! Texts of printable ASCII, read up to a byte that stops them.
#![tactic(auto)]

ghost use Rattle.std.specs.Prelude.{◌≡◌, ◌++◌, ◌∷◌, []};
ghost use Rattle.uefi_text.specs.UnitBytes.{unit_bytes};
ghost use Rattle.uefi_node_reader.specs.CountedBytes.{pushed_bytes};
ghost use Rattle.uefi_node_reader.specs.FieldReading.{clear_run, is_clear};
ghost use Rattle.uefi_node_reader.specs.TableReading.{first_of};

use crate::counted_bytes::push;
use crate::texts::Text;

/// Returns the first byte of a text, or 0 if it is empty.
pub(crate) fn first_of<T: Text>(text: T) -> u8
    ensures { result ≡ first_of (T.bytes text) }
{
    match text.split_first() {
        Some((first, _)) => first,
        None => 0,
    }
}

/// Returns whether a byte is printable ASCII, except `stop`.
fn is_clear(stop: u8, byte: u8) -> bool
    ensures { result ≡ is_clear stop byte }
{
    byte >= 0x20 && byte < 0x7f && byte != stop
}

/// Returns a text from the first byte on that is `stop` or not printable ASCII.
pub(crate) fn past_clear<T: Text>(stop: u8, text: T) -> T
    ensures { T.bytes result ≡ (clear_run stop (T.bytes text)).1 }
{
    let mut rest = text;
    'bytes: while let Some((byte, after)) = rest.split_first() {
        if !is_clear(stop, byte) {
            return rest;
        }
        rest = after;
    }
    rest
}

/// Splits a text before the first byte that is `stop` or not printable ASCII.
pub(crate) fn cut_clear<T: Text>(stop: u8, text: T) -> (T, T)
    ensures { (T.bytes result.0, T.bytes result.1) ≡ clear_run stop (T.bytes text) }
{
    let rest = past_clear(stop, text);
    text.split_at(text.len() - rest.len())
}

/// Puts the bytes of a text before its first byte that is `stop` or not printable ASCII after `len` others.
/// Returns the new number of bytes, and the rest of the text.
pub(crate) fn push_clear<T: Text>(places: &mut [u8], len: usize, stop: u8, text: T) -> (usize, T)
    ensures state { (places.new, result.0)
        ≡ pushed_bytes (places.old, len) (clear_run stop (T.bytes text)).0 }
    ensures rest { T.bytes result.1 ≡ (clear_run stop (T.bytes text)).1 }
{
    let mut count = len;
    let mut rest = text;
    'bytes: while let Some((byte, after)) = rest.split_first() {
        if !is_clear(stop, byte) {
            return (count, rest);
        }
        count = push(places, count, byte);
        rest = after;
    }
    (count, rest)
}

/// Puts bytes as [`push_clear`] does, and a NUL.
pub(crate) fn push_clear_name<T: Text>(
    places: &mut [u8],
    len: usize,
    stop: u8,
    text: T,
) -> (usize, T)
    ensures state { (places.new, result.0)
        ≡ pushed_bytes (places.old, len) ((clear_run stop (T.bytes text)).0 ++ 0 ∷ []) }
    ensures rest { T.bytes result.1 ≡ (clear_run stop (T.bytes text)).1 }
{
    let (count, rest) = push_clear(places, len, stop, text);
    (push(places, count, 0), rest)
}

/// Puts bytes as [`push_clear`] does, but as code units, the low byte of each first.
pub(crate) fn push_clear_units<T: Text>(
    places: &mut [u8],
    len: usize,
    stop: u8,
    text: T,
) -> (usize, T)
    ensures state { (places.new, result.0)
        ≡ pushed_bytes (places.old, len) (unit_bytes (clear_run stop (T.bytes text)).0) }
    ensures rest { T.bytes result.1 ≡ (clear_run stop (T.bytes text)).1 }
{
    let mut count = len;
    let mut rest = text;
    'units: while let Some((byte, after)) = rest.split_first() {
        if !is_clear(stop, byte) {
            return (count, rest);
        }
        count = push(places, count, byte);
        count = push(places, count, 0);
        rest = after;
    }
    (count, rest)
}
