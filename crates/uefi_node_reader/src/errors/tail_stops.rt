//! Where the data after the fields stops being read, and what is expected there.
#![tactic(auto)]

ghost use Rattle.std.specs.Option.{ok_or, option_map};
ghost use Rattle.std.specs.Prelude.{◌≡◌};
ghost use Rattle.uefi_node_reader.specs.ReadViews.{rest_or_err};
ghost use Rattle.uefi_node_reader.specs.Stops.{close_stop, exact_end, past, rest_end, stop_of, tail_stop};
ghost use Rattle.uefi_node_reader.specs.TableReading.{tail_read};

use crate::errors::faults::{Expected, Stop};
use crate::errors::stops::stop_at;
use crate::exact::clear_texts::first_of;
use crate::exact::fields::after;
use crate::exact::node_tails::push_tail;
use crate::texts::Text;
use uefi_device_nodes::node_table::rows::Tail;

/// Reads a literal exactly as it is printed, and returns the rest of the text.
pub(crate) fn exact_end<T: Text>(literal: &[u8], text: T) -> Result<T, Stop>
    ensures { rest_or_err T.bytes result ≡ exact_end literal.now (T.bytes text) }
{
    after(literal, text).ok_or(stop_at(text, Expected::Byte(first_of(literal))))
}

/// Returns where the data after the fields stops: in the first of its bytes, or at the start of a
/// list.
fn tail_stop<T: Text>(tail: Tail, text: T) -> Stop
    ensures { result ≡ tail_stop tail (T.bytes text) }
{
    match (tail, text.split_first()) {
        (Tail::Bytes, Some((_, digits))) => stop_at(digits, Expected::Digits(2)),
        (Tail::Bytes, None) => stop_at(text, Expected::Digits(2)),
        _ => stop_at(text, Expected::AsPrinted),
    }
}

/// Returns where the end of a text stops. If a list ends there, another item may follow as well.
fn close_stop<T: Text>(tail: Tail, close: &[u8], text: T) -> Stop
    ensures { result ≡ close_stop tail close.now (T.bytes text) }
{
    match tail {
        Tail::Repeated(_) => stop_at(text, Expected::AsPrinted),
        _ => stop_at(text, Expected::Byte(first_of(close))),
    }
}

/// Reads the data after the fields, and returns the rest of the text.
pub(crate) fn tail_rest<T: Text>(tail: Tail, close: &[u8], text: T) -> Option<T>
    ensures { option_map T.bytes result ≡ past (tail_read tail close.now (T.bytes text)) }
{
    let (_, rest) = push_tail(tail, close, &mut [], 0, text)?;
    Some(rest)
}

/// Reads the data after the fields and the end of the text. Returns the rest, or where the text
/// stops.
pub(crate) fn rest_end<T: Text>(tail: Tail, close: &[u8], text: T) -> Result<T, Stop>
    ensures { rest_or_err T.bytes result ≡ rest_end tail close.now (T.bytes text) }
{
    let rest = tail_rest(tail, close, text).ok_or(tail_stop(tail, text))?;
    after(close, rest).ok_or(close_stop(tail, close, rest))
}

/// Returns where the text of a node stops. If all of it was read, it does not describe the node
/// completely.
pub(crate) fn stop_of<T: Text>(read: Result<T, Stop>) -> Stop
    ensures { result ≡ stop_of (rest_or_err T.bytes read) }
{
    match read {
        Ok(rest) => stop_at(rest, Expected::Untold),
        Err(stop) => stop,
    }
}
