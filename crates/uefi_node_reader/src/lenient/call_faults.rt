//! Calls, and the faults of calls that are not read.
#![tactic(auto)]

ghost use Rattle.std.specs.Prelude.{◌≡◌};
ghost use Rattle.std.specs.Result.{result_map_both};
ghost use Rattle.uefi_node_reader.specs.ReadViews.{read_or_err};
ghost use Rattle.uefi_node_reader.specs.LenientCalls.{call_told, cut_call};
ghost use Rattle.uefi_node_reader.specs.LenientNodes.{call_in, call_read, is_base, unnamed_fault, open_fault, or_short, stop_fault};
ghost use Rattle.uefi_node_reader.specs.ReadNodes.{node_from_text};
ghost use Rattle.uefi_node_reader.specs.ShortAddresses.{short_ipv6};

use crate::errors::faults::{Expected, NodeFault, Stop};
use crate::errors::mistakes::mistake;
use crate::errors::near_names::{is_named, name_expected};
use crate::lenient::lenient_table::try_call;
use crate::lenient::short_addresses::short_ipv6;
use crate::lenient::text_calls::try_texts;
use crate::lenient::tidied::{Tidied, cut_call, place_at, tidy};
use crate::named_files::NameText;
use crate::read_node::ReadNode;
use crate::texts::Text;

/// Reads a node from a tidied call that contains no text, or fails with where the call stops.
fn try_textless<T: NameText>(call: Tidied<T>) -> Result<ReadNode<T>, Option<Stop>>
    ensures { let call = ⟦<Tidied<T> as Text>⟧.bytes call in result_map_both node_from_text (λ e. e) result
        ≡ or_short (call_told call) (short_ipv6 call) }
{
    let stop = match try_call(call) {
        Ok(node) => return Ok(node),
        Err(stop) => stop,
    };
    match short_ipv6(call) {
        Some(node) => Ok(ReadNode::Tidied(node)),
        None => Err(stop),
    }
}

/// Reads a node from the part of a call before its `)` and the tidied call. Fails with where the call
/// stops.
fn read_call<T: NameText>(front: T, call: Tidied<T>) -> Result<ReadNode<T>, Option<Stop>>
    ensures { result_map_both node_from_text (λ e. e) result
        ≡ call_read (T.bytes front) (⟦<Tidied<T> as Text>⟧.bytes call) }
{
    match try_texts(front, call) {
        Ok(node) => Ok(node),
        Err(Some(stop)) => Err(Some(stop)),
        Err(None) => try_textless(call),
    }
}

/// Returns the fault of a text whose tidied call has no known name.
fn unnamed_fault<T: NameText>(text: T, call: Tidied<T>) -> NodeFault
    ensures { result ≡ unnamed_fault (T.bytes text) (⟦<Tidied<T> as Text>⟧.bytes call) }
{
    NodeFault {
        byte: place_at(0, text),
        expected: name_expected(call),
    }
}

/// Returns whether a number after `0x` is expected.
fn is_base(expected: Expected) -> bool
    ensures { result ≡ is_base expected }
{
    matches!(expected, Expected::Base)
}

/// Returns the fault of a text, from its tidied call and where that stops.
fn stop_fault<T: NameText>(text: T, call: Tidied<T>, stop: Option<Stop>) -> NodeFault
    ensures { result ≡ stop_fault (T.bytes text) (⟦<Tidied<T> as Text>⟧.bytes call) stop }
{
    match stop {
        Some(stop) => {
            if is_base(stop.expected) && !is_named(call) {
                return unnamed_fault(text, call);
            }
            let stop = mistake(call, stop);
            NodeFault {
                byte: place_at(call.len().saturating_sub(stop.left), text),
                expected: stop.expected,
            }
        }
        None => unnamed_fault(text, call),
    }
}

/// Returns the fault of a call without a `)`. The fault is the missing `)`, unless an earlier byte is
/// wrong.
fn open_fault<T: NameText>(
    text: T,
    call: Tidied<T>,
    read: Result<ReadNode<T>, Option<Stop>>,
) -> NodeFault
    ensures { result ≡ open_fault (T.bytes text) (⟦<Tidied<T> as Text>⟧.bytes call)
        (result_map_both node_from_text (λ e. e) read) }
{
    match read {
        Ok(_) | Err(Some(Stop { left: 0, .. })) => NodeFault {
            byte: text.len(),
            expected: Expected::Byte(b')'),
        },
        Err(stop) => stop_fault(text, call, stop),
    }
}

/// Reads the call at the start of a text. Returns its node and the rest of the text, or the fault of the
/// text.
pub(crate) fn by_call<T: NameText>(text: T) -> Result<(ReadNode<T>, T), NodeFault>
    ensures { read_or_err node_from_text T.bytes result
        ≡ call_in (T.bytes text) (cut_call (T.bytes text)) }
{
    let Some((front, rest)) = cut_call(text) else {
        let call = tidy(text);
        return Err(open_fault(text, call, read_call(text, call)));
    };
    let call = tidy(front);
    match read_call(front, call) {
        Ok(node) => Ok((node, rest)),
        Err(stop) => Err(stop_fault(text, call, stop)),
    }
}
