//! Nodes of no known kind, read from their types and their data.
#![tactic(auto)]

ghost use Rattle.std.specs.Prelude.{◌≡◌, ℕ, List, false, length};
ghost use Rattle.std.specs.Option.{ok_or, option_and_then};
ghost use Rattle.uefi_device_nodes.specs.Nodes.{node_with};
ghost use Rattle.uefi_device_nodes.specs.NodeTexts.{is_irregular};
ghost use Rattle.uefi_node_reader.specs.ReadViews.{read_as, rest_or_err, value_of};
ghost use Rattle.uefi_node_reader.specs.LenientFields.{any_number};
ghost use Rattle.uefi_node_reader.specs.LenientCalls.{sub_type_end, sub_type_told, types_end, types_told};
ghost use Rattle.uefi_node_reader.specs.Numerals.{number_read};
ghost use Rattle.uefi_node_reader.specs.PlainNodes.{is_plain, plain_read, plain_rest, types_read};
ghost use Rattle.uefi_node_reader.specs.Stops.{past, stop_at};
ghost use Rattle.uefi_node_reader.specs.ParsedNodeViews.{parsed_node};
ghost use Rattle.uefi_node_reader.specs.declared.errors.faults.Expected.TheVariants.{Number};

use crate::errors::faults::{Expected, Stop};
use crate::errors::stops::stop_at;
use crate::errors::tail_stops::{exact_end, rest_end};
use crate::exact::fields::after;
use crate::exact::numerals::number;
use crate::exact::parsed_node::ParsedNode;
use crate::lenient::lenient_fields::any_number;
use crate::texts::Text;
use uefi_device_nodes::node_table::layouts::MEDIA_TYPE;
use uefi_device_nodes::node_table::layouts::media::file_path;
use uefi_device_nodes::node_table::printing::has_form;
use uefi_device_nodes::node_table::rows::Tail;

/// Returns whether a node with this many bytes of data is printed as the name of a file.
fn is_file(device_type: u8, sub_type: u8, len: usize) -> bool
    ensures { (content : List ℕ) → len ≡ length content
        → result ≡ is_irregular false (node_with device_type sub_type content) }
{
    device_type == MEDIA_TYPE && sub_type == file_path::SUB_TYPE && len % 2 == 0
}

/// Returns whether a node has no form of its own, fits into a path, and does not end an instance or
/// the path.
fn is_plain<T: Text>(node: &ParsedNode<T>) -> bool
    ensures { result ≡ is_plain (parsed_node node.now) }
{
    let (device_type, sub_type) = node.types();
    if is_file(device_type, sub_type, node.data_len()) {
        return false;
    }
    if has_form(false, device_type, sub_type, node.head()) {
        return false;
    }
    device_type != 0x7f
}

/// Reads a byte in decimal, and returns the rest of the text too.
fn byte_number<T: Text>(text: T) -> Option<(u8, T)>
    ensures { value_of T.bytes result ≡ number_read 10 256 (T.bytes text) }
{
    let (value, rest) = number(10, 0xff, text)?;
    Some((value as u8, rest))
}

/// Reads a type and a sub-type, and returns the rest of the text too.
fn types<T: Text>(text: T) -> Option<(u8, u8, T)>
    ensures { option_and_then (λ x. plain_rest x.0 x.1 (T.bytes x.2)) result ≡ types_read (T.bytes text) }
{
    let (device_type, rest) = byte_number(text)?;
    let rest = after(b",", rest)?;
    let (sub_type, rest) = byte_number(rest)?;
    Some((device_type, sub_type, rest))
}

/// Reads a node of a type and a sub-type from its data on.
fn plain_from<T: Text>(device_type: u8, sub_type: u8, text: T) -> Option<(ParsedNode<T>, T)>
    ensures { read_as parsed_node T.bytes result
        ≡ plain_rest device_type sub_type (T.bytes text) }
{
    let (node, rest) = ParsedNode::with_tail(
        device_type,
        sub_type,
        [0; 56],
        0,
        Tail::Bytes,
        "",
        text,
    )?;
    let rest = after(b")", rest)?;
    if !is_plain(&node) {
        return None;
    }
    Some((node, rest))
}

/// Reads a node of no known kind from its type on, and returns the rest of the text too.
fn plain_types<T: Text>(text: T) -> Option<(ParsedNode<T>, T)>
    ensures { read_as parsed_node T.bytes result ≡ types_read (T.bytes text) }
{
    let (device_type, sub_type, rest) = types(text)?;
    plain_from(device_type, sub_type, rest)
}

/// Reads a node of no known kind, and returns the rest of the text too.
pub(crate) fn plain<T: Text>(text: T) -> Option<(ParsedNode<T>, T)>
    ensures { read_as parsed_node T.bytes result ≡ plain_read (T.bytes text) }
{
    plain_types(after(b"Path(", text)?)
}

/// Reads a byte of a tidied text from its number, and returns the rest of the text too.
fn any_byte<T: Text>(text: T) -> Option<(u8, T)>
    ensures { value_of T.bytes result ≡ any_number 256 (T.bytes text) }
{
    let (value, rest) = any_number(0xff, text)?;
    Some((value as u8, rest))
}

/// Reads a node of no known kind of a type from its sub-type on, as people write it, and returns the rest of
/// the text too.
fn told_sub_type<T: Text>(device_type: u8, text: T) -> Option<(ParsedNode<T>, T)>
    ensures { read_as parsed_node T.bytes result
        ≡ sub_type_told device_type (T.bytes text) }
{
    let (sub_type, rest) = any_byte(text)?;
    plain_from(device_type, sub_type, rest)
}

/// Reads a node of no known kind from its type on, as people write it, or from its sub-type on if its type
/// is known. Returns the rest of the text too.
pub(crate) fn told_types<T: Text>(device_type: Option<u8>, text: T) -> Option<(ParsedNode<T>, T)>
    ensures { read_as parsed_node T.bytes result
        ≡ types_told device_type (T.bytes text) }
{
    if let Some(device_type) = device_type {
        return told_sub_type(device_type, text);
    }
    let (device_type, rest) = any_byte(text)?;
    told_sub_type(device_type, after(b",", rest)?)
}

/// Reads the number of a byte, and returns the rest of the text.
fn byte_end<T: Text>(text: T) -> Result<T, Stop>
    ensures { rest_or_err T.bytes result
        ≡ ok_or (past (any_number 256 (T.bytes text))) (stop_at (T.bytes text) (Number 255)) }
{
    match any_number(0xff, text) {
        Some((_, rest)) => Ok(rest),
        None => Err(stop_at(text, Expected::Number(0xff))),
    }
}

/// Reads a node of no known kind from its sub-type on, as people write it, and returns only the rest of the
/// text.
fn sub_type_end<T: Text>(text: T) -> Result<T, Stop>
    ensures { rest_or_err T.bytes result ≡ sub_type_end (T.bytes text) }
{
    let rest = byte_end(text)?;
    rest_end(Tail::Bytes, b")", rest)
}

/// Reads a node as [`told_types`] does, and returns only the rest of the text.
pub(crate) fn types_end<T: Text>(device_type: Option<u8>, text: T) -> Result<T, Stop>
    ensures { rest_or_err T.bytes result ≡ types_end device_type (T.bytes text) }
{
    if device_type.is_some() {
        return sub_type_end(text);
    }
    let rest = byte_end(text)?;
    sub_type_end(exact_end(b",", rest)?)
}
