//! One node, read from its text.
#![tactic(auto, unfolding(crate::specs::NamedFiles::node_read))]

ghost use Rattle.std.specs.Prelude.{◌≡◌, codes};
ghost use Rattle.uefi_device_nodes.specs.Table.{forms};
ghost use Rattle.uefi_node_reader.specs.ReadViews.{read_as, read_or_err};
ghost use Rattle.uefi_node_reader.specs.Alike.{CallsAlike, ZerosAlike, ZerosAlikeAfterBase};
ghost use Rattle.uefi_node_reader.specs.FieldReading.{either_read};
ghost use Rattle.uefi_node_reader.specs.Laws.{NodeAgain, NodeFits, NodeStarts, NodeTakes, NodeTextOnce};
ghost use Rattle.uefi_node_reader.specs.LenientFields.{after_literal};
ghost use Rattle.uefi_node_reader.specs.LenientNodes.{end_fault, ended, ended_at, file_or_call, lenient_read, written_read};
ghost use Rattle.uefi_node_reader.specs.NamedFiles.{is_after_node, node_read, past_spaces};
ghost use Rattle.uefi_node_reader.specs.ParsedNodeViews.{parsed_node};
ghost use Rattle.uefi_node_reader.specs.PlainNodes.{plain_read};
ghost use Rattle.uefi_node_reader.specs.ReadNodes.{node_from_text};
ghost use Rattle.uefi_node_reader.specs.TableReading.{table_read};

use crate::errors::faults::{Expected, NodeFault};
use crate::exact::clear_texts::first_of;
use crate::exact::parsed_node::ParsedNode;
use crate::exact::table_reader::by_table;
use crate::file_node::name;
use crate::lenient::call_faults::by_call;
use crate::lenient::lenient_fields::after_literal;
use crate::lenient::lenient_names::{bare, begins_call, file, is_escaped_name};
use crate::named_files::{NameText, is_after_node, past_spaces};
use crate::plain_nodes::plain;
use crate::read_node::ReadNode;
use crate::texts::Text;

/// Reads the node of a call at the start of a text, exactly as it is printed.
fn call<T: Text>(text: T) -> Option<(ParsedNode<T>, T)>
    ensures { read_as parsed_node T.bytes result
        ≡ either_read (table_read forms (T.bytes text)) (plain_read (T.bytes text)) }
{
    if let Some(read) = by_table(text) {
        return Some(read);
    }
    plain(text)
}

/// Reads the node at the start of a text, exactly as it is printed, and returns the rest of the text too. The
/// rest may begin with any byte. Returns `None` only if no node that its text describes completely has such a
/// text before a slash, a comma or the end. Does not allocate.
pub fn read_node<T: NameText>(text: T) -> Option<(ReadNode<T>, T)>
    ensures { read_as node_from_text T.bytes result ≡ node_read (T.bytes text) }
{
    // No text of a call begins with a backslash.
    if first_of(text) != b'\\' {
        let (node, rest) = call(text)?;
        return Some((ReadNode::Exact(node), rest));
    }
    let (node, rest) = name(text)?;
    Some((ReadNode::File(node), rest))
}

/// Returns what was read, if a node may end there.
pub(crate) fn ended<T: NameText>(read: Option<(ReadNode<T>, T)>) -> Option<(ReadNode<T>, T)>
    ensures { read_as node_from_text T.bytes result
        ≡ ended (read_as node_from_text T.bytes read) }
{
    let (node, rest) = read?;
    if is_after_node(rest) {
        return Some((node, rest));
    }
    None
}

/// Returns the fault of a text that continues past the end of its node.
fn end_fault<T: Text>(text: T, rest: T) -> NodeFault
    ensures { result ≡ end_fault (T.bytes text) (T.bytes rest) }
{
    NodeFault {
        byte: text.len().saturating_sub(rest.len()),
        expected: Expected::End,
    }
}

/// Returns what was read, if a node may end there, perhaps with blanks after it. Otherwise returns the fault
/// of the text.
pub(crate) fn ended_at<T: NameText>(
    text: T,
    read: (ReadNode<T>, T),
) -> Result<(ReadNode<T>, T), NodeFault>
    ensures { read_or_err node_from_text T.bytes result
        ≡ ended_at (T.bytes text) (node_from_text read.0, T.bytes read.1) }
{
    let (node, rest) = read;
    let after = past_spaces(rest);
    if is_after_node(after) {
        return Ok((node, after));
    }
    Err(end_fault(text, rest))
}

/// Reads the node at the start of a text that begins with a call.
fn called<T: NameText>(text: T) -> Result<(ReadNode<T>, T), NodeFault>
    ensures { read_or_err node_from_text T.bytes result
        ≡ file_or_call (after_literal (codes "File(") (past_spaces (T.bytes text))) (T.bytes text) }
{
    match after_literal(b"File(", past_spaces(text)) {
        Ok(name) => {
            let (node, rest) = file(text, name)?;
            Ok((ReadNode::File(node), rest))
        }
        Err(_) => by_call(text),
    }
}

/// Reads the node at the start of a text, in any form that people write except the printed one.
fn written<T: NameText>(is_rooted: bool, text: T) -> Result<(ReadNode<T>, T), NodeFault>
    ensures { read_or_err node_from_text T.bytes result
        ≡ written_read is_rooted (T.bytes text) }
{
    if begins_call(text) {
        return ended_at(text, called(text)?);
    }
    if let Some((node, rest)) = bare(is_rooted, text) {
        return Ok((ReadNode::File(node), rest));
    }
    Err(NodeFault {
        byte: 0,
        expected: if is_after_node(text) {
            Expected::Node
        } else {
            Expected::FileName
        },
    })
}

/// Reads the node at the start of a text, as people write it, and returns the rest of the text too. The rest
/// is empty, or begins with a slash or a comma. Does not allocate.
///
/// A node that [`read_node`] reads there is read as the same node, except for a name that begins with two
/// backslashes: a program that escapes backslashes, as in JSON, wrote it. Otherwise a call is read up to
/// its first `)`, in either case and without its blanks:
///
/// - A number is hexadecimal after `0x`, and otherwise decimal. It may have leading zeros.
/// - Numbers at the end may be omitted. They are then 0, or the default of their kind (UEFI Specification
///   2.10, section 10.6.1).
/// - The text in a call of `Uri`, `UsbWwid`, `AcpiEx`, `iSCSI`, `Wi-Fi` or `BBS` is read unchanged, without
///   the blanks before it.
/// - The numbers of `AcpiAdr` after the first are as they are printed, except for their case.
/// - An IPv6 address in a call of `IPv6` may have any form of RFC 4291.
///
/// The name of a file may be in `File(..)`, up to the first `)` after which a node may end, or else up to the
/// `)` that closes the call. It may also omit its first
/// backslash, unless `is_rooted`, if it contains another backslash, with no blank before that one and nothing
/// else that a short name on a FAT volume excludes, and if it contains no parenthesis, `:` or quotation mark.
/// Blanks and line ends around a node are skipped. A blank after a name that is otherwise as it is printed
/// belongs to the name.
///
/// An error gives the offset of the wrong byte, and what is expected there. If several forms have the name of
/// the call, the first of those that were read furthest decides. The wrong byte is the first byte that
/// differs from the form's text, or the first byte of a field that cannot be read or that accepts words.
/// After a whole node, it is the first byte that follows the node. If no form has the name of the call, but a
/// form has a name that differs in one letter, the error gives that name.
#[tactic(auto, unfolding(crate::specs::LenientNodes::lenient_read))]
pub fn read_lenient_node<T: NameText>(
    is_rooted: bool,
    text: T,
) -> Result<(ReadNode<T>, T), NodeFault>
    ensures { read_or_err node_from_text T.bytes result
        ≡ lenient_read is_rooted (T.bytes text) }
{
    if is_escaped_name(text) {
        return Err(NodeFault {
            byte: 1,
            expected: Expected::FileName,
        });
    }
    let Some((node, rest)) = read_node(text) else {
        return written(is_rooted, text);
    };
    let after = past_spaces(rest);
    if is_after_node(after) {
        return Ok((node, after));
    }
    match written(is_rooted, text) {
        Ok(read) => Ok(read),
        Err(_) => Err(end_fault(text, rest)),
    }
}

/// A node that is read is completely described by its text, and is printed as that text. The text of a
/// completely described node is read back as that node, before anything that may follow a node.
pub fn nodes_are_read()
    ensures takes { NodeTakes }
    ensures again { NodeAgain }
    ensures starts { NodeStarts }
    ensures fits { NodeFits }
{}

/// Two completely described nodes with the same text are equal, before anything that may follow a node.
pub fn node_text_once()
    ensures { NodeTextOnce }
{}

/// Calls that differ only in case and in blanks are read leniently as the same node, if neither is read
/// exactly. A zero before the digits of a number changes nothing.
pub fn texts_alike()
    ensures calls { CallsAlike }
    ensures zeros { ZerosAlike }
    ensures zeros_after_base { ZerosAlikeAfterBase }
{}
