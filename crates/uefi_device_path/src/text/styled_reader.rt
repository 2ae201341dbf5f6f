//! Device paths that are read from texts in a style.
#![tactic(auto)]

ghost use Rattle.std.specs.Prelude.{take, true, false, if◌then◌else◌, drop, ◌∷◌, ◌≡◌, ◌+◌, ◌-◌, ◌<◌, ◌≤◌, [], MatchOption, length};
ghost use Rattle.uefi_device_path.specs.NodeSinks.{HoldsMore};
ghost use Rattle.uefi_device_path.specs.StyledReading.{GivesText, PutsText, fault_from, follows_comma, path_read};
ghost use Rattle.uefi_device_path.specs.PathReading.{end_instance, is_after_instance};
ghost use Rattle.uefi_device_path.specs.Paths.{IsPath};
ghost use Rattle.uefi_device_nodes.specs.RawNodes.{raw_node};

use crate::device_path_buf::DevicePathBuf;
use crate::text::around_nodes::around_nodes;
use crate::text::node_sinks::{BufferedPath, NodeSink};
use crate::text::text_errors::{PathTextError, TextFault};
use std::alloc::Allocator;
use uefi_device_nodes::build_node::RawNode;
use uefi_device_nodes::{DeviceSubType, DeviceType};
use uefi_node_reader::errors::faults::NodeFault;
use uefi_node_reader::named_files::NameText;
use uefi_node_reader::node_texts::nodes_are_read;
use uefi_node_reader::styles::{
    TextStyle, faults_lie_within, read_styled_node, styled_nodes_are_read,
};
use uefi_node_reader::texts::{Text, is_empty};

/// Returns the node that ends an instance.
fn instance_end() -> RawNode<'static>
    ensures { raw_node result ≡ end_instance }
{
    RawNode {
        device_type: DeviceType(0x7f),
        sub_type: DeviceSubType(0x01),
        content: &[],
    }
}

/// Returns the text after a comma at the start of a text, or `None`.
fn after_comma<T: Text>(text: T) -> Option<T>
    requires { 0 < length (T.bytes text) }
    ensures { MatchOption result (is_after_instance (T.bytes text) ≡ false)
        (λ rest. T.bytes text ≡ 44 ∷ T.bytes rest) }
{
    let (first, rest) = text.split_first()?;
    if first != b',' {
        return None;
    }
    Some(rest)
}

/// Returns the text at which a node must begin: this text at the start of an instance, and
/// otherwise the text after the slash at its start.
fn node_start<T: Text>(at_start: bool, text: T) -> T
    requires { 0 < length (T.bytes text) }
    ensures { T.bytes result ≡ (if at_start then T.bytes text else drop 1 (T.bytes text)) }
{
    if at_start { text } else { text.split_at(1).1 }
}

/// Returns whether the rest of a text comes directly after a comma: a file's name begins with a
/// backslash there.
fn follows_comma<T: Text>(text: T, rest: T) -> bool
    requires { length (T.bytes rest) ≤ length (T.bytes text) }
    ensures { result ≡ follows_comma (T.bytes text) (T.bytes rest) }
{
    let passed = text.len() - rest.len();
    if passed == 0 {
        return false;
    }
    match text.split_at(passed - 1).1.split_first() {
        Some((byte, _)) => byte == b',',
        None => false,
    }
}

/// Returns the fault of a text, given the fault of this rest, at which no node is read.
fn fault_at<T: Text>(text: T, rest: T, found: NodeFault) -> TextFault
    requires rest { length (T.bytes rest) ≤ length (T.bytes text) }
    requires byte { found.byte ≤ length (T.bytes rest) }
    ensures { result ≡ fault_from (T.bytes text) (T.bytes rest) found }
{
    let node = text.len() - rest.len();
    TextFault {
        node,
        byte: node + found.byte,
        expected: found.expected,
    }
}

/// Puts the nodes of a text into a sink, or fails with the fault of the text.
pub(crate) fn put_text<S: NodeSink, T: NameText>(
    style: TextStyle,
    sink: &mut S,
    text: T,
) -> Result<(), TextFault>
    requires { S.grown sink.old [] sink.old }
    ensures { PutsText (λ nodes _. S.grown sink.old nodes sink.new) result (path_read style (T.bytes text)) }
{
    nodes_are_read();
    styled_nodes_are_read();
    faults_lie_within();
    let (whole, mut rest) = around_nodes(style, text);
    let mut at_start = true;
    let mut at_comma = follows_comma(whole, rest);
    'nodes: while !is_empty(rest) {
        match after_comma(rest) {
            Some(after) => {
                let node = instance_end();
                sink.put(&node);
                rest = after;
                at_start = true;
                at_comma = true;
            }
            None => {
                let place = node_start(at_start, rest);
                let (node, after) = match read_styled_node(style, at_comma, place) {
                    Ok(read) => read,
                    Err(found) => return Err(fault_at(whole, place, found)),
                };
                sink.put(&node);
                rest = after;
                at_start = false;
                at_comma = false;
            }
        }
    }
    Ok(())
}

/// Adds the nodes of a text before the end of the path in the first `len` bytes of a buffer. Returns the
/// number of bytes that the path then has, as far as a `usize` counts, or the fault of the text. The
/// contents of the buffer are unspecified afterwards if it has no room for all nodes, or if the call fails.
pub(crate) fn put_text_in_buf<T: NameText>(
    style: TextStyle,
    buffer: &mut [u8],
    len: usize,
    text: T,
) -> Result<usize, TextFault>
    requires { len ≤ length buffer.now → IsPath (take len buffer.now) }
    ensures { PutsText (λ nodes end. HoldsMore buffer.old len nodes buffer.new end) result
        (path_read style (T.bytes text)) }
{
    let mut sink = BufferedPath { buffer, len };
    put_text(style, &mut sink, text)?;
    Ok(sink.len)
}

/// Returns the room to ask for before a text is read. A file's name has two bytes for each character, and a
/// header, a NUL and the end node besides. Other nodes are shorter than their texts, unless numbers are left
/// out.
fn room_for<T: Text>(text: T) -> usize {
    text.len().saturating_mul(2).saturating_add(10)
}

/// Returns the path that a text is read as. If memory runs out, the text is read to its end nevertheless,
/// because a fault of the text comes first.
pub(crate) fn read_styled_path<A: Allocator + Copy, T: NameText>(
    style: TextStyle,
    alloc: A,
    text: T,
) -> Result<DevicePathBuf<A>, PathTextError>
    ensures { GivesText result (path_read style (T.bytes text)) }
{
    let mut path = DevicePathBuf::with_room(alloc, room_for(text)).ok();
    match put_text(style, &mut path, text) {
        Ok(()) => path.ok_or(PathTextError::OutOfMemory),
        Err(fault) => Err(PathTextError::NoNode(fault)),
    }
}
