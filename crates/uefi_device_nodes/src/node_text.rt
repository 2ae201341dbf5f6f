//! Nodes as text for people. The table of kinds describes most texts, and the calls here make the others.
#![tactic(auto, using(uefi_text::proofs::Puts::puts), unfolding(crate::specs::NodeTexts::unknown_text, crate::specs::NodeTexts::irregular_text, crate::specs::NodeTexts::node_text, crate::specs::NodeViews::printed_node))]

ghost use Rattle.std.specs.Fmt.{WritesInCalls};
ghost use Rattle.std.specs.Prelude.{◌≡◌, [], IfSome, if◌then◌else◌, is_some, Some, false};
ghost use Rattle.uefi_device_nodes.specs.NodeTexts.{expanded_text, has_uid_text, irregular_text, is_irregular, node_text, short_name, unknown_text};
ghost use Rattle.uefi_device_nodes.specs.NodeViews.{data_of, node_of, printed_node, file_node};
ghost use Rattle.uefi_device_nodes.specs.Nodes.{node_with};
ghost use Rattle.uefi_text.specs.UnalignedCStr16.{with_prefix};
ghost use Rattle.uefi_text.specs.UnitTexts.{utf16_units, written_len};
ghost use Rattle.uefi_text.specs.Units.{nul_terminated};
ghost use Rattle.uefi_device_nodes.specs.FieldTexts.{utf16_text};

use crate::acpi::Expanded;
use crate::field_texts::forms::{AllowShortcuts, DisplayOnly};
use crate::field_texts::hexadecimal::put_comma_bytes;
use crate::field_texts::ids::{has_uid_alone, put_eisa_id};
use crate::field_texts::shown_texts::{put_byte_text, put_utf16_text};
use crate::field_texts::vendor_names::vendor_name;
use crate::media::FilePath;
use crate::node::DevicePathNode;
use crate::node_table::layouts::media::file_path;
use crate::node_table::layouts::messaging::messaging_vendor;
use crate::node_table::layouts::{MEDIA_TYPE, MESSAGING_TYPE};
use crate::node_table::printing::put_form;
use crate::typed_node::TypedNode;
use std::fmt;
use uefi_text::Packed;
use uefi_text::number_texts::put_decimal;
use uefi_text::text_sink::{Printed, TextSink, print};
use uefi_text::unit_sink::{BufferTooSmall, write_units};

/// A node to print, as its type, its sub-type and its data, and the form of the text.
#[derive(Clone, Copy)]
struct Parts<'a> {
    device_type: u8,
    sub_type: u8,
    data: &'a [u8],
    display_only: bool,
    allow_shortcuts: bool,
}

/// Puts `Path(TYPE,SUBTYPE,BYTES)`, the text of a node that the table does not describe.
fn put_unknown<S: TextSink>(sink: &mut S, node: &Parts<'_>)
    ensures { WritesInCalls S.puts sink.old (unknown_text
        (node_with node.now.device_type node.now.sub_type node.now.data.now)) sink.new }
{
    put_decimal(sink, "Path(", u64::from(node.device_type));
    put_decimal(sink, ",", u64::from(node.sub_type));
    put_comma_bytes(sink, node.data);
    sink.put_str(")");
}

/// Puts the shorter text of a device that ACPI names only by the string of its `_UID`:
/// `AcpiExp(HID,CID,UIDSTR)`.
fn put_expanded<S: TextSink>(sink: &mut S, node: &Expanded<'_>)
    ensures { WritesInCalls S.puts sink.old (expanded_text (data_of node.now)) sink.new }
{
    put_eisa_id(sink, "AcpiExp(", node.hid());
    put_eisa_id(sink, ",", node.cid());
    put_byte_text(sink, ",", node.uid_str());
    sink.put_str(")");
}

/// Returns the device that the node names only by the string of its `_UID`, if it does so and shorter texts
/// are allowed.
fn named_by_uid<'a>(node: &Parts<'a>) -> Option<Expanded<'a>>
    ensures some { is_some result ≡ has_uid_text node.now.allow_shortcuts
        (node_with node.now.device_type node.now.sub_type node.now.data.now) }
    ensures device { IfSome result (λ device. data_of device ≡ node.now.data.now) }
{
    if !node.allow_shortcuts {
        return None;
    }
    let Ok(device) = Expanded::from_parts(node.device_type, node.sub_type, node.data) else {
        return None;
    };
    if !has_uid_alone(device.id_strings()) {
        return None;
    }
    Some(device)
}

/// Returns the short name of a vendor-defined messaging node without data, or an empty text if it has none.
fn short_name(node: &Parts<'_>) -> &'static str
    ensures { result.now ≡ short_name (node_with node.now.device_type node.now.sub_type node.now.data.now) }
{
    if node.device_type != MESSAGING_TYPE
        || node.sub_type != messaging_vendor::SUB_TYPE
        || node.data.len() != messaging_vendor::LEAST
    {
        return "";
    }
    let (first, second) = node.data.split_at(8);
    vendor_name(u64::read_le(first), u64::read_le(second))
}

/// Puts the text of a node if no row of the table can describe it, and returns whether that is so. Otherwise
/// puts nothing.
fn put_irregular<S: TextSink>(sink: &mut S, node: &Parts<'_>) -> bool
    ensures found { result ≡ is_irregular node.now.allow_shortcuts
        (node_with node.now.device_type node.now.sub_type node.now.data.now) }
    ensures text { WritesInCalls S.puts sink.old (if result then irregular_text node.now.display_only
        node.now.allow_shortcuts (node_with node.now.device_type node.now.sub_type node.now.data.now)
        else []) sink.new }
{
    if node.device_type == MEDIA_TYPE
        && node.sub_type == file_path::SUB_TYPE
        && node.data.len() % 2 == 0
    {
        put_utf16_text(sink, node.data);
        return true;
    }
    if let Some(device) = named_by_uid(node) {
        put_expanded(sink, &device);
        return true;
    }
    let name = if node.allow_shortcuts {
        short_name(node)
    } else {
        ""
    };
    if name.is_empty() {
        return false;
    }
    sink.put_str(name);
    true
}

/// Puts the text of any node.
fn put_node<S: TextSink>(sink: &mut S, node: &Parts<'_>)
    ensures { WritesInCalls S.puts sink.old (node_text node.now.display_only node.now.allow_shortcuts
        (node_with node.now.device_type node.now.sub_type node.now.data.now)) sink.new }
{
    if put_irregular(sink, node) {
        return;
    }
    let (device_type, sub_type) = (node.device_type, node.sub_type);
    if !put_form(sink, node.display_only, device_type, sub_type, node.data) {
        put_unknown(sink, node);
    }
}

/// A value that prints a node. A contract sees it as `printed_node` of it: the text, in UTF-8.
#[derive(Clone, Copy)]
pub struct NodeText<'a> {
    node: DevicePathNode<'a>,
    display_only: bool,
    allow_shortcuts: bool,
}

impl<'a> DevicePathNode<'a> {
    /// Returns a value that prints the node, for a `{}` of a format (UEFI Specification 2.10, section
    /// 10.6.1). The text has the form of the node's kind. If the node is of no known kind, or too short for
    /// its kind, the text is `Path(TYPE,SUBTYPE,BYTES)`. The text contains no control character, and no
    /// character that changes its direction or ends its line. Does not allocate.
    ///
    /// ```rust
    /// let (node, _) = DevicePathNode::split_first(&[3, 1, 8, 0, 0, 1, 2, 0])?;
    /// let shortcuts = AllowShortcuts(true);
    /// let text = node.display(DisplayOnly(false), shortcuts);
    /// assert_eq!(rt; format!(in rt.alloc(); "{text}")?.as_str(), "Ata(Primary,Slave,0x2)");
    /// let text = node.display(DisplayOnly(true), shortcuts);
    /// assert_eq!(rt; format!(in rt.alloc(); "{text}")?.as_str(), "Ata(0x2)");
    /// ```
    pub fn display(
        &self,
        display_only: DisplayOnly,
        allow_shortcuts: AllowShortcuts,
    ) -> NodeText<'a>
        ensures { printed_node result ≡ node_text display_only.0 allow_shortcuts.0 (node_of self.now) }
    {
        NodeText {
            node: *self,
            display_only: display_only.0,
            allow_shortcuts: allow_shortcuts.0,
        }
    }

    /// Writes the text that [`DevicePathNode::display`] gives to the start of a buffer as UTF-16, with a NUL
    /// after it, and returns its length without the NUL. The rest of the buffer is unchanged.
    ///
    /// Fails only if the buffer is too small, and then leaves it unchanged. Makes the text twice: once to
    /// count its units, and once to write them. Does not allocate.
    ///
    /// ```rust
    /// let (node, _) = DevicePathNode::split_first(&[3, 0x1a, 5, 0, 1])?;
    /// let (shortcuts, form) = (AllowShortcuts(true), DisplayOnly(false));
    /// let mut buffer = [0; 8];
    /// assert_eq!(rt; node.write_text(&mut buffer, form, shortcuts), Ok(7));
    /// assert_eq!(rt; buffer, [0x53, 0x44, 0x28, 0x30, 0x78, 0x31, 0x29, 0]);
    /// assert_eq!(rt; node.write_text(&mut [0; 7], form, shortcuts), Err(BufferTooSmall(8)));
    /// ```
    pub fn write_text(
        &self,
        buffer: &mut [u16],
        display_only: DisplayOnly,
        allow_shortcuts: AllowShortcuts,
    ) -> Result<usize, BufferTooSmall>
        ensures len { result ≡ written_len
            (utf16_units (node_text display_only.0 allow_shortcuts.0 (node_of self.now))) buffer.old }
        ensures buffer { buffer.new ≡ with_prefix (nul_terminated
            (utf16_units (node_text display_only.0 allow_shortcuts.0 (node_of self.now)))) buffer.old }
    {
        write_units(buffer, &self.display(display_only, allow_shortcuts))
    }
}

/// Puts the text.
impl<'a> Printed for NodeText<'a> {
    ghost printed = { printed_node };

    fn put<S: TextSink>(&self, sink: &mut S) {
        let node = Parts {
            device_type: self.node.device_type().0,
            sub_type: self.node.sub_type().0,
            data: self.node.data(),
            display_only: self.display_only,
            allow_shortcuts: self.allow_shortcuts,
        };
        put_node(sink, &node);
    }
}

/// Prints the text.
impl<'a> fmt::Display for NodeText<'a> {
    ghost output = { λ text. Some (printed_node text) };

    fn fmt<W: fmt::Write>(&self, f: &mut fmt::Formatter<W>) -> fmt::Result {
        print(f, self)
    }
}

/// Prints the text that can be read back, without short names.
impl<'a> fmt::Display for DevicePathNode<'a> {
    ghost output = { λ node. Some (node_text false false (node_of node)) };

    fn fmt<W: fmt::Write>(&self, f: &mut fmt::Formatter<W>) -> fmt::Result {
        print(f, &self.display(DisplayOnly(false), AllowShortcuts(false)))
    }
}

/// Puts the text that can be read back, without short names.
impl<'a, const DEVICE_TYPE: u8, const SUB_TYPE: u8, const LEAST: usize> Printed
    for TypedNode<'a, DEVICE_TYPE, SUB_TYPE, LEAST> {
    ghost printed = { λ node. node_text false false (node_with DEVICE_TYPE SUB_TYPE (data_of node)) };

    fn put<S: TextSink>(&self, sink: &mut S) {
        let node = Parts {
            device_type: DEVICE_TYPE,
            sub_type: SUB_TYPE,
            data: self.data(),
            display_only: false,
            allow_shortcuts: false,
        };
        put_node(sink, &node);
    }
}

/// Prints the text that can be read back, without short names.
impl<'a, const DEVICE_TYPE: u8, const SUB_TYPE: u8, const LEAST: usize> fmt::Display
    for TypedNode<'a, DEVICE_TYPE, SUB_TYPE, LEAST> {
    ghost output = { λ node. Some (node_text false false
        (node_with DEVICE_TYPE SUB_TYPE (data_of node))) };

    fn fmt<W: fmt::Write>(&self, f: &mut fmt::Formatter<W>) -> fmt::Result {
        print(f, self)
    }
}

/// Puts the name up to its NUL, with U+FFFD for each unpaired surrogate, and `\u{HEX}` for each character
/// that texts escape.
impl<'a> Printed for FilePath<'a> {
    ghost printed = { λ path. utf16_text (file_node path).content };

    fn put<S: TextSink>(&self, sink: &mut S) {
        put_utf16_text(sink, self.data());
    }
}

/// Prints the name.
impl<'a> fmt::Display for FilePath<'a> {
    ghost output = { λ path. Some (utf16_text (file_node path).content) };

    fn fmt<W: fmt::Write>(&self, f: &mut fmt::Formatter<W>) -> fmt::Result {
        print(f, self)
    }
}
