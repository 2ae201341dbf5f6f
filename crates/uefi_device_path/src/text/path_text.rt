//! Device paths as text for people.
#![tactic(auto, using(uefi_text::proofs::Puts::puts))]

ghost use Rattle.std.specs.Fmt.{WritesInCalls};
ghost use Rattle.std.specs.Prelude.{◌≡◌, ◌≢◌, ◌-◌, ◌^◌, ◌<◌, ◌∷◌, ℕ, All, List, length, min, Some};
ghost use Rattle.uefi_device_nodes.specs.NodeViews.{node_of};
ghost use Rattle.uefi_device_path.specs.Paths.{AreNodes, nodes_in};
ghost use Rattle.uefi_device_nodes.specs.NodeTexts.{node_text};
ghost use Rattle.uefi_device_nodes.specs.Nodes.{Node};
ghost use Rattle.uefi_device_path.specs.LibefivarTexts.{libefivar_node_text};
ghost use Rattle.uefi_device_path.specs.PathTexts.{instance_text_by, libefivar_text, nodes_text, path_text_by, text_room};
ghost use Rattle.uefi_text.specs.Packed.{IsByte};

use crate::instance::cut_instance;
use crate::text::cased_texts::put_unchanged;
use crate::text::libefivar_nodes;
use std::fmt;
use uefi_device_nodes::{AllowShortcuts, DevicePathNode, DisplayOnly};
use uefi_text::text_sink::{Printed, TextSink, print};

/// How many code units a buffer needs for each byte of a device path or a node, so that the text in
/// any style always fits with its NUL (law [`text_lengths`](crate::laws::text_lengths)).
///
/// No smaller number is enough: a node of 11 bytes prints
/// `UsbDeviceFirmwareUpdate(0xFFFF,0xFFFF,0xFF)`, which needs 44 units with its NUL.
pub const TEXT_UNITS_PER_BYTE: usize = 4;

/// Returns the most code units that the text of a path or a node with these bytes can have, as far
/// as a `usize` counts.
pub(crate) fn most_units(bytes: &[u8]) -> usize
    ensures most { result ≡ min (text_room bytes.now) (2 ^ 64 - 1) - 1 }
    ensures bytes { All IsByte bytes.now }
{
    TEXT_UNITS_PER_BYTE
        .saturating_mul(bytes.len())
        .saturating_sub(1)
}

/// Returns the first of some nodes, given as bytes, and the bytes of the others.
fn cut_node(bytes: &[u8]) -> (DevicePathNode<'_>, &[u8])
    requires are_nodes { AreNodes bytes.now }
    requires some { length bytes.now ≢ 0 }
    ensures cut { nodes_in bytes.now ≡ node_of result.0 ∷ nodes_in result.1.now }
    ensures left { AreNodes result.1.now }
    ensures shorter { length result.1.now < length bytes.now }
{
    DevicePathNode::take_first(bytes)
}

/// A form in which nodes are printed.
trait NodeForm: Copy {
    /// The text of a node.
    ghost node_text: { Self → Node → List ℕ };

    /// Puts a node.
    fn put_node<S: TextSink>(self, sink: &mut S, node: DevicePathNode<'_>)
        ensures { WritesInCalls S.puts sink.old (node_text self (node_of node.entry)) sink.new };
}

/// The form that the UEFI Specification defines.
#[derive(Clone, Copy)]
struct Specified {
    display_only: DisplayOnly,
    allow_shortcuts: AllowShortcuts,
}

/// Puts a node as the UEFI Specification defines.
impl NodeForm for Specified {
    ghost node_text = { λ form. node_text form.display_only.0 form.allow_shortcuts.0 };

    fn put_node<S: TextSink>(self, sink: &mut S, node: DevicePathNode<'_>) {
        let text = node.display(self.display_only, self.allow_shortcuts);
        put_unchanged(sink, &text);
    }
}

/// The form that libefivar and efibootmgr print.
#[derive(Clone, Copy)]
struct Libefivar;

/// Puts a node as libefivar does.
impl NodeForm for Libefivar {
    ghost node_text = { λ _. libefivar_node_text };

    fn put_node<S: TextSink>(self, sink: &mut S, node: DevicePathNode<'_>) {
        libefivar_nodes::put_node(sink, node);
    }
}

/// Puts nodes, given as bytes, with a slash between each two.
fn put_instance<S: TextSink, F: NodeForm>(sink: &mut S, form: F, bytes: &[u8])
    requires { AreNodes bytes.now }
    ensures { WritesInCalls S.puts sink.old
        (instance_text_by (F.node_text form) (nodes_in bytes.now)) sink.new }
{
    if bytes.is_empty() {
        return;
    }
    let (first, after_first) = cut_node(bytes);
    form.put_node(sink, first);
    let mut rest = after_first;
    'nodes: while !rest.is_empty() {
        let (node, after) = cut_node(rest);
        sink.put_str("/");
        form.put_node(sink, node);
        rest = after;
    }
}

/// Puts the instances of nodes, given as bytes, with a comma between each two.
fn put_path<S: TextSink, F: NodeForm>(sink: &mut S, form: F, bytes: &[u8])
    requires { AreNodes bytes.now }
    ensures { WritesInCalls S.puts sink.old
        (path_text_by (F.node_text form) (nodes_in bytes.now)) sink.new }
{
    let (first, after_first) = cut_instance(bytes);
    put_instance(sink, form, first);
    let mut rest = after_first;
    'instances: while let Some(others) = rest {
        let (instance, after) = cut_instance(others);
        sink.put_str(",");
        put_instance(sink, form, instance);
        rest = after;
    }
}

/// A value that prints a device path. A contract sees it as `printed_path` of it: the text, in
/// UTF-8.
#[derive(Clone, Copy)]
pub struct PathText<'a> {
    bytes: &'a [u8],
    form: Specified,
    pub ghost are_nodes: { AreNodes bytes.now },
}

impl<'a> PathText<'a> {
    ghost use Rattle.uefi_device_path.specs.Views.{printed_path};

    /// Creates a value that prints nodes, given as bytes.
    #[tactic(auto, unfolding(crate::specs::Views::printed_path))]
    pub(crate) fn of(
        bytes: &'a [u8],
        display_only: DisplayOnly,
        allow_shortcuts: AllowShortcuts,
    ) -> Self
        requires { AreNodes bytes.now }
        ensures { printed_path result ≡ nodes_text display_only.0 allow_shortcuts.0 (nodes_in bytes.now) }
    {
        PathText {
            bytes,
            form: Specified {
                display_only,
                allow_shortcuts,
            },
        }
    }
}

/// Puts the text.
#[tactic(auto, unfolding(crate::specs::PathTexts::instance_text, crate::specs::PathTexts::nodes_text, crate::specs::Views::printed_path))]
impl<'a> Printed for PathText<'a> {
    ghost use Rattle.uefi_device_path.specs.Views.{printed_path};

    ghost printed = { printed_path };

    fn put<S: TextSink>(&self, sink: &mut S) {
        put_path(sink, self.form, self.bytes);
    }
}

/// Prints the text.
impl<'a> fmt::Display for PathText<'a> {
    ghost use Rattle.uefi_device_path.specs.Views.{printed_path};

    ghost output = { λ text. Some (printed_path text) };

    fn fmt<W: fmt::Write>(&self, f: &mut fmt::Formatter<W>) -> fmt::Result {
        print(f, self)
    }
}

/// A value that prints a device path as libefivar does. A contract sees it as
/// `printed_by_libefivar` of it: the text, in UTF-8.
#[derive(Clone, Copy)]
pub struct LibefivarText<'a> {
    bytes: &'a [u8],
    pub ghost are_nodes: { AreNodes bytes.now },
}

impl<'a> LibefivarText<'a> {
    ghost use Rattle.uefi_device_path.specs.Views.{printed_by_libefivar};

    /// Creates a value that prints nodes, given as bytes.
    #[tactic(auto, unfolding(crate::specs::Views::printed_by_libefivar))]
    pub(crate) fn of(bytes: &'a [u8]) -> Self
        requires { AreNodes bytes.now }
        ensures { printed_by_libefivar result ≡ libefivar_text (nodes_in bytes.now) }
    {
        LibefivarText { bytes }
    }
}

/// Puts the text.
#[tactic(auto, unfolding(crate::specs::PathTexts::libefivar_text, crate::specs::Views::printed_by_libefivar))]
impl<'a> Printed for LibefivarText<'a> {
    ghost use Rattle.uefi_device_path.specs.Views.{printed_by_libefivar};

    ghost printed = { printed_by_libefivar };

    fn put<S: TextSink>(&self, sink: &mut S) {
        put_path(sink, Libefivar, self.bytes);
    }
}

/// Prints the text.
impl<'a> fmt::Display for LibefivarText<'a> {
    ghost use Rattle.uefi_device_path.specs.Views.{printed_by_libefivar};

    ghost output = { λ text. Some (printed_by_libefivar text) };

    fn fmt<W: fmt::Write>(&self, f: &mut fmt::Formatter<W>) -> fmt::Result {
        print(f, self)
    }
}
