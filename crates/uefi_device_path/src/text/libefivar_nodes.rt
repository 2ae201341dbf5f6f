//! Nodes as libefivar and efibootmgr print them.
#![tactic(auto, using(uefi_text::proofs::Puts::puts))]

ghost use Rattle.std.specs.Fmt.{WritesInCalls};
ghost use Rattle.std.specs.Prelude.{◌≡◌};
ghost use Rattle.uefi_device_nodes.specs.NodeTexts.{is_file_node};
ghost use Rattle.uefi_device_nodes.specs.NodeViews.{node_of};
ghost use Rattle.uefi_device_path.specs.LibefivarTexts.{AreTurned, is_partition, libefivar_node_text};

use crate::text::cased_texts::{put_lowered, put_unchanged};
use uefi_device_nodes::node::{DevicePathNode, DeviceSubType, DeviceType};
use uefi_device_nodes::node_table::layouts::media::hard_drive;
use uefi_device_nodes::{AllowShortcuts, DisplayOnly};
use uefi_text::text_sink::TextSink;

/// Returns whether a node names a file.
fn is_file(node: DevicePathNode<'_>) -> bool
    ensures { result ≡ is_file_node (node_of node.entry) }
{
    node.device_type() == DeviceType::MEDIA
        && node.sub_type() == DeviceSubType::MEDIA_FILE_PATH
        && node.data().len() % 2 == 0
}

/// Returns whether a node is a partition.
fn is_partition(node: DevicePathNode<'_>) -> bool
    ensures { result ≡ is_partition (node_of node.entry) }
{
    node.device_type() == DeviceType::MEDIA
        && node.sub_type() == DeviceSubType::MEDIA_HARD_DRIVE
        && hard_drive::LEAST <= node.data().len()
}

/// Returns the bytes of the node of an NVMe namespace with its identifier in the opposite order, or `None`
/// for any other node.
fn turned(node: DevicePathNode<'_>) -> Option<[u8; 16]>
    ensures { AreTurned (node_of node.entry) result }
{
    let is_namespace = node.device_type() == DeviceType::MESSAGING
        && node.sub_type() == DeviceSubType::MESSAGING_NVME_NAMESPACE;
    if !is_namespace {
        return None;
    }
    let [a, b, c, d, e, f, g, h, i, j, k, l, ..] = node.data() else {
        return None;
    };
    Some([
        DeviceType::MESSAGING.0,
        DeviceSubType::MESSAGING_NVME_NAMESPACE.0,
        16,
        0,
        *a,
        *b,
        *c,
        *d,
        *l,
        *k,
        *j,
        *i,
        *h,
        *g,
        *f,
        *e,
    ])
}

/// Puts a node as libefivar prints it.
#[tactic(auto, using(uefi_text::proofs::Puts::puts), unfolding(crate::specs::LibefivarTexts::libefivar_node_text))]
pub(crate) fn put_node<S: TextSink>(sink: &mut S, node: DevicePathNode<'_>)
    ensures { WritesInCalls S.puts sink.old (libefivar_node_text (node_of node.entry)) sink.new }
{
    let text = node.display(DisplayOnly(false), AllowShortcuts(false));
    if is_file(node) {
        sink.put_str("File(");
        put_unchanged(sink, &text);
        sink.put_str(")");
        return;
    }
    if is_partition(node) {
        // The kind of its table is after the first comma.
        put_lowered(sink, 2, &text);
        return;
    }
    if let Some(bytes) = turned(node) {
        let (turned, _) = DevicePathNode::take_first(&bytes);
        let text = turned.display(DisplayOnly(false), AllowShortcuts(false));
        put_unchanged(sink, &text);
        return;
    }
    put_unchanged(sink, &text);
}
