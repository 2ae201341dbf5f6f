//! Nodes that were read from texts in any style.
#![tactic(auto, unfolding(crate::specs::ParsedNodeViews::parsed_node))]

ghost use Rattle.std.specs.Prelude.{◌≡◌, ◌≤◌, length};
ghost use Rattle.uefi_node_reader.specs.ReadNodes.{node_from_text};

use crate::exact::parsed_node::ParsedNode;
use crate::file_node::FileNode;
use crate::lenient::tidied::Tidied;
use crate::named_files::NameText;
use uefi_device_nodes::build_node::BuildNode;
use uefi_device_nodes::node_table::layouts::MEDIA_TYPE;
use uefi_device_nodes::node_table::layouts::media::file_path;
use uefi_device_nodes::{DeviceSubType, DeviceType};

/// A node that was read from a text.
#[derive(Drop)]
pub enum ReadNode<T: NameText> {
    /// From a call, as it is in the text.
    Exact(ParsedNode<T>),
    /// From a tidied call.
    Tidied(ParsedNode<Tidied<T>>),
    /// From the name of a file.
    File(FileNode<T>),
}

/// The node.
impl<T: NameText> BuildNode for ReadNode<T> {
    ghost node = { node_from_text };

    fn full_type(&self) -> (DeviceType, DeviceSubType) {
        let (device_type, sub_type) = match self {
            ReadNode::Exact(node) => node.types(),
            ReadNode::Tidied(node) => node.types(),
            ReadNode::File(_) => (MEDIA_TYPE, file_path::SUB_TYPE),
        };
        (DeviceType(device_type), DeviceSubType(sub_type))
    }

    fn data_len(&self) -> usize {
        match self {
            ReadNode::Exact(node) => node.data_len(),
            ReadNode::Tidied(node) => node.data_len(),
            ReadNode::File(node) => node.data_len(),
        }
    }

    fn write_data(&self, bytes: &mut [u8]) {
        match self {
            ReadNode::Exact(node) => node.write_data(bytes),
            ReadNode::Tidied(node) => node.write_data(bytes),
            ReadNode::File(node) => node.write_data(bytes),
        }
    }
}
