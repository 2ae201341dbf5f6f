//! Nodes that can be added to a device path.
#![tactic(auto)]

ghost use Rattle.std.specs.Prelude.{◌≡◌, length};
ghost use Rattle.uefi_device_nodes.specs.Nodes.{Node};
ghost use Rattle.uefi_device_nodes.specs.NodeViews.{node_of};
ghost use Rattle.uefi_device_nodes.specs.RawNodes.{raw_node};

use crate::node::{DevicePathNode, DeviceSubType, DeviceType};

/// A node that can be added to a device path. A contract sees it as `node` of it: its type, its sub-type
/// and its data.
///
/// ```rust
/// let node = hardware::Pci { function: 2, device: 0x1f };
/// assert_eq!(rt; node.full_type(), (DeviceType::HARDWARE, DeviceSubType::HARDWARE_PCI));
/// assert_eq!(rt; node.data_len(), 2);
/// let mut data = [0; 2];
/// node.write_data(&mut data);
/// assert_eq!(rt; data, [2, 0x1f]);
/// ```
pub trait BuildNode {
    /// The node, as contracts see it.
    ghost node: { Self → Node };

    /// Returns the type and the sub-type.
    fn full_type(&self) -> (DeviceType, DeviceSubType)
        ensures device_type { result.0.0 ≡ (node self.now).device_type }
        ensures sub_type { result.1.0 ≡ (node self.now).sub_type };

    /// Returns the number of bytes of data.
    fn data_len(&self) -> usize
        ensures { result ≡ length (node self.now).content };

    /// Writes the data to bytes, whose number is [`BuildNode::data_len`].
    fn write_data(&self, bytes: &mut [u8])
        requires { length bytes.old ≡ length (node self.now).content }
        ensures { bytes.new ≡ (node self.now).content };
}

/// A node that was read, or a node of another path.
impl BuildNode for DevicePathNode<'_> {
    ghost node = { node_of };

    fn full_type(&self) -> (DeviceType, DeviceSubType) {
        DevicePathNode::full_type(self)
    }

    fn data_len(&self) -> usize {
        self.data().len()
    }

    fn write_data(&self, bytes: &mut [u8]) {
        bytes.copy_from_slice(self.data());
    }
}

/// A node of any type, with any data.
///
/// ```rust
/// let mut path = DevicePathBuf::new(rt.alloc())?;
/// let (device_type, sub_type) = (DeviceType(9), DeviceSubType(250));
/// path.push_node(&RawNode { device_type, sub_type, content: &[1, 2] })?;
/// let text = format!(in rt.alloc(); "{}", path.as_device_path())?;
/// assert_eq!(rt; text.as_str(), "Path(9,250,0102)");
/// ```
#[derive(Clone, Copy)]
pub struct RawNode<'a> {
    /// Its type.
    pub device_type: DeviceType,
    /// Its sub-type.
    pub sub_type: DeviceSubType,
    /// Its data.
    pub content: &'a [u8],
}

/// Builds the node from its type, its sub-type and its data.
impl BuildNode for RawNode<'_> {
    ghost node = { raw_node };

    fn full_type(&self) -> (DeviceType, DeviceSubType) {
        (self.device_type, self.sub_type)
    }

    fn data_len(&self) -> usize {
        self.content.len()
    }

    fn write_data(&self, bytes: &mut [u8]) {
        bytes.copy_from_slice(self.content);
    }
}
