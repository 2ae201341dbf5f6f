//! The nodes of a device path or of an instance, one by one.
#![tactic(auto, unfolding(crate::specs::Views::nodes_left))]

ghost use Rattle.std.specs.Prelude.{◌≡◌, ◌<◌, ◌^◌, length};
ghost use Rattle.uefi_device_path.specs.Paths.{AreNodes, nodes_in};
ghost use Rattle.uefi_device_nodes.specs.NodeViews.{node_of};
ghost use Rattle.uefi_text.specs.Runs.{GivesEach};
ghost use Rattle.std.specs.Iterator.{YieldsFirstBy, item_count};

use uefi_device_nodes::DevicePathNode;

/// An iterator over the nodes of a device path or an instance, in order. A contract sees it as
/// `nodes_left` of it: the nodes that remain.
#[derive(Drop)]
pub struct DevicePathNodeIterator<'a> {
    rest: &'a [u8],
    pub ghost are_nodes: { AreNodes rest.now },
}

impl<'a> DevicePathNodeIterator<'a> {
    ghost use Rattle.uefi_device_path.specs.Views.{nodes_left};

    /// Creates an iterator over nodes, given as bytes.
    pub(crate) fn of(bytes: &'a [u8]) -> Self
        requires { AreNodes bytes.now }
        ensures same { nodes_left result ≡ nodes_in bytes.now }
        ensures bound { length (nodes_left result) < 2 ^ 64 }
        ensures runs { GivesEach node_of nodes_left result }
    {
        DevicePathNodeIterator { rest: bytes }
    }
}

/// Gives the nodes from the front, and then always `None`.
impl<'a> Iterator for DevicePathNodeIterator<'a> {
    type Item = DevicePathNode<'a>;

    ghost use Rattle.uefi_device_path.specs.Views.{nodes_left};

    ghost next_gives = { YieldsFirstBy node_of nodes_left };

    ghost remaining = { item_count nodes_left };

    fn next(&mut self) -> Option<DevicePathNode<'a>> {
        if self.rest.is_empty() {
            return None;
        }
        let (node, rest) = DevicePathNode::take_first(self.rest);
        self.rest = rest;
        Some(node)
    }
}
