//! Where the nodes of a text go: into memory that grows, or into a caller's buffer.
#![tactic(auto)]

ghost use Rattle.std.specs.Prelude.{◌≡◌, ◌≤◌, ◌∷◌, ◌++◌, [], List, None, length, take};
ghost use Rattle.uefi_device_nodes.specs.Nodes.{Node};
ghost use Rattle.uefi_device_path.specs.Building.{build_refusal};
ghost use Rattle.uefi_device_path.specs.NodeSinks.{HoldsMore, IsLonger};
ghost use Rattle.uefi_device_path.specs.Paths.{IsPath};

use crate::device_path_buf::DevicePathBuf;
use crate::path_in_buf::put_if_room;
use std::alloc::Allocator;
use uefi_device_nodes::build_node::BuildNode;

/// A sink that takes nodes, one after the other.
pub(crate) trait NodeSink {
    /// The sink before some nodes, the nodes, and the sink after them.
    ghost grown: { Self → List Node → Self → Type 0 };

    /// Takes a node that may be before the end of a path.
    fn put<N: BuildNode>(&mut self, node: &N)
        requires { build_refusal (N.node node.now) ≡ None }
        ensures { (start : Self) (nodes : List Node) → grown start nodes self.old
            → grown start (nodes ++ N.node node.now ∷ []) self.new };
}

/// A path in memory that grows, or `None` once memory ran out.
impl<A: Allocator> NodeSink for Option<DevicePathBuf<A>> {
    ghost grown = { IsLonger };

    fn put<N: BuildNode>(&mut self, node: &N) {
        if let Some(path) = self {
            if path.grow(node).is_err() {
                *self = None;
            }
        }
    }
}

/// A path in the first `len` bytes of a buffer. If the buffer has fewer bytes, `len` is the number of bytes
/// that the path needs, as far as a `usize` counts, and the contents of the buffer are unspecified.
#[derive(Drop)]
pub(crate) struct BufferedPath<'b> {
    pub(crate) buffer: &'b mut [u8],
    pub(crate) len: usize,
    pub(crate) ghost is_path: { len ≤ length buffer.now → IsPath (take len buffer.now) },
}

impl<'b> NodeSink for BufferedPath<'b> {
    ghost grown = { λ old nodes new. (new.buffer.ghost_name ≡ old.buffer.ghost_name)
        × HoldsMore old.buffer.now old.len nodes new.buffer.now new.len };

    fn put<N: BuildNode>(&mut self, node: &N) {
        self.len = put_if_room(self.buffer, self.len, node);
    }
}
