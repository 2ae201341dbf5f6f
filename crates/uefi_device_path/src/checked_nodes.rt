//! The nodes of a device path, each checked when it is read.
#![tactic(auto, unfolding(crate::specs::Views::checked_bytes, crate::specs::Views::checked_left, crate::specs::Views::rest_of))]

ghost use Rattle.std.specs.Prelude.{◌≡◌, ◌≢◌, ℕ, ◌<◌, ◌^◌, ◌++◌, ◌∷◌, [], List, map, length, Option, None, Some, IfNone, IfSome, OnSome, Ok, Err, ⊤};
ghost use Rattle.std.specs.Iterator.{MakesProgress, YieldsFirstBy, item_count};
ghost use Rattle.std.specs.Option.{option_map};
ghost use Rattle.uefi_device_nodes.specs.NodeFaults.{node_fault};
ghost use Rattle.uefi_device_nodes.specs.Nodes.{Node, end_entire, node_bytes};
ghost use Rattle.uefi_device_path.specs.CheckedNodes.{BeginWithEnd, nodes_before};
ghost use Rattle.uefi_device_path.specs.Faults.{RefusedFor, RefusesNode};
ghost use Rattle.uefi_device_path.specs.Paths.{BeginWith, BeginWithPath};
ghost use Rattle.uefi_device_path.specs.declared.checked_nodes.Progress.{Progress};
ghost use Rattle.uefi_device_path.specs.declared.errors.DevicePathError.{DevicePathError};
ghost use Rattle.uefi_text.specs.Runs.{GivesEach};

use crate::errors::DevicePathError;
use uefi_device_nodes::node::{DevicePathNode, fault_place};

/// The progress of reading the bytes.
#[derive(Clone, Copy)]
enum Progress {
    /// The bytes are read up to a node, or to the end node.
    Reading,
    /// The bytes are read up to the end of the path.
    Ended,
    /// The bytes are read up to a fault.
    Failed,
}

/// The nodes of the device path at the start of bytes, each checked when it is read. A contract
/// sees it as `checked_left` of it, the nodes that remain; as `checked_bytes` of it, all of the
/// bytes; and as `rest_of` it, the bytes after the path once its end was reached.
#[derive(Drop)]
pub struct CheckedNodes<'a> {
    bytes: &'a [u8],
    rest: &'a [u8],
    progress: Progress,
    pub ghost begins: { BeginWith bytes.now (nodes_before bytes.now rest.now) rest.now },
    pub ghost ended: { progress ≡ Progress.Ended → BeginWithEnd rest.now },
    pub ghost failed: { progress ≡ Progress.Failed → node_fault rest.now ≢ None },
}

impl<'a> CheckedNodes<'a> {
    ghost use Rattle.uefi_device_path.specs.Views.{checked_bytes, checked_left, checked_node, rest_of};

    /// Creates an iterator over the nodes of the device path at the start of bytes.
    ///
    /// ```rust
    /// let mut nodes = CheckedNodes::new(&[1, 1, 6, 0, 2, 0x1f]);
    /// assert!(rt; matches!(nodes.next(), Some(Ok(node)) if node.length() == 6));
    /// let error = DevicePathError { cause: NodeError::Missing, offset: 6 };
    /// assert!(rt; matches!(nodes.next(), Some(Err(it)) if it == error));
    /// assert!(rt; nodes.next().is_none());
    /// ```
    pub fn new(bytes: &'a [u8]) -> Self
        ensures accepted { (nodes : List Node) → BeginWithPath bytes.now nodes
            → checked_left result ≡ map Ok nodes }
        ensures refused { (error : DevicePathError) (nodes : List Node) (rest : List ℕ)
            → RefusesNode bytes.now error nodes rest
            → checked_left result ≡ map Ok nodes ++ Err error ∷ [] }
        ensures bytes { checked_bytes result ≡ bytes.now }
        ensures rest { rest_of result ≡ None }
        ensures bound { length (checked_left result) < 2 ^ 64 }
        ensures runs { GivesEach checked_node checked_left result }
    {
        CheckedNodes {
            bytes,
            rest: bytes,
            progress: Progress::Reading,
        }
    }

    /// Reads one more node, where a node or the end node should be.
    fn read(&mut self) -> Option<Result<DevicePathNode<'a>, DevicePathError>>
        requires { self.old.progress ≡ Progress.Reading }
        ensures steps { YieldsFirstBy checked_node checked_left self.old result self.new }
        ensures bytes { checked_bytes self.new ≡ checked_bytes self.old }
        ensures ended { IfNone result ((nodes : List Node) (rest : List ℕ)
            → BeginWith (checked_bytes self.old) nodes (node_bytes end_entire ++ rest)
            → rest_of self.new ≡ Some rest) }
        ensures failed { IfNone result ((error : DevicePathError)
            → RefusedFor (checked_bytes self.old) error → rest_of self.new ≡ None) }
        ensures not_yet { OnSome result (rest_of self.new ≡ None) }
    {
        match DevicePathNode::split_first(self.rest) {
            Ok((node, after)) => {
                if node.is_end_entire() {
                    self.progress = Progress::Ended;
                    return None;
                }
                self.rest = after;
                Some(Ok(node))
            }
            Err(cause) => {
                let offset = self.bytes.len() - self.rest.len() + fault_place(cause);
                self.progress = Progress::Failed;
                Some(Err(DevicePathError { cause, offset }))
            }
        }
    }

    /// Returns the bytes after the path once the iterator has given all nodes and then `None`.
    /// Returns `None` before that, and after a fault.
    ///
    /// ```rust
    /// let mut nodes = CheckedNodes::new(&[1, 1, 6, 0, 2, 0x1f, 0x7f, 0xff, 4, 0, 9]);
    /// assert!(rt; nodes.next().is_some() && nodes.rest().is_none());
    /// assert!(rt; nodes.next().is_none());
    /// assert_eq!(rt; nodes.rest(), Some([9].as_slice()));
    /// ```
    pub fn rest(&self) -> Option<&'a [u8]>
        ensures same { option_map (λ rest. rest.now) result ≡ rest_of self.now }
        ensures after { IfSome result (λ rest. (nodes : List Node)
            × BeginWith (checked_bytes self.now) nodes (node_bytes end_entire ++ rest.now)) }
    {
        match self.progress {
            Progress::Ended => Some(&self.rest[4..]),
            Progress::Reading | Progress::Failed => None,
        }
    }
}

/// Gives each node before the end node, in order. At the first malformed node it gives the error
/// with which [`DevicePath::from_bytes`](crate::DevicePath::from_bytes) rejects the bytes. After
/// the last node, and after an error, it always gives `None`. Does not allocate.
impl<'a> Iterator for CheckedNodes<'a> {
    type Item = Result<DevicePathNode<'a>, DevicePathError>;

    ghost use Rattle.uefi_device_path.specs.Views.{checked_bytes, checked_left, checked_node, rest_of};

    ghost next_gives = { YieldsFirstBy checked_node checked_left };

    ghost remaining = { item_count checked_left };

    fn next(&mut self) -> Option<Result<DevicePathNode<'a>, DevicePathError>>
        ensures steps { YieldsFirstBy checked_node checked_left self.old result self.new }
        ensures goes { MakesProgress (λ _. ⊤) (item_count checked_left) self.old result self.new }
        ensures bytes { checked_bytes self.new ≡ checked_bytes self.old }
        ensures ended { IfNone result ((nodes : List Node) (rest : List ℕ)
            → BeginWith (checked_bytes self.old) nodes (node_bytes end_entire ++ rest)
            → rest_of self.new ≡ Some rest) }
        ensures failed { IfNone result ((error : DevicePathError)
            → RefusedFor (checked_bytes self.old) error → rest_of self.new ≡ None) }
        ensures not_yet { OnSome result (rest_of self.new ≡ None) }
    {
        match self.progress {
            Progress::Reading => self.read(),
            Progress::Ended | Progress::Failed => None,
        }
    }
}
