//! One node of a device path.
#![tactic(auto, unfolding(crate::specs::NodeViews::node_of))]

ghost use Rattle.std.specs.Prelude.{◌≡◌, ◌<◌, ◌≤◌, ◌↔◌, ◌++◌, length, slice_index, IfOk, IsTrue, None, Some, nat_eq};
ghost use Rattle.std.specs.Result.{result_err};
ghost use Rattle.uefi_device_nodes.specs.NodeFaults.{fault_place, node_fault};
ghost use Rattle.uefi_device_nodes.specs.Nodes.{IsSound, end_entire, first_node, node_bytes, node_length, stated_length, is_end_instance};
ghost use Rattle.std.specs.Cmp.{on_per, partial_equiv_from_equiv};
ghost use Rattle.std.specs.Cmp.Lexicographic.{nat_list_eq_equiv, pointwise, on_texts_equal};

use crate::errors::NodeError;
use crate::node_table::layouts::{
    ACPI_TYPE, BIOS_BOOT_SPEC_TYPE, HARDWARE_TYPE, MEDIA_TYPE, MESSAGING_TYPE,
};
use std::fmt;
use std::hash::{Hash, Hasher};

/// The type of a node (UEFI Specification 2.10, section 10.3).
#[derive(Clone, Copy, Debug, PartialEq, Eq)]
pub struct DeviceType(
    /// The number of the type.
    pub u8,
);

impl DeviceType {
    /// A device in the system's address space, such as a device on a PCI bus.
    pub const HARDWARE: DeviceType = DeviceType(HARDWARE_TYPE);

    /// A device that the ACPI namespace describes.
    pub const ACPI: DeviceType = DeviceType(ACPI_TYPE);

    /// A device that is reached by messages, such as a device on a SCSI bus.
    pub const MESSAGING: DeviceType = DeviceType(MESSAGING_TYPE);

    /// A part of a medium, such as a partition or a file.
    pub const MEDIA: DeviceType = DeviceType(MEDIA_TYPE);

    /// A device that a legacy BIOS can boot.
    pub const BIOS_BOOT_SPEC: DeviceType = DeviceType(BIOS_BOOT_SPEC_TYPE);

    /// The end of an instance or of a path.
    pub const END: DeviceType = DeviceType(0x7f);
}

/// The sub-type of a node. Its meaning depends on the type.
#[derive(Clone, Copy, Debug, PartialEq, Eq)]
pub struct DeviceSubType(
    /// The number of the sub-type.
    pub u8,
);

impl DeviceSubType {
    /// The end of an instance, after which another follows ([`DeviceType::END`]).
    pub const END_INSTANCE: DeviceSubType = DeviceSubType(0x01);

    /// The end of the path ([`DeviceType::END`]).
    pub const END_ENTIRE: DeviceSubType = DeviceSubType(0xff);
}

/// Returns where in a node the faulty bytes begin. Public only for `uefi_device_path`.
#[doc(hidden)]
pub fn fault_place(cause: NodeError) -> usize
    ensures place { result ≡ fault_place cause }
    ensures within { result ≤ 2 }
{
    match cause {
        NodeError::Missing | NodeError::TruncatedHeader => 0,
        NodeError::UnknownEnd => 1,
        NodeError::LengthBelowHeader | NodeError::EndWithData | NodeError::BeyondEnd => 2,
    }
}

/// A node in borrowed bytes. A contract sees it as `node_of` it: its type, its sub-type and its data.
///
/// ```rust
/// let (node, _) = DevicePathNode::split_first(&[1, 1, 6, 0, 2, 0x1f])?;
/// assert_eq!(rt; (node.device_type(), node.sub_type()), node.full_type());
/// assert_eq!(rt; node.full_type(), (DeviceType::HARDWARE, DeviceSubType::HARDWARE_PCI));
/// assert_eq!(rt; (node.length(), node.data()), (6, [2, 0x1f].as_slice()));
/// assert_eq!(rt; node.as_bytes(), [1, 1, 6, 0, 2, 0x1f].as_slice());
/// assert!(rt; !node.is_end_entire() && !node.is_end_instance());
/// ```
#[derive(Clone, Copy)]
pub struct DevicePathNode<'a> {
    bytes: &'a [u8],
    pub ghost is_node: { bytes.now ≡ node_bytes (first_node bytes.now) },
    pub ghost sound: { IsSound (first_node bytes.now) },
}

impl<'a> DevicePathNode<'a> {
    ghost use Rattle.uefi_device_nodes.specs.NodeViews.{node_of};

    /// Cuts the node of this length from the start of bytes, and returns the bytes after it too.
    #[inline(always)]
    fn cut(bytes: &'a [u8], len: usize) -> (Self, &'a [u8])
        requires begins { node_fault bytes.now ≡ None }
        requires len { len ≡ stated_length bytes.now }
        ensures split { bytes.now ≡ node_bytes (node_of result.0) ++ result.1.now }
        ensures sound { IsSound (node_of result.0) }
    {
        let (node, rest) = bytes.split_at(len);
        (DevicePathNode { bytes: node }, rest)
    }

    /// Returns the node at the start of bytes, and the bytes after it, without a test. Public only for
    /// `uefi_device_path`, which proves that a node begins there. Other callers use
    /// [`DevicePathNode::split_first`].
    #[doc(hidden)]
    #[inline(always)]
    pub fn take_first(bytes: &'a [u8]) -> (Self, &'a [u8])
        requires { node_fault bytes.now ≡ None }
        ensures split { bytes.now ≡ node_bytes (node_of result.0) ++ result.1.now }
        ensures sound { IsSound (node_of result.0) }
    {
        let length = u16::from_le_bytes([bytes[2], bytes[3]]) as usize;
        DevicePathNode::cut(bytes, length)
    }

    /// Splits bytes into the node at their start and the bytes after it. The node may be the end of an
    /// instance or of the path. Fails with the first cause that holds, in the order of the variants of
    /// [`NodeError`].
    ///
    /// ```rust
    /// let (node, rest) = DevicePathNode::split_first(&[1, 1, 6, 0, 2, 0x1f, 0x7f, 0xff, 4, 0])?;
    /// assert_eq!(rt; node.data(), [2, 0x1f].as_slice());
    /// assert_eq!(rt; rest, [0x7f, 0xff, 4, 0].as_slice());
    /// let refused = DevicePathNode::split_first(&[1, 1, 6, 0, 2]);
    /// assert_eq!(rt; refused.err(), Some(NodeError::BeyondEnd));
    /// ```
    #[inline(always)]
    pub fn split_first(bytes: &'a [u8]) -> Result<(Self, &'a [u8]), NodeError>
        ensures ok { IfOk result (λ split. bytes.now ≡ node_bytes (node_of split.0) ++ split.1.now) }
        ensures sound { IfOk result (λ split. IsSound (node_of split.0)) }
        ensures refusal { result_err result ≡ node_fault bytes.now }
    {
        if bytes.len() < 4 {
            return Err(DevicePathNode::cut_fault(bytes));
        }
        let length = u16::from_le_bytes([bytes[2], bytes[3]]) as usize;
        if bytes[0] == 0x7f {
            return DevicePathNode::split_end(bytes, length);
        }
        if length < 4 {
            return Err(NodeError::LengthBelowHeader);
        }
        if bytes.len() < length {
            return Err(NodeError::BeyondEnd);
        }
        Ok(DevicePathNode::cut(bytes, length))
    }

    /// Returns why no node begins at bytes that are shorter than a header.
    #[cold]
    fn cut_fault(bytes: &[u8]) -> NodeError
        requires { length bytes.now < 4 }
        ensures { node_fault bytes.now ≡ Some result }
    {
        if bytes.is_empty() {
            return NodeError::Missing;
        }
        NodeError::TruncatedHeader
    }

    /// Splits bytes that begin with the header of a node of type End, which states this length.
    fn split_end(bytes: &'a [u8], len: usize) -> Result<(Self, &'a [u8]), NodeError>
        requires header { 4 ≤ length bytes.now }
        requires is_end { slice_index bytes.now 0 ≡ 0x7f }
        requires len { len ≡ stated_length bytes.now }
        ensures ok { IfOk result (λ split. bytes.now ≡ node_bytes (node_of split.0) ++ split.1.now) }
        ensures sound { IfOk result (λ split. IsSound (node_of split.0)) }
        ensures refusal { result_err result ≡ node_fault bytes.now }
    {
        if bytes[1] != 0x01 && bytes[1] != 0xff {
            return Err(NodeError::UnknownEnd);
        }
        if len < 4 {
            return Err(NodeError::LengthBelowHeader);
        }
        if len != 4 {
            return Err(NodeError::EndWithData);
        }
        Ok(DevicePathNode::cut(bytes, len))
    }

    /// Returns all bytes of the node.
    pub fn as_bytes(&self) -> &'a [u8]
        ensures { result.now ≡ node_bytes (node_of self.now) }
    {
        self.bytes
    }

    /// Returns the type.
    pub fn device_type(&self) -> DeviceType
        ensures { result.0 ≡ (node_of self.now).device_type }
    {
        DeviceType(self.bytes[0])
    }

    /// Returns the sub-type.
    pub fn sub_type(&self) -> DeviceSubType
        ensures { result.0 ≡ (node_of self.now).sub_type }
    {
        DeviceSubType(self.bytes[1])
    }

    /// Returns the type and the sub-type.
    pub fn full_type(&self) -> (DeviceType, DeviceSubType)
        ensures device_type { result.0.0 ≡ (node_of self.now).device_type }
        ensures sub_type { result.1.0 ≡ (node_of self.now).sub_type }
    {
        (self.device_type(), self.sub_type())
    }

    /// Returns the number of bytes of the node, including its header.
    pub fn length(&self) -> u16
        ensures { result ≡ node_length (node_of self.now) }
    {
        u16::from_le_bytes([self.bytes[2], self.bytes[3]])
    }

    /// Returns the bytes after the header.
    pub fn data(&self) -> &'a [u8]
        ensures { result.now ≡ (node_of self.now).content }
    {
        &self.bytes[4..]
    }

    /// Returns whether this node ends the path.
    pub fn is_end_entire(&self) -> bool
        ensures { IsTrue result ↔ (node_of self.now ≡ end_entire) }
    {
        self.bytes[0] == 0x7f && self.bytes[1] == 0xff
    }

    /// Returns whether this node ends an instance.
    pub fn is_end_instance(&self) -> bool
        ensures { result ≡ is_end_instance (node_of self.now) }
    {
        self.bytes[0] == 0x7f && self.bytes[1] == 0x01
    }
}

/// Two nodes are equal exactly when their bytes are.
impl<'a> PartialEq for DevicePathNode<'a> {
    ghost use Rattle.uefi_device_nodes.specs.NodeViews.{node_of};

    ghost eq = { λ a b. pointwise nat_eq (node_bytes (node_of a)) (node_bytes (node_of b)) };

    ghost laws = { on_per (λ a. node_bytes (node_of a)) (partial_equiv_from_equiv nat_list_eq_equiv) };

    fn eq(&self, other: &Self) -> bool {
        self.as_bytes() == other.as_bytes()
    }
}

impl<'a> Eq for DevicePathNode<'a> {
    ghost use Rattle.uefi_device_nodes.specs.NodeViews.{node_of};

    ghost laws = { on_texts_equal (λ a. node_bytes (node_of a)) };
}

/// Hashes the bytes.
impl<'a> Hash for DevicePathNode<'a> {
    ghost use Rattle.std.proofs.Common.{rules};
    ghost use Rattle.std.specs.Hash as fed;
    ghost use Rattle.std.specs.Cmp.Rules.{comparing, hashing};
    ghost use Rattle.uefi_device_nodes.specs.NodeViews.{node_of};

    ghost hash_input = { λ a. fed.slice fed.u8 (node_bytes (node_of a)) };

    ghost respects_eq = { Prim.search (hashing, comparing, rules) };

    fn hash<H: Hasher>(&self, state: &mut H) {
        self.as_bytes().hash(state);
    }
}

/// Writes the bytes.
impl<'a> fmt::Debug for DevicePathNode<'a> {
    fn fmt<W: fmt::Write>(&self, f: &mut fmt::Formatter<W>) -> fmt::Result {
        f.debug_tuple("DevicePathNode")
            .field(&self.as_bytes())
            .finish()
    }
}
