//! Nodes whose data has fields at fixed offsets.
#![tactic(auto, unfolding(crate::specs::NodeViews::node_of, crate::specs::NodeViews::data_of))]

ghost use Rattle.std.specs.Prelude.{◌≡◌, ℕ, ◌+◌, ◌≤◌, ◌<◌, ◌^◌, ◌↔◌, drop, length, slice_range, IfOk, IfSome, IsOk, IsSome, None};
ghost use Rattle.std.specs.Result.{result_err};
ghost use Rattle.uefi_device_nodes.specs.Nodes.{node_with};
ghost use Rattle.uefi_device_nodes.specs.TypedNodes.{IsOfKind, bytes_from, bytes_in, end_of, kind_refusal, number_in};

use crate::errors::NodeConversionError;
use crate::field_texts::guid::Guid;
use crate::node::DevicePathNode;
use crate::node_table::layouts::Field;
use uefi_text::Packed;

/// The data of a node of one kind, with a call for each field. A node of the kind has this type, this
/// sub-type and at least this many bytes of data. A contract sees the value as `data_of` it.
#[derive(Clone, Copy)]
pub struct TypedNode<'a, const DEVICE_TYPE: u8, const SUB_TYPE: u8, const LEAST: usize> {
    data: &'a [u8],
    pub ghost whole: { LEAST ≤ length data.now },
}

impl<'a, const DEVICE_TYPE: u8, const SUB_TYPE: u8, const LEAST: usize> TypedNode<
    'a,
    DEVICE_TYPE,
    SUB_TYPE,
    LEAST,
> {
    ghost use Rattle.uefi_device_nodes.specs.NodeViews.{data_of, node_of};

    /// Views a node as a node of this kind. Fails with `DifferentType` if its type or its sub-type is
    /// another, and otherwise with `InvalidLength` if its data is shorter than the kind requires.
    ///
    /// ```rust
    /// let (node, _) = DevicePathNode::split_first(&[1, 1, 6, 0, 2, 0x1f])?;
    /// assert_eq!(rt; hardware::Pci::from_node(node)?.device(), 0x1f);
    /// assert_eq!(rt; acpi::Acpi::from_node(node).err(), Some(NodeConversionError::DifferentType));
    /// ```
    pub fn from_node(node: DevicePathNode<'a>) -> Result<Self, NodeConversionError>
        ensures ok { IfOk result (λ typed. data_of typed ≡ (node_of node.entry).content) }
        ensures accepts { IsOk result ↔ IsOfKind DEVICE_TYPE SUB_TYPE LEAST (node_of node.entry) }
        ensures refusal { result_err result
            ≡ kind_refusal DEVICE_TYPE SUB_TYPE LEAST (node_of node.entry) }
    {
        Self::from_parts(node.device_type().0, node.sub_type().0, node.data())
    }

    /// Creates the view from a type, a sub-type and data. Fails as [`TypedNode::from_node`] does.
    pub(crate) fn from_parts(
        device_type: u8,
        sub_type: u8,
        data: &'a [u8],
    ) -> Result<Self, NodeConversionError>
        ensures ok { IfOk result (λ typed. data_of typed ≡ data.entry.now) }
        ensures accepts { IsOk result
            ↔ IsOfKind DEVICE_TYPE SUB_TYPE LEAST (node_with device_type sub_type data.entry.now) }
        ensures refusal { result_err result
            ≡ kind_refusal DEVICE_TYPE SUB_TYPE LEAST (node_with device_type sub_type data.entry.now) }
    {
        if device_type != DEVICE_TYPE || sub_type != SUB_TYPE {
            return Err(NodeConversionError::DifferentType);
        }
        if data.len() < LEAST {
            return Err(NodeConversionError::InvalidLength);
        }
        Ok(TypedNode { data })
    }

    /// Returns all data of the node.
    ///
    /// ```rust
    /// let (node, _) = DevicePathNode::split_first(&[1, 1, 6, 0, 2, 0x1f])?;
    /// assert_eq!(rt; hardware::Pci::from_node(node)?.data(), [2, 0x1f].as_slice());
    /// ```
    pub fn data(&self) -> &'a [u8]
        ensures { result.now ≡ data_of self.now }
    {
        self.data
    }

    /// Returns the number in a field.
    pub(crate) fn number<T: Packed>(&self, field: Field) -> T
        requires size { field.width ≡ T.SIZE }
        requires within { end_of field ≤ LEAST }
        ensures { T.number result ≡ number_in field (data_of self.now) }
    {
        T::read_le(&self.data[field.place..field.place + field.width])
    }

    /// Returns the bytes of a field.
    pub(crate) fn bytes<const N: usize>(&self, field: Field) -> [u8; N]
        requires size { field.width ≡ N }
        requires within { end_of field ≤ LEAST }
        ensures { result ≡ bytes_in field (data_of self.now) }
    {
        let mut bytes = [0; N];
        bytes.copy_from_slice(&self.data[field.place..field.place + N]);
        bytes
    }

    /// Returns the GUID in a field.
    pub(crate) fn guid_in(&self, field: Field) -> Guid
        requires size { field.width ≡ 16 }
        requires within { end_of field ≤ LEAST }
        ensures { result ≡ bytes_in field (data_of self.now) }
    {
        Guid::from_bytes(self.bytes(field))
    }

    /// Returns the bytes of a field, or `None` if the data ends before the end of the field.
    pub(crate) fn later_bytes<const N: usize>(&self, field: Field) -> Option<[u8; N]>
        requires size { field.width ≡ N }
        requires within { end_of field < 2 ^ 64 }
        ensures some { IsSome result ↔ (end_of field ≤ length (data_of self.now)) }
        ensures bytes { IfSome result (λ bytes. bytes ≡ bytes_in field (data_of self.now)) }
    {
        if self.data.len() < field.place + N {
            return None;
        }
        let mut bytes = [0; N];
        bytes.copy_from_slice(&self.data[field.place..field.place + N]);
        Some(bytes)
    }

    /// Returns all bytes of the data from the start of a field.
    pub(crate) fn tail(&self, field: Field) -> &'a [u8]
        requires { field.place ≤ LEAST }
        ensures { result.now ≡ bytes_from field (data_of self.now) }
    {
        &self.data[field.place..]
    }
}

/// The type, the sub-type and the least length of a kind, for code that is generic over kinds.
///
/// ```rust
/// use uefi_device_nodes::typed_node::Kind;
/// let numbers = (hardware::Pci::device_type(), hardware::Pci::sub_type(), hardware::Pci::least());
/// assert_eq!(rt; numbers, (1, 1, 2));
/// ```
pub trait Kind {
    /// The type, as contracts see it.
    ghost DEVICE_TYPE: { ℕ };

    /// The sub-type, as contracts see it.
    ghost SUB_TYPE: { ℕ };

    /// The least number of bytes of data, as contracts see it.
    ghost LEAST: { ℕ };

    /// Returns the type.
    fn device_type() -> u8
        ensures { result ≡ DEVICE_TYPE };

    /// Returns the sub-type.
    fn sub_type() -> u8
        ensures { result ≡ SUB_TYPE };

    /// Returns the least number of bytes of data.
    fn least() -> usize
        ensures { result ≡ LEAST };
}

/// The numbers of the view's kind.
impl<'a, const DEVICE_TYPE: u8, const SUB_TYPE: u8, const LEAST: usize> Kind
    for TypedNode<'a, DEVICE_TYPE, SUB_TYPE, LEAST> {
    ghost DEVICE_TYPE = { DEVICE_TYPE };

    ghost SUB_TYPE = { SUB_TYPE };

    ghost LEAST = { LEAST };

    fn device_type() -> u8
        ensures { result ≡ DEVICE_TYPE }
    {
        DEVICE_TYPE
    }

    fn sub_type() -> u8
        ensures { result ≡ SUB_TYPE }
    {
        SUB_TYPE
    }

    fn least() -> usize
        ensures { result ≡ LEAST }
    {
        LEAST
    }
}

/// Converts a node as [`TypedNode::from_node`] does.
impl<'a, const DEVICE_TYPE: u8, const SUB_TYPE: u8, const LEAST: usize> TryFrom<DevicePathNode<'a>>
    for TypedNode<'a, DEVICE_TYPE, SUB_TYPE, LEAST> {
    ghost use Rattle.uefi_device_nodes.specs.NodeViews.{data_of, node_of};

    type Error = NodeConversionError;

    ghost try_from_gives = { λ node result. IfOk result (λ typed. data_of typed ≡ (node_of node).content)
        × (result_err result ≡ kind_refusal DEVICE_TYPE SUB_TYPE LEAST (node_of node)) };

    fn try_from(node: DevicePathNode<'a>) -> Result<Self, NodeConversionError> {
        Self::from_node(node)
    }
}
