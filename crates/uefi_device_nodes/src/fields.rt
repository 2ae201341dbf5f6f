//! Nodes that are built from their fields.
#![tactic(auto)]

ghost use Rattle.std.specs.Int.{bytes_low_first};
ghost use Rattle.std.specs.Prelude.{◌≡◌, ℕ, ◌+◌, ◌≤◌, List, [], length, IsTrue};
ghost use Rattle.uefi_device_nodes.specs.NodeFields.{AllFit, FieldValue, lie_apart, bytes, content_of, number, with_values, with_value};
ghost use Rattle.uefi_device_nodes.specs.Nodes.{node_with};
ghost use Rattle.uefi_device_nodes.specs.TypedNodes.{end_of};

use crate::build_node::BuildNode;
use crate::node::{DeviceSubType, DeviceType};
use crate::node_table::layouts::Field;
use crate::tails::TailBytes;
use crate::typed_node::Kind;
use uefi_text::Packed;

/// A number that can be written to bytes, the low byte first.
///
/// ```rust
/// use uefi_device_nodes::fields::WriteLe;
/// let mut bytes = [0; 2];
/// 0x1234u16.write_le(&mut bytes);
/// assert_eq!(rt; bytes, [0x34, 0x12]);
/// ```
pub trait WriteLe: Packed {
    /// Writes the number to bytes, whose number is the size of its type.
    fn write_le(self, bytes: &mut [u8])
        requires { length bytes.old ≡ Self.SIZE }
        ensures { bytes.new ≡ bytes_low_first 0 Self.SIZE (Self.number self) };
}

/// One byte.
impl WriteLe for u8 {
    fn write_le(self, bytes: &mut [u8]) {
        bytes.copy_from_slice(&self.to_le_bytes());
    }
}

/// Two bytes.
impl WriteLe for u16 {
    fn write_le(self, bytes: &mut [u8]) {
        bytes.copy_from_slice(&self.to_le_bytes());
    }
}

/// Four bytes.
impl WriteLe for u32 {
    fn write_le(self, bytes: &mut [u8]) {
        bytes.copy_from_slice(&self.to_le_bytes());
    }
}

/// Eight bytes.
impl WriteLe for u64 {
    fn write_le(self, bytes: &mut [u8]) {
        bytes.copy_from_slice(&self.to_le_bytes());
    }
}

/// Writes a number to its field.
#[tactic(auto, unfolding(crate::specs::NodeFields::with_value))]
pub(crate) fn put<T: WriteLe>(content: &mut [u8], field: Field, value: T)
    requires size { field.width ≡ T.SIZE }
    requires within { end_of field ≤ length content.old }
    ensures { content.new ≡ with_value (number field (T.number value)) content.old }
{
    value.write_le(&mut content[field.place..field.place + field.width]);
}

/// Writes bytes to their field.
#[tactic(auto, unfolding(crate::specs::NodeFields::with_value))]
pub(crate) fn put_bytes(content: &mut [u8], field: Field, value: &[u8])
    requires size { length value.now ≡ field.width }
    requires within { end_of field ≤ length content.old }
    ensures { content.new ≡ with_value (bytes field value.now) content.old }
{
    content[field.place..field.place + field.width].copy_from_slice(value);
}

/// A node that is built from its fields and the data after them. All other bytes are zero.
///
/// ```rust
/// let node = messaging::Uri { value: b"http://a" };
/// assert_eq!(rt; node.tail(), b"http://a".as_slice());
/// let mut data = [0; 2];
/// hardware::Pci { function: 2, device: 0x1f }.put(&mut data);
/// assert_eq!(rt; data, [2, 0x1f]);
/// ```
pub trait Fields: Copy {
    /// The kind of the node: its type, its sub-type, and how many bytes its fields take.
    type Layout: Kind;

    /// The type of the data after the fields.
    type Tail: TailBytes;

    /// The fields, as contracts see them, in the order of their offsets.
    ghost fields: { Self → List FieldValue };

    /// The bytes after the fields, as contracts see them.
    ghost after: { Self → List ℕ } = { λ _. [] };

    /// Returns the data after the fields. Its contract also states that fields do not overlap, that they
    /// end within the kind's length, and that each value fits its field.
    fn tail(self) -> Self::Tail
        ensures tail { Self.Tail.tail_bytes result ≡ after self }
        ensures apart { IsTrue (lie_apart 0 (fields self) Self.Layout.LEAST) }
        ensures fit { AllFit (fields self) }
        ensures small { Self.Layout.LEAST ≤ 65535 };

    /// Writes the fields to the data of a node.
    fn put(&self, content: &mut [u8])
        requires { Self.Layout.LEAST ≤ length content.old }
        ensures { content.new ≡ with_values (fields self.now) content.old };
}

/// Builds the node from its fields.
impl<T: Fields> BuildNode for T {
    ghost node = { λ n. node_with T.Layout.DEVICE_TYPE T.Layout.SUB_TYPE
        (content_of T.Layout.LEAST (T.fields n) (T.after n)) };

    fn full_type(&self) -> (DeviceType, DeviceSubType) {
        (
            DeviceType(T::Layout::device_type()),
            DeviceSubType(T::Layout::sub_type()),
        )
    }

    fn data_len(&self) -> usize {
        T::Layout::least() + (*self).tail().tail_len()
    }

    fn write_data(&self, bytes: &mut [u8]) {
        let tail = (*self).tail();
        let (fixed, rest) = bytes.split_at_mut(T::Layout::least());
        fixed.fill(0);
        tail.write_tail(rest);
        self.put(bytes);
    }
}
