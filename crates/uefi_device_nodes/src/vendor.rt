//! Vendor-defined nodes that are built. The types Hardware, Messaging and Media each have a kind for them,
//! and the three kinds have one layout.
#![tactic(auto)]

ghost use Rattle.std.specs.Prelude.{◌∷◌, []};
ghost use Rattle.uefi_device_nodes.specs.NodeFields.{bytes};
ghost use Rattle.uefi_device_nodes.specs.declared.node_table.layouts.hardware.hardware_vendor.TheConstants as hardware_vendor;

use crate::field_texts::guid::Guid;
use crate::fields::{Fields, put_bytes};
use crate::node_table::layouts::hardware::hardware_vendor;
use crate::typed_node::TypedNode;

/// A vendor-defined node of a type and a sub-type, identified by a GUID.
#[derive(Clone, Copy)]
pub struct VendorNode<'a, const DEVICE_TYPE: u8, const SUB_TYPE: u8> {
    /// The GUID that names the vendor.
    pub vendor_guid: Guid,
    /// The data that the vendor defines.
    pub vendor_defined_data: &'a [u8],
}

/// Builds the node from its fields.
impl<'a, const DEVICE_TYPE: u8, const SUB_TYPE: u8> Fields
    for VendorNode<'a, DEVICE_TYPE, SUB_TYPE> {
    type Layout = TypedNode<'static, DEVICE_TYPE, SUB_TYPE, { hardware_vendor::LEAST }>;

    type Tail = &'a [u8];

    ghost fields = { λ n. bytes hardware_vendor.VENDOR_GUID n.vendor_guid ∷ [] };

    ghost after = { λ n. n.vendor_defined_data.now };

    fn tail(self) -> &'a [u8] {
        let _bytes = self.vendor_guid.to_bytes();
        self.vendor_defined_data
    }

    fn put(&self, content: &mut [u8]) {
        let guid = self.vendor_guid.to_bytes();
        put_bytes(content, hardware_vendor::VENDOR_GUID, &guid);
    }
}
