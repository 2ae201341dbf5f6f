//! Nodes of type BIOS Boot Specification (UEFI Specification 2.10, section 10.3.6).
#![tactic(auto)]

ghost use Rattle.std.specs.Prelude.{◌≡◌, drop, ◌∷◌, []};
ghost use Rattle.uefi_device_nodes.specs.TypedNodes.{bytes_from, bytes_in, end_of, number_in};
ghost use Rattle.uefi_device_nodes.specs.NodeViews.{data_of};
ghost use Rattle.uefi_device_nodes.specs.declared.node_table.layouts.bios_boot_spec.boot_specification.TheConstants as boot_specification;
ghost use Rattle.uefi_device_nodes.specs.NodeFields.{number};

use crate::node::DeviceSubType;
use crate::node_table::layouts::BIOS_BOOT_SPEC_TYPE;
use crate::node_table::layouts::bios_boot_spec::boot_specification;
use crate::typed_node::TypedNode;

/// Sub-types of the type [`DeviceType::BIOS_BOOT_SPEC`](crate::DeviceType).
impl DeviceSubType {
    /// A device that a legacy BIOS can boot.
    pub const BIOS_BOOT_SPECIFICATION: DeviceSubType = DeviceSubType(boot_specification::SUB_TYPE);
}

/// A device that a legacy BIOS can boot.
///
/// ```rust
/// let (node, _) = DevicePathNode::split_first(b"\x05\x01\x0d\0\x02\0\x1f\0SATA\0")?;
/// let device = bios_boot_spec::BootSpecification::from_node(node)?;
/// assert_eq!(rt; (device.device_type(), device.status_flag()), (2, 0x1f));
/// assert_eq!(rt; device.description_string(), b"SATA\0".as_slice());
/// ```
pub type BootSpecification<'a> = TypedNode<
    'a,
    BIOS_BOOT_SPEC_TYPE,
    { boot_specification::SUB_TYPE },
    { boot_specification::LEAST },
>;

impl<'a> BootSpecification<'a> {
    /// Returns the type of the device, as the BIOS Boot Specification numbers it.
    pub fn device_type(&self) -> u16
        ensures { result ≡ number_in boot_specification.DEVICE_TYPE (data_of self.now) }
    {
        self.number(boot_specification::DEVICE_TYPE)
    }

    /// Returns the flags that the BIOS Boot Specification defines.
    pub fn status_flag(&self) -> u16
        ensures { result ≡ number_in boot_specification.STATUS_FLAG (data_of self.now) }
    {
        self.number(boot_specification::STATUS_FLAG)
    }

    /// Returns the bytes of its description, including the NUL.
    pub fn description_string(&self) -> &'a [u8]
        ensures { result.now ≡ bytes_from boot_specification.DESCRIPTION_STRING (data_of self.now) }
    {
        self.tail(boot_specification::DESCRIPTION_STRING)
    }
}

/// The structs from which these nodes are built.
pub mod build {
    use crate::fields::{Fields, put};
    use crate::node_table::layouts::BIOS_BOOT_SPEC_TYPE;
    use crate::node_table::layouts::bios_boot_spec::boot_specification;
    use crate::typed_node::TypedNode;

    /// A device that a legacy BIOS can boot.
    ///
    /// ```rust
    /// let mut path = DevicePathBuf::new(rt.alloc())?;
    /// path.push_node(&bios_boot_spec::BootSpecification {
    ///     device_type: 2, status_flag: 0x1f, description_string: b"SATA\0",
    /// })?;
    /// let text = format!(in rt.alloc(); "{}", path.as_device_path())?;
    /// assert_eq!(rt; text.as_str(), "BBS(HD,SATA,0x1F)");
    /// ```
    #[derive(Clone, Copy)]
    pub struct BootSpecification<'a> {
        /// The type of the device, as the BIOS Boot Specification numbers it.
        pub device_type: u16,
        /// The flags that the BIOS Boot Specification defines.
        pub status_flag: u16,
        /// The bytes of its description, including the NUL.
        pub description_string: &'a [u8],
    }

    /// Builds the node from its fields.
    impl<'a> Fields for BootSpecification<'a> {
        type Layout = TypedNode<
            'static,
            BIOS_BOOT_SPEC_TYPE,
            { boot_specification::SUB_TYPE },
            { boot_specification::FIXED },
        >;

        type Tail = &'a [u8];

        ghost fields = { λ n. number boot_specification.DEVICE_TYPE n.device_type ∷
            number boot_specification.STATUS_FLAG n.status_flag ∷ [] };

        ghost after = { λ n. n.description_string.now };

        fn tail(self) -> &'a [u8] {
            self.description_string
        }

        fn put(&self, content: &mut [u8]) {
            put(content, boot_specification::DEVICE_TYPE, self.device_type);
            put(content, boot_specification::STATUS_FLAG, self.status_flag);
        }
    }
}
