//! Nodes of type Hardware (UEFI Specification 2.10, section 10.3.2).
#![tactic(auto)]

ghost use Rattle.std.specs.Prelude.{◌≡◌, drop, slice_range, ◌∷◌, []};
ghost use Rattle.uefi_device_nodes.specs.TypedNodes.{bytes_from, bytes_in, end_of, number_in};
ghost use Rattle.uefi_device_nodes.specs.NodeViews.{data_of};
ghost use Rattle.uefi_device_nodes.specs.declared.node_table.layouts.hardware.bmc.TheConstants as bmc;
ghost use Rattle.uefi_device_nodes.specs.declared.node_table.layouts.hardware.controller.TheConstants as controller;
ghost use Rattle.uefi_device_nodes.specs.declared.node_table.layouts.hardware.hardware_vendor.TheConstants as hardware_vendor;
ghost use Rattle.uefi_device_nodes.specs.declared.node_table.layouts.hardware.memory_mapped.TheConstants as memory_mapped;
ghost use Rattle.uefi_device_nodes.specs.declared.node_table.layouts.hardware.pccard.TheConstants as pccard;
ghost use Rattle.uefi_device_nodes.specs.declared.node_table.layouts.hardware.pci.TheConstants as pci;
ghost use Rattle.uefi_device_nodes.specs.NodeFields.{bytes, number};

use crate::field_texts::guid::Guid;
use crate::node::DeviceSubType;
use crate::node_table::layouts::HARDWARE_TYPE;
use crate::node_table::layouts::hardware::{
    bmc, controller, hardware_vendor, memory_mapped, pccard, pci,
};
use crate::typed_node::TypedNode;

/// Sub-types of the type [`DeviceType::HARDWARE`](crate::DeviceType).
impl DeviceSubType {
    /// A device on a PCI bus.
    pub const HARDWARE_PCI: DeviceSubType = DeviceSubType(pci::SUB_TYPE);

    /// A PC card.
    pub const HARDWARE_PCCARD: DeviceSubType = DeviceSubType(pccard::SUB_TYPE);

    /// Memory.
    pub const HARDWARE_MEMORY_MAPPED: DeviceSubType = DeviceSubType(memory_mapped::SUB_TYPE);

    /// A vendor-defined node.
    pub const HARDWARE_VENDOR: DeviceSubType = DeviceSubType(hardware_vendor::SUB_TYPE);

    /// A controller.
    pub const HARDWARE_CONTROLLER: DeviceSubType = DeviceSubType(controller::SUB_TYPE);

    /// The interface of a management controller.
    pub const HARDWARE_BMC: DeviceSubType = DeviceSubType(bmc::SUB_TYPE);
}

/// A device on a PCI bus.
///
/// ```rust
/// let (node, _) = DevicePathNode::split_first(&[1, 1, 6, 0, 2, 0x1f])?;
/// let pci = hardware::Pci::from_node(node)?;
/// assert_eq!(rt; (pci.device(), pci.function()), (0x1f, 2));
/// ```
pub type Pci<'a> = TypedNode<'a, HARDWARE_TYPE, { pci::SUB_TYPE }, { pci::LEAST }>;

impl<'a> Pci<'a> {
    /// Returns the number of the function.
    pub fn function(&self) -> u8
        ensures { result ≡ number_in pci.FUNCTION (data_of self.now) }
    {
        self.number(pci::FUNCTION)
    }

    /// Returns the number of the device on its bus.
    pub fn device(&self) -> u8
        ensures { result ≡ number_in pci.DEVICE (data_of self.now) }
    {
        self.number(pci::DEVICE)
    }
}

/// A PC card.
///
/// ```rust
/// let (node, _) = DevicePathNode::split_first(&[1, 2, 5, 0, 1])?;
/// let card = hardware::Pccard::from_node(node)?;
/// assert_eq!(rt; card.function(), 1);
/// ```
pub type Pccard<'a> = TypedNode<'a, HARDWARE_TYPE, { pccard::SUB_TYPE }, { pccard::LEAST }>;

impl<'a> Pccard<'a> {
    /// Returns the number of the function, counted from 0.
    pub fn function(&self) -> u8
        ensures { result ≡ number_in pccard.FUNCTION (data_of self.now) }
    {
        self.number(pccard::FUNCTION)
    }
}

/// A range of memory.
///
/// ```rust
/// let bytes = b"\x01\x03\x18\0\x0b\0\0\0\0\0\0\x80\0\0\0\0\xff\xff\0\x80\0\0\0\0";
/// let (node, _) = DevicePathNode::split_first(bytes)?;
/// let memory = hardware::MemoryMapped::from_node(node)?;
/// assert_eq!(rt; memory.memory_type(), 11);
/// assert_eq!(rt; memory.starting_address(), 0x8000_0000);
/// assert_eq!(rt; memory.ending_address(), 0x8000_ffff);
/// ```
pub type MemoryMapped<'a> = TypedNode<
    'a,
    HARDWARE_TYPE,
    { memory_mapped::SUB_TYPE },
    { memory_mapped::LEAST },
>;

impl<'a> MemoryMapped<'a> {
    /// Returns the type of the memory, as in the firmware's memory map.
    pub fn memory_type(&self) -> u32
        ensures { result ≡ number_in memory_mapped.MEMORY_TYPE (data_of self.now) }
    {
        self.number(memory_mapped::MEMORY_TYPE)
    }

    /// Returns the address of its first byte.
    pub fn starting_address(&self) -> u64
        ensures { result ≡ number_in memory_mapped.STARTING_ADDRESS (data_of self.now) }
    {
        self.number(memory_mapped::STARTING_ADDRESS)
    }

    /// Returns the address of its last byte.
    pub fn ending_address(&self) -> u64
        ensures { result ≡ number_in memory_mapped.ENDING_ADDRESS (data_of self.now) }
    {
        self.number(memory_mapped::ENDING_ADDRESS)
    }
}

/// A vendor-defined node, identified by a GUID.
///
/// ```rust
/// let (node, _) = DevicePathNode::split_first(b"\x01\x04\x16\0abcdefghijklmnop\x01\x02")?;
/// let vendor = hardware::HardwareVendor::from_node(node)?;
/// assert_eq!(rt; vendor.vendor_guid(), Guid::from_bytes(*b"abcdefghijklmnop"));
/// assert_eq!(rt; vendor.vendor_defined_data(), [1, 2].as_slice());
/// ```
pub type HardwareVendor<'a> = TypedNode<
    'a,
    HARDWARE_TYPE,
    { hardware_vendor::SUB_TYPE },
    { hardware_vendor::LEAST },
>;

/// [`HardwareVendor`], under its name in the Rust crate `uefi`.
pub type Vendor<'a> = HardwareVendor<'a>;

impl<'a> HardwareVendor<'a> {
    /// Returns the GUID that names the vendor.
    pub fn vendor_guid(&self) -> Guid
        ensures { result ≡ bytes_in hardware_vendor.VENDOR_GUID (data_of self.now) }
    {
        self.guid_in(hardware_vendor::VENDOR_GUID)
    }

    /// Returns the data that the vendor defines.
    pub fn vendor_defined_data(&self) -> &'a [u8]
        ensures { result.now ≡ bytes_from hardware_vendor.VENDOR_DEFINED_DATA (data_of self.now) }
    {
        self.tail(hardware_vendor::VENDOR_DEFINED_DATA)
    }
}

/// A controller.
///
/// ```rust
/// let (node, _) = DevicePathNode::split_first(&[1, 5, 8, 0, 0x2a, 1, 0, 0])?;
/// let controller = hardware::Controller::from_node(node)?;
/// assert_eq!(rt; controller.controller_number(), 0x12a);
/// ```
pub type Controller<'a> = TypedNode<
    'a,
    HARDWARE_TYPE,
    { controller::SUB_TYPE },
    { controller::LEAST },
>;

impl<'a> Controller<'a> {
    /// Returns the number of the controller.
    pub fn controller_number(&self) -> u32
        ensures { result ≡ number_in controller.CONTROLLER_NUMBER (data_of self.now) }
    {
        self.number(controller::CONTROLLER_NUMBER)
    }
}

/// The host interface of a management controller.
///
/// ```rust
/// let (node, _) = DevicePathNode::split_first(&[1, 6, 0xd, 0, 1, 0xa3, 0xc, 0, 0, 0, 0, 0, 0])?;
/// let bmc = hardware::Bmc::from_node(node)?;
/// assert_eq!(rt; (bmc.interface_type(), bmc.base_address()), (1, 0xca3));
/// ```
pub type Bmc<'a> = TypedNode<'a, HARDWARE_TYPE, { bmc::SUB_TYPE }, { bmc::LEAST }>;

impl<'a> Bmc<'a> {
    /// Returns the type of the interface: 0 is unknown, 1 KCS, 2 SMIC, 3 BT.
    pub fn interface_type(&self) -> u8
        ensures { result ≡ number_in bmc.INTERFACE_TYPE (data_of self.now) }
    {
        self.number(bmc::INTERFACE_TYPE)
    }

    /// Returns the base address of the interface. Its lowest bit is set for I/O ports, and clear for
    /// memory.
    pub fn base_address(&self) -> u64
        ensures { result ≡ number_in bmc.BASE_ADDRESS (data_of self.now) }
    {
        self.number(bmc::BASE_ADDRESS)
    }
}

/// The structs from which these nodes are built.
pub mod build {
    use crate::fields::{Fields, put};
    use crate::node_table::layouts::HARDWARE_TYPE;
    use crate::node_table::layouts::hardware::{
        bmc, controller, hardware_vendor, memory_mapped, pccard, pci,
    };
    use crate::vendor::VendorNode;

    /// A device on a PCI bus.
    ///
    /// ```rust
    /// let mut path = DevicePathBuf::new(rt.alloc())?;
    /// path.push_node(&hardware::Pci { function: 2, device: 0x1f })?;
    /// let text = format!(in rt.alloc(); "{}", path.as_device_path())?;
    /// assert_eq!(rt; text.as_str(), "Pci(0x1F,0x2)");
    /// ```
    #[derive(Clone, Copy)]
    pub struct Pci {
        /// The number of the function.
        pub function: u8,
        /// The number of the device on its bus.
        pub device: u8,
    }

    /// Builds the node from its fields.
    impl Fields for Pci {
        type Layout = super::Pci<'static>;

        type Tail = ();

        ghost fields = { λ n. number pci.FUNCTION n.function ∷ number pci.DEVICE n.device ∷ [] };

        fn tail(self) {}

        fn put(&self, content: &mut [u8]) {
            put(content, pci::FUNCTION, self.function);
            put(content, pci::DEVICE, self.device);
        }
    }

    /// A PC card.
    ///
    /// ```rust
    /// let mut path = DevicePathBuf::new(rt.alloc())?;
    /// path.push_node(&hardware::Pccard { function: 1 })?;
    /// let text = format!(in rt.alloc(); "{}", path.as_device_path())?;
    /// assert_eq!(rt; text.as_str(), "PcCard(0x1)");
    /// ```
    #[derive(Clone, Copy)]
    pub struct Pccard {
        /// The number of the function, counted from 0.
        pub function: u8,
    }

    /// Builds the node from its fields.
    impl Fields for Pccard {
        type Layout = super::Pccard<'static>;

        type Tail = ();

        ghost fields = { λ n. number pccard.FUNCTION n.function ∷ [] };

        fn tail(self) {}

        fn put(&self, content: &mut [u8]) {
            put(content, pccard::FUNCTION, self.function);
        }
    }

    /// A range of memory.
    ///
    /// ```rust
    /// let mut path = DevicePathBuf::new(rt.alloc())?;
    /// path.push_node(&hardware::MemoryMapped {
    ///     memory_type: 11, starting_address: 0x8000_0000, ending_address: 0x8000_ffff,
    /// })?;
    /// let text = format!(in rt.alloc(); "{}", path.as_device_path())?;
    /// assert_eq!(rt; text.as_str(), "MemoryMapped(0xB,0x80000000,0x8000FFFF)");
    /// ```
    #[derive(Clone, Copy)]
    pub struct MemoryMapped {
        /// The type of the memory, as in the firmware's memory map.
        pub memory_type: u32,
        /// The address of its first byte.
        pub starting_address: u64,
        /// The address of its last byte.
        pub ending_address: u64,
    }

    /// Builds the node from its fields.
    impl Fields for MemoryMapped {
        type Layout = super::MemoryMapped<'static>;

        type Tail = ();

        ghost fields = { λ n. number memory_mapped.MEMORY_TYPE n.memory_type ∷
            number memory_mapped.STARTING_ADDRESS n.starting_address ∷
            number memory_mapped.ENDING_ADDRESS n.ending_address ∷ [] };

        fn tail(self) {}

        fn put(&self, content: &mut [u8]) {
            put(content, memory_mapped::MEMORY_TYPE, self.memory_type);
            put(
                content,
                memory_mapped::STARTING_ADDRESS,
                self.starting_address,
            );
            put(content, memory_mapped::ENDING_ADDRESS, self.ending_address);
        }
    }

    /// A vendor-defined node, identified by a GUID.
    ///
    /// ```rust
    /// let mut path = DevicePathBuf::new(rt.alloc())?;
    /// path.push_node(&hardware::Vendor {
    ///     vendor_guid: Guid::from_bytes(*b"abcdefghijklmnop"), vendor_defined_data: &[1, 2],
    /// })?;
    /// let text = format!(in rt.alloc(); "{}", path.as_device_path())?;
    /// assert_eq!(rt; text.as_str(), "VenHw(64636261-6665-6867-696A-6B6C6D6E6F70,0102)");
    /// ```
    pub type Vendor<'a> = VendorNode<'a, HARDWARE_TYPE, { hardware_vendor::SUB_TYPE }>;

    /// A controller.
    ///
    /// ```rust
    /// let mut path = DevicePathBuf::new(rt.alloc())?;
    /// path.push_node(&hardware::Controller { controller_number: 0x12a })?;
    /// let text = format!(in rt.alloc(); "{}", path.as_device_path())?;
    /// assert_eq!(rt; text.as_str(), "Ctrl(0x12A)");
    /// ```
    #[derive(Clone, Copy)]
    pub struct Controller {
        /// The number of the controller.
        pub controller_number: u32,
    }

    /// Builds the node from its fields.
    impl Fields for Controller {
        type Layout = super::Controller<'static>;

        type Tail = ();

        ghost fields = { λ n. number controller.CONTROLLER_NUMBER n.controller_number ∷ [] };

        fn tail(self) {}

        fn put(&self, content: &mut [u8]) {
            put(
                content,
                controller::CONTROLLER_NUMBER,
                self.controller_number,
            );
        }
    }

    /// The host interface of a management controller.
    ///
    /// ```rust
    /// let mut path = DevicePathBuf::new(rt.alloc())?;
    /// path.push_node(&hardware::Bmc { interface_type: 1, base_address: 0xca3 })?;
    /// let text = format!(in rt.alloc(); "{}", path.as_device_path())?;
    /// assert_eq!(rt; text.as_str(), "BMC(0x1,0xCA3)");
    /// ```
    #[derive(Clone, Copy)]
    pub struct Bmc {
        /// The type of the interface: 0 is unknown, 1 KCS, 2 SMIC, 3 BT.
        pub interface_type: u8,
        /// The base address of the interface. Its lowest bit is set for I/O ports, and clear for memory.
        pub base_address: u64,
    }

    /// Builds the node from its fields.
    impl Fields for Bmc {
        type Layout = super::Bmc<'static>;

        type Tail = ();

        ghost fields = { λ n. number bmc.INTERFACE_TYPE n.interface_type ∷
            number bmc.BASE_ADDRESS n.base_address ∷ [] };

        fn tail(self) {}

        fn put(&self, content: &mut [u8]) {
            put(content, bmc::INTERFACE_TYPE, self.interface_type);
            put(content, bmc::BASE_ADDRESS, self.base_address);
        }
    }
}
