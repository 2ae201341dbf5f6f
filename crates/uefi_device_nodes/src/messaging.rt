//! Nodes of type Messaging (UEFI Specification 2.10, section 10.3.4). `storage`, `flash`, `usb`, `network`,
//! `wireless` and `fabric` contain most of them.
#![tactic(auto)]

ghost use Rattle.std.specs.Prelude.{◌≡◌, ◌∷◌, []};
ghost use Rattle.uefi_device_nodes.specs.TypedNodes.{bytes_from, bytes_in, number_in};
ghost use Rattle.uefi_device_nodes.specs.NodeViews.{data_of};
ghost use Rattle.uefi_device_nodes.specs.declared.node_table.layouts.messaging.i2o.TheConstants as i2o;
ghost use Rattle.uefi_device_nodes.specs.declared.node_table.layouts.messaging.ieee1394.TheConstants as ieee1394;
ghost use Rattle.uefi_device_nodes.specs.declared.node_table.layouts.messaging.messaging_vendor.TheConstants as messaging_vendor;
ghost use Rattle.uefi_device_nodes.specs.declared.node_table.layouts.messaging.uart.TheConstants as uart;
ghost use Rattle.uefi_device_nodes.specs.NodeFields.{bytes, number};

pub(crate) mod fabrics;
pub(crate) mod flash;
pub(crate) mod network;
pub(crate) mod storage;
pub(crate) mod usb;
pub(crate) mod wireless;

use crate::field_texts::guid::Guid;
pub use crate::messaging::fabrics::{Infiniband, Iscsi, NvmeOfNamespace};
pub use crate::messaging::flash::{Emmc, NvdimmNamespace, NvmeNamespace, Sd, Ufs};
pub use crate::messaging::network::{Dns, Ipv4, Ipv6, MacAddress, RestService, Uri, Vlan};
pub use crate::messaging::storage::{
    Atapi, DeviceLogicalUnit, FibreChannel, FibreChannelEx, SasEx, Sata, Scsi,
};
pub use crate::messaging::usb::{Usb, UsbClass, UsbWwid};
pub use crate::messaging::wireless::{Bluetooth, BluetoothLe, Wifi};
use crate::node::DeviceSubType;
use crate::node_table::layouts::MESSAGING_TYPE;
use crate::node_table::layouts::messaging::{i2o, ieee1394, messaging_vendor, uart};
use crate::typed_node::TypedNode;

/// Sub-types of the type [`DeviceType::MESSAGING`](crate::DeviceType).
impl DeviceSubType {
    /// A FireWire device.
    pub const MESSAGING_1394: DeviceSubType = DeviceSubType(ieee1394::SUB_TYPE);

    /// An I2O device.
    pub const MESSAGING_I2O: DeviceSubType = DeviceSubType(i2o::SUB_TYPE);

    /// A vendor-defined node.
    pub const MESSAGING_VENDOR: DeviceSubType = DeviceSubType(messaging_vendor::SUB_TYPE);

    /// A serial port.
    pub const MESSAGING_UART: DeviceSubType = DeviceSubType(uart::SUB_TYPE);
}

/// A FireWire device.
///
/// ```rust
/// let (node, _) = DevicePathNode::split_first(b"\x03\x04\x10\0\0\0\0\0firewire")?;
/// let device = messaging::Ieee1394::from_node(node)?;
/// assert_eq!(rt; device.guid(), *b"firewire");
/// ```
pub type Ieee1394<'a> = TypedNode<'a, MESSAGING_TYPE, { ieee1394::SUB_TYPE }, { ieee1394::LEAST }>;

impl<'a> Ieee1394<'a> {
    /// Returns the eight bytes of its GUID.
    pub fn guid(&self) -> [u8; 8]
        ensures { result ≡ bytes_in ieee1394.GUID (data_of self.now) }
    {
        self.bytes(ieee1394::GUID)
    }
}

/// A device on an I2O bus.
///
/// ```rust
/// let (node, _) = DevicePathNode::split_first(&[3, 6, 8, 0, 9, 0, 0, 0])?;
/// let device = messaging::I2o::from_node(node)?;
/// assert_eq!(rt; device.target_id(), 9);
/// ```
pub type I2o<'a> = TypedNode<'a, MESSAGING_TYPE, { i2o::SUB_TYPE }, { i2o::LEAST }>;

impl<'a> I2o<'a> {
    /// Returns the number of the target on its bus.
    pub fn target_id(&self) -> u32
        ensures { result ≡ number_in i2o.TARGET_ID (data_of self.now) }
    {
        self.number(i2o::TARGET_ID)
    }
}

/// A serial port.
///
/// ```rust
/// let bytes = b"\x03\x0e\x13\0\0\0\0\0\0\xc2\x01\0\0\0\0\0\x08\x02\x01";
/// let (node, _) = DevicePathNode::split_first(bytes)?;
/// let port = messaging::Uart::from_node(node)?;
/// assert_eq!(rt; port.baud_rate(), 115_200);
/// assert_eq!(rt; (port.data_bits(), port.parity(), port.stop_bits()), (8, 2, 1));
/// ```
pub type Uart<'a> = TypedNode<'a, MESSAGING_TYPE, { uart::SUB_TYPE }, { uart::LEAST }>;

impl<'a> Uart<'a> {
    /// Returns the baud rate; 0 is the device's default.
    pub fn baud_rate(&self) -> u64
        ensures { result ≡ number_in uart.BAUD_RATE (data_of self.now) }
    {
        self.number(uart::BAUD_RATE)
    }

    /// Returns the number of data bits; 0 is the device's default.
    pub fn data_bits(&self) -> u8
        ensures { result ≡ number_in uart.DATA_BITS (data_of self.now) }
    {
        self.number(uart::DATA_BITS)
    }

    /// Returns the parity: 0 is the default, 1 none, 2 even, 3 odd, 4 mark, 5 space.
    pub fn parity(&self) -> u8
        ensures { result ≡ number_in uart.PARITY (data_of self.now) }
    {
        self.number(uart::PARITY)
    }

    /// Returns the stop bits: 0 is the default, 1 one, 2 one and a half, 3 two.
    pub fn stop_bits(&self) -> u8
        ensures { result ≡ number_in uart.STOP_BITS (data_of self.now) }
    {
        self.number(uart::STOP_BITS)
    }
}

/// A vendor-defined node, identified by a GUID.
///
/// ```rust
/// let (node, _) = DevicePathNode::split_first(b"\x03\x0a\x15\0abcdefghijklmnop\x01")?;
/// let vendor = messaging::MessagingVendor::from_node(node)?;
/// assert_eq!(rt; vendor.vendor_guid(), Guid::from_bytes(*b"abcdefghijklmnop"));
/// assert_eq!(rt; vendor.vendor_defined_data(), [1].as_slice());
/// ```
pub type MessagingVendor<'a> = TypedNode<
    'a,
    MESSAGING_TYPE,
    { messaging_vendor::SUB_TYPE },
    { messaging_vendor::LEAST },
>;

/// [`MessagingVendor`], under its name in the Rust crate `uefi`.
pub type Vendor<'a> = MessagingVendor<'a>;

impl<'a> MessagingVendor<'a> {
    /// Returns the GUID that names the vendor.
    pub fn vendor_guid(&self) -> Guid
        ensures { result ≡ bytes_in messaging_vendor.VENDOR_GUID (data_of self.now) }
    {
        self.guid_in(messaging_vendor::VENDOR_GUID)
    }

    /// Returns the data that the vendor defines.
    pub fn vendor_defined_data(&self) -> &'a [u8]
        ensures { result.now ≡ bytes_from messaging_vendor.VENDOR_DEFINED_DATA (data_of self.now) }
    {
        self.tail(messaging_vendor::VENDOR_DEFINED_DATA)
    }
}

/// The structs from which these nodes are built.
pub mod build {
    use crate::fields::{Fields, put, put_bytes};
    pub use crate::messaging::fabrics::build::{Infiniband, Iscsi, NvmeOfNamespace};
    pub use crate::messaging::flash::build::{Emmc, NvdimmNamespace, NvmeNamespace, Sd, Ufs};
    pub use crate::messaging::network::build::{
        Dns, Ipv4, Ipv6, MacAddress, RestService, Uri, Vlan,
    };
    pub use crate::messaging::storage::build::{
        Atapi, DeviceLogicalUnit, FibreChannel, FibreChannelEx, SasEx, Sata, Scsi,
    };
    pub use crate::messaging::usb::build::{Usb, UsbClass, UsbWwid};
    pub use crate::messaging::wireless::build::{Bluetooth, BluetoothLe, Wifi};
    use crate::node_table::layouts::MESSAGING_TYPE;
    use crate::node_table::layouts::messaging::{i2o, ieee1394, messaging_vendor, uart};
    use crate::vendor::VendorNode;

    /// A FireWire device.
    ///
    /// ```rust
    /// let mut path = DevicePathBuf::new(rt.alloc())?;
    /// path.push_node(&messaging::Ieee1394 { guid: *b"firewire" })?;
    /// let text = format!(in rt.alloc(); "{}", path.as_device_path())?;
    /// assert_eq!(rt; text.as_str(), "I1394(6572697765726966)");
    /// ```
    #[derive(Clone, Copy)]
    pub struct Ieee1394 {
        /// The eight bytes of its GUID.
        pub guid: [u8; 8],
    }

    /// Builds the node from its fields.
    impl Fields for Ieee1394 {
        type Layout = super::Ieee1394<'static>;

        type Tail = ();

        ghost fields = { λ n. bytes ieee1394.GUID n.guid ∷ [] };

        fn tail(self) {}

        fn put(&self, content: &mut [u8]) {
            put_bytes(content, ieee1394::GUID, &self.guid);
        }
    }

    /// A device on an I2O bus.
    ///
    /// ```rust
    /// let mut path = DevicePathBuf::new(rt.alloc())?;
    /// path.push_node(&messaging::I2o { target_id: 9 })?;
    /// let text = format!(in rt.alloc(); "{}", path.as_device_path())?;
    /// assert_eq!(rt; text.as_str(), "I2O(0x9)");
    /// ```
    #[derive(Clone, Copy)]
    pub struct I2o {
        /// The number of the target on its bus.
        pub target_id: u32,
    }

    /// Builds the node from its fields.
    impl Fields for I2o {
        type Layout = super::I2o<'static>;

        type Tail = ();

        ghost fields = { λ n. number i2o.TARGET_ID n.target_id ∷ [] };

        fn tail(self) {}

        fn put(&self, content: &mut [u8]) {
            put(content, i2o::TARGET_ID, self.target_id);
        }
    }

    /// A serial port.
    ///
    /// ```rust
    /// let mut path = DevicePathBuf::new(rt.alloc())?;
    /// path.push_node(&messaging::Uart { baud_rate: 115_200, data_bits: 8, parity: 2, stop_bits: 1 })?;
    /// let text = format!(in rt.alloc(); "{}", path.as_device_path())?;
    /// assert_eq!(rt; text.as_str(), "Uart(115200,8,E,1)");
    /// ```
    #[derive(Clone, Copy)]
    pub struct Uart {
        /// The baud rate; 0 is the device's default.
        pub baud_rate: u64,
        /// The number of data bits; 0 is the device's default.
        pub data_bits: u8,
        /// The parity: 0 is the default, 1 none, 2 even, 3 odd, 4 mark, 5 space.
        pub parity: u8,
        /// The stop bits: 0 is the default, 1 one, 2 one and a half, 3 two.
        pub stop_bits: u8,
    }

    /// Builds the node from its fields.
    impl Fields for Uart {
        type Layout = super::Uart<'static>;

        type Tail = ();

        ghost fields = { λ n. number uart.BAUD_RATE n.baud_rate ∷ number uart.DATA_BITS n.data_bits ∷
            number uart.PARITY n.parity ∷ number uart.STOP_BITS n.stop_bits ∷ [] };

        fn tail(self) {}

        fn put(&self, content: &mut [u8]) {
            put(content, uart::BAUD_RATE, self.baud_rate);
            put(content, uart::DATA_BITS, self.data_bits);
            put(content, uart::PARITY, self.parity);
            put(content, uart::STOP_BITS, self.stop_bits);
        }
    }

    /// A vendor-defined node, identified by a GUID.
    ///
    /// ```rust
    /// let mut path = DevicePathBuf::new(rt.alloc())?;
    /// path.push_node(&messaging::Vendor {
    ///     vendor_guid: Guid::from_bytes(*b"abcdefghijklmnop"), vendor_defined_data: &[1],
    /// })?;
    /// let text = format!(in rt.alloc(); "{}", path.as_device_path())?;
    /// assert_eq!(rt; text.as_str(), "VenMsg(64636261-6665-6867-696A-6B6C6D6E6F70,01)");
    /// ```
    pub type Vendor<'a> = VendorNode<'a, MESSAGING_TYPE, { messaging_vendor::SUB_TYPE }>;
}
