//! Nodes of type Messaging that reach devices and networks by radio (UEFI Specification 2.10, section
//! 10.3.4).
#![tactic(auto)]

ghost use Rattle.std.specs.Prelude.{◌≡◌, ◌<◌, ◌∷◌, []};
ghost use Rattle.uefi_device_nodes.specs.TypedNodes.{bytes_in, number_in};
ghost use Rattle.uefi_device_nodes.specs.NodeViews.{data_of};
ghost use Rattle.uefi_device_nodes.specs.declared.node_table.layouts.messaging.bluetooth.TheConstants as bluetooth;
ghost use Rattle.uefi_device_nodes.specs.declared.node_table.layouts.messaging.bluetooth_le.TheConstants as bluetooth_le;
ghost use Rattle.uefi_device_nodes.specs.declared.node_table.layouts.messaging.wifi.TheConstants as wifi;
ghost use Rattle.uefi_device_nodes.specs.NodeFields.{bytes, number};

use crate::node::DeviceSubType;
use crate::node_table::layouts::MESSAGING_TYPE;
use crate::node_table::layouts::messaging::{bluetooth, bluetooth_le, wifi};
use crate::typed_node::TypedNode;

/// Sub-types of the type [`DeviceType::MESSAGING`](crate::DeviceType).
impl DeviceSubType {
    /// A Bluetooth device.
    pub const MESSAGING_BLUETOOTH: DeviceSubType = DeviceSubType(bluetooth::SUB_TYPE);

    /// A wireless network.
    pub const MESSAGING_WIFI: DeviceSubType = DeviceSubType(wifi::SUB_TYPE);

    /// A Bluetooth Low Energy device.
    pub const MESSAGING_BLUETOOTH_LE: DeviceSubType = DeviceSubType(bluetooth_le::SUB_TYPE);
}

/// A Bluetooth device.
///
/// ```rust
/// let (node, _) = DevicePathNode::split_first(&[3, 0x1b, 0xa, 0, 1, 0x23, 0x45, 0x67, 0x89, 0xab])?;
/// let device = messaging::Bluetooth::from_node(node)?;
/// assert_eq!(rt; device.device_address(), [0x01, 0x23, 0x45, 0x67, 0x89, 0xab]);
/// ```
pub type Bluetooth<'a> = TypedNode<
    'a,
    MESSAGING_TYPE,
    { bluetooth::SUB_TYPE },
    { bluetooth::LEAST },
>;

impl<'a> Bluetooth<'a> {
    /// Returns the bytes of its address.
    pub fn device_address(&self) -> [u8; 6]
        ensures { result ≡ bytes_in bluetooth.DEVICE_ADDRESS (data_of self.now) }
    {
        self.bytes(bluetooth::DEVICE_ADDRESS)
    }
}

/// A Bluetooth Low Energy device.
///
/// ```rust
/// let (node, _) = DevicePathNode::split_first(&[3, 0x1e, 0xb, 0, 1, 0x23, 0x45, 0x67, 0x89, 0xab, 1])?;
/// let device = messaging::BluetoothLe::from_node(node)?;
/// assert_eq!(rt; device.device_address(), [0x01, 0x23, 0x45, 0x67, 0x89, 0xab]);
/// assert_eq!(rt; device.address_type(), 1);
/// ```
pub type BluetoothLe<'a> = TypedNode<
    'a,
    MESSAGING_TYPE,
    { bluetooth_le::SUB_TYPE },
    { bluetooth_le::LEAST },
>;

impl<'a> BluetoothLe<'a> {
    /// Returns the bytes of its address.
    pub fn device_address(&self) -> [u8; 6]
        ensures { result ≡ bytes_in bluetooth_le.DEVICE_ADDRESS (data_of self.now) }
    {
        self.bytes(bluetooth_le::DEVICE_ADDRESS)
    }

    /// Returns the type of the address: 0 is public, 1 is random.
    pub fn address_type(&self) -> u8
        ensures { result ≡ number_in bluetooth_le.ADDRESS_TYPE (data_of self.now) }
    {
        self.number(bluetooth_le::ADDRESS_TYPE)
    }
}

/// A wireless network.
///
/// ```rust
/// let bytes = b"\x03\x1c\x24\0home\0\0\0\0\0\0\0\0\0\0\0\0\0\0\0\0\0\0\0\0\0\0\0\0\0\0\0\0";
/// let (node, _) = DevicePathNode::split_first(bytes)?;
/// let network = messaging::Wifi::from_node(node)?;
/// assert!(rt; network.ssid().starts_with(b"home\0"));
/// ```
pub type Wifi<'a> = TypedNode<'a, MESSAGING_TYPE, { wifi::SUB_TYPE }, { wifi::LEAST }>;

impl<'a> Wifi<'a> {
    /// Returns the SSID of the network, padded with zeros.
    pub fn ssid(&self) -> [u8; 32]
        ensures { result ≡ bytes_in wifi.SSID (data_of self.now) }
    {
        self.bytes(wifi::SSID)
    }
}

/// The structs from which these nodes are built.
pub mod build {
    use crate::fields::{Fields, put, put_bytes};
    use crate::node_table::layouts::messaging::{bluetooth, bluetooth_le, wifi};

    /// A Bluetooth device.
    ///
    /// ```rust
    /// let mut path = DevicePathBuf::new(rt.alloc())?;
    /// path.push_node(&messaging::Bluetooth { device_address: [0x01, 0x23, 0x45, 0x67, 0x89, 0xab] })?;
    /// let text = format!(in rt.alloc(); "{}", path.as_device_path())?;
    /// assert_eq!(rt; text.as_str(), "Bluetooth(0123456789AB)");
    /// ```
    #[derive(Clone, Copy)]
    pub struct Bluetooth {
        /// The bytes of its address.
        pub device_address: [u8; 6],
    }

    /// Builds the node from its fields.
    impl Fields for Bluetooth {
        type Layout = super::Bluetooth<'static>;

        type Tail = ();

        ghost fields = { λ n. bytes bluetooth.DEVICE_ADDRESS n.device_address ∷ [] };

        fn tail(self) {}

        fn put(&self, content: &mut [u8]) {
            put_bytes(content, bluetooth::DEVICE_ADDRESS, &self.device_address);
        }
    }

    /// A Bluetooth Low Energy device.
    ///
    /// ```rust
    /// let mut path = DevicePathBuf::new(rt.alloc())?;
    /// path.push_node(&messaging::BluetoothLe {
    ///     device_address: [0x01, 0x23, 0x45, 0x67, 0x89, 0xab], address_type: 1,
    /// })?;
    /// let text = format!(in rt.alloc(); "{}", path.as_device_path())?;
    /// assert_eq!(rt; text.as_str(), "BluetoothLE(0123456789AB,0x01)");
    /// ```
    #[derive(Clone, Copy)]
    pub struct BluetoothLe {
        /// The bytes of its address.
        pub device_address: [u8; 6],
        /// The type of the address: 0 is public, 1 is random.
        pub address_type: u8,
    }

    /// Builds the node from its fields.
    impl Fields for BluetoothLe {
        type Layout = super::BluetoothLe<'static>;

        type Tail = ();

        ghost fields = { λ n. bytes bluetooth_le.DEVICE_ADDRESS n.device_address ∷
            number bluetooth_le.ADDRESS_TYPE n.address_type ∷ [] };

        fn tail(self) {}

        fn put(&self, content: &mut [u8]) {
            put_bytes(content, bluetooth_le::DEVICE_ADDRESS, &self.device_address);
            put(content, bluetooth_le::ADDRESS_TYPE, self.address_type);
        }
    }

    /// A wireless network.
    ///
    /// ```rust
    /// let mut ssid = [0; 32];
    /// ssid[..4].copy_from_slice(b"home");
    /// let mut path = DevicePathBuf::new(rt.alloc())?;
    /// path.push_node(&messaging::Wifi { ssid })?;
    /// let text = format!(in rt.alloc(); "{}", path.as_device_path())?;
    /// assert_eq!(rt; text.as_str(), "Wi-Fi(home)");
    /// ```
    #[derive(Clone, Copy)]
    pub struct Wifi {
        /// The SSID of the network, padded with zeros.
        pub ssid: [u8; 32],
    }

    /// Builds the node from its fields.
    impl Fields for Wifi {
        type Layout = super::Wifi<'static>;

        type Tail = ();

        ghost fields = { λ n. bytes wifi.SSID n.ssid ∷ [] };

        fn tail(self) {}

        fn put(&self, content: &mut [u8]) {
            put_bytes(content, wifi::SSID, &self.ssid);
        }
    }
}
