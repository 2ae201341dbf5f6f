//! Nodes of type Messaging that reach devices over USB (UEFI Specification 2.10, section
//! 10.3.4).
#![tactic(auto)]

ghost use Rattle.std.specs.Prelude.{◌≡◌, ◌%◌, ◌↔◌, IfSome, IsSome, length, ◌∷◌, []};
ghost use Rattle.uefi_device_nodes.specs.TypedNodes.{bytes_from, number_in};
ghost use Rattle.uefi_text.specs.UnitBytes.{units_of_bytes, unit_bytes};
ghost use Rattle.uefi_text.specs.Views.{items_of};
ghost use Rattle.uefi_device_nodes.specs.NodeViews.{data_of};
ghost use Rattle.uefi_device_nodes.specs.declared.node_table.layouts.messaging.usb.TheConstants as usb;
ghost use Rattle.uefi_device_nodes.specs.declared.node_table.layouts.messaging.usb_class.TheConstants as usb_class;
ghost use Rattle.uefi_device_nodes.specs.declared.node_table.layouts.messaging.usb_wwid.TheConstants as usb_wwid;
ghost use Rattle.uefi_device_nodes.specs.NodeFields.{number};

use crate::node::DeviceSubType;
use crate::node_table::layouts::MESSAGING_TYPE;
use crate::node_table::layouts::messaging::{usb, usb_class, usb_wwid};
use crate::typed_node::TypedNode;
use uefi_text::UnalignedSlice;

/// Sub-types of the type [`DeviceType::MESSAGING`](crate::DeviceType).
impl DeviceSubType {
    /// A device on a USB bus.
    pub const MESSAGING_USB: DeviceSubType = DeviceSubType(usb::SUB_TYPE);

    /// A class of USB devices.
    pub const MESSAGING_USB_CLASS: DeviceSubType = DeviceSubType(usb_class::SUB_TYPE);

    /// A USB device, identified by its serial number.
    pub const MESSAGING_USB_WWID: DeviceSubType = DeviceSubType(usb_wwid::SUB_TYPE);
}

/// A device on a USB bus.
///
/// ```rust
/// let (node, _) = DevicePathNode::split_first(&[3, 5, 6, 0, 3, 1])?;
/// let device = messaging::Usb::from_node(node)?;
/// assert_eq!(rt; (device.parent_port_number(), device.interface()), (3, 1));
/// ```
pub type Usb<'a> = TypedNode<'a, MESSAGING_TYPE, { usb::SUB_TYPE }, { usb::LEAST }>;

impl<'a> Usb<'a> {
    /// Returns the number of the port on its hub.
    pub fn parent_port_number(&self) -> u8
        ensures { result ≡ number_in usb.PARENT_PORT_NUMBER (data_of self.now) }
    {
        self.number(usb::PARENT_PORT_NUMBER)
    }

    /// Returns the number of its interface.
    pub fn interface(&self) -> u8
        ensures { result ≡ number_in usb.INTERFACE (data_of self.now) }
    {
        self.number(usb::INTERFACE)
    }
}

/// A USB device, identified by its serial number.
///
/// ```rust
/// let (node, _) = DevicePathNode::split_first(b"\x03\x10\x0e\0\x01\0m\x04\x25\x08A\0\x37\0")?;
/// let device = messaging::UsbWwid::from_node(node)?;
/// assert_eq!(rt; device.interface_number(), 1);
/// assert_eq!(rt; (device.device_vendor_id(), device.device_product_id()), (0x46d, 0x825));
/// assert_eq!(rt; device.serial_number().map(|it| it.len()), Some(2));
/// ```
pub type UsbWwid<'a> = TypedNode<'a, MESSAGING_TYPE, { usb_wwid::SUB_TYPE }, { usb_wwid::LEAST }>;

impl<'a> UsbWwid<'a> {
    /// Returns the number of its interface.
    pub fn interface_number(&self) -> u16
        ensures { result ≡ number_in usb_wwid.INTERFACE_NUMBER (data_of self.now) }
    {
        self.number(usb_wwid::INTERFACE_NUMBER)
    }

    /// Returns the ID of its vendor.
    pub fn device_vendor_id(&self) -> u16
        ensures { result ≡ number_in usb_wwid.DEVICE_VENDOR_ID (data_of self.now) }
    {
        self.number(usb_wwid::DEVICE_VENDOR_ID)
    }

    /// Returns the ID of the product.
    pub fn device_product_id(&self) -> u16
        ensures { result ≡ number_in usb_wwid.DEVICE_PRODUCT_ID (data_of self.now) }
    {
        self.number(usb_wwid::DEVICE_PRODUCT_ID)
    }

    /// Returns the code units of the last 64 or fewer characters of the serial number, without a NUL, or
    /// `None` if their number of bytes is odd.
    pub fn serial_number(&self) -> Option<UnalignedSlice<'a, u16>>
        ensures some { IsSome result
            ↔ (length (bytes_from usb_wwid.SERIAL_NUMBER (data_of self.now)) % 2 ≡ 0) }
        ensures units { IfSome result (λ units.
            items_of units ≡ units_of_bytes (bytes_from usb_wwid.SERIAL_NUMBER (data_of self.now))) }
    {
        UnalignedSlice::from_unit_bytes(self.tail(usb_wwid::SERIAL_NUMBER))
    }
}

/// All USB devices of a class.
///
/// ```rust
/// let (node, _) = DevicePathNode::split_first(&[3, 0xf, 0xb, 0, 0xff, 0xff, 0x25, 8, 3, 1, 2])?;
/// let class = messaging::UsbClass::from_node(node)?;
/// assert_eq!(rt; (class.vendor_id(), class.product_id()), (0xffff, 0x825));
/// assert_eq!(rt; (class.device_class(), class.device_subclass()), (3, 1));
/// assert_eq!(rt; class.device_protocol(), 2);
/// ```
pub type UsbClass<'a> = TypedNode<
    'a,
    MESSAGING_TYPE,
    { usb_class::SUB_TYPE },
    { usb_class::LEAST },
>;

impl<'a> UsbClass<'a> {
    /// Returns the ID of the vendor; 0xffff is any.
    pub fn vendor_id(&self) -> u16
        ensures { result ≡ number_in usb_class.VENDOR_ID (data_of self.now) }
    {
        self.number(usb_class::VENDOR_ID)
    }

    /// Returns the ID of the product; 0xffff is any.
    pub fn product_id(&self) -> u16
        ensures { result ≡ number_in usb_class.PRODUCT_ID (data_of self.now) }
    {
        self.number(usb_class::PRODUCT_ID)
    }

    /// Returns the class; 0xff is any.
    pub fn device_class(&self) -> u8
        ensures { result ≡ number_in usb_class.DEVICE_CLASS (data_of self.now) }
    {
        self.number(usb_class::DEVICE_CLASS)
    }

    /// Returns the subclass; 0xff is any.
    pub fn device_subclass(&self) -> u8
        ensures { result ≡ number_in usb_class.DEVICE_SUBCLASS (data_of self.now) }
    {
        self.number(usb_class::DEVICE_SUBCLASS)
    }

    /// Returns the protocol; 0xff is any.
    pub fn device_protocol(&self) -> u8
        ensures { result ≡ number_in usb_class.DEVICE_PROTOCOL (data_of self.now) }
    {
        self.number(usb_class::DEVICE_PROTOCOL)
    }
}

/// The structs from which these nodes are built.
pub mod build {
    use crate::fields::{Fields, put};
    use crate::node_table::layouts::messaging::{usb, usb_class, usb_wwid};

    /// A device on a USB bus.
    ///
    /// ```rust
    /// let mut path = DevicePathBuf::new(rt.alloc())?;
    /// path.push_node(&messaging::Usb { parent_port_number: 3, interface: 1 })?;
    /// let text = format!(in rt.alloc(); "{}", path.as_device_path())?;
    /// assert_eq!(rt; text.as_str(), "USB(0x3,0x1)");
    /// ```
    #[derive(Clone, Copy)]
    pub struct Usb {
        /// The number of the port on its hub.
        pub parent_port_number: u8,
        /// The number of its interface.
        pub interface: u8,
    }

    /// Builds the node from its fields.
    impl Fields for Usb {
        type Layout = super::Usb<'static>;

        type Tail = ();

        ghost fields = { λ n. number usb.PARENT_PORT_NUMBER n.parent_port_number ∷
            number usb.INTERFACE n.interface ∷ [] };

        fn tail(self) {}

        fn put(&self, content: &mut [u8]) {
            put(content, usb::PARENT_PORT_NUMBER, self.parent_port_number);
            put(content, usb::INTERFACE, self.interface);
        }
    }

    /// A USB device, identified by its serial number.
    ///
    /// ```rust
    /// let mut path = DevicePathBuf::new(rt.alloc())?;
    /// path.push_node(&messaging::UsbWwid {
    ///     interface_number: 1, device_vendor_id: 0x46d, device_product_id: 0x825,
    ///     serial_number: &[0x41, 0x37] })?;
    /// let text = format!(in rt.alloc(); "{}", path.as_device_path())?;
    /// assert_eq!(rt; text.as_str(), "UsbWwid(0x46D,0x825,0x1,\"A7\")");
    /// ```
    #[derive(Clone, Copy)]
    pub struct UsbWwid<'a> {
        /// The number of its interface.
        pub interface_number: u16,
        /// The ID of its vendor.
        pub device_vendor_id: u16,
        /// The ID of the product.
        pub device_product_id: u16,
        /// The code units of the last 64 or fewer characters of the serial number, without a NUL.
        pub serial_number: &'a [u16],
    }

    /// Builds the node from its fields.
    impl<'a> Fields for UsbWwid<'a> {
        type Layout = super::UsbWwid<'static>;

        type Tail = &'a [u16];

        ghost fields = { λ n. number usb_wwid.INTERFACE_NUMBER n.interface_number ∷
            number usb_wwid.DEVICE_VENDOR_ID n.device_vendor_id ∷
            number usb_wwid.DEVICE_PRODUCT_ID n.device_product_id ∷ [] };

        ghost after = { λ n. unit_bytes n.serial_number.now };

        fn tail(self) -> &'a [u16] {
            self.serial_number
        }

        fn put(&self, content: &mut [u8]) {
            put(content, usb_wwid::INTERFACE_NUMBER, self.interface_number);
            put(content, usb_wwid::DEVICE_VENDOR_ID, self.device_vendor_id);
            put(content, usb_wwid::DEVICE_PRODUCT_ID, self.device_product_id);
        }
    }

    /// All USB devices of a class.
    ///
    /// ```rust
    /// let mut path = DevicePathBuf::new(rt.alloc())?;
    /// path.push_node(&messaging::UsbClass {
    ///     vendor_id: 0xffff, product_id: 0x825, device_class: 3, device_subclass: 1,
    ///     device_protocol: 2 })?;
    /// let text = format!(in rt.alloc(); "{}", path.as_device_path())?;
    /// assert_eq!(rt; text.as_str(), "UsbHID(0xFFFF,0x825,0x1,0x2)");
    /// ```
    #[derive(Clone, Copy)]
    pub struct UsbClass {
        /// The ID of the vendor; 0xffff is any.
        pub vendor_id: u16,
        /// The ID of the product; 0xffff is any.
        pub product_id: u16,
        /// The class; 0xff is any.
        pub device_class: u8,
        /// The subclass; 0xff is any.
        pub device_subclass: u8,
        /// The protocol; 0xff is any.
        pub device_protocol: u8,
    }

    /// Builds the node from its fields.
    impl Fields for UsbClass {
        type Layout = super::UsbClass<'static>;

        type Tail = ();

        ghost fields = { λ n. number usb_class.VENDOR_ID n.vendor_id ∷
            number usb_class.PRODUCT_ID n.product_id ∷ number usb_class.DEVICE_CLASS n.device_class ∷
            number usb_class.DEVICE_SUBCLASS n.device_subclass ∷
            number usb_class.DEVICE_PROTOCOL n.device_protocol ∷ [] };

        fn tail(self) {}

        fn put(&self, content: &mut [u8]) {
            put(content, usb_class::VENDOR_ID, self.vendor_id);
            put(content, usb_class::PRODUCT_ID, self.product_id);
            put(content, usb_class::DEVICE_CLASS, self.device_class);
            put(content, usb_class::DEVICE_SUBCLASS, self.device_subclass);
            put(content, usb_class::DEVICE_PROTOCOL, self.device_protocol);
        }
    }
}
