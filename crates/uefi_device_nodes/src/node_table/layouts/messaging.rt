//! The kinds of type Messaging (UEFI Specification 2.10, section 10.3.4).

use super::Field;

/// A drive on an ATA bus.
pub mod atapi {
    use super::Field;

    pub const SUB_TYPE: u8 = 1;

    pub const LEAST: usize = 4;

    pub const PRIMARY_SECONDARY: Field = field!(0, 1);

    pub const MASTER_SLAVE: Field = field!(1, 1);

    pub const LOGICAL_UNIT_NUMBER: Field = field!(2, 2);
}

/// A device on a SCSI bus.
pub mod scsi {
    use super::Field;

    pub const SUB_TYPE: u8 = 2;

    pub const LEAST: usize = 4;

    pub const TARGET_ID: Field = field!(0, 2);

    pub const LOGICAL_UNIT_NUMBER: Field = field!(2, 2);
}

/// A device on Fibre Channel.
pub mod fibre_channel {
    use super::Field;

    pub const SUB_TYPE: u8 = 3;

    pub const LEAST: usize = 20;

    pub const WORLD_WIDE_NAME: Field = field!(4, 8);

    pub const LOGICAL_UNIT_NUMBER: Field = field!(12, 8);
}

/// A FireWire device.
pub mod ieee1394 {
    use super::Field;

    pub const SUB_TYPE: u8 = 4;

    pub const LEAST: usize = 12;

    pub const GUID: Field = field!(4, 8);
}

/// A device on a USB bus.
pub mod usb {
    use super::Field;

    pub const SUB_TYPE: u8 = 5;

    pub const LEAST: usize = 2;

    pub const PARENT_PORT_NUMBER: Field = field!(0, 1);

    pub const INTERFACE: Field = field!(1, 1);
}

/// A device on an I2O bus.
pub mod i2o {
    use super::Field;

    pub const SUB_TYPE: u8 = 6;

    pub const LEAST: usize = 4;

    pub const TARGET_ID: Field = field!(0, 4);
}

/// A device on InfiniBand.
pub mod infiniband {
    use super::Field;

    pub const SUB_TYPE: u8 = 9;

    pub const LEAST: usize = 44;

    pub const RESOURCE_FLAGS: Field = field!(0, 4);

    pub const PORT_GID: Field = field!(4, 16);

    pub const IOC_GUID_OR_SERVICE_ID: Field = field!(20, 8);

    pub const TARGET_PORT_ID: Field = field!(28, 8);

    pub const DEVICE_ID: Field = field!(36, 8);
}

/// A vendor-defined node, identified by a GUID.
pub mod messaging_vendor {
    use super::Field;

    pub const SUB_TYPE: u8 = 10;

    pub const LEAST: usize = 16;

    pub const VENDOR_GUID: Field = field!(0, 16);

    pub const VENDOR_DEFINED_DATA: Field = field!(16, 0);
}

/// A network interface.
pub mod mac_address {
    use super::Field;

    pub const SUB_TYPE: u8 = 11;

    pub const LEAST: usize = 33;

    pub const MAC_ADDRESS: Field = field!(0, 32);

    pub const INTERFACE_TYPE: Field = field!(32, 1);
}

/// An endpoint of a connection over IP version 4.
pub mod ipv4 {
    use super::Field;

    pub const SUB_TYPE: u8 = 12;

    pub const LEAST: usize = 15;
    /// The number of its bytes with the fields that later versions of the standard added.
    pub const WHOLE: usize = 23;

    pub const LOCAL_IP_ADDRESS: Field = field!(0, 4);

    pub const REMOTE_IP_ADDRESS: Field = field!(4, 4);

    pub const LOCAL_PORT: Field = field!(8, 2);

    pub const REMOTE_PORT: Field = field!(10, 2);

    pub const PROTOCOL: Field = field!(12, 2);

    pub const IP_ADDRESS_ORIGIN: Field = field!(14, 1);

    pub const GATEWAY_IP_ADDRESS: Field = field!(15, 4);

    pub const SUBNET_MASK: Field = field!(19, 4);
}

/// An endpoint of a connection over IP version 6.
pub mod ipv6 {
    use super::Field;

    pub const SUB_TYPE: u8 = 13;

    pub const LEAST: usize = 56;
    /// The number of bytes of an older node, which has no prefix and no gateway.
    pub const OLDER: usize = 39;

    pub const LOCAL_IP_ADDRESS: Field = field!(0, 16);

    pub const REMOTE_IP_ADDRESS: Field = field!(16, 16);

    pub const LOCAL_PORT: Field = field!(32, 2);

    pub const REMOTE_PORT: Field = field!(34, 2);

    pub const PROTOCOL: Field = field!(36, 2);

    pub const IP_ADDRESS_ORIGIN: Field = field!(38, 1);

    pub const PREFIX_LENGTH: Field = field!(39, 1);

    pub const GATEWAY_IP_ADDRESS: Field = field!(40, 16);
}

/// A serial port.
pub mod uart {
    use super::Field;

    pub const SUB_TYPE: u8 = 14;

    pub const LEAST: usize = 15;

    pub const BAUD_RATE: Field = field!(4, 8);

    pub const DATA_BITS: Field = field!(12, 1);

    pub const PARITY: Field = field!(13, 1);

    pub const STOP_BITS: Field = field!(14, 1);
}

/// All USB devices of a class.
pub mod usb_class {
    use super::Field;

    pub const SUB_TYPE: u8 = 15;

    pub const LEAST: usize = 7;

    pub const VENDOR_ID: Field = field!(0, 2);

    pub const PRODUCT_ID: Field = field!(2, 2);

    pub const DEVICE_CLASS: Field = field!(4, 1);

    pub const DEVICE_SUBCLASS: Field = field!(5, 1);

    pub const DEVICE_PROTOCOL: Field = field!(6, 1);
}

/// A USB device, identified by its serial number.
pub mod usb_wwid {
    use super::Field;

    pub const SUB_TYPE: u8 = 16;

    pub const LEAST: usize = 6;

    pub const INTERFACE_NUMBER: Field = field!(0, 2);

    pub const DEVICE_VENDOR_ID: Field = field!(2, 2);

    pub const DEVICE_PRODUCT_ID: Field = field!(4, 2);

    pub const SERIAL_NUMBER: Field = field!(6, 0);
}

/// A logical unit of the device before it.
pub mod device_logical_unit {
    use super::Field;

    pub const SUB_TYPE: u8 = 17;

    pub const LEAST: usize = 1;

    pub const LOGICAL_UNIT_NUMBER: Field = field!(0, 1);
}

/// A device on a SATA port.
pub mod sata {
    use super::Field;

    pub const SUB_TYPE: u8 = 18;

    pub const LEAST: usize = 6;

    pub const HBA_PORT_NUMBER: Field = field!(0, 2);

    pub const PORT_MULTIPLIER_PORT_NUMBER: Field = field!(2, 2);

    pub const LOGICAL_UNIT_NUMBER: Field = field!(4, 2);
}

/// An iSCSI target.
pub mod iscsi {
    use super::Field;

    pub const SUB_TYPE: u8 = 19;

    pub const LEAST: usize = 14;

    pub const PROTOCOL: Field = field!(0, 2);

    pub const OPTIONS: Field = field!(2, 2);

    pub const LOGICAL_UNIT_NUMBER: Field = field!(4, 8);

    pub const TARGET_PORTAL_GROUP_TAG: Field = field!(12, 2);

    pub const ISCSI_TARGET_NAME: Field = field!(14, 0);
}

/// A virtual network.
pub mod vlan {
    use super::Field;

    pub const SUB_TYPE: u8 = 20;

    pub const LEAST: usize = 2;

    pub const VLAN_ID: Field = field!(0, 2);
}

/// A device on Fibre Channel, with its numbers as bytes in the order of the bus.
pub mod fibre_channel_ex {
    use super::Field;

    pub const SUB_TYPE: u8 = 21;

    pub const LEAST: usize = 20;

    pub const WORLD_WIDE_NAME: Field = field!(4, 8);

    pub const LOGICAL_UNIT_NUMBER: Field = field!(12, 8);
}

/// A device on SAS.
pub mod sas_ex {
    use super::Field;

    pub const SUB_TYPE: u8 = 22;

    pub const LEAST: usize = 20;

    pub const SAS_ADDRESS: Field = field!(0, 8);

    pub const LOGICAL_UNIT_NUMBER: Field = field!(8, 8);

    pub const INFO: Field = field!(16, 2);

    pub const RELATIVE_TARGET_PORT: Field = field!(18, 2);
}

/// A namespace of NVM Express.
pub mod nvme_namespace {
    use super::Field;

    pub const SUB_TYPE: u8 = 23;

    pub const LEAST: usize = 12;

    pub const NAMESPACE_IDENTIFIER: Field = field!(0, 4);

    pub const IEEE_EXTENDED_UNIQUE_IDENTIFIER: Field = field!(4, 8);
}

/// A resource that a URI identifies.
pub mod uri {
    use super::Field;

    pub const SUB_TYPE: u8 = 24;

    pub const LEAST: usize = 0;

    pub const VALUE: Field = field!(0, 0);
}

/// A device on UFS.
pub mod ufs {
    use super::Field;

    pub const SUB_TYPE: u8 = 25;

    pub const LEAST: usize = 2;

    pub const TARGET_ID: Field = field!(0, 1);

    pub const LOGICAL_UNIT_NUMBER: Field = field!(1, 1);
}

/// An SD card.
pub mod sd {
    use super::Field;

    pub const SUB_TYPE: u8 = 26;

    pub const LEAST: usize = 1;

    pub const SLOT_NUMBER: Field = field!(0, 1);
}

/// A Bluetooth device.
pub mod bluetooth {
    use super::Field;

    pub const SUB_TYPE: u8 = 27;

    pub const LEAST: usize = 6;

    pub const DEVICE_ADDRESS: Field = field!(0, 6);
}

/// A wireless network.
pub mod wifi {
    use super::Field;

    pub const SUB_TYPE: u8 = 28;

    pub const LEAST: usize = 32;

    pub const SSID: Field = field!(0, 32);
}

/// An eMMC card.
pub mod emmc {
    use super::Field;

    pub const SUB_TYPE: u8 = 29;

    pub const LEAST: usize = 1;

    pub const SLOT_NUMBER: Field = field!(0, 1);
}

/// A Bluetooth Low Energy device.
pub mod bluetooth_le {
    use super::Field;

    pub const SUB_TYPE: u8 = 30;

    pub const LEAST: usize = 7;

    pub const DEVICE_ADDRESS: Field = field!(0, 6);

    pub const ADDRESS_TYPE: Field = field!(6, 1);
}

/// The addresses of name servers.
pub mod dns {
    use super::Field;

    pub const SUB_TYPE: u8 = 31;

    pub const LEAST: usize = 1;
    /// The number of bytes with one address.
    pub const FIRST: usize = 17;

    pub const ADDRESS_TYPE: Field = field!(0, 1);

    pub const ADDRESS: Field = field!(1, 0);
}

/// A namespace of a persistent memory module.
pub mod nvdimm_namespace {
    use super::Field;

    pub const SUB_TYPE: u8 = 32;

    pub const LEAST: usize = 16;

    pub const UUID: Field = field!(0, 16);
}

/// A REST service.
pub mod rest_service {
    use super::Field;

    pub const SUB_TYPE: u8 = 33;

    pub const LEAST: usize = 2;

    pub const SERVICE_TYPE: Field = field!(0, 1);

    pub const ACCESS_MODE: Field = field!(1, 1);

    pub const VENDOR_GUID: Field = field!(2, 16);

    pub const VENDOR_DEFINED_DATA: Field = field!(18, 0);
}

/// A namespace of NVM Express over a network.
pub mod nvme_of_namespace {
    use super::Field;

    pub const SUB_TYPE: u8 = 34;

    pub const LEAST: usize = 17;

    pub const NIDT: Field = field!(0, 1);

    pub const NID: Field = field!(1, 16);

    pub const SUBSYSTEM_NQN: Field = field!(17, 0);
}

/// A device on SAS, as a vendor-defined node.
pub mod sas_vendor {
    use super::Field;

    pub const SUB_TYPE: u8 = super::messaging_vendor::SUB_TYPE;

    pub const LEAST: usize = 40;

    pub const RESERVED: Field = field!(16, 4);

    pub const SAS_ADDRESS: Field = field!(20, 8);

    pub const LOGICAL_UNIT_NUMBER: Field = field!(28, 8);

    pub const INFO: Field = field!(36, 2);

    pub const RELATIVE_TARGET_PORT: Field = field!(38, 2);
}

/// The flow control of a serial port, as a vendor-defined node.
pub mod uart_flow_control {
    use super::Field;

    pub const SUB_TYPE: u8 = super::messaging_vendor::SUB_TYPE;

    pub const LEAST: usize = 20;

    pub const MAP: Field = field!(16, 4);
}
