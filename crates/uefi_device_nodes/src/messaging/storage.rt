//! Nodes of type Messaging that reach disks over ATA, SCSI, Fibre Channel or SAS (UEFI Specification 2.10,
//! section 10.3.4).
#![tactic(auto)]

ghost use Rattle.std.specs.Prelude.{◌≡◌, ◌∷◌, []};
ghost use Rattle.uefi_device_nodes.specs.TypedNodes.{bytes_in, number_in};
ghost use Rattle.uefi_device_nodes.specs.NodeViews.{data_of};
ghost use Rattle.uefi_device_nodes.specs.declared.node_table.layouts.messaging.atapi.TheConstants as atapi;
ghost use Rattle.uefi_device_nodes.specs.declared.node_table.layouts.messaging.device_logical_unit.TheConstants as device_logical_unit;
ghost use Rattle.uefi_device_nodes.specs.declared.node_table.layouts.messaging.fibre_channel.TheConstants as fibre_channel;
ghost use Rattle.uefi_device_nodes.specs.declared.node_table.layouts.messaging.fibre_channel_ex.TheConstants as fibre_channel_ex;
ghost use Rattle.uefi_device_nodes.specs.declared.node_table.layouts.messaging.sas_ex.TheConstants as sas_ex;
ghost use Rattle.uefi_device_nodes.specs.declared.node_table.layouts.messaging.sata.TheConstants as sata;
ghost use Rattle.uefi_device_nodes.specs.declared.node_table.layouts.messaging.scsi.TheConstants as scsi;
ghost use Rattle.uefi_device_nodes.specs.NodeFields.{bytes, number};

use crate::node::DeviceSubType;
use crate::node_table::layouts::MESSAGING_TYPE;
use crate::node_table::layouts::messaging::{
    atapi, device_logical_unit, fibre_channel, fibre_channel_ex, sas_ex, sata, scsi,
};
use crate::typed_node::TypedNode;

/// Sub-types of the type [`DeviceType::MESSAGING`](crate::DeviceType).
impl DeviceSubType {
    /// An ATAPI drive.
    pub const MESSAGING_ATAPI: DeviceSubType = DeviceSubType(atapi::SUB_TYPE);

    /// A SCSI device.
    pub const MESSAGING_SCSI: DeviceSubType = DeviceSubType(scsi::SUB_TYPE);

    /// A device on Fibre Channel.
    pub const MESSAGING_FIBRE_CHANNEL: DeviceSubType = DeviceSubType(fibre_channel::SUB_TYPE);

    /// A logical unit.
    pub const MESSAGING_DEVICE_LOGICAL_UNIT: DeviceSubType = DeviceSubType(
        device_logical_unit::SUB_TYPE,
    );

    /// A device on SATA.
    pub const MESSAGING_SATA: DeviceSubType = DeviceSubType(sata::SUB_TYPE);

    /// A device on Fibre Channel, with its numbers as bytes in the order of the bus.
    pub const MESSAGING_FIBRE_CHANNEL_EX: DeviceSubType = DeviceSubType(fibre_channel_ex::SUB_TYPE);

    /// A device on SAS.
    pub const MESSAGING_SCSI_SAS_EX: DeviceSubType = DeviceSubType(sas_ex::SUB_TYPE);
}

/// A drive on an ATA bus.
///
/// ```rust
/// let (node, _) = DevicePathNode::split_first(&[3, 1, 8, 0, 0, 1, 2, 0])?;
/// let drive = messaging::Atapi::from_node(node)?;
/// assert_eq!(rt; (drive.primary_secondary(), drive.master_slave()), (0, 1));
/// assert_eq!(rt; drive.logical_unit_number(), 2);
/// ```
pub type Atapi<'a> = TypedNode<'a, MESSAGING_TYPE, { atapi::SUB_TYPE }, { atapi::LEAST }>;

impl<'a> Atapi<'a> {
    /// Returns the bus: 0 is primary, 1 secondary.
    pub fn primary_secondary(&self) -> u8
        ensures { result ≡ number_in atapi.PRIMARY_SECONDARY (data_of self.now) }
    {
        self.number(atapi::PRIMARY_SECONDARY)
    }

    /// Returns the drive on the bus: 0 is master, 1 slave.
    pub fn master_slave(&self) -> u8
        ensures { result ≡ number_in atapi.MASTER_SLAVE (data_of self.now) }
    {
        self.number(atapi::MASTER_SLAVE)
    }

    /// Returns the logical unit number.
    pub fn logical_unit_number(&self) -> u16
        ensures { result ≡ number_in atapi.LOGICAL_UNIT_NUMBER (data_of self.now) }
    {
        self.number(atapi::LOGICAL_UNIT_NUMBER)
    }
}

/// A device on a SCSI bus.
///
/// ```rust
/// let (node, _) = DevicePathNode::split_first(&[3, 2, 8, 0, 3, 0, 1, 0])?;
/// let disk = messaging::Scsi::from_node(node)?;
/// assert_eq!(rt; (disk.target_id(), disk.logical_unit_number()), (3, 1));
/// ```
pub type Scsi<'a> = TypedNode<'a, MESSAGING_TYPE, { scsi::SUB_TYPE }, { scsi::LEAST }>;

impl<'a> Scsi<'a> {
    /// Returns the number of the target on its bus.
    pub fn target_id(&self) -> u16
        ensures { result ≡ number_in scsi.TARGET_ID (data_of self.now) }
    {
        self.number(scsi::TARGET_ID)
    }

    /// Returns the logical unit number.
    pub fn logical_unit_number(&self) -> u16
        ensures { result ≡ number_in scsi.LOGICAL_UNIT_NUMBER (data_of self.now) }
    {
        self.number(scsi::LOGICAL_UNIT_NUMBER)
    }
}

/// A device on Fibre Channel.
///
/// ```rust
/// let bytes = b"\x03\x03\x18\0\0\0\0\0\x01\0\0\xff\x24\0\0\x21\x01\0\0\0\0\0\0\0";
/// let (node, _) = DevicePathNode::split_first(bytes)?;
/// let disk = messaging::FibreChannel::from_node(node)?;
/// assert_eq!(rt; disk.world_wide_name(), 0x2100_0024_ff00_0001);
/// assert_eq!(rt; disk.logical_unit_number(), 1);
/// ```
pub type FibreChannel<'a> = TypedNode<
    'a,
    MESSAGING_TYPE,
    { fibre_channel::SUB_TYPE },
    { fibre_channel::LEAST },
>;

impl<'a> FibreChannel<'a> {
    /// Returns the world wide name.
    pub fn world_wide_name(&self) -> u64
        ensures { result ≡ number_in fibre_channel.WORLD_WIDE_NAME (data_of self.now) }
    {
        self.number(fibre_channel::WORLD_WIDE_NAME)
    }

    /// Returns the logical unit number.
    pub fn logical_unit_number(&self) -> u64
        ensures { result ≡ number_in fibre_channel.LOGICAL_UNIT_NUMBER (data_of self.now) }
    {
        self.number(fibre_channel::LOGICAL_UNIT_NUMBER)
    }
}

/// A device on Fibre Channel, with its numbers as bytes in the order of the bus.
///
/// ```rust
/// let (node, _) = DevicePathNode::split_first(b"\x03\x15\x18\0\0\0\0\0worldwid\0\x01\0\0\0\0\0\0")?;
/// let disk = messaging::FibreChannelEx::from_node(node)?;
/// assert_eq!(rt; disk.world_wide_name(), *b"worldwid");
/// assert_eq!(rt; disk.logical_unit_number(), [0, 1, 0, 0, 0, 0, 0, 0]);
/// ```
pub type FibreChannelEx<'a> = TypedNode<
    'a,
    MESSAGING_TYPE,
    { fibre_channel_ex::SUB_TYPE },
    { fibre_channel_ex::LEAST },
>;

impl<'a> FibreChannelEx<'a> {
    /// Returns the bytes of the world wide name.
    pub fn world_wide_name(&self) -> [u8; 8]
        ensures { result ≡ bytes_in fibre_channel_ex.WORLD_WIDE_NAME (data_of self.now) }
    {
        self.bytes(fibre_channel_ex::WORLD_WIDE_NAME)
    }

    /// Returns the bytes of the logical unit number.
    pub fn logical_unit_number(&self) -> [u8; 8]
        ensures { result ≡ bytes_in fibre_channel_ex.LOGICAL_UNIT_NUMBER (data_of self.now) }
    {
        self.bytes(fibre_channel_ex::LOGICAL_UNIT_NUMBER)
    }
}

/// A logical unit of the device before it.
///
/// ```rust
/// let (node, _) = DevicePathNode::split_first(&[3, 0x11, 5, 0, 2])?;
/// let unit = messaging::DeviceLogicalUnit::from_node(node)?;
/// assert_eq!(rt; unit.logical_unit_number(), 2);
/// ```
pub type DeviceLogicalUnit<'a> = TypedNode<
    'a,
    MESSAGING_TYPE,
    { device_logical_unit::SUB_TYPE },
    { device_logical_unit::LEAST },
>;

impl<'a> DeviceLogicalUnit<'a> {
    /// Returns the logical unit number.
    pub fn logical_unit_number(&self) -> u8
        ensures { result ≡ number_in device_logical_unit.LOGICAL_UNIT_NUMBER (data_of self.now) }
    {
        self.number(device_logical_unit::LOGICAL_UNIT_NUMBER)
    }
}

/// A device on a SATA port.
///
/// ```rust
/// let (node, _) = DevicePathNode::split_first(&[3, 0x12, 0xa, 0, 1, 0, 0xff, 0xff, 0, 0])?;
/// let disk = messaging::Sata::from_node(node)?;
/// assert_eq!(rt; disk.hba_port_number(), 1);
/// assert_eq!(rt; disk.port_multiplier_port_number(), 0xffff);
/// assert_eq!(rt; disk.logical_unit_number(), 0);
/// ```
pub type Sata<'a> = TypedNode<'a, MESSAGING_TYPE, { sata::SUB_TYPE }, { sata::LEAST }>;

impl<'a> Sata<'a> {
    /// Returns the number of the port of the host bus adapter.
    pub fn hba_port_number(&self) -> u16
        ensures { result ≡ number_in sata.HBA_PORT_NUMBER (data_of self.now) }
    {
        self.number(sata::HBA_PORT_NUMBER)
    }

    /// Returns the port number of the port multiplier, or 0xffff if there is none.
    pub fn port_multiplier_port_number(&self) -> u16
        ensures { result ≡ number_in sata.PORT_MULTIPLIER_PORT_NUMBER (data_of self.now) }
    {
        self.number(sata::PORT_MULTIPLIER_PORT_NUMBER)
    }

    /// Returns the logical unit number.
    pub fn logical_unit_number(&self) -> u16
        ensures { result ≡ number_in sata.LOGICAL_UNIT_NUMBER (data_of self.now) }
    {
        self.number(sata::LOGICAL_UNIT_NUMBER)
    }
}

/// A device on SAS.
///
/// ```rust
/// let bytes = b"\x03\x16\x18\0address\x21\0\0\0\0\0\0\0\0\0\0\x02\0";
/// let (node, _) = DevicePathNode::split_first(bytes)?;
/// let disk = messaging::SasEx::from_node(node)?;
/// assert_eq!(rt; (disk.sas_address(), disk.logical_unit_number()), (*b"address!", [0; 8]));
/// assert_eq!(rt; (disk.info(), disk.relative_target_port()), (0, 2));
/// ```
pub type SasEx<'a> = TypedNode<'a, MESSAGING_TYPE, { sas_ex::SUB_TYPE }, { sas_ex::LEAST }>;

impl<'a> SasEx<'a> {
    /// Returns the bytes of the SAS address.
    pub fn sas_address(&self) -> [u8; 8]
        ensures { result ≡ bytes_in sas_ex.SAS_ADDRESS (data_of self.now) }
    {
        self.bytes(sas_ex::SAS_ADDRESS)
    }

    /// Returns the bytes of the logical unit number.
    pub fn logical_unit_number(&self) -> [u8; 8]
        ensures { result ≡ bytes_in sas_ex.LOGICAL_UNIT_NUMBER (data_of self.now) }
    {
        self.bytes(sas_ex::LOGICAL_UNIT_NUMBER)
    }

    /// Returns information about the device and its topology.
    pub fn info(&self) -> u16
        ensures { result ≡ number_in sas_ex.INFO (data_of self.now) }
    {
        self.number(sas_ex::INFO)
    }

    /// Returns the relative target port.
    pub fn relative_target_port(&self) -> u16
        ensures { result ≡ number_in sas_ex.RELATIVE_TARGET_PORT (data_of self.now) }
    {
        self.number(sas_ex::RELATIVE_TARGET_PORT)
    }
}

/// The structs from which these nodes are built.
pub mod build {
    use crate::fields::{Fields, put, put_bytes};
    use crate::node_table::layouts::messaging::{
        atapi, device_logical_unit, fibre_channel, fibre_channel_ex, sas_ex, sata, scsi,
    };

    /// A drive on an ATA bus.
    ///
    /// ```rust
    /// let mut path = DevicePathBuf::new(rt.alloc())?;
    /// path.push_node(&messaging::Atapi {
    ///     primary_secondary: 0, master_slave: 1, logical_unit_number: 2,
    /// })?;
    /// let text = format!(in rt.alloc(); "{}", path.as_device_path())?;
    /// assert_eq!(rt; text.as_str(), "Ata(Primary,Slave,0x2)");
    /// ```
    #[derive(Clone, Copy)]
    pub struct Atapi {
        /// The bus: 0 is primary, 1 secondary.
        pub primary_secondary: u8,
        /// The drive on the bus: 0 is master, 1 slave.
        pub master_slave: u8,
        /// The logical unit number.
        pub logical_unit_number: u16,
    }

    /// Builds the node from its fields.
    impl Fields for Atapi {
        type Layout = super::Atapi<'static>;

        type Tail = ();

        ghost fields = { λ n. number atapi.PRIMARY_SECONDARY n.primary_secondary ∷
            number atapi.MASTER_SLAVE n.master_slave ∷
            number atapi.LOGICAL_UNIT_NUMBER n.logical_unit_number ∷ [] };

        fn tail(self) {}

        fn put(&self, content: &mut [u8]) {
            put(content, atapi::PRIMARY_SECONDARY, self.primary_secondary);
            put(content, atapi::MASTER_SLAVE, self.master_slave);
            put(
                content,
                atapi::LOGICAL_UNIT_NUMBER,
                self.logical_unit_number,
            );
        }
    }

    /// A device on a SCSI bus.
    ///
    /// ```rust
    /// let mut path = DevicePathBuf::new(rt.alloc())?;
    /// path.push_node(&messaging::Scsi { target_id: 3, logical_unit_number: 1 })?;
    /// let text = format!(in rt.alloc(); "{}", path.as_device_path())?;
    /// assert_eq!(rt; text.as_str(), "Scsi(0x3,0x1)");
    /// ```
    #[derive(Clone, Copy)]
    pub struct Scsi {
        /// The number of the target on its bus.
        pub target_id: u16,
        /// The logical unit number.
        pub logical_unit_number: u16,
    }

    /// Builds the node from its fields.
    impl Fields for Scsi {
        type Layout = super::Scsi<'static>;

        type Tail = ();

        ghost fields = { λ n. number scsi.TARGET_ID n.target_id ∷
            number scsi.LOGICAL_UNIT_NUMBER n.logical_unit_number ∷ [] };

        fn tail(self) {}

        fn put(&self, content: &mut [u8]) {
            put(content, scsi::TARGET_ID, self.target_id);
            put(content, scsi::LOGICAL_UNIT_NUMBER, self.logical_unit_number);
        }
    }

    /// A device on Fibre Channel.
    ///
    /// ```rust
    /// let mut path = DevicePathBuf::new(rt.alloc())?;
    /// path.push_node(&messaging::FibreChannel {
    ///     world_wide_name: 0x2100_0024_ff00_0001, logical_unit_number: 1,
    /// })?;
    /// let text = format!(in rt.alloc(); "{}", path.as_device_path())?;
    /// assert_eq!(rt; text.as_str(), "Fibre(0x21000024FF000001,0x1)");
    /// ```
    #[derive(Clone, Copy)]
    pub struct FibreChannel {
        /// The world wide name.
        pub world_wide_name: u64,
        /// The logical unit number.
        pub logical_unit_number: u64,
    }

    /// Builds the node from its fields.
    impl Fields for FibreChannel {
        type Layout = super::FibreChannel<'static>;

        type Tail = ();

        ghost fields = { λ n. number fibre_channel.WORLD_WIDE_NAME n.world_wide_name ∷
            number fibre_channel.LOGICAL_UNIT_NUMBER n.logical_unit_number ∷ [] };

        fn tail(self) {}

        fn put(&self, content: &mut [u8]) {
            put(
                content,
                fibre_channel::WORLD_WIDE_NAME,
                self.world_wide_name,
            );
            put(
                content,
                fibre_channel::LOGICAL_UNIT_NUMBER,
                self.logical_unit_number,
            );
        }
    }

    /// A device on Fibre Channel, with its numbers as bytes in the order of the bus.
    ///
    /// ```rust
    /// let mut path = DevicePathBuf::new(rt.alloc())?;
    /// path.push_node(&messaging::FibreChannelEx {
    ///     world_wide_name: *b"worldwid", logical_unit_number: [0, 1, 0, 0, 0, 0, 0, 0],
    /// })?;
    /// let text = format!(in rt.alloc(); "{}", path.as_device_path())?;
    /// assert_eq!(rt; text.as_str(), "FibreEx(0x776F726C64776964,0x0001000000000000)");
    /// ```
    #[derive(Clone, Copy)]
    pub struct FibreChannelEx {
        /// The bytes of the world wide name.
        pub world_wide_name: [u8; 8],
        /// The bytes of the logical unit number.
        pub logical_unit_number: [u8; 8],
    }

    /// Builds the node from its fields.
    impl Fields for FibreChannelEx {
        type Layout = super::FibreChannelEx<'static>;

        type Tail = ();

        ghost fields = { λ n. bytes fibre_channel_ex.WORLD_WIDE_NAME n.world_wide_name ∷
            bytes fibre_channel_ex.LOGICAL_UNIT_NUMBER n.logical_unit_number ∷ [] };

        fn tail(self) {}

        fn put(&self, content: &mut [u8]) {
            put_bytes(
                content,
                fibre_channel_ex::WORLD_WIDE_NAME,
                &self.world_wide_name,
            );
            put_bytes(
                content,
                fibre_channel_ex::LOGICAL_UNIT_NUMBER,
                &self.logical_unit_number,
            );
        }
    }

    /// A logical unit of the device before it.
    ///
    /// ```rust
    /// let mut path = DevicePathBuf::new(rt.alloc())?;
    /// path.push_node(&messaging::DeviceLogicalUnit { logical_unit_number: 2 })?;
    /// let text = format!(in rt.alloc(); "{}", path.as_device_path())?;
    /// assert_eq!(rt; text.as_str(), "Unit(0x2)");
    /// ```
    #[derive(Clone, Copy)]
    pub struct DeviceLogicalUnit {
        /// The logical unit number.
        pub logical_unit_number: u8,
    }

    /// Builds the node from its fields.
    impl Fields for DeviceLogicalUnit {
        type Layout = super::DeviceLogicalUnit<'static>;

        type Tail = ();

        ghost fields = { λ n. number device_logical_unit.LOGICAL_UNIT_NUMBER n.logical_unit_number ∷
            [] };

        fn tail(self) {}

        fn put(&self, content: &mut [u8]) {
            put(
                content,
                device_logical_unit::LOGICAL_UNIT_NUMBER,
                self.logical_unit_number,
            );
        }
    }

    /// A device on a SATA port.
    ///
    /// ```rust
    /// let mut path = DevicePathBuf::new(rt.alloc())?;
    /// path.push_node(&messaging::Sata {
    ///     hba_port_number: 1, port_multiplier_port_number: 0xffff, logical_unit_number: 0,
    /// })?;
    /// let text = format!(in rt.alloc(); "{}", path.as_device_path())?;
    /// assert_eq!(rt; text.as_str(), "Sata(0x1,0xFFFF,0x0)");
    /// ```
    #[derive(Clone, Copy)]
    pub struct Sata {
        /// The number of the port of the host bus adapter.
        pub hba_port_number: u16,
        /// The port number of the port multiplier, or 0xffff if there is none.
        pub port_multiplier_port_number: u16,
        /// The logical unit number.
        pub logical_unit_number: u16,
    }

    /// Builds the node from its fields.
    impl Fields for Sata {
        type Layout = super::Sata<'static>;

        type Tail = ();

        ghost fields = { λ n. number sata.HBA_PORT_NUMBER n.hba_port_number ∷
            number sata.PORT_MULTIPLIER_PORT_NUMBER n.port_multiplier_port_number ∷
            number sata.LOGICAL_UNIT_NUMBER n.logical_unit_number ∷ [] };

        fn tail(self) {}

        fn put(&self, content: &mut [u8]) {
            put(content, sata::HBA_PORT_NUMBER, self.hba_port_number);
            put(
                content,
                sata::PORT_MULTIPLIER_PORT_NUMBER,
                self.port_multiplier_port_number,
            );
            put(content, sata::LOGICAL_UNIT_NUMBER, self.logical_unit_number);
        }
    }

    /// A device on SAS.
    ///
    /// ```rust
    /// let mut path = DevicePathBuf::new(rt.alloc())?;
    /// path.push_node(&messaging::SasEx {
    ///     sas_address: *b"address!", logical_unit_number: [0; 8], info: 0,
    ///     relative_target_port: 2 })?;
    /// let text = format!(in rt.alloc(); "{}", path.as_device_path())?;
    /// assert_eq!(rt; text.as_str(), "SasEx(0x6164647265737321,0x0000000000000000,0x2,NoTopology,0,0,0)");
    /// ```
    #[derive(Clone, Copy)]
    pub struct SasEx {
        /// The bytes of the SAS address.
        pub sas_address: [u8; 8],
        /// The bytes of the logical unit number.
        pub logical_unit_number: [u8; 8],
        /// Information about the device and its topology.
        pub info: u16,
        /// The relative target port.
        pub relative_target_port: u16,
    }

    /// Builds the node from its fields.
    impl Fields for SasEx {
        type Layout = super::SasEx<'static>;

        type Tail = ();

        ghost fields = { λ n. bytes sas_ex.SAS_ADDRESS n.sas_address ∷
            bytes sas_ex.LOGICAL_UNIT_NUMBER n.logical_unit_number ∷ number sas_ex.INFO n.info ∷
            number sas_ex.RELATIVE_TARGET_PORT n.relative_target_port ∷ [] };

        fn tail(self) {}

        fn put(&self, content: &mut [u8]) {
            put_bytes(content, sas_ex::SAS_ADDRESS, &self.sas_address);
            put_bytes(
                content,
                sas_ex::LOGICAL_UNIT_NUMBER,
                &self.logical_unit_number,
            );
            put(content, sas_ex::INFO, self.info);
            put(
                content,
                sas_ex::RELATIVE_TARGET_PORT,
                self.relative_target_port,
            );
        }
    }
}
