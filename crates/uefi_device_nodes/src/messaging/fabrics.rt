//! Nodes of type Messaging that reach storage over a network (UEFI Specification 2.10, section
//! 10.3.4).
#![tactic(auto)]

ghost use Rattle.std.specs.Prelude.{◌≡◌, ◌<◌, ◌∷◌, []};
ghost use Rattle.uefi_device_nodes.specs.TypedNodes.{bytes_from, bytes_in, number_in};
ghost use Rattle.uefi_device_nodes.specs.NodeViews.{data_of};
ghost use Rattle.uefi_device_nodes.specs.declared.node_table.layouts.messaging.infiniband.TheConstants as infiniband;
ghost use Rattle.uefi_device_nodes.specs.declared.node_table.layouts.messaging.iscsi.TheConstants as iscsi;
ghost use Rattle.uefi_device_nodes.specs.declared.node_table.layouts.messaging.nvme_of_namespace.TheConstants as nvme_of_namespace;
ghost use Rattle.uefi_device_nodes.specs.NodeFields.{bytes, number};

use crate::node::DeviceSubType;
use crate::node_table::layouts::MESSAGING_TYPE;
use crate::node_table::layouts::messaging::{infiniband, iscsi, nvme_of_namespace};
use crate::typed_node::TypedNode;

/// Sub-types of the type [`DeviceType::MESSAGING`](crate::DeviceType).
impl DeviceSubType {
    /// A device on InfiniBand.
    pub const MESSAGING_INFINIBAND: DeviceSubType = DeviceSubType(infiniband::SUB_TYPE);

    /// An iSCSI target.
    pub const MESSAGING_ISCSI: DeviceSubType = DeviceSubType(iscsi::SUB_TYPE);

    /// A namespace of an NVMe drive over a network.
    pub const MESSAGING_NVME_OF_NAMESPACE: DeviceSubType = DeviceSubType(
        nvme_of_namespace::SUB_TYPE,
    );
}

/// A device on InfiniBand.
///
/// ```rust
/// let bytes = b"\x03\x09\x30\0\x08\0\0\0abcdefghijklmnop\x01\0\0\0\0\0\0\0\x02\0\0\0\0\0\0\0\x03\
///     \0\0\0\0\0\0\0";
/// let device = messaging::Infiniband::from_node(DevicePathNode::split_first(bytes)?.0)?;
/// assert_eq!(rt; (device.resource_flags(), device.port_gid()), (8, *b"abcdefghijklmnop"));
/// assert_eq!(rt; (device.ioc_guid_or_service_id(), device.target_port_id()), (1, 2));
/// assert_eq!(rt; device.device_id(), 3);
/// ```
pub type Infiniband<'a> = TypedNode<
    'a,
    MESSAGING_TYPE,
    { infiniband::SUB_TYPE },
    { infiniband::LEAST },
>;

impl<'a> Infiniband<'a> {
    /// Returns flags of the resource. Bit 0 is clear for an I/O controller and set for a service. Bits 1 to
    /// 4 mean an extension of the boot environment, a console, storage and a network.
    pub fn resource_flags(&self) -> u32
        ensures { result ≡ number_in infiniband.RESOURCE_FLAGS (data_of self.now) }
    {
        self.number(infiniband::RESOURCE_FLAGS)
    }

    /// Returns the bytes of the global identifier of the remote fabric port.
    pub fn port_gid(&self) -> [u8; 16]
        ensures { result ≡ bytes_in infiniband.PORT_GID (data_of self.now) }
    {
        self.bytes(infiniband::PORT_GID)
    }

    /// Returns the GUID of the I/O controller, or the identifier of the service.
    pub fn ioc_guid_or_service_id(&self) -> u64
        ensures { result ≡ number_in infiniband.IOC_GUID_OR_SERVICE_ID (data_of self.now) }
    {
        self.number(infiniband::IOC_GUID_OR_SERVICE_ID)
    }

    /// Returns the persistent identifier of the remote port.
    pub fn target_port_id(&self) -> u64
        ensures { result ≡ number_in infiniband.TARGET_PORT_ID (data_of self.now) }
    {
        self.number(infiniband::TARGET_PORT_ID)
    }

    /// Returns the persistent identifier of the remote device.
    pub fn device_id(&self) -> u64
        ensures { result ≡ number_in infiniband.DEVICE_ID (data_of self.now) }
    {
        self.number(infiniband::DEVICE_ID)
    }
}

/// An iSCSI target.
///
/// ```rust
/// let bytes = b"\x03\x13\x1e\0\0\0\x02\0\0\x01\0\0\0\0\0\0\x01\0iqn.org:disk";
/// let (node, _) = DevicePathNode::split_first(bytes)?;
/// let disk = messaging::Iscsi::from_node(node)?;
/// assert_eq!(rt; (disk.protocol(), disk.options(), disk.target_portal_group_tag()), (0, 2, 1));
/// assert_eq!(rt; disk.logical_unit_number(), [0, 1, 0, 0, 0, 0, 0, 0]);
/// assert_eq!(rt; disk.iscsi_target_name(), b"iqn.org:disk".as_slice());
/// ```
pub type Iscsi<'a> = TypedNode<'a, MESSAGING_TYPE, { iscsi::SUB_TYPE }, { iscsi::LEAST }>;

impl<'a> Iscsi<'a> {
    /// Returns the protocol: 0 is TCP.
    pub fn protocol(&self) -> u16
        ensures { result ≡ number_in iscsi.PROTOCOL (data_of self.now) }
    {
        self.number(iscsi::PROTOCOL)
    }

    /// Returns the login options, with bits for digests and authentication.
    pub fn options(&self) -> u16
        ensures { result ≡ number_in iscsi.OPTIONS (data_of self.now) }
    {
        self.number(iscsi::OPTIONS)
    }

    /// Returns the bytes of the logical unit number.
    pub fn logical_unit_number(&self) -> [u8; 8]
        ensures { result ≡ bytes_in iscsi.LOGICAL_UNIT_NUMBER (data_of self.now) }
    {
        self.bytes(iscsi::LOGICAL_UNIT_NUMBER)
    }

    /// Returns the portal group tag of the target.
    pub fn target_portal_group_tag(&self) -> u16
        ensures { result ≡ number_in iscsi.TARGET_PORTAL_GROUP_TAG (data_of self.now) }
    {
        self.number(iscsi::TARGET_PORTAL_GROUP_TAG)
    }

    /// Returns the bytes of the name of the target.
    pub fn iscsi_target_name(&self) -> &'a [u8]
        ensures { result.now ≡ bytes_from iscsi.ISCSI_TARGET_NAME (data_of self.now) }
    {
        self.tail(iscsi::ISCSI_TARGET_NAME)
    }
}

/// A namespace of NVM Express over a network.
///
/// ```rust
/// let (node, _) = DevicePathNode::split_first(b"\x03\x22\x22\0\x03abcdefghijklmnopnqn.org:disk\0")?;
/// let disk = messaging::NvmeOfNamespace::from_node(node)?;
/// assert_eq!(rt; (disk.nidt(), disk.nid()), (3, *b"abcdefghijklmnop"));
/// assert_eq!(rt; disk.subsystem_nqn(), b"nqn.org:disk\0".as_slice());
/// ```
pub type NvmeOfNamespace<'a> = TypedNode<
    'a,
    MESSAGING_TYPE,
    { nvme_of_namespace::SUB_TYPE },
    { nvme_of_namespace::LEAST },
>;

impl<'a> NvmeOfNamespace<'a> {
    /// Returns the type of the identifier: 1 is EUI-64, 2 NGUID, 3 UUID.
    pub fn nidt(&self) -> u8
        ensures { result ≡ number_in nvme_of_namespace.NIDT (data_of self.now) }
    {
        self.number(nvme_of_namespace::NIDT)
    }

    /// Returns the bytes of the identifier.
    pub fn nid(&self) -> [u8; 16]
        ensures { result ≡ bytes_in nvme_of_namespace.NID (data_of self.now) }
    {
        self.bytes(nvme_of_namespace::NID)
    }

    /// Returns the qualified name of the subsystem, in UTF-8, with its NUL.
    pub fn subsystem_nqn(&self) -> &'a [u8]
        ensures { result.now ≡ bytes_from nvme_of_namespace.SUBSYSTEM_NQN (data_of self.now) }
    {
        self.tail(nvme_of_namespace::SUBSYSTEM_NQN)
    }
}

/// The structs from which these nodes are built.
pub mod build {
    use crate::fields::{Fields, put, put_bytes};
    use crate::node_table::layouts::messaging::{infiniband, iscsi, nvme_of_namespace};

    /// A device on InfiniBand.
    ///
    /// ```rust
    /// let mut path = DevicePathBuf::new(rt.alloc())?;
    /// path.push_node(&messaging::Infiniband {
    ///     resource_flags: 8, port_gid: *b"abcdefghijklmnop", ioc_guid_or_service_id: 1,
    ///     target_port_id: 2, device_id: 3 })?;
    /// let text = format!(in rt.alloc(); "{}", path.as_device_path())?;
    /// assert_eq!(rt; text.as_str(), "Infiniband(0x8,64636261-6665-6867-696A-6B6C6D6E6F70,0x1,0x2,0x3)");
    /// ```
    #[derive(Clone, Copy)]
    pub struct Infiniband {
        /// Flags of the resource. Bit 0 is clear for an I/O controller and set for a service. Bits 1 to 4
        /// mean an extension of the boot environment, a console, storage and a network.
        pub resource_flags: u32,
        /// The bytes of the global identifier of the remote fabric port.
        pub port_gid: [u8; 16],
        /// The GUID of the I/O controller, or the identifier of the service.
        pub ioc_guid_or_service_id: u64,
        /// The persistent identifier of the remote port.
        pub target_port_id: u64,
        /// The persistent identifier of the remote device.
        pub device_id: u64,
    }

    /// Builds the node from its fields.
    impl Fields for Infiniband {
        type Layout = super::Infiniband<'static>;

        type Tail = ();

        ghost fields = { λ n. number infiniband.RESOURCE_FLAGS n.resource_flags ∷
            bytes infiniband.PORT_GID n.port_gid ∷
            number infiniband.IOC_GUID_OR_SERVICE_ID n.ioc_guid_or_service_id ∷
            number infiniband.TARGET_PORT_ID n.target_port_id ∷
            number infiniband.DEVICE_ID n.device_id ∷ [] };

        fn tail(self) {}

        fn put(&self, content: &mut [u8]) {
            put(content, infiniband::RESOURCE_FLAGS, self.resource_flags);
            put_bytes(content, infiniband::PORT_GID, &self.port_gid);
            put(
                content,
                infiniband::IOC_GUID_OR_SERVICE_ID,
                self.ioc_guid_or_service_id,
            );
            put(content, infiniband::TARGET_PORT_ID, self.target_port_id);
            put(content, infiniband::DEVICE_ID, self.device_id);
        }
    }

    /// An iSCSI target.
    ///
    /// ```rust
    /// let mut path = DevicePathBuf::new(rt.alloc())?;
    /// path.push_node(&messaging::Iscsi {
    ///     protocol: 0, options: 2, logical_unit_number: [0, 1, 0, 0, 0, 0, 0, 0],
    ///     target_portal_group_tag: 1, iscsi_target_name: b"iqn.org:disk" })?;
    /// let text = format!(in rt.alloc(); "{}", path.as_device_path())?;
    /// assert_eq!(rt; text.as_str(), "iSCSI(iqn.org:disk,0x1,0x0001000000000000,CRC32C,None,CHAP_BI,TCP)");
    /// ```
    #[derive(Clone, Copy)]
    pub struct Iscsi<'a> {
        /// The protocol: 0 is TCP.
        pub protocol: u16,
        /// The login options, with bits for digests and authentication.
        pub options: u16,
        /// The bytes of the logical unit number.
        pub logical_unit_number: [u8; 8],
        /// The portal group tag of the target.
        pub target_portal_group_tag: u16,
        /// The bytes of the name of the target.
        pub iscsi_target_name: &'a [u8],
    }

    /// Builds the node from its fields.
    impl<'a> Fields for Iscsi<'a> {
        type Layout = super::Iscsi<'static>;

        type Tail = &'a [u8];

        ghost fields = { λ n. number iscsi.PROTOCOL n.protocol ∷ number iscsi.OPTIONS n.options ∷
            bytes iscsi.LOGICAL_UNIT_NUMBER n.logical_unit_number ∷
            number iscsi.TARGET_PORTAL_GROUP_TAG n.target_portal_group_tag ∷ [] };

        ghost after = { λ n. n.iscsi_target_name.now };

        fn tail(self) -> &'a [u8] {
            self.iscsi_target_name
        }

        fn put(&self, content: &mut [u8]) {
            put(content, iscsi::PROTOCOL, self.protocol);
            put(content, iscsi::OPTIONS, self.options);
            put_bytes(
                content,
                iscsi::LOGICAL_UNIT_NUMBER,
                &self.logical_unit_number,
            );
            put(
                content,
                iscsi::TARGET_PORTAL_GROUP_TAG,
                self.target_portal_group_tag,
            );
        }
    }

    /// A namespace of NVM Express over a network.
    ///
    /// ```rust
    /// let mut path = DevicePathBuf::new(rt.alloc())?;
    /// path.push_node(&messaging::NvmeOfNamespace {
    ///     nidt: 3, nid: *b"abcdefghijklmnop", subsystem_nqn: b"nqn.org:disk\0",
    /// })?;
    /// let text = format!(in rt.alloc(); "{}", path.as_device_path())?;
    /// let data = "036162636465666768696A6B6C6D6E6F706E716E2E6F72673A6469736B00";
    /// assert_eq!(rt; text.as_str(), format!(in rt.alloc(); "Path(3,34,{data})")?.as_str());
    /// ```
    #[derive(Clone, Copy)]
    pub struct NvmeOfNamespace<'a> {
        /// The type of the identifier: 1 is EUI-64, 2 NGUID, 3 UUID.
        pub nidt: u8,
        /// The bytes of the identifier.
        pub nid: [u8; 16],
        /// The qualified name of the subsystem, in UTF-8, with its NUL.
        pub subsystem_nqn: &'a [u8],
    }

    /// Builds the node from its fields.
    impl<'a> Fields for NvmeOfNamespace<'a> {
        type Layout = super::NvmeOfNamespace<'static>;

        type Tail = &'a [u8];

        ghost fields = { λ n. number nvme_of_namespace.NIDT n.nidt ∷ bytes nvme_of_namespace.NID n.nid ∷
            [] };

        ghost after = { λ n. n.subsystem_nqn.now };

        fn tail(self) -> &'a [u8] {
            self.subsystem_nqn
        }

        fn put(&self, content: &mut [u8]) {
            put(content, nvme_of_namespace::NIDT, self.nidt);
            put_bytes(content, nvme_of_namespace::NID, &self.nid);
        }
    }
}
