//! Nodes of type Messaging that reach flash memory and persistent memory (UEFI Specification 2.10, section
//! 10.3.4).
#![tactic(auto)]

ghost use Rattle.std.specs.Prelude.{◌≡◌, ◌∷◌, []};
ghost use Rattle.uefi_device_nodes.specs.TypedNodes.{bytes_in, number_in};
ghost use Rattle.uefi_device_nodes.specs.NodeViews.{data_of};
ghost use Rattle.uefi_device_nodes.specs.declared.node_table.layouts.messaging.emmc.TheConstants as emmc;
ghost use Rattle.uefi_device_nodes.specs.declared.node_table.layouts.messaging.nvdimm_namespace.TheConstants as nvdimm_namespace;
ghost use Rattle.uefi_device_nodes.specs.declared.node_table.layouts.messaging.nvme_namespace.TheConstants as nvme_namespace;
ghost use Rattle.uefi_device_nodes.specs.declared.node_table.layouts.messaging.sd.TheConstants as sd;
ghost use Rattle.uefi_device_nodes.specs.declared.node_table.layouts.messaging.ufs.TheConstants as ufs;
ghost use Rattle.uefi_device_nodes.specs.NodeFields.{bytes, number};

use crate::field_texts::guid::Guid;
use crate::node::DeviceSubType;
use crate::node_table::layouts::MESSAGING_TYPE;
use crate::node_table::layouts::messaging::{emmc, nvdimm_namespace, nvme_namespace, sd, ufs};
use crate::typed_node::TypedNode;

/// Sub-types of the type [`DeviceType::MESSAGING`](crate::DeviceType).
impl DeviceSubType {
    /// A namespace of an NVMe drive.
    pub const MESSAGING_NVME_NAMESPACE: DeviceSubType = DeviceSubType(nvme_namespace::SUB_TYPE);

    /// A device on UFS.
    pub const MESSAGING_UFS: DeviceSubType = DeviceSubType(ufs::SUB_TYPE);

    /// An SD card.
    pub const MESSAGING_SD: DeviceSubType = DeviceSubType(sd::SUB_TYPE);

    /// An eMMC device.
    pub const MESSAGING_EMMC: DeviceSubType = DeviceSubType(emmc::SUB_TYPE);

    /// A namespace of a persistent memory module.
    pub const MESSAGING_NVDIMM_NAMESPACE: DeviceSubType = DeviceSubType(nvdimm_namespace::SUB_TYPE);
}

/// A namespace of NVM Express.
///
/// ```rust
/// let (node, _) = DevicePathNode::split_first(b"\x03\x17\x10\0\x01\0\0\0\x07\0\0\0\xb1\x38\x25\0")?;
/// let disk = messaging::NvmeNamespace::from_node(node)?;
/// assert_eq!(rt; disk.namespace_identifier(), 1);
/// assert_eq!(rt; disk.ieee_extended_unique_identifier(), 0x0025_38b1_0000_0007);
/// ```
pub type NvmeNamespace<'a> = TypedNode<
    'a,
    MESSAGING_TYPE,
    { nvme_namespace::SUB_TYPE },
    { nvme_namespace::LEAST },
>;

impl<'a> NvmeNamespace<'a> {
    /// Returns the number of the namespace.
    pub fn namespace_identifier(&self) -> u32
        ensures { result ≡ number_in nvme_namespace.NAMESPACE_IDENTIFIER (data_of self.now) }
    {
        self.number(nvme_namespace::NAMESPACE_IDENTIFIER)
    }

    /// Returns the extended unique identifier, EUI-64.
    pub fn ieee_extended_unique_identifier(&self) -> u64
        ensures { result ≡ number_in nvme_namespace.IEEE_EXTENDED_UNIQUE_IDENTIFIER (data_of self.now) }
    {
        self.number(nvme_namespace::IEEE_EXTENDED_UNIQUE_IDENTIFIER)
    }
}

/// A device on UFS.
///
/// ```rust
/// let (node, _) = DevicePathNode::split_first(&[3, 0x19, 6, 0, 0, 1])?;
/// let disk = messaging::Ufs::from_node(node)?;
/// assert_eq!(rt; (disk.target_id(), disk.logical_unit_number()), (0, 1));
/// ```
pub type Ufs<'a> = TypedNode<'a, MESSAGING_TYPE, { ufs::SUB_TYPE }, { ufs::LEAST }>;

impl<'a> Ufs<'a> {
    /// Returns the number of the target on its bus.
    pub fn target_id(&self) -> u8
        ensures { result ≡ number_in ufs.TARGET_ID (data_of self.now) }
    {
        self.number(ufs::TARGET_ID)
    }

    /// Returns the logical unit number.
    pub fn logical_unit_number(&self) -> u8
        ensures { result ≡ number_in ufs.LOGICAL_UNIT_NUMBER (data_of self.now) }
    {
        self.number(ufs::LOGICAL_UNIT_NUMBER)
    }
}

/// An SD card.
///
/// ```rust
/// let (node, _) = DevicePathNode::split_first(&[3, 0x1a, 5, 0, 1])?;
/// let card = messaging::Sd::from_node(node)?;
/// assert_eq!(rt; card.slot_number(), 1);
/// ```
pub type Sd<'a> = TypedNode<'a, MESSAGING_TYPE, { sd::SUB_TYPE }, { sd::LEAST }>;

impl<'a> Sd<'a> {
    /// Returns the number of the slot.
    pub fn slot_number(&self) -> u8
        ensures { result ≡ number_in sd.SLOT_NUMBER (data_of self.now) }
    {
        self.number(sd::SLOT_NUMBER)
    }
}

/// An eMMC card.
///
/// ```rust
/// let (node, _) = DevicePathNode::split_first(&[3, 0x1d, 5, 0, 2])?;
/// let card = messaging::Emmc::from_node(node)?;
/// assert_eq!(rt; card.slot_number(), 2);
/// ```
pub type Emmc<'a> = TypedNode<'a, MESSAGING_TYPE, { emmc::SUB_TYPE }, { emmc::LEAST }>;

impl<'a> Emmc<'a> {
    /// Returns the number of the slot.
    pub fn slot_number(&self) -> u8
        ensures { result ≡ number_in emmc.SLOT_NUMBER (data_of self.now) }
    {
        self.number(emmc::SLOT_NUMBER)
    }
}

/// A namespace of a persistent memory module.
///
/// ```rust
/// let (node, _) = DevicePathNode::split_first(b"\x03\x20\x14\0abcdefghijklmnop")?;
/// let disk = messaging::NvdimmNamespace::from_node(node)?;
/// assert_eq!(rt; disk.uuid(), Guid::from_bytes(*b"abcdefghijklmnop"));
/// ```
pub type NvdimmNamespace<'a> = TypedNode<
    'a,
    MESSAGING_TYPE,
    { nvdimm_namespace::SUB_TYPE },
    { nvdimm_namespace::LEAST },
>;

impl<'a> NvdimmNamespace<'a> {
    /// Returns the UUID that labels the namespace.
    pub fn uuid(&self) -> Guid
        ensures { result ≡ bytes_in nvdimm_namespace.UUID (data_of self.now) }
    {
        self.guid_in(nvdimm_namespace::UUID)
    }
}

/// The structs from which these nodes are built.
pub mod build {
    use crate::field_texts::guid::Guid;
    use crate::fields::{Fields, put, put_bytes};
    use crate::node_table::layouts::messaging::{emmc, nvdimm_namespace, nvme_namespace, sd, ufs};

    /// A namespace of NVM Express.
    ///
    /// ```rust
    /// let mut path = DevicePathBuf::new(rt.alloc())?;
    /// path.push_node(&messaging::NvmeNamespace {
    ///     namespace_identifier: 1, ieee_extended_unique_identifier: 0x0025_38b1_0000_0007,
    /// })?;
    /// let text = format!(in rt.alloc(); "{}", path.as_device_path())?;
    /// assert_eq!(rt; text.as_str(), "NVMe(0x1,00-25-38-B1-00-00-00-07)");
    /// ```
    #[derive(Clone, Copy)]
    pub struct NvmeNamespace {
        /// The number of the namespace.
        pub namespace_identifier: u32,
        /// The extended unique identifier, EUI-64.
        pub ieee_extended_unique_identifier: u64,
    }

    /// Builds the node from its fields.
    impl Fields for NvmeNamespace {
        type Layout = super::NvmeNamespace<'static>;

        type Tail = ();

        ghost fields = { λ n. number nvme_namespace.NAMESPACE_IDENTIFIER n.namespace_identifier ∷
            number nvme_namespace.IEEE_EXTENDED_UNIQUE_IDENTIFIER n.ieee_extended_unique_identifier ∷
            [] };

        fn tail(self) {}

        fn put(&self, content: &mut [u8]) {
            put(
                content,
                nvme_namespace::NAMESPACE_IDENTIFIER,
                self.namespace_identifier,
            );
            put(
                content,
                nvme_namespace::IEEE_EXTENDED_UNIQUE_IDENTIFIER,
                self.ieee_extended_unique_identifier,
            );
        }
    }

    /// A device on UFS.
    ///
    /// ```rust
    /// let mut path = DevicePathBuf::new(rt.alloc())?;
    /// path.push_node(&messaging::Ufs { target_id: 0, logical_unit_number: 1 })?;
    /// let text = format!(in rt.alloc(); "{}", path.as_device_path())?;
    /// assert_eq!(rt; text.as_str(), "UFS(0x0,0x1)");
    /// ```
    #[derive(Clone, Copy)]
    pub struct Ufs {
        /// The number of the target on its bus.
        pub target_id: u8,
        /// The logical unit number.
        pub logical_unit_number: u8,
    }

    /// Builds the node from its fields.
    impl Fields for Ufs {
        type Layout = super::Ufs<'static>;

        type Tail = ();

        ghost fields = { λ n. number ufs.TARGET_ID n.target_id ∷
            number ufs.LOGICAL_UNIT_NUMBER n.logical_unit_number ∷ [] };

        fn tail(self) {}

        fn put(&self, content: &mut [u8]) {
            put(content, ufs::TARGET_ID, self.target_id);
            put(content, ufs::LOGICAL_UNIT_NUMBER, self.logical_unit_number);
        }
    }

    /// An SD card.
    ///
    /// ```rust
    /// let mut path = DevicePathBuf::new(rt.alloc())?;
    /// path.push_node(&messaging::Sd { slot_number: 1 })?;
    /// let text = format!(in rt.alloc(); "{}", path.as_device_path())?;
    /// assert_eq!(rt; text.as_str(), "SD(0x1)");
    /// ```
    #[derive(Clone, Copy)]
    pub struct Sd {
        /// The number of the slot.
        pub slot_number: u8,
    }

    /// Builds the node from its fields.
    impl Fields for Sd {
        type Layout = super::Sd<'static>;

        type Tail = ();

        ghost fields = { λ n. number sd.SLOT_NUMBER n.slot_number ∷ [] };

        fn tail(self) {}

        fn put(&self, content: &mut [u8]) {
            put(content, sd::SLOT_NUMBER, self.slot_number);
        }
    }

    /// An eMMC card.
    ///
    /// ```rust
    /// let mut path = DevicePathBuf::new(rt.alloc())?;
    /// path.push_node(&messaging::Emmc { slot_number: 2 })?;
    /// let text = format!(in rt.alloc(); "{}", path.as_device_path())?;
    /// assert_eq!(rt; text.as_str(), "eMMC(0x2)");
    /// ```
    #[derive(Clone, Copy)]
    pub struct Emmc {
        /// The number of the slot.
        pub slot_number: u8,
    }

    /// Builds the node from its fields.
    impl Fields for Emmc {
        type Layout = super::Emmc<'static>;

        type Tail = ();

        ghost fields = { λ n. number emmc.SLOT_NUMBER n.slot_number ∷ [] };

        fn tail(self) {}

        fn put(&self, content: &mut [u8]) {
            put(content, emmc::SLOT_NUMBER, self.slot_number);
        }
    }

    /// A namespace of a persistent memory module.
    ///
    /// ```rust
    /// let mut path = DevicePathBuf::new(rt.alloc())?;
    /// path.push_node(&messaging::NvdimmNamespace { uuid: Guid::from_bytes(*b"abcdefghijklmnop") })?;
    /// let text = format!(in rt.alloc(); "{}", path.as_device_path())?;
    /// assert_eq!(rt; text.as_str(), "Path(3,32,6162636465666768696A6B6C6D6E6F70)");
    /// ```
    #[derive(Clone, Copy)]
    pub struct NvdimmNamespace {
        /// The UUID that labels the namespace.
        pub uuid: Guid,
    }

    /// Builds the node from its fields.
    impl Fields for NvdimmNamespace {
        type Layout = super::NvdimmNamespace<'static>;

        type Tail = ();

        ghost fields = { λ n. bytes nvdimm_namespace.UUID n.uuid ∷ [] };

        fn tail(self) {
            let _bytes = self.uuid.to_bytes();
        }

        fn put(&self, content: &mut [u8]) {
            put_bytes(content, nvdimm_namespace::UUID, &self.uuid.to_bytes());
        }
    }
}
