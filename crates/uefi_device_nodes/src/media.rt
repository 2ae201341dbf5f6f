//! Nodes of type Media (UEFI Specification 2.10, section 10.3.5).
#![tactic(auto, unfolding(crate::specs::NodeViews::file_node, crate::specs::NodeViews::node_of))]

ghost use Rattle.std.specs.Prelude.{◌≡◌, ◌==◌, ◌↔◌, IfOk, IsOk, None, Some, drop, if◌then◌else◌, slice_range, ◌∷◌, []};
ghost use Rattle.std.specs.Result.{result_err};
ghost use Rattle.uefi_device_nodes.specs.Nodes.{first_node};
ghost use Rattle.uefi_device_nodes.specs.FileNodes.{IsFilePath, file_path_refusal};
ghost use Rattle.uefi_device_nodes.specs.TypedNodes.{bytes_from, bytes_in, end_of, number_in};
ghost use Rattle.uefi_text.specs.UnitBytes.{unit_bytes, units_of_bytes};
ghost use Rattle.uefi_text.specs.Views.{items_of, text_of};
ghost use Rattle.uefi_text.specs.Units.{nul_terminated};
ghost use Rattle.uefi_device_nodes.specs.declared.node_table.layouts.media.cd_rom.TheConstants as cd_rom;
ghost use Rattle.uefi_device_nodes.specs.declared.node_table.layouts.media.firmware_file.TheConstants as firmware_file;
ghost use Rattle.uefi_device_nodes.specs.declared.node_table.layouts.media.firmware_volume.TheConstants as firmware_volume;
ghost use Rattle.uefi_device_nodes.specs.declared.node_table.layouts.media.hard_drive.TheConstants as hard_drive;
ghost use Rattle.uefi_device_nodes.specs.declared.node_table.layouts.media.media_vendor.TheConstants as media_vendor;
ghost use Rattle.uefi_device_nodes.specs.declared.node_table.layouts.media.protocol.TheConstants as protocol;
ghost use Rattle.uefi_device_nodes.specs.declared.node_table.layouts.media.ram_disk.TheConstants as ram_disk;
ghost use Rattle.uefi_device_nodes.specs.declared.node_table.layouts.media.relative_offset_range.TheConstants as relative_offset_range;
ghost use Rattle.uefi_device_nodes.specs.NodeFields.{bytes, number};

use crate::errors::NodeConversionError;
use crate::field_texts::guid::Guid;
use crate::node::{DevicePathNode, DeviceSubType, DeviceType};
use crate::node_table::layouts::MEDIA_TYPE;
use crate::node_table::layouts::media::{
    cd_rom, file_path, firmware_file, firmware_volume, hard_drive, media_vendor, protocol,
    ram_disk, relative_offset_range,
};
use crate::typed_node::TypedNode;
use uefi_text::UnalignedSlice;

/// Sub-types of the type [`DeviceType::MEDIA`](crate::DeviceType).
impl DeviceSubType {
    /// A partition.
    pub const MEDIA_HARD_DRIVE: DeviceSubType = DeviceSubType(hard_drive::SUB_TYPE);

    /// A boot entry of a CD-ROM.
    pub const MEDIA_CD_ROM: DeviceSubType = DeviceSubType(cd_rom::SUB_TYPE);

    /// A vendor-defined node.
    pub const MEDIA_VENDOR: DeviceSubType = DeviceSubType(media_vendor::SUB_TYPE);

    /// A file.
    pub const MEDIA_FILE_PATH: DeviceSubType = DeviceSubType(file_path::SUB_TYPE);

    /// A protocol.
    pub const MEDIA_PROTOCOL: DeviceSubType = DeviceSubType(protocol::SUB_TYPE);

    /// A file of a firmware volume.
    pub const MEDIA_PIWG_FIRMWARE_FILE: DeviceSubType = DeviceSubType(firmware_file::SUB_TYPE);

    /// A firmware volume.
    pub const MEDIA_PIWG_FIRMWARE_VOLUME: DeviceSubType = DeviceSubType(firmware_volume::SUB_TYPE);

    /// A range of bytes.
    pub const MEDIA_RELATIVE_OFFSET_RANGE: DeviceSubType = DeviceSubType(
        relative_offset_range::SUB_TYPE,
    );

    /// A RAM disk.
    pub const MEDIA_RAM_DISK: DeviceSubType = DeviceSubType(ram_disk::SUB_TYPE);
}

/// A node that names a file. A contract sees it as `file_node` of it: the node.
#[derive(Clone, Copy)]
pub struct FilePath<'a> {
    node: DevicePathNode<'a>,
    pub ghost is_file_path: { IsFilePath (first_node node.bytes.now) },
}

impl<'a> FilePath<'a> {
    ghost use Rattle.uefi_device_nodes.specs.NodeViews.{node_of, file_node};

    /// Views a node as a node that names a file. Fails with `DifferentType` if its type or its
    /// sub-type is another, and otherwise with `InvalidLength` if its data has an odd number of bytes.
    ///
    /// ```rust
    /// let (node, _) = DevicePathNode::split_first(b"\x04\x04\x0a\0\\\0a\0\0\0")?;
    /// let file = media::FilePath::from_node(node)?;
    /// assert_eq!(rt; file.path_name().to_cstring16(rt.alloc())?.num_chars(), 2);
    /// let (odd, _) = DevicePathNode::split_first(&[4, 4, 5, 0, 0x61])?;
    /// assert_eq!(rt; media::FilePath::from_node(odd).err(), Some(NodeConversionError::InvalidLength));
    /// ```
    pub fn from_node(node: DevicePathNode<'a>) -> Result<Self, NodeConversionError>
        ensures ok { IfOk result (λ path. file_node path ≡ node_of node.entry) }
        ensures accepts { IsOk result ↔ IsFilePath (node_of node.entry) }
        ensures refusal { result_err result ≡ file_path_refusal (node_of node.entry) }
    {
        if node.device_type() != DeviceType::MEDIA
            || node.sub_type() != DeviceSubType::MEDIA_FILE_PATH
        {
            return Err(NodeConversionError::DifferentType);
        }
        if node.data().len() % 2 != 0 {
            return Err(NodeConversionError::InvalidLength);
        }
        Ok(FilePath { node })
    }

    /// Returns the bytes of the name.
    pub(crate) fn data(&self) -> &'a [u8]
        ensures { result.now ≡ (file_node self.now).content }
    {
        self.node.data()
    }

    /// Returns the code units of the name, at any address. [`UnalignedSlice::to_cstr16`] and similar
    /// calls check whether they are a string.
    ///
    /// See [`FilePath::from_node`].
    pub fn path_name(&self) -> UnalignedSlice<'a, u16>
        ensures units { items_of result ≡ units_of_bytes (file_node self.now).content }
        ensures bytes { unit_bytes (items_of result) ≡ (file_node self.now).content }
    {
        UnalignedSlice::from_unit_bytes(self.node.data()).unwrap()
    }
}

/// Converts a node as [`FilePath::from_node`] does.
impl<'a> TryFrom<DevicePathNode<'a>> for FilePath<'a> {
    ghost use Rattle.uefi_device_nodes.specs.NodeViews.{node_of, file_node};

    type Error = NodeConversionError;

    ghost try_from_gives = { λ node result. IfOk result (λ path. file_node path ≡ node_of node)
        × (result_err result ≡ file_path_refusal (node_of node)) };

    fn try_from(node: DevicePathNode<'a>) -> Result<Self, NodeConversionError> {
        Self::from_node(node)
    }
}

/// A partition of a hard drive.
///
/// ```rust
/// let bytes = b"\x04\x01\x2a\0\x01\0\0\0\0\x08\0\0\0\0\0\0\0\x10\0\0\0\0\0\0abcdefghijklmnop\x02\x02";
/// let (node, _) = DevicePathNode::split_first(bytes)?;
/// let disk = media::HardDrive::from_node(node)?;
/// assert_eq!(rt; (disk.partition_number(), disk.partition_start()), (1, 2048));
/// assert_eq!(rt; (disk.partition_size(), disk.partition_format(), disk.signature_type()), (4096, 2, 2));
/// assert_eq!(rt; disk.partition_signature(), *b"abcdefghijklmnop");
/// ```
pub type HardDrive<'a> = TypedNode<'a, MEDIA_TYPE, { hard_drive::SUB_TYPE }, { hard_drive::LEAST }>;

impl<'a> HardDrive<'a> {
    ghost use Rattle.uefi_device_nodes.specs.NodeViews.{data_of};

    /// Returns the number of the partition, counted from 1, or 0 for the whole drive.
    pub fn partition_number(&self) -> u32
        ensures { result ≡ number_in hard_drive.PARTITION_NUMBER (data_of self.now) }
    {
        self.number(hard_drive::PARTITION_NUMBER)
    }

    /// Returns the first block of the partition.
    pub fn partition_start(&self) -> u64
        ensures { result ≡ number_in hard_drive.PARTITION_START (data_of self.now) }
    {
        self.number(hard_drive::PARTITION_START)
    }

    /// Returns the number of its blocks.
    pub fn partition_size(&self) -> u64
        ensures { result ≡ number_in hard_drive.PARTITION_SIZE (data_of self.now) }
    {
        self.number(hard_drive::PARTITION_SIZE)
    }

    /// Returns the signature, whose type is [`HardDrive::signature_type`].
    pub fn partition_signature(&self) -> [u8; 16]
        ensures { result ≡ bytes_in hard_drive.PARTITION_SIGNATURE (data_of self.now) }
    {
        self.bytes(hard_drive::PARTITION_SIGNATURE)
    }

    /// Returns the format of the partition table: 1 is MBR, 2 is GPT.
    pub fn partition_format(&self) -> u8
        ensures { result ≡ number_in hard_drive.PARTITION_FORMAT (data_of self.now) }
    {
        self.number(hard_drive::PARTITION_FORMAT)
    }

    /// Returns the type of the signature: 0 is none, 1 an MBR signature, 2 a GUID.
    pub fn signature_type(&self) -> u8
        ensures { result ≡ number_in hard_drive.SIGNATURE_TYPE (data_of self.now) }
    {
        self.number(hard_drive::SIGNATURE_TYPE)
    }

    /// Returns the GUID that names the partition, which is its signature if
    /// [`HardDrive::signature_type`] is 2, and `None` otherwise.
    ///
    /// ```rust
    /// let mut bytes = [7; 42];
    /// bytes[..4].copy_from_slice(&[4, 1, 42, 0]);
    /// bytes[41] = 2;
    /// let (node, _) = DevicePathNode::split_first(&bytes)?;
    /// let guid = media::HardDrive::from_node(node)?.partition_guid();
    /// assert_eq!(rt; guid, Some(Guid::from_bytes([7; 16])));
    /// ```
    pub fn partition_guid(&self) -> Option<Guid>
        ensures { result ≡ (if number_in hard_drive.SIGNATURE_TYPE (data_of self.now) == 2
            then Some (bytes_in hard_drive.PARTITION_SIGNATURE (data_of self.now)) else None) }
    {
        if self.signature_type() == 2 {
            Some(Guid::from_bytes(self.partition_signature()))
        } else {
            None
        }
    }
}

/// A boot entry of a CD-ROM.
///
/// ```rust
/// let bytes = b"\x04\x02\x18\0\x01\0\0\0-\0\0\0\0\0\0\0\0\x08\0\0\0\0\0\0";
/// let (node, _) = DevicePathNode::split_first(bytes)?;
/// let disc = media::CdRom::from_node(node)?;
/// assert_eq!(rt; disc.boot_entry(), 1);
/// assert_eq!(rt; (disc.partition_start(), disc.partition_size()), (0x2d, 0x800));
/// ```
pub type CdRom<'a> = TypedNode<'a, MEDIA_TYPE, { cd_rom::SUB_TYPE }, { cd_rom::LEAST }>;

impl<'a> CdRom<'a> {
    ghost use Rattle.uefi_device_nodes.specs.NodeViews.{data_of};

    /// Returns the number of the entry in the boot catalog.
    pub fn boot_entry(&self) -> u32
        ensures { result ≡ number_in cd_rom.BOOT_ENTRY (data_of self.now) }
    {
        self.number(cd_rom::BOOT_ENTRY)
    }

    /// Returns the first block.
    pub fn partition_start(&self) -> u64
        ensures { result ≡ number_in cd_rom.PARTITION_START (data_of self.now) }
    {
        self.number(cd_rom::PARTITION_START)
    }

    /// Returns the number of its blocks.
    pub fn partition_size(&self) -> u64
        ensures { result ≡ number_in cd_rom.PARTITION_SIZE (data_of self.now) }
    {
        self.number(cd_rom::PARTITION_SIZE)
    }
}

/// A vendor-defined node, identified by a GUID.
///
/// ```rust
/// let (node, _) = DevicePathNode::split_first(b"\x04\x03\x16\0abcdefghijklmnop\x01\x02")?;
/// let vendor = media::MediaVendor::from_node(node)?;
/// assert_eq!(rt; vendor.vendor_guid(), Guid::from_bytes(*b"abcdefghijklmnop"));
/// assert_eq!(rt; vendor.vendor_defined_data(), [1, 2].as_slice());
/// ```
pub type MediaVendor<'a> = TypedNode<
    'a,
    MEDIA_TYPE,
    { media_vendor::SUB_TYPE },
    { media_vendor::LEAST },
>;

/// [`MediaVendor`], under its name in the Rust crate `uefi`.
pub type Vendor<'a> = MediaVendor<'a>;

impl<'a> MediaVendor<'a> {
    ghost use Rattle.uefi_device_nodes.specs.NodeViews.{data_of};

    /// Returns the GUID that names the vendor.
    pub fn vendor_guid(&self) -> Guid
        ensures { result ≡ bytes_in media_vendor.VENDOR_GUID (data_of self.now) }
    {
        self.guid_in(media_vendor::VENDOR_GUID)
    }

    /// Returns the data that the vendor defines.
    pub fn vendor_defined_data(&self) -> &'a [u8]
        ensures { result.now ≡ bytes_from media_vendor.VENDOR_DEFINED_DATA (data_of self.now) }
    {
        self.tail(media_vendor::VENDOR_DEFINED_DATA)
    }
}

/// A protocol of the firmware.
///
/// ```rust
/// let (node, _) = DevicePathNode::split_first(b"\x04\x05\x14\0abcdefghijklmnop")?;
/// let protocol = media::Protocol::from_node(node)?;
/// assert_eq!(rt; protocol.protocol_guid(), Guid::from_bytes(*b"abcdefghijklmnop"));
/// ```
pub type Protocol<'a> = TypedNode<'a, MEDIA_TYPE, { protocol::SUB_TYPE }, { protocol::LEAST }>;

impl<'a> Protocol<'a> {
    ghost use Rattle.uefi_device_nodes.specs.NodeViews.{data_of};

    /// Returns the GUID that names the protocol.
    pub fn protocol_guid(&self) -> Guid
        ensures { result ≡ bytes_in protocol.PROTOCOL_GUID (data_of self.now) }
    {
        self.guid_in(protocol::PROTOCOL_GUID)
    }
}

/// A file of a firmware volume.
///
/// ```rust
/// let (node, _) = DevicePathNode::split_first(b"\x04\x06\x14\0abcdefghijklmnop")?;
/// let file = media::FirmwareFile::from_node(node)?;
/// assert_eq!(rt; file.file_name(), Guid::from_bytes(*b"abcdefghijklmnop"));
/// ```
pub type FirmwareFile<'a> = TypedNode<
    'a,
    MEDIA_TYPE,
    { firmware_file::SUB_TYPE },
    { firmware_file::LEAST },
>;

/// [`FirmwareFile`], under its name in the Rust crate `uefi`.
pub type PiwgFirmwareFile<'a> = FirmwareFile<'a>;

impl<'a> FirmwareFile<'a> {
    ghost use Rattle.uefi_device_nodes.specs.NodeViews.{data_of};

    /// Returns the GUID that names the file.
    pub fn file_name(&self) -> Guid
        ensures { result ≡ bytes_in firmware_file.FILE_NAME (data_of self.now) }
    {
        self.guid_in(firmware_file::FILE_NAME)
    }
}

/// A firmware volume.
///
/// ```rust
/// let (node, _) = DevicePathNode::split_first(b"\x04\x07\x14\0abcdefghijklmnop")?;
/// let volume = media::FirmwareVolume::from_node(node)?;
/// assert_eq!(rt; volume.volume_name(), Guid::from_bytes(*b"abcdefghijklmnop"));
/// ```
pub type FirmwareVolume<'a> = TypedNode<
    'a,
    MEDIA_TYPE,
    { firmware_volume::SUB_TYPE },
    { firmware_volume::LEAST },
>;

/// [`FirmwareVolume`], under its name in the Rust crate `uefi`.
pub type PiwgFirmwareVolume<'a> = FirmwareVolume<'a>;

impl<'a> FirmwareVolume<'a> {
    ghost use Rattle.uefi_device_nodes.specs.NodeViews.{data_of};

    /// Returns the GUID that names the volume.
    pub fn volume_name(&self) -> Guid
        ensures { result ≡ bytes_in firmware_volume.VOLUME_NAME (data_of self.now) }
    {
        self.guid_in(firmware_volume::VOLUME_NAME)
    }
}

/// A range of bytes of the medium before it.
///
/// ```rust
/// let bytes = b"\x04\x08\x18\0\0\0\0\0\0\x02\0\0\0\0\0\0\xff\x03\0\0\0\0\0\0";
/// let (node, _) = DevicePathNode::split_first(bytes)?;
/// let range = media::RelativeOffsetRange::from_node(node)?;
/// assert_eq!(rt; (range.starting_offset(), range.ending_offset()), (0x200, 0x3ff));
/// ```
pub type RelativeOffsetRange<'a> = TypedNode<
    'a,
    MEDIA_TYPE,
    { relative_offset_range::SUB_TYPE },
    { relative_offset_range::LEAST },
>;

impl<'a> RelativeOffsetRange<'a> {
    ghost use Rattle.uefi_device_nodes.specs.NodeViews.{data_of};

    /// Returns the offset of its first byte.
    pub fn starting_offset(&self) -> u64
        ensures { result ≡ number_in relative_offset_range.STARTING_OFFSET (data_of self.now) }
    {
        self.number(relative_offset_range::STARTING_OFFSET)
    }

    /// Returns the offset of its last byte.
    pub fn ending_offset(&self) -> u64
        ensures { result ≡ number_in relative_offset_range.ENDING_OFFSET (data_of self.now) }
    {
        self.number(relative_offset_range::ENDING_OFFSET)
    }
}

/// A RAM disk.
///
/// ```rust
/// let bytes = b"\x04\x09\x26\0\0\0\x10\0\0\0\0\0\xff\xff\x1f\0\0\0\0\0abcdefghijklmnop\x01\0";
/// let (node, _) = DevicePathNode::split_first(bytes)?;
/// let disk = media::RamDisk::from_node(node)?;
/// assert_eq!(rt; (disk.starting_address(), disk.ending_address()), (0x10_0000, 0x1f_ffff));
/// assert_eq!(rt; (disk.disk_type(), disk.disk_instance()), (Guid::from_bytes(*b"abcdefghijklmnop"), 1));
/// ```
pub type RamDisk<'a> = TypedNode<'a, MEDIA_TYPE, { ram_disk::SUB_TYPE }, { ram_disk::LEAST }>;

impl<'a> RamDisk<'a> {
    ghost use Rattle.uefi_device_nodes.specs.NodeViews.{data_of};

    /// Returns the address of its first byte.
    pub fn starting_address(&self) -> u64
        ensures { result ≡ number_in ram_disk.STARTING_ADDRESS (data_of self.now) }
    {
        self.number(ram_disk::STARTING_ADDRESS)
    }

    /// Returns the address of its last byte.
    pub fn ending_address(&self) -> u64
        ensures { result ≡ number_in ram_disk.ENDING_ADDRESS (data_of self.now) }
    {
        self.number(ram_disk::ENDING_ADDRESS)
    }

    /// Returns the GUID of its type.
    pub fn disk_type(&self) -> Guid
        ensures { result ≡ bytes_in ram_disk.DISK_TYPE (data_of self.now) }
    {
        self.guid_in(ram_disk::DISK_TYPE)
    }

    /// Returns the number of the disk.
    pub fn disk_instance(&self) -> u16
        ensures { result ≡ number_in ram_disk.DISK_INSTANCE (data_of self.now) }
    {
        self.number(ram_disk::DISK_INSTANCE)
    }
}

/// The structs from which these nodes are built.
pub mod build {
    use crate::field_texts::guid::Guid;
    use crate::fields::{Fields, put, put_bytes};
    use crate::node_table::layouts::MEDIA_TYPE;
    use crate::node_table::layouts::media::{
        cd_rom, file_path, firmware_file, firmware_volume, hard_drive, media_vendor, protocol,
        ram_disk, relative_offset_range,
    };
    use crate::typed_node::TypedNode;
    use crate::vendor::VendorNode;
    use uefi_text::CStr16;

    /// A partition of a hard drive.
    ///
    /// ```rust
    /// let mut path = DevicePathBuf::new(rt.alloc())?;
    /// path.push_node(&media::HardDrive {
    ///     partition_number: 1, partition_start: 2048, partition_size: 4096,
    ///     partition_signature: *b"abcdefghijklmnop", partition_format: 2, signature_type: 2 })?;
    /// let text = format!(in rt.alloc(); "{}", path.as_device_path())?;
    /// assert_eq!(rt; text.as_str(), "HD(1,GPT,64636261-6665-6867-696A-6B6C6D6E6F70,0x800,0x1000)");
    /// ```
    #[derive(Clone, Copy)]
    pub struct HardDrive {
        /// The number of the partition, counted from 1, or 0 for the whole drive.
        pub partition_number: u32,
        /// The first block of the partition.
        pub partition_start: u64,
        /// The number of its blocks.
        pub partition_size: u64,
        /// The signature, whose type is `signature_type`.
        pub partition_signature: [u8; 16],
        /// The format of the partition table: 1 is MBR, 2 is GPT.
        pub partition_format: u8,
        /// The type of the signature: 0 is none, 1 an MBR signature, 2 a GUID.
        pub signature_type: u8,
    }

    /// Builds the node from its fields.
    impl Fields for HardDrive {
        type Layout = super::HardDrive<'static>;

        type Tail = ();

        ghost fields = { λ n. number hard_drive.PARTITION_NUMBER n.partition_number ∷
            number hard_drive.PARTITION_START n.partition_start ∷
            number hard_drive.PARTITION_SIZE n.partition_size ∷
            bytes hard_drive.PARTITION_SIGNATURE n.partition_signature ∷
            number hard_drive.PARTITION_FORMAT n.partition_format ∷
            number hard_drive.SIGNATURE_TYPE n.signature_type ∷ [] };

        fn tail(self) {}

        fn put(&self, content: &mut [u8]) {
            put(content, hard_drive::PARTITION_NUMBER, self.partition_number);
            put(content, hard_drive::PARTITION_START, self.partition_start);
            put(content, hard_drive::PARTITION_SIZE, self.partition_size);
            put_bytes(
                content,
                hard_drive::PARTITION_SIGNATURE,
                &self.partition_signature,
            );
            put(content, hard_drive::PARTITION_FORMAT, self.partition_format);
            put(content, hard_drive::SIGNATURE_TYPE, self.signature_type);
        }
    }

    /// A boot entry of a CD-ROM.
    ///
    /// ```rust
    /// let mut path = DevicePathBuf::new(rt.alloc())?;
    /// path.push_node(&media::CdRom { boot_entry: 1, partition_start: 0x2d, partition_size: 0x800 })?;
    /// let text = format!(in rt.alloc(); "{}", path.as_device_path())?;
    /// assert_eq!(rt; text.as_str(), "CDROM(0x1,0x2D,0x800)");
    /// ```
    #[derive(Clone, Copy)]
    pub struct CdRom {
        /// The number of the entry in the boot catalog.
        pub boot_entry: u32,
        /// The first block.
        pub partition_start: u64,
        /// The number of its blocks.
        pub partition_size: u64,
    }

    /// Builds the node from its fields.
    impl Fields for CdRom {
        type Layout = super::CdRom<'static>;

        type Tail = ();

        ghost fields = { λ n. number cd_rom.BOOT_ENTRY n.boot_entry ∷
            number cd_rom.PARTITION_START n.partition_start ∷
            number cd_rom.PARTITION_SIZE n.partition_size ∷ [] };

        fn tail(self) {}

        fn put(&self, content: &mut [u8]) {
            put(content, cd_rom::BOOT_ENTRY, self.boot_entry);
            put(content, cd_rom::PARTITION_START, self.partition_start);
            put(content, cd_rom::PARTITION_SIZE, self.partition_size);
        }
    }

    /// A vendor-defined node, identified by a GUID.
    ///
    /// ```rust
    /// let mut path = DevicePathBuf::new(rt.alloc())?;
    /// path.push_node(&media::Vendor {
    ///     vendor_guid: Guid::from_bytes(*b"abcdefghijklmnop"), vendor_defined_data: &[1, 2],
    /// })?;
    /// let text = format!(in rt.alloc(); "{}", path.as_device_path())?;
    /// assert_eq!(rt; text.as_str(), "VenMedia(64636261-6665-6867-696A-6B6C6D6E6F70,0102)");
    /// ```
    pub type Vendor<'a> = VendorNode<'a, MEDIA_TYPE, { media_vendor::SUB_TYPE }>;

    /// A file.
    ///
    /// ```rust
    /// let name = CString16::try_from_str(rt.alloc(), r"\efi\a.efi")?;
    /// let mut path = DevicePathBuf::new(rt.alloc())?;
    /// path.push_node(&media::FilePath { path_name: name.as_cstr16() })?;
    /// let text = format!(in rt.alloc(); "{}", path.as_device_path())?;
    /// assert_eq!(rt; text.as_str(), r"\efi\a.efi");
    /// ```
    #[derive(Clone, Copy)]
    pub struct FilePath<'a> {
        /// The name. The node contains it with its NUL.
        pub path_name: CStr16<'a>,
    }

    /// Builds the node from its fields.
    impl<'a> Fields for FilePath<'a> {
        type Layout = TypedNode<'static, MEDIA_TYPE, { file_path::SUB_TYPE }, 0>;

        type Tail = CStr16<'a>;

        ghost fields = { λ n. [] };

        ghost after = { λ n. unit_bytes (nul_terminated (text_of n.path_name)) };

        fn tail(self) -> CStr16<'a> {
            self.path_name
        }

        fn put(&self, content: &mut [u8]) {}
    }

    /// A protocol of the firmware.
    ///
    /// ```rust
    /// let mut path = DevicePathBuf::new(rt.alloc())?;
    /// path.push_node(&media::Protocol { protocol_guid: Guid::from_bytes(*b"abcdefghijklmnop") })?;
    /// let text = format!(in rt.alloc(); "{}", path.as_device_path())?;
    /// assert_eq!(rt; text.as_str(), "Media(64636261-6665-6867-696A-6B6C6D6E6F70)");
    /// ```
    #[derive(Clone, Copy)]
    pub struct Protocol {
        /// The GUID that names the protocol.
        pub protocol_guid: Guid,
    }

    /// Builds the node from its fields.
    impl Fields for Protocol {
        type Layout = super::Protocol<'static>;

        type Tail = ();

        ghost fields = { λ n. bytes protocol.PROTOCOL_GUID n.protocol_guid ∷ [] };

        fn tail(self) {
            let _bytes = self.protocol_guid.to_bytes();
        }

        fn put(&self, content: &mut [u8]) {
            put_bytes(
                content,
                protocol::PROTOCOL_GUID,
                &self.protocol_guid.to_bytes(),
            );
        }
    }

    /// A file of a firmware volume.
    ///
    /// ```rust
    /// let mut path = DevicePathBuf::new(rt.alloc())?;
    /// path.push_node(&media::PiwgFirmwareFile { file_name: Guid::from_bytes(*b"abcdefghijklmnop") })?;
    /// let text = format!(in rt.alloc(); "{}", path.as_device_path())?;
    /// assert_eq!(rt; text.as_str(), "FvFile(64636261-6665-6867-696A-6B6C6D6E6F70)");
    /// ```
    #[derive(Clone, Copy)]
    pub struct PiwgFirmwareFile {
        /// The GUID that names the file.
        pub file_name: Guid,
    }

    /// Builds the node from its fields.
    impl Fields for PiwgFirmwareFile {
        type Layout = super::FirmwareFile<'static>;

        type Tail = ();

        ghost fields = { λ n. bytes firmware_file.FILE_NAME n.file_name ∷ [] };

        fn tail(self) {
            let _bytes = self.file_name.to_bytes();
        }

        fn put(&self, content: &mut [u8]) {
            put_bytes(
                content,
                firmware_file::FILE_NAME,
                &self.file_name.to_bytes(),
            );
        }
    }

    /// A firmware volume.
    ///
    /// ```rust
    /// let mut path = DevicePathBuf::new(rt.alloc())?;
    /// path.push_node(&media::PiwgFirmwareVolume { volume_name: Guid::from_bytes(*b"abcdefghijklmnop") })?;
    /// let text = format!(in rt.alloc(); "{}", path.as_device_path())?;
    /// assert_eq!(rt; text.as_str(), "Fv(64636261-6665-6867-696A-6B6C6D6E6F70)");
    /// ```
    #[derive(Clone, Copy)]
    pub struct PiwgFirmwareVolume {
        /// The GUID that names the volume.
        pub volume_name: Guid,
    }

    /// Builds the node from its fields.
    impl Fields for PiwgFirmwareVolume {
        type Layout = super::FirmwareVolume<'static>;

        type Tail = ();

        ghost fields = { λ n. bytes firmware_volume.VOLUME_NAME n.volume_name ∷ [] };

        fn tail(self) {
            let _bytes = self.volume_name.to_bytes();
        }

        fn put(&self, content: &mut [u8]) {
            put_bytes(
                content,
                firmware_volume::VOLUME_NAME,
                &self.volume_name.to_bytes(),
            );
        }
    }

    /// A range of bytes of the medium before it.
    ///
    /// ```rust
    /// let mut path = DevicePathBuf::new(rt.alloc())?;
    /// path.push_node(&media::RelativeOffsetRange { starting_offset: 0x200, ending_offset: 0x3ff })?;
    /// let text = format!(in rt.alloc(); "{}", path.as_device_path())?;
    /// assert_eq!(rt; text.as_str(), "Offset(0x200,0x3FF)");
    /// ```
    #[derive(Clone, Copy)]
    pub struct RelativeOffsetRange {
        /// The offset of its first byte.
        pub starting_offset: u64,
        /// The offset of its last byte.
        pub ending_offset: u64,
    }

    /// Builds the node from its fields.
    impl Fields for RelativeOffsetRange {
        type Layout = super::RelativeOffsetRange<'static>;

        type Tail = ();

        ghost fields = { λ n. number relative_offset_range.STARTING_OFFSET n.starting_offset ∷
            number relative_offset_range.ENDING_OFFSET n.ending_offset ∷ [] };

        fn tail(self) {}

        fn put(&self, content: &mut [u8]) {
            put(
                content,
                relative_offset_range::STARTING_OFFSET,
                self.starting_offset,
            );
            put(
                content,
                relative_offset_range::ENDING_OFFSET,
                self.ending_offset,
            );
        }
    }

    /// A RAM disk.
    ///
    /// ```rust
    /// let mut path = DevicePathBuf::new(rt.alloc())?;
    /// path.push_node(&media::RamDisk {
    ///     starting_address: 0x10_0000, ending_address: 0x1f_ffff,
    ///     disk_type: Guid::from_bytes(*b"abcdefghijklmnop"), disk_instance: 1 })?;
    /// let text = format!(in rt.alloc(); "{}", path.as_device_path())?;
    /// assert_eq!(rt; text.as_str(), "RamDisk(0x100000,0x1FFFFF,1,64636261-6665-6867-696A-6B6C6D6E6F70)");
    /// ```
    #[derive(Clone, Copy)]
    pub struct RamDisk {
        /// The address of its first byte.
        pub starting_address: u64,
        /// The address of its last byte.
        pub ending_address: u64,
        /// The GUID of its type.
        pub disk_type: Guid,
        /// The number of the disk.
        pub disk_instance: u16,
    }

    /// Builds the node from its fields.
    impl Fields for RamDisk {
        type Layout = super::RamDisk<'static>;

        type Tail = ();

        ghost fields = { λ n. number ram_disk.STARTING_ADDRESS n.starting_address ∷
            number ram_disk.ENDING_ADDRESS n.ending_address ∷ bytes ram_disk.DISK_TYPE n.disk_type ∷
            number ram_disk.DISK_INSTANCE n.disk_instance ∷ [] };

        fn tail(self) {
            let _bytes = self.disk_type.to_bytes();
        }

        fn put(&self, content: &mut [u8]) {
            put(content, ram_disk::STARTING_ADDRESS, self.starting_address);
            put(content, ram_disk::ENDING_ADDRESS, self.ending_address);
            put_bytes(content, ram_disk::DISK_TYPE, &self.disk_type.to_bytes());
            put(content, ram_disk::DISK_INSTANCE, self.disk_instance);
        }
    }
}
