//! Nodes of type ACPI (UEFI Specification 2.10, section 10.3.3).
#![tactic(auto)]

ghost use Rattle.std.specs.Prelude.{◌≡◌, ◌/◌, drop, length, ◌∷◌, []};
ghost use Rattle.uefi_device_nodes.specs.FieldTexts.{cid_string, hid_string, uid_string};
ghost use Rattle.uefi_device_nodes.specs.TypedNodes.{bytes_from, bytes_in, end_of, number_in};
ghost use Rattle.uefi_text.specs.Packed.{packed_items};
ghost use Rattle.uefi_text.specs.Views.{items_of};
ghost use Rattle.uefi_device_nodes.specs.NodeViews.{data_of};
ghost use Rattle.std.specs.Int.{to_le_bytes, w32};
ghost use Rattle.std.specs.List.{flat_map};
ghost use Rattle.uefi_device_nodes.specs.declared.node_table.layouts.acpi.acpi.TheConstants as acpi;
ghost use Rattle.uefi_device_nodes.specs.declared.node_table.layouts.acpi.adr.TheConstants as adr;
ghost use Rattle.uefi_device_nodes.specs.declared.node_table.layouts.acpi.expanded.TheConstants as expanded;
ghost use Rattle.uefi_device_nodes.specs.declared.node_table.layouts.acpi.nvdimm.TheConstants as nvdimm;
ghost use Rattle.uefi_device_nodes.specs.NodeFields.{number};

use crate::field_texts::ids::id_strings;
use crate::node::DeviceSubType;
use crate::node_table::layouts::ACPI_TYPE;
use crate::node_table::layouts::acpi::{acpi, adr, expanded, nvdimm};
use crate::typed_node::TypedNode;
use uefi_text::UnalignedSlice;

/// Sub-types of the type [`DeviceType::ACPI`](crate::DeviceType).
impl DeviceSubType {
    /// A device with two numbers.
    pub const ACPI: DeviceSubType = DeviceSubType(acpi::SUB_TYPE);

    /// A device with numbers and strings.
    pub const ACPI_EXPANDED: DeviceSubType = DeviceSubType(expanded::SUB_TYPE);

    /// The outputs of a display adapter.
    pub const ACPI_ADR: DeviceSubType = DeviceSubType(adr::SUB_TYPE);

    /// A persistent memory module.
    pub const ACPI_NVDIMM: DeviceSubType = DeviceSubType(nvdimm::SUB_TYPE);
}

/// A device that ACPI names by two numbers.
///
/// ```rust
/// let (node, _) = DevicePathNode::split_first(&[2, 1, 0xc, 0, 0xd0, 0x41, 3, 0xa, 1, 0, 0, 0])?;
/// let root = acpi::Acpi::from_node(node)?;
/// assert_eq!(rt; (root.hid(), root.uid()), (0x0a03_41d0, 1));
/// ```
pub type Acpi<'a> = TypedNode<'a, ACPI_TYPE, { acpi::SUB_TYPE }, { acpi::LEAST }>;

impl<'a> Acpi<'a> {
    /// Returns the number of its hardware ID, `_HID`.
    pub fn hid(&self) -> u32
        ensures { result ≡ number_in acpi.HID (data_of self.now) }
    {
        self.number(acpi::HID)
    }

    /// Returns the number of its unique ID, `_UID`.
    pub fn uid(&self) -> u32
        ensures { result ≡ number_in acpi.UID (data_of self.now) }
    {
        self.number(acpi::UID)
    }
}

/// A device that ACPI names by numbers or by strings.
///
/// ```rust
/// let bytes = b"\x02\x02\x17\0\xd0A\x08\x0a\0\0\0\0\xd0A\x03\x0a\0u\0dev\0";
/// let (node, _) = DevicePathNode::split_first(bytes)?;
/// let device = acpi::Expanded::from_node(node)?;
/// assert_eq!(rt; (device.hid(), device.uid(), device.cid()), (0x0a08_41d0, 0, 0x0a03_41d0));
/// assert_eq!(rt; (device.uid_str(), device.cid_str()), (b"u".as_slice(), b"dev".as_slice()));
/// assert!(rt; device.hid_str().is_empty() && device.id_strings().len() == 7);
/// ```
pub type Expanded<'a> = TypedNode<'a, ACPI_TYPE, { expanded::SUB_TYPE }, { expanded::LEAST }>;

impl<'a> Expanded<'a> {
    /// Returns the number of its hardware ID, `_HID`.
    pub fn hid(&self) -> u32
        ensures { result ≡ number_in expanded.HID (data_of self.now) }
    {
        self.number(expanded::HID)
    }

    /// Returns the number of its unique ID, `_UID`.
    pub fn uid(&self) -> u32
        ensures { result ≡ number_in expanded.UID (data_of self.now) }
    {
        self.number(expanded::UID)
    }

    /// Returns the number of its compatible ID, `_CID`.
    pub fn cid(&self) -> u32
        ensures { result ≡ number_in expanded.CID (data_of self.now) }
    {
        self.number(expanded::CID)
    }

    /// Returns the bytes of the strings of `_HID`, `_UID` and `_CID`, in this order. A NUL ends
    /// each string.
    pub fn id_strings(&self) -> &'a [u8]
        ensures { result.now ≡ bytes_from expanded.ID_STRINGS (data_of self.now) }
    {
        self.tail(expanded::ID_STRINGS)
    }

    /// Returns the string of `_HID`, without its NUL.
    pub fn hid_str(&self) -> &'a [u8]
        ensures { result.now ≡ hid_string (bytes_from expanded.ID_STRINGS (data_of self.now)) }
    {
        id_strings(self.id_strings()).hid
    }

    /// Returns the string of `_UID`, without its NUL. It is empty if the data ends before it.
    pub fn uid_str(&self) -> &'a [u8]
        ensures { result.now ≡ uid_string (bytes_from expanded.ID_STRINGS (data_of self.now)) }
    {
        id_strings(self.id_strings()).uid
    }

    /// Returns the string of `_CID`, without its NUL. It is empty if the data ends before it.
    pub fn cid_str(&self) -> &'a [u8]
        ensures { result.now ≡ cid_string (bytes_from expanded.ID_STRINGS (data_of self.now)) }
    {
        id_strings(self.id_strings()).cid
    }
}

/// The outputs of a display adapter.
///
/// ```rust
/// let (node, _) = DevicePathNode::split_first(&[2, 3, 0xc, 0, 0, 4, 1, 0x80, 0, 3, 1, 0x80])?;
/// let outputs = acpi::Adr::from_node(node)?;
/// assert_eq!(rt; outputs.adr().len(), 2);
/// assert_eq!(rt; outputs.adr().get(1), Some(0x8001_0300));
/// ```
pub type Adr<'a> = TypedNode<'a, ACPI_TYPE, { adr::SUB_TYPE }, { adr::LEAST }>;

impl<'a> Adr<'a> {
    /// Returns the `_ADR` values of the outputs, at least one. Bytes after the last whole value are
    /// ignored.
    pub fn adr(&self) -> UnalignedSlice<'a, u32>
        ensures { items_of result
            ≡ packed_items adr.ADR.width (length (data_of self.now) / adr.ADR.width) (data_of self.now) }
    {
        let values = self.data();
        UnalignedSlice::new(values, values.len() / adr::ADR.width)
    }
}

/// A persistent memory module.
///
/// ```rust
/// let (node, _) = DevicePathNode::split_first(&[2, 4, 8, 0, 0x21, 0, 0, 0])?;
/// let module = acpi::Nvdimm::from_node(node)?;
/// assert_eq!(rt; module.nfit_device_handle(), 0x21);
/// ```
pub type Nvdimm<'a> = TypedNode<'a, ACPI_TYPE, { nvdimm::SUB_TYPE }, { nvdimm::LEAST }>;

impl<'a> Nvdimm<'a> {
    /// Returns the module's handle in the NFIT table.
    pub fn nfit_device_handle(&self) -> u32
        ensures { result ≡ number_in nvdimm.NFIT_DEVICE_HANDLE (data_of self.now) }
    {
        self.number(nvdimm::NFIT_DEVICE_HANDLE)
    }
}

/// The structs from which these nodes are built.
pub mod build {
    use crate::fields::{Fields, put};
    use crate::node_table::layouts::ACPI_TYPE;
    use crate::node_table::layouts::acpi::{acpi, adr, expanded, nvdimm};
    use crate::typed_node::TypedNode;

    /// A device that ACPI names by two numbers.
    ///
    /// ```rust
    /// let mut path = DevicePathBuf::new(rt.alloc())?;
    /// path.push_node(&acpi::Acpi { hid: 0x0a03_41d0, uid: 1 })?;
    /// let text = format!(in rt.alloc(); "{}", path.as_device_path())?;
    /// assert_eq!(rt; text.as_str(), "PciRoot(0x1)");
    /// ```
    #[derive(Clone, Copy)]
    pub struct Acpi {
        /// The number of its hardware ID, `_HID`.
        pub hid: u32,
        /// The number of its unique ID, `_UID`.
        pub uid: u32,
    }

    /// Builds the node from its fields.
    impl Fields for Acpi {
        type Layout = super::Acpi<'static>;

        type Tail = ();

        ghost fields = { λ n. number acpi.HID n.hid ∷ number acpi.UID n.uid ∷ [] };

        fn tail(self) {}

        fn put(&self, content: &mut [u8]) {
            put(content, acpi::HID, self.hid);
            put(content, acpi::UID, self.uid);
        }
    }

    /// A device that ACPI names by numbers or by strings.
    ///
    /// ```rust
    /// let mut path = DevicePathBuf::new(rt.alloc())?;
    /// path.push_node(&acpi::Expanded {
    ///     hid: 0x0a08_41d0, uid: 0, cid: 0x0a03_41d0, id_strings: b"\0u\0dev\0",
    /// })?;
    /// let text = format!(in rt.alloc(); "{}", path.as_device_path())?;
    /// assert_eq!(rt; text.as_str(), "AcpiEx(PNP0A08,PNP0A03,0x0,,dev,u)");
    /// ```
    #[derive(Clone, Copy)]
    pub struct Expanded<'a> {
        /// The number of its hardware ID, `_HID`.
        pub hid: u32,
        /// The number of its unique ID, `_UID`.
        pub uid: u32,
        /// The number of its compatible ID, `_CID`.
        pub cid: u32,
        /// The strings of `_HID`, `_UID` and `_CID`, in this order, each with its NUL.
        pub id_strings: &'a [u8],
    }

    /// Builds the node from its fields.
    impl<'a> Fields for Expanded<'a> {
        type Layout = TypedNode<'static, ACPI_TYPE, { expanded::SUB_TYPE }, { expanded::FIXED }>;

        type Tail = &'a [u8];

        ghost fields = { λ n. number expanded.HID n.hid ∷ number expanded.UID n.uid ∷
            number expanded.CID n.cid ∷ [] };

        ghost after = { λ n. n.id_strings.now };

        fn tail(self) -> &'a [u8] {
            self.id_strings
        }

        fn put(&self, content: &mut [u8]) {
            put(content, expanded::HID, self.hid);
            put(content, expanded::UID, self.uid);
            put(content, expanded::CID, self.cid);
        }
    }

    /// The outputs of a display adapter.
    ///
    /// ```rust
    /// let mut path = DevicePathBuf::new(rt.alloc())?;
    /// path.push_node(&acpi::Adr { adr: &[0x8001_0400, 0x8001_0300] })?;
    /// let text = format!(in rt.alloc(); "{}", path.as_device_path())?;
    /// assert_eq!(rt; text.as_str(), "AcpiAdr(0x80010400,0x80010300)");
    /// ```
    #[derive(Clone, Copy)]
    pub struct Adr<'a> {
        /// The `_ADR` values of the outputs, at least one.
        pub adr: &'a [u32],
    }

    /// Builds the node from its fields.
    impl<'a> Fields for Adr<'a> {
        type Layout = TypedNode<'static, ACPI_TYPE, { adr::SUB_TYPE }, 0>;

        type Tail = &'a [u32];

        ghost fields = { λ n. [] };

        ghost after = { λ n. flat_map (to_le_bytes w32) n.adr.now };

        fn tail(self) -> &'a [u32] {
            self.adr
        }

        fn put(&self, content: &mut [u8]) {}
    }

    /// A persistent memory module.
    ///
    /// ```rust
    /// let mut path = DevicePathBuf::new(rt.alloc())?;
    /// path.push_node(&acpi::Nvdimm { nfit_device_handle: 0x21 })?;
    /// let text = format!(in rt.alloc(); "{}", path.as_device_path())?;
    /// assert_eq!(rt; text.as_str(), "Path(2,4,21000000)");
    /// ```
    #[derive(Clone, Copy)]
    pub struct Nvdimm {
        /// The module's handle in the NFIT table.
        pub nfit_device_handle: u32,
    }

    /// Builds the node from its fields.
    impl Fields for Nvdimm {
        type Layout = super::Nvdimm<'static>;

        type Tail = ();

        ghost fields = { λ n. number nvdimm.NFIT_DEVICE_HANDLE n.nfit_device_handle ∷ [] };

        fn tail(self) {}

        fn put(&self, content: &mut [u8]) {
            put(content, nvdimm::NFIT_DEVICE_HANDLE, self.nfit_device_handle);
        }
    }
}
