//! The numbers of each kind of node, and the offsets of its fields (UEFI Specification 2.10, section 10.3).
//! Views, builders, rows of the table and the header for C take them from here. No other file contains them.
//!
//! A kind is a module in the file of its type. It has the sub-type, the least number of bytes of the data,
//! and the fields in the order of their offsets: `sata::SUB_TYPE`, `sata::LEAST` and `sata::HBA_PORT_NUMBER`.

/// A field in the data of a node.
#[derive(Clone, Copy)]
pub struct Field {
    /// The offset of its first byte.
    pub place: usize,
    /// The number of its bytes, or 0 if it has all bytes to the end. For a list of numbers, the number of
    /// bytes of the first.
    pub width: usize,
}

/// Makes a field from its offset and its width.
macro_rules! field {
    ($place:expr, $width:literal) => {
        Field { place: $place, width: $width }
    };
}

/// The type of a device in the system's address space.
pub const HARDWARE_TYPE: u8 = 1;
/// The type of a device that the ACPI namespace describes.
pub const ACPI_TYPE: u8 = 2;
/// The type of a device that is reached by messages.
pub const MESSAGING_TYPE: u8 = 3;
/// The type of a part of a medium.
pub const MEDIA_TYPE: u8 = 4;
/// The type of a device that a legacy BIOS can boot.
pub const BIOS_BOOT_SPEC_TYPE: u8 = 5;

pub mod acpi;
pub mod bios_boot_spec;
pub mod hardware;
pub mod media;
pub mod messaging;
