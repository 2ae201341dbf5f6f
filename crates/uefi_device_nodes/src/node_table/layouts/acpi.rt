//! The kinds of type ACPI (UEFI Specification 2.10, section 10.3.3).

use super::Field;

/// A device that ACPI names by two numbers.
pub mod acpi {
    use super::Field;

    pub const SUB_TYPE: u8 = 1;

    pub const LEAST: usize = 8;

    pub const HID: Field = field!(0, 4);

    pub const UID: Field = field!(4, 4);
}

/// A device that ACPI names by numbers or by strings.
pub mod expanded {
    use super::Field;

    pub const SUB_TYPE: u8 = 2;
    /// The number of bytes of its numbers. Three strings follow, each with at least a NUL.
    pub const FIXED: usize = 12;

    pub const LEAST: usize = FIXED + 3;

    pub const HID: Field = field!(0, 4);

    pub const UID: Field = field!(4, 4);

    pub const CID: Field = field!(8, 4);

    pub const ID_STRINGS: Field = field!(FIXED, 0);
}

/// The outputs of a display adapter.
pub mod adr {
    use super::Field;

    pub const SUB_TYPE: u8 = 3;

    pub const LEAST: usize = 4;

    pub const ADR: Field = field!(0, 4);
}

/// A persistent memory module.
pub mod nvdimm {
    use super::Field;

    pub const SUB_TYPE: u8 = 4;

    pub const LEAST: usize = 4;

    pub const NFIT_DEVICE_HANDLE: Field = field!(0, 4);
}
