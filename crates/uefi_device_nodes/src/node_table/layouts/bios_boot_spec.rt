//! The kinds of type BIOS Boot Specification (UEFI Specification 2.10, section 10.3.6).

use super::Field;

/// A device that a legacy BIOS can boot.
pub mod boot_specification {
    use super::Field;

    pub const SUB_TYPE: u8 = 1;
    /// The number of bytes of its numbers. A string with its NUL follows.
    pub const FIXED: usize = 4;

    pub const LEAST: usize = FIXED + 1;

    pub const DEVICE_TYPE: Field = field!(0, 2);

    pub const STATUS_FLAG: Field = field!(2, 2);

    pub const DESCRIPTION_STRING: Field = field!(FIXED, 0);
}
