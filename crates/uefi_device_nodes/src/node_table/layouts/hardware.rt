//! The kinds of type Hardware (UEFI Specification 2.10, section 10.3.2).

use super::Field;

/// A device on a PCI bus.
pub mod pci {
    use super::Field;

    pub const SUB_TYPE: u8 = 1;

    pub const LEAST: usize = 2;

    pub const FUNCTION: Field = field!(0, 1);

    pub const DEVICE: Field = field!(1, 1);
}

/// A PC card.
pub mod pccard {
    use super::Field;

    pub const SUB_TYPE: u8 = 2;

    pub const LEAST: usize = 1;

    pub const FUNCTION: Field = field!(0, 1);
}

/// A range of memory.
pub mod memory_mapped {
    use super::Field;

    pub const SUB_TYPE: u8 = 3;

    pub const LEAST: usize = 20;

    pub const MEMORY_TYPE: Field = field!(0, 4);

    pub const STARTING_ADDRESS: Field = field!(4, 8);

    pub const ENDING_ADDRESS: Field = field!(12, 8);
}

/// A vendor-defined node, identified by a GUID.
pub mod hardware_vendor {
    use super::Field;

    pub const SUB_TYPE: u8 = 4;

    pub const LEAST: usize = 16;

    pub const VENDOR_GUID: Field = field!(0, 16);

    pub const VENDOR_DEFINED_DATA: Field = field!(16, 0);
}

/// A controller.
pub mod controller {
    use super::Field;

    pub const SUB_TYPE: u8 = 5;

    pub const LEAST: usize = 4;

    pub const CONTROLLER_NUMBER: Field = field!(0, 4);
}

/// The host interface of a management controller.
pub mod bmc {
    use super::Field;

    pub const SUB_TYPE: u8 = 6;

    pub const LEAST: usize = 9;

    pub const INTERFACE_TYPE: Field = field!(0, 1);

    pub const BASE_ADDRESS: Field = field!(1, 8);
}
