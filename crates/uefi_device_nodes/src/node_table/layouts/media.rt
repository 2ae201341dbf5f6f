//! The kinds of type Media (UEFI Specification 2.10, section 10.3.5).

use super::Field;

/// A partition of a hard drive.
pub mod hard_drive {
    use super::Field;

    pub const SUB_TYPE: u8 = 1;

    pub const LEAST: usize = 38;

    pub const PARTITION_NUMBER: Field = field!(0, 4);

    pub const PARTITION_START: Field = field!(4, 8);

    pub const PARTITION_SIZE: Field = field!(12, 8);

    pub const PARTITION_SIGNATURE: Field = field!(20, 16);

    pub const PARTITION_FORMAT: Field = field!(36, 1);

    pub const SIGNATURE_TYPE: Field = field!(37, 1);
}

/// A boot entry of a CD-ROM.
pub mod cd_rom {
    use super::Field;

    pub const SUB_TYPE: u8 = 2;

    pub const LEAST: usize = 20;

    pub const BOOT_ENTRY: Field = field!(0, 4);

    pub const PARTITION_START: Field = field!(4, 8);

    pub const PARTITION_SIZE: Field = field!(12, 8);
}

/// A vendor-defined node, identified by a GUID.
pub mod media_vendor {
    use super::Field;

    pub const SUB_TYPE: u8 = 3;

    pub const LEAST: usize = 16;

    pub const VENDOR_GUID: Field = field!(0, 16);

    pub const VENDOR_DEFINED_DATA: Field = field!(16, 0);
}

/// A file.
pub mod file_path {
    pub const SUB_TYPE: u8 = 4;
}

/// A protocol of the firmware.
pub mod protocol {
    use super::Field;

    pub const SUB_TYPE: u8 = 5;

    pub const LEAST: usize = 16;

    pub const PROTOCOL_GUID: Field = field!(0, 16);
}

/// A file of a firmware volume.
pub mod firmware_file {
    use super::Field;

    pub const SUB_TYPE: u8 = 6;

    pub const LEAST: usize = 16;

    pub const FILE_NAME: Field = field!(0, 16);
}

/// A firmware volume.
pub mod firmware_volume {
    use super::Field;

    pub const SUB_TYPE: u8 = 7;

    pub const LEAST: usize = 16;

    pub const VOLUME_NAME: Field = field!(0, 16);
}

/// A range of bytes of the medium before it.
pub mod relative_offset_range {
    use super::Field;

    pub const SUB_TYPE: u8 = 8;

    pub const LEAST: usize = 20;

    pub const STARTING_OFFSET: Field = field!(4, 8);

    pub const ENDING_OFFSET: Field = field!(12, 8);
}

/// A RAM disk.
pub mod ram_disk {
    use super::Field;

    pub const SUB_TYPE: u8 = 9;

    pub const LEAST: usize = 34;

    pub const STARTING_ADDRESS: Field = field!(0, 8);

    pub const ENDING_ADDRESS: Field = field!(8, 8);

    pub const DISK_TYPE: Field = field!(16, 16);

    pub const DISK_INSTANCE: Field = field!(32, 2);
}
