//! What a partition table says of a partition.

/// The kinds of partition tables. Their numbers are those of `partition_format` and `signature_type`
/// in a `HardDrive` node (UEFI Specification 2.10, section 10.3.5.1).
#[derive(Clone, Copy, Debug, PartialEq, Eq)]
pub enum PartitionTable {
    /// A master boot record, with a signature of four bytes.
    Mbr = 1,

    /// A GUID partition table.
    Gpt = 2,
}

/// A partition. The first five fields are those of a `HardDrive` node.
#[derive(Clone, Copy, Debug, PartialEq, Eq)]
pub struct Partition {
    /// The number of the partition, counted from 1.
    pub number: u32,

    /// The first block of the partition.
    pub start: u64,

    /// The number of its blocks.
    pub size: u64,

    /// The GUID of the partition, as a GPT stores it; or the signature of an MBR, and twelve zeros.
    pub signature: [u8; 16],

    /// The table that describes the partition.
    pub table: PartitionTable,

    /// Whether it is an EFI system partition, by the type in the table.
    pub is_system: bool,
}
