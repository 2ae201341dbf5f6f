//! Partition tables of disks: the partition with a number, as a `HardDrive` node of a device path
//! names it (UEFI Specification 2.10, sections 5.2.1, 5.3.2, 5.3.3 and 10.3.5.1).
//!
//! The crate reads no disk. Its callers read blocks, and each call here takes their bytes:
//!
//! 1. [`Mbr::from_block`] takes block 0. [`Mbr::partition`] gives the partition in one of its four
//!    records. If [`Mbr::is_protective`], the disk has a GPT, and the MBR only protects it.
//! 2. [`GptHeader::from_block`] takes block 1, or the last block of the disk, and checks the header.
//!    [`GptHeader::entries_block`] and [`GptHeader::entries_len`] say where the entries are.
//! 3. [`GptEntries::new`] takes these bytes and checks them. [`GptEntries::partition`] gives the
//!    partition with a number, and [`GptEntries::entry`] everything that the table says of it.
//!
//! Any bytes have a result: a disk may be damaged, or made to do harm. No call allocates.
//!
//! A contract sees an [`Mbr`] and a [`GptHeader`] as the bytes of the block (`mbr_block`, `gpt_block`),
//! [`GptEntries`] as the header's block and the entries (`entries_header`, `gpt_array`), and a
//! [`GptEntry`] as its bytes (`gpt_entry`).
#![tactic(auto)]

pub mod checksums;
pub mod errors;
mod fields;
pub mod gpt;
pub mod gpt_entries;
pub mod mbr;
pub mod partition;

pub use checksums::crc32;
pub use errors::{GptError, MbrError, PartitionError};
pub use gpt::GptHeader;
pub use gpt_entries::{GptEntries, GptEntry};
pub use mbr::Mbr;
pub use partition::{Partition, PartitionTable};
