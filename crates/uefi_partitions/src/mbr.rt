//! Master boot records (UEFI Specification 2.10, section 5.2.1).
#![tactic(auto, unfolding(crate::specs::Views::mbr_block))]

ghost use Rattle.std.specs.Prelude.{◌≡◌, ◌+◌, ◌-◌, ◌*◌, ◌<◌, ◌≤◌, IfOk, IsNone, IsTrue, length, slice_index};
ghost use Rattle.std.specs.Result.{result_err};
ghost use Rattle.uefi_partitions.specs.MbrTables.{is_protective, mbr_partition, mbr_refusal, mbr_signature, os_type};
ghost use Rattle.uefi_partitions.specs.StoredFields.{stored_bytes, stored_number};

use crate::errors::{MbrError, PartitionError};
use crate::fields::u32_at;
use crate::partition::{Partition, PartitionTable};

/// The bytes of an MBR.
const SIZE: usize = 512;

/// The type of a partition that protects a GPT.
const PROTECTIVE: u8 = 0xee;

/// The type of an EFI system partition.
const SYSTEM: u8 = 0xef;

/// An MBR, in the bytes of its block. A contract sees it as `mbr_block` of it.
///
/// ```rust
/// let mut block = [0; 512];
/// block[440..444].copy_from_slice(b"DRAN");
/// block[446..462].copy_from_slice(b"\x80\0\0\0\xef\0\0\0\0\x08\0\0\0\x10\0\0");
/// block[510..].copy_from_slice(&[0x55, 0xaa]);
/// let mbr = Mbr::from_block(&block)?;
/// assert!(rt; mbr.disk_signature() == 0x4e415244 && !mbr.is_protective());
/// let partition = mbr.partition(1)?;
/// assert_eq!(rt; (partition.start, partition.size, partition.is_system), (0x800, 0x1000, true));
/// assert_eq!(rt; mbr.partition(2), Err(PartitionError::Unused));
/// ```
#[derive(Clone, Copy)]
pub struct Mbr<'a> {
    block: &'a [u8],
    pub ghost whole: { 512 ≤ length block.now },
}

/// Returns why a block is no MBR, if it is none.
fn refusal(block: &[u8]) -> Option<MbrError>
    ensures value { result ≡ mbr_refusal block.now }
    ensures whole { IsNone result → 512 ≤ length block.now }
{
    if block.len() < SIZE {
        return Some(MbrError::ShortBlock);
    }
    if block[510] != 0x55 || block[511] != 0xaa {
        return Some(MbrError::NoSignature);
    }
    None
}

impl<'a> Mbr<'a> {
    ghost use Rattle.uefi_partitions.specs.Views.{mbr_block};

    /// Checks that a block, the first of a disk, is an MBR. Fails with `ShortBlock` if it has fewer
    /// than 512 bytes, and otherwise with `NoSignature` if bytes 510 and 511 are not 0x55 and 0xaa.
    /// Does not allocate.
    pub fn from_block(block: &'a [u8]) -> Result<Self, MbrError>
        ensures refusal { result_err result ≡ mbr_refusal block.now }
        ensures block { IfOk result (λ mbr. mbr_block mbr ≡ block.now) }
    {
        match refusal(block) {
            Some(error) => Err(error),
            None => Ok(Mbr { block }),
        }
    }

    /// Returns the signature of the disk.
    pub fn disk_signature(&self) -> u32
        ensures { result ≡ stored_number 440 4 (mbr_block self.now) }
    {
        u32_at(self.block, 440)
    }

    /// Returns whether one of the four records protects a GPT.
    pub fn is_protective(&self) -> bool
        ensures { result ≡ is_protective (mbr_block self.now) }
    {
        self.block[450] == PROTECTIVE
            || self.block[466] == PROTECTIVE
            || self.block[482] == PROTECTIVE
            || self.block[498] == PROTECTIVE
    }

    /// Returns the partition of the record with a number, from 1 to 4.
    ///
    /// Fails with `NoEntry` for another number, then with `Unused` if the record has no type or no
    /// blocks, and then with `Protective` if it protects a GPT. The record of an extended partition
    /// is returned as any other, and the partitions in it have no records here. Does not allocate.
    pub fn partition(&self, number: u32) -> Result<Partition, PartitionError>
        ensures { result ≡ mbr_partition (mbr_block self.now) number }
    {
        if number < 1 || 4 < number {
            return Err(PartitionError::NoEntry);
        }
        let record = 430 + 16 * number as usize;
        let kind = self.block[record + 4];
        let size = u32_at(self.block, record + 12);
        if kind == 0 || size == 0 {
            return Err(PartitionError::Unused);
        }
        if kind == PROTECTIVE {
            return Err(PartitionError::Protective);
        }
        Ok(Partition {
            number,
            start: u64::from(u32_at(self.block, record + 8)),
            size: u64::from(size),
            signature: self.signature(),
            table: PartitionTable::Mbr,
            is_system: kind == SYSTEM,
        })
    }

    /// Returns the bytes of the disk's signature, and twelve zeros.
    fn signature(&self) -> [u8; 16]
        ensures { result ≡ mbr_signature (mbr_block self.now) }
    {
        let block = self.block;
        [
            block[440], block[441], block[442], block[443], 0, 0, 0, 0, 0, 0, 0, 0, 0, 0, 0, 0,
        ]
    }
}
