//! The entries of a GUID partition table (UEFI Specification 2.10, section 5.3.3).
#![tactic(auto, unfolding(crate::specs::Views::gpt_block, crate::specs::Views::entries_header, crate::specs::Views::gpt_array, crate::specs::Views::gpt_entry))]

ghost use Rattle.std.specs.Prelude.{◌≡◌, ◌+◌, ◌-◌, ◌*◌, ◌<◌, ◌≤◌, ◌↔◌, if◌then◌else◌, IfOk, IsNone, IsTrue, None, Option, Some, length};
ghost use Rattle.std.specs.Option.{option_map};
ghost use Rattle.std.specs.Result.{result_err};
ghost use Rattle.uefi_partitions.specs.GuidTables.{entries_length, entries_refusal, entry_at, entry_name, gpt_partition, gpt_partition_of, has_entry, is_unused_entry, is_within_usable};
ghost use Rattle.uefi_partitions.specs.StoredFields.{stored_bytes, stored_number};
ghost use Rattle.uefi_text.specs.Views.{items_of};

use crate::checksums::crc32;
use crate::errors::{GptError, PartitionError};
use crate::fields::{sixteen_at, u32_at, u64_at};
use crate::gpt::GptHeader;
use crate::partition::{Partition, PartitionTable};
use uefi_device_nodes::field_texts::guid::Guid;
use uefi_text::UnalignedSlice;

/// The type of an EFI system partition, C12A7328-F81F-11D2-BA4B-00A0C93EC93B.
const SYSTEM_TYPE: [u8; 16] = [
    0x28, 0x73, 0x2a, 0xc1, 0x1f, 0xf8, 0xd2, 0x11, 0xba, 0x4b, 0x00, 0xa0, 0xc9, 0x3e, 0xc9, 0x3b,
];

/// The entries of a GPT, in bytes whose checksum is right. A contract sees the block of their header as
/// `entries_header` of it, and the bytes as `gpt_array` of it.
///
/// ```rust
/// let mut block = [0; 512];
/// block[..20].copy_from_slice(b"EFI PART\0\0\x01\0\x5c\0\0\0\xa0\x54\xb9\x9d");
/// for (place, byte) in [(24, 1), (32, 127), (40, 34), (48, 99), (72, 2)] {
///     block[place] = byte;
/// }
/// block[56..72].copy_from_slice(b"ABCDEFGHIJKLMNOP");
/// block[80..92].copy_from_slice(&[1, 0, 0, 0, 128, 0, 0, 0, 0xe6, 0xed, 0x46, 0xda]);
/// let mut array = [0; 128];
/// array[..16].copy_from_slice(b"\x28\x73\x2a\xc1\x1f\xf8\xd2\x11\xba\x4b\0\xa0\xc9\x3e\xc9\x3b");
/// array[16..32].copy_from_slice(b"abcdefghijklmnop");
/// for (place, byte) in [(32, 34), (40, 99), (56, 0x78)] {
///     array[place] = byte;
/// }
/// let header = GptHeader::from_block(&block, 1)?;
/// let entries = GptEntries::new(&header, &array)?;
/// assert!(rt; entries.len() == 1 && !entries.is_empty());
/// let partition = entries.partition(1)?;
/// assert_eq!(rt; (partition.start, partition.size, partition.is_system), (34, 66, true));
/// assert_eq!(rt; entries.partition(2), Err(PartitionError::NoEntry));
/// let entry: GptEntry<'_> = entries.entry(1).ok_or("no entry")?;
/// assert!(rt; !entry.is_unused() && entry.attributes() == 0);
/// assert_eq!(rt; (entry.first_block(), entry.last_block()), (34, 99));
/// assert_eq!(rt; entry.unique_guid().to_bytes(), *b"abcdefghijklmnop");
/// assert_eq!(rt; Some(entry.type_guid()), Guid::try_parse("c12a7328-f81f-11d2-ba4b-00a0c93ec93b"));
/// assert_eq!(rt; (entry.name().len(), entry.name().get(0)), (36, Some(0x78)));
/// ```
#[derive(Clone, Copy)]
pub struct GptEntries<'a> {
    header: &'a [u8],
    array: &'a [u8],
    pub ghost long: { 92 ≤ length header.now },
    pub ghost sized: { 128 ≤ stored_number 84 4 header.now },
    pub ghost whole: { entries_length header.now ≤ length array.now },
}

/// An entry of a GPT, used or not. A contract sees it as `gpt_entry` of it.
#[derive(Clone, Copy)]
pub struct GptEntry<'a> {
    entry: &'a [u8],
    pub ghost whole: { 128 ≤ length entry.now },
}

/// Returns the part of bytes with a number, counted from 1, if each part has `size` bytes.
fn part_of<'a>(bytes: &'a [u8], size: usize, number: usize) -> &'a [u8]
    requires some { 1 ≤ number }
    requires within { (number - 1) * size + size ≤ length bytes.now }
    ensures { result.now ≡ stored_bytes ((number - 1) * size) size bytes.now }
{
    let start = (number - 1) * size;
    &bytes[start..start + size]
}

impl<'a> GptEntries<'a> {
    ghost use Rattle.uefi_partitions.specs.Views.{entries_header, gpt_array, gpt_block, gpt_entry};

    /// Returns why bytes do not begin with the entries that a header describes, if they do not.
    fn refusal(header: &GptHeader<'_>, bytes: &[u8]) -> Option<GptError>
        ensures value { result ≡ entries_refusal (gpt_block header.now) bytes.now }
        ensures whole { IsNone result → entries_length (gpt_block header.now) ≤ length bytes.now }
    {
        let len = header.entries_len() as usize;
        if bytes.len() < len {
            return Some(GptError::ShortEntries);
        }
        if header.entries_checksum() != crc32(&bytes[..len]) {
            return Some(GptError::EntriesChecksum);
        }
        None
    }

    /// Checks that bytes begin with the entries that a header describes. `bytes` are those of the
    /// blocks from [`GptHeader::entries_block`] on.
    ///
    /// Fails with `ShortEntries` if there are fewer than [`GptHeader::entries_len`] bytes, and
    /// otherwise with `EntriesChecksum` if the checksum of these bytes is not that of the header.
    /// Does not allocate.
    pub fn new(header: &GptHeader<'a>, bytes: &'a [u8]) -> Result<Self, GptError>
        ensures refusal { result_err result ≡ entries_refusal (gpt_block header.now) bytes.now }
        ensures header { IfOk result (λ entries. entries_header entries ≡ gpt_block header.now) }
        ensures bytes { IfOk result (λ entries. gpt_array entries ≡ bytes.now) }
    {
        match Self::refusal(header, bytes) {
            Some(error) => Err(error),
            None => Ok(GptEntries {
                header: header.as_bytes(),
                array: bytes,
            }),
        }
    }

    /// Returns the number of entries, used or not.
    pub fn len(&self) -> u32
        ensures { result ≡ stored_number 80 4 (entries_header self.now) }
    {
        u32_at(self.header, 80)
    }

    /// Returns whether the table has no entries.
    pub fn is_empty(&self) -> bool
        ensures { IsTrue result ↔ (stored_number 80 4 (entries_header self.now) ≡ 0) }
    {
        self.len() == 0
    }

    /// Returns the entry with a number, counted from 1, or `None` if the table has none.
    pub fn entry(&self, number: u32) -> Option<GptEntry<'a>>
        ensures { option_map gpt_entry result ≡ (if has_entry (entries_header self.now) number
            then Some (entry_at (entries_header self.now) (gpt_array self.now) number) else None) }
    {
        if number < 1 || self.len() < number {
            return None;
        }
        let size = u32_at(self.header, 84) as usize;
        Some(GptEntry {
            entry: part_of(self.array, size, number as usize),
        })
    }

    /// Returns the partition with a number, counted from 1.
    ///
    /// Fails with `NoEntry` if the table has no such entry, then with `Unused` if the type of the
    /// entry is zero, and then with `Outside` if its first block is block 0 or comes before the
    /// first usable block, its last block before its first, or the last usable block before its
    /// last. Does not allocate.
    pub fn partition(&self, number: u32) -> Result<Partition, PartitionError>
        ensures { result ≡ gpt_partition (entries_header self.now) (gpt_array self.now) number }
    {
        let Some(entry) = self.entry(number) else {
            return Err(PartitionError::NoEntry);
        };
        if entry.is_unused() {
            return Err(PartitionError::Unused);
        }
        if !self.has_blocks_of(&entry) {
            return Err(PartitionError::Outside);
        }
        Ok(entry.as_partition(number))
    }

    /// Returns whether the blocks of an entry are usable, and end after they begin.
    fn has_blocks_of(&self, entry: &GptEntry<'a>) -> bool
        ensures value { result ≡ is_within_usable (entries_header self.now) (gpt_entry entry.now) }
    {
        let first = entry.first_block();
        let last = entry.last_block();
        first >= u64_at(self.header, 40).max(1) && last >= first && u64_at(self.header, 48) >= last
    }
}

impl<'a> GptEntry<'a> {
    ghost use Rattle.uefi_partitions.specs.Views.{gpt_entry};

    /// Returns whether the entry is not in use: its type is zero.
    pub fn is_unused(&self) -> bool
        ensures { result ≡ is_unused_entry (gpt_entry self.now) }
    {
        self.entry.starts_with(&[0; 16])
    }

    /// Returns the type of the partition.
    pub fn type_guid(&self) -> Guid
        ensures { result ≡ stored_bytes 0 16 (gpt_entry self.now) }
    {
        Guid::from_bytes(sixteen_at(self.entry, 0))
    }

    /// Returns the GUID of the partition.
    pub fn unique_guid(&self) -> Guid
        ensures { result ≡ stored_bytes 16 16 (gpt_entry self.now) }
    {
        Guid::from_bytes(sixteen_at(self.entry, 16))
    }

    /// Returns the first block of the partition.
    pub fn first_block(&self) -> u64
        ensures { result ≡ stored_number 32 8 (gpt_entry self.now) }
    {
        u64_at(self.entry, 32)
    }

    /// Returns the last block of the partition.
    pub fn last_block(&self) -> u64
        ensures { result ≡ stored_number 40 8 (gpt_entry self.now) }
    {
        u64_at(self.entry, 40)
    }

    /// Returns the attributes of the partition.
    pub fn attributes(&self) -> u64
        ensures { result ≡ stored_number 48 8 (gpt_entry self.now) }
    {
        u64_at(self.entry, 48)
    }

    /// Returns the 36 units of the name. A shorter name ends with a NUL.
    pub fn name(&self) -> UnalignedSlice<'a, u16>
        ensures { items_of result ≡ entry_name (gpt_entry self.now) }
    {
        UnalignedSlice::new(&self.entry[56..128], 36)
    }

    /// Returns the partition of the entry.
    fn as_partition(&self, number: u32) -> Partition
        requires order { stored_number 32 8 (gpt_entry self.now) ≤ stored_number 40 8 (gpt_entry self.now) }
        requires starts { 1 ≤ stored_number 32 8 (gpt_entry self.now) }
        ensures { result ≡ gpt_partition_of number (gpt_entry self.now) }
    {
        let start = self.first_block();
        Partition {
            number,
            start,
            size: self.last_block() - start + 1,
            signature: sixteen_at(self.entry, 16),
            table: PartitionTable::Gpt,
            is_system: self.entry.starts_with(&SYSTEM_TYPE),
        }
    }
}
