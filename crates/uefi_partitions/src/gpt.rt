//! The header of a GUID partition table (UEFI Specification 2.10, section 5.3.2).
#![tactic(auto, unfolding(crate::specs::Views::gpt_block))]

ghost use Rattle.std.specs.Prelude.{◌≡◌, ◌+◌, ◌<◌, ◌≤◌, ◌*◌, IfOk, IsNone, IsTrue, length};
ghost use Rattle.std.specs.Result.{result_err};
ghost use Rattle.uefi_partitions.specs.GuidTables.{entries_length, header_crc, header_refusal, is_entry_size};
ghost use Rattle.uefi_partitions.specs.StoredFields.{stored_bytes, stored_number};

use crate::checksums::{ALL_BITS, after_bytes};
use crate::errors::GptError;
use crate::fields::{sixteen_at, u32_at, u64_at};
use uefi_device_nodes::field_texts::guid::Guid;

/// The least size of a header, and of the block that it begins.
const LEAST: usize = 92;

/// The header of a GPT, in the bytes of its block. A contract sees it as `gpt_block` of it.
///
/// ```rust
/// let mut block = [0; 512];
/// block[..20].copy_from_slice(b"EFI PART\0\0\x01\0\x5c\0\0\0\xa0\x54\xb9\x9d");
/// for (place, byte) in [(24, 1), (32, 127), (40, 34), (48, 99), (72, 2)] {
///     block[place] = byte;
/// }
/// block[56..72].copy_from_slice(b"ABCDEFGHIJKLMNOP");
/// block[80..92].copy_from_slice(&[1, 0, 0, 0, 128, 0, 0, 0, 0xe6, 0xed, 0x46, 0xda]);
/// let header = GptHeader::from_block(&block, 1)?;
/// assert_eq!(rt; (header.first_usable(), header.last_usable(), header.other_block()), (34, 99, 127));
/// assert_eq!(rt; (header.entries_block(), header.entries_len()), (2, 128));
/// assert_eq!(rt; (header.entry_count(), header.entry_size()), (1, 128));
/// assert_eq!(rt; header.entries_checksum(), 0xda46ede6);
/// assert_eq!(rt; header.disk_guid().to_bytes(), *b"ABCDEFGHIJKLMNOP");
/// assert_eq!(rt; header.as_bytes().len(), 512);
/// ```
#[derive(Clone, Copy)]
pub struct GptHeader<'a> {
    block: &'a [u8],
    pub ghost long: { 92 ≤ length block.now },
    pub ghost sized: { 128 ≤ stored_number 84 4 block.now },
}

/// Returns the checksum of a header of `size` bytes, with zeros in place of its own checksum.
fn header_crc(block: &[u8], size: usize) -> u32
    requires least { 92 ≤ size }
    requires within { size ≤ length block.now }
    ensures { result ≡ header_crc block.now size }
{
    let before = after_bytes(ALL_BITS, &block[..16]);
    let blank = after_bytes(before, &[0; 4]);
    after_bytes(blank, &block[20..size]) ^ ALL_BITS
}

/// Returns whether a number is 128 times a power of two.
fn is_entry_size(size: u32) -> bool
    ensures value { result ≡ is_entry_size size }
    ensures least { IsTrue result → 128 ≤ size }
{
    size >= 128 && size % 128 == 0 && (size / 128).is_power_of_two()
}

/// Returns why a block is not the header of a GPT at the block with this number, if it is not.
fn refusal(block: &[u8], number: u64) -> Option<GptError>
    ensures value { result ≡ header_refusal block.now number }
    ensures long { IsNone result → 92 ≤ length block.now }
    ensures sized { IsNone result → 128 ≤ stored_number 84 4 block.now }
{
    if block.len() < LEAST {
        return Some(GptError::ShortBlock);
    }
    if !block.starts_with(b"EFI PART") {
        return Some(GptError::NoSignature);
    }
    if u32_at(block, 8) != 0x10000 {
        return Some(GptError::Revision);
    }
    let size = u32_at(block, 12) as usize;
    if size < LEAST || block.len() < size {
        return Some(GptError::HeaderSize);
    }
    if u32_at(block, 16) != header_crc(block, size) {
        return Some(GptError::HeaderChecksum);
    }
    if u64_at(block, 24) != number {
        return Some(GptError::OtherBlock);
    }
    if !is_entry_size(u32_at(block, 84)) {
        return Some(GptError::EntrySize);
    }
    None
}

impl<'a> GptHeader<'a> {
    ghost use Rattle.uefi_partitions.specs.Views.{gpt_block};

    /// Checks that a block is the header of a GPT. `number` is the number of the block: 1 for the
    /// first header of a disk, and that of the last block for the second.
    ///
    /// Fails for the first of these faults: the block has fewer than 92 bytes; the signature, the
    /// revision, the size of the header, its checksum, its own number of the block, or the size of
    /// an entry is wrong. Does not allocate.
    ///
    /// ```rust
    /// assert_eq!(rt; GptHeader::from_block(&[0; 512], 1).err(), Some(GptError::NoSignature));
    /// ```
    pub fn from_block(block: &'a [u8], number: u64) -> Result<Self, GptError>
        ensures refusal { result_err result ≡ header_refusal block.now number }
        ensures block { IfOk result (λ header. gpt_block header ≡ block.now) }
    {
        match refusal(block, number) {
            Some(error) => Err(error),
            None => Ok(GptHeader { block }),
        }
    }

    /// Returns the number of the block of the other header.
    pub fn other_block(&self) -> u64
        ensures { result ≡ stored_number 32 8 (gpt_block self.now) }
    {
        u64_at(self.block, 32)
    }

    /// Returns the first block that a partition may have.
    pub fn first_usable(&self) -> u64
        ensures { result ≡ stored_number 40 8 (gpt_block self.now) }
    {
        u64_at(self.block, 40)
    }

    /// Returns the last block that a partition may have.
    pub fn last_usable(&self) -> u64
        ensures { result ≡ stored_number 48 8 (gpt_block self.now) }
    {
        u64_at(self.block, 48)
    }

    /// Returns the GUID of the disk.
    pub fn disk_guid(&self) -> Guid
        ensures { result ≡ stored_bytes 56 16 (gpt_block self.now) }
    {
        Guid::from_bytes(sixteen_at(self.block, 56))
    }

    /// Returns the number of the block where the entries begin.
    pub fn entries_block(&self) -> u64
        ensures { result ≡ stored_number 72 8 (gpt_block self.now) }
    {
        u64_at(self.block, 72)
    }

    /// Returns the number of entries, used or not.
    pub fn entry_count(&self) -> u32
        ensures { result ≡ stored_number 80 4 (gpt_block self.now) }
    {
        u32_at(self.block, 80)
    }

    /// Returns the number of bytes of an entry.
    pub fn entry_size(&self) -> u32
        ensures size { result ≡ stored_number 84 4 (gpt_block self.now) }
        ensures least { 128 ≤ result }
    {
        u32_at(self.block, 84)
    }

    /// Returns the number of bytes of all entries. Nothing bounds this number but its type, so test
    /// it before you allocate: 128 entries of 128 bytes have 16,384.
    pub fn entries_len(&self) -> u64
        ensures { result ≡ entries_length (gpt_block self.now) }
    {
        u64::from(self.entry_count()) * u64::from(self.entry_size())
    }

    /// Returns the checksum of the entries.
    pub fn entries_checksum(&self) -> u32
        ensures { result ≡ stored_number 88 4 (gpt_block self.now) }
    {
        u32_at(self.block, 88)
    }

    /// Returns the bytes of the block.
    pub fn as_bytes(&self) -> &'a [u8]
        ensures { result.now ≡ gpt_block self.now }
    {
        self.block
    }
}
