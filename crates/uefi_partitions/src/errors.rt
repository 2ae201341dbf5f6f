//! Why bytes are no partition table, or have no partition with a number.
#![tactic(auto, using(uefi_text::proofs::Puts::puts))]

ghost use Rattle.std.specs.Prelude.{Some};
ghost use Rattle.uefi_partitions.specs.ErrorTexts.{gpt_error_text, mbr_error_text, partition_error_text};

use std::error::Error;
use std::fmt;
use uefi_text::text_sink::{Printed, TextSink, print};

/// Why a block is no MBR.
#[derive(Clone, Copy, Debug, PartialEq, Eq)]
pub enum MbrError {
    /// The block has fewer than 512 bytes.
    ShortBlock,

    /// Bytes 510 and 511 are not 0x55 and 0xaa.
    NoSignature,
}

/// Puts what is wrong, in words.
impl Printed for MbrError {
    ghost printed = { mbr_error_text };

    fn put<S: TextSink>(&self, sink: &mut S) {
        match self {
            MbrError::ShortBlock => sink.put_str("MBR: block has fewer than 512 bytes"),
            MbrError::NoSignature => sink.put_str("MBR: no signature 55 AA at byte 510"),
        }
    }
}

/// Prints the same text.
impl fmt::Display for MbrError {
    ghost output = { λ error. Some (mbr_error_text error) };

    fn fmt<W: fmt::Write>(&self, f: &mut fmt::Formatter<W>) -> fmt::Result {
        print(f, self)
    }
}

impl Error for MbrError {}

/// Why a block is no header of a GPT, or bytes are not its entries.
#[derive(Clone, Copy, Debug, PartialEq, Eq)]
pub enum GptError {
    /// The block has fewer than 92 bytes.
    ShortBlock,

    /// The block does not begin with `EFI PART`.
    NoSignature,

    /// The revision is not 1.0.
    Revision,

    /// The size of the header is less than 92, or more than that of the block.
    HeaderSize,

    /// The checksum of the header does not match its bytes.
    HeaderChecksum,

    /// The header belongs to a block with another number.
    OtherBlock,

    /// The size of an entry is not 128 times a power of two.
    EntrySize,

    /// There are fewer bytes than the entries have.
    ShortEntries,

    /// The checksum of the entries does not match their bytes.
    EntriesChecksum,
}

/// Puts what is wrong, in words.
impl Printed for GptError {
    ghost printed = { gpt_error_text };

    fn put<S: TextSink>(&self, sink: &mut S) {
        match self {
            GptError::ShortBlock => sink.put_str("GPT header: block has fewer than 92 bytes"),
            GptError::NoSignature => sink.put_str("GPT header: no signature EFI PART"),
            GptError::Revision => sink.put_str("GPT header: revision is not 1.0"),
            GptError::HeaderSize => sink.put_str("GPT header: invalid header size"),
            GptError::HeaderChecksum => sink.put_str("GPT header: checksum does not match"),
            GptError::OtherBlock => sink.put_str("GPT header: belongs to another block"),
            GptError::EntrySize => sink.put_str("GPT header: invalid entry size"),
            GptError::ShortEntries => sink.put_str("GPT entries: too few bytes"),
            GptError::EntriesChecksum => sink.put_str("GPT entries: checksum does not match"),
        }
    }
}

/// Prints the same text.
impl fmt::Display for GptError {
    ghost output = { λ error. Some (gpt_error_text error) };

    fn fmt<W: fmt::Write>(&self, f: &mut fmt::Formatter<W>) -> fmt::Result {
        print(f, self)
    }
}

impl Error for GptError {}

/// Why a partition table has no partition with a number.
#[derive(Clone, Copy, Debug, PartialEq, Eq)]
pub enum PartitionError {
    /// The table has no entry with this number. Entries are counted from 1.
    NoEntry,

    /// The entry is not in use.
    Unused,

    /// The entry protects a GPT from programs that know only the MBR.
    Protective,

    /// The blocks of the partition are not all usable blocks, or end before they begin.
    Outside,
}

/// Puts what is wrong, in words.
impl Printed for PartitionError {
    ghost printed = { partition_error_text };

    fn put<S: TextSink>(&self, sink: &mut S) {
        match self {
            PartitionError::NoEntry => sink.put_str("partition number is not in the table"),
            PartitionError::Unused => sink.put_str("partition entry is not in use"),
            PartitionError::Protective => sink.put_str("partition entry only protects a GPT"),
            PartitionError::Outside => sink.put_str("partition is outside the usable blocks"),
        }
    }
}

/// Prints the same text.
impl fmt::Display for PartitionError {
    ghost output = { λ error. Some (partition_error_text error) };

    fn fmt<W: fmt::Write>(&self, f: &mut fmt::Formatter<W>) -> fmt::Result {
        print(f, self)
    }
}

impl Error for PartitionError {}
