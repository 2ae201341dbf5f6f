//! Numbers and bytes at fixed offsets of a block.
#![tactic(auto)]

ghost use Rattle.std.specs.Prelude.{◌≡◌, ◌+◌, ◌≤◌, length};
ghost use Rattle.uefi_partitions.specs.StoredFields.{stored_bytes, stored_number};

use uefi_text::Packed;

/// Returns the number in four bytes, the low byte first.
pub(crate) fn u32_at(bytes: &[u8], offset: usize) -> u32
    requires { offset + 4 ≤ length bytes.now }
    ensures { result ≡ stored_number offset 4 bytes.now }
{
    u32::read_le(&bytes[offset..offset + 4])
}

/// Returns the number in eight bytes, the low byte first.
pub(crate) fn u64_at(bytes: &[u8], offset: usize) -> u64
    requires { offset + 8 ≤ length bytes.now }
    ensures { result ≡ stored_number offset 8 bytes.now }
{
    u64::read_le(&bytes[offset..offset + 8])
}

/// Returns the 16 bytes from an offset on.
pub(crate) fn sixteen_at(bytes: &[u8], offset: usize) -> [u8; 16]
    requires { offset + 16 ≤ length bytes.now }
    ensures { result ≡ stored_bytes offset 16 bytes.now }
{
    let mut sixteen = [0; 16];
    sixteen.copy_from_slice(&bytes[offset..offset + 16]);
    sixteen
}
