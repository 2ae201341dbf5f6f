//! The checksum of a GPT (UEFI Specification 2.10, section 5.3.2): the CRC of 32 bits whose generator is
//! 0x04c11db7, with the bits of each byte from the lowest on, as in Ethernet and gzip.
#![tactic(auto)]

ghost use Rattle.std.specs.Prelude.{◌≡◌};
ghost use Rattle.std.specs.List.{fold};
ghost use Rattle.uefi_partitions.specs.Crc32.{after_bit, after_byte, after_four, crc32};

/// The generator without its highest bit, with the lowest bit first.
const GENERATOR: u32 = 0xedb88320;

/// The register before the first byte, and what the result is inverted by.
pub(crate) const ALL_BITS: u32 = 0xffffffff;

/// Returns the register after the next bit.
#[inline(always)]
#[tactic(auto, unfolding(crate::specs::Crc32::after_bit))]
fn after_bit(register: u32) -> u32
    ensures { result ≡ after_bit register }
{
    if register % 2 == 1 {
        (register / 2) ^ GENERATOR
    } else {
        register / 2
    }
}

/// Returns the register after the next four bits.
#[inline(always)]
fn after_four(register: u32) -> u32
    ensures { result ≡ after_four register }
{
    after_bit(after_bit(after_bit(after_bit(register))))
}

/// Returns the register after the next byte.
#[inline(always)]
#[tactic(auto, unfolding(crate::specs::Crc32::after_byte))]
fn after_byte(register: u32, byte: u8) -> u32
    ensures { result ≡ after_byte register byte }
{
    after_four(after_four(register ^ u32::from(byte)))
}

/// Returns the register after more bytes.
pub(crate) fn after_bytes(register: u32, bytes: &[u8]) -> u32
    ensures { result ≡ fold after_byte register bytes.now }
{
    bytes
        .iter()
        .fold(register, |before, byte| after_byte(before, *byte))
}

/// Returns the CRC-32 of bytes. Does not allocate.
///
/// ```rust
/// assert_eq!(rt; crc32(b"123456789"), 0xcbf43926);
/// assert_eq!(rt; crc32(b""), 0);
/// ```
pub fn crc32(bytes: &[u8]) -> u32
    ensures { result ≡ crc32 bytes.now }
{
    after_bytes(ALL_BITS, bytes) ^ ALL_BITS
}
