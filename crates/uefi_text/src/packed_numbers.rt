//! Little-endian numbers in bytes, which can be the items of a packed slice.
ghost use Rattle.std.specs.Prelude.{◌≡◌, ℕ, ◌*◌, ◌^◌, ◌<◌, length};
ghost use Rattle.std.specs.Mem.{type_size};
ghost use Rattle.std.proofs.Common.{arith};
ghost use Rattle.uefi_text.specs.Packed.{EncodesOnce, little_endian};
ghost use Rattle.uefi_text.specs.PackedLaws.{encodes_once};

/// A number that takes a fixed number of bytes, the low byte first: `u8`, `u16`, `u32` and `u64`. A
/// contract sees a value as `number` of it. An implementation for a type of your own proves the
/// three laws at the end.
pub trait Packed: Copy {
    /// The number of bytes of a value.
    const SIZE: usize;

    /// The number of bytes of a value, as contracts see it.
    ghost SIZE: { ℕ };

    /// The number of a value.
    ghost number: { Self → ℕ };

    /// Decodes exactly `SIZE` bytes, the low byte first on every machine: the sum of each byte
    /// times 256 to the power of its index. Does not allocate.
    ///
    /// ```rust
    /// assert_eq!(rt; u16::read_le(&[0x34, 0x12]), 0x1234);
    /// assert_eq!(rt; u32::read_le(&[0x78, 0x56, 0x34, 0x12]), 0x12345678);
    /// ```
    fn read_le(bytes: &[u8]) -> Self
        requires { length bytes.now ≡ SIZE }
        ensures { number result ≡ little_endian bytes.now };

    /// A value takes one byte or more.
    ghost size_above_zero: { 0 < SIZE };

    /// Equal numbers come from equal bytes.
    ghost encoded_once: { EncodesOnce SIZE };

    /// A block of 4,096 values fits in memory, so that values can be copied a block at a time.
    ghost block_fits: { 4096 * type_size Self.row < 2 ^ 63 };
}

/// One byte, whose number is the value itself.
impl Packed for u8 {
    const SIZE: usize = 1;

    ghost SIZE = { 1 };

    ghost number = { λ value. value };

    fn read_le(bytes: &[u8]) -> u8 {
        bytes[0]
    }

    ghost size_above_zero = { Prim.omega arith };

    ghost encoded_once = { encodes_once 1 };

    ghost block_fits = { Prim.omega arith };
}

/// Two bytes, whose number is the value itself.
impl Packed for u16 {
    const SIZE: usize = 2;

    ghost SIZE = { 2 };

    ghost number = { λ value. value };

    fn read_le(bytes: &[u8]) -> u16 {
        u16::from_le_bytes([bytes[0], bytes[1]])
    }

    ghost size_above_zero = { Prim.omega arith };

    ghost encoded_once = { encodes_once 2 };

    ghost block_fits = { Prim.omega arith };
}

/// Four bytes, whose number is the value itself.
impl Packed for u32 {
    const SIZE: usize = 4;

    ghost SIZE = { 4 };

    ghost number = { λ value. value };

    fn read_le(bytes: &[u8]) -> u32 {
        u32::from_le_bytes([bytes[0], bytes[1], bytes[2], bytes[3]])
    }

    ghost size_above_zero = { Prim.omega arith };

    ghost encoded_once = { encodes_once 4 };

    ghost block_fits = { Prim.omega arith };
}

/// Eight bytes, whose number is the value itself.
impl Packed for u64 {
    const SIZE: usize = 8;

    ghost SIZE = { 8 };

    ghost number = { λ value. value };

    fn read_le(bytes: &[u8]) -> u64 {
        u64::from_le_bytes([
            bytes[0], bytes[1], bytes[2], bytes[3], bytes[4], bytes[5], bytes[6], bytes[7],
        ])
    }

    ghost size_above_zero = { Prim.omega arith };

    ghost encoded_once = { encodes_once 8 };

    ghost block_fits = { Prim.omega arith };
}
