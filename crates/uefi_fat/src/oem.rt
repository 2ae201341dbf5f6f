//! Names in the 8-bit characters of short names, as the firmware's Unicode collation converts them:
//! `StrToFat` and `FatToStr` (UEFI Specification 2.10, section 21.1). These characters are those of
//! Latin-1.
ghost use Rattle.std.specs.Prelude.{◌≡◌, ◌≤◌, length, min, take};
ghost use Rattle.std.specs.List.{list_any, position_or_len};
ghost use Rattle.uefi_fat.specs.Oem.{fat_byte, fat_bytes, fat_text, is_unfit, kept_units};
ghost use Rattle.uefi_fat.specs.Trimming.{is_space_or_dot};
ghost use Rattle.uefi_text.specs.FromStrWithBuf.{with_units};
ghost use Rattle.uefi_text.specs.UnalignedCStr16.{with_prefix};
ghost use Rattle.uefi_text.specs.UnitTexts.{written_len};
ghost use Rattle.uefi_text.specs.Units.{is_nul, nul_terminated};
ghost use Rattle.uefi_text.specs.Views.{units_of};

use crate::short_names::is_fat_unit;
use uefi_text::BufferTooSmall;
use uefi_text::case::upper;
use uefi_text::strings::strs::Char16Slice;

/// The replacement for a character that short names cannot contain.
const UNDERSCORE: u8 = 0x5f;

/// The result of [`str_to_fat`].
#[derive(Clone, Copy, Debug, PartialEq, Eq)]
pub struct FatBytes {
    /// The number of bytes.
    pub len: usize,

    /// Whether one of the bytes is a `_` that replaces a character that short names cannot contain.
    /// The name then needs a long name too.
    pub is_replaced: bool,
}

/// Returns whether a short name leaves the unit out.
fn is_left_out(unit: u16) -> bool
    ensures { result ≡ is_space_or_dot unit }
{
    unit == 0x20 || unit == 0x2e
}

/// Returns the byte of a unit.
fn fat_byte(unit: u16) -> u8
    ensures { result ≡ fat_byte unit }
{
    if is_fat_unit(unit) {
        upper(unit) as u8
    } else {
        UNDERSCORE
    }
}

/// Writes units to the start of a buffer in the characters of short names, as [`str_to_fat`] writes
/// a name. The units may contain surrogates, as names on FAT volumes may; short names cannot
/// contain one.
///
/// ```rust
/// let mut buffer = [0; 3];
/// let written = units_to_fat(&[0x61, 0xd83d, 0x2e], &mut buffer);
/// assert_eq!(rt; written, FatBytes { len: 2, is_replaced: true });
/// assert_eq!(rt; buffer, *b"A_\0");
/// ```
pub fn units_to_fat(units: &[u16], buffer: &mut [u8]) -> FatBytes
    ensures buffer { buffer.new ≡ with_units (fat_bytes units.now) buffer.old }
    ensures len { result.len ≡ min (length (fat_bytes units.now)) (length buffer.old) }
    ensures replaced { result.is_replaced
        ≡ list_any is_unfit (take (length buffer.old) (kept_units units.now)) }
{
    let mut len = 0;
    let mut is_replaced = false;
    for unit in units {
        if len == buffer.len() {
            break;
        }
        if !is_left_out(*unit) {
            buffer[len] = fat_byte(*unit);
            is_replaced |= !is_fat_unit(*unit);
            len += 1;
        }
    }
    FatBytes { len, is_replaced }
}

/// Writes a name to the start of a buffer in the characters of short names, as `StrToFat` does:
/// each character in upper case, or `_` if short names cannot contain it, and no byte for a space
/// or a dot.
///
/// Stops at the end of the buffer or of the name, whichever is first. The rest of the buffer is
/// unchanged, and no NUL is written. [`is_short_name`](crate::is_short_name) lists the characters.
///
/// ```rust
/// let name = CString16::try_from_str(rt.alloc(), "a+b c.efi")?;
/// let mut buffer = [0; 8];
/// let written = str_to_fat(name.as_cstr16().as_slice(), &mut buffer);
/// assert_eq!(rt; written, FatBytes { len: 7, is_replaced: true });
/// assert_eq!(rt; buffer, *b"A_BCEFI\0");
/// ```
pub fn str_to_fat(name: Char16Slice<'_>, buffer: &mut [u8]) -> FatBytes
    ensures buffer { buffer.new ≡ with_units (fat_bytes (units_of name.entry)) buffer.old }
    ensures len { result.len ≡ min (length (fat_bytes (units_of name.entry))) (length buffer.old) }
    ensures replaced { result.is_replaced
        ≡ list_any is_unfit (take (length buffer.old) (kept_units (units_of name.entry))) }
{
    units_to_fat(name.units(), buffer)
}

/// Writes bytes as units.
fn widen(places: &mut [u16], bytes: &[u8])
    requires { length places.now ≡ length bytes.now }
    ensures { places.new ≡ bytes.now }
{
    for i in 0..places.len() {
        places[i] = u16::from(bytes[i]);
    }
}

/// Returns the number of bytes before the first NUL, or the number of all bytes if there is none.
fn text_len(bytes: &[u8]) -> usize
    ensures len { result ≡ position_or_len is_nul bytes.now }
    ensures within { result ≤ length bytes.now }
{
    bytes.iter().take_while(|byte| **byte != 0).count()
}

/// Writes bytes in the characters of short names as a string to the start of a buffer, as
/// `FatToStr` does: a unit for each byte before the first NUL, or for each byte if there is none,
/// and a NUL. Returns its length without the NUL. The rest of the buffer is unchanged.
///
/// Fails only if the buffer is too small, and then leaves it unchanged. Makes two passes.
///
/// ```rust
/// let mut buffer = [0xffff; 4];
/// assert_eq!(rt; fat_to_str(b"A~1", &mut buffer), Ok(3));
/// assert_eq!(rt; buffer, [0x41, 0x7e, 0x31, 0]);
/// assert_eq!(rt; fat_to_str(b"A~10", &mut buffer), Err(BufferTooSmall(5)));
/// ```
pub fn fat_to_str(bytes: &[u8], buffer: &mut [u16]) -> Result<usize, BufferTooSmall>
    ensures len { result ≡ written_len (fat_text bytes.now) buffer.old }
    ensures buffer { buffer.new ≡ with_prefix (nul_terminated (fat_text bytes.now)) buffer.old }
{
    let len = text_len(bytes);
    if buffer.len() <= len {
        return Err(BufferTooSmall(len + 1));
    }
    widen(&mut buffer[..len], &bytes[..len]);
    buffer[len] = 0;
    Ok(len)
}
