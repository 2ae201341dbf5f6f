//! Names on FAT volumes in units that C holds: which units are names of files, which names mean one
//! file, and the characters of short names (UEFI Specification 2.10, sections 13.3 and 21.1).
ghost use Rattle.std.specs.Prelude.{◌≡◌, ◌↔◌, ℕ, List, Err, Ok, IsTrue, length};
ghost use Rattle.uefi_text.specs.Case.{uppers};
ghost use Rattle.uefi_text.specs.Units.{BeginsWithString};
ghost use Rattle.uefi_text.specs.Views.{units_of};
ghost use Rattle.uefi_fat.specs.LongNames.{IsFatName, name_refusal};
ghost use Rattle.uefi_fat.specs.Oem.{fat_text};
ghost use Rattle.uefi_fat.specs.ShortNames.{IsShortName};
ghost use Rattle.uefi_fat.specs.Trimming.{trimmed};
ghost use Rattle.nardcorbel.specs.FatNames.{ShowsFat, checked_name};
ghost use Rattle.nardcorbel.specs.Outcomes.{Shows, ShowsNumber, when_read};
ghost use Rattle.nardcorbel.specs.Outcomes.Outcome.{Text};
ghost use Rattle.nardcorbel.specs.Reading.{read_string};
ghost use Rattle.nardcorbel.specs.Reasons.{refused_fat_character};
ghost use Rattle.nardcorbel.specs.Strings.{text_until_nul};
ghost use Rattle.nardcorbel.specs.declared.outcomes.Refusal.{Refusal};

use crate::outcomes::{Refusal, read_string, refuse, report, report_written};
use crate::reasons::{CHAR_REPLACED, OK, fat_name_reason};
use crate::strings::until_nul;
use uefi_fat::{check_fat_name, fat_to_str, is_short_name, same_fat_file, units_to_fat};
use uefi_text::{BufferTooSmall, CStr16};

/// Checks that the units begin with a string that a file on a FAT volume can have as its name.
///
/// Units that do not begin with a string are rejected as by `nard_string_length`, and then the name
/// as by `check_fat_name`; `fault` and `len` are then unchanged. At `OK`, `len` becomes the length of the
/// name. `character` becomes the rejected character at `ILLEGAL_CHAR`, and otherwise 0. Does not
/// allocate.
#[unsafe(no_mangle)]
pub extern "C" fn nard_fat_name_check(
    units: &[u16],
    len: &mut usize,
    fault: &mut usize,
    character: &mut u16,
) -> u32
    ensures shows { ShowsNumber (when_read (read_string units.now) checked_name) len.old fault.old
        result len.new fault.new }
    ensures valid { (result ≡ OK) ↔ (BeginsWithString units.now × IsFatName (text_until_nul units.now)) }
    ensures no_character { (refusal : Refusal) → read_string units.now ≡ Err refusal → character.new ≡ 0 }
    ensures character { (text : List ℕ) → read_string units.now ≡ Ok text
        → character.new ≡ refused_fat_character (name_refusal text) }
{
    *character = 0;
    let string = match read_string(units) {
        Ok(string) => string,
        Err(refusal) => return refuse(refusal, len, fault),
    };
    match check_fat_name(string.as_slice()) {
        Ok(()) => report::<BufferTooSmall>(Ok(string.num_chars()), len, fault),
        Err(error) => {
            let (reason, refused) = fat_name_reason(error);
            *character = refused;
            refuse(Refusal::of(reason), len, fault)
        }
    }
}

/// Returns whether both begin with a string, and these strings are names of one file on a FAT
/// volume, as `same_fat_file` says. Does not allocate.
#[unsafe(no_mangle)]
pub extern "C" fn nard_fat_name_equal(first: &[u16], second: &[u16]) -> bool
    ensures { IsTrue result ↔ (BeginsWithString first.now × BeginsWithString second.now
        × (uppers (trimmed (text_until_nul first.now)) ≡ uppers (trimmed (text_until_nul second.now)))) }
{
    let Ok(first) = CStr16::from_u16_until_nul(first) else {
        return false;
    };
    let Ok(second) = CStr16::from_u16_until_nul(second) else {
        return false;
    };
    same_fat_file(first.as_slice(), second.as_slice())
}

/// Returns whether the units begin with a string that is an 8.3 name, as `is_short_name` says. Does
/// not allocate.
#[unsafe(no_mangle)]
pub extern "C" fn nard_fat_name_is_short(units: &[u16]) -> bool
    ensures { IsTrue result ↔ (BeginsWithString units.now × IsShortName (text_until_nul units.now)) }
{
    match CStr16::from_u16_until_nul(units) {
        Ok(string) => is_short_name(string.as_slice()),
        Err(_) => false,
    }
}

/// Writes a text to the start of `bytes` in the characters of short names, as `StrToFat` and
/// `units_to_fat` do. Returns `OK`, or `CHAR_REPLACED` if one of the bytes is a `_` that replaces
/// another unit.
///
/// `len` becomes the number of bytes written, as many as fit. The bytes after them are unchanged, and
/// no NUL is written. Does not allocate.
#[unsafe(no_mangle)]
pub extern "C" fn nard_fat_from_string(units: &[u16], bytes: &mut [u8], len: &mut usize) -> u32
    ensures { ShowsFat (text_until_nul units.now) bytes.old result len.new bytes.new }
{
    let written = units_to_fat(until_nul(units), bytes);
    *len = written.len;
    if written.is_replaced {
        CHAR_REPLACED
    } else {
        OK
    }
}

/// Writes bytes in the characters of short names as a string to the start of `buffer`, as
/// `fat_to_str` does: a unit for each byte before the first NUL, or for each byte if there is none,
/// and a NUL.
///
/// `len` becomes the length of the text. A buffer with at most that many places is rejected as
/// `BUFFER_TOO_SMALL`, and is unchanged. Does not allocate.
#[unsafe(no_mangle)]
pub extern "C" fn nard_string_from_fat(bytes: &[u8], buffer: &mut [u16], len: &mut usize) -> u32
    ensures shows { (fault : ℕ) → Shows (Text (fat_text bytes.now)) len.old fault buffer.old
        result len.new fault buffer.new }
    ensures length { len.new ≡ length (fat_text bytes.now) }
{
    report_written(fat_to_str(bytes, buffer), len)
}
