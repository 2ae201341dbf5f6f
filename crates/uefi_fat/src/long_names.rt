//! The part of a name that counts, the names that files can have, and the names that mean the same
//! file.
ghost use Rattle.std.specs.Prelude.{◌≡◌, ◌↔◌, IsOk, IsTrue, find, Some};
ghost use Rattle.std.specs.List.{prefix_len, suffix_len};
ghost use Rattle.std.specs.Result.{result_err};
ghost use Rattle.uefi_fat.specs.LongNames.{IsFatName, is_illegal, name_refusal};
ghost use Rattle.uefi_fat.specs.Trimming.{is_space, is_space_or_dot, trimmed, without_leading, without_trailing};
ghost use Rattle.uefi_text.specs.Case.{uppers};
ghost use Rattle.uefi_text.specs.Views.{units_of};
ghost use Rattle.uefi_fat.specs.ErrorTexts.{fat_name_error_text};

use std::error::Error;
use std::fmt;
use uefi_text::chars::Char16;
use uefi_text::number_texts::put_decimal;
use uefi_text::strings::strs::Char16Slice;
use uefi_text::text_sink::{Printed, TextSink, print};

/// The most characters of a name.
const MOST: usize = 255;

/// The reason why no file on a FAT volume has a name.
#[derive(Clone, Copy, Debug, PartialEq, Eq)]
pub enum FatNameError {
    /// The trimmed name is empty. So are those of `.` and `..`, which name folders.
    Empty,

    /// The trimmed name is longer than 255 characters.
    TooLong,

    /// The trimmed name contains this character, the first that no name may contain.
    IllegalChar(Char16),
}

/// Puts the reason, with the number of an illegal character in decimal.
impl Printed for FatNameError {
    ghost printed = { fat_name_error_text };

    #[tactic(auto, using(uefi_text::proofs::Puts::puts))]
    fn put<S: TextSink>(&self, sink: &mut S) {
        match self {
            FatNameError::Empty => sink.put_str("name contains only spaces and dots"),
            FatNameError::TooLong => sink.put_str("name is longer than 255 characters"),
            FatNameError::IllegalChar(character) => {
                let value = u64::from(u16::from(*character));
                put_decimal(sink, "name contains an illegal character (value ", value);
                sink.put_str(")");
            }
        }
    }
}

/// Prints the same text.
impl fmt::Display for FatNameError {
    ghost output = { λ error. Some (fat_name_error_text error) };

    fn fmt<W: fmt::Write>(&self, f: &mut fmt::Formatter<W>) -> fmt::Result {
        print(f, self)
    }
}

impl Error for FatNameError {}

/// Returns the number of spaces at the start.
fn spaces_before(units: &[u16]) -> usize
    ensures { result ≡ prefix_len is_space units.now }
{
    units.iter().take_while(|unit| **unit == 0x20).count()
}

/// Returns the number of spaces and dots at the end.
fn ends_after(units: &[u16]) -> usize
    ensures { result ≡ suffix_len is_space_or_dot units.now }
{
    units
        .iter()
        .rev()
        .take_while(|unit| **unit == 0x20 || **unit == 0x2e)
        .count()
}

/// Returns the name without the spaces at its start.
fn without_spaces_before<'a>(name: Char16Slice<'a>) -> Char16Slice<'a>
    ensures { units_of result ≡ without_leading is_space (units_of name.entry) }
{
    name.part(spaces_before(name.units()), name.len())
}

/// Returns the name without the spaces and dots at its end.
fn without_ends_after<'a>(name: Char16Slice<'a>) -> Char16Slice<'a>
    ensures { units_of result ≡ without_trailing is_space_or_dot (units_of name.entry) }
{
    name.part(0, name.len() - ends_after(name.units()))
}

/// Returns the part of a name that a FAT volume keeps: without the spaces at its start, and without
/// the spaces and dots at its end.
///
/// ```rust
/// let name = CString16::try_from_str(rt.alloc(), " boot.efi. ")?;
/// let name = name.as_cstr16().as_slice();
/// assert_eq!(rt; trimmed(name), name.part(1, 9));
/// ```
pub fn trimmed<'a>(name: Char16Slice<'a>) -> Char16Slice<'a>
    ensures { units_of result ≡ trimmed (units_of name.entry) }
{
    without_ends_after(without_spaces_before(name))
}

/// Returns whether no name may contain the character.
fn is_illegal(character: Char16) -> bool
    ensures { result ≡ is_illegal character }
{
    matches!(
        u16::from(character),
        0..=0x1f | 0x22 | 0x2a | 0x2f | 0x3a | 0x3c | 0x3e | 0x3f | 0x5c | 0x7c
    )
}

/// Returns the first character that no name may contain.
fn find_illegal(name: Char16Slice<'_>) -> Option<Char16>
    ensures { result ≡ find is_illegal (units_of name.entry) }
{
    for character in name.iter() {
        if is_illegal(character) {
            return Some(character);
        }
    }
    None
}

/// Returns why a name is refused, if it is.
fn judge(name: Char16Slice<'_>) -> Option<FatNameError>
    ensures { result ≡ name_refusal (units_of name.entry) }
{
    let part = trimmed(name);
    if part.is_empty() {
        return Some(FatNameError::Empty);
    }
    if MOST < part.len() {
        return Some(FatNameError::TooLong);
    }
    find_illegal(part).map(FatNameError::IllegalChar)
}

/// Checks whether a file on a FAT volume can have a name. Returns `Ok`, or the fault.
///
/// The trimmed name decides. It is refused as `Empty` if it has no character, as for `.` and `..`,
/// which name folders: the file system looks for these before it trims a name. It is refused as
/// `TooLong` if it has more than 255 characters, and as `IllegalChar` for the first character that
/// is below U+0020 or one of `" * / : < > ? \ |`.
///
/// ```rust
/// let name = CString16::try_from_str(rt.alloc(), "why?.txt")?;
/// let refused = check_fat_name(name.as_cstr16().as_slice());
/// assert_eq!(rt; refused, Err(FatNameError::IllegalChar(Char16::try_from_char('?')?)));
/// let name = CString16::try_from_str(rt.alloc(), "..")?;
/// assert_eq!(rt; check_fat_name(name.as_cstr16().as_slice()), Err(FatNameError::Empty));
/// ```
pub fn check_fat_name(name: Char16Slice<'_>) -> Result<(), FatNameError>
    ensures refusal { result_err result ≡ name_refusal (units_of name.entry) }
    ensures valid { IsOk result ↔ IsFatName (units_of name.entry) }
{
    match judge(name) {
        None => Ok(()),
        Some(error) => Err(error),
    }
}

/// Returns whether a file on a FAT volume can have a name, as [`check_fat_name`] does.
///
/// ```rust
/// let name = CString16::try_from_str(rt.alloc(), "[1] my file.txt")?;
/// assert!(rt; is_fat_name(name.as_cstr16().as_slice()));
/// let name = CString16::try_from_str(rt.alloc(), "12:30.txt")?;
/// assert!(rt; !is_fat_name(name.as_cstr16().as_slice()));
/// ```
pub fn is_fat_name(name: Char16Slice<'_>) -> bool
    ensures { IsTrue result ↔ IsFatName (units_of name.entry) }
{
    check_fat_name(name).is_ok()
}

/// Returns whether two names mean the same file on a FAT volume: whether their trimmed parts are
/// equal without case.
///
/// A file may also have a short name that the file system made up for it, such as `LONGNA~1.TXT`.
/// The long name does not determine it.
///
/// ```rust
/// let name = CString16::try_from_str(rt.alloc(), "shimx64.efi")?;
/// let other = CString16::try_from_str(rt.alloc(), " SHIMX64.EFI.")?;
/// assert!(rt; same_fat_file(name.as_cstr16().as_slice(), other.as_cstr16().as_slice()));
/// ```
pub fn same_fat_file(first: Char16Slice<'_>, second: Char16Slice<'_>) -> bool
    ensures { IsTrue result
        ↔ (uppers (trimmed (units_of first.entry)) ≡ uppers (trimmed (units_of second.entry))) }
{
    trimmed(first).eq_ignore_case(trimmed(second))
}
