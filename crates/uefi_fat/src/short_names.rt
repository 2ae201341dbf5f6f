//! The 8.3 names of old directory entries, and the characters that they can contain.
ghost use Rattle.std.specs.Prelude.{◌≡◌, ◌<◌, ◌↔◌, IfSome, IsTrue, length, position};
ghost use Rattle.std.specs.List.{list_all};
ghost use Rattle.uefi_fat.specs.ShortNames.{IsShortName, IsShortPart, has_case, is_fat_unit, is_short_unit};
ghost use Rattle.uefi_fat.specs.Trimming.{is_dot};
ghost use Rattle.uefi_text.specs.Views.{units_of};

use uefi_text::case::{lower, upper};
use uefi_text::chars::Char16;
use uefi_text::strings::strs::Char16Slice;

/// The dot between the base of a short name and its extension.
const DOT: u16 = 0x2e;

/// The most characters of a base.
const MOST_OF_BASE: usize = 8;

/// The most characters of an extension.
const MOST_OF_EXTENSION: usize = 3;

/// Returns whether upper or lower case changes the unit.
fn has_case(unit: u16) -> bool
    ensures { result ≡ has_case unit }
{
    upper(unit) != unit || lower(unit) != unit
}

/// Returns whether short names can contain the unit, in upper case.
pub(crate) fn is_fat_unit(unit: u16) -> bool
    ensures { result ≡ is_fat_unit unit }
{
    has_case(unit)
        || matches!(
            unit,
            0x30..=0x39
                | 0x21
                | 0x23..=0x29
                | 0x2d
                | 0x40
                | 0x5e..=0x60
                | 0x7b
                | 0x7d
                | 0x7e
        )
}

/// Returns whether short names can contain the character as it is, in upper case.
fn is_short_character(character: Char16) -> bool
    ensures { result ≡ is_short_unit character }
{
    is_fat_unit(u16::from(character)) && character.to_uppercase() == character
}

/// Returns whether short names can contain each of the characters as it is.
fn are_short_characters(part: Char16Slice<'_>) -> bool
    ensures { result ≡ list_all is_short_unit (units_of part.entry) }
{
    for character in part.iter() {
        if !is_short_character(character) {
            return false;
        }
    }
    true
}

/// Returns whether characters are a base or an extension of a short name, with at most `most`
/// characters.
fn is_short_part(part: Char16Slice<'_>, most: usize) -> bool
    ensures { IsTrue result ↔ IsShortPart most (units_of part.entry) }
{
    if part.is_empty() {
        return false;
    }
    if most < part.len() {
        return false;
    }
    are_short_characters(part)
}

/// Returns the index of the first dot.
fn first_dot(units: &[u16]) -> Option<usize>
    ensures place { result ≡ position is_dot units.now }
    ensures within { IfSome result (λ dot. dot < length units.now) }
{
    units.iter().position(|unit| *unit == DOT)
}

/// Returns whether a name is an 8.3 name, in the form of a directory entry: 1 to 8 characters,
/// optionally followed by a dot and 1 to 3 more.
///
/// The characters are capital letters, digits and the marks ``! # $ % & ' ( ) - @ ^ _ ` { } ~``.
/// The letters are those that have a case: `A` to `Z`, and U+00C0 to U+00DE except U+00D7.
///
/// ```rust
/// let name = CString16::try_from_str(rt.alloc(), "LONGNA~1.TXT")?;
/// assert!(rt; is_short_name(name.as_cstr16().as_slice()));
/// let name = CString16::try_from_str(rt.alloc(), "longname.txt")?;
/// assert!(rt; !is_short_name(name.as_cstr16().as_slice()));
/// ```
pub fn is_short_name(name: Char16Slice<'_>) -> bool
    ensures { IsTrue result ↔ IsShortName (units_of name.entry) }
{
    match first_dot(name.units()) {
        None => is_short_part(name, MOST_OF_BASE),
        Some(dot) => {
            let base = name.part(0, dot);
            let extension = name.part(dot + 1, name.len());
            is_short_part(base, MOST_OF_BASE) && is_short_part(extension, MOST_OF_EXTENSION)
        }
    }
}
