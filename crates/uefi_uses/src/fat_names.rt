//! Names of files on a FAT volume: names that a folder can contain together, and names that no file can
//! have.
ghost use Rattle.std.specs.Prelude.{◌≡◌, ◌↔◌, IsTrue};
ghost use Rattle.uefi_fat.specs.LongNames.{IsFatName, name_refusal};
ghost use Rattle.uefi_fat.specs.ShortNames.{IsShortName};
ghost use Rattle.uefi_fat.specs.Trimming.{trimmed};
ghost use Rattle.uefi_text.specs.Case.{uppers};
ghost use Rattle.uefi_text.specs.Views.{units_of};

use uefi_fat::{FatNameError, check_fat_name, is_fat_name, is_short_name, same_fat_file};
use uefi_text::Char16Slice;

/// Returns whether a new file would replace a file in a folder: whether both names are valid, and name the
/// same file.
pub fn takes_place_of(new: Char16Slice<'_>, present: Char16Slice<'_>) -> bool
    ensures { IsTrue result ↔ (IsFatName (units_of new.entry) × IsFatName (units_of present.entry)
        × (uppers (trimmed (units_of new.entry)) ≡ uppers (trimmed (units_of present.entry)))) }
{
    is_fat_name(new) && is_fat_name(present) && same_fat_file(new, present)
}

/// Returns why no file can have a name, or `None` if a file can.
pub fn name_fault(name: Char16Slice<'_>) -> Option<FatNameError>
    ensures { result ≡ name_refusal (units_of name.entry) }
{
    check_fat_name(name).err()
}

/// Returns whether a system without long names can read a name.
pub fn is_for_old_systems(name: Char16Slice<'_>) -> bool
    ensures { IsTrue result ↔ IsShortName (units_of name.entry) }
{
    is_short_name(name)
}
