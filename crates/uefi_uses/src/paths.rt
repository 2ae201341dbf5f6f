//! The path of a menu's entry, made from two texts.
ghost use Rattle.std.specs.Prelude.{◌≡◌, ◌⊎◌, None, Some, IfErr, IfOk, option_map};
ghost use Rattle.std.specs.Result.{result_err};
ghost use Rattle.std.specs.Str.{chars};
ghost use Rattle.uefi_path.specs.Pushing.{pushed};
ghost use Rattle.uefi_path.specs.Separators.{with_separators};
ghost use Rattle.uefi_path.specs.Verdicts.{verdict};
ghost use Rattle.uefi_text.specs.FromStr.{from_str_refusal};
ghost use Rattle.uefi_text.specs.Units.{IsText};

use std::alloc::Allocator;
use uefi_path::{Path, PathBuf, PathError, validate_path};
use uefi_text::{CString16, FromStrError};

/// The reason why a folder and a file's name are not made into an entry.
#[derive(Clone, Copy, Debug, PartialEq, Eq)]
pub enum EntryError {
    /// One of the two is not a UCS-2 text, or memory ran out for it.
    Text(FromStrError),

    /// The path of both is not valid.
    Path(PathError),

    /// Memory ran out for the path.
    OutOfMemory,
}

/// Creates the path of a menu's entry: pushes the file onto the folder, and replaces each slash with a
/// separator. Fails if the folder is not a text, then if the file is not a text, and then if
/// `validate_path` refuses the path of both, unless memory runs out before.
pub fn entry_path<A: Allocator + Copy>(
    alloc: A,
    folder: &str,
    file: &str,
) -> Result<PathBuf<A>, EntryError>
    ensures path { IfOk result (λ path.
        path ≡ pushed (with_separators (chars folder.now)) (chars file.now)) }
    ensures accepted { IfOk result (λ path. verdict path ≡ None) }
    ensures folder { ¬ IsText (chars folder.now)
        → result_err result ≡ option_map EntryError.Text (from_str_refusal (chars folder.now)) }
    ensures file { IfErr result (λ error. IsText (chars folder.now) → ¬ IsText (chars file.now)
        → (error ≡ EntryError.Text FromStrError.OutOfMemory)
        ⊎ (option_map EntryError.Text (from_str_refusal (chars file.now)) ≡ Some error)) }
    ensures refused { IfErr result (λ error. IsText (chars folder.now) → IsText (chars file.now)
        → (error ≡ EntryError.Text FromStrError.OutOfMemory) ⊎ (error ≡ EntryError.OutOfMemory)
        ⊎ (option_map EntryError.Path
        (verdict (pushed (with_separators (chars folder.now)) (chars file.now))) ≡ Some error)) }
{
    let folder = CString16::try_from_str(alloc, folder).map_err(EntryError::Text)?;
    let file = CString16::try_from_str(alloc, file).map_err(EntryError::Text)?;
    let Ok(mut path) = PathBuf::new_from_cstring16(alloc, folder) else {
        return Err(EntryError::OutOfMemory);
    };
    if path.push(Path::new(file.as_cstr16())).is_err() {
        return Err(EntryError::OutOfMemory);
    }
    match validate_path(path.as_path()) {
        Ok(()) => Ok(path),
        Err(error) => Err(EntryError::Path(error)),
    }
}
