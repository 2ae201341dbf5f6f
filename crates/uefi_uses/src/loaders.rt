//! The files that a menu offers, and the files below a folder.
ghost use Rattle.std.specs.Prelude.{◌≡◌, ◌↔◌, IsTrue};
ghost use Rattle.uefi_path.specs.WithoutCase.{MatchesPath};
ghost use Rattle.uefi_path.specs.Components.{StartsWith};
ghost use Rattle.uefi_path.specs.Separators.{canonical};
ghost use Rattle.uefi_path.specs.Views.{path_text};
ghost use Rattle.uefi_text.specs.Case.{uppers};

use uefi_path::Path;

/// Returns whether a menu offers to start a file: whether its path matches a pattern such as
/// `\EFI\*\*.efi`, and is not the path of the menu itself. Both tests ignore case, as firmware
/// does.
pub fn is_offered(file: Path<'_>, pattern: Path<'_>, menu: Path<'_>) -> bool
    ensures { IsTrue result ↔ MatchesPath (path_text pattern.entry) (path_text file.entry)
        × ¬ (uppers (canonical (path_text file.entry)) ≡ uppers (canonical (path_text menu.entry))) }
{
    file.matches(pattern) && !file.eq_ignore_case(menu)
}

/// Returns whether a file is below a folder, or is the folder, component by component: `\EFIX` is
/// not below `\EFI`.
pub fn is_below(file: Path<'_>, folder: Path<'_>) -> bool
    ensures { IsTrue result ↔ StartsWith (path_text file.entry) (path_text folder.entry) }
{
    file.starts_with(folder)
}
