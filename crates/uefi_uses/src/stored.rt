//! Bytes that firmware stored, which are compared with a path, and paths that commands change.
ghost use Rattle.std.specs.Prelude.{◌≡◌, ◌↔◌, ◌∷◌, [], List, ℕ, IfOk, IfSome, IsTrue, length};
ghost use Rattle.uefi_path.specs.Components.{components_of};
ghost use Rattle.uefi_path.specs.Separators.{canonical};
ghost use Rattle.uefi_path.specs.Views.{path_text};
ghost use Rattle.upath.specs.PathCommands.{after_commands};
ghost use Rattle.upath.specs.Judging.{IsPathOf};

use std::alloc::Allocator;
use uefi_path::{Path, PathBuf};
use upath::{JudgeError, PathCommand, judge, pieces, run_commands};

/// Returns whether the bytes that firmware stored contain the path of an entry, with or without one
/// leading separator, or why they contain no path.
pub fn is_entry<A: Allocator + Copy>(
    alloc: A,
    bytes: &[u8],
    entry: Path<'_>,
) -> Result<bool, JudgeError>
    ensures { IfOk result (λ same. (stored : List ℕ) × IsPathOf bytes.now stored
        × (IsTrue same ↔ (canonical stored ≡ canonical (path_text entry.entry)))) }
{
    let stored = judge(alloc, bytes)?;
    Ok(stored.as_path() == entry)
}

/// Changes the path of a file to the path of another file in its folder. Returns false if memory
/// runs out.
pub fn turn_to_sibling<A: Allocator + Copy>(alloc: A, path: &mut PathBuf<A>, name: Path<'_>) -> bool
    ensures { IsTrue result → path.new
        ≡ after_commands path.old (PathCommand.Parent ∷ PathCommand.Push name.entry ∷ []) }
{
    run_commands(alloc, path, &[PathCommand::Parent, PathCommand::Push(name)]).is_ok()
}

/// Returns the number of components of a path, or `None` if memory runs out.
pub fn depth<A: Allocator>(alloc: A, path: Path<'_>) -> Option<usize>
    ensures { IfSome result (λ depth. depth ≡ length (components_of (path_text path.entry))) }
{
    Some(pieces(alloc, path).ok()?.len())
}
