//! Boot entries: whether firmware starts one by itself, how a menu shows one, and the path of a new
//! one.
ghost use Rattle.std.specs.Prelude.{◌≡◌, ◌↔◌, ◌%◌, ◌∷◌, [], IfErr, IfOk, IsTrue};
ghost use Rattle.uefi_device_path.specs.Building.{node_of_name};
ghost use Rattle.uefi_device_path.specs.LoadOptions.{Entry, EntryRefusedFor, IsEntry, entry_bytes};
ghost use Rattle.uefi_path.specs.Views.{path_text};

use std::alloc::Global;
use uefi_device_path::build::media::HardDrive;
use uefi_device_path::{BuildError, BuildNode, DevicePathBuf, LoadOption, LoadOptionError};
use uefi_path::Path;

/// Returns whether firmware starts a boot entry by itself, or why the bytes are not a boot entry.
pub fn starts_by_itself(bytes: &[u8]) -> Result<bool, LoadOptionError>
    ensures ok { IfOk result (λ starts. (entry : Entry) × IsEntry entry
        × (bytes.now ≡ entry_bytes entry) × (IsTrue starts ↔ (entry.attributes % 2 ≡ 1))) }
    ensures refused { IfErr result (λ error. EntryRefusedFor bytes.now error) }
{
    let entry = LoadOption::from_bytes(bytes)?;
    Ok(entry.is_active())
}

/// Formats the name of a boot entry and its device paths, as people read them.
pub fn line_of_entry(alloc: Global, bytes: &[u8]) -> anyhow::Result<String>
    ensures ok { IfOk result (λ _. (entry : Entry) × IsEntry entry × (bytes.now ≡ entry_bytes entry)) }
{
    let entry = LoadOption::from_bytes(bytes)?;
    let mut line = entry.description_lossy(alloc)?;
    for path in entry.device_paths() {
        line.push_str(&format!(in alloc; ", {path}")?)?;
    }
    Ok(line)
}

/// Creates the device path of a file on a partition, as in a boot entry.
pub fn path_of_file(
    alloc: Global,
    partition: &HardDrive,
    file: Path<'_>,
) -> Result<DevicePathBuf, BuildError>
    ensures { IfOk result (λ path.
        path ≡ ⟦<HardDrive as BuildNode>⟧.node partition.now ∷ node_of_name (path_text file.entry) ∷ []) }
{
    let Ok(mut path) = DevicePathBuf::new(alloc) else {
        return Err(BuildError::OutOfMemory);
    };
    path.push_node(partition)?;
    path.push_file(file)?;
    Ok(path)
}
