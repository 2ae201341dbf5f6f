//! Boot entries that a menu changes or inspects.
ghost use Rattle.std.specs.Prelude.{◌≡◌, ◌↔◌, ◌%◌, ◌∷◌, IfSome, IsTrue, None, Ok, OnErr, OnOk, length, slice_range};
ghost use Rattle.uefi_device_path.specs.NodeViews.{data_of};
ghost use Rattle.uefi_device_path.specs.Guids.{IsGuidText};
ghost use Rattle.uefi_device_path.specs.LoadOptions.{Entry, IsEntry, entry_bytes};
ghost use Rattle.uefi_device_path.specs.OptionEdits.{with_attributes, with_description};
ghost use Rattle.uefi_device_path.specs.Nodes.{Node};
ghost use Rattle.uefi_device_path.specs.Views.{checked_bytes, checked_left, entry_of, rest_of};
ghost use Rattle.uefi_text.specs.Views.{text_of};

use uefi_device_path::media::HardDrive;
use uefi_device_path::{CheckedNodes, Guid, LoadOption, LoadOptionError, set_attributes};
use uefi_text::CStr16;

/// Makes firmware start a boot entry by itself, and clears its other attributes. Fails if the bytes are
/// not a boot entry, and then leaves them unchanged.
pub fn activate(bytes: &mut [u8]) -> Result<(), LoadOptionError>
    ensures ok { OnOk result ((entry : Entry) → IsEntry entry → bytes.old ≡ entry_bytes entry
        → bytes.new ≡ entry_bytes (with_attributes 1 entry)) }
    ensures err { OnErr result (bytes.new ≡ bytes.old) }
{
    set_attributes(bytes, 1)
}

/// Writes a boot entry with another name to a buffer, and returns its number of bytes, or `None` if the
/// buffer is too small.
pub fn renamed(option: &LoadOption<'_>, name: CStr16<'_>, buffer: &mut [u8]) -> Option<usize>
    ensures { IfSome result (λ len. len
        ≡ length (entry_bytes (with_description (text_of name.entry) (entry_of option.now)))) }
{
    option.write_with_description(name, buffer).ok()
}

/// Returns whether the optional data of a boot entry may be a command line, which consists of code units.
pub fn may_have_arguments(option: &LoadOption<'_>) -> bool
    ensures { IsTrue result ↔ (length (entry_of option.now).optional % 2 ≡ 0) }
{
    option.optional_units().is_some()
}

/// Advances past the next node of a path. Returns false at the end of the path, or if the next node is
/// malformed.
pub fn pass_node(nodes: &mut CheckedNodes<'_>) -> bool
    ensures bytes { checked_bytes nodes.new ≡ checked_bytes nodes.old }
    ensures passed { IsTrue result
        → (node : Node) × (checked_left nodes.old ≡ Ok node ∷ checked_left nodes.new) }
    ensures stopped { (node : Node) → checked_left nodes.old ≡ Ok node ∷ checked_left nodes.new
        → IsTrue result }
    ensures inside { IsTrue result → rest_of nodes.new ≡ None }
{
    matches!(nodes.next(), Some(Ok(_)))
}

/// Returns whether a text is the GUID of a partition.
pub fn is_partition(drive: &HardDrive<'_>, text: &str) -> bool
    ensures { IsTrue result → IsGuidText text.now (slice_range (data_of drive.now) 20 36) }
{
    match (drive.partition_guid(), Guid::try_parse(text)) {
        (Some(guid), Some(named)) => guid == named,
        _ => false,
    }
}
