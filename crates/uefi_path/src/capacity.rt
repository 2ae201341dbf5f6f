//! Copies of a path's parts, with room for the text that is pushed after them.
ghost use Rattle.std.specs.Prelude.{◌≡◌, IfOk};
ghost use Rattle.uefi_text.specs.Views.{text_of};

use crate::path::Path;
use crate::path_units::needs_separator;
use crate::splitting::separators::count_separators;
use std::alloc::{AllocError, Allocator};
use uefi_text::strings::owned_strs::CString16;
use uefi_text::strings::strs::CStr16;

/// Returns the greatest length of a path after another is pushed on it.
pub(crate) fn room_for_both(path: Path<'_>, other: Path<'_>) -> usize {
    let (first, second) = (path.to_cstr16().num_chars(), other.to_cstr16().num_chars());
    first.saturating_add(second).saturating_add(1)
}

/// The greatest length of a path whose separators [`room_if_short`] counts. For a longer path,
/// counting takes more time than it saves.
const SHORT: usize = 256;

/// Returns the greatest number of separators that a push of another path on this one adds, or 0 if
/// the other path is empty or long.
pub(crate) fn room_if_short(path: Path<'_>, other: Path<'_>) -> usize {
    if other.is_empty() || SHORT < other.to_cstr16().num_chars() {
        return 0;
    }
    let is_missing = needs_separator(path.to_cstr16().to_u16_slice());
    let (count, _) = count_separators(other.to_cstr16().to_u16_slice());
    count.saturating_add(usize::from(is_missing))
}

/// Copies a string, with room for this many characters.
pub(crate) fn copy_string<A: Allocator>(
    alloc: A,
    string: CStr16<'_>,
    room: usize,
) -> Result<CString16<A>, AllocError>
    ensures { IfOk result (λ copy. copy ≡ text_of string.entry) }
{
    let mut copy = CString16::with_capacity(alloc, room)?;
    copy.push_str(string)?;
    Ok(copy)
}

/// Copies places, with room for this many more and the separator between.
pub(crate) fn copy_places<A: Allocator>(
    alloc: A,
    places: &[usize],
    more: usize,
) -> Result<Vec<usize, A>, AllocError>
    ensures { IfOk result (λ copy. copy.items ≡ places.now) }
{
    let room = places.len().saturating_add(more).saturating_add(1);
    let mut copy = Vec::with_capacity(alloc, room)?;
    copy.extend_from_slice(places)?;
    Ok(copy)
}
