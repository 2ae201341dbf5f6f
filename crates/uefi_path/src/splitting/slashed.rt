//! Paths in which slashes separate components too, as in the input of a path buffer.
#![tactic(auto, using(crate::proofs::Rules::slashed_paths_rules))]

ghost use Rattle.std.specs.Prelude.{◌≡◌, ◌≤◌, ◌+◌, ◌-◌, ◌<◌, ◌^◌, ◌++◌, ◌∷◌, [], All, drop, false, length, slice_index, take, true};
ghost use Rattle.std.specs.List.{slice_split};
ghost use Rattle.std.specs.Result.{result_err};
ghost use Rattle.uefi_path.specs.Components.{components_of};
ghost use Rattle.uefi_path.specs.CutPieces.{are_left, slashed_left};
ghost use Rattle.uefi_path.specs.Separators.{becomes_separator, canonical, is_separator, with_separators};
ghost use Rattle.uefi_path.specs.Verdicts.{verdict};
ghost use Rattle.uefi_path.specs.Views.{path_text};
ghost use Rattle.uefi_text.specs.Units.{IsText};
ghost use Rattle.uefi_text.specs.Views.{units_of};

use crate::path::Path;
use crate::validation::{PathError, depth_after, find_fault, validate_path};
use uefi_text::strings::strs::Char16Slice;

/// Returns whether a component ends before this unit.
fn is_end(unit: u16) -> bool
    ensures { result ≡ becomes_separator unit }
{
    unit == 92 || unit == 47
}

/// Returns the index at which the first piece of units ends.
fn first_end(units: &[u16]) -> usize
    ensures within { result ≤ length units.now }
    ensures piece { All (λ unit. becomes_separator unit ≡ false) (take result units.now) }
    ensures after { result < length units.now → becomes_separator (slice_index units.now result) ≡ true }
{
    let mut end = 0;
    while end < units.len() && !is_end(units[end]) {
        end += 1;
    }
    end
}

/// Returns the index at which the last piece of units begins.
fn last_start(units: &[u16]) -> usize
    ensures within { result ≤ length units.now }
    ensures piece { All (λ unit. becomes_separator unit ≡ false) (drop result units.now) }
    ensures after { 0 < result → becomes_separator (slice_index units.now (result - 1)) ≡ true }
{
    let mut start = units.len();
    while 0 < start && !is_end(units[start - 1]) {
        start -= 1;
    }
    start
}

/// Returns the first piece of a text, and the text after it, if there is any.
fn cut_first(text: Char16Slice<'_>) -> (Char16Slice<'_>, Option<Char16Slice<'_>>)
    ensures pieces { slice_split is_separator (with_separators (units_of text.entry))
        ≡ units_of result.0 ∷ slashed_left result.1 }
    ensures shorter { are_left result.1 + length (units_of result.0) ≤ length (units_of text.entry) }
{
    let end = first_end(text.units());
    let first = text.part(0, end);
    if end == text.len() {
        return (first, None);
    }
    (first, Some(text.part(end + 1, text.len())))
}

/// Returns the text before the last piece of a text, if there is any, and that piece.
pub(crate) fn cut_last(text: Char16Slice<'_>) -> (Option<Char16Slice<'_>>, Char16Slice<'_>)
    ensures pieces { slice_split is_separator (with_separators (units_of text.entry))
        ≡ slashed_left result.0 ++ units_of result.1 ∷ [] }
    ensures shorter { are_left result.0 + length (units_of result.1) ≤ length (units_of text.entry) }
{
    let start = last_start(text.units());
    let last = text.part(start, text.len());
    if start == 0 {
        return (None, last);
    }
    (Some(text.part(0, start - 1)), last)
}

/// Returns the index at which units begin without one leading separator or slash.
fn canonical_start(units: &[u16]) -> usize
    ensures start { with_separators (drop result units.now) ≡ canonical (with_separators units.now) }
    ensures within { result ≤ length units.now }
{
    match units {
        [first, ..] if is_end(*first) => 1,
        _ => 0,
    }
}

/// Returns the text from which the components of a path are cut, if slashes separate them too;
/// `None` if there are no components.
pub(crate) fn to_cut(path: Path<'_>) -> Option<Char16Slice<'_>>
    ensures same { slashed_left result ≡ components_of (with_separators (path_text path.entry)) }
    ensures texts { All IsText (slashed_left result) }
    ensures bound { are_left result + 1 < 2 ^ 64 }
    ensures count { length (slashed_left result) < 2 ^ 64 }
{
    let text = path.to_cstr16().as_slice();
    let start = canonical_start(text.units());
    if text.len() <= start {
        return None;
    }
    Some(text.part(start, text.len()))
}

/// Returns why a path whose slashes are separators is refused, if it is, component by component.
fn find_fault_slashed(path: Path<'_>) -> Option<PathError>
    ensures { result ≡ verdict (with_separators (path_text path.entry)) }
{
    if path.is_empty() {
        return Some(PathError::Empty);
    }
    let mut rest = to_cut(path);
    let mut depth = 0;
    while let Some(text) = rest {
        let (component, after) = cut_first(text);
        if let Some(error) = find_fault(component) {
            return Some(error);
        }
        let Some(left) = depth_after(depth, component) else {
            return Some(PathError::ClimbsAboveRoot);
        };
        depth = left;
        rest = after;
    }
    None
}

/// Returns why a path is refused whose slashes are separators, if it is.
pub(crate) fn judge_slashed(path: Path<'_>) -> Result<(), PathError>
    ensures { result_err result ≡ verdict (with_separators (path_text path.entry)) }
{
    // A valid path has no slash, and is judged faster.
    if validate_path(path).is_ok() {
        return Ok(());
    }
    match find_fault_slashed(path) {
        None => Ok(()),
        Some(error) => Err(error),
    }
}
