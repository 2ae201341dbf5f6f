//! Paths in units that C holds: the verdict on one, comparisons, and the offsets of components.
ghost use Rattle.std.specs.Prelude.{◌≡◌, ◌≢◌, ◌↔◌, ℕ, ◌+◌, ◌<◌, ◌≤◌, ◌∷◌, [], List, Err, Ok, IsFalse, IsTrue, None, Some, drop, length, slice_index, slice_range, take};
ghost use Rattle.std.specs.Cmp.Lexicographic.{slice_cmp};
ghost use Rattle.std.specs.List.{last_or};
ghost use Rattle.std.specs.Ordering.{nat_cmp};
ghost use Rattle.uefi_text.specs.Case.{uppers};
ghost use Rattle.uefi_text.specs.Units.{BeginsWithString};
ghost use Rattle.uefi_path.specs.Components.{IsPiece, components_of, joined};
ghost use Rattle.uefi_path.specs.Parents.{all_but_last, parent_text};
ghost use Rattle.uefi_path.specs.Separators.{canonical, separator};
ghost use Rattle.uefi_path.specs.Verdicts.{IsValid, verdict};
ghost use Rattle.uefi_path.specs.WithoutCase.{MatchesPath};
ghost use Rattle.uefi_path.specs.Views.{path_text};
ghost use Rattle.uefi_path.specs.ComponentPlaces.{component_place, components_from};
ghost use Rattle.nardcorbel.specs.Reasons.{order_number, refused_character};
ghost use Rattle.nardcorbel.specs.Outcomes.{ShowsNumber};
ghost use Rattle.nardcorbel.specs.Outcomes.Outcome.{Refused};
ghost use Rattle.nardcorbel.specs.Paths.{ShowsVerdict};
ghost use Rattle.nardcorbel.specs.Reading.{read_string};
ghost use Rattle.nardcorbel.specs.Strings.{text_until_nul};
ghost use Rattle.nardcorbel.specs.declared.outcomes.Refusal.{Refusal};

use crate::outcomes::{Refusal, read_string, refuse};
use crate::reasons::{OK, order_number, path_reason};
use crate::strings::until_nul;
use uefi_path::path_units::{last_component, next_component, others_end};
use uefi_path::{Path, validate_path_at};
use uefi_text::CStr16;
use uefi_text::case::eq_ignore_case;
use uefi_text::chars::SEPARATOR;

/// Checks that a path names a file. Returns `OK`, or the error, with the character that is not allowed
/// and the index at which the component at fault begins.
fn judge(path: Path<'_>, len: &mut usize, fault: &mut usize, character: &mut u16) -> u32
    ensures verdict { ShowsVerdict (path_text path.entry) len.old fault.old
        result len.new fault.new character.new }
    ensures valid { (result ≡ OK) ↔ IsValid (path_text path.entry) }
{
    match validate_path_at(path) {
        Ok(()) => {
            *len = path.to_cstr16().num_chars();
            *character = 0;
            OK
        }
        Err(found) => {
            let (reason, refused) = path_reason(found.error);
            *fault = found.place;
            *character = refused;
            reason
        }
    }
}

/// Checks that the units begin with a string whose path names a file.
///
/// Units that do not begin with a string are rejected as by `nard_string_length`, with its `fault`,
/// and then the path as by `validate_path_at`: `fault` becomes the index at which the component at
/// fault begins. At `OK`, `len` becomes the length of the text. `character` becomes the rejected
/// character at `ILLEGAL_CHAR`, and otherwise 0. Does not allocate.
#[unsafe(no_mangle)]
pub extern "C" fn nard_path_check(
    units: &[u16],
    len: &mut usize,
    fault: &mut usize,
    character: &mut u16,
) -> u32
    ensures no_string { (refusal : Refusal) → read_string units.now ≡ Err refusal
        → ShowsNumber (Refused refusal) len.old fault.old result len.new fault.new × (character.new ≡ 0) }
    ensures verdict { (text : List ℕ) → read_string units.now ≡ Ok text
        → ShowsVerdict text len.old fault.old result len.new fault.new character.new }
    ensures valid { (result ≡ OK) ↔ (BeginsWithString units.now × IsValid (text_until_nul units.now)) }
{
    match read_string(units) {
        Ok(string) => judge(Path::new(string), len, fault, character),
        Err(refusal) => {
            *character = 0;
            refuse(refusal, len, fault)
        }
    }
}

/// The units of a text without one leading separator.
fn canonical(units: &[u16]) -> &[u16]
    ensures { result.now ≡ canonical (text_until_nul units.now) }
{
    let text = until_nul(units);
    if !text.is_empty() && text[0] == u16::from(SEPARATOR) {
        return &text[1..];
    }
    text
}

/// Returns whether two paths are equal: one leading separator makes no difference. Does not allocate.
#[unsafe(no_mangle)]
pub extern "C" fn nard_path_equal(first: &[u16], second: &[u16]) -> bool
    ensures { IsTrue result
        ↔ (canonical (text_until_nul first.now) ≡ canonical (text_until_nul second.now)) }
{
    canonical(first) == canonical(second)
}

/// Returns the order of two paths, by their texts without one leading separator, by code unit: -1,
/// 0 or 1 if the first is less, equal or greater. Does not allocate.
#[unsafe(no_mangle)]
pub extern "C" fn nard_path_compare(first: &[u16], second: &[u16]) -> i32
    ensures { result ≡ order_number (slice_cmp nat_cmp
        (canonical (text_until_nul first.now)) (canonical (text_until_nul second.now))) }
{
    order_number(canonical(first).cmp(canonical(second)))
}

/// Returns whether two paths are equal without case: one leading separator makes no difference. Does
/// not allocate.
#[unsafe(no_mangle)]
pub extern "C" fn nard_path_equal_ignore_case(first: &[u16], second: &[u16]) -> bool
    ensures { IsTrue result ↔ (uppers (canonical (text_until_nul first.now))
        ≡ uppers (canonical (text_until_nul second.now))) }
{
    eq_ignore_case(canonical(first), canonical(second))
}

/// Returns whether both begin with a string, the two paths have the same number of components, and
/// each component of the pattern matches the component of the path at the same index. Does not
/// allocate.
#[unsafe(no_mangle)]
pub extern "C" fn nard_path_matches(path: &[u16], pattern: &[u16]) -> bool
    ensures { IsTrue result ↔ (BeginsWithString path.now × BeginsWithString pattern.now
        × MatchesPath (text_until_nul pattern.now) (text_until_nul path.now)) }
{
    let Ok(path) = CStr16::from_u16_until_nul(path) else {
        return false;
    };
    let Ok(pattern) = CStr16::from_u16_until_nul(pattern) else {
        return false;
    };
    Path::new(path).matches(Path::new(pattern))
}

/// Finds the next component of a path, from an index in its text on. Returns whether there is one.
///
/// `path` is the units of the path without its NUL; any units are allowed. `place` is 0 at first.
/// If there is a component, it is the `component_length` units from `start` on. `start` is `place`,
/// except that it is 1 if a separator begins the text and `place` is 0. `place` becomes the index
/// for the next component, after the separator that ends this one. If there is no component, all
/// three are unchanged. A component may be empty. Does not allocate.
#[unsafe(no_mangle)]
pub extern "C" fn nard_path_next_component(
    path: &[u16],
    place: &mut usize,
    start: &mut usize,
    component_length: &mut usize,
) -> bool
    ensures next { IsTrue result → components_from path.now place.old
        ≡ slice_range path.now start.new (start.new + component_length.new)
        ∷ components_from path.now place.new }
    ensures start { IsTrue result → start.new ≡ component_place path.now place.old }
    ensures after { IsTrue result → place.new ≡ start.new + component_length.new + 1 }
    ensures within { IsTrue result → start.new + component_length.new ≤ length path.now }
    ensures none { IsFalse result → (components_from path.now place.old ≡ [])
        × (place.new ≡ place.old) × (start.new ≡ start.old)
        × (component_length.new ≡ component_length.old) }
{
    let Some((first, count)) = next_component(path, *place) else {
        return false;
    };
    *start = first;
    *component_length = count;
    *place = first + count + 1;
    true
}

/// Finds the last component of a path. Returns whether it has one.
///
/// `path` is the units of the path without its NUL; any units are allowed. `start` becomes the
/// index at which the component begins; the component ends with the text, and may be empty. `start`
/// is unchanged if there is no component. Does not allocate.
#[unsafe(no_mangle)]
pub extern "C" fn nard_path_file_name(path: &[u16], start: &mut usize) -> bool
    ensures name { IsTrue result
        → last_or None (components_of path.now) ≡ Some (drop start.new path.now) }
    ensures within { IsTrue result → start.new ≤ length path.now }
    ensures none { IsFalse result → (components_of path.now ≡ []) × (start.new ≡ start.old) }
{
    let Some(first) = last_component(path) else {
        return false;
    };
    *start = first;
    true
}

/// Finds how many units at the start of a path's text are its parent. Returns whether it has a
/// parent: a path of at most one component has none.
///
/// `path` is the units of the path without its NUL; any units are allowed. `parent_length` becomes
/// the index of the separator before the last component: the units before it are a path of all
/// components except the last. For a valid path they are the parent, except for a separator at the
/// start. `parent_length` is unchanged if there is no parent. Does not allocate.
#[unsafe(no_mangle)]
pub extern "C" fn nard_path_parent_length(path: &[u16], parent_length: &mut usize) -> bool
    ensures parent { IsTrue result
        → canonical (take parent_length.new path.now) ≡ joined (all_but_last (components_of path.now)) }
    ensures valid { IsTrue result → IsValid path.now
        → parent_text path.now ≡ Some (canonical (take parent_length.new path.now)) }
    ensures some { IsTrue result ↔ (all_but_last (components_of path.now) ≢ []) }
    ensures separator { IsTrue result → slice_index path.now parent_length.new ≡ separator }
    ensures last { IsTrue result → IsPiece (drop (parent_length.new + 1) path.now) }
    ensures shorter { IsTrue result → parent_length.new < length path.now }
    ensures unchanged { IsFalse result → parent_length.new ≡ parent_length.old }
{
    let Some(end) = others_end(path) else {
        return false;
    };
    *parent_length = end;
    true
}
