//! Calls on slices of code units that paths share with the C library. Contracts see the units as
//! lists. Hidden, because these calls may change.
#![tactic(auto, using(crate::proofs::Rules::last_pieces_rules))]

ghost use Rattle.std.specs.Prelude.{◌≡◌, ◌≢◌, ◌↔◌, ◌+◌, ◌-◌, ◌<◌, ◌≤◌, [], ◌∷◌, IfSome, IsNone, IsSome, MatchOption, None, Some, drop, length, option_map, slice_index, slice_range, take};
ghost use Rattle.std.specs.List.{last_or, position, position_or_len, slice_split};
ghost use Rattle.uefi_path.specs.ComponentPlaces.{component_place, components_from};
ghost use Rattle.uefi_path.specs.Components.{IsPiece, components_of, joined};
ghost use Rattle.uefi_path.specs.Parents.{all_but_last, parent_text};
ghost use Rattle.uefi_path.specs.Pushing.{needs_separator};
ghost use Rattle.uefi_path.specs.Separators.{canonical, is_separator, separator, slash, with_separators};
ghost use Rattle.uefi_path.specs.Verdicts.{IsValid};
ghost use Rattle.uefi_text.specs.Units.{replaced};

use crate::splitting::separators::last_start;
use uefi_text::chars::{SEPARATOR, SLASH};

/// Returns the unit, or a separator instead of a slash.
#[inline(always)]
pub fn with_separator(unit: u16) -> u16
    ensures { result ≡ replaced slash separator unit }
{
    if unit == u16::from(SLASH) {
        u16::from(SEPARATOR)
    } else {
        unit
    }
}

/// Returns whether a text is not empty and its last unit is not a separator.
pub(crate) fn needs_separator(text: &[u16]) -> bool
    ensures { result ≡ needs_separator text.now }
{
    !text.is_empty() && text[text.len() - 1] != u16::from(SEPARATOR)
}

/// Does what [`needs_separator`] does, for a text whose slashes are replaced.
pub(crate) fn needs_separator_replaced(text: &[u16]) -> bool
    ensures { result ≡ needs_separator (with_separators text.now) }
{
    !text.is_empty() && with_separator(text[text.len() - 1]) != u16::from(SEPARATOR)
}

/// Returns the index at which the last component begins, if there is one: it ends where the units
/// end. Reads only that component.
#[inline(always)]
pub fn last_component(units: &[u16]) -> Option<usize>
    ensures name { option_map (λ start. drop start units.now) result
        ≡ last_or None (components_of units.now) }
    ensures none { IsNone result → components_of units.now ≡ [] }
    ensures within { IfSome result (λ start. start ≤ length units.now) }
{
    let start = last_start(units);
    if start == units.len() && start <= 1 {
        return None;
    }
    Some(start)
}

/// Returns the index of the separator before the last component, if there are other components: the
/// units before that index are a path of the other components.
#[inline(always)]
pub fn others_end(units: &[u16]) -> Option<usize>
    ensures others { IfSome result (λ end.
        canonical (take end units.now) ≡ joined (all_but_last (components_of units.now))) }
    ensures valid { IfSome result (λ end. IsValid units.now
        → parent_text units.now ≡ Some (canonical (take end units.now))) }
    ensures some { IsSome result ↔ (all_but_last (components_of units.now) ≢ []) }
    ensures separator { IfSome result (λ end. slice_index units.now end ≡ separator) }
    ensures last { IfSome result (λ end. IsPiece (drop (end + 1) units.now)) }
    ensures within { IfSome result (λ end. end < length units.now) }
{
    let start = last_start(units);
    if start <= 1 {
        return None;
    }
    Some(start - 1)
}

/// Returns the index at which the next component begins, if there is one.
fn component_start(text: &[u16], place: usize) -> Option<usize>
    ensures left { MatchOption result
        (components_from text.now place ≡ []) (λ start. (start ≤ length text.now)
        × (components_from text.now place ≡ slice_split is_separator (drop start text.now))) }
    ensures place { IfSome result (λ start. start ≡ component_place text.now place) }
{
    if 0 < place {
        return if place <= text.len() {
            Some(place)
        } else {
            None
        };
    }
    match text {
        [] | [92] => None,
        [92, ..] => Some(1),
        _ => Some(0),
    }
}

/// Returns the index of the first separator.
fn find_separator(units: &[u16]) -> Option<usize>
    ensures { result ≡ position is_separator units.now }
{
    units.iter().position(|unit| *unit == u16::from(SEPARATOR))
}

/// Returns the number of units before the first separator.
fn piece_len(units: &[u16]) -> usize
    ensures len { result ≡ position_or_len is_separator units.now }
    ensures within { result ≤ length units.now }
{
    find_separator(units).unwrap_or(units.len())
}

/// Returns the next component of a path from an index in its units on, if there is one: the index
/// at which it begins, and its number of units. The index is 0 at first, and then the one after the
/// separator that ends a component.
pub fn next_component(units: &[u16], place: usize) -> Option<(usize, usize)>
    ensures next { IfSome result (λ found. components_from units.now place
        ≡ slice_range units.now found.0 (found.0 + found.1)
        ∷ components_from units.now (found.0 + found.1 + 1)) }
    ensures start { IfSome result (λ found. found.0 ≡ component_place units.now place) }
    ensures within { IfSome result (λ found. found.0 + found.1 ≤ length units.now) }
    ensures none { IsNone result → components_from units.now place ≡ [] }
{
    let Some(start) = component_start(units, place) else {
        return None;
    };
    let count = piece_len(&units[start..]);
    Some((start, count))
}
