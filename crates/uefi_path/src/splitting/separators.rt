//! Separators: which units become separators, and their indices. A vector comparison tests a block
//! of units.
#![tactic(auto, using(crate::proofs::Rules::places_rules))]

ghost use Rattle.std.specs.Prelude.{◌≡◌, ◌<◌, ◌≤◌, ◌+◌, ◌-◌, ◌++◌, ◌∷◌, [], IfSome, IsNone, count_by, drop, length, map, slice_index, take};
ghost use Rattle.std.specs.List.{list_any, slice_range, slice_split};
ghost use Rattle.uefi_path.specs.Components.{IsPiece};
ghost use Rattle.uefi_path.specs.CutPieces.{are_left, pieces_left};
ghost use Rattle.std.specs.Option.{option_to_list};
ghost use Rattle.std.specs.Simd.Lanes.{mask_l};
ghost use Rattle.std.specs.Vec.{vec_capacity, vec_len};
ghost use Rattle.uefi_path.specs.Separators.{becomes_separator, is_separator, is_slash, places_from, separator};
ghost use Rattle.uefi_text.specs.Views.{units_of};

use std::alloc::Allocator;
use std::simd::prelude::*;
use uefi_text::chars::SEPARATOR;
use uefi_text::strings::strs::Char16Slice;

/// The number of units that are tested together if a text has as many.
const BLOCK: usize = 16;

/// The number of units that are tested together if it has fewer; the last ones are tested one by
/// one.
const SMALL_BLOCK: usize = 8;

/// The number of units that are counted in a number as wide as a unit, so that this becomes vector
/// code.
const COUNTED: usize = 4096;

/// Returns the number of units of a block that are separators once slashes are replaced, and
/// whether one is a slash.
#[inline(always)]
fn count_in_block(units: &[u16]) -> (u16, bool)
    requires { length units.now ≤ 4096 }
    ensures count { result.0 ≡ count_by becomes_separator units.now }
    ensures slash { result.1 ≡ list_any is_slash units.now }
{
    let mut count = 0;
    let mut has_slash = false;
    for unit in units {
        let is_slash = *unit == 47;
        count += u16::from(is_slash | (*unit == 92));
        has_slash |= is_slash;
    }
    (count, has_slash)
}

/// Returns the number of units that are separators once slashes are replaced, and whether one is a
/// slash.
#[inline(always)]
pub(crate) fn count_separators(units: &[u16]) -> (usize, bool)
    ensures count { result.0 ≡ count_by becomes_separator units.now }
    ensures slash { result.1 ≡ list_any is_slash units.now }
{
    let mut count = 0;
    let mut has_slash = false;
    for block in units.chunks(COUNTED) {
        let (more, found) = count_in_block(block);
        count += usize::from(more);
        has_slash |= found;
    }
    (count, has_slash)
}

/// Returns a bit for each of the first units, set if the unit is a separator; the first unit has
/// the lowest bit.
#[inline(always)]
pub(crate) fn separator_bits_first<const N: usize>(units: &[u16]) -> u64
    requires within { N ≤ length units.now }
    requires word { N ≤ 64 }
    ensures { result ≡ mask_l (map is_separator (take N units.now)) }
{
    Simd::<u16, N>::from_slice(units)
        .simd_eq(Simd::<u16, N>::splat(92))
        .to_bitmask()
}

/// Returns the bits of fewer units than are tested together.
#[inline(always)]
fn separator_bits_few(units: &[u16]) -> u64
    requires { length units.now < 16 }
    ensures { result ≡ mask_l (map is_separator units.now) }
{
    let mut bits = 0;
    let mut i = units.len();
    while 0 < i {
        i -= 1;
        bits = u64::from(units[i] == 92) + 2 * bits;
    }
    bits
}

/// Returns a bit for each of the first units, and the number of units that have a bit.
#[inline(always)]
fn separator_bits(units: &[u16]) -> (u64, usize)
    ensures within { result.1 ≤ length units.now }
    ensures some { 0 < length units.now → 0 < result.1 }
    ensures word { result.1 ≤ 64 }
    ensures bits { result.0 ≡ mask_l (map is_separator (take result.1 units.now)) }
{
    if BLOCK <= units.len() {
        return (separator_bits_first::<BLOCK>(units), BLOCK);
    }
    if SMALL_BLOCK <= units.len() {
        return (separator_bits_first::<SMALL_BLOCK>(units), SMALL_BLOCK);
    }
    (separator_bits_few(units), units.len())
}

/// The separators of units that remain. In contracts they are `places_left` of it.
#[derive(Clone, Copy)]
pub(crate) struct Separators<'a> {
    /// The indices of the first ones, if they are known.
    known: &'a [usize],

    /// The units that contain the other separators, from `start` on.
    units: &'a [u16],
    start: usize,

    /// A bit for each unit from `start` up to `end`; the first is the lowest.
    bits: u64,
    end: usize,
    pub ghost ordered: { start ≤ end },
    pub ghost within: { end ≤ length units.now },
    pub ghost word: { end - start ≤ 64 },
    pub ghost seen: { bits ≡ mask_l (map is_separator (slice_range units.now start end)) },
}

impl<'a> Separators<'a> {
    ghost use Rattle.uefi_path.specs.SeparatorsLeft.{places_left};

    /// Returns the separators of units from an index on.
    pub(crate) fn of(units: &'a [u16], start: usize) -> Separators<'a>
        requires { start ≤ length units.now }
        ensures { places_left result ≡ places_from start (drop start units.now) }
    {
        Separators {
            known: &[],
            units,
            start,
            bits: 0,
            end: start,
        }
    }

    /// Returns the separators at known indices.
    pub(crate) fn at(known: &'a [usize]) -> Separators<'a>
        ensures { places_left result ≡ known.now }
    {
        Separators {
            known,
            units: &[],
            start: 0,
            bits: 0,
            end: 0,
        }
    }

    /// Returns the separators of units from an index on that were all tested: a bit says of each
    /// unit whether it is a separator.
    #[inline(always)]
    pub(crate) fn seen(units: &'a [u16], start: usize, bits: u64) -> Separators<'a>
        requires within { start ≤ length units.now }
        requires word { length units.now ≤ start + 64 }
        requires bits { bits ≡ mask_l (map is_separator (drop start units.now)) }
        ensures left { places_left result ≡ places_from start (drop start units.now) }
        ensures all { result.end ≡ length result.units.now }
        ensures none_known { result.known.now ≡ [] }
    {
        Separators {
            known: &[],
            units,
            start,
            bits,
            end: units.len(),
        }
    }

    /// Returns these separators, once the next units are tested, if no bit is set.
    #[inline(always)]
    fn look_on(self) -> Separators<'a>
        requires none { self.bits ≡ 0 }
        requires more { self.end < length self.units.now }
        ensures same { places_left result ≡ places_left self.entry }
        ensures known { result.known.now ≡ self.entry.known.now }
        ensures units { result.units.now ≡ self.entry.units.now }
        ensures further { self.entry.end < result.end }
    {
        let (bits, count) = separator_bits(&self.units[self.end..]);
        Separators {
            known: self.known,
            units: self.units,
            start: self.end,
            bits,
            end: self.end + count,
        }
    }

    /// Returns the index of the lowest bit, and the separators after it.
    #[inline(always)]
    fn take_lowest(self) -> (usize, Separators<'a>)
        requires some { 0 < self.bits }
        requires none_known { self.known.now ≡ [] }
        ensures left { places_left self.entry ≡ result.0 ∷ places_left result.1 }
        ensures units { result.1.units.now ≡ self.entry.units.now }
        ensures end { result.1.end ≡ self.entry.end }
        ensures none_known { result.1.known.now ≡ [] }
    {
        let gap = self.bits.trailing_zeros();
        let place = self.start + gap as usize;
        let after = Separators {
            known: self.known,
            units: self.units,
            start: place + 1,
            bits: self.bits >> gap >> 1,
            end: self.end,
        };
        (place, after)
    }

    /// Adds these places to others, for which there is room, where all units were looked at.
    #[inline(always)]
    pub(crate) fn add_to<A: Allocator>(self, places: &mut Vec<usize, A>)
        requires all { self.end ≡ length self.units.now }
        requires none_known { self.known.now ≡ [] }
        requires room { vec_len places.now + length (places_left self) ≤ vec_capacity places.now }
        ensures { places.new.items ≡ places.old.items ++ places_left self.entry }
    {
        let mut left = self;
        while left.bits != 0 {
            let (place, after) = left.take_lowest();
            places.push_reserved(place);
            left = after;
        }
    }

    /// The place of the next one.
    #[inline(always)]
    pub(crate) fn next(&mut self) -> Option<usize>
        ensures next { places_left self.old ≡ option_to_list result ++ places_left self.new }
        ensures end { IsNone result → places_left self.new ≡ [] }
    {
        if !self.known.is_empty() {
            let place = self.known[0];
            self.known = &self.known[1..];
            return Some(place);
        }
        let mut left = *self;
        while left.bits == 0 {
            if left.end == left.units.len() {
                *self = left;
                return None;
            }
            left = left.look_on();
        }
        let (place, after) = left.take_lowest();
        *self = after;
        Some(place)
    }
}

/// Adds the places of the separators that units have from `start` on, for which there is room.
#[inline(always)]
pub(crate) fn add_places<A: Allocator>(places: &mut Vec<usize, A>, units: &[u16], start: usize)
    requires within { start ≤ length units.now }
    requires room { vec_len places.now + length (places_from start (drop start units.now))
        ≤ vec_capacity places.now }
    ensures { places.new.items ≡ places.old.items ++ places_from start (drop start units.now) }
{
    let mut separators = Separators::of(units, start);
    while let Some(place) = separators.next() {
        places.push_reserved(place);
    }
}

/// Returns the index at which the last piece of units begins.
pub(crate) fn last_start(units: &[u16]) -> usize
    ensures within { result ≤ length units.now }
    ensures piece { IsPiece (drop result units.now) }
    ensures after { 0 < result → slice_index units.now (result - 1) ≡ separator }
{
    let mut start = units.len();
    while 0 < start && units[start - 1] != u16::from(SEPARATOR) {
        start -= 1;
    }
    start
}

/// Returns the text before the last piece of a text, if there is any, and that piece.
pub(crate) fn cut_last(text: Char16Slice<'_>) -> (Option<Char16Slice<'_>>, Char16Slice<'_>)
    ensures pieces { slice_split is_separator (units_of text.entry)
        ≡ pieces_left result.0 ++ units_of result.1 ∷ [] }
    ensures shorter { are_left result.0 + length (units_of result.1) ≤ length (units_of text.entry) }
    ensures first { IfSome result.0 (λ front.
        units_of front ≡ take (are_left result.0) (units_of text.entry)) }
{
    let start = last_start(text.units());
    let last = text.part(start, text.len());
    if start == 0 {
        return (None, last);
    }
    (Some(text.part(0, start - 1)), last)
}
