//! Patterns of file names, as the firmware's Unicode collation matches them: `MetaiMatch` (UEFI
//! Specification 2.10, section 21.1). No call allocates or recurses.
//!
//! | in a pattern | matches |
//! |---|---|
//! | `*` | any characters, or none |
//! | `?` | any one character |
//! | `[`, a set, `]` | one character of the set |
//! | any other character | itself, without case |
//!
//! A set ends at its first `]`. In a set, `-` means all characters from the one before it to the
//! one after it, in the order of their upper cases; the character before the first one of a set is
//! U+0000. A `[` without `]` matches nothing. `specs/Patterns.antt` defines what a pattern matches,
//! with one rule for each way that it can begin.
ghost use Rattle.std.specs.Prelude.{IfSome, Some, None, ◌≡◌, ◌≢◌, ◌==◌, ◌↔◌, ◌+◌, ◌*◌, ◌^◌, ◌<◌, ◌≤◌, [], IsTrue, MatchOption, drop, length, position, slice_index, take};
ghost use Rattle.uefi_text.specs.PatternParts.{IsPart, Refuses, TakesOne, is_right_bracket, part_reads, set_has, unit_has};
ghost use Rattle.uefi_text.specs.Patterns.{Matches, star};
ghost use Rattle.uefi_text.specs.Views.{read_count, read_units, text_of, units_of};

use crate::case::upper;
use crate::counted_reads::CountedReader;
use crate::strings::strs::{CStr16, Char16Slice};

const STAR: u16 = 0x2a;

const QUESTION_MARK: u16 = 0x3f;

const LEFT_BRACKET: u16 = 0x5b;

const RIGHT_BRACKET: u16 = 0x5d;

const HYPHEN: u16 = 0x2d;

/// The last `*` so far: where the pattern goes on, and where in the text that was tried last.
#[derive(Clone, Copy, Drop)]
struct Star {
    after: usize,
    tried: usize,
}

/// The effect of the first part of a pattern on a unit.
#[derive(Clone, Copy, Drop)]
enum Part {
    /// It is a `*`.
    Star,
    /// It has this many units, and matches the unit.
    Takes(usize),
    Refuses,
}

/// Returns whether a unit of a set takes another: as itself, or as the end of a range, if `-` is
/// before it. `earlier` is before that.
#[inline(always)]
fn takes_here(earlier: u16, before: u16, c: u16, unit: u16) -> bool
    ensures { result ≡ unit_has earlier before c unit }
{
    let capital = upper(unit);
    let end = upper(c);
    let in_range = upper(earlier) <= capital && capital <= end;
    before == HYPHEN && (in_range || end == capital) || c != HYPHEN && end == capital
}

/// Reads once over a set that begins at `start`, after its `[`. Returns the number of units before
/// its `]`, and whether the set has the unit. `None` if there is no `]`.
fn set_takes(pattern: &mut CountedReader<'_>, start: usize, unit: u16) -> Option<(usize, bool)>
    requires { start ≤ length (read_units pattern.old) }
    ensures units { read_units pattern.new ≡ read_units pattern.old }
    ensures set { MatchOption result (None ≡ position is_right_bracket (drop start (read_units pattern.old)))
        (λ set. (Some set.0 ≡ position is_right_bracket (drop start (read_units pattern.old)))
        × (set.1 ≡ set_has (take set.0 (drop start (read_units pattern.old))) unit)) }
    ensures cost { MatchOption result
        (read_count pattern.new + start ≤ read_count pattern.old + length (read_units pattern.old))
        (λ set. read_count pattern.new ≤ read_count pattern.old + set.0 + 1) }
{
    let mut takes = false;
    let mut earlier = 0;
    let mut before = 0;
    for i in start..pattern.len() {
        let c = pattern.get(i);
        if c == RIGHT_BRACKET {
            return Some((i - start, takes));
        }
        takes |= takes_here(earlier, before, c, unit);
        earlier = before;
        before = c;
    }
    None
}

/// Returns the length of the unit or set at an index of the pattern, if that is not `*` and takes a
/// unit. `first` is the unit at that index.
#[inline(always)]
fn part_that_takes(
    pattern: &mut CountedReader<'_>,
    at: usize,
    first: u16,
    unit: u16,
) -> Option<usize>
    requires within { at < length (read_units pattern.old) }
    requires bound { length (read_units pattern.old) < 2 ^ 64 }
    requires first { first ≡ slice_index (read_units pattern.old) at }
    requires no_star { first ≢ star }
    ensures units { read_units pattern.new ≡ read_units pattern.old }
    ensures takes { MatchOption result (Refuses (drop at (read_units pattern.old)) unit)
        (λ n. TakesOne (drop at (read_units pattern.old)) (drop n (drop at (read_units pattern.old))) unit) }
    ensures within { IfSome result (λ n. (0 < n) × (at + n ≤ length (read_units pattern.old))) }
    ensures cost { MatchOption result
        (read_count pattern.new + at < read_count pattern.old + length (read_units pattern.old))
        (λ n. read_count pattern.new < read_count pattern.old + n) }
{
    if first == QUESTION_MARK {
        return Some(1);
    }
    if first == LEFT_BRACKET {
        let Some((len, takes)) = set_takes(pattern, at + 1, unit) else {
            return None;
        };
        return if takes { Some(len + 2) } else { None };
    }
    if upper(first) == upper(unit) {
        return Some(1);
    }
    None
}

/// Returns the part of the pattern at an index, for a unit of the text.
#[inline(always)]
fn part_at(pattern: &mut CountedReader<'_>, at: usize, unit: u16) -> Part
    requires { at ≤ length (read_units pattern.old) }
    ensures units { read_units pattern.new ≡ read_units pattern.old }
    ensures bound { length (read_units pattern.old) < 2 ^ 64 }
    ensures part { IsPart result (drop at (read_units pattern.old)) unit }
    ensures cost { read_count pattern.new
        ≤ read_count pattern.old + part_reads result (drop at (read_units pattern.old)) }
{
    if at == pattern.len() {
        return Part::Refuses;
    }
    let first = pattern.get(at);
    if first == STAR {
        return Part::Star;
    }
    match part_that_takes(pattern, at, first, unit) {
        Some(n) => Part::Takes(n),
        None => Part::Refuses,
    }
}

/// Returns whether the pattern matches the empty text from an index on: whether only `*` follows.
fn matches_nothing(pattern: &mut CountedReader<'_>, start: usize) -> bool
    requires { start ≤ length (read_units pattern.old) }
    ensures units { read_units pattern.new ≡ read_units pattern.old }
    ensures matches { IsTrue result ↔ Matches (drop start (read_units pattern.old)) [] }
    ensures cost { read_count pattern.new + start ≤ read_count pattern.old + length (read_units pattern.old) }
{
    for i in start..pattern.len() {
        if pattern.get(i) != STAR {
            return false;
        }
    }
    true
}

impl<'a> CountedReader<'a> {
    /// Returns whether a pattern matches all of the units, as [`CStr16::matches`] does. Reads fewer
    /// than (p + 1) * (t + 1) units of each, if the pattern has p units and the text t.
    ///
    /// If a unit is refused, the search goes back only to the last `*`, which then takes one unit
    /// more: a match that begins later in the text after an earlier `*` also reaches the last `*`.
    ///
    /// ```rust
    /// use counted_reads::CountedReader;
    ///
    /// let name = CStr16::from_u16_with_nul(&[0x48, 0x69, 0])?.as_slice();
    /// assert!(rt; CountedReader::new(name).matches(&mut CountedReader::new(name)));
    /// ```
    pub fn matches(&mut self, pattern: &mut CountedReader<'_>) -> bool
        ensures matches { IsTrue result ↔ Matches (read_units pattern.old) (read_units self.old) }
        ensures text { read_units self.new ≡ read_units self.old }
        ensures pattern { read_units pattern.new ≡ read_units pattern.old }
        ensures text_reads { read_count self.new < read_count self.old
            + (length (read_units pattern.old) + 1) * (length (read_units self.old) + 1) }
        ensures pattern_reads { read_count pattern.new < read_count pattern.old
            + (length (read_units pattern.old) + 1) * (length (read_units self.old) + 1) }
    {
        let mut at = 0;
        let mut place = 0;
        let mut star: Option<Star> = None;
        'searching: while place < self.len() {
            let unit = self.get(place);
            match part_at(pattern, at, unit) {
                Part::Star => {
                    at += 1;
                    star = Some(Star {
                        after: at,
                        tried: place,
                    });
                }
                Part::Takes(n) => {
                    at += n;
                    place += 1;
                }
                Part::Refuses => {
                    let Some(last) = star else {
                        return false;
                    };
                    at = last.after;
                    place = last.tried + 1;
                    star = Some(Star {
                        after: at,
                        tried: place,
                    });
                }
            }
        }
        matches_nothing(pattern, at)
    }
}

/// Returns whether a pattern matches all of the units, as [`CStr16::matches`] does. Both may
/// contain surrogates, as names on FAT volumes may.
///
/// ```rust
/// assert!(rt; patterns::matches(&[0x61, 0xd83d, 0xde00], &[0x41, 0x2a]));
/// assert!(rt; !patterns::matches(&[0x61], &[0x3f, 0x3f]));
/// ```
pub fn matches(units: &[u16], pattern: &[u16]) -> bool
    ensures { IsTrue result ↔ Matches pattern.now units.now }
{
    CountedReader::of_units(units).matches(&mut CountedReader::of_units(pattern))
}

impl<'a> CStr16<'a> {
    /// Returns whether a pattern matches the whole string, without case. Reads fewer than (p + 1) *
    /// (t + 1) units of each, if the pattern has p characters and the string t.
    /// [`CountedReader::matches`] promises that.
    ///
    /// ```rust
    /// let pattern = CString16::try_from_str(rt.alloc(), "shim*.[ef]?i")?;
    /// let name = CString16::try_from_str(rt.alloc(), "SHIMX64.EFI")?;
    /// assert!(rt; name.as_cstr16().matches(pattern.as_cstr16()));
    /// assert!(rt; !pattern.as_cstr16().matches(name.as_cstr16()));
    /// ```
    pub fn matches(&self, pattern: CStr16<'_>) -> bool
        ensures { IsTrue result ↔ Matches (text_of pattern.entry) (text_of self.now) }
    {
        self.as_slice().matches(pattern.as_slice())
    }
}

impl<'a> Char16Slice<'a> {
    /// Returns whether a pattern matches all of the characters, as [`CStr16::matches`] does.
    ///
    /// ```rust
    /// let pattern = CString16::try_from_str(rt.alloc(), "*.efi")?;
    /// let name = CString16::try_from_str(rt.alloc(), "a.efi.bak")?;
    /// let (pattern, name) = (pattern.as_cstr16().as_slice(), name.as_cstr16().as_slice());
    /// assert!(rt; name.part(0, 5).matches(pattern));
    /// assert!(rt; !name.matches(pattern));
    /// ```
    pub fn matches(&self, pattern: Char16Slice<'_>) -> bool
        ensures { IsTrue result ↔ Matches (units_of pattern.entry) (units_of self.now) }
    {
        matches(self.units(), pattern.units())
    }
}
