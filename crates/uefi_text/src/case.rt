//! Upper and lower case, and strings compared without it, as the firmware's Unicode collation does
//! for English: `StriColl`, `StrUpr` and `StrLwr` (UEFI Specification 2.10, section 21.1). No call
//! allocates.
//!
//! The functions take any units, including surrogates, because names on FAT volumes may contain
//! them. Strings and slices of characters have methods with the same names.
//!
//! The letters that have a case are `a` to `z` and the small letters of Latin-1, U+00E0 to U+00FE
//! except the division sign U+00F7. The upper case of a letter is 32 below it. Any other character
//! is its own upper case and its own lower case. `specs/Case.antt` has the definitions.
ghost use Rattle.std.specs.Prelude.{◌≡◌, ◌≤◌, ◌↔◌, IsTrue, length, map, min, take};
ghost use Rattle.uefi_text.specs.Case.{caseless_order, in_case, is_lowercase, lower, lowers, upper, uppers};
ghost use Rattle.uefi_text.specs.Views.{text_of, units_of};

use crate::chars::Char16;
use crate::strings::strs::{CStr16, Char16Slice};
use std::cmp::Ordering;

/// Returns whether a unit has an upper case, 32 below it.
#[inline(always)]
fn is_lowercase(unit: u16) -> bool
    ensures { result ≡ is_lowercase unit }
{
    // Without branches, so that a loop over units becomes vector code.
    (0x61 <= unit) & (unit <= 0x7a) | (0xe0 <= unit) & (unit <= 0xfe) & (unit != 0xf7)
}

/// Returns a unit in upper case.
///
/// ```rust
/// assert_eq!(rt; case::upper(0xe9), 0xc9);
/// assert_eq!(rt; case::upper(0xd800), 0xd800);
/// ```
#[inline(always)]
pub fn upper(unit: u16) -> u16
    ensures { result ≡ upper unit }
{
    if is_lowercase(unit) { unit - 32 } else { unit }
}

/// Returns a unit in lower case.
///
/// ```rust
/// assert_eq!(rt; case::lower(0x51), 0x71);
/// ```
#[inline(always)]
pub fn lower(unit: u16) -> u16
    ensures { result ≡ lower unit }
{
    if unit < 0xff && is_lowercase(unit + 32) {
        unit + 32
    } else {
        unit
    }
}

/// Upper or lower case.
#[derive(Clone, Copy)]
pub(crate) enum Case {
    Upper,
    Lower,
}

/// A unit in a case.
#[inline(always)]
fn in_case(case: Case, unit: u16) -> u16
    ensures { result ≡ in_case case unit }
{
    match case {
        Case::Upper => upper(unit),
        Case::Lower => lower(unit),
    }
}

/// Puts units in a case.
#[tactic(auto, using(std::proofs::lemmas::List::take_all, std::proofs::lemmas::List::drop_all))]
pub(crate) fn set_case(units: &mut [u16], case: Case)
    ensures { units.new ≡ map (in_case case) units.old }
{
    for unit in units.iter_mut() {
        *unit = in_case(case, *unit);
    }
}

/// Converts units to upper case, in place.
///
/// ```rust
/// let mut name = [0x61, 0xdc00, 0xff];
/// case::make_uppercase(&mut name);
/// assert_eq!(rt; name, [0x41, 0xdc00, 0xff]);
/// ```
pub fn make_uppercase(units: &mut [u16])
    ensures { units.new ≡ uppers units.old }
{
    set_case(units, Case::Upper);
}

/// Converts units to lower case, in place.
///
/// ```rust
/// let mut name = [0x41, 0xdc00];
/// case::make_lowercase(&mut name);
/// assert_eq!(rt; name, [0x61, 0xdc00]);
/// ```
pub fn make_lowercase(units: &mut [u16])
    ensures { units.new ≡ lowers units.old }
{
    set_case(units, Case::Lower);
}

/// The number of units that are compared together. Without an early exit among them, the comparison
/// becomes vector code.
const BLOCK: usize = 8;

/// Returns whether two blocks of the same length are the same without case.
#[inline(always)]
fn are_blocks_alike(block: &[u16], other: &[u16]) -> bool
    requires { length block.now ≡ length other.now }
    ensures { IsTrue result ↔ (uppers block.now ≡ uppers other.now) }
{
    let mut alike = true;
    for i in 0..block.len() {
        alike &= upper(block[i]) == upper(other[i]);
    }
    alike
}

/// Returns an index before which both lists are the same without case. Compares the units in
/// blocks, up to a block that differs, or to less than a block.
#[inline(always)]
fn alike_blocks_end(units: &[u16], others: &[u16]) -> usize
    ensures within { result ≤ min (length units.now) (length others.now) }
    ensures alike { uppers (take result units.now) ≡ uppers (take result others.now) }
{
    let len = units.len().min(others.len());
    let mut end = 0;
    while BLOCK <= len - end
        && are_blocks_alike(&units[end..end + BLOCK], &others[end..end + BLOCK])
    {
        end += BLOCK;
    }
    end
}

/// Compares two lists of units without case. The first units that differ in upper case decide. If
/// one list is a prefix of the other, the shorter list is less.
///
/// ```rust
/// assert!(rt; case::cmp_ignore_case(&[0x61, 0xd800], &[0x41, 0xd801]).is_lt());
/// ```
pub fn cmp_ignore_case(units: &[u16], others: &[u16]) -> Ordering
    ensures { result ≡ caseless_order units.now others.now }
{
    for i in alike_blocks_end(units, others)..units.len().min(others.len()) {
        let order = upper(units[i]).cmp(&upper(others[i]));
        if order != Ordering::Equal {
            return order;
        }
    }
    units.len().cmp(&others.len())
}

/// Returns whether two lists of units are the same without case.
///
/// ```rust
/// assert!(rt; case::eq_ignore_case(&[0x61, 0xd800], &[0x41, 0xd800]));
/// ```
pub fn eq_ignore_case(units: &[u16], others: &[u16]) -> bool
    ensures { IsTrue result ↔ (uppers units.now ≡ uppers others.now) }
{
    units.len() == others.len() && cmp_ignore_case(units, others).is_eq()
}

impl Char16 {
    /// Returns the character in upper case.
    ///
    /// ```rust
    /// let e = Char16::try_from_char('é')?;
    /// assert_eq!(rt; char::from(e.to_uppercase()), 'É');
    /// assert_eq!(rt; e.to_uppercase().to_lowercase(), e);
    /// ```
    pub fn to_uppercase(&self) -> Char16
        ensures { result ≡ upper self.now }
    {
        Char16::from_unit(upper(u16::from(*self)))
    }

    /// Returns the character in lower case.
    ///
    /// ```rust
    /// let sharp = Char16::try_from_char('ẞ')?;
    /// assert_eq!(rt; char::from(Char16::try_from_char('Q')?.to_lowercase()), 'q');
    /// assert_eq!(rt; sharp.to_lowercase(), sharp);
    /// ```
    pub fn to_lowercase(&self) -> Char16
        ensures { result ≡ lower self.now }
    {
        Char16::from_unit(lower(u16::from(*self)))
    }
}

impl<'a> CStr16<'a> {
    /// Returns whether both strings are the same without case: whether their texts in upper case
    /// are equal.
    ///
    /// ```rust
    /// let shim = CString16::try_from_str(rt.alloc(), "Shimx64.efi")?;
    /// let other = CString16::try_from_str(rt.alloc(), "SHIMX64.EFI")?;
    /// assert!(rt; shim.as_cstr16().eq_ignore_case(other.as_cstr16()));
    /// ```
    pub fn eq_ignore_case(&self, other: CStr16<'_>) -> bool
        ensures { IsTrue result ↔ (uppers (text_of self.now) ≡ uppers (text_of other.entry)) }
    {
        eq_ignore_case(self.to_u16_slice(), other.to_u16_slice())
    }

    /// Compares two strings without case, as `StriColl` does. The first characters that differ in
    /// upper case decide. If one text is a prefix of the other, the shorter text is less.
    ///
    /// ```rust
    /// let (one, two) = (&[0x61, 0x42, 0], &[0x41, 0x63, 0]);
    /// let (one, two) = (CStr16::from_u16_with_nul(one)?, CStr16::from_u16_with_nul(two)?);
    /// assert!(rt; one.cmp_ignore_case(two).is_lt());
    /// assert!(rt; one.cmp(&two).is_gt());
    /// ```
    pub fn cmp_ignore_case(&self, other: CStr16<'_>) -> Ordering
        ensures { result ≡ caseless_order (text_of self.now) (text_of other.entry) }
    {
        cmp_ignore_case(self.to_u16_slice(), other.to_u16_slice())
    }
}

impl<'a> Char16Slice<'a> {
    /// Returns whether both slices are the same without case, as [`CStr16::eq_ignore_case`] does
    /// for strings.
    ///
    /// ```rust
    /// let name = CString16::try_from_str(rt.alloc(), "boot.EFI")?;
    /// let extension = CString16::try_from_str(rt.alloc(), "efi")?;
    /// let end = name.as_cstr16().as_slice().part(5, 8);
    /// assert!(rt; end.eq_ignore_case(extension.as_cstr16().as_slice()));
    /// ```
    pub fn eq_ignore_case(&self, other: Char16Slice<'_>) -> bool
        ensures { IsTrue result ↔ (uppers (units_of self.now) ≡ uppers (units_of other.entry)) }
    {
        eq_ignore_case(self.units(), other.units())
    }

    /// Compares two slices without case, as [`CStr16::cmp_ignore_case`] does for strings.
    ///
    /// ```rust
    /// let name = CString16::try_from_str(rt.alloc(), "Bootx")?;
    /// let name = name.as_cstr16().as_slice();
    /// assert!(rt; name.part(0, 4).cmp_ignore_case(name).is_lt());
    /// assert!(rt; name.part(1, 2).cmp_ignore_case(name.part(2, 3)).is_eq());
    /// ```
    pub fn cmp_ignore_case(&self, other: Char16Slice<'_>) -> Ordering
        ensures { result ≡ caseless_order (units_of self.now) (units_of other.entry) }
    {
        cmp_ignore_case(self.units(), other.units())
    }
}
