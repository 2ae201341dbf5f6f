//! Owned NUL-terminated strings of UCS-2. A string keeps its NUL in its vector; nothing outside
//! this module sees it.
ghost use Rattle.std.specs.Prelude.{◌≡◌, ◌≢◌, ℕ, ◌+◌, ◌<◌, ◌↔◌, ◌++◌, [], All, Contains, List, None, length, map, unwrap_or, IsTrue, IfOk, IfErr, ◌∷◌, take, IsOk, OnOk, OnErr, drop, nat_eq, Some};
ghost use Rattle.std.specs.Str.{chars, encode_utf8_all};
ghost use Rattle.uefi_text.specs.Units.{IsChar16, IsNulTerminated, IsString, IsText, is_nul, nul_terminated, replaced};
ghost use Rattle.std.specs.Result.{result_err};
ghost use Rattle.uefi_text.specs.FromStr.{from_str_refusal};
ghost use Rattle.uefi_text.specs.Runs.{CopiesNoNul, GivesNoNul};
ghost use Rattle.std.specs.List.{before_first};
ghost use Rattle.uefi_text.specs.FromSliceUntilNul.{missing_nul_refusal};
ghost use Rattle.uefi_text.specs.FromSliceWithNul.{first_nul_refusal, with_nul_refusal};
ghost use Rattle.uefi_text.specs.Views.{text_of, units_of};
ghost use Rattle.std.specs.Iterator.{IsFinite};
ghost use Rattle.std.specs.Iterator.Runs.{SomeRun, WholeRun};
ghost use Rattle.uefi_text.specs.Case.{in_case, lowers, uppers};
ghost use Rattle.std.specs.Cmp.{partial_equiv_from_equiv};
ghost use Rattle.std.specs.Cmp.Lexicographic.{nat_list_eq_equiv, pointwise, slice_cmp, texts_po, texts_ties};
ghost use Rattle.std.specs.Ordering.{nat_cmp, as_partial_cmp};
ghost use Rattle.std.proofs.Common.{refl};
ghost use Rattle.std.proofs.lemmas.Cmp.{nat_list_cmp_total};

use crate::case::{Case, set_case};
use crate::chars::{Char16, NUL_16};
use crate::encode::{text_len, units_of_text, write_text};
pub use crate::errors::FromStrError;
use crate::scan::{Class, Nul, find_first, replace_units_from};
use crate::strings::eq_str_until_nul::EqStrUntilNul;
use crate::strings::strs::{CStr16, Char16Slice, FromSliceUntilNulError, FromSliceWithNulError};
use crate::unit_blocks::{put_block, units_with_nul};
use std::alloc::{AllocError, Allocator, Global};
use std::cmp::Ordering;
use std::fmt;
use std::hash::{Hash, Hasher};
use std::marker::Model;

/// An owned string, in memory of its allocator, which it keeps. After every call, whether it
/// succeeds or fails, it contains a text and one NUL. A contract sees it as the text.
#[derive(Drop)]
pub struct CString16<A: Allocator = Global> {
    units: Vec<u16, A>,
}

impl<A: Allocator> Model for CString16<A> {
    ghost use Rattle.std.specs.Prelude.{ℕ, List};
    ghost use Rattle.uefi_text.specs.Units.{IsString, without_nul};

    ghost Value = { List ℕ };

    ghost view = { λ string. without_nul string.units.items };

    ghost invariant = { λ string. IsString string.units.items };
}

/// Characters that are NUL.
impl Class<Char16> for Nul {
    ghost holds = { is_nul };

    #[inline(always)]
    fn holds(character: Char16) -> bool {
        character == NUL_16
    }
}

/// Returns whether none of the characters is NUL, as [`CString16::extend`] requires of the
/// characters that it adds. Does not allocate.
///
/// ```rust
/// let e = Char16::try_from_char('e')?;
/// assert!(rt; have_no_nul(&[e, e]));
/// assert!(rt; !have_no_nul(&[e, NUL_16]));
/// ```
pub fn have_no_nul(characters: &[Char16]) -> bool
    ensures all { IsTrue result ↔ All (λ c. c ≢ 0) characters.now }
    ensures copied { IsTrue result → CopiesNoNul characters.now }
{
    find_first::<Char16, Nul>(characters).is_none()
}

/// Writes a text of UCS-2 and its NUL into units, from a place on up to their end.
fn write_text_from(units: &mut [u16], start: usize, text: &str)
    requires is_text { IsText (chars text.now) }
    requires fits { start + length (chars text.now) + 1 ≡ length units.old }
    ensures { units.new ≡ take start units.old ++ nul_terminated (chars text.now) }
{
    // Never refused: each character is one unit, and has a place, and so has the NUL.
    let _len = write_text(text, &mut units[start..]);
}

/// Returns the units of characters, in one allocation.
fn units_of_characters<A: Allocator>(
    alloc: A,
    characters: &[Char16],
) -> Result<Vec<u16, A>, AllocError>
    ensures same { IfOk result (λ units. units.items ≡ characters.now) }
    ensures are_characters { IfOk result (λ units. All IsChar16 units.items) }
{
    let mut units = Vec::with_capacity(alloc, characters.len())?;
    for c in characters {
        units.push(u16::from(*c))?;
    }
    Ok(units)
}

/// Owned strings from characters and from a borrowed string.
impl<'a> CStr16<'a> {
    /// Creates an owned string from the characters up to the first NUL.
    ///
    /// Returns `NoNul` if there is no NUL, and `OutOfMemory` if memory runs out. Characters after
    /// the NUL do not matter. `InvalidChar` is never returned, because no character is a surrogate.
    /// Allocates once, after the NUL is found.
    ///
    /// ```rust
    /// let e = Char16::try_from_char('e')?;
    /// let string = CStr16::from_char16_until_nul(rt.alloc(), &[e, NUL_16, e])?;
    /// assert_eq!(rt; string.num_chars(), 1);
    /// let refused = CStr16::from_char16_until_nul(rt.alloc(), &[e, e]);
    /// assert_eq!(rt; refused.err(), Some(FromSliceUntilNulError::NoNul));
    /// ```
    pub fn from_char16_until_nul<A: Allocator>(
        alloc: A,
        characters: &[Char16],
    ) -> Result<CString16<A>, FromSliceUntilNulError>
        ensures ok { IfOk result (λ string. string ≡ before_first is_nul characters.now) }
        ensures accepted { IfOk result (λ _. missing_nul_refusal characters.now ≡ None) }
        ensures holds_nul { IfOk result (λ _. Contains characters.now 0) }
        ensures memory { IfErr result (λ error.
            (error ≡ FromSliceUntilNulError.OutOfMemory) ↔ Contains characters.now 0) }
        ensures refusal { IfErr result (λ error.
            error ≡ unwrap_or (missing_nul_refusal characters.now) FromSliceUntilNulError.OutOfMemory) }
    {
        let Some(end) = find_first::<Char16, Nul>(characters) else {
            return Err(FromSliceUntilNulError::NoNul);
        };
        match units_of_characters(alloc, &characters[..end + 1]) {
            Ok(units) => Ok(CString16 { units }),
            Err(_) => Err(FromSliceUntilNulError::OutOfMemory),
        }
    }

    /// Creates an owned string from characters whose only NUL is the last.
    ///
    /// The first NUL decides. Before the last index it is refused as `InteriorNul` with its index.
    /// If there is no NUL, the result is `NotNulTerminated`. If the characters are a string and
    /// memory runs out, the result is `OutOfMemory`. `InvalidChar` is never returned, because no
    /// character is a surrogate. Allocates once, after the NUL is found.
    ///
    /// ```rust
    /// let e = Char16::try_from_char('e')?;
    /// let string = CStr16::from_char16_with_nul(rt.alloc(), &[e, e, NUL_16])?;
    /// assert_eq!(rt; string.num_chars(), 2);
    /// let refused = CStr16::from_char16_with_nul(rt.alloc(), &[e, NUL_16, e, NUL_16]);
    /// assert_eq!(rt; refused.err(), Some(FromSliceWithNulError::InteriorNul(1)));
    /// ```
    pub fn from_char16_with_nul<A: Allocator>(
        alloc: A,
        characters: &[Char16],
    ) -> Result<CString16<A>, FromSliceWithNulError>
        ensures ok { IfOk result (λ string. nul_terminated string ≡ characters.now) }
        ensures accepted { IfOk result (λ _. first_nul_refusal characters.now ≡ None) }
        ensures is_string { IfOk result (λ _. IsString characters.now) }
        ensures memory { IfErr result (λ error.
            (error ≡ FromSliceWithNulError.OutOfMemory) ↔ IsNulTerminated characters.now) }
        ensures refusal { IfErr result (λ error.
            error ≡ unwrap_or (first_nul_refusal characters.now) FromSliceWithNulError.OutOfMemory) }
    {
        let Some(place) = find_first::<Char16, Nul>(characters) else {
            return Err(FromSliceWithNulError::NotNulTerminated);
        };
        if place + 1 != characters.len() {
            return Err(FromSliceWithNulError::InteriorNul(place));
        }
        match units_of_characters(alloc, characters) {
            Ok(units) => Ok(CString16 { units }),
            Err(_) => Err(FromSliceWithNulError::OutOfMemory),
        }
    }

    /// Copies the string. Allocates once. Returns `AllocError` if memory runs out.
    ///
    /// ```rust
    /// let borrowed = CStr16::from_u16_with_nul(&[0x48, 0x69, 0])?;
    /// let mut owned = borrowed.to_owned(rt.alloc())?;
    /// owned.make_uppercase();
    /// assert!(rt; owned.as_cstr16() != borrowed);
    /// ```
    pub fn to_owned<A: Allocator>(&self, alloc: A) -> Result<CString16<A>, AllocError>
        ensures { IfOk result (λ string. string ≡ text_of self.now) }
    {
        let string = self.to_u16_slice_with_nul();
        let mut units = Vec::with_capacity(alloc, string.len())?;
        units.extend_from_slice(string)?;
        Ok(CString16 { units })
    }
}

/// Owned strings from slices of characters.
impl<'a> Char16Slice<'a> {
    /// Copies the characters into an owned string.
    ///
    /// Returns `InteriorNul` if one of the characters is NUL, and otherwise `OutOfMemory` if memory
    /// runs out. `InvalidChar` is never returned, because no character is a surrogate. Allocates
    /// once, after all characters are tested.
    ///
    /// ```rust
    /// let name = CStr16::from_u16_with_nul(&[0x48, 0x69, 0])?;
    /// let owned = name.as_slice().part(0, 1).to_cstring16(rt.alloc())?;
    /// assert!(rt; owned.as_cstr16() == CStr16::from_u16_with_nul(&[0x48, 0])?);
    /// let refused = name.as_slice_with_nul().to_cstring16(rt.alloc());
    /// assert_eq!(rt; refused.err(), Some(FromStrError::InteriorNul));
    /// ```
    pub fn to_cstring16<A: Allocator>(&self, alloc: A) -> Result<CString16<A>, FromStrError>
        ensures ok { IfOk result (λ string. string ≡ units_of self.now) }
        ensures accepted { IfOk result (λ _. from_str_refusal (units_of self.now) ≡ None) }
        ensures is_text { IfOk result (λ _. IsText (units_of self.now)) }
        ensures memory { IfErr result (λ error.
            (error ≡ FromStrError.OutOfMemory) ↔ IsText (units_of self.now)) }
        ensures refusal { IfErr result (λ error.
            error ≡ unwrap_or (from_str_refusal (units_of self.now)) FromStrError.OutOfMemory) }
    {
        if !self.has_no_nul() {
            return Err(FromStrError::InteriorNul);
        }
        match units_with_nul(alloc, self.units()) {
            Ok(units) => Ok(CString16 { units }),
            Err(_) => Err(FromStrError::OutOfMemory),
        }
    }
}

impl<A: Allocator> CString16<A> {
    /// The string of units that are known to be one.
    pub(crate) fn from_string(units: Vec<u16, A>) -> Self
        requires { IsString units.items }
        ensures same { nul_terminated result ≡ units.items }
        ensures is_text { IsText result }
    {
        CString16 { units }
    }

    /// Creates an empty string. Allocates for the NUL. Returns `AllocError` if memory runs out.
    ///
    /// ```rust
    /// let empty = CString16::new(rt.alloc())?;
    /// assert!(rt; empty.is_empty());
    /// assert_eq!(rt; empty.as_cstr16().to_u16_slice_with_nul(), [0].as_slice());
    /// ```
    pub fn new(alloc: A) -> Result<Self, AllocError>
        ensures { IfOk result (λ string. string ≡ []) }
    {
        let mut units = Vec::new(alloc);
        units.push(0)?;
        Ok(CString16 { units })
    }

    /// Creates an empty string with room for this many characters and the NUL. Allocates once.
    /// Returns `AllocError` if memory runs out.
    ///
    /// ```rust
    /// let mut name = CString16::with_capacity(rt.alloc(), 8)?;
    /// assert!(rt; name.is_empty());
    /// name.push(Char16::try_from_char('a')?)?;
    /// assert_eq!(rt; name.num_chars(), 1);
    /// ```
    pub fn with_capacity(alloc: A, characters: usize) -> Result<Self, AllocError>
        ensures { IfOk result (λ string. string ≡ []) }
    {
        let Some(room) = characters.checked_add(1) else {
            return Err(AllocError);
        };
        let mut units = Vec::with_capacity(alloc, room)?;
        units.push(0)?;
        Ok(CString16 { units })
    }

    /// Reserves room for this many more characters, which then need no allocation. Returns
    /// `AllocError` if memory runs out. The text is unchanged in either case.
    ///
    /// ```rust
    /// let mut name = CString16::try_from_str(rt.alloc(), "Boot")?;
    /// name.reserve(4)?;
    /// assert_eq!(rt; name.num_chars(), 4);
    /// ```
    #[inline(always)]
    pub fn reserve(&mut self, characters: usize) -> Result<(), AllocError>
        ensures { self.new ≡ self.old }
    {
        self.units.reserve(characters)
    }

    /// Creates an owned string from a Rust text.
    ///
    /// The first character that is NUL or above U+FFFF decides: the call returns `InteriorNul` or
    /// `InvalidChar`. If there is none, the call can only fail with `OutOfMemory`. Allocates once,
    /// after the whole text is tested.
    ///
    /// ```rust
    /// let name = CString16::try_from_str(rt.alloc(), "5 €")?;
    /// assert_eq!(rt; name.as_cstr16().to_u16_slice(), [0x35, 0x20, 0x20ac].as_slice());
    /// let refused = CString16::try_from_str(rt.alloc(), "a\u{1f600}");
    /// assert_eq!(rt; refused.err(), Some(FromStrError::InvalidChar));
    /// ```
    pub fn try_from_str(alloc: A, text: &str) -> Result<Self, FromStrError>
        ensures ok { IfOk result (λ string. string ≡ chars text.now) }
        ensures accepted { IfOk result (λ _. from_str_refusal (chars text.now) ≡ None) }
        ensures is_text { IfOk result (λ _. IsText (chars text.now)) }
        ensures memory { IfErr result (λ error.
            (error ≡ FromStrError.OutOfMemory) ↔ IsText (chars text.now)) }
        ensures refusal { IfErr result (λ error.
            error ≡ unwrap_or (from_str_refusal (chars text.now)) FromStrError.OutOfMemory) }
    {
        let units = units_of_text(alloc, text)?;
        Ok(CString16 { units })
    }

    /// Turns a vector of units into a string, without copying it.
    ///
    /// Fails exactly as [`CStr16::from_u16_with_nul`] does for the same units; the refused vector
    /// is dropped. Does not allocate.
    ///
    /// ```rust
    /// let mut vector = Vec::new(rt.alloc());
    /// vector.extend_from_slice(&[0x48, 0x69, 0])?;
    /// let name = CString16::try_from_vec(vector)?;
    /// assert_eq!(rt; name.num_chars(), 2);
    /// assert_eq!(rt; name.into_vec_with_nul().as_slice(), [0x48, 0x69, 0].as_slice());
    /// ```
    pub fn try_from_vec(units: Vec<u16, A>) -> Result<Self, FromSliceWithNulError>
        ensures ok { IfOk result (λ string. nul_terminated string ≡ units.items) }
        ensures accepts { IsOk result ↔ IsString units.items }
        ensures made { (text : List ℕ) → IsText text → units.items ≡ nul_terminated text
            → IsOk result × IfOk result (λ string. string ≡ text) }
        ensures refusal { result_err result ≡ with_nul_refusal units.items }
    {
        CStr16::from_u16_with_nul(units.as_slice())?;
        Ok(CString16 { units })
    }

    /// Returns the vector: the units of the text and its NUL. Does not allocate.
    ///
    /// See [`CString16::try_from_vec`].
    pub fn into_vec_with_nul(self) -> Vec<u16, A>
        ensures { result.items ≡ nul_terminated self }
    {
        self.units
    }

    /// Copies a borrowed string. Allocates once. Returns `AllocError` if memory runs out.
    ///
    /// ```rust
    /// let borrowed = CStr16::from_u16_with_nul(&[0x48, 0x69, 0])?;
    /// let owned = CString16::from_cstr16(rt.alloc(), borrowed)?;
    /// assert!(rt; owned.eq_cstr16(borrowed));
    /// ```
    pub fn from_cstr16(alloc: A, string: CStr16<'_>) -> Result<Self, AllocError>
        ensures { IfOk result (λ copy. copy ≡ text_of string.entry) }
    {
        string.to_owned(alloc)
    }

    /// Makes the string empty. Neither allocates nor frees memory.
    ///
    /// ```rust
    /// let mut name = CString16::try_from_str(rt.alloc(), "Boot")?;
    /// name.clear();
    /// assert!(rt; name.is_empty());
    /// ```
    pub fn clear(&mut self)
        ensures { self.new ≡ [] }
    {
        self.units.truncate(1);
        self.units[0] = 0;
    }

    /// Appends a character, which must not be NUL. Returns `AllocError` if memory runs out, and
    /// leaves the string unchanged.
    ///
    /// Allocates if the vector is full. A push takes constant time on average.
    ///
    /// ```rust
    /// let mut name = CString16::try_from_str(rt.alloc(), "Boo")?;
    /// name.push(Char16::try_from_char('t')?)?;
    /// assert!(rt; name == CString16::try_from_str(rt.alloc(), "Boot")?);
    /// ```
    pub fn push(&mut self, c: Char16) -> Result<(), AllocError>
        requires { c ≢ 0 }
        ensures ok { OnOk result (self.new ≡ self.old ++ c ∷ []) }
        ensures err { OnErr result (self.new ≡ self.old) }
    {
        if self.units.len() == self.units.capacity() {
            return self.push_to_full(c);
        }
        let end = self.num_chars();
        self.units.push_reserved(0);
        self.units[end] = u16::from(c);
        Ok(())
    }

    /// Does what [`CString16::push`] does if the vector may have no room. This is rare; as a
    /// function of its own, it spares a call that has room from saving registers.
    #[cold]
    #[inline(never)]
    fn push_to_full(&mut self, c: Char16) -> Result<(), AllocError>
        requires { c ≢ 0 }
        ensures ok { OnOk result (self.new ≡ self.old ++ c ∷ []) }
        ensures err { OnErr result (self.new ≡ self.old) }
    {
        let end = self.num_chars();
        self.units.push(0)?;
        self.units[end] = u16::from(c);
        Ok(())
    }

    /// Appends the text of a string. Returns `AllocError` if memory runs out, and leaves the string
    /// unchanged.
    ///
    /// Allocates at most once. For the empty text it does not allocate and never fails.
    ///
    /// ```rust
    /// let mut name = CString16::try_from_str(rt.alloc(), "Boot")?;
    /// name.push_str(CStr16::from_u16_with_nul(&[0x30, 0x31, 0])?)?;
    /// assert!(rt; name == CString16::try_from_str(rt.alloc(), "Boot01")?);
    /// ```
    pub fn push_str(&mut self, string: CStr16<'_>) -> Result<(), AllocError>
        ensures ok { OnOk result (self.new ≡ self.old ++ text_of string.entry) }
        ensures err { OnErr result (self.new ≡ self.old) }
        ensures empty { text_of string.entry ≡ [] → IsOk result }
    {
        let end = self.num_chars();
        let units = string.to_u16_slice_with_nul();
        // The first unit replaces the NUL, and the others include a NUL: one allocation, and
        // nothing to undo if it fails.
        self.units.extend_from_slice(&units[1..])?;
        self.units[end] = units[0];
        Ok(())
    }

    /// Appends characters, none of which may be NUL. Returns `AllocError` if memory runs out, and
    /// leaves the string unchanged. [`Char16Slice::has_no_nul`] tests the characters; the
    /// characters of a text contain no NUL.
    ///
    /// Allocates at most once. For no characters it does not allocate and never fails.
    ///
    /// ```rust
    /// let entry = CString16::try_from_str(rt.alloc(), "Boot0001")?;
    /// let mut name = CString16::try_from_str(rt.alloc(), "Driver")?;
    /// name.push_part(entry.as_cstr16().as_slice().part(4, 8))?;
    /// assert!(rt; name == CString16::try_from_str(rt.alloc(), "Driver0001")?);
    /// ```
    #[inline(always)]
    pub fn push_part(&mut self, part: Char16Slice<'_>) -> Result<(), AllocError>
        requires { All (λ unit. unit ≢ 0) (units_of part) }
        ensures ok { OnOk result (self.new ≡ self.old ++ units_of part.entry) }
        ensures err { OnErr result (self.new ≡ self.old) }
        ensures empty { units_of part.entry ≡ [] → IsOk result }
    {
        let end = self.num_chars();
        self.units.reserve(part.len())?;
        self.units.truncate(end);
        self.units.extend_from_slice(part.units())?;
        self.units.extend_from_slice(&[0])
    }

    /// Appends the units of a text whose number is known at compile time, so that no loop copies
    /// them. Returns `AllocError` if memory runs out, and leaves the string unchanged. For crates
    /// that prove that units are a text, as paths do; other callers use the calls above.
    #[doc(hidden)]
    #[inline(always)]
    pub fn push_block<const N: usize>(&mut self, block: [u16; N]) -> Result<(), AllocError>
        requires { IsText block }
        ensures ok { OnOk result (self.new ≡ self.old ++ block.entry) }
        ensures err { OnErr result (self.new ≡ self.old) }
    {
        let end = self.num_chars();
        // The last of the zeros is the new NUL. The block takes the places of the old one and of the others.
        self.units.extend_from_slice(&[0; N])?;
        put_block(&mut self.units, end, block);
        Ok(())
    }

    /// Keeps the first `len` characters, or all of them if there are no more. Neither allocates nor
    /// frees memory.
    ///
    /// ```rust
    /// let mut name = CString16::try_from_str(rt.alloc(), "Boot0001")?;
    /// name.truncate(4);
    /// assert!(rt; name == CString16::try_from_str(rt.alloc(), "Boot")?);
    /// ```
    pub fn truncate(&mut self, len: usize)
        ensures { self.new ≡ take len self.old }
    {
        if len < self.num_chars() {
            self.units[len] = 0;
            self.units.truncate(len + 1);
        }
    }

    /// Appends the characters that an iterator gives, none of which may be NUL. [`have_no_nul`]
    /// tests a slice of characters.
    ///
    /// Allocates as [`CString16::push`] does for each character. If memory runs out, the result is
    /// `AllocError`, and the string keeps the characters that were appended before.
    ///
    /// ```rust
    /// let mut name = CString16::try_from_str(rt.alloc(), "Boot")?;
    /// let digits = [Char16::try_from_char('0')?, Char16::try_from_char('7')?];
    /// name.extend(digits.iter().copied())?;
    /// assert!(rt; name == CString16::try_from_str(rt.alloc(), "Boot07")?);
    /// ```
    pub fn extend<I: Iterator<Item = Char16> + Drop>(
        &mut self,
        characters: I,
    ) -> Result<(), AllocError>
        requires can { I.can_next characters }
        requires ends { IsFinite (I.remaining characters) }
        requires no_nul { GivesNoNul I.next_gives characters }
        ensures ok { OnOk result (WholeRun I.next_gives characters (λ run.
            self.new ≡ self.old ++ run.items)) }
        ensures err { OnErr result (SomeRun I.next_gives characters (λ run.
            (k : ℕ) × (k < run.len) × (self.new ≡ self.old ++ take k run.items))) }
    {
        for character in characters {
            self.push(character)?;
        }
        Ok(())
    }

    /// Replaces each `search` with `replace`; neither may be NUL. Does not allocate.
    ///
    /// ```rust
    /// let mut name = CString16::try_from_str(rt.alloc(), "efi/boot/")?;
    /// name.replace_char(Char16::try_from_char('/')?, Char16::try_from_char('\\')?);
    /// assert!(rt; name == CString16::try_from_str(rt.alloc(), "efi\\boot\\")?);
    /// ```
    pub fn replace_char(&mut self, search: Char16, replace: Char16)
        requires search_no_nul { search ≢ 0 }
        requires replace_no_nul { replace ≢ 0 }
        ensures { self.new ≡ map (replaced search replace) self.old }
    {
        self.replace_char_from(0, search, replace);
    }

    /// Replaces each `search` with `replace` from index `start` on; neither may be NUL. Does not
    /// allocate.
    ///
    /// ```rust
    /// let mut name = CString16::try_from_str(rt.alloc(), "a-b-c")?;
    /// name.replace_char_from(2, Char16::try_from_char('-')?, Char16::try_from_char('+')?);
    /// assert!(rt; name == CString16::try_from_str(rt.alloc(), "a-b+c")?);
    /// ```
    pub fn replace_char_from(&mut self, start: usize, search: Char16, replace: Char16)
        requires search_no_nul { search ≢ 0 }
        requires replace_no_nul { replace ≢ 0 }
        ensures { self.new ≡ take start self.old ++ map (replaced search replace) (drop start self.old) }
    {
        if start < self.num_chars() {
            replace_units_from(
                &mut self.units,
                start,
                u16::from(search),
                u16::from(replace),
            );
        }
    }

    /// Converts the text to upper case, character by character, as `StrUpr` does (UEFI
    /// Specification 2.10, section 21.1). Does not allocate.
    ///
    /// ```rust
    /// let mut name = CString16::try_from_str(rt.alloc(), "café.txt")?;
    /// name.make_uppercase();
    /// assert!(rt; name == CString16::try_from_str(rt.alloc(), "CAFÉ.TXT")?);
    /// ```
    pub fn make_uppercase(&mut self)
        ensures { self.new ≡ uppers self.old }
    {
        self.set_case(Case::Upper);
    }

    /// Converts the text to lower case, character by character, as `StrLwr` does. Does not
    /// allocate.
    ///
    /// ```rust
    /// let mut name = CString16::try_from_str(rt.alloc(), "BOOTX64.EFI")?;
    /// name.make_lowercase();
    /// assert!(rt; name == CString16::try_from_str(rt.alloc(), "bootx64.efi")?);
    /// ```
    pub fn make_lowercase(&mut self)
        ensures { self.new ≡ lowers self.old }
    {
        self.set_case(Case::Lower);
    }

    /// Converts the text to a case. The NUL has no case.
    fn set_case(&mut self, case: Case)
        ensures { self.new ≡ map (in_case case) self.old }
    {
        set_case(&mut self.units, case);
    }

    /// Returns the number of characters of the text, without the NUL.
    ///
    /// ```rust
    /// let name = CString16::try_from_str(rt.alloc(), "café")?;
    /// assert_eq!(rt; name.num_chars(), 4);
    /// assert!(rt; !name.is_empty());
    /// ```
    pub fn num_chars(&self) -> usize
        ensures { result ≡ length self.now }
    {
        self.units.len() - 1
    }

    /// Returns whether the text is empty.
    ///
    /// See [`CString16::num_chars`].
    pub fn is_empty(&self) -> bool
        ensures { IsTrue result ↔ (self.now ≡ []) }
    {
        self.num_chars() == 0
    }

    /// Borrows the string. Its text contains no NUL and no surrogate. Does not allocate.
    ///
    /// ```rust
    /// let name = CString16::try_from_str(rt.alloc(), "Hi")?;
    /// assert_eq!(rt; name.as_cstr16().to_u16_slice_with_nul(), [0x48, 0x69, 0].as_slice());
    /// ```
    pub fn as_cstr16(&self) -> CStr16<'_>
        ensures same { text_of result ≡ self.now }
        ensures is_text { IsText self.now }
    {
        CStr16::from_string(self.units.as_slice())
    }

    /// Returns whether the borrowed string has the same text. Does not allocate.
    ///
    /// ```rust
    /// let name = CString16::try_from_str(rt.alloc(), "Hi")?;
    /// assert!(rt; name.eq_cstr16(CStr16::from_u16_with_nul(&[0x48, 0x69, 0])?));
    /// assert!(rt; !name.eq_cstr16(CStr16::from_u16_with_nul(&[0x48, 0])?));
    /// ```
    pub fn eq_cstr16(&self, other: CStr16<'_>) -> bool
        ensures { IsTrue result ↔ (self.now ≡ text_of other.entry) }
    {
        self.as_cstr16().eq_cstr16(other)
    }
}

/// Copies the string, with a clone of the allocator. Allocates once for the string. Returns
/// `AllocError` if memory runs out.
impl<A: Allocator + Clone> Clone for CString16<A> {
    ghost is_clone = { λ string copy. copy ≡ string };

    fn clone(&self) -> Result<CString16<A>, AllocError> {
        self.as_cstr16().to_owned(self.units.allocator().clone()?)
    }
}

/// Two strings are equal exactly when their texts are.
impl<A: Allocator> PartialEq for CString16<A> {
    ghost eq = { pointwise nat_eq };

    ghost laws = { partial_equiv_from_equiv nat_list_eq_equiv };

    fn eq(&self, other: &Self) -> bool {
        self.as_cstr16() == other.as_cstr16()
    }
}

impl<A: Allocator> Eq for CString16<A> {
    ghost laws = { nat_list_eq_equiv };
}

/// Compares strings as their views: by the list order of the code units.
impl<A: Allocator> PartialOrd for CString16<A> {
    ghost partial_cmp = { as_partial_cmp (slice_cmp nat_cmp) };

    ghost laws = { texts_po };

    fn partial_cmp(&self, other: &Self) -> Option<Ordering> {
        Some(self.cmp(other))
    }
}

/// Returns `Equal` exactly for equal strings.
impl<A: Allocator> Ord for CString16<A> {
    ghost cmp = { slice_cmp nat_cmp };

    ghost total = { nat_list_cmp_total };

    ghost matches_partial_cmp = { λ _ _. refl };

    ghost matches_eq = { texts_ties };

    fn cmp(&self, other: &Self) -> Ordering {
        self.as_cstr16().cmp(&other.as_cstr16())
    }
}

/// Hashes the string as its view does, so that equal strings hash alike, borrowed or owned.
impl<A: Allocator> Hash for CString16<A> {
    ghost use Rattle.std.proofs.Common.{rules};
    ghost use Rattle.std.specs.Hash as fed;
    ghost use Rattle.std.specs.Cmp.Rules.{comparing, hashing};

    ghost hash_input = { fed.slice fed.u16 };

    ghost respects_eq = { Prim.search (hashing, comparing, rules) };

    fn hash<H: Hasher>(&self, state: &mut H) {
        self.as_cstr16().hash(state);
    }
}

/// Does what [`CString16::try_from_vec`] does.
impl<A: Allocator> TryFrom<Vec<u16, A>> for CString16<A> {
    type Error = FromSliceWithNulError;

    ghost try_from_gives = { λ units result. IfOk result (λ string. nul_terminated string ≡ units.items)
        × (IsOk result ↔ IsString units.items) × (result_err result ≡ with_nul_refusal units.items) };

    fn try_from(units: Vec<u16, A>) -> Result<Self, FromSliceWithNulError> {
        CString16::try_from_vec(units)
    }
}

/// Appends a Rust text. If it contains a NUL or a character above U+FFFF, or memory runs out, the
/// result is an error, and the string is unchanged.
///
/// `write!` prints in parts; if one part fails, the parts before it stay. Each part is tested
/// before the call allocates, at most once.
impl<A: Allocator> fmt::Write for CString16<A> {
    ghost write_str_gives = { λ old bytes new. encode_utf8_all new ≡ encode_utf8_all old ++ bytes };

    fn write_str(&mut self, s: &str) -> fmt::Result
        ensures ok { IsOk result → encode_utf8_all self.new ≡ encode_utf8_all self.old ++ s.now }
        ensures added { OnOk result (self.new ≡ self.old ++ chars s.now) }
        ensures is_text { OnOk result (IsText (chars s.now)) }
        ensures err { OnErr result (self.new ≡ self.old) }
    {
        let Some(len) = text_len(s) else {
            return Err(fmt::Error);
        };
        let Some(room) = self.units.len().checked_add(len) else {
            return Err(fmt::Error);
        };
        let end = self.num_chars();
        self.units.resize(room, 0)?;
        write_text_from(&mut self.units, end, s);
        Ok(())
    }
}

/// Writes the characters of the text.
impl<A: Allocator> fmt::Display for CString16<A> {
    ghost output = { λ text. Some (encode_utf8_all text) };

    fn fmt<W: fmt::Write>(&self, f: &mut fmt::Formatter<W>) -> fmt::Result {
        fmt::Display::fmt(&self.as_cstr16(), f)
    }
}

/// Prints the string as its view does, except for the name.
impl<A: Allocator> fmt::Debug for CString16<A> {
    fn fmt<W: fmt::Write>(&self, f: &mut fmt::Formatter<W>) -> fmt::Result {
        let text = self.as_cstr16().as_slice();
        f.debug_tuple("CString16").field(&text).finish()
    }
}

/// Compares the characters of the text.
impl<A: Allocator> EqStrUntilNul for CString16<A> {
    ghost characters = { λ text. text };

    fn eq_str_until_nul(&self, other: &str) -> bool {
        self.as_cstr16().eq_str_until_nul(other)
    }
}
