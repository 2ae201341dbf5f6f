//! Borrowed NUL-terminated strings of UCS-2, and views of their characters. Strings of Latin-1 and
//! the errors have their names here too; their code is in `latin1` and `errors`. `specs/Views.antt`
//! defines how a contract sees each view.
#![tactic(auto, unfolding(crate::specs::Views::text_of, crate::specs::Views::units_of, crate::specs::Views::units_left))]

ghost use Rattle.std.specs.Prelude.{◌≡◌, ◌<◌, ◌≤◌, ◌+◌, ◌*◌, ◌^◌, ◌↔◌, ◌==◌, ◌≢◌, ◌++◌, [], nat_eq, ℕ, Option, All, length, slice_get, slice_index, slice_range, take, IsTrue, IsOk, IfOk, IfSome, OnErr, OnOk, Some, false, true};
ghost use Rattle.std.specs.Cmp.Lexicographic.{pointwise, nat_list_eq_equiv, on_texts_equal, slice_cmp, texts_po, on_texts, texts_ties};
ghost use Rattle.std.specs.Result.{result_err};
ghost use Rattle.std.specs.Str.{chars, IsAscii, encode_utf8_all};
ghost use Rattle.uefi_text.specs.FromStrWithBuf.{from_str_with_buf_refusal, with_text};
ghost use Rattle.uefi_text.specs.FromSliceWithNul.{deciding_refusal, with_nul_refusal};
ghost use Rattle.uefi_text.specs.Runs.{GivesAll, GivesEach, GivesNoNul};
ghost use Rattle.uefi_text.specs.Units.{BeginsWithString, IsString, IsText, IsChar16, is_nul, nul_terminated, without_nul};
ghost use Rattle.std.specs.List.{before_first};
ghost use Rattle.std.specs.String.{string_bytes};
ghost use Rattle.uefi_text.specs.UnitBytes.{unit_bytes};
ghost use Rattle.std.specs.Iterator.{YieldsFirst, UpTo, item_count, YieldsLast};
ghost use Rattle.uefi_text.specs.FromSliceUntilNul.{until_nul_refusal};
ghost use Rattle.std.specs.Cmp.{on_per, partial_equiv_from_equiv, on_po};
ghost use Rattle.std.specs.Ordering.{nat_cmp, as_partial_cmp, on};
ghost use Rattle.std.proofs.Common.{refl};
ghost use Rattle.std.specs.Iterator.SizeHint.{IsWithinCount};

pub use crate::char_sink::CharSink;
use crate::chars::Char16;
use crate::decode::{PRINTED, add_utf8, write_utf8};
use crate::encode::write_text;
pub use crate::errors::{
    FromSliceUntilNulError, FromSliceWithNulError, FromStrWithBufError, UnalignedCStr16Error,
};
use crate::scan::{find_deciding_place, find_nul, is_ascii, same_ascii_len, split};
use crate::strings::eq_str_until_nul::are_equal_by_block;
pub use crate::strings::eq_str_until_nul::{EqStrUntilNul, str_eq_until_nul};
pub use crate::strings::latin1::{
    CStr8, has_no_nul, is_latin1, str_num_latin1_chars, str_to_latin1,
};
use std::alloc::{AllocError, Allocator};
use std::cmp::Ordering;
use std::fmt;
use std::hash::{Hash, Hasher};

/// A borrowed string: a view of code units that are a text and its NUL (UEFI Specification 2.10,
/// section 2.3.1). A contract sees it as `text_of` it: the text without the NUL.
///
/// A call that takes an allocator allocates, and the sink of [`CStr16::as_str_in_buf`] may. No
/// other call allocates.
///
/// ```rust
/// let name = CStr16::from_u16_with_nul(&[0x48, 0x69, 0])?;
/// assert!(rt; name.num_chars() == 2 && name.num_bytes() == 6 && !name.is_empty() && name.is_ascii());
/// assert_eq!(rt; name.to_u16_slice(), [0x48, 0x69].as_slice());
/// assert_eq!(rt; name.to_u16_slice_with_nul(), [0x48, 0x69, 0].as_slice());
/// assert!(rt; name.as_slice().has_no_nul() && !name.as_slice_with_nul().has_no_nul());
/// assert!(rt; name.eq_cstr16(CStr16::from_u16_until_nul(&[0x48, 0x69, 0, 0x21])?));
/// ```
#[derive(Clone, Copy)]
pub struct CStr16<'a> {
    units: &'a [u16],
    pub ghost is_string: { IsString units.now },
}

/// Checks whether units are a string, given the first unit that no text can contain and its index
/// among `len` units. Returns why they are not a string, if they are not.
pub(crate) fn check_deciding_unit(
    unit: u16,
    place: usize,
    len: usize,
) -> Result<(), FromSliceWithNulError>
    requires { place < len }
    ensures { result_err result ≡ deciding_refusal unit place len }
{
    if unit != 0 {
        return Err(FromSliceWithNulError::InvalidChar(place));
    }
    if place + 1 != len {
        return Err(FromSliceWithNulError::InteriorNul(place));
    }
    Ok(())
}

/// Returns whether two runs of units are the same. The order of runs skips equal units in strides,
/// and tests at the start of a stride with a jump: nothing waits for it.
fn are_same(one: &[u16], two: &[u16]) -> bool
    ensures { result ≡ pointwise nat_eq one.now two.now }
{
    one.len() == two.len() && one.cmp(two).is_eq()
}

/// An iterator over characters, from either end. A contract sees it as `units_left` of it: the code
/// units that remain.
#[derive(Drop)]
pub struct CStr16Iter<'a> {
    units: &'a [u16],
    pub ghost are_characters: { All IsChar16 units.now },
}

/// Consecutive characters, for example a text, a string with its NUL or a component of a path. A
/// contract sees it as `units_of` it: their code units. A call that takes an allocator allocates,
/// and [`Char16Slice::add_utf8_to`] may. No other call does.
///
/// ```rust
/// let name = CStr16::from_u16_with_nul(&[0x42, 0x6f, 0x6f, 0x74, 0])?;
/// let part = name.as_slice().part(1, 3);
/// assert_eq!(rt; part.units(), [0x6f, 0x6f].as_slice());
/// assert!(rt; part.len() == 2 && !part.is_empty() && part.has_no_nul());
/// assert_eq!(rt; part.get(0).map(char::from), Some('o'));
/// assert_eq!(rt; part.iter().count(), 2);
/// ```
#[derive(Clone, Copy)]
pub struct Char16Slice<'a> {
    units: &'a [u16],
    pub ghost are_characters: { All IsChar16 units.now },
}

impl<'a> CStr16<'a> {
    ghost use Rattle.uefi_text.specs.Views.{text_of, units_of, units_left};

    /// Borrows the units up to and including the first NUL as a string.
    ///
    /// The first NUL or surrogate decides. A NUL ends the string, and later units do not matter. A
    /// surrogate is refused as `InvalidChar` with its index. If there is neither, the result is
    /// `NoNul`. Does not allocate.
    ///
    /// ```rust
    /// let name = CStr16::from_u16_until_nul(&[0x42, 0x6f, 0x6f, 0x74, 0, 0xffff])?;
    /// assert_eq!(rt; name.num_chars(), 4);
    /// let refused = CStr16::from_u16_until_nul(&[0x42, 0xd83d, 0]);
    /// assert_eq!(rt; refused.err(), Some(FromSliceUntilNulError::InvalidChar(1)));
    /// ```
    pub fn from_u16_until_nul(units: &'a [u16]) -> Result<CStr16<'a>, FromSliceUntilNulError>
        ensures ok { IfOk result (λ string. text_of string ≡ before_first is_nul units.now) }
        ensures accepts { IsOk result ↔ BeginsWithString units.now }
        ensures refusal { result_err result ≡ until_nul_refusal units.now }
    {
        let Some(end) = find_deciding_place(units) else {
            return Err(FromSliceUntilNulError::NoNul);
        };
        if units[end] != 0 {
            return Err(FromSliceUntilNulError::InvalidChar(end));
        }
        Ok(CStr16 {
            units: &units[..end + 1],
        })
    }

    /// Borrows all of the units as a string.
    ///
    /// The first NUL or surrogate decides. A NUL at the last index ends the string. An earlier NUL
    /// is refused as `InteriorNul`, and a surrogate as `InvalidChar`, each with its index. If there
    /// is neither, the result is `NotNulTerminated`. Does not allocate.
    ///
    /// ```rust
    /// let name = CStr16::from_u16_with_nul(&[0x48, 0x69, 0])?;
    /// assert_eq!(rt; name.num_chars(), 2);
    /// let refused = CStr16::from_u16_with_nul(&[0x48, 0, 0x69, 0]);
    /// assert_eq!(rt; refused.err(), Some(FromSliceWithNulError::InteriorNul(1)));
    /// ```
    pub fn from_u16_with_nul(units: &'a [u16]) -> Result<CStr16<'a>, FromSliceWithNulError>
        ensures ok { IfOk result (λ string. nul_terminated (text_of string) ≡ units.now) }
        ensures accepts { IsOk result ↔ IsString units.now }
        ensures refusal { result_err result ≡ with_nul_refusal units.now }
    {
        let Some(place) = find_deciding_place(units) else {
            return Err(FromSliceWithNulError::NotNulTerminated);
        };
        check_deciding_unit(units[place], place, units.len())?;
        Ok(CStr16 { units })
    }

    /// Borrows units as a string, for which the caller has a proof. Reads none of the units, and
    /// does not allocate. For crates that prove that units are a string, as device paths do of
    /// their texts; other callers use the constructors above, which check the units.
    #[doc(hidden)]
    pub fn from_string(units: &'a [u16]) -> CStr16<'a>
        requires { IsString units.now }
        ensures { text_of result ≡ without_nul units.now }
    {
        CStr16 { units }
    }

    /// Encodes a Rust text as a string at the start of a buffer, and returns its length without the NUL.
    ///
    /// The UTF-16 of the text (Unicode Standard, section 3.9) must have fewer units than the buffer
    /// has places. Otherwise the result is `BufferTooSmall`, whatever the text contains, and the
    /// buffer contains the first of these units; half of a surrogate pair may be the last. If there
    /// is room, the buffer begins with the units and a NUL, and the rest is unchanged, whatever the
    /// result. The first character that is NUL or above U+FFFF then decides: `InteriorNul` or
    /// `InvalidChar`, with the number of characters before it. Does not allocate.
    ///
    /// ```rust
    /// let mut buffer = [0xffff; 4];
    /// assert_eq!(rt; CStr16::write_str("Hi", &mut buffer), Ok(2));
    /// assert_eq!(rt; buffer, [0x48, 0x69, 0, 0xffff]);
    /// assert_eq!(rt; CStr16::write_str("Boot", &mut buffer), Err(FromStrWithBufError::BufferTooSmall));
    /// ```
    pub fn write_str(input: &str, buffer: &mut [u16]) -> Result<usize, FromStrWithBufError>
        ensures ok { IfOk result (λ len. len ≡ length (chars input.now)) }
        ensures accepts { IsOk result
            ↔ (IsText (chars input.now) × (length (chars input.now) < length buffer.old)) }
        ensures refusal { result_err result
            ≡ from_str_with_buf_refusal (chars input.now) (length buffer.old) }
        ensures buffer { buffer.new ≡ with_text (chars input.now) buffer.old }
    {
        write_text(input, buffer)
    }

    /// Encodes a Rust text at the start of a buffer, and borrows it from there as a string.
    /// [`CStr16::write_str`] says when it fails and what the buffer then contains. Does not
    /// allocate.
    ///
    /// ```rust
    /// let mut buffer = [0; 8];
    /// let name = CStr16::from_str_with_buf("Hi", &mut buffer)?;
    /// assert_eq!(rt; name.to_u16_slice(), [0x48, 0x69].as_slice());
    /// let refused = CStr16::from_str_with_buf("a\u{1f600}", &mut buffer);
    /// assert_eq!(rt; refused.err(), Some(FromStrWithBufError::InvalidChar(1)));
    /// ```
    pub fn from_str_with_buf(
        input: &str,
        buf: &'a mut [u16],
    ) -> Result<CStr16<'a>, FromStrWithBufError>
        ensures ok { IfOk result (λ string. text_of string ≡ chars input.now) }
        ensures accepts { IsOk result
            ↔ (IsText (chars input.now) × (length (chars input.now) < length buf.old)) }
        ensures refusal { result_err result
            ≡ from_str_with_buf_refusal (chars input.now) (length buf.old) }
    {
        let len = CStr16::write_str(input, buf)?;
        Ok(CStr16::from_string(&buf[..len + 1]))
    }

    /// Returns the characters of the text, without the NUL.
    pub fn as_slice(&self) -> Char16Slice<'a>
        ensures same { units_of result ≡ text_of self.now }
        ensures is_text { IsText (units_of result) }
        ensures no_nul { All (λ unit. unit ≢ 0) (units_of result) }
        ensures bound { length (text_of self.now) + 1 < 2 ^ 64 }
    {
        let _units = self.units.len();
        Char16Slice {
            units: self.to_u16_slice(),
        }
    }

    /// Returns the characters of the text, with the NUL.
    pub fn as_slice_with_nul(&self) -> Char16Slice<'a>
        ensures { units_of result ≡ nul_terminated (text_of self.now) }
    {
        Char16Slice { units: self.units }
    }

    /// Returns the code units of the text, without the NUL.
    pub fn to_u16_slice(&self) -> &'a [u16]
        ensures { result.now ≡ text_of self.now }
    {
        &self.units[..self.units.len() - 1]
    }

    /// Returns the code units of the text, with the NUL.
    pub fn to_u16_slice_with_nul(&self) -> &'a [u16]
        ensures { result.now ≡ nul_terminated (text_of self.now) }
    {
        self.units
    }

    /// Returns an iterator over the characters of the text in order, without the NUL.
    ///
    /// ```rust
    /// let mut characters = CStr16::from_u16_with_nul(&[0x48, 0x69, 0])?.iter();
    /// assert_eq!(rt; characters.next().map(char::from), Some('H'));
    /// assert_eq!(rt; characters.next_back().map(char::from), Some('i'));
    /// assert_eq!(rt; characters.next(), None);
    /// ```
    pub fn iter(&self) -> CStr16Iter<'a>
        ensures same { units_left result ≡ text_of self.now }
        ensures no_nul { GivesNoNul (YieldsFirst units_left) result }
        ensures bound { length (units_left result) < 2 ^ 64 }
        ensures runs { GivesEach (λ unit. unit) units_left result }
    {
        self.as_slice().iter()
    }

    /// Returns the number of characters of the text, without the NUL.
    pub fn num_chars(&self) -> usize
        ensures { result ≡ length (text_of self.now) }
    {
        self.units.len() - 1
    }

    /// Returns the number of bytes of the string: two for each character and two for the NUL. The
    /// number must fit in a `usize`, as it does for every slice in memory; test
    /// [`CStr16::num_chars`].
    pub fn num_bytes(&self) -> usize
        requires { 2 * (length (text_of self.now) + 1) < 2 ^ 64 }
        ensures { result ≡ 2 * (length (text_of self.now) + 1) }
    {
        2 * self.units.len()
    }

    /// Returns whether the text is empty.
    pub fn is_empty(&self) -> bool
        ensures { IsTrue result ↔ (text_of self.now ≡ []) }
    {
        self.num_chars() == 0
    }

    /// Returns whether every character is ASCII.
    pub fn is_ascii(&self) -> bool
        ensures { IsTrue result ↔ IsAscii (text_of self.now) }
    {
        is_ascii(self.to_u16_slice())
    }

    /// Returns the string as bytes, the low byte first on every machine: two for each character and
    /// two for the NUL. Allocates once, with that size. Returns `AllocError` if memory runs out.
    ///
    /// ```rust
    /// let price = CStr16::from_u16_with_nul(&[0x35, 0x20ac, 0])?;
    /// let bytes = price.as_bytes(rt.alloc())?;
    /// assert_eq!(rt; bytes.as_slice(), [0x35, 0, 0xac, 0x20, 0, 0].as_slice());
    /// ```
    pub fn as_bytes<A: Allocator>(&self, alloc: A) -> Result<Vec<u8, A>, AllocError>
        ensures { IfOk result (λ bytes. bytes.items ≡ unit_bytes (nul_terminated (text_of self.now))) }
    {
        let Some(len) = self.units.len().checked_mul(2) else {
            return Err(AllocError);
        };
        let mut bytes = Vec::new(alloc);
        bytes.resize(len, 0)?;
        split(&mut bytes, self.units);
        Ok(bytes)
    }

    /// Returns the text as a Rust `String`. Allocates at most once, because it counts the bytes in
    /// UTF-8 first. Returns `AllocError` if memory runs out.
    ///
    /// ```rust
    /// let price = CStr16::from_u16_with_nul(&[0x35, 0x20ac, 0])?;
    /// assert_eq!(rt; price.to_rust_string(rt.alloc())?.as_str(), "5€");
    /// ```
    pub fn to_rust_string<A: Allocator>(&self, alloc: A) -> Result<String<A>, AllocError>
        ensures bytes { IfOk result (λ text. string_bytes text ≡ encode_utf8_all (text_of self.now)) }
        ensures characters { IfOk result (λ text. chars (string_bytes text) ≡ text_of self.now) }
    {
        let mut bytes = Vec::new(alloc);
        add_utf8(&mut bytes, self.to_u16_slice())?;
        // SAFETY: the bytes are UTF-8, which is proved here as the condition of the call.
        Ok(unsafe { String::from_utf8_unchecked(bytes) })
    }

    /// Writes the characters of the text to a sink, in order, up to the first that it rejects. The
    /// sink then contains the characters before that one.
    ///
    /// The call offers the sink 64 characters at a time, by [`CharSink::write_whole`]. If the sink
    /// does not take them at once, they are written one by one. Only the sink may allocate.
    ///
    /// ```rust
    /// let name = CStr16::from_u16_with_nul(&[0x48, 0x69, 0])?;
    /// let mut text = String::new(rt.alloc());
    /// name.as_str_in_buf(&mut text)?;
    /// assert_eq!(rt; text.as_str(), "Hi");
    /// ```
    pub fn as_str_in_buf<W: CharSink>(&self, buf: &mut W) -> fmt::Result
        ensures ok { OnOk result (W.text buf.new ≡ W.text buf.old ++ encode_utf8_all (text_of self.now)) }
        ensures err { OnErr result ((k : ℕ) × (k < length (text_of self.now))
            × (W.text buf.new ≡ W.text buf.old ++ encode_utf8_all (take k (text_of self.now)))
            × W.may_refuse (W.text buf.new) (slice_index (text_of self.now) k)) }
    {
        let characters = self.as_slice();
        let mut start = 0;
        while start < characters.len() {
            let end = start + PRINTED.min(characters.len() - start);
            characters.part(start, end).write_block_to(buf)?;
            start = end;
        }
        Ok(())
    }

    /// Returns whether the other string has the same text, as `==` does.
    pub fn eq_cstr16(&self, other: CStr16<'_>) -> bool
        ensures { IsTrue result ↔ (text_of self.now ≡ text_of other.entry) }
    {
        *self == other
    }
}

/// Writes the characters of the text.
impl<'a> fmt::Display for CStr16<'a> {
    ghost use Rattle.uefi_text.specs.Views.{text_of};

    ghost output = { λ string. Some (encode_utf8_all (text_of string)) };

    fn fmt<W: fmt::Write>(&self, f: &mut fmt::Formatter<W>) -> fmt::Result {
        fmt::Display::fmt(&self.as_slice(), f)
    }
}

/// Two strings are equal exactly when their texts are.
impl<'a> PartialEq for CStr16<'a> {
    ghost use Rattle.uefi_text.specs.Views.{text_of};

    ghost eq = { λ a b. pointwise nat_eq (text_of a) (text_of b) };

    ghost laws = { on_per text_of (partial_equiv_from_equiv nat_list_eq_equiv) };

    fn eq(&self, other: &Self) -> bool {
        are_same(self.to_u16_slice(), other.to_u16_slice())
    }
}

impl<'a> Eq for CStr16<'a> {
    ghost use Rattle.uefi_text.specs.Views.{text_of};

    ghost laws = { on_texts_equal text_of };
}

/// Compares the code units, in list order.
impl<'a> PartialOrd for CStr16<'a> {
    ghost use Rattle.uefi_text.specs.Views.{text_of};

    ghost partial_cmp = { as_partial_cmp (on text_of (slice_cmp nat_cmp)) };

    ghost laws = { on_po text_of texts_po };

    fn partial_cmp(&self, other: &Self) -> Option<Ordering> {
        Some(Ord::cmp(self, other))
    }
}

/// Returns `Equal` exactly for equal strings.
impl<'a> Ord for CStr16<'a> {
    ghost use Rattle.uefi_text.specs.Views.{text_of};

    ghost cmp = { on text_of (slice_cmp nat_cmp) };

    ghost total = { on_texts text_of };

    ghost matches_partial_cmp = { λ _ _. refl };

    ghost matches_eq = { λ a b. texts_ties (text_of a) (text_of b) };

    fn cmp(&self, other: &Self) -> Ordering {
        self.to_u16_slice().cmp(other.to_u16_slice())
    }
}

/// Hashes the code units of the text, so that equal strings hash alike.
impl<'a> Hash for CStr16<'a> {
    ghost use Rattle.std.proofs.Common.{rules};
    ghost use Rattle.std.specs.Hash as fed;
    ghost use Rattle.std.specs.Cmp.Rules.{comparing, hashing};
    ghost use Rattle.uefi_text.specs.Views.{text_of};

    ghost hash_input = { λ a. fed.slice fed.u16 (text_of a) };

    ghost respects_eq = { Prim.search (hashing, comparing, rules) };

    fn hash<H: Hasher>(&self, state: &mut H) {
        self.to_u16_slice().hash(state);
    }
}

/// Iterates over the characters of the text in order, without the NUL. Does not allocate.
impl<'a> IntoIterator for CStr16<'a> {
    type Item = Char16;

    type IntoIter = CStr16Iter<'a>;

    ghost use Rattle.uefi_text.specs.Views.{text_of, units_left};

    ghost into_iter_gives = { λ string iter. GivesAll (λ unit. unit) units_left iter (text_of string)
        × GivesNoNul (YieldsFirst units_left) iter };

    fn into_iter(self) -> CStr16Iter<'a> {
        CStr16::iter(&self)
    }
}

/// Prints the characters, each as a Rust character.
impl<'a> fmt::Debug for CStr16<'a> {
    fn fmt<W: fmt::Write>(&self, f: &mut fmt::Formatter<W>) -> fmt::Result {
        f.debug_tuple("CStr16").field(&self.as_slice()).finish()
    }
}

/// Compares the characters of the text.
impl<'a> EqStrUntilNul for CStr16<'a> {
    ghost use Rattle.uefi_text.specs.Views.{text_of};

    ghost characters = { text_of };

    fn eq_str_until_nul(&self, other: &str) -> bool {
        let units = self.to_u16_slice();
        let len = same_ascii_len(units, other.as_bytes());
        are_equal_by_block(&units[len..], &other[len..])
    }
}

/// Gives the characters from the front, and then always `None`.
impl<'a> Iterator for CStr16Iter<'a> {
    type Item = Char16;

    ghost use Rattle.uefi_text.specs.Views.{units_left};

    ghost next_gives = { YieldsFirst units_left };

    ghost remaining = { item_count units_left };

    fn next(&mut self) -> Option<Char16> {
        let (first, others) = self.units.split_first()?;
        self.units = others;
        Some(Char16::from_unit(*first))
    }

    /// Returns the exact number of characters that are left.
    fn size_hint(&self) -> (usize, Option<usize>)
        ensures lower { IsWithinCount result.0 (item_count units_left self.now) }
        ensures upper { IfSome result.1 (UpTo (item_count units_left self.now)) }
        ensures exact { let count = length (units_left self.now) in
            result ≡ (count, Some count) }
    {
        (self.units.len(), Some(self.units.len()))
    }
}

/// Gives the characters from the back.
impl<'a> DoubleEndedIterator for CStr16Iter<'a> {
    ghost use Rattle.uefi_text.specs.Views.{units_left};

    ghost next_back_gives = { YieldsLast units_left };

    fn next_back(&mut self) -> Option<Char16> {
        let (last, rest) = self.units.split_last()?;
        self.units = rest;
        Some(Char16::from_unit(*last))
    }
}

/// Prints the code units that are left.
impl<'a> fmt::Debug for CStr16Iter<'a> {
    fn fmt<W: fmt::Write>(&self, f: &mut fmt::Formatter<W>) -> fmt::Result {
        f.debug_tuple("CStr16Iter").field(&self.units).finish()
    }
}

impl<'a> Char16Slice<'a> {
    ghost use Rattle.uefi_text.specs.Views.{units_of, units_left};

    /// Returns the number of characters.
    pub fn len(&self) -> usize
        ensures { result ≡ length (units_of self.now) }
    {
        self.units.len()
    }

    /// Returns whether the slice is empty.
    pub fn is_empty(&self) -> bool
        ensures { IsTrue result ↔ (units_of self.now ≡ []) }
    {
        self.units.is_empty()
    }

    /// Returns the character at an index, or `None` if the index is not less than the length.
    pub fn get(&self, i: usize) -> Option<Char16>
        ensures { result ≡ slice_get (units_of self.now) i }
    {
        let unit = *self.units.get(i)?;
        Some(Char16::from_unit(unit))
    }

    /// Returns an iterator over the characters in order.
    pub fn iter(&self) -> CStr16Iter<'a>
        ensures same { units_left result ≡ units_of self.now }
        ensures bound { length (units_left result) < 2 ^ 64 }
        ensures runs { GivesEach (λ unit. unit) units_left result }
    {
        let _units = self.units.len();
        CStr16Iter { units: self.units }
    }

    /// Returns whether none of the characters is NUL.
    pub fn has_no_nul(&self) -> bool
        ensures { IsTrue result ↔ All (λ unit. unit ≢ 0) (units_of self.now) }
    {
        find_nul(self.units).is_none()
    }

    /// Returns the code units of the characters.
    pub fn units(&self) -> &'a [u16]
        ensures { result.now ≡ units_of self.now }
    {
        self.units
    }

    /// Appends the characters in UTF-8 to bytes. Returns `AllocError` if memory runs out, and
    /// leaves the bytes unchanged. Allocates at most once, and not at all if the bytes have room.
    ///
    /// ```rust
    /// let price = CStr16::from_u16_with_nul(&[0x35, 0x20ac, 0])?;
    /// let mut bytes = Vec::new(rt.alloc());
    /// price.as_slice().add_utf8_to(&mut bytes)?;
    /// assert_eq!(rt; bytes.as_slice(), [0x35, 0xe2, 0x82, 0xac].as_slice());
    /// ```
    pub fn add_utf8_to<A: Allocator>(&self, bytes: &mut Vec<u8, A>) -> Result<(), AllocError>
        ensures ok { OnOk result (bytes.new.items ≡ bytes.old.items ++ encode_utf8_all (units_of self.now)) }
        ensures err { OnErr result (bytes.new.items ≡ bytes.old.items) }
    {
        add_utf8(bytes, self.units)
    }

    /// Writes at most [`PRINTED`] characters to a sink at once, and returns whether the sink took
    /// them.
    #[inline(always)]
    fn write_whole_to<W: CharSink>(&self, sink: &mut W) -> bool
        requires { length (units_of self.now) ≤ 64 }
        ensures all { result ≡ true
            → W.text sink.new ≡ W.text sink.old ++ encode_utf8_all (units_of self.now) }
        ensures none { result ≡ false → W.text sink.new ≡ W.text sink.old }
    {
        let mut room = [0; 3 * PRINTED];
        let len = write_utf8(&mut room, self.units);
        // SAFETY: the bytes are UTF-8, which is proved here as the condition of the call.
        sink.write_whole(unsafe { str::from_utf8_unchecked(&room[..len]) })
    }

    /// Adds at most [`PRINTED`] characters to a sink, up to the first that it rejects.
    #[inline(always)]
    fn write_block_to<W: CharSink>(&self, sink: &mut W) -> fmt::Result
        requires { length (units_of self.now) ≤ 64 }
        ensures ok { OnOk result (W.text sink.new ≡ W.text sink.old ++ encode_utf8_all (units_of self.now)) }
        ensures err { OnErr result ((k : ℕ) × (k < length (units_of self.now))
            × (W.text sink.new ≡ W.text sink.old ++ encode_utf8_all (take k (units_of self.now)))
            × W.may_refuse (W.text sink.new) (slice_index (units_of self.now) k)) }
    {
        if self.write_whole_to(sink) {
            return Ok(());
        }
        self.write_each_to(sink)
    }

    /// Adds the characters to a sink, one by one, up to the first that it rejects.
    fn write_each_to<W: CharSink>(&self, sink: &mut W) -> fmt::Result
        ensures ok { OnOk result (W.text sink.new ≡ W.text sink.old ++ encode_utf8_all (units_of self.now)) }
        ensures err { OnErr result ((k : ℕ) × (k < length (units_of self.now))
            × (W.text sink.new ≡ W.text sink.old ++ encode_utf8_all (take k (units_of self.now)))
            × W.may_refuse (W.text sink.new) (slice_index (units_of self.now) k)) }
    {
        for c in self.iter() {
            sink.write_char(char::from(c))?;
        }
        Ok(())
    }

    /// Returns the characters from index `start` up to, but not including, index `end`.
    pub fn part(&self, start: usize, end: usize) -> Char16Slice<'a>
        requires { (start ≤ end) × (end ≤ length (units_of self.now)) }
        ensures { units_of result ≡ slice_range (units_of self.now) start end }
    {
        Char16Slice {
            units: &self.units[start..end],
        }
    }
}

/// Two slices are equal exactly when their code units are.
impl<'a> PartialEq for Char16Slice<'a> {
    ghost use Rattle.uefi_text.specs.Views.{units_of};

    ghost eq = { λ a b. pointwise nat_eq (units_of a) (units_of b) };

    ghost laws = { on_per units_of (partial_equiv_from_equiv nat_list_eq_equiv) };

    fn eq(&self, other: &Self) -> bool {
        are_same(self.units, other.units)
    }
}

impl<'a> Eq for Char16Slice<'a> {
    ghost use Rattle.uefi_text.specs.Views.{units_of};

    ghost laws = { on_texts_equal units_of };
}

/// Compares the code units, in list order.
impl<'a> PartialOrd for Char16Slice<'a> {
    ghost use Rattle.uefi_text.specs.Views.{units_of};

    ghost partial_cmp = { as_partial_cmp (on units_of (slice_cmp nat_cmp)) };

    ghost laws = { on_po units_of texts_po };

    fn partial_cmp(&self, other: &Self) -> Option<Ordering> {
        Some(self.cmp(other))
    }
}

/// Returns `Equal` exactly for equal slices.
impl<'a> Ord for Char16Slice<'a> {
    ghost use Rattle.uefi_text.specs.Views.{units_of};

    ghost cmp = { on units_of (slice_cmp nat_cmp) };

    ghost total = { on_texts units_of };

    ghost matches_partial_cmp = { λ _ _. refl };

    ghost matches_eq = { λ a b. texts_ties (units_of a) (units_of b) };

    fn cmp(&self, other: &Self) -> Ordering {
        self.units.cmp(other.units)
    }
}

/// Hashes the code units, so that equal slices hash alike, and a text hashes as its string does.
impl<'a> Hash for Char16Slice<'a> {
    ghost use Rattle.std.proofs.Common.{rules};
    ghost use Rattle.std.specs.Hash as fed;
    ghost use Rattle.std.specs.Cmp.Rules.{comparing, hashing};
    ghost use Rattle.uefi_text.specs.Views.{units_of};

    ghost hash_input = { λ a. fed.slice fed.u16 (units_of a) };

    ghost respects_eq = { Prim.search (hashing, comparing, rules) };

    fn hash<H: Hasher>(&self, state: &mut H) {
        self.units.hash(state);
    }
}

/// Writes the characters.
impl<'a> fmt::Display for Char16Slice<'a> {
    ghost use Rattle.uefi_text.specs.Views.{units_of};

    ghost output = { λ part. Some (encode_utf8_all (units_of part)) };

    fn fmt<W: fmt::Write>(&self, f: &mut fmt::Formatter<W>) -> fmt::Result {
        let mut room = [0; 3 * PRINTED];
        let mut start = 0;
        while start < self.units.len() {
            let end = start + PRINTED.min(self.units.len() - start);
            let len = write_utf8(&mut room, &self.units[start..end]);
            // SAFETY: the bytes are UTF-8, which is proved here as the condition of the call.
            f.write_str(unsafe { str::from_utf8_unchecked(&room[..len]) })?;
            start = end;
        }
        Ok(())
    }
}

/// Prints the characters as a list, each as a Rust character.
impl<'a> fmt::Debug for Char16Slice<'a> {
    fn fmt<W: fmt::Write>(&self, f: &mut fmt::Formatter<W>) -> fmt::Result {
        f.debug_list().entries(self.iter()).finish()
    }
}

/// Iterates over the characters in order. Does not allocate.
impl<'a> IntoIterator for Char16Slice<'a> {
    type Item = Char16;

    type IntoIter = CStr16Iter<'a>;

    ghost use Rattle.uefi_text.specs.Views.{units_left, units_of};

    ghost into_iter_gives = { λ part iter. GivesAll (λ unit. unit) units_left iter (units_of part) };

    fn into_iter(self) -> CStr16Iter<'a> {
        Char16Slice::iter(&self)
    }
}
