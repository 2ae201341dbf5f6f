//! Little-endian numbers that are packed in bytes, at any address.
//!
//! The tables and device paths of firmware are packed: a number of several bytes begins where the
//! field before it ends, at an odd or an even address, so that no slice of these numbers can be
//! borrowed. An [`UnalignedSlice`] borrows the bytes instead, and decodes an item each time that
//! one is requested, the low byte first on every machine.
//!
//! ```rust
//! use uefi_text::UnalignedSlice;
//!
//! // A tag of one byte, and after it two numbers of two bytes each.
//! let field: &[u8] = &[0x07, 0x10, 0x11, 0x20, 0x21];
//! if UnalignedSlice::<u16>::fits(&field[1..], 2) {
//!     let items: UnalignedSlice<u16> = UnalignedSlice::new(&field[1..], 2);
//!     assert_eq!(rt; items.get(0), Some(0x1110));
//!     assert_eq!(rt; items.get(1), Some(0x2120));
//!     assert_eq!(rt; items.get(2), None);
//! }
//! ```
//!
//! A contract sees a slice as `items_of` it: the list of its items' numbers. The trait [`Packed`] says
//! what can be an item: how many bytes it takes, and which number they encode. Every contract here holds
//! for each type that implements it.
#![tactic(auto, using(crate::proofs::Packing::packing), unfolding(crate::specs::Views::items_of, crate::specs::Views::items_left, crate::specs::Views::into_iter_items_left))]

ghost use Rattle.std.specs.Prelude.{◌≡◌, ℕ, ◌+◌, ◌++◌, ◌*◌, ◌^◌, ◌<◌, ◌≤◌, ◌↔◌, [], length, map, slice_index, slice_get, slice_range, IfOk, IfErr, IfSome, IsOk, IsSome, IsTrue, ⊤, List, None, drop, position, unwrap_or, ◌%◌, OnOk};
ghost use Rattle.std.specs.Iterator.{UpTo, YieldsFirstBy, item_count};
ghost use Rattle.std.specs.Iterator.SizeHint.{IsWithinCount};
ghost use Rattle.std.specs.Option.{option_map};
ghost use Rattle.std.specs.Vec.{vec_len, vec_capacity};
ghost use Rattle.uefi_text.specs.Packed.{little_endian, packed_items};
ghost use Rattle.uefi_text.specs.Runs.{GivesEach, GivesAll};
ghost use Rattle.uefi_text.specs.UnalignedCStr16.{refusal_in_buffer, unaligned_refusal, with_prefix};
ghost use Rattle.uefi_text.specs.UnitBytes.{ends_in_nul, unit_bytes, units_of_bytes, BytesEncode, unit_bytes_refusal};
ghost use Rattle.std.specs.Result.{result_err};
ghost use Rattle.uefi_text.specs.FromSliceWithNul.{with_nul_refusal};
ghost use Rattle.uefi_text.specs.Units.{IsString, IsText, nul_terminated};
ghost use Rattle.uefi_text.specs.PackedStrings.{SplitsUntilNul};

pub use crate::packed_numbers::Packed;
use crate::scan::{Class, Deciding, Nul, find_first_packed};
use crate::strings::owned_strs::CString16;
use crate::strings::strs::{
    CStr16, FromSliceWithNulError, UnalignedCStr16Error, check_deciding_unit,
};
use std::alloc::{AllocError, Allocator};
use std::fmt;
use std::marker::PhantomData;

/// The number of items that are copied at a time. They pass through a separate block, which nothing
/// else shares, so that the compiler makes one call of `memmove` for each block, and omits the
/// block.
const COPIED: usize = 4096;

/// So few items are copied one by one: a call of `memmove` costs more than it saves.
const FEW_ITEMS: usize = 64;

/// The number of items that become a part of a vector at a time, if there are few.
const PIECE: usize = 16;

/// A view of items that are packed in borrowed bytes, which may begin at any address. A contract
/// sees it as `items_of` it: the list of the items' numbers. A call that takes an allocator
/// allocates, and no other does.
#[derive(Copy)]
pub struct UnalignedSlice<'a, T: Packed> {
    bytes: &'a [u8],
    len: usize,
    items: PhantomData<T>,
    pub ghost in_bytes: { len * T.SIZE ≤ length bytes.now },
}

/// An iterator over the items of a packed slice. A contract sees it as `items_left` of it: the
/// items that remain.
#[derive(Drop)]
pub struct UnalignedSliceIter<'a, T: Packed> {
    rest: UnalignedSlice<'a, T>,
}

/// The iterator that a packed slice itself becomes. A contract sees it as `into_iter_items_left` of
/// it: the items that remain.
#[derive(Drop)]
pub struct UnalignedSliceIntoIter<'a, T: Packed> {
    items: UnalignedSliceIter<'a, T>,
}

/// Fills `dest` with the items at the start of the bytes, in order. Both are slices, so that their
/// addresses and lengths are not read again for each item. Makes no call of `memmove`. Public only
/// for the exports to C, which can't have a call of it.
#[doc(hidden)]
pub fn read_items<T: Packed>(bytes: &[u8], dest: &mut [T])
    requires { length dest.old * T.SIZE ≤ length bytes.now }
    ensures { map T.number dest.new ≡ packed_items T.SIZE (length dest.old) bytes.now }
{
    for place in 0..dest.len() {
        let start = place * T::SIZE;
        dest[place] = T::read_le(&bytes[start..start + T::SIZE]);
    }
}

/// Reads the items that bytes begin with into a block, as many as `dest` has places, and copies them
/// to `dest`.
fn read_block<T: Packed>(bytes: &[u8], block: &mut [T], dest: &mut [T])
    requires fits { length dest.old * T.SIZE ≤ length bytes.now }
    requires block { length dest.old ≤ length block.old }
    ensures items { map T.number dest.new ≡ packed_items T.SIZE (length dest.old) bytes.now }
    ensures len { length dest.new ≡ length dest.old }
    ensures block { length block.new ≡ length block.old }
{
    let items = &mut block[..dest.len()];
    read_items(bytes, items);
    dest.copy_from_slice(items);
}

/// Writes the items that bytes begin with, as many as there are places, a block at a time. A copy of
/// fewer items saves no registers for it.
#[inline(never)]
fn read_blocks<T: Packed>(bytes: &[u8], dest: &mut [T])
    requires { length dest.old * T.SIZE ≤ length bytes.now }
    ensures { map T.number dest.new ≡ packed_items T.SIZE (length dest.old) bytes.now }
{
    let len = dest.len();
    if len == 0 {
        return;
    }
    let first = T::read_le(&bytes[..T::SIZE]);
    let mut start = 0;
    while start < len {
        let count = COPIED.min(len - start);
        let items = &mut dest[start..start + count];
        read_block(&bytes[start * T::SIZE..], &mut [first; COPIED], items);
        start += count;
    }
}

/// Appends items to a vector that has room for them.
fn push_all<T: Copy, A: Allocator>(items: &mut Vec<T, A>, added: &[T])
    requires { vec_len items.old + length added.now ≤ vec_capacity items.old }
    ensures items { items.new.items ≡ items.old.items ++ added.now }
    ensures len { vec_len items.new ≡ vec_len items.old + length added.now }
    ensures capacity { vec_capacity items.new ≡ vec_capacity items.old }
{
    for place in 0..added.len() {
        items.push_reserved(added[place]);
    }
}

/// Reads the items that bytes begin with into a block, as many as it has places, and appends them to
/// a vector that has room for them.
fn push_block<T: Packed, A: Allocator>(bytes: &[u8], block: &mut [T], items: &mut Vec<T, A>)
    requires fits { length block.old * T.SIZE ≤ length bytes.now }
    requires room { vec_len items.old + length block.old ≤ vec_capacity items.old }
    ensures items { map T.number items.new.items
        ≡ map T.number items.old.items ++ packed_items T.SIZE (length block.old) bytes.now }
    ensures len { vec_len items.new ≡ vec_len items.old + length block.old }
    ensures capacity { vec_capacity items.new ≡ vec_capacity items.old }
    ensures block { length block.new ≡ length block.old }
{
    read_items(bytes, block);
    push_all(items, block);
}

/// Appends the first `len` items of bytes to a vector that has room for them, a block at a time.
fn push_blocks<T: Packed, A: Allocator>(
    bytes: &[u8],
    len: usize,
    block: &mut [T],
    items: &mut Vec<T, A>,
)
    requires fits { len * T.SIZE ≤ length bytes.now }
    requires room { vec_len items.old + len ≤ vec_capacity items.old }
    requires block { 0 < length block.old }
    ensures { map T.number items.new.items
        ≡ map T.number items.old.items ++ packed_items T.SIZE len bytes.now }
{
    let mut start = 0;
    while start < len {
        let count = block.len().min(len - start);
        push_block(&bytes[start * T::SIZE..], &mut block[..count], items);
        start += count;
    }
}

impl<'a, T: Packed> UnalignedSlice<'a, T> {
    ghost use Rattle.uefi_text.specs.Views.{items_of, items_left};

    /// Returns whether the bytes have room for `len` items: whether `len` times `SIZE`, as a whole
    /// number that never wraps, is at most the number of bytes.
    ///
    /// ```rust
    /// assert!(rt; UnalignedSlice::<u32>::fits(&[0; 9], 2));
    /// assert!(rt; !UnalignedSlice::<u32>::fits(&[0; 9], 3));
    /// assert!(rt; !UnalignedSlice::<u32>::fits(&[0; 9], usize::MAX));
    /// ```
    pub fn fits(bytes: &[u8], len: usize) -> bool
        ensures { IsTrue result ↔ (len * T.SIZE ≤ length bytes.now) }
    {
        match len.checked_mul(T::SIZE) {
            Some(size) => size <= bytes.len(),
            None => false,
        }
    }

    /// Returns a view of the first `len` items of the bytes, in order from the start. The bytes
    /// after them are never read. The bytes must have room for the items, which
    /// [`UnalignedSlice::fits`] tests.
    ///
    /// ```rust
    /// let items: UnalignedSlice<u16> = UnalignedSlice::new(&[0x34, 0x12, 0x78, 0x56, 0xff], 2);
    /// assert_eq!(rt; items.get(1), Some(0x5678));
    /// assert_eq!(rt; items.len(), 2);
    /// ```
    pub fn new(bytes: &'a [u8], len: usize) -> Self
        requires { len * T.SIZE ≤ length bytes.now }
        ensures items { items_of result ≡ packed_items T.SIZE len bytes.now }
        ensures len { length (items_of result) ≡ len }
        ensures each { (i : ℕ) → i < len → slice_get (items_of result) i
            ≡ Some (little_endian (slice_range bytes.now (i * T.SIZE) (i * T.SIZE + T.SIZE))) }
    {
        UnalignedSlice {
            bytes,
            len,
            items: PhantomData,
        }
    }

    /// Does what [`UnalignedSlice::new`] does, or returns `None` exactly if the bytes have no room
    /// for the items.
    ///
    /// ```rust
    /// let bytes = [0x34, 0x12, 0xff];
    /// assert!(rt; UnalignedSlice::<u16>::try_new(&bytes, 1).is_some());
    /// assert!(rt; UnalignedSlice::<u16>::try_new(&bytes, 2).is_none());
    /// ```
    pub fn try_new(bytes: &'a [u8], len: usize) -> Option<Self>
        ensures fits { IsSome result ↔ (len * T.SIZE ≤ length bytes.now) }
        ensures items { IfSome result (λ slice. items_of slice ≡ packed_items T.SIZE len bytes.now) }
        ensures len { IfSome result (λ slice. length (items_of slice) ≡ len) }
        ensures each { IfSome result (λ slice. (i : ℕ) → i < len → slice_get (items_of slice) i
            ≡ Some (little_endian (slice_range bytes.now (i * T.SIZE) (i * T.SIZE + T.SIZE)))) }
    {
        if UnalignedSlice::<T>::fits(bytes, len) {
            Some(UnalignedSlice::new(bytes, len))
        } else {
            None
        }
    }

    /// Returns the number of items.
    ///
    /// ```rust
    /// let items: UnalignedSlice<u16> = UnalignedSlice::new(&[1, 0, 2, 0, 3, 0], 3);
    /// assert_eq!(rt; items.len(), 3);
    /// assert!(rt; !items.is_empty());
    /// ```
    pub fn len(&self) -> usize
        ensures { result ≡ length (items_of self.now) }
    {
        self.len
    }

    /// Returns whether there are no items.
    ///
    /// See [`UnalignedSlice::len`].
    pub fn is_empty(&self) -> bool
        ensures { IsTrue result ↔ (items_of self.now ≡ []) }
    {
        self.len == 0
    }

    /// Returns the item at an index, which must exist.
    fn item(&self, place: usize) -> T
        requires { place < length (items_of self.now) }
        ensures { T.number result ≡ slice_index (items_of self.now) place }
    {
        let start = place * T::SIZE;
        T::read_le(&self.bytes[start..start + T::SIZE])
    }

    /// Returns the item at an index, or `None` if the index is not less than the length.
    ///
    /// ```rust
    /// let items: UnalignedSlice<u16> = UnalignedSlice::new(&[0x34, 0x12, 0x78, 0x56], 2);
    /// assert_eq!(rt; items.get(0), Some(0x1234));
    /// assert_eq!(rt; items.get(2), None);
    /// ```
    pub fn get(&self, index: usize) -> Option<T>
        ensures { option_map T.number result ≡ slice_get (items_of self.now) index }
    {
        if index < self.len {
            Some(self.item(index))
        } else {
            None
        }
    }

    /// Removes and returns the first item, if there is one.
    fn take_first(&mut self) -> Option<T>
        ensures { YieldsFirstBy T.number items_of self.old result self.new }
    {
        if self.len == 0 {
            return None;
        }
        let (first, others) = self.bytes.split_at(T::SIZE);
        self.bytes = others;
        self.len -= 1;
        Some(T::read_le(first))
    }

    /// Returns an iterator that gives each item once, in order, and then always `None`. The
    /// iterator borrows the bytes, so it may outlive this view.
    ///
    /// ```rust
    /// let items: UnalignedSlice<u16> = UnalignedSlice::new(&[1, 0, 2, 0, 3, 0], 3);
    /// assert_eq!(rt; items.iter().max(), Some(3));
    /// assert_eq!(rt; items.iter().count(), 3);
    /// ```
    pub fn iter(&self) -> UnalignedSliceIter<'a, T>
        ensures same { items_left result ≡ items_of self.now }
        ensures bound { length (items_left result) < 2 ^ 64 }
        ensures runs { GivesEach T.number items_left result }
    {
        UnalignedSliceIter { rest: *self }
    }

    /// Writes the items to `dest`, which must have as many places as there are items.
    ///
    /// ```rust
    /// let items: UnalignedSlice<u16> = UnalignedSlice::new(&[0x34, 0x12, 0x78, 0x56], 2);
    /// let mut numbers = [0; 2];
    /// items.copy_to(&mut numbers);
    /// assert_eq!(rt; numbers, [0x1234, 0x5678]);
    /// ```
    pub fn copy_to(&self, dest: &mut [T])
        requires { length dest.old ≡ length (items_of self.now) }
        ensures { map T.number dest.new ≡ items_of self.now }
    {
        if dest.len() <= FEW_ITEMS {
            read_items(self.bytes, dest);
        } else {
            read_blocks(self.bytes, dest);
        }
    }

    /// Returns the items as a vector. Allocates once, exactly the size of the items, or not at all
    /// if there are no items. Returns `AllocError` if memory runs out.
    ///
    /// ```rust
    /// let items: UnalignedSlice<u16> = UnalignedSlice::new(&[0x34, 0x12, 0x78, 0x56], 2);
    /// let numbers = items.to_vec(rt.alloc())?;
    /// assert_eq!(rt; numbers.as_slice(), [0x1234, 0x5678].as_slice());
    /// ```
    pub fn to_vec<A: Allocator>(&self, alloc: A) -> Result<Vec<T, A>, AllocError>
        ensures ok { IfOk result (λ items. map T.number items.items ≡ items_of self.now) }
        ensures empty { items_of self.now ≡ [] → IsOk result }
    {
        let Some(first) = self.get(0) else {
            return Ok(Vec::new(alloc));
        };
        let mut items = Vec::with_capacity(alloc, self.len)?;
        if self.len <= FEW_ITEMS {
            push_blocks(self.bytes, self.len, &mut [first; PIECE], &mut items);
        } else {
            push_blocks(self.bytes, self.len, &mut [first; COPIED], &mut items);
        }
        Ok(items)
    }
}

/// Iterates over the items in order, each once, and then always gives `None`.
impl<'a, T: Packed> IntoIterator for UnalignedSlice<'a, T> {
    type Item = T;

    type IntoIter = UnalignedSliceIntoIter<'a, T>;

    ghost use Rattle.uefi_text.specs.Views.{into_iter_items_left, items_of};

    ghost into_iter_gives = { λ slice iter. GivesAll T.number into_iter_items_left iter (items_of slice) };

    fn into_iter(self) -> UnalignedSliceIntoIter<'a, T> {
        UnalignedSliceIntoIter { items: self.iter() }
    }
}

/// The clone is a view of the same items. Cloning does not allocate and never fails.
impl<'a, T: Packed> Clone for UnalignedSlice<'a, T> {
    ghost is_clone = { λ slice clone. clone ≡ slice };

    ghost is_infallible = { λ _. ⊤ };

    fn clone(&self) -> Result<Self, AllocError> {
        Ok(*self)
    }
}

/// Prints the items as a list.
impl<'a, T: Packed + fmt::Debug> fmt::Debug for UnalignedSlice<'a, T> {
    fn fmt<W: fmt::Write>(&self, f: &mut fmt::Formatter<W>) -> fmt::Result {
        f.debug_list().entries(self.iter()).finish()
    }
}

/// Gives the items from the front, and then always `None`.
impl<'a, T: Packed> Iterator for UnalignedSliceIter<'a, T> {
    type Item = T;

    ghost use Rattle.uefi_text.specs.Views.{items_left};

    ghost next_gives = { YieldsFirstBy T.number items_left };

    ghost remaining = { item_count items_left };

    fn next(&mut self) -> Option<T> {
        self.rest.take_first()
    }

    /// Returns the exact number of items that are left.
    fn size_hint(&self) -> (usize, Option<usize>)
        ensures lower { IsWithinCount result.0 (item_count items_left self.now) }
        ensures upper { IfSome result.1 (UpTo (item_count items_left self.now)) }
        ensures exact { let count = length (items_left self.now) in
            result ≡ (count, Some count) }
    {
        (self.rest.len(), Some(self.rest.len()))
    }
}

/// Prints the items that are left.
impl<'a, T: Packed + fmt::Debug> fmt::Debug for UnalignedSliceIter<'a, T> {
    fn fmt<W: fmt::Write>(&self, f: &mut fmt::Formatter<W>) -> fmt::Result {
        f.debug_tuple("UnalignedSliceIter")
            .field(&self.rest)
            .finish()
    }
}

/// Gives the items from the front, and then always `None`.
impl<'a, T: Packed> Iterator for UnalignedSliceIntoIter<'a, T> {
    type Item = T;

    ghost use Rattle.uefi_text.specs.Views.{into_iter_items_left};

    ghost next_gives = { YieldsFirstBy T.number into_iter_items_left };

    ghost remaining = { item_count into_iter_items_left };

    fn next(&mut self) -> Option<T> {
        self.items.next()
    }

    /// Returns the exact number of items that are left.
    fn size_hint(&self) -> (usize, Option<usize>)
        ensures lower { IsWithinCount result.0 (item_count into_iter_items_left self.now) }
        ensures upper { IfSome result.1 (UpTo (item_count into_iter_items_left self.now)) }
        ensures exact { let count = length (into_iter_items_left self.now) in
            result ≡ (count, Some count) }
    {
        self.items.size_hint()
    }
}

/// Prints the items that are left.
impl<'a, T: Packed + fmt::Debug> fmt::Debug for UnalignedSliceIntoIter<'a, T> {
    fn fmt<W: fmt::Write>(&self, f: &mut fmt::Formatter<W>) -> fmt::Result {
        f.debug_tuple("UnalignedSliceIntoIter")
            .field(&self.items.rest)
            .finish()
    }
}

/// Returns why units do not become a string in a buffer that has room for them, given why they are
/// not a string.
fn refusal_in_buffer(error: FromSliceWithNulError) -> UnalignedCStr16Error
    ensures { result ≡ refusal_in_buffer error }
{
    match error {
        FromSliceWithNulError::InvalidChar(place) => UnalignedCStr16Error::InvalidChar(place),
        FromSliceWithNulError::InteriorNul(place) => UnalignedCStr16Error::InteriorNul(place),
        // No units are refused for their place in memory, or for memory.
        FromSliceWithNulError::NotNulTerminated | FromSliceWithNulError::NotAligned => {
            UnalignedCStr16Error::NotNulTerminated
        }
        FromSliceWithNulError::OutOfMemory => UnalignedCStr16Error::BufferTooSmall,
    }
}

/// Packed code units as strings.
impl<'a> UnalignedSlice<'a, u16> {
    ghost use Rattle.uefi_text.specs.Views.{items_of, text_of};

    /// Returns the code units that all of the bytes encode, two bytes for each, the low byte first;
    /// or `None` exactly if the number of bytes is odd.
    ///
    /// ```rust
    /// assert_eq!(rt; UnalignedSlice::from_unit_bytes(&[0x48, 0, 0x69, 0]).map(|it| it.len()), Some(2));
    /// assert!(rt; UnalignedSlice::from_unit_bytes(&[0x48, 0, 0x69]).is_none());
    /// ```
    pub fn from_unit_bytes(bytes: &'a [u8]) -> Option<Self>
        ensures even { IsSome result ↔ (length bytes.now % 2 ≡ 0) }
        ensures items { IfSome result (λ slice. items_of slice ≡ units_of_bytes bytes.now) }
        ensures bytes { IfSome result (λ slice. unit_bytes (items_of slice) ≡ bytes.now) }
    {
        if bytes.len() % 2 == 0 {
            Some(UnalignedSlice::new(bytes, bytes.len() / 2))
        } else {
            None
        }
    }

    /// Returns the index of the first item in a class.
    fn find_first<C: Class<u16>>(&self) -> Option<usize>
        ensures place { result ≡ position C.holds (items_of self.now) }
        ensures units { (k : ℕ) → slice_index (items_of self.now) k < 2 ^ 16 }
    {
        find_first_packed::<C>(&self.bytes[..2 * self.len])
    }

    /// Returns the units at the start of the bytes up to and including their first NUL, and the
    /// bytes after it; or `None` exactly if there is no NUL among the units. Units before the NUL
    /// may be surrogates.
    ///
    /// ```rust
    /// let field = [0x48, 0, 0x69, 0, 0, 0, 7, 8];
    /// let split = UnalignedSlice::split_until_nul(&field);
    /// assert_eq!(rt; split.map(|(name, _)| name.len()), Some(3));
    /// assert_eq!(rt; split.map(|(_, rest)| rest == [7, 8].as_slice()), Some(true));
    /// assert!(rt; UnalignedSlice::split_until_nul(&field[..4]).is_none());
    /// ```
    pub fn split_until_nul(bytes: &'a [u8]) -> Option<(Self, &'a [u8])>
        ensures ok { IfSome result (λ split. SplitsUntilNul bytes.now (items_of split.0) split.1.now) }
        ensures only { IfSome result (λ split. (units : List ℕ) → (rest : List ℕ) →
            SplitsUntilNul bytes.now units rest → (units ≡ items_of split.0) × (rest ≡ split.1.now)) }
        ensures accepts { IsSome result
            ↔ ((units : List ℕ) × (rest : List ℕ) × SplitsUntilNul bytes.now units rest) }
    {
        let Some(place) = find_first_packed::<Nul>(bytes) else {
            return None;
        };
        let (string, rest) = bytes.split_at(2 * place + 2);
        Some((UnalignedSlice::from_unit_bytes(string).unwrap(), rest))
    }

    /// Checks that the items are a string, and returns why if they are not.
    pub(crate) fn check_with_nul(&self) -> Result<(), FromSliceWithNulError>
        ensures refusal { result_err result ≡ with_nul_refusal (items_of self.now) }
        ensures accepted { OnOk result (IsString (items_of self.now)) }
    {
        let Some(place) = self.find_first::<Deciding>() else {
            return Err(FromSliceWithNulError::NotNulTerminated);
        };
        check_deciding_unit(self.item(place), place, self.len())
    }

    /// Copies the items into an owned string. Fails as [`CStr16::from_u16_with_nul`] does for the
    /// same units, and otherwise with `OutOfMemory` if memory runs out. Allocates once, after all
    /// items are tested.
    ///
    /// ```rust
    /// let units: UnalignedSlice<u16> = UnalignedSlice::new(&[0x48, 0, 0x69, 0, 0, 0], 3);
    /// assert_eq!(rt; units.to_cstring16(rt.alloc())?.num_chars(), 2);
    /// let units: UnalignedSlice<u16> = UnalignedSlice::new(&[0x48, 0, 0, 0xd8, 0, 0], 3);
    /// let refused = units.to_cstring16(rt.alloc());
    /// assert_eq!(rt; refused.err(), Some(FromSliceWithNulError::InvalidChar(1)));
    /// ```
    pub fn to_cstring16<A: Allocator>(
        &self,
        alloc: A,
    ) -> Result<CString16<A>, FromSliceWithNulError>
        ensures ok { IfOk result (λ string. nul_terminated string ≡ items_of self.now) }
        ensures accepted { IfOk result (λ _. with_nul_refusal (items_of self.now) ≡ None) }
        ensures is_string { IfOk result (λ _. IsString (items_of self.now)) }
        ensures is_text { IfOk result (λ string. IsText string) }
        ensures memory { IfErr result (λ error.
            (error ≡ FromSliceWithNulError.OutOfMemory) ↔ IsString (items_of self.now)) }
        ensures unrefused { IfErr result (λ error. error ≡ FromSliceWithNulError.OutOfMemory
            → with_nul_refusal (items_of self.now) ≡ None) }
        ensures refusal { IfErr result (λ error.
            error ≡ unwrap_or (with_nul_refusal (items_of self.now)) FromSliceWithNulError.OutOfMemory) }
    {
        self.check_with_nul()?;
        match self.to_vec(alloc) {
            Ok(units) => Ok(CString16::from_string(units)),
            Err(_) => Err(FromSliceWithNulError::OutOfMemory),
        }
    }

    /// Writes the items to the start of a buffer. The rest of the buffer is unchanged.
    fn copy_to_prefix(&self, buffer: &mut [u16])
        requires { length (items_of self.now) ≤ length buffer.old }
        ensures { buffer.new ≡ items_of self.now ++ drop (length (items_of self.now)) buffer.old }
    {
        let len = self.len();
        self.copy_to(&mut buffer[..len]);
    }

    /// Copies the items to the start of a buffer, and checks that they are a string.
    ///
    /// If the buffer has fewer places than there are items, the result is `BufferTooSmall`, and the
    /// buffer is unchanged. Otherwise the buffer begins with the items, the rest is unchanged, and
    /// the first NUL or surrogate decides, as in [`CStr16::from_u16_with_nul`].
    ///
    /// ```rust
    /// let units: UnalignedSlice<u16> = UnalignedSlice::new(&[0x48, 0, 0, 0], 2);
    /// let mut buffer = [0xffff; 3];
    /// assert_eq!(rt; units.write_cstr16(&mut buffer), Ok(()));
    /// assert_eq!(rt; buffer, [0x48, 0, 0xffff]);
    /// let refused = units.write_cstr16(&mut buffer[..1]);
    /// assert_eq!(rt; refused, Err(UnalignedCStr16Error::BufferTooSmall));
    /// ```
    #[tactic(auto)]
    pub fn write_cstr16(&self, buffer: &mut [u16]) -> Result<(), UnalignedCStr16Error>
        ensures buffer { buffer.new ≡ with_prefix (items_of self.now) buffer.old }
        ensures refusal { result_err result ≡ unaligned_refusal (items_of self.now) (length buffer.old) }
        ensures accepts { IsOk result
            ↔ (IsString (items_of self.now) × (length (items_of self.now) ≤ length buffer.old)) }
    {
        let len = self.len();
        if buffer.len() < len {
            return Err(UnalignedCStr16Error::BufferTooSmall);
        }
        self.copy_to_prefix(buffer);
        match CStr16::from_u16_with_nul(&buffer[..len]) {
            Ok(_) => Ok(()),
            Err(error) => Err(refusal_in_buffer(error)),
        }
    }

    /// Copies the items to the start of a buffer, and borrows them from there as a string.
    /// [`UnalignedSlice::write_cstr16`] says when it fails and what the buffer then contains.
    ///
    /// ```rust
    /// let units: UnalignedSlice<u16> = UnalignedSlice::new(&[0x48, 0, 0x69, 0, 0, 0], 3);
    /// let mut buffer = [0; 8];
    /// let name = units.to_cstr16(&mut buffer)?;
    /// assert_eq!(rt; name.to_u16_slice(), [0x48, 0x69].as_slice());
    /// ```
    pub fn to_cstr16<'b>(&self, buffer: &'b mut [u16]) -> Result<CStr16<'b>, UnalignedCStr16Error>
        ensures ok { IfOk result (λ string. nul_terminated (text_of string) ≡ items_of self.now) }
        ensures accepts { IsOk result
            ↔ (IsString (items_of self.now) × (length (items_of self.now) ≤ length buffer.old)) }
        ensures refusal { result_err result ≡ unaligned_refusal (items_of self.now) (length buffer.old) }
    {
        self.write_cstr16(buffer)?;
        Ok(CStr16::from_string(&buffer[..self.len()]))
    }
}

/// Returns whether bytes have an even length and end in a NUL of two bytes.
fn ends_in_nul(bytes: &[u8]) -> bool
    ensures { result ≡ ends_in_nul bytes.now }
{
    bytes.len() % 2 == 0 && bytes.ends_with(&[0, 0])
}

impl<'a> CStr16<'a> {
    ghost use Rattle.uefi_text.specs.Views.{items_of, text_of};

    /// Decodes bytes at any address into an owned string, two bytes for each code unit, the low
    /// byte first.
    ///
    /// Bytes that have an odd length, or do not end in two zeros, are refused as
    /// `NotNulTerminated`, whatever the units before the end are. Otherwise the units decide as in
    /// [`CStr16::from_u16_with_nul`]. If the bytes are a string and memory runs out, the result is
    /// `OutOfMemory`. `NotAligned` is never returned. Allocates once, after all bytes are tested.
    ///
    /// ```rust
    /// let name = CStr16::from_bytes_with_nul(rt.alloc(), &[0x48, 0, 0x69, 0, 0, 0])?;
    /// assert_eq!(rt; name.num_chars(), 2);
    /// let refused = CStr16::from_bytes_with_nul(rt.alloc(), &[0x48, 0, 0x69, 0, 0]);
    /// assert_eq!(rt; refused.err(), Some(FromSliceWithNulError::NotNulTerminated));
    /// ```
    pub fn from_bytes_with_nul<A: Allocator>(
        alloc: A,
        bytes: &[u8],
    ) -> Result<CString16<A>, FromSliceWithNulError>
        ensures ok { IfOk result (λ string. bytes.now ≡ unit_bytes (nul_terminated string)) }
        ensures accepted { IfOk result (λ _. unit_bytes_refusal bytes.now ≡ None) }
        ensures encodes { IfOk result (λ string. BytesEncode bytes.now string) }
        ensures memory { IfErr result (λ error. (error ≡ FromSliceWithNulError.OutOfMemory)
            ↔ ((text : List ℕ) × BytesEncode bytes.now text)) }
        ensures refusal { IfErr result (λ error.
            error ≡ unwrap_or (unit_bytes_refusal bytes.now) FromSliceWithNulError.OutOfMemory) }
    {
        if !ends_in_nul(bytes) {
            return Err(FromSliceWithNulError::NotNulTerminated);
        }
        UnalignedSlice::new(bytes, bytes.len() / 2).to_cstring16(alloc)
    }

    /// Does what [`UnalignedSlice::to_cstr16`] of the slice does. Does not allocate.
    ///
    /// ```rust
    /// let units: UnalignedSlice<u16> = UnalignedSlice::new(&[0x48, 0, 0x69, 0, 0, 0], 3);
    /// let mut buffer = [0; 3];
    /// let name = CStr16::from_unaligned_slice(&units, &mut buffer)?;
    /// assert_eq!(rt; name.num_chars(), 2);
    /// ```
    pub fn from_unaligned_slice(
        source: &UnalignedSlice<'_, u16>,
        buffer: &'a mut [u16],
    ) -> Result<CStr16<'a>, UnalignedCStr16Error>
        ensures ok { IfOk result (λ string. nul_terminated (text_of string) ≡ items_of source.now) }
        ensures accepts { IsOk result
            ↔ (IsString (items_of source.now) × (length (items_of source.now) ≤ length buffer.old)) }
        ensures refusal { result_err result ≡ unaligned_refusal (items_of source.now) (length buffer.old) }
    {
        source.to_cstr16(buffer)
    }
}

impl<A: Allocator> CString16<A> {
    ghost use Rattle.uefi_text.specs.Views.{items_of};

    /// Does what [`UnalignedSlice::to_cstring16`] of the slice does. Allocates once.
    ///
    /// ```rust
    /// let units: UnalignedSlice<u16> = UnalignedSlice::new(&[0x48, 0, 0x69, 0, 0, 0], 3);
    /// let name = CString16::try_from_unaligned(rt.alloc(), &units)?;
    /// assert!(rt; name == CString16::try_from_str(rt.alloc(), "Hi")?);
    /// ```
    pub fn try_from_unaligned(
        alloc: A,
        source: &UnalignedSlice<'_, u16>,
    ) -> Result<Self, FromSliceWithNulError>
        ensures ok { IfOk result (λ string. nul_terminated string ≡ items_of source.now) }
        ensures accepted { IfOk result (λ _. with_nul_refusal (items_of source.now) ≡ None) }
        ensures is_string { IfOk result (λ _. IsString (items_of source.now)) }
        ensures memory { IfErr result (λ error.
            (error ≡ FromSliceWithNulError.OutOfMemory) ↔ IsString (items_of source.now)) }
        ensures refusal { IfErr result (λ error. error
            ≡ unwrap_or (with_nul_refusal (items_of source.now)) FromSliceWithNulError.OutOfMemory) }
    {
        source.to_cstring16(alloc)
    }
}
