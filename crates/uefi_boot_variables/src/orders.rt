//! Orders and single numbers as the values of variables: `BootOrder`, `DriverOrder`,
//! `SysPrepOrder`, `BootNext` and `BootCurrent` (UEFI Specification 2.10, section 3.3).
#![tactic(auto, unfolding(crate::specs::Views::numbers_of))]

ghost use Rattle.std.specs.Prelude.{◌≡◌, ◌==◌, ◌%◌, ◌<◌, ◌≤◌, ◌^◌, ◌↔◌, ◌∷◌, [], Contains, length, position, slice_get, slice_index, take, IfErr, IfOk, IsErr, IsTrue, Some};
ghost use Rattle.uefi_text.specs.UnitBytes.{unit_bytes, units_of_bytes};
ghost use Rattle.uefi_boot_variables.specs.ErrorTexts.{odd_length_text, not_two_bytes_text};
ghost use Rattle.uefi_boot_variables.specs.Orders.{once_each, stands_in};
ghost use Rattle.uefi_boot_variables.specs.Views.{numbers_of};
ghost use Rattle.uefi_text.specs.Runs.{GivesEach};
ghost use Rattle.uefi_text.specs.Views.{items_left};

use std::error::Error;
use std::fmt;
use uefi_text::UnalignedSlice;
use uefi_text::number_texts::put_decimal;
use uefi_text::text_sink::{Printed, TextSink, print};
use uefi_text::unaligned_slice::UnalignedSliceIter;

/// The reason why bytes are not an order: their number is odd.
#[derive(Clone, Copy, Debug, PartialEq, Eq)]
pub struct OddLength;

/// Puts the reason.
impl Printed for OddLength {
    ghost printed = { λ _. odd_length_text };

    fn put<S: TextSink>(&self, sink: &mut S) {
        sink.put_str("boot order has an odd number of bytes");
    }
}

/// Prints the same text.
impl fmt::Display for OddLength {
    ghost output = { λ _. Some odd_length_text };

    fn fmt<W: fmt::Write>(&self, f: &mut fmt::Formatter<W>) -> fmt::Result {
        print(f, self)
    }
}

impl Error for OddLength {}

/// The reason why bytes are not a number: they are not two bytes. Has the number of bytes.
#[derive(Clone, Copy, Debug, PartialEq, Eq)]
pub struct NotTwoBytes(pub usize);

/// Puts the reason, with the number of bytes in decimal.
impl Printed for NotTwoBytes {
    ghost printed = { not_two_bytes_text };

    fn put<S: TextSink>(&self, sink: &mut S) {
        put_decimal(sink, "expected 2 bytes, found ", self.0 as u64);
    }
}

/// Prints the same text.
impl fmt::Display for NotTwoBytes {
    ghost output = { λ error. Some (not_two_bytes_text error) };

    fn fmt<W: fmt::Write>(&self, f: &mut fmt::Formatter<W>) -> fmt::Result {
        print(f, self)
    }
}

impl Error for NotTwoBytes {}

/// Reads the number in the two bytes of `BootNext` or `BootCurrent`, the low byte first. Fails
/// exactly if there are fewer or more than two bytes. Does not allocate.
///
/// ```rust
/// assert_eq!(rt; read_number(&[0x1f, 0x02]), Ok(0x21f));
/// assert_eq!(rt; read_number(&[0x1f]), Err(NotTwoBytes(1)));
/// ```
pub fn read_number(bytes: &[u8]) -> Result<u16, NotTwoBytes>
    ensures ok { IfOk result (λ number. bytes.now ≡ unit_bytes (number ∷ [])) }
    ensures refused { IsErr result ↔ ((length bytes.now ≡ 2) → ⊥) }
    ensures count { IfErr result (λ error. error.0 ≡ length bytes.now) }
{
    match bytes {
        [low, high] => Ok(u16::from_le_bytes([*low, *high])),
        _ => Err(NotTwoBytes(bytes.len())),
    }
}

/// An order: numbers of load options in the bytes of a variable, at any address. A contract sees it
/// as `numbers_of` it. No call allocates.
///
/// ```rust
/// let order = LoadOrder::from_bytes(&[3, 0, 0, 0, 0x1f, 0])?;
/// assert!(rt; order.len() == 3 && !order.is_empty() && order.contains(3));
/// assert_eq!(rt; order.get(2), Some(0x1f));
/// assert_eq!(rt; order.position(0), Some(1));
/// assert!(rt; order.iter().eq([3, 0, 0x1f]));
/// ```
#[derive(Clone, Copy)]
pub struct LoadOrder<'a> {
    numbers: UnalignedSlice<'a, u16>,
}

impl<'a> LoadOrder<'a> {
    /// Reads the order in the bytes of a variable, two for each number, the low byte first. Fails
    /// exactly if the number of bytes is odd.
    ///
    /// ```rust
    /// assert_eq!(rt; LoadOrder::from_bytes(&[3, 0, 1, 0])?.get(1), Some(1));
    /// assert_eq!(rt; LoadOrder::from_bytes(&[3, 0, 1]).err(), Some(OddLength));
    /// ```
    pub fn from_bytes(bytes: &'a [u8]) -> Result<Self, OddLength>
        ensures numbers { IfOk result (λ order. numbers_of order ≡ units_of_bytes bytes.now) }
        ensures bytes { IfOk result (λ order. unit_bytes (numbers_of order) ≡ bytes.now) }
        ensures refused { IsErr result ↔ (length bytes.now % 2 ≡ 1) }
    {
        match UnalignedSlice::from_unit_bytes(bytes) {
            Some(numbers) => Ok(LoadOrder { numbers }),
            None => Err(OddLength),
        }
    }

    /// Returns the length of the order; a number that occurs twice counts twice.
    pub fn len(&self) -> usize
        ensures { result ≡ length (numbers_of self.now) }
    {
        self.numbers.len()
    }

    /// Returns whether there are no numbers.
    pub fn is_empty(&self) -> bool
        ensures { IsTrue result ↔ (numbers_of self.now ≡ []) }
    {
        self.numbers.is_empty()
    }

    /// Returns the number at an index, or `None` if the index is not less than the length.
    pub fn get(&self, place: usize) -> Option<u16>
        ensures { result ≡ slice_get (numbers_of self.now) place }
    {
        self.numbers.get(place)
    }

    /// Returns the number at an index, which must exist.
    pub(crate) fn number(&self, place: usize) -> u16
        requires { place < length (numbers_of self.now) }
        ensures { result ≡ slice_index (numbers_of self.now) place }
    {
        self.numbers.get(place).unwrap()
    }

    /// Returns an iterator that gives the numbers in order, and then always `None`.
    pub fn iter(&self) -> UnalignedSliceIter<'a, u16>
        ensures same { items_left result ≡ numbers_of self.now }
        ensures bound { length (items_left result) < 2 ^ 64 }
        ensures runs { GivesEach (λ number. number) items_left result }
    {
        self.numbers.iter()
    }

    /// Returns the index of the first occurrence of a number, or `None` if the order does not
    /// contain it.
    pub fn position(&self, number: u16) -> Option<usize>
        ensures { result ≡ position (λ other. other == number) (numbers_of self.now) }
    {
        for place in 0..self.len() {
            if self.number(place) == number {
                return Some(place);
            }
        }
        None
    }

    /// Returns whether a number occurs before an index.
    fn stands_before(&self, place: usize, number: u16) -> bool
        requires { place ≤ length (numbers_of self.now) }
        ensures { result ≡ stands_in number (take place (numbers_of self.now)) }
    {
        for before in 0..place {
            if self.number(before) == number {
                return true;
            }
        }
        false
    }

    /// Returns the number of different numbers. Compares each number with those before it.
    pub(crate) fn different_len(&self) -> usize
        ensures { result ≡ length (once_each (numbers_of self.now)) }
    {
        let mut count = 0;
        for place in 0..self.len() {
            if !self.stands_before(place, self.number(place)) {
                count += 1;
            }
        }
        count
    }

    /// Returns whether the order contains a number.
    pub fn contains(&self, number: u16) -> bool
        ensures { IsTrue result ↔ Contains (numbers_of self.now) number }
    {
        self.position(number).is_some()
    }
}

/// Prints the numbers as a list.
impl<'a> fmt::Debug for LoadOrder<'a> {
    fn fmt<W: fmt::Write>(&self, f: &mut fmt::Formatter<W>) -> fmt::Result {
        f.debug_tuple("LoadOrder").field(&self.numbers).finish()
    }
}
