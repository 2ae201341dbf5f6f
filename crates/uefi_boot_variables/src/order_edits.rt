//! Edits of an order in the first places of a slice.
//!
//! `len` is the length of the order; if there are fewer places, it is the number of places. A
//! number may occur twice in such an order, but an edit leaves at most one occurrence of the number
//! that it edits. The places after the order are unchanged. No call allocates.
#![tactic(auto)]

ghost use Rattle.std.specs.Prelude.{◌≡◌, ◌+◌, ◌-◌, ◌<◌, ◌≤◌, ◌↔◌, false, insert, length, take, IfOk, IsErr, OnErr, OnOk, Some};
ghost use Rattle.uefi_boot_variables.specs.Orders.{once_each, over, stands_in, with_at, with_front, without};
ghost use Rattle.uefi_boot_variables.specs.ErrorTexts.{order_full_text};
ghost use Rattle.uefi_boot_variables.specs.Views.{numbers_of};

use crate::orders::LoadOrder;
use std::error::Error;
use std::fmt;
use uefi_text::text_sink::{Printed, TextSink, print};

/// The reason why an order takes no further number, or is not written: there is no room for it.
#[derive(Clone, Copy, Debug, PartialEq, Eq)]
pub struct OrderFull;

/// Puts the reason.
impl Printed for OrderFull {
    ghost printed = { λ _. order_full_text };

    fn put<S: TextSink>(&self, sink: &mut S) {
        sink.put_str("boot order is full");
    }
}

/// Prints the same text.
impl fmt::Display for OrderFull {
    ghost output = { λ _. Some order_full_text };

    fn fmt<W: fmt::Write>(&self, f: &mut fmt::Formatter<W>) -> fmt::Result {
        print(f, self)
    }
}

impl Error for OrderFull {}

/// Returns whether an order contains a number.
///
/// ```rust
/// assert!(rt; order_edits::contains(&[3, 0, 9], 2, 0));
/// assert!(rt; !order_edits::contains(&[3, 0, 9], 2, 9));
/// ```
pub fn contains(places: &[u16], len: usize, number: u16) -> bool
    ensures { result ≡ stands_in number (take len places.now) }
{
    places[..len.min(places.len())].contains(&number)
}

/// Removes all occurrences of a number from an order, and returns how many numbers are left. The
/// others keep their order.
///
/// ```rust
/// let mut places = [3, 0, 1, 9];
/// assert_eq!(rt; order_edits::remove(&mut places, 3, 0), 2);
/// assert_eq!(rt; &places[..2], [3, 1].as_slice());
/// ```
pub fn remove(places: &mut [u16], len: usize, number: u16) -> usize
    ensures len { result ≡ length (without number (take len places.old)) }
    ensures places { places.new ≡ over (without number (take len places.old)) places.old }
{
    let mut kept = 0;
    for place in 0..len.min(places.len()) {
        if places[place] != number {
            places[kept] = places[place];
            kept += 1;
        }
    }
    kept
}

/// Inserts a number at a place, and moves the numbers from there on back by one; the last one is
/// dropped.
fn put_in(numbers: &mut [u16], place: usize, number: u16)
    requires { place < length numbers.old }
    ensures { numbers.new ≡ insert (take (length numbers.old - 1) numbers.old) place number }
{
    numbers[place..].rotate_right(1);
    numbers[place] = number;
}

/// Inserts a number at a place of an order, and moves the numbers from there on back by one.
pub(crate) fn put(places: &mut [u16], len: usize, place: usize, number: u16)
    requires room { len < length places.old }
    requires within { place ≤ len }
    ensures { places.new ≡ over (insert (take len places.old) place number) places.old }
{
    put_in(&mut places[..len + 1], place, number);
}

/// Inserts a number at a place among the others, which keep their order, or moves it there if the
/// order contains it. Returns the new length of the order. A place beyond the end means the end.
/// Fails exactly if the order does not contain the number and there is no room; the places are then
/// unchanged.
///
/// ```rust
/// let mut places = [3, 0, 1, 9];
/// assert_eq!(rt; order_edits::insert(&mut places, 3, 1, 7), Ok(4));
/// assert_eq!(rt; places, [3, 7, 0, 1]);
/// assert_eq!(rt; order_edits::insert(&mut places, 4, 0, 8), Err(OrderFull));
/// ```
pub fn insert(places: &mut [u16], len: usize, place: usize, number: u16) -> Result<usize, OrderFull>
    ensures ok { IfOk result (λ new_len.
        new_len ≡ length (with_at place number (take len places.old))) }
    ensures places { OnOk result
        (places.new ≡ over (with_at place number (take len places.old)) places.old) }
    ensures err { OnErr result (places.new ≡ places.old) }
    ensures refused { IsErr result ↔ ((stands_in number (take len places.old) ≡ false)
        × (length places.old ≤ len)) }
{
    let kept = remove(places, len, number);
    if places.len() <= kept {
        return Err(OrderFull);
    }
    put(places, kept, place.min(kept), number);
    Ok(kept + 1)
}

/// Writes the numbers of an order, each at its first occurrence, into places that have room for
/// them.
fn fill(places: &mut [u16], order: &LoadOrder<'_>) -> usize
    requires { length (once_each (numbers_of order.now)) ≤ length places.old }
    ensures len { result ≡ length (once_each (numbers_of order.now)) }
    ensures places { places.new ≡ over (once_each (numbers_of order.now)) places.old }
{
    let mut len = 0;
    for place in 0..order.len() {
        let number = order.number(place);
        if !contains(places, len, number) {
            put(places, len, len, number);
            len += 1;
        }
    }
    len
}

/// Writes the numbers of an order, each at its first occurrence, into the first places, and returns
/// their number. Fails with `OrderFull` if there are fewer places; they are then unchanged.
///
/// Compares each number with those before it, and does so twice if the order has more numbers than
/// there are places.
///
/// ```rust
/// let order = LoadOrder::from_bytes(&[3, 0, 1, 0, 3, 0])?;
/// let mut places = [9; 3];
/// assert_eq!(rt; order_edits::copy(&mut places, &order), Ok(2));
/// assert_eq!(rt; places, [3, 1, 9]);
/// assert_eq!(rt; order_edits::copy(&mut places[..1], &order), Err(OrderFull));
/// ```
pub fn copy(places: &mut [u16], order: &LoadOrder<'_>) -> Result<usize, OrderFull>
    ensures ok { IfOk result (λ len. len ≡ length (once_each (numbers_of order.now))) }
    ensures places { OnOk result (places.new ≡ over (once_each (numbers_of order.now)) places.old) }
    ensures err { OnErr result (places.new ≡ places.old) }
    ensures refused { IsErr result ↔ (length places.old < length (once_each (numbers_of order.now))) }
{
    if places.len() < order.len() && places.len() < order.different_len() {
        return Err(OrderFull);
    }
    Ok(fill(places, order))
}

/// Moves a number of an order to the front, and returns the length of the order. If the order does
/// not contain the number, nothing changes. The others keep their order.
///
/// ```rust
/// let mut places = [3, 0, 1, 9];
/// assert_eq!(rt; order_edits::move_to_front(&mut places, 3, 1), 3);
/// assert_eq!(rt; places, [1, 3, 0, 9]);
/// ```
pub fn move_to_front(places: &mut [u16], len: usize, number: u16) -> usize
    ensures len { result ≡ length (with_front number (take len places.old)) }
    ensures places { places.new ≡ over (with_front number (take len places.old)) places.old }
{
    let kept = remove(places, len, number);
    if kept == len.min(places.len()) {
        return kept;
    }
    put(places, kept, 0, number);
    kept + 1
}
