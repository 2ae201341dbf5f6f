//! Passes over whole slices, in forms that the compiler turns into vector instructions: no early
//! exit inside a block, and loops over indices with known bounds. Their contracts use std's words,
//! so that callers see nothing of the form.
//!
//! A pass looks for a [`Class`] of elements. All classes share one pass, and one proof.
ghost use Rattle.std.specs.Prelude.{IsTrue, ℕ, ◌^◌, slice_index, ◌≡◌, ◌↔◌, ◌||◌, ◌+◌, ◌-◌, ◌*◌, ◌<◌, ◌≤◌, ◌++◌, All, Bool, Option, None, count_by, length, take, drop, map, position, true, false};
ghost use Rattle.std.specs.Fmt.{is_char_start};
ghost use Rattle.std.specs.List.{list_any};
ghost use Rattle.std.specs.Option.{SomeIff};
ghost use Rattle.std.specs.Str.{IsAscii};
ghost use Rattle.uefi_text.specs.Scans.{IsAsciiTextByte, is_beyond_ascii, is_beyond_latin1_byte, is_deciding_byte, is_no_ascii_text, is_of_three_bytes};
ghost use Rattle.uefi_text.specs.Packed.{little_endian};
ghost use Rattle.uefi_text.specs.UnitBytes.{unit_bytes, units_of_bytes};
ghost use Rattle.uefi_text.specs.Units.{is_deciding, is_nul, deciding_place, replaced};

use std::marker::PhantomData;

/// The number of elements that are tested together: without an early exit among them they become
/// vectors.
const BLOCK: usize = 64;

/// The number of elements after the last whole block that are tested together.
const SMALL_BLOCK: usize = 8;

/// The number of elements that are counted at a time: the count of a block fits in a byte, so that
/// it becomes vector code.
const COUNTED: usize = 128;

/// A class of elements that a pass looks for.
pub(crate) trait Class<T> {
    /// Whether an element is in the class.
    ghost holds: { T → Bool };

    fn holds(element: T) -> bool
        ensures { result ≡ holds element };
}

/// Returns whether an element of a block is in the class.
#[inline(always)]
fn block_has<T: Copy, C: Class<T>>(block: &[T]) -> bool
    ensures { result ≡ list_any C.holds block.now }
{
    let mut found = false;
    for element in block {
        found |= C::holds(*element);
    }
    found
}

/// Returns an index before which no element is in the class. Tests the elements from `start` on in
/// blocks, up to a block that contains an element of the class, or to less than a block.
#[inline(always)]
fn clear_blocks_end<T: Copy, C: Class<T>>(elements: &[T], start: usize, block: usize) -> usize
    requires start { start ≤ length elements.now }
    requires block { 0 < block }
    requires clear { list_any C.holds (take start elements.now) ≡ false }
    ensures within { result ≤ length elements.now }
    ensures clear { list_any C.holds (take result elements.now) ≡ false }
    ensures found { block ≤ length elements.now - result
        → list_any C.holds (take block (drop result elements.now)) ≡ true }
{
    let mut end = start;
    while block <= elements.len() - end && !block_has::<T, C>(&elements[end..end + block]) {
        end += block;
    }
    end
}

/// Returns the index of the first element in the class, one by one.
#[inline(always)]
fn find_one_by_one<T: Copy, C: Class<T>>(elements: &[T]) -> Option<usize>
    ensures { result ≡ position C.holds elements.now }
{
    elements.iter().position(|element| C::holds(*element))
}

/// The place of the first element in the class.
#[inline(always)]
pub(crate) fn find_first<T: Copy, C: Class<T>>(elements: &[T]) -> Option<usize>
    ensures { result ≡ position C.holds elements.now }
{
    let blocks_end = clear_blocks_end::<T, C>(elements, 0, BLOCK);
    let start = clear_blocks_end::<T, C>(elements, blocks_end, SMALL_BLOCK);
    match find_one_by_one::<T, C>(&elements[start..]) {
        None => None,
        Some(place) => Some(start + place),
    }
}

/// Does what [`find_first`] does, but tests the first elements in small blocks. This is faster if one
/// of them is in the class and many elements follow it.
#[inline(always)]
fn find_first_soon<T: Copy, C: Class<T>>(elements: &[T]) -> Option<usize>
    ensures { result ≡ position C.holds elements.now }
{
    let few = BLOCK.min(elements.len());
    let start = clear_blocks_end::<T, C>(&elements[..few], 0, SMALL_BLOCK);
    let rest = &elements[start..];
    let place = if SMALL_BLOCK <= few - start {
        find_one_by_one::<T, C>(rest)
    } else {
        find_first::<T, C>(rest)
    };
    match place {
        None => None,
        Some(place) => Some(start + place),
    }
}

/// Pairs of bytes that encode a unit of another class, the low byte first.
struct Pair<C> {
    class: PhantomData<C>,
}

impl<C: Class<u16>> Class<[u8; 2]> for Pair<C> {
    ghost holds = { λ pair. C.holds (little_endian pair) };

    #[inline(always)]
    fn holds(pair: [u8; 2]) -> bool {
        C::holds(u16::from_le_bytes(pair))
    }
}

/// Returns the index of the first unit in the class, among the units that bytes at any address
/// encode. Copies no units.
#[inline(always)]
pub(crate) fn find_first_packed<C: Class<u16>>(bytes: &[u8]) -> Option<usize>
    ensures place { result ≡ position C.holds (units_of_bytes bytes.now) }
    ensures units { (k : ℕ) → slice_index (units_of_bytes bytes.now) k < 2 ^ 16 }
{
    let (pairs, _) = bytes.as_chunks::<2>();
    find_first_soon::<[u8; 2], Pair<C>>(pairs)
}

/// Returns whether an element is in the class.
#[inline(always)]
fn has_any<T: Copy, C: Class<T>>(elements: &[T]) -> bool
    ensures { result ≡ list_any C.holds elements.now }
{
    let blocks_end = clear_blocks_end::<T, C>(elements, 0, BLOCK);
    let start = clear_blocks_end::<T, C>(elements, blocks_end, SMALL_BLOCK);
    // The rest is less than a block, or begins with a block that has an element of the class.
    SMALL_BLOCK <= elements.len() - start || find_one_by_one::<T, C>(&elements[start..]).is_some()
}

/// Returns how many elements of a block are in the class.
#[inline(always)]
fn count_in_block<T: Copy, C: Class<T>>(block: &[T]) -> u8
    requires { length block.now ≤ 128 }
    ensures { result ≡ count_by C.holds block.now }
{
    let mut count = 0;
    for element in block {
        count += u8::from(C::holds(*element));
    }
    count
}

/// Returns how many elements are in the class.
#[inline(always)]
fn count<T: Copy, C: Class<T>>(elements: &[T]) -> usize
    ensures { result ≡ count_by C.holds elements.now }
{
    let mut count = 0;
    for block in elements.chunks(COUNTED) {
        count += usize::from(count_in_block::<T, C>(block));
    }
    count
}

/// Units that no text holds: NUL and surrogates.
pub(crate) struct Deciding;

impl Class<u16> for Deciding {
    ghost holds = { is_deciding };

    #[inline(always)]
    fn holds(unit: u16) -> bool {
        (unit == 0) | ((0xd800 <= unit) & (unit <= 0xdfff))
    }
}

/// Units that are NUL.
pub(crate) struct Nul;

impl Class<u16> for Nul {
    ghost holds = { is_nul };

    #[inline(always)]
    fn holds(unit: u16) -> bool {
        unit == 0
    }
}

/// Units beyond ASCII.
struct BeyondAscii;

impl Class<u16> for BeyondAscii {
    ghost holds = { is_beyond_ascii };

    #[inline(always)]
    fn holds(unit: u16) -> bool {
        0x80 <= unit
    }
}

/// Units that have three bytes of UTF-8.
struct OfThreeBytes;

impl Class<u16> for OfThreeBytes {
    ghost holds = { is_of_three_bytes };

    #[inline(always)]
    fn holds(unit: u16) -> bool {
        0x800 <= unit
    }
}

/// Bytes that are zero.
struct Zero;

impl Class<u8> for Zero {
    ghost holds = { is_nul };

    #[inline(always)]
    fn holds(byte: u8) -> bool {
        byte == 0
    }
}

/// Bytes that are zero or beyond ASCII.
struct NoAsciiText;

impl Class<u8> for NoAsciiText {
    ghost holds = { is_no_ascii_text };

    #[inline(always)]
    fn holds(byte: u8) -> bool {
        (byte == 0) | (0x80 <= byte)
    }
}

/// Bytes that begin a character that UCS-2 texts cannot contain: a NUL, or a character above
/// U+FFFF, which is the only kind that has four bytes.
struct DecidingByte;

impl Class<u8> for DecidingByte {
    ghost holds = { is_deciding_byte };

    #[inline(always)]
    fn holds(byte: u8) -> bool {
        (byte == 0) | (0xf0 <= byte)
    }
}

/// Bytes that begin a character above U+00FF: 0xc4 and above. Smaller bytes begin a character of
/// Latin-1, or are inside a character.
struct BeyondLatin1;

impl Class<u8> for BeyondLatin1 {
    ghost holds = { is_beyond_latin1_byte };

    #[inline(always)]
    fn holds(byte: u8) -> bool {
        0xc4 <= byte
    }
}

/// Bytes that begin a character.
struct CharStart;

impl Class<u8> for CharStart {
    ghost holds = { is_char_start };

    #[inline(always)]
    fn holds(byte: u8) -> bool {
        (byte < 0x80) | (0xc0 <= byte)
    }
}

/// Returns the index of the first NUL or surrogate.
pub fn find_deciding_place(units: &[u16]) -> Option<usize>
    ensures { result ≡ deciding_place units.now }
{
    find_first::<u16, Deciding>(units)
}

/// Returns the index of the first NUL.
pub fn find_nul(units: &[u16]) -> Option<usize>
    ensures { result ≡ position is_nul units.now }
{
    find_first::<u16, Nul>(units)
}

/// Returns whether each unit is ASCII.
pub fn is_ascii(units: &[u16]) -> bool
    ensures { IsTrue result ↔ IsAscii units.now }
{
    !has_any::<u16, BeyondAscii>(units)
}

/// Returns how many units have two bytes of UTF-8 or more, and how many have three.
pub(crate) fn count_wide(units: &[u16]) -> (usize, usize)
    ensures two { result.0 ≡ count_by is_beyond_ascii units.now }
    ensures three { result.1 ≡ count_by is_of_three_bytes units.now }
{
    (
        count::<u16, BeyondAscii>(units),
        count::<u16, OfThreeBytes>(units),
    )
}

/// Returns the index of the first zero.
pub fn find_zero(bytes: &[u8]) -> Option<usize>
    ensures { result ≡ position is_nul bytes.now }
{
    find_first::<u8, Zero>(bytes)
}

/// Returns whether a byte is zero.
pub(crate) fn has_zero(bytes: &[u8]) -> bool
    ensures { result ≡ list_any is_nul bytes.now }
{
    has_any::<u8, Zero>(bytes)
}

/// Returns whether each byte is ASCII and not NUL.
pub(crate) fn is_ascii_text(bytes: &[u8]) -> bool
    ensures { IsTrue result ↔ All IsAsciiTextByte bytes.now }
{
    !has_any::<u8, NoAsciiText>(bytes)
}

/// Returns whether a byte begins a character above U+00FF.
pub(crate) fn has_byte_beyond_latin1(bytes: &[u8]) -> bool
    ensures { result ≡ list_any is_beyond_latin1_byte bytes.now }
{
    has_any::<u8, BeyondLatin1>(bytes)
}

/// Returns whether a byte begins a character that no UCS-2 text holds.
pub(crate) fn has_deciding_byte(bytes: &[u8]) -> bool
    ensures { result ≡ list_any is_deciding_byte bytes.now }
{
    has_any::<u8, DecidingByte>(bytes)
}

/// Returns the number of characters that begin in bytes of UTF-8; `None` exactly if no UCS-2 text
/// can contain one of them.
pub(crate) fn count_undecided_chars(bytes: &[u8]) -> Option<usize>
    ensures { SomeIff result (list_any is_deciding_byte bytes.now ≡ false)
        (count_by is_char_start bytes.now) }
{
    if has_deciding_byte(bytes) {
        return None;
    }
    Some(count::<u8, CharStart>(bytes))
}

/// True only if units are equal to these bytes, which are ASCII without NUL.
#[inline(always)]
fn are_same_ascii(units: &[u16], bytes: &[u8]) -> bool
    requires { length units.now ≡ length bytes.now }
    ensures { IsTrue result → (units.now ≡ bytes.now) × (All IsAsciiTextByte bytes.now) }
{
    let mut same = true;
    for i in 0..units.len() {
        same = same & (units[i] == u16::from(bytes[i])) & (0 < bytes[i]) & (bytes[i] < 128);
    }
    same
}

/// The length of a prefix that units and bytes have in common, of ASCII without NUL: from `start` on
/// both are compared in blocks.
#[inline(always)]
fn same_ascii_blocks_end(units: &[u16], bytes: &[u8], start: usize, block: usize) -> usize
    requires start { (start ≤ length units.now) × (start ≤ length bytes.now) }
    requires block { 0 < block }
    requires same { take start units.now ≡ take start bytes.now }
    requires ascii { All IsAsciiTextByte (take start bytes.now) }
    ensures within { (result ≤ length units.now) × (result ≤ length bytes.now) }
    ensures same { take result units.now ≡ take result bytes.now }
    ensures ascii { All IsAsciiTextByte (take result bytes.now) }
{
    let mut end = start;
    while block <= units.len() - end
        && block <= bytes.len() - end
        && are_same_ascii(&units[end..end + block], &bytes[end..end + block])
    {
        end += block;
    }
    end
}

/// Returns the length of a prefix that units and bytes have in common, of ASCII without NUL. It
/// need not be the longest.
pub fn same_ascii_len(units: &[u16], bytes: &[u8]) -> usize
    ensures within { (result ≤ length units.now) × (result ≤ length bytes.now) }
    ensures same { take result units.now ≡ take result bytes.now }
    ensures ascii { All IsAsciiTextByte (take result bytes.now) }
{
    let start = same_ascii_blocks_end(units, bytes, 0, BLOCK);
    same_ascii_blocks_end(units, bytes, start, SMALL_BLOCK)
}

/// Writes bytes as code units, before the last unit, which stays.
pub(crate) fn widen(units: &mut [u16], bytes: &[u8])
    requires { length units.now ≡ length bytes.now + 1 }
    ensures { units.new ≡ bytes.now ++ drop (length bytes.now) units.old }
{
    for i in 0..bytes.len() {
        units[i] = u16::from(bytes[i]);
    }
}

/// Writes units of ASCII as bytes.
pub(crate) fn narrow(bytes: &mut [u8], units: &[u16])
    requires same_length { length bytes.now ≡ length units.now }
    requires ascii { IsAscii units.now }
    ensures { bytes.new ≡ units.now }
{
    for i in 0..units.len() {
        bytes[i] = units[i] as u8;
    }
}

/// Writes each unit as two bytes, the low byte first.
pub fn split(bytes: &mut [u8], units: &[u16])
    requires { length bytes.now ≡ 2 * length units.now }
    ensures { bytes.new ≡ unit_bytes units.now }
{
    for i in 0..units.len() {
        bytes[2 * i] = (units[i] % 256) as u8;
        bytes[2 * i + 1] = (units[i] / 256) as u8;
    }
}

/// Returns `replace` for `search`, and otherwise the unit.
#[inline(always)]
pub(crate) fn unit_after(unit: u16, search: u16, replace: u16) -> u16
    ensures { result ≡ replaced search replace unit }
{
    if unit == search { replace } else { unit }
}

/// Replaces each `search` with `replace`.
#[tactic(auto, using(std::proofs::lemmas::List::Edits::map_over_more, std::proofs::lemmas::List::take_all, std::proofs::lemmas::List::drop_all))]
fn replace_units(units: &mut [u16], search: u16, replace: u16)
    ensures { units.new ≡ map (replaced search replace) units.old }
{
    for unit in units.iter_mut() {
        *unit = unit_after(*unit, search, replace);
    }
}

/// Replaces each `search` with `replace`, from index `start` on.
pub fn replace_units_from(units: &mut [u16], start: usize, search: u16, replace: u16)
    requires { start ≤ length units.now }
    ensures { units.new ≡ take start units.old ++ map (replaced search replace) (drop start units.old) }
{
    replace_units(&mut units[start..], search, replace);
}
