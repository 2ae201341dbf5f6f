//! Readers that count how often a unit was read. The count exists only in contracts: no running
//! program reads it, and it does not allocate.
#![tactic(auto, unfolding(crate::specs::Views::read_units, crate::specs::Views::read_count))]

ghost use Rattle.std.specs.Prelude.{◌≡◌, ℕ, ◌+◌, ◌<◌, length, slice_index};

use crate::strings::strs::Char16Slice;
use std::marker::Model;

/// The number of units that were read.
#[derive(Drop)]
struct ReadCount {
    ghost number: { ℕ },
}

impl Model for ReadCount {
    ghost use Rattle.std.specs.Borrow.{ftrue};

    ghost also_owns = { λ _. ftrue };
}

impl ReadCount {
    fn zero() -> ReadCount
        ensures { result.number ≡ 0 }
    {
        ReadCount {}
    }

    /// Returns the count plus one.
    #[inline(always)]
    fn next(&self) -> ReadCount
        ensures { result.number ≡ self.now.number + 1 }
    {
        ReadCount {}
    }
}

/// Reads the units of characters one at a time, and counts each read. A function that gets its
/// units only from a reader can promise how many it reads, as [`CountedReader::matches`] does. A
/// contract sees the units as `read_units` of the reader, and the number of reads as `read_count`
/// of it.
///
/// ```rust
/// let name = CStr16::from_u16_with_nul(&[0x48, 0x69, 0])?.as_slice();
/// let mut reader = counted_reads::CountedReader::new(name);
/// assert_eq!(rt; reader.len(), 2);
/// assert_eq!(rt; reader.get(1), 0x69);
/// ```
#[derive(Drop)]
pub struct CountedReader<'a> {
    units: &'a [u16],
    count: ReadCount,
}

impl<'a> CountedReader<'a> {
    ghost use Rattle.uefi_text.specs.Views.{read_count, read_units, units_of};

    /// Returns a reader of characters that has not read any unit yet.
    pub fn new(characters: Char16Slice<'a>) -> CountedReader<'a>
        ensures units { read_units result ≡ units_of characters.entry }
        ensures count { read_count result ≡ 0 }
    {
        CountedReader::of_units(characters.units())
    }

    /// Returns a reader of units that has not read any unit yet.
    ///
    /// ```rust
    /// let mut reader = counted_reads::CountedReader::of_units(&[0xd800, 0x69]);
    /// assert_eq!(rt; (reader.len(), reader.get(0)), (2, 0xd800));
    /// ```
    pub fn of_units(units: &'a [u16]) -> CountedReader<'a>
        ensures units { read_units result ≡ units.now }
        ensures count { read_count result ≡ 0 }
    {
        CountedReader {
            units,
            count: ReadCount::zero(),
        }
    }

    /// Returns the number of units.
    #[inline(always)]
    pub fn len(&self) -> usize
        ensures { result ≡ length (read_units self.now) }
    {
        self.units.len()
    }

    /// Returns the unit at an index below [`CountedReader::len`]. Counts one read.
    #[inline(always)]
    pub fn get(&mut self, i: usize) -> u16
        requires { i < length (read_units self.old) }
        ensures unit { result ≡ slice_index (read_units self.old) i }
        ensures units { read_units self.new ≡ read_units self.old }
        ensures count { read_count self.new ≡ read_count self.old + 1 }
    {
        self.count = self.count.next();
        self.units[i]
    }
}
