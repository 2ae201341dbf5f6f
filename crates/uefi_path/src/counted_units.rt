//! The units of a text, with a count of how often one was read.
#![tactic(auto, unfolding(crate::specs::Views::counted_text, crate::specs::Views::reads_of))]

ghost use Rattle.std.specs.Prelude.{◌≡◌, ◌+◌, ◌<◌, ◌^◌, length, slice_index};
ghost use Rattle.uefi_text.specs.Units.{IsText};
ghost use Rattle.uefi_text.specs.Views.{read_units, text_of};

use uefi_text::counted_reads::CountedReader;
use uefi_text::strings::strs::CStr16;

/// The code units of a text, of which contracts count each read. With this type,
/// [`crate::PathBuf::push_counted`] can promise to read each unit of its argument once. The count
/// exists only in contracts: no running program has it. A contract sees the text as `counted_text`
/// of it, and the number of reads as `reads_of` it.
///
/// ```rust
/// let mut units = CountedUnits::new(CStr16::from_u16_with_nul(&[0x48, 0x69, 0])?);
/// assert_eq!(rt; units.len(), 2);
/// assert_eq!(rt; units.get(1), 0x69);
/// ```
#[derive(Drop)]
pub struct CountedUnits<'a> {
    reader: CountedReader<'a>,
    pub ghost is_text: { IsText (read_units reader) },
    pub ghost bound: { length (read_units reader) + 1 < 2 ^ 64 },
}

impl<'a> CountedUnits<'a> {
    ghost use Rattle.uefi_path.specs.Views.{counted_text, reads_of};

    /// Creates a reader of a string's text, before any read. Does not allocate.
    pub fn new(string: CStr16<'a>) -> CountedUnits<'a>
        ensures text { counted_text result ≡ text_of string.entry }
        ensures count { reads_of result ≡ 0 }
    {
        CountedUnits {
            reader: CountedReader::new(string.as_slice()),
        }
    }

    /// Returns the number of units.
    #[inline(always)]
    pub fn len(&self) -> usize
        ensures same { result ≡ length (counted_text self.now) }
        ensures is_text { IsText (counted_text self.now) }
        ensures bound { length (counted_text self.now) + 1 < 2 ^ 64 }
    {
        self.reader.len()
    }

    /// Returns the unit at an index below [`CountedUnits::len`]. Counts one read.
    #[inline(always)]
    pub fn get(&mut self, i: usize) -> u16
        requires { i < length (counted_text self.old) }
        ensures unit { result ≡ slice_index (counted_text self.old) i }
        ensures text { counted_text self.new ≡ counted_text self.old }
        ensures count { reads_of self.new ≡ reads_of self.old + 1 }
    {
        self.reader.get(i)
    }
}
