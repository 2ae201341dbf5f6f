//! The blocks that a push adds to a path: units with their slashes replaced, and the indices of
//! their separators. The length of a block is known at compile time, so that a block takes a few
//! vector instructions and no loop except the one over its separators.
#![tactic(auto, using(crate::proofs::Rules::blocks_rules))]

ghost use Rattle.std.specs.Prelude.{◌≡◌, ◌+◌, ◌<◌, ◌≤◌, ◌^◌, ◌++◌, OnErr, OnOk, length};
ghost use Rattle.std.specs.List.{slice_range};
ghost use Rattle.uefi_path.specs.Separators.{places_from, with_separators};
ghost use Rattle.uefi_path.specs.Views.{counted_text, reads_of};
ghost use Rattle.uefi_text.specs.Units.{IsText};

use crate::counted_units::CountedUnits;
use crate::path_units::with_separator;
use crate::splitting::separators::{Separators, separator_bits_first};
use std::alloc::{AllocError, Allocator};
use uefi_text::strings::owned_strs::CString16;

/// Copies units from an index on, each slash replaced. Reads each once.
#[inline(always)]
pub(crate) fn copy_units(block: &mut [u16], units: &mut CountedUnits<'_>, start: usize)
    requires { start + length block.now ≤ length (counted_text units.now) }
    ensures block { block.new
        ≡ with_separators (slice_range (counted_text units.old) start (start + length block.old)) }
    ensures bound { start + length block.new < 2 ^ 64 }
    ensures text { counted_text units.new ≡ counted_text units.old }
    ensures count { reads_of units.new ≡ reads_of units.old + length block.old }
{
    // A clause of this call says how long the text can be.
    let _len = units.len();
    for i in 0..block.len() {
        block[i] = with_separator(units.get(start + i));
    }
}

/// Adds a block of units to a text, and the indices of its separators to those of the text. Returns
/// `AllocError` if memory runs out, and leaves both unchanged.
#[inline(always)]
pub(crate) fn add_block<A: Allocator, const N: usize>(
    string: &mut CString16<A>,
    places: &mut Vec<usize, A>,
    block: [u16; N],
) -> Result<(), AllocError>
    requires is_text { IsText block }
    requires word { N ≤ 64 }
    ensures text { OnOk result (string.new ≡ string.old ++ block.entry) }
    ensures places { OnOk result (places.new.items
        ≡ places.old.items ++ places_from (length string.old) block.entry) }
    ensures err { OnErr result (string.new ≡ string.old) }
    ensures err_places { OnErr result (places.new.items ≡ places.old.items) }
{
    let bits = separator_bits_first::<N>(&block);
    places.reserve(bits.count_ones() as usize)?;
    let start = string.num_chars();
    string.push_block(block)?;
    let units = string.as_cstr16().to_u16_slice();
    Separators::seen(units, start, bits).add_to(places);
    Ok(())
}
