//! Copies of units: a block over other units, and a text into memory, with its NUL.
ghost use Rattle.std.specs.Prelude.{◌≡◌, ◌+◌, ◌≤◌, ◌++◌, IfOk, drop, length, take};
ghost use Rattle.uefi_text.specs.Units.{nul_terminated};

use std::alloc::{AllocError, Allocator};

/// Copies a block over units, from a place on.
#[inline(always)]
pub(crate) fn put_block<const N: usize>(units: &mut [u16], start: usize, block: [u16; N])
    requires { start + N ≤ length units.old }
    ensures { units.new ≡ take start units.old ++ block.entry ++ drop (start + N) units.old }
{
    units[start..start + N].copy_from_slice(&block);
}

/// Units and a NUL, in one allocation.
pub(crate) fn units_with_nul<A: Allocator>(
    alloc: A,
    units: &[u16],
) -> Result<Vec<u16, A>, AllocError>
    ensures { IfOk result (λ string. string.items ≡ nul_terminated units.now) }
{
    let mut string = Vec::with_capacity(alloc, units.len() + 1)?;
    string.extend_from_slice(units)?;
    string.push(0)?;
    Ok(string)
}
