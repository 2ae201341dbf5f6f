//! Names in code units: the length of a name, a search for a name, and a name at any address.
ghost use Rattle.std.specs.Prelude.{◌≡◌, ◌↔◌, ◌%◌, List, None, ℕ, IfOk, IsTrue, length, slice_get};
ghost use Rattle.std.specs.Result.{result_err};
ghost use Rattle.uefi_text.specs.Case.{uppers};
ghost use Rattle.uefi_text.specs.FromSliceWithNul.{with_nul_refusal};
ghost use Rattle.uefi_text.specs.UnitBytes.{units_of_bytes};
ghost use Rattle.uefi_text.specs.Units.{nul_terminated};
ghost use Rattle.uefi_text.specs.Views.{text_of};

use uefi_text::{CStr16, FromSliceWithNulError, UnalignedSlice};

/// Returns the number of characters of a name that is stored with its NUL, or why the units are not a string.
pub fn name_len(units: &[u16]) -> Result<usize, FromSliceWithNulError>
    ensures ok { IfOk result (λ len. (name : List ℕ)
        × (nul_terminated name ≡ units.now) × (len ≡ length name)) }
    ensures refused { result_err result ≡ with_nul_refusal units.now }
{
    let name = CStr16::from_u16_with_nul(units)?;
    Ok(name.num_chars())
}

/// Returns whether a name is the wanted name. Ignores case, as firmware's file systems do.
pub fn is_wanted(name: CStr16<'_>, wanted: CStr16<'_>) -> bool
    ensures { IsTrue result ↔ (uppers (text_of name.entry) ≡ uppers (text_of wanted.entry)) }
{
    name.eq_ignore_case(wanted)
}

/// Returns the first code unit of bytes at any address, such as the bytes of a variable, or `None` if there
/// is no unit or the number of bytes is odd.
pub fn first_unit(bytes: &[u8]) -> Option<u16>
    ensures even { length bytes.now % 2 ≡ 0 → result ≡ slice_get (units_of_bytes bytes.now) 0 }
    ensures odd { length bytes.now % 2 ≡ 1 → result ≡ None }
{
    UnalignedSlice::from_unit_bytes(bytes)?.get(0)
}
