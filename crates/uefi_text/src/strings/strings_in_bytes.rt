//! Packed units that are read as a string in place.
ghost use Rattle.std.specs.Prelude.{◌≡◌, OnOk};
ghost use Rattle.std.specs.Result.{result_err};
ghost use Rattle.uefi_text.specs.FromSliceWithNul.{with_nul_refusal};
ghost use Rattle.uefi_text.specs.Units.{IsString};
ghost use Rattle.uefi_text.specs.Views.{items_of};

use crate::strings::strs::FromSliceWithNulError;
use crate::unaligned_slice::UnalignedSlice;

impl<'a> UnalignedSlice<'a, u16> {
    /// Checks that the items are a string. Fails as
    /// [`CStr16::from_u16_with_nul`](crate::CStr16::from_u16_with_nul) does for the same units.
    /// Needs no buffer and does not allocate.
    ///
    /// ```rust
    /// let name: UnalignedSlice<u16> = UnalignedSlice::new(&[0x48, 0, 0, 0], 2);
    /// assert_eq!(rt; name.check_cstr16(), Ok(()));
    /// let broken: UnalignedSlice<u16> = UnalignedSlice::new(&[0x48, 0, 0, 0, 0x69, 0, 0, 0], 4);
    /// assert_eq!(rt; broken.check_cstr16(), Err(FromSliceWithNulError::InteriorNul(1)));
    /// ```
    pub fn check_cstr16(&self) -> Result<(), FromSliceWithNulError>
        ensures refusal { result_err result ≡ with_nul_refusal (items_of self.now) }
        ensures accepted { OnOk result (IsString (items_of self.now)) }
    {
        self.check_with_nul()
    }
}
