//! Load options with one field replaced.
#![tactic(auto)]

ghost use Rattle.std.specs.Prelude.{◌≡◌, ◌↔◌, ◌+◌, ◌*◌, ◌<◌, ◌≤◌, ◌^◌, ◌++◌, drop, length, IfOk, IfErr, IsOk, None, OnErr, OnOk};
ghost use Rattle.std.specs.Result.{result_err};
ghost use Rattle.uefi_text.specs.UnalignedCStr16.{with_prefix};
ghost use Rattle.uefi_text.specs.UnitBytes.{unit_bytes};
ghost use Rattle.uefi_text.specs.Units.{nul_terminated};
ghost use Rattle.uefi_text.specs.Views.{text_of};
ghost use Rattle.uefi_device_path.specs.LoadOptions.{Entry, EntryRefusedFor, IsEntry, entry_bytes, four_bytes};
ghost use Rattle.uefi_device_path.specs.OptionBuilding.{room_fault};
ghost use Rattle.uefi_device_path.specs.OptionEdits.{with_attributes, with_description};
ghost use Rattle.uefi_device_path.specs.Views.{entry_of};
ghost use Rattle.uefi_device_path.specs.declared.errors.LoadOptionError.{LoadOptionError};

use crate::errors::{LoadOptionError, OptionBuildError};
use crate::load_option::LoadOption;
use crate::load_option_builder::put_description;
use uefi_text::CStr16;

/// Checks that bytes are a load option.
fn check_option(bytes: &[u8]) -> Result<(), LoadOptionError>
    ensures accepts { IsOk result
        ↔ ((entry : Entry) × IsEntry entry × (bytes.now ≡ entry_bytes entry)) }
    ensures refusal { IfErr result (λ error. EntryRefusedFor bytes.now error) }
    ensures only_refusal { IfErr result (λ error. (other : LoadOptionError) →
        EntryRefusedFor bytes.now other → other ≡ error) }
{
    LoadOption::from_bytes(bytes)?;
    Ok(())
}

/// Writes attributes over the attributes at the start of bytes.
fn put_attributes(bytes: &mut [u8], attributes: u32)
    requires { 4 ≤ length bytes.now }
    ensures { bytes.new ≡ four_bytes attributes ++ drop 4 bytes.old }
{
    let (header, _) = bytes.split_at_mut(4);
    header.copy_from_slice(&[
        (attributes % 256) as u8,
        (attributes / 256 % 256) as u8,
        (attributes / 65536 % 256) as u8,
        (attributes / 16777216) as u8,
    ]);
}

/// Replaces the attributes of a load option in its bytes. All other bytes are unchanged.
///
/// Fails as [`LoadOption::from_bytes`] does; the bytes are then unchanged. Does not allocate.
///
/// ```rust
/// let mut bytes = *b"\x01\0\0\0\x04\0a\0\0\0\x7f\xff\x04\0";
/// set_attributes(&mut bytes, 0x108)?;
/// let option = LoadOption::from_bytes(&bytes)?;
/// assert!(rt; option.is_hidden() && !option.is_active() && option.category() == 1);
/// ```
pub fn set_attributes(bytes: &mut [u8], attributes: u32) -> Result<(), LoadOptionError>
    ensures ok { OnOk result ((entry : Entry) → IsEntry entry → bytes.old ≡ entry_bytes entry
        → bytes.new ≡ entry_bytes (with_attributes attributes entry)) }
    ensures accepts { IsOk result
        ↔ ((entry : Entry) × IsEntry entry × (bytes.old ≡ entry_bytes entry)) }
    ensures refusal { IfErr result (λ error. EntryRefusedFor bytes.old error) }
    ensures only_refusal { IfErr result (λ error. (other : LoadOptionError) →
        EntryRefusedFor bytes.old other → other ≡ error) }
    ensures err { OnErr result (bytes.new ≡ bytes.old) }
{
    if let Err(error) = check_option(bytes) {
        return Err(error);
    }
    put_attributes(bytes, attributes);
    Ok(())
}

/// Writes the header of a load option, a description, and the bytes after the description.
fn put_parts(bytes: &mut [u8], header: &[u8], units: &[u16], rest: &[u8])
    requires header { length header.now ≡ 6 }
    requires whole { length bytes.now ≡ 8 + 2 * length units.now + length rest.now }
    ensures { bytes.new ≡ header.now ++ (unit_bytes (nul_terminated units.now) ++ rest.now) }
{
    let (head, described) = bytes.split_at_mut(6);
    head.copy_from_slice(header);
    let (description, tail) = described.split_at_mut(2 * units.len() + 2);
    put_description(description, units);
    tail.copy_from_slice(rest);
}

impl<'a> LoadOption<'a> {
    /// Returns the bytes after the description.
    fn after_description(&self) -> &'a [u8]
        ensures bytes { result.now ≡ drop (8 + 2 * length (entry_of self.now).description)
            (entry_bytes (entry_of self.now)) }
        ensures bound { length result.now + 8 < 2 ^ 63 }
    {
        let len = self.description_units().len();
        let (_, rest) = self.as_bytes().split_at(6 + 2 * len);
        rest
    }

    /// Returns the number of bytes of the load option with another description.
    fn described_len(&self, units: &[u16]) -> usize
        ensures { result ≡ length (entry_bytes (with_description units.now (entry_of self.now))) }
    {
        let rest = self.after_description();
        8 + 2 * units.len() + rest.len()
    }

    /// Writes the load option with another description into exactly as many bytes.
    fn put_described(&self, bytes: &mut [u8], units: &[u16])
        requires { length bytes.now
            ≡ length (entry_bytes (with_description units.now (entry_of self.now))) }
        ensures bytes { bytes.new ≡ entry_bytes (with_description units.now (entry_of self.now)) }
        ensures entry { IsEntry (entry_of self.now) }
    {
        let rest = self.after_description();
        let (header, _) = self.as_bytes().split_at(6);
        put_parts(bytes, header, units, rest);
    }

    /// Writes the load option with another description to the start of a buffer, and returns the
    /// number of bytes that it then has. All other fields keep their bytes. The rest of the buffer
    /// is unchanged.
    ///
    /// Fails only with `BufferTooSmall` and that length, if the buffer has fewer bytes; the buffer
    /// is then unchanged. Does not allocate.
    ///
    /// ```rust
    /// let option = LoadOption::from_bytes(b"\x01\0\0\0\x04\0a\0\0\0\x7f\xff\x04\0")?;
    /// let name = CStr16::from_u16_with_nul(&[0x48, 0x69, 0])?;
    /// let mut buffer = [0; 16];
    /// assert_eq!(rt; option.write_with_description(name, &mut buffer), Ok(16));
    /// assert_eq!(rt; LoadOption::from_bytes(&buffer)?.description(rt.alloc())?.num_chars(), 2);
    /// ```
    pub fn write_with_description(
        &self,
        description: CStr16<'_>,
        buffer: &mut [u8],
    ) -> Result<usize, OptionBuildError>
        ensures len { IfOk result (λ len. len ≡ length (entry_bytes
            (with_description (text_of description.entry) (entry_of self.now)))) }
        ensures entry { OnOk result (IsEntry
            (with_description (text_of description.entry) (entry_of self.now))) }
        ensures refusal { result_err result ≡ room_fault
            (entry_bytes (with_description (text_of description.entry) (entry_of self.now)))
            (length buffer.old) None }
        ensures buffer { buffer.new ≡ with_prefix
            (entry_bytes (with_description (text_of description.entry) (entry_of self.now)))
            buffer.old }
    {
        let units = description.as_slice().units();
        let whole = self.described_len(units);
        if buffer.len() < whole {
            return Err(OptionBuildError::BufferTooSmall(whole));
        }
        self.put_described(&mut buffer[..whole], units);
        Ok(whole)
    }
}
