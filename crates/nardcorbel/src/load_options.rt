//! Load options in bytes that C holds: the offsets and lengths of their parts.
ghost use Rattle.std.specs.Prelude.{◌≡◌, ◌≢◌, ◌↔◌, ◌<◌, ◌^◌, List, ◌∷◌, length};
ghost use Rattle.uefi_device_path.specs.Nodes.{Node};
ghost use Rattle.uefi_device_path.specs.LoadOptions.{Entry, EntryRefusedFor, IsEntry, entry_bytes};
ghost use Rattle.uefi_device_path.specs.Paths.{path_bytes};
ghost use Rattle.uefi_device_path.specs.Views.{entry_of};
ghost use Rattle.uefi_device_path.specs.declared.errors.LoadOptionError.{LoadOptionError};
ghost use Rattle.nardcorbel.specs.DevicePaths.{HasParts};
ghost use Rattle.nardcorbel.specs.Reasons.{option_reason};

use crate::reasons::{OK, option_reason};
use uefi_device_path::{LoadOption, laws};

/// The offsets and lengths of the parts of a load option, which follow one another in its bytes.
/// All are in bytes, except the description's length, which is in units (UEFI Specification 2.10,
/// section 3.1.3).
#[repr(C)]
#[derive(Clone, Copy)]
pub struct LoadOptionParts {
    /// The attributes.
    pub attributes: u32,

    /// The offset of the description.
    pub description_offset: usize,

    /// The number of units of the description, without its NUL.
    pub description_length: usize,

    /// The offset of the file path list.
    pub path_list_offset: usize,

    /// The number of bytes of the file path list.
    pub path_list_size: usize,

    /// The number of bytes of the first device path of the list, including its end node.
    pub first_path_size: usize,

    /// The offset of the optional data.
    pub optional_data_offset: usize,

    /// The number of bytes of the optional data.
    pub optional_data_size: usize,
}

/// Returns the number of bytes of the first device path of a load option.
fn first_path_len(option: &LoadOption<'_>) -> usize
    ensures { (first : List Node) → (others : List (List Node)) → (entry_of option.now).paths ≡ first ∷ others
        → result ≡ length (path_bytes first) }
{
    match option.device_paths().next() {
        Some(path) => path.as_bytes().len(),
        None => 0,
    }
}

/// Returns the offsets and lengths of the parts of a load option.
fn parts_of(option: &LoadOption<'_>) -> LoadOptionParts
    requires { length (entry_bytes (entry_of option.now)) < 2 ^ 64 }
    ensures { HasParts (entry_of option.now) result }
{
    let description_length = option.description_units().len() - 1;
    let path_list_offset = 6 + 2 * (description_length + 1);
    let path_list_size = option.file_path_list().len();
    LoadOptionParts {
        attributes: option.attributes(),
        description_offset: 6,
        description_length,
        path_list_offset,
        path_list_size,
        first_path_size: first_path_len(option),
        optional_data_offset: path_list_offset + path_list_size,
        optional_data_size: option.optional_data().len(),
    }
}

/// Reads a load option, the value of a variable `Boot####`.
///
/// At `OK`, `option` becomes the offsets and lengths of its parts. Otherwise the call fails as
/// [`LoadOption::from_bytes`] does: `fault` becomes the offset of the fault, and `option` is unchanged. The
/// description may contain surrogates. Does not allocate (UEFI Specification 2.10, section 3.1.3).
#[unsafe(no_mangle)]
pub extern "C" fn nard_load_option_check(
    bytes: &[u8],
    option: &mut LoadOptionParts,
    fault: &mut usize,
) -> u32
    ensures accepts { (result ≡ OK) ↔ ((entry : Entry) × IsEntry entry × (bytes.now ≡ entry_bytes entry)) }
    ensures parts { (entry : Entry) → IsEntry entry → bytes.now ≡ entry_bytes entry
        → HasParts entry option.new × (fault.new ≡ fault.old) }
    ensures refuses { result ≢ OK → (error : LoadOptionError) × EntryRefusedFor bytes.now error }
    ensures refusal { (error : LoadOptionError) → EntryRefusedFor bytes.now error
        → (result ≡ option_reason error.cause) × (fault.new ≡ error.offset) }
    ensures unchanged { result ≢ OK → option.new ≡ option.old }
{
    // The law does nothing: it says that no load option is refused.
    laws::options_once();
    match LoadOption::from_bytes(bytes) {
        Ok(read) => {
            *option = parts_of(&read);
            OK
        }
        Err(error) => {
            *fault = error.offset;
            option_reason(error.cause)
        }
    }
}
