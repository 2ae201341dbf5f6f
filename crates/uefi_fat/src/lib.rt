//! Names of files on FAT volumes, as UEFI firmware's file system takes them (UEFI Specification
//! 2.10, sections 13.3 and 21.1, and Microsoft's FAT specification, which it cites). No call
//! allocates.
//!
//! The file system trims a name before it looks for the file: spaces at the start, and spaces and
//! dots at the end. It compares names without case. So `BOOT`, `boot.` and ` Boot ` name the same
//! file, which [`same_fat_file`] tests. [`check_fat_name`] says whether a file can have a name, and
//! why not. [`is_short_name`] is the test for the 8.3 names of old directory entries, and
//! [`str_to_fat`] and [`fat_to_str`] convert between these names and strings.
//!
//! ```rust
//! use uefi_fat::{check_fat_name, same_fat_file, trimmed};
//! use uefi_text::CString16;
//!
//! let name = CString16::try_from_str(rt.alloc(), " Boot. ")?;
//! let other = CString16::try_from_str(rt.alloc(), "BOOT")?;
//! let name = name.as_cstr16().as_slice();
//! let other = other.as_cstr16().as_slice();
//! assert!(rt; same_fat_file(name, other));
//! assert_eq!(rt; trimmed(name).len(), 4);
//! assert!(rt; check_fat_name(name).is_ok());
//! ```
//!
//! A contract sees a name as `units_of` it: a list of code units. `specs/` defines which part of it
//! counts.
#![tactic(auto)]

pub mod laws;
mod long_names;
mod oem;
mod short_names;

pub use long_names::{FatNameError, check_fat_name, is_fat_name, same_fat_file, trimmed};
pub use oem::{FatBytes, fat_to_str, str_to_fat, units_to_fat};
pub use short_names::is_short_name;
