//! Paths over UCS-2 strings, as UEFI firmware encodes them: components between backslashes.
//!
//! A [`Path`] is a view of a string of `uefi_text`, and a [`PathBuf`] owns one. One leading
//! [`SEPARATOR`] makes no difference: the *canonical text* of a path is its text without it. Two
//! paths are equal exactly when their canonical texts are, and paths are ordered by their canonical
//! texts. A path's *components* are the pieces between the separators of its canonical text,
//! including empty pieces. The empty path and a lone separator have no components.
//!
//! A `PathBuf` replaces each `/` of its input with a separator; a `Path` replaces nothing.
//! [`validate_path`] checks that each component may name a file and that none climbs above the
//! start of the path. [`Path::normalize`] gives the one path without `.` and `..` to which a valid
//! path leads.
//!
//! ```rust
//! use std::alloc::AllocError;
//! use uefi_path::{Path, PathBuf, validate_path};
//! use uefi_text::CString16;
//!
//! let text = CString16::try_from_str(rt.alloc(), "/efi/boot")?;
//! let Ok(buffer) = PathBuf::new_from_cstring16(rt.alloc(), text) else {
//!     return Err(AllocError.into());
//! };
//! let other = CString16::try_from_str(rt.alloc(), "efi\\boot")?;
//! assert!(rt; buffer.as_path() == Path::new(other.as_cstr16()));
//! assert_eq!(rt; buffer.components().count(), 2);
//!
//! let file = buffer.join(Path::new(other.as_cstr16()))?;
//! assert!(rt; validate_path(file.as_path()).is_ok());
//! ```
//!
//! [`laws`] has the laws for proofs of callers: one list of components for each text, equality and
//! order, the effect of joining, and the effect of climbing.
//!
//! A contract sees a [`PathBuf`] as its text, a [`Path`] as `path_text` of it, and [`Components`]
//! as `components_left` of it: the pieces that remain. Only this crate knows the indices of the
//! separators: no clause outside mentions one.
#![tactic(auto)]

mod ancestors;
mod capacity;
mod caseless;
mod counted_units;
mod file_names;
pub mod laws;
mod names;
mod normal;
mod path;
mod path_in_buf;
#[doc(hidden)]
pub mod path_units;
mod pathbuf;
mod push_blocks;
mod splitting;
mod validation;

pub use ancestors::Ancestors;
pub use counted_units::CountedUnits;
pub use normal::NormalizeError;
pub use path::{Path, separator_str};
pub use path_in_buf::NormalWriteError;
#[doc(hidden)]
pub use path_in_buf::push_in_buf;
pub use pathbuf::PathBuf;
pub use splitting::component_indices::ComponentIndices;
pub use splitting::components::Components;
pub use splitting::fault_places::{PathFault, validate_path_at};
pub use uefi_text::chars::{CHARACTER_DENY_LIST, SEPARATOR};
pub use validation::{PathError, validate_path};
