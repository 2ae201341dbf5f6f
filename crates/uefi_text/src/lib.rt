//! UCS-2 characters and NUL-terminated UCS-2 strings, as UEFI firmware stores them.
//!
//! A *code unit* is a `u16`. A [`Char16`] is a code unit that is not a surrogate. A *text* is a
//! list of characters without NUL, and a *string* is a text followed by one NUL, as UEFI stores it
//! in `CHAR16` (UEFI Specification 2.10, section 2.3.1). A [`CStr16`] borrows a string, and a
//! [`CString16`] owns one. Only checked constructors make either of them, so a string never lacks
//! its NUL, and every value of these types encodes a text.
//!
//! ```rust
//! use uefi_text::{CStr16, CString16, FromSliceWithNulError};
//!
//! let borrowed = CStr16::from_u16_with_nul(&[0x48, 0x69, 0])?;
//! let owned = CString16::try_from_str(rt.alloc(), "Hi")?;
//! assert!(rt; borrowed == owned.as_cstr16());
//!
//! let broken = CStr16::from_u16_with_nul(&[0x48, 0xd800, 0]);
//! assert_eq!(rt; broken.err(), Some(FromSliceWithNulError::InvalidChar(1)));
//! ```
//!
//! Strings are made from code units, characters, bytes and Rust texts, and borrowed if nothing has
//! to be copied. Each error says what is wrong and where. Strings can be converted to bytes or Rust
//! texts, or written to any [`CharSink`]. A [`CStr8`] is a string of Latin-1, and [`EqStrUntilNul`]
//! compares all of them with Rust texts. An [`UnalignedSlice`] reads numbers that are packed in
//! bytes, at any address.
//!
//! A contract sees each value as a list: a [`CString16`] as its text, a [`CStr16`] as `text_of` it,
//! a [`Char16Slice`] as `units_of` it, a [`CStr16Iter`] as `units_left` of it, and an
//! [`UnalignedSlice`] as `items_of` it. No clause outside this crate mentions the index of a NUL, a
//! buffer or a capacity.
#![tactic(auto)]

pub mod case;
pub mod char_sink;
pub mod chars;
pub mod counted_reads;
#[doc(hidden)]
pub mod decode;
mod encode;
mod errors;
pub mod laws;
#[doc(hidden)]
pub mod number_texts;
mod packed_numbers;
pub mod patterns;
#[doc(hidden)]
pub mod scan;
pub mod strings;
#[doc(hidden)]
pub mod text_sink;
pub mod unaligned_slice;
mod unit_blocks;
pub mod unit_sink;

// For the C library, which reports the length of a text before it writes it.
pub use char_sink::CharSink;
pub use chars::{Char8, Char16, CharConversionError, NUL_8, NUL_16};
#[doc(hidden)]
pub use encode::text_len;
pub use strings::eq_str_until_nul::{EqStrUntilNul, str_eq_until_nul};
pub use strings::owned_strs::{CString16, FromStrError, have_no_nul};
pub use strings::strs::{
    CStr8, CStr16, CStr16Iter, Char16Slice, FromSliceUntilNulError, FromSliceWithNulError,
    FromStrWithBufError, UnalignedCStr16Error, has_no_nul, is_latin1, str_num_latin1_chars,
    str_to_latin1,
};
pub use strings::{eq_str_until_nul, owned_strs, strs};
pub use text_sink::{Printed, TextSink};
pub use unaligned_slice::{Packed, UnalignedSlice, UnalignedSliceIntoIter, UnalignedSliceIter};
pub use unit_sink::{BufferTooSmall, write_units};
