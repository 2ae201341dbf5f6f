//! The errors of bytes, code units and texts that are no string. The modules
//! [`strs`](crate::strings::strs) and [`owned_strs`](crate::strings::owned_strs) re-export these
//! types, and callers know them under those names.
ghost use Rattle.uefi_text.specs.ErrorTexts.{from_slice_until_nul_error_text, from_slice_with_nul_error_text, unaligned_cstr16_error_text, from_str_with_buf_error_text, from_str_error_text};
ghost use Rattle.std.specs.Prelude.{Some};

use crate::number_texts::put_decimal;
use crate::text_sink::{Printed, TextSink, print};
use std::error::Error;
use std::fmt;

/// The reason why code units or characters do not begin with a NUL-terminated string. A number is
/// an index into the argument.
#[derive(Clone, Copy, Debug, PartialEq, Eq)]
pub enum FromSliceUntilNulError {
    /// The first NUL or surrogate is a surrogate, at this index.
    InvalidChar(usize),

    /// There is neither a NUL nor a surrogate.
    NoNul,

    /// Memory ran out. No call that borrows returns it.
    OutOfMemory,
}

/// Puts the reason, with its number in decimal.
impl Printed for FromSliceUntilNulError {
    ghost printed = { from_slice_until_nul_error_text };

    fn put<S: TextSink>(&self, sink: &mut S) {
        match self {
            Self::InvalidChar(place) => put_decimal(
                sink,
                "invalid character at index ",
                *place as u64,
            ),
            Self::NoNul => sink.put_str("no nul character"),
            Self::OutOfMemory => sink.put_str("out of memory"),
        }
    }
}

/// Prints the same text.
impl fmt::Display for FromSliceUntilNulError {
    ghost output = { λ error. Some (from_slice_until_nul_error_text error) };

    fn fmt<W: fmt::Write>(&self, f: &mut fmt::Formatter<W>) -> fmt::Result {
        print(f, self)
    }
}

impl Error for FromSliceUntilNulError {}

/// The reason why code units, characters or bytes are not a NUL-terminated string. A number is the
/// index of a code unit, of a character, or of a byte of Latin-1.
#[derive(Clone, Copy, Debug, PartialEq, Eq)]
pub enum FromSliceWithNulError {
    /// The first NUL or surrogate is a surrogate, at this index.
    InvalidChar(usize),

    /// The first NUL or surrogate is a NUL, at this index, and it is not the last item.
    InteriorNul(usize),

    /// There is neither a NUL nor a surrogate; or bytes that must be a UCS-2 string have an odd
    /// length or do not end in two zeros.
    NotNulTerminated,

    /// The slice is not aligned. The Rust crate has this reason; no call here returns it.
    NotAligned,

    /// Memory ran out. No call that borrows returns it.
    OutOfMemory,
}

/// Puts the reason, with its number in decimal.
impl Printed for FromSliceWithNulError {
    ghost printed = { from_slice_with_nul_error_text };

    fn put<S: TextSink>(&self, sink: &mut S) {
        match self {
            Self::InvalidChar(place) => put_decimal(
                sink,
                "invalid character at index ",
                *place as u64,
            ),
            Self::InteriorNul(place) => put_decimal(
                sink,
                "interior null character at index ",
                *place as u64,
            ),
            Self::NotNulTerminated => sink.put_str("not null-terminated"),
            Self::NotAligned => sink.put_str("slice is not aligned to a 16-bit boundary"),
            Self::OutOfMemory => sink.put_str("out of memory"),
        }
    }
}

/// Prints the same text.
impl fmt::Display for FromSliceWithNulError {
    ghost output = { λ error. Some (from_slice_with_nul_error_text error) };

    fn fmt<W: fmt::Write>(&self, f: &mut fmt::Formatter<W>) -> fmt::Result {
        print(f, self)
    }
}

impl Error for FromSliceWithNulError {}

/// The reason why packed code units do not become a string in a buffer. A number is the index of an
/// item.
#[derive(Clone, Copy, Debug, PartialEq, Eq)]
pub enum UnalignedCStr16Error {
    /// The first NUL or surrogate is a surrogate, at this index.
    InvalidChar(usize),

    /// The first NUL or surrogate is a NUL, at this index, and more follows it.
    InteriorNul(usize),

    /// There is neither a NUL nor a surrogate.
    NotNulTerminated,

    /// The buffer has fewer places than there are units.
    BufferTooSmall,
}

/// Puts the reason, with its number in decimal.
impl Printed for UnalignedCStr16Error {
    ghost printed = { unaligned_cstr16_error_text };

    fn put<S: TextSink>(&self, sink: &mut S) {
        match self {
            Self::InvalidChar(place) => put_decimal(
                sink,
                "invalid character at index ",
                *place as u64,
            ),
            Self::InteriorNul(place) => put_decimal(
                sink,
                "interior null character at index ",
                *place as u64,
            ),
            Self::NotNulTerminated => sink.put_str("not null-terminated"),
            Self::BufferTooSmall => sink.put_str("buffer too small"),
        }
    }
}

/// Prints the same text.
impl fmt::Display for UnalignedCStr16Error {
    ghost output = { λ error. Some (unaligned_cstr16_error_text error) };

    fn fmt<W: fmt::Write>(&self, f: &mut fmt::Formatter<W>) -> fmt::Result {
        print(f, self)
    }
}

impl Error for UnalignedCStr16Error {}

/// The reason why a Rust text does not become a string in a buffer. A number counts the characters
/// before the refused one.
#[derive(Clone, Copy, Debug, PartialEq, Eq)]
pub enum FromStrWithBufError {
    /// The first character that is NUL or above U+FFFF is above U+FFFF.
    InvalidChar(usize),

    /// The first character that is NUL or above U+FFFF is a NUL.
    InteriorNul(usize),

    /// The buffer has too few places for the text and its NUL.
    BufferTooSmall,
}

/// Puts the reason, with its number in decimal.
impl Printed for FromStrWithBufError {
    ghost printed = { from_str_with_buf_error_text };

    fn put<S: TextSink>(&self, sink: &mut S) {
        match self {
            Self::InvalidChar(place) => put_decimal(
                sink,
                "invalid character at index ",
                *place as u64,
            ),
            Self::InteriorNul(place) => put_decimal(
                sink,
                "interior null character at index ",
                *place as u64,
            ),
            Self::BufferTooSmall => sink.put_str("buffer too small"),
        }
    }
}

/// Prints the same text.
impl fmt::Display for FromStrWithBufError {
    ghost output = { λ error. Some (from_str_with_buf_error_text error) };

    fn fmt<W: fmt::Write>(&self, f: &mut fmt::Formatter<W>) -> fmt::Result {
        print(f, self)
    }
}

impl Error for FromStrWithBufError {}

/// The reason why a Rust text, or characters, do not become an owned string.
#[derive(Clone, Copy, Debug, PartialEq, Eq)]
pub enum FromStrError {
    /// The first character that is NUL or above U+FFFF is above U+FFFF.
    InvalidChar,

    /// The first character that is NUL or above U+FFFF is a NUL.
    InteriorNul,

    /// The text can be encoded, but memory ran out.
    OutOfMemory,
}

/// Puts the reason.
impl Printed for FromStrError {
    ghost printed = { from_str_error_text };

    fn put<S: TextSink>(&self, sink: &mut S) {
        sink.put_str(match *self {
            FromStrError::InvalidChar => "UCS-2 Conversion Error: Invalid character",
            FromStrError::InteriorNul => "UCS-2 Conversion Error: Interior null terminator",
            FromStrError::OutOfMemory => "UCS-2 Conversion Error: Out of memory",
        });
    }
}

/// Prints the same text.
impl fmt::Display for FromStrError {
    ghost output = { λ error. Some (from_str_error_text error) };

    fn fmt<W: fmt::Write>(&self, f: &mut fmt::Formatter<W>) -> fmt::Result {
        print(f, self)
    }
}

impl Error for FromStrError {}
