//! Checks that bytes from outside are a path.
ghost use Rattle.std.specs.Prelude.{◌≡◌, None, IfErr, IfOk, Some};
ghost use Rattle.uefi_text.specs.UnitBytes.{BytesEncode};
ghost use Rattle.upath.specs.Judging.{IsPathOf, IsRefusalOf, bytes_fault};
ghost use Rattle.upath.specs.ErrorTexts.{judge_error_text};

use std::alloc::Allocator;
use std::error::Error;
use std::fmt;
use uefi_path::{PathBuf, PathError, validate_path};
use uefi_text::text_sink::{Printed, TextSink, print};
use uefi_text::{CString16, FromSliceWithNulError, UnalignedSlice};

/// The reason why bytes are not a path.
#[derive(Clone, Copy, Debug, PartialEq, Eq)]
pub enum JudgeError {
    /// The number of bytes is odd.
    HalfUnit,

    /// The code units that the bytes encode are not a string, for this reason, which is never
    /// `OutOfMemory`.
    Text(FromSliceWithNulError),

    /// The path of the string is refused, for this reason.
    Invalid(PathError),

    /// Memory ran out.
    OutOfMemory,
}

/// Puts the reason; for `Text` and `Invalid`, the inner reason.
impl Printed for JudgeError {
    ghost printed = { judge_error_text };

    fn put<S: TextSink>(&self, sink: &mut S) {
        match self {
            JudgeError::HalfUnit => sink.put_str("odd number of bytes"),
            JudgeError::Text(error) => error.put(sink),
            JudgeError::Invalid(error) => error.put(sink),
            JudgeError::OutOfMemory => sink.put_str("out of memory"),
        }
    }
}

/// Prints the same text.
impl fmt::Display for JudgeError {
    ghost output = { λ error. Some (judge_error_text error) };

    fn fmt<W: fmt::Write>(&self, f: &mut fmt::Formatter<W>) -> fmt::Result {
        print(f, self)
    }
}

impl Error for JudgeError {}

/// Decodes bytes as a string, two for each code unit.
fn read_string<A: Allocator>(alloc: A, bytes: &[u8]) -> Result<CString16<A>, JudgeError>
    ensures ok { IfOk result (λ string. BytesEncode bytes.now string × (bytes_fault bytes.now ≡ None)) }
    ensures refusal { IfErr result (λ error. IsRefusalOf bytes.now error) }
{
    let Some(units) = UnalignedSlice::from_unit_bytes(bytes) else {
        return Err(JudgeError::HalfUnit);
    };
    match units.to_cstring16(alloc) {
        Ok(string) => Ok(string),
        Err(FromSliceWithNulError::OutOfMemory) => Err(JudgeError::OutOfMemory),
        Err(error) => Err(JudgeError::Text(error)),
    }
}

/// Decodes bytes at any address as a string, two for each code unit, the low byte first, and
/// returns its path, with each slash replaced, if [`validate_path`] accepts that path.
///
/// Fails for the first of these reasons. The bytes are tested before the call allocates.
///
/// | error | reason |
/// |---|---|
/// | `HalfUnit` | the number of bytes is odd |
/// | `Text` | the units are not a string, with the error of `CStr16::from_u16_with_nul` |
/// | `OutOfMemory` | memory ran out |
/// | `Invalid` | the path is not accepted, with the error of [`validate_path`] |
///
/// ```rust
/// let path = judge(rt.alloc(), b"a\0/\0b\0\0\0")?;
/// assert_eq!(rt; format!(in rt.alloc(); "{path}")?.as_str(), r"a\b");
/// assert_eq!(rt; judge(rt.alloc(), b"a\0\0").err(), Some(JudgeError::HalfUnit));
/// let refused = judge(rt.alloc(), b"a\0/\0/\0b\0\0\0");
/// assert_eq!(rt; refused.err(), Some(JudgeError::Invalid(PathError::EmptyComponent)));
/// ```
pub fn judge<A: Allocator + Copy>(alloc: A, bytes: &[u8]) -> Result<PathBuf<A>, JudgeError>
    ensures ok { IfOk result (λ path. IsPathOf bytes.now path) }
    ensures refusal { IfErr result (λ error. IsRefusalOf bytes.now error) }
{
    let string = read_string(alloc, bytes)?;
    let Ok(path) = PathBuf::new_from_cstring16(alloc, string) else {
        return Err(JudgeError::OutOfMemory);
    };
    match validate_path(path.as_path()) {
        Ok(()) => Ok(path),
        Err(error) => Err(JudgeError::Invalid(error)),
    }
}
