//! Normal paths, which contain only names: no `.` and no `..`. `specs/NormalForms.antt` defines
//! them.
#![tactic(auto, using(crate::proofs::Rules::normal_paths_rules))]

ghost use Rattle.std.specs.Prelude.{◌≡◌, ◌+◌, ◌<◌, ◌^◌, All, IfErr, IfOk, IsTrue, None, length, max, Some};
ghost use Rattle.uefi_path.specs.Components.{components_of, joined};
ghost use Rattle.uefi_path.specs.NamesLeft.{IsWalk, names_left};
ghost use Rattle.uefi_path.specs.NormalForms.{IsName, NormalForm, normal_of, normal_text};
ghost use Rattle.uefi_path.specs.Verdicts.{IsGood, normal_refusal, verdict};
ghost use Rattle.uefi_path.specs.Views.{path_text};
ghost use Rattle.uefi_text.specs.Units.{IsText};
ghost use Rattle.uefi_path.specs.PathErrors.{normalize_error_text};

use crate::names::NamesFromLast;
use crate::path::Path;
use crate::path_in_buf::{write_names, write_string};
use crate::pathbuf::{PathBuf, copy_part};
use crate::validation::{PathError, judge};
use std::alloc::{AllocError, Allocator};
use std::error::Error;
use std::fmt;
use uefi_text::chars::SEPARATOR;
use uefi_text::strings::owned_strs::CString16;
use uefi_text::text_sink::{Printed, TextSink, print};

/// The reason why a path has no normal path.
#[derive(Clone, Copy, Debug, PartialEq, Eq)]
pub enum NormalizeError {
    /// The path is not valid, for this reason.
    Invalid(PathError),

    /// The path is valid, but memory ran out.
    OutOfMemory,
}

/// Puts the reason.
impl Printed for NormalizeError {
    ghost printed = { normalize_error_text };

    fn put<S: TextSink>(&self, sink: &mut S) {
        match self {
            NormalizeError::Invalid(error) => error.put(sink),
            NormalizeError::OutOfMemory => sink.put_str("out of memory"),
        }
    }
}

/// Prints the same text.
impl fmt::Display for NormalizeError {
    ghost output = { λ error. Some (normalize_error_text error) };

    fn fmt<W: fmt::Write>(&self, f: &mut fmt::Formatter<W>) -> fmt::Result {
        print(f, self)
    }
}

impl Error for NormalizeError {}

/// Creates an owned path from names by joining them.
fn join_names<A: Allocator + Copy>(
    alloc: A,
    names: NamesFromLast<'_>,
) -> Result<PathBuf<A>, AllocError>
    requires walk { IsWalk names }
    requires good { All IsGood (names_left names) }
    requires texts { All IsText (names_left names) }
    requires bound { length (joined (names_left names)) + 1 < 2 ^ 64 }
    ensures { IfOk result (λ path. path ≡ normal_text (names_left names.entry)) }
{
    let len = write_names(&mut [], names);
    let mut units = Vec::new(alloc);
    units.resize(len.max(1) + 1, 0)?;
    write_string(&mut units, len, names);
    PathBuf::from_string(alloc, CString16::try_from_vec(units).unwrap())
}

/// Returns the normal path of a valid path. If all its components are known to be names, that is
/// its canonical text.
fn make_normal<A: Allocator + Copy>(
    alloc: A,
    path: Path<'_>,
    are_names: bool,
) -> Result<PathBuf<A>, AllocError>
    requires valid { verdict (path_text path) ≡ None }
    requires names { IsTrue are_names → All IsName (components_of (path_text path)) }
    ensures { IfOk result (λ normal.
        normal ≡ normal_text (normal_of (components_of (path_text path.entry)))) }
{
    let text = path.canonical();
    if are_names && !text.is_empty() {
        return copy_part(alloc, text);
    }
    join_names(alloc, NamesFromLast::of(path))
}

/// Normal paths.
impl<'a> Path<'a> {
    /// Creates the normal path. Deletes each component `.`, and each name with a `..` right after
    /// it, until neither is left. A name is any component except `.` and `..`. If nothing is left,
    /// the normal path is a lone separator.
    ///
    /// If the path is not valid, the result is `Invalid`, with the reason that
    /// [`validate_path`](crate::validation::validate_path) reports. If it is valid and memory runs
    /// out, the result is `OutOfMemory`. Allocates as [`PathBuf::from`] does: once for the text,
    /// and once more if the text contains separators.
    ///
    /// ```rust
    /// let text = CString16::try_from_str(rt.alloc(), r"\efi\.\boot\..\debian")?;
    /// let normal = Path::new(text.as_cstr16()).normalize(rt.alloc())?;
    /// assert_eq!(rt; format!(in rt.alloc(); "{normal}")?.as_str(), r"efi\debian");
    /// let text = CString16::try_from_str(rt.alloc(), r"efi\..\..")?;
    /// let refused = Path::new(text.as_cstr16()).normalize(rt.alloc());
    /// assert_eq!(rt; refused.err(), Some(NormalizeError::Invalid(PathError::ClimbsAboveRoot)));
    /// ```
    pub fn normalize<A: Allocator + Copy>(&self, alloc: A) -> Result<PathBuf<A>, NormalizeError>
        ensures valid { IfOk result (λ path. verdict (path_text self.now) ≡ None) }
        ensures ok { IfOk result (λ path.
            path ≡ normal_text (normal_of (components_of (path_text self.now)))) }
        ensures form { IfOk result (λ path. NormalForm (components_of (path_text self.now))
            (normal_of (components_of (path_text self.now)))) }
        ensures err { IfErr result (λ error. error ≡ normal_refusal (verdict (path_text self.now))) }
    {
        let are_names = match judge(*self) {
            Ok(are_names) => are_names,
            Err(error) => return Err(NormalizeError::Invalid(error)),
        };
        match make_normal(alloc, *self, are_names) {
            Ok(path) => Ok(path),
            Err(AllocError) => Err(NormalizeError::OutOfMemory),
        }
    }
}
