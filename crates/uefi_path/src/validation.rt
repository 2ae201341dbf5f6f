//! The paths that are accepted, and the reasons why others are refused.
ghost use Rattle.std.specs.Prelude.{◌≡◌, ◌+◌, ◌<◌, ◌^◌, ◌↔◌, All, IfOk, IsOk, IsTrue, Option, find, Some};
ghost use Rattle.std.specs.Result.{result_err};
ghost use Rattle.uefi_path.specs.Climbing.{depth_after};
ghost use Rattle.uefi_path.specs.Components.{components_of};
ghost use Rattle.uefi_path.specs.NormalForms.{IsName, kind};
ghost use Rattle.uefi_path.specs.Verdicts.{IsValid, fault, is_denied, verdict};
ghost use Rattle.uefi_path.specs.Views.{path_text};
ghost use Rattle.uefi_text.specs.Views.{units_of};
ghost use Rattle.uefi_path.specs.PathErrors.{path_error_text};

use crate::path::Path;
use crate::splitting::component_kinds::{Kind, kind_of};
use std::error::Error;
use std::fmt;
use uefi_text::chars::Char16;
use uefi_text::number_texts::put_decimal;
use uefi_text::strings::strs::Char16Slice;
use uefi_text::text_sink::{Printed, TextSink, print};

/// The reason why a path is refused.
#[derive(Clone, Copy, Debug, PartialEq, Eq)]
pub enum PathError {
    /// The text is empty.
    Empty,

    /// A component is empty.
    EmptyComponent,

    /// A component contains this character of [`CHARACTER_DENY_LIST`].
    IllegalChar(Char16),

    /// A component `..` climbs above the start of the path: the components before it contain at
    /// least as many `..` as names.
    ClimbsAboveRoot,
}

/// Puts the reason, with the number of an illegal character in decimal.
impl Printed for PathError {
    ghost printed = { path_error_text };

    #[tactic(auto, using(uefi_text::proofs::Puts::puts))]
    fn put<S: TextSink>(&self, sink: &mut S) {
        match self {
            PathError::Empty => sink.put_str("path is empty"),
            PathError::EmptyComponent => sink.put_str("path contains an empty component"),
            PathError::IllegalChar(character) => {
                let value = u64::from(u16::from(*character));
                put_decimal(sink, "path contains an illegal character (value ", value);
                sink.put_str(")");
            }
            PathError::ClimbsAboveRoot => sink.put_str("path climbs above the root"),
        }
    }
}

/// Prints the same text.
impl fmt::Display for PathError {
    ghost output = { λ error. Some (path_error_text error) };

    fn fmt<W: fmt::Write>(&self, f: &mut fmt::Formatter<W>) -> fmt::Result {
        print(f, self)
    }
}

impl Error for PathError {}

/// For each character of ASCII, whether no file's name holds it: one look in place of ten.
static DENIED: [bool; 128] = [
    true, false, false, false, false, false, false, false, false, false, false, false, false,
    false, false, false, false, false, false, false, false, false, false, false, false, false,
    false, false, false, false, false, false, false, false, true, false, false, false, false,
    false, false, false, true, false, false, false, false, true, false, false, false, false, false,
    false, false, false, false, false, true, false, true, false, true, true, false, false, false,
    false, false, false, false, false, false, false, false, false, false, false, false, false,
    false, false, false, false, false, false, false, false, false, false, false, false, true,
    false, false, false, false, false, false, false, false, false, false, false, false, false,
    false, false, false, false, false, false, false, false, false, false, false, false, false,
    false, false, false, false, false, true, false, false, false,
];

/// Returns whether file names must not contain the character.
fn is_denied(character: Char16) -> bool
    ensures { result ≡ is_denied character }
{
    let place = usize::from(u16::from(character));
    place < DENIED.len() && DENIED[place]
}

/// Returns the first character that file names must not contain.
fn find_denied(component: Char16Slice<'_>) -> Option<Char16>
    ensures { result ≡ find is_denied (units_of component.entry) }
{
    for character in component.iter() {
        if is_denied(character) {
            return Some(character);
        }
    }
    None
}

/// Returns why a component names no file, if it names none.
pub(crate) fn find_fault(component: Char16Slice<'_>) -> Option<PathError>
    ensures { result ≡ fault (units_of component.entry) }
{
    if component.is_empty() {
        return Some(PathError::EmptyComponent);
    }
    find_denied(component).map(PathError::IllegalChar)
}

/// Returns the number of names that are left after a component, given the number before it; `None`
/// if the component climbs above the start of the path.
pub(crate) fn depth_after(depth: usize, component: Char16Slice<'_>) -> Option<usize>
    requires { depth + 1 < 2 ^ 64 }
    ensures { result ≡ depth_after (kind (units_of component.entry)) depth }
{
    match kind_of(component) {
        Kind::Dot => Some(depth),
        Kind::DotDot => depth.checked_sub(1),
        Kind::Name => Some(depth + 1),
    }
}

/// Returns why a path is refused; or, of one that is accepted, whether each component is a name.
pub(crate) fn judge(path: Path<'_>) -> Result<bool, PathError>
    ensures refusal { result_err result ≡ verdict (path_text path.entry) }
    ensures names { IfOk result (λ are_names.
        IsTrue are_names → All IsName (components_of (path_text path.entry))) }
{
    if path.is_empty() {
        return Err(PathError::Empty);
    }
    let mut depth = 0;
    let mut are_names = true;
    for component in path.components() {
        if let Some(error) = find_fault(component) {
            return Err(error);
        }
        match depth_after(depth, component) {
            Some(left) => {
                are_names &= depth < left;
                depth = left;
            }
            None => return Err(PathError::ClimbsAboveRoot),
        }
    }
    Ok(are_names)
}

/// Whether a path is accepted: `Ok`, or the fault of its first component that has one.
///
/// The empty path is refused as `Empty`. A lone separator has no component and is accepted. An
/// empty component is refused as `EmptyComponent`. A component that contains a character of
/// [`CHARACTER_DENY_LIST`] is refused as `IllegalChar`, with the first of these characters. A `..`
/// is refused as `ClimbsAboveRoot` if the components before it contain at least as many `..` as
/// names. A `.` is not a name.
///
/// Does not allocate.
///
/// ```rust
/// let text = CString16::try_from_str(rt.alloc(), r"\efi\..\boot")?;
/// assert_eq!(rt; validate_path(Path::new(text.as_cstr16())), Ok(()));
/// let text = CString16::try_from_str(rt.alloc(), r"\efi\\boot")?;
/// assert_eq!(rt; validate_path(Path::new(text.as_cstr16())), Err(PathError::EmptyComponent));
/// ```
pub fn validate_path(path: Path<'_>) -> Result<(), PathError>
    ensures refusal { result_err result ≡ verdict (path_text path.entry) }
    ensures valid { IsOk result ↔ IsValid (path_text path.entry) }
{
    match judge(path) {
        Ok(_) => Ok(()),
        Err(error) => Err(error),
    }
}
