//! The stem and the extension of a path's last component. No call allocates.
#![tactic(auto, using(crate::proofs::LastPieces::no_extension, crate::proofs::LastPieces::named))]

ghost use Rattle.std.specs.Prelude.{◌<◌, ◌≤◌, ◌+◌, IfSome, MatchOption, None, Some, drop, length, option_map, take};
ghost use Rattle.std.specs.List.{last_or};
ghost use Rattle.uefi_path.specs.Components.{components_of};
ghost use Rattle.uefi_path.specs.FileNames.{HasNoExtension, IsExtension, IsLastDot, IsNamed, IsStem};
ghost use Rattle.uefi_path.specs.Views.{path_text};
ghost use Rattle.uefi_text.specs.Units.{IsText};
ghost use Rattle.uefi_text.specs.Views.{units_of};

use crate::path::Path;
use crate::splitting::component_kinds::{Kind, kind_of};
use uefi_text::strings::strs::Char16Slice;

/// The dot between a stem and an extension.
const DOT: u16 = 0x2e;

/// Returns the index of the last dot that is not at the start.
fn last_dot(name: &[u16]) -> Option<usize>
    ensures { IsLastDot name.now result }
{
    for i in (1..name.len()).rev() {
        if name[i] == DOT {
            return Some(i);
        }
    }
    None
}

/// Returns the index of the dot between the stem and the extension of a name.
fn extension_dot(name: Char16Slice<'_>) -> Option<usize>
    ensures cut { MatchOption result (HasNoExtension (units_of name.entry)) (λ dot.
        IsNamed (units_of name.entry) (take dot (units_of name.entry))
        (drop (dot + 1) (units_of name.entry))) }
    ensures within { IfSome result (λ dot. dot < length (units_of name.entry)) }
{
    match kind_of(name) {
        Kind::DotDot => None,
        _ => last_dot(name.units()),
    }
}

/// The length of the stem of a name.
pub(crate) fn stem_len(name: Char16Slice<'_>) -> usize
    ensures stem { IsStem (Some (units_of name.entry)) (Some (take result (units_of name.entry))) }
    ensures within { result ≤ length (units_of name.entry) }
{
    match extension_dot(name) {
        None => name.len(),
        Some(dot) => dot,
    }
}

impl<'a> Path<'a> {
    /// Returns the last component up to its extension: the text before its last dot, or the whole
    /// component if it has no dot after its first character or is `..`. Returns `None` if there is
    /// no component.
    ///
    /// ```rust
    /// let text = CString16::try_from_str(rt.alloc(), r"\efi\boot.tar.gz")?;
    /// let path = Path::new(text.as_cstr16());
    /// assert_eq!(rt; path.file_stem(), Some(text.as_cstr16().as_slice().part(5, 13)));
    /// assert_eq!(rt; path.extension(), Some(text.as_cstr16().as_slice().part(14, 16)));
    /// ```
    pub fn file_stem(&self) -> Option<Char16Slice<'a>>
        ensures stem { IsStem (last_or None (components_of (path_text self.now)))
            (option_map units_of result) }
        ensures is_text { IfSome result (λ stem. IsText (units_of stem)) }
    {
        let name = self.file_name()?;
        Some(name.part(0, stem_len(name)))
    }

    /// Returns the text after the last dot of the last component, which may be empty. Returns
    /// `None` if the component has no dot after its first character, is `..`, or does not exist.
    ///
    /// ```rust
    /// let text = CString16::try_from_str(rt.alloc(), r"\efi\.efi")?;
    /// let path = Path::new(text.as_cstr16());
    /// assert_eq!(rt; path.extension(), None);
    /// assert_eq!(rt; path.file_stem(), path.file_name());
    /// ```
    pub fn extension(&self) -> Option<Char16Slice<'a>>
        ensures extension { IsExtension (last_or None (components_of (path_text self.now)))
            (option_map units_of result) }
        ensures is_text { IfSome result (λ extension. IsText (units_of extension)) }
    {
        let name = self.file_name()?;
        let dot = extension_dot(name)?;
        let end = name.len();
        Some(name.part(dot + 1, end))
    }
}
