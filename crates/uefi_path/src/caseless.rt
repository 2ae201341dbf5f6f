//! Paths that are compared without case, and matched against patterns. The rules of case and of
//! patterns are those of the firmware's Unicode collation (UEFI Specification 2.10, section 21.1).
//! No call allocates.
ghost use Rattle.std.specs.Prelude.{◌≡◌, ◌<◌, ◌^◌, ◌↔◌, All, IfSome, IsSome, IsTrue, drop, length};
ghost use Rattle.uefi_path.specs.Components.{components_of};
ghost use Rattle.uefi_path.specs.Separators.{canonical};
ghost use Rattle.uefi_path.specs.Views.{path_text, components_left};
ghost use Rattle.uefi_path.specs.WithoutCase.{MatchesPath, StartsWithoutCase};
ghost use Rattle.uefi_text.specs.Case.{caseless_order, uppers};
ghost use Rattle.uefi_text.specs.Runs.{GivesEach};
ghost use Rattle.uefi_text.specs.Units.{IsText};
ghost use Rattle.uefi_text.specs.Views.{units_of};
ghost use Rattle.uefi_path.specs.Runs.{GivesNoNulIn};

use crate::path::Path;
use crate::splitting::components::Components;
use std::cmp::Ordering;

impl<'a> Path<'a> {
    /// Returns whether both paths are equal without case: whether their canonical texts are.
    ///
    /// ```rust
    /// let text = CString16::try_from_str(rt.alloc(), r"\EFI\Boot")?;
    /// let other = CString16::try_from_str(rt.alloc(), r"efi\BOOT")?;
    /// let (path, other) = (Path::new(text.as_cstr16()), Path::new(other.as_cstr16()));
    /// assert!(rt; path.eq_ignore_case(other) && path != other);
    /// ```
    pub fn eq_ignore_case(&self, other: Path<'_>) -> bool
        ensures { IsTrue result
            ↔ (uppers (canonical (path_text self.now)) ≡ uppers (canonical (path_text other.entry))) }
    {
        self.canonical().eq_ignore_case(other.canonical())
    }

    /// Compares two paths without case, by their canonical texts. The result is `Equal` exactly if
    /// [`Path::eq_ignore_case`] holds.
    ///
    /// ```rust
    /// let text = CString16::try_from_str(rt.alloc(), r"\efi\a")?;
    /// let other = CString16::try_from_str(rt.alloc(), r"\EFI\B")?;
    /// let (path, other) = (Path::new(text.as_cstr16()), Path::new(other.as_cstr16()));
    /// assert!(rt; path.cmp_ignore_case(other).is_lt());
    /// assert!(rt; path.cmp(&other).is_gt());
    /// ```
    pub fn cmp_ignore_case(&self, other: Path<'_>) -> Ordering
        ensures { result
            ≡ caseless_order (canonical (path_text self.now)) (canonical (path_text other.entry)) }
    {
        self.canonical().cmp_ignore_case(other.canonical())
    }

    /// Returns whether the components of this path begin with the components of the base, without
    /// case. [`Path::starts_with`] is the comparison with case.
    ///
    /// ```rust
    /// let text = CString16::try_from_str(rt.alloc(), r"\EFI\Boot")?;
    /// let base = CString16::try_from_str(rt.alloc(), r"\efi")?;
    /// let (path, base) = (Path::new(text.as_cstr16()), Path::new(base.as_cstr16()));
    /// assert!(rt; path.starts_with_ignore_case(base));
    /// assert!(rt; !path.starts_with(base));
    /// ```
    pub fn starts_with_ignore_case(&self, base: Path<'_>) -> bool
        ensures { IsTrue result ↔ StartsWithoutCase (path_text self.now) (path_text base.entry) }
    {
        self.strip_prefix_ignore_case(base).is_some()
    }

    /// Removes as many components as the base has from the start of this path, and returns the
    /// rest, if this path starts with the base without case. Otherwise returns `None`.
    ///
    /// ```rust
    /// let text = CString16::try_from_str(rt.alloc(), r"\EFI\Boot\a.efi")?;
    /// let base = CString16::try_from_str(rt.alloc(), r"\efi\BOOT")?;
    /// let (path, base) = (Path::new(text.as_cstr16()), Path::new(base.as_cstr16()));
    /// assert_eq!(rt; path.strip_prefix_ignore_case(base).map(|it| it.count()), Some(1));
    /// ```
    pub fn strip_prefix_ignore_case(&self, base: Path<'_>) -> Option<Components<'a>>
        ensures starts { IsSome result ↔ StartsWithoutCase (path_text self.now) (path_text base.entry) }
        ensures rest { IfSome result (λ rest. components_left rest
            ≡ drop (length (components_of (path_text base.entry))) (components_of (path_text self.now))) }
        ensures texts { IfSome result (λ rest. All IsText (components_left rest)) }
        ensures bound { IfSome result (λ rest. length (components_left rest) < 2 ^ 64) }
        ensures runs { IfSome result (λ rest. GivesEach units_of components_left rest) }
        ensures no_nul { IfSome result (λ rest. GivesNoNulIn rest) }
    {
        self.components().strip_ignore_case(base.components())
    }

    /// Returns whether a pattern matches this path: whether both have the same number of
    /// components, and each component of the pattern matches the component of the path at the same
    /// index, as `CStr16::matches` does. So neither `*` nor `?` matches a separator, and a
    /// separator between `[` and `]` ends a component too.
    ///
    /// ```rust
    /// let pattern = CString16::try_from_str(rt.alloc(), r"\efi\*\shim*.efi")?;
    /// let text = CString16::try_from_str(rt.alloc(), r"\EFI\debian\shimx64.efi")?;
    /// let deep = CString16::try_from_str(rt.alloc(), r"\EFI\a\b\shimx64.efi")?;
    /// let pattern = Path::new(pattern.as_cstr16());
    /// assert!(rt; Path::new(text.as_cstr16()).matches(pattern));
    /// assert!(rt; !Path::new(deep.as_cstr16()).matches(pattern));
    /// ```
    pub fn matches(&self, pattern: Path<'_>) -> bool
        ensures { IsTrue result ↔ MatchesPath (path_text pattern.entry) (path_text self.now) }
    {
        self.components().match_each(pattern.components())
    }
}
