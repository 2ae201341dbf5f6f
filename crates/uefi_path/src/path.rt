//! Borrowed paths. `specs/Views.antt` defines how a contract sees them.
#![tactic(auto, unfolding(crate::specs::Views::path_text, crate::specs::Views::components_left))]

ghost use Rattle.std.specs.Prelude.{◌≡◌, ℕ, ◌+◌, ◌<◌, ◌≤◌, ◌^◌, ◌↔◌, [], ◌∷◌, ◌++◌, All, List, None, drop, length, option_map, IfSome, IsSome, IsTrue, nat_eq, Some};
ghost use Rattle.std.specs.List.{last_or};
ghost use Rattle.uefi_path.specs.Components.{AreComponents, StartsWith, components_of};
ghost use Rattle.uefi_path.specs.FileNames.{EndsWith};
ghost use Rattle.uefi_path.specs.Separators.{canonical, separator};
ghost use Rattle.uefi_text.specs.Runs.{GivesEach};
ghost use Rattle.uefi_text.specs.Units.{IsText};
ghost use Rattle.uefi_text.specs.Views.{text_of, units_of};
ghost use Rattle.uefi_path.specs.Runs.{GivesNoNulIn};
ghost use Rattle.uefi_path.specs.Views.{path_text, components_left};
ghost use Rattle.std.specs.Cmp.{on_per, partial_equiv_from_equiv, on_po};
ghost use Rattle.std.specs.Cmp.Lexicographic.{nat_list_eq_equiv, pointwise, on_texts_equal, slice_cmp, texts_po, on_texts, texts_ties};
ghost use Rattle.std.specs.Ordering.{nat_cmp, as_partial_cmp, on};
ghost use Rattle.std.proofs.Common.{refl};
ghost use Rattle.std.specs.Str.{encode_utf8_all};

use crate::path_units::last_component;
use crate::splitting::components::{Components, Rest};
use std::cmp::Ordering;
use std::fmt;
use uefi_text::chars::SEPARATOR;
use uefi_text::strings::strs::{CStr16, Char16Slice};

/// A borrowed path: any string, read as components between separators. A contract sees it as
/// `path_text` of it: its whole text, including a leading separator.
#[derive(Clone, Copy)]
pub struct Path<'a> {
    string: CStr16<'a>,
}

impl<'a> Path<'a> {
    /// Creates a path from a string, without replacing slashes. Does not allocate.
    ///
    /// ```rust
    /// let text = CString16::try_from_str(rt.alloc(), r"\efi\boot")?;
    /// let path = Path::new(text.as_cstr16());
    /// assert!(rt; path.to_cstr16() == text.as_cstr16());
    /// ```
    pub fn new(string: CStr16<'a>) -> Path<'a>
        ensures { path_text result ≡ text_of string.entry }
    {
        Path { string }
    }

    /// Returns the string of the path. Does not allocate.
    ///
    /// See [`Path::new`].
    pub fn to_cstr16(&self) -> CStr16<'a>
        ensures same { text_of result ≡ path_text self.now }
        ensures is_text { IsText (text_of result) }
    {
        // A clause of this call says that what the string shows is a text.
        let _text = self.string.as_slice();
        self.string
    }

    /// Returns an iterator over the components: the pieces between the separators of the canonical
    /// text, including empty pieces, and no pieces of the empty text. They are the only list of
    /// pieces without separators that joins to that text, except that a list of one empty piece
    /// does not count. Does not allocate.
    ///
    /// ```rust
    /// let text = CString16::try_from_str(rt.alloc(), r"\efi\boot\")?;
    /// let mut components = Path::new(text.as_cstr16()).components();
    /// assert_eq!(rt; components.next(), Some(text.as_cstr16().as_slice().part(1, 4)));
    /// assert_eq!(rt; components.next(), Some(text.as_cstr16().as_slice().part(5, 9)));
    /// assert_eq!(rt; components.next().map(|it| it.is_empty()), Some(true));
    /// assert_eq!(rt; components.next(), None);
    /// ```
    pub fn components(&self) -> Components<'a>
        ensures same { components_left result ≡ components_of (path_text self.now) }
        ensures components { AreComponents (path_text self.now) (components_left result) }
        ensures only { (pieces : List (List ℕ)) →
            AreComponents (path_text self.now) pieces → pieces ≡ components_left result }
        ensures texts { All IsText (components_left result) }
        ensures bound { length (components_left result) < 2 ^ 64 }
        ensures runs { GivesEach units_of components_left result }
        ensures no_nul { GivesNoNulIn result }
    {
        let text = self.canonical();
        Components::of_canonical(self.string, Rest::of(text))
    }

    /// Returns the last component, which may be empty, or `None` if there is no component. Does not
    /// allocate.
    ///
    /// ```rust
    /// let text = CString16::try_from_str(rt.alloc(), r"\efi\shimx64.efi")?;
    /// let name = Path::new(text.as_cstr16()).file_name();
    /// assert_eq!(rt; name, Some(text.as_cstr16().as_slice().part(5, 16)));
    /// assert_eq!(rt; Path::new(separator_str()).file_name(), None);
    /// ```
    pub fn file_name(&self) -> Option<Char16Slice<'a>>
        ensures same { option_map units_of result ≡ last_or None (components_of (path_text self.now)) }
        ensures is_text { IfSome result (λ name. IsText (units_of name)) }
    {
        let text = self.string.as_slice();
        let start = last_component(text.units())?;
        Some(text.part(start, text.len()))
    }

    /// Returns whether the components of this path begin with those of the base. So `\a\bc` starts
    /// with `a` and with `\a\bc`, but not with `\a\b`; and every path starts with the empty path.
    /// Does not allocate.
    ///
    /// ```rust
    /// let text = CString16::try_from_str(rt.alloc(), r"\efi\boot")?;
    /// let base = CString16::try_from_str(rt.alloc(), "efi")?;
    /// let part = CString16::try_from_str(rt.alloc(), r"\efi\bo")?;
    /// let path = Path::new(text.as_cstr16());
    /// assert!(rt; path.starts_with(Path::new(base.as_cstr16())));
    /// assert!(rt; !path.starts_with(Path::new(part.as_cstr16())));
    /// ```
    pub fn starts_with(&self, base: Path<'_>) -> bool
        ensures { IsTrue result ↔ StartsWith (path_text self.now) (path_text base.entry) }
    {
        self.strip_prefix(base).is_some()
    }

    /// Removes the components of the base from the start of this path, and returns the rest, if
    /// this path starts with the base, as [`Path::starts_with`] says. Otherwise returns `None`.
    /// Does not allocate.
    ///
    /// ```rust
    /// let text = CString16::try_from_str(rt.alloc(), r"\efi\boot\bootx64.efi")?;
    /// let base = CString16::try_from_str(rt.alloc(), r"\efi")?;
    /// let (path, base) = (Path::new(text.as_cstr16()), Path::new(base.as_cstr16()));
    /// assert_eq!(rt; path.strip_prefix(base).map(|it| it.count()), Some(2));
    /// assert!(rt; base.strip_prefix(path).is_none());
    /// ```
    pub fn strip_prefix(&self, base: Path<'_>) -> Option<Components<'a>>
        ensures starts { IsSome result ↔ StartsWith (path_text self.now) (path_text base.entry) }
        ensures rest { IfSome result (λ rest. components_of (path_text self.now)
            ≡ components_of (path_text base.entry) ++ components_left rest) }
        ensures texts { IfSome result (λ rest. All IsText (components_left rest)) }
        ensures bound { IfSome result (λ rest. length (components_left rest) < 2 ^ 64) }
        ensures runs { IfSome result (λ rest. GivesEach units_of components_left rest) }
        ensures no_nul { IfSome result (λ rest. GivesNoNulIn rest) }
    {
        self.components().strip(base.components())
    }

    /// Returns whether the components of this path end with those of another. So `\a\bc` ends with
    /// `bc` and with `a\bc`, but not with `c`; and every path ends with the empty path. Does not
    /// allocate.
    ///
    /// ```rust
    /// let text = CString16::try_from_str(rt.alloc(), r"\efi\boot")?;
    /// let child = CString16::try_from_str(rt.alloc(), "boot")?;
    /// let part = CString16::try_from_str(rt.alloc(), "ot")?;
    /// let path = Path::new(text.as_cstr16());
    /// assert!(rt; path.ends_with(Path::new(child.as_cstr16())));
    /// assert!(rt; !path.ends_with(Path::new(part.as_cstr16())));
    /// ```
    pub fn ends_with(&self, child: Path<'_>) -> bool
        ensures { IsTrue result ↔ EndsWith (path_text self.now) (path_text child.entry) }
    {
        self.components().end_with(child.components())
    }

    /// Returns whether the text is empty. A lone separator is not empty, although it equals the
    /// empty path.
    ///
    /// ```rust
    /// let empty = CString16::new(rt.alloc())?;
    /// assert!(rt; Path::new(empty.as_cstr16()).is_empty());
    /// assert!(rt; !Path::new(separator_str()).is_empty());
    /// assert!(rt; Path::new(empty.as_cstr16()) == Path::new(separator_str()));
    /// ```
    pub fn is_empty(&self) -> bool
        ensures { IsTrue result ↔ (path_text self.now ≡ []) }
    {
        self.string.is_empty()
    }

    /// Returns where the text without one leading separator begins.
    pub(crate) fn canonical_start(&self) -> usize
        ensures start { drop result (path_text self.now) ≡ canonical (path_text self.now) }
        ensures within { result ≤ length (path_text self.now) }
    {
        let text = self.string.as_slice();
        if text.get(0) == Some(SEPARATOR) { 1 } else { 0 }
    }

    /// The text without one leading separator.
    pub(crate) fn canonical(&self) -> Char16Slice<'a>
        ensures same { units_of result ≡ canonical (path_text self.now) }
        ensures is_text { IsText (units_of result) }
        ensures bound { length (units_of result) + 1 < 2 ^ 64 }
    {
        let text = self.string.as_slice();
        if text.get(0) == Some(SEPARATOR) {
            text.part(1, text.len())
        } else {
            text
        }
    }
}

/// Does what [`Path::new`] does.
impl<'a> From<CStr16<'a>> for Path<'a> {
    ghost from_gives = { λ string result. path_text result ≡ text_of string };

    fn from(string: CStr16<'a>) -> Path<'a> {
        Path::new(string)
    }
}

/// Two paths are equal exactly when their canonical texts are, which is when their components are.
impl<'a> PartialEq for Path<'a> {
    ghost eq = { λ a b. pointwise nat_eq (canonical (path_text a)) (canonical (path_text b)) };

    ghost laws = { on_per (λ path. canonical (path_text path)) (partial_equiv_from_equiv nat_list_eq_equiv) };

    fn eq(&self, other: &Self) -> bool {
        self.canonical() == other.canonical()
    }
}

impl<'a> Eq for Path<'a> {
    ghost laws = { on_texts_equal (λ path. canonical (path_text path)) };
}

/// Compares the canonical texts by code unit. Components are not compared one by one, so `a\\b`
/// comes after `a!`.
impl<'a> PartialOrd for Path<'a> {
    ghost partial_cmp = { as_partial_cmp (on (λ path. canonical (path_text path)) (slice_cmp nat_cmp)) };

    ghost laws = { on_po (λ path. canonical (path_text path)) texts_po };

    fn partial_cmp(&self, other: &Self) -> Option<Ordering> {
        Some(Ord::cmp(self, other))
    }
}

/// Returns `Equal` exactly for equal paths.
impl<'a> Ord for Path<'a> {
    ghost cmp = { on (λ path. canonical (path_text path)) (slice_cmp nat_cmp) };

    ghost total = { on_texts (λ path. canonical (path_text path)) };

    ghost matches_partial_cmp = { λ _ _. refl };

    ghost matches_eq = { λ a b. texts_ties (canonical (path_text a)) (canonical (path_text b)) };

    fn cmp(&self, other: &Self) -> Ordering {
        self.canonical().units().cmp(other.canonical().units())
    }
}

/// Writes the characters of the text.
impl<'a> fmt::Display for Path<'a> {
    ghost output = { λ path. Some (encode_utf8_all (path_text path)) };

    fn fmt<W: fmt::Write>(&self, f: &mut fmt::Formatter<W>) -> fmt::Result {
        fmt::Display::fmt(&self.string, f)
    }
}

/// Prints the string of the path.
impl<'a> fmt::Debug for Path<'a> {
    fn fmt<W: fmt::Write>(&self, f: &mut fmt::Formatter<W>) -> fmt::Result {
        f.debug_tuple("Path").field(&self.string).finish()
    }
}

/// Returns the string of one separator. Does not allocate.
///
/// ```rust
/// assert_eq!(rt; separator_str().num_chars(), 1);
/// assert_eq!(rt; separator_str().iter().next(), Some(SEPARATOR));
/// ```
pub fn separator_str() -> CStr16<'static>
    ensures { text_of result ≡ separator ∷ [] }
{
    CStr16::from_u16_with_nul(&[92, 0]).unwrap()
}
