//! Owned paths, and the calls of [`Path`] that make one.
#![tactic(auto, using(crate::proofs::Rules::path_buffers_rules))]

ghost use Rattle.std.specs.Prelude.{◌≡◌, ◌≢◌, ℕ, ◌+◌, ◌<◌, ◌≤◌, ◌^◌, ◌↔◌, [], ◌∷◌, ◌++◌, All, List, Some, None, false, true, if◌then◌else◌, length, option_map, replicate, take, ◌-◌, IsTrue, IsOk, IsSome, IfOk, IfErr, IfSome, OnOk, OnErr, nat_eq};
ghost use Rattle.std.specs.List.{last_or, list_any};
ghost use Rattle.uefi_path.specs.Components.{AreComponents, IsPiece, StartsWith, components_of};
ghost use Rattle.uefi_path.specs.Parents.{all_but_last, parent_of_components, parent_text};
ghost use Rattle.uefi_path.specs.Popping.{IsPopped};
ghost use Rattle.uefi_path.specs.Runs.{GivesNoNulIn};
ghost use Rattle.uefi_path.specs.Pushing.{IsPushNext, appended, needs_separator, pushed};
ghost use Rattle.uefi_path.specs.Renaming.{IsExtended, IsRenamed, StartsName, dotted};
ghost use Rattle.uefi_path.specs.Separators.{IsPlain, canonical, is_slash, places_of, separator, with_separators};
ghost use Rattle.uefi_path.specs.SuccessiveParents.{parent_chain, parents_of};
ghost use Rattle.uefi_path.specs.Views.{components_left, path_text, counted_text, reads_of, uncut_units};
ghost use Rattle.uefi_text.specs.Units.{IsText};
ghost use Rattle.uefi_text.specs.Views.{text_of, units_of};
ghost use Rattle.uefi_text.specs.Runs.{GivesEach};
ghost use Rattle.std.specs.Cmp.{on_per, partial_equiv_from_equiv, on_po};
ghost use Rattle.std.specs.Cmp.Lexicographic.{nat_list_eq_equiv, pointwise, on_texts_equal, slice_cmp, texts_po, on_texts, texts_ties};
ghost use Rattle.std.specs.Ordering.{nat_cmp, as_partial_cmp, on};
ghost use Rattle.std.proofs.Common.{refl};
ghost use Rattle.std.specs.Str.{encode_utf8_all};
ghost use Rattle.uefi_path.specs.Components as pieces_joined;

use crate::capacity::{copy_places, copy_string, room_for_both, room_if_short};
use crate::counted_units::CountedUnits;
use crate::file_names::stem_len;
use crate::path::Path;
use crate::path_in_buf::{parent_len, sink_parent};
use crate::path_units::{last_component, needs_separator, others_end};
use crate::push_blocks::{add_block, copy_units};
use crate::splitting::components::{Components, Rest};
use crate::splitting::separators::{add_places, count_separators, cut_last};
use std::alloc::{AllocError, Allocator, Global};
use std::cmp::Ordering;
use std::fmt;
use std::marker::Model;
use uefi_text::chars::{Char16, SEPARATOR, SLASH};
use uefi_text::strings::owned_strs::CString16;
use uefi_text::strings::strs::{CStr16, Char16Slice};

/// An owned path. Each `/` of its input becomes a separator, so its text never contains a `/`. A
/// contract sees it as its text.
///
/// ```rust
/// let text = CString16::try_from_str(rt.alloc(), "/efi/boot")?;
/// let path = PathBuf::from(rt.alloc(), text.as_cstr16())?;
/// assert_eq!(rt; path.components().count(), 2);
/// assert_eq!(rt; path.file_name(), path.as_path().file_name());
/// assert!(rt; !path.is_empty() && path.starts_with(Path::new(separator_str())));
/// assert_eq!(rt; path.strip_prefix(path.as_path()).map(|it| it.count()), Some(0));
/// ```
#[derive(Drop)]
pub struct PathBuf<A: Allocator = Global> {
    string: CString16<A>,

    /// The places of all separators in the text, in ascending order.
    places: Vec<usize, A>,
}

impl<A: Allocator> Model for PathBuf<A> {
    ghost use Rattle.std.specs.Prelude.{◌≡◌, ℕ, List};
    ghost use Rattle.uefi_path.specs.Renaming.{IsExtended, IsRenamed, StartsName, dotted};
    ghost use Rattle.uefi_path.specs.Separators.{IsPlain, places_of};

    ghost Value = { List ℕ };

    ghost view = { λ path. path.string };

    ghost invariant = { λ path. IsPlain path.string × (path.places.items ≡ places_of path.string) };
}

/// Returns this many zeros. Allocates once.
fn zeros<A: Allocator>(alloc: A, len: usize) -> Result<Vec<u16, A>, AllocError>
    ensures { IfOk result (λ units. units.items ≡ replicate len 0) }
{
    let mut units = Vec::new(alloc);
    units.resize(len, 0)?;
    Ok(units)
}

/// Returns the parent of a path of these components, with each slash replaced. Allocates once for
/// the text, and once more if the text contains separators.
fn parent_of<A: Allocator + Copy>(
    alloc: A,
    components: Components<'_>,
) -> Result<Option<PathBuf<A>>, AllocError>
    requires texts { All IsText (components_left components) }
    requires pieces { All IsPiece (components_left components) }
    requires bound { length (pieces_joined.joined (components_left components)) < 2 ^ 64 }
    ensures ok { IfOk result (λ parent. parent ≡ parent_of_components (components_left components.entry)) }
    ensures none { parent_of_components (components_left components.entry) ≡ None → IsOk result }
{
    let Some(len) = parent_len(&components) else {
        return Ok(None);
    };
    let mut units = zeros(alloc, len + 1)?;
    sink_parent(&mut units, components);
    let string = CString16::try_from_vec(units).unwrap();
    Ok(Some(PathBuf::from_string(alloc, string)?))
}

/// Copies a part of a path, each slash replaced.
pub(crate) fn copy_part<A: Allocator + Copy>(
    alloc: A,
    part: Char16Slice<'_>,
) -> Result<PathBuf<A>, AllocError>
    requires { IsText (units_of part) }
    ensures { IfOk result (λ path. path ≡ with_separators (units_of part.entry)) }
{
    let mut string = CString16::with_capacity(alloc, part.len())?;
    string.push_part(part)?;
    PathBuf::from_string(alloc, string)
}

/// Replaces each slash of a string. The caller knows whether it has one.
#[inline(always)]
fn replace_slashes<A: Allocator>(string: &mut CString16<A>, has_slash: bool)
    requires { has_slash ≡ list_any is_slash string.old }
    ensures { string.new ≡ with_separators string.old }
{
    if has_slash {
        string.replace_char(SLASH, SEPARATOR);
    }
}

/// Returns the index at which the last component begins, or the length if there is none.
fn name_start(units: &[u16]) -> usize
    ensures within { result ≤ length units.now }
    ensures name { StartsName units.now result (last_or None (components_of units.now)) }
{
    match last_component(units) {
        Some(start) => start,
        None => units.len(),
    }
}

/// Owned paths from a borrowed path.
impl<'a> Path<'a> {
    /// Copies the path, with each slash replaced. Allocates as [`PathBuf::from`] does. Returns
    /// `AllocError` if memory runs out.
    ///
    /// ```rust
    /// let text = CString16::try_from_str(rt.alloc(), "efi/boot")?;
    /// let path = Path::new(text.as_cstr16()).to_path_buf(rt.alloc())?;
    /// assert_eq!(rt; format!(in rt.alloc(); "{path}")?.as_str(), r"efi\boot");
    /// ```
    pub fn to_path_buf<A: Allocator + Copy>(&self, alloc: A) -> Result<PathBuf<A>, AllocError>
        ensures { IfOk result (λ path. path ≡ with_separators (path_text self.now)) }
    {
        PathBuf::from(alloc, self.to_cstr16())
    }

    /// Creates an owned path: this path with another pushed after it, as [`PathBuf::push`] does.
    /// The slashes of both are replaced. Allocates once for the text of both. If that contains
    /// separators, allocates once more, or for the separators as they come if the other path is
    /// long. Returns `AllocError` if memory runs out.
    ///
    /// ```rust
    /// let base = CString16::try_from_str(rt.alloc(), r"\efi")?;
    /// let name = CString16::try_from_str(rt.alloc(), "boot/a.efi")?;
    /// let path = Path::new(base.as_cstr16()).join(rt.alloc(), Path::new(name.as_cstr16()))?;
    /// assert_eq!(rt; format!(in rt.alloc(); "{path}")?.as_str(), r"\efi\boot\a.efi");
    /// ```
    pub fn join<A: Allocator + Copy>(
        &self,
        alloc: A,
        path: Path<'_>,
    ) -> Result<PathBuf<A>, AllocError>
        ensures { IfOk result (λ joined.
            joined ≡ pushed (with_separators (path_text self.now)) (path_text path.entry)) }
    {
        let string = copy_string(alloc, self.to_cstr16(), room_for_both(*self, path))?;
        let Ok(first) = PathBuf::with_room(alloc, string, room_if_short(*self, path)) else {
            return Err(AllocError);
        };
        first.with_pushed(path)
    }

    /// Creates the parent, with each slash replaced. Returns `AllocError` if memory runs out.
    ///
    /// The parent is the path without its last component. A path of at most one component has no
    /// parent; the call then returns `Ok(None)`, does not allocate, and never fails. Empty
    /// components before the last are left out. If the component before the last is empty and
    /// another one is not, a separator ends the parent: the parent of `a\\b` is `a\`. A parent is
    /// shorter than the path, so climbing from parent to parent ends. Allocates once for the text,
    /// and once more if the text contains separators.
    ///
    /// ```rust
    /// let text = CString16::try_from_str(rt.alloc(), r"\efi\boot")?;
    /// let parent = Path::new(text.as_cstr16()).parent(rt.alloc())?;
    /// let wanted = CString16::try_from_str(rt.alloc(), "efi")?;
    /// assert_eq!(rt; parent.map(|it| it.into_cstring16()), Some(wanted));
    /// ```
    pub fn parent<A: Allocator + Copy>(&self, alloc: A) -> Result<Option<PathBuf<A>>, AllocError>
        ensures ok { IfOk result (λ parent. parent ≡ parent_text (path_text self.now)) }
        ensures none { parent_text (path_text self.now) ≡ None → IsOk result }
        ensures shorter { IfOk result (λ parent.
            IfSome parent (λ parent. length parent < length (path_text self.now))) }
        ensures successive { IfOk result (λ parent. parents_of (path_text self.now) ≡ parent_chain parent) }
    {
        let (Some(front), _) = cut_last(self.canonical()) else {
            return Ok(None);
        };
        if Components::between(front).has_empty() {
            // A clause of this call says how long the path can be.
            let _text = self.to_cstr16().as_slice();
            return parent_of(alloc, self.components());
        }
        // For most paths, the parent is one copy of the text before the last separator.
        Ok(Some(copy_part(alloc, front)?))
    }
}

impl<A: Allocator + Copy> PathBuf<A> {
    /// Creates an empty path. Allocates for the NUL. Returns `AllocError` if memory runs out.
    ///
    /// ```rust
    /// let path = PathBuf::new(rt.alloc())?;
    /// assert!(rt; path.is_empty());
    /// ```
    pub fn new(alloc: A) -> Result<Self, AllocError>
        ensures { IfOk result (λ path. path ≡ []) }
    {
        Ok(PathBuf {
            string: CString16::new(alloc)?,
            places: Vec::new(alloc),
        })
    }

    /// Returns the allocator of the path, for paths that are made from this one.
    fn alloc(&self) -> A {
        *self.places.allocator()
    }

    /// Does what [`PathBuf::new_from_cstring16`] does, but drops the string of an `Err`.
    pub(crate) fn from_string(alloc: A, string: CString16<A>) -> Result<Self, AllocError>
        ensures { IfOk result (λ path. path ≡ with_separators string) }
    {
        match PathBuf::new_from_cstring16(alloc, string) {
            Ok(path) => Ok(path),
            Err(_) => Err(AllocError),
        }
    }

    /// Creates a path from a string, replacing each `/` with `\`.
    ///
    /// Allocates once for the text, and once more if the text contains separators. Returns
    /// `AllocError` if memory runs out.
    ///
    /// ```rust
    /// let text = CString16::try_from_str(rt.alloc(), r"/efi\boot")?;
    /// let path = PathBuf::from(rt.alloc(), text.as_cstr16())?;
    /// assert_eq!(rt; format!(in rt.alloc(); "{path}")?.as_str(), r"\efi\boot");
    /// ```
    pub fn from(alloc: A, string: CStr16<'_>) -> Result<Self, AllocError>
        ensures { IfOk result (λ path. path ≡ with_separators (text_of string.entry)) }
    {
        PathBuf::from_string(alloc, string.to_owned(alloc)?)
    }

    /// Turns a string into a path without copying it, and replaces each slash. If memory for the
    /// indices of its separators runs out, the result is an `Err` with the unchanged string.
    ///
    /// Allocates once, and not at all if the text contains neither separators nor slashes.
    ///
    /// ```rust
    /// let text = CString16::try_from_str(rt.alloc(), "efi/boot")?;
    /// let path = PathBuf::new_from_cstring16(rt.alloc(), text);
    /// assert_eq!(rt; path.map(|it| it.components().count()), Ok(2));
    /// ```
    pub fn new_from_cstring16(alloc: A, string: CString16<A>) -> Result<Self, CString16<A>>
        ensures ok { IfOk result (λ path. path ≡ with_separators string) }
        ensures err { IfErr result (λ kept. kept ≡ string) }
    {
        PathBuf::with_room(alloc, string, 0)
    }

    /// Does what [`PathBuf::new_from_cstring16`] does, with room for this many more separators.
    fn with_room(alloc: A, mut string: CString16<A>, more: usize) -> Result<Self, CString16<A>>
        ensures ok { IfOk result (λ path. path ≡ with_separators string) }
        ensures err { IfErr result (λ kept. kept ≡ string) }
    {
        let (count, has_slash) = count_separators(string.as_cstr16().to_u16_slice());
        let Ok(mut places) = Vec::with_capacity(alloc, count.saturating_add(more)) else {
            return Err(string);
        };
        replace_slashes(&mut string, has_slash);
        add_places(&mut places, string.as_cstr16().to_u16_slice(), 0);
        Ok(PathBuf { string, places })
    }

    /// Pushes a path after this one, with its slashes replaced. If this path is not empty and does
    /// not end in a separator, adds a separator between the two. Returns `AllocError` if memory
    /// runs out, and leaves the path unchanged.
    ///
    /// Pushing the empty path changes nothing, does not allocate, and never fails. Pushing any
    /// other path allocates if the text or the list of separators has no room: once for the text,
    /// and for the separators as they come.
    ///
    /// ```rust
    /// let text = CString16::try_from_str(rt.alloc(), "efi/boot")?;
    /// let mut path = PathBuf::new(rt.alloc())?;
    /// path.push(Path::new(text.as_cstr16()))?;
    /// path.push(Path::new(text.as_cstr16()))?;
    /// assert_eq!(rt; format!(in rt.alloc(); "{path}")?.as_str(), r"efi\boot\efi\boot");
    /// ```
    pub fn push(&mut self, path: Path<'_>) -> Result<(), AllocError>
        ensures ok { OnOk result (self.new ≡ pushed self.old (path_text path.entry)) }
        ensures err { OnErr result (self.new ≡ self.old) }
        ensures empty { path_text path.entry ≡ [] → IsOk result }
    {
        self.push_counted(&mut CountedUnits::new(path.to_cstr16()))
    }

    /// Pushes a text as [`PathBuf::push`] pushes its path, and reads each of its units once: the
    /// count of reads rises by the number of units.
    ///
    /// If memory runs out, the count rises by at most that number. The call also reads the last
    /// character of this path, without counting it.
    ///
    /// ```rust
    /// let text = CString16::try_from_str(rt.alloc(), "efi/boot")?;
    /// let mut path = PathBuf::new(rt.alloc())?;
    /// path.push_counted(&mut CountedUnits::new(text.as_cstr16()))?;
    /// assert_eq!(rt; path.components().count(), 2);
    /// ```
    pub fn push_counted(&mut self, units: &mut CountedUnits<'_>) -> Result<(), AllocError>
        ensures ok { OnOk result (self.new ≡ pushed self.old (counted_text units.old)) }
        ensures err { OnErr result (self.new ≡ self.old) }
        ensures empty { counted_text units.old ≡ [] → IsOk result }
        ensures text { counted_text units.new ≡ counted_text units.old }
        ensures once { OnOk result (reads_of units.new
            ≡ reads_of units.old + length (counted_text units.old)) }
        ensures at_most { reads_of units.new ≤ reads_of units.old + length (counted_text units.old) }
    {
        if units.len() == 0 {
            return Ok(());
        }
        let (len, count) = (self.string.num_chars(), self.places.len());
        let done = self.push_all(units);
        if done.is_err() {
            self.cut_back(len, count);
        }
        done
    }

    /// Adds a separator, if one is missing, and the units of a text, each slash replaced. If memory
    /// runs out, a part of this may have been added.
    fn push_all(&mut self, units: &mut CountedUnits<'_>) -> Result<(), AllocError>
        ensures ok { OnOk result (self.new ≡ appended self.old (with_separators (counted_text units.old))) }
        ensures begins { take (length self.old) self.new ≡ self.old }
        ensures text { counted_text units.new ≡ counted_text units.old }
        ensures once { OnOk result (reads_of units.new
            ≡ reads_of units.old + length (counted_text units.old)) }
        ensures at_most { reads_of units.new ≤ reads_of units.old + length (counted_text units.old) }
    {
        let len = units.len();
        self.push_separator(len)?;
        let mut i = 0;
        while i < len {
            i = self.push_next(units, i)?;
        }
        Ok(())
    }

    /// Adds a separator, if one is missing, and reserves room for this many characters after it.
    #[inline(always)]
    fn push_separator(&mut self, len: usize) -> Result<(), AllocError>
        requires { len + 1 < 2 ^ 64 }
        ensures ok { OnOk result (self.new
            ≡ (if needs_separator self.old then self.old ++ separator ∷ [] else self.old)) }
        ensures err { OnErr result (self.new ≡ self.old) }
    {
        let is_missing = needs_separator(self.string.as_cstr16().to_u16_slice());
        self.string.reserve(len + usize::from(is_missing))?;
        if !is_missing {
            return Ok(());
        }
        add_block(&mut self.string, &mut self.places, [u16::from(SEPARATOR)])?;
        Ok(())
    }

    /// Adds the units of a text from an index on, as many as fit a block, and returns the index after them.
    #[inline(always)]
    fn push_next(&mut self, units: &mut CountedUnits<'_>, start: usize) -> Result<usize, AllocError>
        requires { start < length (counted_text units.now) }
        ensures { IsPushNext self.old self.new units.old units.new start result }
    {
        let left = units.len() - start;
        if 32 <= left {
            return self.push_block::<32>(units, start);
        }
        if 16 <= left {
            return self.push_block::<16>(units, start);
        }
        if 8 <= left {
            return self.push_block::<8>(units, start);
        }
        if 4 <= left {
            return self.push_block::<4>(units, start);
        }
        if 2 <= left {
            return self.push_block::<2>(units, start);
        }
        self.push_block::<1>(units, start)
    }

    /// Adds N units of a text from an index on, each slash replaced, and returns the index after them.
    #[inline(always)]
    fn push_block<const N: usize>(
        &mut self,
        units: &mut CountedUnits<'_>,
        start: usize,
    ) -> Result<usize, AllocError>
        requires is_text { IsText (counted_text units.now) }
        requires within { start + N ≤ length (counted_text units.now) }
        requires some { 0 < N }
        requires word { N ≤ 64 }
        ensures { IsPushNext self.old self.new units.old units.new start result }
    {
        let mut block = [0; N];
        copy_units(&mut block, units, start);
        add_block(&mut self.string, &mut self.places, block)?;
        Ok(start + N)
    }

    /// Keeps the first `len` characters, `count` of which are separators.
    fn cut_back(&mut self, len: usize, count: usize)
        requires { count ≡ length (places_of (take len self.now)) }
        ensures { self.new ≡ take len self.old }
    {
        self.string.truncate(len);
        self.places.truncate(count);
    }

    /// Returns this path with another pushed after it.
    fn with_pushed(mut self, path: Path<'_>) -> Result<Self, AllocError>
        ensures { IfOk result (λ joined. joined ≡ pushed self (path_text path.entry)) }
    {
        self.push(path)?;
        Ok(self)
    }

    /// Returns an equal path, with room for another after it.
    fn clone_with_room(&self, path: Path<'_>) -> Result<Self, AllocError>
        ensures { IfOk result (λ copy. copy ≡ self.now) }
    {
        let room = room_for_both(self.as_path(), path);
        let string = copy_string(self.alloc(), self.string.as_cstr16(), room)?;
        let (count, _) = count_separators(path.to_cstr16().to_u16_slice());
        let places = copy_places(self.alloc(), self.places.as_slice(), count)?;
        Ok(PathBuf { string, places })
    }

    /// Creates a path: this path with another pushed after it, as [`Path::join`] does, in memory of
    /// the same allocator.
    ///
    /// ```rust
    /// let text = CString16::try_from_str(rt.alloc(), r"\efi")?;
    /// let path = PathBuf::from(rt.alloc(), text.as_cstr16())?;
    /// let twice = path.join(path.as_path())?;
    /// assert_eq!(rt; format!(in rt.alloc(); "{twice}")?.as_str(), r"\efi\\efi");
    /// ```
    pub fn join(&self, path: Path<'_>) -> Result<Self, AllocError>
        ensures { IfOk result (λ joined. joined ≡ pushed self.now (path_text path.entry)) }
    {
        self.clone_with_room(path)?.with_pushed(path)
    }

    /// Creates the path without its last component, as [`Path::parent`] does, in memory of the same
    /// allocator. Uses the known indices of the separators. A parent of n components has n - 1
    /// successive parents, or none if n is 0.
    ///
    /// ```rust
    /// let text = CString16::try_from_str(rt.alloc(), r"\efi\boot")?;
    /// let parent = PathBuf::from(rt.alloc(), text.as_cstr16())?.parent()?;
    /// let wanted = CString16::try_from_str(rt.alloc(), "efi")?;
    /// assert_eq!(rt; parent.map(|it| it.into_cstring16()), Some(wanted));
    /// ```
    pub fn parent(&self) -> Result<Option<Self>, AllocError>
        ensures ok { IfOk result (λ parent. parent ≡ parent_text self.now) }
        ensures none { parent_text self.now ≡ None → IsOk result }
        ensures shorter { IfOk result (λ parent.
            IfSome parent (λ parent. length parent < length self.now)) }
        ensures successive { IfOk result (λ parent. parents_of self.now ≡ parent_chain parent) }
        ensures count { IfOk result (λ parent. IfSome parent (λ parent.
            length (parents_of parent) ≡ length (components_of parent) - 1)) }
    {
        // A clause of this call says how long the path can be.
        let _text = self.string.as_cstr16().as_slice();
        parent_of(self.alloc(), self.components())
    }

    /// Removes the last component and the separator before it, and returns whether it did. A path
    /// of at most one component is unchanged, because it has no parent. Neither allocates nor frees
    /// memory.
    ///
    /// ```rust
    /// let text = CString16::try_from_str(rt.alloc(), r"\efi\boot")?;
    /// let mut path = PathBuf::from(rt.alloc(), text.as_cstr16())?;
    /// assert!(rt; path.pop() && !path.pop());
    /// assert_eq!(rt; format!(in rt.alloc(); "{path}")?.as_str(), r"\efi");
    /// ```
    pub fn pop(&mut self) -> bool
        ensures removed { IsTrue result → IsPopped self.old self.new }
        ensures others { IsTrue result → canonical self.new
            ≡ pieces_joined.joined (all_but_last (components_of self.old)) }
        ensures some { IsTrue result ↔ (all_but_last (components_of self.old) ≢ []) }
        ensures none { result ≡ false → self.new ≡ self.old }
    {
        let Some(end) = others_end(self.string.as_cstr16().to_u16_slice()) else {
            return false;
        };
        let count = self.places.len().saturating_sub(1);
        self.cut_back(end, count);
        true
    }

    /// Returns the first characters of the path and a text after them, with each slash replaced.
    fn with_end(&self, len: usize, end: CStr16<'_>) -> Result<Self, AllocError>
        requires { len ≤ length self.now }
        ensures { IfOk result (λ path. path ≡ with_separators (take len self.now ++ text_of end.entry)) }
    {
        let front = self.string.as_cstr16().as_slice().part(0, len);
        let room = len.saturating_add(end.num_chars());
        let mut string = CString16::with_capacity(self.alloc(), room)?;
        string.push_part(front)?;
        string.push_str(end)?;
        PathBuf::from_string(self.alloc(), string)
    }

    /// Replaces the last component with a name, with each slash of the name replaced. If the path
    /// has no components, appends the name to its text. Returns `AllocError` if memory runs out,
    /// and leaves the path unchanged. Allocates as [`PathBuf::from`] does.
    ///
    /// ```rust
    /// let text = CString16::try_from_str(rt.alloc(), r"\efi\boot")?;
    /// let mut path = PathBuf::from(rt.alloc(), text.as_cstr16())?;
    /// path.set_file_name(CString16::try_from_str(rt.alloc(), "grub")?.as_cstr16())?;
    /// assert_eq!(rt; format!(in rt.alloc(); "{path}")?.as_str(), r"\efi\grub");
    /// ```
    pub fn set_file_name(&mut self, name: CStr16<'_>) -> Result<(), AllocError>
        ensures ok { OnOk result (IsRenamed self.old self.new (text_of name.entry)) }
        ensures err { OnErr result (self.new ≡ self.old) }
    {
        let start = name_start(self.string.as_cstr16().to_u16_slice());
        *self = self.with_end(start, name)?;
        Ok(())
    }

    /// Returns the first characters of the path, a dot and an extension, with each slash replaced;
    /// without the dot if the extension is empty.
    fn with_extension(&self, len: usize, extension: CStr16<'_>) -> Result<Self, AllocError>
        requires { len ≤ length self.now }
        ensures { IfOk result (λ path.
            path ≡ with_separators (take len self.now ++ dotted (text_of extension.entry))) }
    {
        if extension.is_empty() {
            return self.with_end(len, extension);
        }
        let mut end = CString16::with_capacity(
            self.alloc(),
            extension.num_chars().saturating_add(1),
        )?;
        end.push(Char16::try_from_char('.').unwrap())?;
        end.push_str(extension)?;
        self.with_end(len, end.as_cstr16())
    }

    /// Replaces the extension of the last component, with a dot before it and each slash replaced.
    /// An empty extension removes the old one. Returns whether there is a component. Returns
    /// `AllocError` if memory runs out, and leaves the path unchanged. Allocates as
    /// [`PathBuf::from`] does, and once for the extension, if it is not empty.
    ///
    /// ```rust
    /// let text = CString16::try_from_str(rt.alloc(), r"\efi\boot.bak")?;
    /// let mut path = PathBuf::from(rt.alloc(), text.as_cstr16())?;
    /// assert!(rt; path.set_extension(CString16::try_from_str(rt.alloc(), "efi")?.as_cstr16())?);
    /// assert_eq!(rt; format!(in rt.alloc(); "{path}")?.as_str(), r"\efi\boot.efi");
    /// ```
    pub fn set_extension(&mut self, extension: CStr16<'_>) -> Result<bool, AllocError>
        ensures ok { IfOk result (λ is_set.
            is_set ≡ true → IsExtended self.old self.new (text_of extension.entry)) }
        ensures none { IfOk result (λ is_set. is_set ≡ false → self.new ≡ self.old) }
        ensures some { IfOk result (λ is_set. IsTrue is_set ↔ (components_of self.old ≢ [])) }
        ensures no_memory { OnErr result (components_of self.old ≢ []) }
        ensures err { OnErr result (self.new ≡ self.old) }
    {
        let text = self.string.as_cstr16().as_slice();
        let Some(start) = last_component(text.units()) else {
            return Ok(false);
        };
        let name = text.part(start, text.len());
        *self = self.with_extension(start + stem_len(name), extension)?;
        Ok(true)
    }

    /// Makes the path empty. Neither allocates nor frees memory.
    ///
    /// ```rust
    /// let mut path = PathBuf::from(rt.alloc(), separator_str())?;
    /// path.clear();
    /// assert!(rt; path.is_empty());
    /// ```
    pub fn clear(&mut self)
        ensures { self.new ≡ [] }
    {
        self.string.clear();
        self.places.clear();
    }

    /// Borrows the path. Does not allocate.
    pub fn as_path(&self) -> Path<'_>
        ensures same { path_text result ≡ self.now }
        ensures plain { IsPlain self.now }
    {
        Path::new(self.string.as_cstr16())
    }

    /// Borrows the string of the path. Does not allocate.
    pub fn to_cstr16(&self) -> CStr16<'_>
        ensures same { text_of result ≡ self.now }
        ensures is_text { IsText (text_of result) }
    {
        self.string.as_cstr16()
    }

    /// Returns the string that the path owns. Does not allocate.
    ///
    /// ```rust
    /// let path = PathBuf::from(rt.alloc(), separator_str())?;
    /// assert!(rt; path.to_cstr16() == separator_str());
    /// assert!(rt; path.into_cstring16().as_cstr16() == separator_str());
    /// ```
    pub fn into_cstring16(self) -> CString16<A>
        ensures { result ≡ self }
    {
        let PathBuf { string, places: _ } = self;
        string
    }

    /// Returns whether the text is empty. A lone separator is not empty, although it equals the
    /// empty path.
    pub fn is_empty(&self) -> bool
        ensures { IsTrue result ↔ (self.now ≡ []) }
    {
        self.string.is_empty()
    }

    /// Returns the components, as [`Path::components`] does.
    pub fn components(&self) -> Components<'_>
        ensures same { components_left result ≡ components_of self.now }
        ensures components { AreComponents self.now (components_left result) }
        ensures only { (pieces : List (List ℕ)) →
            AreComponents self.now pieces → pieces ≡ components_left result }
        ensures texts { All IsText (components_left result) }
        ensures bound { length (components_left result) < 2 ^ 64 }
        ensures runs { GivesEach units_of components_left result }
        ensures no_nul { GivesNoNulIn result }
    {
        let places = self.places.as_slice();
        Components::of_canonical(self.string.as_cstr16(), self.canonical(places))
    }

    /// Returns the canonical text, with these indices of its separators. Reads no character.
    fn canonical<'a>(&'a self, places: &'a [usize]) -> Rest<'a>
        requires { places.now ≡ places_of self.now }
        ensures { uncut_units result ≡ canonical self.now }
    {
        let text = self.string.as_cstr16().as_slice();
        if !places.is_empty() && places[0] == 0 {
            return Rest::placed(text, 1, &places[1..]);
        }
        Rest::placed(text, 0, places)
    }

    /// Returns the last component, as [`Path::file_name`] does.
    pub fn file_name(&self) -> Option<Char16Slice<'_>>
        ensures same { option_map units_of result ≡ last_or None (components_of self.now) }
        ensures is_text { IfSome result (λ name. IsText (units_of name)) }
    {
        self.as_path().file_name()
    }

    /// Returns whether the components of this path begin with those of the base, as
    /// [`Path::starts_with`] does.
    pub fn starts_with(&self, base: Path<'_>) -> bool
        ensures { IsTrue result ↔ StartsWith self.now (path_text base.entry) }
    {
        self.strip_prefix(base).is_some()
    }

    /// Returns the components of this path after those of the base, as [`Path::strip_prefix`] does.
    pub fn strip_prefix(&self, base: Path<'_>) -> Option<Components<'_>>
        ensures starts { IsSome result ↔ StartsWith self.now (path_text base.entry) }
        ensures rest { IfSome result (λ rest.
            components_of self.now ≡ components_of (path_text base.entry) ++ components_left rest) }
        ensures texts { IfSome result (λ rest. All IsText (components_left rest)) }
        ensures bound { IfSome result (λ rest. length (components_left rest) < 2 ^ 64) }
        ensures runs { IfSome result (λ rest. GivesEach units_of components_left rest) }
        ensures no_nul { IfSome result (λ rest. GivesNoNulIn rest) }
    {
        self.components().strip(base.components())
    }
}

/// Copies the path, in memory of the same allocator. Allocates as [`PathBuf::from`] does.
impl<A: Allocator + Copy> Clone for PathBuf<A> {
    ghost is_clone = { λ path copy. copy ≡ path };

    fn clone(&self) -> Result<PathBuf<A>, AllocError> {
        Ok(PathBuf {
            string: self.string.as_cstr16().to_owned(self.alloc())?,
            places: self.places.as_slice().to_vec(self.alloc())?,
        })
    }
}

/// Compares paths as [`Path`] does.
impl<A: Allocator + Copy> PartialEq for PathBuf<A> {
    ghost eq = { λ a b. pointwise nat_eq (canonical a) (canonical b) };

    ghost laws = { on_per canonical (partial_equiv_from_equiv nat_list_eq_equiv) };

    fn eq(&self, other: &Self) -> bool {
        self.as_path() == other.as_path()
    }
}

impl<A: Allocator + Copy> Eq for PathBuf<A> {
    ghost laws = { on_texts_equal canonical };
}

/// Orders paths as [`Path`] does.
impl<A: Allocator + Copy> PartialOrd for PathBuf<A> {
    ghost partial_cmp = { as_partial_cmp (on canonical (slice_cmp nat_cmp)) };

    ghost laws = { on_po canonical texts_po };

    fn partial_cmp(&self, other: &Self) -> Option<Ordering> {
        Some(self.cmp(other))
    }
}

/// Returns `Equal` exactly for equal paths.
impl<A: Allocator + Copy> Ord for PathBuf<A> {
    ghost cmp = { on canonical (slice_cmp nat_cmp) };

    ghost total = { on_texts canonical };

    ghost matches_partial_cmp = { λ _ _. refl };

    ghost matches_eq = { λ a b. texts_ties (canonical a) (canonical b) };

    fn cmp(&self, other: &Self) -> Ordering {
        self.as_path().cmp(&other.as_path())
    }
}

/// Writes the characters of the text.
impl<A: Allocator + Copy> fmt::Display for PathBuf<A> {
    ghost output = { λ text. Some (encode_utf8_all text) };

    fn fmt<W: fmt::Write>(&self, f: &mut fmt::Formatter<W>) -> fmt::Result {
        fmt::Display::fmt(&self.string, f)
    }
}

/// Prints the string of the path.
impl<A: Allocator + Copy> fmt::Debug for PathBuf<A> {
    fn fmt<W: fmt::Write>(&self, f: &mut fmt::Formatter<W>) -> fmt::Result {
        f.debug_tuple("PathBuf").field(&self.to_cstr16()).finish()
    }
}
