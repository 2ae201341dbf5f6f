//! Paths that are made in a caller's buffer: whole, or not at all. No call allocates.
ghost use Rattle.std.specs.Prelude.{◌≡◌, ℕ, ◌+◌, ◌-◌, ◌<◌, ◌≤◌, ◌^◌, [], ◌∷◌, ◌++◌, All, IfErr, List, Some, drop, if◌then◌else◌, length, max, nat_lt, take};
ghost use Rattle.uefi_path.specs.Components.{IsPiece, components_of, joined};
ghost use Rattle.uefi_path.specs.NormalForms.{normal_of, normal_text};
ghost use Rattle.uefi_path.specs.NamesLeft.{IsWalk, names_left};
ghost use Rattle.uefi_path.specs.Parents.{parent_of_components, parent_text};
ghost use Rattle.uefi_path.specs.Pushing.{needs_separator, pushed, tail_of};
ghost use Rattle.uefi_path.specs.Separators.{separator, with_separators};
ghost use Rattle.uefi_path.specs.Verdicts.{IsGood, verdict};
ghost use Rattle.uefi_path.specs.Views.{components_left, path_text};
ghost use Rattle.uefi_path.specs.Writing.{IsParentLen, IsSunk, normal_path, normal_written, path_written, written_over};
ghost use Rattle.uefi_text.specs.UnalignedCStr16.{with_prefix};
ghost use Rattle.uefi_text.specs.UnitTexts.{AreSunk, written_len};
ghost use Rattle.uefi_text.specs.Units.{IsText, nul_terminated};
ghost use Rattle.uefi_path.specs.PathErrors.{normal_write_error_text};

use crate::names::NamesFromLast;
use crate::path::Path;
use crate::path_units::{needs_separator, needs_separator_replaced};
use crate::splitting::components::Components;
use crate::splitting::slashed::judge_slashed;
use crate::validation::PathError;
use std::error::Error;
use std::fmt;
use uefi_text::BufferTooSmall;
use uefi_text::chars::{SEPARATOR, SLASH};
use uefi_text::number_texts::put_decimal;
use uefi_text::text_sink::{Printed, TextSink, print};
use uefi_text::unit_sink::{sink_replaced, sink_unit};

/// Adds a missing separator to a buffer that was given `len` units before, and returns the number
/// of units now.
fn sink_missing(buffer: &mut [u16], len: usize, is_missing: bool) -> usize
    ensures { (path old : List ℕ) → AreSunk path old buffer.old len →
        AreSunk (if is_missing then path ++ separator ∷ [] else path) old buffer.new result }
{
    if is_missing {
        return sink_unit(buffer, len, u16::from(SEPARATOR));
    }
    len
}

/// Adds units, each slash replaced.
fn sink_with_separators(buffer: &mut [u16], len: usize, units: &[u16]) -> usize
    ensures sunk { (path old : List ℕ) → AreSunk path old buffer.old len →
        AreSunk (path ++ with_separators units.now) old buffer.new result }
    ensures all { len ≡ 0 → length buffer.old ≡ length units.now → buffer.new ≡ with_separators units.now }
{
    sink_replaced(buffer, len, units, u16::from(SLASH), u16::from(SEPARATOR))
}

/// Adds a part of a path, with each slash replaced, after a separator if one is missing.
fn sink_part(buffer: &mut [u16], len: usize, is_missing: bool, part: &[u16]) -> usize
    ensures { (path old : List ℕ) → AreSunk path old buffer.old len →
        AreSunk (path ++ tail_of is_missing part.now) old buffer.new result }
{
    let start = sink_missing(buffer, len, is_missing);
    sink_with_separators(buffer, start, part)
}

/// Adds what a push of a path adds to a text, given whether the text needs a separator.
fn sink_pushed(buffer: &mut [u16], len: usize, needs: bool, path: &[u16]) -> usize
    ensures { (text old : List ℕ) → needs ≡ needs_separator text → AreSunk text old buffer.old len →
        AreSunk (pushed text path.now) old buffer.new result }
{
    if path.is_empty() {
        return len;
    }
    sink_part(buffer, len, needs, path)
}

/// Adds a path, each slash replaced, with another pushed on it.
fn sink_joined(buffer: &mut [u16], first: Path<'_>, path: Path<'_>) -> usize
    ensures { AreSunk (pushed (with_separators (path_text first.entry)) (path_text path.entry))
        buffer.old buffer.new result }
{
    let text = first.to_cstr16().to_u16_slice();
    let end = sink_part(buffer, 0, false, text);
    let needs = needs_separator_replaced(text);
    sink_pushed(buffer, end, needs, path.to_cstr16().to_u16_slice())
}

/// Adds the parent of a path of these components, each slash replaced, if it has one.
pub(crate) fn sink_parent(buffer: &mut [u16], mut components: Components<'_>) -> Option<usize>
    requires { All IsPiece (components_left components) }
    ensures { IsSunk (parent_of_components (components_left components.entry)) result buffer.old buffer.new }
{
    let mut last = components.next()?;
    if components.is_done() {
        return None;
    }
    let mut len = 0;
    let mut is_missing = false;
    for component in components {
        len = sink_part(buffer, len, is_missing, last.units());
        // No component holds a separator.
        is_missing = !last.is_empty();
        last = component;
    }
    Some(len)
}

/// Returns the number of units of the parent of a path of these components, if it has one.
pub(crate) fn parent_len(components: &Components<'_>) -> Option<usize>
    requires texts { All IsText (components_left components.now) }
    requires pieces { All IsPiece (components_left components.now) }
    requires bound { length (joined (components_left components.now)) < 2 ^ 64 }
    ensures { IsParentLen (components_left components.now) result }
{
    sink_parent(&mut [], components.copy())
}

/// Writes a separator before the text at the end of a buffer, if there is any, and returns the
/// index at which the text then begins.
fn write_separator_before(buffer: &mut [u16], start: usize) -> usize
    requires within { start ≤ length buffer.now }
    requires room { start < length buffer.now → 0 < start }
    ensures text { drop result buffer.new
        ≡ (if nat_lt start (length buffer.old) then separator ∷ drop start buffer.old else []) }
    ensures place { result ≡ (if nat_lt start (length buffer.old) then start - 1 else start) }
    ensures within { result ≤ length buffer.new }
    ensures same { length buffer.new ≡ length buffer.old }
{
    if start == buffer.len() {
        return start;
    }
    buffer[start - 1] = u16::from(SEPARATOR);
    start - 1
}

/// Writes a name, with each slash replaced, before the text at the end of a buffer.
fn write_name_before(buffer: &mut [u16], end: usize, name: &[u16])
    requires within { end ≤ length buffer.now }
    requires room { length name.now ≤ end }
    ensures text { drop (end - length name.now) buffer.new ≡ with_separators name.now ++ drop end buffer.old }
    ensures same { length buffer.new ≡ length buffer.old }
{
    // A name of a normal path has no slash, but a plain copy would be a call of the C library.
    sink_with_separators(&mut buffer[end - name.len()..end], 0, name);
}

/// Returns the number of units of joined names. Writes them into `places`, if there are as many
/// places.
pub(crate) fn write_names(places: &mut [u16], mut names: NamesFromLast<'_>) -> usize
    requires walk { IsWalk names }
    requires good { All IsGood (names_left names) }
    requires bound { length (joined (names_left names)) < 2 ^ 64 }
    ensures len { result ≡ length (joined (names_left names.entry)) }
    ensures places { length places.old ≡ length (joined (names_left names.entry))
        → places.new ≡ joined (names_left names.entry) }
{
    let mut len = 0;
    while let Some(name) = names.next() {
        // No name is empty, so there is a separator between this one and others.
        let all = len + (name.len() + usize::from(0 < len));
        if all <= places.len() {
            let end = write_separator_before(places, places.len() - len);
            write_name_before(places, end, name.units());
        }
        len = all;
    }
    len
}

/// Writes the normal path that names have, which are this many units when they are joined, and a NUL into as
/// many places.
pub(crate) fn write_string(units: &mut [u16], len: usize, names: NamesFromLast<'_>)
    requires walk { IsWalk names }
    requires good { All IsGood (names_left names) }
    requires len { len ≡ length (joined (names_left names)) }
    requires bound { len < 2 ^ 64 }
    requires room { length units.now ≡ max len 1 + 1 }
    ensures { units.new ≡ nul_terminated (normal_text (names_left names.entry)) }
{
    // If no name is left, the path is a lone separator.
    units[0] = u16::from(SEPARATOR);
    units[len.max(1)] = 0;
    let _len = write_names(&mut units[..len], names);
}

/// Pushes a path on the text in the first `end` units of a buffer, in the buffer, as
/// [`PathBuf::push`](crate::PathBuf::push) does, and writes a NUL after it. Fails only if the
/// buffer is too small, and then leaves it unchanged.
#[doc(hidden)]
pub fn push_in_buf(buffer: &mut [u16], end: usize, path: &[u16]) -> Result<usize, BufferTooSmall>
    requires { end ≤ length buffer.now }
    ensures len { result ≡ written_len (pushed (take end buffer.old) path.now) buffer.old }
    ensures buffer { buffer.new
        ≡ with_prefix (nul_terminated (pushed (take end buffer.old) path.now)) buffer.old }
{
    let needs = needs_separator(&buffer[..end]);
    let len = sink_pushed(&mut [], end, needs, path);
    if buffer.len() <= len {
        return Err(BufferTooSmall(len.saturating_add(1)));
    }
    sink_pushed(buffer, end, needs, path);
    buffer[len] = 0;
    Ok(len)
}

/// The reason why no normal path is written.
#[derive(Clone, Copy, Debug, PartialEq, Eq)]
pub enum NormalWriteError {
    /// The path is not valid, for this reason.
    Invalid(PathError),

    /// The path is valid. Its normal path and a NUL need this many places, and the buffer has fewer.
    BufferTooSmall(usize),
}

/// Puts the reason.
impl Printed for NormalWriteError {
    ghost printed = { normal_write_error_text };

    #[tactic(auto, using(uefi_text::proofs::Puts::puts))]
    fn put<S: TextSink>(&self, sink: &mut S) {
        match self {
            NormalWriteError::Invalid(error) => error.put(sink),
            NormalWriteError::BufferTooSmall(needed) => {
                put_decimal(
                    sink,
                    "buffer too small: the normal path needs ",
                    *needed as u64,
                );
                sink.put_str(" units");
            }
        }
    }
}

/// Prints the same text.
impl fmt::Display for NormalWriteError {
    ghost output = { λ error. Some (normal_write_error_text error) };

    fn fmt<W: fmt::Write>(&self, f: &mut fmt::Formatter<W>) -> fmt::Result {
        print(f, self)
    }
}

impl Error for NormalWriteError {}

/// Paths in a caller's buffer. Each call writes a NUL after the path and returns the length of the
/// path without it. The rest of the buffer is unchanged. A buffer that is too small is unchanged.
/// No call allocates.
impl<'a> Path<'a> {
    /// Writes the parent, which [`Path::parent`] makes, to the start of a buffer. If the path has
    /// at most one component, returns `Ok(None)` and leaves the buffer unchanged.
    ///
    /// ```rust
    /// let text = CString16::try_from_str(rt.alloc(), r"\efi\boot")?;
    /// let path = Path::new(text.as_cstr16());
    /// let mut buffer = [0xffff; 5];
    /// assert_eq!(rt; path.write_parent(&mut buffer), Ok(Some(3)));
    /// assert_eq!(rt; buffer, [0x65, 0x66, 0x69, 0, 0xffff]);
    /// assert_eq!(rt; path.write_parent(&mut buffer[..3]), Err(BufferTooSmall(4)));
    /// ```
    pub fn write_parent(&self, buffer: &mut [u16]) -> Result<Option<usize>, BufferTooSmall>
        ensures len { result ≡ path_written (parent_text (path_text self.now)) buffer.old }
        ensures buffer { buffer.new ≡ written_over (parent_text (path_text self.now)) buffer.old }
        ensures needs { (parent : List ℕ) → parent_text (path_text self.now) ≡ Some parent
            → IfErr result (λ error. error.0 ≡ length parent + 1) }
    {
        // A clause of this call says how long the path can be.
        let _text = self.to_cstr16().as_slice();
        let components = self.components();
        let Some(len) = parent_len(&components) else {
            return Ok(None);
        };
        if buffer.len() <= len {
            return Err(BufferTooSmall(len + 1));
        }
        sink_parent(buffer, components);
        buffer[len] = 0;
        Ok(Some(len))
    }

    /// Writes the normal path to the start of a buffer: the path that [`Path::normalize`] makes
    /// from this path once each slash is a separator.
    ///
    /// Fails with `Invalid` and the reason of [`validate_path`](crate::validate_path) if that path
    /// is not valid, and otherwise with `BufferTooSmall` if the buffer is too small.
    ///
    /// ```rust
    /// let text = CString16::try_from_str(rt.alloc(), "a/../b")?;
    /// let path = Path::new(text.as_cstr16());
    /// let mut buffer = [0xffff; 3];
    /// assert_eq!(rt; path.write_normal(&mut buffer), Ok(1));
    /// assert_eq!(rt; buffer, [0x62, 0, 0xffff]);
    /// assert_eq!(rt; path.write_normal(&mut []), Err(NormalWriteError::BufferTooSmall(2)));
    /// ```
    pub fn write_normal(&self, buffer: &mut [u16]) -> Result<usize, NormalWriteError>
        ensures len { result ≡ normal_written (verdict (with_separators (path_text self.now)))
            (normal_text (normal_of (components_of (with_separators (path_text self.now)))))
            buffer.old }
        ensures buffer { buffer.new
            ≡ written_over (normal_path (with_separators (path_text self.now))) buffer.old }
        ensures needs { (normal : List ℕ) → normal_path (with_separators (path_text self.now)) ≡ Some normal
            → IfErr result (λ error. error ≡ NormalWriteError.BufferTooSmall (length normal + 1)) }
    {
        if let Err(error) = judge_slashed(*self) {
            return Err(NormalWriteError::Invalid(error));
        }
        let names = NamesFromLast::of(*self);
        let len = write_names(&mut [], names);
        let end = len.max(1);
        if buffer.len() <= end {
            return Err(NormalWriteError::BufferTooSmall(end + 1));
        }
        write_string(&mut buffer[..end + 1], len, names);
        Ok(end)
    }

    /// Writes this path with another pushed on it, which [`Path::join`] makes, to the start of a buffer.
    ///
    /// ```rust
    /// let text = CString16::try_from_str(rt.alloc(), "a/b")?;
    /// let path = Path::new(text.as_cstr16());
    /// let mut buffer = [0xffff; 8];
    /// assert_eq!(rt; path.write_joined(path, &mut buffer), Ok(7));
    /// assert_eq!(rt; buffer, [0x61, 0x5c, 0x62, 0x5c, 0x61, 0x5c, 0x62, 0]);
    /// assert_eq!(rt; path.write_joined(path, &mut buffer[..7]), Err(BufferTooSmall(8)));
    /// ```
    pub fn write_joined(&self, path: Path<'_>, buffer: &mut [u16]) -> Result<usize, BufferTooSmall>
        ensures len { result
            ≡ written_len (pushed (with_separators (path_text self.now)) (path_text path.entry)) buffer.old }
        ensures buffer { buffer.new ≡ with_prefix (nul_terminated
            (pushed (with_separators (path_text self.now)) (path_text path.entry))) buffer.old }
    {
        let len = sink_joined(&mut [], *self, path);
        if buffer.len() <= len {
            return Err(BufferTooSmall(len.saturating_add(1)));
        }
        sink_joined(buffer, *self, path);
        buffer[len] = 0;
        Ok(len)
    }
}
