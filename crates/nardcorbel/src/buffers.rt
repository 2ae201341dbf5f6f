//! Paths that are made in a caller's buffer: whole, or not at all. No call allocates.
ghost use Rattle.std.specs.Prelude.{◌≡◌, ◌+◌, ◌*◌, ◌≤◌, ℕ, IfErr, IfOk, List, Err, Ok, Some, length, take};
ghost use Rattle.std.specs.Str.{IsUtf8, chars};
ghost use Rattle.uefi_text.specs.Units.{IsText};
ghost use Rattle.uefi_path.specs.Parents.{parent_text};
ghost use Rattle.uefi_path.specs.Pushing.{pushed};
ghost use Rattle.uefi_path.specs.Separators.{with_separators};
ghost use Rattle.uefi_path.specs.Verdicts.{IsValid, verdict};
ghost use Rattle.uefi_path.specs.Writing.{normal_path};
ghost use Rattle.nardcorbel.specs.Buffers.{HasStringIn, first_half, normalized, parent_or_none, second_half, unless_beyond};
ghost use Rattle.nardcorbel.specs.Outcomes.{Shows, when_read, buffer_shown};
ghost use Rattle.nardcorbel.specs.Outcomes.Outcome.{Text};
ghost use Rattle.nardcorbel.specs.Reading.{read_string, read_chars, string_of_utf8};
ghost use Rattle.nardcorbel.specs.Reasons.{refused_character};
ghost use Rattle.nardcorbel.specs.declared.outcomes.Refusal.{Refusal};

use crate::outcomes::{Refusal, read_string, refuse, refuse_room, report};
use crate::reasons::{BUFFER_TOO_SMALL, INVALID_CHAR, NO_PARENT, OK, path_reason};
use crate::utf8_texts::nard_string_from_utf8;
use uefi_path::{NormalWriteError, Path, laws, push_in_buf};
use uefi_text::BufferTooSmall;
use uefi_text::scan::find_deciding_place;

/// Returns the text of units, which must not contain a surrogate.
#[tactic(auto, unfolding(crate::specs::Reading::read_chars))]
fn read_text(units: &[u16]) -> Result<&[u16], Refusal>
    ensures ok { IfOk result (λ text. read_chars units.now ≡ Ok text.now) }
    ensures err { IfErr result (λ refusal. read_chars units.now ≡ Err refusal) }
{
    let Some(place) = find_deciding_place(units) else {
        return Ok(units);
    };
    if units[place] != 0 {
        return Err(Refusal::at(INVALID_CHAR, place));
    }
    Ok(&units[..place])
}

/// Pushes a path onto the path in the first `path_len` units of a buffer, as `PathBuf::push` does.
/// Slashes of the second path are replaced. If the first path is not empty and does not end in a
/// separator, the call adds one between the two. The empty path changes nothing.
///
/// The buffer's units are not checked. A second path that contains a surrogate is rejected as
/// `INVALID_CHAR`, and `fault` becomes its index. A `path_len` beyond the buffer is rejected as
/// `BUFFER_TOO_SMALL`, and `len` is unchanged. Otherwise `len` becomes the length of the path in units,
/// at most `usize::MAX - 1`, and a buffer with at most that many places is rejected as
/// `BUFFER_TOO_SMALL`. If the call fails, the buffer is unchanged. Units after the NUL are never
/// changed. Does not allocate.
#[unsafe(no_mangle)]
pub extern "C" fn nard_path_push(
    buffer: &mut [u16],
    path_len: usize,
    path: &[u16],
    len: &mut usize,
    fault: &mut usize,
) -> u32
    ensures { Shows (when_read (read_chars path.now) (λ other.
        unless_beyond path_len buffer.old (Text (pushed (take path_len buffer.old) other))))
        len.old fault.old buffer.old result len.new fault.new buffer.new }
{
    let path = match read_text(path) {
        Ok(text) => text,
        Err(refusal) => return refuse(refusal, len, fault),
    };
    if buffer.len() < path_len {
        return BUFFER_TOO_SMALL;
    }
    report(push_in_buf(buffer, path_len, path), len, fault)
}

/// Writes the path of a string with another path pushed after it, as `Path::join` does, and a NUL
/// to the start of a buffer. Slashes are replaced.
///
/// Units that do not begin with a string are rejected as by `nard_string_length`, `path` first.
/// Otherwise `len` and a buffer that is too small are as in [`nard_path_push`]. If the call fails,
/// the buffer is unchanged. Units after the NUL are never changed. Does not allocate.
#[unsafe(no_mangle)]
pub extern "C" fn nard_path_join(
    path: &[u16],
    other: &[u16],
    buffer: &mut [u16],
    len: &mut usize,
    fault: &mut usize,
) -> u32
    ensures { Shows (when_read (read_string path.now) (λ text. when_read (read_string other.now) (λ added.
        Text (pushed (with_separators text) added))))
        len.old fault.old buffer.old result len.new fault.new buffer.new }
{
    let path = match read_string(path) {
        Ok(string) => Path::new(string),
        Err(refusal) => return refuse(refusal, len, fault),
    };
    let other = match read_string(other) {
        Ok(string) => Path::new(string),
        Err(refusal) => return refuse(refusal, len, fault),
    };
    report(path.write_joined(other, buffer), len, fault)
}

/// Writes the parent of a string's path, as `Path::parent` makes it, and a NUL to the start of a
/// buffer.
///
/// Units that do not begin with a string are rejected as by `nard_string_length`. A path of at most
/// one component is rejected as `NO_PARENT`. Otherwise `len` becomes the length of the parent in
/// units, and a buffer with at most that many places is rejected as `BUFFER_TOO_SMALL`. If the call
/// fails, the buffer is unchanged. Units after the NUL are never changed. Does not allocate.
#[unsafe(no_mangle)]
pub extern "C" fn nard_path_parent(
    path: &[u16],
    buffer: &mut [u16],
    len: &mut usize,
    fault: &mut usize,
) -> u32
    ensures shows { Shows (when_read (read_string path.now) (λ text. parent_or_none (parent_text text)))
        len.old fault.old buffer.old result len.new fault.new buffer.new }
    ensures length { (text parent : List ℕ) → read_string path.now ≡ Ok text
        → parent_text text ≡ Some parent → len.new ≡ length parent }
{
    let path = match read_string(path) {
        Ok(string) => Path::new(string),
        Err(refusal) => return refuse(refusal, len, fault),
    };
    match path.write_parent(buffer) {
        Ok(Some(length)) => report::<BufferTooSmall>(Ok(length), len, fault),
        Ok(None) => NO_PARENT,
        Err(error) => refuse(error, len, fault),
    }
}

/// Writes the normal path of a string's path, as `Path::write_normal` makes it, and a NUL to the
/// start of a buffer. Slashes count as separators.
///
/// Units that do not begin with a string are rejected as by `nard_string_length`. A path that is not
/// valid is rejected as `nard_path_check` rejects the path with its slashes replaced, with the same
/// `character`; `len` and `fault` are unchanged. Otherwise `len` becomes the number of units of the
/// normal path, and a buffer with at most that many places is rejected as `BUFFER_TOO_SMALL`. If the
/// call fails, the buffer is unchanged. Units after the NUL are never changed. `character` becomes 0
/// unless a character is not allowed. Does not allocate.
#[unsafe(no_mangle)]
pub extern "C" fn nard_path_normalize_utf16(
    path: &[u16],
    buffer: &mut [u16],
    len: &mut usize,
    fault: &mut usize,
    character: &mut u16,
) -> u32
    ensures path { Shows (when_read (read_string path.now) normalized)
        len.old fault.old buffer.old result len.new fault.new buffer.new }
    ensures length { (text normal : List ℕ) → read_string path.now ≡ Ok text
        → normal_path (with_separators text) ≡ Some normal → len.new ≡ length normal }
    ensures no_character { (refusal : Refusal) → read_string path.now ≡ Err refusal → character.new ≡ 0 }
    ensures character { (text : List ℕ) → read_string path.now ≡ Ok text
        → character.new ≡ refused_character (verdict (with_separators text)) }
{
    *character = 0;
    let string = match read_string(path) {
        Ok(string) => string,
        Err(refusal) => return refuse(refusal, len, fault),
    };
    match Path::new(string).write_normal(buffer) {
        Ok(length) => report::<BufferTooSmall>(Ok(length), len, fault),
        Err(NormalWriteError::Invalid(error)) => {
            let (reason, refused) = path_reason(error);
            *character = refused;
            refuse(Refusal::of(reason), len, fault)
        }
        Err(NormalWriteError::BufferTooSmall(needed)) => refuse_room(needed, len, fault),
    }
}

/// Writes the normal path of a path in UTF-8, and a NUL, to the start of a buffer, by two calls.
/// `nard_string_from_utf8` writes the path as a string into the second half of the buffer, which
/// has one place more if the number of places is odd. [`nard_path_normalize_utf16`] then makes the normal
/// path from that string in the first half.
///
/// Each call fails in its half as it does in a buffer. Twice as many places as bytes, and two more,
/// are enough for any path. `character` becomes 0 unless a character is not allowed. Does not
/// allocate.
#[unsafe(no_mangle)]
pub extern "C" fn nard_path_normalize(
    bytes: &[u8],
    buffer: &mut [u16],
    len: &mut usize,
    fault: &mut usize,
    character: &mut u16,
) -> u32
    ensures string { second_half buffer.new
        ≡ buffer_shown (string_of_utf8 bytes.now) (second_half buffer.old) }
    ensures refused { ¬ HasStringIn bytes.now (second_half buffer.old)
        → Shows (string_of_utf8 bytes.now) len.old fault.old (second_half buffer.old)
        result len.new fault.new (second_half buffer.new)
        × (character.new ≡ 0) × (buffer.new ≡ buffer.old) }
    ensures path { HasStringIn bytes.now (second_half buffer.old)
        → Shows (normalized (chars bytes.now)) len.old fault.old (first_half buffer.old)
        result len.new fault.new (first_half buffer.new) }
    ensures length { (normal : List ℕ) → HasStringIn bytes.now (second_half buffer.old)
        → normal_path (with_separators (chars bytes.now)) ≡ Some normal → len.new ≡ length normal }
    ensures character { HasStringIn bytes.now (second_half buffer.old)
        → character.new ≡ refused_character (verdict (with_separators (chars bytes.now))) }
    ensures enough { 2 * length bytes.now + 2 ≤ length buffer.old → IsUtf8 bytes.now
        → IsText (chars bytes.now)
        → IsValid (with_separators (chars bytes.now)) → result ≡ OK }
{
    *character = 0;
    let (first, second) = buffer.split_at_mut(buffer.len() / 2);
    let mut string_len = *len;
    let mut string_fault = *fault;
    let reason = nard_string_from_utf8(bytes, second, &mut string_len, &mut string_fault);
    if reason != OK {
        *len = string_len;
        *fault = string_fault;
        return reason;
    }
    nard_path_normalize_utf16(second, first, len, fault, character)
}
