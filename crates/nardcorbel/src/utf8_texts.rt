//! Texts in UTF-8, as C programs hold them, and strings.
ghost use Rattle.std.specs.Prelude.{◌≡◌, ◌↔◌, ℕ, ◌+◌, ◌<◌, ◌++◌, drop, length, IsTrue, None};
ghost use Rattle.std.specs.List.{find, position_or_len};
ghost use Rattle.std.specs.Str.{IsUtf8, chars, encode_utf8_all};
ghost use Rattle.uefi_text.specs.EqStrUntilNul.{IsEqualUntilNul};
ghost use Rattle.uefi_text.specs.FromStr.{is_deciding_char};
ghost use Rattle.uefi_text.specs.Latin1.{IsLatin1};
ghost use Rattle.uefi_text.specs.Units.{BeginsWithString, IsText, nul_terminated};
ghost use Rattle.uefi_device_path.specs.LoadOptions.{lossy_utf8};
ghost use Rattle.nardcorbel.specs.Outcomes.{Shows, when_read};
ghost use Rattle.nardcorbel.specs.Outcomes.Outcome.{Text};
ghost use Rattle.nardcorbel.specs.Reading.{read_string, string_of_utf8};
ghost use Rattle.nardcorbel.specs.Reasons.{character_reason};
ghost use Rattle.nardcorbel.specs.Strings.{text_until_nul};

use crate::outcomes::{read_string, read_utf8, refuse, report, report_written};
use crate::reasons::{BUFFER_TOO_SMALL, INTERIOR_NUL, INVALID_CHAR, OK};
use crate::strings::until_nul;
use uefi_text::decode::write_lossy;
use uefi_text::{CStr16, EqStrUntilNul, is_latin1, text_len};

/// Does what [`judge_text`] does, character by character.
fn judge_chars(text: &str) -> (u32, usize)
    ensures reason { result.0 ≡ character_reason (find is_deciding_char (chars text.now)) }
    ensures place { result.1 ≡ position_or_len is_deciding_char (chars text.now) }
{
    let mut len = 0;
    for character in text.chars() {
        match character {
            '\0' => return (INTERIOR_NUL, len),
            '\u{1_0000}'.. => return (INVALID_CHAR, len),
            _ => len += 1,
        }
    }
    (OK, len)
}

/// The reason why a text is not a string, or `OK`; and the number of characters before the first that no
/// string can have, or of all characters if there is none. Decodes characters only to find that first one.
#[tactic(auto, using(crate::proofs::Judged::judged))]
fn judge_text(text: &str) -> (u32, usize)
    ensures reason { result.0 ≡ character_reason (find is_deciding_char (chars text.now)) }
    ensures place { result.1 ≡ position_or_len is_deciding_char (chars text.now) }
{
    match text_len(text) {
        Some(len) => (OK, len),
        None => judge_chars(text),
    }
}

/// Writes a text in UTF-8 as a string to the start of a buffer.
///
/// Bytes that are not UTF-8 are rejected as `NOT_UTF8`, and `fault` becomes the number of bytes
/// before the fault. Then a text is rejected for its first character that is NUL or above U+FFFF, as
/// `INTERIOR_NUL` or `INVALID_CHAR`, and `fault` becomes the number of characters before it.
/// Otherwise `len` becomes the length of the text, and a buffer with at most that many places is
/// rejected as `BUFFER_TOO_SMALL`. If the call fails, the buffer is unchanged. Units after the NUL
/// are never changed. Does not allocate.
#[unsafe(no_mangle)]
pub extern "C" fn nard_string_from_utf8(
    bytes: &[u8],
    buffer: &mut [u16],
    len: &mut usize,
    fault: &mut usize,
) -> u32
    ensures shows { Shows (string_of_utf8 bytes.now) len.old fault.old buffer.old
        result len.new fault.new buffer.new }
    ensures length { IsUtf8 bytes.now → IsText (chars bytes.now) → len.new ≡ length (chars bytes.now) }
{
    let text = match read_utf8(bytes) {
        Ok(text) => text,
        Err(refusal) => return refuse(refusal, len, fault),
    };
    let (reason, count) = judge_text(text);
    if reason != OK {
        *fault = count;
        return reason;
    }
    *len = count;
    if buffer.len() <= count {
        return BUFFER_TOO_SMALL;
    }
    write_judged(text, buffer)
}

/// Writes a text that was judged into a buffer that has room for it.
fn write_judged(text: &str, buffer: &mut [u16]) -> u32
    requires text { find is_deciding_char (chars text.now) ≡ None }
    requires room { length (chars text.now) < length buffer.old }
    ensures reason { result ≡ OK }
    ensures is_text { IsText (chars text.now) }
    ensures buffer { buffer.new ≡ nul_terminated (chars text.now)
        ++ drop (length (chars text.now) + 1) buffer.old }
{
    match CStr16::write_str(text, buffer) {
        Ok(_) => OK,
        Err(_) => BUFFER_TOO_SMALL,
    }
}

/// Returns whether the units begin with a string, the bytes are UTF-8, and the two count as equal
/// up to the first NUL: either the string's text or the text that the bytes encode before their
/// first NUL is a prefix of the other. Does not allocate.
#[unsafe(no_mangle)]
pub extern "C" fn nard_string_equal_until_nul(units: &[u16], bytes: &[u8]) -> bool
    ensures { IsTrue result ↔ (BeginsWithString units.now × IsUtf8 bytes.now
        × IsEqualUntilNul (text_until_nul units.now) (chars bytes.now)) }
{
    let Ok(string) = CStr16::from_u16_until_nul(units) else {
        return false;
    };
    match str::from_utf8(bytes) {
        Ok(text) => string.eq_str_until_nul(text),
        Err(_) => false,
    }
}

/// Returns whether the bytes are UTF-8, and each character that they encode is Latin-1. Does not
/// allocate.
#[unsafe(no_mangle)]
pub extern "C" fn nard_utf8_is_latin1(bytes: &[u8]) -> bool
    ensures { IsTrue result ↔ (IsUtf8 bytes.now × IsLatin1 (chars bytes.now)) }
{
    match str::from_utf8(bytes) {
        Ok(text) => is_latin1(text),
        Err(_) => false,
    }
}

/// Writes the text of the string at the start of units, in UTF-8 and with a NUL, to the start of
/// `bytes`.
///
/// Units that do not begin with a string are rejected as by `nard_string_length`, with its `fault`.
/// Otherwise `len` becomes the number of bytes of the text, at most `usize::MAX - 1`, and at most that
/// many places are rejected as `BUFFER_TOO_SMALL`. If the call fails, the bytes are unchanged. Bytes
/// after the NUL are never changed. Does not allocate.
#[unsafe(no_mangle)]
pub extern "C" fn nard_string_to_utf8(
    units: &[u16],
    buffer: &mut [u8],
    len: &mut usize,
    fault: &mut usize,
) -> u32
    ensures { Shows (when_read (read_string units.now) (λ text. Text (encode_utf8_all text)))
        len.old fault.old buffer.old result len.new fault.new buffer.new }
{
    match read_string(units) {
        Ok(string) => report(write_lossy(string.as_slice().units(), buffer), len, fault),
        Err(refusal) => refuse(refusal, len, fault),
    }
}

/// Writes a text in UTF-8 with a NUL to the start of `buffer`. The text is the units before the first
/// NUL, or all units if there is no NUL.
///
/// Each pair of surrogates is one character, and each surrogate without a partner becomes U+FFFD
/// (Unicode Standard, section 3.9), so no unit is rejected. `len` becomes the number of bytes of the
/// text, at most `usize::MAX - 1`, and at most that many places are rejected as `BUFFER_TOO_SMALL`. If
/// the call fails, the buffer is unchanged. Bytes after the NUL are never changed. Does not allocate.
#[unsafe(no_mangle)]
pub extern "C" fn nard_string_to_utf8_lossy(
    units: &[u16],
    buffer: &mut [u8],
    len: &mut usize,
) -> u32
    ensures { (fault : ℕ) → Shows (Text (lossy_utf8 (text_until_nul units.now))) len.old fault buffer.old
        result len.new fault buffer.new }
{
    report_written(write_lossy(until_nul(units), buffer), len)
}
