//! Code units that are packed in bytes, as in the tables and device paths of firmware.
ghost use Rattle.std.specs.Prelude.{◌≡◌, ◌≢◌, ◌↔◌, ℕ, ◌+◌, ◌/◌, ◌%◌, ◌≤◌, ◌++◌, List, drop, length};
ghost use Rattle.uefi_device_nodes.specs.FieldTexts.{utf16_text};
ghost use Rattle.uefi_text.specs.PackedStrings.{SplitsUntilNul};
ghost use Rattle.uefi_text.specs.UnitBytes.{units_of_bytes};
ghost use Rattle.nardcorbel.specs.Outcomes.{Shows};
ghost use Rattle.nardcorbel.specs.Outcomes.Outcome.{Text};

use crate::outcomes::report_written;
use crate::reasons::{BUFFER_TOO_SMALL, NO_NUL, ODD_BYTES, OK};
use crate::utf8_buffers::write_utf8;
use uefi_device_nodes::field_texts::shown_texts::put_utf16_text;
use uefi_text::UnalignedSlice;
use uefi_text::text_sink::{Printed, TextSink};
use uefi_text::unaligned_slice::read_items;

/// Copies the code units that bytes encode, two bytes each, the low byte first, to the start of a
/// buffer. The bytes may begin at any address. No NUL is added.
///
/// An odd number of bytes is rejected as `ODD_BYTES`, and `len` is unchanged. Otherwise `len` becomes
/// the number of units, and a buffer of fewer places is rejected as `BUFFER_TOO_SMALL`. If the call
/// fails, the buffer is unchanged. Places after the units are never changed. Does not allocate.
#[unsafe(no_mangle)]
pub extern "C" fn nard_units_from_bytes(bytes: &[u8], buffer: &mut [u16], len: &mut usize) -> u32
    ensures ok { (result ≡ OK)
        ↔ ((length bytes.now % 2 ≡ 0) × (length bytes.now / 2 ≤ length buffer.old)) }
    ensures odd { (result ≡ ODD_BYTES) ↔ (length bytes.now % 2 ≢ 0) }
    ensures refusals { result ≢ OK → result ≢ ODD_BYTES → result ≡ BUFFER_TOO_SMALL }
    ensures buffer { result ≡ OK
        → buffer.new ≡ units_of_bytes bytes.now ++ drop (length bytes.now / 2) buffer.old }
    ensures unchanged { result ≢ OK → buffer.new ≡ buffer.old }
    ensures len { result ≢ ODD_BYTES → len.new ≡ length bytes.now / 2 }
    ensures no_len { result ≡ ODD_BYTES → len.new ≡ len.old }
{
    if bytes.len() % 2 != 0 {
        return ODD_BYTES;
    }
    let count = bytes.len() / 2;
    *len = count;
    if buffer.len() < count {
        return BUFFER_TOO_SMALL;
    }
    // `UnalignedSlice::copy_to` would need 8 KB of stack.
    read_items(bytes, &mut buffer[..count]);
    OK
}

/// Returns the length of the text before the first NUL in bytes that encode units, at any address.
/// The units may be surrogates. An odd byte at the end is ignored.
///
/// At `OK`, `len` becomes the number of units before the NUL. If there is no NUL, the call returns
/// `NO_NUL`, and `len` is unchanged. Does not allocate.
#[unsafe(no_mangle)]
pub extern "C" fn nard_packed_length(bytes: &[u8], len: &mut usize) -> u32
    ensures accepts { (result ≡ OK)
        ↔ ((units : List ℕ) × (rest : List ℕ) × SplitsUntilNul bytes.now units rest) }
    ensures len { (units : List ℕ) → (rest : List ℕ) → SplitsUntilNul bytes.now units rest
        → len.new + 1 ≡ length units }
    ensures none { result ≢ OK → (result ≡ NO_NUL) × (len.new ≡ len.old) }
{
    match UnalignedSlice::split_until_nul(bytes) {
        Some((units, _)) => {
            *len = units.len() - 1;
            OK
        }
        None => NO_NUL,
    }
}

/// A text in UTF-16, as bytes, of which control characters are escaped.
#[derive(Clone, Copy)]
struct EscapedText<'a> {
    bytes: &'a [u8],
}

impl<'a> Printed for EscapedText<'a> {
    ghost printed = { λ text. utf16_text text.bytes.now };

    fn put<S: TextSink>(&self, sink: &mut S) {
        put_utf16_text(sink, self.bytes);
    }
}

/// Writes the text that bytes encode in UTF-16, up to the first NUL, in UTF-8 and with a NUL, to the start
/// of a buffer, as the names in device paths are printed: each surrogate without a partner is U+FFFD, and
/// control characters and characters that change the direction of text are escaped, such as `\u{1B}`.
///
/// The bytes may begin at any address. An odd byte at the end is ignored. `len` becomes the number of bytes
/// of the text, without its NUL, at most `usize::MAX - 1`, and a buffer with at most that many places is
/// rejected as `BUFFER_TOO_SMALL`. If the call fails, the buffer is unchanged. Bytes after the NUL are never
/// changed. Does not allocate.
#[unsafe(no_mangle)]
pub extern "C" fn nard_packed_escape(bytes: &[u8], buffer: &mut [u8], len: &mut usize) -> u32
    ensures { (fault : ℕ) → Shows (Text (utf16_text bytes.now)) len.old fault buffer.old
        result len.new fault buffer.new }
{
    report_written(write_utf8(buffer, &EscapedText { bytes }), len)
}
