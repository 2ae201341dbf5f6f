//! Texts that are written to a caller's buffer as UTF-8.
#![tactic(auto, using(uefi_text::proofs::Puts::puts))]

ghost use Rattle.std.specs.Prelude.{◌≡◌, ℕ, ◌++◌, ◌+◌, ◌-◌, ◌≤◌, [], List, length, min, take};
ghost use Rattle.std.specs.Str.{IsUtf8};
ghost use Rattle.uefi_text.specs.UnalignedCStr16.{with_prefix};
ghost use Rattle.uefi_text.specs.UnitTexts.{AreSunk, written_len};
ghost use Rattle.uefi_text.specs.Units.{nul_terminated};

use uefi_text::BufferTooSmall;
use uefi_text::text_sink::{Printed, TextSink};

/// Returns from where to where a buffer that was given `len` bytes before takes `count` more, as many as
/// fit.
fn places_of_part(room: usize, len: usize, count: usize) -> (usize, usize)
    ensures start { result.0 ≡ min len room }
    ensures end { result.1 ≡ result.0 + min count (room - result.0) }
{
    let start = len.min(room);
    (start, start + count.min(room - start))
}

/// Adds bytes to a buffer that was given `len` bytes before. Writes as many as fit, and returns the
/// number of bytes now, or `usize::MAX` if there are more.
fn sink_bytes(buffer: &mut [u8], len: usize, bytes: &[u8]) -> usize
    ensures { (before old : List ℕ) → AreSunk before old buffer.old len →
        AreSunk (before ++ bytes.now) old buffer.new result }
{
    let (start, end) = places_of_part(buffer.len(), len, bytes.len());
    buffer[start..end].copy_from_slice(&bytes[..end - start]);
    len.saturating_add(bytes.len())
}

/// A buffer, and how many bytes were written to it, whether it has room for them or not.
#[derive(Drop)]
struct ByteSink<'b> {
    buffer: &'b mut [u8],
    len: usize,
}

impl<'b> ByteSink<'b> {
    /// Returns a sink for the buffer, before any byte.
    fn of(buffer: &'b mut [u8]) -> Self
        ensures same_reference { result.buffer.ghost_name ≡ buffer.entry.ghost_name }
        ensures none { AreSunk [] buffer.old result.buffer.now result.len }
    {
        ByteSink { buffer, len: 0 }
    }
}

/// Adds the bytes of each text.
impl<'b> TextSink for ByteSink<'b> {
    ghost puts = { λ old text new. (new.buffer.ghost_name ≡ old.buffer.ghost_name)
        × ((before start : List ℕ) → AreSunk before start old.buffer.now old.len →
        AreSunk (before ++ text) start new.buffer.now new.len) };

    fn put_str(&mut self, text: &str) {
        self.len = sink_bytes(self.buffer, self.len, text.as_bytes());
    }

    fn put_char(&mut self, character: char) {
        let mut bytes = [0; 4];
        let text = character.encode_utf8(&mut bytes);
        self.len = sink_bytes(self.buffer, self.len, text.as_bytes());
    }
}

/// Adds the text of a value.
fn put_text<P: Printed>(sink: &mut ByteSink<'_>, value: &P)
    ensures same_reference { sink.new.buffer.ghost_name ≡ sink.old.buffer.ghost_name }
    ensures sunk { (start : List ℕ) → AreSunk [] start sink.old.buffer.now sink.old.len →
        AreSunk (P.printed value.now) start sink.new.buffer.now sink.new.len }
{
    value.put(sink);
}

/// Writes the text of a value to a buffer, as many bytes as fit, and counts all of them.
fn fill_bytes<P: Printed>(buffer: &mut [u8], value: &P) -> usize
    ensures { AreSunk (P.printed value.now) buffer.old buffer.new result }
{
    let mut sink = ByteSink::of(buffer);
    put_text(&mut sink, value);
    sink.len
}

/// Writes the text of a value to the start of a buffer as UTF-8, with a NUL after it, and returns the
/// length of the text without the NUL. The rest of the buffer is unchanged, and so is all of it if it
/// is too small.
pub(crate) fn write_utf8<P: Printed>(buffer: &mut [u8], value: &P) -> Result<usize, BufferTooSmall>
    ensures len { result ≡ written_len (P.printed value.now) buffer.old }
    ensures buffer { buffer.new ≡ with_prefix (nul_terminated (P.printed value.now)) buffer.old }
{
    let len = fill_bytes(&mut [], value);
    if buffer.len() <= len {
        return Err(BufferTooSmall(len.saturating_add(1)));
    }
    fill_bytes(buffer, value);
    buffer[len] = 0;
    Ok(len)
}
