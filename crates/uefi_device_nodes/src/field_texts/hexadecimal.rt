//! Numbers and bytes in hexadecimal, in upper case.
#![tactic(auto, using(uefi_text::proofs::Puts::puts), unfolding(crate::specs::FieldTexts::hex_four, crate::specs::FieldTexts::hex_bytes, crate::specs::FieldTexts::dashed_back, crate::specs::FieldTexts::comma_bytes))]

ghost use Rattle.std.specs.Fmt.{WritesInCalls};
ghost use Rattle.std.specs.Prelude.{◌≤◌, ◌++◌, codes, if◌then◌else◌, length};
ghost use Rattle.uefi_device_nodes.specs.FieldTexts.{comma_bytes, dashed_back, hex, hex_back, hex_bytes, hex_four, hex_two};

use uefi_text::number_texts::{digit, put_digits};
use uefi_text::text_sink::TextSink;

/// The number of bytes that are put as one text.
const BLOCK: usize = 32;

/// Puts a text, and then a number in hexadecimal.
pub fn put_hex<S: TextSink>(sink: &mut S, text: &str, n: u64)
    ensures { WritesInCalls S.puts sink.old (text.now ++ hex n) sink.new }
{
    sink.put_str(text);
    put_digits(sink, n, 16);
}

/// Puts the digits of up to 32 bytes as one text.
fn put_block<S: TextSink>(sink: &mut S, bytes: &[u8])
    requires { length bytes.now ≤ 32 }
    ensures { WritesInCalls S.puts sink.old (hex_bytes bytes.now) sink.new }
{
    let mut digits = [0; 2 * BLOCK];
    for place in 0..bytes.len() {
        digits[2 * place] = digit(u64::from(bytes[place] / 16), 16);
        digits[2 * place + 1] = digit(u64::from(bytes[place] % 16), 16);
    }
    // SAFETY: digits are ASCII, which is proved here as the condition of the call.
    sink.put_str(unsafe { str::from_utf8_unchecked(&digits[..2 * bytes.len()]) });
}

/// Puts the digits of up to 32 bytes as one text, from the last byte to the first.
fn put_block_back<S: TextSink>(sink: &mut S, bytes: &[u8])
    requires { length bytes.now ≤ 32 }
    ensures { WritesInCalls S.puts sink.old (hex_back bytes.now) sink.new }
{
    let mut turned = [0; BLOCK];
    for place in 0..bytes.len() {
        turned[place] = bytes[bytes.len() - 1 - place];
    }
    put_block(sink, &turned[..bytes.len()]);
}

/// Puts a byte as two digits.
pub(crate) fn put_two<S: TextSink>(sink: &mut S, byte: u8)
    ensures { WritesInCalls S.puts sink.old (hex_two byte) sink.new }
{
    put_block(sink, &[byte]);
}

/// Puts a number of two bytes as four digits.
pub fn put_word<S: TextSink>(sink: &mut S, word: u16)
    ensures { WritesInCalls S.puts sink.old (hex_four word) sink.new }
{
    put_block(sink, &[(word / 256) as u8, (word % 256) as u8]);
}

/// Puts a text, and then bytes in order, two digits each.
pub fn put_bytes<S: TextSink>(sink: &mut S, text: &str, bytes: &[u8])
    ensures { WritesInCalls S.puts sink.old (text.now ++ hex_bytes bytes.now) sink.new }
{
    sink.put_str(text);
    let mut rest = bytes;
    while BLOCK < rest.len() {
        let (block, after) = rest.split_at(BLOCK);
        put_block(sink, block);
        rest = after;
    }
    put_block(sink, rest);
}

/// Puts a text, and then the number that bytes encode with the low byte first, including its leading zeros.
pub fn put_back<S: TextSink>(sink: &mut S, text: &str, bytes: &[u8])
    ensures { WritesInCalls S.puts sink.old (text.now ++ hex_back bytes.now) sink.new }
{
    sink.put_str(text);
    let mut rest = bytes;
    while BLOCK < rest.len() {
        let (before, block) = rest.split_at(rest.len() - BLOCK);
        put_block_back(sink, block);
        rest = before;
    }
    put_block_back(sink, rest);
}

/// Puts a byte as two digits, after a dash unless it is the first.
fn put_dashed<S: TextSink>(sink: &mut S, byte: u8, is_first: bool)
    ensures { WritesInCalls S.puts sink.old
        (if is_first then hex_two byte else codes "-" ++ hex_two byte) sink.new }
{
    if is_first {
        put_two(sink, byte);
        return;
    }
    sink.put_str("-");
    put_two(sink, byte);
}

/// Puts an extended unique identifier, which is stored with its low byte first: its bytes from the last to
/// the first, two digits each, with dashes between them.
pub fn put_dashed_back<S: TextSink>(sink: &mut S, bytes: &[u8])
    ensures { WritesInCalls S.puts sink.old (dashed_back bytes.now) sink.new }
{
    for place in 0..bytes.len() {
        put_dashed(sink, bytes[bytes.len() - 1 - place], place == 0);
    }
}

/// Puts a comma and then bytes, as data at the end of a node, or nothing if there are no bytes.
pub fn put_comma_bytes<S: TextSink>(sink: &mut S, bytes: &[u8])
    ensures { WritesInCalls S.puts sink.old (comma_bytes bytes.now) sink.new }
{
    if !bytes.is_empty() {
        put_bytes(sink, ",", bytes);
    }
}
