//! Texts of nodes, printed without characters that a terminal obeys.
#![tactic(auto, using(uefi_text::proofs::Puts::puts), unfolding(crate::specs::FieldTexts::shown_byte, crate::specs::FieldTexts::shown_bytes, crate::specs::FieldTexts::shown_char, crate::specs::FieldTexts::shown_units, crate::specs::FieldTexts::utf16_text))]

ghost use Rattle.std.specs.Fmt.{WritesInCalls};
ghost use Rattle.std.specs.List.{list_all, position_or_len};
ghost use Rattle.std.specs.Char.Utf16.{utf16_lossy_chars};
ghost use Rattle.std.specs.Option.{unwrap_or};
ghost use Rattle.std.specs.Prelude.{◌≡◌, ℕ, ◌+◌, ◌<◌, ◌≤◌, ◌∷◌, ◌++◌, ◌&&◌, List, drop, length, slice_index, take, true};
ghost use Rattle.uefi_device_nodes.specs.FieldTexts.{after_nul, is_escaped, shown_byte, shown_bytes, shown_char, shown_units, until_nul, utf16_text};
ghost use Rattle.uefi_device_nodes.specs.ShownFields.{is_printable};
ghost use Rattle.uefi_text.specs.UnitBytes.{units_of_bytes};
ghost use Rattle.uefi_text.specs.Units.{is_nul};
ghost use Rattle.uefi_text.specs.Views.{items_of};

use crate::field_texts::hexadecimal::{put_hex, put_two};
use uefi_text::UnalignedSlice;
use uefi_text::decode::lossy_char;
use uefi_text::scan::find_zero;
use uefi_text::text_sink::TextSink;

/// Returns the index of the first zero among bytes, or the number of bytes if none is zero.
fn nul_place(bytes: &[u8]) -> usize
    ensures place { result ≡ position_or_len is_nul bytes.now }
    ensures within { result ≤ length bytes.now }
{
    find_zero(bytes).unwrap_or(bytes.len())
}

/// The number of characters of printable ASCII that are put as one text.
const RUN: usize = 64;

/// Returns whether a character is printable ASCII, which every text prints unchanged.
fn is_printable(character: u16) -> bool
    ensures { result ≡ is_printable character }
{
    0x20 <= character && character < 0x7f
}

/// Returns the bytes before the first zero, or all bytes if none is zero.
pub fn until_nul(bytes: &[u8]) -> &[u8]
    ensures { result.now ≡ until_nul bytes.now }
{
    &bytes[..nul_place(bytes)]
}

/// Returns the bytes after the first zero, or no bytes if none is zero.
pub fn after_nul(bytes: &[u8]) -> &[u8]
    ensures { result.now ≡ after_nul bytes.now }
{
    let place = nul_place(bytes);
    if place == bytes.len() {
        return &bytes[place..];
    }
    &bytes[place + 1..]
}

/// Puts a byte of a text, escaped unless it is printable ASCII.
fn put_byte<S: TextSink>(sink: &mut S, byte: u8)
    ensures { WritesInCalls S.puts sink.old (shown_byte byte) sink.new }
{
    if is_printable(u16::from(byte)) {
        sink.put_char(char::from(byte));
        return;
    }
    sink.put_str("\\x");
    put_two(sink, byte);
}

/// Returns the number of bytes of printable ASCII at the start.
fn printable_len(bytes: &[u8]) -> usize
    ensures within { result ≤ length bytes.now }
    ensures printable { list_all is_printable (take result bytes.now) ≡ true }
{
    let mut len = 0;
    while len < bytes.len() && is_printable(u16::from(bytes[len])) {
        len += 1;
    }
    len
}

/// Puts the printable ASCII at the start of bytes as one text, and returns the bytes after it.
fn put_printable<'a, S: TextSink>(sink: &mut S, bytes: &'a [u8]) -> &'a [u8]
    ensures { (run : List ℕ) × (run ++ result.now ≡ bytes.now)
        × WritesInCalls S.puts sink.old (shown_bytes run) sink.new }
{
    let (run, rest) = bytes.split_at(printable_len(bytes));
    // SAFETY: the run is ASCII, which is proved here as the condition of the call.
    sink.put_str(unsafe { str::from_utf8_unchecked(run) });
    rest
}

/// Puts a text, and then bytes as a text, such as a URI: printable ASCII unchanged, and any other byte as
/// `\x` and two digits.
pub fn put_byte_text<S: TextSink>(sink: &mut S, text: &str, bytes: &[u8])
    ensures { WritesInCalls S.puts sink.old (text.now ++ shown_bytes bytes.now) sink.new }
{
    sink.put_str(text);
    let mut rest = put_printable(sink, bytes);
    'rest: while let [first, after @ ..] = rest {
        put_byte(sink, *first);
        rest = put_printable(sink, after);
    }
}

/// Returns whether texts escape a character: a control character, or a character that changes the direction
/// of a text or ends its line (U+061C, U+200E, U+200F, U+2028 to U+202E and U+2066 to U+2069). A text with
/// one of these could mislead its reader.
///
/// ```rust
/// assert!(rt; is_escaped('\n') && is_escaped('\u{202e}'));
/// assert!(rt; !is_escaped('é') && !is_escaped('\\'));
/// ```
pub fn is_escaped(character: char) -> bool
    ensures { result ≡ is_escaped character }
{
    matches!(
        character,
        '\0'..='\u{1f}'
            | '\u{7f}'..='\u{9f}'
            | '\u{61c}'
            | '\u{200e}'..='\u{200f}'
            | '\u{2028}'..='\u{202e}'
            | '\u{2066}'..='\u{2069}'
    )
}

/// Puts a character of a text, escaped if [`is_escaped`] holds.
fn put_shown<S: TextSink>(sink: &mut S, character: char)
    ensures { WritesInCalls S.puts sink.old (shown_char character) sink.new }
{
    if is_escaped(character) {
        put_hex(sink, "\\u{", u64::from(character as u32));
        sink.put_str("}");
        return;
    }
    sink.put_char(character);
}

/// Returns the unit at an index, or NUL after the last unit.
fn unit_at(units: &UnalignedSlice<'_, u16>, place: usize) -> u16
    ensures { result ≡ slice_index (items_of units.now) place }
{
    if place >= units.len() {
        return 0;
    }
    units.get(place).unwrap()
}

/// Returns the index of the first NUL among units, or the number of units if none is NUL.
fn nul_unit(units: &UnalignedSlice<'_, u16>) -> usize
    ensures place { result ≡ position_or_len is_nul (items_of units.now) }
    ensures within { result ≤ length (items_of units.now) }
{
    for place in 0..units.len() {
        if unit_at(units, place) == 0 {
            return place;
        }
    }
    units.len()
}

/// Returns the code units that bytes encode, up to the first NUL, or all units if none is NUL.
fn name_units(bytes: &[u8]) -> UnalignedSlice<'_, u16>
    ensures { items_of result ≡ until_nul (units_of_bytes bytes.now) }
{
    let units = UnalignedSlice::<u16>::new(bytes, bytes.len() / 2);
    let len = nul_unit(&units);
    UnalignedSlice::new(bytes, len)
}

/// Returns the character at an index of units, and the number of its units.
fn char_at(units: &UnalignedSlice<'_, u16>, place: usize) -> (char, usize)
    requires { place < length (items_of units.now) }
    ensures first { utf16_lossy_chars (drop place (items_of units.now))
        ≡ result.0 ∷ utf16_lossy_chars (drop (place + result.1) (items_of units.now)) }
    ensures some { 0 < result.1 }
    ensures within { place + result.1 ≤ length (items_of units.now) }
{
    let _len = units.len();
    lossy_char(unit_at(units, place), unit_at(units, place + 1))
}

/// Puts the printable ASCII at an index of units as one text, at most [`RUN`] units, and returns the number
/// of units.
fn put_run<S: TextSink>(sink: &mut S, units: &UnalignedSlice<'_, u16>, place: usize) -> usize
    requires { place ≤ length (items_of units.now) }
    ensures within { place + result ≤ length (items_of units.now) }
    ensures printable { list_all is_printable (take result (drop place (items_of units.now))) ≡ true }
    ensures text { WritesInCalls S.puts sink.old (take result (drop place (items_of units.now))) sink.new }
{
    // Other characters skip the array of a run.
    if !is_printable(unit_at(units, place)) {
        return 0;
    }
    let most = RUN.min(units.len() - place);
    let mut run = [0; RUN];
    let mut len = 0;
    while len < most && is_printable(unit_at(units, place + len)) {
        run[len] = unit_at(units, place + len) as u8;
        len += 1;
    }
    // SAFETY: the run is ASCII, which is proved here as the condition of the call.
    sink.put_str(unsafe { str::from_utf8_unchecked(&run[..len]) });
    len
}

/// Puts the printable ASCII at an index of units, or else the character there, and returns the number of
/// units.
fn put_part<S: TextSink>(sink: &mut S, units: &UnalignedSlice<'_, u16>, place: usize) -> usize
    requires { place < length (items_of units.now) }
    ensures some { 0 < result }
    ensures within { place + result ≤ length (items_of units.now) }
    ensures text { (text : List ℕ) × WritesInCalls S.puts sink.old text sink.new
        × (text ++ shown_units (drop (place + result) (items_of units.now))
        ≡ shown_units (drop place (items_of units.now))) }
{
    let len = put_run(sink, units, place);
    if len != 0 {
        return len;
    }
    let (character, count) = char_at(units, place);
    put_shown(sink, character);
    count
}

/// Puts the text that bytes encode in UTF-16, the low byte of each unit first, such as the name of a file:
/// the characters up to the first NUL, or all characters if there is no NUL. It puts U+FFFD for each
/// unpaired surrogate (Unicode Standard, section 3.9), and `\u{HEX}` for each character for which
/// [`is_escaped`] holds.
pub fn put_utf16_text<S: TextSink>(sink: &mut S, bytes: &[u8])
    ensures { WritesInCalls S.puts sink.old (utf16_text bytes.now) sink.new }
{
    let units = name_units(bytes);
    let mut place = 0;
    while place < units.len() {
        place += put_part(sink, &units, place);
    }
}
