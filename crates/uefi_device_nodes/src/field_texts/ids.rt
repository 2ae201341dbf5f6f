//! IDs of devices that ACPI names: EISA IDs, packed in four bytes, and strings.
#![tactic(auto, using(uefi_text::proofs::Puts::puts), unfolding(crate::specs::FieldTexts::eisa_text, crate::specs::FieldTexts::eisa_letter, crate::specs::FieldTexts::has_uid_alone, crate::specs::FieldTexts::id_strings_text))]

ghost use Rattle.std.specs.Fmt.{WritesInCalls};
ghost use Rattle.std.specs.Prelude.{◌≡◌, ◌++◌};
ghost use Rattle.uefi_device_nodes.specs.FieldTexts.{cid_string, eisa_bits, eisa_letter, eisa_text, has_uid_alone, hid_string, id_strings_text, uid_string};

use crate::field_texts::hexadecimal::put_word;
use crate::field_texts::shown_texts::{after_nul, put_byte_text, until_nul};
use uefi_text::text_sink::TextSink;

/// Puts the letter that the five low bits of a number encode.
fn put_letter<S: TextSink>(sink: &mut S, number: u32)
    ensures { WritesInCalls S.puts sink.old (eisa_letter number) sink.new }
{
    sink.put_char(char::from((number % 32) as u8 + b'@'));
}

/// Returns the bits of an EISA ID that its text shows: all except bit 15.
pub fn eisa_bits(id: u32) -> u32
    ensures { result ≡ eisa_bits id }
{
    id % 0x8000 + id / 0x1_0000 * 0x1_0000
}

/// Puts a text, and then an EISA ID, given as a number of four bytes: three letters of five bits each, and
/// four digits, such as `PNP0A03`. If all these bits are 0, the ID is `0` (UEFI Specification 2.10, section
/// 10.3.3; ACPI Specification, `EISAID`).
pub fn put_eisa_id<S: TextSink>(sink: &mut S, text: &str, id: u32)
    ensures { WritesInCalls S.puts sink.old (text.now ++ eisa_text id) sink.new }
{
    sink.put_str(text);
    if eisa_bits(id) == 0 {
        sink.put_str("0");
        return;
    }
    put_letter(sink, id / 1024);
    put_letter(sink, id / 32);
    put_letter(sink, id);
    put_word(sink, (id / 65536) as u16);
}

/// The strings of the IDs of a device.
#[derive(Drop)]
pub struct IdStrings<'a> {
    /// The string of `_HID`.
    pub hid: &'a [u8],
    /// The string of `_UID`.
    pub uid: &'a [u8],
    /// The string of `_CID`.
    pub cid: &'a [u8],
}

/// Returns the strings that bytes contain one after the other, each up to its NUL. Strings after the last
/// NUL are empty.
pub fn id_strings(bytes: &[u8]) -> IdStrings<'_>
    ensures hid { result.hid.now ≡ hid_string bytes.now }
    ensures uid { result.uid.now ≡ uid_string bytes.now }
    ensures cid { result.cid.now ≡ cid_string bytes.now }
{
    let after_hid = after_nul(bytes);
    IdStrings {
        hid: until_nul(bytes),
        uid: until_nul(after_hid),
        cid: until_nul(after_nul(after_hid)),
    }
}

/// Puts these strings in the order of the text: `_HID`, `_CID` and `_UID`, with commas between them.
pub fn put_id_strings<S: TextSink>(sink: &mut S, bytes: &[u8])
    ensures { WritesInCalls S.puts sink.old (id_strings_text bytes.now) sink.new }
{
    let strings = id_strings(bytes);
    put_byte_text(sink, "", strings.hid);
    put_byte_text(sink, ",", strings.cid);
    put_byte_text(sink, ",", strings.uid);
}

/// Returns whether a device has a string only for `_UID`.
pub fn has_uid_alone(bytes: &[u8]) -> bool
    ensures { result ≡ has_uid_alone bytes.now }
{
    let strings = id_strings(bytes);
    strings.hid.is_empty() && strings.cid.is_empty() && !strings.uid.is_empty()
}
