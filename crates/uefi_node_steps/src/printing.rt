//! The steps of forms, printed.
#![tactic(auto, using(uefi_text::proofs::Puts::puts))]

ghost use Rattle.std.specs.Fmt.{WritesInCalls};
ghost use Rattle.std.specs.List.{list_all};
ghost use Rattle.std.specs.Prelude.{◌≡◌, ◌+◌, ◌^◌, ◌<◌, ◌≤◌, ◌++◌, [], IsTrue, codes, length, map, take};
ghost use Rattle.uefi_text.specs.Packed.{little_endian};
ghost use Rattle.uefi_device_nodes.specs.FieldTexts.{after_nul, eisa_text, id_strings_text, shown_bytes, until_nul};
ghost use Rattle.uefi_device_nodes.specs.Guids.{guid_text};
ghost use Rattle.uefi_node_steps.specs.Leaves.{decimal, ipv4, ipv6, suits, word_text, zero_text};
ghost use Rattle.uefi_node_steps.specs.Steps.{chunks, data_leaf, fits_shape, lists, no_list, shape_leaf, word_by};
ghost use Rattle.uefi_node_steps.specs.declared.steps.Shape.TheVariants.{Next};
ghost use Rattle.uefi_node_steps.specs.Printing.{code_step, code_steps, is_item_step, is_laid_step, is_printed_shape, items_text, step_text, steps_text};

use crate::items::item_of;
use crate::steps::{Encoding, Items, Layout, Shape, Step, StepOf};
use crate::words::{Word, words_of};
use uefi_device_nodes::field_texts::hexadecimal::{
    put_back, put_bytes, put_comma_bytes, put_dashed_back, put_hex,
};
use uefi_device_nodes::field_texts::ids::{put_eisa_id, put_id_strings};
use uefi_device_nodes::field_texts::shown_texts::{
    after_nul, put_byte_text, put_utf16_text, until_nul,
};
use uefi_text::number_texts::put_digits;
use uefi_text::text_sink::TextSink;

/// Returns the number that bytes encode, the low byte first.
pub(crate) fn number_of(bytes: &[u8]) -> u64
    requires { length bytes.now ≤ 8 }
    ensures number { result ≡ little_endian bytes.now }
    ensures small { result < 256 ^ length bytes.now }
{
    let mut number = 0;
    for place in 0..bytes.len() {
        number = number * 256 + u64::from(bytes[bytes.len() - 1 - place]);
    }
    number
}

/// Puts a number in decimal, or `DEFAULT` for 0.
fn put_or_default<S: TextSink>(sink: &mut S, number: u64)
    ensures { WritesInCalls S.puts sink.old (zero_text (codes "DEFAULT") number) sink.new }
{
    if number == 0 {
        sink.put_str("DEFAULT");
        return;
    }
    put_digits(sink, number, 10);
}

/// Puts one more than the number of a byte, in hexadecimal.
fn put_next<S: TextSink>(sink: &mut S, bytes: &[u8])
    requires { length bytes.now ≡ 1 }
    ensures { WritesInCalls S.puts sink.old ((shape_leaf Next 1).text bytes.now) sink.new }
{
    put_hex(sink, "0x", number_of(bytes) + 1);
}

/// Puts an EISA ID.
fn put_eisa<S: TextSink>(sink: &mut S, bytes: &[u8])
    requires { length bytes.now ≡ 4 }
    ensures { WritesInCalls S.puts sink.old (eisa_text (little_endian bytes.now)) sink.new }
{
    put_eisa_id(sink, "", number_of(bytes) as u32);
}

/// Puts a GUID.
#[tactic(auto, using(uefi_text::proofs::Puts::puts), unfolding(uefi_device_nodes::specs::Guids::guid_text))]
fn put_guid<S: TextSink>(sink: &mut S, bytes: &[u8])
    requires { length bytes.now ≡ 16 }
    ensures { WritesInCalls S.puts sink.old (guid_text bytes.now) sink.new }
{
    put_back(sink, "", &bytes[0..4]);
    put_back(sink, "-", &bytes[4..6]);
    put_back(sink, "-", &bytes[6..8]);
    put_bytes(sink, "-", &bytes[8..10]);
    put_bytes(sink, "-", &bytes[10..16]);
}

/// Puts a text, and then a byte in decimal.
fn put_octet<S: TextSink>(sink: &mut S, text: &str, bytes: &[u8])
    requires { length bytes.now ≡ 1 }
    ensures { WritesInCalls S.puts sink.old (text.now ++ (decimal 256).text
        (little_endian bytes.now)) sink.new }
{
    sink.put_str(text);
    put_digits(sink, number_of(bytes), 10);
}

/// Puts an address of IP version 4.
fn put_ipv4<S: TextSink>(sink: &mut S, bytes: &[u8])
    requires { length bytes.now ≡ 4 }
    ensures { WritesInCalls S.puts sink.old (ipv4.text bytes.now) sink.new }
{
    put_octet(sink, "", &bytes[0..1]);
    put_octet(sink, ".", &bytes[1..2]);
    put_octet(sink, ".", &bytes[2..3]);
    put_octet(sink, ".", &bytes[3..4]);
}

/// Puts an address of IP version 6.
fn put_ipv6<S: TextSink>(sink: &mut S, bytes: &[u8])
    requires { length bytes.now ≡ 16 }
    ensures { WritesInCalls S.puts sink.old (ipv6.text bytes.now) sink.new }
{
    put_bytes(sink, "", &bytes[0..2]);
    put_bytes(sink, ":", &bytes[2..4]);
    put_bytes(sink, ":", &bytes[4..6]);
    put_bytes(sink, ":", &bytes[6..8]);
    put_bytes(sink, ":", &bytes[8..10]);
    put_bytes(sink, ":", &bytes[10..12]);
    put_bytes(sink, ":", &bytes[12..14]);
    put_bytes(sink, ":", &bytes[14..16]);
}

/// Returns whether a word stands for a number.
pub(crate) fn suits(word: &Word, number: u64) -> bool
    ensures { result ≡ suits number (word_by (λ l. l.now) word.now) }
{
    word.mask == 0 || number & word.mask == word.number
}

/// Returns the word for a number, or an empty text if no word suits it.
fn word_for(words: &[Word], number: u64) -> &'static str
    ensures { result.now ≡ word_text (map (word_by (λ l. l.now)) words.now) number }
{
    for word in words {
        if suits(word, number) {
            return word.letters;
        }
    }
    ""
}

/// Puts the text of a field's bytes.
fn put_shape<S: TextSink>(sink: &mut S, shape: Shape, bytes: &[u8])
    requires fits { IsTrue (fits_shape shape (length bytes.now)) }
    requires printed { IsTrue (is_printed_shape shape) }
    ensures { WritesInCalls S.puts sink.old ((shape_leaf shape (length bytes.now)).text bytes.now) sink.new }
{
    match shape {
        Shape::Hexadecimal => put_hex(sink, "0x", number_of(bytes)),
        Shape::Marked => put_hex(sink, "0x", number_of(bytes)),
        Shape::Decimal => put_digits(sink, number_of(bytes), 10),
        Shape::OrDefault => put_or_default(sink, number_of(bytes)),
        Shape::Next => put_next(sink, bytes),
        Shape::Forth => put_bytes(sink, "", bytes),
        Shape::Back => put_back(sink, "", bytes),
        Shape::BaseForth => put_bytes(sink, "0x", bytes),
        Shape::BaseBack => put_back(sink, "0x", bytes),
        // Only people write bytes so, and no form that is printed has them.
        Shape::Apart(_) => {}
        Shape::Dashed => put_dashed_back(sink, bytes),
        Shape::Guid => put_guid(sink, bytes),
        Shape::Ipv4 => put_ipv4(sink, bytes),
        Shape::Ipv6 => put_ipv6(sink, bytes),
        Shape::Eisa => put_eisa(sink, bytes),
        Shape::Word(words) => sink.put_str(word_for(words_of(words), number_of(bytes))),
    }
}

/// Puts a text of bytes up to a NUL, from at most 32 bytes.
fn put_padded<S: TextSink>(sink: &mut S, bytes: &[u8])
    ensures { WritesInCalls S.puts sink.old (shown_bytes (until_nul (take 32 bytes.now))) sink.new }
{
    put_byte_text(sink, "", until_nul(&bytes[..bytes.len().min(32)]));
}

/// Puts a comma, and a text of bytes up to a NUL.
fn put_name_after_comma<S: TextSink>(sink: &mut S, bytes: &[u8])
    ensures { WritesInCalls S.puts sink.old (codes "," ++ shown_bytes (until_nul bytes.now)) sink.new }
{
    put_byte_text(sink, ",", until_nul(bytes));
}

/// Puts a comma, and the ID strings of a device that ACPI names.
fn put_ids_after_comma<S: TextSink>(sink: &mut S, bytes: &[u8])
    ensures { WritesInCalls S.puts sink.old (codes "," ++ id_strings_text bytes.now) sink.new }
{
    sink.put_str(",");
    put_id_strings(sink, bytes);
}

/// Puts the data after the fixed part.
fn put_data<S: TextSink>(sink: &mut S, encoding: Encoding, bytes: &[u8])
    ensures { WritesInCalls S.puts sink.old ((data_leaf encoding).text bytes.now) sink.new }
{
    match encoding {
        Encoding::Bytes => put_comma_bytes(sink, bytes),
        Encoding::Text(_) => put_byte_text(sink, "", bytes),
        Encoding::Utf16(_) => put_utf16_text(sink, bytes),
        Encoding::Name(_) => put_byte_text(sink, "", until_nul(bytes)),
        Encoding::NameAfterComma(_) => put_name_after_comma(sink, bytes),
        Encoding::Padded(_) => put_padded(sink, bytes),
        Encoding::Ids(_) => put_ids_after_comma(sink, bytes),
        Encoding::Uid(_) => put_name_after_comma(sink, after_nul(bytes)),
    }
}

/// Puts a literal or a field of a fixed part.
fn put_item_step<S: TextSink>(sink: &mut S, step: &Step, fixed: &[u8])
    requires { IsTrue (is_item_step (length fixed.now) (code_step step.now)) }
    ensures { WritesInCalls S.puts sink.old (step_text no_list (fixed.now, [])
        (code_step step.now)) sink.new }
{
    match step {
        StepOf::Literal(letters) => sink.put_str(letters),
        StepOf::Field(field) => {
            let end = field.place + field.width;
            put_shape(sink, field.shape, &fixed[field.place..end]);
        }
        StepOf::Data(_) => {}
        StepOf::Many(_) => {}
    }
}

/// Puts an item of a list.
fn put_item<S: TextSink>(sink: &mut S, steps: &[Step], fixed: &[u8])
    requires { IsTrue (list_all (is_item_step (length fixed.now)) (code_steps steps.now)) }
    ensures { WritesInCalls S.puts sink.old (steps_text no_list (fixed.now, [])
        (code_steps steps.now)) sink.new }
{
    for step in steps {
        put_item_step(sink, step, fixed);
    }
}

/// Puts the whole items of a list.
fn put_list<S: TextSink>(sink: &mut S, item: &Layout, bytes: &[u8])
    requires some { 0 < item.now.size }
    requires laid { IsTrue (list_all (is_item_step item.now.size) (code_steps item.now.steps.now)) }
    ensures { WritesInCalls S.puts sink.old
        (items_text (code_steps item.now.steps.now)
        (chunks item.now.size bytes.now)) sink.new }
{
    let mut rest = bytes;
    'items: for _ in 0..bytes.len() / item.size {
        let (first, others) = rest.split_at(item.size);
        put_item(sink, item.steps, first);
        rest = others;
    }
}

/// Puts the items of a list that a node's data contains.
fn put_items<S: TextSink>(sink: &mut S, items: Items, bytes: &[u8])
    ensures { WritesInCalls S.puts sink.old ((lists items).text bytes.now) sink.new }
{
    put_list(sink, &item_of(items), bytes);
}

/// Puts a step of a node's data: the fixed part, and the data after it.
fn put_step<S: TextSink>(sink: &mut S, step: &Step, fixed: &[u8], tail: &[u8])
    requires { IsTrue (is_laid_step (length fixed.now) (code_step step.now)) }
    ensures { WritesInCalls S.puts sink.old (step_text lists (fixed.now, tail.now)
        (code_step step.now)) sink.new }
{
    match step {
        StepOf::Literal(letters) => sink.put_str(letters),
        StepOf::Field(field) => {
            let end = field.place + field.width;
            put_shape(sink, field.shape, &fixed[field.place..end]);
        }
        StepOf::Data(encoding) => put_data(sink, *encoding, tail),
        StepOf::Many(items) => put_items(sink, *items, tail),
    }
}

/// Puts the steps of a form, from a node's data: the fixed part, and the data after it.
pub fn put_steps<S: TextSink>(sink: &mut S, steps: &[Step], fixed: &[u8], tail: &[u8])
    requires { IsTrue (list_all (is_laid_step (length fixed.now)) (code_steps steps.now)) }
    ensures { WritesInCalls S.puts sink.old (steps_text lists (fixed.now, tail.now)
        (code_steps steps.now)) sink.new }
{
    for step in steps {
        put_step(sink, step, fixed, tail);
    }
}
