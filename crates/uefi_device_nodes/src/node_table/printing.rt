//! Nodes printed by the table.
#![tactic(auto, using(uefi_text::proofs::Puts::puts), unfolding(crate::specs::Table::has_form, crate::specs::Table::table_text))]

ghost use Rattle.std.specs.Fmt.{WritesInCalls};
ghost use Rattle.std.specs.List.{list_all};
ghost use Rattle.std.specs.Option.{option_map};
ghost use Rattle.std.specs.Prelude.{◌≡◌, ◌+◌, ◌^◌, ◌<◌, ◌≤◌, [], if◌then◌else◌, IsTrue, length, map, nat_le, slice_index, take};
ghost use Rattle.uefi_text.specs.Packed.{little_endian};
ghost use Rattle.uefi_device_nodes.specs.FieldTexts.{eisa_text, hex, shown_bytes, until_nul};
ghost use Rattle.uefi_device_nodes.specs.Fields.{default_text, field_text, fits_shape};
ghost use Rattle.uefi_device_nodes.specs.Rows.{as_form, as_item, as_piece, begin_with_kind, find_form, form_text, has_bytes, have_one_kind, is_laid_out, is_used, is_within, item_text, list_text, matches, piece_text, pieces_text, tail_text};
ghost use Rattle.uefi_device_nodes.specs.Table.{forms, has_form, table_text};

use crate::field_texts::hexadecimal::{put_back, put_bytes, put_comma_bytes, put_dashed_back};
use crate::field_texts::ids::{put_eisa_id, put_id_strings};
use crate::field_texts::shown_texts::{put_byte_text, put_utf16_text, until_nul};
use crate::node_table::rows::{Item, Mode, Piece, Row, Shape, Tail};
use crate::node_table::table::{GROUPS, group, item_of};
use crate::node_table::word_lists::{word_for, words_of};
use uefi_text::number_texts::put_digits;
use uefi_text::text_sink::TextSink;

/// Returns the number that bytes encode, the low byte first.
pub fn number_of(bytes: &[u8]) -> u64
    requires { length bytes.now ≤ 8 }
    ensures number { result ≡ little_endian bytes.now }
    ensures small { result < 256 ^ length bytes.now }
{
    let mut number = 0;
    for place in 0..bytes.len() {
        number = number * 256 + u64::from(bytes[bytes.len() - 1 - place]);
    }
    number
}

/// Puts a number in decimal, or `DEFAULT` for 0.
fn put_or_default<S: TextSink>(sink: &mut S, number: u64)
    ensures { WritesInCalls S.puts sink.old (default_text number) sink.new }
{
    if number == 0 {
        sink.put_str("DEFAULT");
        return;
    }
    put_digits(sink, number, 10);
}

/// Puts one more than the number of a byte, in hexadecimal.
fn put_next<S: TextSink>(sink: &mut S, bytes: &[u8])
    requires { length bytes.now ≡ 1 }
    ensures { WritesInCalls S.puts sink.old (hex (little_endian bytes.now + 1)) sink.new }
{
    put_digits(sink, number_of(bytes) + 1, 16);
}

/// Puts an EISA ID.
fn put_eisa<S: TextSink>(sink: &mut S, bytes: &[u8])
    requires { length bytes.now ≡ 4 }
    ensures { WritesInCalls S.puts sink.old (eisa_text (little_endian bytes.now)) sink.new }
{
    put_eisa_id(sink, "", number_of(bytes) as u32);
}

/// Puts the text of a field's bytes.
fn put_value<S: TextSink>(sink: &mut S, shape: Shape, bytes: &[u8])
    requires { IsTrue (fits_shape shape (length bytes.now)) }
    ensures { WritesInCalls S.puts sink.old (field_text shape bytes.now) sink.new }
{
    match shape {
        Shape::Hexadecimal => put_digits(sink, number_of(bytes), 16),
        Shape::Decimal => put_digits(sink, number_of(bytes), 10),
        Shape::OrDefault => put_or_default(sink, number_of(bytes)),
        Shape::Back => put_back(sink, "", bytes),
        Shape::Forth => put_bytes(sink, "", bytes),
        Shape::Dashed => put_dashed_back(sink, bytes),
        Shape::Next => put_next(sink, bytes),
        Shape::Eisa => put_eisa(sink, bytes),
        Shape::Word(words) => sink.put_str(word_for(words_of(words), number_of(bytes))),
    }
}

/// Puts a field and its ending.
fn put_piece<S: TextSink>(sink: &mut S, piece: &Piece, content: &[u8])
    requires { IsTrue (is_within (length content.now) (as_piece piece.now)) }
    ensures { WritesInCalls S.puts sink.old (piece_text content.now (as_piece piece.now)) sink.new }
{
    let place = usize::from(piece.place);
    let value = &content[place..place + usize::from(piece.width)];
    put_value(sink, piece.shape, value);
    sink.put_str(piece.ending.as_str());
}

/// Puts the fields of a form, with their endings.
fn put_pieces<S: TextSink>(sink: &mut S, pieces: &[Piece], content: &[u8])
    requires { IsTrue (list_all (is_within (length content.now)) (map as_piece pieces.now)) }
    ensures { WritesInCalls S.puts sink.old (pieces_text (map as_piece pieces.now) content.now) sink.new }
{
    for piece in pieces {
        put_piece(sink, piece, content);
    }
}

/// Puts an item of a list.
fn put_item<S: TextSink>(sink: &mut S, item: &Item, bytes: &[u8])
    requires { IsTrue (list_all (is_within (length bytes.now)) (as_item item.now).pieces) }
    ensures { WritesInCalls S.puts sink.old (item_text (as_item item.now) bytes.now) sink.new }
{
    sink.put_str(item.start.as_str());
    put_pieces(sink, item.pieces.as_slice(), bytes);
}

/// Puts the whole items of a list.
fn put_list<S: TextSink>(sink: &mut S, item: &Item, bytes: &[u8])
    requires some { 0 < item.now.size }
    requires laid_out { IsTrue (list_all (is_within item.now.size) (as_item item.now).pieces) }
    ensures { WritesInCalls S.puts sink.old (list_text (as_item item.now) bytes.now) sink.new }
{
    let mut rest = bytes;
    'items: for _ in 0..bytes.len() / item.size {
        let (first, others) = rest.split_at(item.size);
        put_item(sink, item, first);
        rest = others;
    }
}

/// Puts a text of bytes up to a NUL, from at most 32 bytes.
fn put_padded<S: TextSink>(sink: &mut S, bytes: &[u8])
    ensures { WritesInCalls S.puts sink.old (shown_bytes (until_nul (take 32 bytes.now))) sink.new }
{
    put_byte_text(sink, "", until_nul(&bytes[..bytes.len().min(32)]));
}

/// Puts the data after the fixed part.
fn put_tail<S: TextSink>(sink: &mut S, tail: Tail, bytes: &[u8])
    ensures { WritesInCalls S.puts sink.old (tail_text tail bytes.now) sink.new }
{
    match tail {
        Tail::Nothing => {}
        Tail::Bytes => put_comma_bytes(sink, bytes),
        Tail::Text => put_byte_text(sink, "", bytes),
        Tail::Utf16 => put_utf16_text(sink, bytes),
        Tail::Name => put_byte_text(sink, "", until_nul(bytes)),
        Tail::Padded => put_padded(sink, bytes),
        Tail::Ids => put_id_strings(sink, bytes),
        Tail::Repeated(items) => put_list(sink, &item_of(items), bytes),
    }
}

/// Puts the data of a node in a form.
fn put_row<S: TextSink>(sink: &mut S, row: &Row, content: &[u8])
    requires laid_out { IsTrue (is_laid_out (as_form row.now)) }
    requires long { row.now.least ≤ length content.now }
    ensures { WritesInCalls S.puts sink.old (form_text (as_form row.now) content.now) sink.new }
{
    sink.put_str(row.start.as_str());
    put_pieces(sink, row.pieces.as_slice(), content);
    put_tail(sink, row.tail, &content[usize::from(row.least)..]);
    sink.put_str(row.close.as_str());
    put_pieces(sink, row.rest.as_slice(), content);
}

/// Returns the byte at an index, or 0 after the last byte.
fn byte_at(content: &[u8], place: usize) -> u8
    ensures { result ≡ slice_index content.now place }
{
    if place < content.len() {
        return content[place];
    }
    0
}

/// Returns whether data contains these bytes.
fn has_bytes(bytes: &[(u8, u8)], content: &[u8]) -> bool
    ensures { result ≡ has_bytes bytes.now content.now }
{
    bytes.iter().all(|(place, byte)| byte_at(content, usize::from(*place)) == *byte)
}

/// Returns whether a form is used for a text.
fn is_used(mode: Mode, display_only: bool) -> bool
    ensures { result ≡ is_used display_only mode }
{
    match mode {
        Mode::Read => true,
        Mode::Printed => true,
        Mode::Display => display_only,
        Mode::Libefivar => false,
        Mode::People => false,
    }
}

/// Returns whether data of this length is long enough for a form.
fn is_long_enough(row: &Row, len: usize) -> bool
    ensures { result ≡ nat_le (row.now.least + row.now.more) len }
{
    usize::from(row.least) + usize::from(row.more) <= len
}

/// Returns whether a form can print a node.
pub fn matches(row: &Row, display_only: bool, kind: u8, sub_kind: u8, content: &[u8]) -> bool
    ensures { result ≡ matches display_only kind sub_kind content.now (as_form row.now) }
{
    let is_kind = row.kind == kind && row.sub_kind == sub_kind && is_used(row.mode, display_only);
    is_kind && is_long_enough(row, content.len()) && has_bytes(row.when.as_slice(), content)
}

/// Returns the first of these forms that can print a node.
fn find_row<'a>(
    rows: &'a [Row],
    display_only: bool,
    kind: u8,
    sub_kind: u8,
    content: &[u8],
) -> Option<&'a Row>
    ensures { option_map (λ row. as_form row.now) result
        ≡ find_form (matches display_only kind sub_kind content.now) (map as_form rows.now) }
{
    for row in rows {
        if matches(row, display_only, kind, sub_kind, content) {
            return Some(row);
        }
    }
    None
}

/// Returns whether the first of these forms is for nodes of a type.
pub fn begin_with_kind(rows: &[Row], kind: u8) -> bool
    ensures { result ≡ begin_with_kind kind (map as_form rows.now) }
{
    match rows {
        [first, ..] => first.kind == kind,
        [] => false,
    }
}

/// Returns what [`find_row`] returns, for forms that are all for nodes of one type. Tests no form if the
/// node has another type.
fn find_in_group<'a>(
    rows: &'a [Row],
    display_only: bool,
    kind: u8,
    sub_kind: u8,
    content: &[u8],
) -> Option<&'a Row>
    requires { IsTrue (have_one_kind (map as_form rows.now)) }
    ensures { option_map (λ row. as_form row.now) result
        ≡ find_form (matches display_only kind sub_kind content.now) (map as_form rows.now) }
{
    if !begin_with_kind(rows, kind) {
        return None;
    }
    find_row(rows, display_only, kind, sub_kind, content)
}

/// Returns the form of the table that a node is printed in.
pub fn form_of(display_only: bool, kind: u8, sub_kind: u8, content: &[u8]) -> Option<&'static Row>
    ensures { option_map (λ row. as_form row.now) result
        ≡ find_form (matches display_only kind sub_kind content.now) forms }
{
    for index in 0..GROUPS {
        if let Some(row) = find_in_group(group(index), display_only, kind, sub_kind, content) {
            return Some(row);
        }
    }
    None
}

/// Returns whether the table has a form for a node.
pub fn has_form(display_only: bool, kind: u8, sub_kind: u8, content: &[u8]) -> bool
    ensures { result ≡ has_form display_only kind sub_kind content.now }
{
    form_of(display_only, kind, sub_kind, content).is_some()
}

/// Puts a node in its form of the table, and returns whether it has one. Otherwise puts nothing.
pub fn put_form<S: TextSink>(
    sink: &mut S,
    display_only: bool,
    kind: u8,
    sub_kind: u8,
    content: &[u8],
) -> bool
    ensures found { result ≡ has_form display_only kind sub_kind content.now }
    ensures text { WritesInCalls S.puts sink.old
        (if result then table_text display_only kind sub_kind content.now else []) sink.new }
{
    match form_of(display_only, kind, sub_kind, content) {
        Some(row) => {
            put_row(sink, row, content);
            true
        }
        None => false,
    }
}
