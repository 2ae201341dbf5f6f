//! Whether a node that was read is completely described by its text.
#![tactic(auto)]

ghost use Rattle.std.specs.List.{list_all};
ghost use Rattle.std.specs.Prelude.{◌≡◌, ◌==◌, ◌&&◌, IsTrue, length, map};
ghost use Rattle.uefi_device_nodes.specs.Rows.{as_form, as_piece, is_within, value_at};
ghost use Rattle.uefi_device_nodes.specs.Words.{as_word};
ghost use Rattle.uefi_node_reader.specs.FieldReading.{field_kept};
ghost use Rattle.uefi_node_reader.specs.TableReading.{first_of, is_exact, is_filled, is_sound, overlay, put_at};
ghost use Rattle.uefi_node_reader.specs.CompleteTexts.{are_items, are_texts, tells, tells_fixed, tells_tail};
ghost use Rattle.uefi_node_reader.specs.ParsedNodeViews.{parsed_node};
ghost use Rattle.uefi_node_reader.specs.WordReading.{word_number};

use crate::counted_bytes::push_all;
use crate::exact::clear_texts::first_of;
use crate::exact::fields::put_low;
use crate::exact::parsed_node::ParsedNode;
use crate::exact::table_reader::{fixed_part, is_exact};
use crate::texts::Text;
use uefi_device_nodes::field_texts::ids::eisa_bits;
use uefi_device_nodes::node_table::printing::{form_of, number_of};
use uefi_device_nodes::node_table::rows::{Items, Piece, Row, Shape, Tail};
use uefi_device_nodes::node_table::word_lists::{suits, words_of};
use uefi_device_nodes::node_table::words::Word;

/// Returns the number that the word for a number is read as.
fn word_number(words: &[Word], number: u64) -> u64
    ensures { result ≡ word_number (map as_word words.now) number }
{
    for word in words {
        if suits(word, number) {
            return word.number as u64;
        }
    }
    number
}

/// Puts a field of a fixed part in its place, as it is read back from its text.
fn put_kept(piece: &Piece, fixed: &[u8], content: &mut [u8])
    requires within { IsTrue (is_within (length fixed.now) (as_piece piece.now)) }
    requires same { length content.old ≡ length fixed.now }
    ensures { content.new ≡ put_at (as_piece piece.now)
        (field_kept piece.now.shape (value_at (as_piece piece.now) fixed.now)) content.old }
{
    let from = piece.place as usize;
    let to = from + piece.width as usize;
    let value = &fixed[from..to];
    match piece.shape {
        Shape::Word(words) => {
            let number = word_number(words_of(words), number_of(value));
            put_low(&mut content[from..to], number);
        }
        Shape::Eisa => {
            let id = eisa_bits(number_of(value) as u32);
            put_low(&mut content[from..to], u64::from(id));
        }
        _ => {
            push_all(content, from, value);
        }
    }
}

/// Puts fields of a fixed part in their places, as they are read back from their texts.
fn put_all_kept(pieces: &[Piece], fixed: &[u8], content: &mut [u8])
    requires within { IsTrue (list_all (is_within (length fixed.now)) (map as_piece pieces.now)) }
    requires same { length content.old ≡ length fixed.now }
    ensures { content.new ≡ overlay (map as_piece pieces.now) fixed.now content.old }
{
    for piece in pieces {
        put_kept(piece, fixed, content);
    }
}

/// Returns whether a fixed part is read back unchanged from its text in a form.
fn tells_fixed(row: &Row, fixed: &[u8]) -> bool
    requires sound { IsTrue (is_sound (as_form row.now)) }
    requires filled { IsTrue (is_filled (as_form row.now)) }
    requires read { IsTrue (is_exact row.now.mode) }
    requires size { length fixed.now ≡ row.now.least }
    ensures { result ≡ tells_fixed (as_form row.now) fixed.now }
{
    let mut again = fixed_part(row);
    let content = &mut again[..row.least as usize];
    put_all_kept(row.pieces.as_slice(), fixed, content);
    put_all_kept(row.rest.as_slice(), fixed, content);
    &*content == fixed
}

/// Returns whether the data after the fields is a list of these items.
fn are_items(items: Items, tail: Tail) -> bool
    ensures { result ≡ are_items items tail }
{
    match (items, tail) {
        (Items::Numbers, Tail::Repeated(Items::Numbers)) => true,
        (Items::Ipv4, Tail::Repeated(Items::Ipv4)) => true,
        (Items::Ipv6, Tail::Repeated(Items::Ipv6)) => true,
        _ => false,
    }
}

/// Returns whether two tails are texts of the same kind.
fn are_texts(one: Tail, other: Tail) -> bool
    ensures { result ≡ are_texts one other }
{
    match (one, other) {
        (Tail::Text, Tail::Text) => true,
        (Tail::Utf16, Tail::Utf16) => true,
        (Tail::Name, Tail::Name) => true,
        (Tail::Padded, Tail::Padded) => true,
        (Tail::Ids, Tail::Ids) => true,
        _ => false,
    }
}

/// Returns whether two forms have fixed parts of the same length, and ends with the same first byte.
fn end_alike(read: &Row, row: &Row) -> bool
    ensures { result ≡ ((read.now.least == row.now.least)
        && (first_of (as_form read.now).close == first_of (as_form row.now).close)) }
{
    read.least == row.least && first_of(read.close.as_bytes()) == first_of(row.close.as_bytes())
}

/// Returns whether the tail of a form describes all data after the fixed part. The data has `len` bytes
/// with the fixed part, and was read in the form `read`.
fn tells_tail(read: &Row, row: &Row, len: usize) -> bool
    ensures { result ≡ tells_tail (as_form read.now) row.now.least row.now.tail (as_form row.now).close len }
{
    match row.tail {
        Tail::Nothing => len == row.least as usize,
        Tail::Bytes => true,
        Tail::Repeated(items) => are_items(items, read.tail) && read.least == row.least,
        tail => are_texts(tail, read.tail) && end_alike(read, row),
    }
}

/// Returns whether a node that was read in a form is completely described by its text.
#[tactic(auto, unfolding(crate::specs::CompleteTexts::tells))]
pub(crate) fn tells<T: Text>(read: &Row, node: &ParsedNode<T>) -> bool
    ensures { result ≡ tells (as_form read.now) (parsed_node node.now) }
{
    let (kind, sub_kind) = node.types();
    let head = node.head();
    let Some(row) = form_of(false, kind, sub_kind, head) else {
        return false;
    };
    if !is_exact(row.mode) {
        return false;
    }
    let len = node.data_len();
    tells_fixed(row, &head[..row.least as usize]) && tells_tail(read, row, len)
}
