//! The data of a node after its fixed part. The data is put into a buffer, and counted.
#![tactic(auto)]

ghost use Rattle.std.specs.List.{list_all};
ghost use Rattle.std.specs.Option.{option_and_then};
ghost use Rattle.std.specs.Prelude.{◌≡◌, ◌≤◌, ◌∷◌, [], IsTrue, length};
ghost use Rattle.std.proofs.Math.ListN.{replicate};
ghost use Rattle.uefi_device_nodes.specs.Rows.{as_item, is_within};
ghost use Rattle.uefi_node_reader.specs.ReadViews.{read_as};
ghost use Rattle.uefi_node_reader.specs.CountedBytes.{pushed_bytes, put_on};
ghost use Rattle.uefi_node_reader.specs.FieldReading.{clear_run, comma_read, run_read};
ghost use Rattle.uefi_node_reader.specs.TableReading.{as_ids, as_padded, ids_read, list_read, pieces_put, tail_read};

use crate::counted_bytes::{push, push_all};
use crate::exact::clear_texts::{
    cut_clear, first_of, past_clear, push_clear, push_clear_name, push_clear_units,
};
use crate::exact::fields::{after, byte};
use crate::exact::form_fields::exact_pieces;
use crate::texts::Text;
use uefi_device_nodes::node_table::rows::{Item, Tail};
use uefi_device_nodes::node_table::table::item_of;

/// Puts all bytes of two digits each at the start of a text after `len` others. Returns the new number of
/// bytes, and the rest of the text.
pub(crate) fn push_run<T: Text>(places: &mut [u8], len: usize, text: T) -> (usize, T)
    ensures state { (places.new, result.0) ≡ pushed_bytes (places.old, len) (run_read (T.bytes text)).0 }
    ensures rest { T.bytes result.1 ≡ (run_read (T.bytes text)).1 }
{
    let mut count = len;
    let mut rest = text;
    'bytes: while let Some((found, after_byte)) = byte(rest) {
        count = push(places, count, found);
        rest = after_byte;
    }
    (count, rest)
}

/// Puts the bytes after a comma, or nothing if the text begins with no comma.
fn push_comma_bytes<T: Text>(places: &mut [u8], len: usize, text: T) -> Option<(usize, T)>
    ensures { read_as (λ count. (places.new, count)) T.bytes result
        ≡ option_and_then (put_on (places.old, len)) (comma_read (T.bytes text)) }
{
    let Some((b',', digits)) = text.split_first() else {
        return Some((len, text));
    };
    byte(digits)?;
    Some(push_run(places, len, digits))
}

/// Puts an item of a list, whose fields are at the start of a text.
fn push_item<T: Text>(places: &mut [u8], len: usize, item: &Item, text: T) -> Option<(usize, T)>
    requires few { item.now.size ≤ 16 }
    requires laid_out { IsTrue (list_all (is_within item.now.size) (as_item item.now).pieces) }
    ensures { read_as (λ count. (places.new, count)) T.bytes result
        ≡ option_and_then (put_on (places.old, len))
        (pieces_put (as_item item.now).pieces (replicate item.now.size 0) (T.bytes text)) }
{
    let mut buffer = [0; 16];
    let bytes = &mut buffer[..item.size];
    let rest = exact_pieces(item.pieces.as_slice(), bytes, text)?;
    Some((push_all(places, len, bytes), rest))
}

/// Puts all items of a list at the start of a text.
fn push_items<T: Text>(places: &mut [u8], len: usize, item: &Item, text: T) -> Option<(usize, T)>
    requires few { item.now.size ≤ 16 }
    requires laid_out { IsTrue (list_all (is_within item.now.size) (as_item item.now).pieces) }
    ensures { read_as (λ count. (places.new, count)) T.bytes result
        ≡ option_and_then (put_on (places.old, len)) (list_read (as_item item.now) (T.bytes text)) }
{
    let mut count = len;
    let mut rest = text;
    'items: for _ in 0..text.len() {
        let Some(fields) = after(item.start.as_bytes(), rest) else {
            return Some((count, rest));
        };
        let (more, others) = push_item(places, count, item, fields)?;
        count = more;
        rest = others;
    }
    Some((count, rest))
}

/// Puts a text, padded with zeros to 32 bytes.
fn push_padded<T: Text>(places: &mut [u8], len: usize, stop: u8, text: T) -> Option<(usize, T)>
    ensures { read_as (λ count. (places.new, count)) T.bytes result
        ≡ option_and_then (put_on (places.old, len)) (as_padded (clear_run stop (T.bytes text))) }
{
    let spare = 32usize.checked_sub(cut_clear(stop, text).0.len())?;
    let (len, rest) = push_clear(places, len, stop, text);
    Some((push_all(places, len, &[0; 32][..spare]), rest))
}

/// Puts the ID strings that a text contains in the order of the node's data.
fn push_ids<T: Text>(places: &mut [u8], len: usize, stop: u8, text: T) -> Option<(usize, T)>
    ensures { read_as (λ count. (places.new, count)) T.bytes result
        ≡ option_and_then (put_on (places.old, len)) (ids_read stop (T.bytes text)) }
{
    let cid = after(b",", past_clear(b',', text))?;
    let uid = after(b",", past_clear(b',', cid))?;
    let (len, _) = push_clear_name(places, len, b',', text);
    let (len, rest) = push_clear_name(places, len, stop, uid);
    let (len, _) = push_clear_name(places, len, b',', cid);
    Some((len, rest))
}

/// Puts the ID strings of a device. The string of `_UID` is at the start of a text, and the others are
/// empty.
pub(crate) fn push_uid<T: Text>(places: &mut [u8], len: usize, stop: u8, text: T) -> usize
    ensures { (places.new, result)
        ≡ pushed_bytes (places.old, len) (as_ids [] [] (clear_run stop (T.bytes text)).0) }
{
    let len = push(places, len, 0);
    let (len, _) = push_clear_name(places, len, stop, text);
    push(places, len, 0)
}

/// Puts the data after the fixed part, which comes before `close` in a text, after `len` other bytes, as
/// far as there is room. Returns the new number of bytes, and the rest of the text.
pub(crate) fn push_tail<T: Text>(
    tail: Tail,
    close: &[u8],
    places: &mut [u8],
    len: usize,
    text: T,
) -> Option<(usize, T)>
    ensures { read_as (λ count. (places.new, count)) T.bytes result
        ≡ option_and_then (put_on (places.old, len)) (tail_read tail close.now (T.bytes text)) }
{
    match tail {
        Tail::Nothing => Some((len, text)),
        Tail::Bytes => push_comma_bytes(places, len, text),
        Tail::Text => Some(push_clear(places, len, first_of(close), text)),
        Tail::Utf16 => Some(push_clear_units(places, len, first_of(close), text)),
        Tail::Name => Some(push_clear_name(places, len, first_of(close), text)),
        Tail::Padded => push_padded(places, len, first_of(close), text),
        Tail::Ids => push_ids(places, len, first_of(close), text),
        Tail::Repeated(items) => push_items(places, len, &item_of(items), text),
    }
}
