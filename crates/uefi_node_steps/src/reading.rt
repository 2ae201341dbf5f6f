//! The steps of forms, read.
#![tactic(auto)]

ghost use Rattle.std.specs.List.{list_all};
ghost use Rattle.std.specs.Prelude.{◌≡◌, ◌++◌, [], IsTrue, codes, length};
ghost use Rattle.std.proofs.Math.ListN.{replicate};
ghost use Rattle.uefi_text.specs.UnitBytes.{unit_bytes};
ghost use Rattle.uefi_node_steps.specs.Leaves.{after, after_first, bytes_after_comma, clear_run, has_pair, ids_text, is_clear, many, name_text, padded_text, pair, uid_text};
ghost use Rattle.uefi_node_steps.specs.Printing.{code_step, code_steps};
ghost use Rattle.uefi_node_steps.specs.Steps.{data_leaf, field_leaf, fits_shape, is_flat, is_sound_step, item_leaf, item_of, lists, no_list};
ghost use Rattle.uefi_node_steps.specs.Views.{after_these, filled_with, step_in, steps_in};

use crate::fields::read_shape;
use crate::items::item_of;
use crate::leaves::{
    at_digits, has_comma, has_digit, is_spare, letters, literal, pair, past_blanks, stop_at,
};
use crate::steps::{Encoding, Expected, Field, Items, Step, StepOf, Stop};
use crate::texts::{Sink, Text};

/// Fills a buffer with copies of a byte.
fn put_spare(found: &mut [u8], spare: u8)
    ensures { found.new ≡ replicate (length found.old) spare }
{
    found.fill(spare);
}

/// Fills a buffer with the bytes of a field, or with its spare byte where people leave it out.
fn read_field<T: Text>(field: &Field, found: &mut [u8], text: T) -> Result<T, Stop>
    requires fits { IsTrue (fits_shape field.now.shape (length found.old)) }
    requires width { length found.old ≡ field.now.width }
    ensures { filled_with T.codes found.new result ≡ (field_leaf field.now).read (T.codes text) }
{
    if let Some(spare) = field.spare {
        if is_spare(b",", past_blanks(text)) {
            put_spare(found, spare);
            return Ok(text);
        }
    }
    read_shape(field.shape, found, text)
}

/// Returns whether a letter is printable, and not `stop`.
fn is_clear(stop: u8, letter: u8) -> bool
    ensures { result ≡ is_clear stop letter }
{
    (0x20..0x7f).contains(&letter) && letter != stop
}

/// Puts the letters before the first that is `stop` or not printable, and returns the rest of the text.
fn read_clear<T: Text, S: Sink>(stop: u8, tail: &mut S, text: T) -> T
    ensures content { S.content tail.new ≡ S.content tail.old ++ (clear_run stop (T.codes text)).0 }
    ensures rest { T.codes result ≡ (clear_run stop (T.codes text)).1 }
{
    let mut rest = text;
    'letters: while let Some((first, others)) = rest.split_first() {
        if !is_clear(stop, first) {
            return rest;
        }
        tail.put(first);
        rest = others;
    }
    rest
}

/// Puts the same letters in units of UTF-16.
fn read_units<T: Text, S: Sink>(stop: u8, tail: &mut S, text: T) -> T
    ensures content { S.content tail.new
        ≡ S.content tail.old ++ unit_bytes (clear_run stop (T.codes text)).0 }
    ensures rest { T.codes result ≡ (clear_run stop (T.codes text)).1 }
{
    let mut rest = text;
    'letters: while let Some((first, others)) = rest.split_first() {
        if !is_clear(stop, first) {
            return rest;
        }
        tail.put(first);
        tail.put(0);
        rest = others;
    }
    rest
}

/// Puts all bytes of two digits each at the start of a text.
fn read_pairs<T: Text, S: Sink>(tail: &mut S, text: T) -> Result<T, Stop>
    ensures { filled_with T.codes (S.content tail.new) result
        ≡ after_these (S.content tail.old) ((many has_pair pair).read (T.codes text)) }
{
    let mut rest = text;
    'pairs: for _ in 0..text.len() {
        if !has_digit(16, rest) {
            return Ok(rest);
        }
        let (byte, others) = pair(rest)?;
        tail.put(byte);
        rest = others;
    }
    Ok(rest)
}

/// Returns a text after its first letter.
fn after_first<T: Text>(text: T) -> T
    ensures { T.codes result ≡ after_first (T.codes text) }
{
    match text.split_first() {
        Some((_, rest)) => rest,
        None => text,
    }
}

/// Puts the bytes after a comma, or none if no comma is next.
fn read_bytes<T: Text, S: Sink>(tail: &mut S, text: T) -> Result<T, Stop>
    ensures { filled_with T.codes (S.content tail.new) result
        ≡ after_these (S.content tail.old) (bytes_after_comma.read (T.codes text)) }
{
    if !has_comma(text) {
        return Ok(text);
    }
    let digits = at_digits(after_first(past_blanks(text)));
    if !has_digit(16, digits) {
        return Err(stop_at(digits, Expected::Digits(2)));
    }
    read_pairs(tail, digits)
}

/// Puts this many zeros.
fn put_zeros<S: Sink>(tail: &mut S, count: usize)
    ensures { S.content tail.new ≡ S.content tail.old ++ replicate count 0 }
{
    'zeros: for _ in 0..count {
        tail.put(0);
    }
}

/// Puts the letters before the first that is `stop` or not printable, and zeros up to 32 bytes.
fn read_padded<T: Text, S: Sink>(stop: u8, tail: &mut S, text: T) -> Result<T, Stop>
    ensures { filled_with T.codes (S.content tail.new) result
        ≡ after_these (S.content tail.old) ((padded_text stop).read (T.codes text)) }
{
    let rest = read_clear(stop, tail, text);
    let count = text.len() - rest.len();
    if 32 < count {
        return Err(stop_at(text, Expected::Letters(32)));
    }
    put_zeros(tail, 32 - count);
    Ok(rest)
}

/// Returns a text from the first letter on that is `stop` or not printable.
fn past_clear<T: Text>(stop: u8, text: T) -> T
    ensures { T.codes result ≡ (clear_run stop (T.codes text)).1 }
{
    let mut rest = text;
    'letters: while let Some((first, others)) = rest.split_first() {
        if !is_clear(stop, first) {
            return rest;
        }
        rest = others;
    }
    rest
}

/// Puts the three strings of an ACPI device, which the data contains in another order than the text.
fn read_ids<T: Text, S: Sink>(stop: u8, tail: &mut S, text: T) -> Result<T, Stop>
    ensures { filled_with T.codes (S.content tail.new) result
        ≡ after_these (S.content tail.old) ((ids_text stop).read (T.codes text)) }
{
    let after_hid = read_clear(b',', tail, text);
    tail.put(0);
    let cid = match letters(b",", after_hid) {
        Ok(cid) => cid,
        Err(stop) => return Err(stop),
    };
    let uid = match letters(b",", past_clear(b',', cid)) {
        Ok(uid) => uid,
        Err(stop) => return Err(stop),
    };
    let rest = read_clear(stop, tail, uid);
    tail.put(0);
    let _after_cid = read_clear(b',', tail, cid);
    tail.put(0);
    Ok(rest)
}

/// Puts the letters before the first that is `stop` or not printable, and a NUL.
fn read_name<T: Text, S: Sink>(stop: u8, tail: &mut S, text: T) -> T
    ensures { Ok (S.content tail.new, T.codes result)
        ≡ after_these (S.content tail.old) ((name_text stop).read (T.codes text)) }
{
    let rest = read_clear(stop, tail, text);
    tail.put(0);
    rest
}

/// Puts the same after a comma.
fn read_name_after_comma<T: Text, S: Sink>(stop: u8, tail: &mut S, text: T) -> Result<T, Stop>
    ensures { filled_with T.codes (S.content tail.new) result
        ≡ after_these (S.content tail.old) ((after (codes ",") (name_text stop)).read (T.codes text)) }
{
    match letters(b",", text) {
        Ok(rest) => Ok(read_name(stop, tail, rest)),
        Err(stop) => Err(stop),
    }
}

/// Puts the three strings of an ACPI device after a comma.
fn read_ids_after_comma<T: Text, S: Sink>(stop: u8, tail: &mut S, text: T) -> Result<T, Stop>
    ensures { filled_with T.codes (S.content tail.new) result
        ≡ after_these (S.content tail.old) ((after (codes ",") (ids_text stop)).read (T.codes text)) }
{
    match letters(b",", text) {
        Ok(rest) => read_ids(stop, tail, rest),
        Err(stop) => Err(stop),
    }
}

/// Puts the string of `_UID` of an ACPI device without other strings.
fn read_uid<T: Text, S: Sink>(stop: u8, tail: &mut S, text: T) -> T
    ensures { Ok (S.content tail.new, T.codes result)
        ≡ after_these (S.content tail.old) ((uid_text stop).read (T.codes text)) }
{
    tail.put(0);
    let rest = read_clear(stop, tail, text);
    tail.put(0);
    tail.put(0);
    rest
}

/// Puts the same after a comma.
fn read_uid_after_comma<T: Text, S: Sink>(stop: u8, tail: &mut S, text: T) -> Result<T, Stop>
    ensures { filled_with T.codes (S.content tail.new) result
        ≡ after_these (S.content tail.old) ((after (codes ",") (uid_text stop)).read (T.codes text)) }
{
    match letters(b",", text) {
        Ok(rest) => Ok(read_uid(stop, tail, rest)),
        Err(stop) => Err(stop),
    }
}

/// Puts the data after the fixed part.
fn read_data<T: Text, S: Sink>(encoding: Encoding, tail: &mut S, text: T) -> Result<T, Stop>
    ensures { filled_with T.codes (S.content tail.new) result
        ≡ after_these (S.content tail.old) ((data_leaf encoding).read (T.codes text)) }
{
    match encoding {
        Encoding::Bytes => read_bytes(tail, text),
        Encoding::Text(stop) => Ok(read_clear(stop, tail, text)),
        Encoding::Utf16(stop) => Ok(read_units(stop, tail, text)),
        Encoding::Name(stop) => Ok(read_name(stop, tail, text)),
        Encoding::NameAfterComma(stop) => read_name_after_comma(stop, tail, text),
        Encoding::Padded(stop) => read_padded(stop, tail, text),
        Encoding::Ids(stop) => read_ids_after_comma(stop, tail, text),
        Encoding::Uid(stop) => read_uid_after_comma(stop, tail, text),
    }
}

/// Reads a literal or a field of an item.
fn read_item_step<T: Text>(step: &Step, fixed: &mut [u8], text: T) -> Result<T, Stop>
    requires sound { IsTrue (is_sound_step (length fixed.old) (code_step step.now)) }
    requires flat { IsTrue (is_flat (code_step step.now)) }
    ensures { filled_with T.codes (fixed.new, []) result
        ≡ step_in no_list (code_step step.now) (fixed.old, []) (T.codes text) }
{
    match step {
        StepOf::Literal(letters) => literal(letters.as_bytes(), text),
        StepOf::Field(field) => {
            let end = field.place + field.width;
            read_field(field, &mut fixed[field.place..end], text)
        }
        _ => Ok(text),
    }
}

/// Reads the steps of an item into its data.
fn read_item<T: Text>(steps: &[Step], fixed: &mut [u8], text: T) -> Result<T, Stop>
    requires sound { IsTrue (list_all (is_sound_step (length fixed.old)) (code_steps steps.now)) }
    requires flat { IsTrue (list_all is_flat (code_steps steps.now)) }
    ensures { filled_with T.codes (fixed.new, []) result
        ≡ steps_in no_list (code_steps steps.now) (fixed.old, []) (T.codes text) }
{
    let mut rest = text;
    for step in steps {
        rest = read_item_step(step, fixed, rest)?;
    }
    Ok(rest)
}

/// Puts bytes.
pub(crate) fn put_all<S: Sink>(tail: &mut S, bytes: &[u8])
    ensures { S.content tail.new ≡ S.content tail.old ++ bytes.now }
{
    for byte in bytes {
        tail.put(*byte);
    }
}

/// The number of bytes of the longest item.
const LONGEST_ITEM: usize = 16;

/// Reads an item of a list, and puts its data.
fn read_next<T: Text, S: Sink>(items: Items, tail: &mut S, text: T) -> Result<T, Stop>
    ensures { filled_with T.codes (S.content tail.new) result
        ≡ after_these (S.content tail.old) ((item_leaf (item_of items)).read (T.codes text)) }
{
    let layout = item_of(items);
    let mut fixed = [0; LONGEST_ITEM];
    let item = &mut fixed[..layout.size];
    let rest = read_item(layout.steps, item, text)?;
    put_all(tail, item);
    Ok(rest)
}

/// Reads the items of a list, and puts their data.
fn read_items<T: Text, S: Sink>(items: Items, tail: &mut S, text: T) -> Result<T, Stop>
    ensures { filled_with T.codes (S.content tail.new) result
        ≡ after_these (S.content tail.old) ((lists items).read (T.codes text)) }
{
    let mut rest = text;
    'items: for _ in 0..text.len() {
        if !has_comma(rest) {
            return Ok(rest);
        }
        rest = read_next(items, tail, rest)?;
    }
    Ok(rest)
}

/// Reads a step into data: the fixed part, and what follows it.
fn read_step<T: Text, S: Sink>(
    step: &Step,
    fixed: &mut [u8],
    tail: &mut S,
    text: T,
) -> Result<T, Stop>
    requires { IsTrue (is_sound_step (length fixed.old) (code_step step.now)) }
    ensures { filled_with T.codes (fixed.new, S.content tail.new) result
        ≡ step_in lists (code_step step.now) (fixed.old, S.content tail.old) (T.codes text) }
{
    match step {
        StepOf::Literal(letters) => literal(letters.as_bytes(), text),
        StepOf::Field(field) => {
            let end = field.place + field.width;
            read_field(field, &mut fixed[field.place..end], text)
        }
        StepOf::Data(encoding) => read_data(*encoding, tail, text),
        StepOf::Many(items) => read_items(*items, tail, text),
    }
}

/// Reads steps into data: the fixed part, which is filled in, and what follows it, which is added.
pub fn read_steps<T: Text, S: Sink>(
    steps: &[Step],
    fixed: &mut [u8],
    tail: &mut S,
    text: T,
) -> Result<T, Stop>
    requires { IsTrue (list_all (is_sound_step (length fixed.old)) (code_steps steps.now)) }
    ensures { filled_with T.codes (fixed.new, S.content tail.new) result
        ≡ steps_in lists (code_steps steps.now) (fixed.old, S.content tail.old)
        (T.codes text) }
{
    let mut rest = text;
    for step in steps {
        rest = read_step(step, fixed, tail, rest)?;
    }
    Ok(rest)
}
