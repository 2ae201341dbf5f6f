//! Nodes as people write them, read by the table, and where their texts stop.
#![tactic(auto)]

ghost use Rattle.std.specs.Option.{option_map};
ghost use Rattle.std.specs.Prelude.{◌≡◌, IfSome, IsTrue, map};
ghost use Rattle.std.specs.Result.{result_map_both};
ghost use Rattle.uefi_device_nodes.specs.Nodes.{Node};
ghost use Rattle.uefi_device_nodes.specs.Rows.{as_form};
ghost use Rattle.uefi_node_reader.specs.ReadViews.{read_as};
ghost use Rattle.uefi_node_reader.specs.LenientFields.{after_literal};
ghost use Rattle.uefi_node_reader.specs.LenientCalls.{begins_call_name, call_told, form_told, form_tried, is_textless, named_told, names_tried, plain_names, plain_told, textless_told, told_in, whole};
ghost use Rattle.uefi_node_reader.specs.TableReading.{form_read, is_filled, is_read, is_sound};
ghost use Rattle.uefi_node_reader.specs.ParsedNodeViews.{text_node_data, parsed_node};
ghost use Rattle.uefi_node_reader.specs.ReadNodes.{node_from_text};

use crate::errors::faults::{Expected, Stop};
use crate::errors::stops::{further, stop_at};
use crate::errors::tail_stops::{rest_end, stop_of};
use crate::exact::first_form::{Attempt, try_table};
use crate::exact::first_letters::begins_in_either_case;
use crate::exact::form_fields::read_head;
use crate::exact::notations::Lenient;
use crate::exact::parsed_node::ParsedNode;
use crate::exact::table_reader::{finish_row, fixed_part, read_row};
use crate::lenient::ambiguous::ambiguous_stop;
use crate::lenient::complete_texts::tells;
use crate::lenient::lenient_fields::{after_letter, after_literal};
use crate::lenient::tidied::Tidied;
use crate::named_files::NameText;
use crate::plain_nodes::{told_types, types_end};
use crate::read_node::ReadNode;
use crate::texts::{Text, is_empty};
use uefi_device_nodes::node_table::layouts::{
    ACPI_TYPE, BIOS_BOOT_SPEC_TYPE, HARDWARE_TYPE, MEDIA_TYPE, MESSAGING_TYPE,
};
use uefi_device_nodes::node_table::rows::{Mode, Row, Tail};

/// Returns whether the data after the fields contains no text.
pub(crate) fn is_textless(tail: Tail) -> bool
    ensures { result ≡ is_textless tail }
{
    match tail {
        Tail::Nothing => true,
        Tail::Bytes => true,
        Tail::Repeated(_) => true,
        _ => false,
    }
}

/// Returns the node that was read in a form, if nothing is left of the text, and the node's own text
/// describes it completely.
pub(crate) fn told<T: Text, R: Text>(
    row: &Row,
    read: Option<(ParsedNode<T>, R)>,
) -> Option<ParsedNode<T>>
    requires types { IfSome read (λ x.
        (x.0.device_type ≡ row.now.kind) × (x.0.sub_type ≡ row.now.sub_kind)) }
    ensures { option_map parsed_node result
        ≡ told_in (as_form row.now) (read_as text_node_data R.bytes read) }
{
    let (node, rest) = read?;
    if !is_empty(rest) {
        return None;
    }
    if !tells(row, &node) {
        return None;
    }
    Some(node)
}

/// Reads a whole text exactly in a form, if the node's own text describes it completely.
pub(crate) fn exact_told<T: Text>(row: &Row, text: T) -> Option<ParsedNode<T>>
    requires sound { IsTrue (is_sound (as_form row.now)) }
    requires filled { IsTrue (is_filled (as_form row.now)) }
    ensures { option_map parsed_node result
        ≡ told_in (as_form row.now) (form_read (as_form row.now) (T.bytes text)) }
{
    told(row, read_row(row, text))
}

/// Reads a tidied text in a form, if the node's own text describes it completely. Fails with where the text
/// stops.
fn told_row<T: Text>(row: &Row, text: T) -> Result<ParsedNode<T>, Stop>
    requires sound { IsTrue (is_sound (as_form row.now)) }
    requires filled { IsTrue (is_filled (as_form row.now)) }
    requires read { IsTrue (is_read row.now.mode) }
    ensures { result_map_both parsed_node (λ e. e) result ≡ form_told (as_form row.now) (T.bytes text) }
{
    let mut fixed = fixed_part(row);
    let rest = read_head::<Lenient, T>(row, &mut fixed[..row.least as usize], text)?;
    match told(row, finish_row(row, fixed, rest)) {
        Some(node) => Ok(node),
        None => Err(stop_of(rest_end(row.tail, row.close.as_bytes(), rest))),
    }
}

/// Returns whether a text begins with the name of a call, up to its `(`, in either case.
pub(crate) fn begins_call_name<T: Text>(name: &[u8], text: T) -> bool
    ensures { result ≡ begins_call_name name.now (T.bytes text) }
{
    let mut left = name;
    let mut rest = text;
    'letters: while let [letter, others @ ..] = left {
        let Some(after) = after_letter(*letter, rest) else {
            return false;
        };
        if *letter == b'(' {
            return true;
        }
        left = others;
        rest = after;
    }
    true
}

/// Reads a tidied text in a form that is read, unless the form contains a text.
fn textless_row<T: Text>(row: &Row, text: T) -> Result<ParsedNode<T>, Option<Stop>>
    requires sound { IsTrue (is_sound (as_form row.now)) }
    requires filled { IsTrue (is_filled (as_form row.now)) }
    requires read { IsTrue (is_read row.now.mode) }
    ensures { result_map_both parsed_node (λ e. e) result
        ≡ textless_told (as_form row.now) (T.bytes text) }
{
    if !is_textless(row.tail) {
        return Err(None);
    }
    match told_row(row, text) {
        Ok(node) => Ok(node),
        Err(stop) => Err(Some(stop)),
    }
}

/// Reads a tidied text in a form whose name it begins with, unless the form contains a text.
fn named_row<T: Text>(row: &Row, text: T) -> Result<ParsedNode<T>, Option<Stop>>
    requires sound { IsTrue (is_sound (as_form row.now)) }
    requires filled { IsTrue (is_filled (as_form row.now)) }
    ensures { result_map_both parsed_node (λ e. e) result
        ≡ named_told row.now.mode (as_form row.now) (T.bytes text) }
{
    match row.mode {
        Mode::Read => textless_row(row, text),
        Mode::Printed => Err(Some(stop_at(text, Expected::Untold))),
        Mode::Display => Err(None),
        Mode::Libefivar => Err(None),
        Mode::People => textless_row(row, text),
    }
}

/// Reads a tidied text in a form, if it begins with the form's name.
fn try_row<T: Text>(row: &Row, text: T) -> Result<ParsedNode<T>, Option<Stop>>
    requires sound { IsTrue (is_sound (as_form row.now)) }
    requires filled { IsTrue (is_filled (as_form row.now)) }
    ensures { result_map_both parsed_node (λ e. e) result ≡ form_tried (as_form row.now) (T.bytes text) }
{
    if begins_call_name(row.start.as_bytes(), text) {
        return named_row(row, text);
    }
    Err(None)
}

/// An attempt to read a tidied call that contains no text.
#[derive(Clone, Copy)]
struct TextlessCall<T: NameText> {
    call: Tidied<T>,
}

impl<T: NameText> Attempt for TextlessCall<T> {
    type Read = ReadNode<T>;

    ghost Seen = { Node };

    ghost seen = { node_from_text };

    ghost tried = { λ attempt place form. form_tried form (⟦<Tidied<T> as Text>⟧.bytes attempt.call) };

    fn may_begin(&self, letters: u64) -> bool {
        begins_in_either_case(letters, self.call)
    }

    fn attempt(&self, _place: usize, row: &Row) -> Result<ReadNode<T>, Option<Stop>> {
        match try_row(row, self.call) {
            Ok(node) => Ok(ReadNode::Tidied(node)),
            Err(stop) => Err(stop),
        }
    }
}

/// Returns the node that was read, if nothing is left of the text.
fn whole<T: Text>(read: Option<(ParsedNode<T>, T)>) -> Option<ParsedNode<T>>
    ensures { option_map parsed_node result
        ≡ whole (read_as parsed_node T.bytes read) }
{
    let (node, rest) = read?;
    if !is_empty(rest) {
        return None;
    }
    Some(node)
}

/// Reads a node of no known kind from its tidied text, if the text begins with this name. Fails with where
/// the text stops, or with `None` if it begins with another.
fn try_name<T: Text>(
    name: &[u8],
    device_type: Option<u8>,
    text: T,
) -> Result<ParsedNode<T>, Option<Stop>>
    ensures { result_map_both parsed_node (λ e. e) result
        ≡ plain_told device_type (after_literal name.now (T.bytes text)) }
{
    let Ok(rest) = after_literal(name, text) else {
        return Err(None);
    };
    match whole(told_types(device_type, rest)) {
        Some(node) => Ok(node),
        None => Err(Some(stop_of(types_end(device_type, rest)))),
    }
}

/// Reads a node of no known kind from its tidied text, if the text begins with one of these names. Fails with
/// `furthest`, or with where the text stops if it was read further.
fn try_names<T: Text>(
    names: &[(&[u8], Option<u8>)],
    furthest: Option<Stop>,
    text: T,
) -> Result<ParsedNode<T>, Option<Stop>>
    ensures { result_map_both parsed_node (λ e. e) result
        ≡ names_tried (map (λ name. (name.0.now, name.1)) names.now) furthest (T.bytes text) }
{
    let mut so_far = furthest;
    for (name, device_type) in names {
        match try_name(name, *device_type, text) {
            Ok(node) => return Ok(node),
            Err(stop) => so_far = further(so_far, stop),
        }
    }
    Err(so_far)
}

/// Reads a node of no known kind from its tidied text. Fails as [`try_names`] does.
fn try_plain<T: Text>(furthest: Option<Stop>, text: T) -> Result<ParsedNode<T>, Option<Stop>>
    ensures { result_map_both parsed_node (λ e. e) result ≡ names_tried plain_names furthest (T.bytes text) }
{
    let names: [(&[u8], Option<u8>); 6] = [
        (b"Path(", None),
        (b"HardwarePath(", Some(HARDWARE_TYPE)),
        (b"AcpiPath(", Some(ACPI_TYPE)),
        (b"Msg(", Some(MESSAGING_TYPE)),
        (b"MediaPath(", Some(MEDIA_TYPE)),
        (b"BbsPath(", Some(BIOS_BOOT_SPEC_TYPE)),
    ];
    try_names(&names, furthest, text)
}

/// Reads a node from a tidied call, or fails with where the call stops. A call that programs print for
/// different nodes stops where it becomes ambiguous.
pub(crate) fn try_call<T: NameText>(call: Tidied<T>) -> Result<ReadNode<T>, Option<Stop>>
    ensures { result_map_both node_from_text (λ e. e) result ≡ call_told (⟦<Tidied<T> as Text>⟧.bytes call) }
{
    if let Some(stop) = ambiguous_stop(call) {
        return Err(Some(stop));
    }
    let attempt = TextlessCall { call };
    let furthest = match try_table(&attempt) {
        Ok(node) => return Ok(node),
        Err(stop) => stop,
    };
    match try_plain(furthest, call) {
        Ok(node) => Ok(ReadNode::Tidied(node)),
        Err(stop) => Err(stop),
    }
}
