//! Calls that contain a text, as people write them. The call around the text may differ from its printed
//! form.
#![tactic(auto)]

ghost use Rattle.std.specs.Option.{ok_or, option_and_then, option_map};
ghost use Rattle.std.specs.Prelude.{◌≡◌, ◌++◌, ◌≤◌, ℕ, IfSome, IsTrue, List, Some, take};
ghost use Rattle.std.specs.Result.{result_map_both};
ghost use Rattle.uefi_device_nodes.specs.Nodes.{Node};
ghost use Rattle.uefi_device_nodes.specs.Rows.{as_form};
ghost use Rattle.uefi_node_reader.specs.ReadViews.{rest_or_err};
ghost use Rattle.uefi_node_reader.specs.LenientCalls.{told_in};
ghost use Rattle.uefi_node_reader.specs.ParsedNodeViews.{parsed_node, text_node_data};
ghost use Rattle.uefi_node_reader.specs.ParsedNodes.{fitting};
ghost use Rattle.uefi_node_reader.specs.Stops.{past, stop_at};
ghost use Rattle.uefi_node_reader.specs.declared.errors.faults.Expected.TheVariants.{Untold};
ghost use Rattle.uefi_node_reader.specs.ReadNodes.{node_from_text};
ghost use Rattle.uefi_node_reader.specs.TableReading.{added, is_filled, is_read, is_sound, tail_read};
ghost use Rattle.uefi_node_reader.specs.TextCalls.{are_left_out, call_left, holds_ids, holds_text, left_of, or_commas, past_second, stop_before, text_call_told, text_left, text_stop, text_told, text_tried, texts_tried, uid_call_told, uid_told, uid_tried, words_tried};

use crate::errors::faults::{Expected, Stop};
use crate::errors::stops::stop_at;
use crate::errors::tail_stops::tail_rest;
use crate::exact::clear_texts::{first_of, past_clear};
use crate::exact::first_form::{Attempt, try_table};
use crate::exact::first_letters::begins_in_either_case;
use crate::exact::form_fields::{read_head, read_pieces};
use crate::exact::notations::Lenient;
use crate::exact::parsed_node::ParsedNode;
use crate::exact::table_reader::fixed_part;
use crate::lenient::lenient_fields::after_ending;
use crate::lenient::lenient_table::{begins_call_name, is_textless, told};
use crate::lenient::tidied::{Tidied, past_mark, place_at, tidy};
use crate::named_files::NameText;
use crate::read_node::ReadNode;
use crate::texts::{Text, is_empty};
use uefi_device_nodes::node_table::rows::{Mode, Row, Tail};

/// Returns whether a form is printed and contains a text.
fn holds_text(mode: Mode, tail: Tail) -> bool
    ensures { result ≡ holds_text mode tail }
{
    match mode {
        Mode::Read => !is_textless(tail),
        _ => false,
    }
}

/// Returns whether people write only one of the IDs of a device in a form.
fn holds_ids(mode: Mode, tail: Tail) -> bool
    ensures { result ≡ holds_ids mode tail }
{
    matches!((mode, tail), (Mode::People, Tail::Ids))
}

/// Returns the rest of a call from this rest of the tidied call.
fn left_of<T: NameText>(front: T, call: Tidied<T>, left: Tidied<T>) -> T
    ensures { T.bytes result ≡ left_of (T.bytes front) (⟦<Tidied<T> as Text>⟧.bytes call)
        (⟦<Tidied<T> as Text>⟧.bytes left) }
{
    front
        .split_at(place_at(call.len().saturating_sub(left.len()), front))
        .1
}

/// Returns the text in a call, from this rest of the tidied call. Where a quotation mark ends the text, one
/// begins it, and the blanks after that one belong to the text.
fn text_left<T: NameText>(row: &Row, front: T, call: Tidied<T>, left: Tidied<T>) -> T
    ensures { T.bytes result ≡ text_left (as_form row.now) (T.bytes front)
        (⟦<Tidied<T> as Text>⟧.bytes call) (⟦<Tidied<T> as Text>⟧.bytes left) }
{
    if first_of(row.close.as_bytes()) == b'"' {
        return past_mark(b'"', front);
    }
    left_of(front, call, left)
}

/// Returns whether the IDs of a device are omitted.
fn are_left_out<T: Text>(tail: Tail, text: T) -> bool
    ensures { result ≡ are_left_out tail (T.bytes text) }
{
    matches!(tail, Tail::Ids) && is_empty(text)
}

/// Returns the stop of a tidied call before this rest of the call.
fn stop_before<T: NameText>(left: T, expected: Expected) -> Stop
    ensures { result ≡ stop_before (T.bytes left) expected }
{
    stop_at(tidy(left), expected)
}

/// Returns the rest of a text from the end of the second ID string on, given the text after the first.
fn past_second<T: Text>(text: T) -> T
    ensures { T.bytes result ≡ past_second (T.bytes text) }
{
    match text.split_first() {
        Some((b',', rest)) => past_clear(b',', rest),
        _ => text,
    }
}

/// Returns where a text stops that is not read, because an ID of a device is omitted or a name is too long.
fn text_stop<T: NameText>(tail: Tail, text: T) -> Stop
    ensures { result ≡ text_stop tail (T.bytes text) }
{
    match tail {
        Tail::Ids => stop_before(past_second(past_clear(b',', text)), Expected::Byte(b',')),
        Tail::Padded => {
            let (_, rest) = text.split_at(text.len().min(32));
            stop_before(rest, Expected::Byte(b')'))
        }
        _ => stop_before(text, Expected::AsPrinted),
    }
}

/// Returns the end of a tidied call from this rest of the call.
fn call_left<T: NameText>(call: Tidied<T>, left: T) -> Tidied<T>
    ensures { ⟦<Tidied<T> as Text>⟧.bytes result
        ≡ call_left (⟦<Tidied<T> as Text>⟧.bytes call) (T.bytes left) }
{
    call.split_at(call.len().saturating_sub(tidy(left).len())).1
}

/// Returns the rest of a text after the data that a tail reads, or where the text stops.
fn words_end<T: NameText>(tail: Tail, close: &[u8], words: T) -> Result<T, Stop>
    ensures { let text = or_commas tail (T.bytes words) in rest_or_err T.bytes result
        ≡ ok_or (past (tail_read tail close.now text)) (text_stop tail text) }
{
    if are_left_out(tail, words) {
        return Ok(words);
    }
    match tail_rest(tail, close, words) {
        Some(rest) => Ok(rest),
        None => Err(text_stop(tail, words)),
    }
}

/// Returns the node of a form with this fixed part and the text in its call.
fn with_words<T: NameText>(row: &Row, fixed: [u8; 56], words: T) -> Option<ParsedNode<T>>
    requires { row.now.least ≤ 56 }
    ensures types { IfSome result (λ x.
        (x.device_type ≡ row.now.kind) × (x.sub_type ≡ row.now.sub_kind)) }
    ensures data { option_map text_node_data result ≡ option_map (λ x. x.0) (fitting (option_and_then
        (added (take row.now.least fixed))
        (tail_read row.now.tail (as_form row.now).close (or_commas row.now.tail (T.bytes words))))) }
{
    let (kind, sub_kind, least) = (row.kind, row.sub_kind, row.least as usize);
    let close = row.close.as_str();
    if are_left_out(row.tail, words) {
        return ParsedNode::with_uid(kind, sub_kind, fixed, least, close, words);
    }
    let (node, _) = ParsedNode::with_tail(kind, sub_kind, fixed, least, row.tail, close, words)?;
    Some(node)
}

/// Returns the node of a form with this fixed part and the text in its call, if nothing is left of the call
/// and the node's own text describes it completely.
fn words_told<T: NameText>(
    row: &Row,
    fixed: [u8; 56],
    words: T,
    rest: Tidied<T>,
) -> Result<ParsedNode<T>, Stop>
    requires { row.now.least ≤ 56 }
    ensures { (tail : List ℕ × List ℕ)
        → tail_read row.now.tail (as_form row.now).close (or_commas row.now.tail (T.bytes words)) ≡ Some tail
        → let left = ⟦<Tidied<T> as Text>⟧.bytes rest in result_map_both parsed_node (λ e. e) result
        ≡ ok_or (told_in (as_form row.now) (Some (take row.now.least fixed ++ tail.0, left)))
        (stop_at left Untold) }
{
    let Some(node) = with_words(row, fixed, words) else {
        return Err(stop_at(rest, Expected::Untold));
    };
    told(row, Some((node, rest))).ok_or(stop_at(rest, Expected::Untold))
}

/// Reads a node of a form with this fixed part, from the text in its call on and from the tidied call.
fn text_told<T: NameText>(
    row: &Row,
    fixed: [u8; 56],
    words: T,
    call: Tidied<T>,
) -> Result<ParsedNode<T>, Stop>
    requires sound { IsTrue (is_sound (as_form row.now)) }
    requires filled { IsTrue (is_filled (as_form row.now)) }
    requires read { IsTrue (is_read row.now.mode) }
    ensures { result_map_both parsed_node (λ e. e) result
        ≡ text_told (as_form row.now) (take row.now.least fixed)
        (or_commas row.now.tail (T.bytes words)) (⟦<Tidied<T> as Text>⟧.bytes call) }
{
    let close = row.close.as_bytes();
    let end = words_end(row.tail, close, words)?;
    let rest = after_ending(close, call_left(call, end))?;
    let mut whole = fixed;
    let rest = read_pieces::<Lenient, Tidied<T>>(
        row.rest.as_slice(),
        &mut whole[..row.least as usize],
        rest,
    )?;
    words_told(row, whole, words, rest)
}

/// Reads a node of a form with this fixed part, if the call contains only the ID string of `_UID`.
fn uid_told<T: NameText>(row: &Row, fixed: [u8; 56], words: T) -> Result<ParsedNode<T>, Stop>
    requires sound { IsTrue (is_sound (as_form row.now)) }
    requires filled { IsTrue (is_filled (as_form row.now)) }
    ensures { result_map_both parsed_node (λ e. e) result
        ≡ uid_told (as_form row.now) (take row.now.least fixed) (T.bytes words) }
{
    let stop = first_of(row.close.as_bytes());
    let rest = past_clear(stop, words);
    if !is_empty(rest) {
        return Err(stop_before(rest, Expected::Byte(stop)));
    }
    let Some(node) = ParsedNode::with_uid(
        row.kind,
        row.sub_kind,
        fixed,
        row.least as usize,
        row.close.as_str(),
        words,
    ) else {
        return Err(stop_before(rest, Expected::Untold));
    };
    match told(row, Some((node, rest))) {
        Some(node) => Ok(node),
        None => Err(stop_before(rest, Expected::Untold)),
    }
}

/// Reads a node of a form that contains a text, from the part of a call before its `)` and the tidied call.
fn text_call<T: NameText>(row: &Row, front: T, call: Tidied<T>) -> Result<ParsedNode<T>, Stop>
    requires sound { IsTrue (is_sound (as_form row.now)) }
    requires filled { IsTrue (is_filled (as_form row.now)) }
    requires read { IsTrue (is_read row.now.mode) }
    ensures { result_map_both parsed_node (λ e. e) result
        ≡ text_call_told (as_form row.now) (T.bytes front) (⟦<Tidied<T> as Text>⟧.bytes call) }
{
    let mut fixed = fixed_part(row);
    let rest = read_head::<Lenient, Tidied<T>>(row, &mut fixed[..row.least as usize], call)?;
    text_told(row, fixed, text_left(row, front, call, rest), call)
}

/// Reads a node of a form whose call contains only the ID string of `_UID`.
fn uid_call<T: NameText>(row: &Row, front: T, call: Tidied<T>) -> Result<ParsedNode<T>, Stop>
    requires sound { IsTrue (is_sound (as_form row.now)) }
    requires filled { IsTrue (is_filled (as_form row.now)) }
    requires read { IsTrue (is_read row.now.mode) }
    ensures { result_map_both parsed_node (λ e. e) result
        ≡ uid_call_told (as_form row.now) (T.bytes front) (⟦<Tidied<T> as Text>⟧.bytes call) }
{
    let mut fixed = fixed_part(row);
    let rest = read_head::<Lenient, Tidied<T>>(row, &mut fixed[..row.least as usize], call)?;
    uid_told(row, fixed, left_of(front, call, rest))
}

/// Reads a call in a form that is printed, if the form contains a text and has the name of the call.
fn try_text<T: NameText>(row: &Row, front: T, call: Tidied<T>) -> Result<ReadNode<T>, Option<Stop>>
    requires sound { IsTrue (is_sound (as_form row.now)) }
    requires filled { IsTrue (is_filled (as_form row.now)) }
    ensures { result_map_both node_from_text (λ e. e) result
        ≡ text_tried (T.bytes front) (⟦<Tidied<T> as Text>⟧.bytes call) (as_form row.now) }
{
    if !(holds_text(row.mode, row.tail) && begins_call_name(row.start.as_bytes(), call)) {
        return Err(None);
    }
    match text_call(row, front, call) {
        Ok(node) => Ok(ReadNode::Exact(node)),
        Err(stop) => Err(Some(stop)),
    }
}

/// Reads a call whose only ID string is `_UID`, if people write it in this form and the form has the name of
/// the call.
fn try_uid<T: NameText>(row: &Row, front: T, call: Tidied<T>) -> Result<ReadNode<T>, Option<Stop>>
    requires sound { IsTrue (is_sound (as_form row.now)) }
    requires filled { IsTrue (is_filled (as_form row.now)) }
    ensures { result_map_both node_from_text (λ e. e) result
        ≡ uid_tried (T.bytes front) (⟦<Tidied<T> as Text>⟧.bytes call) (as_form row.now) }
{
    if !(holds_ids(row.mode, row.tail) && begins_call_name(row.start.as_bytes(), call)) {
        return Err(None);
    }
    match uid_call(row, front, call) {
        Ok(node) => Ok(ReadNode::Exact(node)),
        Err(stop) => Err(Some(stop)),
    }
}

/// An attempt to read a call that contains a text.
#[derive(Clone, Copy)]
struct TextCall<T: NameText> {
    /// The part of the call before its `)`.
    front: T,
    call: Tidied<T>,
}

impl<T: NameText> Attempt for TextCall<T> {
    type Read = ReadNode<T>;

    ghost Seen = { Node };

    ghost seen = { node_from_text };

    ghost tried = { λ attempt place.
        words_tried (T.bytes attempt.front) (⟦<Tidied<T> as Text>⟧.bytes attempt.call) };

    fn may_begin(&self, letters: u64) -> bool {
        begins_in_either_case(letters, self.call)
    }

    fn attempt(&self, _place: usize, row: &Row) -> Result<ReadNode<T>, Option<Stop>> {
        if holds_ids(row.mode, row.tail) {
            return try_uid(row, self.front, self.call);
        }
        try_text(row, self.front, self.call)
    }
}

/// Reads a call in a form that contains a text, from the part before its `)` and the tidied call. Fails with
/// where the call stops, or with `None` if no such form has its name.
pub(crate) fn try_texts<T: NameText>(front: T, call: Tidied<T>) -> Result<ReadNode<T>, Option<Stop>>
    ensures { result_map_both node_from_text (λ e. e) result
        ≡ texts_tried (T.bytes front) (⟦<Tidied<T> as Text>⟧.bytes call) }
{
    try_table(&TextCall { front, call })
}
