//! Nodes read by the table of forms.
#![tactic(auto)]

ghost use Rattle.std.specs.List.{list_all};
ghost use Rattle.std.specs.Option.{ok_or};
ghost use Rattle.std.specs.Prelude.{◌≡◌, None, false, ◌≤◌, ℕ, IfSome, IsTrue, List, length, take};
ghost use Rattle.uefi_device_nodes.specs.Rows.{as_form, is_within};
ghost use Rattle.uefi_device_nodes.specs.Table.{forms};
ghost use Rattle.uefi_device_nodes.specs.Nodes.{Node, node_with};
ghost use Rattle.uefi_node_reader.specs.ReadViews.{read_as};
ghost use Rattle.uefi_node_reader.specs.TableReading.{are_within, blank, form_place, form_read, is_exact, is_filled, is_sound, kept, prints, put_all, rest_read, table_read};
ghost use Rattle.uefi_node_reader.specs.ParsedNodes.{fitting};
ghost use Rattle.uefi_node_reader.specs.WordReading.{after};
ghost use Rattle.uefi_node_reader.specs.ParsedNodeViews.{text_node_data, parsed_node};

use crate::errors::faults::Stop;
use crate::exact::fields::after;
use crate::exact::first_form::{Attempt, try_table};
use crate::exact::first_letters::begins_in;
use crate::exact::form_fields::read_head;
use crate::exact::form_places::{FormTest, form_place};
use crate::exact::notations::Exact;
use crate::exact::parsed_node::ParsedNode;
use crate::texts::Text;
use uefi_device_nodes::node_table::printing::{begin_with_kind, matches};
use uefi_device_nodes::node_table::rows::{Mode, Row};

/// Puts bytes at their places in data.
fn put_bytes(content: &mut [u8], bytes: &[(u8, u8)])
    requires { IsTrue (are_within (length content.old) bytes.now) }
    ensures { content.new ≡ put_all bytes.now content.old }
{
    for (place, byte) in bytes {
        content[*place as usize] = *byte;
    }
}

/// Returns the fixed part of a form's data, with zeros after it.
pub(crate) fn fixed_part(row: &Row) -> [u8; 56]
    requires { IsTrue (is_filled (as_form row.now)) }
    ensures { take row.now.least result ≡ blank (as_form row.now) }
{
    let mut fixed = [0; 56];
    put_bytes(&mut fixed, row.when.as_slice());
    put_bytes(&mut fixed, row.also.as_slice());
    fixed
}

/// Reads the rest of a node of a form whose first fields were read, from the data after the fixed part on.
/// Returns the rest of the text too.
pub(crate) fn finish_row<T: Text>(row: &Row, fixed: [u8; 56], text: T) -> Option<(ParsedNode<T>, T)>
    requires small { row.now.least ≤ 56 }
    requires within { IsTrue (list_all (is_within row.now.least) (as_form row.now).rest) }
    ensures types { IfSome result (λ x.
        (x.0.device_type ≡ row.now.kind) × (x.0.sub_type ≡ row.now.sub_kind)) }
    ensures data { read_as text_node_data T.bytes result
        ≡ fitting (rest_read (as_form row.now) (take row.now.least fixed, (T.bytes text))) }
{
    let (node, rest) = ParsedNode::with_tail(
        row.kind,
        row.sub_kind,
        fixed,
        row.least as usize,
        row.tail,
        row.close.as_str(),
        text,
    )?;
    let rest = after(row.close.as_bytes(), rest)?;
    node.with_fields(row.rest.as_slice(), rest)
}

/// Returns whether texts of a form are read exactly as they are printed.
pub(crate) fn is_exact(mode: Mode) -> bool
    ensures { result ≡ is_exact mode }
{
    matches!(mode, Mode::Read | Mode::Libefivar)
}

/// Reads a node of a form, and returns the rest of the text too.
pub(crate) fn read_row<T: Text>(row: &Row, text: T) -> Option<(ParsedNode<T>, T)>
    requires sound { IsTrue (is_sound (as_form row.now)) }
    requires filled { IsTrue (is_filled (as_form row.now)) }
    ensures types { IfSome result (λ x.
        (x.0.device_type ≡ row.now.kind) × (x.0.sub_type ≡ row.now.sub_kind)) }
    ensures data { read_as text_node_data T.bytes result
        ≡ fitting (form_read (as_form row.now) (T.bytes text)) }
{
    if !is_exact(row.mode) {
        return None;
    }
    let mut fixed = fixed_part(row);
    let rest = read_head::<Exact, T>(row, &mut fixed[..row.least as usize], text).ok()?;
    finish_row(row, fixed, rest)
}

/// A node that is printed.
#[derive(Clone, Copy)]
struct PrintedNode<'a> {
    kind: u8,
    sub_kind: u8,
    content: &'a [u8],
}

/// The test for forms that the node is printed in.
impl FormTest for PrintedNode<'_> {
    ghost test = { λ node. prints (node_with node.kind node.sub_kind node.content.now) };

    fn passes(&self, row: &Row) -> bool {
        matches(row, false, self.kind, self.sub_kind, self.content)
    }

    fn passes_over(&self, rows: &[Row]) -> bool {
        !begin_with_kind(rows, self.kind)
    }
}

/// Returns whether a text may begin with the start of a form, by the first three bytes of both. Most forms
/// fail this test.
#[inline(always)]
fn begin_alike<T: Text>(start: &[u8], text: T) -> bool
    ensures { result ≡ false → after start.now (T.bytes text) ≡ None }
{
    let mut left = start;
    let mut rest = text;
    'bytes: for _ in 0..3 {
        let [byte, others @ ..] = left else {
            return true;
        };
        let Some((first, after)) = rest.split_first() else {
            return true;
        };
        if first != *byte {
            return false;
        }
        left = others;
        rest = after;
    }
    true
}

/// Reads a node of the form at an index of the table, if it is printed in that form.
fn read_kept<T: Text>(row: &Row, place: usize, text: T) -> Option<(ParsedNode<T>, T)>
    requires sound { IsTrue (is_sound (as_form row.now)) }
    requires filled { IsTrue (is_filled (as_form row.now)) }
    ensures { read_as parsed_node T.bytes result
        ≡ kept forms place (as_form row.now) (form_read (as_form row.now) (T.bytes text)) }
{
    let (node, rest) = read_row(row, text)?;
    let printed = PrintedNode {
        kind: row.kind,
        sub_kind: row.sub_kind,
        content: node.head(),
    };
    if form_place(&printed) != place {
        return None;
    }
    Some((node, rest))
}

/// An attempt to read the start of a text exactly as it is printed.
#[derive(Clone, Copy)]
struct ExactText<T: Text> {
    text: T,
}

impl<T: Text> Attempt for ExactText<T> {
    type Read = (ParsedNode<T>, T);

    ghost Seen = { Node × List ℕ };

    ghost seen = { λ read. (parsed_node read.0, T.bytes read.1) };

    ghost tried = { λ exact place form.
        ok_or (kept forms place form (form_read form (T.bytes exact.text))) None };

    fn may_begin(&self, letters: u64) -> bool {
        begins_in(letters, self.text)
    }

    fn attempt(&self, place: usize, row: &Row) -> Result<(ParsedNode<T>, T), Option<Stop>> {
        if !begin_alike(row.start.as_bytes(), self.text) {
            return Err(None);
        }
        read_kept(row, place, self.text).ok_or(None)
    }
}

/// Reads the node at the start of a text in a form of the table, and returns the rest of the text too.
pub(crate) fn by_table<T: Text>(text: T) -> Option<(ParsedNode<T>, T)>
    ensures { read_as parsed_node T.bytes result ≡ table_read forms (T.bytes text) }
{
    try_table(&ExactText { text }).ok()
}
