//! Texts of libefivar 37, which efibootmgr uses, if they are the specification's texts of other nodes,
//! or have no form in the table.
//!
//! Libefivar prints the identifier of an NVMe node from its first byte on, and the numbers of `Ata`
//! without words. Its `Fibre`, `SAS` and `UsbClass` omit what distinguishes two nodes. Its `PciRoot`
//! and `PcieRoot` may contain a text of the device in place of the number, which begins with `0x`.
#![tactic(auto)]

ghost use Rattle.std.specs.Prelude.{◌≡◌, IsTrue, map};
ghost use Rattle.std.specs.List.{list_all};
ghost use Rattle.std.specs.Option.{option_map};
ghost use Rattle.uefi_device_nodes.specs.Rows.{as_form};
ghost use Rattle.uefi_node_reader.specs.ReadViews.{read_as};
ghost use Rattle.uefi_node_reader.specs.Libefivar.{base_after, forms_exact, own_call, own_fault, own_read, own_stop, stop_after};
ghost use Rattle.uefi_node_reader.specs.TableReading.{is_filled, is_sound};
ghost use Rattle.uefi_node_reader.specs.ParsedNodeViews.{parsed_node};

use crate::errors::faults::{Expected, NodeFault, Stop};
use crate::errors::stops::stop_at;
use crate::exact::fields::after;
use crate::exact::parsed_node::ParsedNode;
use crate::lenient::ambiguous::begins_with;
use crate::lenient::lenient_names::begins_call;
use crate::lenient::lenient_table::exact_told;
use crate::lenient::tidied::{Tidied, cut_call, place_at, tidy};
use crate::named_files::NameText;
use crate::texts::Text;
use uefi_device_nodes::node_table::rows::Row;
use uefi_device_nodes::node_table::table::libefivar_forms;

/// Reads a tidied text in the first of these forms that it matches exactly.
fn exact_group<T: Text>(rows: &[Row], text: T) -> Option<ParsedNode<T>>
    requires sound { IsTrue (list_all is_sound (map as_form rows.now)) }
    requires filled { IsTrue (list_all is_filled (map as_form rows.now)) }
    ensures { option_map parsed_node result ≡ forms_exact (map as_form rows.now) (T.bytes text) }
{
    for row in rows {
        if let Some(node) = exact_told(row, text) {
            return Some(node);
        }
    }
    None
}

/// Reads the call at the start of a text in a form of libefivar. Returns the node and the rest of the text.
fn own_call<T: NameText>(text: T) -> Option<(ParsedNode<Tidied<T>>, T)>
    ensures { read_as parsed_node T.bytes result ≡ own_call (T.bytes text) }
{
    let (front, rest) = cut_call(text)?;
    let node = exact_group(libefivar_forms(), tidy(front))?;
    Some((node, rest))
}

/// Reads a node in a form of libefivar, if the text begins with a call. Returns the rest of the text
/// too.
pub(crate) fn own<T: NameText>(text: T) -> Option<(ParsedNode<Tidied<T>>, T)>
    ensures { read_as parsed_node T.bytes result ≡ own_read (T.bytes text) }
{
    if begins_call(text) {
        return own_call(text);
    }
    None
}

/// Returns a stop after this name, if a tidied call begins with it.
fn stop_after<T: Text>(expected: Expected, name: &[u8], text: T) -> Option<Stop>
    ensures { result ≡ stop_after expected name.now (T.bytes text) }
{
    let rest = after(name, text)?;
    Some(stop_at(rest, expected))
}

/// Returns a stop after this name, if a tidied call begins with it and no `0x` follows.
fn base_after<T: Text>(name: &[u8], text: T) -> Option<Stop>
    ensures { result ≡ base_after name.now (T.bytes text) }
{
    let rest = after(name, text)?;
    if begins_with(b"0x", rest) {
        return None;
    }
    Some(stop_at(rest, Expected::Base))
}

/// Returns where a tidied call stops that libefivar prints for different nodes, in a form that it does
/// not share, or with a text of the device in place of its number.
fn own_stop<T: Text>(text: T) -> Option<Stop>
    ensures { result ≡ own_stop (T.bytes text) }
{
    if let Some(stop) = stop_after(Expected::AsPrinted, b"NVME(", text) {
        return Some(stop);
    }
    if let Some(stop) = stop_after(Expected::Untold, b"FIBRE(", text) {
        return Some(stop);
    }
    if let Some(stop) = stop_after(Expected::Untold, b"SAS(", text) {
        return Some(stop);
    }
    if let Some(stop) = stop_after(Expected::Untold, b"USBCLASS(", text) {
        return Some(stop);
    }
    if let Some(stop) = base_after(b"PCIROOT(", text) {
        return Some(stop);
    }
    base_after(b"PCIEROOT(", text)
}

/// Returns the fault of a text that begins with a call of libefivar that stops.
pub(crate) fn own_fault<T: NameText>(text: T) -> Option<NodeFault>
    ensures { result ≡ own_fault (T.bytes text) }
{
    let (front, _) = cut_call(text)?;
    let call = tidy(front);
    let stop = own_stop(call)?;
    Some(NodeFault {
        byte: place_at(call.len().saturating_sub(stop.left), text),
        expected: stop.expected,
    })
}
