//! Nodes of IPv6 connections, read from tidied calls whose addresses have any form of RFC 4291, section
//! 2.2.
#![tactic(auto)]

ghost use Rattle.std.specs.Prelude.{◌≡◌, ◌≤◌, IfSome, length, take};
ghost use Rattle.std.specs.List.{position_or_len};
ghost use Rattle.std.specs.Net.Addr.{ipv6_octets};
ghost use Rattle.std.specs.Option.{option_map};
ghost use Rattle.uefi_node_reader.specs.ReadViews.{read_as, value_of};
ghost use Rattle.uefi_node_reader.specs.LenientFields.{any_number};
ghost use Rattle.uefi_node_reader.specs.ShortAddresses.{address_octets, address_read, bare_address, call_data, closed_address, closes_call, connection, ends_address, is_fixed, gateway_part, last_fields, last_read, local_read, origin_on, origin_read, protocol_read, settings_read, short_ipv6, told_fixed};
ghost use Rattle.uefi_node_reader.specs.ParsedNodeViews.{parsed_node};

use crate::counted_bytes::{push, push_all};
use crate::exact::fields::after;
use crate::exact::parsed_node::ParsedNode;
use crate::lenient::complete_texts::tells;
use crate::lenient::lenient_fields::any_number;
use crate::texts::{Text, is_empty};
use std::net::Ipv6Addr;
use uefi_device_nodes::node_table::layouts::MESSAGING_TYPE;
use uefi_device_nodes::node_table::layouts::messaging::ipv6;
use uefi_device_nodes::node_table::printing::form_of;
use uefi_device_nodes::node_table::rows::Tail;

/// The prefix length and the gateway of a connection that a driver of EDK II makes: 64 and `::`.
const NO_GATEWAY: Option<(u8, Ipv6Addr)> = Some((64, Ipv6Addr::UNSPECIFIED));

/// The number of bytes of the longest text of an address, `ffff:ffff:ffff:ffff:ffff:ffff:255.255.255.255`.
const LONGEST_ADDRESS: usize = 45;

/// Copies a text to the first of these places.
fn copy_text<T: Text>(text: T, places: &mut [u8])
    requires { length (T.bytes text) ≤ length places.old }
    ensures { take (length (T.bytes text)) places.new ≡ T.bytes text }
{
    let mut rest = text;
    for place in 0..text.len() {
        let Some((byte, after)) = rest.split_first() else {
            return;
        };
        places[place] = byte;
        rest = after;
    }
}

/// Reads a whole text as an address.
#[tactic(auto, unfolding(crate::specs::ShortAddresses::address_octets))]
fn whole_address<T: Text>(text: T) -> Option<Ipv6Addr>
    ensures { option_map ipv6_octets result ≡ address_octets (T.bytes text) }
{
    let len = text.len();
    if LONGEST_ADDRESS < len {
        return None;
    }
    // A text can be UTF-16, and std reads bytes.
    let mut bytes = [0; LONGEST_ADDRESS];
    copy_text(text, &mut bytes);
    Ipv6Addr::parse_ascii(&bytes[..len]).ok()
}

/// Returns whether a byte ends an address.
fn ends_address(byte: u8) -> bool
    ensures { result ≡ ends_address byte }
{
    byte == b',' || byte == b')' || byte == b']'
}

/// Returns the number of bytes before the first byte that ends an address.
fn address_len<T: Text>(text: T) -> usize
    ensures place { result ≡ position_or_len ends_address (T.bytes text) }
    ensures within { result ≤ length (T.bytes text) }
{
    let mut rest = text;
    for place in 0..text.len() {
        let Some((byte, after)) = rest.split_first() else {
            return place;
        };
        if ends_address(byte) {
            return place;
        }
        rest = after;
    }
    text.len()
}

/// Reads an address, and returns the rest of the text too.
fn bare_address<T: Text>(text: T) -> Option<(Ipv6Addr, T)>
    ensures { read_as ipv6_octets T.bytes result ≡ bare_address (T.bytes text) }
{
    let (front, rest) = text.split_at(address_len(text));
    let address = whole_address(front)?;
    Some((address, rest))
}

/// Reads an address from the byte after `[` on, and the `]`. Returns the rest of the text too.
fn closed_address<T: Text>(text: T) -> Option<(Ipv6Addr, T)>
    ensures { read_as ipv6_octets T.bytes result ≡ closed_address (T.bytes text) }
{
    let (address, rest) = bare_address(text)?;
    let rest = after(b"]", rest)?;
    Some((address, rest))
}

/// Reads an address, perhaps in brackets, and returns the rest of the text too.
fn address<T: Text>(text: T) -> Option<(Ipv6Addr, T)>
    ensures { read_as ipv6_octets T.bytes result ≡ address_read (T.bytes text) }
{
    match text.split_first() {
        Some((b'[', rest)) => closed_address(rest),
        _ => bare_address(text),
    }
}

/// Reads a protocol, by its name or its number, and returns the rest of the text too.
fn protocol<T: Text>(text: T) -> Option<(u16, T)>
    ensures { value_of T.bytes result ≡ protocol_read (T.bytes text) }
{
    if let Some(rest) = after(b"TCP", text) {
        return Some((6, rest));
    }
    if let Some(rest) = after(b"UDP", text) {
        return Some((17, rest));
    }
    let (number, rest) = any_number(0xffff, text)?;
    Some((number as u16, rest))
}

/// Reads the origin of an address, and returns the rest of the text too.
fn origin<T: Text>(text: T) -> Option<(u8, T)>
    ensures { value_of T.bytes result ≡ origin_read (T.bytes text) }
{
    if let Some(rest) = after(b"STATIC", text) {
        return Some((0, rest));
    }
    if let Some(rest) = after(b"STATELESSAUTOCONFIGURE", text) {
        return Some((1, rest));
    }
    let rest = after(b"STATEFULAUTOCONFIGURE", text)?;
    Some((2, rest))
}

/// Returns whether a text is only the `)` at the end of a call.
fn closes_call<T: Text>(text: T) -> bool
    ensures { result ≡ closes_call (T.bytes text) }
{
    match text.split_first() {
        Some((first, rest)) => first == b')' && is_empty(rest),
        None => false,
    }
}

/// Reads the prefix length and the gateway at the end of a call.
fn last_fields<T: Text>(text: T) -> Option<(u8, Ipv6Addr)>
    ensures { option_map (λ x. (x.0, ipv6_octets x.1)) result ≡ last_fields (T.bytes text) }
{
    let (prefix_length, rest) = any_number(0xff, text)?;
    let (gateway, rest) = address(after(b",", rest)?)?;
    if !closes_call(rest) {
        return None;
    }
    Some((prefix_length as u8, gateway))
}

/// Reads the prefix length and the gateway at the end of a call, after a comma. A call that ends there is a
/// short node, which lacks them.
fn last<T: Text>(text: T) -> Option<Option<(u8, Ipv6Addr)>>
    ensures { option_map gateway_part result ≡ last_read (T.bytes text) }
{
    if closes_call(text) {
        return Some(None);
    }
    let gateway = last_fields(after(b",", text)?)?;
    Some(Some(gateway))
}

/// Reads the local address, the prefix length and the gateway at the end of a call. If all are omitted, they
/// are those that the drivers of EDK II write.
fn local<T: Text>(text: T) -> Option<(Ipv6Addr, Option<(u8, Ipv6Addr)>)>
    ensures { option_map (λ x. (ipv6_octets x.0, gateway_part x.1)) result ≡ local_read (T.bytes text) }
{
    if closes_call(text) {
        return Some((Ipv6Addr::UNSPECIFIED, NO_GATEWAY));
    }
    let (local, rest) = address(after(b",", text)?)?;
    let last = last(rest)?;
    Some((local, last))
}

/// Returns the data of a connection without ports, and zeros up to 56 bytes. Returns the number of bytes of
/// the data too.
fn connection(
    remote: Ipv6Addr,
    protocol: u16,
    origin: u8,
    local: (Ipv6Addr, Option<(u8, Ipv6Addr)>),
) -> ([u8; 56], usize)
    ensures data { take result.1 result.0 ≡ connection (ipv6_octets remote) protocol origin
        (ipv6_octets local.0, gateway_part local.1) }
    ensures few { result.1 ≤ 56 }
{
    let mut data = [0; 56];
    let (local, last) = local;
    let len = push_all(&mut data, 0, &local.octets());
    let len = push_all(&mut data, len, &remote.octets());
    let (low, high) = ((protocol % 256) as u8, (protocol / 256) as u8);
    let len = push_all(&mut data, len, &[0, 0, 0, 0, low, high, origin]);
    match last {
        Some((prefix_length, gateway)) => {
            let len = push(&mut data, len, prefix_length);
            let len = push_all(&mut data, len, &gateway.octets());
            (data, len)
        }
        None => (data, len),
    }
}

/// Reads the end of a call after the protocol. Returns the data of the connection as [`connection`] does.
fn origin_on<T: Text>(remote: Ipv6Addr, protocol: u16, text: T) -> Option<([u8; 56], usize)>
    ensures data { option_map (λ x. take x.1 x.0) result
        ≡ origin_on (ipv6_octets remote) protocol (T.bytes text) }
    ensures few { IfSome result (λ x. x.1 ≤ 56) }
{
    if closes_call(text) {
        return Some(connection(remote, protocol, 0, (Ipv6Addr::UNSPECIFIED, NO_GATEWAY)));
    }
    let (origin, rest) = origin(after(b",", text)?)?;
    let local = local(rest)?;
    Some(connection(remote, protocol, origin, local))
}

/// Reads the end of a call after the remote address. Returns the data of the connection as [`connection`]
/// does.
fn settings<T: Text>(remote: Ipv6Addr, text: T) -> Option<([u8; 56], usize)>
    ensures data { option_map (λ x. take x.1 x.0) result ≡ settings_read (ipv6_octets remote) (T.bytes text) }
    ensures few { IfSome result (λ x. x.1 ≤ 56) }
{
    if closes_call(text) {
        return origin_on(remote, 0, text);
    }
    let (protocol, rest) = protocol(after(b",", text)?)?;
    origin_on(remote, protocol, rest)
}

/// Reads a whole call. Returns the data of the connection as [`connection`] does.
fn call_data<T: Text>(text: T) -> Option<([u8; 56], usize)>
    ensures data { option_map (λ x. take x.1 x.0) result ≡ call_data (T.bytes text) }
    ensures few { IfSome result (λ x. x.1 ≤ 56) }
{
    let (remote, rest) = address(after(b"IPV6(", text)?)?;
    settings(remote, rest)
}

/// Returns whether a form's data ends with its fixed part.
fn is_fixed(tail: Tail) -> bool
    ensures { result ≡ is_fixed tail }
{
    matches!(tail, Tail::Nothing)
}

/// Returns the node, if it is completely described by the text that it is printed as.
fn told_fixed<T: Text>(node: ParsedNode<T>) -> Option<ParsedNode<T>>
    ensures { option_map parsed_node result ≡ told_fixed (parsed_node node) }
{
    let (kind, sub_kind) = node.types();
    let row = form_of(false, kind, sub_kind, node.head())?;
    if !is_fixed(row.tail) || !tells(row, &node) {
        return None;
    }
    Some(node)
}

/// Reads an IPv6 node from a tidied call whose addresses have any form of RFC 4291, section 2.2.
#[tactic(auto, unfolding(crate::specs::ShortAddresses::short_ipv6))]
pub(crate) fn short_ipv6<T: Text>(text: T) -> Option<ParsedNode<T>>
    ensures { option_map parsed_node result ≡ short_ipv6 (T.bytes text) }
{
    let (fixed, len) = call_data(text)?;
    let (node, _) = ParsedNode::with_tail(
        MESSAGING_TYPE,
        ipv6::SUB_TYPE,
        fixed,
        len,
        Tail::Nothing,
        "",
        text,
    )?;
    told_fixed(node)
}
