//! Addresses of IP version 6, read in any form of RFC 4291, section 2.2.
#![tactic(auto)]

ghost use Rattle.std.specs.Prelude.{◌≡◌, ◌<◌, ◌≤◌, MatchOption, length, take};
ghost use Rattle.std.specs.Net.Addr.{ipv6_octets};
ghost use Rattle.std.specs.Option.{option_map};
ghost use Rattle.uefi_node_steps.specs.Leaves.{address_octets, address_run, any_address, bare_address, ends_address};

use crate::leaves::{is_blank, letters, past_blanks};
use crate::texts::Text;
use std::net::Ipv6Addr;

/// The number of letters of the longest text of an address,
/// `ffff:ffff:ffff:ffff:ffff:ffff:255.255.255.255`.
const LONGEST_ADDRESS: usize = 45;

/// Returns whether a letter ends an address.
fn ends_address(letter: u8) -> bool
    ensures { result ≡ ends_address letter }
{
    letter == b',' || letter == b')' || letter == b']' || is_blank(letter)
}

/// Copies the letters of an address, and returns how many there are and the rest of the text. Returns
/// `None` if the buffer is too short for them.
fn copy_address<T: Text>(found: &mut [u8], text: T) -> Option<(usize, T)>
    ensures { MatchOption result (length found.old < length (address_run (T.codes text)).0)
        (λ x. (x.0 ≤ length found.new) × (take x.0 found.new ≡ (address_run (T.codes text)).0)
        × (T.codes x.1 ≡ (address_run (T.codes text)).1)) }
{
    let mut rest = text;
    let mut len = 0;
    'letters: while let Some((first, others)) = rest.split_first() {
        if ends_address(first) {
            return Some((len, rest));
        }
        if len == found.len() {
            return None;
        }
        found[len] = first;
        len += 1;
        rest = others;
    }
    Some((len, rest))
}

/// Returns the address that letters encode.
#[tactic(auto, unfolding(crate::specs::Leaves::address_octets))]
fn address_of(letters: &[u8]) -> Option<Ipv6Addr>
    requires { length letters.now ≤ 45 }
    ensures { option_map ipv6_octets result ≡ address_octets letters.now }
{
    Ipv6Addr::parse_ascii(letters).ok()
}

/// Reads an address without brackets.
fn bare_address<T: Text>(text: T) -> Option<(Ipv6Addr, T)>
    ensures { option_map (λ x. (ipv6_octets x.0, T.codes x.1)) result ≡ bare_address (T.codes text) }
{
    // A text can be UTF-16, and std reads bytes.
    let mut found = [0; LONGEST_ADDRESS];
    let (len, rest) = copy_address(&mut found, text)?;
    let address = address_of(&found[..len])?;
    Some((address, rest))
}

/// Reads an address, perhaps in brackets.
pub(crate) fn any_address<T: Text>(text: T) -> Option<(Ipv6Addr, T)>
    ensures { option_map (λ x. (ipv6_octets x.0, T.codes x.1)) result ≡ any_address (T.codes text) }
{
    let text = past_blanks(text);
    match text.split_first() {
        Some((b'[', rest)) => {
            let (address, rest) = bare_address(rest)?;
            let rest = letters(b"]", rest).ok()?;
            Some((address, rest))
        }
        _ => bare_address(text),
    }
}
