//! The first bytes of a node's data. Data can have up to 64 kilobytes, and code has no memory for them, so
//! it remembers the first ones, and reads the text again where it needs the others.
#![tactic(auto)]

ghost use Rattle.std.specs.List.{list_all};
ghost use Rattle.std.specs.Prelude.{◌≡◌, ◌-◌, ◌≤◌, ◌^◌, ◌∷◌, ◌++◌, [], List, ℕ, length, min, slice_set, take, true};
ghost use Rattle.uefi_node_steps.specs.Heads.{is_byte};

use crate::texts::Sink;
use std::marker::Model;

/// The most bytes that a fixed part can have.
pub const MOST_FIXED: usize = 56;

/// Bytes that only contracts see. No running program stores them.
#[derive(Drop)]
pub(crate) struct Seen {
    ghost bytes: { List ℕ },
}

impl Model for Seen {
    ghost use Rattle.std.specs.Borrow.{ftrue};

    ghost also_owns = { λ _. ftrue };
}

impl Seen {
    pub(crate) fn none() -> Seen
        ensures { result.bytes ≡ [] }
    {
        Seen {}
    }

    /// Returns the bytes and one more.
    fn with(_before: &Seen, _byte: &u8) -> Seen
        ensures { result.bytes ≡ _before.now.bytes ++ _byte.now ∷ [] }
    {
        Seen {}
    }
}

/// The first bytes of data, and how many bytes it has, or `usize::MAX` if it has more. A contract sees all
/// bytes.
#[derive(Drop)]
pub(crate) struct Head {
    pub(crate) bytes: [u8; MOST_FIXED],
    pub(crate) count: usize,
    pub(crate) seen: Seen,
    ghost long: { length bytes ≡ 56 },
    ghost counted: { count ≡ min (length seen.bytes) (2 ^ 64 - 1) },
    ghost kept: { take count bytes ≡ take 56 seen.bytes },
    ghost are_bytes: { list_all is_byte seen.bytes ≡ true },
}

/// Writes a byte to an offset, if there is such an offset.
pub(crate) fn put_at(bytes: &mut [u8], place: usize, byte: u8)
    ensures { bytes.new ≡ slice_set bytes.old place byte }
{
    if place < bytes.len() {
        bytes[place] = byte;
    }
}

impl Head {
    /// Returns the head of no data.
    pub(crate) fn new() -> Head
        ensures { result.seen.bytes ≡ [] }
    {
        Head {
            bytes: [0; MOST_FIXED],
            count: 0,
            seen: Seen::none(),
        }
    }

    /// Returns the first bytes of a fixed part and of the data after it.
    pub(crate) fn behind(&self, fixed: &[u8]) -> [u8; MOST_FIXED]
        requires { length fixed.now ≤ 56 }
        ensures { result ≡ fixed.now ++ take (56 - length fixed.now) self.now.bytes }
    {
        let mut head = [0; MOST_FIXED];
        let (front, back) = head.split_at_mut(fixed.len());
        front.copy_from_slice(fixed);
        back.copy_from_slice(&self.bytes[..back.len()]);
        head
    }
}

impl Sink for Head {
    ghost content = { λ head. head.seen.bytes };

    fn put(&mut self, code: u8) {
        put_at(&mut self.bytes, self.count, code);
        self.count = self.count.saturating_add(1);
        self.seen = Seen::with(&self.seen, &code);
    }
}
