//! Texts, fields and bytes of the packed table, each kind in one constant. So the table contains no pointer,
//! and firmware that loads a program relocates nothing in it.

ghost use Rattle.std.specs.Prelude.{◌≡◌, slice_index};
ghost use Rattle.uefi_device_nodes.specs.Parts.{packed_bytes, part_of, packed_pieces, packed_text};

use crate::node_table::packed::{BYTE_STARTS, BYTES, PIECE_STARTS, PIECES, TEXT_STARTS, TEXTS};
use crate::node_table::parts::{Bytes, Pieces, Text};
use crate::node_table::rows::Piece;

/// Returns where a part begins, or 0 after the last part.
fn start_of(starts: &[u16], number: usize) -> usize
    ensures { result ≡ slice_index starts.now number }
{
    if number < starts.len() {
        return usize::from(starts[number]);
    }
    0
}

/// Returns the part with a number. It ends where the next part begins.
pub(crate) fn part<'a, T>(items: &'a [T], starts: &[u16], number: u8) -> &'a [T]
    ensures { result.now ≡ part_of items.now starts.now number }
{
    let number = usize::from(number);
    let from = start_of(starts, number);
    let to = start_of(starts, number + 1);
    let rest = &items[from.min(items.len())..];
    &rest[..to.saturating_sub(from).min(rest.len())]
}

impl Text {
    /// Returns the text.
    #[tactic(auto, unfolding(crate::specs::Parts::packed_text))]
    pub fn as_str(self) -> &'static str
        ensures { result.now ≡ packed_text self }
    {
        // SAFETY: the part is UTF-8, which is proved here as the condition of the call.
        unsafe { str::from_utf8_unchecked(part(&TEXTS, &TEXT_STARTS, self.number)) }
    }

    /// Returns the bytes of the text.
    pub fn as_bytes(self) -> &'static [u8]
        ensures value { result.now ≡ packed_text self }
    {
        self.as_str().as_bytes()
    }
}

impl Bytes {
    /// Returns the offsets and the values of the bytes.
    #[tactic(auto, unfolding(crate::specs::Parts::packed_bytes))]
    pub fn as_slice(self) -> &'static [(u8, u8)]
        ensures { result.now ≡ packed_bytes self }
    {
        part(&BYTES, &BYTE_STARTS, self.number)
    }
}

impl Pieces {
    /// Returns the fields.
    #[tactic(auto, unfolding(crate::specs::Parts::packed_pieces))]
    pub fn as_slice(self) -> &'static [Piece]
        ensures { result.now ≡ packed_pieces self }
    {
        part(&PIECES, &PIECE_STARTS, self.number)
    }
}
