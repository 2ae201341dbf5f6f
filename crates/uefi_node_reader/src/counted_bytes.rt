//! Bytes that are put into a buffer one after the other, and counted even if the buffer has no room for
//! them.
#![tactic(auto)]

ghost use Rattle.std.specs.Prelude.{◌≡◌};
ghost use Rattle.uefi_node_reader.specs.CountedBytes.{pushed_bytes, pushed_byte};

/// Puts a byte after `len` others, if there is room. Returns the new number of bytes.
pub(crate) fn push(places: &mut [u8], len: usize, byte: u8) -> usize
    ensures { (places.new, result) ≡ pushed_byte (places.old, len) byte }
{
    if len < places.len() {
        places[len] = byte;
    }
    len.saturating_add(1)
}

/// Puts bytes after `len` others, as far as there is room. Returns the new number of bytes.
pub(crate) fn push_all(places: &mut [u8], len: usize, bytes: &[u8]) -> usize
    ensures { (places.new, result) ≡ pushed_bytes (places.old, len) bytes.now }
{
    let mut count = len;
    for byte in bytes {
        count = push(places, count, *byte);
    }
    count
}
