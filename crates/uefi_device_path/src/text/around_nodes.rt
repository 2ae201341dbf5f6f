//! What people paste around the nodes of a text: quotation marks, and a slash before the first node.
#![tactic(auto)]

ghost use Rattle.std.specs.Prelude.{◌≡◌};
ghost use Rattle.uefi_device_path.specs.AroundNodes.{after_first, before_closing, before_last, first_byte, first_place, is_grub_pci, is_mark, is_quoted, is_slashed, last_byte, may_begin, past_slash};

use uefi_node_reader::lenient::ambiguous::begins_with;
use uefi_node_reader::named_files::{before_spaces, is_after_node, past_spaces};
use uefi_node_reader::styles::TextStyle;
use uefi_node_reader::texts::{Text, is_empty};

/// Returns the first byte of a text that is no blank, and the text after it; or 0 and an empty
/// text.
fn first_byte<T: Text>(text: T) -> (u8, T)
    ensures byte { result.0 ≡ first_byte (T.bytes text) }
    ensures after { T.bytes result.1 ≡ after_first (T.bytes text) }
{
    let rest = past_spaces(text);
    match rest.split_first() {
        Some(split) => split,
        None => (0, rest),
    }
}

/// Returns the last byte of a text that is no blank, and the text before it; or 0 and an empty
/// text.
fn last_byte<T: Text>(text: T) -> (u8, T)
    ensures byte { result.0 ≡ last_byte (T.bytes text) }
    ensures before { T.bytes result.1 ≡ before_last (T.bytes text) }
{
    let kept = before_spaces(text);
    let (before, last) = kept.split_at(kept.len().saturating_sub(1));
    match last.split_first() {
        Some((byte, _)) => (byte, before),
        None => (0, before),
    }
}

/// Returns whether a byte is a quotation mark.
fn is_mark(byte: u8) -> bool
    ensures { result ≡ is_mark byte }
{
    byte == b'"' || byte == b'\''
}

/// Returns whether a text is in quotation marks, with more than blanks between them.
fn is_quoted<T: Text>(text: T) -> bool
    ensures { result ≡ is_quoted (T.bytes text) }
{
    let (first, _) = first_byte(text);
    if !is_mark(first) {
        return false;
    }
    let (last, before) = last_byte(text);
    let (_, inside) = first_byte(before);
    last == first && !is_empty(past_spaces(inside))
}

/// Returns whether a text is a call of GRUB for a PCI device, which has the function before the device, and
/// no `0x`.
fn is_grub_pci<T: Text>(text: T) -> bool
    ensures { result ≡ is_grub_pci (T.bytes text) }
{
    begins_with(b"PCI(", text) && !begins_with(b"PCI(0x", text)
}

/// Returns whether a text may begin a node after a slash at the start of a path.
fn may_begin<T: Text>(text: T) -> bool
    ensures { result ≡ may_begin (T.bytes text) }
{
    !is_after_node(text) && !is_grub_pci(text)
}

/// Returns whether a text begins with a slash after which a node may begin.
fn is_slashed<T: Text>(text: T) -> bool
    ensures { result ≡ is_slashed (T.bytes text) }
{
    let (first, after) = first_byte(text);
    first == b'/' && may_begin(past_spaces(after))
}

/// Returns the text after the slash at its start, if a node may follow the slash, or else the whole
/// text.
fn past_slash<T: Text>(text: T) -> T
    ensures { T.bytes result ≡ past_slash (T.bytes text) }
{
    if is_slashed(text) {
        first_byte(text).1
    } else {
        text
    }
}

/// Removes what people write around the nodes of a text, if the style allows it. Returns the text up
/// to the quotation mark that closes it, and its part from the first node on.
pub(crate) fn around_nodes<T: Text>(style: TextStyle, text: T) -> (T, T)
    ensures whole { T.bytes result.0 ≡ before_closing style (T.bytes text) }
    ensures first { T.bytes result.1 ≡ first_place style (T.bytes text) }
{
    match style {
        TextStyle::Lenient if is_quoted(text) => {
            let (_, before) = last_byte(text);
            (before, past_slash(first_byte(before).1))
        }
        TextStyle::Lenient => (text, past_slash(text)),
        TextStyle::Printed | TextStyle::Libefivar => (text, text),
    }
}
