//! Names of files as people write them: in `File(..)`, or without the first backslash.
#![tactic(auto)]

ghost use Rattle.std.specs.Option.{option_map};
ghost use Rattle.std.specs.List.{position_or_len};
ghost use Rattle.std.specs.Prelude.{◌≡◌, ◌+◌, ◌<◌, ◌^◌, codes, drop};
ghost use Rattle.uefi_node_reader.specs.ReadViews.{read_as, read_or_err};
ghost use Rattle.uefi_node_reader.specs.FileNodes.{node_of_file};
ghost use Rattle.uefi_node_reader.specs.LenientCalls.{whole};
ghost use Rattle.uefi_node_reader.specs.LenientFields.{after_literal};
ghost use Rattle.uefi_node_reader.specs.LenientNodes.{bare_name, bare_read, begins_call, begins_mark, closes_node, closing, cut_file, file_end, file_in, has_plain_start, is_bare, is_escaped_name, is_stray, name_end, omits_root, opened, past_closing, past_end, past_file, past_file_call, rooted, typed_name};
ghost use Rattle.uefi_node_reader.specs.NamedFiles.{begins_name, ends_name, name_read};

use crate::errors::faults::{Expected, NodeFault};
use crate::exact::clear_texts::first_of;
use crate::file_node::{FileNode, after_root};
use crate::lenient::lenient_fields::after_literal;
use crate::lenient::tidied::{cut_before, cut_call, has_mark};
use crate::named_files::{NameText, before_spaces, ends_name, is_after_node, past_spaces};
use crate::texts::{Text, is_empty};

/// Returns the node that was read, if nothing is left of the text.
fn whole<T: NameText>(read: Option<(FileNode<T>, T)>) -> Option<FileNode<T>>
    ensures { option_map node_of_file result
        ≡ whole (read_as node_of_file T.bytes read) }
{
    let (node, rest) = read?;
    if !is_empty(rest) {
        return None;
    }
    Some(node)
}

/// Returns whether a name begins with two backslashes: a program that escapes backslashes, as in JSON, wrote
/// it.
pub(crate) fn is_escaped_name<T: Text>(name: T) -> bool
    ensures { result ≡ is_escaped_name (T.bytes name) }
{
    let Some((first, rest)) = name.split_first() else {
        return false;
    };
    let Some((second, _)) = rest.split_first() else {
        return false;
    };
    first == b'\\' && second == b'\\'
}

/// Reads a whole text as the name of a file, with or without the first backslash.
fn whole_name<T: NameText>(text: T) -> Option<FileNode<T>>
    ensures { option_map node_of_file result ≡ whole (name_read (rooted (T.bytes text))) }
{
    let (first, rest) = text.split_first()?;
    if first == b'\\' {
        return whole(after_root(rest));
    }
    whole(after_root(text))
}

/// Reads a whole text as [`whole_name`] does, if its backslashes are not escaped.
fn typed_name<T: NameText>(text: T) -> Option<FileNode<T>>
    ensures { option_map node_of_file result ≡ typed_name (T.bytes text) }
{
    if is_escaped_name(text) {
        return None;
    }
    whole_name(text)
}

/// Returns whether a text begins with a `)` that may end a node. Blanks may follow it.
fn closes_node<T: Text>(text: T) -> bool
    ensures { result ≡ closes_node (T.bytes text) }
{
    match text.split_first() {
        Some((first, rest)) => first == b')' && is_after_node(past_spaces(rest)),
        None => false,
    }
}

/// Returns the text from the first `)` on that may end a node.
fn from_name_end<T: Text>(text: T) -> Option<T>
    ensures { option_map T.bytes result
        ≡ option_map (λ place. drop place (T.bytes text)) (name_end (T.bytes text)) }
{
    let mut rest = text;
    'bytes: while let Some((_, after)) = rest.split_first() {
        if closes_node(rest) {
            return Some(rest);
        }
        rest = after;
    }
    None
}

/// Returns the number of parentheses that are open after a byte.
fn opened(depth: usize, byte: u8) -> usize
    requires { depth + 1 < 2 ^ 64 }
    ensures { result ≡ opened depth byte }
{
    match byte {
        b'(' => depth + 1,
        b')' => depth.saturating_sub(1),
        _ => depth,
    }
}

/// Returns the text from the `)` on that closes a call. No slash or comma comes before it.
fn from_closing<T: Text>(text: T) -> Option<T>
    ensures { option_map T.bytes result
        ≡ option_map (λ place. drop place (T.bytes text)) (closing 0 (T.bytes text)) }
{
    // At most all bytes are open parentheses, so their number fits.
    let _most = text.len();
    let mut depth = 0;
    let mut rest = text;
    'bytes: while let Some((byte, after)) = rest.split_first() {
        if byte == b')' && depth == 0 {
            return Some(rest);
        }
        if ends_name(byte) {
            return None;
        }
        depth = opened(depth, byte);
        rest = after;
    }
    None
}

/// Returns the text from the `)` on that ends a name in `File(..)`.
fn from_file_end<T: Text>(text: T) -> Option<T>
    ensures { option_map T.bytes result
        ≡ option_map (λ place. drop place (T.bytes text)) (file_end (T.bytes text)) }
{
    match from_name_end(text) {
        Some(rest) => Some(rest),
        None => from_closing(text),
    }
}

/// Splits a text at the `)` that ends a name in `File(..)`, and omits that byte. The name may contain other
/// `)`.
fn cut_file<T: Text>(text: T) -> Option<(T, T)>
    ensures { option_map (λ x. (T.bytes x.0, T.bytes x.1)) result ≡ cut_file (T.bytes text) }
{
    match from_file_end(text) {
        Some(rest) => cut_before(text, rest),
        None => cut_call(text),
    }
}

/// Returns the text after its first byte, if no node may end there.
fn past_end<T: Text>(text: T) -> Option<T>
    ensures { option_map T.bytes result ≡ past_end (T.bytes text) }
{
    let (_, rest) = text.split_first()?;
    if is_after_node(past_spaces(rest)) {
        return None;
    }
    Some(rest)
}

/// Returns the text after the `)` that closes a call, if no node may end there.
fn past_closing<T: Text>(name: T) -> Option<T>
    ensures { option_map T.bytes result ≡ past_closing (T.bytes name) }
{
    past_end(from_closing(name)?)
}

/// Returns the text after `File(..)` at the start of a text, if no node may end there.
fn past_file<T: Text>(text: T) -> Option<T>
    ensures { option_map T.bytes result ≡ past_file (after_literal (codes "File(") (T.bytes text)) }
{
    match after_literal(b"File(", text) {
        Ok(name) => past_closing(name),
        Err(_) => None,
    }
}

/// Returns the text after the first `File(..)` of a text after which no node may end: other text follows the
/// path there.
pub fn past_file_call<T: Text>(text: T) -> Option<T>
    ensures { option_map T.bytes result ≡ past_file_call (T.bytes text) }
{
    let mut rest = text;
    'bytes: while let Some((_, after)) = rest.split_first() {
        if let Some(left) = past_file(rest) {
            return Some(left);
        }
        rest = after;
    }
    None
}

/// Reads the name in `File(..)`, given the whole text and its part from the name on. Returns the node and
/// the text after the `)`, or the fault of the text.
pub(crate) fn file<T: NameText>(text: T, name: T) -> Result<(FileNode<T>, T), NodeFault>
    ensures { read_or_err node_of_file T.bytes result
        ≡ file_in (T.bytes text) (T.bytes name) (cut_file (T.bytes name)) }
{
    let Some((front, rest)) = cut_file(name) else {
        return Err(NodeFault {
            byte: text.len(),
            expected: Expected::Byte(b')'),
        });
    };
    match typed_name(front) {
        Some(node) => Ok((node, rest)),
        None => Err(NodeFault {
            byte: text.len().saturating_sub(name.len()),
            expected: Expected::FileName,
        }),
    }
}

/// Returns whether a text begins with a backslash.
fn begins_name<T: Text>(text: T) -> bool
    ensures { result ≡ begins_name (T.bytes text) }
{
    match text.split_first() {
        Some((first, _)) => first == b'\\',
        None => false,
    }
}

/// Returns whether a text begins with a call: whether a `(` comes before the first slash or comma, and no
/// backslash begins the text.
pub(crate) fn begins_call<T: NameText>(text: T) -> bool
    ensures { result ≡ begins_call (T.bytes text) }
{
    let (name, _) = text.split_name();
    has_mark(b'(', name) && !begins_name(past_spaces(text))
}

/// Returns whether a byte is a blank, a quotation mark, or a character that no short name on a FAT volume
/// contains.
fn is_stray(byte: u8) -> bool
    ensures { result ≡ is_stray byte }
{
    matches!(
        byte,
        b' ' | b'"'
            | b'\''
            | b'`'
            | b'*'
            | b'+'
            | b':'
            | b';'
            | b'<'
            | b'='
            | b'>'
            | b'?'
            | b'['
            | b']'
            | b'|'
    )
}

/// Returns whether the UTF-8 of a blank or a mark begins with this byte, before this text.
fn begins_mark<T: Text>(byte: u8, after: T) -> bool
    ensures { result ≡ begins_mark byte (T.bytes after) }
{
    let next = first_of(after);
    byte == 0xc2 || byte == 0xe2 && (next == 0x80 || next == 0x81) || byte == 0xe3 && next == 0x80
}

/// Returns whether a name contains a backslash, with nothing before it that is excluded there.
fn has_plain_start<T: Text>(name: T) -> bool
    ensures { result ≡ has_plain_start (T.bytes name) }
{
    let mut rest = name;
    'bytes: while let Some((byte, after)) = rest.split_first() {
        if byte == b'\\' {
            return true;
        }
        if is_stray(byte) || begins_mark(byte, after) {
            return false;
        }
        rest = after;
    }
    false
}

/// Returns whether a name may omit its first backslash: it contains another, with nothing before it that a
/// short name on a FAT volume excludes, and no `)`, `:` or quotation mark.
fn omits_root<T: Text>(name: T) -> bool
    ensures { result ≡ omits_root (T.bytes name) }
{
    has_plain_start(name)
        && !(has_mark(b')', name)
            || (has_mark(b':', name) || (has_mark(b'"', name) || has_mark(b'\'', name))))
}

/// Returns whether a name begins with a backslash, or may omit it.
fn is_bare<T: Text>(name: T) -> bool
    ensures { result ≡ is_bare (T.bytes name) }
{
    begins_name(name) || omits_root(name)
}

/// Returns the name at the start of a text, without the blanks and line ends around it, and the text
/// after it.
fn bare_name<T: NameText>(text: T) -> (T, T)
    ensures name { T.bytes result.0 ≡ bare_name (T.bytes text) }
    ensures rest { T.bytes result.1 ≡ drop (position_or_len ends_name (T.bytes text)) (T.bytes text) }
{
    let (front, rest) = text.split_name();
    (before_spaces(past_spaces(front)), rest)
}

/// Reads the name of a file at the start of a text, with blanks and line ends around it, if it may omit its
/// first backslash. If `is_rooted`, it has to have that backslash. Returns the rest of the text too.
pub(crate) fn bare<T: NameText>(is_rooted: bool, text: T) -> Option<(FileNode<T>, T)>
    ensures { read_as node_of_file T.bytes result ≡ bare_read is_rooted (T.bytes text) }
{
    let (name, rest) = bare_name(text);
    let may_be_name = if is_rooted {
        begins_name(name)
    } else {
        is_bare(name)
    };
    if !may_be_name {
        return None;
    }
    let node = typed_name(name)?;
    Some((node, rest))
}
