//! Nodes of files, read from the names.
#![tactic(auto)]

ghost use Rattle.std.specs.Prelude.{◌≡◌, ◌∷◌, ℕ, List, ◌≤◌, None, Some, if◌then◌else◌, length, nat_le, true};
ghost use Rattle.std.specs.Str.{is_utf8};
ghost use Rattle.uefi_node_reader.specs.ReadViews.{read_as};
ghost use Rattle.uefi_node_reader.specs.FileNodes.{node_of_file, rooted_data};
ghost use Rattle.uefi_node_reader.specs.CountedBytes.{pushed_bytes};
ghost use Rattle.uefi_node_reader.specs.NamedFiles.{name_read};

use crate::counted_bytes::push;
use crate::named_files::NameText;
use std::marker::Model;

/// A node of a file, read from a name. A contract sees its data.
#[derive(Drop)]
pub struct FileNode<T: NameText> {
    /// The name after its first backslash.
    name: T,
    len: u16,
}

impl<T: NameText> Model for FileNode<T> {
    ghost Value = { List ℕ };

    ghost view = { λ n. rooted_data (T.bytes n.name) };

    ghost invariant = { λ n. (is_utf8 (T.bytes n.name) ≡ true)
        × (n.len ≡ length (rooted_data (T.bytes n.name)))
        × (n.len ≤ 0xfffb) };
}

/// Puts the data of a file's node: a backslash and a name in UTF-16, and a NUL. Returns the number of bytes.
fn push_name<T: NameText>(places: &mut [u8], name: T) -> usize
    requires { is_utf8 (T.bytes name) ≡ true }
    ensures { (places.new, result) ≡ pushed_bytes (places.old, 0) (rooted_data (T.bytes name)) }
{
    let len = push(places, 0, b'\\');
    let len = push(places, len, 0);
    let len = name.push_utf16(places, len);
    let len = push(places, len, 0);
    push(places, len, 0)
}

impl<T: NameText> FileNode<T> {
    /// Returns the node of a file with a backslash and this name, or `None` if its data is too long.
    pub(crate) fn with_name(name: T) -> Option<Self>
        requires { is_utf8 (T.bytes name) ≡ true }
        ensures { result ≡ (if nat_le (length (rooted_data (T.bytes name))) 0xfffb
            then Some (rooted_data (T.bytes name)) else None) }
    {
        let len = push_name(&mut [], name);
        if 0xfffb < len {
            return None;
        }
        Some(FileNode {
            name,
            len: len as u16,
        })
    }

    /// Returns the number of bytes of data.
    pub(crate) fn data_len(&self) -> usize
        ensures count { result ≡ length self.now }
        ensures fits { result ≤ 0xfffb }
    {
        usize::from(self.len)
    }

    /// Writes the data to a buffer of the same length.
    pub(crate) fn write_data(&self, bytes: &mut [u8])
        requires { length bytes.old ≡ length self.now }
        ensures { bytes.new ≡ self.now }
    {
        push_name(bytes, self.name);
    }
}

/// Reads the node of the name whose first backslash precedes a text, and returns the rest of the text too.
pub(crate) fn after_root<T: NameText>(text: T) -> Option<(FileNode<T>, T)>
    ensures { read_as node_of_file T.bytes result ≡ name_read (92 ∷ T.bytes text) }
{
    let (name, rest) = text.split_name();
    if !name.has_name_chars() {
        return None;
    }
    let node = FileNode::with_name(name)?;
    Some((node, rest))
}

/// Reads the node of the name at the start of a text, and returns the rest of the text too.
pub(crate) fn name<T: NameText>(text: T) -> Option<(FileNode<T>, T)>
    ensures { read_as node_of_file T.bytes result ≡ name_read (T.bytes text) }
{
    let (first, rest) = text.split_first()?;
    if first != b'\\' {
        return None;
    }
    after_root(rest)
}
