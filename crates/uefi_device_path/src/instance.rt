//! The instances of a device path.
#![tactic(auto, unfolding(crate::specs::Views::instance_nodes, crate::specs::Views::instances_left, crate::specs::Views::nodes_left))]

ghost use Rattle.std.specs.Prelude.{◌≡◌, ◌+◌, ◌<◌, ◌^◌, ◌∷◌, ◌++◌, All, drop, length, IfErr, IfOk, OnErr, OnOk, nat_eq};
ghost use Rattle.std.specs.Option.{ForSome};
ghost use Rattle.uefi_device_path.specs.FilePathBuffers.{WriteRefusedFor};
ghost use Rattle.uefi_text.specs.Units.{IsText, nul_terminated};
ghost use Rattle.uefi_text.specs.Views.{text_of};
ghost use Rattle.uefi_device_path.specs.FilePaths.{FilePathRefusedFor, IsReadable, file_path};
ghost use Rattle.uefi_device_nodes.specs.Nodes.{IsInner, is_end_instance};
ghost use Rattle.uefi_device_path.specs.Paths.{AreNodes, nodes_bytes, nodes_in};
ghost use Rattle.uefi_device_path.specs.Instances.{instances, instances_in};
ghost use Rattle.uefi_device_nodes.specs.NodeViews.{node_of};
ghost use Rattle.uefi_text.specs.Runs.{GivesEach};
ghost use Rattle.std.specs.Cmp.{on_per, partial_equiv_from_equiv};
ghost use Rattle.std.specs.Cmp.Lexicographic.{nat_list_eq_equiv, pointwise, on_texts_equal};
ghost use Rattle.std.specs.Iterator.{YieldsFirstBy, item_count};

use crate::errors::{FilePathCause, FilePathError, FilePathWriteError};
use crate::file_path::{file_path_in, write_file_path_in};
use crate::node_iterator::DevicePathNodeIterator;
use std::alloc::Allocator;
use std::fmt;
use std::hash::{Hash, Hasher};
use uefi_device_nodes::DevicePathNode;
use uefi_path::PathBuf;
use uefi_text::CStr16;

/// An instance of a device path: the nodes between two nodes that end an instance, without these. A
/// contract sees it as `instance_nodes` of it.
///
/// ```rust
/// let path = DevicePathBuf::from_text(rt.alloc(), "SD(0x1),SD(0x2)")?;
/// let instance = path.as_device_path().instance_iter().next().ok_or("no instance")?;
/// assert_eq!(rt; instance.as_bytes(), [3, 0x1a, 5, 0, 1].as_slice());
/// assert_eq!(rt; instance.node_iter().count(), 1);
/// ```
#[derive(Clone, Copy)]
pub struct DevicePathInstance<'a> {
    pub(crate) bytes: &'a [u8],
    pub ghost are_nodes: { AreNodes bytes.now },
}

/// An iterator over the instances of a device path, in order. A contract sees it as
/// `instances_left` of it: the instances that remain.
#[derive(Drop)]
pub struct DevicePathInstanceIterator<'a> {
    /// The bytes that are left to cut; `None` after the last instance.
    rest: Option<&'a [u8]>,
    pub ghost are_nodes: { ForSome rest (λ bytes. AreNodes bytes.now) },
}

/// Returns the bytes of the first instance, and the bytes after the node that ends it, if there is
/// one.
pub(crate) fn cut_instance(bytes: &[u8]) -> (&[u8], Option<&[u8]>)
    requires { AreNodes bytes.now }
    ensures first { AreNodes result.0.now }
    ensures rest { ForSome result.1 (λ after. AreNodes after.now) }
    ensures cut { instances (nodes_in bytes.now) ≡ nodes_in result.0.now ∷ instances_in result.1 }
{
    let mut rest = bytes;
    while !rest.is_empty() {
        let (node, after) = DevicePathNode::take_first(rest);
        if node.is_end_instance() {
            return (&bytes[..bytes.len() - rest.len()], Some(after));
        }
        rest = after;
    }
    (bytes, None)
}

impl<'a> DevicePathInstance<'a> {
    ghost use Rattle.uefi_device_path.specs.Views.{instance_nodes, nodes_left};

    /// Returns the bytes of the nodes.
    pub fn as_bytes(&self) -> &'a [u8]
        ensures bytes { result.now ≡ nodes_bytes (instance_nodes self.now) }
        ensures inner { All IsInner (instance_nodes self.now) }
    {
        self.bytes
    }

    /// Returns an iterator over the nodes of the instance, in order.
    pub fn node_iter(&self) -> DevicePathNodeIterator<'a>
        ensures same { nodes_left result ≡ instance_nodes self.now }
        ensures bound { length (nodes_left result) < 2 ^ 64 }
        ensures runs { GivesEach node_of nodes_left result }
    {
        DevicePathNodeIterator::of(self.bytes)
    }

    /// Joins the names of its nodes that name files, as [`DevicePath::file_path`](crate::DevicePath) does.
    ///
    /// ```rust
    /// let path = DevicePathBuf::from_text(rt.alloc(), r"\efi\a.efi,SD(0x1)")?;
    /// let instance = path.as_device_path().instance_iter().next().ok_or("no instance")?;
    /// let file = instance.file_path(rt.alloc())?;
    /// assert_eq!(rt; format!(in rt.alloc(); "{file}")?.as_str(), r"\efi\a.efi");
    /// ```
    pub fn file_path<A: Allocator + Copy>(&self, alloc: A) -> Result<PathBuf<A>, FilePathError>
        ensures ok { IfOk result (λ path. path ≡ file_path (instance_nodes self.now)) }
        ensures accepted { IfOk result (λ _. All IsReadable (instance_nodes self.now)) }
        ensures refusal { IfErr result (λ error. FilePathRefusedFor (instance_nodes self.now) error) }
    {
        file_path_in(alloc, self.bytes)
    }

    /// Writes the file path, which [`DevicePathInstance::file_path`] makes, to the start of a
    /// buffer, with a NUL, and returns its length without the NUL. The rest of the buffer is
    /// unchanged.
    ///
    /// Fails with `Name` if that call rejects a name, for the same node, and otherwise with
    /// `BufferTooSmall` if the buffer is too small. The buffer is then unchanged. Does not
    /// allocate.
    ///
    /// ```rust
    /// let path = DevicePathBuf::from_text(rt.alloc(), r"\a\b,SD(0x1)")?;
    /// let instance = path.as_device_path().instance_iter().next().ok_or("no instance")?;
    /// let mut buffer = [0xffff; 5];
    /// assert_eq!(rt; instance.write_file_path(&mut buffer), Ok(4));
    /// assert_eq!(rt; buffer, [0x5c, 0x61, 0x5c, 0x62, 0]);
    /// ```
    pub fn write_file_path(&self, buffer: &mut [u16]) -> Result<usize, FilePathWriteError>
        ensures len { IfOk result (λ len. len ≡ length (file_path (instance_nodes self.now))) }
        ensures text { OnOk result (IsText (file_path (instance_nodes self.now))) }
        ensures accepted { OnOk result (All IsReadable (instance_nodes self.now)) }
        ensures room { IfOk result (λ len. len < length buffer.old) }
        ensures ok { OnOk result (buffer.new ≡ nul_terminated (file_path (instance_nodes self.now))
            ++ drop (length (file_path (instance_nodes self.now)) + 1) buffer.old) }
        ensures err { OnErr result (buffer.new ≡ buffer.old) }
        ensures refusal { IfErr result (λ error.
            WriteRefusedFor (instance_nodes self.now) (length buffer.old) error) }
    {
        write_file_path_in(self.bytes, buffer)
    }

    /// Writes the file path to the start of a buffer, and borrows it from there as a string. Fails
    /// as [`DevicePathInstance::write_file_path`] does.
    ///
    /// ```rust
    /// let path = DevicePathBuf::from_text(rt.alloc(), r"\a\b,SD(0x1)")?;
    /// let instance = path.as_device_path().instance_iter().next().ok_or("no instance")?;
    /// let mut buffer = [0; 16];
    /// assert_eq!(rt; instance.file_path_in_buf(&mut buffer)?.num_chars(), 4);
    /// ```
    pub fn file_path_in_buf<'b>(&self, buf: &'b mut [u16]) -> Result<CStr16<'b>, FilePathWriteError>
        ensures ok { IfOk result (λ string. text_of string ≡ file_path (instance_nodes self.now)) }
        ensures accepted { OnOk result (All IsReadable (instance_nodes self.now)) }
        ensures room { OnOk result (length (file_path (instance_nodes self.now)) < length buf.old) }
        ensures refusal { IfErr result (λ error.
            WriteRefusedFor (instance_nodes self.now) (length buf.old) error) }
    {
        let len = self.write_file_path(buf)?;
        Ok(CStr16::from_string(&buf[..len + 1]))
    }
}

/// Two instances are equal exactly when their bytes are.
impl<'a> PartialEq for DevicePathInstance<'a> {
    ghost use Rattle.uefi_device_path.specs.Views.{instance_nodes};

    ghost eq = { λ a b. pointwise nat_eq (nodes_bytes (instance_nodes a)) (nodes_bytes (instance_nodes b)) };

    ghost laws = { on_per (λ a. nodes_bytes (instance_nodes a))
        (partial_equiv_from_equiv nat_list_eq_equiv) };

    fn eq(&self, other: &Self) -> bool {
        self.as_bytes() == other.as_bytes()
    }
}

impl<'a> Eq for DevicePathInstance<'a> {
    ghost use Rattle.uefi_device_path.specs.Views.{instance_nodes};

    ghost laws = { on_texts_equal (λ a. nodes_bytes (instance_nodes a)) };
}

/// Hashes the bytes.
impl<'a> Hash for DevicePathInstance<'a> {
    ghost use Rattle.std.proofs.Common.{rules};
    ghost use Rattle.std.specs.Hash as fed;
    ghost use Rattle.std.specs.Cmp.Rules.{comparing, hashing};
    ghost use Rattle.uefi_device_path.specs.Views.{instance_nodes};

    ghost hash_input = { λ a. fed.slice fed.u8 (nodes_bytes (instance_nodes a)) };

    ghost respects_eq = { Prim.search (hashing, comparing, rules) };

    fn hash<H: Hasher>(&self, state: &mut H) {
        self.as_bytes().hash(state);
    }
}

/// Writes the bytes.
impl<'a> fmt::Debug for DevicePathInstance<'a> {
    fn fmt<W: fmt::Write>(&self, f: &mut fmt::Formatter<W>) -> fmt::Result {
        f.debug_tuple("DevicePathInstance")
            .field(&self.as_bytes())
            .finish()
    }
}

impl<'a> DevicePathInstanceIterator<'a> {
    ghost use Rattle.uefi_device_path.specs.Views.{instance_nodes, instances_left};

    /// Creates an iterator over the instances of nodes, given as bytes.
    pub(crate) fn of(bytes: &'a [u8]) -> Self
        requires { AreNodes bytes.now }
        ensures same { instances_left result ≡ instances (nodes_in bytes.now) }
        ensures runs { GivesEach instance_nodes instances_left result }
    {
        DevicePathInstanceIterator { rest: Some(bytes) }
    }
}

/// Gives the instances from the front, and then always `None`.
impl<'a> Iterator for DevicePathInstanceIterator<'a> {
    type Item = DevicePathInstance<'a>;

    ghost use Rattle.uefi_device_path.specs.Views.{instance_nodes, instances_left};

    ghost next_gives = { YieldsFirstBy instance_nodes instances_left };

    ghost remaining = { item_count instances_left };

    fn next(&mut self) -> Option<DevicePathInstance<'a>> {
        let bytes = self.rest?;
        let (first, rest) = cut_instance(bytes);
        self.rest = rest;
        Some(DevicePathInstance { bytes: first })
    }
}
