//! Owned device paths, which grow.
#![tactic(auto)]

ghost use Rattle.std.specs.Prelude.{◌≡◌, ◌+◌, ◌-◌, ◌<◌, ◌≤◌, ◌∷◌, ◌++◌, ◌%◌, ◌/◌, [], List, length, take, IfOk, IfErr, OnOk, OnErr, None, unwrap_or};
ghost use Rattle.std.specs.Result.{result_err};
ghost use Rattle.std.specs.Vec.{vec_capacity, vec_len};
ghost use Rattle.uefi_device_nodes.specs.Nodes.{end_entire, node_bytes, node_length, node_with};
ghost use Rattle.uefi_device_path.specs.Paths.{IsPath, nodes_in, without_end};
ghost use Rattle.uefi_device_path.specs.Building.{build_refusal, node_of_name};
ghost use Rattle.uefi_path.specs.Views.{path_text};
ghost use Rattle.uefi_device_path.specs.Views.{nodes_of};

use crate::device_path::DevicePath;
use crate::errors::BuildError;
use std::alloc::{AllocError, Allocator, Global};
use std::marker::Model;
use uefi_device_nodes::build_node::{BuildNode, RawNode};
use uefi_device_nodes::media::build as media;
use uefi_device_nodes::{DeviceSubType, DeviceType};
use uefi_path::Path;

/// A device path in its own memory, which grows. A contract sees it as the list of its nodes,
/// without the end node.
#[derive(Drop)]
pub struct DevicePathBuf<A: Allocator = Global> {
    bytes: Vec<u8, A>,
}

impl<A: Allocator> Model for DevicePathBuf<A> {
    ghost use Rattle.std.specs.Prelude.{List};
    ghost use Rattle.uefi_device_nodes.specs.Nodes.{Node};
    ghost use Rattle.uefi_device_path.specs.Paths.{IsPath, nodes_in, without_end};

    ghost Value = { List Node };

    ghost view = { λ path. nodes_in (without_end path.bytes.items) };

    ghost invariant = { λ path. IsPath path.bytes.items };
}

/// Writes a node over the last four bytes, and the node that ends a path after it.
fn put_node<N: BuildNode, A: Allocator>(bytes: &mut Vec<u8, A>, header: [u8; 4], node: &N)
    requires end { 4 ≤ vec_len bytes.old }
    requires room { vec_len bytes.old + length (N.node node.now).content + 4 ≤ vec_capacity bytes.old }
    ensures { bytes.new.items ≡ without_end bytes.old.items
        ++ (header ++ ((N.node node.now).content ++ node_bytes end_entire)) }
{
    let start = bytes.len();
    bytes.truncate(start - 4);
    let _ = bytes.extend_from_slice(&header);
    let _ = bytes.resize(start + node.data_len(), 0);
    node.write_data(&mut bytes.as_mut_slice()[start..]);
    let _ = bytes.extend_from_slice(&[0x7f, 0xff, 4, 0]);
}

/// Writes the bytes of a path over the last four bytes.
fn put_path<A: Allocator>(bytes: &mut Vec<u8, A>, path: &[u8])
    requires end { 4 ≤ vec_len bytes.old }
    requires room { vec_len bytes.old + (length path.now - 4) ≤ vec_capacity bytes.old }
    requires path { 4 ≤ length path.now }
    ensures { bytes.new.items ≡ without_end bytes.old.items ++ path.now }
{
    let start = bytes.len();
    bytes.truncate(start - 4);
    let _ = bytes.extend_from_slice(path);
}

/// Fails if a node must not be before the end of a path.
pub(crate) fn check_node<N: BuildNode>(node: &N) -> Result<(), BuildError>
    ensures { result_err result ≡ build_refusal (N.node node.now) }
{
    let (device_type, sub_type) = node.full_type();
    let len = node.data_len();
    if device_type.0 == 0x7f && (sub_type.0 != 0x01 || len != 0) {
        return Err(BuildError::EndNode);
    }
    if 0xfffb < len {
        return Err(BuildError::NodeTooLong);
    }
    Ok(())
}

/// Returns the header of a node that may be before the end of a path.
pub(crate) fn node_header<N: BuildNode>(node: &N) -> [u8; 4]
    requires { build_refusal (N.node node.now) ≡ None }
    ensures { let built = N.node node.now in result ≡ built.device_type ∷ built.sub_type
        ∷ node_length built % 256 ∷ node_length built / 256 ∷ [] }
{
    let (device_type, sub_type) = node.full_type();
    let length = (node.data_len() + 4) as u16;
    [
        device_type.0,
        sub_type.0,
        (length % 256) as u8,
        (length / 256) as u8,
    ]
}

impl<A: Allocator> DevicePathBuf<A> {
    /// Creates the device path without nodes. Allocates once. Returns `AllocError` if memory runs
    /// out.
    ///
    /// ```rust
    /// let path = DevicePathBuf::new(rt.alloc())?;
    /// assert_eq!(rt; path.as_device_path().as_bytes(), [0x7f, 0xff, 4, 0].as_slice());
    /// ```
    pub fn new(alloc: A) -> Result<Self, AllocError>
        ensures { IfOk result (λ path. path ≡ []) }
    {
        Self::with_room(alloc, 4)
    }

    /// Creates the device path without nodes, with room for a path of `room` bytes. Allocates once if
    /// `room` is at least four.
    pub(crate) fn with_room(alloc: A, room: usize) -> Result<Self, AllocError>
        ensures { IfOk result (λ path. path ≡ []) }
    {
        let mut bytes = Vec::with_capacity(alloc, room)?;
        bytes.extend_from_slice(&[0x7f, 0xff, 4, 0])?;
        Ok(DevicePathBuf { bytes })
    }

    /// Adds a node before the end: a built node, or a node of another path.
    ///
    /// Fails with `EndNode` for a node of type End that does not end an instance, then with
    /// `NodeTooLong` for more than 65,531 bytes of data, and then with `OutOfMemory` if memory runs
    /// out. The path is then unchanged. Allocates if the path has no room.
    ///
    /// ```rust
    /// let mut path = DevicePathBuf::new(rt.alloc())?;
    /// path.push_node(&build::hardware::Pci { function: 2, device: 0x1f })?;
    /// let bytes = [1, 1, 6, 0, 2, 0x1f, 0x7f, 0xff, 4, 0];
    /// assert_eq!(rt; path.as_device_path().as_bytes(), bytes.as_slice());
    /// ```
    pub fn push_node<N: BuildNode>(&mut self, node: &N) -> Result<(), BuildError>
        ensures ok { OnOk result (self.new ≡ self.old ++ N.node node.now ∷ []) }
        ensures accepted { OnOk result (build_refusal (N.node node.now) ≡ None) }
        ensures err { OnErr result (self.new ≡ self.old) }
        ensures refusal { IfErr result (λ error.
            error ≡ unwrap_or (build_refusal (N.node node.now)) BuildError.OutOfMemory) }
    {
        if let Err(error) = check_node(node) {
            return Err(error);
        }
        self.grow(node).map_err(|_| BuildError::OutOfMemory)
    }

    /// Adds a node that may be before the end. Allocates if the path has no room.
    pub(crate) fn grow<N: BuildNode>(&mut self, node: &N) -> Result<(), AllocError>
        requires { build_refusal (N.node node.now) ≡ None }
        ensures ok { OnOk result (self.new ≡ self.old ++ N.node node.now ∷ []) }
        ensures err { OnErr result (self.new ≡ self.old) }
    {
        self.bytes.reserve(node.data_len() + 4)?;
        let header = node_header(node);
        put_node(&mut self.bytes, header, node);
        Ok(())
    }

    /// Adds a node of a type, a sub-type and data, as [`DevicePathBuf::push_node`] does.
    ///
    /// ```rust
    /// let mut path = DevicePathBuf::new(rt.alloc())?;
    /// path.push(DeviceType::HARDWARE, DeviceSubType::HARDWARE_PCI, &[2, 0x1f])?;
    /// let text = format!(in rt.alloc(); "{}", path.as_device_path())?;
    /// assert_eq!(rt; text.as_str(), "Pci(0x1F,0x2)");
    /// let refused = path.push(DeviceType::END, DeviceSubType::END_ENTIRE, &[]);
    /// assert_eq!(rt; refused, Err(BuildError::EndNode));
    /// ```
    pub fn push(
        &mut self,
        device_type: DeviceType,
        sub_type: DeviceSubType,
        content: &[u8],
    ) -> Result<(), BuildError>
        ensures ok { let node = node_with device_type.0 sub_type.0 content.now in
            OnOk result (self.new ≡ self.old ++ node ∷ []) }
        ensures accepted { let node = node_with device_type.0 sub_type.0 content.now in
            OnOk result (build_refusal node ≡ None) }
        ensures err { OnErr result (self.new ≡ self.old) }
        ensures refusal { let node = node_with device_type.0 sub_type.0 content.now in
            IfErr result (λ error. error ≡ unwrap_or (build_refusal node) BuildError.OutOfMemory) }
    {
        self.push_node(&RawNode {
            device_type,
            sub_type,
            content,
        })
    }

    /// Adds a node that names a file: the text of a path and a NUL. Fails as
    /// [`DevicePathBuf::push_node`] does.
    ///
    /// ```rust
    /// let name = CString16::try_from_str(rt.alloc(), r"\efi\a.efi")?;
    /// let mut path = DevicePathBuf::new(rt.alloc())?;
    /// path.push_file(Path::new(name.as_cstr16()))?;
    /// let text = format!(in rt.alloc(); "{}", path.as_device_path())?;
    /// assert_eq!(rt; text.as_str(), r"\efi\a.efi");
    /// ```
    pub fn push_file(&mut self, path: Path<'_>) -> Result<(), BuildError>
        ensures ok { OnOk result (self.new ≡ self.old ++ node_of_name (path_text path.entry) ∷ []) }
        ensures err { OnErr result (self.new ≡ self.old) }
        ensures refusal { IfErr result (λ error.
            error ≡ unwrap_or (build_refusal (node_of_name (path_text path.entry))) BuildError.OutOfMemory) }
    {
        self.push_node(&media::FilePath {
            path_name: path.to_cstr16(),
        })
    }

    /// Adds all nodes of another path before the end, as EDK II's `AppendDevicePath` does. Fails
    /// only with `OutOfMemory`; the path is then unchanged. Allocates at most once, if the path has
    /// no room.
    ///
    /// ```rust
    /// let mut path = DevicePathBuf::from_text(rt.alloc(), "PciRoot(0x0)")?;
    /// let others = DevicePathBuf::from_text(rt.alloc(), "Pci(0x1F,0x2)/Sata(0x0,0xFFFF,0x0)")?;
    /// path.append(others.as_device_path())?;
    /// let text = format!(in rt.alloc(); "{}", path.as_device_path())?;
    /// assert_eq!(rt; text.as_str(), "PciRoot(0x0)/Pci(0x1F,0x2)/Sata(0x0,0xFFFF,0x0)");
    /// ```
    pub fn append(&mut self, path: DevicePath<'_>) -> Result<(), BuildError>
        ensures ok { OnOk result (self.new ≡ self.old ++ nodes_of path.entry) }
        ensures err { OnErr result (self.new ≡ self.old) }
        ensures memory { IfErr result (λ error. error ≡ BuildError.OutOfMemory) }
    {
        let added = path.as_bytes();
        if self.bytes.reserve(added.len() - 4).is_err() {
            return Err(BuildError::OutOfMemory);
        }
        put_path(&mut self.bytes, added);
        Ok(())
    }

    /// Borrows the path.
    ///
    /// See [`DevicePathBuf::new`].
    pub fn as_device_path(&self) -> DevicePath<'_>
        ensures { nodes_of result ≡ self.now }
    {
        DevicePath::of_path(self.bytes.as_slice())
    }
}
