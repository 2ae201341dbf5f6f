//! Device paths that are built in a caller's buffer, without allocating.
#![tactic(auto, unfolding(crate::specs::Views::builder_nodes, crate::specs::Views::builder_room))]

ghost use Rattle.std.specs.Prelude.{◌≡◌, ◌<◌, ◌≤◌, ◌∷◌, ◌++◌, [], length, take, nat_lt, if◌then◌else◌, IfOk, OnErr, OnOk, None, Some};
ghost use Rattle.std.specs.Result.{result_err};
ghost use Rattle.uefi_device_nodes.specs.Nodes.{node_with};
ghost use Rattle.uefi_device_path.specs.Building.{append_refusal, node_of_name, push_refusal};
ghost use Rattle.uefi_path.specs.Views.{path_text};
ghost use Rattle.uefi_device_path.specs.Paths.{IsPath};

use crate::device_path::DevicePath;
use crate::errors::BuildError;
use crate::path_in_buf::{append_at, push_at};
use uefi_device_nodes::build_node::{BuildNode, RawNode};
use uefi_device_nodes::media::build as media;
use uefi_device_nodes::{DeviceSubType, DeviceType};
use uefi_path::Path;

/// A device path that is built in a caller's buffer. A contract sees it as `builder_nodes` of it,
/// the list of its nodes without the end node, and as `builder_room` of it, the number of bytes of
/// the buffer.
#[derive(Drop)]
pub struct DevicePathBuilder<'a> {
    buffer: &'a mut [u8],
    len: usize,
    pub ghost within: { len ≤ length buffer.now },
    pub ghost is_path: { IsPath (take len buffer.now) },
}

impl<'a> DevicePathBuilder<'a> {
    ghost use Rattle.uefi_device_path.specs.Views.{builder_nodes, builder_room, nodes_of};

    /// Creates the device path without nodes at the start of a buffer. Fails with `BufferTooSmall`
    /// if the buffer has fewer than four bytes; the buffer is then unchanged. Does not allocate.
    ///
    /// ```rust
    /// let mut buffer = [0; 4];
    /// let path = DevicePathBuilder::with_buf(&mut buffer)?;
    /// assert_eq!(rt; path.as_device_path().as_bytes(), [0x7f, 0xff, 4, 0].as_slice());
    /// let refused = DevicePathBuilder::with_buf(&mut buffer[..3]);
    /// assert_eq!(rt; refused.err(), Some(BuildError::BufferTooSmall(4)));
    /// ```
    pub fn with_buf(buf: &'a mut [u8]) -> Result<Self, BuildError>
        ensures ok { IfOk result (λ path. builder_nodes path ≡ []) }
        ensures room { IfOk result (λ path. builder_room path ≡ length buf.old) }
        ensures refusal { result_err result
            ≡ (if nat_lt (length buf.old) 4 then Some (BuildError.BufferTooSmall 4) else None) }
    {
        if buf.len() < 4 {
            return Err(BuildError::BufferTooSmall(4));
        }
        buf[..4].copy_from_slice(&[0x7f, 0xff, 4, 0]);
        Ok(DevicePathBuilder {
            buffer: buf,
            len: 4,
        })
    }

    /// Adds a node before the end: a built node, or a node of another path.
    ///
    /// Fails with `EndNode` for a node of type End that does not end an instance, then with
    /// `NodeTooLong` for more than 65,531 bytes of data, and then with `BufferTooSmall` and the
    /// number of bytes that the path needs, if the buffer has fewer. The path is then unchanged.
    /// Does not allocate.
    ///
    /// ```rust
    /// let mut buffer = [0; 10];
    /// let mut path = DevicePathBuilder::with_buf(&mut buffer)?;
    /// let node = build::hardware::Pci { function: 2, device: 0x1f };
    /// path.push_node(&node)?;
    /// assert_eq!(rt; path.push_node(&node), Err(BuildError::BufferTooSmall(16)));
    /// assert_eq!(rt; path.finalize().as_bytes(), [1, 1, 6, 0, 2, 0x1f, 0x7f, 0xff, 4, 0].as_slice());
    /// ```
    pub fn push_node<N: BuildNode>(&mut self, node: &N) -> Result<(), BuildError>
        ensures ok { OnOk result (builder_nodes self.new ≡ builder_nodes self.old ++ N.node node.now ∷ []) }
        ensures err { OnErr result (builder_nodes self.new ≡ builder_nodes self.old) }
        ensures room { builder_room self.new ≡ builder_room self.old }
        ensures refusal { result_err result
            ≡ push_refusal (builder_nodes self.old) (N.node node.now) (builder_room self.old) }
    {
        self.len = push_at(self.buffer, self.len, node)?;
        Ok(())
    }

    /// Adds a node of a type, a sub-type and data, as [`DevicePathBuilder::push_node`] does.
    ///
    /// ```rust
    /// let mut buffer = [0; 64];
    /// let mut path = DevicePathBuilder::with_buf(&mut buffer)?;
    /// path.push(DeviceType::HARDWARE, DeviceSubType::HARDWARE_PCI, &[2, 0x1f])?;
    /// let text = format!(in rt.alloc(); "{}", path.finalize())?;
    /// assert_eq!(rt; text.as_str(), "Pci(0x1F,0x2)");
    /// ```
    pub fn push(
        &mut self,
        device_type: DeviceType,
        sub_type: DeviceSubType,
        content: &[u8],
    ) -> Result<(), BuildError>
        ensures ok { let node = node_with device_type.0 sub_type.0 content.now in
            OnOk result (builder_nodes self.new ≡ builder_nodes self.old ++ node ∷ []) }
        ensures err { OnErr result (builder_nodes self.new ≡ builder_nodes self.old) }
        ensures room { builder_room self.new ≡ builder_room self.old }
        ensures refusal { let node = node_with device_type.0 sub_type.0 content.now in
            result_err result ≡ push_refusal (builder_nodes self.old) node (builder_room self.old) }
    {
        self.push_node(&RawNode {
            device_type,
            sub_type,
            content,
        })
    }

    /// Adds a node that names a file: the text of a path and a NUL. Fails as
    /// [`DevicePathBuilder::push_node`] does.
    ///
    /// ```rust
    /// let name = CString16::try_from_str(rt.alloc(), r"\efi\a.efi")?;
    /// let mut buffer = [0; 64];
    /// let mut path = DevicePathBuilder::with_buf(&mut buffer)?;
    /// path.push_file(Path::new(name.as_cstr16()))?;
    /// let text = format!(in rt.alloc(); "{}", path.finalize())?;
    /// assert_eq!(rt; text.as_str(), r"\efi\a.efi");
    /// ```
    pub fn push_file(&mut self, path: Path<'_>) -> Result<(), BuildError>
        ensures ok { let node = node_of_name (path_text path.entry) in
            OnOk result (builder_nodes self.new ≡ builder_nodes self.old ++ node ∷ []) }
        ensures err { OnErr result (builder_nodes self.new ≡ builder_nodes self.old) }
        ensures room { builder_room self.new ≡ builder_room self.old }
        ensures refusal { let node = node_of_name (path_text path.entry) in
            result_err result ≡ push_refusal (builder_nodes self.old) node (builder_room self.old) }
    {
        self.push_node(&media::FilePath {
            path_name: path.to_cstr16(),
        })
    }

    /// Adds all nodes of another path before the end. If the buffer is too small, fails with
    /// `BufferTooSmall` and the number of bytes that the path then needs, and leaves the path
    /// unchanged. Does not allocate.
    ///
    /// ```rust
    /// let card = DevicePathBuf::from_text(rt.alloc(), "SD(0x1)")?;
    /// let mut buffer = [0; 64];
    /// let mut path = DevicePathBuilder::with_buf(&mut buffer)?;
    /// path.append(card.as_device_path())?;
    /// path.append(card.as_device_path())?;
    /// assert_eq!(rt; path.as_device_path().node_iter().count(), 2);
    /// ```
    pub fn append(&mut self, path: DevicePath<'_>) -> Result<(), BuildError>
        ensures ok { OnOk result (builder_nodes self.new ≡ builder_nodes self.old ++ nodes_of path.entry) }
        ensures err { OnErr result (builder_nodes self.new ≡ builder_nodes self.old) }
        ensures room { builder_room self.new ≡ builder_room self.old }
        ensures refusal { result_err result
            ≡ append_refusal (builder_nodes self.old) (nodes_of path.entry) (builder_room self.old) }
    {
        self.len = append_at(self.buffer, self.len, path)?;
        Ok(())
    }

    /// Borrows the path from the builder.
    ///
    /// See [`DevicePathBuilder::with_buf`].
    pub fn as_device_path(&self) -> DevicePath<'_>
        ensures { nodes_of result ≡ builder_nodes self.now }
    {
        DevicePath::of_path(&self.buffer[..self.len])
    }

    /// Turns the builder into the path, borrowed from the buffer.
    ///
    /// See [`DevicePathBuilder::push_node`].
    pub fn finalize(self) -> DevicePath<'a>
        ensures { nodes_of result ≡ builder_nodes self.entry }
    {
        let DevicePathBuilder { buffer, len } = self;
        DevicePath::of_path(&buffer[..len])
    }
}
