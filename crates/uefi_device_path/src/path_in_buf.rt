//! Device paths that grow in their buffer.
#![tactic(auto)]

ghost use Rattle.std.specs.Prelude.{◌≡◌, ◌+◌, ◌-◌, ◌^◌, ◌≤◌, min, ◌∷◌, ◌++◌, [], length, take, IfOk, IsTrue, None, OnErr, OnOk};
ghost use Rattle.std.specs.Result.{result_err, result_map_both};
ghost use Rattle.uefi_device_nodes.specs.Nodes.{end_entire, node_bytes, node_length};
ghost use Rattle.uefi_device_path.specs.Building.{append_refusal, build_refusal, ends_at, push_refusal, room_refusal};
ghost use Rattle.uefi_device_path.specs.CheckedNodes.{path_of_bytes};
ghost use Rattle.uefi_device_path.specs.NodeSinks.{Holds, nodes_up_to};
ghost use Rattle.uefi_device_path.specs.Paths.{IsPath, path_bytes};
ghost use Rattle.uefi_device_path.specs.PushedPaths.{Leaves, node_pushed, node_pushed_at, nodes_appended};
ghost use Rattle.uefi_device_path.specs.Views.{nodes_of};

use crate::device_path::DevicePath;
use crate::device_path_buf::{check_node, node_header};
use crate::errors::{BuildError, DevicePathError, GrowError, NodeError};
use uefi_device_nodes::build_node::BuildNode;

/// Writes a node that may be before the end of a path, and the node that ends a path after it.
fn put_node<N: BuildNode>(places: &mut [u8], node: &N)
    requires unrefused { build_refusal (N.node node.now) ≡ None }
    requires room { length places.now ≡ length (N.node node.now).content + 8 }
    ensures { places.new ≡ node_bytes (N.node node.now) ++ node_bytes end_entire }
{
    let header = node_header(node);
    let (start, rest) = places.split_at_mut(4);
    start.copy_from_slice(&header);
    let (middle, end) = rest.split_at_mut(node.data_len());
    node.write_data(middle);
    end.copy_from_slice(&[0x7f, 0xff, 4, 0]);
}

/// Adds a node that may be before the end of a path, and for which there is room, to the path in
/// the first `len` bytes of a buffer. Returns the number of bytes that the path then has.
pub(crate) fn put_at<N: BuildNode>(buffer: &mut [u8], len: usize, node: &N) -> usize
    requires within { len ≤ length buffer.now }
    requires is_path { IsPath (take len buffer.now) }
    requires unrefused { build_refusal (N.node node.now) ≡ None }
    requires room { len + node_length (N.node node.now) ≤ length buffer.now }
    ensures end { result ≡ len + node_length (N.node node.now) }
    ensures holds { Holds buffer.old (nodes_up_to len buffer.old ++ N.node node.now ∷ []) buffer.new result }
{
    let end = len + node.data_len() + 4;
    put_node(&mut buffer[len - 4..end], node);
    end
}

/// Adds a node as [`put_at`] does if there is room for it; otherwise leaves the buffer unchanged.
/// Returns the number of bytes that the path then has or needs, as far as a `usize` counts.
pub(crate) fn put_if_room<N: BuildNode>(buffer: &mut [u8], len: usize, node: &N) -> usize
    requires is_path { len ≤ length buffer.now → IsPath (take len buffer.now) }
    requires unrefused { build_refusal (N.node node.now) ≡ None }
    ensures end { result ≡ min (len + node_length (N.node node.now)) (2 ^ 64 - 1) }
    ensures exact { result ≤ length buffer.old → result ≡ len + node_length (N.node node.now) }
    ensures holds { result ≤ length buffer.old
        → Holds buffer.old (nodes_up_to len buffer.old ++ N.node node.now ∷ []) buffer.new result }
{
    let end = len.saturating_add(node.data_len()).saturating_add(4);
    if buffer.len() < end {
        return end;
    }
    put_at(buffer, len, node)
}

/// Returns the number of bytes of a path of `len` bytes with one more node, or why the node is not added to
/// it.
fn grown_len<N: BuildNode>(buffer: &[u8], len: usize, node: &N) -> Result<usize, BuildError>
    requires { len ≤ length buffer.now }
    ensures len { IfOk result (λ end. end ≡ len + node_length (N.node node.now)) }
    ensures within { IfOk result (λ end. end ≤ length buffer.now) }
    ensures unrefused { OnOk result (build_refusal (N.node node.now) ≡ None) }
    ensures refusal { result_err result ≡ room_refusal (len + node_length (N.node node.now))
        (length buffer.now) (build_refusal (N.node node.now)) }
{
    if let Err(error) = check_node(node) {
        return Err(error);
    }
    let end = len + node.data_len() + 4;
    if buffer.len() < end {
        return Err(BuildError::BufferTooSmall(end));
    }
    Ok(end)
}

/// Adds a node before the end of the path in the first `len` bytes of a buffer, and returns the number of
/// bytes that the path then has.
pub(crate) fn push_at<N: BuildNode>(
    buffer: &mut [u8],
    len: usize,
    node: &N,
) -> Result<usize, BuildError>
    requires within { len ≤ length buffer.now }
    requires is_path { IsPath (take len buffer.now) }
    ensures holds { IfOk result (λ end.
        Holds buffer.old (nodes_up_to len buffer.old ++ N.node node.now ∷ []) buffer.new end) }
    ensures err { OnErr result (buffer.new ≡ buffer.old) }
    ensures refusal { result_err result
        ≡ push_refusal (nodes_up_to len buffer.old) (N.node node.now) (length buffer.old) }
{
    grown_len(buffer, len, node)?;
    Ok(put_at(buffer, len, node))
}

/// Adds the nodes of another path, for which there is room, before the end of the path in the first `len`
/// bytes of a buffer. Returns the number of bytes that the path then has.
pub(crate) fn put_nodes_at(buffer: &mut [u8], len: usize, path: DevicePath<'_>) -> usize
    requires within { len ≤ length buffer.now }
    requires is_path { IsPath (take len buffer.now) }
    requires room { len + length (path_bytes (nodes_of path)) ≤ length buffer.now + 4 }
    ensures holds { Holds buffer.old (nodes_up_to len buffer.old ++ nodes_of path.entry) buffer.new result }
{
    let added = path.as_bytes();
    let end = len + (added.len() - 4);
    buffer[len - 4..end].copy_from_slice(added);
    end
}

/// Adds the nodes of another path before the end of the path in the first `len` bytes of a buffer, and
/// returns the number of bytes that the path then has.
pub(crate) fn append_at(
    buffer: &mut [u8],
    len: usize,
    path: DevicePath<'_>,
) -> Result<usize, BuildError>
    requires within { len ≤ length buffer.now }
    requires is_path { IsPath (take len buffer.now) }
    ensures holds { IfOk result (λ end.
        Holds buffer.old (nodes_up_to len buffer.old ++ nodes_of path.entry) buffer.new end) }
    ensures err { OnErr result (buffer.new ≡ buffer.old) }
    ensures refusal { result_err result
        ≡ append_refusal (nodes_up_to len buffer.old) (nodes_of path.entry) (length buffer.old) }
{
    let end = len.saturating_add(path.as_bytes().len() - 4);
    if buffer.len() < end {
        return Err(BuildError::BufferTooSmall(end));
    }
    Ok(put_nodes_at(buffer, len, path))
}

/// Returns the number of bytes of the path at the start of a buffer.
pub(crate) fn path_len(buffer: &[u8]) -> Result<usize, DevicePathError>
    ensures within { IfOk result (λ len. len ≤ length buffer.now) }
    ensures is_path { IfOk result (λ len. IsPath (take len buffer.now)) }
    ensures read { path_of_bytes buffer.now
        ≡ result_map_both (λ len. nodes_up_to len buffer.now) (λ error. error) result }
{
    match DevicePath::from_bytes(buffer) {
        Ok(path) => Ok(path.as_bytes().len()),
        Err(error) => Err(error),
    }
}

/// Adds a node before the end of the device path at the start of a buffer, and returns the number
/// of bytes that the path then has. The rest of the buffer is unchanged.
///
/// Fails with `Path` if the buffer does not begin with a device path, and otherwise as
/// [`DevicePathBuilder::push_node`](crate::DevicePathBuilder::push_node) does; the buffer is then
/// unchanged. Does not allocate.
///
/// ```rust
/// let mut buffer = [0x7f, 0xff, 4, 0, 0, 0, 0, 0, 0, 0];
/// let node = build::hardware::Pci { function: 2, device: 0x1f };
/// assert_eq!(rt; push_in_buf(&mut buffer, &node), Ok(10));
/// assert_eq!(rt; buffer, [1, 1, 6, 0, 2, 0x1f, 0x7f, 0xff, 4, 0]);
/// let refused = push_in_buf(&mut buffer, &node);
/// assert_eq!(rt; refused, Err(GrowError::Build(BuildError::BufferTooSmall(16))));
/// ```
pub fn push_in_buf<N: BuildNode>(buffer: &mut [u8], node: &N) -> Result<usize, GrowError>
    ensures { Leaves (node_pushed (N.node node.now) buffer.old) buffer.old result buffer.new }
{
    let len = match path_len(buffer) {
        Ok(len) => len,
        Err(error) => return Err(GrowError::Path(error)),
    };
    match push_at(buffer, len, node) {
        Ok(len) => Ok(len),
        Err(error) => Err(GrowError::Build(error)),
    }
}

/// Returns whether the first `len` bytes end with the node that ends a path.
fn ends_at(bytes: &[u8], len: usize) -> bool
    ensures value { result ≡ ends_at bytes.now len }
    ensures within { IsTrue result → len ≤ length bytes.now }
    ensures end { IsTrue result → 4 ≤ len }
{
    len <= bytes.len() && bytes[..len].ends_with(&[0x7f, 0xff, 4, 0])
}

/// Adds a node before the end of the device path in the first `len` bytes of a buffer, and returns
/// the number of bytes that the path then has: the `len` of the next call. Unlike [`push_in_buf`],
/// the call need not search for the end node.
///
/// Fails with `Path`, the cause `Missing` and the offset `len` if the buffer has fewer than `len`
/// bytes or the first `len` bytes do not end with an end node, and otherwise as [`push_in_buf`]
/// does; the buffer is then unchanged. Bytes after the new path are never changed. The bytes before
/// the end node are not checked. If the first `len` bytes are a device path, the call does what
/// [`push_in_buf`] does ([`pushed_at_the_end`](crate::laws::pushed_at_the_end)). Does not allocate.
///
/// ```rust
/// let mut buffer = [0x7f, 0xff, 4, 0, 0, 0, 0, 0, 0, 0];
/// let node = build::hardware::Pci { function: 2, device: 0x1f };
/// assert_eq!(rt; push_at_in_buf(&mut buffer, 4, &node), Ok(10));
/// assert_eq!(rt; buffer, [1, 1, 6, 0, 2, 0x1f, 0x7f, 0xff, 4, 0]);
/// let refused = push_at_in_buf(&mut buffer, 10, &node);
/// assert_eq!(rt; refused, Err(GrowError::Build(BuildError::BufferTooSmall(16))));
/// let no_end = DevicePathError { cause: NodeError::Missing, offset: 6 };
/// assert_eq!(rt; push_at_in_buf(&mut buffer, 6, &node), Err(GrowError::Path(no_end)));
/// ```
pub fn push_at_in_buf<N: BuildNode>(
    buffer: &mut [u8],
    len: usize,
    node: &N,
) -> Result<usize, GrowError>
    ensures { Leaves (node_pushed_at len (N.node node.now) buffer.old) buffer.old result buffer.new }
{
    if !ends_at(buffer, len) {
        return Err(GrowError::Path(DevicePathError {
            cause: NodeError::Missing,
            offset: len,
        }));
    }
    let end = match grown_len(buffer, len, node) {
        Ok(end) => end,
        Err(error) => return Err(GrowError::Build(error)),
    };
    put_node(&mut buffer[len - 4..end], node);
    Ok(end)
}

/// Adds the nodes of another path before the end of the device path at the start of a buffer, and
/// returns the number of bytes that the path then has, as [`push_in_buf`] does.
///
/// ```rust
/// let card = DevicePathBuf::from_text(rt.alloc(), "SD(0x1)")?;
/// let mut buffer = [0x7f, 0xff, 4, 0, 0, 0, 0, 0, 0];
/// assert_eq!(rt; append_in_buf(&mut buffer, card.as_device_path()), Ok(9));
/// assert_eq!(rt; buffer, [3, 0x1a, 5, 0, 1, 0x7f, 0xff, 4, 0]);
/// ```
pub fn append_in_buf(buffer: &mut [u8], path: DevicePath<'_>) -> Result<usize, GrowError>
    ensures { Leaves (nodes_appended (nodes_of path.entry) buffer.old) buffer.old result buffer.new }
{
    let len = match path_len(buffer) {
        Ok(len) => len,
        Err(error) => return Err(GrowError::Path(error)),
    };
    match append_at(buffer, len, path) {
        Ok(len) => Ok(len),
        Err(error) => Err(GrowError::Build(error)),
    }
}
