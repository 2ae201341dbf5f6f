//! Device paths and load options that C writes into its own buffers, and comparisons of device
//! paths.
ghost use Rattle.std.specs.Prelude.{◌≡◌, ◌↔◌, ◌+◌, ◌/◌, ◌%◌, ◌≤◌, ◌++◌, ◌∷◌, [], ℕ, IsTrue, List, length};
ghost use Rattle.uefi_device_path.specs.Building.{push_at_refusal, pushed_at};
ghost use Rattle.uefi_device_path.specs.Matching.{IsExpansion};
ghost use Rattle.uefi_device_path.specs.Nodes.{Node, node_with};
ghost use Rattle.uefi_device_path.specs.Paths.{BeginWithPath, path_bytes};
ghost use Rattle.nardcorbel.specs.DevicePathBuffers.{entry_of_path, written_entry};
ghost use Rattle.nardcorbel.specs.Outcomes.{Shows, when_read, unless};
ghost use Rattle.nardcorbel.specs.Outcomes.Outcome.{Content};
ghost use Rattle.nardcorbel.specs.PathEnds.{append_at_refusal, extended};
ghost use Rattle.nardcorbel.specs.Reading.{read_path, read_string};
ghost use Rattle.nardcorbel.specs.Refusals.{grow_refused};

use crate::device_paths::growing::append_at;
use crate::outcomes::{read_path, read_string, refuse, report};
use crate::reasons::{BUFFER_TOO_SMALL, OK};
use uefi_device_path::build::RawNode;
use uefi_device_path::{DevicePath, DeviceSubType, DeviceType, LoadOptionBuilder, push_at_in_buf};

/// Writes the device path without nodes to the start of a buffer: only its end node.
///
/// `len` becomes 4, the size of the path. A buffer of fewer bytes is rejected as `BUFFER_TOO_SMALL`, and
/// is unchanged. Bytes after the path are unchanged. Does not allocate (UEFI Specification 2.10,
/// section 10.3.1).
#[unsafe(no_mangle)]
pub extern "C" fn nard_device_path_init(buffer: &mut [u8], len: &mut usize) -> u32
    ensures { (fault : ℕ) → Shows (Content (path_bytes [])) len.old fault buffer.old
        result len.new fault buffer.new }
{
    *len = 4;
    if buffer.len() < 4 {
        return BUFFER_TOO_SMALL;
    }
    buffer[..4].copy_from_slice(&[0x7f, 0xff, 4, 0]);
    OK
}

/// Adds a node before the end of the device path in the first `path_len` bytes of a buffer, as
/// [`push_at_in_buf`] does. `path_len` is the `len` of the call before.
///
/// The type of the node is `node_type / 256`, and its sub-type `node_type % 256`. The call does not check
/// what is before the end node. It fails for the first of these reasons: the buffer has fewer than
/// `path_len` bytes, or these do not end with an end node (`NO_END_NODE`, with `path_len` as `fault`); the
/// node has type End and does not end an instance (`NODE_OF_END`); the data is longer than 65,531 bytes
/// (`NODE_TOO_LONG`); the buffer is too small (`BUFFER_TOO_SMALL`). `len` becomes the size that the path
/// then has, or at `BUFFER_TOO_SMALL` needs. If the call fails, the buffer is unchanged. Bytes after the
/// path are never changed. Does not allocate (UEFI Specification 2.10, section 10.3.1).
#[unsafe(no_mangle)]
pub extern "C" fn nard_device_path_push(
    buffer: &mut [u8],
    path_len: usize,
    node_type: u32,
    content: &[u8],
    len: &mut usize,
    fault: &mut usize,
) -> u32
    ensures { let node = node_with (node_type / 256 % 256) (node_type % 256) content.now in
        Shows (unless (push_at_refusal buffer.old path_len node) grow_refused
        (Content (pushed_at buffer.old path_len node)))
        len.old fault.old buffer.old result len.new fault.new buffer.new }
{
    let node = RawNode {
        device_type: DeviceType((node_type / 256 % 256) as u8),
        sub_type: DeviceSubType((node_type % 256) as u8),
        content,
    };
    report(push_at_in_buf(buffer, path_len, &node), len, fault)
}

/// Adds the nodes of the device path at the start of bytes to the path in the first `path_len` bytes of a
/// buffer.
///
/// Bytes that do not begin with a path are rejected as by `nard_device_path_check`, with its `fault`. Then
/// the call fails and reports as [`nard_device_path_push`] does. Does not allocate.
#[unsafe(no_mangle)]
pub extern "C" fn nard_device_path_append(
    buffer: &mut [u8],
    path_len: usize,
    bytes: &[u8],
    len: &mut usize,
    fault: &mut usize,
) -> u32
    ensures { Shows (when_read (read_path bytes.now) (λ others.
        unless (append_at_refusal buffer.old path_len others) grow_refused
        (Content (extended path_len buffer.old others))))
        len.old fault.old buffer.old result len.new fault.new buffer.new }
{
    let path = match read_path(bytes) {
        Ok(path) => path,
        Err(refusal) => return refuse(refusal, len, fault),
    };
    report(append_at(buffer, path_len, path), len, fault)
}

/// Returns whether both begin with a device path, and the second is a short form of the first, as
/// [`DevicePath::is_expansion_of`] says. Does not allocate (UEFI Specification 2.10, section
/// 3.1.2).
#[unsafe(no_mangle)]
pub extern "C" fn nard_device_path_is_expansion(bytes: &[u8], form: &[u8]) -> bool
    ensures { IsTrue result ↔ ((nodes : List Node) × (others : List Node) × BeginWithPath bytes.now nodes
        × BeginWithPath form.now others × IsExpansion nodes others) }
{
    let Ok(path) = DevicePath::from_bytes(bytes) else {
        return false;
    };
    let Ok(short) = DevicePath::from_bytes(form) else {
        return false;
    };
    path.is_expansion_of(short)
}

/// Returns whether both begin with a device path, and the first path begins with the nodes of the
/// second. If so, `place` becomes the offset after these nodes; otherwise it is unchanged. Does not
/// allocate.
#[unsafe(no_mangle)]
pub extern "C" fn nard_device_path_strip_prefix(
    bytes: &[u8],
    prefix: &[u8],
    place: &mut usize,
) -> bool
    ensures begins { IsTrue result ↔ ((others : List Node) × (rest : List Node)
        × BeginWithPath bytes.now (others ++ rest) × BeginWithPath prefix.now others) }
    ensures place { IsTrue result → (others : List Node) → BeginWithPath prefix.now others
        → place.new + 4 ≡ length (path_bytes others) }
    ensures unchanged { (IsTrue result → ⊥) → place.new ≡ place.old }
{
    let Ok(path) = DevicePath::from_bytes(bytes) else {
        return false;
    };
    let Ok(prefix) = DevicePath::from_bytes(prefix) else {
        return false;
    };
    if !path.starts_with(prefix) {
        return false;
    }
    *place = prefix.as_bytes().len() - 4;
    true
}

/// Writes a load option with one device path to the start of a buffer, as
/// [`LoadOptionBuilder::write`] does.
///
/// The call fails for the first of these reasons: the units of the description do not begin with a
/// string (the error and `fault` of `nard_string_length`); the bytes do not begin with a device path
/// (those of `nard_device_path_check`); the device path is longer than 65,535 bytes (`LIST_TOO_LONG`);
/// the buffer is too small (`BUFFER_TOO_SMALL`). `len` becomes the size that the load option has, or at
/// `BUFFER_TOO_SMALL` needs. If the call fails, the buffer is unchanged. Bytes after the load option are
/// never changed. Does not allocate (UEFI Specification 2.10, section 3.1.3).
#[unsafe(no_mangle)]
pub extern "C" fn nard_load_option_write(
    attributes: u32,
    description: &[u16],
    bytes: &[u8],
    optional: &[u8],
    buffer: &mut [u8],
    len: &mut usize,
    fault: &mut usize,
) -> u32
    ensures { Shows (when_read (read_string description.now) (λ text.
        when_read (read_path bytes.now) (λ nodes.
        written_entry (entry_of_path attributes text nodes optional.now))))
        len.old fault.old buffer.old result len.new fault.new buffer.new }
{
    let text = match read_string(description) {
        Ok(string) => string.to_u16_slice(),
        Err(refusal) => return refuse(refusal, len, fault),
    };
    let path = match read_path(bytes) {
        Ok(path) => path,
        Err(refusal) => return refuse(refusal, len, fault),
    };
    let paths = [path];
    let option = LoadOptionBuilder::new(attributes, text, &paths, optional);
    report(option.write(buffer), len, fault)
}
