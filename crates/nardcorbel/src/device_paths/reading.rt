//! Device paths in bytes that C holds: a check that bytes begin with one, its nodes, and the file that
//! it names.
ghost use Rattle.std.specs.Prelude.{◌≡◌, ◌≢◌, ◌+◌, ◌<◌, ◌≤◌, ◌++◌, ◌∷◌, [], ℕ, All, List, None, Some, Err, Ok, Result, drop, length};
ghost use Rattle.std.specs.Str.{encode_utf8_all};
ghost use Rattle.uefi_device_path.specs.NodeFaults.{fault_place, node_fault};
ghost use Rattle.uefi_device_path.specs.NodeError.{NodeError};
ghost use Rattle.uefi_device_path.specs.Nodes.{IsInner, Node, end_entire, node_bytes};
ghost use Rattle.uefi_device_path.specs.Extents.{BeginNoPath, HasExtent};
ghost use Rattle.uefi_device_path.specs.Faults.{RefusedFor};
ghost use Rattle.uefi_device_path.specs.FilePaths.{IsReadable, file_path};
ghost use Rattle.uefi_device_path.specs.Paths.{BeginWithPath, path_bytes};
ghost use Rattle.uefi_device_path.specs.declared.errors.DevicePathError.{DevicePathError};
ghost use Rattle.uefi_device_path.specs.declared.errors.FilePathError.{FilePathError};
ghost use Rattle.uefi_device_path.specs.declared.extent.PathExtent.{PathExtent};
ghost use Rattle.nardcorbel.specs.DevicePaths.{GivesFilePath, ShowsExtent, file_outcome, node_in};
ghost use Rattle.nardcorbel.specs.Outcomes.{Shows, ShowsNumber, when_read};
ghost use Rattle.nardcorbel.specs.Outcomes.Outcome.{Number, Refused};
ghost use Rattle.nardcorbel.specs.Reading.{read_path};
ghost use Rattle.nardcorbel.specs.Reasons.{node_reason};
ghost use Rattle.nardcorbel.specs.declared.outcomes.Refusal.{Refusal};

use crate::outcomes::{Refusal, read_path, refuse, refuse_room, report};
use crate::reasons::{END, NO_END_NODE, OK, node_reason};
use crate::utf8_buffers::write_utf8;
use uefi_device_path::{DevicePath, DevicePathNode, FilePathWriteError, PathExtent, fault_place};

/// Checks that bytes begin with a device path.
///
/// At `OK`, `len` becomes the size of the path with its end node. Otherwise `fault` becomes the offset
/// of the bytes at fault in the first malformed node, as [`DevicePath::from_bytes`] reports it. The
/// call does not read beyond the path. Does not allocate (UEFI Specification 2.10, section 10.3.1).
#[unsafe(no_mangle)]
pub extern "C" fn nard_device_path_check(bytes: &[u8], len: &mut usize, fault: &mut usize) -> u32
    ensures { ShowsNumber (when_read (read_path bytes.now) (λ nodes. Number (length (path_bytes nodes))))
        len.old fault.old result len.new fault.new }
{
    match read_path(bytes) {
        Ok(path) => report::<Refusal>(Ok(path.as_bytes().len()), len, fault),
        Err(refusal) => refuse(refusal, len, fault),
    }
}

/// Finds how many bytes are needed to continue reading a device path that begins with these bytes.
///
/// At `OK`, `needed` becomes the size of the path if the bytes contain the whole path; otherwise it
/// becomes the number of bytes needed to continue, and no path that begins with these bytes is
/// shorter. `place` is the offset of a node, 0 at first, and becomes the offset of the next node,
/// so that no node is read twice. If the call fails, no path begins with the bytes, `fault` becomes
/// the offset of the bytes at fault, and `place` and `needed` are unchanged. A place after the end of
/// the bytes is rejected as `NO_END_NODE`, with this place as `fault`. Reads only these bytes, and does
/// not allocate (UEFI Specification 2.10, section 10.3.1).
#[unsafe(no_mangle)]
pub extern "C" fn nard_device_path_needs(
    bytes: &[u8],
    place: &mut usize,
    needed: &mut usize,
    fault: &mut usize,
) -> u32
    ensures extent { result ≡ OK → (extent : PathExtent) × HasExtent (drop place.old bytes.now) extent
        × ShowsExtent place.old extent place.new needed.new }
    ensures refusal { place.old ≤ length bytes.now → result ≢ OK → (error : DevicePathError)
        × RefusedFor (drop place.old bytes.now) error
        × (result ≡ node_reason error.cause) × (fault.new ≡ place.old + error.offset) }
    ensures never { place.old ≤ length bytes.now → result ≢ OK → BeginNoPath (drop place.old bytes.now) }
    ensures beyond { length bytes.now < place.old → (result ≡ NO_END_NODE) × (fault.new ≡ place.old) }
    ensures unchanged { result ≢ OK → (place.new ≡ place.old) × (needed.new ≡ needed.old) }
    ensures no_fault { result ≡ OK → fault.new ≡ fault.old }
{
    let Some(rest) = bytes.get(*place..) else {
        *fault = *place;
        return NO_END_NODE;
    };
    match DevicePath::extent(rest) {
        Ok(PathExtent::Whole(len)) => {
            *needed = *place + len;
            OK
        }
        Ok(PathExtent::Cut(cut)) => {
            *needed = *place + cut.needed;
            *place += cut.passed;
            OK
        }
        Err(error) => {
            *fault = *place + error.offset;
            node_reason(error.cause)
        }
    }
}

/// A node of a device path, with the offset of its data in the bytes.
#[repr(C)]
#[derive(Clone, Copy)]
pub struct DeviceNode {
    /// The type times 256, plus the sub-type (UEFI Specification 2.10, section 10.3).
    pub node_type: u32,

    /// The offset of the data, which follow the header.
    pub data_offset: usize,

    /// The number of bytes of the data.
    pub data_size: usize,
}

/// Reads the node at an offset of bytes.
///
/// At `OK`, `node` becomes the node, and `place` the offset after it. The call returns `END` if the
/// node ends the path: `place` becomes the offset after the node, where the next path of a list begins.
/// If the call fails, `fault` becomes the offset of the bytes at fault, and `place` is unchanged. `node`
/// is unchanged unless the call returns `OK`. For nodes that end an instance the call returns `OK`. Any
/// bytes and any place are allowed; no node begins after the end of the bytes. Reads only the node's
/// header, and does not allocate (UEFI Specification 2.10, section 10.3.1).
#[unsafe(no_mangle)]
pub extern "C" fn nard_device_path_next_node(
    bytes: &[u8],
    place: &mut usize,
    node: &mut DeviceNode,
    fault: &mut usize,
) -> u32
    ensures node { result ≡ OK → drop place.old bytes.now
        ≡ node_bytes (node_in bytes.now node.new) ++ drop place.new bytes.now }
    ensures inner { result ≡ OK → IsInner (node_in bytes.now node.new) }
    ensures start { result ≡ OK → node.new.data_offset ≡ place.old + 4 }
    ensures after { result ≡ OK → place.new ≡ node.new.data_offset + node.new.data_size }
    ensures within { result ≡ OK → place.new ≤ length bytes.now }
    ensures next { result ≡ OK → (nodes : List Node) → BeginWithPath (drop place.old bytes.now) nodes
        → (others : List Node) × (nodes ≡ node_in bytes.now node.new ∷ others)
        × BeginWithPath (drop place.new bytes.now) others }
    ensures last { result ≡ END → (nodes : List Node)
        → BeginWithPath (drop place.old bytes.now) nodes → nodes ≡ [] }
    ensures path { (nodes : List Node) → BeginWithPath (drop place.old bytes.now) nodes
        → result ≢ OK → result ≡ END }
    ensures end { result ≡ END → (place.new ≡ place.old + 4)
        × (drop place.old bytes.now ≡ node_bytes end_entire ++ drop place.new bytes.now) }
    ensures sound { node_fault (drop place.old bytes.now) ≡ None → result ≢ OK → result ≡ END }
    ensures refusal { (cause : NodeError) → node_fault (drop place.old bytes.now) ≡ Some cause
        → (result ≡ node_reason cause) × (fault.new ≡ place.old + fault_place cause)
        × (place.new ≡ place.old) }
    ensures unchanged { result ≢ OK → node.new ≡ node.old }
    ensures no_fault { node_fault (drop place.old bytes.now) ≡ None → fault.new ≡ fault.old }
{
    let Some(rest) = bytes.get(*place..) else {
        *fault = *place;
        return NO_END_NODE;
    };
    match DevicePathNode::split_first(rest) {
        Ok((found, _)) => {
            let start = *place + 4;
            if found.is_end_entire() {
                *place = start;
                return END;
            }
            let size = found.data().len();
            *node = DeviceNode {
                node_type: u32::from(found.device_type().0) * 256 + u32::from(found.sub_type().0),
                data_offset: start,
                data_size: size,
            };
            *place = start + size;
            OK
        }
        Err(cause) => {
            *fault = *place + fault_place(cause);
            node_reason(cause)
        }
    }
}

/// Writes the file path of the device path at the start of bytes, in UTF-8 and with a NUL, to the start of a
/// buffer: the names of its nodes that name files, as [`DevicePath::display_file_path`] joins them.
///
/// Bytes that do not begin with a device path are rejected as by [`nard_device_path_check`]. Then a
/// node that should name a file and whose data is not a string is rejected: as `ODD_BYTES` if the
/// data has an odd length, and otherwise as by `nard_string_check`; `fault` becomes the offset of the
/// data. Otherwise `len` becomes the number of bytes of the file path, without its NUL, and a buffer
/// with at most that many places is rejected as `BUFFER_TOO_SMALL`. If the call fails, the buffer is
/// unchanged. Bytes after the NUL are never changed. Does not allocate (UEFI Specification 2.10,
/// section 10.3.5.4).
#[unsafe(no_mangle)]
pub extern "C" fn nard_device_path_file_path(
    bytes: &[u8],
    buffer: &mut [u8],
    len: &mut usize,
    fault: &mut usize,
) -> u32
    ensures no_path { (refusal : Refusal) → read_path bytes.now ≡ Err refusal
        → Shows (Refused refusal) len.old fault.old buffer.old result len.new fault.new buffer.new }
    ensures path { (nodes : List Node) → read_path bytes.now ≡ Ok nodes
        → (file : Result (List ℕ) FilePathError) × GivesFilePath nodes file × Shows
        (file_outcome encode_utf8_all file) len.old fault.old buffer.old result len.new fault.new buffer.new }
{
    let path = match read_path(bytes) {
        Ok(path) => path,
        Err(refusal) => return refuse(refusal, len, fault),
    };
    match path.display_file_path() {
        Ok(text) => report(write_utf8(buffer, &text), len, fault),
        Err(error) => refuse(error, len, fault),
    }
}

/// Writes the file path of the device path at the start of bytes as a string, as
/// [`nard_device_path_file_path`] writes it in UTF-8. `len` is a number of units.
#[unsafe(no_mangle)]
pub extern "C" fn nard_device_path_file_path_utf16(
    bytes: &[u8],
    buffer: &mut [u16],
    len: &mut usize,
    fault: &mut usize,
) -> u32
    ensures no_path { (refusal : Refusal) → read_path bytes.now ≡ Err refusal
        → Shows (Refused refusal) len.old fault.old buffer.old result len.new fault.new buffer.new }
    ensures path { (nodes : List Node) → read_path bytes.now ≡ Ok nodes
        → (file : Result (List ℕ) FilePathError) × GivesFilePath nodes file × Shows
        (file_outcome (λ path. path) file) len.old fault.old buffer.old result len.new fault.new buffer.new }
    ensures length { (nodes : List Node) → read_path bytes.now ≡ Ok nodes → All IsReadable nodes
        → len.new ≡ length (file_path nodes) }
{
    let path = match read_path(bytes) {
        Ok(path) => path,
        Err(refusal) => return refuse(refusal, len, fault),
    };
    match path.write_file_path(buffer) {
        Ok(length) => report::<Refusal>(Ok(length), len, fault),
        Err(FilePathWriteError::BufferTooSmall(needed)) => refuse_room(needed, len, fault),
        Err(FilePathWriteError::Name(error)) => refuse(error, len, fault),
    }
}
