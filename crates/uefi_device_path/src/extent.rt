//! The length of a device path of which only the first bytes may be given.
//!
//! Firmware hands out device paths without their lengths. Such a path can be read from its first
//! bytes on, and never beyond the bytes that its headers state.
#![tactic(auto)]

ghost use Rattle.std.specs.Prelude.{◌≡◌, ◌+◌, ◌<◌, ◌≤◌, IfErr, IfOk, false, length};
ghost use Rattle.uefi_device_path.specs.Extents.{BeginNoPath, HasExtent, begun_length, extent_end, is_cut_short};
ghost use Rattle.uefi_device_path.specs.Faults.{RefusedFor};

use crate::device_path::DevicePath;
use crate::errors::{DevicePathError, NodeError};
use uefi_device_nodes::node::{DevicePathNode, fault_place};

/// The state of reading a device path whose bytes end before it does.
#[derive(Clone, Copy, Debug, PartialEq, Eq)]
pub struct PathCut {
    /// The number of bytes of the whole nodes that come first: the next node begins there.
    pub passed: usize,
    /// The number of bytes needed to continue: up to the end of the next node's header, or of the
    /// node if its header is there.
    pub needed: usize,
}

/// The extent of bytes that begin like a device path.
#[derive(Clone, Copy, Debug, PartialEq, Eq)]
pub enum PathExtent {
    /// The bytes begin with a device path of this many bytes, its end node included.
    Whole(usize),
    /// The bytes end before the path does.
    Cut(PathCut),
}

/// Returns the least number of bytes of a node, given its first bytes: the length of a header, or
/// the length that the header states.
fn begun_length(bytes: &[u8]) -> usize
    ensures length { result ≡ begun_length bytes.now }
    ensures small { result < 65536 }
{
    match bytes {
        [_, _, low, high, ..] => u16::from_le_bytes([*low, *high]) as usize,
        _ => 4,
    }
}

/// Returns whether bytes end before the end of a node that was refused for this cause.
fn is_cut_short(cause: NodeError) -> bool
    ensures { result ≡ is_cut_short cause }
{
    matches!(
        cause,
        NodeError::Missing | NodeError::TruncatedHeader | NodeError::BeyondEnd
    )
}

impl DevicePath<'_> {
    /// Returns the number of bytes of the device path at the start of bytes, or the number of bytes
    /// that are needed to continue.
    ///
    /// A caller who has an address and no length gives four bytes first, and then as many as are
    /// needed, until the path is whole. No device path that begins with the bytes is shorter than
    /// that. Fails as [`DevicePath::from_bytes`] does if no device path begins with the bytes,
    /// whatever follows them. Does not allocate (UEFI Specification 2.10, section 10.3.1).
    ///
    /// ```rust
    /// let bytes = [1, 1, 6, 0, 0, 0x1f, 0x7f, 0xff, 4, 0, 9];
    /// let cut = |passed, needed| Ok(PathExtent::Cut(PathCut { passed, needed }));
    /// assert_eq!(rt; DevicePath::extent(&bytes[..4]), cut(0, 6));
    /// assert_eq!(rt; DevicePath::extent(&bytes[..6]), cut(6, 10));
    /// assert_eq!(rt; DevicePath::extent(&bytes), Ok(PathExtent::Whole(10)));
    /// let error = DevicePathError { cause: NodeError::LengthBelowHeader, offset: 2 };
    /// assert_eq!(rt; DevicePath::extent(&[1, 1, 3, 0]), Err(error));
    /// ```
    pub fn extent(bytes: &[u8]) -> Result<PathExtent, DevicePathError>
        ensures ok { IfOk result (HasExtent bytes.now) }
        ensures refusal { IfErr result (λ error. RefusedFor bytes.now error) }
        ensures never { IfErr result (λ _. BeginNoPath bytes.now) }
        ensures cause { IfErr result (λ error. is_cut_short error.cause ≡ false) }
        ensures bound { IfOk result (λ extent. extent_end extent < length bytes.now + 65536) }
        ensures within { IfErr result (λ error. error.offset ≤ length bytes.now) }
    {
        let mut rest = bytes;
        'nodes: loop {
            let passed = bytes.len() - rest.len();
            match DevicePathNode::split_first(rest) {
                Ok((node, after)) => {
                    if node.is_end_entire() {
                        return Ok(PathExtent::Whole(passed + 4));
                    }
                    rest = after;
                }
                Err(cause) => {
                    if is_cut_short(cause) {
                        let needed = passed + begun_length(rest);
                        return Ok(PathExtent::Cut(PathCut { passed, needed }));
                    }
                    return Err(DevicePathError {
                        cause,
                        offset: passed + fault_place(cause),
                    });
                }
            }
        }
    }
}
