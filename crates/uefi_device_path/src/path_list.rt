//! Device paths that are packed one after the other.
#![tactic(auto, unfolding(crate::specs::Views::paths_left))]

ghost use Rattle.std.specs.Prelude.{◌≡◌, ◌≤◌, ◌<◌, ◌^◌, ◌↔◌, length, IfErr, IfOk, IsOk, OnOk};
ghost use Rattle.uefi_device_path.specs.PathLists.{ArePacked, BreaksAfter, HasFirst, IsPathList, ListRefusedFor, paths_in};
ghost use Rattle.uefi_device_path.specs.Paths.{AreNodes, nodes_in};
ghost use Rattle.uefi_device_path.specs.declared.errors.DevicePathError.{DevicePathError};
ghost use Rattle.uefi_text.specs.Runs.{GivesEach};
ghost use Rattle.std.specs.Iterator.{YieldsFirstBy, item_count};

use crate::device_path::DevicePath;
use crate::errors::DevicePathError;
use uefi_device_nodes::node::fault_place;

/// The offset at which bytes stop being device paths, and the reason.
#[derive(Clone, Copy)]
pub(crate) struct ListFault<'a> {
    /// The whole paths before the fault.
    pub(crate) paths: &'a [u8],
    /// The nodes before the fault, in the path that contains it.
    pub(crate) nodes: &'a [u8],
    pub(crate) error: DevicePathError,
    pub ghost packed: { ArePacked paths.now },
    pub ghost are_nodes: { AreNodes nodes.now },
}

/// Checks that bytes are one or more device paths, and nothing else. Returns the length of the first
/// path, or the first fault.
pub(crate) fn check_list(bytes: &[u8]) -> Result<usize, ListFault<'_>>
    ensures ok { OnOk result (IsPathList bytes.now) }
    ensures first { IfOk result (λ len. HasFirst bytes.now len) }
    ensures refusal { IfErr result (λ fault. ListRefusedFor bytes.now fault.error) }
    ensures before { IfErr result (λ fault. BreaksAfter bytes.now (paths_in fault.paths.now)
        (nodes_in fault.nodes.now) fault.error.cause) }
    ensures within { IfErr result (λ fault. fault.error.offset ≤ length bytes.now) }
{
    let mut rest = bytes;
    let mut first_len = 0;
    'paths: loop {
        let start = bytes.len() - rest.len();
        match DevicePath::read(rest) {
            Ok((_, after)) => {
                if start == 0 {
                    first_len = bytes.len() - after.len();
                }
                if after.is_empty() {
                    return Ok(first_len);
                }
                rest = after;
            }
            Err(error) => {
                return Err(ListFault {
                    paths: &bytes[..start],
                    nodes: &rest[..error.offset - fault_place(error.cause)],
                    error: DevicePathError {
                        cause: error.cause,
                        offset: start + error.offset,
                    },
                });
            }
        }
    }
}

/// Checks that bytes are one or more device paths, and nothing else.
///
/// Fails at the first malformed path with the error of [`DevicePath::split_first`], except that the
/// offset counts from the first of all bytes. Does not allocate.
///
/// ```rust
/// assert_eq!(rt; check_paths(&[0x7f, 0xff, 4, 0, 0x7f, 0xff, 4, 0]), Ok(()));
/// let error = DevicePathError { cause: NodeError::TruncatedHeader, offset: 4 };
/// assert_eq!(rt; check_paths(&[0x7f, 0xff, 4, 0, 0x7f]), Err(error));
/// ```
pub fn check_paths(bytes: &[u8]) -> Result<(), DevicePathError>
    ensures ok { OnOk result (IsPathList bytes.now) }
    ensures accepts { IsOk result ↔ IsPathList bytes.now }
    ensures refusal { IfErr result (λ error. ListRefusedFor bytes.now error) }
    ensures only_refusal { IfErr result (λ error. (other : DevicePathError) →
        ListRefusedFor bytes.now other → other ≡ error) }
    ensures within { IfErr result (λ error. error.offset ≤ length bytes.now) }
{
    match check_list(bytes) {
        Ok(_) => Ok(()),
        Err(fault) => Err(fault.error),
    }
}

/// An iterator over packed device paths, in order. A contract sees it as `paths_left` of it: the
/// paths that remain.
#[derive(Drop)]
pub struct DevicePaths<'a> {
    /// The first of the paths, if its end is known.
    first: Option<DevicePath<'a>>,
    /// The other paths.
    rest: &'a [u8],
    pub ghost packed: { ArePacked rest.now },
}

impl<'a> DevicePaths<'a> {
    ghost use Rattle.uefi_device_path.specs.Views.{nodes_of, paths_left};

    /// Creates an iterator over device paths, given as bytes.
    pub(crate) fn of(bytes: &'a [u8]) -> Self
        requires { ArePacked bytes.now }
        ensures same { paths_left result ≡ paths_in bytes.now }
        ensures bound { length (paths_left result) < 2 ^ 64 }
        ensures runs { GivesEach nodes_of paths_left result }
    {
        DevicePaths {
            first: None,
            rest: bytes,
        }
    }

    /// Creates an iterator over device paths, given as bytes, and as the length of the first of them.
    pub(crate) fn of_list(bytes: &'a [u8], first_len: usize) -> Self
        requires packed { ArePacked bytes.now }
        requires first { HasFirst bytes.now first_len }
        ensures same { paths_left result ≡ paths_in bytes.now }
        ensures bound { length (paths_left result) < 2 ^ 64 }
        ensures runs { GivesEach nodes_of paths_left result }
    {
        let (first, rest) = bytes.split_at(first_len);
        DevicePaths {
            first: Some(DevicePath::of_path(first)),
            rest,
        }
    }
}

/// Gives the paths from the front, and then always `None`.
impl<'a> Iterator for DevicePaths<'a> {
    type Item = DevicePath<'a>;

    ghost use Rattle.uefi_device_path.specs.Views.{nodes_of, paths_left};

    ghost next_gives = { YieldsFirstBy nodes_of paths_left };

    ghost remaining = { item_count paths_left };

    fn next(&mut self) -> Option<DevicePath<'a>> {
        if let Some(first) = self.first {
            self.first = None;
            return Some(first);
        }
        if self.rest.is_empty() {
            return None;
        }
        let (path, rest) = DevicePath::take_first(self.rest);
        self.rest = rest;
        Some(path)
    }
}
