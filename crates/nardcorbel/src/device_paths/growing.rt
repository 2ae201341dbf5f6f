//! Device paths that grow in a buffer, at the end node whose place the caller knows.
ghost use Rattle.std.specs.Prelude.{◌≡◌, ◌≤◌, IsTrue, length};
ghost use Rattle.uefi_device_path.specs.Building.{ends_at};
ghost use Rattle.uefi_device_path.specs.PushedPaths.{Leaves};
ghost use Rattle.uefi_device_path.specs.Views.{nodes_of};
ghost use Rattle.nardcorbel.specs.PathEnds.{missing_end, moved_error, moved_text_error, nodes_appended_at, text_parsed, text_pushed_at};

use uefi_device_path::{
    BuildError, DevicePath, DevicePathError, GrowError, NameText, NodeError, PushTextError,
    TextStyle, append_in_buf, push_any_text_in_buf,
};

/// The node that ends a path.
const END_NODE: [u8; 4] = [0x7f, 0xff, 4, 0];

/// Returns whether the first `path_len` bytes end with the node that ends a path.
fn ends_at(bytes: &[u8], path_len: usize) -> bool
    ensures value { result ≡ ends_at bytes.now path_len }
    ensures within { IsTrue result → path_len ≤ length bytes.now }
    ensures end { IsTrue result → 4 ≤ path_len }
{
    path_len <= bytes.len() && bytes[..path_len].ends_with(&END_NODE)
}

/// Returns the error if a path does not end where the caller says.
fn missing_end(path_len: usize) -> DevicePathError
    ensures { result ≡ missing_end path_len }
{
    DevicePathError {
        cause: NodeError::Missing,
        offset: path_len,
    }
}

/// Returns an error of a call that was given a buffer from `start` on.
fn moved_error(start: usize, error: GrowError) -> GrowError
    ensures { result ≡ moved_error start error }
{
    match error {
        GrowError::Build(BuildError::BufferTooSmall(needed)) => {
            GrowError::Build(BuildError::BufferTooSmall(start.saturating_add(needed)))
        }
        GrowError::Build(_) | GrowError::Path(_) => error,
    }
}

/// Returns an error of a call that was given a buffer from `start` on.
fn moved_text_error(start: usize, error: PushTextError) -> PushTextError
    ensures { result ≡ moved_text_error start error }
{
    match error {
        PushTextError::BufferTooSmall(needed) => {
            PushTextError::BufferTooSmall(start.saturating_add(needed))
        }
        PushTextError::NoNode(_) | PushTextError::Path(_) => error,
    }
}

/// Adds the nodes of another path before the end of the path in the first `path_len` bytes of a buffer,
/// and returns the size that the path then has. The bytes before the end node are not checked.
pub(crate) fn append_at(
    buffer: &mut [u8],
    path_len: usize,
    path: DevicePath<'_>,
) -> Result<usize, GrowError>
    ensures { Leaves (nodes_appended_at path_len (nodes_of path.entry) buffer.old) buffer.old
        result buffer.new }
{
    if !ends_at(buffer, path_len) {
        return Err(GrowError::Path(missing_end(path_len)));
    }
    // A clause of this call says how long the path is.
    let _bytes = path.as_bytes();
    let start = path_len - 4;
    // The end node alone is a path, to which the call adds the nodes.
    match append_in_buf(&mut buffer[start..], path) {
        Ok(len) => Ok(start + len),
        Err(error) => Err(moved_error(start, error)),
    }
}

/// Adds the nodes of a text as [`append_at`] adds those of a path.
pub(crate) fn push_text_at<T: NameText>(
    style: TextStyle,
    buffer: &mut [u8],
    path_len: usize,
    text: T,
) -> Result<usize, PushTextError>
    ensures { Leaves (text_pushed_at style (T.bytes text) path_len buffer.old) buffer.old
        result buffer.new }
{
    if !ends_at(buffer, path_len) {
        return Err(PushTextError::Path(missing_end(path_len)));
    }
    let start = path_len - 4;
    match push_any_text_in_buf(style, &mut buffer[start..], text) {
        Ok(len) => Ok(start + len),
        Err(error) => Err(moved_text_error(start, error)),
    }
}

/// Writes the path of a text to the start of a buffer of at least four bytes, and returns its size.
fn parse_in<T: NameText>(
    style: TextStyle,
    buffer: &mut [u8],
    text: T,
) -> Result<usize, PushTextError>
    requires { 4 ≤ length buffer.now }
    ensures { Leaves (text_parsed style (T.bytes text) buffer.old) buffer.old result buffer.new }
{
    let mut before = [0; 4];
    before.copy_from_slice(&buffer[..4]);
    buffer[..4].copy_from_slice(&END_NODE);
    let result = push_any_text_in_buf(style, buffer, text);
    if result.is_err() {
        buffer[..4].copy_from_slice(&before);
    }
    result
}

/// Writes the path of a text to the start of a buffer, and returns its size.
pub(crate) fn parse_text<T: NameText>(
    style: TextStyle,
    buffer: &mut [u8],
    text: T,
) -> Result<usize, PushTextError>
    ensures { Leaves (text_parsed style (T.bytes text) buffer.old) buffer.old result buffer.new }
{
    if 4 <= buffer.len() {
        return parse_in(style, buffer, text);
    }
    match push_any_text_in_buf(style, &mut [0x7f, 0xff, 4, 0], text) {
        Ok(_) => Err(PushTextError::BufferTooSmall(4)),
        Err(error) => Err(error),
    }
}
