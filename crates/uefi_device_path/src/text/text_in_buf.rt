//! Device paths that grow in their buffer by the nodes of a text.
#![tactic(auto)]

ghost use Rattle.std.specs.Prelude.{◌≡◌, ◌+◌, ◌≤◌, length, take};
ghost use Rattle.uefi_device_path.specs.PushedPaths.{Leaves, text_pushed};
ghost use Rattle.uefi_node_reader.specs.declared.styles.TextStyle.TheVariants.{Lenient, Libefivar, Printed};

use crate::device_path::DevicePath;
use crate::path_in_buf::{path_len, put_nodes_at};
use crate::text::styled_reader::put_text_in_buf;
use crate::text::text_errors::PushTextError;
use uefi_node_reader::named_files::NameText;
use uefi_node_reader::styles::TextStyle;

/// How many bytes of nodes a text may have to be read only once. Few boot entries have more than 200.
const READ_APART: usize = 256;

/// Adds the nodes of a text, read in a style, before the end of the device path at the start of a
/// buffer, and returns the number of bytes that the path then has. The rest of the buffer is
/// unchanged.
///
/// Hidden: the C library calls it with texts in UTF-16, and it may change.
#[doc(hidden)]
pub fn push_any_text_in_buf<T: NameText>(
    style: TextStyle,
    buffer: &mut [u8],
    text: T,
) -> Result<usize, PushTextError>
    ensures { Leaves (text_pushed style (T.bytes text) buffer.old) buffer.old result buffer.new }
{
    let len = match path_len(buffer) {
        Ok(len) => len,
        Err(error) => return Err(PushTextError::Path(error)),
    };
    // The buffer may be changed only once it is known that the text has no fault.
    let mut apart = [0; READ_APART];
    apart[..4].copy_from_slice(&[0x7f, 0xff, 4, 0]);
    let end = match put_text_in_buf(style, &mut apart, 4, text) {
        Ok(end) => end,
        Err(fault) => return Err(PushTextError::NoNode(fault)),
    };
    let needed = len.saturating_add(end - 4);
    if buffer.len() < needed {
        return Err(PushTextError::BufferTooSmall(needed));
    }
    if end <= READ_APART {
        return Ok(put_nodes_at(buffer, len, DevicePath::of_path(&apart[..end])));
    }
    match put_text_in_buf(style, buffer, len, text) {
        Ok(len) => Ok(len),
        Err(fault) => Err(PushTextError::NoNode(fault)),
    }
}

/// Does what [`push_any_text_in_buf`] does for a text in UTF-8.
///
/// Hidden: the C library calls it with each style, and it may change. Other callers use
/// [`push_text_in_buf`], [`push_lenient_text_in_buf`] and [`push_libefivar_text_in_buf`].
#[doc(hidden)]
pub fn push_styled_text_in_buf(
    style: TextStyle,
    buffer: &mut [u8],
    text: &str,
) -> Result<usize, PushTextError>
    ensures { Leaves (text_pushed style text.now buffer.old) buffer.old result buffer.new }
{
    push_any_text_in_buf(style, buffer, text.as_bytes())
}

/// Adds the nodes of a text before the end of the device path at the start of a buffer, and returns
/// the number of bytes that the path then has. The rest of the buffer is unchanged.
///
/// The text is read as [`DevicePathBuf::from_text`](crate::DevicePathBuf) reads it; a comma in it
/// ends an instance.
///
/// The call fails for the first of these reasons, and leaves the buffer unchanged. Does not
/// allocate.
///
/// | error | reason |
/// |---|---|
/// | `Path` | the buffer does not begin with a device path |
/// | `NoNode` | the first node that can't be read, its first wrong byte, and what must be there |
/// | `BufferTooSmall` | the buffer has fewer bytes than this number, which the path then needs |
///
/// ```rust
/// let mut buffer = [0x7f, 0xff, 4, 0, 0, 0, 0, 0, 0];
/// assert_eq!(rt; push_text_in_buf(&mut buffer, "SD(0x1)"), Ok(9));
/// assert_eq!(rt; buffer, [3, 0x1a, 5, 0, 1, 0x7f, 0xff, 4, 0]);
/// let refused = push_text_in_buf(&mut buffer, "SD(0x1)/SD(1)");
/// let fault = TextFault { node: 8, byte: 8, expected: Expected::AsPrinted };
/// assert_eq!(rt; refused, Err(PushTextError::NoNode(fault)));
/// ```
pub fn push_text_in_buf(buffer: &mut [u8], text: &str) -> Result<usize, PushTextError>
    ensures { Leaves (text_pushed Printed text.now buffer.old) buffer.old result buffer.new }
{
    push_styled_text_in_buf(TextStyle::Printed, buffer, text)
}

/// Adds the nodes of a text, as people write it, before the end of the device path at the start of
/// a buffer, and returns the number of bytes that the path then has. The rest of the buffer is
/// unchanged.
///
/// The text is read as [`DevicePathBuf::from_lenient_text`](crate::DevicePathBuf) reads it. The
/// call fails as [`push_text_in_buf`] does.
///
/// ```rust
/// let mut buffer = [0x7f, 0xff, 4, 0, 0, 0, 0, 0, 0, 0];
/// assert_eq!(rt; push_lenient_text_in_buf(&mut buffer, "pci(31, 2)"), Ok(10));
/// assert_eq!(rt; buffer, [1, 1, 6, 0, 2, 31, 0x7f, 0xff, 4, 0]);
/// let refused = push_lenient_text_in_buf(&mut buffer, "pci(31, 2)");
/// assert_eq!(rt; refused, Err(PushTextError::BufferTooSmall(16)));
/// ```
pub fn push_lenient_text_in_buf(buffer: &mut [u8], text: &str) -> Result<usize, PushTextError>
    ensures { Leaves (text_pushed Lenient text.now buffer.old) buffer.old result buffer.new }
{
    push_styled_text_in_buf(TextStyle::Lenient, buffer, text)
}

/// Adds the nodes of a text that libefivar and efibootmgr print before the end of the device path
/// at the start of a buffer, and returns the number of bytes that the path then has. The rest of
/// the buffer is unchanged.
///
/// The text is read as [`DevicePathBuf::from_libefivar_text`](crate::DevicePathBuf) reads it. The
/// call fails as [`push_text_in_buf`] does.
///
/// ```rust
/// let mut buffer = [0; 20];
/// buffer[0] = 0x7f;
/// buffer[1] = 0xff;
/// buffer[2] = 4;
/// let text = "NVMe(0x1,01-02-03-04-05-06-07-08)";
/// assert_eq!(rt; push_libefivar_text_in_buf(&mut buffer, text), Ok(20));
/// assert_eq!(rt; &buffer[8..16], [1, 2, 3, 4, 5, 6, 7, 8].as_slice());
/// ```
pub fn push_libefivar_text_in_buf(buffer: &mut [u8], text: &str) -> Result<usize, PushTextError>
    ensures { Leaves (text_pushed Libefivar text.now buffer.old) buffer.old result buffer.new }
{
    push_styled_text_in_buf(TextStyle::Libefivar, buffer, text)
}
