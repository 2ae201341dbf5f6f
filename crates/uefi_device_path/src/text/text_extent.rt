//! The end of the path at the start of a text, if something else follows it.
#![tactic(auto)]

ghost use Rattle.std.specs.Prelude.{◌≡◌, is_ok};
ghost use Rattle.uefi_device_path.specs.StyledReading.{extent_by, is_end, path_read, text_extent};
ghost use Rattle.uefi_node_reader.specs.declared.styles.TextStyle.TheVariants.{Lenient, Libefivar};

use crate::laws::styled_texts;
use crate::text::styled_reader::put_text_in_buf;
use crate::text::text_errors::{Expected, TextFault};
use uefi_node_reader::lenient::lenient_names::past_file_call;
use uefi_node_reader::named_files::NameText;
use uefi_node_reader::styles::TextStyle;

/// Returns whether the end of a node is expected.
fn is_end(expected: Expected) -> bool
    ensures { result ≡ is_end expected }
{
    match expected {
        Expected::End => true,
        _ => false,
    }
}

/// Returns whether a whole text is read as a path.
fn is_path<T: NameText>(style: TextStyle, text: T) -> bool
    ensures { result ≡ is_ok (path_read style (T.bytes text)) }
{
    match put_text_in_buf(style, &mut [], 4, text) {
        Ok(_) => true,
        Err(_) => false,
    }
}

/// Returns the number of bytes at the start of a text that are a path, if what is read says so: all of them,
/// or those before a byte where a node should end. Fails with the fault of the text.
fn extent<T: NameText>(style: TextStyle, text: T) -> Result<usize, TextFault>
    ensures { result ≡ extent_by style (T.bytes text) (path_read style (T.bytes text)) }
{
    // The law says that the wrong byte is in the text, or at its end.
    styled_texts();
    let fault = match put_text_in_buf(style, &mut [], 4, text) {
        Ok(_) => return Ok(text.len()),
        Err(fault) => fault,
    };
    if !is_end(fault.expected) {
        return Err(fault);
    }
    let (path, _) = text.split_at(fault.byte);
    if is_path(style, path) {
        return Ok(fault.byte);
    }
    Err(fault)
}

/// Returns the number of bytes at the start of a text that are a path in a style, or the fault of
/// the text.
///
/// Hidden: the C library calls it, and it may change. Other callers use [`lenient_text_extent`] and
/// [`libefivar_text_extent`].
#[doc(hidden)]
#[tactic(auto, unfolding(crate::specs::StyledReading::text_extent))]
pub fn styled_text_extent<T: NameText>(style: TextStyle, text: T) -> Result<usize, TextFault>
    ensures { result ≡ text_extent style (T.bytes text) }
{
    let Some(rest) = past_file_call(text) else {
        return extent(style, text);
    };
    let end = text.len().saturating_sub(rest.len());
    let (path, _) = text.split_at(end);
    if is_path(style, path) {
        return Ok(end);
    }
    extent(style, text)
}

/// Returns the number of bytes at the start of a text, as people write it, that are a path, if
/// other text may follow: programs such as efibootmgr print optional data directly after the last
/// node.
///
/// The path ends with the first `File(..)` that other text follows directly, if it can be read up to
/// there. The call ends at the `)` that closes it, so the name may contain pairs of parentheses. Otherwise
/// the path is the whole text if [`DevicePathBuf::from_lenient_text`](crate::DevicePathBuf) reads it, and
/// the text before the wrong byte if that call fails where a node should end. For any other text, this fails
/// with the fault that the call reports. Text that begins with `/` or `,` is always part of the path. Does
/// not allocate.
///
/// ```rust
/// let text = r"HD(1,MBR,0x12345678)/File(\x (x86)\a.efi)RC)";
/// let end = lenient_text_extent(text);
/// assert_eq!(rt; end, Ok(41));
/// ```
pub fn lenient_text_extent(text: &str) -> Result<usize, TextFault>
    ensures { result ≡ text_extent Lenient text.now }
{
    styled_text_extent(TextStyle::Lenient, text.as_bytes())
}

/// Does what [`lenient_text_extent`] does for a text that libefivar and efibootmgr print, which
/// [`DevicePathBuf::from_libefivar_text`](crate::DevicePathBuf) reads.
///
/// ```rust
/// let end = libefivar_text_extent("NVMe(0x1,00-25-38-5B-71-B0-03-1C)..BO");
/// assert_eq!(rt; end, Ok(33));
/// ```
pub fn libefivar_text_extent(text: &str) -> Result<usize, TextFault>
    ensures { result ≡ text_extent Libefivar text.now }
{
    styled_text_extent(TextStyle::Libefivar, text.as_bytes())
}
