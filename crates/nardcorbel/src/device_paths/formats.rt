//! The texts of device paths and of nodes in bytes that C holds.
#![tactic(auto, unfolding(crate::specs::Reading::read_node))]

ghost use Rattle.std.specs.Prelude.{◌≡◌, ◌≢◌, ◌≤◌, None, length};
ghost use Rattle.uefi_device_path.specs.NodeFaults.{node_fault};
ghost use Rattle.uefi_device_path.specs.Nodes.{first_node};
ghost use Rattle.uefi_device_path.specs.PathTexts.{text_room};
ghost use Rattle.uefi_text.specs.UnitTexts.{utf16_units};
ghost use Rattle.nardcorbel.specs.DevicePaths.{BeginWithNode};
ghost use Rattle.nardcorbel.specs.Outcomes.{Shows, when_read};
ghost use Rattle.nardcorbel.specs.Outcomes.Outcome.{Text};
ghost use Rattle.nardcorbel.specs.Reading.{read_node, read_path};
ghost use Rattle.nardcorbel.specs.TextStyles.{printed_form, text_in_form, in_style, node_printed};

use crate::device_paths::text_styles::{Form, printed_form};
use crate::outcomes::{read_path, refuse, report};
use crate::reasons::{BUFFER_TOO_SMALL, UNKNOWN_STYLE};
use crate::utf8_buffers::write_utf8;
use uefi_device_path::{AllowShortcuts, AsInPath, DevicePathNode, DisplayOnly};
use uefi_text::write_units;

/// Writes the text of the device path at the start of bytes, and a NUL, to the start of a buffer, as
/// UTF-8.
///
/// `style` is one of [`text_styles`](crate::device_paths::text_styles): that of the specification,
/// alone or with `DISPLAY_ONLY` and `ALLOW_SHORTCUTS`, or that of libefivar. Any other is rejected as
/// `UNKNOWN_STYLE`. Then bytes that do not begin with a device path are rejected as by
/// `nard_device_path_check`. Otherwise `len` becomes the number of bytes of the text, without its NUL,
/// at most `usize::MAX - 1`, and exactly a buffer with at most that many places is rejected as
/// `BUFFER_TOO_SMALL`. If the call fails, the buffer is unchanged. Bytes after the NUL are never
/// changed. Does not allocate (UEFI Specification 2.10, section 10.6.1).
#[unsafe(no_mangle)]
pub extern "C" fn nard_device_path_format(
    bytes: &[u8],
    style: u32,
    buffer: &mut [u8],
    len: &mut usize,
    fault: &mut usize,
) -> u32
    ensures { Shows (in_style (printed_form style) (λ form. when_read (read_path bytes.now) (λ nodes.
        Text (text_in_form form nodes)))) len.old fault.old buffer.old result len.new fault.new buffer.new }
{
    let Some(form) = printed_form(style) else {
        return UNKNOWN_STYLE;
    };
    let path = match read_path(bytes) {
        Ok(path) => path,
        Err(refusal) => return refuse(refusal, len, fault),
    };
    match form {
        Form::Specified(display_only, allow_shortcuts) => {
            let text = path.display(DisplayOnly(display_only), AllowShortcuts(allow_shortcuts));
            report(write_utf8(buffer, &text), len, fault)
        }
        Form::Libefivar => report(write_utf8(buffer, &path.display_libefivar()), len, fault),
    }
}

/// Does what [`nard_device_path_format`] does, as UTF-16. A buffer of
/// [`TEXT_UNITS_PER_BYTE`](uefi_device_path::TEXT_UNITS_PER_BYTE) units for each byte always has room.
#[unsafe(no_mangle)]
pub extern "C" fn nard_device_path_format_utf16(
    bytes: &[u8],
    style: u32,
    buffer: &mut [u16],
    len: &mut usize,
    fault: &mut usize,
) -> u32
    ensures shows { Shows (in_style (printed_form style) (λ form. when_read (read_path bytes.now) (λ nodes.
        Text (utf16_units (text_in_form form nodes)))))
        len.old fault.old buffer.old result len.new fault.new buffer.new }
    ensures room_is_enough { text_room bytes.now ≤ length buffer.old → result ≢ BUFFER_TOO_SMALL }
{
    let Some(form) = printed_form(style) else {
        return UNKNOWN_STYLE;
    };
    let path = match read_path(bytes) {
        Ok(path) => path,
        Err(refusal) => return refuse(refusal, len, fault),
    };
    match form {
        Form::Specified(display_only, allow_shortcuts) => {
            let (display_only, allow_shortcuts) = (
                DisplayOnly(display_only),
                AllowShortcuts(allow_shortcuts),
            );
            report(
                path.write_text(buffer, display_only, allow_shortcuts),
                len,
                fault,
            )
        }
        Form::Libefivar => report(path.write_libefivar_text(buffer), len, fault),
    }
}

/// Writes the text of the node at the start of bytes, and a NUL, to the start of a buffer, as UTF-8.
///
/// The call does not read beyond the node, which may be one that ends a path or an instance. `style` is
/// that of the specification, alone or with `DISPLAY_ONLY` and `ALLOW_SHORTCUTS`; a number that is no
/// style is rejected as `UNKNOWN_STYLE`. Then bytes that do not begin with a node are rejected as by
/// `nard_device_path_next_node` at offset 0, and then the style of libefivar as `UNKNOWN_STYLE`.
/// Otherwise the call does what [`nard_device_path_format`] does for a path. Does not allocate (UEFI
/// Specification 2.10, section 10.6.1).
#[unsafe(no_mangle)]
pub extern "C" fn nard_node_format(
    bytes: &[u8],
    style: u32,
    buffer: &mut [u8],
    len: &mut usize,
    fault: &mut usize,
) -> u32
    ensures shows { Shows (in_style (printed_form style) (λ form. when_read (read_node bytes.now)
        (node_printed (λ text. text) form)))
        len.old fault.old buffer.old result len.new fault.new buffer.new }
    ensures node { node_fault bytes.now ≡ None → BeginWithNode bytes.now (first_node bytes.now) }
{
    let Some(form) = printed_form(style) else {
        return UNKNOWN_STYLE;
    };
    let node = match DevicePathNode::split_first(bytes) {
        Ok((found, _)) => found,
        Err(cause) => return refuse(cause, len, fault),
    };
    match form {
        Form::Specified(display_only, allow_shortcuts) => {
            let text = node.display(DisplayOnly(display_only), AllowShortcuts(allow_shortcuts));
            report(write_utf8(buffer, &AsInPath(text)), len, fault)
        }
        Form::Libefivar => UNKNOWN_STYLE,
    }
}

/// Does what [`nard_node_format`] does, as UTF-16. A buffer of
/// [`TEXT_UNITS_PER_BYTE`](uefi_device_path::TEXT_UNITS_PER_BYTE) units for each byte always has room.
#[unsafe(no_mangle)]
pub extern "C" fn nard_node_format_utf16(
    bytes: &[u8],
    style: u32,
    buffer: &mut [u16],
    len: &mut usize,
    fault: &mut usize,
) -> u32
    ensures shows { Shows (in_style (printed_form style) (λ form. when_read (read_node bytes.now)
        (node_printed utf16_units form)))
        len.old fault.old buffer.old result len.new fault.new buffer.new }
    ensures room_is_enough { text_room bytes.now ≤ length buffer.old → result ≢ BUFFER_TOO_SMALL }
{
    let Some(form) = printed_form(style) else {
        return UNKNOWN_STYLE;
    };
    let node = match DevicePathNode::split_first(bytes) {
        Ok((found, _)) => found,
        Err(cause) => return refuse(cause, len, fault),
    };
    match form {
        Form::Specified(display_only, allow_shortcuts) => {
            let text = node.display(DisplayOnly(display_only), AllowShortcuts(allow_shortcuts));
            report(write_units(buffer, &AsInPath(text)), len, fault)
        }
        Form::Libefivar => UNKNOWN_STYLE,
    }
}
