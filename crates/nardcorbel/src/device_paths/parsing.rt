//! Device paths that C reads from texts.
ghost use Rattle.std.specs.Prelude.{◌≡◌, IfErr, IfOk, Err, Ok, Option};
ghost use Rattle.std.specs.Option.{option_map};
ghost use Rattle.std.specs.Result.{result_err};
ghost use Rattle.uefi_device_path.specs.StyledReading.{path_read};
ghost use Rattle.uefi_device_path.specs.declared.text.text_errors.TextFault.{TextFault};
ghost use Rattle.nardcorbel.specs.DevicePathTexts.{error_in_units, extent_outcome, fault_in, fault_in_units, fault_outcome, fault_text, parsed, pushed_text, read_utf16, refused_in_units};
ghost use Rattle.nardcorbel.specs.Outcomes.{Shows, ShowsNumber, when_read};
ghost use Rattle.nardcorbel.specs.Reading.{read_utf8};
ghost use Rattle.nardcorbel.specs.Refusals.{fault_refusal};
ghost use Rattle.nardcorbel.specs.Strings.{text_until_nul};
ghost use Rattle.nardcorbel.specs.TextStyles.{in_style, style_of};
ghost use Rattle.uefi_text.specs.UnitTexts.{utf16_units};

use crate::device_paths::growing::{parse_text, push_text_at};
use crate::device_paths::text_styles::style_of;
use crate::outcomes::{Refusal, read_utf8, refuse, report};
use crate::reasons::{INVALID_CHAR, NO_NODE, UNKNOWN_STYLE};
use crate::strings::until_nul;
use crate::utf8_buffers::write_utf8;
use uefi_device_path::{
    NameText, PushTextError, Text, TextFault, TextStyle, Utf16Text, push_any_text_in_buf,
    styled_text_extent, units_within,
};
use uefi_text::text_sink::{Printed, TextSink};
use uefi_text::write_units;

/// The text of units.
fn read_utf16<'a>(units: &'a &'a [u16]) -> Result<Utf16Text<'a>, Refusal>
    ensures ok { IfOk result (λ text. read_utf16 units.now.now ≡ Ok (⟦<Utf16Text<'a> as Text>⟧.bytes text)) }
    ensures err { IfErr result (λ refusal. read_utf16 units.now.now ≡ Err refusal) }
{
    match Utf16Text::new(units) {
        Ok(text) => Ok(text),
        Err(place) => Err(Refusal::at(INVALID_CHAR, place)),
    }
}

/// Returns the fault of the UTF-8 of units with its places in the units.
fn fault_in_units(units: &[u16], fault: TextFault) -> TextFault
    ensures { result ≡ fault_in_units units.now fault }
{
    TextFault {
        node: units_within(units, fault.node),
        byte: units_within(units, fault.byte),
        expected: fault.expected,
    }
}

/// Returns why the nodes of units are not added, with the places in the units.
fn error_in_units(units: &[u16], error: PushTextError) -> PushTextError
    ensures { result ≡ error_in_units units.now error }
{
    match error {
        PushTextError::NoNode(fault) => PushTextError::NoNode(fault_in_units(units, fault)),
        PushTextError::Path(_) | PushTextError::BufferTooSmall(_) => error,
    }
}

/// Writes the device path of a text in UTF-8 to the start of a buffer.
///
/// `style` is one of [`text_styles`](crate::device_paths::text_styles): that of the specification, of
/// people or of libefivar. The call fails for the first of these reasons:
///
/// | error | fault | `fault` |
/// |---|---|---|
/// | `UNKNOWN_STYLE` | the style is another number | unchanged |
/// | `NOT_UTF8` | the bytes are not UTF-8 | the number of bytes before the fault |
/// | `NO_NODE` | the text is not a device path | the byte of it that is wrong, or its length |
/// | `BUFFER_TOO_SMALL` | the buffer is too small | unchanged |
///
/// At `OK`, `len` becomes the size of the path, and at `BUFFER_TOO_SMALL` the size that it needs, at most
/// `usize::MAX`. If the call fails, the buffer is unchanged. Bytes after the path are never changed. Does
/// not allocate (UEFI Specification 2.10, section 10.6.1).
#[unsafe(no_mangle)]
pub extern "C" fn nard_device_path_parse(
    text: &[u8],
    style: u32,
    buffer: &mut [u8],
    len: &mut usize,
    fault: &mut usize,
) -> u32
    ensures { Shows (in_style (style_of style) (λ style. when_read (read_utf8 text.now)
        (parsed fault_refusal style))) len.old fault.old buffer.old result len.new fault.new buffer.new }
{
    let Some(style) = style_of(style) else {
        return UNKNOWN_STYLE;
    };
    let text = match read_utf8(text) {
        Ok(text) => text,
        Err(refusal) => return refuse(refusal, len, fault),
    };
    report(parse_text(style, buffer, text.as_bytes()), len, fault)
}

/// Writes the device path of a text in UTF-16 to the start of a buffer, as [`nard_device_path_parse`]
/// does for a text in UTF-8. The text is the units before their first NUL, or all of them if there is
/// none. A surrogate without a partner is rejected as `INVALID_CHAR`, in place of `NOT_UTF8`; `fault` is an
/// index of units.
#[unsafe(no_mangle)]
pub extern "C" fn nard_device_path_parse_utf16(
    text: &[u16],
    style: u32,
    buffer: &mut [u8],
    len: &mut usize,
    fault: &mut usize,
) -> u32
    ensures { let units = text_until_nul text.now in
        Shows (in_style (style_of style) (λ style. when_read (read_utf16 units)
        (parsed (refused_in_units units) style))) len.old fault.old buffer.old
        result len.new fault.new buffer.new }
{
    let Some(style) = style_of(style) else {
        return UNKNOWN_STYLE;
    };
    let units = until_nul(text);
    let text = match read_utf16(&units) {
        Ok(text) => text,
        Err(refusal) => return refuse(refusal, len, fault),
    };
    match parse_text(style, buffer, text) {
        Ok(size) => report::<PushTextError>(Ok(size), len, fault),
        Err(error) => refuse(error_in_units(units, error), len, fault),
    }
}

/// Adds the nodes of a text in UTF-8 before the end of the device path in the first `path_len` bytes of a
/// buffer. A comma in the text ends an instance.
///
/// `path_len` is the `len` of the call before; the bytes before the end node are not checked. The call
/// fails as [`nard_device_path_parse`] does, and with `NO_END_NODE`, before `NO_NODE`, if the first
/// `path_len` bytes do not end with an end node: `fault` then becomes `path_len`. `len` becomes the size
/// that the path then has, or at `BUFFER_TOO_SMALL` needs. If the call fails, the buffer is unchanged.
/// Bytes after the path are never changed. Does not allocate (UEFI Specification 2.10, section 10.6.1).
#[unsafe(no_mangle)]
pub extern "C" fn nard_device_path_push_text(
    buffer: &mut [u8],
    path_len: usize,
    text: &[u8],
    style: u32,
    len: &mut usize,
    fault: &mut usize,
) -> u32
    ensures { Shows (in_style (style_of style) (λ style. when_read (read_utf8 text.now)
        (pushed_text fault_refusal path_len buffer.old style)))
        len.old fault.old buffer.old result len.new fault.new buffer.new }
{
    let Some(style) = style_of(style) else {
        return UNKNOWN_STYLE;
    };
    let text = match read_utf8(text) {
        Ok(text) => text,
        Err(refusal) => return refuse(refusal, len, fault),
    };
    report(
        push_text_at(style, buffer, path_len, text.as_bytes()),
        len,
        fault,
    )
}

/// Adds the nodes of a text in UTF-16, as [`nard_device_path_push_text`] does for a text in UTF-8. The text
/// and `fault` are as in [`nard_device_path_parse_utf16`].
#[unsafe(no_mangle)]
pub extern "C" fn nard_device_path_push_text_utf16(
    buffer: &mut [u8],
    path_len: usize,
    text: &[u16],
    style: u32,
    len: &mut usize,
    fault: &mut usize,
) -> u32
    ensures { let units = text_until_nul text.now in
        Shows (in_style (style_of style) (λ style. when_read (read_utf16 units)
        (pushed_text (refused_in_units units) path_len buffer.old style)))
        len.old fault.old buffer.old result len.new fault.new buffer.new }
{
    let Some(style) = style_of(style) else {
        return UNKNOWN_STYLE;
    };
    let units = until_nul(text);
    let text = match read_utf16(&units) {
        Ok(text) => text,
        Err(refusal) => return refuse(refusal, len, fault),
    };
    match push_text_at(style, buffer, path_len, text) {
        Ok(size) => report::<PushTextError>(Ok(size), len, fault),
        Err(error) => refuse(error_in_units(units, error), len, fault),
    }
}

/// Finds the end of the device path at the start of a text in bytes, as
/// [`lenient_text_extent`](uefi_device_path) does: programs print other data directly after a path.
///
/// A style that is no number of [`text_styles`](crate::device_paths::text_styles) is rejected as
/// `UNKNOWN_STYLE`. A text that does not begin with a path is rejected as `NO_NODE`, and `fault`
/// becomes the byte of it that is wrong, or its length. Otherwise `len` becomes the number of bytes of
/// the path. The bytes after it need not be UTF-8. Does not allocate.
#[unsafe(no_mangle)]
pub extern "C" fn nard_device_path_text_extent(
    text: &[u8],
    style: u32,
    len: &mut usize,
    fault: &mut usize,
) -> u32
    ensures { ShowsNumber (in_style (style_of style) (λ style. extent_outcome style text.now))
        len.old fault.old result len.new fault.new }
{
    let Some(style) = style_of(style) else {
        return UNKNOWN_STYLE;
    };
    match styled_text_extent(style, text) {
        Ok(end) => report::<Refusal>(Ok(end), len, fault),
        Err(found) => refuse(Refusal::at(NO_NODE, found.byte), len, fault),
    }
}

/// The fault of a text, in words; no words if it has no fault.
#[derive(Drop)]
struct FaultText {
    fault: Option<TextFault>,
}

impl Printed for FaultText {
    ghost printed = { λ said. fault_text said.fault };

    fn put<S: TextSink>(&self, sink: &mut S) {
        if let Some(fault) = &self.fault {
            fault.put(sink);
        }
    }
}

/// Returns the fault of a text whose nodes are not added.
fn fault_in(error: PushTextError) -> Option<TextFault>
    ensures { result ≡ fault_in error }
{
    match error {
        PushTextError::NoNode(fault) => Some(fault),
        PushTextError::Path(_) | PushTextError::BufferTooSmall(_) => None,
    }
}

/// Returns the fault of a text that is not read.
fn find_fault<T: NameText>(style: TextStyle, text: T) -> Option<TextFault>
    ensures { result ≡ result_err (path_read style (T.bytes text)) }
{
    match push_any_text_in_buf(style, &mut [0x7f, 0xff, 4, 0], text) {
        Ok(_) => None,
        Err(error) => fault_in(error),
    }
}

/// Returns the fault of units that are not read, with its places in the units.
fn find_fault_of_units<T: NameText>(style: TextStyle, units: &[u16], text: T) -> Option<TextFault>
    ensures { result
        ≡ option_map (fault_in_units units.now) (result_err (path_read style (T.bytes text))) }
{
    Some(fault_in_units(units, find_fault(style, text)?))
}

/// Writes in words why [`nard_device_path_parse`] rejects a text as `NO_NODE`, and a NUL, to the start of a
/// buffer, as UTF-8: for example `invalid node at offset 11: expected a number up to 0xFF at offset 20`.
/// There are no words if the text is read.
///
/// An unknown style and bytes that are not UTF-8 are rejected as by that call. Otherwise `len` becomes the
/// number of bytes of the words, without their NUL, and exactly a buffer with at most that many places is
/// rejected as `BUFFER_TOO_SMALL`. If the call fails, the buffer is unchanged. Bytes after the NUL are
/// never changed. Does not allocate.
#[unsafe(no_mangle)]
pub extern "C" fn nard_device_path_explain(
    text: &[u8],
    style: u32,
    buffer: &mut [u8],
    len: &mut usize,
    fault: &mut usize,
) -> u32
    ensures { Shows (in_style (style_of style) (λ style. when_read (read_utf8 text.now) (λ text.
        fault_outcome (λ words. words) (result_err (path_read style text)))))
        len.old fault.old buffer.old result len.new fault.new buffer.new }
{
    let Some(style) = style_of(style) else {
        return UNKNOWN_STYLE;
    };
    let text = match read_utf8(text) {
        Ok(text) => text,
        Err(refusal) => return refuse(refusal, len, fault),
    };
    let found = find_fault(style, text.as_bytes());
    report(write_utf8(buffer, &FaultText { fault: found }), len, fault)
}

/// Writes in words why [`nard_device_path_parse_utf16`] rejects a text as `NO_NODE`, as
/// [`nard_device_path_explain`] does for a text in UTF-8, but as UTF-16. The offsets in the words count
/// units.
#[unsafe(no_mangle)]
pub extern "C" fn nard_device_path_explain_utf16(
    text: &[u16],
    style: u32,
    buffer: &mut [u16],
    len: &mut usize,
    fault: &mut usize,
) -> u32
    ensures { let units = text_until_nul text.now in
        Shows (in_style (style_of style) (λ style. when_read (read_utf16 units) (λ text.
        fault_outcome utf16_units (option_map (fault_in_units units) (result_err (path_read style text))))))
        len.old fault.old buffer.old result len.new fault.new buffer.new }
{
    let Some(style) = style_of(style) else {
        return UNKNOWN_STYLE;
    };
    let units = until_nul(text);
    let text = match read_utf16(&units) {
        Ok(text) => text,
        Err(refusal) => return refuse(refusal, len, fault),
    };
    let found = find_fault_of_units(style, units, text);
    report(write_units(buffer, &FaultText { fault: found }), len, fault)
}
