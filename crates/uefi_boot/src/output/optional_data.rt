//! The optional data of an entry, as text if it is text.
use crate::output::growing_texts::Growing;
use serde::Serialize;
use std::alloc::{AllocError, Global};
use std::fmt::Write;
use uefi_device_path::{LoadOption, is_escaped};
use uefi_text::{Char16, UnalignedSlice};

/// Optional data: the bytes in hexadecimal, and their text if they are a text.
#[derive(Drop, Serialize)]
pub(crate) struct OptionalData {
    encoding: Option<&'static str>,
    text: Option<String>,
    hexadecimal: String,
}

/// Returns bytes in hexadecimal.
pub(crate) fn hexadecimal(alloc: Global, bytes: &[u8]) -> Result<String, AllocError> {
    let mut text = String::new(alloc);
    for byte in bytes {
        write!(text, "{byte:02x}")?;
    }
    Ok(text)
}

/// Returns bytes without one NUL at their end.
fn without_nul(bytes: &[u8]) -> &[u8] {
    bytes.strip_suffix(&[0]).unwrap_or(bytes)
}

/// Returns the text of bytes that are printable ASCII, with or without a NUL at their end.
fn ascii_text(alloc: Global, bytes: &[u8]) -> Result<Option<String>, AllocError> {
    let bytes = without_nul(bytes);
    if bytes.is_empty() || !bytes.iter().all(|byte| matches!(byte, 0x20..=0x7e)) {
        return Ok(None);
    }
    let mut text = String::new(alloc);
    for byte in bytes {
        text.push(char::from(*byte))?;
    }
    Ok(Some(text))
}

/// Returns the text of units, with or without a NUL at their end, if each is a character that can
/// be shown and at least half of them are printable ASCII. Other data seldom consists of such
/// units.
fn utf16_text(alloc: Global, units: UnalignedSlice<'_, u16>) -> Result<Option<String>, AllocError> {
    let mut text = String::new(alloc);
    let (mut ascii, mut others) = (0usize, 0usize);
    for (place, unit) in units.iter().enumerate() {
        if unit == 0 && place == units.len().saturating_sub(1) {
            break;
        }
        let Ok(character) = Char16::try_from(unit) else {
            return Ok(None);
        };
        let character = char::from(character);
        if is_escaped(character) || unit == 0 {
            return Ok(None);
        }
        text.push(character)?;
        if unit < 0x7f {
            ascii = ascii.saturating_add(1);
        } else {
            others = others.saturating_add(1);
        }
    }
    if ascii == 0 || ascii < others {
        return Ok(None);
    }
    Ok(Some(text))
}

impl OptionalData {
    /// Returns the contents of an option's optional data, if it has any.
    pub(crate) fn of(
        alloc: Global,
        option: &LoadOption<'_>,
    ) -> Result<Option<OptionalData>, AllocError> {
        let bytes = option.optional_data();
        if bytes.is_empty() {
            return Ok(None);
        }
        let mut data = OptionalData {
            encoding: None,
            text: None,
            hexadecimal: hexadecimal(alloc, bytes)?,
        };
        if let Some(text) = ascii_text(alloc, bytes)? {
            data.encoding = Some("ASCII");
            data.text = Some(text);
        } else if let Some(units) = option.optional_units() {
            if let Some(text) = utf16_text(alloc, units)? {
                data.encoding = Some("UTF-16");
                data.text = Some(text);
            }
        }
        Ok(Some(data))
    }

    /// Writes the line of optional data.
    pub(crate) fn write(&self, out: &mut Growing) {
        match (&self.encoding, &self.text) {
            (Some(encoding), Some(text)) => {
                out.add(&["  optional data (", *encoding, "): "]);
                out.add(&[text.as_str(), "\n"]);
            }
            _ => out.add(&[
                "  optional data (hexadecimal): ",
                self.hexadecimal.as_str(),
                "\n",
            ]),
        }
    }
}
