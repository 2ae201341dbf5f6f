//! The contents of an entry.
use crate::files::variables::{Content, MOST_BYTES};
use crate::output::growing_texts::{Growing, text_of, text_shown};
use crate::output::optional_data::{OptionalData, hexadecimal};
use serde::Serialize;
use std::alloc::{AllocError, Global};
use uefi_device_path::media::FilePath;
use uefi_device_path::{
    AllowShortcuts, DevicePathNode, DevicePathNodeIterator, DevicePaths, DisplayOnly,
    FilePathCause, LoadOption, LoadOptionParts, NodeConversionError, is_escaped,
};
use uefi_path::{Path, PathError, validate_path};
use uefi_text::strings::strs::Char16Slice;
use uefi_text::{CStr16, FromSliceWithNulError, UnalignedSlice};

/// A file that an entry names.
#[derive(Drop, Serialize)]
pub(crate) struct File {
    pub(crate) path: String,

    /// The offset of the path in the entry, or of its fault.
    pub(crate) offset: usize,

    /// Why the path is refused, if it is.
    pub(crate) refused: Option<String>,

    /// The last component of an accepted path.
    file: Option<String>,
}

/// A fault of an entry, and its offset.
#[derive(Drop, Serialize)]
pub(crate) struct Fault {
    pub(crate) offset: usize,
    pub(crate) reason: String,
}

/// The well-formed parts of an entry, and the fault after them, or the reason why its variable
/// can't be read.
#[derive(Drop, Serialize)]
pub(crate) struct Shown {
    pub(crate) active: Option<bool>,
    attributes: Option<u32>,
    pub(crate) description: Option<String>,
    device_paths: Vec<String>,
    pub(crate) files: Vec<File>,
    optional_data: Option<OptionalData>,
    pub(crate) malformed: Option<Fault>,
    unreadable: Option<String>,
}

/// The bytes of an entry in hexadecimal, and the units of its description without the NUL.
#[derive(Drop, Serialize)]
pub(crate) struct Exact {
    bytes: Option<String>,
    description_units: Option<Vec<u16>>,
}

impl Exact {
    pub(crate) fn of(alloc: Global, content: &Content<'_>) -> Result<Exact, AllocError> {
        let Content::Bytes(bytes) = content else {
            return Ok(Exact {
                bytes: None,
                description_units: None,
            });
        };
        let described = match LoadOption::read_parts(bytes) {
            Ok(option) => Some(option.description_units()),
            Err(parts) => parts.description_units(),
        };
        let description_units = match described {
            Some(units) => {
                let mut units = units.to_vec(alloc)?;
                units.pop();
                Some(units)
            }
            None => None,
        };
        Ok(Exact {
            bytes: Some(hexadecimal(alloc, bytes)?),
            description_units,
        })
    }
}

pub(crate) fn push<T: Drop>(items: &mut Vec<T>, item: T) -> Result<(), AllocError> {
    items.push(item)?;
    Ok(())
}

/// Writes the reserved bits, if there are any.
pub(crate) fn write_reserved(out: &mut Growing, between: &str, reserved: u64) {
    if reserved != 0 {
        out.add(&[between]);
        out.show(&format_args!("reserved 0x{reserved:x}"));
    }
}

/// Writes a character, or `?` for one that texts of device paths escape.
pub(crate) fn write_shown(out: &mut Growing, character: char) {
    out.add_char(if is_escaped(character) {
        '?'
    } else {
        character
    });
}

/// Returns whether a text contains a character that texts of device paths escape. Few texts contain
/// more than printable ASCII, which has no such character.
fn has_escaped(text: &str) -> bool {
    let is_ascii = text.bytes().all(|byte| 0x20 <= byte && byte < 0x7f);
    !is_ascii && text.chars().any(is_escaped)
}

fn shown_text(alloc: Global, text: Char16Slice<'_>) -> Result<String, AllocError> {
    let plain = text_shown(alloc, &text)?;
    if !has_escaped(plain.as_str()) {
        return Ok(plain);
    }
    let mut shown = Growing::new(alloc);
    for character in text.iter() {
        write_shown(&mut shown, char::from(character));
    }
    shown.finish()
}

/// Returns a description in which surrogate pairs are characters and a lone surrogate is U+FFFD.
fn shown_description(
    alloc: Global,
    description: UnalignedSlice<'_, u16>,
) -> Result<String, AllocError> {
    match description.to_cstring16(alloc) {
        Ok(string) => return shown_text(alloc, string.as_cstr16().as_slice()),
        Err(FromSliceWithNulError::OutOfMemory) => return Err(AllocError),
        // The description contains a surrogate.
        Err(_) => {}
    }
    let mut shown = Growing::new(alloc);
    for character in char::decode_utf16(description.iter().take_while(|unit| *unit != 0)) {
        write_shown(&mut shown, character.unwrap_or(char::REPLACEMENT_CHARACTER));
    }
    shown.finish()
}

/// Returns the last component of a path, if it has one.
fn shown_file_name(alloc: Global, path: Path<'_>) -> Result<Option<String>, AllocError> {
    match path.file_name() {
        Some(name) => Ok(Some(shown_text(alloc, name)?)),
        None => Ok(None),
    }
}

const SEPARATOR: u16 = 0x5c;

/// Returns the index of the first occurrence of a unit, or otherwise the end.
fn place_of_unit(units: &[u16], wanted: u16) -> usize {
    units
        .iter()
        .position(|unit| *unit == wanted)
        .unwrap_or(units.len())
}

/// Returns the index after the first separator that another one follows, or otherwise the end.
fn place_of_empty_component(units: &[u16]) -> usize {
    for place in 1..units.len() {
        if units[place] == SEPARATOR && units[place - 1] == SEPARATOR {
            return place;
        }
    }
    units.len()
}

/// Returns the index of the component `..` that climbs above the start of a path, or otherwise the
/// end.
fn place_of_climb(units: &[u16]) -> usize {
    let (mut start, mut depth) = (0usize, 0usize);
    for component in units.split(|unit| *unit == SEPARATOR) {
        match component {
            [0x2e, 0x2e] => {
                if depth == 0 {
                    return start;
                }
                depth = depth.saturating_sub(1);
            }
            [] | [0x2e] => {}
            _ => depth = depth.saturating_add(1),
        }
        start = start.saturating_add(component.len()).saturating_add(1);
    }
    units.len()
}

/// Returns the index of the unit at which a path is refused.
fn place_of(units: &[u16], error: PathError) -> usize {
    match error {
        PathError::Empty => 0,
        PathError::IllegalChar(character) => place_of_unit(units, u16::from(character)),
        PathError::EmptyComponent => place_of_empty_component(units),
        PathError::ClimbsAboveRoot => place_of_climb(units),
    }
}

/// Returns a path with its verdict. Its first unit is at an offset.
fn shown_file(alloc: Global, offset: usize, string: CStr16<'_>) -> Result<File, AllocError> {
    let path = Path::new(string);
    let shown = shown_text(alloc, string.as_slice())?;
    let Err(error) = validate_path(path) else {
        return Ok(File {
            path: shown,
            offset,
            refused: None,
            file: shown_file_name(alloc, path)?,
        });
    };
    let place = place_of(string.as_slice().units(), error);
    Ok(File {
        path: shown,
        offset: offset.saturating_add(place.saturating_mul(2)),
        refused: Some(text_shown(alloc, &error)?),
        file: None,
    })
}

impl Shown {
    /// Returns an empty value.
    fn new(alloc: Global) -> Shown {
        Shown {
            active: None,
            attributes: None,
            description: None,
            device_paths: Vec::new(alloc),
            files: Vec::new(alloc),
            optional_data: None,
            malformed: None,
            unreadable: None,
        }
    }

    /// Creates the contents of malformed bytes, with the offset of the fault.
    pub(crate) fn malformed(
        alloc: Global,
        offset: usize,
        reason: &str,
    ) -> Result<Shown, AllocError> {
        let mut shown = Shown::new(alloc);
        shown.fail(offset, String::from_str(alloc, reason)?);
        Ok(shown)
    }

    /// Creates the contents of a variable that can't be read.
    pub(crate) fn unreadable(alloc: Global, cause: &String) -> Result<Shown, AllocError> {
        let mut shown = Shown::new(alloc);
        shown.unreadable = Some(cause.clone()?);
        Ok(shown)
    }

    /// Returns whether the variable can be read.
    pub(crate) fn is_read(&self) -> bool {
        self.unreadable.is_none()
    }

    /// Returns whether nothing is malformed.
    pub(crate) fn is_well(&self) -> bool {
        self.malformed.is_none()
    }

    /// Records a fault.
    fn fail(&mut self, offset: usize, reason: String) {
        self.malformed = Some(Fault { offset, reason });
    }

    /// Records the attributes.
    fn set_attributes(&mut self, attributes: u32) {
        self.active = Some(attributes % 2 == 1);
        self.attributes = Some(attributes);
    }

    /// Adds a description and device paths.
    fn begin(
        &mut self,
        alloc: Global,
        description: UnalignedSlice<'_, u16>,
        paths: DevicePaths<'_>,
    ) -> Result<(), AllocError> {
        self.description = Some(shown_description(alloc, description)?);
        for path in paths {
            let text = path.display(DisplayOnly(false), AllowShortcuts(false));
            push(&mut self.device_paths, text_of(alloc, &text)?)?;
        }
        Ok(())
    }

    /// Adds the file that a node names. The node's data begins at `offset`. If the data is not a
    /// name, records the fault and returns `false`.
    fn add_file(
        &mut self,
        alloc: Global,
        offset: usize,
        name: UnalignedSlice<'_, u16>,
    ) -> Result<bool, AllocError> {
        let error = match name.to_cstring16(alloc) {
            Ok(string) => {
                push(
                    &mut self.files,
                    shown_file(alloc, offset, string.as_cstr16())?,
                )?;
                return Ok(true);
            }
            Err(error) => error,
        };
        let place = match error {
            FromSliceWithNulError::InvalidChar(place) | FromSliceWithNulError::InteriorNul(place) =>
                place,
            FromSliceWithNulError::NotNulTerminated => name.len(),
            // `NotAligned` occurs only when bytes are borrowed as units, never when units are
            // copied.
            FromSliceWithNulError::OutOfMemory | FromSliceWithNulError::NotAligned => {
                return Err(AllocError);
            }
        };
        // The sum never saturates, because `of_entry` refuses entries of more than 65,536 bytes.
        let offset = offset.saturating_add(place.saturating_mul(2));
        self.fail(offset, text_shown(alloc, &FilePathCause::Text(error))?);
        Ok(false)
    }

    /// Adds the file that a node names, if it is a file node. The node's data begins at `offset`.
    /// If a file node has no name, records the fault and returns `false`.
    fn add_node(
        &mut self,
        alloc: Global,
        offset: usize,
        node: DevicePathNode<'_>,
    ) -> Result<bool, AllocError> {
        match FilePath::from_node(node) {
            Ok(file) => self.add_file(alloc, offset, file.path_name()),
            Err(NodeConversionError::DifferentType | NodeConversionError::UnsupportedType) => {
                Ok(true)
            }
            Err(NodeConversionError::InvalidLength) => {
                let last = offset.saturating_add(node.data().len() - 1);
                self.fail(last, text_shown(alloc, &FilePathCause::HalfUnit)?);
                Ok(false)
            }
        }
    }

    /// Adds the files that nodes name. The first node begins at `start`. Returns the offset after
    /// the last node, or `None` after a file node without a name.
    fn add_nodes(
        &mut self,
        alloc: Global,
        start: usize,
        nodes: DevicePathNodeIterator<'_>,
    ) -> Result<Option<usize>, AllocError> {
        let mut offset = start;
        for node in nodes {
            if !self.add_node(alloc, offset.saturating_add(4), node)? {
                return Ok(None);
            }
            offset = offset.saturating_add(usize::from(node.length()));
        }
        Ok(Some(offset))
    }

    /// Adds the files of device paths like [`Shown::add_nodes`], and adds the length of each end
    /// node to the offset.
    fn add_paths(
        &mut self,
        alloc: Global,
        start: usize,
        paths: DevicePaths<'_>,
    ) -> Result<Option<usize>, AllocError> {
        let mut offset = start;
        for path in paths {
            match self.add_nodes(alloc, offset, path.node_iter())? {
                Some(end) => offset = end.saturating_add(4),
                None => return Ok(None),
            }
        }
        Ok(Some(offset))
    }

    /// Adds the well-formed parts of bytes that are not a load option, and then the fault.
    fn add_parts(&mut self, alloc: Global, parts: LoadOptionParts<'_>) -> Result<(), AllocError> {
        if let Some(attributes) = parts.attributes() {
            self.set_attributes(attributes);
        }
        if let Some(description) = parts.description_units() {
            self.begin(alloc, description, parts.device_paths())?;
            let start = list_start(description);
            let Some(offset) = self.add_paths(alloc, start, parts.device_paths())? else {
                return Ok(());
            };
            if self.add_nodes(alloc, offset, parts.node_iter())?.is_none() {
                return Ok(());
            }
        }
        let error = parts.error();
        self.fail(error.offset, text_shown(alloc, &error.cause)?);
        Ok(())
    }

    /// Adds the contents of an option.
    fn add_option(&mut self, alloc: Global, option: LoadOption<'_>) -> Result<(), AllocError> {
        let description = option.description_units();
        self.set_attributes(option.attributes());
        self.begin(alloc, description, option.device_paths())?;
        let start = list_start(description);
        if self
            .add_paths(alloc, start, option.device_paths())?
            .is_some()
        {
            self.optional_data = OptionalData::of(alloc, &option)?;
        }
        Ok(())
    }

    /// Returns the contents of an entry, up to the greatest size of a variable; or an error if
    /// memory ran out.
    pub(crate) fn of_entry(alloc: Global, bytes: &[u8]) -> Result<Shown, AllocError> {
        if MOST_BYTES < bytes.len() {
            let reason = "the entry is longer than a variable";
            return Shown::malformed(alloc, MOST_BYTES, reason);
        }
        let mut shown = Shown::new(alloc);
        match LoadOption::read_parts(bytes) {
            Ok(option) => shown.add_option(alloc, option)?,
            Err(parts) => shown.add_parts(alloc, parts)?,
        }
        Ok(shown)
    }

    /// Writes the contents line by line.
    pub(crate) fn write(&self, out: &mut Growing) {
        if let Some(cause) = &self.unreadable {
            out.add(&["  cannot be read: ", cause.as_str(), "\n"]);
        }
        if let Some(active) = self.active {
            out.add(&["  active: ", if active { "yes\n" } else { "no\n" }]);
        }
        if let Some(attributes) = self.attributes {
            write_attributes(out, attributes);
        }
        if let Some(description) = &self.description {
            out.add(&["  description: ", description.as_str(), "\n"]);
        }
        self.write_rest(out);
    }

    /// Writes the lines after the description.
    fn write_rest(&self, out: &mut Growing) {
        for path in &self.device_paths {
            out.add(&["  device path: ", path.as_str(), "\n"]);
        }
        for file in &self.files {
            file.write(out);
        }
        if let Some(data) = &self.optional_data {
            data.write(out);
        }
        if let Some(fault) = &self.malformed {
            out.add(&["  malformed at offset "]);
            out.show(&fault.offset);
            out.add(&[": ", fault.reason.as_str(), "\n"]);
        }
    }
}

/// Writes the attributes of an entry, except the first, "active" (UEFI Specification 2.10, section
/// 3.1.3).
fn write_attributes(out: &mut Growing, attributes: u32) {
    if attributes < 2 {
        return;
    }
    out.add(&["  attributes:"]);
    let mut is_first = true;
    for (bit, name) in [(0x2, "force reconnect"), (0x8, "hidden")] {
        if attributes & bit != 0 {
            out.add(&[if is_first { " " } else { ", " }]);
            out.add(&[name]);
            is_first = false;
        }
    }
    let category = attributes / 256 % 32;
    if category != 0 {
        write_category(out, if is_first { " " } else { ", " }, category);
        is_first = false;
    }
    let between = if is_first { " " } else { ", " };
    write_reserved(out, between, u64::from(attributes & 0xffff_e0f4));
    out.add(&["\n"]);
}

/// Writes a category other than 0, which is that of boot entries.
fn write_category(out: &mut Growing, between: &str, category: u32) {
    if category == 1 {
        out.add(&[between, "application"]);
        return;
    }
    out.add(&[between, "category "]);
    out.show(&category);
}

impl File {
    /// Writes a path with its verdict, and its last component if the path is accepted.
    fn write(&self, out: &mut Growing) {
        out.add(&["  path: ", self.path.as_str()]);
        match &self.refused {
            Some(reason) => out.add(&[": refused: ", reason.as_str(), "\n"]),
            None => out.add(&[": accepted\n"]),
        }
        if let Some(name) = &self.file {
            out.add(&["  file: ", name.as_str(), "\n"]);
        }
    }
}

/// Returns the offset of the file path list after a description with its NUL.
pub(crate) fn list_start(description: UnalignedSlice<'_, u16>) -> usize {
    description.len().saturating_mul(2).saturating_add(6)
}
