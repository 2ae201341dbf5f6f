//! Load options that are written to a caller's buffer or to their own memory.
#![tactic(auto, unfolding(crate::specs::Views::option_entry))]

ghost use Rattle.std.specs.Prelude.{◌≡◌, ◌+◌, ◌*◌, ◌<◌, ◌≤◌, ◌++◌, length, map, IfOk, IfErr, IfSome, IsNone, None, unwrap_or};
ghost use Rattle.std.specs.Result.{result_err};
ghost use Rattle.uefi_text.specs.UnitBytes.{unit_bytes};
ghost use Rattle.uefi_text.specs.Units.{nul_terminated};
ghost use Rattle.uefi_device_path.specs.PathLists.{list_bytes};
ghost use Rattle.uefi_device_path.specs.LoadOptions.{IsEntry, entry_bytes, four_bytes, two_bytes};
ghost use Rattle.uefi_device_path.specs.OptionBuilding.{fields_fault, option_over, write_fault};
ghost use Rattle.uefi_device_path.specs.Views.{nodes_of, option_entry};

use crate::device_path::DevicePath;
use crate::errors::OptionBuildError;
use std::alloc::Allocator;
use uefi_text::scan::{find_nul, split};

/// The longest file path list that the header of a load option can state.
const LONGEST_LIST: usize = 0xffff;

/// Returns the total number of bytes of device paths, or `None` if it is more than a header can
/// state.
fn list_length(paths: &[DevicePath<'_>]) -> Option<usize>
    ensures len { IfSome result (λ len. len ≡ length (list_bytes (map nodes_of paths.now))) }
    ensures within { IfSome result (λ len. len ≤ 0xffff) }
    ensures beyond { IsNone result → 0xffff < length (list_bytes (map nodes_of paths.now)) }
{
    let mut len = 0;
    for place in 0..paths.len() {
        let more = paths[place].as_bytes().len();
        if LONGEST_LIST - len < more {
            return None;
        }
        len += more;
    }
    Some(len)
}

/// Writes the attributes, and the length of the file path list.
fn put_header(bytes: &mut [u8], attributes: u32, list: usize)
    requires room { length bytes.now ≡ 6 }
    requires stated { list ≤ 0xffff }
    ensures { bytes.new ≡ four_bytes attributes ++ two_bytes list }
{
    bytes.copy_from_slice(&[
        (attributes % 256) as u8,
        (attributes / 256 % 256) as u8,
        (attributes / 65536 % 256) as u8,
        (attributes / 16777216) as u8,
        (list % 256) as u8,
        (list / 256) as u8,
    ]);
}

/// Writes the units of a description, and its NUL.
pub(crate) fn put_description(bytes: &mut [u8], units: &[u16])
    requires { length bytes.now ≡ 2 * length units.now + 2 }
    ensures { bytes.new ≡ unit_bytes (nul_terminated units.now) }
{
    let (text, nul) = bytes.split_at_mut(2 * units.len());
    split(text, units);
    nul.copy_from_slice(&[0, 0]);
}

/// Writes device paths, one after the other.
fn put_paths(bytes: &mut [u8], paths: &[DevicePath<'_>])
    requires { length bytes.now ≡ length (list_bytes (map nodes_of paths.now)) }
    ensures { bytes.new ≡ list_bytes (map nodes_of paths.now) }
{
    let mut start = 0;
    for place in 0..paths.len() {
        let path = paths[place].as_bytes();
        let end = start + path.len();
        bytes[start..end].copy_from_slice(path);
        start = end;
    }
}

/// The fields of a load option to write (UEFI Specification 2.10, section 3.1.3). A contract sees
/// them as `option_entry` of them: the load option.
#[derive(Clone, Copy)]
pub struct LoadOptionBuilder<'a> {
    attributes: u32,
    description: &'a [u16],
    paths: &'a [DevicePath<'a>],
    optional: &'a [u8],
}

/// The number of bytes of the file path list and the whole load option.
#[derive(Clone, Copy)]
struct Lengths {
    list: usize,
    whole: usize,
}

impl<'a> LoadOptionBuilder<'a> {
    /// Creates a builder from the attributes; the code units of the description without NUL, for
    /// example [`CStr16::to_u16_slice`](uefi_text::CStr16::to_u16_slice); the device paths of the
    /// file path list, in order; and the bytes after it. Nothing is tested before the load option
    /// is written.
    ///
    /// ```rust
    /// let option = LoadOptionBuilder::new(1, &[0x61], &[], &[]);
    /// assert_eq!(rt; option.write(&mut [0; 64]), Err(OptionBuildError::EmptyList));
    /// ```
    pub fn new(
        attributes: u32,
        description: &'a [u16],
        paths: &'a [DevicePath<'a>],
        optional: &'a [u8],
    ) -> Self
        ensures attributes { (option_entry result).attributes ≡ attributes }
        ensures description { (option_entry result).description ≡ description.now }
        ensures paths { (option_entry result).paths ≡ map nodes_of paths.now }
        ensures optional { (option_entry result).optional ≡ optional.now }
    {
        LoadOptionBuilder {
            attributes,
            description,
            paths,
            optional,
        }
    }

    /// Returns the lengths of the list and of the whole, if the fields are a load option that can
    /// be written.
    fn lengths(&self) -> Result<Lengths, OptionBuildError>
        ensures list { IfOk result (λ lengths.
            lengths.list ≡ length (list_bytes (option_entry self.now).paths)) }
        ensures stated { IfOk result (λ lengths. lengths.list ≤ 0xffff) }
        ensures whole { IfOk result (λ lengths. lengths.whole
            ≡ length (entry_bytes (option_entry self.now))) }
        ensures entry { IfOk result (λ _. IsEntry (option_entry self.now)) }
        ensures refusal { result_err result ≡ fields_fault (option_entry self.now) }
    {
        if let Some(place) = find_nul(self.description) {
            return Err(OptionBuildError::NulInDescription(place));
        }
        if self.paths.is_empty() {
            return Err(OptionBuildError::EmptyList);
        }
        let Some(list) = list_length(self.paths) else {
            return Err(OptionBuildError::ListTooLong);
        };
        let before = 8 + 2 * self.description.len() + list;
        match before.checked_add(self.optional.len()) {
            Some(whole) => Ok(Lengths { list, whole }),
            None => Err(OptionBuildError::TooLong),
        }
    }

    /// Writes the load option into exactly as many bytes.
    fn put(&self, bytes: &mut [u8], list: usize)
        requires list { list ≡ length (list_bytes (option_entry self.now).paths) }
        requires stated { list ≤ 0xffff }
        requires whole { length bytes.now ≡ length (entry_bytes (option_entry self.now)) }
        ensures { bytes.new ≡ entry_bytes (option_entry self.now) }
    {
        let (header, described) = bytes.split_at_mut(6);
        put_header(header, self.attributes, list);
        let (description, rest) = described.split_at_mut(2 * self.description.len() + 2);
        put_description(description, self.description);
        let (listed, optional) = rest.split_at_mut(list);
        put_paths(listed, self.paths);
        optional.copy_from_slice(self.optional);
    }

    /// Writes the load option to the start of a buffer, and returns its length in bytes. The rest
    /// of the buffer is unchanged. [`LoadOption::from_bytes`](crate::LoadOption::from_bytes) reads
    /// the same fields from these bytes, and the fields that it reads from any load option are
    /// written as the same bytes.
    ///
    /// Fails for the first of these faults: a NUL in the description, no device path, a file path
    /// list of more than 65,535 bytes, a length that does not fit in a `usize`, and a buffer that
    /// is too small, with the length that it needs. The buffer is then unchanged. Does not
    /// allocate.
    ///
    /// ```rust
    /// let path = DevicePathBuf::new(rt.alloc())?;
    /// let paths = [path.as_device_path()];
    /// let option = LoadOptionBuilder::new(1, &[0x61], &paths, &[]);
    /// let mut buffer = [0; 64];
    /// assert_eq!(rt; option.write(&mut buffer), Ok(14));
    /// assert_eq!(rt; option.write(&mut buffer[..13]), Err(OptionBuildError::BufferTooSmall(14)));
    /// ```
    pub fn write(&self, buffer: &mut [u8]) -> Result<usize, OptionBuildError>
        ensures ok { IfOk result (λ len. len ≡ length (entry_bytes (option_entry self.now))) }
        ensures entry { IfOk result (λ _. IsEntry (option_entry self.now)) }
        ensures refusal { result_err result ≡ write_fault (option_entry self.now) (length buffer.old) }
        ensures buffer { buffer.new ≡ option_over (option_entry self.now) buffer.old }
    {
        let lengths = self.lengths()?;
        if buffer.len() < lengths.whole {
            return Err(OptionBuildError::BufferTooSmall(lengths.whole));
        }
        self.put(&mut buffer[..lengths.whole], lengths.list);
        Ok(lengths.whole)
    }

    /// Returns the bytes of the load option, in their own memory. Fails as
    /// [`LoadOptionBuilder::write`] does for the fields, and otherwise with `OutOfMemory` if memory
    /// runs out. Allocates once, with the size of the load option.
    ///
    /// ```rust
    /// let path = DevicePathBuf::from_text(rt.alloc(), "SD(0x1)")?;
    /// let paths = [path.as_device_path()];
    /// let bytes = LoadOptionBuilder::new(1, &[0x61], &paths, b"x").to_vec(rt.alloc())?;
    /// let wanted = b"\x01\0\0\0\x09\0a\0\0\0\x03\x1a\x05\0\x01\x7f\xff\x04\0x";
    /// assert_eq!(rt; bytes.as_slice(), wanted.as_slice());
    /// ```
    pub fn to_vec<A: Allocator>(&self, alloc: A) -> Result<Vec<u8, A>, OptionBuildError>
        ensures ok { IfOk result (λ bytes. bytes.items ≡ entry_bytes (option_entry self.now)) }
        ensures entry { IfOk result (λ _. IsEntry (option_entry self.now)) }
        ensures accepted { IfOk result (λ _. fields_fault (option_entry self.now) ≡ None) }
        ensures refusal { IfErr result (λ error. error
            ≡ unwrap_or (fields_fault (option_entry self.now)) OptionBuildError.OutOfMemory) }
    {
        let lengths = self.lengths()?;
        let Ok(mut bytes) = Vec::from_elem(alloc, 0u8, lengths.whole) else {
            return Err(OptionBuildError::OutOfMemory);
        };
        self.put(bytes.as_mut_slice(), lengths.list);
        Ok(bytes)
    }
}
