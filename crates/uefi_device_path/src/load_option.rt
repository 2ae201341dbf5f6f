//! Boot load options: the bytes of the variables `Boot####` (UEFI Specification 2.10, section 3.1.3).
#![tactic(auto, unfolding(crate::specs::Views::entry_of))]

ghost use Rattle.std.specs.Prelude.{◌≡◌, ◌+◌, ◌-◌, ◌/◌, ◌%◌, ◌<◌, ◌↔◌, ◌^◌, length, IfOk, IfErr, IfSome, IsOk, IsSome, IsTrue, unwrap_or, nat_eq};
ghost use Rattle.uefi_text.specs.FromSliceWithNul.{with_nul_refusal};
ghost use Rattle.uefi_text.specs.UnitBytes.{unit_bytes, units_of_bytes};
ghost use Rattle.uefi_text.specs.Units.{IsNulTerminated, IsString, nul_terminated};
ghost use Rattle.uefi_text.specs.Views.{items_of};
ghost use Rattle.uefi_device_path.specs.PathLists.{HasFirst, IsPathList, list_bytes};
ghost use Rattle.std.specs.String.{string_bytes};
ghost use Rattle.uefi_device_path.specs.LoadOptions.{Entry, EntryRefusedFor, IsEntry, entry_bytes, entry_with, lossy_utf8, GivesOption};
ghost use Rattle.uefi_device_path.specs.LoadOptionParts.{AreWell};
ghost use Rattle.uefi_device_path.specs.declared.errors.LoadOptionError.{LoadOptionError};
ghost use Rattle.uefi_text.specs.Runs.{GivesEach};
ghost use Rattle.std.specs.Cmp.{on_per, partial_equiv_from_equiv};
ghost use Rattle.std.specs.Cmp.Lexicographic.{nat_list_eq_equiv, pointwise, on_texts_equal};

use crate::errors::{LoadOptionCause, LoadOptionError};
use crate::load_option_parts::LoadOptionParts;
use crate::path_list::{DevicePaths, check_list};
use std::alloc::{AllocError, Allocator};
use std::fmt;
use std::hash::{Hash, Hasher};
use uefi_text::{CString16, FromSliceWithNulError, UnalignedSlice};

/// A boot load option in borrowed bytes. A contract sees it as `entry_of` it.
///
/// ```rust
/// let option = LoadOption::from_bytes(b"\x01\0\0\0\x04\0a\0\0\0\x7f\xff\x04\0x\0")?;
/// assert!(rt; option.is_active() && !option.is_force_reconnect() && !option.is_hidden());
/// assert_eq!(rt; (option.attributes(), option.category()), (1, 0));
/// assert_eq!(rt; option.file_path_list(), [0x7f, 0xff, 4, 0].as_slice());
/// assert_eq!(rt; option.optional_data(), b"x\0".as_slice());
/// assert_eq!(rt; option.as_bytes().len(), 16);
/// ```
#[derive(Clone, Copy)]
pub struct LoadOption<'a> {
    bytes: &'a [u8],
    attributes: u32,
    description: UnalignedSlice<'a, u16>,
    list: &'a [u8],
    /// The length of the first path of the list.
    first_len: usize,
    optional: &'a [u8],
    pub ghost ends: { IsNulTerminated (items_of description) },
    pub ghost is_path_list: { IsPathList list.now },
    pub ghost first: { HasFirst list.now first_len },
    pub ghost whole: { bytes.now
        ≡ entry_bytes (entry_with attributes (items_of description) list.now optional.now) },
}

impl<'a> LoadOption<'a> {
    ghost use Rattle.uefi_device_path.specs.Views.{entry_of, nodes_of, parts_of, paths_left};

    /// Borrows bytes as a load option. Fails for the first of these faults: fewer than six bytes, a
    /// description without NUL, a file path list beyond the end or without bytes, and a malformed
    /// node in the list. Does not allocate.
    ///
    /// ```rust
    /// let option = LoadOption::from_bytes(b"\x01\0\0\0\x04\0a\0\0\0\x7f\xff\x04\0")?;
    /// assert!(rt; option.is_active());
    /// let error = LoadOptionError { cause: LoadOptionCause::DescriptionWithoutEnd, offset: 8 };
    /// assert_eq!(rt; LoadOption::from_bytes(b"\x01\0\0\0\x04\0a\0").err(), Some(error));
    /// ```
    pub fn from_bytes(bytes: &'a [u8]) -> Result<Self, LoadOptionError>
        ensures entry { IfOk result (λ option. IsEntry (entry_of option)) }
        ensures ok { IfOk result (λ option. bytes.now ≡ entry_bytes (entry_of option)) }
        ensures only { IfOk result (λ option. (entry : Entry) → IsEntry entry →
            bytes.now ≡ entry_bytes entry → entry ≡ entry_of option) }
        ensures accepts { IsOk result ↔ ((entry : Entry) × IsEntry entry × (bytes.now ≡ entry_bytes entry)) }
        ensures refusal { IfErr result (λ error. EntryRefusedFor bytes.now error) }
        ensures only_refusal { IfErr result (λ error. (other : LoadOptionError) →
            EntryRefusedFor bytes.now other → other ≡ error) }
    {
        match LoadOption::read(bytes) {
            Ok(option) => Ok(option),
            Err(parts) => Err(parts.error()),
        }
    }

    /// Borrows bytes as a load option, or returns the well-formed parts before the first fault: the
    /// attributes, the description, the device paths before the fault, and the nodes before it.
    /// Fails for the same bytes, and with the same fault, as [`LoadOption::from_bytes`]. Does not
    /// allocate.
    ///
    /// Firmware such as EDK II boots an entry whose first path is whole, whatever follows that path
    /// in the list. For such an entry the first of [`LoadOptionParts::device_paths`] is that path.
    ///
    /// ```rust
    /// let bytes = b"\x01\0\0\0\x09\0a\0\0\0\x7f\xff\x04\0\x03\x1a\x05\0\x01";
    /// let parts = LoadOption::read_parts(bytes).err().ok_or("no fault")?;
    /// assert_eq!(rt; parts.device_paths().count(), 1);
    /// let cause = LoadOptionCause::FilePathList(NodeError::Missing);
    /// assert_eq!(rt; parts.error(), LoadOptionError { cause, offset: 19 });
    /// ```
    pub fn read_parts(bytes: &'a [u8]) -> Result<Self, LoadOptionParts<'a>>
        ensures entry { IfOk result (λ option. IsEntry (entry_of option)) }
        ensures ok { IfOk result (λ option. bytes.now ≡ entry_bytes (entry_of option)) }
        ensures accepts { IsOk result ↔ ((entry : Entry) × IsEntry entry × (bytes.now ≡ entry_bytes entry)) }
        ensures refusal { IfErr result (λ parts. EntryRefusedFor bytes.now (parts_of parts).error) }
        ensures well { IfErr result (λ parts. AreWell bytes.now (parts_of parts)) }
    {
        match LoadOption::read(bytes) {
            Ok(option) => Ok(option),
            Err(parts) => Err(parts),
        }
    }

    /// Does what [`LoadOption::read_parts`] does, field by field.
    fn read(bytes: &'a [u8]) -> Result<Self, LoadOptionParts<'a>>
        ensures entry { IfOk result (λ option. IsEntry (entry_of option)) }
        ensures ok { IfOk result (λ option. bytes.now ≡ entry_bytes (entry_of option)) }
        ensures refusal { IfErr result (λ parts. EntryRefusedFor bytes.now (parts_of parts).error) }
        ensures well { IfErr result (λ parts. AreWell bytes.now (parts_of parts)) }
    {
        let len = bytes.len();
        if len < 6 {
            return Err(LoadOptionParts::without_header(len));
        }
        let attributes = u32::from_le_bytes([bytes[0], bytes[1], bytes[2], bytes[3]]);
        let list_length = u16::from_le_bytes([bytes[4], bytes[5]]) as usize;
        let (_, described) = bytes.split_at(6);
        let Some((description, rest)) = UnalignedSlice::split_until_nul(described) else {
            return Err(LoadOptionParts::without_description(attributes, len - len % 2));
        };
        if rest.len() < list_length {
            let error = LoadOptionError {
                cause: LoadOptionCause::ListBeyondEnd,
                offset: 4,
            };
            return Err(LoadOptionParts::without_list(attributes, description, error));
        }
        let start = len - rest.len();
        if list_length == 0 {
            let error = LoadOptionError {
                cause: LoadOptionCause::EmptyList,
                offset: start,
            };
            return Err(LoadOptionParts::without_list(attributes, description, error));
        }
        let (list, optional) = rest.split_at(list_length);
        match check_list(list) {
            Ok(first_len) => Ok(LoadOption {
                bytes,
                attributes,
                description,
                list,
                first_len,
                optional,
            }),
            Err(fault) => Err(LoadOptionParts::before(attributes, description, start, fault)),
        }
    }

    /// Returns all bytes of the load option.
    pub fn as_bytes(&self) -> &'a [u8]
        ensures bytes { result.now ≡ entry_bytes (entry_of self.now) }
        ensures entry { IsEntry (entry_of self.now) }
    {
        self.bytes
    }

    /// Returns the attributes.
    pub fn attributes(&self) -> u32
        ensures { result ≡ (entry_of self.now).attributes }
    {
        self.attributes
    }

    /// Returns whether firmware tries the option by itself: `LOAD_OPTION_ACTIVE`.
    pub fn is_active(&self) -> bool
        ensures { IsTrue result ↔ ((entry_of self.now).attributes % 2 ≡ 1) }
    {
        self.attributes % 2 == 1
    }

    /// Returns whether connecting a driver makes firmware connect all devices anew:
    /// `LOAD_OPTION_FORCE_RECONNECT`.
    pub fn is_force_reconnect(&self) -> bool
        ensures { IsTrue result ↔ ((entry_of self.now).attributes / 2 % 2 ≡ 1) }
    {
        self.attributes / 2 % 2 == 1
    }

    /// Returns whether a menu omits the option: `LOAD_OPTION_HIDDEN`.
    pub fn is_hidden(&self) -> bool
        ensures { IsTrue result ↔ ((entry_of self.now).attributes / 8 % 2 ≡ 1) }
    {
        self.attributes / 8 % 2 == 1
    }

    /// Returns the category, `LOAD_OPTION_CATEGORY` as a number: 0 is an option to boot, 1 an
    /// application.
    pub fn category(&self) -> u32
        ensures { result ≡ (entry_of self.now).attributes / 256 % 32 }
    {
        self.attributes / 256 % 32
    }

    /// Returns the description as a string in its own memory. Fails as
    /// [`UnalignedSlice::to_cstring16`] does for its units: with `InvalidChar` if it contains a
    /// surrogate, and otherwise with `OutOfMemory` if memory runs out. Allocates once.
    ///
    /// ```rust
    /// let option = LoadOption::from_bytes(b"\x01\0\0\0\x04\0a\0\0\0\x7f\xff\x04\0")?;
    /// assert_eq!(rt; option.description(rt.alloc())?.num_chars(), 1);
    /// let option = LoadOption::from_bytes(b"\x01\0\0\0\x04\0a\0\0\xd8\0\0\x7f\xff\x04\0")?;
    /// let refused = option.description(rt.alloc());
    /// assert_eq!(rt; refused.err(), Some(FromSliceWithNulError::InvalidChar(1)));
    /// ```
    pub fn description<A: Allocator>(&self, alloc: A) -> Result<CString16<A>, FromSliceWithNulError>
        ensures ok { IfOk result (λ string. string ≡ (entry_of self.now).description) }
        ensures memory { IfErr result (λ error. (error ≡ FromSliceWithNulError.OutOfMemory)
            ↔ IsString (nul_terminated (entry_of self.now).description)) }
        ensures refusal { IfErr result (λ error. error ≡ unwrap_or
            (with_nul_refusal (nul_terminated (entry_of self.now).description))
            FromSliceWithNulError.OutOfMemory) }
    {
        self.description_units().to_cstring16(alloc)
    }

    /// Returns the description in UTF-8. Each pair of surrogates is one character, and each
    /// surrogate without a partner becomes U+FFFD (Unicode Standard, section 3.9), so that the call
    /// fails only if memory runs out. Allocates for the units, and for the text as it grows.
    ///
    /// ```rust
    /// let option = LoadOption::from_bytes(b"\x01\0\0\0\x04\0a\0\0\xd8\0\0\x7f\xff\x04\0")?;
    /// assert_eq!(rt; option.description_lossy(rt.alloc())?.as_str(), "a\u{fffd}");
    /// ```
    pub fn description_lossy<A: Allocator + Copy>(&self, alloc: A) -> Result<String<A>, AllocError>
        ensures { IfOk result (λ text. string_bytes text ≡ lossy_utf8 (entry_of self.now).description) }
    {
        let units = self.description.to_vec(alloc)?;
        String::from_utf16_lossy(alloc, &units[..units.len() - 1])
    }

    /// Returns the code units of the description, including its NUL, at any address. They may
    /// contain surrogates: [`UnalignedSlice::to_cstr16`] and similar calls check whether they are a
    /// string.
    ///
    /// ```rust
    /// let option = LoadOption::from_bytes(b"\x01\0\0\0\x04\0a\0\0\0\x7f\xff\x04\0")?;
    /// assert!(rt; option.description_units().iter().eq([0x61, 0]));
    /// ```
    pub fn description_units(&self) -> UnalignedSlice<'a, u16>
        ensures units { items_of result ≡ nul_terminated (entry_of self.now).description }
        ensures ends { IsNulTerminated (items_of result) }
    {
        self.description
    }

    /// Returns the bytes of the file path list.
    pub fn file_path_list(&self) -> &'a [u8]
        ensures { result.now ≡ list_bytes (entry_of self.now).paths }
    {
        self.list
    }

    /// Returns an iterator over the device paths of the file path list, in order.
    ///
    /// ```rust
    /// let option = LoadOption::from_bytes(b"\x01\0\0\0\x09\0a\0\0\0\x03\x1a\x05\0\x01\x7f\xff\x04\0")?;
    /// let path = option.device_paths().next().ok_or("no path")?;
    /// assert_eq!(rt; format!(in rt.alloc(); "{path}")?.as_str(), "SD(0x1)");
    /// ```
    pub fn device_paths(&self) -> DevicePaths<'a>
        ensures same { paths_left result ≡ (entry_of self.now).paths }
        ensures bound { length (paths_left result) < 2 ^ 64 }
        ensures runs { GivesEach nodes_of paths_left result }
    {
        DevicePaths::of_list(self.list, self.first_len)
    }

    /// Returns the bytes after the file path list.
    pub fn optional_data(&self) -> &'a [u8]
        ensures { result.now ≡ (entry_of self.now).optional }
    {
        self.optional
    }

    /// Returns the code units that the bytes after the file path list encode, two bytes for each,
    /// the low byte first: a command line, if the loader takes one. `None` exactly if the number of
    /// bytes is odd. The units may contain NULs and surrogates.
    ///
    /// ```rust
    /// let option = LoadOption::from_bytes(b"\x01\0\0\0\x04\0a\0\0\0\x7f\xff\x04\0q\0\0\0")?;
    /// assert_eq!(rt; option.optional_units().and_then(|it| it.get(0)), Some(0x71));
    /// let option = LoadOption::from_bytes(b"\x01\0\0\0\x04\0a\0\0\0\x7f\xff\x04\0q")?;
    /// assert!(rt; option.optional_units().is_none());
    /// ```
    pub fn optional_units(&self) -> Option<UnalignedSlice<'a, u16>>
        ensures even { IsSome result ↔ (length (entry_of self.now).optional % 2 ≡ 0) }
        ensures units { IfSome result (λ units. items_of units
            ≡ units_of_bytes (entry_of self.now).optional) }
        ensures bytes { IfSome result (λ units. unit_bytes (items_of units)
            ≡ (entry_of self.now).optional) }
    {
        UnalignedSlice::from_unit_bytes(self.optional)
    }
}

/// Two load options are equal exactly when their bytes are.
impl<'a> PartialEq for LoadOption<'a> {
    ghost use Rattle.uefi_device_path.specs.Views.{entry_of};

    ghost eq = { λ a b. pointwise nat_eq (entry_bytes (entry_of a)) (entry_bytes (entry_of b)) };

    ghost laws = { on_per (λ a. entry_bytes (entry_of a)) (partial_equiv_from_equiv nat_list_eq_equiv) };

    fn eq(&self, other: &Self) -> bool {
        self.as_bytes() == other.as_bytes()
    }
}

impl<'a> Eq for LoadOption<'a> {
    ghost use Rattle.uefi_device_path.specs.Views.{entry_of};

    ghost laws = { on_texts_equal (λ a. entry_bytes (entry_of a)) };
}

/// Hashes the bytes.
impl<'a> Hash for LoadOption<'a> {
    ghost use Rattle.std.proofs.Common.{rules};
    ghost use Rattle.std.specs.Hash as fed;
    ghost use Rattle.std.specs.Cmp.Rules.{comparing, hashing};
    ghost use Rattle.uefi_device_path.specs.Views.{entry_of};

    ghost hash_input = { λ a. fed.slice fed.u8 (entry_bytes (entry_of a)) };

    ghost respects_eq = { Prim.search (hashing, comparing, rules) };

    fn hash<H: Hasher>(&self, state: &mut H) {
        self.as_bytes().hash(state);
    }
}

/// Writes the bytes.
impl<'a> fmt::Debug for LoadOption<'a> {
    fn fmt<W: fmt::Write>(&self, f: &mut fmt::Formatter<W>) -> fmt::Result {
        f.debug_tuple("LoadOption").field(&self.as_bytes()).finish()
    }
}

/// Does what [`LoadOption::from_bytes`] does.
impl<'a> TryFrom<&'a [u8]> for LoadOption<'a> {
    type Error = LoadOptionError;

    ghost use Rattle.uefi_device_path.specs.Views.{entry_of};

    ghost try_from_gives = { λ bytes result. GivesOption entry_of bytes.now result };

    fn try_from(bytes: &'a [u8]) -> Result<Self, LoadOptionError> {
        LoadOption::from_bytes(bytes)
    }
}
