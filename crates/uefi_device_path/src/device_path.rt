//! Device paths and their nodes.
#![tactic(auto, unfolding(crate::specs::Views::nodes_of, crate::specs::Views::nodes_left))]

ghost use Rattle.std.specs.Prelude.{◌≡◌, ℕ, ◌+◌, ◌<◌, ◌≤◌, ◌^◌, ◌↔◌, ◌++◌, List, All, length, drop, IfOk, IfErr, IsErr, IsOk, OnErr, OnOk, nat_eq, Some, false};
ghost use Rattle.uefi_device_path.specs.FilePathBuffers.{WriteRefusedFor};
ghost use Rattle.uefi_text.specs.Units.{IsText, nul_terminated};
ghost use Rattle.std.specs.Str.{encode_utf8_all};
ghost use Rattle.uefi_text.specs.Views.{text_of};
ghost use Rattle.uefi_device_path.specs.FilePaths.{FilePathRefusedFor, FileRefusedFor, IsReadable, file_path};
ghost use Rattle.uefi_device_nodes.specs.Nodes.{IsInner, Node, end_entire, node_bytes};
ghost use Rattle.uefi_device_path.specs.Paths.{BeginWith, BeginWithPath, IsPath, nodes_in, path_bytes, without_end};
ghost use Rattle.uefi_device_nodes.specs.NodeFaults.{fault_place};
ghost use Rattle.uefi_device_path.specs.Faults.{RefusedFor, GivesPath};
ghost use Rattle.uefi_device_path.specs.Instances.{instances};
ghost use Rattle.uefi_device_nodes.specs.NodeViews.{node_of};
ghost use Rattle.uefi_device_path.specs.PathTexts.{libefivar_text, nodes_text};
ghost use Rattle.uefi_text.specs.UnalignedCStr16.{with_prefix};
ghost use Rattle.uefi_text.specs.UnitTexts.{places_needed, utf16_units, written_len};
ghost use Rattle.uefi_text.specs.Runs.{GivesEach};
ghost use Rattle.uefi_device_path.specs.declared.errors.DevicePathError.{DevicePathError};
ghost use Rattle.std.specs.Cmp.{on_per, partial_equiv_from_equiv};
ghost use Rattle.std.specs.Cmp.Lexicographic.{nat_list_eq_equiv, pointwise, on_texts_equal};

use crate::errors::{DevicePathError, FilePathCause, FilePathError, FilePathWriteError};
use crate::file_path::{FilePathText, file_path_in, write_file_path_in};
use crate::instance::DevicePathInstanceIterator;
use crate::laws::text_lengths;
use crate::node_iterator::DevicePathNodeIterator;
use crate::text::path_text::{LibefivarText, PathText, most_units};
use std::alloc::Allocator;
use std::fmt;
use std::hash::{Hash, Hasher};
use uefi_device_nodes::node::{DevicePathNode, fault_place};
use uefi_device_nodes::{AllowShortcuts, DisplayOnly};
use uefi_path::PathBuf;
use uefi_text::CStr16;
use uefi_text::text_sink::print;
use uefi_text::unit_sink::{BufferTooSmall, write_bounded_units};

/// A device path in borrowed bytes: nodes one after the other, and the end node. A contract sees it
/// as `nodes_of` it: the list of its nodes, without the end node.
#[derive(Clone, Copy)]
pub struct DevicePath<'a> {
    bytes: &'a [u8],
    pub ghost is_path: { IsPath bytes.now },
}

impl<'a> DevicePath<'a> {
    ghost use Rattle.uefi_device_path.specs.Views.{instance_nodes, instances_left, nodes_left, nodes_of, printed_by_libefivar, printed_file_path, printed_path};

    /// Returns the device path that bytes consist of.
    pub(crate) fn of_path(bytes: &'a [u8]) -> Self
        requires { IsPath bytes.now }
        ensures { nodes_of result ≡ nodes_in (without_end bytes.now) }
    {
        DevicePath { bytes }
    }

    /// Reads the device path at the start of bytes, node by node, and returns the bytes after it
    /// too.
    pub(crate) fn read(bytes: &'a [u8]) -> Result<(Self, &'a [u8]), DevicePathError>
        ensures ok { IfOk result (λ split.
            BeginWith bytes.now (nodes_of split.0) (node_bytes end_entire ++ split.1.now)) }
        ensures refusal { IfErr result (λ error. RefusedFor bytes.now error) }
        ensures within { IfErr result (λ error. error.offset ≤ length bytes.now) }
        ensures place { IfErr result (λ error. fault_place error.cause ≤ error.offset) }
    {
        let mut rest = bytes;
        'nodes: loop {
            let offset = bytes.len() - rest.len();
            match DevicePathNode::split_first(rest) {
                Ok((node, after)) => {
                    if node.is_end_entire() {
                        let path = DevicePath {
                            bytes: &bytes[..offset + 4],
                        };
                        return Ok((path, after));
                    }
                    rest = after;
                }
                Err(cause) => {
                    return Err(DevicePathError {
                        cause,
                        offset: offset + fault_place(cause),
                    });
                }
            }
        }
    }

    /// Returns the device path at the start of bytes, and the bytes after it. Requires that there
    /// is one, and tests no header again.
    pub(crate) fn take_first(bytes: &'a [u8]) -> (Self, &'a [u8])
        requires { (nodes : List Node) × BeginWithPath bytes.now nodes }
        ensures { BeginWith bytes.now (nodes_of result.0) (node_bytes end_entire ++ result.1.now) }
    {
        let mut rest = bytes;
        'nodes: loop {
            let (node, after) = DevicePathNode::take_first(rest);
            if node.is_end_entire() {
                let path = DevicePath {
                    bytes: &bytes[..bytes.len() - after.len()],
                };
                return (path, after);
            }
            rest = after;
        }
    }

    /// Borrows the device path at the start of bytes, and returns the bytes after it too. Fails on
    /// the first malformed node, with its first fault in the order of its bytes, and the offset of
    /// the bytes at fault. Does not allocate.
    ///
    /// ```rust
    /// let bytes = [1, 1, 6, 0, 2, 0x1f, 0x7f, 0xff, 4, 0, 9];
    /// let (path, rest) = DevicePath::split_first(&bytes)?;
    /// assert_eq!(rt; format!(in rt.alloc(); "{path}")?.as_str(), "Pci(0x1F,0x2)");
    /// assert_eq!(rt; rest, [9].as_slice());
    /// let error = DevicePathError { cause: NodeError::BeyondEnd, offset: 2 };
    /// assert_eq!(rt; DevicePath::split_first(&bytes[..5]).err(), Some(error));
    /// ```
    pub fn split_first(bytes: &'a [u8]) -> Result<(Self, &'a [u8]), DevicePathError>
        ensures ok { IfOk result (λ split.
            BeginWith bytes.now (nodes_of split.0) (node_bytes end_entire ++ split.1.now)) }
        ensures only { IfOk result (λ split. (nodes : List Node) → (rest : List ℕ) →
            BeginWith bytes.now nodes (node_bytes end_entire ++ rest) →
            (nodes ≡ nodes_of split.0) × (rest ≡ split.1.now)) }
        ensures accepts { IsOk result ↔ ((nodes : List Node) × BeginWithPath bytes.now nodes) }
        ensures refusal { IfErr result (λ error. RefusedFor bytes.now error) }
        ensures only_refusal { IfErr result (λ error. (other : DevicePathError) →
            RefusedFor bytes.now other → other ≡ error) }
    {
        match DevicePath::read(bytes) {
            Ok(split) => Ok(split),
            Err(error) => Err(error),
        }
    }

    /// Borrows the device path at the start of bytes; later bytes do not matter. Fails as
    /// [`DevicePath::split_first`] does.
    ///
    /// ```rust
    /// let bytes = [1, 1, 6, 0, 2, 0x1f, 0x7f, 0xff, 4, 0];
    /// let path = DevicePath::from_bytes(&bytes)?;
    /// assert_eq!(rt; format!(in rt.alloc(); "{path}")?.as_str(), "Pci(0x1F,0x2)");
    /// let error = DevicePathError { cause: NodeError::Missing, offset: 6 };
    /// assert_eq!(rt; DevicePath::from_bytes(&bytes[..6]).err(), Some(error));
    /// ```
    pub fn from_bytes(bytes: &'a [u8]) -> Result<Self, DevicePathError>
        ensures ok { IfOk result (λ path. BeginWithPath bytes.now (nodes_of path)) }
        ensures only { IfOk result (λ path. (nodes : List Node) →
            BeginWithPath bytes.now nodes → nodes ≡ nodes_of path) }
        ensures accepts { IsOk result ↔ ((nodes : List Node) × BeginWithPath bytes.now nodes) }
        ensures refusal { IfErr result (λ error. RefusedFor bytes.now error) }
        ensures only_refusal { IfErr result (λ error. (other : DevicePathError) →
            RefusedFor bytes.now other → other ≡ error) }
    {
        match DevicePath::read(bytes) {
            Ok((path, _)) => Ok(path),
            Err(error) => Err(error),
        }
    }

    /// Returns all bytes of the path, including its end node.
    ///
    /// ```rust
    /// let path = DevicePath::from_bytes(&[0x7f, 0xff, 4, 0, 9, 9])?;
    /// assert_eq!(rt; path.as_bytes(), [0x7f, 0xff, 4, 0].as_slice());
    /// ```
    pub fn as_bytes(&self) -> &'a [u8]
        ensures bytes { result.now ≡ path_bytes (nodes_of self.now) }
        ensures inner { All IsInner (nodes_of self.now) }
    {
        self.bytes
    }

    /// Returns an iterator over the nodes of the path in order, without the end node.
    ///
    /// ```rust
    /// let path = DevicePathBuf::from_text(rt.alloc(), "PciRoot(0x0)/Pci(0x1F,0x2)")?;
    /// let mut nodes = path.as_device_path().node_iter();
    /// assert_eq!(rt; nodes.next().map(|it| it.device_type()), Some(DeviceType::ACPI));
    /// assert_eq!(rt; nodes.next().map(|it| it.device_type()), Some(DeviceType::HARDWARE));
    /// assert!(rt; nodes.next().is_none());
    /// ```
    pub fn node_iter(&self) -> DevicePathNodeIterator<'a>
        ensures same { nodes_left result ≡ nodes_of self.now }
        ensures inner { All IsInner (nodes_left result) }
        ensures bound { length (nodes_left result) < 2 ^ 64 }
        ensures runs { GivesEach node_of nodes_left result }
    {
        DevicePathNodeIterator::of(&self.bytes[..self.bytes.len() - 4])
    }

    /// Joins the names of all nodes that name files, in all instances. One separator joins two
    /// names, even if both bring one, and each slash is replaced (UEFI Specification 2.10, section
    /// 10.3.5.4).
    ///
    /// The call checks all names first, and fails on the first node whose data is not a string.
    /// Then it allocates once for the text, and once more if the text contains separators.
    ///
    /// ```rust
    /// let path = DevicePathBuf::from_text(rt.alloc(), r"SD(0x1)/\efi\boot/\a.efi")?;
    /// let file = path.as_device_path().file_path(rt.alloc())?;
    /// assert_eq!(rt; format!(in rt.alloc(); "{file}")?.as_str(), r"\efi\boot\a.efi");
    /// let odd = DevicePath::from_bytes(&[4, 4, 5, 0, 0x61, 0x7f, 0xff, 4, 0])?;
    /// let error = FilePathError { cause: FilePathCause::HalfUnit, offset: 4 };
    /// assert_eq!(rt; odd.file_path(rt.alloc()).err(), Some(error));
    /// ```
    pub fn file_path<A: Allocator + Copy>(&self, alloc: A) -> Result<PathBuf<A>, FilePathError>
        ensures ok { IfOk result (λ path. path ≡ file_path (nodes_of self.now)) }
        ensures accepted { IfOk result (λ _. All IsReadable (nodes_of self.now)) }
        ensures refusal { IfErr result (λ error. FilePathRefusedFor (nodes_of self.now) error) }
    {
        file_path_in(alloc, &self.bytes[..self.bytes.len() - 4])
    }

    /// Returns a value that prints the file path, which [`DevicePath::file_path`] makes, for a `{}` of a
    /// format. Fails if that call rejects a name, for the same node. Does not allocate.
    ///
    /// ```rust
    /// let path = DevicePathBuf::from_text(rt.alloc(), r"SD(0x1)/\efi\boot/\a.efi")?;
    /// let file = path.as_device_path().display_file_path()?;
    /// assert_eq!(rt; format!(in rt.alloc(); "{file}")?.as_str(), r"\efi\boot\a.efi");
    /// ```
    pub fn display_file_path(&self) -> Result<FilePathText<'a>, FilePathError>
        ensures ok { IfOk result (λ text. printed_file_path text
            ≡ encode_utf8_all (file_path (nodes_of self.now))) }
        ensures accepted { OnOk result (All IsReadable (nodes_of self.now)) }
        ensures refusal { IfErr result (λ error. FileRefusedFor (nodes_of self.now) error) }
    {
        FilePathText::of(&self.bytes[..self.bytes.len() - 4])
    }

    /// Writes the file path, which [`DevicePath::file_path`] makes, to the start of a buffer, with
    /// a NUL, and returns its length without the NUL. The rest of the buffer is unchanged.
    ///
    /// Fails with `Name` if that call rejects a name, for the same node, and otherwise with
    /// `BufferTooSmall` if the buffer is too small. The buffer is then unchanged. Does not
    /// allocate.
    ///
    /// ```rust
    /// let path = DevicePathBuf::from_text(rt.alloc(), r"SD(0x1)/\a\b")?;
    /// let mut buffer = [0xffff; 5];
    /// assert_eq!(rt; path.as_device_path().write_file_path(&mut buffer), Ok(4));
    /// assert_eq!(rt; buffer, [0x5c, 0x61, 0x5c, 0x62, 0]);
    /// let refused = path.as_device_path().write_file_path(&mut buffer[..4]);
    /// assert_eq!(rt; refused, Err(FilePathWriteError::BufferTooSmall(5)));
    /// ```
    pub fn write_file_path(&self, buffer: &mut [u16]) -> Result<usize, FilePathWriteError>
        ensures len { IfOk result (λ len. len ≡ length (file_path (nodes_of self.now))) }
        ensures text { OnOk result (IsText (file_path (nodes_of self.now))) }
        ensures accepted { OnOk result (All IsReadable (nodes_of self.now)) }
        ensures room { IfOk result (λ len. len < length buffer.old) }
        ensures ok { OnOk result (buffer.new ≡ nul_terminated (file_path (nodes_of self.now))
            ++ drop (length (file_path (nodes_of self.now)) + 1) buffer.old) }
        ensures err { OnErr result (buffer.new ≡ buffer.old) }
        ensures refusal { IfErr result (λ error.
            WriteRefusedFor (nodes_of self.now) (length buffer.old) error) }
    {
        write_file_path_in(&self.bytes[..self.bytes.len() - 4], buffer)
    }

    /// Writes the file path to the start of a buffer, and borrows it from there as a string. Fails
    /// as [`DevicePath::write_file_path`] does.
    ///
    /// ```rust
    /// let path = DevicePathBuf::from_text(rt.alloc(), r"SD(0x1)/\efi\a.efi")?;
    /// let mut buffer = [0; 16];
    /// let file = path.as_device_path().file_path_in_buf(&mut buffer)?;
    /// assert_eq!(rt; format!(in rt.alloc(); "{file}")?.as_str(), r"\efi\a.efi");
    /// ```
    pub fn file_path_in_buf<'b>(&self, buf: &'b mut [u16]) -> Result<CStr16<'b>, FilePathWriteError>
        ensures ok { IfOk result (λ string. text_of string ≡ file_path (nodes_of self.now)) }
        ensures accepted { OnOk result (All IsReadable (nodes_of self.now)) }
        ensures room { OnOk result (length (file_path (nodes_of self.now)) < length buf.old) }
        ensures refusal { IfErr result (λ error.
            WriteRefusedFor (nodes_of self.now) (length buf.old) error) }
    {
        let len = self.write_file_path(buf)?;
        Ok(CStr16::from_string(&buf[..len + 1]))
    }

    /// Returns a value that prints the path, for a `{}` of a format (UEFI Specification 2.10,
    /// section 10.6.1): the texts of its nodes, which [`DevicePathNode::display`] gives, with a
    /// slash between each two of an instance, and a comma between each two instances. Does not
    /// allocate.
    ///
    /// ```rust
    /// let path = DevicePathBuf::from_text(rt.alloc(), "CDROM(0x1,0x2D,0x800)")?;
    /// let text = path.as_device_path().display(DisplayOnly(true), AllowShortcuts(true));
    /// assert_eq!(rt; format!(in rt.alloc(); "{text}")?.as_str(), "CDROM(0x1)");
    /// let text = format!(in rt.alloc(); "{}", path.as_device_path())?;
    /// assert_eq!(rt; text.as_str(), "CDROM(0x1,0x2D,0x800)");
    /// ```
    pub fn display(
        &self,
        display_only: DisplayOnly,
        allow_shortcuts: AllowShortcuts,
    ) -> PathText<'a>
        ensures { printed_path result ≡ nodes_text display_only.0 allow_shortcuts.0 (nodes_of self.now) }
    {
        PathText::of(
            &self.bytes[..self.bytes.len() - 4],
            display_only,
            allow_shortcuts,
        )
    }

    /// Writes the text of the path, which [`DevicePath::display`] prints, to the start of a buffer
    /// as UTF-16, with a NUL, and returns its length without the NUL. The rest of the buffer is
    /// unchanged.
    ///
    /// Fails only if the buffer is too small, and then leaves it unchanged. A buffer of
    /// [`TEXT_UNITS_PER_BYTE`](crate::TEXT_UNITS_PER_BYTE) units for each byte of the path is never
    /// too small, and the call then makes the text once. For a smaller buffer it makes the text
    /// twice: once to count its units, and once to write them. Does not allocate.
    ///
    /// ```rust
    /// let path = DevicePathBuf::from_text(rt.alloc(), "SD(0x1)")?;
    /// let (form, shortcuts) = (DisplayOnly(true), AllowShortcuts(true));
    /// let mut buffer = [0; 8];
    /// assert_eq!(rt; path.as_device_path().write_text(&mut buffer, form, shortcuts), Ok(7));
    /// let refused = path.as_device_path().write_text(&mut buffer[..7], form, shortcuts);
    /// assert_eq!(rt; refused, Err(BufferTooSmall(8)));
    /// ```
    pub fn write_text(
        &self,
        buffer: &mut [u16],
        display_only: DisplayOnly,
        allow_shortcuts: AllowShortcuts,
    ) -> Result<usize, BufferTooSmall>
        ensures len { result ≡ written_len
            (utf16_units (nodes_text display_only.0 allow_shortcuts.0 (nodes_of self.now))) buffer.old }
        ensures buffer { buffer.new ≡ with_prefix (nul_terminated
            (utf16_units (nodes_text display_only.0 allow_shortcuts.0 (nodes_of self.now)))) buffer.old }
    {
        text_lengths();
        let most = most_units(self.bytes);
        write_bounded_units(buffer, &self.display(display_only, allow_shortcuts), most)
    }

    /// Writes the text that [`DevicePath::display`] prints to the start of a buffer, and borrows it
    /// from there with its NUL. Fails as [`DevicePath::write_text`] does.
    ///
    /// ```rust
    /// let path = DevicePathBuf::from_text(rt.alloc(), "SD(0x1)")?;
    /// let (form, shortcuts) = (DisplayOnly(true), AllowShortcuts(true));
    /// let mut buffer = [0; 64];
    /// let text = path.as_device_path().text_in_buf(&mut buffer, form, shortcuts)?;
    /// assert_eq!(rt; text, [0x53, 0x44, 0x28, 0x30, 0x78, 0x31, 0x29, 0].as_slice());
    /// ```
    pub fn text_in_buf<'b>(
        &self,
        buf: &'b mut [u16],
        display_only: DisplayOnly,
        allow_shortcuts: AllowShortcuts,
    ) -> Result<&'b [u16], BufferTooSmall>
        ensures ok { IfOk result (λ units. units.now ≡ nul_terminated
            (utf16_units (nodes_text display_only.0 allow_shortcuts.0 (nodes_of self.now)))) }
        ensures refused { IsErr result ↔ (length buf.old
            ≤ length (utf16_units (nodes_text display_only.0 allow_shortcuts.0 (nodes_of self.now)))) }
        ensures needs { IfErr result (λ error. error.0 ≡ places_needed
            (utf16_units (nodes_text display_only.0 allow_shortcuts.0 (nodes_of self.now)))) }
    {
        let len = self.write_text(buf, display_only, allow_shortcuts)?;
        Ok(&buf[..len + 1])
    }

    /// Returns a value that prints the path as libefivar and efibootmgr do, for a `{}` of a format:
    /// the text that [`DevicePath::display`] gives, except for `File(..)` around the name of a
    /// file, and for the numbers of a partition, which are in lower case after its kind. Does not
    /// allocate.
    ///
    /// ```rust
    /// let path = DevicePathBuf::from_text(rt.alloc(), r"HD(1,MBR,0x000000AB,0x3F,0xC8)/\a.efi")?;
    /// let text = format!(in rt.alloc(); "{}", path.as_device_path().display_libefivar())?;
    /// assert_eq!(rt; text.as_str(), r"HD(1,MBR,0x000000ab,0x3f,0xc8)/File(\a.efi)");
    /// ```
    pub fn display_libefivar(&self) -> LibefivarText<'a>
        ensures { printed_by_libefivar result ≡ libefivar_text (nodes_of self.now) }
    {
        LibefivarText::of(&self.bytes[..self.bytes.len() - 4])
    }

    /// Writes the text that [`DevicePath::display_libefivar`] prints to the start of a buffer, as
    /// UTF-16 with a NUL, and returns its length, as [`DevicePath::write_text`] does.
    ///
    /// ```rust
    /// let path = DevicePathBuf::from_text(rt.alloc(), r"\")?;
    /// let mut buffer = [0; 8];
    /// assert_eq!(rt; path.as_device_path().write_libefivar_text(&mut buffer), Ok(7));
    /// assert_eq!(rt; buffer, [0x46, 0x69, 0x6c, 0x65, 0x28, 0x5c, 0x29, 0]);
    /// ```
    pub fn write_libefivar_text(&self, buffer: &mut [u16]) -> Result<usize, BufferTooSmall>
        ensures len { result ≡ written_len (utf16_units (libefivar_text (nodes_of self.now))) buffer.old }
        ensures buffer { buffer.new
            ≡ with_prefix (nul_terminated (utf16_units (libefivar_text (nodes_of self.now)))) buffer.old }
    {
        text_lengths();
        let most = most_units(self.bytes);
        write_bounded_units(buffer, &self.display_libefivar(), most)
    }

    /// Returns an iterator over the instances of the path, in order: the parts between the nodes
    /// that end an instance.
    ///
    /// ```rust
    /// let path = DevicePathBuf::from_text(rt.alloc(), "Uart(9600,8,N,1),SD(0x1)/Unit(0x2)")?;
    /// let nodes = path.as_device_path().instance_iter().map(|it| it.node_iter().count());
    /// assert!(rt; nodes.eq([1, 2]));
    /// ```
    pub fn instance_iter(&self) -> DevicePathInstanceIterator<'a>
        ensures same { instances_left result ≡ instances (nodes_of self.now) }
        ensures runs { GivesEach instance_nodes instances_left result }
    {
        DevicePathInstanceIterator::of(&self.bytes[..self.bytes.len() - 4])
    }
}

/// Two paths are equal exactly when their bytes are.
impl<'a> PartialEq for DevicePath<'a> {
    ghost use Rattle.uefi_device_path.specs.Views.{nodes_of};

    ghost eq = { λ a b. pointwise nat_eq (path_bytes (nodes_of a)) (path_bytes (nodes_of b)) };

    ghost laws = { on_per (λ a. path_bytes (nodes_of a)) (partial_equiv_from_equiv nat_list_eq_equiv) };

    fn eq(&self, other: &Self) -> bool {
        self.as_bytes() == other.as_bytes()
    }
}

impl<'a> Eq for DevicePath<'a> {
    ghost use Rattle.uefi_device_path.specs.Views.{nodes_of};

    ghost laws = { on_texts_equal (λ a. path_bytes (nodes_of a)) };
}

/// Hashes the bytes.
impl<'a> Hash for DevicePath<'a> {
    ghost use Rattle.std.proofs.Common.{rules};
    ghost use Rattle.std.specs.Hash as fed;
    ghost use Rattle.std.specs.Cmp.Rules.{comparing, hashing};
    ghost use Rattle.uefi_device_path.specs.Views.{nodes_of};

    ghost hash_input = { λ a. fed.slice fed.u8 (path_bytes (nodes_of a)) };

    ghost respects_eq = { Prim.search (hashing, comparing, rules) };

    fn hash<H: Hasher>(&self, state: &mut H) {
        self.as_bytes().hash(state);
    }
}

/// Writes the bytes.
impl<'a> fmt::Debug for DevicePath<'a> {
    fn fmt<W: fmt::Write>(&self, f: &mut fmt::Formatter<W>) -> fmt::Result {
        f.debug_tuple("DevicePath").field(&self.as_bytes()).finish()
    }
}

/// Does what [`DevicePath::from_bytes`] does.
impl<'a> TryFrom<&'a [u8]> for DevicePath<'a> {
    type Error = DevicePathError;

    ghost use Rattle.uefi_device_path.specs.Views.{nodes_of};

    ghost try_from_gives = { λ bytes result. GivesPath nodes_of bytes.now result };

    fn try_from(bytes: &'a [u8]) -> Result<Self, DevicePathError> {
        DevicePath::from_bytes(bytes)
    }
}

/// Prints the text that can be read back, without short names.
impl<'a> fmt::Display for DevicePath<'a> {
    ghost use Rattle.uefi_device_path.specs.Views.{nodes_of};

    ghost output = { λ path. Some (nodes_text false false (nodes_of path)) };

    fn fmt<W: fmt::Write>(&self, f: &mut fmt::Formatter<W>) -> fmt::Result {
        print(f, &self.display(DisplayOnly(false), AllowShortcuts(false)))
    }
}
