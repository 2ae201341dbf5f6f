//! The file path of a device path: the names of its nodes that name files, one after the other, in
//! its own memory or in a caller's buffer.
#![tactic(auto)]

ghost use Rattle.std.specs.Fmt.{WritesInCalls};
ghost use Rattle.std.specs.Prelude.{◌≡◌, ℕ, ◌+◌, ◌<◌, ◌++◌, if◌then◌else◌, List, All, drop, length, slice_index, IfOk, IfErr, OnErr, OnOk, Some, encode_utf8, true};
ghost use Rattle.std.specs.Result.{result_err};
ghost use Rattle.std.specs.Str.{encode_utf8_all};
ghost use Rattle.uefi_text.specs.UnitBytes.{units_of_bytes};
ghost use Rattle.uefi_text.specs.Units.{IsString, IsText, IsTextUnit, nul_terminated, replaced, without_nul};
ghost use Rattle.uefi_text.specs.Views.{items_of};
ghost use Rattle.uefi_path.specs.Pushing.{needs_separator};
ghost use Rattle.uefi_path.specs.Separators.{separator, slash, with_separators};
ghost use Rattle.uefi_device_nodes.specs.FileNodes.{is_file};
ghost use Rattle.uefi_device_nodes.specs.NodeViews.{node_of};
ghost use Rattle.uefi_device_path.specs.FilePathBuffers.{EndsAs, IsAdded, WriteRefusedFor};
ghost use Rattle.uefi_device_path.specs.FilePaths.{FilePathRefusedFor, FileRefusedFor, IsReadable, file_path, is_rooted, name_after, name_fault, with_node};
ghost use Rattle.uefi_device_path.specs.Paths.{AreNodes, nodes_in};

use crate::errors::{FilePathCause, FilePathError, FilePathWriteError};
use std::alloc::{AllocError, Allocator};
use std::fmt;
use uefi_device_nodes::{DevicePathNode, DeviceSubType, DeviceType};
use uefi_path::PathBuf;
use uefi_path::path_units::with_separator;
use uefi_text::text_sink::{Printed, TextSink, print};
use uefi_text::unit_sink::write_bounded_units;
use uefi_text::{CString16, UnalignedSlice};

/// How a path ends to which names are added.
#[derive(Clone, Copy)]
struct PathEnd {
    is_empty: bool,

    /// Whether a separator is missing before the next name.
    is_open: bool,
}

/// Returns whether a name begins with a separator or a slash.
fn is_rooted_name(name: &UnalignedSlice<'_, u16>) -> bool
    requires { IsString (items_of name.now) }
    ensures { result ≡ is_rooted (without_nul (items_of name.now)) }
{
    matches!(name.get(0), Some(0x5c | 0x2f))
}

/// Returns the unit of a name at an index before its NUL.
fn unit_at(name: &UnalignedSlice<'_, u16>, place: usize) -> u16
    requires is_string { IsString (items_of name.now) }
    requires within { place + 1 < length (items_of name.now) }
    ensures unit { result ≡ slice_index (without_nul (items_of name.now)) place }
    ensures text { IsTextUnit result }
{
    name.get(place).unwrap()
}

/// Returns whether a separator is missing after a name.
fn is_open(name: &UnalignedSlice<'_, u16>) -> bool
    requires { IsString (items_of name.now) }
    ensures { result ≡ needs_separator (with_separators (without_nul (items_of name.now))) }
{
    let len = name.len() - 1;
    len != 0 && with_separator(unit_at(name, len - 1)) != 0x5c
}

/// Puts a unit of a name, a slash as a separator.
fn put_unit<S: TextSink>(sink: &mut S, unit: u16)
    requires { IsTextUnit unit }
    ensures { WritesInCalls S.puts sink.old (encode_utf8 (replaced slash separator unit)) sink.new }
{
    sink.put_char(char::from_u32(u32::from(with_separator(unit))).unwrap());
}

/// Puts the units of a name from an index on, each slash as a separator, without its NUL.
fn put_units<S: TextSink>(sink: &mut S, name: &UnalignedSlice<'_, u16>, start: usize)
    requires { IsString (items_of name.now) }
    ensures { WritesInCalls S.puts sink.old
        (encode_utf8_all (with_separators (drop start (without_nul (items_of name.now))))) sink.new }
{
    for place in start..name.len() - 1 {
        put_unit(sink, unit_at(name, place));
    }
}

/// Returns the index of the first unit of a name that is added: after the separator at its start, if the path
/// has text.
fn name_start(end: PathEnd, name: &UnalignedSlice<'_, u16>) -> usize
    requires { IsString (items_of name.now) }
    ensures { result ≡ (if end.is_empty then 0
        else if is_rooted (without_nul (items_of name.now)) then 1 else 0) }
{
    usize::from(!end.is_empty && is_rooted_name(name))
}

/// Puts what a name adds to a path that ends like this, and returns how the path then ends.
fn put_name<S: TextSink>(sink: &mut S, end: PathEnd, name: &UnalignedSlice<'_, u16>) -> PathEnd
    requires { IsString (items_of name.now) }
    ensures { (path : List ℕ) → EndsAs path end → (added : List ℕ)
        × IsAdded path added (name_after path (without_nul (items_of name.now))) result
        × WritesInCalls S.puts sink.old (encode_utf8_all added) sink.new }
{
    let start = name_start(end, name);
    if name.len() <= start + 1 {
        return end;
    }
    if end.is_open {
        sink.put_str("\\");
    }
    put_units(sink, name, start);
    PathEnd {
        is_empty: false,
        is_open: is_open(name),
    }
}

/// Returns the units of the name in a node's data, with their NUL.
fn name_units(content: &[u8]) -> Result<UnalignedSlice<'_, u16>, FilePathCause>
    ensures units { IfOk result (λ name. items_of name ≡ units_of_bytes content.now) }
    ensures is_string { IfOk result (λ name. IsString (items_of name)) }
    ensures refusal { result_err result ≡ name_fault content.now }
{
    let Some(name) = UnalignedSlice::from_unit_bytes(content) else {
        return Err(FilePathCause::HalfUnit);
    };
    match name.check_cstr16() {
        Ok(()) => Ok(name),
        Err(error) => Err(FilePathCause::Text(error)),
    }
}

/// Returns whether a node names a file.
fn names_file(node: DevicePathNode<'_>) -> bool
    ensures { result ≡ is_file (node_of node.entry) }
{
    node.device_type() == DeviceType::MEDIA && node.sub_type() == DeviceSubType::MEDIA_FILE_PATH
}

/// Checks that a node has a name, if it names a file.
fn check_name(node: DevicePathNode<'_>) -> Result<(), FilePathCause>
    ensures readable { OnOk result (IsReadable (node_of node.entry)) }
    ensures text { OnOk result ((path : List ℕ) → IsText path →
        IsText (with_node path (node_of node.entry))) }
    ensures file { OnErr result (is_file (node_of node.entry) ≡ true) }
    ensures refusal { IfErr result (λ cause. name_fault (node_of node.entry).content ≡ Some cause) }
{
    if !names_file(node) {
        return Ok(());
    }
    match name_units(node.data()) {
        Ok(_) => Ok(()),
        Err(cause) => Err(cause),
    }
}

/// Puts what a node adds to a path that ends like this, and returns how the path then ends.
fn put_node<S: TextSink>(sink: &mut S, end: PathEnd, node: DevicePathNode<'_>) -> PathEnd
    requires { IsReadable (node_of node) }
    ensures { (path : List ℕ) → EndsAs path end → (added : List ℕ)
        × IsAdded path added (with_node path (node_of node.entry)) result
        × WritesInCalls S.puts sink.old (encode_utf8_all added) sink.new }
{
    if !names_file(node) {
        return end;
    }
    match name_units(node.data()) {
        Ok(name) => put_name(sink, end, &name),
        Err(_) => unreachable!(),
    }
}

/// Puts the file path of nodes, given as bytes.
fn put_file_path<S: TextSink>(sink: &mut S, bytes: &[u8])
    requires nodes { AreNodes bytes.now }
    requires readable { All IsReadable (nodes_in bytes.now) }
    ensures { WritesInCalls S.puts sink.old (encode_utf8_all (file_path (nodes_in bytes.now))) sink.new }
{
    let mut end = PathEnd {
        is_empty: true,
        is_open: false,
    };
    let mut rest = bytes;
    while !rest.is_empty() {
        let (node, after) = DevicePathNode::take_first(rest);
        end = put_node(sink, end, node);
        rest = after;
    }
}

/// Checks that each node that names a file has a name.
fn check_names(bytes: &[u8]) -> Result<(), FilePathError>
    requires { AreNodes bytes.now }
    ensures readable { OnOk result (All IsReadable (nodes_in bytes.now)) }
    ensures text { OnOk result (IsText (file_path (nodes_in bytes.now))) }
    ensures refusal { IfErr result (λ error. FileRefusedFor (nodes_in bytes.now) error) }
{
    let mut rest = bytes;
    while !rest.is_empty() {
        let offset = bytes.len() - rest.len() + 4;
        let (node, after) = DevicePathNode::take_first(rest);
        match check_name(node) {
            Ok(()) => {}
            Err(cause) => return Err(FilePathError { cause, offset }),
        }
        rest = after;
    }
    Ok(())
}

/// A value that prints the file path of a device path. A contract sees it as `printed_file_path` of it.
#[derive(Clone, Copy)]
pub struct FilePathText<'a> {
    bytes: &'a [u8],
    pub ghost are_nodes: { AreNodes bytes.now },
    pub ghost readable: { All IsReadable (nodes_in bytes.now) },
    pub ghost is_text: { IsText (file_path (nodes_in bytes.now)) },
}

impl<'a> FilePathText<'a> {
    ghost use Rattle.uefi_device_path.specs.Views.{printed_file_path};

    /// Creates a value that prints the file path of nodes, given as bytes.
    #[tactic(auto, unfolding(crate::specs::Views::printed_file_path))]
    pub(crate) fn of(bytes: &'a [u8]) -> Result<Self, FilePathError>
        requires { AreNodes bytes.now }
        ensures ok { IfOk result (λ text. printed_file_path text
            ≡ encode_utf8_all (file_path (nodes_in bytes.now))) }
        ensures readable { OnOk result (All IsReadable (nodes_in bytes.now)) }
        ensures text { OnOk result (IsText (file_path (nodes_in bytes.now))) }
        ensures refusal { IfErr result (λ error. FileRefusedFor (nodes_in bytes.now) error) }
    {
        check_names(bytes)?;
        Ok(FilePathText { bytes })
    }
}

/// Puts the file path.
#[tactic(auto, unfolding(crate::specs::Views::printed_file_path))]
impl<'a> Printed for FilePathText<'a> {
    ghost use Rattle.uefi_device_path.specs.Views.{printed_file_path};

    ghost printed = { printed_file_path };

    fn put<S: TextSink>(&self, sink: &mut S) {
        put_file_path(sink, self.bytes);
    }
}

/// Prints the file path.
impl<'a> fmt::Display for FilePathText<'a> {
    ghost use Rattle.uefi_device_path.specs.Views.{printed_file_path};

    ghost output = { λ text. Some (printed_file_path text) };

    fn fmt<W: fmt::Write>(&self, f: &mut fmt::Formatter<W>) -> fmt::Result {
        print(f, self)
    }
}

/// Writes the file path of nodes, given as bytes, and its NUL, to the start of a buffer.
pub(crate) fn write_file_path_in(
    bytes: &[u8],
    buffer: &mut [u16],
) -> Result<usize, FilePathWriteError>
    requires { AreNodes bytes.now }
    ensures len { IfOk result (λ len. len ≡ length (file_path (nodes_in bytes.now))) }
    ensures text { OnOk result (IsText (file_path (nodes_in bytes.now))) }
    ensures readable { OnOk result (All IsReadable (nodes_in bytes.now)) }
    ensures room { IfOk result (λ len. len < length buffer.old) }
    ensures ok { OnOk result (buffer.new
        ≡ nul_terminated (file_path (nodes_in bytes.now))
        ++ drop (length (file_path (nodes_in bytes.now)) + 1) buffer.old) }
    ensures err { OnErr result (buffer.new ≡ buffer.old) }
    ensures refusal { IfErr result (λ error. WriteRefusedFor (nodes_in bytes.now) (length buffer.old) error) }
{
    let text = match FilePathText::of(bytes) {
        Ok(text) => text,
        Err(error) => return Err(FilePathWriteError::Name(error)),
    };
    // No path has more units than its nodes have bytes.
    match write_bounded_units(buffer, &text, bytes.len()) {
        Ok(len) => Ok(len),
        Err(error) => Err(FilePathWriteError::BufferTooSmall(error.0)),
    }
}

/// Creates the file path of nodes, given as bytes, in its own memory, in `needed` places.
fn copy_file_path<A: Allocator + Copy>(
    alloc: A,
    bytes: &[u8],
    needed: usize,
) -> Result<PathBuf<A>, AllocError>
    requires nodes { AreNodes bytes.now }
    requires readable { All IsReadable (nodes_in bytes.now) }
    requires len { needed ≡ length (file_path (nodes_in bytes.now)) + 1 }
    ensures { IfOk result (λ path. path ≡ file_path (nodes_in bytes.now)) }
{
    let mut units = Vec::new(alloc);
    units.resize(needed, 0)?;
    match write_file_path_in(bytes, &mut units) {
        Ok(_) => {}
        Err(_) => unreachable!(),
    }
    let string = CString16::try_from_vec(units).unwrap();
    match PathBuf::new_from_cstring16(alloc, string) {
        Ok(path) => Ok(path),
        Err(_) => Err(AllocError),
    }
}

/// Creates the file path of nodes, given as bytes, in its own memory. Allocates after every name is
/// known to be a string.
pub(crate) fn file_path_in<A: Allocator + Copy>(
    alloc: A,
    bytes: &[u8],
) -> Result<PathBuf<A>, FilePathError>
    requires { AreNodes bytes.now }
    ensures ok { IfOk result (λ path. path ≡ file_path (nodes_in bytes.now)) }
    ensures readable { OnOk result (All IsReadable (nodes_in bytes.now)) }
    ensures refusal { IfErr result (λ error. FilePathRefusedFor (nodes_in bytes.now) error) }
{
    let needed = match write_file_path_in(bytes, &mut []) {
        Err(FilePathWriteError::BufferTooSmall(needed)) => needed,
        Err(FilePathWriteError::Name(error)) => return Err(error),
        Ok(_) => unreachable!(),
    };
    match copy_file_path(alloc, bytes, needed) {
        Ok(path) => Ok(path),
        Err(_) => Err(FilePathError {
            cause: FilePathCause::OutOfMemory,
            offset: 0,
        }),
    }
}
