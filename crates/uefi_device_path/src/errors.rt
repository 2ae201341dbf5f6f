//! The errors of reading device paths and load options, and of adding nodes.
#![tactic(auto, using(uefi_text::proofs::Puts::puts))]

ghost use Rattle.uefi_device_path.specs.ErrorTexts.{device_path_error_text, file_path_cause_text, file_path_error_text, file_path_write_error_text, load_option_cause_text, load_option_error_text, build_error_text, grow_error_text, option_build_error_text};
ghost use Rattle.std.specs.Prelude.{Some};

use std::error::Error;
use std::fmt;
pub use uefi_device_nodes::errors::{NodeConversionError, NodeError};
use uefi_text::FromSliceWithNulError;
use uefi_text::number_texts::put_decimal;
use uefi_text::text_sink::{Printed, TextSink, print};

/// The reason why bytes do not begin with a device path.
#[derive(Clone, Copy, Debug, PartialEq, Eq)]
pub struct DevicePathError {
    /// The fault of the first malformed node.
    pub cause: NodeError,

    /// The offset of the bytes at fault, counted from the first byte: of the node, its sub-type or
    /// its length.
    pub offset: usize,
}

/// Puts what is wrong, in words.
impl Printed for DevicePathError {
    ghost printed = { device_path_error_text };

    fn put<S: TextSink>(&self, sink: &mut S) {
        self.cause.put(sink);
        put_decimal(sink, " at offset ", self.offset as u64);
    }
}

/// Prints the same text.
impl fmt::Display for DevicePathError {
    ghost output = { λ error. Some (device_path_error_text error) };

    fn fmt<W: fmt::Write>(&self, f: &mut fmt::Formatter<W>) -> fmt::Result {
        print(f, self)
    }
}

impl Error for DevicePathError {}

/// The reason why a node that should name a file has no name.
#[derive(Clone, Copy, Debug, PartialEq, Eq)]
pub enum FilePathCause {
    /// Its data has an odd number of bytes.
    HalfUnit,
    /// The units of its data are not a string.
    Text(FromSliceWithNulError),
    /// Memory ran out.
    OutOfMemory,
}

/// Puts what is wrong, in words.
impl Printed for FilePathCause {
    ghost printed = { file_path_cause_text };

    fn put<S: TextSink>(&self, sink: &mut S) {
        match self {
            Self::HalfUnit => sink.put_str("file path: odd number of bytes"),
            Self::Text(error) => {
                sink.put_str("file path: ");
                error.put(sink);
            }
            Self::OutOfMemory => sink.put_str("out of memory"),
        }
    }
}

/// Prints the same text.
impl fmt::Display for FilePathCause {
    ghost output = { λ cause. Some (file_path_cause_text cause) };

    fn fmt<W: fmt::Write>(&self, f: &mut fmt::Formatter<W>) -> fmt::Result {
        print(f, self)
    }
}

impl Error for FilePathCause {}

/// The reason why nodes have no file path.
#[derive(Clone, Copy, Debug, PartialEq, Eq)]
pub struct FilePathError {
    /// The fault of the first node that should name a file and has no name.
    pub cause: FilePathCause,

    /// The offset of its data, counted from the first byte of the path or the instance.
    pub offset: usize,
}

/// Puts what is wrong, in words.
impl Printed for FilePathError {
    ghost printed = { file_path_error_text };

    fn put<S: TextSink>(&self, sink: &mut S) {
        self.cause.put(sink);
        put_decimal(sink, " at offset ", self.offset as u64);
    }
}

/// Prints the same text.
impl fmt::Display for FilePathError {
    ghost output = { λ error. Some (file_path_error_text error) };

    fn fmt<W: fmt::Write>(&self, f: &mut fmt::Formatter<W>) -> fmt::Result {
        print(f, self)
    }
}

impl Error for FilePathError {}

/// The reason why a file path is not written into a buffer.
#[derive(Clone, Copy, Debug, PartialEq, Eq)]
pub enum FilePathWriteError {
    /// The nodes have no file path.
    Name(FilePathError),
    /// The buffer has fewer places than the path with its NUL needs. The number is how many it
    /// needs.
    BufferTooSmall(usize),
}

/// Puts what is wrong, in words.
impl Printed for FilePathWriteError {
    ghost printed = { file_path_write_error_text };

    fn put<S: TextSink>(&self, sink: &mut S) {
        match self {
            Self::Name(error) => error.put(sink),
            Self::BufferTooSmall(needed) => {
                put_decimal(
                    sink,
                    "buffer too small: the file path needs ",
                    *needed as u64,
                );
                sink.put_str(" units");
            }
        }
    }
}

/// Prints the same text.
impl fmt::Display for FilePathWriteError {
    ghost output = { λ error. Some (file_path_write_error_text error) };

    fn fmt<W: fmt::Write>(&self, f: &mut fmt::Formatter<W>) -> fmt::Result {
        print(f, self)
    }
}

impl Error for FilePathWriteError {}

/// The fault of bytes that are not a load option.
#[derive(Clone, Copy, Debug, PartialEq, Eq)]
pub enum LoadOptionCause {
    /// There are fewer bytes than the attributes and the length of the list need.
    TooShort,
    /// No NUL ends the description.
    DescriptionWithoutEnd,
    /// The file path list goes beyond the end of the bytes.
    ListBeyondEnd,
    /// The file path list has no bytes, so that nothing can be loaded.
    EmptyList,
    /// The file path list does not consist of device paths.
    FilePathList(NodeError),
}

/// Puts what is wrong, in words.
impl Printed for LoadOptionCause {
    ghost printed = { load_option_cause_text };

    fn put<S: TextSink>(&self, sink: &mut S) {
        match self {
            Self::TooShort => sink.put_str("load option ends before its description"),
            Self::DescriptionWithoutEnd => sink.put_str("description is not null-terminated"),
            Self::ListBeyondEnd => sink.put_str(
                "file path list extends past the end of the load option",
            ),
            Self::EmptyList => sink.put_str("file path list is empty"),
            Self::FilePathList(cause) => cause.put(sink),
        }
    }
}

/// Prints the same text.
impl fmt::Display for LoadOptionCause {
    ghost output = { λ cause. Some (load_option_cause_text cause) };

    fn fmt<W: fmt::Write>(&self, f: &mut fmt::Formatter<W>) -> fmt::Result {
        print(f, self)
    }
}

/// The reason why bytes are not a load option.
#[derive(Clone, Copy, Debug, PartialEq, Eq)]
pub struct LoadOptionError {
    /// The fault.
    pub cause: LoadOptionCause,

    /// The offset of the bytes at fault, counted from the first byte of the load option, or the
    /// number of bytes if some are missing.
    pub offset: usize,
}

/// Puts what is wrong, in words.
impl Printed for LoadOptionError {
    ghost printed = { load_option_error_text };

    fn put<S: TextSink>(&self, sink: &mut S) {
        self.cause.put(sink);
        put_decimal(sink, " at offset ", self.offset as u64);
    }
}

/// Prints the same text.
impl fmt::Display for LoadOptionError {
    ghost output = { λ error. Some (load_option_error_text error) };

    fn fmt<W: fmt::Write>(&self, f: &mut fmt::Formatter<W>) -> fmt::Result {
        print(f, self)
    }
}

impl Error for LoadOptionCause {}

impl Error for LoadOptionError {}

/// The reason why a node is not added to a device path.
#[derive(Clone, Copy, Debug, PartialEq, Eq)]
pub enum BuildError {
    /// It is of type End, and not the node that ends an instance.
    EndNode,
    /// Its length does not fit the two bytes that state it.
    NodeTooLong,
    /// The buffer has fewer bytes than the path with the node and its end needs. The number is how
    /// many it needs.
    BufferTooSmall(usize),
    /// Memory ran out.
    OutOfMemory,
}

/// Puts what is wrong, in words.
impl Printed for BuildError {
    ghost printed = { build_error_text };

    fn put<S: TextSink>(&self, sink: &mut S) {
        match self {
            Self::EndNode => sink.put_str("end node is only allowed at the end of a device path"),
            Self::NodeTooLong => sink.put_str("device path node is longer than 65,535 bytes"),
            Self::BufferTooSmall(needed) => {
                put_decimal(
                    sink,
                    "buffer too small: the device path needs ",
                    *needed as u64,
                );
                sink.put_str(" bytes");
            }
            Self::OutOfMemory => sink.put_str("out of memory"),
        }
    }
}

/// Prints the same text.
impl fmt::Display for BuildError {
    ghost output = { λ error. Some (build_error_text error) };

    fn fmt<W: fmt::Write>(&self, f: &mut fmt::Formatter<W>) -> fmt::Result {
        print(f, self)
    }
}

impl Error for BuildError {}

/// The reason why nothing is added to the device path at the start of a buffer.
#[derive(Clone, Copy, Debug, PartialEq, Eq)]
pub enum GrowError {
    /// The buffer does not begin with a device path.
    Path(DevicePathError),
    /// The nodes must not be there, or the buffer is too small.
    Build(BuildError),
}

/// Puts what is wrong, in words.
impl Printed for GrowError {
    ghost printed = { grow_error_text };

    fn put<S: TextSink>(&self, sink: &mut S) {
        match self {
            Self::Path(error) => error.put(sink),
            Self::Build(error) => error.put(sink),
        }
    }
}

/// Prints the same text.
impl fmt::Display for GrowError {
    ghost output = { λ error. Some (grow_error_text error) };

    fn fmt<W: fmt::Write>(&self, f: &mut fmt::Formatter<W>) -> fmt::Result {
        print(f, self)
    }
}

impl Error for GrowError {}

/// The reason why a load option is not written.
#[derive(Clone, Copy, Debug, PartialEq, Eq)]
pub enum OptionBuildError {
    /// The description contains a NUL, at this index.
    NulInDescription(usize),
    /// There is no device path, so that nothing can be loaded.
    EmptyList,
    /// The device paths have more bytes than the 65,535 that the header can state.
    ListTooLong,
    /// The load option has more bytes than a `usize` can state.
    TooLong,
    /// The buffer has fewer bytes than the load option. The number is how many the load option has.
    BufferTooSmall(usize),
    /// Memory ran out.
    OutOfMemory,
}

/// Puts what is wrong, in words.
impl Printed for OptionBuildError {
    ghost printed = { option_build_error_text };

    fn put<S: TextSink>(&self, sink: &mut S) {
        match self {
            Self::NulInDescription(place) => put_decimal(
                sink,
                "description: interior null character at index ",
                *place as u64,
            ),
            Self::EmptyList => sink.put_str("file path list is empty"),
            Self::ListTooLong => sink.put_str("file path list is longer than 65,535 bytes"),
            Self::TooLong => sink.put_str("load option does not fit in memory"),
            Self::BufferTooSmall(needed) => {
                put_decimal(
                    sink,
                    "buffer too small: the load option needs ",
                    *needed as u64,
                );
                sink.put_str(" bytes");
            }
            Self::OutOfMemory => sink.put_str("out of memory"),
        }
    }
}

/// Prints the same text.
impl fmt::Display for OptionBuildError {
    ghost output = { λ error. Some (option_build_error_text error) };

    fn fmt<W: fmt::Write>(&self, f: &mut fmt::Formatter<W>) -> fmt::Result {
        print(f, self)
    }
}

impl Error for OptionBuildError {}
