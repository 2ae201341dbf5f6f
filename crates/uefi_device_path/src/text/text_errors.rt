//! The errors of reading a text as a device path.
#![tactic(auto, using(uefi_text::proofs::Puts::puts))]

ghost use Rattle.uefi_device_path.specs.TextErrorTexts.{text_fault_text, path_text_error_text, push_text_error_text};
ghost use Rattle.std.specs.Prelude.{Some};

use crate::errors::DevicePathError;
use std::error::Error;
use std::fmt;
pub use uefi_node_reader::errors::faults::{Choice, Expected};
use uefi_text::number_texts::put_decimal;
use uefi_text::text_sink::{Printed, TextSink, print};

/// The position at which no node is read from a text: its first wrong byte, and what must be there.
#[derive(Clone, Copy, Debug, PartialEq, Eq)]
pub struct TextFault {
    /// The byte of the text at which the node that can't be read begins.
    pub node: usize,

    /// The byte that is wrong, or the length of the text if its end comes too early. If a number,
    /// digits or a name are wrong, it is their first byte.
    pub byte: usize,

    /// What must be there.
    pub expected: Expected,
}

/// Puts what is wrong, in words.
impl Printed for TextFault {
    ghost printed = { text_fault_text };

    fn put<S: TextSink>(&self, sink: &mut S) {
        put_decimal(sink, "invalid node at offset ", self.node as u64);
        sink.put_str(": expected ");
        self.expected.put(sink);
        put_decimal(sink, " at offset ", self.byte as u64);
    }
}

/// Prints the same text.
impl fmt::Display for TextFault {
    ghost output = { λ fault. Some (text_fault_text fault) };

    fn fmt<W: fmt::Write>(&self, f: &mut fmt::Formatter<W>) -> fmt::Result {
        print(f, self)
    }
}

impl Error for TextFault {}

/// The reason why a text is not read as a device path, in any style.
#[derive(Clone, Copy, Debug, PartialEq, Eq)]
pub enum PathTextError {
    /// A node must begin at a byte of the text, and none can be read there.
    NoNode(TextFault),
    /// Memory ran out.
    OutOfMemory,
}

/// Puts what is wrong, in words.
impl Printed for PathTextError {
    ghost printed = { path_text_error_text };

    fn put<S: TextSink>(&self, sink: &mut S) {
        match self {
            Self::NoNode(fault) => fault.put(sink),
            Self::OutOfMemory => sink.put_str("out of memory"),
        }
    }
}

/// Prints the same text.
impl fmt::Display for PathTextError {
    ghost output = { λ error. Some (path_text_error_text error) };

    fn fmt<W: fmt::Write>(&self, f: &mut fmt::Formatter<W>) -> fmt::Result {
        print(f, self)
    }
}

impl Error for PathTextError {}

/// The reason why the nodes of a text, in any style, are not added to the device path at the start of
/// a buffer.
#[derive(Clone, Copy, Debug, PartialEq, Eq)]
pub enum PushTextError {
    /// The buffer does not begin with a device path.
    Path(DevicePathError),
    /// A node must begin at a byte of the text, and none can be read there.
    NoNode(TextFault),
    /// The buffer has fewer bytes than the path with the nodes needs. The number is how many it
    /// needs, or `usize::MAX` if it needs more.
    BufferTooSmall(usize),
}

/// Puts what is wrong, in words.
impl Printed for PushTextError {
    ghost printed = { push_text_error_text };

    fn put<S: TextSink>(&self, sink: &mut S) {
        match self {
            Self::Path(error) => error.put(sink),
            Self::NoNode(fault) => fault.put(sink),
            Self::BufferTooSmall(needed) => {
                put_decimal(
                    sink,
                    "buffer too small: the device path needs ",
                    *needed as u64,
                );
                sink.put_str(" bytes");
            }
        }
    }
}

/// Prints the same text.
impl fmt::Display for PushTextError {
    ghost output = { λ error. Some (push_text_error_text error) };

    fn fmt<W: fmt::Write>(&self, f: &mut fmt::Formatter<W>) -> fmt::Result {
        print(f, self)
    }
}

impl Error for PushTextError {}
