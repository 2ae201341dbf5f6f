//! Why bytes begin with no node, and why a node is not of a kind.
ghost use Rattle.uefi_device_nodes.specs.NodeErrorTexts.{node_error_text, node_conversion_error_text};
ghost use Rattle.std.specs.Prelude.{Some};

use std::error::Error;
use std::fmt;
use uefi_text::text_sink::{Printed, TextSink, print};

/// The reason why bytes do not begin with a node of a device path.
#[derive(Clone, Copy, Debug, PartialEq, Eq)]
pub enum NodeError {
    /// No bytes are left, although no end node has ended the path.
    Missing,
    /// The bytes end within the four bytes of a header.
    TruncatedHeader,
    /// A node of type End has a sub-type that ends neither a path nor an instance.
    UnknownEnd,
    /// The header states a length below four, which is the length of the header itself.
    LengthBelowHeader,
    /// The header of a node of type End states a length above four.
    EndWithData,
    /// The header states a length beyond the end of the bytes.
    BeyondEnd,
}

/// Puts what is wrong, in words.
impl Printed for NodeError {
    ghost printed = { node_error_text };

    fn put<S: TextSink>(&self, sink: &mut S) {
        match self {
            Self::Missing => sink.put_str("device path has no end node"),
            Self::TruncatedHeader => sink.put_str("device path ends within a node header"),
            Self::UnknownEnd => sink.put_str("end node has an unknown sub-type"),
            Self::LengthBelowHeader => sink.put_str("device path node is shorter than its header"),
            Self::EndWithData => sink.put_str("end node has data"),
            Self::BeyondEnd => sink.put_str("device path node extends past the end of the data"),
        }
    }
}

/// Prints the same text.
impl fmt::Display for NodeError {
    ghost output = { λ error. Some (node_error_text error) };

    fn fmt<W: fmt::Write>(&self, f: &mut fmt::Formatter<W>) -> fmt::Result {
        print(f, self)
    }
}

impl Error for NodeError {}

/// The reason why a node is not of a kind.
#[derive(Clone, Copy, Debug, PartialEq, Eq)]
pub enum NodeConversionError {
    /// The node has another type or sub-type.
    DifferentType,
    /// No node of the kind has data of this length.
    InvalidLength,
    /// There is no view for the node's type and sub-type.
    UnsupportedType,
}

/// Puts what is wrong, in words.
impl Printed for NodeConversionError {
    ghost printed = { node_conversion_error_text };

    fn put<S: TextSink>(&self, sink: &mut S) {
        match self {
            Self::DifferentType => sink.put_str(
                "device path node has a different type or sub-type",
            ),
            Self::InvalidLength => sink.put_str("device path node has an invalid length"),
            Self::UnsupportedType => sink.put_str("unknown device path node type"),
        }
    }
}

/// Prints the same text.
impl fmt::Display for NodeConversionError {
    ghost output = { λ error. Some (node_conversion_error_text error) };

    fn fmt<W: fmt::Write>(&self, f: &mut fmt::Formatter<W>) -> fmt::Result {
        print(f, self)
    }
}

impl Error for NodeConversionError {}
