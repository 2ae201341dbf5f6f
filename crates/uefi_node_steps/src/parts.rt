//! The parts of the packed table, which are numbered.
#![tactic(auto)]

use crate::steps::{Encoding, FormOf, Items, Shape};

/// A text, packed.
#[derive(Clone, Copy)]
pub struct PackedText {
    /// Its number.
    pub number: u8,
}

/// Bytes of data, each with its offset and its value, packed.
#[derive(Clone, Copy)]
pub struct PackedBytes {
    /// Their number.
    pub number: u8,
}

/// A field, packed.
#[derive(Clone, Copy)]
pub struct PackedField {
    /// How the text encodes it.
    pub shape: Shape,
    /// The offset of its first byte.
    pub place: u8,
    /// The number of its bytes.
    pub width: u8,
    /// The byte that fills it where people omit it.
    pub spare: Option<u8>,
}

/// A step, packed.
#[derive(Clone, Copy)]
pub enum PackedStep {
    /// These letters.
    Literal(PackedText),
    /// A field of the fixed part.
    Field(PackedField),
    /// The data after the fixed part.
    Data(Encoding),
    /// The whole items of a list, which are the data after the fixed part.
    Many(Items),
}

/// The steps of a form, packed. The first is a literal.
#[derive(Clone, Copy)]
pub struct PackedSteps {
    /// The first.
    pub start: PackedText,
    /// The number of the list of the other steps.
    pub others: u8,
}

/// A form, packed.
pub type PackedForm = FormOf<PackedSteps, PackedBytes>;
