//! The parts of the packed table, which are numbered.

/// A text.
#[derive(Clone, Copy)]
pub struct Text {
    /// Its number.
    pub number: u8,
}

/// Bytes of data, each with its offset and its value.
#[derive(Clone, Copy)]
pub struct Bytes {
    /// Their number.
    pub number: u8,
}

/// Fields, in the order of the text.
#[derive(Clone, Copy)]
pub struct Pieces {
    /// Their number.
    pub number: u8,
}
