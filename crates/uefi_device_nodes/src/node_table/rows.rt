//! The rows of the table. A row is a form of nodes, with the offsets of its fields.

use crate::node_table::parts::{Bytes, Pieces, Text};
use crate::node_table::words::Words;

/// How a text encodes the bytes of a field.
#[derive(Clone, Copy)]
pub enum Shape {
    /// A number, its low byte first, in hexadecimal without leading zeros.
    Hexadecimal,
    /// A number, its low byte first, in decimal.
    Decimal,
    /// A number, its low byte first, in decimal, or the word `DEFAULT` for 0.
    OrDefault,
    /// Two digits for each byte, from the last byte to the first.
    Back,
    /// Two digits for each byte, from the first byte to the last.
    Forth,
    /// Two digits for each byte, from the last to the first, with dashes between them.
    Dashed,
    /// One more than the number of a byte, in hexadecimal: 1 for the byte 0.
    Next,
    /// An EISA ID, in four bytes.
    Eisa,
    /// A word that stands for a number.
    Word(Words),
}

/// The bytes of a number that people omit.
#[derive(Clone, Copy)]
pub enum Spare {
    /// Zeros.
    Zeros,
    /// Bytes of 0xff.
    Ones,
}

/// A field in the order of the text. `N` is a number, and `T` a text. They are parameters because no
/// contract can name a constant whose type has a reference of its own.
#[derive(Clone, Copy)]
pub struct PieceOf<N, T> {
    /// How the text encodes it.
    pub shape: Shape,
    /// The offset of its first byte in the data.
    pub place: N,
    /// The number of its bytes.
    pub width: N,
    /// The text after it.
    pub ending: T,
    /// Its bytes, if it is a number that people omit.
    pub spare: Spare,
}

/// The data after the fixed bytes.
#[derive(Clone, Copy)]
pub enum Tail {
    /// Nothing that is printed.
    Nothing,
    /// A comma and then bytes, two digits each, or nothing if there are no bytes.
    Bytes,
    /// A text of bytes.
    Text,
    /// A text in UTF-16, up to a NUL.
    Utf16,
    /// A text of bytes up to a NUL.
    Name,
    /// A text of bytes up to a NUL, in 32 bytes.
    Padded,
    /// The ID strings of a device that ACPI names, each up to a NUL. The data contains `_HID`, `_UID` and
    /// `_CID` in this order; the text contains `_CID` before `_UID`.
    Ids,
    /// The whole items of a list.
    Repeated(Items),
}

/// The kinds of lists, by their items.
#[derive(Clone, Copy)]
pub enum Items {
    /// Numbers of four bytes.
    Numbers,
    /// IPv4 addresses, in 16 bytes each.
    Ipv4,
    /// IPv6 addresses.
    Ipv6,
}

/// An item of a list.
#[derive(Clone, Copy)]
pub struct ItemOf<T, P> {
    /// The number of its bytes.
    pub size: usize,
    /// The start of its text.
    pub start: T,
    /// Its fields, in the order of the text.
    pub pieces: P,
}

/// Who writes a form, and whether it is read.
#[derive(Clone, Copy)]
pub enum Mode {
    /// The specification. The form is printed, and read back.
    Read,
    /// The specification. The form is printed, and not read back, since its text does not describe the node
    /// completely.
    Printed,
    /// Texts that are only for display. The form is not read back.
    Display,
    /// Libefivar. The form is only read, and exactly as it is written.
    Libefivar,
    /// People, and programs whose output people paste. The form is only read.
    People,
}

/// A form of the nodes of one kind. A node is printed in the first form of the table that is printed and fits
/// it.
#[derive(Clone, Copy)]
pub struct RowOf<N, T, B, P> {
    /// The type.
    pub kind: u8,
    /// The sub-type.
    pub sub_kind: u8,
    /// Who writes it.
    pub mode: Mode,
    /// The number of bytes of the fixed part of the data.
    pub least: N,
    /// The least number of bytes of data after the fixed part.
    pub more: N,
    /// Bytes of the fixed part that distinguish this form from others of its kind, each with its offset and
    /// its value.
    pub when: B,
    /// Other bytes of the fixed part that belong to no field, and that are not zero in a node that is read.
    pub also: B,
    /// The start of the text.
    pub start: T,
    /// The fields, in the order of the text.
    pub pieces: P,
    /// The data after the fixed part.
    pub tail: Tail,
    /// The text after that data.
    pub close: T,
    /// Further fields at the end of the text.
    pub rest: P,
}

/// A field, packed.
pub type Piece = PieceOf<u8, Text>;

/// An item of a list, packed.
pub type Item = ItemOf<Text, Pieces>;

/// A form, packed.
pub type Row = RowOf<u8, Text, Bytes, Pieces>;

/// A field, as the source of the table writes it.
pub type WrittenPiece = PieceOf<usize, &'static str>;

/// An item of a list, as the source of the table writes it.
pub type WrittenItem = ItemOf<&'static str, &'static [WrittenPiece]>;

/// A form, as the source of the table writes it.
pub type WrittenRow = RowOf<usize, &'static str, &'static [(usize, u8)], &'static [WrittenPiece]>;
