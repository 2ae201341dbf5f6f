//! The steps of forms. A form of nodes is a list of steps over a text and the data of a node.
#![tactic(auto)]

/// What a text should contain where it stops being read.
#[derive(Clone, Copy)]
pub enum Expected {
    /// This letter.
    Letter(u8),
    /// A number up to this one.
    Number(u64),
    /// A number after `0x`.
    Base,
    /// A number from 1 to this one.
    NumberFromOne(u64),
    /// A number up to this one, or the word `DEFAULT`.
    NumberOrDefault(u64),
    /// This many hexadecimal digits.
    Digits(usize),
    /// An EISA ID.
    Id,
    /// A word of a list.
    Word(Words),
    /// At most this many letters.
    Letters(usize),
    /// The name of a node.
    Node,
    /// A form that describes the whole node.
    Untold,
}

/// Where a text stops being read: how much of it is left, and what was expected there.
#[derive(Clone, Copy)]
pub struct Stop {
    /// The length of what is left.
    pub left: usize,
    /// What was expected there.
    pub expected: Expected,
}

/// A list of words, by the field whose numbers they stand for.
#[derive(Clone, Copy)]
pub enum Words {
    /// The parity of a serial port.
    Parity,
    /// The stop bits of a serial port, and the end of the text.
    StopBits,
    /// The digests of the headers and the data of iSCSI, by the low byte of the options.
    Digests,
    /// The login method of iSCSI, by the high byte of the options.
    Login,
    /// The protocol below iSCSI, and the end of the text.
    Protocol,
}

/// How a text encodes the bytes of a field.
#[derive(Clone, Copy)]
pub enum Shape {
    /// A number, its low byte first: `0x`, and hexadecimal digits without leading zeros.
    Hexadecimal,
    /// As `Hexadecimal`, for a number that some programs print without `0x`. People may leave out the `0x`
    /// only before a single decimal digit.
    Marked,
    /// A number, its low byte first, in decimal.
    Decimal,
    /// A number, its low byte first, in decimal, or the word `DEFAULT` for 0.
    OrDefault,
    /// One more than the number of a byte: `0x`, and hexadecimal digits.
    Next,
    /// Two digits for each byte, from the first byte to the last.
    Forth,
    /// Two digits for each byte, from the last byte to the first.
    Back,
    /// `0x`, and two digits for each byte, from the first byte to the last.
    BaseForth,
    /// `0x`, and two digits for each byte, from the last byte to the first. Some programs print the digits
    /// without `0x`, so people may leave it out only if the first two are not decimal.
    BaseBack,
    /// Two digits for each byte, from the first to the last, with this letter between them.
    Apart(u8),
    /// Two digits for each byte, from the last to the first, with dashes between them.
    Dashed,
    /// A GUID, in 16 bytes.
    Guid,
    /// An IPv4 address, in four bytes: four numbers with dots between them.
    Ipv4,
    /// An IPv6 address, in 16 bytes: eight times four digits, with colons between them.
    Ipv6,
    /// An EISA ID, in four bytes.
    Eisa,
    /// A word that stands for a number.
    Word(Words),
}

/// A field of the fixed part of the data.
#[derive(Clone, Copy)]
pub struct Field {
    /// How the text encodes it.
    pub shape: Shape,
    /// The offset of its first byte.
    pub place: usize,
    /// The number of its bytes.
    pub width: usize,
    /// The byte that fills it where people omit it.
    pub spare: Option<u8>,
}

/// How a text encodes the data after the fixed part. A letter is the one that ends the text.
#[derive(Clone, Copy)]
pub enum Encoding {
    /// A comma and two digits for each byte, or nothing if there are no bytes.
    Bytes,
    /// A text of bytes.
    Text(u8),
    /// A text in UTF-16, up to a NUL.
    Utf16(u8),
    /// A text of bytes up to a NUL.
    Name(u8),
    /// A comma, and a text of bytes up to a NUL.
    NameAfterComma(u8),
    /// A text of bytes up to a NUL, in 32 bytes.
    Padded(u8),
    /// A comma, and the ID strings of a device that ACPI names, each up to a NUL. The data contains `_HID`,
    /// `_UID` and `_CID` in this order. The text contains `_CID` before `_UID`.
    Ids(u8),
    /// A comma, and the string of `_UID` in the same data, whose other strings are empty.
    Uid(u8),
}

/// The kinds of lists, by their items.
#[derive(Clone, Copy)]
pub enum Items {
    /// Numbers of four bytes.
    Numbers,
    /// IPv4 addresses, in 16 bytes each.
    Ipv4,
    /// IPv6 addresses.
    Ipv6,
}

/// A step of a form. `T` is a text. It is a parameter because no contract can name a constant whose type
/// has a reference of its own.
#[derive(Clone, Copy)]
pub enum StepOf<T> {
    /// These letters. A comma alone may be left out before the end of a call. A text can begin with the
    /// `)` that ends a call, so a comma before a text belongs to the data.
    Literal(T),
    /// A field of the fixed part.
    Field(Field),
    /// The data after the fixed part.
    Data(Encoding),
    /// The whole items of a list, which are the data after the fixed part.
    Many(Items),
}

/// Data with fields: a form of nodes, or an item of a list. `S` is a list of steps, and `B` a list of
/// bytes.
#[derive(Clone, Copy)]
pub struct LayoutOf<S, B> {
    /// The number of bytes of the fixed part.
    pub size: usize,
    /// Bytes of the fixed part that belong to no field and are not zero, each with its offset and its
    /// value.
    pub bytes: B,
    /// The steps of its text.
    pub steps: S,
}

/// A step, as a table writes it.
pub type Step = StepOf<&'static str>;

/// Data with fields, as a table writes it.
pub type Layout = LayoutOf<&'static [Step], &'static [(usize, u8)]>;

/// Who writes a form, and whether it is read.
#[derive(Clone, Copy)]
pub enum Mode {
    /// The specification. The form is printed, and read back.
    Read,
    /// The specification. The form is printed, and not read back, since its text does not describe the node
    /// completely.
    Printed,
    /// Texts that are only for display. The form is not read back.
    Display,
    /// Libefivar. The form is only read, and only in texts of libefivar.
    Libefivar,
    /// People, and programs whose output people paste. The form is only read.
    People,
}

/// A form of the nodes of one kind. A node is printed in the first form of the table that is printed and
/// fits it. `S` is a list of steps, and `B` a list of bytes.
#[derive(Clone, Copy)]
pub struct FormOf<S, B> {
    /// The type.
    pub kind: u8,
    /// The sub-type.
    pub sub_kind: u8,
    /// Who writes it.
    pub mode: Mode,
    /// The least number of bytes of data after the fixed part.
    pub more: usize,
    /// Bytes of the fixed part that distinguish this form from others of its kind, each with its
    /// offset and its value.
    pub when: B,
    /// The data, and its text.
    pub layout: LayoutOf<S, B>,
}

/// A form, as a table writes it.
pub type Form = FormOf<&'static [Step], &'static [(usize, u8)]>;
