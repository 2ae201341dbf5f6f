//! Words that stand for numbers in the texts of nodes (UEFI Specification 2.10, section 10.6.1),
//! and in EDK II's texts. `specs/Words.antt` defines what a list means.

use crate::node_table::parts::Text;

/// A list of words, by the field whose numbers they stand for.
#[derive(Clone, Copy)]
pub enum Words {
    /// The parity of a serial port.
    Parity,
    /// The stop bits of a serial port, and the end of the text.
    StopBits,
    /// The digests of the headers and the data of iSCSI, by the low byte of the options.
    Digests,
    /// The login method of iSCSI, by the high byte of the options.
    Login,
    /// The protocol below iSCSI, and the end of the text.
    Protocol,
}

/// A word of a list. The word for a number is the first that suits it. `N` is a number, and `T` a
/// text.
#[derive(Clone, Copy)]
pub struct WordOf<N, T> {
    /// The bits of a number that count. A word without such bits suits every number.
    pub mask: N,
    /// The value of these bits, and the number that the word is read as.
    pub number: N,
    /// The word.
    pub text: T,
}

/// A word, packed.
pub type Word = WordOf<u16, Text>;

/// A word, as the source of the table writes it.
type WrittenWord = WordOf<u64, &'static str>;

/// Makes a word.
macro_rules! word {
    ($mask:literal $number:literal $text:literal) => {
        WordOf { mask: $mask, number: $number, text: $text }
    };
}

/// The words of [`Words::Parity`].
const PARITY: &[WrittenWord] = &[
    word!(0xff 0 "D,"),
    word!(0xff 1 "N,"),
    word!(0xff 2 "E,"),
    word!(0xff 3 "O,"),
    word!(0xff 4 "M,"),
    word!(0xff 5 "S,"),
    word!(0 0xff "x,"),
];

/// The words of [`Words::StopBits`].
const STOP_BITS: &[WrittenWord] = &[
    word!(0xff 0 "D)"),
    word!(0xff 1 "1)"),
    word!(0xff 2 "1.5)"),
    word!(0xff 3 "2)"),
    word!(0 0xff "x)"),
];

/// The words of [`Words::Digests`].
const DIGESTS: &[WrittenWord] = &[
    word!(0x0a 0x0a "CRC32C,CRC32C,"),
    word!(0x0a 0x02 "CRC32C,None,"),
    word!(0x0a 0x08 "None,CRC32C,"),
    word!(0 0 "None,None,"),
];

/// The words of [`Words::Login`].
const LOGIN: &[WrittenWord] = &[
    word!(0x08 0x08 "None,"),
    word!(0x10 0x10 "CHAP_UNI,"),
    word!(0 0 "CHAP_BI,"),
];

/// The words of [`Words::Protocol`].
const PROTOCOL: &[WrittenWord] = &[word!(0xffff 0 "TCP)"), word!(0 1 "reserved)")];
