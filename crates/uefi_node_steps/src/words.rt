//! Words that stand for numbers in texts of nodes (UEFI Specification 2.10, section 10.6.1), and in EDK
//! II's texts.
#![tactic(auto)]

ghost use Rattle.std.specs.Prelude.{◌≡◌, map};
ghost use Rattle.uefi_node_steps.specs.Steps.{word_by, words_of};

use crate::steps::Words;

/// A word of a list. The word for a number is the first that suits it. `T` is a text.
#[derive(Clone, Copy)]
pub struct WordOf<T> {
    /// The bits of a number that count. A word without such bits suits every number.
    pub mask: u64,
    /// The value of these bits, and the number that the word is read as.
    pub number: u64,
    /// The word.
    pub letters: T,
}

/// A word, as the table writes it.
pub type Word = WordOf<&'static str>;

/// Makes a word.
macro_rules! word {
    ($mask:literal $number:literal $letters:literal) => {
        WordOf { mask: $mask, number: $number, letters: $letters }
    };
}

/// The words of [`Words::Parity`].
pub const PARITY: &[Word] = &[
    word!(0xff 0 "D,"),
    word!(0xff 1 "N,"),
    word!(0xff 2 "E,"),
    word!(0xff 3 "O,"),
    word!(0xff 4 "M,"),
    word!(0xff 5 "S,"),
    word!(0 0xff "x,"),
];

/// The words of [`Words::StopBits`].
pub const STOP_BITS: &[Word] = &[
    word!(0xff 0 "D)"),
    word!(0xff 1 "1)"),
    word!(0xff 2 "1.5)"),
    word!(0xff 3 "2)"),
    word!(0 0xff "x)"),
];

/// The words of [`Words::Digests`].
pub const DIGESTS: &[Word] = &[
    word!(0x0a 0x0a "CRC32C,CRC32C,"),
    word!(0x0a 0x02 "CRC32C,None,"),
    word!(0x0a 0x08 "None,CRC32C,"),
    word!(0 0 "None,None,"),
];

/// The words of [`Words::Login`].
pub const LOGIN: &[Word] = &[
    word!(0x08 0x08 "None,"),
    word!(0x10 0x10 "CHAP_UNI,"),
    word!(0 0 "CHAP_BI,"),
];

/// The words of [`Words::Protocol`].
pub const PROTOCOL: &[Word] = &[word!(0xffff 0 "TCP)"), word!(0 1 "reserved)")];

/// Returns the words of a list.
pub fn words_of(words: Words) -> &'static [Word]
    ensures { map (word_by (λ l. l.now)) result.now ≡ words_of words }
{
    match words {
        Words::Parity => PARITY,
        Words::StopBits => STOP_BITS,
        Words::Digests => DIGESTS,
        Words::Login => LOGIN,
        Words::Protocol => PROTOCOL,
    }
}
