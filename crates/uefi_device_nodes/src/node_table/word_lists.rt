//! The lists of words that stand for numbers in texts of nodes.

ghost use Rattle.std.specs.Prelude.{◌≡◌, map};
ghost use Rattle.uefi_device_nodes.specs.Parts.{part_of};
ghost use Rattle.uefi_device_nodes.specs.Words.{as_word, suits, word_text, words_of};

use crate::node_table::packed::{WORD_STARTS, WORDS};
use crate::node_table::pools::part;
use crate::node_table::words::{Word, Words};

/// Returns the part number of a list's packed words.
#[tactic(auto, unfolding(crate::specs::Parts::packed_text, crate::specs::Words::words_of))]
fn part_of_list(words: Words) -> u8
    ensures { map as_word (part_of WORDS WORD_STARTS result) ≡ words_of words }
{
    match words {
        Words::Parity => 0,
        Words::StopBits => 1,
        Words::Digests => 2,
        Words::Login => 3,
        Words::Protocol => 4,
    }
}

/// Returns the words of a list.
pub fn words_of(words: Words) -> &'static [Word]
    ensures { map as_word result.now ≡ words_of words }
{
    part(&WORDS, &WORD_STARTS, part_of_list(words))
}

/// Returns whether a word stands for a number.
pub fn suits(word: &Word, number: u64) -> bool
    ensures { result ≡ suits number (as_word word.now) }
{
    word.mask == 0 || number & u64::from(word.mask) == u64::from(word.number)
}

/// Returns the word for a number, or an empty text if no word suits it.
pub(crate) fn word_for(words: &[Word], number: u64) -> &'static str
    ensures { result.now ≡ word_text (map as_word words.now) number }
{
    for word in words {
        if suits(word, number) {
            return word.text.as_str();
        }
    }
    ""
}
