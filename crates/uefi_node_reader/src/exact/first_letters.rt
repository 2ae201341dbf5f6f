//! The first letters of texts and of forms.
#![tactic(auto)]

ghost use Rattle.std.specs.Prelude.{◌≡◌, ◌<◌, IsTrue};
ghost use Rattle.uefi_device_nodes.specs.Table.{group_forms};
ghost use Rattle.uefi_node_reader.specs.FirstLetters.{all_begin_in, begins_in, begins_in_either_case, is_in};

use crate::texts::Text;
use uefi_device_nodes::node_table::packed::FIRST_LETTERS;

/// Returns whether a byte is one of these letters.
fn is_in(letters: u64, byte: u8) -> bool
    ensures { result ≡ is_in letters byte }
{
    (letters >> (byte % 64)) % 2 == 1
}

/// Returns whether a text begins with one of these letters.
pub(crate) fn begins_in<T: Text>(letters: u64, text: T) -> bool
    ensures { result ≡ begins_in letters (T.bytes text) }
{
    match text.split_first() {
        Some((first, _)) => is_in(letters, first),
        None => false,
    }
}

/// Returns whether a text begins with one of these letters, in either case.
pub(crate) fn begins_in_either_case<T: Text>(letters: u64, text: T) -> bool
    ensures { result ≡ begins_in_either_case letters (T.bytes text) }
{
    match text.split_first() {
        Some((first, _)) => {
            is_in(letters, first.to_ascii_uppercase()) || is_in(letters, first.to_ascii_lowercase())
        }
        None => false,
    }
}

/// Returns the letters that the texts of the forms in a group begin with. Most groups have no form that
/// begins with the first letter of a text.
pub(crate) fn first_letters(index: usize) -> u64
    requires { index < 15 }
    ensures { IsTrue (all_begin_in result (group_forms index)) }
{
    FIRST_LETTERS[index]
}
