//! How the text of a node encodes the data after the fixed bytes.
#![tactic(auto)]

ghost use Rattle.std.specs.Prelude.{◌≡◌, Some};
ghost use Rattle.uefi_node_reader.specs.DataForms.{coded_tail};

use uefi_device_nodes::node_table::rows::{Items, Tail};

/// How a text encodes data: as a tail of a form, or as an ID string. It has two bytes, one less than an enum
/// that contains a [`Tail`], so that a node and the rest of its text have at most 128 bytes together: more
/// would be moved by `memcpy`.
#[derive(Clone, Copy)]
pub(crate) enum DataForm {
    Nothing,
    Bytes,
    Text,
    Utf16,
    Name,
    Padded,
    Ids,
    Repeated(Items),
    /// As the string of `_UID`; the strings of `_HID` and `_CID` are empty.
    Uid,
}

impl DataForm {
    /// Returns the form of a tail.
    pub(crate) fn of(tail: Tail) -> Self
        ensures { coded_tail result ≡ Some tail }
    {
        match tail {
            Tail::Nothing => DataForm::Nothing,
            Tail::Bytes => DataForm::Bytes,
            Tail::Text => DataForm::Text,
            Tail::Utf16 => DataForm::Utf16,
            Tail::Name => DataForm::Name,
            Tail::Padded => DataForm::Padded,
            Tail::Ids => DataForm::Ids,
            Tail::Repeated(items) => DataForm::Repeated(items),
        }
    }

    /// Returns the tail, or `None` for the string of `_UID`.
    pub(crate) fn tail(self) -> Option<Tail>
        ensures { result ≡ coded_tail self }
    {
        match self {
            DataForm::Nothing => Some(Tail::Nothing),
            DataForm::Bytes => Some(Tail::Bytes),
            DataForm::Text => Some(Tail::Text),
            DataForm::Utf16 => Some(Tail::Utf16),
            DataForm::Name => Some(Tail::Name),
            DataForm::Padded => Some(Tail::Padded),
            DataForm::Ids => Some(Tail::Ids),
            DataForm::Repeated(items) => Some(Tail::Repeated(items)),
            DataForm::Uid => None,
        }
    }
}
