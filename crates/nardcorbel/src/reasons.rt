//! The status codes of calls: `nard_status` of the header has the same numbers.
ghost use Rattle.std.specs.Prelude.{◌≡◌, Some};
ghost use Rattle.nardcorbel.specs.Reasons.{fat_name_reason, name_reason, node_reason, option_reason, order_number, path_reason, refused_character, refused_fat_character, with_nul_reason};

use std::cmp::Ordering;
use uefi_device_path::{FilePathCause, LoadOptionCause, NodeError};
use uefi_fat::FatNameError;
use uefi_path::PathError;
use uefi_text::FromSliceWithNulError;

/// The call succeeded.
pub const OK: u32 = 0;

/// No unit is a NUL.
pub const NO_NUL: u32 = 1;

/// A unit is a surrogate, or a character is above U+FFFF.
pub const INVALID_CHAR: u32 = 2;

/// The NUL is not the last unit.
pub const INTERIOR_NUL: u32 = 3;

/// The buffer has too few places.
pub const BUFFER_TOO_SMALL: u32 = 4;

/// The bytes are not UTF-8.
pub const NOT_UTF8: u32 = 5;

/// The number of bytes is odd.
pub const ODD_BYTES: u32 = 6;

/// The path is empty.
pub const PATH_EMPTY: u32 = 7;

/// A component of the path is empty.
pub const EMPTY_COMPONENT: u32 = 8;

/// A component contains a character that file names must not contain.
pub const ILLEGAL_CHAR: u32 = 9;

/// A component `..` that no name before it is left to cancel.
pub const CLIMBS_ABOVE_ROOT: u32 = 10;

/// The path has at most one component, and so no parent.
pub const NO_PARENT: u32 = 11;

/// The bytes end where a node must begin: device path has no end node.
pub const NO_END_NODE: u32 = 12;

/// The bytes end within the header of a node.
pub const TRUNCATED_HEADER: u32 = 13;

/// A node of type End has a sub-type that ends neither a path nor an instance.
pub const UNKNOWN_END: u32 = 14;

/// The header of a node states a length below its own.
pub const LENGTH_BELOW_HEADER: u32 = 15;

/// A node of type End states a length above its header's.
pub const END_WITH_DATA: u32 = 16;

/// A node states a length beyond the end of the bytes.
pub const NODE_BEYOND_END: u32 = 17;

/// The bytes end before the description of a load option.
pub const OPTION_TOO_SHORT: u32 = 18;

/// No NUL ends the description of a load option.
pub const DESCRIPTION_WITHOUT_END: u32 = 19;

/// The file path list of a load option goes beyond the end of the bytes.
pub const LIST_BEYOND_END: u32 = 20;

/// The file path list of a load option has no bytes.
pub const EMPTY_LIST: u32 = 21;

/// The style of a text is none of those of [`crate::text_styles`].
pub const UNKNOWN_STYLE: u32 = 22;

/// Nothing is left of a name without the spaces and dots around it.
pub const NAME_EMPTY: u32 = 23;

/// A name has more than 255 units.
pub const NAME_TOO_LONG: u32 = 24;

/// A node of type End that does not end an instance must not be before the end of a device path.
pub const NODE_OF_END: u32 = 26;

/// A node has more data than its header can state.
pub const NODE_TOO_LONG: u32 = 27;

/// A file path list is longer than the header of a load option can state.
pub const LIST_TOO_LONG: u32 = 28;

/// No load option has this name, or this kind.
pub const NOT_A_NAME: u32 = 29;

/// A node of a device path must begin at this place of a text, and none does.
pub const NO_NODE: u32 = 31;

/// The data of a node has no number of this width at this place.
pub const NO_FIELD: u32 = 32;

// The numbers 25, 30 and 33 are not used again: they were other errors in earlier versions.

/// Success: there are no more items.
pub const END: u32 = 256;

/// Success: a unit was replaced by `_`, because short names cannot contain it.
pub const CHAR_REPLACED: u32 = 257;

/// Returns the version of the library: its three numbers, one byte each, the first one highest.
#[unsafe(no_mangle)]
pub extern "C" fn nard_version() -> u32
    ensures { result ≡ 0x000800 }
{
    0x00_08_00
}

/// Returns [`nard_version`]. Its name is that of the interface, to which each object with the header
/// refers: an object for another interface does not link.
#[unsafe(no_mangle)]
pub extern "C" fn nard_interface_0_8() -> u32
    ensures { result ≡ 0x000800 }
{
    nard_version()
}

/// Does nothing. Its clauses state the numbers that `include/nardcorbel.h` gives the status codes.
#[doc(hidden)]
pub fn numbers()
    ensures ok { OK ≡ 0 }
    ensures no_nul { NO_NUL ≡ 1 }
    ensures invalid_char { INVALID_CHAR ≡ 2 }
    ensures interior_nul { INTERIOR_NUL ≡ 3 }
    ensures buffer_too_small { BUFFER_TOO_SMALL ≡ 4 }
    ensures not_utf8 { NOT_UTF8 ≡ 5 }
    ensures odd_bytes { ODD_BYTES ≡ 6 }
    ensures path_empty { PATH_EMPTY ≡ 7 }
    ensures empty_component { EMPTY_COMPONENT ≡ 8 }
    ensures illegal_char { ILLEGAL_CHAR ≡ 9 }
    ensures climbs { CLIMBS_ABOVE_ROOT ≡ 10 }
    ensures no_parent { NO_PARENT ≡ 11 }
    ensures no_end_node { NO_END_NODE ≡ 12 }
    ensures truncated_header { TRUNCATED_HEADER ≡ 13 }
    ensures unknown_end { UNKNOWN_END ≡ 14 }
    ensures length_below_header { LENGTH_BELOW_HEADER ≡ 15 }
    ensures end_with_data { END_WITH_DATA ≡ 16 }
    ensures node_beyond_end { NODE_BEYOND_END ≡ 17 }
    ensures option_too_short { OPTION_TOO_SHORT ≡ 18 }
    ensures description_without_end { DESCRIPTION_WITHOUT_END ≡ 19 }
    ensures list_beyond_end { LIST_BEYOND_END ≡ 20 }
    ensures empty_list { EMPTY_LIST ≡ 21 }
    ensures unknown_style { UNKNOWN_STYLE ≡ 22 }
    ensures name_empty { NAME_EMPTY ≡ 23 }
    ensures name_too_long { NAME_TOO_LONG ≡ 24 }
    ensures node_of_end { NODE_OF_END ≡ 26 }
    ensures node_too_long { NODE_TOO_LONG ≡ 27 }
    ensures list_too_long { LIST_TOO_LONG ≡ 28 }
    ensures not_a_name { NOT_A_NAME ≡ 29 }
    ensures no_node { NO_NODE ≡ 31 }
    ensures no_field { NO_FIELD ≡ 32 }
    ensures end { END ≡ 256 }
    ensures char_replaced { CHAR_REPLACED ≡ 257 }
{}

/// Returns the reason why units are not a string.
pub(crate) fn with_nul_reason(error: FromSliceWithNulError) -> u32
    ensures { result ≡ with_nul_reason error }
{
    match error {
        FromSliceWithNulError::InvalidChar(_) => INVALID_CHAR,
        FromSliceWithNulError::InteriorNul(_) => INTERIOR_NUL,
        FromSliceWithNulError::NotNulTerminated
        | FromSliceWithNulError::NotAligned
        | FromSliceWithNulError::OutOfMemory => NO_NUL,
    }
}

/// The reason why a path is refused, and the character for which it is, or 0.
pub(crate) fn path_reason(error: PathError) -> (u32, u16)
    ensures reason { result.0 ≡ path_reason error }
    ensures character { result.1 ≡ refused_character (Some error) }
{
    match error {
        PathError::Empty => (PATH_EMPTY, 0),
        PathError::EmptyComponent => (EMPTY_COMPONENT, 0),
        PathError::IllegalChar(character) => (ILLEGAL_CHAR, u16::from(character)),
        PathError::ClimbsAboveRoot => (CLIMBS_ABOVE_ROOT, 0),
    }
}

/// The reason why a name is refused, and the character for which it is, or 0.
pub(crate) fn fat_name_reason(error: FatNameError) -> (u32, u16)
    ensures reason { result.0 ≡ fat_name_reason error }
    ensures character { result.1 ≡ refused_fat_character (Some error) }
{
    match error {
        FatNameError::Empty => (NAME_EMPTY, 0),
        FatNameError::TooLong => (NAME_TOO_LONG, 0),
        FatNameError::IllegalChar(character) => (ILLEGAL_CHAR, u16::from(character)),
    }
}

/// Returns the reason why there is no node of a device path at an offset.
pub(crate) fn node_reason(error: NodeError) -> u32
    ensures { result ≡ node_reason error }
{
    match error {
        NodeError::Missing => NO_END_NODE,
        NodeError::TruncatedHeader => TRUNCATED_HEADER,
        NodeError::UnknownEnd => UNKNOWN_END,
        NodeError::LengthBelowHeader => LENGTH_BELOW_HEADER,
        NodeError::EndWithData => END_WITH_DATA,
        NodeError::BeyondEnd => NODE_BEYOND_END,
    }
}

/// Returns the reason why bytes are not a load option.
pub(crate) fn option_reason(cause: LoadOptionCause) -> u32
    ensures { result ≡ option_reason cause }
{
    match cause {
        LoadOptionCause::TooShort => OPTION_TOO_SHORT,
        LoadOptionCause::DescriptionWithoutEnd => DESCRIPTION_WITHOUT_END,
        LoadOptionCause::ListBeyondEnd => LIST_BEYOND_END,
        LoadOptionCause::EmptyList => EMPTY_LIST,
        LoadOptionCause::FilePathList(error) => node_reason(error),
    }
}

/// The reason why a node that names a file has no name.
pub(crate) fn name_reason(cause: FilePathCause) -> u32
    ensures { result ≡ name_reason cause }
{
    match cause {
        FilePathCause::HalfUnit | FilePathCause::OutOfMemory => ODD_BYTES,
        FilePathCause::Text(error) => with_nul_reason(error),
    }
}

/// The number of an order: negative, zero or positive.
pub(crate) fn order_number(order: Ordering) -> i32
    ensures { result ≡ order_number order }
{
    match order {
        Ordering::Less => -1,
        Ordering::Equal => 0,
        Ordering::Greater => 1,
    }
}
