//! The laws of device paths and load options, for proofs of callers. They are about the definitions
//! that other contracts cite. Each law is a function that does nothing: its contract is the law.
ghost use Rattle.uefi_device_path.specs.Laws.{AcceptedWithMore, BegunIsRead, BuiltIsRead, BytesOnce, FaultsWithin, InstancesShown, LibefivarNodeTextsFit, LibefivarShown, LibefivarTextsFit, NamesInARow, NeverBoth, NodeTextsFit, OneName, OnlyFilesCount, OptionsNeverBoth, OptionsOnce, PathTextsFit, PathsAreRead, PathsOnce, PathsShown, PrintedIsRead, PrintedStops, PushedAtRefused, PushedAtWritten, QuotedIsRead, ReadIsPrinted, ReadMeans, ReadTold, RefusalsAreRead, RefusedByHeader, RefusedIsRead, RelativeNamesArePushed, SlashedIsRead, StopIsRead, StopMeans, StopsOnce, TextsNeverBoth, TextsOnce};

use uefi_device_nodes::field_texts::field_laws::fields_are_shown;
pub use uefi_device_nodes::field_texts::field_laws::guid_texts;
use uefi_device_nodes::laws::nodes_are_shown;
pub use uefi_device_nodes::laws::{units_in_bytes, view_of_built};
use uefi_node_reader::node_texts::nodes_are_read;
pub use uefi_node_reader::node_texts::texts_alike;
use uefi_node_reader::styles::{faults_lie_within, styled_nodes_are_read};
use uefi_path::laws::join_components;

/// Bytes and nodes determine one another: bytes begin with at most one path, no two paths have the
/// same bytes, and the bytes of nodes are read as these nodes.
pub fn paths_once()
    ensures read { PathsOnce }
    ensures bytes { BytesOnce }
    ensures built { BuiltIsRead }
{}

/// Bytes that begin with a path do so whatever follows them, and are never refused.
pub fn accepted_paths()
    ensures with_more { AcceptedWithMore }
    ensures never_both { NeverBoth }
{}

/// `path_of_bytes` is the result of reading bytes: the nodes of the path at their start, or the
/// error for which they are refused.
pub fn paths_are_read()
    ensures path { PathsAreRead }
    ensures refusal { RefusalsAreRead }
    ensures begun { BegunIsRead }
    ensures refused { RefusedIsRead }
{}

/// At the end of the path that a buffer begins with, [`push_at_in_buf`](crate::push_at_in_buf) does
/// as [`push_in_buf`](crate::push_in_buf): it rejects the same nodes, and otherwise writes the same
/// path.
pub fn pushed_at_the_end()
    ensures refused { PushedAtRefused }
    ensures written { PushedAtWritten }
{}

/// Bytes that are refused for the contents of a node's header, as `UnknownEnd`, `LengthBelowHeader`
/// or `EndWithData`, are refused for it at the same offset whatever follows this header. The other
/// causes mean that the bytes end too early, so that they may begin a path if more bytes follow.
pub fn refused_by_header()
    ensures { RefusedByHeader }
{}

/// No two load options have the same bytes, and the bytes of a load option are never refused.
pub fn options_once()
    ensures bytes { OptionsOnce }
    ensures never_both { OptionsNeverBoth }
{}

/// Two different lists of nodes have different texts, if the text of each list determines all of
/// its nodes. So [`DevicePathBuf::from_text`](crate::DevicePathBuf) reads a printed text as the
/// nodes from which it was printed.
pub fn texts_once()
    ensures { TextsOnce }
{
    styled_texts();
}

/// A text that determines all of its nodes is never refused as `NoNode`, and any other text is
/// refused at one byte at most.
pub fn stopped_texts()
    ensures once { StopsOnce }
    ensures never_both { TextsNeverBoth }
{
    styled_texts();
}

/// `path_read` is the result of reading a text in a style: the nodes whose text it is, or the fault
/// where it stops being the text of nodes, whose byte is neither before its node nor after the end
/// of the text. The printed text of the nodes that were read determines all of them. A printed text
/// that determines all of its nodes is read as these nodes, exactly and leniently. In the style of
/// printed texts no other text is read, and the fault is where the text stops being printed.
pub fn styled_texts()
    ensures reads { ReadMeans }
    ensures stops_where { StopMeans }
    ensures within { FaultsWithin }
    ensures told { ReadTold }
    ensures printed { PrintedIsRead }
    ensures is_printed { ReadIsPrinted }
    ensures printed_stops { PrintedStops }
    ensures stop_is_read { StopIsRead }
{
    nodes_are_read();
    styled_nodes_are_read();
    faults_lie_within();
}

/// A text in quotation marks, or after a `/` that a node may follow, is read leniently as without
/// them: as the same nodes, or with the same fault, whose offsets grow by the number of bytes before
/// the text.
pub fn pasted_texts()
    ensures quoted { QuotedIsRead }
    ensures slashed { SlashedIsRead }
{
    styled_nodes_are_read();
}

/// A file path consists of the names of the nodes that name files, and of nothing else: a single
/// name is the whole path, names that begin with no separator are pushed one after the other, and
/// the components are the components of the names in a row, if none of these is empty.
pub fn file_paths()
    ensures one { OneName }
    ensures others { OnlyFilesCount }
    ensures relative { RelativeNamesArePushed }
    ensures components { NamesInARow }
{
    join_components();
}

/// No text of a device path or an instance, in libefivar's style too, contains a control character,
/// or a character that changes the direction of a text or ends its line: no character for which
/// [`is_escaped`](crate::is_escaped) holds.
pub fn nothing_is_hidden()
    ensures paths { PathsShown }
    ensures instances { InstancesShown }
    ensures libefivar { LibefivarShown }
{
    fields_are_shown();
    nodes_are_shown();
}

/// The text of a device path or a node has fewer code units than
/// [`TEXT_UNITS_PER_BYTE`](crate::TEXT_UNITS_PER_BYTE) times its bytes, so that a buffer of that
/// many units has room for the text and its NUL. This holds in libefivar's style too, for display
/// alone and with shortcuts.
pub fn text_lengths()
    ensures paths { PathTextsFit }
    ensures libefivar { LibefivarTextsFit }
    ensures nodes { NodeTextsFit }
    ensures libefivar_nodes { LibefivarNodeTextsFit }
{}
