//! One node, read from its text in a style.
#![tactic(auto)]

ghost use Rattle.std.specs.Prelude.{◌≡◌};
ghost use Rattle.uefi_node_reader.specs.ReadViews.{read_or_err};
ghost use Rattle.uefi_node_reader.specs.Libefivar.{libefivar_read};
ghost use Rattle.uefi_node_reader.specs.Styles.{PrintedExactly, StyledAgain, StyledEnds, StyledFaultWithin, StyledStarts, StyledTakes, styled_read};
ghost use Rattle.uefi_node_reader.specs.ReadNodes.{node_from_text};

use crate::errors::faults::{Expected, NodeFault};
use crate::libefivar::{own, own_fault};
use crate::named_files::NameText;
use crate::node_texts::{ended, ended_at, read_lenient_node, read_node};
use crate::read_node::ReadNode;

/// The style of the texts to read.
#[derive(Clone, Copy, Debug, PartialEq, Eq)]
pub enum TextStyle {
    /// Texts exactly as they are printed to be read back.
    Printed,
    /// Texts of the specification, as people write them.
    Lenient,
    /// Texts as libefivar and efibootmgr print them.
    Libefivar,
}

/// Reads the node at the start of a text as libefivar prints it. Returns the rest of the text too, or the
/// fault of the text.
#[tactic(auto, unfolding(crate::specs::Libefivar::libefivar_read))]
fn read_libefivar_node<T: NameText>(is_rooted: bool, text: T) -> Result<(ReadNode<T>, T), NodeFault>
    ensures { read_or_err node_from_text T.bytes result
        ≡ libefivar_read is_rooted (T.bytes text) }
{
    if let Some((node, rest)) = own(text) {
        return ended_at(text, (ReadNode::Tidied(node), rest));
    }
    if let Some(fault) = own_fault(text) {
        return Err(fault);
    }
    read_lenient_node(is_rooted, text)
}

/// Reads the node at the start of a text in a style, and returns the rest of the text too. The rest is
/// empty, or begins with a slash or a comma. If `is_rooted`, the name of a file has to begin with a
/// backslash. Does not allocate.
///
/// An error gives the offset of the wrong byte, and what is expected there.
#[tactic(auto, unfolding(crate::specs::Styles::styled_read))]
pub fn read_styled_node<T: NameText>(
    style: TextStyle,
    is_rooted: bool,
    text: T,
) -> Result<(ReadNode<T>, T), NodeFault>
    ensures { read_or_err node_from_text T.bytes result
        ≡ styled_read style is_rooted (T.bytes text) }
{
    match style {
        TextStyle::Printed => ended(read_node(text)).ok_or(NodeFault {
            byte: 0,
            expected: Expected::AsPrinted,
        }),
        TextStyle::Lenient => read_lenient_node(is_rooted, text),
        TextStyle::Libefivar => read_libefivar_node(is_rooted, text),
    }
}

/// A node that is read is completely described by its text. The rest is shorter than the text, and is empty
/// or begins with a slash or a comma. The text itself is not empty, and begins with neither. A node that is
/// read exactly before such a rest is read as the same node in the styles `Printed` and `Lenient`.
pub fn styled_nodes_are_read()
    ensures takes { StyledTakes }
    ensures ends { StyledEnds }
    ensures starts { StyledStarts }
    ensures again { StyledAgain }
    ensures exactly { PrintedExactly }
{}

/// The offset of the wrong byte is at most the length of the text.
pub fn faults_lie_within()
    ensures { StyledFaultWithin }
{}
