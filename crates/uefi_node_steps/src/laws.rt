//! Laws of tables of forms.
#![tactic(auto)]

ghost use Rattle.uefi_node_steps.specs.Lengths.{NodeTextsAreBounded, TextsAreBounded};
ghost use Rattle.uefi_node_steps.specs.NodeForms.{NodesRead, NodesTell};
ghost use Rattle.uefi_node_steps.specs.Nodes.{TablesRead};

/// If all forms of a table that are read are sound, and none reads what a later one prints, then
/// the table reads back what it prints, whatever follows; an exact text is the text that is printed
/// for its node; and a text as people write it is read as a node that its printed text describes
/// completely.
pub fn tables_are_read()
    ensures { TablesRead }
{}

/// If each form of a table prints few letters for its size, the text of a node has less than four letters
/// for each of its bytes, those of its header included.
pub fn texts_are_bounded()
    ensures { TextsAreBounded }
{}

/// The forms of the [table](crate::table) are such a table.
pub fn nodes_are_read()
    ensures { NodesRead }
{}

/// The text of a node in the [table](crate::table) has less than four letters for each byte of the node.
pub fn node_texts_are_bounded()
    ensures { NodeTextsAreBounded }
{}

/// Code can read nodes of the [table](crate::table) from texts as people write them, and compare such a
/// text with the text that is printed for its node.
pub fn nodes_tell()
    ensures { NodesTell }
{}
