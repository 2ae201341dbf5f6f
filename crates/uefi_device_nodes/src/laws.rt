//! Laws about the texts of nodes, and about nodes that are built.
#![tactic(auto)]

ghost use Rattle.std.specs.Prelude.{◌≡◌, ◌+◌, drop, length};
ghost use Rattle.uefi_device_nodes.specs.FileNodes.{IsFilePath};
ghost use Rattle.uefi_device_nodes.specs.NodeFields.{HasValues, content_of};
ghost use Rattle.uefi_device_nodes.specs.Nodes.{node_with};
ghost use Rattle.uefi_device_nodes.specs.ShownNodes.{NodesShown};
ghost use Rattle.uefi_device_nodes.specs.TypedNodes.{IsOfKind};
ghost use Rattle.uefi_text.specs.UnitBytes.{unit_bytes, units_of_bytes};
ghost use Rattle.uefi_device_nodes.specs.declared.node_table.layouts.media.file_path.TheConstants as file_path;

use crate::field_texts::field_laws::fields_are_shown;
use crate::fields::Fields;
use crate::node_table::layouts::MEDIA_TYPE;
use crate::node_table::table_laws::table_is_shown;
use crate::typed_node::Kind;

/// No text of a node contains a character for which
/// [`is_escaped`](crate::field_texts::shown_texts::is_escaped) holds.
pub fn nodes_are_shown()
    ensures { NodesShown }
{
    fields_are_shown();
    table_is_shown();
}

/// The view of a built node of any kind contains each of its fields, and the data after them.
pub fn view_of_built<T: Fields>(node: &T)
    ensures of_kind { IsOfKind T.Layout.DEVICE_TYPE T.Layout.SUB_TYPE T.Layout.LEAST
        (node_with T.Layout.DEVICE_TYPE T.Layout.SUB_TYPE
        (content_of T.Layout.LEAST (T.fields node.now) (T.after node.now))) }
    ensures length { length (content_of T.Layout.LEAST (T.fields node.now) (T.after node.now))
        ≡ T.Layout.LEAST + length (T.after node.now) }
    ensures fields { HasValues (content_of T.Layout.LEAST (T.fields node.now) (T.after node.now))
        (T.fields node.now) }
    ensures after { drop T.Layout.LEAST (content_of T.Layout.LEAST (T.fields node.now)
        (T.after node.now)) ≡ T.after node.now }
{
    let _tail = (*node).tail();
}

/// Code units are read back from the bytes that they are written to, and those bytes are whole units. The
/// name of a file and a serial number need this law.
pub fn units_in_bytes(units: &[u16])
    ensures read { units_of_bytes (unit_bytes units.now) ≡ units.now }
    ensures file { IsFilePath (node_with MEDIA_TYPE file_path.SUB_TYPE (unit_bytes units.now)) }
{}
