//! Laws about the texts that the table prints.

ghost use Rattle.uefi_device_nodes.specs.ShownTable.{TableShown};

use crate::field_texts::field_laws::fields_are_shown;

/// No text of the table contains a character that texts escape.
pub fn table_is_shown()
    ensures { TableShown }
{
    fields_are_shown();
}
