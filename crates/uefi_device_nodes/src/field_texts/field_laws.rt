//! Laws about the texts of fields.

ghost use Rattle.uefi_device_nodes.specs.Guids.{GuidsOnce, GuidsRead, GuidsShown};
ghost use Rattle.uefi_device_nodes.specs.ShownFields.{AsciiShown, BytesShown, JoinedShown, NamesShown, NumbersShown, UnitsShown};

/// No text of a field contains a character for which
/// [`is_escaped`](crate::field_texts::shown_texts::is_escaped) holds.
pub fn fields_are_shown()
    ensures joined { JoinedShown }
    ensures ascii { AsciiShown }
    ensures numbers { NumbersShown }
    ensures bytes { BytesShown }
    ensures names { NamesShown }
    ensures units { UnitsShown }
{}

/// GUIDs and their texts determine each other: [`Guid::try_parse`](crate::field_texts::guid::Guid::try_parse)
/// reads the text that [`Guid`](crate::field_texts::guid::Guid) prints as the same GUID.
pub fn guid_texts()
    ensures read { GuidsRead }
    ensures once { GuidsOnce }
    ensures shown { GuidsShown }
{}
