//! The styles of device path texts, as C names them.
ghost use Rattle.std.specs.Prelude.{◌≡◌};
ghost use Rattle.nardcorbel.specs.TextStyles.{printed_form, style_of};

use uefi_device_path::TextStyle;

/// Texts as the UEFI Specification defines them, read exactly as they are printed.
pub const SPECIFICATION: u32 = 0;

/// Texts as people type them.
pub const TYPED: u32 = 1;

/// Texts as libefivar and efibootmgr print them.
pub const LIBEFIVAR: u32 = 2;

/// Added to [`SPECIFICATION`]: shorter forms that cannot be read back.
pub const DISPLAY_ONLY: u32 = 16;

/// Added to [`SPECIFICATION`]: short names such as `VenPcAnsi()`.
pub const ALLOW_SHORTCUTS: u32 = 32;

/// Does nothing. Its clauses state the numbers that `include/nardcorbel.h` gives the styles.
#[doc(hidden)]
pub fn styles()
    ensures specification { SPECIFICATION ≡ 0 }
    ensures typed { TYPED ≡ 1 }
    ensures libefivar { LIBEFIVAR ≡ 2 }
    ensures display_only { DISPLAY_ONLY ≡ 16 }
    ensures allow_shortcuts { ALLOW_SHORTCUTS ≡ 32 }
{}

/// A form in which device paths are printed.
#[derive(Clone, Copy)]
pub(crate) enum Form {
    /// As the UEFI Specification defines it: whether for display only, and whether with short names.
    Specified(bool, bool),

    /// As libefivar prints it.
    Libefivar,
}

/// Returns the form for a style.
pub(crate) fn printed_form(style: u32) -> Option<Form>
    ensures { result ≡ printed_form style }
{
    match style {
        0 => Some(Form::Specified(false, false)),
        16 => Some(Form::Specified(true, false)),
        32 => Some(Form::Specified(false, true)),
        48 => Some(Form::Specified(true, true)),
        2 => Some(Form::Libefivar),
        _ => None,
    }
}

/// Returns how a text of a style is read.
pub(crate) fn style_of(style: u32) -> Option<TextStyle>
    ensures { result ≡ style_of style }
{
    match style {
        0 => Some(TextStyle::Printed),
        1 => Some(TextStyle::Lenient),
        2 => Some(TextStyle::Libefivar),
        _ => None,
    }
}
