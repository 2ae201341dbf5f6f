//! The kinds of components: `.`, `..`, or a name. `specs/NormalForms.antt` defines them.
ghost use Rattle.std.specs.Prelude.{◌≡◌};
ghost use Rattle.uefi_path.specs.NormalForms.{kind};
ghost use Rattle.uefi_text.specs.Views.{units_of};

use uefi_text::strings::strs::Char16Slice;

/// The kind of a component.
#[derive(Clone, Copy)]
pub(crate) enum Kind {
    /// `.`, which stays in the same folder.
    Dot,

    /// `..`, which goes up.
    DotDot,

    /// Any other component: a name, which goes down.
    Name,
}

/// Returns the kind of a component.
#[inline(always)]
pub(crate) fn kind_of(component: Char16Slice<'_>) -> Kind
    ensures { result ≡ kind (units_of component.entry) }
{
    match component.units() {
        [46] => Kind::Dot,
        [46, 46] => Kind::DotDot,
        _ => Kind::Name,
    }
}
