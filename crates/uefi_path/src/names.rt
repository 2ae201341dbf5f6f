//! The names of a normal path, found from the last component backwards. A `..` there says how many
//! names before it are cancelled, so that no name has to be saved on the way. No call allocates.
#![tactic(auto, using(crate::proofs::Rules::kept_names_rules))]

ghost use Rattle.std.specs.Prelude.{◌≡◌, ◌+◌, ◌<◌, ◌≤◌, ◌^◌, ◌++◌, ◌∷◌, [], All, IsNone, List, None, ℕ, if◌then◌else◌, length, option_map};
ghost use Rattle.std.specs.Option.{option_to_list};
ghost use Rattle.uefi_path.specs.Components.{components_of, joined};
ghost use Rattle.uefi_path.specs.NamesLeft.{IsWalk, names_before, names_left};
ghost use Rattle.uefi_path.specs.NormalForms.{normal_of};
ghost use Rattle.uefi_path.specs.Separators.{with_separators};
ghost use Rattle.uefi_path.specs.Verdicts.{IsGood, verdict};
ghost use Rattle.uefi_path.specs.Views.{path_text};
ghost use Rattle.uefi_text.specs.Units.{IsText};
ghost use Rattle.uefi_text.specs.Views.{units_of};

use crate::path::Path;
use crate::splitting::component_kinds::{Kind, kind_of};
use crate::splitting::slashed::{cut_last, to_cut};
use uefi_text::strings::strs::Char16Slice;

/// The names of a normal path that remain, from the last one backwards. In contracts they are
/// `names_left` of it.
#[derive(Clone, Copy)]
pub(crate) struct NamesFromLast<'a> {
    /// The text that is left to cut, from its end; `None` before the first component.
    rest: Option<Char16Slice<'a>>,

    /// The number of names before it that are cancelled: the `..` that were cut and have cancelled
    /// none yet.
    climbs: usize,
}

impl<'a> NamesFromLast<'a> {
    /// Returns the names of a path that is valid once its slashes are separators.
    pub(crate) fn of(path: Path<'a>) -> NamesFromLast<'a>
        requires { verdict (with_separators (path_text path)) ≡ None }
        ensures names { names_left result
            ≡ normal_of (components_of (with_separators (path_text path.entry))) }
        ensures walk { IsWalk result }
        ensures good { All IsGood (names_left result) }
        ensures texts { All IsText (names_left result) }
        ensures bound { length (joined (names_left result)) + 1 < 2 ^ 64 }
    {
        // A clause of this call says how long the path can be.
        let _text = path.to_cstr16().as_slice();
        NamesFromLast {
            rest: to_cut(path),
            climbs: 0,
        }
    }

    /// Returns whether the piece that was cut stays: whether it is a name that no `..` cancels.
    fn keeps(&mut self, piece: Char16Slice<'_>) -> bool
        requires { self.now.climbs + 1 < 2 ^ 64 }
        ensures kept { (pieces : List (List ℕ)) →
            names_before (pieces ++ units_of piece.entry ∷ []) self.old.climbs
            ≡ names_before pieces self.new.climbs ++ (if result then units_of piece.entry ∷ [] else []) }
        ensures climbs { self.new.climbs ≤ self.old.climbs + length (units_of piece.entry) }
        ensures rest { self.new.rest ≡ self.old.rest }
    {
        match kind_of(piece) {
            Kind::Dot => false,
            Kind::DotDot => {
                self.climbs += 1;
                false
            }
            Kind::Name => {
                if self.climbs == 0 {
                    return true;
                }
                self.climbs -= 1;
                false
            }
        }
    }

    /// The last name that is left.
    pub(crate) fn next(&mut self) -> Option<Char16Slice<'a>>
        requires { IsWalk self.now }
        ensures next { names_left self.old
            ≡ names_left self.new ++ option_to_list (option_map units_of result) }
        ensures end { IsNone result → names_left self.new ≡ [] }
        ensures walk { IsWalk self.new }
    {
        while let Some(text) = self.rest {
            let (before, last) = cut_last(text);
            self.rest = before;
            if self.keeps(last) {
                return Some(last);
            }
        }
        None
    }
}
