//! The beginnings of a path: the path itself, and then each shorter one. No call allocates.
#![tactic(auto, unfolding(crate::specs::Ancestors::ancestors_left))]

ghost use Rattle.std.specs.Prelude.{◌≡◌, All};
ghost use Rattle.uefi_path.specs.Ancestors.{ancestors_left, beginnings};
ghost use Rattle.uefi_path.specs.Components.{components_of};
ghost use Rattle.uefi_path.specs.Views.{path_text};
ghost use Rattle.uefi_text.specs.Units.{IsText};
ghost use Rattle.uefi_text.specs.Runs.{GivesEach};
ghost use Rattle.uefi_text.specs.Views.{units_of};
ghost use Rattle.std.specs.Iterator.{YieldsFirstBy, item_count};

use crate::path::Path;
use crate::splitting::separators::cut_last;
use uefi_text::strings::strs::Char16Slice;

/// An iterator over the beginnings of a path, the longest first. A contract sees it as
/// `ancestors_left` of it: the beginnings that remain.
#[derive(Clone, Copy)]
pub struct Ancestors<'a> {
    /// The next beginning; `None` after the first component alone.
    rest: Option<Char16Slice<'a>>,
}

impl<'a> Path<'a> {
    /// Returns an iterator over the beginnings: the canonical text of the path, then the same text
    /// without its last component, and so on down to the first component alone. A path without
    /// components has no beginnings. The beginnings after the first are the successive parents of a
    /// valid path.
    ///
    /// ```rust
    /// let text = CString16::try_from_str(rt.alloc(), r"\efi\boot\a.efi")?;
    /// let mut ancestors = Path::new(text.as_cstr16()).ancestors();
    /// assert_eq!(rt; ancestors.next(), Some(text.as_cstr16().as_slice().part(1, 15)));
    /// assert_eq!(rt; ancestors.next(), Some(text.as_cstr16().as_slice().part(1, 9)));
    /// assert_eq!(rt; ancestors.next(), Some(text.as_cstr16().as_slice().part(1, 4)));
    /// assert_eq!(rt; ancestors.next(), None);
    /// ```
    pub fn ancestors(&self) -> Ancestors<'a>
        ensures same { ancestors_left result ≡ beginnings (components_of (path_text self.now)) }
        ensures texts { All IsText (ancestors_left result) }
        ensures runs { GivesEach units_of ancestors_left result }
    {
        let text = self.canonical();
        if text.is_empty() {
            return Ancestors { rest: None };
        }
        Ancestors { rest: Some(text) }
    }
}

/// Gives the beginnings, the longest first, and then always `None`.
impl<'a> Iterator for Ancestors<'a> {
    type Item = Char16Slice<'a>;

    ghost next_gives = { YieldsFirstBy units_of ancestors_left };

    ghost remaining = { item_count ancestors_left };

    fn next(&mut self) -> Option<Char16Slice<'a>> {
        let text = self.rest?;
        let (before, _) = cut_last(text);
        self.rest = before;
        Some(text)
    }
}
