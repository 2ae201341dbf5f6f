//! The components of a path, each with the index at which it begins in the text.
#![tactic(auto, using(crate::proofs::Rules::indices_rules), unfolding(crate::specs::ComponentIndices::indices_left))]

ghost use Rattle.std.specs.Prelude.{◌≡◌, ◌≢◌, ◌+◌, ◌<◌, ◌^◌, [], All, length, map};
ghost use Rattle.uefi_path.specs.Components.{components_of, joined};
ghost use Rattle.uefi_path.specs.Views.{components_left, path_text};
ghost use Rattle.uefi_text.specs.Runs.{GivesEach};
ghost use Rattle.uefi_text.specs.Units.{IsText};
ghost use Rattle.std.specs.Iterator.{YieldsFirstBy, item_count};

use crate::path::Path;
use crate::pathbuf::PathBuf;
use crate::splitting::components::Components;
use std::alloc::Allocator;
use uefi_text::strings::strs::Char16Slice;

/// An iterator over the components of a path, each with the index at which it begins in the path's
/// text. A contract sees it as `indices_left` of it: the items that remain.
#[derive(Drop)]
pub struct ComponentIndices<'a> {
    /// The index at which the next component begins.
    place: usize,
    components: Components<'a>,
    pub ghost room: { components_left components ≢ []
        → place + length (joined (components_left components)) + 1 < 2 ^ 64 },
}

impl<'a> ComponentIndices<'a> {
    ghost use Rattle.uefi_path.specs.ComponentIndices.{BeginAtPlaces, indexed_units, indices_left};

    /// Returns an iterator over components of a path, with their indices in its text.
    fn of(path: Path<'_>, components: Components<'a>) -> Self
        requires same { components_left components ≡ components_of (path_text path) }
        requires texts { All IsText (components_left components) }
        requires bound { length (components_left components) < 2 ^ 64 }
        ensures components { map (λ item. item.1) (indices_left result)
            ≡ components_of (path_text path.entry) }
        ensures places { BeginAtPlaces (path_text path.entry) (indices_left result) }
        ensures texts { All IsText (map (λ item. item.1) (indices_left result)) }
        ensures bound { length (indices_left result) < 2 ^ 64 }
        ensures runs { GivesEach indexed_units indices_left result }
    {
        // A clause of this call says how long the path can be.
        let _text = path.to_cstr16().as_slice();
        let place = path.canonical_start();
        ComponentIndices { place, components }
    }
}

impl<'a> Path<'a> {
    ghost use Rattle.uefi_path.specs.ComponentIndices.{BeginAtPlaces, indexed_units, indices_left};

    /// Returns the components, as [`Path::components`] does, each with the index at which it
    /// begins: the number of characters of the text before it, including a leading separator. Does
    /// not allocate.
    ///
    /// ```rust
    /// let text = CString16::try_from_str(rt.alloc(), r"\efi\boot")?;
    /// let mut components = Path::new(text.as_cstr16()).component_indices();
    /// assert_eq!(rt; components.next(), Some((1, text.as_cstr16().as_slice().part(1, 4))));
    /// assert_eq!(rt; components.next(), Some((5, text.as_cstr16().as_slice().part(5, 9))));
    /// assert_eq!(rt; components.next(), None);
    /// ```
    pub fn component_indices(&self) -> ComponentIndices<'a>
        ensures components { map (λ item. item.1) (indices_left result)
            ≡ components_of (path_text self.now) }
        ensures places { BeginAtPlaces (path_text self.now) (indices_left result) }
        ensures texts { All IsText (map (λ item. item.1) (indices_left result)) }
        ensures bound { length (indices_left result) < 2 ^ 64 }
        ensures runs { GivesEach indexed_units indices_left result }
    {
        ComponentIndices::of(*self, self.components())
    }
}

impl<A: Allocator + Copy> PathBuf<A> {
    ghost use Rattle.uefi_path.specs.ComponentIndices.{BeginAtPlaces, indexed_units, indices_left};

    /// Returns the components with their indices, as [`Path::component_indices`] does.
    ///
    /// ```rust
    /// let text = CString16::try_from_str(rt.alloc(), "efi/boot")?;
    /// let path = PathBuf::from(rt.alloc(), text.as_cstr16())?;
    /// let places = path.component_indices().map(|(place, _)| place);
    /// assert!(rt; places.eq([0, 4]));
    /// ```
    pub fn component_indices(&self) -> ComponentIndices<'_>
        ensures components { map (λ item. item.1) (indices_left result) ≡ components_of self.now }
        ensures places { BeginAtPlaces self.now (indices_left result) }
        ensures texts { All IsText (map (λ item. item.1) (indices_left result)) }
        ensures bound { length (indices_left result) < 2 ^ 64 }
        ensures runs { GivesEach indexed_units indices_left result }
    {
        ComponentIndices::of(self.as_path(), self.components())
    }
}

/// Gives the components in order, and then always `None`.
impl<'a> Iterator for ComponentIndices<'a> {
    type Item = (usize, Char16Slice<'a>);

    ghost use Rattle.uefi_path.specs.ComponentIndices.{indexed_units, indices_left};

    ghost next_gives = { YieldsFirstBy indexed_units indices_left };

    ghost remaining = { item_count indices_left };

    fn next(&mut self) -> Option<(usize, Char16Slice<'a>)> {
        let component = self.components.next()?;
        let place = self.place;
        self.place = place + component.len() + 1;
        Some((place, component))
    }
}
