//! The components of a path, cut one after the other. `specs/Views.antt` defines which components
//! remain.
#![tactic(auto, using(crate::proofs::Rules::cuts_rules), unfolding(crate::specs::Views::components_left))]

ghost use Rattle.std.specs.Prelude.{◌≡◌, ℕ, ◌+◌, ◌<◌, ◌^◌, ◌↔◌, [], ◌∷◌, ◌++◌, ◌≤◌, All, List, None, Option, drop, false, length, IfSome, IsSome, IsTrue};
ghost use Rattle.std.specs.List.{slice_split};
ghost use Rattle.uefi_path.specs.Components.{AreComponents, components_of, hint_of_pieces};
ghost use Rattle.uefi_path.specs.Parents.{is_non_empty};
ghost use Rattle.uefi_path.specs.Separators.{canonical, is_separator, places_from};
ghost use Rattle.uefi_path.specs.SeparatorsLeft.{places_left};
ghost use Rattle.uefi_path.specs.WithoutCase.{MatchEach, capital_pieces};
ghost use Rattle.uefi_text.specs.Runs.{GivesEach};
ghost use Rattle.uefi_text.specs.Units.{IsText};
ghost use Rattle.uefi_text.specs.Views.{text_of, units_of};
ghost use Rattle.std.specs.Iterator.{UpTo, YieldsFirstBy, item_count, YieldsLastBy};
ghost use Rattle.std.specs.Iterator.SizeHint.{IsWithinCount};

use crate::splitting::separators::{Separators, cut_last};
use std::fmt;
use uefi_text::strings::strs::{CStr16, Char16Slice};

/// An iterator over the components of a path. A contract sees it as `components_left` of it: the
/// components that remain.
#[derive(Drop)]
pub struct Components<'a> {
    /// The text that is left to cut; `None` after the last component.
    rest: Option<Rest<'a>>,
}

/// The part of a text that is left to cut into components: its units from an index on.
#[derive(Clone, Copy)]
pub(crate) struct Rest<'a> {
    text: Char16Slice<'a>,
    start: usize,

    /// The separators among these units. Their indices are counted in the whole text.
    separators: Separators<'a>,
    pub ghost within: { start ≤ length (units_of text) },
    pub ghost all: { places_left separators ≡ places_from start (drop start (units_of text)) },
}

impl<'a> Rest<'a> {
    ghost use Rattle.uefi_path.specs.Views.{pieces_of_rest, uncut_units};

    /// A whole text, in which the separators are looked for.
    pub(crate) fn of(text: Char16Slice<'a>) -> Rest<'a>
        ensures { uncut_units result ≡ units_of text.entry }
    {
        Rest {
            text,
            start: 0,
            separators: Separators::of(text.units(), 0),
        }
    }

    /// Returns the text from an index on. All of its separators are known by their indices. Reads
    /// no unit.
    pub(crate) fn placed(text: Char16Slice<'a>, start: usize, places: &'a [usize]) -> Rest<'a>
        requires within { start ≤ length (units_of text) }
        requires all { places.now ≡ places_from start (drop start (units_of text)) }
        ensures { uncut_units result ≡ drop start (units_of text.entry) }
    {
        Rest {
            text,
            start,
            separators: Separators::at(places),
        }
    }

    /// Returns the units that are left.
    fn units(self) -> Char16Slice<'a>
        ensures { units_of result ≡ uncut_units self.entry }
    {
        self.text.part(self.start, self.text.len())
    }

    /// Returns the first component, and the rest after it.
    #[inline(always)]
    fn cut(self) -> (Char16Slice<'a>, Option<Rest<'a>>)
        ensures { slice_split is_separator (uncut_units self.entry)
            ≡ units_of result.0 ∷ pieces_of_rest result.1 }
    {
        // The clauses of this call say how long the text can be.
        let _len = self.text.len();
        let mut separators = self.separators;
        let Some(place) = separators.next() else {
            return (self.units(), None);
        };
        let after = Rest {
            text: self.text,
            start: place + 1,
            separators,
        };
        (self.text.part(self.start, place), Some(after))
    }

    /// Returns the rest before the last component, and that component.
    fn cut_back(self) -> (Option<Rest<'a>>, Char16Slice<'a>)
        ensures { slice_split is_separator (uncut_units self.entry)
            ≡ pieces_of_rest result.0 ++ units_of result.1 ∷ [] }
    {
        let (front, last) = cut_last(self.units());
        (front.map(Rest::of), last)
    }
}

impl<'a> Components<'a> {
    ghost use Rattle.uefi_path.specs.Runs.{GivesNoNulIn};
    ghost use Rattle.uefi_path.specs.Views.{components_left, uncut_units};

    /// Returns the components of the path of a string whose canonical text is the rest.
    pub(crate) fn of_canonical(string: CStr16<'_>, rest: Rest<'a>) -> Components<'a>
        requires { uncut_units rest ≡ canonical (text_of string) }
        ensures same { components_left result ≡ components_of (text_of string.entry) }
        ensures components { AreComponents (text_of string.entry) (components_left result) }
        ensures only { (pieces : List (List ℕ)) →
            AreComponents (text_of string.entry) pieces → pieces ≡ components_left result }
        ensures texts { All IsText (components_left result) }
        ensures bound { length (components_left result) < 2 ^ 64 }
        ensures runs { GivesEach units_of components_left result }
        ensures no_nul { GivesNoNulIn result }
    {
        // The clauses of this call say that the string shows a text, and how long it can be.
        let _text = string.as_slice();
        if rest.units().is_empty() {
            return Components { rest: None };
        }
        Components { rest: Some(rest) }
    }

    /// Returns the pieces between the separators of a text: one piece if it has no separator.
    pub(crate) fn between(text: Char16Slice<'a>) -> Components<'a>
        ensures { components_left result ≡ slice_split is_separator (units_of text.entry) }
    {
        Components {
            rest: Some(Rest::of(text)),
        }
    }

    /// These components, to walk over them once more.
    pub(crate) fn copy(&self) -> Components<'a>
        ensures { components_left result ≡ components_left self.now }
    {
        Components { rest: self.rest }
    }

    /// Returns whether no component is left.
    #[tactic(auto, using(crate::proofs::Joining::slice_split_some), unfolding(crate::specs::Views::components_left))]
    pub(crate) fn is_done(&self) -> bool
        ensures { IsTrue result ↔ (components_left self.now ≡ []) }
    {
        match self.rest {
            None => true,
            Some(_) => false,
        }
    }

    /// Returns whether one of the components is empty.
    pub(crate) fn has_empty(self) -> bool
        ensures { result ≡ false → All (λ piece. IsTrue (is_non_empty piece)) (components_left self.entry) }
    {
        for component in self {
            if component.is_empty() {
                return true;
            }
        }
        false
    }

    /// Returns the components after those of a base, if they begin with those of the base.
    pub(crate) fn strip(self, base: Components<'_>) -> Option<Components<'a>>
        requires texts { All IsText (components_left self) }
        requires bound { length (components_left self) < 2 ^ 64 }
        ensures starts { IsSome result ↔ ((rest : List (List ℕ))
            × (components_left self.entry ≡ components_left base.entry ++ rest)) }
        ensures rest { IfSome result (λ rest.
            components_left self.entry ≡ components_left base.entry ++ components_left rest) }
        ensures texts { IfSome result (λ rest. All IsText (components_left rest)) }
        ensures bound { IfSome result (λ rest. length (components_left rest) < 2 ^ 64) }
        ensures runs { IfSome result (λ rest. GivesEach units_of components_left rest) }
        ensures no_nul { IfSome result (λ rest. GivesNoNulIn rest) }
    {
        let mut rest = self;
        for component in base {
            match rest.next() {
                Some(own) if own == component => {}
                _ => return None,
            }
        }
        Some(rest)
    }

    /// Does what [`Components::strip`] does, without case.
    pub(crate) fn strip_ignore_case(self, base: Components<'_>) -> Option<Components<'a>>
        requires texts { All IsText (components_left self) }
        requires bound { length (components_left self) < 2 ^ 64 }
        ensures starts { IsSome result ↔ ((rest : List (List ℕ))
            × (capital_pieces (components_left self.entry)
            ≡ capital_pieces (components_left base.entry) ++ rest)) }
        ensures rest { IfSome result (λ rest.
            components_left rest ≡ drop (length (components_left base.entry)) (components_left self.entry)) }
        ensures texts { IfSome result (λ rest. All IsText (components_left rest)) }
        ensures bound { IfSome result (λ rest. length (components_left rest) < 2 ^ 64) }
        ensures runs { IfSome result (λ rest. GivesEach units_of components_left rest) }
        ensures no_nul { IfSome result (λ rest. GivesNoNulIn rest) }
    {
        let mut rest = self;
        for component in base {
            let Some(own) = rest.next() else {
                return None;
            };
            if !own.eq_ignore_case(component) {
                return None;
            }
        }
        Some(rest)
    }

    /// Returns whether both have the same number of components, and each component matches the
    /// pattern at its index.
    pub(crate) fn match_each(self, patterns: Components<'_>) -> bool
        ensures { IsTrue result
            ↔ MatchEach (components_left patterns.entry) (components_left self.entry) }
    {
        let mut rest = self;
        for pattern in patterns {
            let Some(component) = rest.next() else {
                return false;
            };
            if !component.matches(pattern) {
                return false;
            }
        }
        rest.is_done()
    }

    /// Returns whether the components end with those of a child.
    pub(crate) fn end_with(self, child: Components<'_>) -> bool
        ensures { IsTrue result ↔ ((front : List (List ℕ))
            × (components_left self.entry ≡ front ++ components_left child.entry)) }
    {
        let mut rest = self;
        let mut names = child;
        while let Some(name) = names.next_back() {
            let Some(own) = rest.next_back() else {
                return false;
            };
            if own != name {
                return false;
            }
        }
        true
    }
}

/// Gives the components in order, and then always `None`.
impl<'a> Iterator for Components<'a> {
    type Item = Char16Slice<'a>;

    ghost use Rattle.uefi_path.specs.Views.{components_left};

    ghost next_gives = { YieldsFirstBy units_of components_left };

    ghost remaining = { item_count components_left };

    #[inline(always)]
    fn next(&mut self) -> Option<Char16Slice<'a>> {
        let (component, after) = self.rest?.cut();
        self.rest = after;
        Some(component)
    }

    /// After the last component none are left. Before it, at least one is left, and at most one
    /// more than there are characters, because a separator is between two components.
    fn size_hint(&self) -> (usize, Option<usize>)
        ensures lower { IsWithinCount result.0 (item_count components_left self.now) }
        ensures upper { IfSome result.1 (UpTo (item_count components_left self.now)) }
        ensures exact { result ≡ hint_of_pieces (components_left self.now) }
    {
        match self.rest {
            None => (0, Some(0)),
            Some(rest) => (1, Some(rest.units().units().len() + 1)),
        }
    }
}

/// Gives the components from the last one backwards.
impl<'a> DoubleEndedIterator for Components<'a> {
    ghost use Rattle.uefi_path.specs.Views.{components_left};

    ghost next_back_gives = { YieldsLastBy units_of components_left };

    fn next_back(&mut self) -> Option<Char16Slice<'a>> {
        let (before, component) = self.rest?.cut_back();
        self.rest = before;
        Some(component)
    }
}

/// Prints the text that is left to cut into components.
impl<'a> fmt::Debug for Components<'a> {
    fn fmt<W: fmt::Write>(&self, f: &mut fmt::Formatter<W>) -> fmt::Result {
        f.debug_tuple("Components")
            .field(&self.rest.map(Rest::units))
            .finish()
    }
}
