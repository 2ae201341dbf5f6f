//! Names of calls, and names that differ from one of these in one letter.
#![tactic(auto)]

ghost use Rattle.std.specs.Prelude.{◌≡◌, map};
ghost use Rattle.uefi_node_reader.specs.NearNames.{are_exchanged, is_mistyped, is_named, is_near, name_expected, other_names, suiting_form, suiting_name, is_name_of};

use crate::errors::faults::Expected;
use crate::exact::form_places::{FormTest, form_place, other_name, other_names, start_at};
use crate::lenient::lenient_table::begins_call_name;
use crate::texts::Text;
use uefi_device_nodes::node_table::rows::Row;

/// Returns whether a text begins with the name of a call, except that its first two letters are exchanged.
fn are_exchanged<T: Text>(start: &[u8], text: T) -> bool
    ensures { result ≡ are_exchanged start.now (T.bytes text) }
{
    let [first, second, others @ ..] = start else {
        return false;
    };
    let Some((byte, rest)) = text.split_first() else {
        return false;
    };
    let Some((next, rest)) = rest.split_first() else {
        return false;
    };
    first.to_ascii_uppercase() == next.to_ascii_uppercase()
        && second.to_ascii_uppercase() == byte.to_ascii_uppercase()
        && begins_call_name(others, rest)
}

/// Returns whether a text begins with the name of a call, except that its first letter is replaced, omitted,
/// preceded by another letter, or exchanged with the second. The `(` is none of the letters.
fn is_mistyped<T: Text>(start: &[u8], text: T) -> bool
    ensures { result ≡ is_mistyped start.now (T.bytes text) }
{
    let [first, others @ ..] = start else {
        return false;
    };
    let Some((_, rest)) = text.split_first() else {
        return false;
    };
    begins_call_name(start, rest)
        || *first != b'('
            && (begins_call_name(others, rest)
                || begins_call_name(others, text)
                || are_exchanged(start, text))
}

/// Returns whether a text begins with the name of a call, except for one letter.
fn is_near<T: Text>(start: &[u8], text: T) -> bool
    ensures { result ≡ is_near start.now (T.bytes text) }
{
    let mut left = start;
    let mut rest = text;
    'letters: while let [letter, others @ ..] = left {
        let Some((byte, after)) = rest.split_first() else {
            return false;
        };
        if letter.to_ascii_uppercase() != byte.to_ascii_uppercase() {
            return is_mistyped(left, rest);
        }
        left = others;
        rest = after;
    }
    false
}

/// Returns whether a call begins with a name, or, unless `exact`, with a similar one.
fn is_name_of<T: Text>(exact: bool, call: T, name: &[u8]) -> bool
    ensures { result ≡ is_name_of exact (T.bytes call) name.now }
{
    if exact {
        begins_call_name(name, call)
    } else {
        is_near(name, call)
    }
}

/// The test for forms whose name a tidied call begins with, or, unless `exact`, resembles.
#[derive(Clone, Copy)]
struct Suiting<T: Text> {
    exact: bool,
    call: T,
}

impl<T: Text> FormTest for Suiting<T> {
    ghost test = { λ suiting form. is_name_of suiting.exact (T.bytes suiting.call) form.start };

    fn passes(&self, row: &Row) -> bool {
        is_name_of(self.exact, self.call, row.start.as_bytes())
    }

    fn passes_over(&self, _rows: &[Row]) -> bool {
        false
    }
}

/// Returns the index of the first form that is_name_of, or the number of forms.
fn suiting_form<T: Text>(exact: bool, call: T) -> usize
    ensures { result ≡ suiting_form exact (T.bytes call) }
{
    form_place(&Suiting { exact, call })
}

/// Returns the index of the first of these names that is_name_of, or their number.
fn suiting_name<T: Text>(exact: bool, call: T, names: &[&str]) -> usize
    ensures { result ≡ suiting_name exact (T.bytes call) (map (λ name. name.now) names.now) }
{
    for (place, name) in names.iter().enumerate() {
        if is_name_of(exact, call, name.as_bytes()) {
            return place;
        }
    }
    names.len()
}

/// Returns the index of the first of [`other_names`] that is_name_of, or their number.
fn suiting_other<T: Text>(exact: bool, call: T) -> usize
    ensures { result ≡ suiting_name exact (T.bytes call) other_names }
{
    suiting_name(exact, call, other_names())
}

/// Returns what is expected of a tidied call that begins with no name: a similar name, if there is one.
pub(crate) fn name_expected<T: Text>(call: T) -> Expected
    ensures { result ≡ name_expected (T.bytes call) }
{
    let place = suiting_form(false, call);
    if start_at(place).is_some() {
        return Expected::NodeLike(place);
    }
    let place = suiting_other(false, call);
    match other_name(place) {
        Some(_) => Expected::OtherName(place),
        None => Expected::Node,
    }
}

/// Returns whether a tidied call begins with the name of a node.
pub(crate) fn is_named<T: Text>(call: T) -> bool
    ensures { result ≡ is_named (T.bytes call) }
{
    if start_at(suiting_form(true, call)).is_some() {
        return true;
    }
    match other_name(suiting_other(true, call)) {
        Some(_) => true,
        None => false,
    }
}
