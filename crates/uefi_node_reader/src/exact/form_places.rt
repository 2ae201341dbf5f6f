//! The index of a form in the table, and the names of calls by their index.
#![tactic(auto)]

ghost use Rattle.std.specs.Option.{option_map};
ghost use Rattle.std.specs.Prelude.{◌≡◌, Bool, IsTrue, length, map, slice_get, true};
ghost use Rattle.uefi_device_nodes.specs.Rows.{Form, as_form, have_one_kind};
ghost use Rattle.uefi_device_nodes.specs.Table.{forms};
ghost use Rattle.uefi_node_reader.specs.NearNames.{other_names, start_at};
ghost use Rattle.uefi_node_reader.specs.TableReading.{form_place};

use uefi_device_nodes::node_table::rows::Row;
use uefi_device_nodes::node_table::table::{GROUPS, group};

/// A test of a form.
pub(crate) trait FormTest {
    ghost test: { Self → Form → Bool };

    /// Returns whether a form passes the test.
    fn passes(&self, row: &Row) -> bool
        ensures { result ≡ test self.now (as_form row.now) };

    /// Returns `true` only if none of these forms, which are for nodes of one type, passes it.
    fn passes_over(&self, rows: &[Row]) -> bool
        requires { IsTrue (have_one_kind (map as_form rows.now)) }
        ensures { result ≡ true → form_place (test self.now) (map as_form rows.now) ≡ length rows.now };
}

/// Returns the index of the first form that passes a test, or the number of forms if none does.
fn place_in<T: FormTest>(test: &T, rows: &[Row]) -> usize
    requires { IsTrue (have_one_kind (map as_form rows.now)) }
    ensures { result ≡ form_place (T.test test.now) (map as_form rows.now) }
{
    if test.passes_over(rows) {
        return rows.len();
    }
    for (place, row) in rows.iter().enumerate() {
        if test.passes(row) {
            return place;
        }
    }
    rows.len()
}

/// Returns the index of the first form of the table that passes a test, or the number of forms if
/// none does.
pub(crate) fn form_place<T: FormTest>(test: &T) -> usize
    ensures { result ≡ form_place (T.test test.now) forms }
{
    let mut before = 0;
    for index in 0..GROUPS {
        let rows = group(index);
        let place = place_in(test, rows);
        if place < rows.len() {
            return before + place;
        }
        before += rows.len();
    }
    before
}

/// Returns the start of the text of the form at an index of the table.
pub(crate) fn start_at(place: usize) -> Option<&'static str>
    ensures { option_map (λ start. start.now) result ≡ start_at forms place }
{
    let mut left = place;
    for index in 0..GROUPS {
        let rows = group(index);
        if left < rows.len() {
            return Some(rows[left].start.as_str());
        }
        left -= rows.len();
    }
    None
}

/// Returns the names of calls that no form of the table has.
pub(crate) fn other_names() -> &'static [&'static str]
    ensures { map (λ name. name.now) result.now ≡ other_names }
{
    &[
        "File(",
        "Path(",
        "HardwarePath(",
        "AcpiPath(",
        "Msg(",
        "MediaPath(",
        "BbsPath(",
    ]
}

/// Returns the name at an index of [`other_names`].
pub(crate) fn other_name(place: usize) -> Option<&'static str>
    ensures { option_map (λ name. name.now) result ≡ slice_get other_names place }
{
    let names = other_names();
    if names.len() <= place {
        return None;
    }
    Some(names[place])
}
