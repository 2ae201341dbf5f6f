//! Attempts to read a text in one form after the other.
#![tactic(auto)]

ghost use Rattle.std.specs.List.{list_all};
ghost use Rattle.std.specs.Prelude.{◌≡◌, ◌+◌, ◌<◌, ◌^◌, ℕ, Err, IsTrue, None, Option, Result, false, length, map, true};
ghost use Rattle.std.specs.Result.{result_map_both};
ghost use Rattle.uefi_device_nodes.specs.Rows.{Form, as_form};
ghost use Rattle.uefi_device_nodes.specs.Table.{forms};
ghost use Rattle.uefi_node_reader.specs.LenientCalls.{first_tried};
ghost use Rattle.uefi_node_reader.specs.FirstLetters.{begins_in};
ghost use Rattle.uefi_node_reader.specs.TableReading.{is_filled, is_sound};
ghost use Rattle.uefi_node_reader.specs.declared.errors.faults.Stop.{Stop};

use crate::errors::faults::Stop;
use crate::errors::stops::further;
use crate::exact::first_letters::first_letters;
use uefi_device_nodes::node_table::rows::Row;
use uefi_device_nodes::node_table::table::{GROUPS, group};

/// An attempt to read a text in a form.
pub(crate) trait Attempt {
    /// What is read.
    type Read;

    ghost Seen: { Type 0 };

    ghost seen: { Self.Read → Seen };

    ghost tried: { Self → ℕ → Form → Result Seen (Option Stop) };

    /// Returns `false` only if the text is read in no form that begins with one of these letters.
    fn may_begin(&self, letters: u64) -> bool
        ensures { result ≡ false → (place : ℕ) (form : Form) → begins_in letters form.start ≡ true
            → tried self.now place form ≡ Err None };

    /// Reads the text in a form, which has this index in the table. Fails with where the text stops, or with
    /// `None` if it is no text of this form.
    fn attempt(&self, place: usize, row: &Row) -> Result<Self::Read, Option<Stop>>
        requires sound { IsTrue (is_sound (as_form row.now)) }
        requires filled { IsTrue (is_filled (as_form row.now)) }
        ensures { result_map_both seen (λ e. e) result ≡ tried self.now place (as_form row.now) };
}

/// Reads a text in the first of these forms that fits. If none fits, fails with `furthest`, or with where
/// the text stops in a form that was read further. The forms have the indices from `before` on.
fn try_group<A: Attempt>(
    attempt: &A,
    rows: &[Row],
    before: usize,
    furthest: Option<Stop>,
) -> Result<A::Read, Option<Stop>>
    requires sound { IsTrue (list_all is_sound (map as_form rows.now)) }
    requires filled { IsTrue (list_all is_filled (map as_form rows.now)) }
    requires few { before + length rows.now < 2 ^ 64 }
    ensures { result_map_both A.seen (λ e. e) result
        ≡ first_tried (A.tried attempt.now) before (map as_form rows.now) furthest }
{
    let mut so_far = furthest;
    for (place, row) in rows.iter().enumerate() {
        match attempt.attempt(before + place, row) {
            Ok(read) => return Ok(read),
            Err(stop) => so_far = further(so_far, stop),
        }
    }
    Err(so_far)
}

/// Reads a text in the first form of the table that fits. Fails as [`try_group`] does. Most groups have no
/// form that begins with the first letter of the text.
pub(crate) fn try_table<A: Attempt>(attempt: &A) -> Result<A::Read, Option<Stop>>
    ensures { result_map_both A.seen (λ e. e) result ≡ first_tried (A.tried attempt.now) 0 forms None }
{
    let mut furthest = None;
    let mut before = 0;
    for index in 0..GROUPS {
        let rows = group(index);
        if attempt.may_begin(first_letters(index)) {
            match try_group(attempt, rows, before, furthest) {
                Ok(read) => return Ok(read),
                Err(stop) => furthest = stop,
            }
        }
        before += rows.len();
    }
    Err(furthest)
}
