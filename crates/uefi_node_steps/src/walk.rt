//! The forms of a table, one after the other: the first that reads a text, and the first that prints a
//! node.
#![tactic(auto)]

ghost use Rattle.std.specs.List.{list_all};
ghost use Rattle.std.specs.Option.{option_map};
ghost use Rattle.std.specs.Prelude.{◌≡◌, ◌==◌, ◌&&◌, ◌+◌, IfOk, IsTrue, Ok, false, length, map, nat_le, nat_lt};
ghost use Rattle.std.specs.Result.{result_map_both};
ghost use Rattle.uefi_node_steps.specs.Heads.{IsFound, further_of, is_small, node_at, parts_at};
ghost use Rattle.uefi_node_steps.specs.Nodes.{find_form, has_bytes, is_printed, prints};
ghost use Rattle.uefi_node_steps.specs.Printing.{code_form};
ghost use Rattle.uefi_node_steps.specs.Steps.{put_all};
ghost use Rattle.uefi_node_steps.specs.Table.{are_sound, form_leaf, forms_read, is_read, is_sound_form};

use crate::forms::read_form;
use crate::head::{Head, MOST_FIXED, put_at};
use crate::leaves::stop_at;
use crate::steps::{Expected, Form, Mode, Stop};
use crate::texts::Text;

/// A node that a form read. Its data is not stored: it is read again from the text.
#[derive(Clone, Copy)]
pub struct Found<'f, T> {
    /// The form that read it.
    pub form: &'f Form,
    /// The first bytes of the data.
    pub head: [u8; MOST_FIXED],
    /// The number of bytes, or `usize::MAX` if there are more.
    pub len: usize,
    /// The text from its start on.
    pub start: T,
    /// The text after it.
    pub rest: T,
}

/// Writes bytes to their offsets.
pub(crate) fn put_fixed(fixed: &mut [u8], bytes: &[(usize, u8)])
    ensures { fixed.new ≡ put_all bytes.now fixed.old }
{
    for (place, value) in bytes {
        put_at(fixed, *place, *value);
    }
}

/// Returns what a form read, from its fixed part and the head of the data after it.
fn found_by<'f, T: Text>(
    form: &'f Form,
    fixed: &[u8],
    tail: &Head,
    start: T,
    rest: T,
) -> Found<'f, T>
    requires size { length fixed.now ≡ form.now.layout.size }
    requires sound { IsTrue (is_sound_form (code_form form.now)) }
    requires small { IsTrue (is_small (code_form form.now)) }
    requires read { (form_leaf (code_form form.now)).read (T.codes start)
        ≡ Ok ((fixed.now, tail.now.seen.bytes), T.codes rest) }
    ensures form { result.form.now ≡ form.now }
    ensures start { T.codes result.start ≡ T.codes start }
    ensures rest { T.codes result.rest ≡ T.codes rest }
    ensures found { IsFound (code_form form.now) (T.codes start) result.head result.len }
{
    Found {
        form,
        head: tail.behind(fixed),
        len: fixed.len().saturating_add(tail.count),
        start,
        rest,
    }
}

/// Reads a text in a form.
fn attempt<'f, T: Text>(form: &'f Form, text: T) -> Result<Found<'f, T>, Stop>
    requires sound { IsTrue (is_sound_form (code_form form.now)) }
    requires small { IsTrue (is_small (code_form form.now)) }
    ensures read { result_map_both (λ f. (
      parts_at (code_form f.form.now)
          (T.codes f.start),
      T.codes f.rest,
    )) (λ s. s) result
        ≡ (form_leaf (code_form form.now)).read (T.codes text) }
    ensures form { IfOk result (λ f. f.form.now ≡ form.now) }
    ensures start { IfOk result (λ f. T.codes f.start ≡ T.codes text) }
    ensures found { IfOk result (λ f. IsFound (code_form f.form.now) (T.codes f.start) f.head f.len) }
{
    let mut fixed = [0; MOST_FIXED];
    let area = &mut fixed[..form.layout.size];
    put_fixed(area, form.when);
    put_fixed(area, form.layout.bytes);
    let mut tail = Head::new();
    match read_form(form, area, &mut tail, text) {
        Ok(rest) => Ok(found_by(form, area, &tail, text, rest)),
        Err(stop) => Err(stop),
    }
}

/// Returns whether texts of a form are read.
fn is_read(mode: Mode) -> bool
    ensures { result ≡ is_read mode }
{
    match mode {
        Mode::Read | Mode::People => true,
        Mode::Printed | Mode::Display | Mode::Libefivar => false,
    }
}

/// Returns the stop with less text left, or the first if neither has less.
fn further(one: Option<Stop>, other: Stop) -> Stop
    ensures { result ≡ further_of one other }
{
    match one {
        Some(stop) if stop.left <= other.left => stop,
        _ => other,
    }
}

/// Reads a text in the first form that reads it, or fails with the stop that is furthest.
pub(crate) fn first_form<'f, T: Text>(forms: &'f [Form], text: T) -> Result<Found<'f, T>, Stop>
    requires sound { IsTrue (are_sound (map code_form forms.now)) }
    requires small { IsTrue (list_all is_small (map code_form forms.now)) }
    ensures read { result_map_both (λ f. (
      (
        (code_form f.form.now),
        parts_at (code_form f.form.now)
            (T.codes f.start),
      ),
      T.codes f.rest,
    ))
        (λ s. s) result ≡ forms_read (map code_form forms.now) (T.codes text) }
    ensures start { IfOk result (λ f. T.codes f.start ≡ T.codes text) }
    ensures found { IfOk result (λ f. IsFound (code_form f.form.now) (T.codes f.start) f.head f.len) }
{
    let mut furthest = None;
    for form in forms {
        if is_read(form.mode) {
            match attempt(form, text) {
                Ok(found) => return Ok(found),
                Err(stop) => furthest = Some(further(furthest, stop)),
            }
        }
    }
    Err(further(furthest, stop_at(text, Expected::Node)))
}

/// Returns whether a form is printed, and not only for display.
fn is_printed(mode: Mode) -> bool
    ensures { result ≡ is_printed false mode }
{
    match mode {
        Mode::Read | Mode::Printed => true,
        Mode::Display | Mode::Libefivar | Mode::People => false,
    }
}

/// Returns whether data contains these bytes at their offsets.
fn has_bytes(head: &[u8; MOST_FIXED], bytes: &[(usize, u8)]) -> bool
    requires { IsTrue (list_all (λ b. nat_lt b.0 56) bytes.now) }
    ensures { result ≡ has_bytes bytes.now head.now }
{
    for (place, value) in bytes {
        if head[*place] != *value {
            return false;
        }
    }
    true
}

/// Returns whether a form is printed for nodes of the same type and sub-type as another.
fn is_of_kind(form: &Form, other: &Form) -> bool
    ensures { result ≡ ((form.now.kind == other.now.kind) && ((form.now.sub_kind == other.now.sub_kind)
        && is_printed false form.now.mode)) }
{
    form.kind == other.kind && form.sub_kind == other.sub_kind && is_printed(form.mode)
}

/// Returns whether data has the length and the bytes of a form.
fn fits(form: &Form, head: &[u8; MOST_FIXED], len: usize) -> bool
    requires { IsTrue (is_small (code_form form.now)) }
    ensures { result ≡ (nat_le
        (form.now.layout.size + form.now.more) len && has_bytes form.now.when.now head.now) }
{
    form.layout.size + form.more <= len && has_bytes(head, form.when)
}

/// Returns whether a form prints a node that was found.
fn prints<T: Text>(form: &Form, found: &Found<T>) -> bool
    requires small { IsTrue (is_small (code_form form.now)) }
    requires found { IsFound (code_form found.now.form.now)
        (T.codes found.now.start) found.now.head found.now.len }
    ensures { result ≡ prints false (node_at (code_form found.now.form.now) (T.codes found.now.start))
        (code_form form.now) }
{
    is_of_kind(form, found.form) && fits(form, &found.head, found.len)
}

/// Returns the form that prints a node that was found, or `None` if no form of the table does.
pub(crate) fn find_printing_form<'f, T: Text>(
    forms: &'f [Form],
    found: &Found<T>,
) -> Option<&'f Form>
    requires small { IsTrue (list_all is_small (map code_form forms.now)) }
    requires found { IsFound (code_form found.now.form.now)
        (T.codes found.now.start) found.now.head found.now.len }
    ensures { option_map (λ f. (code_form f.now)) result
        ≡ find_form (prints false (node_at (code_form found.now.form.now) (T.codes found.now.start)))
        (map code_form forms.now) }
{
    for form in forms {
        if prints(form, found) {
            return Some(form);
        }
    }
    None
}
