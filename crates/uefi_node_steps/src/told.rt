//! Texts of nodes as people write them. Such a text is read in the first form that reads it, and is a text
//! of the node only if the text that the node is printed as describes it completely.
#![tactic(auto)]

ghost use Rattle.std.specs.Cmp.Lexicographic.{pointwise};
ghost use Rattle.std.specs.List.{list_all};
ghost use Rattle.std.specs.Prelude.{◌≡◌, ◌≤◌, ◌||◌, ◌++◌, [], IfOk, IsTrue, Ok, false, length, map, nat_eq, not, take};
ghost use Rattle.std.specs.Result.{result_map_both};
ghost use Rattle.uefi_node_steps.specs.Heads.{IsFound, can_tell, have_data, is_small, is_told_step, is_told_value, node_at, parts_at, tells_head, with_fields};
ghost use Rattle.uefi_node_steps.specs.Leaves.{has_word};
ghost use Rattle.uefi_node_steps.specs.Nodes.{find_form, prints, tells, told_read};
ghost use Rattle.uefi_node_steps.specs.Printing.{code_form, code_step, code_steps};
ghost use Rattle.uefi_node_steps.specs.Steps.{blank, fits_shape, is_flat, is_sound_step, part_of, put_part, word_by};
ghost use Rattle.uefi_node_steps.specs.declared.steps.Shape.TheVariants.{Eisa};
ghost use Rattle.uefi_node_steps.specs.Table.{forms_read, is_exact, is_read, is_sound_form};

use crate::head::MOST_FIXED;
use crate::leaves::stop_at;
use crate::printing::{number_of, suits};
use crate::reading::{put_all, read_steps};
use crate::steps::{Expected, Form, Mode, Shape, Step, StepOf, Stop};
use crate::texts::{Sink, Text};
use crate::walk::{Found, find_printing_form, first_form, put_fixed};
use crate::words::{Word, words_of};
use uefi_device_nodes::field_texts::ids::eisa_bits;

/// Returns whether a form is printed and read.
fn is_exact(mode: Mode) -> bool
    ensures { result ≡ is_exact mode }
{
    match mode {
        Mode::Read => true,
        Mode::Printed | Mode::Display | Mode::Libefivar | Mode::People => false,
    }
}

/// Returns whether the word for a number is read as that number.
fn has_word(words: &[Word], number: u64) -> bool
    ensures { result ≡ has_word (map (word_by (λ l. l.now)) words.now) number }
{
    for word in words {
        if suits(word, number) {
            return word.number == number;
        }
    }
    false
}

/// Returns whether the text of an EISA ID shows all of its bits.
fn is_told_id(bytes: &[u8]) -> bool
    requires { length bytes.now ≡ 4 }
    ensures { result ≡ is_told_value Eisa bytes.now }
{
    let id = number_of(bytes) as u32;
    eisa_bits(id) == id
}

/// Returns whether a field is read back from its text.
fn is_told_value(shape: Shape, bytes: &[u8]) -> bool
    requires { IsTrue (fits_shape shape (length bytes.now)) }
    ensures { result ≡ is_told_value shape bytes.now }
{
    match shape {
        Shape::Eisa => is_told_id(bytes),
        Shape::Word(words) => has_word(words_of(words), number_of(bytes)),
        _ => true,
    }
}

/// Returns whether a step is read back from its text, if it is a field.
fn is_told_step(step: &Step, fixed: &[u8]) -> bool
    requires { IsTrue (is_sound_step (length fixed.now) (code_step step.now)) }
    ensures { result ≡ is_told_step fixed.now (code_step step.now) }
{
    match step {
        StepOf::Field(field) => {
            let end = field.place + field.width;
            is_told_value(field.shape, &fixed[field.place..end])
        }
        _ => true,
    }
}

/// Returns whether all fields are read back from their texts.
fn fields_are_told(steps: &[Step], fixed: &[u8]) -> bool
    requires { IsTrue (list_all (is_sound_step (length fixed.now)) (code_steps steps.now)) }
    ensures { result ≡ list_all (is_told_step fixed.now) (code_steps steps.now) }
{
    for step in steps {
        if !is_told_step(step, fixed) {
            return false;
        }
    }
    true
}

/// Copies a field from one fixed part to another.
fn copy_field(step: &Step, fixed: &[u8], other: &mut [u8])
    requires sound { IsTrue (is_sound_step (length fixed.now) (code_step step.now)) }
    requires same { length other.old ≡ length fixed.now }
    ensures { (other.new, []) ≡ put_part (code_step step.now) (part_of (fixed.now, [])
        (code_step step.now)) (other.old, []) }
{
    if let StepOf::Field(field) = step {
        let end = field.place + field.width;
        other[field.place..end].copy_from_slice(&fixed[field.place..end]);
    }
}

/// Copies all fields from one fixed part to another.
fn copy_fields(steps: &[Step], fixed: &[u8], other: &mut [u8])
    requires sound { IsTrue (list_all (is_sound_step (length fixed.now)) (code_steps steps.now)) }
    requires same { length other.old ≡ length fixed.now }
    ensures { other.new ≡ with_fields (code_steps steps.now) fixed.now other.old }
{
    for step in steps {
        copy_field(step, fixed, other);
    }
}

/// Returns whether a step prints data after the fixed part.
fn is_data(step: &Step) -> bool
    ensures { result ≡ not (is_flat (code_step step.now)) }
{
    match step {
        StepOf::Literal(_) | StepOf::Field(_) => false,
        StepOf::Data(_) | StepOf::Many(_) => true,
    }
}

/// Returns whether steps print the data after the fixed part.
fn have_data(steps: &[Step]) -> bool
    ensures { result ≡ have_data (code_steps steps.now) }
{
    for step in steps {
        if is_data(step) {
            return true;
        }
    }
    false
}

/// Returns whether bytes are the same.
fn are_same(one: &[u8], other: &[u8]) -> bool
    ensures { result ≡ pointwise nat_eq one.now other.now }
{
    one == other
}

/// Returns whether a fixed part has the bytes of a form where it has no fields.
fn is_kept(form: &Form, fixed: &[u8]) -> bool
    requires few { length fixed.now ≤ 56 }
    requires size { length fixed.now ≡ form.now.layout.size }
    requires sound { IsTrue (is_sound_form (code_form form.now)) }
    ensures { result ≡ pointwise nat_eq (with_fields (code_form form.now).laid.steps fixed.now
        (blank (code_form form.now).laid).0) fixed.now }
{
    let mut other = [0; MOST_FIXED];
    let area = &mut other[..fixed.len()];
    put_fixed(area, form.when);
    put_fixed(area, form.layout.bytes);
    copy_fields(form.layout.steps, fixed, area);
    are_same(area, fixed)
}

/// Returns whether a form that prints a node describes it completely.
fn tells<T: Text>(form: &Form, found: &Found<T>) -> bool
    requires size { form.now.layout.size ≤ found.now.len }
    requires small { IsTrue (is_small (code_form form.now)) }
    requires sound { IsTrue (not (is_read form.now.mode) || is_sound_form (code_form form.now)) }
    ensures { result ≡ tells_head (code_form form.now)
        (take form.now.layout.size found.now.head) found.now.len }
{
    if !is_exact(form.mode) {
        return false;
    }
    let fixed = &found.head[..form.layout.size];
    let is_whole = have_data(form.layout.steps) || found.len == form.layout.size;
    fields_are_told(form.layout.steps, fixed) && is_kept(form, fixed) && is_whole
}

/// Returns whether the text that a node is printed as describes it completely.
fn is_told<T: Text>(forms: &[Form], found: &Found<T>) -> bool
    requires table { IsTrue (can_tell (map code_form forms.now)) }
    requires found { IsFound (code_form found.now.form.now)
        (T.codes found.now.start) found.now.head found.now.len }
    requires read { forms_read (map code_form forms.now) (T.codes found.now.start) ≡ Ok (
      (
        (code_form found.now.form.now),
        parts_at (code_form found.now.form.now) (T.codes found.now.start),
      ),
      T.codes found.now.rest,
    ) }
    ensures { result ≡ tells (find_form (prints false (node_at (code_form found.now.form.now)
        (T.codes found.now.start)))
        (map code_form forms.now)) (node_at (code_form found.now.form.now)
        (T.codes found.now.start)).content }
{
    match find_printing_form(forms, found) {
        Some(form) => tells(form, found),
        None => false,
    }
}

/// Reads the node at the start of a text as people write it. Fails where no form reads the text, or if the
/// text that the node is printed as does not describe it completely.
pub fn told_node<'f, T: Text>(forms: &'f [Form], text: T) -> Result<Found<'f, T>, Stop>
    requires { IsTrue (can_tell (map code_form forms.now)) }
    ensures read { result_map_both (λ f. (
      node_at (code_form f.form.now)
          (T.codes f.start),
      T.codes f.rest,
    )) (λ s. s) result
        ≡ told_read (map code_form forms.now) (T.codes text) }
    ensures found { IfOk result (λ f. IsFound (code_form f.form.now) (T.codes f.start) f.head f.len) }
{
    match first_form(forms, text) {
        Ok(found) => {
            if is_told(forms, &found) {
                Ok(found)
            } else {
                Err(stop_at(text, Expected::Untold))
            }
        }
        Err(stop) => Err(stop),
    }
}

/// Puts the data of a node that was read. Reads the text again for the data after the fixed part.
pub fn put_data<S: Sink, T: Text>(sink: &mut S, found: &Found<T>)
    requires { IsFound (code_form found.now.form.now) (T.codes found.now.start) found.now.head found.now.len }
    ensures { S.content sink.new ≡ S.content sink.old ++ (node_at (code_form found.now.form.now)
        (T.codes found.now.start)).content }
{
    let form = found.form;
    put_all(sink, &found.head[..form.layout.size]);
    let mut fixed = [0; MOST_FIXED];
    let _read = read_steps(
        form.layout.steps,
        &mut fixed[..form.layout.size],
        sink,
        found.start,
    );
}
