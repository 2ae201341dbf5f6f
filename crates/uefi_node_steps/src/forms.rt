//! Whole forms, printed and read.
#![tactic(auto)]

ghost use Rattle.std.specs.Fmt.{WritesInCalls};
ghost use Rattle.std.specs.List.{list_all};
ghost use Rattle.std.specs.Prelude.{◌≡◌, ◌≤◌, IsTrue, length};
ghost use Rattle.uefi_node_steps.specs.Nodes.{parts_in};
ghost use Rattle.uefi_node_steps.specs.Printing.{code_form, is_laid_step};
ghost use Rattle.uefi_node_steps.specs.Steps.{are_apart, blank, is_sound_step};
ghost use Rattle.uefi_node_steps.specs.Table.{form_leaf};
ghost use Rattle.uefi_node_steps.specs.Views.{filled_with};

use crate::printing::put_steps;
use crate::reading::read_steps;
use crate::steps::{Form, Stop};
use crate::texts::{Sink, Text};
use uefi_text::text_sink::TextSink;

/// Puts the data of a node in a form.
pub fn put_form<S: TextSink>(sink: &mut S, form: &Form, content: &[u8])
    requires laid { IsTrue (list_all (is_laid_step (code_form form.now).laid.size)
        (code_form form.now).laid.steps) }
    requires long { (code_form form.now).laid.size ≤ length content.now }
    ensures { WritesInCalls S.puts sink.old
        ((form_leaf (code_form form.now)).text
        (parts_in (code_form form.now) content.now)) sink.new }
{
    let (fixed, tail) = content.split_at(form.layout.size);
    put_steps(sink, form.layout.steps, fixed, tail);
}

/// Reads the data of a node in a form. The buffer contains the form's fixed bytes and zeros, and
/// the data after the fixed part is put into the sink.
pub fn read_form<T: Text, S: Sink>(
    form: &Form,
    fixed: &mut [u8],
    tail: &mut S,
    text: T,
) -> Result<T, Stop>
    requires blank { (fixed.old, S.content tail.old)
        ≡ blank (code_form form.now).laid }
    requires sound { IsTrue (list_all (is_sound_step (length fixed.old)) (code_form form.now).laid.steps) }
    requires apart { IsTrue (are_apart (code_form form.now).laid.steps) }
    ensures { filled_with T.codes (fixed.new, S.content tail.new) result
        ≡ (form_leaf (code_form form.now)).read
        (T.codes text) }
{
    read_steps(form.layout.steps, fixed, tail, text)
}
