//! Texts that are compared with what is printed.
#![tactic(auto)]

ghost use Rattle.std.specs.List.{list_all};
ghost use Rattle.std.specs.Prelude.{◌≡◌, ◌≤◌, IsTrue, false, length, map};
ghost use Rattle.std.specs.Result.{result_map_both};
ghost use Rattle.uefi_node_steps.specs.Heads.{IsFound, is_laid, is_small, node_at};
ghost use Rattle.uefi_node_steps.specs.Nodes.{node_text, parts_in, printed_read, then_printed};
ghost use Rattle.uefi_node_steps.specs.Printing.{code_form, is_laid_step};
ghost use Rattle.uefi_node_steps.specs.Table.{form_leaf};

use crate::forms::put_form;
use crate::leaves::stop_at;
use crate::steps::{Expected, Form, Stop};
use crate::texts::Text;
use crate::walk::{Found, find_printing_form};
use uefi_text::text_sink::TextSink;

/// Returns what is left of a text after letters, or where it differs from them.
fn after_printed<T: Text>(letters: &[u8], text: T) -> Result<T, Stop>
    ensures { result_map_both T.codes (λ s. s) result ≡ printed_read letters.now (T.codes text) }
{
    let mut rest = text;
    for letter in letters {
        match rest.split_first() {
            Some((first, others)) if first == *letter => rest = others,
            _ => return Err(stop_at(rest, Expected::Letter(*letter))),
        }
    }
    Ok(rest)
}

/// Returns what is left after more letters.
fn then_printed<T: Text>(left: Result<T, Stop>, letters: &[u8]) -> Result<T, Stop>
    ensures { result_map_both T.codes (λ s. s) result
        ≡ then_printed (result_map_both T.codes (λ s. s) left) letters.now }
{
    match left {
        Ok(rest) => after_printed(letters, rest),
        Err(stop) => Err(stop),
    }
}

/// What is left of a text after what was printed, or where the two differ.
#[derive(Clone, Copy)]
struct Compared<T> {
    left: Result<T, Stop>,
}

/// Compares each part with the text.
impl<T: Text> TextSink for Compared<T> {
    ghost puts = { λ old text new. result_map_both T.codes (λ s. s) new.left
        ≡ then_printed (result_map_both T.codes (λ s. s) old.left) text };

    fn put_str(&mut self, text: &str) {
        self.left = then_printed(self.left, text.as_bytes());
    }

    fn put_char(&mut self, character: char) {
        let mut buffer = [0; 4];
        let text = character.encode_utf8(&mut buffer);
        self.left = then_printed(self.left, text.as_bytes());
    }
}

/// Compares a text with the text that a form prints for data, and returns what is left of it, or where the
/// two differ.
pub fn after_form<T: Text>(form: &Form, content: &[u8], text: T) -> Result<T, Stop>
    requires laid { IsTrue (list_all (is_laid_step (code_form form.now).laid.size)
        (code_form form.now).laid.steps) }
    requires long { (code_form form.now).laid.size ≤ length content.now }
    ensures { result_map_both T.codes (λ s. s) result ≡ printed_read
        ((form_leaf (code_form form.now)).text
        (parts_in (code_form form.now) content.now)) (T.codes text) }
{
    let mut compared = Compared { left: Ok(text) };
    put_form(&mut compared, form, content);
    compared.left
}

/// Compares the text of a node that was read with the text that is printed for it, and returns what is left
/// of it, or where the two differ. The text is exact if something is returned.
pub fn exact_rest<T: Text>(forms: &[Form], found: &Found<T>, content: &[u8]) -> Result<T, Stop>
    requires small { IsTrue (list_all is_small (map code_form forms.now)) }
    requires laid { IsTrue (list_all is_laid (map code_form forms.now)) }
    requires found { IsFound (code_form found.now.form.now)
        (T.codes found.now.start) found.now.head found.now.len }
    requires content { content.now
        ≡ (node_at (code_form found.now.form.now) (T.codes found.now.start)).content }
    ensures { result_map_both T.codes (λ s. s) result
        ≡ printed_read (node_text false (map code_form forms.now)
        (node_at (code_form found.now.form.now) (T.codes found.now.start))) (T.codes found.now.start) }
{
    match find_printing_form(forms, found) {
        Some(form) => after_form(form, content, found.start),
        None => Ok(found.start),
    }
}
