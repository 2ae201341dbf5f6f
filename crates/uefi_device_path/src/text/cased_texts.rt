//! Texts that are passed on to a sink: unchanged, or in lower case after a number of commas.
#![tactic(auto, using(uefi_text::proofs::Puts::puts))]

ghost use Rattle.std.specs.Fmt.{WritesInCalls};
ghost use Rattle.std.specs.Prelude.{◌≡◌, encode_utf8, true};
ghost use Rattle.std.specs.Str.{IsUtf8, chars};
ghost use Rattle.uefi_device_path.specs.LibefivarTexts.{cased, commas_after, commas_left, commas_to_come, lowered, lowered_text};

use uefi_text::text_sink::{Printed, TextSink};

/// A sink that passes texts on to another, unchanged or in lower case after a number of commas.
///
/// All nodes of paths are put into such a sink, so that a program has the code that prints nodes once for
/// each sink, and not once more for the case.
#[derive(Drop)]
struct CasedSink<'s, S: TextSink> {
    sink: &'s mut S,

    /// Whether texts are put in lower case.
    lowers: bool,

    /// The number of commas that remain before that.
    commas: usize,
}

/// Returns a character, in lower case if no comma remains.
fn lowered(commas: usize, character: char) -> char
    ensures { result ≡ lowered commas character }
{
    if commas == 0 {
        character.to_ascii_lowercase()
    } else {
        character
    }
}

/// Returns how many of these commas remain after a character.
fn commas_after(commas: usize, character: char) -> usize
    ensures { result ≡ commas_after commas character }
{
    if character == ',' {
        commas.saturating_sub(1)
    } else {
        commas
    }
}

impl<'s, S: TextSink> CasedSink<'s, S> {
    /// Returns the sink, before any text.
    fn of(sink: &'s mut S, lowers: bool, commas: usize) -> Self
        ensures same_reference { result.sink.ghost_name ≡ sink.entry.ghost_name }
        ensures same { result.sink.now ≡ sink.old }
        ensures lowers { result.lowers ≡ lowers }
        ensures commas { result.commas ≡ commas }
    {
        CasedSink {
            sink,
            lowers,
            commas,
        }
    }

    /// Passes a character on, lowered.
    fn pass(&mut self, character: char)
        ensures same_reference { self.new.sink.ghost_name ≡ self.old.sink.ghost_name }
        ensures passed { WritesInCalls S.puts self.old.sink.now
            (encode_utf8 (lowered self.old.commas character)) self.new.sink.now }
        ensures commas { self.new.commas ≡ commas_after self.old.commas character }
        ensures lowers { self.new.lowers ≡ self.old.lowers }
    {
        self.sink.put_char(lowered(self.commas, character));
        self.commas = commas_after(self.commas, character);
    }

    /// Passes a text on, lowered.
    fn pass_all(&mut self, text: &str)
        ensures same_reference { self.new.sink.ghost_name ≡ self.old.sink.ghost_name }
        ensures passed { WritesInCalls S.puts self.old.sink.now
            (lowered_text self.old.commas text.now) self.new.sink.now }
        ensures commas { self.new.commas ≡ commas_left self.old.commas (chars text.now) }
        ensures lowers { self.new.lowers ≡ self.old.lowers }
    {
        for character in text.chars() {
            self.pass(character);
        }
    }
}

/// Passes each text on.
impl<'s, S: TextSink> TextSink for CasedSink<'s, S> {
    ghost puts = { λ old text new. (new.sink.ghost_name ≡ old.sink.ghost_name)
        × (IsUtf8 text × ((WritesInCalls S.puts old.sink.now (cased old.lowers old.commas text) new.sink.now)
        × ((new.commas ≡ commas_to_come old.lowers old.commas text) × (new.lowers ≡ old.lowers)))) };

    fn put_str(&mut self, text: &str) {
        if self.lowers {
            self.pass_all(text);
        } else {
            self.sink.put_str(text);
        }
    }

    fn put_char(&mut self, character: char) {
        if self.lowers {
            self.pass(character);
        } else {
            self.sink.put_char(character);
        }
    }
}

/// Puts the text of a value into a sink that passes it on.
fn put_value<S: TextSink, P: Printed>(sink: &mut CasedSink<'_, S>, value: &P)
    ensures same_reference { sink.new.sink.ghost_name ≡ sink.old.sink.ghost_name }
    ensures text { WritesInCalls S.puts sink.old.sink.now
        (cased sink.old.lowers sink.old.commas (P.printed value.now)) sink.new.sink.now }
{
    value.put(sink);
}

/// Puts the text of a value, in lower case after a number of commas.
pub(crate) fn put_lowered<S: TextSink, P: Printed>(sink: &mut S, commas: usize, value: &P)
    ensures { WritesInCalls S.puts sink.old (lowered_text commas (P.printed value.now)) sink.new }
{
    let mut lowered = CasedSink::of(sink, true, commas);
    put_value(&mut lowered, value);
}

/// Puts the text of a value.
pub(crate) fn put_unchanged<S: TextSink, P: Printed>(sink: &mut S, value: &P)
    ensures { WritesInCalls S.puts sink.old (P.printed value.now) sink.new }
{
    let mut same = CasedSink::of(sink, false, 0);
    put_value(&mut same, value);
}

/// A value that is printed by the code that prints the nodes of paths.
#[derive(Clone, Copy)]
pub struct AsInPath<P: Printed + Copy>(pub P);

/// Puts the text of the value.
impl<P: Printed + Copy> Printed for AsInPath<P> {
    ghost printed = { λ value. P.printed value.0 };

    fn put<S: TextSink>(&self, sink: &mut S) {
        put_unchanged(sink, &self.0);
    }
}
