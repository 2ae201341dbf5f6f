//! Builds texts in memory. Printing goes on after an allocation has failed, and whoever takes the text
//! learns of it, so that the functions that print need no results.
ghost use Rattle.std.specs.Prelude.{⊤};

use std::alloc::{AllocError, Global};
use std::fmt::{Display, Write};
use uefi_text::{Printed, TextSink};

/// A text, and whether an allocation for a part of it failed.
#[derive(Drop)]
pub(crate) struct Growing {
    text: String,
    is_refused: bool,
}

impl TextSink for Growing {
    ghost puts = { λ _ _ _. ⊤ };

    fn put_str(&mut self, text: &str) {
        // Many parts of nodes are empty.
        if !text.is_empty() && !self.is_refused {
            self.is_refused = self.text.push_str(text).is_err();
        }
    }

    fn put_char(&mut self, character: char) {
        if !self.is_refused {
            self.is_refused = self.text.push(character).is_err();
        }
    }
}

impl Growing {
    pub(crate) fn new(alloc: Global) -> Growing {
        Growing {
            text: String::new(alloc),
            is_refused: false,
        }
    }

    /// Adds a character.
    pub(crate) fn add_char(&mut self, character: char) {
        self.put_char(character);
    }

    /// Adds the parts of a text.
    pub(crate) fn add(&mut self, parts: &[&str]) {
        for part in parts {
            self.put_str(part);
        }
    }

    /// Adds the text of a value.
    pub(crate) fn show<D: Display>(&mut self, value: &D) {
        if !self.is_refused {
            self.is_refused = write!(self.text, "{value}").is_err();
        }
    }

    /// Returns the text so far.
    pub(crate) fn so_far(&self) -> Result<&str, AllocError> {
        if self.is_refused {
            return Err(AllocError);
        }
        Ok(self.text.as_str())
    }

    /// Removes the text so far.
    pub(crate) fn clear(&mut self) {
        self.text.clear();
    }

    /// Returns the whole text.
    pub(crate) fn finish(self) -> Result<String, AllocError> {
        if self.is_refused {
            return Err(AllocError);
        }
        Ok(self.text)
    }
}

/// Returns a text in parts as one text.
pub(crate) fn joined(alloc: Global, parts: &[&str]) -> Result<String, AllocError> {
    let mut text = Growing::new(alloc);
    text.add(parts);
    text.finish()
}

/// Returns the text of a value.
pub(crate) fn text_shown<D: Display>(alloc: Global, value: &D) -> Result<String, AllocError> {
    let mut text = Growing::new(alloc);
    text.show(value);
    text.finish()
}

/// Returns the text of a value of the library. A formatter would be called for every part of every node.
pub(crate) fn text_of<P: Printed>(alloc: Global, value: &P) -> Result<String, AllocError> {
    let mut text = Growing::new(alloc);
    value.put(&mut text);
    text.finish()
}
