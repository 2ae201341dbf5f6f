//! The commands and options of the program, their usage texts, and what to type instead of a wrong word.

pub(crate) mod arguments;
pub(crate) mod help;
pub(crate) mod hints;
