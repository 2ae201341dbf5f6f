//! The forms of nodes as lists of steps.
//!
//! A form prints a node as a text, and reads the text back. It is made of leaves, each of which
//! prints and reads the values of one type: a letter, a number, a word, a GUID. A leaf has two
//! laws: what it prints is read back, and whatever it reads is a value that it prints. Combinations
//! of leaves keep these laws, and so does a whole table of forms.
//!
//! Texts are read as people write them: in either case, with blanks before a number or a word, and with
//! numbers in decimal or in hexadecimal. A text within a call, such as an address of `Uri`, is read as it
//! is. An exact text equals the text that is printed for what was read.
#![tactic(auto)]

mod any_address;
pub mod exact;
mod fields;
pub mod forms;
pub mod head;
pub mod items;
pub mod laws;
mod leaves;
pub mod packed;
pub mod parts;
mod pools;
pub mod printing;
pub mod reading;
pub mod steps;
pub mod table;
pub mod texts;
pub mod told;
pub mod walk;
pub mod words;
