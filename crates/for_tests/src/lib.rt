//! Helpers that `memory_tests` and the files of `tests/` share: an allocator that refuses one request, runs
//! that refuse each request in turn, a reader of which one call fails, positions at which to hide a fault,
//! and texts as strings, in print and as hexadecimal bytes.
//!
//! No product crate depends on this crate.
#![tactic(auto)]

pub mod failing_reader;
pub mod hostile;
pub mod refusals;
pub mod refusing;
pub mod texts;

pub use failing_reader::FailingReader;
pub use hostile::hostile_places;
pub use refusals::{MemoryCall, Refusals, is_answered, out_of_memory, refused_in_turn, requests};
pub use refusing::Refusing;
pub use texts::{
    BufferCall, END, are_ordered, bytes, characters, has_text, holds, prints, repeated, says,
    shows, split_row, string, writes_whole,
};
