//! The library for callers in C, and in any language that calls C: `include/nardcorbel.h` declares
//! each call.
//!
//! Each call states the library's clauses again, over slices and numbers. A slice is passed as a
//! pointer and a length, and a status as a number of [`reasons`]. No call allocates.
#![tactic(auto)]

pub mod boot_variables;
pub mod buffers;
pub mod device_paths;
pub mod fat_names;
pub mod load_options;
mod outcomes;
pub mod packed_units;
pub mod paths;
pub mod reasons;
pub mod strings;
mod utf8_buffers;
pub mod utf8_texts;
