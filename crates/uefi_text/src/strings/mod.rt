//! Borrowed and owned strings of UCS-2 and Latin-1, their comparison with Rust text, and packed units
//! as strings.

pub mod eq_str_until_nul;
pub(crate) mod latin1;
pub mod owned_strs;
pub(crate) mod strings_in_bytes;
pub mod strs;
