//! Device paths in bytes that C holds: reading, comparing, building, printing and parsing them.

pub mod building;
pub mod formats;
pub(crate) mod growing;
pub mod node_numbers;
pub mod parsing;
pub mod reading;
pub mod text_styles;
