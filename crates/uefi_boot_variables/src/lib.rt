//! The variables that say what a machine boots: their names, and the orders in which options are
//! tried.
//!
//! A load option is a variable whose name is a word and four digits, for example `Boot001F`, and an
//! order is a variable that lists the numbers of these names (UEFI Specification 2.10, sections 3.1
//! and 3.3). A [`LoadOptionName`] is the name of a load option, read from text and written as text.
#![tactic(auto)]

pub mod laws;
pub mod order_buffer;
pub mod order_edits;
pub mod orders;
pub mod present;
pub mod variable_names;

pub use order_buffer::OrderBuffer;
pub use order_edits::OrderFull;
pub use orders::{LoadOrder, NotTwoBytes, OddLength, read_number};
pub use present::PresentOptions;
pub use variable_names::{LoadOptionKind, LoadOptionName};
