//! Why and where a text is not read as a node, and what is expected there.

#[doc(hidden)]
pub mod faults;
pub(crate) mod mistakes;
pub(crate) mod near_names;
pub(crate) mod stops;
pub(crate) mod tail_stops;
