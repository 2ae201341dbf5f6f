//! Node text as people type it, and calls that programs print for different nodes.

#[doc(hidden)]
pub mod ambiguous;
pub(crate) mod call_faults;
pub(crate) mod complete_texts;
pub(crate) mod lenient_fields;
#[doc(hidden)]
pub mod lenient_names;
pub(crate) mod lenient_table;
pub(crate) mod short_addresses;
pub(crate) mod text_calls;
#[doc(hidden)]
pub mod tidied;
