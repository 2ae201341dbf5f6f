//! Node text as the UEFI Specification prints it, read by the table of forms.

pub(crate) mod clear_texts;
pub(crate) mod data_form;
pub(crate) mod fields;
pub(crate) mod first_form;
pub(crate) mod first_letters;
pub(crate) mod form_fields;
pub(crate) mod form_places;
pub(crate) mod node_tails;
pub(crate) mod notations;
pub(crate) mod numerals;
#[doc(hidden)]
pub mod parsed_node;
pub(crate) mod table_reader;
