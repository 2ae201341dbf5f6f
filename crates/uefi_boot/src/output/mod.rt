//! Boot variables and entries, printed for people and as JSON.

pub(crate) mod boot_manager;
pub(crate) mod entry;
pub(crate) mod growing_texts;
pub(crate) mod listing;
pub(crate) mod optional_data;
