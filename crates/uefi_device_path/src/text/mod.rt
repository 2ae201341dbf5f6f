//! Device paths as text: printed in each style, and read from what programs print and people type.

pub(crate) mod around_nodes;
pub(crate) mod cased_texts;
pub(crate) mod instance_text;
pub(crate) mod libefivar_nodes;
pub(crate) mod node_sinks;
pub(crate) mod path_reader;
pub(crate) mod path_text;
pub(crate) mod styled_reader;
pub(crate) mod text_errors;
pub(crate) mod text_extent;
pub(crate) mod text_in_buf;
