//! The layer of `uefi_device_path` that reads nodes of device paths from their texts.
//!
//! It reads exactly the texts that `uefi_device_nodes` prints (UEFI Specification 2.10, section 10.6.1),
//! if they describe their nodes completely. It also reads texts as people write them, and as libefivar
//! prints them. Callers use `uefi_device_path`, which reads whole paths.
#![tactic(auto)]

mod counted_bytes;
pub mod errors;
pub mod exact;
#[doc(hidden)]
pub mod file_node;
pub mod lenient;
mod libefivar;
mod name_data;
#[doc(hidden)]
pub mod named_files;
#[doc(hidden)]
pub mod node_texts;
mod plain_nodes;
#[doc(hidden)]
pub mod read_node;
#[doc(hidden)]
pub mod styles;
#[doc(hidden)]
pub mod texts;
#[doc(hidden)]
pub mod utf16_texts;
