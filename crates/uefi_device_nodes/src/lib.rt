//! The layer of `uefi_device_path` below device paths: one node of a path, and the kinds of nodes.
//!
//! Callers use `uefi_device_path`, which re-exports what they need: [`DevicePathNode`], the numbers of
//! types and sub-types, the modules of kinds, the structs of nodes that are built, and the errors. Two
//! calls are public only for that crate, and hidden from the documentation.
//!
//! A contract sees a node as `node_of` it, a record of its type, its sub-type and its data, and a node of a
//! known kind as `data_of` it, its data. It sees a node that is built as its fields (`Fields`) and as a
//! node (`BuildNode`). No call allocates.
#![tactic(auto)]

pub mod acpi;
pub mod bios_boot_spec;
pub mod build_node;
pub mod errors;
pub mod field_texts;
pub mod fields;
pub mod hardware;
#[doc(hidden)]
pub mod laws;
pub mod media;
pub mod messaging;
pub mod node;
pub mod node_enum;
#[doc(hidden)]
pub mod node_table;
pub mod node_text;
#[doc(hidden)]
pub mod tails;
pub mod typed_node;
mod vendor;

pub use errors::{NodeConversionError, NodeError};
pub use field_texts::forms::{AllowShortcuts, DisplayOnly};
pub use field_texts::guid::Guid;
pub use node::{DevicePathNode, DeviceSubType, DeviceType};
pub use node_enum::DevicePathNodeEnum;
pub use node_text::NodeText;
pub use typed_node::TypedNode;
pub use uefi_text::unit_sink::BufferTooSmall;
