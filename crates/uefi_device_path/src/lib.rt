//! Device paths and boot load options of UEFI firmware, read in place.
//!
//! A *device path* is a list of nodes, packed in bytes, that says where a device or a file is (UEFI
//! Specification 2.10, chapter 10). A *load option* is the value of a variable `Boot####`:
//! attributes, a description, device paths and optional data (section 3.1.3).
//! [`DevicePath::from_bytes`] and [`LoadOption::from_bytes`] test all lengths once, and return
//! views that borrow the bytes: no later call fails because of a length, reads beyond the end, or
//! loops without consuming a node.
//!
//! ```rust
//! use uefi_device_path::{DevicePath, DeviceType};
//!
//! let path = DevicePath::from_bytes(&[1, 1, 6, 0, 0, 0x1f, 0x7f, 0xff, 4, 0])?;
//! for node in path.node_iter() {
//!     assert_eq!(rt; node.device_type(), DeviceType::HARDWARE);
//!     assert_eq!(rt; node.data(), [0, 0x1f].as_slice());
//! }
//! ```
//!
//! [`DevicePathNode::as_enum`] returns the view for a node's kind, with a call for each field, and
//! [`build`] has a struct for each kind of node that can be pushed on a path.
//!
//! A contract sees a node as `node_of` it, a record of its type, its sub-type and its data; a path
//! as `nodes_of` it, the list of its nodes without the end node; and a load option as `entry_of`
//! it. An error says what is wrong and at which offset, and no other error fits the bytes. Only
//! calls that say so allocate.
#![tactic(auto)]

pub mod build;
mod checked_nodes;
mod device_path;
mod device_path_buf;
mod device_path_builder;
mod errors;
mod extent;
mod file_path;
mod instance;
pub mod laws;
mod load_option;
mod load_option_builder;
mod load_option_edits;
mod load_option_parts;
mod matching;
mod node_iterator;
mod path_in_buf;
mod path_list;
mod text;

pub use build::BuildNode;
pub use checked_nodes::CheckedNodes;
pub use device_path::DevicePath;
pub use device_path_buf::DevicePathBuf;
pub use device_path_builder::DevicePathBuilder;
pub use errors::{
    BuildError, DevicePathError, FilePathCause, FilePathError, FilePathWriteError, GrowError,
    LoadOptionCause, LoadOptionError, NodeConversionError, NodeError, OptionBuildError,
};
pub use extent::{PathCut, PathExtent};
pub use file_path::FilePathText;
pub use instance::{DevicePathInstance, DevicePathInstanceIterator};
pub use load_option::LoadOption;
pub use load_option_builder::LoadOptionBuilder;
pub use load_option_edits::set_attributes;
pub use load_option_parts::LoadOptionParts;
pub use matching::ShortForm;
pub use node_iterator::DevicePathNodeIterator;
pub use path_in_buf::{append_in_buf, push_at_in_buf, push_in_buf};
pub use path_list::{DevicePaths, check_paths};
pub use text::path_text::{LibefivarText, PathText, TEXT_UNITS_PER_BYTE};
pub use text::text_errors::{Choice, Expected, PathTextError, PushTextError, TextFault};
pub use text::text_in_buf::{
    push_lenient_text_in_buf, push_libefivar_text_in_buf, push_text_in_buf,
};
// The C library uses this, so that it has the code that prints nodes once.
#[doc(hidden)]
pub use text::cased_texts::AsInPath;
// The C library uses this; callers in Rattle have a call for each style.
#[doc(hidden)]
pub use text::text_in_buf::{push_any_text_in_buf, push_styled_text_in_buf};
// The C library uses this too.
#[doc(hidden)]
pub use text::text_extent::styled_text_extent;
pub use text::text_extent::{lenient_text_extent, libefivar_text_extent};
pub use uefi_device_nodes::field_texts::forms::{AllowShortcuts, DisplayOnly};
pub use uefi_device_nodes::field_texts::guid::Guid;
pub use uefi_device_nodes::field_texts::shown_texts::is_escaped;
pub use uefi_device_nodes::node::{DevicePathNode, DeviceSubType, DeviceType};
pub use uefi_device_nodes::node_enum::DevicePathNodeEnum;
pub use uefi_device_nodes::node_text::NodeText;
pub use uefi_device_nodes::typed_node::TypedNode;
pub use uefi_device_nodes::{acpi, bios_boot_spec, hardware, media, messaging};
// The C library uses this too.
#[doc(hidden)]
pub use uefi_device_nodes::node::fault_place;
pub use uefi_device_nodes::node_table::layouts;
#[doc(hidden)]
pub use uefi_node_reader::named_files::NameText;
#[doc(hidden)]
pub use uefi_node_reader::styles::TextStyle;
#[doc(hidden)]
pub use uefi_node_reader::texts::Text;
#[doc(hidden)]
pub use uefi_node_reader::utf16_texts::{Utf16Text, units_within};
pub use uefi_text::unit_sink::BufferTooSmall;
