//! The structs of nodes that can be pushed on a device path, in a module for each type of node.

pub use crate::errors::BuildError;
pub use uefi_device_nodes::acpi::build as acpi;
pub use uefi_device_nodes::bios_boot_spec::build as bios_boot_spec;
pub use uefi_device_nodes::build_node::{BuildNode, RawNode};
pub use uefi_device_nodes::fields::Fields;
pub use uefi_device_nodes::hardware::build as hardware;
pub use uefi_device_nodes::media::build as media;
pub use uefi_device_nodes::messaging::build as messaging;
