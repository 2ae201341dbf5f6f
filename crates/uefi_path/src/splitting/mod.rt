//! How a path is split: its separators, its components with their kinds, and the component at fault.

pub(crate) mod component_indices;
pub(crate) mod component_kinds;
pub(crate) mod components;
pub(crate) mod fault_places;
pub(crate) mod separators;
pub(crate) mod slashed;
