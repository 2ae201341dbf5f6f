//! Callers of the library, with contracts of their own: they do what a boot menu does with its
//! entries. The page of each crate shows one of them.
//!
//! They use only public clauses and no proof file, as a crate of another repository would.
#![tactic(auto)]

pub mod boot_orders;
pub mod edits;
pub mod entries;
pub mod fat_names;
pub mod loaders;
pub mod names;
pub mod paths;
pub mod stored;
#[cfg(test)]
mod tests;
