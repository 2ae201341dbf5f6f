//! Plans of the writes and deletions that change the boot variables, made before anything is
//! written.
//!
//! A [`Step`] writes one whole variable, or deletes it, and a plan is a list of steps in the order
//! in which they are taken. Each call makes the plan for one change from the values of the
//! variables, and its contract states the whole plan: which variables are written with which bytes,
//! which are deleted, and in which order. No plan touches another variable.
//!
//! In each plan an entry is written before the order that names it, and an order without an entry
//! is written before the entry is deleted. Only [`delete_on_full`] deletes the entry first. The law
//! [`laws::power_failures`] states what this leaves if the power fails between two steps.
#![tactic(auto)]

pub mod entries;
pub mod laws;
pub mod orders;
pub mod plan;

pub use entries::{rename, set_active};
pub use orders::{
    clear, create, create_unlisted, delete, delete_on_full, first, free_number, next, order,
    timeout,
};
pub use plan::{PlanError, Step, Variable};
