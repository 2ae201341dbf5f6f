//! The laws for proofs of callers. They are about the definitions that other contracts cite. Each
//! law is a function that does nothing: its contract is the law. Each is defined in the crate whose
//! definitions it is about, and all are re-exported here.
pub use uefi_path::laws::{
    join_components, join_congruence, join_monoid, join_then_parent, join_valid, normal_once,
    normal_unique, order_agrees, parent_congruence, parent_count, parent_shape, parent_valid,
    parents_enumerate, push_components, split_once, validity,
};
pub use uefi_text::laws::{bytes_once, text_once};
