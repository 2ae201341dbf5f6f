//! The files of boot variables, the mounted file systems, and the exit statuses.

pub(crate) mod mounts;
pub(crate) mod program_ends;
pub(crate) mod variables;
