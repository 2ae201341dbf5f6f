//! Tests of each call that allocates: with ample memory, and with each of its requests refused in turn.
//!
//! Unlike those of `tests/`, these tests are proved, because only what is proved is compiled to the code that
//! callers run. `tools/check-leaks` runs this code under valgrind.
#![tactic(auto)]

#[cfg(test)]
mod boot_plans;
#[cfg(test)]
mod device_path;
#[cfg(test)]
mod path;
#[cfg(test)]
mod programs;
#[cfg(test)]
mod text;
