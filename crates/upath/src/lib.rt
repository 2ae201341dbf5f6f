//! Operations of programs on the paths of UEFI firmware: checking bytes, running lists of commands,
//! and reading lines of commands and printing the result of each.
//!
//! [`judge`] returns the path that bytes from outside encode, or why they encode none.
//! [`run_commands`] runs a list of commands on a path, [`pieces`] lists its components, and
//! [`all_parents`] lists its successive parents.
//!
//! [`run_text`] returns what the lines of an input print, and [`run_streams`] writes the same from
//! a reader to a writer, both [`Watched`]. The contract of both calls is one definition,
//! `output_of` in `specs/Output.antt`: the output is a function of the whole input, and of nothing
//! else.
//!
//! ```rust
//! let output = upath::run_text(rt.alloc(), b"from \\foo\\bar\npieces\n")?;
//! assert_eq!(rt; output.as_slice(), b"= \\foo\\bar\npieces 2\n| foo\n| bar\n".as_slice());
//! ```
//!
//! [`ProgramEnd`] says how a program ends after such a run, and [`laws`] has the laws for proofs of
//! callers.
#![tactic(auto)]

mod commands;
mod inputs;
mod judging;
pub mod laws;
mod lines;
mod output;
mod path_commands;
mod program_ends;
mod run;
mod streams;
mod watched;

pub use inputs::run_text;
pub use judging::{JudgeError, judge};
pub use path_commands::{PathCommand, RunFault, all_parents, pieces, run_commands};
pub use program_ends::ProgramEnd;
pub use streams::{StreamFault, run_streams};
pub use watched::Watched;
