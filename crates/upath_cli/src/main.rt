//! Reads lines of path commands from standard input, and prints their results.
//!
//! The exit status is 0; 2 if a read or a write failed; or 3 if memory ran out, with `out of memory` on
//! standard error.
#![tactic(auto)]

use std::io;
use std::process::ExitCode;
use upath::{ProgramEnd, Watched, run_streams};

fn main(rt: HostRuntime) -> ExitCode {
    let mut reader = Watched::new(rt.reader());
    let mut writer = Watched::new(io::writer(&rt));
    let end = ProgramEnd::after(run_streams(rt.alloc(), &mut reader, &mut writer));
    // There is nothing to do if standard error can't be written.
    let _ = eprint!(rt; "{}", end.message);
    end.status
}
