//! The ways in which the program ends, and where its output goes.
use crate::output::growing_texts::Growing;
use std::alloc::{AllocError, AllocFailed};
use std::fmt;
use std::io::{self, Write};
use std::process::ExitCode;

/// Why a run ends early.
#[derive(Drop)]
pub(crate) enum End {
    OutOfMemory,
    /// Standard output can't be written, or standard input can't be read.
    NoStream,
    /// Standard error has the reason. The number is the exit status.
    Refused(u8),
}

/// Exit statuses of refused runs.
pub(crate) const MALFORMED: u8 = 1;

pub(crate) const UNREADABLE: u8 = 4;

pub(crate) const WRONG_ARGUMENTS: u8 = 5;

pub(crate) const UNWRITTEN: u8 = 6;

/// Returns the exit status of a run that read all variables, or not, of which none is malformed, or some.
pub(crate) fn status_of_listing(is_read: bool, is_well: bool) -> u8 {
    if !is_read {
        UNREADABLE
    } else if !is_well {
        MALFORMED
    } else {
        0
    }
}

impl From<AllocError> for End {
    fn from(_error: AllocError) -> End {
        End::OutOfMemory
    }
}

impl<T: Drop> From<AllocFailed<T>> for End {
    fn from(_error: AllocFailed<T>) -> End {
        End::OutOfMemory
    }
}

/// Writing a text in memory fails only if memory runs out.
impl From<fmt::Error> for End {
    fn from(_error: fmt::Error) -> End {
        End::OutOfMemory
    }
}

/// Ends the program with the exit status of a run.
pub(crate) fn status_of(rt: &HostRuntime, ended: Result<u8, End>) -> ExitCode {
    match ended {
        Ok(status) | Err(End::Refused(status)) => ExitCode::from(status),
        Err(End::NoStream) => ExitCode::from(2),
        Err(End::OutOfMemory) => {
            // There is nothing to do if standard error can't be written.
            let _ = eprint!(rt; "out of memory\n");
            ExitCode::from(3)
        }
    }
}

/// A text in parts.
#[derive(Drop)]
pub(crate) struct Parts<'p>(pub(crate) &'p [&'p str]);

impl<'p> fmt::Display for Parts<'p> {
    fn fmt<W: fmt::Write>(&self, f: &mut fmt::Formatter<W>) -> fmt::Result {
        for part in self.0 {
            f.write_str(part)?;
        }
        Ok(())
    }
}

/// Prints a line on standard error.
pub(crate) fn complain(rt: &HostRuntime, message: impl fmt::Display + Drop) {
    // There is nothing to do if standard error can't be written.
    let _ = rt.eprintln(message);
}

/// Reports why a run is refused.
pub(crate) fn refuse_with(rt: &HostRuntime, status: u8, message: impl fmt::Display + Drop) -> End {
    complain(rt, message);
    End::Refused(status)
}

/// Reports why a run is refused, by a message in parts.
pub(crate) fn refuse(rt: &HostRuntime, status: u8, message: &[&str]) -> End {
    refuse_with(rt, status, Parts(message))
}

/// Reports what fails, by a message in parts, and why it fails.
pub(crate) fn refuse_for(
    rt: &HostRuntime,
    status: u8,
    what: &[&str],
    cause: impl fmt::Display + Drop,
) -> End {
    refuse_with(rt, status, format_args!("{}: {cause}", Parts(what)))
}

/// A text that goes to standard output in parts.
#[derive(Drop)]
pub(crate) struct Output<'a> {
    rt: &'a HostRuntime,
    pub(crate) text: Growing,
}

impl<'a> Output<'a> {
    pub(crate) fn new(rt: &'a HostRuntime) -> Output<'a> {
        Output {
            rt,
            text: Growing::new(rt.alloc()),
        }
    }

    /// Writes the text so far.
    pub(crate) fn flush(&mut self) -> Result<(), End> {
        if io::writer(self.rt)
            .write_all(self.text.so_far()?.as_bytes())
            .is_err()
        {
            return Err(End::NoStream);
        }
        self.text.clear();
        Ok(())
    }
}

/// Prints a text in parts.
pub(crate) fn print(rt: &HostRuntime, parts: &[&str]) -> Result<(), End> {
    let mut out = Output::new(rt);
    out.text.add(parts);
    out.flush()
}
