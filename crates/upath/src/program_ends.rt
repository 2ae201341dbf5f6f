//! The end of a program after a run.
ghost use Rattle.std.specs.Prelude.{◌≡◌};
ghost use Rattle.std.specs.Process.{exit_status};
ghost use Rattle.std.specs.Result.{result_err};
ghost use Rattle.upath.specs.ProgramEnds.{message_after, status_after};

use crate::streams::StreamFault;
use std::process::ExitCode;

/// The end of a program after a run: its status, and its message on standard error.
#[derive(Clone, Copy)]
pub struct ProgramEnd {
    /// The exit status of the process.
    pub status: ExitCode,

    /// The text that is written to standard error. It may be empty.
    pub message: &'static str,
}

impl ProgramEnd {
    /// Returns the end of a program after this result of [`crate::run_streams`].
    ///
    /// | result | status | message |
    /// |---|---|---|
    /// | everything was written | 0 | none |
    /// | a read, a write or the flush failed | 2 | none |
    /// | memory ran out | 3 | the line `out of memory` |
    ///
    /// ```rust
    /// assert_eq!(rt; ProgramEnd::after(Ok(())).message, "");
    /// let end = ProgramEnd::after(Err(StreamFault::OutOfMemory));
    /// assert_eq!(rt; end.message, "out of memory\n");
    /// ```
    pub fn after(outcome: Result<(), StreamFault>) -> ProgramEnd
        ensures status { exit_status result.status ≡ status_after (result_err outcome) }
        ensures message { result.message.now ≡ message_after (result_err outcome) }
    {
        let (status, message) = match outcome {
            Ok(()) => (0, ""),
            Err(StreamFault::Read | StreamFault::Write) => (2, ""),
            Err(StreamFault::OutOfMemory) => (3, "out of memory\n"),
        };
        ProgramEnd {
            status: ExitCode::from(status),
            message,
        }
    }
}
