//! A reader of which one call fails.

use std::io::{self, ErrorKind, Read};

/// A reader that returns at most `step` bytes a call. Its call number `failing`, counted from 1, fails; no
/// call fails if the number is 0.
#[derive(Drop)]
pub struct FailingReader<'a> {
    pub rest: &'a [u8],
    pub step: usize,
    pub failing: usize,
    pub kind: ErrorKind,
    pub calls: usize,
}

impl Read for FailingReader<'_> {
    fn read(&mut self, buf: &mut [u8]) -> io::Result<usize> {
        self.calls = self.calls.saturating_add(1);
        if self.calls == self.failing {
            return Err(io::Error::from(self.kind));
        }
        let len = self.step.min(buf.len()).min(self.rest.len());
        let (given, others) = self.rest.split_at(len);
        buf[..len].copy_from_slice(given);
        self.rest = others;
        Ok(len)
    }
}
