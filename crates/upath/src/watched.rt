//! Wrappers of readers and writers that record failed calls.
ghost use Rattle.std.specs.Prelude.{◌≡◌, ◌<◌, IfOk, OnOk, OnErr, false, length, true};
ghost use Rattle.std.specs.Io.{ReadsAtMost, WritesAtMost};
ghost use Rattle.std.specs.Io.KnownBytes.{Keeps, ReadConsumes, WriteAppends};
ghost use Rattle.upath.specs.Watched.{is_marked, stream_of};

use std::io::{self, ErrorKind, Read, Write};

/// A wrapper of a reader or a writer that records failed calls. The first failed call sets a mark,
/// which then stays set.
///
/// Each call returns an `Err` exactly if it sets the mark. No call is repeated.
///
/// ```rust
/// let mut reader = Watched::new(b"abc".as_slice());
/// let mut bytes = [0; 2];
/// assert!(rt; matches!(reader.read(&mut bytes), Ok(2)) && bytes == *b"ab");
/// assert!(rt; !reader.has_failed());
/// assert_eq!(rt; reader.into_inner(), b"c".as_slice());
/// ```
#[derive(Drop)]
pub struct Watched<T> {
    stream: T,
    failed: bool,
}

impl<T> Watched<T> {
    /// Wraps a stream, with no mark: no call has failed yet.
    pub fn new(stream: T) -> Self
        ensures stream { stream_of result ≡ stream }
        ensures unmarked { is_marked result ≡ false }
    {
        Watched {
            stream,
            failed: false,
        }
    }

    /// Returns whether a call failed: whether the mark is set.
    pub fn has_failed(&self) -> bool
        ensures { result ≡ is_marked self.now }
    {
        self.failed
    }

    /// Returns the stream. The mark is lost.
    pub fn into_inner(self) -> T
        ensures { result ≡ stream_of self }
    {
        let Watched { stream, failed: _ } = self;
        stream
    }
}

impl<R: Read> Watched<R> {
    /// Reads once from the reader. Sets the mark if the read fails, even if it was only
    /// interrupted.
    pub fn read(&mut self, buf: &mut [u8]) -> io::Result<usize>
        ensures bound { ReadsAtMost result buf.new }
        ensures bytes { ReadConsumes
            (R.remaining (stream_of self.old)) (R.remaining (stream_of self.new)) result buf.new }
        ensures ok { OnOk result (is_marked self.new ≡ is_marked self.old) }
        ensures err { OnErr result (is_marked self.new ≡ true) }
    {
        let outcome = self.stream.read(buf);
        self.failed |= outcome.is_err();
        outcome
    }
}

impl<W: Write> Watched<W> {
    /// Writes once to the writer. Sets the mark if the write fails, even if it was only
    /// interrupted. A write of at least one byte that takes none has failed, with
    /// [`ErrorKind::WriteZero`].
    ///
    /// ```rust
    /// let mut bytes = [0; 2];
    /// let mut writer = Watched::new(bytes.as_mut_slice());
    /// assert!(rt; matches!(writer.write(b"abc"), Ok(2)) && !writer.has_failed());
    /// assert!(rt; writer.write(b"c").is_err() && writer.has_failed());
    /// ```
    pub fn write(&mut self, buf: &[u8]) -> io::Result<usize>
        ensures bound { WritesAtMost result buf.now }
        ensures bytes { WriteAppends
            (W.contents (stream_of self.old)) (W.contents (stream_of self.new)) result buf.now }
        ensures some { IfOk result (λ count. 0 < length buf.now → 0 < count) }
        ensures ok { OnOk result (is_marked self.new ≡ is_marked self.old) }
        ensures err { OnErr result (is_marked self.new ≡ true) }
    {
        let outcome = match self.stream.write(buf) {
            Ok(0) if !buf.is_empty() => Err(io::Error::from(ErrorKind::WriteZero)),
            outcome => outcome,
        };
        self.failed |= outcome.is_err();
        outcome
    }

    /// Flushes the writer once. Sets the mark if the flush fails.
    ///
    /// ```rust
    /// let mut writer = Watched::new(Vec::<u8>::new(rt.alloc()));
    /// assert!(rt; writer.flush().is_ok() && !writer.has_failed());
    /// ```
    pub fn flush(&mut self) -> io::Result<()>
        ensures bytes { Keeps (W.contents (stream_of self.old)) (W.contents (stream_of self.new)) }
        ensures ok { OnOk result (is_marked self.new ≡ is_marked self.old) }
        ensures err { OnErr result (is_marked self.new ≡ true) }
    {
        let outcome = self.stream.flush();
        self.failed |= outcome.is_err();
        outcome
    }
}

/// Does what [`Watched::read`] does.
impl<R: Read> Read for Watched<R> {
    ghost remaining = { λ watched. R.remaining (stream_of watched) };

    fn read(&mut self, buf: &mut [u8]) -> io::Result<usize> {
        Watched::read(self, buf)
    }
}

/// Does what [`Watched::write`] and [`Watched::flush`] do.
impl<W: Write> Write for Watched<W> {
    ghost contents = { λ watched. W.contents (stream_of watched) };

    fn write(&mut self, buf: &[u8]) -> io::Result<usize> {
        Watched::write(self, buf)
    }

    fn flush(&mut self) -> io::Result<()> {
        Watched::flush(self)
    }
}
