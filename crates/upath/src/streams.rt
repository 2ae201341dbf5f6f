//! A run from a reader to a writer.
ghost use Rattle.std.specs.Prelude.{◌≡◌, ◌≢◌, ℕ, List, IfOk, IfErr, OnOk, OnErr, false, true, Some};
ghost use Rattle.std.specs.Io.KnownBytes.{Appends, Consumes, IsAtEnd};
ghost use Rattle.upath.specs.Output.{output_of};
ghost use Rattle.upath.specs.Streams.{AppendsPrefix};
ghost use Rattle.upath.specs.Watched.{is_marked, stream_of};
ghost use Rattle.upath.specs.ErrorTexts.{stream_fault_text};

use crate::inputs::PartialRun;
use crate::watched::Watched;
use std::alloc::Allocator;
use std::error::Error;
use std::fmt;
use std::io::{Read, Write};
use uefi_text::text_sink::{Printed, TextSink, print};

/// The reason why a run from a reader to a writer ended early.
#[derive(Clone, Copy, Debug, PartialEq, Eq)]
pub enum StreamFault {
    /// A read failed. Nothing was written.
    Read,

    /// A write or the flush failed. A prefix of the output may have been written.
    Write,

    /// Memory ran out before a read failed. Nothing was written.
    OutOfMemory,
}

/// Puts what failed.
impl Printed for StreamFault {
    ghost printed = { stream_fault_text };

    fn put<S: TextSink>(&self, sink: &mut S) {
        match self {
            StreamFault::Read => sink.put_str("a read failed"),
            StreamFault::Write => sink.put_str("a write failed"),
            StreamFault::OutOfMemory => sink.put_str("out of memory"),
        }
    }
}

/// Prints the same text.
impl fmt::Display for StreamFault {
    ghost output = { λ fault. Some (stream_fault_text fault) };

    fn fmt<W: fmt::Write>(&self, f: &mut fmt::Formatter<W>) -> fmt::Result {
        print(f, self)
    }
}

impl Error for StreamFault {}

/// The number of bytes that each read requests.
const CHUNK: usize = 65536;

/// Returns the output of the lines of everything that a reader still gives. They run while they are
/// read, so the input is not kept.
fn run_input<A: Allocator + Copy, R: Read>(
    alloc: A,
    reader: &mut Watched<R>,
) -> Result<Vec<u8, A>, StreamFault>
    ensures ok { IfOk result (λ output. ((input : List ℕ)
        × Consumes (R.remaining (stream_of reader.old)) (R.remaining (stream_of reader.new)) input
        × (output.items ≡ output_of input)
        × IsAtEnd (R.remaining (stream_of reader.new))
        × (is_marked reader.new ≡ is_marked reader.old))) }
    ensures prefix { OnErr result ((input : List ℕ) × Consumes
        (R.remaining (stream_of reader.old)) (R.remaining (stream_of reader.new)) input) }
    ensures fault { IfErr result (λ fault. (fault ≢ StreamFault.Write)
        × (fault ≡ StreamFault.Read → is_marked reader.new ≡ true)
        × (fault ≢ StreamFault.Read → is_marked reader.new ≡ is_marked reader.old)) }
{
    let Ok(mut run) = PartialRun::new(alloc) else {
        return Err(StreamFault::OutOfMemory);
    };
    let mut chunk = [0; CHUNK];
    'chunks: loop {
        let Ok(count) = reader.read(&mut chunk) else {
            return Err(StreamFault::Read);
        };
        if count == 0 {
            break;
        }
        let Ok(()) = run.add(&chunk[..count]) else {
            return Err(StreamFault::OutOfMemory);
        };
    }
    let Ok(output) = run.finish() else {
        return Err(StreamFault::OutOfMemory);
    };
    Ok(output)
}

/// Writes bytes and flushes.
fn write_output<W: Write>(writer: &mut Watched<W>, output: &[u8]) -> Result<(), StreamFault>
    ensures ok { OnOk result (
        Appends (W.contents (stream_of writer.old)) (W.contents (stream_of writer.new)) output.now
        × (is_marked writer.new ≡ is_marked writer.old)) }
    ensures err { IfErr result (λ fault. (fault ≡ StreamFault.Write) × (is_marked writer.new ≡ true)
        × AppendsPrefix (W.contents (stream_of writer.old)) (W.contents (stream_of writer.new)) output.now) }
{
    let mut written = 0;
    while written < output.len() {
        let Ok(count) = writer.write(&output[written..]) else {
            return Err(StreamFault::Write);
        };
        written += count;
    }
    if writer.flush().is_err() {
        return Err(StreamFault::Write);
    }
    Ok(())
}

/// Reads a reader to its end, writes exactly what [`crate::run_text`] returns for the whole input,
/// and flushes. Neither mark may be set before, which [`Watched::has_failed`] tests.
///
/// Returns [`StreamFault::Read`] only if the reader's mark is then set, and [`StreamFault::Write`]
/// only if the writer's mark is; the bytes written are then a prefix of the output. After any other
/// result neither mark is set. If a read failed or memory ran out, nothing was written. No failed
/// call is repeated, not even an interrupted one, and no call follows it.
///
/// ```rust
/// let mut reader = Watched::new(b"from \\efi\npush boot\n".as_slice());
/// let mut writer = Watched::new(Vec::new(rt.alloc()));
/// run_streams(rt.alloc(), &mut reader, &mut writer)?;
/// let output = writer.into_inner();
/// assert_eq!(rt; output.as_slice(), b"= \\efi\n= \\efi\\boot\n".as_slice());
/// ```
pub fn run_streams<A: Allocator + Copy, R: Read, W: Write>(
    alloc: A,
    reader: &mut Watched<R>,
    writer: &mut Watched<W>,
) -> Result<(), StreamFault>
    requires reader { is_marked reader.old ≡ false }
    requires writer { is_marked writer.old ≡ false }
    ensures written { OnOk result ((input : List ℕ)
        × Consumes (R.remaining (stream_of reader.old)) (R.remaining (stream_of reader.new)) input
        × Appends (W.contents (stream_of writer.old)) (W.contents (stream_of writer.new)) (output_of input)) }
    ensures end { OnOk result (IsAtEnd (R.remaining (stream_of reader.new))) }
    ensures unmarked { OnOk result ((is_marked reader.new ≡ false) × (is_marked writer.new ≡ false)) }
    ensures nothing_written { IfErr result (λ fault. fault ≢ StreamFault.Write → writer.new ≡ writer.old) }
    ensures prefix_written { IfErr result (λ fault. fault ≡ StreamFault.Write → ((input : List ℕ)
        × Consumes (R.remaining (stream_of reader.old)) (R.remaining (stream_of reader.new)) input
        × IsAtEnd (R.remaining (stream_of reader.new))
        × AppendsPrefix
        (W.contents (stream_of writer.old)) (W.contents (stream_of writer.new)) (output_of input))) }
    ensures prefix_read { OnErr result ((input : List ℕ)
        × Consumes (R.remaining (stream_of reader.old)) (R.remaining (stream_of reader.new)) input) }
    ensures reader_marked { IfErr result (λ fault.
        (fault ≡ StreamFault.Read → is_marked reader.new ≡ true)
        × (fault ≢ StreamFault.Read → is_marked reader.new ≡ false)) }
    ensures writer_marked { IfErr result (λ fault. fault ≡ StreamFault.Write → is_marked writer.new ≡ true) }
{
    let output = run_input(alloc, reader)?;
    write_output(writer, &output)
}
