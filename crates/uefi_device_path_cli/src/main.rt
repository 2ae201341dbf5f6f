//! Reads texts of device paths from standard input, one per line and as people write them, and prints each
//! path as hexadecimal bytes and as text. With `--libefivar`, the texts are in the form that libefivar and
//! efibootmgr print. With `--prefix`, other text may follow the path in a line; it is printed after the path.
//!
//! The exit status is
//!
//! | status | if |
//! |---|---|
//! | 0 | every line is a path |
//! | 1 | a line is not a path; the unreadable node, the wrong byte and what is expected there are printed |
//! | 2 | a read or a write failed, or a line is not UTF-8 or runs out of memory |
//! | 3 | memory ran out elsewhere; standard error has `out of memory` |
//! | 5 | the arguments are wrong; standard error has the usage |
#![tactic(auto)]

use std::alloc::Allocator;
use std::env;
use std::fmt::{self, Write};
use std::io::{self, BufRead, BufReader, Write as _};
use std::process::ExitCode;
use uefi_device_path::{
    DevicePathBuf, PathTextError, TextFault, is_escaped, lenient_text_extent, libefivar_text_extent,
};

const USAGE: &str = "usage: uefi_device_path_cli [--libefivar] [--prefix] < LINES\n";

/// The writer of the texts.
#[derive(Clone, Copy)]
enum Writer {
    People,
    Libefivar,
}

/// How to read the lines.
#[derive(Clone, Copy)]
struct Options {
    writer: Writer,

    /// Whether other text may follow a path.
    is_prefix: bool,
}

/// Returns how many bytes of a line form the path.
fn extent(options: Options, line: &str) -> Result<usize, TextFault> {
    if !options.is_prefix {
        return Ok(line.len());
    }
    match options.writer {
        Writer::People => lenient_text_extent(line),
        Writer::Libefivar => libefivar_text_extent(line),
    }
}

/// Reads the path of a text.
fn read<A: Allocator + Copy>(
    writer: Writer,
    alloc: A,
    line: &str,
) -> Result<DevicePathBuf<A>, PathTextError> {
    match writer {
        Writer::People => DevicePathBuf::from_lenient_text(alloc, line),
        Writer::Libefivar => DevicePathBuf::from_libefivar_text(alloc, line),
    }
}

/// Reads the path at the start of a line, and returns the rest of the line.
fn read_line<A: Allocator + Copy>(
    options: Options,
    alloc: A,
    line: &str,
) -> Result<(DevicePathBuf<A>, &str), PathTextError> {
    let end = match extent(options, line) {
        Ok(end) => end,
        Err(fault) => return Err(PathTextError::NoNode(fault)),
    };
    // A path ends between two characters.
    let (text, rest) = line.split_at_checked(end).unwrap_or((line, ""));
    Ok((read(options.writer, alloc, text)?, rest))
}

/// Writes the text after a path, if there is any, with `?` for each character that could control a terminal.
fn write_rest<W: Write>(out: &mut W, rest: &str) -> fmt::Result {
    if rest.is_empty() {
        return Ok(());
    }
    write!(out, "followed by: ")?;
    for character in rest.chars() {
        out.write_char(if is_escaped(character) {
            '?'
        } else {
            character
        })?;
    }
    writeln!(out)
}

/// Writes the path of a line, or the error. Returns whether the line is a path.
fn write_path<W: Write, A: Allocator + Copy>(
    out: &mut W,
    alloc: A,
    options: Options,
    line: &str,
) -> Result<bool, fmt::Error> {
    match read_line(options, alloc, line) {
        Ok((path, rest)) => {
            let path = path.as_device_path();
            for byte in path.as_bytes() {
                write!(out, "{byte:02x}")?;
            }
            writeln!(out, " {path}")?;
            write_rest(out, rest)?;
            Ok(true)
        }
        Err(PathTextError::NoNode(fault)) => {
            writeln!(out, "refused: {fault}")?;
            Ok(false)
        }
        Err(PathTextError::OutOfMemory) => Err(fmt::Error),
    }
}

/// Reports why the program ends early.
fn refuse(rt: &HostRuntime, message: &str, status: u8) -> ExitCode {
    // There is nothing to do if standard error can't be written.
    let _ = eprint!(rt; "{message}");
    ExitCode::from(status)
}

/// Prints the path of each line of standard input.
fn print_paths(rt: &HostRuntime, options: Options) -> ExitCode {
    let mut is_well = true;
    let mut output = String::new(rt.alloc());
    for line in rt.lines(rt.alloc()) {
        let Ok(line) = line else {
            return ExitCode::from(2);
        };
        output.clear();
        let Ok(is_path) = write_path(&mut output, rt.alloc(), options, &line) else {
            return refuse(rt, "out of memory\n", 3);
        };
        is_well = is_well && is_path;
        if io::writer(rt).write_all(output.as_bytes()).is_err() {
            return ExitCode::from(2);
        }
    }
    ExitCode::from(if is_well { 0 } else { 1 })
}

fn main(rt: HostRuntime) -> ExitCode {
    let Ok(arguments) = env::args(&rt) else {
        return refuse(&rt, "out of memory\n", 3);
    };
    let mut options = Options {
        writer: Writer::People,
        is_prefix: false,
    };
    for argument in arguments.skip(1) {
        match argument.as_str() {
            "--libefivar" => options.writer = Writer::Libefivar,
            "--prefix" => options.is_prefix = true,
            _ => return refuse(&rt, USAGE, 5),
        }
    }
    print_paths(&rt, options)
}
