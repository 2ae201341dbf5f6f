//! The variables of a machine: their names, and the locations of their files.
ghost use Rattle.std.specs.Prelude.{◌≤◌, IfOk, length};

use crate::files::program_ends::{End, UNREADABLE, WRONG_ARGUMENTS, refuse, refuse_with};
use crate::fill;
use crate::output::growing_texts::{Growing, joined, text_shown};
use std::alloc::{AllocError, Global};
use std::fmt::{self, Write};
use std::path::PathBuf;
use std::{fs, io};
use uefi_boot_variables::{LoadOptionKind, LoadOptionName};

/// The suffix that Linux's `efivars` puts after the name of a variable that the UEFI Specification
/// defines: its GUID (section 3.3).
const GLOBAL: &str = "-8be4df61-93ca-11d2-aa0d-00e098032b8c";

/// A limit above the size that firmware stores for one variable, without attributes.
pub(crate) const MOST_BYTES: usize = 65536;

/// The four bytes that Linux puts before a stored variable that is visible at boot and at run time:
/// its attributes. No load option begins with these bytes, because the third bit of its attributes
/// is reserved.
pub(crate) const VARIABLE_ATTRIBUTES: [u8; 4] = [7, 0, 0, 0];

/// Removes the four bytes that Linux puts before an entry, if they are there.
pub(crate) fn without_attributes(bytes: &[u8]) -> &[u8] {
    bytes.strip_prefix(&VARIABLE_ATTRIBUTES).unwrap_or(bytes)
}

/// The folder in which Linux shows the machine's variables.
pub(crate) const OWN: &str = "/sys/firmware/efi/efivars";

/// One byte more than the longest variable, including its attributes.
pub(crate) const MOST_READ: usize = VARIABLE_ATTRIBUTES.len() + MOST_BYTES + 1;

/// A variable that the program reads, in the order in which it prints them.
#[derive(Clone, Copy, PartialEq, Eq, PartialOrd, Ord)]
pub(crate) enum Variable {
    BootOrder,
    BootCurrent,
    BootNext,
    Timeout,
    DriverOrder,
    SysPrepOrder,
    OsIndications,
    OsIndicationsSupported,
    Boot(u16),
    Driver(u16),
    SysPrep(u16),
    PlatformRecovery(u16),
}

impl Variable {
    /// Returns the variable with a name, if the program reads it.
    fn of_name(name: &str) -> Option<Variable> {
        match name {
            "BootOrder" => Some(Variable::BootOrder),
            "BootCurrent" => Some(Variable::BootCurrent),
            "BootNext" => Some(Variable::BootNext),
            "Timeout" => Some(Variable::Timeout),
            "DriverOrder" => Some(Variable::DriverOrder),
            "SysPrepOrder" => Some(Variable::SysPrepOrder),
            "OsIndications" => Some(Variable::OsIndications),
            "OsIndicationsSupported" => Some(Variable::OsIndicationsSupported),
            _ => {
                let option = LoadOptionName::from_text(name)?;
                Some(Variable::of_kind(option.kind, option.number))
            }
        }
    }

    /// Returns the entry of a kind with a number.
    pub(crate) fn of_kind(kind: LoadOptionKind, number: u16) -> Variable {
        match kind {
            LoadOptionKind::Boot => Variable::Boot(number),
            LoadOptionKind::Driver => Variable::Driver(number),
            LoadOptionKind::SysPrep => Variable::SysPrep(number),
            LoadOptionKind::PlatformRecovery => Variable::PlatformRecovery(number),
        }
    }

    /// Returns the order of a kind of entries.
    pub(crate) fn order_of(kind: LoadOptionKind) -> Variable {
        match kind {
            LoadOptionKind::Driver => Variable::DriverOrder,
            LoadOptionKind::SysPrep => Variable::SysPrepOrder,
            _ => Variable::BootOrder,
        }
    }

    /// Returns the name of the load option, if the variable is one.
    pub(crate) fn option(self) -> Option<LoadOptionName> {
        let (kind, number) = match self {
            Variable::Boot(number) => (LoadOptionKind::Boot, number),
            Variable::Driver(number) => (LoadOptionKind::Driver, number),
            Variable::SysPrep(number) => (LoadOptionKind::SysPrep, number),
            Variable::PlatformRecovery(number) => (LoadOptionKind::PlatformRecovery, number),
            _ => return None,
        };
        Some(LoadOptionName { kind, number })
    }

    /// Returns the name of a variable that is not a load option.
    fn word(self) -> &'static str {
        match self {
            Variable::BootOrder => "BootOrder",
            Variable::BootCurrent => "BootCurrent",
            Variable::BootNext => "BootNext",
            Variable::Timeout => "Timeout",
            Variable::DriverOrder => "DriverOrder",
            Variable::SysPrepOrder => "SysPrepOrder",
            Variable::OsIndications => "OsIndications",
            _ => "OsIndicationsSupported",
        }
    }
}

impl fmt::Display for Variable {
    fn fmt<W: fmt::Write>(&self, f: &mut fmt::Formatter<W>) -> fmt::Result {
        match self.option() {
            Some(option) => write!(f, "{option}"),
            None => f.write_str(self.word()),
        }
    }
}

/// What is wrong with a file that ends before the variable's attributes do.
const TOO_SHORT: &str = "the file ends within the variable's attributes";

const EMPTY: &str = "the file is empty: a write to it was interrupted";

/// The value of a variable in a file, without its attributes, or the reason why the file can't be
/// read.
#[derive(Drop)]
pub(crate) enum Content<'b> {
    Bytes(&'b [u8]),
    /// The file ends within the four bytes of the variable's attributes; says so.
    TooShort(&'static str),
    Unreadable(String),
}

/// A variable, and where its file is.
#[derive(Clone, Copy)]
pub(crate) struct Source {
    pub(crate) variable: Variable,
    /// Whether the file's name has a GUID after the variable's name, as in Linux's `efivars`.
    pub(crate) has_guid: bool,
    /// The index of the file or its folder among the arguments.
    argument: usize,
    is_in_folder: bool,
}

/// A file that is not printed, and why.
#[derive(Drop)]
pub(crate) struct PassedOver {
    pub(crate) file: String,
    pub(crate) reason: &'static str,
}

/// The boot variables of files and folders, each once, in the order of `Variable`.
#[derive(Drop)]
pub(crate) struct Variables<'a> {
    rt: &'a HostRuntime,
    arguments: &'a [&'a str],
    pub(crate) sources: Vec<Source>,
    pub(crate) passed_over: Vec<PassedOver>,
}

/// Without this directory, firmware has no runtime services for Linux.
const FIRMWARE: &str = "/sys/firmware/efi";

const NO_VARIABLE: &str = "no file is named as a boot variable, such as Boot0000 or BootOrder
for one entry, write: uefi_boot < FILE";

/// Returns the part of a path after its last slash.
pub(crate) fn file_name(path: &str) -> &str {
    match path.rsplit_once('/') {
        Some((_, name)) => name,
        None => path,
    }
}

/// The names of entries, without their numbers.
const ENTRIES: [&str; 4] = ["Boot", "Driver", "SysPrep", "PlatformRecovery"];

/// Splits a name at the number of an entry.
fn split_name(name: &str) -> Option<(&'static str, &str)> {
    for kind in &ENTRIES {
        if let Some(digits) = name.strip_prefix(*kind) {
            return Some((*kind, digits));
        }
    }
    None
}

/// Returns the entry that a name would name if all its digits were upper-case, if some are not.
fn of_lowercase_digits(alloc: Global, name: &str) -> Result<Option<Variable>, AllocError> {
    if Variable::of_name(name).is_some() {
        return Ok(None);
    }
    let Some((kind, digits)) = split_name(name) else {
        return Ok(None);
    };
    let upper = digits.to_ascii_uppercase(alloc)?;
    Ok(Variable::of_name(joined(alloc, &[kind, upper.as_str()])?.as_str()))
}

/// Returns the path of a variable in a directory that a word names, if some digits of the word are
/// lower-case and the directory has a variable of exactly this name. Firmware ignores such a variable.
pub(crate) fn lowercase_file<'p>(
    rt: &HostRuntime,
    folder: &'p str,
    word: &'p str,
) -> Result<Option<String>, AllocError> {
    if of_lowercase_digits(rt.alloc(), word)?.is_none() {
        return Ok(None);
    }
    for guid in [GLOBAL, ""] {
        let path = joined(rt.alloc(), &[folder, "/", word, guid])?;
        if fs::metadata(rt, path.as_str()).is_ok() {
            return Ok(Some(path));
        }
    }
    Ok(None)
}

/// Reports that a path can't be read, or that memory ran out.
pub(crate) fn unreadable(rt: &HostRuntime, path: &str, error: &io::Error) -> End {
    let hint = match error.kind() {
        io::ErrorKind::OutOfMemory => return End::OutOfMemory,
        io::ErrorKind::PermissionDenied => " (run as root?)",
        _ => "",
    };
    refuse_with(
        rt,
        UNREADABLE,
        format_args!("cannot read {path}: {error}{hint}"),
    )
}

/// Returns the path without links that a path leads to.
pub(crate) fn real_path(rt: &HostRuntime, path: &str) -> Result<PathBuf, End> {
    match fs::canonicalize(rt, path) {
        Ok(real) => Ok(real),
        Err(error) => Err(unreadable(rt, path, &error)),
    }
}

/// Returns the path of a file in a directory.
pub(crate) fn path_below(alloc: Global, directory: &str, file: &str) -> Result<String, AllocError> {
    joined(alloc, &[directory, "/", file])
}

/// Returns whether a directory contains no file, or can't be read.
fn is_empty(rt: &HostRuntime, path: &str) -> bool {
    match fs::read_dir(rt, path) {
        Ok(mut files) => files.next().is_none(),
        Err(_) => true,
    }
}

/// Finds the variables of the machine, in `arguments`, which is only [`OWN`].
pub(crate) fn find_own<'a>(
    rt: &'a HostRuntime,
    arguments: &'a [&'a str],
) -> Result<Variables<'a>, End> {
    if fs::metadata(rt, FIRMWARE).is_err() {
        return Err(refuse(
            rt,
            UNREADABLE,
            &[
                FIRMWARE,
                " does not exist: this machine was booted by BIOS, or in a container ",
                "(to read a copy of the variables, type uefi_boot DIRECTORY)",
            ],
        ));
    }
    if is_empty(rt, OWN) {
        return Err(refuse(
            rt,
            UNREADABLE,
            &[
                OWN,
                " has no variables (type mount -t efivarfs efivarfs ",
                OWN,
                ")",
            ],
        ));
    }
    find_all(rt, arguments)
}

/// Reads a file into a buffer, until its end or until the buffer is full. Returns the number of
/// bytes. Refuses a path that is not a file.
fn read_file(rt: &HostRuntime, path: &str, buffer: &mut [u8]) -> io::Result<usize>
    ensures { IfOk result (λ count. count ≤ length buffer.new) }
{
    // The program would wait for a pipe.
    if !fs::metadata(rt, path)?.is_file() {
        return Err(io::Error::from(io::ErrorKind::InvalidInput));
    }
    fill(&mut fs::open(rt, path)?, buffer)
}

/// Returns the number of bytes of the variable's attributes in a file: four, or none if the file is
/// a dump of only the value. `None` if the file is too short.
pub(crate) fn attributes_len(variable: Variable, has_guid: bool, bytes: &[u8]) -> Option<usize> {
    if has_guid {
        return if bytes.len() < VARIABLE_ATTRIBUTES.len() {
            None
        } else {
            Some(VARIABLE_ATTRIBUTES.len())
        };
    }
    if variable.option().is_some() && bytes.starts_with(&VARIABLE_ATTRIBUTES) {
        return Some(VARIABLE_ATTRIBUTES.len());
    }
    Some(0)
}

impl<'a> Variables<'a> {
    /// Records a file that is not printed.
    fn pass_over(&mut self, file: &str, reason: &'static str) -> Result<(), AllocError> {
        let file = String::from_str(self.rt.alloc(), file)?;
        self.passed_over.push(PassedOver { file, reason })?;
        Ok(())
    }

    /// Records another file of a variable.
    fn pass_over_other(&mut self, source: &Source) -> Result<(), AllocError> {
        let path = self.path_of(source)?;
        self.pass_over(
            file_name(path.as_str()),
            "another file has the same variable",
        )
    }

    /// Adds a file if its name is the name of a boot variable, and returns whether it is.
    fn add(&mut self, path: &str, argument: usize, is_in_folder: bool) -> Result<bool, AllocError> {
        let file = file_name(path);
        let (name, has_guid) = match file.strip_suffix(GLOBAL) {
            Some(name) => (name, true),
            None => (file, false),
        };
        let variable = match Variable::of_name(name) {
            Some(variable) => variable,
            None => match of_lowercase_digits(self.rt.alloc(), name)? {
                None => return Ok(false),
                Some(variable) if !is_in_folder => variable,
                Some(_) => {
                    self.pass_over(file, "the digits of a variable's name are upper-case")?;
                    return Ok(true);
                }
            },
        };
        self.sources.push(Source {
            variable,
            has_guid,
            argument,
            is_in_folder,
        })?;
        Ok(true)
    }

    /// Adds the files of a folder.
    fn add_folder(&mut self, path: &str, argument: usize) -> Result<(), End> {
        let files = match fs::read_dir(self.rt, path) {
            Ok(files) => files,
            Err(error) => return Err(unreadable(self.rt, path, &error)),
        };
        for file in files {
            match file {
                Ok(file) => {
                    self.add(file.file_name(), argument, true)?;
                }
                // A name that is not UTF-8 is not that of a boot variable.
                Err(error) if matches!(error.kind(), io::ErrorKind::InvalidFilename) => {}
                Err(error) => return Err(unreadable(self.rt, path, &error)),
            }
        }
        Ok(())
    }

    /// Adds a file, or the files of a folder. Returns `false` for a file whose name is not that of a boot
    /// variable.
    fn add_argument(&mut self, path: &str, argument: usize) -> Result<bool, End> {
        match fs::metadata(self.rt, path) {
            Ok(found) if found.is_dir() => {
                self.add_folder(path, argument)?;
                return Ok(true);
            }
            Err(error) if !matches!(error.kind(), io::ErrorKind::PermissionDenied) => {
                return Err(unreadable(self.rt, path, &error));
            }
            _ => {}
        }
        let is_variable = self.add(path, argument, false)?;
        if !is_variable {
            self.pass_over(path, "the name is not that of a boot variable")?;
        }
        Ok(is_variable)
    }

    /// Sorts the variables, and keeps each once: the file with a GUID in its name, if there is one,
    /// or otherwise the first that was found.
    fn keep_each_once(&mut self) -> Result<(), AllocError> {
        self.sources.sort_by_key(|it| (it.variable, !it.has_guid))?;
        let mut kept: Vec<Source> = Vec::with_capacity(self.rt.alloc(), self.sources.len())?;
        let sources = std::mem::replace(&mut self.sources, Vec::new(self.rt.alloc()));
        for it in &sources {
            let is_known = match kept.last() {
                Some(last) => last.variable == it.variable,
                None => false,
            };
            if is_known {
                self.pass_over_other(it)?;
            } else {
                kept.push(*it)?;
            }
        }
        self.sources = kept;
        Ok(())
    }

    /// Returns the path of a variable's file.
    pub(crate) fn path_of(&self, source: &Source) -> Result<String, AllocError> {
        let alloc = self.rt.alloc();
        let argument = match self.arguments.get(source.argument) {
            Some(argument) => *argument,
            None => "",
        };
        if !source.is_in_folder {
            return String::from_str(alloc, argument);
        }
        file_in(alloc, argument, source.variable, source.has_guid)
    }

    /// Returns the variable's file, if there is one.
    pub(crate) fn find(&self, variable: Variable) -> Option<Source> {
        match self
            .sources
            .binary_search_by_key(&variable, |it| it.variable)
        {
            Ok(place) => self.sources.get(place).copied(),
            Err(_) => None,
        }
    }

    /// Reads a whole file, including the variable's attributes.
    pub(crate) fn read_all<'b>(
        &self,
        source: &Source,
        buffer: &'b mut [u8],
    ) -> Result<Content<'b>, AllocError> {
        let path = self.path_of(source)?;
        let error = match read_file(self.rt, path.as_str(), buffer) {
            Ok(count) => return Ok(Content::Bytes(&buffer[..count])),
            Err(error) => error,
        };
        match error.kind() {
            io::ErrorKind::OutOfMemory => Err(AllocError),
            io::ErrorKind::InvalidInput => {
                Ok(Content::Unreadable(String::from_str(self.rt.alloc(), "not a file")?))
            }
            _ => Ok(Content::Unreadable(text_shown(self.rt.alloc(), &error)?)),
        }
    }

    /// Reads a variable's value.
    pub(crate) fn read<'b>(
        &self,
        source: &Source,
        buffer: &'b mut [u8],
    ) -> Result<Content<'b>, AllocError> {
        let bytes = match self.read_all(source, buffer)? {
            Content::Bytes(bytes) => bytes,
            other => return Ok(other),
        };
        let reason = if bytes.is_empty() { EMPTY } else { TOO_SHORT };
        match attributes_len(source.variable, source.has_guid, bytes) {
            Some(len) => Ok(match bytes.get(len..) {
                Some(value) => Content::Bytes(value),
                None => Content::TooShort(reason),
            }),
            None => Ok(Content::TooShort(reason)),
        }
    }
}

/// Returns the path of a variable's file in a folder.
pub(crate) fn file_in(
    alloc: Global,
    folder: &str,
    variable: Variable,
    has_guid: bool,
) -> Result<String, AllocError> {
    let slash = if folder.ends_with('/') { "" } else { "/" };
    let guid = if has_guid { GLOBAL } else { "" };
    let mut path = Growing::new(alloc);
    path.add(&[folder, slash]);
    path.show(&variable);
    path.add(&[guid]);
    path.finish()
}

/// Finds the variables in files and folders.
pub(crate) fn find_all<'a>(
    rt: &'a HostRuntime,
    arguments: &'a [&'a str],
) -> Result<Variables<'a>, End> {
    let mut variables = Variables {
        rt,
        arguments,
        sources: Vec::new(rt.alloc()),
        passed_over: Vec::new(rt.alloc()),
    };
    let mut has_variables = false;
    for (argument, path) in arguments.iter().enumerate() {
        has_variables = variables.add_argument(path, argument)? || has_variables;
    }
    if !has_variables {
        return Err(refuse(rt, WRONG_ARGUMENTS, &[NO_VARIABLE]));
    }
    variables.keep_each_once()?;
    Ok(variables)
}
