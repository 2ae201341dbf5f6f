//! Carries out plans, writing one whole variable after the other.
use crate::files::mounts::is_efivarfs;
use crate::files::program_ends::{End, Output, UNREADABLE, UNWRITTEN, refuse};
use crate::files::variables::{
    Content, MOST_READ, Source, VARIABLE_ATTRIBUTES, Variable, Variables, attributes_len, file_in,
};
use crate::output::boot_manager::{
    numbers_of, write_named, write_order, write_timeout, write_variable,
};
use crate::output::entry::Shown;
use crate::output::growing_texts::{Growing, text_shown};
use std::alloc::{AllocError, Global};
use std::fs::{self, File, OpenFile, OpenOptions};
use std::io::{self, Write};
use std::os::unix::fs::{MetadataExt, OpenOptionsExt, fchown};
use uefi_boot_plans::{Step, Variable as Changed};
use uefi_boot_variables::{LoadOptionKind, LoadOrder, read_number};

/// The folder of the variables that a verb changes.
#[derive(Drop)]
pub(crate) struct Machine<'a> {
    pub(crate) rt: &'a HostRuntime,
    pub(crate) folder: &'a str,
    /// The kind of the entries that the command is about.
    pub(crate) kind: LoadOptionKind,
    pub(crate) variables: Variables<'a>,
    pub(crate) is_quiet: bool,
    pub(crate) is_dry_run: bool,
    pub(crate) is_forced: bool,
}

/// The file of a variable, and the bytes before the value in the file.
#[derive(Drop)]
struct Target {
    path: String,
    start: Vec<u8>,
    is_new: bool,
}

/// Numbers of errors of Linux: an immutable file, a missing right, and a file system that is mounted
/// read-only.
const EPERM: i32 = 1;

const EACCES: i32 = 13;

const EROFS: i32 = 30;

const FREED_AT_BOOT: &str =
    "firmware may free the space of deleted variables only at the next boot (restart and try again)";

/// The number of steps before the failed one, its file or the directory, and the error.
#[derive(Drop)]
struct Failure {
    place: usize,
    path: String,
    error: io::Error,
}

impl Failure {
    /// Returns whether the step failed because the store is full.
    fn is_for_room(&self) -> bool {
        matches!(self.error.kind(), io::ErrorKind::StorageFull)
    }
}

/// Returns the variable that a step changes, if the entries are of a kind.
fn changed(kind: LoadOptionKind, variable: Changed) -> Variable {
    match variable {
        Changed::Entry(number) => Variable::of_kind(kind, number),
        Changed::Order => Variable::order_of(kind),
        Changed::Next => Variable::BootNext,
        Changed::Timeout => Variable::Timeout,
    }
}

/// Writes a variable and its value in words, and a line end.
fn write_value(
    out: &mut Growing,
    alloc: Global,
    kind: LoadOptionKind,
    variable: Variable,
    value: &[u8],
) -> Result<(), AllocError> {
    if variable.option().is_some() {
        write_variable(out, "", variable, "\n");
        Shown::of_entry(alloc, value)?.write(out);
        return Ok(());
    }
    match LoadOrder::from_bytes(value) {
        Ok(order) if variable == Variable::order_of(kind) => {
            write_order(out, variable, kind, &numbers_of(alloc, order)?);
        }
        _ => write_number(out, variable, value),
    }
    Ok(())
}

/// Writes the line of a variable whose value is a number.
fn write_number(out: &mut Growing, variable: Variable, value: &[u8]) {
    match read_number(value) {
        Ok(seconds) if variable == Variable::Timeout => write_timeout(out, seconds),
        Ok(number) => write_named(out, variable, number),
        Err(_) => write_variable(out, "", variable, "\n"),
    }
}

/// Replaces a file by writing a new file next to it and renaming that file, so that any failure
/// leaves either the old bytes or the new ones.
fn replace_file(rt: &HostRuntime, path: &str, bytes: &[u8], is_new: bool) -> io::Result<()> {
    let mode = if is_new { 0o666 } else { 0o600 };
    for number in 0..=u16::MAX {
        let made = text_shown(rt.alloc(), &format_args!("{path}.new{number}"))?;
        let made = made.as_str();
        // Only a file that this call creates is written and renamed, never one that a link names.
        let mut options = OpenOptions::new();
        let file = match options
            .write(true)
            .create_new(true)
            .mode(mode)
            .open(rt, made)
        {
            Err(error) if matches!(error.kind(), io::ErrorKind::AlreadyExists) => continue,
            opened => opened?,
        };
        let result = write_and_rename(rt, path, file, made, bytes, is_new);
        if result.is_err() {
            // The new file is useless, and the caller needs the first error.
            let _ = fs::remove_file(rt, made);
        }
        return result;
    }
    Err(io::Error::from(io::ErrorKind::AlreadyExists))
}

/// Writes a file, with the owner and the mode of the one at a path, which it then replaces.
fn write_and_rename(
    rt: &HostRuntime,
    path: &str,
    mut file: File,
    made: &str,
    bytes: &[u8],
    is_new: bool,
) -> io::Result<()> {
    if !is_new {
        let replaced = fs::metadata(rt, path)?;
        if replaced.permissions().readonly() {
            return Err(io::Error::from(io::ErrorKind::PermissionDenied));
        }
        fchown(&file, Some(replaced.uid()), Some(replaced.gid()))?;
        file.set_permissions(replaced.permissions())?;
    }
    file.write_all(bytes)?;
    file.sync_all()?;
    fs::rename(rt, made, path)
}

/// Returns the bytes before the value in the bytes of a file, or those that belong there if the file ends
/// within them.
fn start_in<'b>(source: &Source, bytes: &'b [u8]) -> &'b [u8] {
    match attributes_len(source.variable, source.has_guid, bytes) {
        Some(len) => bytes.get(..len).unwrap_or(&[]),
        None => &VARIABLE_ATTRIBUTES,
    }
}

/// Reports that a file can't be read.
fn refuse_unread(rt: &HostRuntime, path: &str, cause: &str) -> End {
    refuse(rt, UNREADABLE, &["cannot read ", path, ": ", cause])
}

/// Waits until the names of a directory's files are on the disk.
fn sync_directory(rt: &HostRuntime, path: &str) -> io::Result<()> {
    fs::open(rt, path)?.sync_all()
}

/// Writes a variable in one call, as Linux's `efivarfs` requires.
fn write_at_once(rt: &HostRuntime, path: &str, bytes: &[u8], is_new: bool) -> io::Result<()> {
    let mut file = OpenOptions::new().write(true).create(true).open(rt, path)?;
    let result = match file.write(bytes) {
        Ok(count) if count == bytes.len() => Ok(()),
        Ok(_) => Err(io::Error::from(io::ErrorKind::WriteZero)),
        Err(error) => Err(error),
    };
    if result.is_err() && is_new {
        // The file has no variable, and the caller needs the error.
        let _ = fs::remove_file(rt, path);
    }
    result
}

impl<'a> Machine<'a> {
    /// Adds the line of a step, and the value of the variable after the step.
    fn describe(&self, out: &mut Growing, step: &Step) -> Result<(), AllocError> {
        let variable = changed(self.kind, step.variable);
        let Some(value) = &step.value else {
            let verb = if self.is_dry_run {
                "would delete "
            } else {
                "deleted "
            };
            write_variable(out, verb, variable, "\n");
            return Ok(());
        };
        out.add(&[if self.is_dry_run {
            "would write "
        } else {
            "wrote "
        }]);
        write_value(out, self.rt.alloc(), self.kind, variable, value)
    }

    /// Returns the file to write a variable to.
    fn target(&self, variable: Variable) -> Result<Target, End> {
        match self.variables.find(variable) {
            Some(source) => self.present_target(&source),
            None => Ok(self.new_target(variable)?),
        }
    }

    /// Returns the file to write a new variable to.
    fn new_target(&self, variable: Variable) -> Result<Target, AllocError> {
        // A folder without variables is treated as a folder of Linux.
        let has_guid = match self.variables.sources.first() {
            Some(source) => source.has_guid,
            None => true,
        };
        let start: &[u8] = if has_guid { &VARIABLE_ATTRIBUTES } else { &[] };
        Ok(Target {
            path: file_in(self.rt.alloc(), self.folder, variable, has_guid)?,
            start: Vec::from_slice(self.rt.alloc(), start)?,
            is_new: true,
        })
    }

    /// Returns the file of a variable that is set.
    fn present_target(&self, source: &Source) -> Result<Target, End> {
        let path = self.variables.path_of(source)?;
        let start = self.kept_start(source, path.as_str())?;
        Ok(Target {
            path,
            start,
            is_new: false,
        })
    }

    /// Returns the bytes before the value in a file.
    fn kept_start(&self, source: &Source, path: &str) -> Result<Vec<u8>, End> {
        let mut buffer = [0; MOST_READ];
        match self.variables.read_all(source, &mut buffer)? {
            Content::Unreadable(cause) => Err(refuse_unread(self.rt, path, cause.as_str())),
            Content::Bytes(bytes) => {
                Ok(Vec::from_slice(self.rt.alloc(), start_in(source, bytes))?)
            }
            Content::TooShort(_) => Ok(Vec::from_slice(self.rt.alloc(), start_in(source, &[]))?),
        }
    }

    /// Takes a step.
    fn take(&self, step: &Step, target: &Target, is_efivarfs: bool) -> io::Result<()> {
        let path = target.path.as_str();
        let Some(value) = &step.value else {
            return fs::remove_file(self.rt, path);
        };
        let len = target.start.len().saturating_add(value.len());
        let mut bytes = Vec::with_capacity(self.rt.alloc(), len)?;
        bytes.extend_from_slice(&target.start)?;
        bytes.extend_from_slice(value)?;
        if is_efivarfs {
            write_at_once(self.rt, path, &bytes, target.is_new)
        } else {
            replace_file(self.rt, path, &bytes, target.is_new)
        }
    }

    /// Takes a step, unless this is a dry run, and returns its failure, if it failed.
    fn take_one(
        &self,
        place: usize,
        step: &Step,
        target: &Target,
        is_efivarfs: bool,
    ) -> Result<Option<Failure>, End> {
        if self.is_dry_run {
            return Ok(None);
        }
        if let Err(error) = self.take(step, target, is_efivarfs) {
            let path = target.path.clone()?;
            return Ok(Some(Failure { place, path, error }));
        }
        if is_efivarfs {
            return Ok(None);
        }
        // Without this, a file system could keep a later step and not this one.
        match sync_directory(self.rt, self.folder) {
            Ok(()) => Ok(None),
            Err(error) => {
                let path = String::from_str(self.rt.alloc(), self.folder)?;
                let place = place.saturating_add(1);
                Ok(Some(Failure { place, path, error }))
            }
        }
    }

    /// Returns the failure to open one of the files for writing, so that no variable is changed if one is
    /// protected.
    fn test_all(&self, targets: &[Target], is_efivarfs: bool) -> Result<Option<Failure>, End> {
        if !is_efivarfs {
            return Ok(None);
        }
        for target in targets {
            if target.is_new {
                continue;
            }
            let path = target.path.as_str();
            if let Err(error) = OpenOptions::new().write(true).open(self.rt, path) {
                let path = target.path.clone()?;
                return Ok(Some(Failure {
                    place: 0,
                    path,
                    error,
                }));
            }
        }
        Ok(None)
    }

    /// Takes the steps of a plan, or none in a dry run, and describes each. Returns the failure of the
    /// first step that failed, if one did.
    fn take_all(
        &self,
        plan: &[Step],
        is_efivarfs: bool,
        out: &mut Output<'_>,
    ) -> Result<Option<Failure>, End> {
        let alloc = self.rt.alloc();
        let mut targets = Vec::with_capacity(alloc, plan.len())?;
        for step in plan {
            targets.push(self.target(changed(self.kind, step.variable))?)?;
        }
        if let Some(failure) = self.test_all(&targets, is_efivarfs)? {
            return Ok(Some(failure));
        }
        for (place, step) in plan.iter().enumerate() {
            if let Some(target) = targets.get(place) {
                if let Some(failure) = self.take_one(place, step, target, is_efivarfs)? {
                    return Ok(Some(failure));
                }
            }
            if !self.is_quiet {
                self.describe(&mut out.text, step)?;
            }
        }
        Ok(None)
    }

    /// Carries out a plan, or prints it, and returns the exit status. If the first step fails because
    /// the store is full, carries out the other plan, unless that is empty.
    pub(crate) fn carry_out(&self, plan: &[Step], if_full: &[Step]) -> Result<u8, End> {
        let is_efivarfs = !self.is_dry_run && is_efivarfs(self.rt, self.folder)?;
        let mut plan = plan;
        let mut out = Output::new(self.rt);
        let mut failure = self.take_all(plan, is_efivarfs, &mut out)?;
        let is_full = match &failure {
            Some(failure) => failure.place == 0 && failure.is_for_room(),
            None => false,
        };
        if is_full && !if_full.is_empty() {
            plan = if_full;
            failure = self.take_all(plan, is_efivarfs, &mut out)?;
        }
        out.flush()?;
        match &failure {
            Some(failure) => Err(self.fail(failure, plan, is_efivarfs)?),
            None => Ok(0),
        }
    }

    /// Adds what to do about an error.
    fn add_advice(&self, message: &mut Growing, failure: &Failure, is_efivarfs: bool) {
        match failure.error.raw_os_error() {
            Some(EPERM) if is_efivarfs => {
                let what = "\nLinux protects the file: type chattr -i ";
                message.add(&[what, failure.path.as_str()]);
            }
            Some(EACCES) => message.add(&[" (run as root?)"]),
            Some(EROFS) => message.add(&[" (type mount -o remount,rw ", self.folder, ")"]),
            _ => {}
        }
        if failure.is_for_room() && is_efivarfs {
            message.add(&["\n", FREED_AT_BOOT]);
        }
    }

    /// Reports the failed step and its error, the steps before it, and the steps that were skipped.
    fn fail(&self, failure: &Failure, plan: &[Step], is_efivarfs: bool) -> Result<End, AllocError> {
        let mut message = Growing::new(self.rt.alloc());
        message.add(&["cannot change ", failure.path.as_str(), ": "]);
        message.show(&failure.error);
        self.add_advice(&mut message, failure, is_efivarfs);
        for (place, step) in plan.iter().enumerate() {
            let is_changed = place < failure.place;
            let what = if is_changed {
                "\nchanged: "
            } else {
                "\nnot changed: "
            };
            write_variable(&mut message, what, changed(self.kind, step.variable), "");
        }
        Ok(refuse(self.rt, UNWRITTEN, &[message.so_far()?]))
    }
}
