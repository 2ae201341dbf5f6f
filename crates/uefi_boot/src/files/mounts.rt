//! The mounted file systems of the machine, from proc_pid_mountinfo(5).
use crate::files::program_ends::{End, WRONG_ARGUMENTS, refuse};
use crate::files::variables::unreadable;
use crate::output::growing_texts::{joined, text_shown};
use std::alloc::{AllocError, Global};
use std::os::unix::fs::MetadataExt;
use std::path::PathBuf;
use std::{fs, io};

const MOUNTS: &str = "/proc/self/mountinfo";

/// Returns the lines of all mounts.
fn mounts(rt: &HostRuntime) -> Result<String, End> {
    match fs::read(rt, MOUNTS) {
        Ok(bytes) => Ok(String::from_utf8_lossy(rt.alloc(), &bytes)?),
        Err(error) => Err(unreadable(rt, MOUNTS, &error)),
    }
}

/// Returns a field of a line before the optional ones: 2 is the device, 3 the directory of the file system
/// that is mounted, 4 the mount point.
fn field(line: &str, place: usize) -> &str {
    line.split(' ').nth(place).unwrap_or("")
}

/// Returns the number of the device that contains a file, as `major:minor`.
fn device_of(rt: &HostRuntime, path: &str) -> Result<String, End> {
    let device = match fs::metadata(rt, path) {
        Ok(found) => found.dev(),
        Err(error) => return Err(unreadable(rt, path, &error)),
    };
    let major = ((device >> 8) & 0xfff) | ((device >> 32) & 0xffff_f000);
    let minor = (device & 0xff) | ((device >> 12) & 0xffff_ff00);
    Ok(text_shown(rt.alloc(), &format_args!("{major}:{minor}"))?)
}

/// Returns whether a directory is in Linux's `efivarfs`, which accepts only files of variables, each
/// written by one call.
pub(crate) fn is_efivarfs(rt: &HostRuntime, directory: &str) -> Result<bool, End> {
    let device = device_of(rt, directory)?;
    let mounts = mounts(rt)?;
    for line in mounts.as_str().lines() {
        if line.contains(" - efivarfs ") && field(line, 2) == device.as_str() {
            return Ok(true);
        }
    }
    Ok(false)
}

/// Where most systems mount their EFI system partition.
const USUAL_POINT: &str = "/boot/efi";

/// Returns whether a path goes on after a mount point.
fn is_below(path: &str, point: &str) -> bool {
    match path.strip_prefix(point) {
        Some(rest) => rest.starts_with('/'),
        None => false,
    }
}

/// Returns the longest mount point above a path, except for the root. The usual mount point of the EFI
/// system partition counts even if nothing is mounted there.
pub(crate) fn mount_point_above<'a>(
    rt: &HostRuntime,
    path: &'a str,
) -> Result<Option<&'a str>, End> {
    let mounts = mounts(rt)?;
    let mut longest = if is_below(path, USUAL_POINT) {
        USUAL_POINT.len()
    } else {
        0
    };
    for line in mounts.as_str().lines() {
        let point = field(line, 4);
        if longest < point.len() && is_below(path, point) {
            longest = point.len();
        }
    }
    Ok(if longest == 0 {
        None
    } else {
        path.get(..longest)
    })
}

/// Returns a path of a line. Blanks, line ends and backslashes are octal numbers there.
fn unescaped(alloc: Global, field: &str) -> Result<String, AllocError> {
    field
        .replace(alloc, "\\040", " ")?
        .replace(alloc, "\\011", "\t")?
        .replace(alloc, "\\012", "\n")?
        .replace(alloc, "\\134", "\\")
}

/// Returns what follows a mount point in a path at or below it.
fn below<'a>(path: &'a str, point: &str) -> Option<&'a str> {
    let rest = path.strip_prefix(point)?;
    if point == "/" {
        return Some(path);
    }
    if rest.is_empty() || rest.starts_with('/') {
        Some(rest)
    } else {
        None
    }
}

/// A file on a mounted file system.
#[derive(Drop)]
pub(crate) struct Mounted {
    /// The number of the device, as `major:minor`.
    pub(crate) device: String,
    /// The path of the file on the file system.
    pub(crate) path: String,
    /// The type of the file system, such as `vfat`.
    pub(crate) kind: String,
}

/// Returns the path of a loader without links.
fn real_loader(rt: &HostRuntime, file: &str) -> Result<PathBuf, End> {
    match fs::canonicalize(rt, file) {
        Ok(real) => Ok(real),
        Err(error) if matches!(error.kind(), io::ErrorKind::NotFound) => {
            let what = ": no such file \
                        (mount the EFI system partition, or name the partition with --partuuid)";
            Err(refuse(rt, WRONG_ARGUMENTS, &["--loader ", file, what]))
        }
        Err(error) => Err(unreadable(rt, file, &error)),
    }
}

/// Returns the length of a line's mount point, and what follows it in a path at or below it.
fn below_mount<'a>(
    alloc: Global,
    line: &str,
    path: &'a str,
) -> Result<Option<(usize, &'a str)>, AllocError> {
    let point = unescaped(alloc, field(line, 4))?;
    let Some(rest) = below(path, point.as_str()) else {
        return Ok(None);
    };
    Ok(Some((point.len(), rest)))
}

/// Returns a path at or below the mount point of a line, on the file system that is mounted there.
fn path_on(alloc: Global, line: &str, path: &str) -> Result<String, AllocError> {
    let root = unescaped(alloc, field(line, 3))?;
    match below_mount(alloc, line, path)? {
        Some((_, rest)) => joined(alloc, &[root.as_str().trim_end_matches('/'), rest]),
        None => Ok(root),
    }
}

/// Returns the type of the file system of a line.
fn kind_of(alloc: Global, line: &str) -> Result<String, AllocError> {
    let kinds = line.split_once(" - ").map_or("", |it| it.1);
    String::from_str(alloc, field(kinds, 0))
}

/// Finds the file system of a file, and the path there.
pub(crate) fn find_mounted(rt: &HostRuntime, file: &str) -> Result<Mounted, End> {
    let alloc = rt.alloc();
    let real = real_loader(rt, file)?;
    let device = device_of(rt, file)?;
    let mounts = mounts(rt)?;
    let (mut longest, mut found) = (0, None);
    for (place, line) in mounts.as_str().lines().enumerate() {
        if field(line, 2) == device.as_str() {
            if let Some((len, _)) = below_mount(alloc, line, real.as_str())? {
                if longest <= len {
                    longest = len;
                    found = Some(place);
                }
            }
        }
    }
    let (path, kind) = match found {
        Some(place) => {
            let line = mounts.as_str().lines().nth(place).unwrap_or("");
            (path_on(alloc, line, real.as_str())?, kind_of(alloc, line)?)
        }
        None => (String::new(alloc), String::new(alloc)),
    };
    Ok(Mounted { device, path, kind })
}
