//! Creates the load option of a new entry from the words of `create`.
use crate::command_line::arguments::Words;
use crate::files::mounts::{find_mounted, mount_point_above};
use crate::files::program_ends::{End, WRONG_ARGUMENTS, refuse, refuse_for, refuse_with};
use crate::files::variables::{MOST_BYTES, MOST_READ, unreadable};
use crate::output::entry::Shown;
use crate::output::growing_texts::joined;
use crate::partitions::{GPT, Located, by_guid, by_number, on_disk};
use crate::{buses, fill};
use std::alloc::{AllocError, Global};
use std::fs;
use uefi_device_path::build::media::HardDrive;
use uefi_device_path::{DevicePathBuf, Guid, LoadOptionBuilder, OptionBuildError, PathTextError};
use uefi_path::Path;
use uefi_text::{CString16, FromStrError};

/// Refuses the value of an option.
fn refuse_value(rt: &HostRuntime, option: &str, value: &str, wanted: &str) -> End {
    refuse(rt, WRONG_ARGUMENTS, &[option, " ", value, ": not ", wanted])
}

/// Converts a text to a string of firmware.
pub(crate) fn string(rt: &HostRuntime, option: &str, text: &str) -> Result<CString16, End> {
    match CString16::try_from_str(rt.alloc(), text) {
        Ok(string) => Ok(string),
        Err(FromStrError::OutOfMemory) => Err(End::OutOfMemory),
        Err(error) => { Err(refuse_for(rt, WRONG_ARGUMENTS, &[option, " ", text], error)) }
    }
}

/// Reads a number in decimal, or in hexadecimal after `0x`.
fn read_u64(text: &str) -> Option<u64> {
    match text.strip_prefix("0x") {
        Some(digits) => u64::from_str_radix(digits, 16).ok(),
        None => text.parse::<u64>().ok(),
    }
}

/// Returns the number of an option, or 0 if the option is not given.
fn number(rt: &HostRuntime, words: &Words<'_>, option: &str) -> Result<u64, End> {
    let Some(text) = words.value(option) else {
        return Ok(0);
    };
    match read_u64(text) {
        Some(number) => Ok(number),
        None => Err(refuse_value(rt, option, text, "a number")),
    }
}

/// Rejects a loader whose path begins with the mount point of a file system.
fn check_mount_point(rt: &HostRuntime, loader: &str) -> Result<(), End> {
    if !loader.starts_with('/') {
        return Ok(());
    }
    let Some(point) = mount_point_above(rt, loader)? else {
        return Ok(());
    };
    let rest = loader.strip_prefix(point).unwrap_or("");
    Err(refuse(
        rt,
        WRONG_ARGUMENTS,
        &[
            "--loader ",
            loader,
            ": the path includes the mount point ",
            point,
            " (type --loader ",
            rest,
            ")",
        ],
    ))
}

/// Rejects the path of a loader from which a shell has removed the backslashes.
fn check_separators(rt: &HostRuntime, loader: &str) -> Result<(), End> {
    let is_joined = loader.starts_with("EFI") && !loader.contains('/') && !loader.contains('\\');
    if !is_joined || loader == "EFI" {
        return Ok(());
    }
    Err(refuse(
        rt,
        WRONG_ARGUMENTS,
        &[
            "--loader ",
            loader,
            ": the path has no separator (the shell removes backslashes: type slashes, ",
            "such as /EFI/debian/shimx64.efi)",
        ],
    ))
}

/// Returns the path of a file on a partition, after the path of the disk if that is requested.
fn path_to(
    rt: &HostRuntime,
    words: &Words<'_>,
    partition: &Located,
    loader: &str,
) -> Result<DevicePathBuf, End> {
    let name = string(
        rt,
        "--loader",
        loader.replace(rt.alloc(), "/", "\\")?.as_str(),
    )?;
    let mut path = if words.has("--full-path") {
        buses::of_disk(rt, "--full-path", partition.disk.as_str())?
    } else {
        DevicePathBuf::new(rt.alloc())?
    };
    if path.push_node(&partition.drive).is_err() {
        return Err(End::OutOfMemory);
    }
    match path.push_file(Path::new(name.as_cstr16())) {
        Ok(()) => Ok(path),
        Err(error) => Err(refuse_for(rt, WRONG_ARGUMENTS, &["--loader ", loader], error)),
    }
}

/// Returns the number of a partition.
fn partition_number(rt: &HostRuntime, words: &Words<'_>) -> Result<u32, End> {
    match u32::try_from(number(rt, words, "--partition")?) {
        Ok(0) => {
            Err(refuse(
                rt,
                WRONG_ARGUMENTS,
                &["create needs --partition, the number of the partition, from 1 on"],
            ))
        }
        Ok(number) => Ok(number),
        Err(_) => {
            let text = words.value("--partition").unwrap_or("");
            Err(refuse_value(rt, "--partition", text, "the number of a partition"))
        }
    }
}

/// Returns the partition with a GUID that this machine need not have, from the words of the user.
fn given_partition(rt: &HostRuntime, words: &Words<'_>, guid: &str) -> Result<Located, End> {
    let Some(signature) = Guid::try_parse(guid) else {
        return Err(refuse_value(
            rt,
            "--disk",
            guid,
            "a disk, such as /dev/nvme0n1, or the GUID of a partition",
        ));
    };
    let drive = HardDrive {
        partition_number: partition_number(rt, words)?,
        partition_start: number(rt, words, "--start")?,
        partition_size: number(rt, words, "--size")?,
        partition_signature: signature.to_bytes(),
        partition_format: GPT,
        signature_type: GPT,
    };
    Ok(Located {
        drive,
        disk: String::new(rt.alloc()),
    })
}

/// Reports that firmware can't read the file system of a loader.
fn refuse_kind(rt: &HostRuntime, loader: &str, kind: &str) -> End {
    let kind = if kind.is_empty() {
        "its file system"
    } else {
        kind
    };
    let what = " (copy the loader to the EFI system partition, or add --force)";
    refuse(
        rt,
        WRONG_ARGUMENTS,
        &["--loader ", loader, ": firmware cannot read ", kind, what],
    )
}

/// Returns the path of a file on the partition on which it is mounted.
fn path_of_file(rt: &HostRuntime, words: &Words<'_>, loader: &str) -> Result<DevicePathBuf, End> {
    let file = find_mounted(rt, loader)?;
    if file.kind.as_str() != "vfat" && !words.has("--force") {
        return Err(refuse_kind(rt, loader, file.kind.as_str()));
    }
    let given = joined(rt.alloc(), &["--loader ", loader])?;
    let partition = by_number(rt, given.as_str(), file.device.as_str())?;
    path_to(rt, words, &partition, file.path.as_str())
}

/// Returns the device path of the loader that the words name.
fn path_of_loader(rt: &HostRuntime, words: &Words<'_>) -> Result<DevicePathBuf, End> {
    let Some(loader) = words.value("--loader") else {
        return Err(refuse(
            rt,
            WRONG_ARGUMENTS,
            &["create needs --loader FILE or --path PATH"],
        ));
    };
    let partition = match (words.value("--partuuid"), words.value("--disk")) {
        (None, None) => return path_of_file(rt, words, loader),
        (Some(guid), _) => by_guid(rt, guid)?,
        (None, Some(disk)) if disk.starts_with('/') => {
            on_disk(rt, disk, partition_number(rt, words)?)?
        }
        (None, Some(guid)) => given_partition(rt, words, guid)?,
    };
    if !words.has("--force") {
        check_mount_point(rt, loader)?;
        check_separators(rt, loader)?;
    }
    path_to(rt, words, &partition, loader)
}

/// Rejects an option that would say nothing about the path of the new entry.
fn check_options(rt: &HostRuntime, words: &Words<'_>) -> Result<(), End> {
    let disk = words.value("--disk");
    let is_guid = disk.is_some_and(|disk| !disk.starts_with('/'));
    for (option, is_used, wanted) in [
        ("--partition", disk.is_some(), "--disk"),
        ("--start", is_guid, "--disk GUID"),
        ("--size", is_guid, "--disk GUID"),
        (
            "--full-path",
            !is_guid && words.value("--loader").is_some(),
            "--loader on this machine",
        ),
    ] {
        let is_given = words.has(option) || words.value(option).is_some();
        if !is_used && is_given {
            return Err(refuse(rt, WRONG_ARGUMENTS, &[option, " needs ", wanted]));
        }
    }
    Ok(())
}

/// Returns the device path of the new entry.
fn path_of(rt: &HostRuntime, words: &Words<'_>) -> Result<DevicePathBuf, End> {
    let ways = ["--path", "--disk", "--partuuid", "--interface"];
    words.check_alternatives(rt, &ways, "--path, --disk, --partuuid and --interface")?;
    let ways = ["--path", "--loader", "--interface"];
    words.check_alternatives(rt, &ways, "--path, --loader and --interface")?;
    check_options(rt, words)?;
    if let Some(name) = words.value("--interface") {
        return buses::of_interface(rt, name);
    }
    let Some(text) = words.value("--path") else {
        return path_of_loader(rt, words);
    };
    match DevicePathBuf::from_lenient_text(rt.alloc(), text) {
        Ok(path) => Ok(path),
        Err(PathTextError::OutOfMemory) => Err(End::OutOfMemory),
        Err(error) => Err(refuse_for(rt, WRONG_ARGUMENTS, &["--path ", text], error)),
    }
}

/// Reads bytes from pairs of hexadecimal digits.
fn read_bytes(alloc: Global, text: &str) -> Result<Option<Vec<u8>>, AllocError> {
    let digits = text.as_bytes();
    let mut bytes = Vec::new(alloc);
    if digits.len() % 2 != 0 {
        return Ok(None);
    }
    for pair in digits.chunks_exact(2) {
        let (high, low) = match pair {
            [high, low] => (
                char::from(*high).to_digit(16),
                char::from(*low).to_digit(16),
            ),
            _ => (None, None),
        };
        match (high, low) {
            (Some(high), Some(low)) => bytes.push(((high % 16) * 16 + low % 16) as u8)?,
            _ => return Ok(None),
        }
    }
    Ok(Some(bytes))
}

/// Returns the bytes of a file, or of standard input for `-`.
fn file_bytes(rt: &HostRuntime, file: &str) -> Result<Vec<u8>, End> {
    // One byte more than a variable holds shows that there are too many.
    let mut buffer = [0; MOST_READ];
    let count = if file == "-" {
        match fill(&mut rt.reader(), &mut buffer) {
            Ok(count) => count,
            Err(_) => return Err(End::NoStream),
        }
    } else {
        let opened = fs::open(rt, file).and_then(|mut it| fill(&mut it, &mut buffer));
        match opened {
            Ok(count) => count,
            Err(error) => return Err(unreadable(rt, file, &error)),
        }
    };
    if MOST_BYTES < count {
        let message = format_args!(
            "--data-file {file}: more than {MOST_BYTES} bytes, which no variable holds"
        );
        return Err(refuse_with(rt, WRONG_ARGUMENTS, message));
    }
    Ok(Vec::from_slice(rt.alloc(), &buffer[..count])?)
}

/// Returns the index of the new entry in the order, or `None` if the order does not get it.
pub(crate) fn index_of(rt: &HostRuntime, words: &Words<'_>) -> Result<Option<usize>, End> {
    let ways = ["--last", "--index", "--no-order"];
    words.check_alternatives(rt, &ways, "--last, --index and --no-order")?;
    if words.has("--no-order") {
        return Ok(None);
    }
    if words.has("--last") {
        return Ok(Some(usize::MAX));
    }
    let index = number(rt, words, "--index")?;
    Ok(Some(usize::try_from(index).unwrap_or(usize::MAX)))
}

/// Returns bytes in UTF-16.
fn utf16_bytes(alloc: Global, text: &str) -> Result<Vec<u8>, AllocError> {
    let mut bytes = Vec::new(alloc);
    for unit in text.encode_utf16() {
        bytes.extend_from_slice(&unit.to_le_bytes())?;
    }
    Ok(bytes)
}

/// Returns the bytes of an option in ASCII.
fn ascii_bytes(rt: &HostRuntime, text: &str) -> Result<Vec<u8>, End> {
    if !text.is_ascii() {
        return Err(refuse_value(rt, "--data-ascii", text, "ASCII"));
    }
    Ok(Vec::from_slice(rt.alloc(), text.as_bytes())?)
}

/// Returns the bytes of an option in hexadecimal.
fn hexadecimal_bytes(rt: &HostRuntime, text: &str) -> Result<Vec<u8>, End> {
    match read_bytes(rt.alloc(), text)? {
        Some(bytes) => Ok(bytes),
        None => Err(refuse_value(rt, "--data-hex", text, "bytes in hexadecimal")),
    }
}

/// Returns the optional data of the new entry.
fn data_of(rt: &HostRuntime, words: &Words<'_>) -> Result<Vec<u8>, End> {
    let mut data = Vec::new(rt.alloc());
    if let Some(text) = words.value("--data") {
        data.extend_from_slice(&utf16_bytes(rt.alloc(), text)?)?;
    }
    if let Some(text) = words.value("--data-ascii") {
        data.extend_from_slice(&ascii_bytes(rt, text)?)?;
    }
    if let Some(text) = words.value("--data-hex") {
        data.extend_from_slice(&hexadecimal_bytes(rt, text)?)?;
    }
    if let Some(file) = words.value("--data-file") {
        data.extend_from_slice(&file_bytes(rt, file)?)?;
    }
    Ok(data)
}

fn refuse_path(rt: &HostRuntime, path: &str, reason: &String) -> End {
    refuse(
        rt,
        WRONG_ARGUMENTS,
        &[
            path,
            ": ",
            reason.as_str(),
            " (to create the entry anyway, add --force)",
        ],
    )
}

/// Rejects an entry with a path that firmware rejects.
fn check_paths(rt: &HostRuntime, words: &Words<'_>, option: &[u8]) -> Result<(), End> {
    let shown = Shown::of_entry(rt.alloc(), option)?;
    for file in &shown.files {
        if let Some(reason) = &file.refused {
            return Err(refuse_path(rt, &file.path, reason));
        }
    }
    match &shown.malformed {
        Some(fault) => Err(refuse_path(rt, words.value("--path").unwrap_or(""), &fault.reason)),
        None => Ok(()),
    }
}

/// Returns the bytes of the new entry.
pub(crate) fn option_of(rt: &HostRuntime, words: &Words<'_>) -> Result<Vec<u8>, End> {
    let Some(text) = words.value("--description") else {
        return Err(refuse(
            rt,
            WRONG_ARGUMENTS,
            &["create needs --description, the name to show in the boot menu"],
        ));
    };
    let description = string(rt, "--description", text)?;
    let path = path_of(rt, words)?;
    let data = data_of(rt, words)?;
    let attributes = if words.has("--inactive") { 0 } else { 1 };
    let paths = [path.as_device_path()];
    let units = description.as_cstr16().as_slice().units();
    match LoadOptionBuilder::new(attributes, units, &paths, &data).to_vec(rt.alloc()) {
        Ok(bytes) => {
            if !words.has("--force") {
                check_paths(rt, words, &bytes)?;
            }
            Ok(bytes)
        }
        Err(OptionBuildError::OutOfMemory) => Err(End::OutOfMemory),
        Err(error) => Err(refuse_for(rt, WRONG_ARGUMENTS, &["create"], error)),
    }
}
