//! Finds partitions of the machine. Linux describes each block device in sysfs, and udev links each partition
//! by its GUID. Without udev, the partition table has the GUID.
use crate::files::program_ends::{End, WRONG_ARGUMENTS, refuse, refuse_with};
use crate::files::variables::{file_name, path_below, real_path, unreadable};
use crate::fill;
use crate::output::growing_texts::{joined, text_shown};
use std::alloc::AllocError;
use std::io::{Seek, SeekFrom};
use std::path::PathBuf;
use std::{fs, io};
use uefi_device_path::Guid;
use uefi_device_path::build::media::HardDrive;
use uefi_partitions::{GptEntries, GptHeader, Mbr, Partition};

/// Where udev links the partitions of the machine. The link of a partition of an MBR disk is named by the
/// signature of the disk and the number of the partition.
pub(crate) const DISKS: &str = "/dev/disk/by-partuuid";

/// The number of bytes of a sector, in which sysfs counts, whatever the blocks of the disk are.
const SECTOR: u64 = 512;

/// The format of a partition table, which is also the type of a signature (UEFI Specification 2.10, section
/// 10.3.5.1).
pub(crate) const MBR: u8 = 1;

pub(crate) const GPT: u8 = 2;

/// Returns whether an error says that there is no such file.
fn is_missing(error: &io::Error) -> bool {
    matches!(error.kind(), io::ErrorKind::NotFound)
}

/// Returns the number in a file of sysfs, or `None` if there is no such file or it contains something else.
fn number_in(rt: &HostRuntime, directory: &str, file: &str) -> Result<Option<u64>, End> {
    let path = path_below(rt.alloc(), directory, file)?;
    let bytes = match fs::read(rt, path.as_str()) {
        Ok(bytes) => bytes,
        Err(error) if is_missing(&error) => return Ok(None),
        Err(error) => return Err(unreadable(rt, path.as_str(), &error)),
    };
    let Ok(text) = std::str::from_utf8(&bytes) else {
        return Ok(None);
    };
    Ok(text.trim().parse::<u64>().ok())
}

/// Returns the name of the link to a device among the links to partitions, if there is one.
fn link_to(rt: &HostRuntime, device: &str) -> Result<Option<String>, End> {
    let links = match fs::read_dir(rt, DISKS) {
        Ok(links) => links,
        Err(error) if is_missing(&error) => return Ok(None),
        Err(error) => return Err(unreadable(rt, DISKS, &error)),
    };
    for link in links {
        let Ok(link) = link else {
            continue;
        };
        let path = path_below(rt.alloc(), DISKS, link.file_name())?;
        let Ok(target) = fs::read_link(rt, path.as_str()) else {
            continue;
        };
        if file_name(target.as_str()) == device {
            return Ok(Some(String::from_str(rt.alloc(), link.file_name())?));
        }
    }
    Ok(None)
}

/// The signature of a partition, the format of the partition table, and the type of the signature.
fn signature_of(link: &str) -> Option<([u8; 16], u8)> {
    if let Some(guid) = Guid::try_parse(link) {
        return Some((guid.to_bytes(), GPT));
    }
    let (signature, _) = link.split_once('-')?;
    let [a, b, c, d] = u32::from_str_radix(signature, 16).ok()?.to_le_bytes();
    Some(([a, b, c, d, 0, 0, 0, 0, 0, 0, 0, 0, 0, 0, 0, 0], MBR))
}

/// The greatest number of bytes of a block, and of the entries of a partition table, that the program reads.
const MOST_BLOCK: usize = 4096;

const MOST_ENTRIES: u64 = 1 << 20;

/// Returns the partition with a number in the table of an open disk, or `None` if the table has none.
fn in_table(
    rt: &HostRuntime,
    disk: &mut fs::File,
    block: u64,
    number: u32,
) -> Result<Option<Partition>, End> {
    let mut blocks = [0; 2 * MOST_BLOCK];
    let len = usize::try_from(block).unwrap_or(MOST_BLOCK).min(MOST_BLOCK);
    match fill(disk, &mut blocks[..2 * len]) {
        Ok(count) if count == 2 * len => {}
        _ => return Ok(None),
    }
    let (first, second) = blocks[..2 * len].split_at(len);
    let Ok(header) = GptHeader::from_block(second, 1) else {
        let Ok(mbr) = Mbr::from_block(first) else {
            return Ok(None);
        };
        // A disk whose GPT is damaged has no partition that its MBR describes.
        return Ok(if mbr.is_protective() {
            None
        } else {
            mbr.partition(number).ok()
        });
    };
    if MOST_ENTRIES < header.entries_len() {
        return Ok(None);
    }
    let mut entries = vec![in rt.alloc(); 0; header.entries_len() as usize]?;
    let start = header.entries_block().saturating_mul(block);
    if disk.seek(SeekFrom::Start(start)).is_err() || fill(disk, &mut entries).is_err() {
        return Ok(None);
    }
    match GptEntries::new(&header, &entries) {
        Ok(entries) => Ok(entries.partition(number).ok()),
        Err(_) => Ok(None),
    }
}

/// Returns the partition with a number on a disk, from the disk's partition table, or `None` if the table
/// can't be read or does not have it.
fn from_table(
    rt: &HostRuntime,
    disk: &str,
    block: u64,
    number: u32,
) -> Result<Option<HardDrive>, End> {
    let path = path_below(rt.alloc(), "/dev", disk)?;
    let Ok(mut file) = fs::open(rt, path.as_str()) else {
        return Ok(None);
    };
    let Some(partition) = in_table(rt, &mut file, block, number)? else {
        return Ok(None);
    };
    let signature = partition.signature;
    let format = partition.table as u8;
    Ok(Some(HardDrive {
        partition_number: partition.number,
        partition_start: partition.start,
        partition_size: partition.size,
        partition_signature: signature,
        partition_format: format,
        signature_type: format,
    }))
}

/// Returns the number of bytes of a block of the disk that a directory of sysfs describes.
fn block_in(rt: &HostRuntime, directory: &str) -> Result<u64, End> {
    let queue = path_below(rt.alloc(), directory, "queue")?;
    Ok(number_in(rt, queue.as_str(), "logical_block_size")?.unwrap_or(SECTOR))
}

/// A partition of the machine, and the name of its disk.
#[derive(Drop)]
pub(crate) struct Located {
    pub(crate) drive: HardDrive,
    pub(crate) disk: String,
}

/// Returns the number of the partition that a directory of sysfs describes. `given` says how the user named
/// it.
fn partition_number(rt: &HostRuntime, given: &str, directory: &str) -> Result<u32, End> {
    if let Some(number) = number_in(rt, directory, "partition")? {
        if let Ok(number) = u32::try_from(number) {
            return Ok(number);
        }
    }
    Err(refuse(rt, WRONG_ARGUMENTS, &[given, ": not a partition of a disk"]))
}

/// Returns the signature of a partition, from the name of the link to its device, if there is one.
fn linked(rt: &HostRuntime, device: &str) -> Result<Option<([u8; 16], u8)>, End> {
    match link_to(rt, device)? {
        Some(link) => Ok(signature_of(link.as_str())),
        None => Ok(None),
    }
}

/// Returns a place or a size in a directory of sysfs, in blocks.
fn blocks_in(rt: &HostRuntime, directory: &str, file: &str, block: u64) -> Result<u64, End> {
    let sectors = number_in(rt, directory, file)?.unwrap_or(0);
    Ok(sectors / (block / SECTOR).max(1))
}

/// Returns the partition with a number and a signature that a directory of sysfs describes.
fn drive_in(
    rt: &HostRuntime,
    directory: &str,
    number: u32,
    block: u64,
    found: ([u8; 16], u8),
) -> Result<HardDrive, End> {
    let signature = found.0;
    let format = found.1;
    Ok(HardDrive {
        partition_number: number,
        partition_start: blocks_in(rt, directory, "start", block)?,
        partition_size: blocks_in(rt, directory, "size", block)?,
        partition_signature: signature,
        partition_format: format,
        signature_type: format,
    })
}

/// Returns the partition that a directory of sysfs describes. `given` says how the user named it.
fn partition_in(rt: &HostRuntime, given: &str, directory: &str) -> Result<Located, End> {
    let number = partition_number(rt, given, directory)?;
    let real = real_path(rt, directory)?;
    // The directory of the disk is the one above.
    let (above, device) = real
        .as_str()
        .rsplit_once('/')
        .unwrap_or(("", real.as_str()));
    let block = block_in(rt, above)?;
    let disk = file_name(above);
    let drive = match linked(rt, device)? {
        Some(found) => drive_in(rt, directory, number, block, found)?,
        None => match from_table(rt, disk, block, number)? {
            Some(drive) => drive,
            None => return Err(refuse_table(rt, given, disk)),
        },
    };
    Ok(Located {
        drive,
        disk: String::from_str(rt.alloc(), disk)?,
    })
}

/// Reports that no table describes a partition.
fn refuse_table(rt: &HostRuntime, given: &str, disk: &str) -> End {
    let what = " has no readable partition table (run as root?)";
    refuse(
        rt,
        WRONG_ARGUMENTS,
        &[given, ": no link in ", DISKS, ", and /dev/", disk, what],
    )
}

/// Returns the partition with a device number, which Linux writes as `major:minor`.
pub(crate) fn by_number(rt: &HostRuntime, given: &str, number: &str) -> Result<Located, End> {
    let directory = path_below(rt.alloc(), "/sys/dev/block", number)?;
    partition_in(rt, given, directory.as_str())
}

/// Returns the directory in which sysfs describes a device.
pub(crate) fn described(rt: &HostRuntime, device: &str) -> Result<String, AllocError> {
    path_below(rt.alloc(), "/sys/class/block", device)
}

/// Returns the partition with a number on a disk, such as `/dev/nvme0n1`.
pub(crate) fn on_disk(rt: &HostRuntime, disk: &str, number: u32) -> Result<Located, End> {
    let real = real_disk(rt, disk)?;
    let name = file_name(real.as_str());
    let own = described(rt, name)?;
    check_whole(rt, disk, own.as_str())?;
    let digits = text_shown(rt.alloc(), &number)?;
    // Linux puts a `p` between the name of a disk and the number if the name ends with a digit.
    let between = match name.as_bytes() {
        [.., last] if last.is_ascii_digit() => "p",
        _ => "",
    };
    let device = joined(
        rt.alloc(),
        &["/sys/class/block/", name, between, digits.as_str()],
    )?;
    let given = joined(
        rt.alloc(),
        &["--disk ", disk, " --partition ", digits.as_str()],
    )?;
    if fs::metadata(rt, device.as_str()).is_ok() {
        return partition_in(rt, given.as_str(), device.as_str());
    }
    // Linux has not read the partition table of this disk since it was written.
    let block = block_in(rt, own.as_str())?;
    match from_table(rt, name, block, number)? {
        Some(drive) => Ok(Located {
            drive,
            disk: String::from_str(rt.alloc(), name)?,
        }),
        None => {
            let message = [given.as_str(), ": no such partition (lsblk lists them)"];
            Err(refuse(rt, WRONG_ARGUMENTS, &message))
        }
    }
}

/// Returns the path of a disk without links.
fn real_disk(rt: &HostRuntime, disk: &str) -> Result<PathBuf, End> {
    match fs::canonicalize(rt, disk) {
        Ok(real) => Ok(real),
        Err(error) if is_missing(&error) => {
            let message = ["--disk ", disk, ": no such device (lsblk lists the disks)"];
            Err(refuse(rt, WRONG_ARGUMENTS, &message))
        }
        Err(error) => Err(unreadable(rt, disk, &error)),
    }
}

/// Rejects a partition in place of a disk.
fn check_whole(rt: &HostRuntime, disk: &str, directory: &str) -> Result<(), End> {
    let Some(number) = number_in(rt, directory, "partition")? else {
        return Ok(());
    };
    let message = format_args!(
        "--disk {disk}: a partition, not a disk (its number for --partition is {number})"
    );
    Err(refuse_with(rt, WRONG_ARGUMENTS, message))
}

/// Returns the partition with a GUID, or with the signature of its MBR disk and its number.
pub(crate) fn by_guid(rt: &HostRuntime, guid: &str) -> Result<Located, End> {
    if guid.contains('/') {
        return Err(refuse(
            rt,
            WRONG_ARGUMENTS,
            &[
                "--partuuid ",
                guid,
                ": not a GUID (for a disk, type --disk DISK --partition N)",
            ],
        ));
    }
    let lower = guid.to_ascii_lowercase(rt.alloc())?;
    let link = path_below(rt.alloc(), DISKS, lower.as_str())?;
    let real = match fs::canonicalize(rt, link.as_str()) {
        Ok(real) => real,
        Err(error) if is_missing(&error) => return Err(refuse_guid(rt, guid)),
        Err(error) => return Err(unreadable(rt, link.as_str(), &error)),
    };
    let given = joined(rt.alloc(), &["--partuuid ", guid])?;
    let device = described(rt, file_name(real.as_str()))?;
    partition_in(rt, given.as_str(), device.as_str())
}

/// Reports that no partition has a GUID.
fn refuse_guid(rt: &HostRuntime, guid: &str) -> End {
    let what = ": no disk here has this partition (lsblk -o NAME,PARTUUID lists them)";
    refuse(rt, WRONG_ARGUMENTS, &["--partuuid ", guid, what])
}
