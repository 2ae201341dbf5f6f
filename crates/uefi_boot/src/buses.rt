//! The whole device path of a disk or a network card, from the directories of sysfs that lead to it.
use crate::files::program_ends::{End, WRONG_ARGUMENTS, refuse};
use crate::files::variables::{path_below, real_path};
use crate::output::growing_texts::{Growing, joined};
use crate::partitions::described;
use std::fmt::Display;
use std::fs;
use uefi_device_path::{DevicePathBuf, PathTextError};

/// The nodes of the directories so far, as text.
#[derive(Drop)]
struct Buses<'a> {
    rt: &'a HostRuntime,
    /// How the user named the device.
    given: &'a str,
    nodes: Growing,
    /// Whether the node of the device itself is there.
    is_whole: bool,
}

/// Returns the content of a file of sysfs, or an empty text if there is none.
fn text_in(rt: &HostRuntime, directory: &str, file: &str) -> Result<String, End> {
    let path = path_below(rt.alloc(), directory, file)?;
    let Ok(bytes) = fs::read(rt, path.as_str()) else {
        return Ok(String::new(rt.alloc()));
    };
    let text = String::from_utf8_lossy(rt.alloc(), &bytes)?;
    Ok(String::from_str(rt.alloc(), text.as_str().trim())?)
}

/// Returns the device and the function of a directory's name such as `0000:00:1f.2`.
fn pci_address(name: &str) -> Option<(u8, u8)> {
    let (rest, function) = name.rsplit_once('.')?;
    let (rest, device) = rest.rsplit_once(':')?;
    let (domain, bus) = rest.split_once(':')?;
    if domain.len() < 4 || bus.len() != 2 {
        return None;
    }
    Some((
        u8::from_str_radix(device, 16).ok()?,
        u8::from_str_radix(function, 16).ok()?,
    ))
}

/// Returns the target and the logical unit of a directory's name such as `2:0:1:0`.
fn scsi_address(name: &str) -> Option<(u16, u16)> {
    let (rest, unit) = name.rsplit_once(':')?;
    let (rest, target) = rest.rsplit_once(':')?;
    let (host, channel) = rest.split_once(':')?;
    host.parse::<u32>().ok()?;
    channel.parse::<u32>().ok()?;
    Some((target.parse::<u16>().ok()?, unit.parse::<u16>().ok()?))
}

/// Returns the name of the directory above another.
fn name_above(directory: &str) -> &str {
    directory.rsplit('/').nth(1).unwrap_or("")
}

/// Returns whether a directory such as `nvme0n1` is that of a namespace, in the directory of its disk.
fn is_namespace(above: &str, name: &str) -> bool {
    match name.strip_prefix(above) {
        Some(rest) => above.starts_with("nvme") && rest.starts_with('n'),
        None => false,
    }
}

impl<'a> Buses<'a> {
    fn add_node<D: Display>(&mut self, node: &D) {
        self.nodes.add(&["/"]);
        self.nodes.show(node);
    }

    fn refuse(&self, what: &str) -> End {
        let given = self.given;
        refuse(
            self.rt,
            WRONG_ARGUMENTS,
            &[
                given,
                ": cannot describe ",
                what,
                " in a device path (pass the whole path with --path)",
            ],
        )
    }

    /// Adds the node of a PCI root bridge. Firmware numbers them as ACPI does, and calls each of them
    /// `PNP0A03`, whatever ACPI calls it.
    fn add_root(&mut self, directory: &str) -> Result<(), End> {
        let identifier = text_in(self.rt, directory, "firmware_node/uid")?;
        let Ok(number) = identifier.as_str().parse::<u32>() else {
            return Err(self.refuse("a PCI root bridge without a number of ACPI"));
        };
        self.add_node(&format_args!("PciRoot(0x{number:X})"));
        Ok(())
    }

    /// Adds the node of a disk of an ATA port, which sysfs counts from 1 on.
    fn add_port(&mut self, directory: &str, name: &str) -> Result<(), End> {
        let ports = joined(self.rt.alloc(), &[directory, "/ata_port/", name])?;
        let port = text_in(self.rt, ports.as_str(), "port_no")?;
        match port.as_str().parse::<u16>() {
            Ok(port) if port != 0 => {
                self.is_whole = true;
                let port = port - 1;
                self.add_node(&format_args!("Sata(0x{port:X},0xFFFF,0x0)"));
                Ok(())
            }
            _ => Err(self.refuse("an ATA port without a number")),
        }
    }

    /// Adds the node of a namespace of an NVMe disk.
    fn add_namespace(&mut self, directory: &str) -> Result<(), End> {
        let number = text_in(self.rt, directory, "nsid")?;
        let Ok(number) = number.as_str().parse::<u32>() else {
            return Err(self.refuse("an NVMe namespace without a number"));
        };
        let identifier = text_in(self.rt, directory, "eui")?;
        let mut reversed = Growing::new(self.rt.alloc());
        // The text of a node has the bytes in the other order.
        for (place, byte) in identifier.as_str().rsplit(' ').enumerate() {
            reversed.add(&[if place == 0 { "" } else { "-" }]);
            reversed.add(&[byte]);
        }
        let reversed = reversed.finish()?;
        // Firmware writes zeros for a namespace without an identifier.
        let bytes = if reversed.len() == 23 {
            reversed.as_str()
        } else {
            "00-00-00-00-00-00-00-00"
        };
        self.is_whole = true;
        self.add_node(&format_args!("NVMe(0x{number:X},{bytes})"));
        Ok(())
    }

    /// Adds the node of a network card, and one for IPv4 with an address from a DHCP server.
    fn add_card(&mut self, directory: &str) -> Result<(), End> {
        let address = text_in(self.rt, directory, "address")?;
        let kind = text_in(self.rt, directory, "type")?;
        let (Ok(kind), 17) = (kind.as_str().parse::<u8>(), address.len()) else {
            return Err(self.refuse("a network interface that is not of the Ethernet"));
        };
        let digits = address.as_str().replace(self.rt.alloc(), ":", "")?;
        self.is_whole = true;
        self.add_node(&format_args!("MAC({digits},0x{kind:X})/IPv4(0.0.0.0)"));
        Ok(())
    }

    /// Adds the node of a directory, if it stands for a node.
    fn add(&mut self, directory: &str, name: &str) -> Result<(), End> {
        let above = name_above(directory);
        if name.starts_with("pci") && name.contains(':') {
            return self.add_root(directory);
        }
        if let Some((device, function)) = pci_address(name) {
            self.add_node(&format_args!("Pci(0x{device:X},0x{function:X})"));
            return Ok(());
        }
        if name.starts_with("ata") {
            return self.add_port(directory, name);
        }
        if name.starts_with("usb") {
            return Err(self.refuse("a USB device"));
        }
        if above == "net" {
            return self.add_card(directory);
        }
        if is_namespace(above, name) {
            return self.add_namespace(directory);
        }
        if let (Some((target, unit)), false) = (scsi_address(name), self.is_whole) {
            self.is_whole = true;
            self.add_node(&format_args!("Scsi(0x{target:X},0x{unit:X})"));
            return Ok(());
        }
        // A virtual disk has no node but that of its PCI device.
        self.is_whole = self.is_whole || above.starts_with("virtio") && name == "block";
        Ok(())
    }
}

/// Returns the device path of the device with a name in `/sys/class/block` or `/sys/class/net`.
fn path_in(rt: &HostRuntime, given: &str, link: &str) -> Result<DevicePathBuf, End> {
    let real = real_path(rt, link)?;
    let mut buses = Buses {
        rt,
        given,
        nodes: Growing::new(rt.alloc()),
        is_whole: false,
    };
    let mut end = 0;
    for name in real.as_str().split('/') {
        end = name.len().saturating_add(end);
        if let Some(directory) = real.as_str().get(..end) {
            buses.add(directory, name)?;
        }
        end = end.saturating_add(1);
    }
    // Each node has a slash before it, and the text of a path begins with its first node.
    let nodes = match buses.nodes.so_far()?.strip_prefix("/") {
        Some(nodes) if buses.is_whole => nodes,
        _ => return Err(buses.refuse("this device")),
    };
    match DevicePathBuf::from_lenient_text(rt.alloc(), nodes) {
        Ok(path) => Ok(path),
        Err(PathTextError::OutOfMemory) => Err(End::OutOfMemory),
        Err(_) => Err(buses.refuse("this device")),
    }
}

/// Returns the device path of a disk, by its name in `/sys/class/block`.
pub(crate) fn of_disk(rt: &HostRuntime, given: &str, disk: &str) -> Result<DevicePathBuf, End> {
    path_in(rt, given, described(rt, disk)?.as_str())
}

/// Returns the device path from which the machine boots over a network interface with IPv4.
pub(crate) fn of_interface(rt: &HostRuntime, name: &str) -> Result<DevicePathBuf, End> {
    let given = joined(rt.alloc(), &["--interface ", name])?;
    let link = path_below(rt.alloc(), "/sys/class/net", name)?;
    if name.contains('/') || fs::metadata(rt, link.as_str()).is_err() {
        return Err(refuse(
            rt,
            WRONG_ARGUMENTS,
            &[
                given.as_str(),
                ": no such network interface (ip link lists them)",
            ],
        ));
    }
    path_in(rt, given.as_str(), link.as_str())
}
