//! Device paths that are read from their texts: as they are printed, as people write them, and as
//! libefivar prints them.
#![tactic(auto)]

ghost use Rattle.uefi_device_path.specs.StyledReading.{GivesText, path_read};
ghost use Rattle.uefi_node_reader.specs.declared.styles.TextStyle.TheVariants.{Lenient, Libefivar, Printed};

use crate::device_path_buf::DevicePathBuf;
use crate::text::styled_reader::read_styled_path;
use crate::text::text_errors::PathTextError;
use std::alloc::Allocator;
use uefi_node_reader::styles::TextStyle;

/// Returns the path that a text is read as in a style.
fn read_from<A: Allocator + Copy>(
    style: TextStyle,
    alloc: A,
    text: &str,
) -> Result<DevicePathBuf<A>, PathTextError>
    ensures { GivesText result (path_read style text.now) }
{
    read_styled_path(style, alloc, text.as_bytes())
}

impl<A: Allocator + Copy> DevicePathBuf<A> {
    /// Reads a path from its text, as it is printed to be read back, without short names (UEFI
    /// Specification 2.10, section 10.6.1).
    ///
    /// Fails with `NoNode` and the byte at which the text stops being the text of a path: the fault
    /// expects the exact printed form of a node there. Fails with `OutOfMemory` if memory runs out
    /// and the whole text can be read.
    ///
    /// Reads the text once. Allocates first, with room for twice as many bytes as the text has and
    /// ten more, and again only if the path needs more, as the path of `,,,,,,,,` does. An error
    /// leaves nothing allocated.
    ///
    /// ```rust
    /// let path = DevicePathBuf::from_text(rt.alloc(), "PciRoot(0x0)/Pci(0x1F,0x2)")?;
    /// assert_eq!(rt; path.as_device_path().node_iter().count(), 2);
    /// let refused = DevicePathBuf::from_text(rt.alloc(), "PciRoot(0x0)/Pci(31,2)");
    /// let fault = TextFault { node: 13, byte: 13, expected: Expected::AsPrinted };
    /// assert_eq!(rt; refused.err(), Some(PathTextError::NoNode(fault)));
    /// ```
    pub fn from_text(alloc: A, text: &str) -> Result<Self, PathTextError>
        ensures { GivesText result (path_read Printed text.now) }
    {
        read_from(TextStyle::Printed, alloc, text)
    }

    /// Reads a path from a text of the UEFI Specification as people write it: names and digits in
    /// either case, numbers in decimal or after `0x`, leading zeros, blanks in a call, numbers left
    /// out at its end, `File(..)`, and, except after a comma, a file's name that contains a
    /// backslash and omits its first one. It also reads forms that other programs print, such as
    /// `MAC(52:54:00:ab:cd:ef)` and `IPv6(fe80::1)`. It skips quotation marks around the whole text, and one
    /// `/` before the first node, which U-Boot prints; places in errors still count from the start
    /// of the text.
    ///
    /// A call in which other programs print hexadecimal numbers without `0x`, such as
    /// `Fibre(5006,0)`, is refused. `efibootmgr` prints the identifier of an NVMe node with its
    /// bytes in the other order.
    ///
    /// A text that [`DevicePathBuf::from_text`] reads is read as the same path. The path that is
    /// read prints as a text that `from_text` reads as that path.
    ///
    /// Fails with `NoNode` if a node can't be read: the error has the start of the first such node,
    /// the byte that is wrong, and what must be there, which may be one of some words, or a name that
    /// differs in one letter. Fails with `OutOfMemory` if memory runs out and the whole text can be
    /// read.
    ///
    /// Reads the text once. Allocates first, with room for twice as many bytes as the text has and
    /// ten more, and again only if the path needs more. An error leaves nothing allocated.
    ///
    /// ```rust
    /// let path = DevicePathBuf::from_lenient_text(rt.alloc(), "pciroot(0)/pci(31, 2)")?;
    /// let text = format!(in rt.alloc(); "{}", path.as_device_path())?;
    /// assert_eq!(rt; text.as_str(), "PciRoot(0x0)/Pci(0x1F,0x2)");
    /// let refused = DevicePathBuf::from_lenient_text(rt.alloc(), "pciroot(0)/pci(31,256)");
    /// let fault = TextFault { node: 11, byte: 18, expected: Expected::Number(0xff) };
    /// assert_eq!(rt; refused.err(), Some(PathTextError::NoNode(fault)));
    /// let pasted = DevicePathBuf::from_lenient_text(rt.alloc(), "\"/PciRoot(0x0)/Pci(0x1F,0x2)\"")?;
    /// assert_eq!(rt; pasted.as_device_path(), path.as_device_path());
    /// ```
    pub fn from_lenient_text(alloc: A, text: &str) -> Result<Self, PathTextError>
        ensures { GivesText result (path_read Lenient text.now) }
    {
        read_from(TextStyle::Lenient, alloc, text)
    }

    /// Reads a path from a text that libefivar and efibootmgr print.
    ///
    /// libefivar prints some nodes differently from the specification. The identifier of an NVMe
    /// node has its bytes in order, and `Ata` has three numbers. Its `Fibre`, `SAS` and `UsbClass`
    /// leave out what distinguishes two nodes, and `PciRoot` and `PcieRoot` may have a text instead
    /// of the number, which begins with `0x`; these are refused. All other nodes are read as
    /// [`DevicePathBuf::from_lenient_text`] reads them, but quotation marks around the text and a
    /// `/` before it are refused. Fails and allocates as that call does.
    ///
    /// ```rust
    /// let text = "NVMe(0x1,00-25-38-5B-71-B0-03-1C)";
    /// let path = DevicePathBuf::from_libefivar_text(rt.alloc(), text)?;
    /// let text = format!(in rt.alloc(); "{}", path.as_device_path())?;
    /// assert_eq!(rt; text.as_str(), "NVMe(0x1,1C-03-B0-71-5B-38-25-00)");
    /// ```
    pub fn from_libefivar_text(alloc: A, text: &str) -> Result<Self, PathTextError>
        ensures { GivesText result (path_read Libefivar text.now) }
    {
        read_from(TextStyle::Libefivar, alloc, text)
    }
}
