//! Why a text is not read as a node.
#![tactic(auto, using(uefi_text::proofs::Puts::puts))]

ghost use Rattle.uefi_node_reader.specs.FaultTexts.{choice_text, expected_text};
ghost use Rattle.std.specs.Fmt.{WritesInCalls};
ghost use Rattle.std.specs.Prelude.{Some, ◌++◌, codes};

use crate::exact::form_places::{other_name, start_at};
use std::fmt;
use uefi_device_nodes::field_texts::hexadecimal::put_hex;
use uefi_text::number_texts::put_decimal;
use uefi_text::text_sink::{Printed, TextSink, print};

/// What a field accepts: words, or a text of a certain form.
#[derive(Clone, Copy, Debug, PartialEq, Eq)]
pub enum Choice {
    /// The channel of an ATA device.
    AtaChannel,
    /// The position of an ATA device on its channel.
    AtaDrive,
    /// The format of a partition table.
    PartitionFormat,
    /// The protocol of a SAS device.
    SasProtocol,
    /// The location of a SAS device.
    SasLocation,
    /// The connection of a SAS device.
    SasConnection,
    /// The protocol of an IP connection.
    IpProtocol,
    /// The origin of an IPv4 address.
    Ipv4Origin,
    /// The origin of an IPv6 address.
    Ipv6Origin,
    /// The type of a device that a BIOS boots.
    BootDevice,
    /// The flow control of a serial port.
    FlowControl,
    /// The digest of an iSCSI connection.
    Digest,
    /// The login of an iSCSI connection.
    Login,
    /// The protocol of an iSCSI connection.
    IscsiProtocol,
    /// The ID of an ACPI device.
    AcpiId,
    /// The address of a network interface.
    MacAddress,
    /// An IP address.
    IpAddress,
    /// A GUID.
    Guid,
}

/// Puts the words.
impl Printed for Choice {
    ghost printed = { choice_text };

    fn put<S: TextSink>(&self, sink: &mut S) {
        match self {
            Self::AtaChannel => sink.put_str("`Primary` or `Secondary`"),
            Self::AtaDrive => sink.put_str("`Master` or `Slave`"),
            Self::PartitionFormat => sink.put_str("`GPT` or `MBR`"),
            Self::SasProtocol => sink.put_str("`SAS`, `SATA`, `NoTopology` or a number"),
            Self::SasLocation => sink.put_str("`Internal` or `External`"),
            Self::SasConnection => sink.put_str("`Direct` or `Expanded`"),
            Self::IpProtocol => sink.put_str("`TCP`, `UDP` or a number"),
            Self::Ipv4Origin => sink.put_str("`DHCP` or `Static`"),
            Self::Ipv6Origin => sink.put_str(
                "`Static`, `StatelessAutoConfigure` or `StatefulAutoConfigure`",
            ),
            Self::BootDevice => sink.put_str(
                "`Floppy`, `HD`, `CDROM`, `PCMCIA`, `USB`, `Network` or a number",
            ),
            Self::FlowControl => sink.put_str("`None`, `Hardware` or `XonXoff`"),
            Self::Digest => sink.put_str("`None` or `CRC32C`"),
            Self::Login => sink.put_str("`None`, `CHAP_BI` or `CHAP_UNI`"),
            Self::IscsiProtocol => sink.put_str("`TCP`"),
            Self::AcpiId => sink.put_str("an ID such as `PNP0A03`, or `0x` and 8 digits"),
            Self::MacAddress => sink.put_str(
                "an address of 12 hexadecimal digits, such as `525400ABCDEF`",
            ),
            Self::IpAddress => sink.put_str("an IP address"),
            Self::Guid => sink.put_str("a GUID"),
        }
    }
}

/// What is expected at the wrong byte of a text.
#[derive(Clone, Copy, Debug, PartialEq, Eq)]
pub enum Expected {
    /// The name of a node, such as `Pci(`.
    Node,
    /// The name of a node, such as the name of the form at this index of the table, which differs in one
    /// letter.
    NodeLike(usize),
    /// The name of a node, such as the name at this index of those that no form of the table has.
    OtherName(usize),
    /// A number up to this one, in decimal, or in hexadecimal after `0x`.
    Number(u64),
    /// A number up to this one, or the word `DEFAULT`.
    NumberOrDefault(u64),
    /// A number from 1 up to this one.
    NumberFromOne(u64),
    /// This many hexadecimal digits.
    Digits(usize),
    /// This many hexadecimal digits in pairs, with dashes between the pairs.
    DashedDigits(usize),
    /// The parity of a serial port, and a comma.
    Parity,
    /// The stop bits of a serial port.
    StopBits,
    /// This byte; a letter may be in either case.
    Byte(u8),
    /// The name of a file.
    FileName,
    /// One of these words, or a text of this form.
    Word(Choice),
    /// An EISA ID, or 0.
    Id,
    /// The end of the node: a slash, a comma or the end of the text.
    End,
    /// The text of this node, or the rest of it, exactly as it is printed.
    AsPrinted,
    /// A number after `0x`. Without `0x`, the call is ambiguous: programs print the number in different
    /// bases, or omit it for different nodes.
    Base,
    /// A form that describes the whole node, which has at most 65,535 bytes. The text before this byte was
    /// read.
    Untold,
}

/// Puts the name of a node as an example.
fn put_name<S: TextSink>(sink: &mut S, name: &str)
    ensures { WritesInCalls S.puts sink.old
        (codes "the name of a node, such as `" ++ (name.now ++ codes "`")) sink.new }
{
    sink.put_str("the name of a node, such as `");
    sink.put_str(name);
    sink.put_str("`");
}

/// Puts what is expected, in words.
impl Printed for Expected {
    ghost printed = { expected_text };

    fn put<S: TextSink>(&self, sink: &mut S) {
        match self {
            Self::Node => sink.put_str("the name of a node"),
            Self::NodeLike(place) => put_name(sink, start_at(*place).unwrap_or("")),
            Self::OtherName(place) => put_name(sink, other_name(*place).unwrap_or("")),
            Self::Number(most) => put_hex(sink, "a number up to 0x", *most),
            Self::NumberOrDefault(most) => {
                put_hex(sink, "DEFAULT or a number up to 0x", *most);
            }
            Self::NumberFromOne(most) => put_hex(sink, "a number from 1 to 0x", *most),
            Self::Digits(count) => {
                put_decimal(sink, "", *count as u64);
                sink.put_str(" hexadecimal digits");
            }
            Self::DashedDigits(count) => {
                put_decimal(sink, "", *count as u64);
                sink.put_str(" hexadecimal digits in pairs, with dashes between them");
            }
            Self::Parity => sink.put_str("a parity (D, N, E, O, M, S or x) and `,`"),
            Self::StopBits => sink.put_str("stop bits (D, 1, 1.5, 2 or x) and `)`"),
            Self::Byte(byte) => {
                sink.put_str("`");
                sink.put_char(char::from(*byte));
                sink.put_str("`");
            }
            Self::FileName => sink.put_str("the name of a file"),
            Self::Word(choice) => choice.put(sink),
            Self::Id => sink.put_str("an ID such as `PNP0A03`, or `0`"),
            Self::End => sink.put_str("`/`, `,` or the end of the text"),
            Self::AsPrinted => sink.put_str("the exact printed form"),
            Self::Base => sink.put_str("a number after `0x`"),
            Self::Untold => sink.put_str(
                "a form that describes the whole node, of at most 65,535 bytes",
            ),
        }
    }
}

/// Prints what is expected, in words.
impl fmt::Display for Expected {
    ghost output = { λ expected. Some (expected_text expected) };

    fn fmt<W: fmt::Write>(&self, f: &mut fmt::Formatter<W>) -> fmt::Result {
        print(f, self)
    }
}

/// Where a text stops: how much of it is left, and what was expected there.
#[derive(Clone, Copy)]
pub(crate) struct Stop {
    pub(crate) left: usize,
    pub(crate) expected: Expected,
}

/// The reason why a text is not read as a node.
#[derive(Clone, Copy, Debug, PartialEq, Eq)]
pub struct NodeFault {
    /// The offset of the wrong byte, or the length of the text if its end is wrong.
    pub byte: usize,

    /// What is expected there.
    pub expected: Expected,
}
