//! The table of kinds of nodes (UEFI Specification 2.10, sections 10.3 and 10.6.1), with the steps of each
//! form that a node is printed or read in. If steps can describe the text of a kind, only the table
//! contains it. The table that firmware contains is `packed.rt`.
#![tactic(auto)]

ghost use Rattle.std.specs.Prelude.{◌≡◌, ◌≤◌, length, map};
ghost use Rattle.uefi_device_nodes.specs.Parts.{part_of};
ghost use Rattle.uefi_node_steps.specs.NodeForms.{group_forms};
ghost use Rattle.uefi_node_steps.specs.Parts.{packed_form};

use crate::packed::{FORM_STARTS, FORMS};
use crate::parts::PackedForm;
use crate::pools::part;
use crate::steps::{Encoding, Field, Form, FormOf, Items, LayoutOf, Mode, Shape, StepOf, Words};
use uefi_device_nodes::node_table::layouts;

/// Makes the number of a type.
macro_rules! kind {
    (hardware) => {
        layouts::HARDWARE_TYPE
    };
    (acpi) => {
        layouts::ACPI_TYPE
    };
    (messaging) => {
        layouts::MESSAGING_TYPE
    };
    (media) => {
        layouts::MEDIA_TYPE
    };
    (bios_boot_spec) => {
        layouts::BIOS_BOOT_SPEC_TYPE
    };
}

/// Makes a number of a kind, from its name or its value.
macro_rules! number {
    ([$type:ident $kind:ident] $name:ident) => {
        layouts::$type::$kind::$name
    };
    ($of:tt $number:literal) => {
        $number
    };
}

/// Makes the offset of a field of a kind, from the name of the field.
macro_rules! place {
    ([$type:ident $kind:ident] $field:ident) => {
        layouts::$type::$kind::$field.place
    };
}

/// Makes the width of a field of a kind.
macro_rules! width {
    ([$type:ident $kind:ident] $field:ident) => {
        layouts::$type::$kind::$field.width
    };
}

/// Makes the byte that fills a field where people omit it: 0 for a number, unless the field says otherwise.
macro_rules! spare {
    ($shape:ident or $spare:literal) => {
        Some($spare)
    };
    ($shape:ident required) => {
        None
    };
    (Hexadecimal) => {
        Some(0)
    };
    (Marked) => {
        Some(0)
    };
    (Decimal) => {
        Some(0)
    };
    ($shape:ident) => {
        None
    };
}

/// Makes a field from its shape and its name in the kind's module, or a part of a field from the part's
/// offset in the field and its width.
macro_rules! field {
    ($of:tt $shape:ident $(($argument:expr))? $at:ident + $part:literal $width:literal) => {
        Field {
            shape: Shape::$shape $(($argument))?,
            place: place!($of $at) + $part,
            width: $width,
            spare: spare!($shape),
        }
    };
    ($of:tt $shape:ident $(($argument:expr))? $at:ident $($spare:tt)*) => {
        Field {
            shape: Shape::$shape $(($argument))?,
            place: place!($of $at),
            width: width!($of $at),
            spare: spare!($shape $($spare)*),
        }
    };
}

/// Makes the steps of a form, after the kind: a literal is a text, a field stands in parentheses, data
/// after the fixed part in braces with the letter that ends it, and the items of a list in brackets.
macro_rules! steps {
    ($of:tt [$($done:expr),*]) => { &[$($done),*] };
    ($of:tt [$($done:expr),*] $text:literal $($rest:tt)*) => {
        steps!($of [$($done,)* StepOf::Literal($text)] $($rest)*)
    };
    ($of:tt [$($done:expr),*] ($($field:tt)*) $($rest:tt)*) => {
        steps!($of [$($done,)* StepOf::Field(field!($of $($field)*))] $($rest)*)
    };
    ($of:tt [$($done:expr),*] {$encoding:ident $($stop:literal)?} $($rest:tt)*) => {
        steps!($of [$($done,)* StepOf::Data(Encoding::$encoding $(($stop))?)] $($rest)*)
    };
    ($of:tt [$($done:expr),*] [$items:ident] $($rest:tt)*) => {
        steps!($of [$($done,)* StepOf::Many(Items::$items)] $($rest)*)
    };
}

/// Makes bytes from fields. A name without a field is that of a GUID, the first 16 bytes of a
/// vendor-defined node: D487DDB4-008B-11D9-AFDC-001083FFCA4D for SAS devices,
/// 37499A9D-542F-4C89-A026-35DA142094E4 for flow control, and those of terminals and of the debug port
/// (UEFI Specification 2.10, section 10.6.1.6).
macro_rules! bytes {
    ($of:tt [$($done:expr),*]) => { &[$($done),*] };
    ($of:tt [] PcAnsi) => {
        bytes!($of [
            (0, 0x53), (1, 0x47), (2, 0xc1), (3, 0xe0), (4, 0xbe), (5, 0xf9), (6, 0xd2), (7, 0x11),
            (8, 0x9a), (9, 0x0c), (10, 0x00), (11, 0x90), (12, 0x27), (13, 0x3f), (14, 0xc1), (15, 0x4d)
        ])
    };
    ($of:tt [] Vt100) => {
        bytes!($of [
            (0, 0x65), (1, 0x60), (2, 0xa6), (3, 0xdf), (4, 0x19), (5, 0xb4), (6, 0xd3), (7, 0x11),
            (8, 0x9a), (9, 0x2d), (10, 0x00), (11, 0x90), (12, 0x27), (13, 0x3f), (14, 0xc1), (15, 0x4d)
        ])
    };
    ($of:tt [] Vt100Plus) => {
        bytes!($of [
            (0, 0x0b), (1, 0xc7), (2, 0xae), (3, 0x7b), (4, 0xe0), (5, 0x57), (6, 0x76), (7, 0x4c),
            (8, 0x8e), (9, 0x87), (10, 0x2f), (11, 0x9e), (12, 0x28), (13, 0x08), (14, 0x83), (15, 0x43)
        ])
    };
    ($of:tt [] VtUtf8) => {
        bytes!($of [
            (0, 0xd6), (1, 0xa0), (2, 0x15), (3, 0xad), (4, 0xec), (5, 0x8b), (6, 0xcf), (7, 0x4a),
            (8, 0xa0), (9, 0x73), (10, 0xd0), (11, 0x1d), (12, 0xe7), (13, 0x7e), (14, 0x2d), (15, 0x88)
        ])
    };
    ($of:tt [] DebugPort) => {
        bytes!($of [
            (0, 0xd2), (1, 0xe8), (2, 0xa4), (3, 0xeb), (4, 0x58), (5, 0x38), (6, 0xec), (7, 0x41),
            (8, 0xa2), (9, 0x81), (10, 0x26), (11, 0x47), (12, 0xba), (13, 0x96), (14, 0x60), (15, 0xd0)
        ])
    };
    ($of:tt [] Sas $($rest:tt)*) => {
        bytes!($of [
            (0, 0xb4), (1, 0xdd), (2, 0x87), (3, 0xd4), (4, 0x8b), (5, 0x00), (6, 0xd9), (7, 0x11),
            (8, 0xaf), (9, 0xdc), (10, 0x00), (11, 0x10), (12, 0x83), (13, 0xff), (14, 0xca), (15, 0x4d)
        ] $($rest)*)
    };
    ($of:tt [] Uart $($rest:tt)*) => {
        bytes!($of [
            (0, 0x9d), (1, 0x9a), (2, 0x49), (3, 0x37), (4, 0x2f), (5, 0x54), (6, 0x89), (7, 0x4c),
            (8, 0xa0), (9, 0x26), (10, 0x35), (11, 0xda), (12, 0x14), (13, 0x20), (14, 0x94), (15, 0xe4)
        ] $($rest)*)
    };
    ($of:tt [$($done:expr),*] , $($rest:tt)*) => { bytes!($of [$($done),*] $($rest)*) };
    ($of:tt [$($done:expr),*] $at:ident = [$($bytes:literal)*] $($rest:tt)*) => {
        bytes!($of [$($done),*] ($at) [$($bytes)*] $($rest)*)
    };
    ($of:tt [$($done:expr),*] $at:tt = $byte:literal $($rest:tt)*) => {
        bytes!($of [$($done,)* (place!($of $at), $byte)] $($rest)*)
    };
    ($of:tt [$($done:expr),*] ($at:ident $(+ $part:literal)*) [] $($rest:tt)*) => {
        bytes!($of [$($done),*] $($rest)*)
    };
    ($of:tt [$($done:expr),*] ($at:ident $(+ $part:literal)*) [$byte:literal $($bytes:literal)*]
        $($rest:tt)*) => {
        bytes!($of [$($done,)* (place!($of $at) $(+ $part)*, $byte)] ($at $(+ $part)* + 1) [$($bytes)*]
            $($rest)*)
    };
}

/// Makes a form, from the type and the kind, who writes it, the number of its fixed bytes and the least
/// number of further bytes, the bytes that distinguish it, the other fixed bytes, and its steps. The names
/// are those of the kind's module.
macro_rules! row {
    ($type:ident $kind:ident $mode:ident $size:tt $(+ $more:tt)? [$($when:tt)*] [$($also:tt)*]
        $($step:tt)*) => {
        FormOf {
            kind: kind!($type),
            sub_kind: layouts::$type::$kind::SUB_TYPE,
            mode: Mode::$mode,
            more: 0 $(+ number!([$type $kind] $more))?,
            when: bytes!([$type $kind] [] $($when)*),
            layout: LayoutOf {
                size: number!([$type $kind] $size),
                bytes: bytes!([$type $kind] [] $($also)*),
                steps: steps!([$type $kind] [] $($step)*),
            },
        }
    };
}

/// Makes a form of USB devices of a class, of a sub-class of the class 0xFE, or of any class: vendor,
/// product, the class and the sub-class where the start of the text does not name them, and protocol.
macro_rules! usb_class {
    ($class:literal $start:literal) => {
        usb_class!([DEVICE_CLASS = $class] $start (Hexadecimal DEVICE_SUBCLASS or 0xff) ",")
    };
    (0xfe $sub_class:literal $start:literal) => {
        usb_class!([DEVICE_CLASS = 0xfe, DEVICE_SUBCLASS = $sub_class] $start)
    };
    ([$($when:tt)*] $start:literal $($step:tt)*) => {
        usb_class!(Hexadecimal [$($when)*] $start $($step)*)
    };
    ($shape:ident [$($when:tt)*] $start:literal $($step:tt)*) => {
        row!(messaging usb_class Read LEAST [$($when)*] [] $start ($shape VENDOR_ID required) ","
            ($shape PRODUCT_ID or 0xff) "," $($step)* ($shape DEVICE_PROTOCOL or 0xff) ")")
    };
}

/// Makes a form of SAS devices as vendor-defined messaging nodes, from the steps of the topology.
macro_rules! sas {
    ([$($when:tt)*] $($topology:tt)*) => {
        row!(messaging sas_vendor Read LEAST [Sas $($when)*] [] "SAS(" (Marked SAS_ADDRESS required) ","
            (Marked LOGICAL_UNIT_NUMBER) "," (Marked RELATIVE_TARGET_PORT) $($topology)*
            (Marked RESERVED) ")")
    };
}

/// Makes a form of SAS devices as nodes of their own kind, from the steps of the topology.
macro_rules! sas_ex {
    ([$($when:tt)*] $($topology:tt)*) => {
        row!(messaging sas_ex Read LEAST [$($when)*] [] "SasEx(" (BaseForth SAS_ADDRESS) ","
            (BaseForth LOGICAL_UNIT_NUMBER) "," (Hexadecimal RELATIVE_TARGET_PORT) $($topology)*)
    };
}

/// Makes a form of devices that ACPI names by a number, with its bytes.
macro_rules! acpi_device {
    ([$($hid:literal)*] $start:literal) => {
        row!(acpi acpi Read LEAST [HID = [$($hid)*]] [] $start (Hexadecimal UID required) ")")
    };
}

/// Makes a form of IPv4 connections, for nodes with a gateway and a mask or for nodes without, from the
/// steps of the protocol and the origin.
macro_rules! ipv4 {
    (whole [$($when:tt)*] [$($also:tt)*] $($step:tt)*) => {
        row!(messaging ipv4 Read WHOLE [$($when)*] [$($also)*] "IPv4(" (Ipv4 REMOTE_IP_ADDRESS)
            $($step)* (Ipv4 LOCAL_IP_ADDRESS) "," (Ipv4 GATEWAY_IP_ADDRESS) "," (Ipv4 SUBNET_MASK) ")")
    };
    (short [$($when:tt)*] [$($also:tt)*] $($step:tt)*) => {
        row!(messaging ipv4 Read LEAST [$($when)*] [$($also)*] "IPv4(" (Ipv4 REMOTE_IP_ADDRESS)
            $($step)* (Ipv4 LOCAL_IP_ADDRESS) ")")
    };
}

/// Makes a form of IPv6 connections, for nodes with a prefix and a gateway or for nodes without, from the
/// steps of the protocol and the origin.
macro_rules! ipv6 {
    (whole [$($when:tt)*] [$($also:tt)*] $($step:tt)*) => {
        row!(messaging ipv6 Read LEAST [$($when)*] [$($also)*] "IPv6(" (Ipv6 REMOTE_IP_ADDRESS)
            $($step)* (Ipv6 LOCAL_IP_ADDRESS) "," (Hexadecimal PREFIX_LENGTH) ","
            (Ipv6 GATEWAY_IP_ADDRESS) ")")
    };
    (short [$($when:tt)*] [$($also:tt)*] $($step:tt)*) => {
        row!(messaging ipv6 Read OLDER [$($when)*] [$($also)*] "IPv6(" (Ipv6 REMOTE_IP_ADDRESS)
            $($step)* (Ipv6 LOCAL_IP_ADDRESS) ")")
    };
}

/// Makes the forms of IPv6 connections, after further forms.
macro_rules! ipv6_forms {
    ($size:ident $($first:tt)*) => {
        &[
            $($first)*
            ipv6!($size [PROTOCOL = [0x06 0x00], IP_ADDRESS_ORIGIN = 0x00] [] ",TCP,Static,"),
            ipv6!($size [PROTOCOL = [0x06 0x00], IP_ADDRESS_ORIGIN = 0x01] []
                ",TCP,StatelessAutoConfigure,"),
            ipv6!($size [PROTOCOL = [0x06 0x00]] [IP_ADDRESS_ORIGIN = 0x02]
                ",TCP,StatefulAutoConfigure,"),
            ipv6!($size [PROTOCOL = [0x11 0x00], IP_ADDRESS_ORIGIN = 0x00] [] ",UDP,Static,"),
            ipv6!($size [PROTOCOL = [0x11 0x00], IP_ADDRESS_ORIGIN = 0x01] []
                ",UDP,StatelessAutoConfigure,"),
            ipv6!($size [PROTOCOL = [0x11 0x00]] [IP_ADDRESS_ORIGIN = 0x02]
                ",UDP,StatefulAutoConfigure,"),
            ipv6!($size [IP_ADDRESS_ORIGIN = 0x00] [] "," (Hexadecimal PROTOCOL) ",Static,"),
            ipv6!($size [IP_ADDRESS_ORIGIN = 0x01] []
                "," (Hexadecimal PROTOCOL) ",StatelessAutoConfigure,"),
            ipv6!($size [] [IP_ADDRESS_ORIGIN = 0x02]
                "," (Hexadecimal PROTOCOL) ",StatefulAutoConfigure,"),
        ]
    };
}

/// Makes a form of RAM disks of one type.
macro_rules! virtual_disk {
    ([$($guid:literal)*] $start:literal) => {
        row!(media ram_disk Read LEAST [DISK_TYPE = [$($guid)*]] [] $start
            (Hexadecimal STARTING_ADDRESS required) "," (Hexadecimal ENDING_ADDRESS) ","
                (Decimal DISK_INSTANCE)
            ")")
    };
}

/// Makes the forms of devices that a legacy BIOS can boot, from the bytes and the first steps of each:
/// first for display, where the flags are omitted, and then with the flags.
macro_rules! boot_forms {
    ($([$($when:tt)*] $start:literal $(($($field:tt)*))? $name:ident,)*) => {
        &[
            $(row!(bios_boot_spec boot_specification Display FIXED + 1 [$($when)*] [] $start
                $(($($field)*))? {$name b')'} ")"),)*
            $(row!(bios_boot_spec boot_specification Read FIXED + 1 [$($when)*] [] $start
                $(($($field)*))? {$name b','} "," (Hexadecimal STATUS_FLAG) ")"),)*
        ]
    };
}

/// Nodes of type Hardware.
#[rattlefmt::skip]
pub const HARDWARE: &[Form] = &[
    row!(hardware pci Read LEAST [] [] "Pci(" (Hexadecimal DEVICE required) "," (Hexadecimal FUNCTION) ")"),
    row!(hardware pccard Read LEAST [] [] "PcCard(" (Hexadecimal FUNCTION required) ")"),
    row!(hardware memory_mapped Read LEAST [] [] "MemoryMapped(" (Hexadecimal MEMORY_TYPE required) ","
        (Hexadecimal STARTING_ADDRESS) "," (Hexadecimal ENDING_ADDRESS) ")"),
    row!(hardware hardware_vendor Read LEAST [] [] "VenHw(" (Guid VENDOR_GUID) {Bytes} ")"),
    row!(hardware controller Read LEAST [] [] "Ctrl(" (Hexadecimal CONTROLLER_NUMBER required) ")"),
    row!(hardware bmc Read LEAST [] [] "BMC(" (Hexadecimal INTERFACE_TYPE required) ","
        (Hexadecimal BASE_ADDRESS) ")"),
];

/// Nodes of type ACPI that name devices.
#[rattlefmt::skip]
pub const ACPI: &[Form] = &[
    acpi_device!([0xd0 0x41 0x03 0x0a] "PciRoot("),
    acpi_device!([0xd0 0x41 0x08 0x0a] "PcieRoot("),
    acpi_device!([0xd0 0x41 0x04 0x06] "Floppy("),
    acpi_device!([0xd0 0x41 0x01 0x03] "Keyboard("),
    acpi_device!([0xd0 0x41 0x01 0x05] "Serial("),
    acpi_device!([0xd0 0x41 0x01 0x04] "ParallelPort("),
    row!(acpi acpi Read LEAST [HID = [0xd0 0x41]] [] "Acpi(PNP" (Back HID + 2 2) ","
        (Hexadecimal UID) ")"),
    row!(acpi expanded Read FIXED + 3 [] [] "AcpiEx(" (Eisa HID) "," (Eisa CID) ","
        (Hexadecimal UID) {Ids b')'} ")"),
    row!(acpi adr Read LEAST [] [] "AcpiAdr(" (Hexadecimal ADR required) [Numbers] ")"),
    row!(acpi acpi Read LEAST [] [] "Acpi(" (BaseBack HID) "," (Hexadecimal UID) ")"),
];

/// SAS devices as vendor-defined messaging nodes, without a drive bay. They come before the nodes of all
/// vendors.
#[rattlefmt::skip]
pub const SAS: &[Form] = &[
    sas!([INFO = [0x00 0x00]] ",NoTopology,0,0,0,"),
    sas!([INFO = [0x01 0x00]] ",SAS,Internal,Direct,0,"),
    sas!([INFO = [0x11 0x00]] ",SATA,Internal,Direct,0,"),
    sas!([INFO = [0x21 0x00]] ",SAS,External,Direct,0,"),
    sas!([INFO = [0x31 0x00]] ",SATA,External,Direct,0,"),
    sas!([INFO = [0x41 0x00]] ",SAS,Internal,Expanded,0,"),
    sas!([INFO = [0x51 0x00]] ",SATA,Internal,Expanded,0,"),
    sas!([INFO = [0x61 0x00]] ",SAS,External,Expanded,0,"),
    sas!([INFO = [0x71 0x00]] ",SATA,External,Expanded,0,"),
];

/// SAS devices as vendor-defined messaging nodes, in a drive bay, or with a topology that no word
/// describes.
#[rattlefmt::skip]
pub const SAS_IN_BAYS: &[Form] = &[
    sas!([INFO = 0x02] ",SAS,Internal,Direct," (Next INFO + 1 1) ","),
    sas!([INFO = 0x12] ",SATA,Internal,Direct," (Next INFO + 1 1) ","),
    sas!([INFO = 0x22] ",SAS,External,Direct," (Next INFO + 1 1) ","),
    sas!([INFO = 0x32] ",SATA,External,Direct," (Next INFO + 1 1) ","),
    sas!([INFO = 0x42] ",SAS,Internal,Expanded," (Next INFO + 1 1) ","),
    sas!([INFO = 0x52] ",SATA,Internal,Expanded," (Next INFO + 1 1) ","),
    sas!([INFO = 0x62] ",SAS,External,Expanded," (Next INFO + 1 1) ","),
    sas!([INFO = 0x72] ",SATA,External,Expanded," (Next INFO + 1 1) ","),
    sas!([] "," (Marked INFO) ",0,0,0,"),
];

/// SAS devices as nodes of their own kind.
#[rattlefmt::skip]
pub const SAS_EX: &[Form] = &[
    sas_ex!([INFO = [0x00 0x00]] ",NoTopology,0,0,0)"),
    sas_ex!([INFO = [0x01 0x00]] ",SAS,Internal,Direct,0)"),
    sas_ex!([INFO = [0x11 0x00]] ",SATA,Internal,Direct,0)"),
    sas_ex!([INFO = [0x21 0x00]] ",SAS,External,Direct,0)"),
    sas_ex!([INFO = [0x31 0x00]] ",SATA,External,Direct,0)"),
    sas_ex!([INFO = [0x41 0x00]] ",SAS,Internal,Expanded,0)"),
    sas_ex!([INFO = [0x51 0x00]] ",SATA,Internal,Expanded,0)"),
    sas_ex!([INFO = [0x61 0x00]] ",SAS,External,Expanded,0)"),
    sas_ex!([INFO = [0x71 0x00]] ",SATA,External,Expanded,0)"),
    sas_ex!([INFO = 0x02] ",SAS,Internal,Direct," (Next INFO + 1 1) ")"),
    sas_ex!([INFO = 0x12] ",SATA,Internal,Direct," (Next INFO + 1 1) ")"),
    sas_ex!([INFO = 0x22] ",SAS,External,Direct," (Next INFO + 1 1) ")"),
    sas_ex!([INFO = 0x32] ",SATA,External,Direct," (Next INFO + 1 1) ")"),
    sas_ex!([INFO = 0x42] ",SAS,Internal,Expanded," (Next INFO + 1 1) ")"),
    sas_ex!([INFO = 0x52] ",SATA,Internal,Expanded," (Next INFO + 1 1) ")"),
    sas_ex!([INFO = 0x62] ",SAS,External,Expanded," (Next INFO + 1 1) ")"),
    sas_ex!([INFO = 0x72] ",SATA,External,Expanded," (Next INFO + 1 1) ")"),
    sas_ex!([] "," (Hexadecimal INFO) ",0,0,0)"),
];

/// Nodes of type Messaging, except the forms above and below.
#[rattlefmt::skip]
pub const MESSAGING: &[Form] = &[
    row!(messaging atapi Display LEAST [] [] "Ata(" (Hexadecimal LOGICAL_UNIT_NUMBER required) ")"),
    row!(messaging atapi Read LEAST [PRIMARY_SECONDARY = 0x01, MASTER_SLAVE = 0x01] []
        "Ata(Secondary,Slave," (Hexadecimal LOGICAL_UNIT_NUMBER) ")"),
    row!(messaging atapi Read LEAST [PRIMARY_SECONDARY = 0x01] [] "Ata(Secondary,Master,"
        (Hexadecimal LOGICAL_UNIT_NUMBER) ")"),
    row!(messaging atapi Read LEAST [MASTER_SLAVE = 0x01] [] "Ata(Primary,Slave,"
        (Hexadecimal LOGICAL_UNIT_NUMBER) ")"),
    row!(messaging atapi Read LEAST [] [] "Ata(Primary,Master," (Hexadecimal LOGICAL_UNIT_NUMBER)
        ")"),
    row!(messaging scsi Read LEAST [] [] "Scsi(" (Hexadecimal TARGET_ID required) ","
        (Hexadecimal LOGICAL_UNIT_NUMBER) ")"),
    row!(messaging fibre_channel Read LEAST [] [] "Fibre(" (Marked WORLD_WIDE_NAME required) ","
        (Marked LOGICAL_UNIT_NUMBER) ")"),
    row!(messaging ieee1394 Read LEAST [] [] "I1394(" (Back GUID) ")"),
    row!(messaging usb Read LEAST [] [] "USB(" (Hexadecimal PARENT_PORT_NUMBER required) ","
        (Hexadecimal INTERFACE) ")"),
    row!(messaging i2o Read LEAST [] [] "I2O(" (Hexadecimal TARGET_ID required) ")"),
    row!(messaging infiniband Read LEAST [] [] "Infiniband(" (Hexadecimal RESOURCE_FLAGS required) ","
        (Guid PORT_GID) "," (Hexadecimal IOC_GUID_OR_SERVICE_ID) "," (Hexadecimal TARGET_PORT_ID)
        "," (Hexadecimal DEVICE_ID) ")"),
    row!(messaging uart_flow_control Read LEAST [Uart, MAP = [0x00 0x00 0x00 0x00]] []
        "UartFlowCtrl(None)"),
    row!(messaging uart_flow_control Read LEAST [Uart, MAP = [0x01 0x00 0x00 0x00]] []
        "UartFlowCtrl(Hardware)"),
    row!(messaging uart_flow_control Read LEAST [Uart, MAP = [0x02 0x00 0x00 0x00]] []
        "UartFlowCtrl(XonXoff)"),
    row!(messaging messaging_vendor Read LEAST [] [] "VenMsg(" (Guid VENDOR_GUID) {Bytes} ")"),
    row!(messaging mac_address Read LEAST [INTERFACE_TYPE = 0x00] [] "MAC("
        (Forth MAC_ADDRESS + 0 6) ",0x0)"),
    row!(messaging mac_address Read LEAST [INTERFACE_TYPE = 0x01] [] "MAC("
        (Forth MAC_ADDRESS + 0 6) ",0x1)"),
    row!(messaging mac_address Printed LEAST [] [] "MAC(" (Forth MAC_ADDRESS) ","
        (Hexadecimal INTERFACE_TYPE) ")"),
    row!(messaging uart Read LEAST [] [] "Uart(" (OrDefault BAUD_RATE) "," (OrDefault DATA_BITS) ","
        (Word(Words::Parity) PARITY) (Word(Words::StopBits) STOP_BITS)),
    row!(messaging usb_wwid Read LEAST [] [] "UsbWwid(" (Hexadecimal DEVICE_VENDOR_ID required) ","
        (Hexadecimal DEVICE_PRODUCT_ID) "," (Hexadecimal INTERFACE_NUMBER) ",\"" {Utf16 b'"'} "\")"),
    row!(messaging dns Read FIRST [ADDRESS_TYPE = 0x00] [] "Dns(" (Ipv4 ADDRESS + 0 4) [Ipv4] ")"),
    row!(messaging dns Read FIRST [] [ADDRESS_TYPE = 0x01] "Dns(" (Ipv6 ADDRESS + 0 16) [Ipv6] ")"),
    row!(messaging device_logical_unit Read LEAST [] [] "Unit(" (Hexadecimal LOGICAL_UNIT_NUMBER required)
        ")"),
    row!(messaging sata Read LEAST [] [] "Sata(" (Hexadecimal HBA_PORT_NUMBER required) ","
        (Hexadecimal PORT_MULTIPLIER_PORT_NUMBER or 0xff) "," (Hexadecimal LOGICAL_UNIT_NUMBER) ")"),
    row!(messaging vlan Read LEAST [] [] "Vlan(" (Decimal VLAN_ID required) ")"),
    row!(messaging fibre_channel_ex Read LEAST [] [] "FibreEx(" (BaseForth WORLD_WIDE_NAME) ","
        (BaseForth LOGICAL_UNIT_NUMBER) ")"),
    row!(messaging nvme_namespace Read LEAST [] [] "NVMe(" (Hexadecimal NAMESPACE_IDENTIFIER required) ","
        (Dashed IEEE_EXTENDED_UNIQUE_IDENTIFIER) ")"),
    row!(messaging iscsi Read LEAST [] [] "iSCSI(" {Name b','} ","
        (Hexadecimal TARGET_PORTAL_GROUP_TAG) "," (BaseForth LOGICAL_UNIT_NUMBER) ","
        (Word(Words::Digests) OPTIONS + 0 1) (Word(Words::Login) OPTIONS + 1 1)
        (Word(Words::Protocol) PROTOCOL)),
    row!(messaging wifi Read 0 + LEAST [] [] "Wi-Fi(" {Padded b')'} ")"),
    row!(messaging uri Read LEAST [] [] "Uri(" {Text b')'} ")"),
    row!(messaging ufs Read LEAST [] [] "UFS(" (Hexadecimal TARGET_ID required) ","
        (Hexadecimal LOGICAL_UNIT_NUMBER) ")"),
    row!(messaging sd Read LEAST [] [] "SD(" (Hexadecimal SLOT_NUMBER required) ")"),
    row!(messaging bluetooth Read LEAST [] [] "Bluetooth(" (Forth DEVICE_ADDRESS) ")"),
    row!(messaging emmc Read LEAST [] [] "eMMC(" (Hexadecimal SLOT_NUMBER required) ")"),
    row!(messaging bluetooth_le Read LEAST [] [] "BluetoothLE(" (Forth DEVICE_ADDRESS) ","
        (BaseBack ADDRESS_TYPE) ")"),
];

/// IPv4 connections, with a gateway and a mask and without.
#[rattlefmt::skip]
pub const IPV4: &[Form] = &[
    row!(messaging ipv4 Display LEAST [] [] "IPv4(" (Ipv4 REMOTE_IP_ADDRESS) ")"),
    ipv4!(whole [PROTOCOL = [0x06 0x00], IP_ADDRESS_ORIGIN = 0x00] [] ",TCP,DHCP,"),
    ipv4!(whole [PROTOCOL = [0x06 0x00]] [IP_ADDRESS_ORIGIN = 0x01] ",TCP,Static,"),
    ipv4!(whole [PROTOCOL = [0x11 0x00], IP_ADDRESS_ORIGIN = 0x00] [] ",UDP,DHCP,"),
    ipv4!(whole [PROTOCOL = [0x11 0x00]] [IP_ADDRESS_ORIGIN = 0x01] ",UDP,Static,"),
    ipv4!(whole [IP_ADDRESS_ORIGIN = 0x00] [] "," (Hexadecimal PROTOCOL) ",DHCP,"),
    ipv4!(whole [] [IP_ADDRESS_ORIGIN = 0x01] "," (Hexadecimal PROTOCOL) ",Static,"),
    ipv4!(short [PROTOCOL = [0x06 0x00], IP_ADDRESS_ORIGIN = 0x00] [] ",TCP,DHCP,"),
    ipv4!(short [PROTOCOL = [0x06 0x00]] [IP_ADDRESS_ORIGIN = 0x01] ",TCP,Static,"),
    ipv4!(short [PROTOCOL = [0x11 0x00], IP_ADDRESS_ORIGIN = 0x00] [] ",UDP,DHCP,"),
    ipv4!(short [PROTOCOL = [0x11 0x00]] [IP_ADDRESS_ORIGIN = 0x01] ",UDP,Static,"),
    ipv4!(short [IP_ADDRESS_ORIGIN = 0x00] [] "," (Hexadecimal PROTOCOL) ",DHCP,"),
    ipv4!(short [] [IP_ADDRESS_ORIGIN = 0x01] "," (Hexadecimal PROTOCOL) ",Static,"),
];

/// IPv6 connections, with a prefix and a gateway.
#[rattlefmt::skip]
pub const IPV6: &[Form] = ipv6_forms!(whole
    row!(messaging ipv6 Display OLDER [] [] "IPv6(" (Ipv6 REMOTE_IP_ADDRESS) ")"),
);

/// IPv6 connections of older nodes, without a prefix and a gateway.
pub const IPV6_SHORT: &[Form] = ipv6_forms!(short);

/// Classes of USB devices.
#[rattlefmt::skip]
pub const USB_CLASSES: &[Form] = &[
    usb_class!(0x01 "UsbAudio("),
    usb_class!(0x02 "UsbCDCControl("),
    usb_class!(0x03 "UsbHID("),
    usb_class!(0x06 "UsbImage("),
    usb_class!(0x07 "UsbPrinter("),
    usb_class!(0x08 "UsbMassStorage("),
    usb_class!(0x09 "UsbHub("),
    usb_class!(0x0a "UsbCDCData("),
    usb_class!(0x0b "UsbSmartCard("),
    usb_class!(0x0e "UsbVideo("),
    usb_class!(0xdc "UsbDiagnostic("),
    usb_class!(0xe0 "UsbWireless("),
    usb_class!(0xfe 0x01 "UsbDeviceFirmwareUpdate("),
    usb_class!(0xfe 0x02 "UsbIrdaBridge("),
    usb_class!(0xfe 0x03 "UsbTestAndMeasurement("),
    usb_class!(Marked [] "UsbClass(" (Marked DEVICE_CLASS or 0xff) ","
        (Marked DEVICE_SUBCLASS or 0xff) ","),
];

/// Nodes of type Media, except nodes that name files.
#[rattlefmt::skip]
pub const MEDIA: &[Form] = &[
    row!(media hard_drive Read LEAST [SIGNATURE_TYPE = 0x01] [PARTITION_FORMAT = 0x01] "HD("
        (Decimal PARTITION_NUMBER required) ",MBR," (BaseBack PARTITION_SIGNATURE + 0 4) ","
        (Hexadecimal PARTITION_START) "," (Hexadecimal PARTITION_SIZE) ")"),
    row!(media hard_drive Read LEAST [SIGNATURE_TYPE = 0x02] [PARTITION_FORMAT = 0x02] "HD("
        (Decimal PARTITION_NUMBER required) ",GPT," (Guid PARTITION_SIGNATURE) ","
        (Hexadecimal PARTITION_START) "," (Hexadecimal PARTITION_SIZE) ")"),
    row!(media hard_drive Printed LEAST [] [] "HD(" (Decimal PARTITION_NUMBER required) ","
        (Decimal SIGNATURE_TYPE) ",0," (Hexadecimal PARTITION_START) ","
        (Hexadecimal PARTITION_SIZE) ")"),
    row!(media cd_rom Display LEAST [] [] "CDROM(" (Hexadecimal BOOT_ENTRY required) ")"),
    row!(media cd_rom Read LEAST [] [] "CDROM(" (Hexadecimal BOOT_ENTRY required) ","
        (Hexadecimal PARTITION_START) "," (Hexadecimal PARTITION_SIZE) ")"),
    row!(media media_vendor Read LEAST [] [] "VenMedia(" (Guid VENDOR_GUID) {Bytes} ")"),
    row!(media protocol Read LEAST [] [] "Media(" (Guid PROTOCOL_GUID) ")"),
    row!(media firmware_file Read LEAST [] [] "FvFile(" (Guid FILE_NAME) ")"),
    row!(media firmware_volume Read LEAST [] [] "Fv(" (Guid VOLUME_NAME) ")"),
    row!(media relative_offset_range Read LEAST [] [] "Offset(" (Hexadecimal STARTING_OFFSET required) ","
        (Hexadecimal ENDING_OFFSET) ")"),
    virtual_disk!([0x5a 0x53 0xab 0x77 0xfc 0x45 0x4b 0x62 0x55 0x60 0xf7 0xb2 0x81 0xd1 0xf9 0x6e]
        "VirtualDisk("),
    virtual_disk!([0x30 0xbd 0x5a 0x3d 0x75 0x41 0xce 0x87 0x6d 0x64 0xd2 0xad 0xe5 0x23 0xc4 0xbb]
        "VirtualCD("),
    virtual_disk!([0xc9 0x02 0xea 0x5c 0x07 0x4d 0xd3 0x69 0x26 0x9f 0x44 0x96 0xfb 0xe0 0x96 0xf9]
        "PersistentVirtualDisk("),
    virtual_disk!([0x88 0x81 0x01 0x08 0xcd 0x42 0x48 0xbb 0x10 0x0f 0x53 0x87 0xd5 0x3d 0xed 0x3d]
        "PersistentVirtualCD("),
    row!(media ram_disk Read LEAST [] [] "RamDisk(" (Hexadecimal STARTING_ADDRESS required) ","
        (Hexadecimal ENDING_ADDRESS) "," (Decimal DISK_INSTANCE) "," (Guid DISK_TYPE) ")"),
];

/// Devices that a legacy BIOS can boot, by their types (BIOS Boot Specification).
#[rattlefmt::skip]
pub const BOOT: &[Form] = boot_forms!(
    [DEVICE_TYPE = [0x01 0x00]] "BBS(Floppy," Name,
    [DEVICE_TYPE = [0x02 0x00]] "BBS(HD," Name,
    [DEVICE_TYPE = [0x03 0x00]] "BBS(CDROM," Name,
    [DEVICE_TYPE = [0x04 0x00]] "BBS(PCMCIA," Name,
    [DEVICE_TYPE = [0x05 0x00]] "BBS(USB," Name,
    [DEVICE_TYPE = [0x06 0x00]] "BBS(Network," Name,
    [] "BBS(" (Hexadecimal DEVICE_TYPE required) NameAfterComma,
);

/// Nodes of type ACPI, as people write them.
#[rattlefmt::skip]
pub const TYPED_ACPI: &[Form] = &[
    row!(acpi expanded People FIXED [] [] "AcpiExp(" (Eisa HID) "," (Eisa CID) {Uid b')'} ")"),
];

/// Nodes of type Messaging, as people and other programs write them: short names of vendor-defined nodes,
/// which the UEFI Specification 2.10 lists in section 10.6.1.6, and forms whose fields other programs write
/// differently or omit.
#[rattlefmt::skip]
pub const TYPED_MESSAGING: &[Form] = &[
    row!(messaging messaging_vendor People LEAST [] [PcAnsi] "VenPcAnsi()"),
    row!(messaging messaging_vendor People LEAST [] [Vt100] "VenVt100()"),
    row!(messaging messaging_vendor People LEAST [] [Vt100Plus] "VenVt100Plus()"),
    row!(messaging messaging_vendor People LEAST [] [VtUtf8] "VenUtf8()"),
    row!(messaging messaging_vendor People LEAST [] [DebugPort] "DebugPort()"),
    row!(messaging uart_flow_control People LEAST [] [Uart] "UartFlowControl(None)"),
    row!(messaging uart_flow_control People LEAST [] [Uart, MAP = 0x01] "UartFlowControl(Hardware)"),
    row!(messaging uart_flow_control People LEAST [] [Uart, MAP = 0x02] "UartFlowControl(XonXoff)"),
    row!(messaging sas_vendor People LEAST [] [Sas] "SAS(" (Marked SAS_ADDRESS required) ","
        (Marked LOGICAL_UNIT_NUMBER) "," (Marked RELATIVE_TARGET_PORT) ")"),
    row!(messaging sas_vendor People LEAST [] [Sas] "SAS(" (Marked SAS_ADDRESS required) ","
        (Marked LOGICAL_UNIT_NUMBER) "," (Marked RELATIVE_TARGET_PORT) ",NoTopology)"),
    row!(messaging sas_ex People LEAST [] [] "SasEx(" (BaseForth SAS_ADDRESS) ")"),
    row!(messaging atapi People LEAST [] [] "Ata(0x0)"),
    row!(messaging atapi People LEAST [] [] "Ata(Primary,Master)"),
    row!(messaging atapi People LEAST [] [MASTER_SLAVE = 0x01] "Ata(Primary,Slave)"),
    row!(messaging atapi People LEAST [] [PRIMARY_SECONDARY = 0x01] "Ata(Secondary,Master)"),
    row!(messaging atapi People LEAST [] [PRIMARY_SECONDARY = 0x01, MASTER_SLAVE = 0x01]
        "Ata(Secondary,Slave)"),
    row!(messaging mac_address People LEAST [] [] "MAC(" (Forth MAC_ADDRESS + 0 6) ","
        (Hexadecimal INTERFACE_TYPE) ")"),
    row!(messaging mac_address People LEAST [] [] "MAC(" (Apart(b':') MAC_ADDRESS + 0 6) ","
        (Hexadecimal INTERFACE_TYPE) ")"),
    row!(messaging mac_address People LEAST [] [] "MAC(" (Apart(b'-') MAC_ADDRESS + 0 6) ","
        (Hexadecimal INTERFACE_TYPE) ")"),
    row!(messaging mac_address People LEAST [] [] "MAC(" (Forth MAC_ADDRESS) ","
        (Hexadecimal INTERFACE_TYPE) ")"),
    row!(messaging ipv4 People WHOLE [] [] "IPv4(" (Ipv4 REMOTE_IP_ADDRESS) ")"),
    row!(messaging ipv4 People WHOLE [] [PROTOCOL = 0x06] "IPv4(" (Ipv4 REMOTE_IP_ADDRESS) ",TCP)"),
    row!(messaging ipv4 People WHOLE [] [PROTOCOL = 0x06] "IPv4(" (Ipv4 REMOTE_IP_ADDRESS)
        ",TCP,DHCP)"),
    row!(messaging ipv4 People WHOLE [] [PROTOCOL = 0x06, IP_ADDRESS_ORIGIN = 0x01] "IPv4("
        (Ipv4 REMOTE_IP_ADDRESS) ",TCP,Static)"),
    row!(messaging ipv4 People WHOLE [] [PROTOCOL = 0x11] "IPv4(" (Ipv4 REMOTE_IP_ADDRESS) ",UDP)"),
    row!(messaging ipv4 People WHOLE [] [PROTOCOL = 0x11] "IPv4(" (Ipv4 REMOTE_IP_ADDRESS)
        ",UDP,DHCP)"),
    row!(messaging ipv4 People WHOLE [] [PROTOCOL = 0x11, IP_ADDRESS_ORIGIN = 0x01] "IPv4("
        (Ipv4 REMOTE_IP_ADDRESS) ",UDP,Static)"),
    row!(messaging ipv4 People WHOLE [] [] "IPv4(0.0.0.00.0.0.0,0,0)"),
    row!(messaging ipv6 People LEAST [] [PREFIX_LENGTH = 0x40] "IPv6([::]:<->[::]:,0,0)"),
    row!(messaging fibre_channel_ex People LEAST [] [] "FibreEx(" (BaseForth WORLD_WIDE_NAME)
        ",0x0)"),
    row!(messaging ipv6 People LEAST [] [PREFIX_LENGTH = 0x40] "IPv6(" (Ipv6 REMOTE_IP_ADDRESS) ")"),
    row!(messaging nvme_namespace People LEAST [] [] "NVMe(" (Hexadecimal NAMESPACE_IDENTIFIER required) ")"),
    row!(messaging bluetooth People LEAST [] [] "Bluetooth(" (Apart(b':') DEVICE_ADDRESS + 0 6) ")"),
    row!(messaging bluetooth People LEAST [] [] "Bluetooth(" (Apart(b'-') DEVICE_ADDRESS + 0 6) ")"),
    row!(messaging bluetooth_le People LEAST [] [] "BluetoothLE(" (Forth DEVICE_ADDRESS) ","
        (Marked ADDRESS_TYPE) ")"),
    row!(messaging bluetooth_le People LEAST [] [] "BluetoothLE(" (Apart(b'-') DEVICE_ADDRESS + 0 6)
        "," (Marked ADDRESS_TYPE) ")"),
    row!(messaging bluetooth_le People LEAST [] [] "BluetoothLE(" (Apart(b':') DEVICE_ADDRESS + 0 6)
        "," (Marked ADDRESS_TYPE) ")"),
];

/// Makes a form of IPv6 connections as people write them, without the fields that the drivers of EDK II
/// fill: a prefix length of 64, and zeros.
macro_rules! typed_ipv6 {
    ([$($also:tt)*] $($step:tt)*) => {
        row!(messaging ipv6 People LEAST [] [$($also)*, PREFIX_LENGTH = 0x40] "IPv6("
            (Ipv6 REMOTE_IP_ADDRESS) $($step)*)
    };
}

/// IPv6 connections, as people write them.
#[rattlefmt::skip]
pub const TYPED_IPV6: &[Form] = &[
    typed_ipv6!([PROTOCOL = 0x06] ",TCP)"),
    typed_ipv6!([PROTOCOL = 0x11] ",UDP)"),
    typed_ipv6!([] "," (Hexadecimal PROTOCOL required) ")"),
    typed_ipv6!([PROTOCOL = 0x06] ",TCP,Static)"),
    typed_ipv6!([PROTOCOL = 0x06, IP_ADDRESS_ORIGIN = 0x01] ",TCP,StatelessAutoConfigure)"),
    typed_ipv6!([PROTOCOL = 0x06, IP_ADDRESS_ORIGIN = 0x02] ",TCP,StatefulAutoConfigure)"),
    typed_ipv6!([PROTOCOL = 0x11] ",UDP,Static)"),
    typed_ipv6!([PROTOCOL = 0x11, IP_ADDRESS_ORIGIN = 0x01] ",UDP,StatelessAutoConfigure)"),
    typed_ipv6!([PROTOCOL = 0x11, IP_ADDRESS_ORIGIN = 0x02] ",UDP,StatefulAutoConfigure)"),
    typed_ipv6!([] "," (Hexadecimal PROTOCOL) ",Static)"),
    typed_ipv6!([IP_ADDRESS_ORIGIN = 0x01] "," (Hexadecimal PROTOCOL) ",StatelessAutoConfigure)"),
    typed_ipv6!([IP_ADDRESS_ORIGIN = 0x02] "," (Hexadecimal PROTOCOL) ",StatefulAutoConfigure)"),
];

/// Nodes of type Media, as people write them.
#[rattlefmt::skip]
pub const TYPED_MEDIA: &[Form] = &[
    row!(media hard_drive People LEAST [] [PARTITION_FORMAT = 0x01, SIGNATURE_TYPE = 0x01] "HD("
        (Decimal PARTITION_NUMBER required) ",MBR," (Marked PARTITION_SIGNATURE + 0 4) ","
        (Hexadecimal PARTITION_START) "," (Hexadecimal PARTITION_SIZE) ")"),
    row!(media firmware_volume People LEAST [] [] "FvVol(" (Guid VOLUME_NAME) ")"),
];

/// The forms that only libefivar writes.
#[rattlefmt::skip]
pub const LIBEFIVAR: &[Form] = &[
    row!(messaging atapi Libefivar LEAST [] [] "ATA(" (Decimal PRIMARY_SECONDARY required) ","
        (Decimal MASTER_SLAVE) "," (Decimal LOGICAL_UNIT_NUMBER) ")"),
    row!(messaging nvme_namespace Libefivar LEAST [] [] "NVME(" (Hexadecimal NAMESPACE_IDENTIFIER required)
        "," (Apart(b'-') IEEE_EXTENDED_UNIQUE_IDENTIFIER + 0 8) ")"),
];

/// The number of groups of forms.
pub const GROUPS: usize = 17;

/// Returns the part number of a group's packed forms.
#[tactic(auto, unfolding(crate::specs::Parts::packed_bytes, crate::specs::Parts::packed_text, crate::specs::Parts::other_steps, crate::specs::NodeForms::group_forms))]
fn part_of_group(index: usize) -> u8
    ensures forms { map packed_form (part_of FORMS FORM_STARTS result) ≡ group_forms index }
    ensures few { length (part_of FORMS FORM_STARTS result) ≤ 1000 }
{
    match index {
        0 => 0,
        1 => 1,
        2 => 2,
        3 => 3,
        4 => 4,
        5 => 5,
        6 => 6,
        7 => 7,
        8 => 8,
        9 => 9,
        10 => 10,
        11 => 11,
        12 => 12,
        13 => 13,
        14 => 14,
        15 => 15,
        16 => 16,
        // No part begins here, so this one is empty.
        _ => 17,
    }
}

/// Returns the forms of a group, packed.
pub fn group(index: usize) -> &'static [PackedForm]
    ensures forms { map packed_form result.now ≡ group_forms index }
    ensures few { length result.now ≤ 1000 }
{
    part(&FORMS, &FORM_STARTS, part_of_group(index))
}
