//! The table of kinds of nodes (UEFI Specification 2.10, sections 10.3 and 10.6.1), with a row for each form
//! that a node is printed or read in. If a row can describe the text of a kind, only the table contains it.
//! `specs/Rows.antt` defines what a row means. Only definitions cite these constants: the compiled table is
//! `packed.rt`.

ghost use Rattle.std.specs.Prelude.{◌≡◌, ◌<◌, ◌≤◌, IsTrue, length, map};
ghost use Rattle.std.specs.List.{list_all};
ghost use Rattle.uefi_device_nodes.specs.Parts.{part_of};
ghost use Rattle.uefi_device_nodes.specs.Rows.{as_form, as_item, as_piece, const_form, is_within, item_of};
ghost use Rattle.uefi_device_nodes.specs.Table.{group_forms, libefivar_forms};

use crate::node_table::packed::{ROW_STARTS, ROWS};
use crate::node_table::pools::part;
use crate::node_table::rows::{
    Item, ItemOf, Items, Mode, PieceOf, Row, RowOf, Shape, Spare, Tail, WrittenItem, WrittenRow,
};
use crate::node_table::words::Words;
use crate::node_table::{layouts, packed};

/// Makes the bytes of an omitted number: zeros, unless a field says otherwise.
macro_rules! spare {
    () => {
        Spare::Zeros
    };
    ($spare:ident) => {
        Spare::$spare
    };
}

/// Makes a field from its shape, its offset, its width and its ending, and from its bytes if it is omitted.
macro_rules! field {
    ($shape:ident $(($words:ident))?, $place:expr, $width:expr, $ending:expr $(, $spare:ident)?) => {
        PieceOf {
            shape: Shape::$shape $((Words::$words))?,
            place: $place,
            width: $width,
            ending: $ending,
            spare: spare!($($spare)?),
        }
    };
}

/// Makes the number of a type.
macro_rules! kind {
    (hardware) => {
        layouts::HARDWARE_TYPE
    };
    (acpi) => {
        layouts::ACPI_TYPE
    };
    (messaging) => {
        layouts::MESSAGING_TYPE
    };
    (media) => {
        layouts::MEDIA_TYPE
    };
    (bios_boot_spec) => {
        layouts::BIOS_BOOT_SPEC_TYPE
    };
}

/// Makes a number of a kind, from its name or its value.
macro_rules! number {
    ([$type:ident $kind:ident] $name:ident) => {
        layouts::$type::$kind::$name
    };
    ($of:tt $number:literal) => {
        $number
    };
}

/// Makes the offset of a field of a kind, from the name of the field or a number.
macro_rules! place {
    ([$type:ident $kind:ident] $field:ident) => {
        layouts::$type::$kind::$field.place
    };
    ($of:tt $place:literal) => {
        $place
    };
}

/// Makes the width of a field of a kind.
macro_rules! width {
    ([$type:ident $kind:ident] $field:ident) => {
        layouts::$type::$kind::$field.width
    };
}

/// Makes the fields of a form. A GUID is five fields, an IP address four or eight, and six or eight single
/// bytes have a text between them. The kind comes first. A field is given by its name in the kind's module,
/// and a part of a field by its offset in the field and its width.
macro_rules! fields {
    ($of:tt [$($done:expr),*]) => { &[$($done),*] };
    ($of:tt [$($done:expr),*] [Guid $at:tt $ending:literal] $($rest:tt)*) => {
        fields!($of [$($done,)*
            field!(Back, place!($of $at), 4, "-"), field!(Back, place!($of $at) + 4, 2, "-"),
            field!(Back, place!($of $at) + 6, 2, "-"), field!(Forth, place!($of $at) + 8, 2, "-"),
            field!(Forth, place!($of $at) + 10, 6, $ending)] $($rest)*)
    };
    ($of:tt [$($done:expr),*] [Ipv4 $at:tt $ending:literal] $($rest:tt)*) => {
        fields!($of [$($done,)*
            field!(Decimal, place!($of $at), 1, "."), field!(Decimal, place!($of $at) + 1, 1, "."),
            field!(Decimal, place!($of $at) + 2, 1, "."),
            field!(Decimal, place!($of $at) + 3, 1, $ending)] $($rest)*)
    };
    ($of:tt [$($done:expr),*] [Ipv6 $at:tt $ending:literal] $($rest:tt)*) => {
        fields!($of [$($done,)*
            field!(Forth, place!($of $at), 2, ":"), field!(Forth, place!($of $at) + 2, 2, ":"),
            field!(Forth, place!($of $at) + 4, 2, ":"), field!(Forth, place!($of $at) + 6, 2, ":"),
            field!(Forth, place!($of $at) + 8, 2, ":"), field!(Forth, place!($of $at) + 10, 2, ":"),
            field!(Forth, place!($of $at) + 12, 2, ":"),
            field!(Forth, place!($of $at) + 14, 2, $ending)] $($rest)*)
    };
    ($of:tt [$($done:expr),*] [Six $at:ident $between:literal $ending:literal] $($rest:tt)*) => {
        fields!($of [$($done,)*
            field!(Forth, place!($of $at), 1, $between), field!(Forth, place!($of $at) + 1, 1, $between),
            field!(Forth, place!($of $at) + 2, 1, $between), field!(Forth, place!($of $at) + 3, 1, $between),
            field!(Forth, place!($of $at) + 4, 1, $between), field!(Forth, place!($of $at) + 5, 1, $ending)]
            $($rest)*)
    };
    ($of:tt [$($done:expr),*] [Eight $at:ident $between:literal $ending:literal] $($rest:tt)*) => {
        fields!($of [$($done,)*
            field!(Forth, place!($of $at), 1, $between), field!(Forth, place!($of $at) + 1, 1, $between),
            field!(Forth, place!($of $at) + 2, 1, $between), field!(Forth, place!($of $at) + 3, 1, $between),
            field!(Forth, place!($of $at) + 4, 1, $between), field!(Forth, place!($of $at) + 5, 1, $between),
            field!(Forth, place!($of $at) + 6, 1, $between), field!(Forth, place!($of $at) + 7, 1, $ending)]
            $($rest)*)
    };
    ($of:tt [$($done:expr),*] [$shape:ident $(($words:ident))? $at:ident $ending:literal $($spare:ident)?]
        $($rest:tt)*) => {
        fields!($of [$($done,)*
            field!($shape $(($words))?, place!($of $at), width!($of $at), $ending $(, $spare)?)]
            $($rest)*)
    };
    ($of:tt [$($done:expr),*] [$shape:ident $(($words:ident))? $at:ident + $part:literal $width:literal
        $ending:literal] $($rest:tt)*) => {
        fields!($of [$($done,)* field!($shape $(($words))?, place!($of $at) + $part, $width, $ending)]
            $($rest)*)
    };
    ($of:tt [$($done:expr),*] [$shape:ident $at:literal $width:literal $ending:literal] $($rest:tt)*) => {
        fields!($of [$($done,)*
            field!($shape, $at, $width, $ending)] $($rest)*)
    };
}

/// Makes the data after the fixed part: a tail, or a list of items.
macro_rules! tail {
    ($tail:ident) => {
        Tail::$tail
    };
    (Repeated $items:ident) => {
        Tail::Repeated(Items::$items)
    };
}

/// Makes bytes from fields. A name without a field is that of a GUID, the first 16 bytes of a vendor-defined
/// node: D487DDB4-008B-11D9-AFDC-001083FFCA4D for SAS devices, 37499A9D-542F-4C89-A026-35DA142094E4 for flow
/// control, and those of terminals and of the debug port (UEFI Specification 2.10, section 10.6.1.6).
macro_rules! bytes {
    ($of:tt [$($done:expr),*]) => { &[$($done),*] };
    ($of:tt [] PcAnsi) => {
        bytes!($of [
            (0, 0x53), (1, 0x47), (2, 0xc1), (3, 0xe0), (4, 0xbe), (5, 0xf9), (6, 0xd2), (7, 0x11),
            (8, 0x9a), (9, 0x0c), (10, 0x00), (11, 0x90), (12, 0x27), (13, 0x3f), (14, 0xc1), (15, 0x4d)
        ])
    };
    ($of:tt [] Vt100) => {
        bytes!($of [
            (0, 0x65), (1, 0x60), (2, 0xa6), (3, 0xdf), (4, 0x19), (5, 0xb4), (6, 0xd3), (7, 0x11),
            (8, 0x9a), (9, 0x2d), (10, 0x00), (11, 0x90), (12, 0x27), (13, 0x3f), (14, 0xc1), (15, 0x4d)
        ])
    };
    ($of:tt [] Vt100Plus) => {
        bytes!($of [
            (0, 0x0b), (1, 0xc7), (2, 0xae), (3, 0x7b), (4, 0xe0), (5, 0x57), (6, 0x76), (7, 0x4c),
            (8, 0x8e), (9, 0x87), (10, 0x2f), (11, 0x9e), (12, 0x28), (13, 0x08), (14, 0x83), (15, 0x43)
        ])
    };
    ($of:tt [] VtUtf8) => {
        bytes!($of [
            (0, 0xd6), (1, 0xa0), (2, 0x15), (3, 0xad), (4, 0xec), (5, 0x8b), (6, 0xcf), (7, 0x4a),
            (8, 0xa0), (9, 0x73), (10, 0xd0), (11, 0x1d), (12, 0xe7), (13, 0x7e), (14, 0x2d), (15, 0x88)
        ])
    };
    ($of:tt [] DebugPort) => {
        bytes!($of [
            (0, 0xd2), (1, 0xe8), (2, 0xa4), (3, 0xeb), (4, 0x58), (5, 0x38), (6, 0xec), (7, 0x41),
            (8, 0xa2), (9, 0x81), (10, 0x26), (11, 0x47), (12, 0xba), (13, 0x96), (14, 0x60), (15, 0xd0)
        ])
    };
    ($of:tt [] Sas $($rest:tt)*) => {
        bytes!($of [
            (0, 0xb4), (1, 0xdd), (2, 0x87), (3, 0xd4), (4, 0x8b), (5, 0x00), (6, 0xd9), (7, 0x11),
            (8, 0xaf), (9, 0xdc), (10, 0x00), (11, 0x10), (12, 0x83), (13, 0xff), (14, 0xca), (15, 0x4d)
        ] $($rest)*)
    };
    ($of:tt [] Uart $($rest:tt)*) => {
        bytes!($of [
            (0, 0x9d), (1, 0x9a), (2, 0x49), (3, 0x37), (4, 0x2f), (5, 0x54), (6, 0x89), (7, 0x4c),
            (8, 0xa0), (9, 0x26), (10, 0x35), (11, 0xda), (12, 0x14), (13, 0x20), (14, 0x94), (15, 0xe4)
        ] $($rest)*)
    };
    ($of:tt [$($done:expr),*] , $($rest:tt)*) => { bytes!($of [$($done),*] $($rest)*) };
    ($of:tt [$($done:expr),*] $at:ident = [$($bytes:literal)*] $($rest:tt)*) => {
        bytes!($of [$($done),*] ($at) [$($bytes)*] $($rest)*)
    };
    ($of:tt [$($done:expr),*] $at:tt = $byte:literal $($rest:tt)*) => {
        bytes!($of [$($done,)* (place!($of $at), $byte)] $($rest)*)
    };
    ($of:tt [$($done:expr),*] ($at:ident $(+ $part:literal)*) [] $($rest:tt)*) => {
        bytes!($of [$($done),*] $($rest)*)
    };
    ($of:tt [$($done:expr),*] ($at:ident $(+ $part:literal)*) [$byte:literal $($bytes:literal)*]
        $($rest:tt)*) => {
        bytes!($of [$($done,)* (place!($of $at) $(+ $part)*, $byte)] ($at $(+ $part)* + 1) [$($bytes)*]
            $($rest)*)
    };
}

/// Makes a form, from the type and the kind: the names after them are those of the kind's module.
macro_rules! row {
    ($type:ident $kind:ident $mode:ident $least:tt $(+ $more:tt)? [$($when:tt)*] [$($also:tt)*]
        $start:literal $([$($field:tt)*])* $($tail:ident)+ $close:literal $([$($rest:tt)*])*) => {
        RowOf {
            kind: kind!($type),
            sub_kind: layouts::$type::$kind::SUB_TYPE,
            mode: Mode::$mode,
            least: number!([$type $kind] $least),
            more: 0 $(+ number!([$type $kind] $more))?,
            when: bytes!([$type $kind] [] $($when)*),
            also: bytes!([$type $kind] [] $($also)*),
            start: $start,
            pieces: fields!([$type $kind] [] $([$($field)*])*),
            tail: tail!($($tail)+),
            close: $close,
            rest: fields!([$type $kind] [] $([$($rest)*])*),
        }
    };
}

/// Makes a form of USB devices of a class, of a sub-class of the class 0xFE, or of any class: vendor,
/// product, the class and the sub-class where the start of the text does not name them, and protocol.
macro_rules! usb_class {
    ($class:literal $start:literal) => {
        usb_class!([DEVICE_CLASS = $class] $start [Hexadecimal DEVICE_SUBCLASS ",0x" Ones])
    };
    (0xfe $sub_class:literal $start:literal) => {
        usb_class!([DEVICE_CLASS = 0xfe, DEVICE_SUBCLASS = $sub_class] $start)
    };
    ([$($when:tt)*] $start:literal $([$($more:tt)*])*) => {
        row!(messaging usb_class Read LEAST [$($when)*] [] $start [Hexadecimal VENDOR_ID ",0x" Ones]
            [Hexadecimal PRODUCT_ID ",0x" Ones] $([$($more)*])*
            [Hexadecimal DEVICE_PROTOCOL ")" Ones] Nothing "")
    };
}

/// Makes a form of SAS devices as vendor-defined messaging nodes.
macro_rules! sas {
    ([$($when:tt)*] $ending:literal $([$($more:tt)*])*) => {
        row!(messaging sas_vendor Read LEAST [Sas $($when)*] [] "SAS(0x"
            [Hexadecimal SAS_ADDRESS ",0x"] [Hexadecimal LOGICAL_UNIT_NUMBER ",0x"]
            [Hexadecimal RELATIVE_TARGET_PORT $ending] $([$($more)*])* [Hexadecimal RESERVED ")"]
            Nothing "")
    };
}

/// Makes a form of SAS devices as nodes of their own kind.
macro_rules! sas_ex {
    ([$($when:tt)*] $ending:literal $([$($more:tt)*])*) => {
        row!(messaging sas_ex Read LEAST [$($when)*] [] "SasEx(0x" [Forth SAS_ADDRESS ",0x"]
            [Forth LOGICAL_UNIT_NUMBER ",0x"] [Hexadecimal RELATIVE_TARGET_PORT $ending]
            $([$($more)*])* Nothing "")
    };
}

/// Makes a form of devices that ACPI names by a number, with its bytes.
macro_rules! acpi_device {
    ([$($hid:literal)*] $start:literal) => {
        row!(acpi acpi Read LEAST [HID = [$($hid)*]] [] $start [Hexadecimal UID ")"] Nothing "")
    };
}

/// Makes a form of IPv4 connections, for nodes with a gateway and a mask or for nodes without.
macro_rules! ipv4 {
    (whole [$($when:tt)*] [$($also:tt)*] $ending:literal $([$($more:tt)*])*) => {
        row!(messaging ipv4 Read WHOLE [$($when)*] [$($also)*] "IPv4("
            [Ipv4 REMOTE_IP_ADDRESS $ending] $([$($more)*])* [Ipv4 LOCAL_IP_ADDRESS ","]
            [Ipv4 GATEWAY_IP_ADDRESS ","] [Ipv4 SUBNET_MASK ")"] Nothing "")
    };
    (short [$($when:tt)*] [$($also:tt)*] $ending:literal $([$($more:tt)*])*) => {
        row!(messaging ipv4 Read LEAST [$($when)*] [$($also)*] "IPv4("
            [Ipv4 REMOTE_IP_ADDRESS $ending] $([$($more)*])* [Ipv4 LOCAL_IP_ADDRESS ")"] Nothing "")
    };
}

/// Makes a form of IPv6 connections, for nodes with a prefix and a gateway or for nodes without.
macro_rules! ipv6 {
    (whole [$($when:tt)*] [$($also:tt)*] $ending:literal $([$($more:tt)*])*) => {
        row!(messaging ipv6 Read LEAST [$($when)*] [$($also)*] "IPv6("
            [Ipv6 REMOTE_IP_ADDRESS $ending] $([$($more)*])* [Ipv6 LOCAL_IP_ADDRESS ",0x"]
            [Hexadecimal PREFIX_LENGTH ","] [Ipv6 GATEWAY_IP_ADDRESS ")"] Nothing "")
    };
    (short [$($when:tt)*] [$($also:tt)*] $ending:literal $([$($more:tt)*])*) => {
        row!(messaging ipv6 Read OLDER [$($when)*] [$($also)*] "IPv6("
            [Ipv6 REMOTE_IP_ADDRESS $ending] $([$($more)*])* [Ipv6 LOCAL_IP_ADDRESS ")"] Nothing "")
    };
}

/// Makes the forms of IPv6 connections, after further forms.
macro_rules! ipv6_forms {
    ($size:ident $($first:tt)*) => {
        &[
            $($first)*
            ipv6!($size [PROTOCOL = [0x06 0x00], IP_ADDRESS_ORIGIN = 0x00] [] ",TCP,Static,"),
            ipv6!($size [PROTOCOL = [0x06 0x00], IP_ADDRESS_ORIGIN = 0x01] []
                ",TCP,StatelessAutoConfigure,"),
            ipv6!($size [PROTOCOL = [0x06 0x00]] [IP_ADDRESS_ORIGIN = 0x02]
                ",TCP,StatefulAutoConfigure,"),
            ipv6!($size [PROTOCOL = [0x11 0x00], IP_ADDRESS_ORIGIN = 0x00] [] ",UDP,Static,"),
            ipv6!($size [PROTOCOL = [0x11 0x00], IP_ADDRESS_ORIGIN = 0x01] []
                ",UDP,StatelessAutoConfigure,"),
            ipv6!($size [PROTOCOL = [0x11 0x00]] [IP_ADDRESS_ORIGIN = 0x02]
                ",UDP,StatefulAutoConfigure,"),
            ipv6!($size [IP_ADDRESS_ORIGIN = 0x00] [] ",0x" [Hexadecimal PROTOCOL ",Static,"]),
            ipv6!($size [IP_ADDRESS_ORIGIN = 0x01] [] ",0x"
                [Hexadecimal PROTOCOL ",StatelessAutoConfigure,"]),
            ipv6!($size [] [IP_ADDRESS_ORIGIN = 0x02] ",0x"
                [Hexadecimal PROTOCOL ",StatefulAutoConfigure,"]),
        ]
    };
}

/// Makes a form of RAM disks of one type.
macro_rules! virtual_disk {
    ([$($guid:literal)*] $start:literal) => {
        row!(media ram_disk Read LEAST [DISK_TYPE = [$($guid)*]] [] $start
            [Hexadecimal STARTING_ADDRESS ",0x"] [Hexadecimal ENDING_ADDRESS ","]
            [Decimal DISK_INSTANCE ")"] Nothing "")
    };
}

/// Makes the forms of devices that a legacy BIOS can boot, from the bytes, the start and the fields of each:
/// first for display, where the flags are omitted, and then with the flags.
macro_rules! boot_forms {
    ($([$($when:tt)*] $start:literal $([$($field:tt)*])*,)*) => {
        &[
            $(row!(bios_boot_spec boot_specification Display FIXED + 1 [$($when)*] [] $start
                $([$($field)*])* Name ")"),)*
            $(row!(bios_boot_spec boot_specification Read FIXED + 1 [$($when)*] [] $start
                $([$($field)*])* Name ",0x" [Hexadecimal STATUS_FLAG ")"]),)*
        ]
    };
}

/// The items of [`Items::Numbers`].
const NUMBERS: WrittenItem = ItemOf {
    size: 4,
    start: ",0x",
    pieces: fields!([] [] [Hexadecimal 0 4 ""]),
};

/// The items of [`Items::Ipv4`].
const IPV4_ADDRESSES: WrittenItem = ItemOf {
    size: 16,
    start: ",",
    pieces: fields!([] [] [Ipv4 0 ""]),
};

/// The items of [`Items::Ipv6`].
const IPV6_ADDRESSES: WrittenItem = ItemOf {
    size: 16,
    start: ",",
    pieces: fields!([] [] [Ipv6 0 ""]),
};

/// Nodes of type Hardware.
#[rattlefmt::skip]
const HARDWARE: &[WrittenRow] = &[
    row!(hardware pci Read LEAST [] [] "Pci(0x" [Hexadecimal DEVICE ",0x"]
        [Hexadecimal FUNCTION ")"] Nothing ""),
    row!(hardware pccard Read LEAST [] [] "PcCard(0x" [Hexadecimal FUNCTION ")"] Nothing ""),
    row!(hardware memory_mapped Read LEAST [] [] "MemoryMapped(0x" [Hexadecimal MEMORY_TYPE ",0x"]
        [Hexadecimal STARTING_ADDRESS ",0x"] [Hexadecimal ENDING_ADDRESS ")"] Nothing ""),
    row!(hardware hardware_vendor Read LEAST [] [] "VenHw(" [Guid VENDOR_GUID ""] Bytes ")"),
    row!(hardware controller Read LEAST [] [] "Ctrl(0x" [Hexadecimal CONTROLLER_NUMBER ")"] Nothing
        ""),
    row!(hardware bmc Read LEAST [] [] "BMC(0x" [Hexadecimal INTERFACE_TYPE ",0x"]
        [Hexadecimal BASE_ADDRESS ")"] Nothing ""),
];

/// Nodes of type ACPI that name devices.
#[rattlefmt::skip]
const ACPI: &[WrittenRow] = &[
    acpi_device!([0xd0 0x41 0x03 0x0a] "PciRoot(0x"),
    acpi_device!([0xd0 0x41 0x08 0x0a] "PcieRoot(0x"),
    acpi_device!([0xd0 0x41 0x04 0x06] "Floppy(0x"),
    acpi_device!([0xd0 0x41 0x01 0x03] "Keyboard(0x"),
    acpi_device!([0xd0 0x41 0x01 0x05] "Serial(0x"),
    acpi_device!([0xd0 0x41 0x01 0x04] "ParallelPort(0x"),
    row!(acpi acpi Read LEAST [HID = [0xd0 0x41]] [] "Acpi(PNP" [Back HID + 2 2 ",0x"]
        [Hexadecimal UID ")"] Nothing ""),
    row!(acpi expanded Read FIXED + 3 [] [] "AcpiEx(" [Eisa HID ","] [Eisa CID ",0x"]
        [Hexadecimal UID ","] Ids ")"),
    row!(acpi adr Read LEAST [] [] "AcpiAdr(0x" [Hexadecimal ADR ""] Repeated Numbers ")"),
    row!(acpi acpi Read LEAST [] [] "Acpi(0x" [Back HID ",0x"] [Hexadecimal UID ")"] Nothing ""),
];

/// SAS devices as vendor-defined messaging nodes, without a drive bay. They come before the nodes of all
/// vendors.
#[rattlefmt::skip]
const SAS: &[WrittenRow] = &[
    sas!([INFO = [0x00 0x00]] ",NoTopology,0,0,0,0x"),
    sas!([INFO = [0x01 0x00]] ",SAS,Internal,Direct,0,0x"),
    sas!([INFO = [0x11 0x00]] ",SATA,Internal,Direct,0,0x"),
    sas!([INFO = [0x21 0x00]] ",SAS,External,Direct,0,0x"),
    sas!([INFO = [0x31 0x00]] ",SATA,External,Direct,0,0x"),
    sas!([INFO = [0x41 0x00]] ",SAS,Internal,Expanded,0,0x"),
    sas!([INFO = [0x51 0x00]] ",SATA,Internal,Expanded,0,0x"),
    sas!([INFO = [0x61 0x00]] ",SAS,External,Expanded,0,0x"),
    sas!([INFO = [0x71 0x00]] ",SATA,External,Expanded,0,0x"),
];

/// SAS devices as vendor-defined messaging nodes, in a drive bay, or with a topology that no word describes.
#[rattlefmt::skip]
const SAS_IN_BAYS: &[WrittenRow] = &[
    sas!([INFO = 0x02] ",SAS,Internal,Direct,0x" [Next INFO + 1 1 ",0x"]),
    sas!([INFO = 0x12] ",SATA,Internal,Direct,0x" [Next INFO + 1 1 ",0x"]),
    sas!([INFO = 0x22] ",SAS,External,Direct,0x" [Next INFO + 1 1 ",0x"]),
    sas!([INFO = 0x32] ",SATA,External,Direct,0x" [Next INFO + 1 1 ",0x"]),
    sas!([INFO = 0x42] ",SAS,Internal,Expanded,0x" [Next INFO + 1 1 ",0x"]),
    sas!([INFO = 0x52] ",SATA,Internal,Expanded,0x" [Next INFO + 1 1 ",0x"]),
    sas!([INFO = 0x62] ",SAS,External,Expanded,0x" [Next INFO + 1 1 ",0x"]),
    sas!([INFO = 0x72] ",SATA,External,Expanded,0x" [Next INFO + 1 1 ",0x"]),
    sas!([] ",0x" [Hexadecimal INFO ",0,0,0,0x"]),
];

/// SAS devices as nodes of their own kind.
#[rattlefmt::skip]
const SAS_EX: &[WrittenRow] = &[
    sas_ex!([INFO = [0x00 0x00]] ",NoTopology,0,0,0)"),
    sas_ex!([INFO = [0x01 0x00]] ",SAS,Internal,Direct,0)"),
    sas_ex!([INFO = [0x11 0x00]] ",SATA,Internal,Direct,0)"),
    sas_ex!([INFO = [0x21 0x00]] ",SAS,External,Direct,0)"),
    sas_ex!([INFO = [0x31 0x00]] ",SATA,External,Direct,0)"),
    sas_ex!([INFO = [0x41 0x00]] ",SAS,Internal,Expanded,0)"),
    sas_ex!([INFO = [0x51 0x00]] ",SATA,Internal,Expanded,0)"),
    sas_ex!([INFO = [0x61 0x00]] ",SAS,External,Expanded,0)"),
    sas_ex!([INFO = [0x71 0x00]] ",SATA,External,Expanded,0)"),
    sas_ex!([INFO = 0x02] ",SAS,Internal,Direct,0x" [Next INFO + 1 1 ")"]),
    sas_ex!([INFO = 0x12] ",SATA,Internal,Direct,0x" [Next INFO + 1 1 ")"]),
    sas_ex!([INFO = 0x22] ",SAS,External,Direct,0x" [Next INFO + 1 1 ")"]),
    sas_ex!([INFO = 0x32] ",SATA,External,Direct,0x" [Next INFO + 1 1 ")"]),
    sas_ex!([INFO = 0x42] ",SAS,Internal,Expanded,0x" [Next INFO + 1 1 ")"]),
    sas_ex!([INFO = 0x52] ",SATA,Internal,Expanded,0x" [Next INFO + 1 1 ")"]),
    sas_ex!([INFO = 0x62] ",SAS,External,Expanded,0x" [Next INFO + 1 1 ")"]),
    sas_ex!([INFO = 0x72] ",SATA,External,Expanded,0x" [Next INFO + 1 1 ")"]),
    sas_ex!([] ",0x" [Hexadecimal INFO ",0,0,0)"]),
];

/// Nodes of type Messaging, except the forms above and below.
#[rattlefmt::skip]
const MESSAGING: &[WrittenRow] = &[
    row!(messaging atapi Display LEAST [] [] "Ata(0x" [Hexadecimal LOGICAL_UNIT_NUMBER ")"] Nothing
        ""),
    row!(messaging atapi Read LEAST [PRIMARY_SECONDARY = 0x01, MASTER_SLAVE = 0x01] []
        "Ata(Secondary,Slave,0x" [Hexadecimal LOGICAL_UNIT_NUMBER ")"] Nothing ""),
    row!(messaging atapi Read LEAST [PRIMARY_SECONDARY = 0x01] [] "Ata(Secondary,Master,0x"
        [Hexadecimal LOGICAL_UNIT_NUMBER ")"] Nothing ""),
    row!(messaging atapi Read LEAST [MASTER_SLAVE = 0x01] [] "Ata(Primary,Slave,0x"
        [Hexadecimal LOGICAL_UNIT_NUMBER ")"] Nothing ""),
    row!(messaging atapi Read LEAST [] [] "Ata(Primary,Master,0x"
        [Hexadecimal LOGICAL_UNIT_NUMBER ")"] Nothing ""),
    row!(messaging scsi Read LEAST [] [] "Scsi(0x" [Hexadecimal TARGET_ID ",0x"]
        [Hexadecimal LOGICAL_UNIT_NUMBER ")"] Nothing ""),
    row!(messaging fibre_channel Read LEAST [] [] "Fibre(0x" [Hexadecimal WORLD_WIDE_NAME ",0x"]
        [Hexadecimal LOGICAL_UNIT_NUMBER ")"] Nothing ""),
    row!(messaging ieee1394 Read LEAST [] [] "I1394(" [Back GUID ")"] Nothing ""),
    row!(messaging usb Read LEAST [] [] "USB(0x" [Hexadecimal PARENT_PORT_NUMBER ",0x"]
        [Hexadecimal INTERFACE ")"] Nothing ""),
    row!(messaging i2o Read LEAST [] [] "I2O(0x" [Hexadecimal TARGET_ID ")"] Nothing ""),
    row!(messaging infiniband Read LEAST [] [] "Infiniband(0x" [Hexadecimal RESOURCE_FLAGS ","]
        [Guid PORT_GID ",0x"] [Hexadecimal IOC_GUID_OR_SERVICE_ID ",0x"]
        [Hexadecimal TARGET_PORT_ID ",0x"] [Hexadecimal DEVICE_ID ")"] Nothing ""),
    row!(messaging uart_flow_control Read LEAST [Uart, MAP = [0x00 0x00 0x00 0x00]] []
        "UartFlowCtrl(None)" Nothing ""),
    row!(messaging uart_flow_control Read LEAST [Uart, MAP = [0x01 0x00 0x00 0x00]] []
        "UartFlowCtrl(Hardware)" Nothing ""),
    row!(messaging uart_flow_control Read LEAST [Uart, MAP = [0x02 0x00 0x00 0x00]] []
        "UartFlowCtrl(XonXoff)" Nothing ""),
    row!(messaging messaging_vendor Read LEAST [] [] "VenMsg(" [Guid VENDOR_GUID ""] Bytes ")"),
    row!(messaging mac_address Read LEAST [INTERFACE_TYPE = 0x00] [] "MAC("
        [Forth MAC_ADDRESS + 0 6 ",0x0)"] Nothing ""),
    row!(messaging mac_address Read LEAST [INTERFACE_TYPE = 0x01] [] "MAC("
        [Forth MAC_ADDRESS + 0 6 ",0x1)"] Nothing ""),
    row!(messaging mac_address Printed LEAST [] [] "MAC(" [Forth MAC_ADDRESS ",0x"]
        [Hexadecimal INTERFACE_TYPE ")"] Nothing ""),
    row!(messaging uart Read LEAST [] [] "Uart(" [OrDefault BAUD_RATE ","] [OrDefault DATA_BITS ","]
        [Word(Parity) PARITY ""] [Word(StopBits) STOP_BITS ""] Nothing ""),
    row!(messaging usb_wwid Read LEAST [] [] "UsbWwid(0x" [Hexadecimal DEVICE_VENDOR_ID ",0x"]
        [Hexadecimal DEVICE_PRODUCT_ID ",0x"] [Hexadecimal INTERFACE_NUMBER ",\""] Utf16 "\")"),
    row!(messaging dns Read FIRST [ADDRESS_TYPE = 0x00] [] "Dns(" [Ipv4 ADDRESS ""] Repeated Ipv4
        ")"),
    row!(messaging dns Read FIRST [] [ADDRESS_TYPE = 0x01] "Dns(" [Ipv6 ADDRESS ""] Repeated Ipv6
        ")"),
    row!(messaging device_logical_unit Read LEAST [] [] "Unit(0x"
        [Hexadecimal LOGICAL_UNIT_NUMBER ")"] Nothing ""),
    row!(messaging sata Read LEAST [] [] "Sata(0x" [Hexadecimal HBA_PORT_NUMBER ",0x"]
        [Hexadecimal PORT_MULTIPLIER_PORT_NUMBER ",0x" Ones] [Hexadecimal LOGICAL_UNIT_NUMBER ")"]
        Nothing ""),
    row!(messaging vlan Read LEAST [] [] "Vlan(" [Decimal VLAN_ID ")"] Nothing ""),
    row!(messaging fibre_channel_ex Read LEAST [] [] "FibreEx(0x" [Forth WORLD_WIDE_NAME ",0x"]
        [Forth LOGICAL_UNIT_NUMBER ")"] Nothing ""),
    row!(messaging nvme_namespace Read LEAST [] [] "NVMe(0x" [Hexadecimal NAMESPACE_IDENTIFIER ","]
        [Dashed IEEE_EXTENDED_UNIQUE_IDENTIFIER ")"] Nothing ""),
    row!(messaging iscsi Read LEAST [] [] "iSCSI(" Name ",0x"
        [Hexadecimal TARGET_PORTAL_GROUP_TAG ",0x"] [Forth LOGICAL_UNIT_NUMBER ","]
        [Word(Digests) OPTIONS + 0 1 ""] [Word(Login) OPTIONS + 1 1 ""]
        [Word(Protocol) PROTOCOL ""]),
    row!(messaging wifi Read 0 + LEAST [] [] "Wi-Fi(" Padded ")"),
    row!(messaging uri Read LEAST [] [] "Uri(" Text ")"),
    row!(messaging ufs Read LEAST [] [] "UFS(0x" [Hexadecimal TARGET_ID ",0x"]
        [Hexadecimal LOGICAL_UNIT_NUMBER ")"] Nothing ""),
    row!(messaging sd Read LEAST [] [] "SD(0x" [Hexadecimal SLOT_NUMBER ")"] Nothing ""),
    row!(messaging bluetooth Read LEAST [] [] "Bluetooth(" [Forth DEVICE_ADDRESS ")"] Nothing ""),
    row!(messaging emmc Read LEAST [] [] "eMMC(0x" [Hexadecimal SLOT_NUMBER ")"] Nothing ""),
    row!(messaging bluetooth_le Read LEAST [] [] "BluetoothLE(" [Forth DEVICE_ADDRESS ",0x"]
        [Forth ADDRESS_TYPE ")"] Nothing ""),
];

/// IPv4 connections, with a gateway and a mask and without.
#[rattlefmt::skip]
const IPV4: &[WrittenRow] = &[
    row!(messaging ipv4 Display LEAST [] [] "IPv4(" [Ipv4 REMOTE_IP_ADDRESS ")"] Nothing ""),
    ipv4!(whole [PROTOCOL = [0x06 0x00], IP_ADDRESS_ORIGIN = 0x00] [] ",TCP,DHCP,"),
    ipv4!(whole [PROTOCOL = [0x06 0x00]] [IP_ADDRESS_ORIGIN = 0x01] ",TCP,Static,"),
    ipv4!(whole [PROTOCOL = [0x11 0x00], IP_ADDRESS_ORIGIN = 0x00] [] ",UDP,DHCP,"),
    ipv4!(whole [PROTOCOL = [0x11 0x00]] [IP_ADDRESS_ORIGIN = 0x01] ",UDP,Static,"),
    ipv4!(whole [IP_ADDRESS_ORIGIN = 0x00] [] ",0x" [Hexadecimal PROTOCOL ",DHCP,"]),
    ipv4!(whole [] [IP_ADDRESS_ORIGIN = 0x01] ",0x" [Hexadecimal PROTOCOL ",Static,"]),
    ipv4!(short [PROTOCOL = [0x06 0x00], IP_ADDRESS_ORIGIN = 0x00] [] ",TCP,DHCP,"),
    ipv4!(short [PROTOCOL = [0x06 0x00]] [IP_ADDRESS_ORIGIN = 0x01] ",TCP,Static,"),
    ipv4!(short [PROTOCOL = [0x11 0x00], IP_ADDRESS_ORIGIN = 0x00] [] ",UDP,DHCP,"),
    ipv4!(short [PROTOCOL = [0x11 0x00]] [IP_ADDRESS_ORIGIN = 0x01] ",UDP,Static,"),
    ipv4!(short [IP_ADDRESS_ORIGIN = 0x00] [] ",0x" [Hexadecimal PROTOCOL ",DHCP,"]),
    ipv4!(short [] [IP_ADDRESS_ORIGIN = 0x01] ",0x" [Hexadecimal PROTOCOL ",Static,"]),
];

/// IPv6 connections, with a prefix and a gateway.
#[rattlefmt::skip]
const IPV6: &[WrittenRow] = ipv6_forms!(whole
    row!(messaging ipv6 Display OLDER [] [] "IPv6(" [Ipv6 REMOTE_IP_ADDRESS ")"] Nothing ""),
);

/// IPv6 connections of older nodes, without a prefix and a gateway.
const IPV6_SHORT: &[WrittenRow] = ipv6_forms!(short);

/// Classes of USB devices.
#[rattlefmt::skip]
const USB_CLASSES: &[WrittenRow] = &[
    usb_class!(0x01 "UsbAudio(0x"),
    usb_class!(0x02 "UsbCDCControl(0x"),
    usb_class!(0x03 "UsbHID(0x"),
    usb_class!(0x06 "UsbImage(0x"),
    usb_class!(0x07 "UsbPrinter(0x"),
    usb_class!(0x08 "UsbMassStorage(0x"),
    usb_class!(0x09 "UsbHub(0x"),
    usb_class!(0x0a "UsbCDCData(0x"),
    usb_class!(0x0b "UsbSmartCard(0x"),
    usb_class!(0x0e "UsbVideo(0x"),
    usb_class!(0xdc "UsbDiagnostic(0x"),
    usb_class!(0xe0 "UsbWireless(0x"),
    usb_class!(0xfe 0x01 "UsbDeviceFirmwareUpdate(0x"),
    usb_class!(0xfe 0x02 "UsbIrdaBridge(0x"),
    usb_class!(0xfe 0x03 "UsbTestAndMeasurement(0x"),
    usb_class!([] "UsbClass(0x" [Hexadecimal DEVICE_CLASS ",0x" Ones]
        [Hexadecimal DEVICE_SUBCLASS ",0x" Ones]),
];

/// Nodes of type Media, except nodes that name files.
#[rattlefmt::skip]
const MEDIA: &[WrittenRow] = &[
    row!(media hard_drive Read LEAST [SIGNATURE_TYPE = 0x01] [PARTITION_FORMAT = 0x01] "HD("
        [Decimal PARTITION_NUMBER ",MBR,0x"] [Back PARTITION_SIGNATURE + 0 4 ",0x"]
        [Hexadecimal PARTITION_START ",0x"] [Hexadecimal PARTITION_SIZE ")"] Nothing ""),
    row!(media hard_drive Read LEAST [SIGNATURE_TYPE = 0x02] [PARTITION_FORMAT = 0x02] "HD("
        [Decimal PARTITION_NUMBER ",GPT,"] [Guid PARTITION_SIGNATURE ",0x"]
        [Hexadecimal PARTITION_START ",0x"] [Hexadecimal PARTITION_SIZE ")"] Nothing ""),
    row!(media hard_drive Printed LEAST [] [] "HD(" [Decimal PARTITION_NUMBER ","]
        [Decimal SIGNATURE_TYPE ",0,0x"] [Hexadecimal PARTITION_START ",0x"]
        [Hexadecimal PARTITION_SIZE ")"] Nothing ""),
    row!(media cd_rom Display LEAST [] [] "CDROM(0x" [Hexadecimal BOOT_ENTRY ")"] Nothing ""),
    row!(media cd_rom Read LEAST [] [] "CDROM(0x" [Hexadecimal BOOT_ENTRY ",0x"]
        [Hexadecimal PARTITION_START ",0x"] [Hexadecimal PARTITION_SIZE ")"] Nothing ""),
    row!(media media_vendor Read LEAST [] [] "VenMedia(" [Guid VENDOR_GUID ""] Bytes ")"),
    row!(media protocol Read LEAST [] [] "Media(" [Guid PROTOCOL_GUID ")"] Nothing ""),
    row!(media firmware_file Read LEAST [] [] "FvFile(" [Guid FILE_NAME ")"] Nothing ""),
    row!(media firmware_volume Read LEAST [] [] "Fv(" [Guid VOLUME_NAME ")"] Nothing ""),
    row!(media relative_offset_range Read LEAST [] [] "Offset(0x"
        [Hexadecimal STARTING_OFFSET ",0x"] [Hexadecimal ENDING_OFFSET ")"] Nothing ""),
    virtual_disk!([0x5a 0x53 0xab 0x77 0xfc 0x45 0x4b 0x62 0x55 0x60 0xf7 0xb2 0x81 0xd1 0xf9 0x6e]
        "VirtualDisk(0x"),
    virtual_disk!([0x30 0xbd 0x5a 0x3d 0x75 0x41 0xce 0x87 0x6d 0x64 0xd2 0xad 0xe5 0x23 0xc4 0xbb]
        "VirtualCD(0x"),
    virtual_disk!([0xc9 0x02 0xea 0x5c 0x07 0x4d 0xd3 0x69 0x26 0x9f 0x44 0x96 0xfb 0xe0 0x96 0xf9]
        "PersistentVirtualDisk(0x"),
    virtual_disk!([0x88 0x81 0x01 0x08 0xcd 0x42 0x48 0xbb 0x10 0x0f 0x53 0x87 0xd5 0x3d 0xed 0x3d]
        "PersistentVirtualCD(0x"),
    row!(media ram_disk Read LEAST [] [] "RamDisk(0x" [Hexadecimal STARTING_ADDRESS ",0x"]
        [Hexadecimal ENDING_ADDRESS ","] [Decimal DISK_INSTANCE ","] [Guid DISK_TYPE ")"] Nothing
        ""),
];

/// Devices that a legacy BIOS can boot, by their types (BIOS Boot Specification).
#[rattlefmt::skip]
const BOOT: &[WrittenRow] = boot_forms!(
    [DEVICE_TYPE = [0x01 0x00]] "BBS(Floppy,",
    [DEVICE_TYPE = [0x02 0x00]] "BBS(HD,",
    [DEVICE_TYPE = [0x03 0x00]] "BBS(CDROM,",
    [DEVICE_TYPE = [0x04 0x00]] "BBS(PCMCIA,",
    [DEVICE_TYPE = [0x05 0x00]] "BBS(USB,",
    [DEVICE_TYPE = [0x06 0x00]] "BBS(Network,",
    [] "BBS(0x" [Hexadecimal DEVICE_TYPE ","],
);

/// Nodes of type ACPI, as people write them.
#[rattlefmt::skip]
const TYPED_ACPI: &[WrittenRow] = &[
    row!(acpi expanded People FIXED [] [] "AcpiExp(" [Eisa HID ","] [Eisa CID ","] Ids ")"),
];

/// Nodes of type Messaging, as people and other programs write them: short names of vendor-defined nodes,
/// which the UEFI Specification 2.10 lists in section 10.6.1.6, and forms whose fields other programs write
/// differently or omit.
#[rattlefmt::skip]
const TYPED_MESSAGING: &[WrittenRow] = &[
    row!(messaging messaging_vendor People LEAST [] [PcAnsi] "VenPcAnsi()" Nothing ""),
    row!(messaging messaging_vendor People LEAST [] [Vt100] "VenVt100()" Nothing ""),
    row!(messaging messaging_vendor People LEAST [] [Vt100Plus] "VenVt100Plus()" Nothing ""),
    row!(messaging messaging_vendor People LEAST [] [VtUtf8] "VenUtf8()" Nothing ""),
    row!(messaging messaging_vendor People LEAST [] [DebugPort] "DebugPort()" Nothing ""),
    row!(messaging uart_flow_control People LEAST [] [Uart] "UartFlowControl(None)" Nothing ""),
    row!(messaging uart_flow_control People LEAST [] [Uart, MAP = 0x01] "UartFlowControl(Hardware)"
        Nothing ""),
    row!(messaging uart_flow_control People LEAST [] [Uart, MAP = 0x02] "UartFlowControl(XonXoff)"
        Nothing ""),
    row!(messaging sas_vendor People LEAST [] [Sas] "SAS(0x" [Hexadecimal SAS_ADDRESS ",0x"]
        [Hexadecimal LOGICAL_UNIT_NUMBER ",0x"] [Hexadecimal RELATIVE_TARGET_PORT ")"] Nothing ""),
    row!(messaging sas_vendor People LEAST [] [Sas] "SAS(0x" [Hexadecimal SAS_ADDRESS ",0x"]
        [Hexadecimal LOGICAL_UNIT_NUMBER ",0x"] [Hexadecimal RELATIVE_TARGET_PORT ",NoTopology)"]
        Nothing ""),
    row!(messaging sas_ex People LEAST [] [] "SasEx(0x" [Forth SAS_ADDRESS ")"] Nothing ""),
    row!(messaging atapi People LEAST [] [] "Ata(0x0)" Nothing ""),
    row!(messaging atapi People LEAST [] [] "Ata(Primary,Master)" Nothing ""),
    row!(messaging atapi People LEAST [] [MASTER_SLAVE = 0x01] "Ata(Primary,Slave)" Nothing ""),
    row!(messaging atapi People LEAST [] [PRIMARY_SECONDARY = 0x01] "Ata(Secondary,Master)" Nothing
        ""),
    row!(messaging atapi People LEAST [] [PRIMARY_SECONDARY = 0x01, MASTER_SLAVE = 0x01]
        "Ata(Secondary,Slave)" Nothing ""),
    row!(messaging mac_address People LEAST [] [] "MAC(" [Forth MAC_ADDRESS + 0 6 ",0x"]
        [Hexadecimal INTERFACE_TYPE ")"] Nothing ""),
    row!(messaging mac_address People LEAST [] [] "MAC(" [Six MAC_ADDRESS ":" ",0x"]
        [Hexadecimal INTERFACE_TYPE ")"] Nothing ""),
    row!(messaging mac_address People LEAST [] [] "MAC(" [Six MAC_ADDRESS "-" ",0x"]
        [Hexadecimal INTERFACE_TYPE ")"] Nothing ""),
    row!(messaging mac_address People LEAST [] [] "MAC(" [Forth MAC_ADDRESS ",0x"]
        [Hexadecimal INTERFACE_TYPE ")"] Nothing ""),
    row!(messaging ipv4 People WHOLE [] [] "IPv4(" [Ipv4 REMOTE_IP_ADDRESS ")"] Nothing ""),
    row!(messaging ipv4 People WHOLE [] [PROTOCOL = 0x06] "IPv4(" [Ipv4 REMOTE_IP_ADDRESS ",TCP)"]
        Nothing ""),
    row!(messaging ipv4 People WHOLE [] [PROTOCOL = 0x06] "IPv4("
        [Ipv4 REMOTE_IP_ADDRESS ",TCP,DHCP)"] Nothing ""),
    row!(messaging ipv4 People WHOLE [] [PROTOCOL = 0x06, IP_ADDRESS_ORIGIN = 0x01] "IPv4("
        [Ipv4 REMOTE_IP_ADDRESS ",TCP,Static)"] Nothing ""),
    row!(messaging ipv4 People WHOLE [] [PROTOCOL = 0x11] "IPv4(" [Ipv4 REMOTE_IP_ADDRESS ",UDP)"]
        Nothing ""),
    row!(messaging ipv4 People WHOLE [] [PROTOCOL = 0x11] "IPv4("
        [Ipv4 REMOTE_IP_ADDRESS ",UDP,DHCP)"] Nothing ""),
    row!(messaging ipv4 People WHOLE [] [PROTOCOL = 0x11, IP_ADDRESS_ORIGIN = 0x01] "IPv4("
        [Ipv4 REMOTE_IP_ADDRESS ",UDP,Static)"] Nothing ""),
    row!(messaging ipv4 People WHOLE [] [] "IPv4(0.0.0.00.0.0.0,0,0)" Nothing ""),
    row!(messaging ipv6 People LEAST [] [PREFIX_LENGTH = 0x40] "IPv6([::]:<->[::]:,0,0)" Nothing
        ""),
    row!(messaging fibre_channel_ex People LEAST [] [] "FibreEx(0x" [Forth WORLD_WIDE_NAME ",0x0)"]
        Nothing ""),
    row!(messaging ipv6 People LEAST [] [PREFIX_LENGTH = 0x40] "IPv6(" [Ipv6 REMOTE_IP_ADDRESS ")"]
        Nothing ""),
    row!(messaging nvme_namespace People LEAST [] [] "NVMe(0x"
        [Hexadecimal NAMESPACE_IDENTIFIER ")"] Nothing ""),
    row!(messaging bluetooth People LEAST [] [] "Bluetooth(" [Six DEVICE_ADDRESS ":" ")"] Nothing
        ""),
    row!(messaging bluetooth People LEAST [] [] "Bluetooth(" [Six DEVICE_ADDRESS "-" ")"] Nothing
        ""),
    row!(messaging bluetooth_le People LEAST [] [] "BluetoothLE(" [Forth DEVICE_ADDRESS ",0x"]
        [Hexadecimal ADDRESS_TYPE ")"] Nothing ""),
    row!(messaging bluetooth_le People LEAST [] [] "BluetoothLE(" [Six DEVICE_ADDRESS "-" ",0x"]
        [Hexadecimal ADDRESS_TYPE ")"] Nothing ""),
    row!(messaging bluetooth_le People LEAST [] [] "BluetoothLE(" [Six DEVICE_ADDRESS ":" ",0x"]
        [Hexadecimal ADDRESS_TYPE ")"] Nothing ""),
];

/// Nodes of type Media, as people write them.
#[rattlefmt::skip]
const TYPED_MEDIA: &[WrittenRow] = &[
    row!(media hard_drive People LEAST [] [PARTITION_FORMAT = 0x01, SIGNATURE_TYPE = 0x01] "HD("
        [Decimal PARTITION_NUMBER ",MBR,0x"] [Hexadecimal PARTITION_SIGNATURE + 0 4 ",0x"]
        [Hexadecimal PARTITION_START ",0x"] [Hexadecimal PARTITION_SIZE ")"] Nothing ""),
    row!(media firmware_volume People LEAST [] [] "FvVol(" [Guid VOLUME_NAME ")"] Nothing ""),
];

/// The forms that only libefivar writes, in the letters of a tidied call.
#[rattlefmt::skip]
const LIBEFIVAR: &[WrittenRow] = &[
    row!(messaging atapi Libefivar LEAST [] [] "ATA(" [Decimal PRIMARY_SECONDARY ","]
        [Decimal MASTER_SLAVE ","] [Decimal LOGICAL_UNIT_NUMBER ")"] Nothing ""),
    row!(messaging nvme_namespace Libefivar LEAST [] [] "NVME(0x"
        [Hexadecimal NAMESPACE_IDENTIFIER ","] [Eight IEEE_EXTENDED_UNIQUE_IDENTIFIER "-" ")"]
        Nothing ""),
];

/// Returns the item of a list.
#[tactic(auto, unfolding(crate::specs::Parts::packed_pieces, crate::specs::Parts::packed_text, crate::specs::Rows::item_of))]
pub fn item_of(items: Items) -> Item
    ensures item { as_item result ≡ item_of items }
    ensures some { 0 < result.size }
    ensures few { result.size ≤ 16 }
    ensures laid_out { IsTrue (list_all (is_within result.size) (as_item result).pieces) }
{
    match items {
        Items::Numbers => packed::NUMBERS_ITEM,
        Items::Ipv4 => packed::IPV4_ADDRESSES_ITEM,
        Items::Ipv6 => packed::IPV6_ADDRESSES_ITEM,
    }
}

/// The number of groups of forms, except those of libefivar.
pub const GROUPS: usize = 15;

/// Returns the part number of a group's packed rows.
#[tactic(auto, unfolding(crate::specs::Parts::packed_bytes, crate::specs::Parts::packed_pieces, crate::specs::Parts::packed_text, crate::specs::Table::group_forms))]
fn part_of_group(index: usize) -> u8
    ensures forms { map as_form (part_of ROWS ROW_STARTS result) ≡ group_forms index }
    ensures few { length (part_of ROWS ROW_STARTS result) ≤ 1000 }
{
    match index {
        0 => 0,
        1 => 1,
        2 => 2,
        3 => 3,
        4 => 4,
        5 => 5,
        6 => 6,
        7 => 7,
        8 => 8,
        9 => 9,
        10 => 10,
        11 => 11,
        12 => 12,
        13 => 13,
        14 => 14,
        15 => 15,
        // No part begins here, so this one is empty.
        _ => 16,
    }
}

/// Returns the forms of a group.
pub fn group(index: usize) -> &'static [Row]
    ensures forms { map as_form result.now ≡ group_forms index }
    ensures few { length result.now ≤ 1000 }
{
    part(&ROWS, &ROW_STARTS, part_of_group(index))
}

/// Returns the forms that only libefivar writes.
pub fn libefivar_forms() -> &'static [Row]
    ensures { map as_form result.now ≡ libefivar_forms }
{
    group(GROUPS)
}
