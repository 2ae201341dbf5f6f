//! The packed table, which is compiled. tools/pack-table makes this file from the table that people write, in
//! `table.rt`. Definitions cite the written table, and `group` proves that the packed one means the same.
//!
//! Texts, steps, bytes and forms are one constant each. Part `n` of a constant begins at number `n` of its
//! starts, and ends where part `n + 1` begins.
#![tactic(auto)]

use crate::parts::{PackedBytes, PackedField, PackedForm, PackedStep, PackedSteps, PackedText};
use crate::steps::{Encoding, FormOf, Items, LayoutOf, Mode, Shape, Words};

/// A step as in the table, with the number of a text, and with the offset and the width of a field.
macro_rules! step {
    ($text:literal) => {
        PackedStep::Literal(PackedText { number: $text })
    };
    (($shape:ident $(($argument:expr))? $place:literal $width:literal)) => {
        PackedStep::Field(PackedField {
            shape: Shape::$shape $(($argument))?,
            place: $place,
            width: $width,
            spare: None,
        })
    };
    (($shape:ident $place:literal $width:literal or $spare:literal)) => {
        PackedStep::Field(PackedField {
            shape: Shape::$shape,
            place: $place,
            width: $width,
            spare: Some($spare),
        })
    };
    ({$encoding:ident $($stop:literal)?}) => {
        PackedStep::Data(Encoding::$encoding $(($stop))?)
    };
    ([$items:ident]) => {
        PackedStep::Many(Items::$items)
    };
}

/// Steps.
macro_rules! steps {
    ($($step:tt)+) => {
        [$(step!($step)),+]
    };
}

/// Lists of bytes: the 16 bytes of a GUID at the places from 0 on, if the list begins with them, and then
/// each place and its byte.
macro_rules! bytes {
    ($($([$b0:literal $b1:literal $b2:literal $b3:literal $b4:literal $b5:literal $b6:literal
        $b7:literal $b8:literal $b9:literal $b10:literal $b11:literal $b12:literal $b13:literal
        $b14:literal $b15:literal])? $($place:literal $byte:literal),*);+) => {
        [$($((0, $b0), (1, $b1), (2, $b2), (3, $b3), (4, $b4), (5, $b5), (6, $b6), (7, $b7), (8, $b8),
            (9, $b9), (10, $b10), (11, $b11), (12, $b12), (13, $b13), (14, $b14), (15, $b15),)?
            $(($place, $byte),)*)+]
    };
}

/// Forms: what one form or more of a kind share, which is the type, the sub-type, the mode, the number of
/// fixed bytes and the least number of further bytes; and for each of them the numbers of the bytes that
/// distinguish it, of the other bytes, of the text that it begins with and of the steps after it.
macro_rules! forms {
    ($($kind:literal $sub_kind:literal $mode:ident $size:literal $more:literal
        => $($when:literal $bytes:literal $start:literal $others:literal),+);+) => {
        [$($(FormOf {
            kind: $kind,
            sub_kind: $sub_kind,
            mode: Mode::$mode,
            more: $more,
            when: PackedBytes { number: $when },
            layout: LayoutOf {
                size: $size,
                bytes: PackedBytes { number: $bytes },
                steps: PackedSteps { start: PackedText { number: $start }, others: $others },
            },
        }),+),+]
    };
}

/// The texts.
#[rattlefmt::skip]
pub const TEXTS: [u8; 2179] = *b"\
    Pci(,)PcCard(MemoryMapped(VenHw(Ctrl(BMC(PciRoot(PcieRoot(Floppy(Keyboard(Serial(ParallelPort(Acpi\
    (PNPAcpiEx(AcpiAdr(Acpi(SAS(,NoTopology,0,0,0,,SAS,Internal,Direct,0,,SATA,Internal,Direct,0,,SAS,\
    External,Direct,0,,SATA,External,Direct,0,,SAS,Internal,Expanded,0,,SATA,Internal,Expanded,0,,SAS,\
    External,Expanded,0,,SATA,External,Expanded,0,,SAS,Internal,Direct,,SATA,Internal,Direct,,SAS,Exte\
    rnal,Direct,,SATA,External,Direct,,SAS,Internal,Expanded,,SATA,Internal,Expanded,,SAS,External,Exp\
    anded,,SATA,External,Expanded,,0,0,0,SasEx(,NoTopology,0,0,0),SAS,Internal,Direct,0),SATA,Internal\
    ,Direct,0),SAS,External,Direct,0),SATA,External,Direct,0),SAS,Internal,Expanded,0),SATA,Internal,E\
    xpanded,0),SAS,External,Expanded,0),SATA,External,Expanded,0),0,0,0)Ata(Ata(Secondary,Slave,Ata(Se\
    condary,Master,Ata(Primary,Slave,Ata(Primary,Master,Scsi(Fibre(I1394(USB(I2O(Infiniband(UartFlowCt\
    rl(None)UartFlowCtrl(Hardware)UartFlowCtrl(XonXoff)VenMsg(MAC(,0x0),0x1)Uart(UsbWwid(,\"\")Dns(Unit(\
    Sata(Vlan(FibreEx(NVMe(iSCSI(Wi-Fi(Uri(UFS(SD(Bluetooth(eMMC(BluetoothLE(IPv4(,TCP,DHCP,,TCP,Stati\
    c,,UDP,DHCP,,UDP,Static,,DHCP,,Static,IPv6(,TCP,StatelessAutoConfigure,,TCP,StatefulAutoConfigure,\
    ,UDP,StatelessAutoConfigure,,UDP,StatefulAutoConfigure,,StatelessAutoConfigure,,StatefulAutoConfig\
    ure,UsbAudio(UsbCDCControl(UsbHID(UsbImage(UsbPrinter(UsbMassStorage(UsbHub(UsbCDCData(UsbSmartCar\
    d(UsbVideo(UsbDiagnostic(UsbWireless(UsbDeviceFirmwareUpdate(UsbIrdaBridge(UsbTestAndMeasurement(U\
    sbClass(HD(,MBR,,GPT,,0,CDROM(VenMedia(Media(FvFile(Fv(Offset(VirtualDisk(VirtualCD(PersistentVirt\
    ualDisk(PersistentVirtualCD(RamDisk(BBS(Floppy,BBS(HD,BBS(CDROM,BBS(PCMCIA,BBS(USB,BBS(Network,BBS\
    (AcpiExp(VenPcAnsi()VenVt100()VenVt100Plus()VenUtf8()DebugPort()UartFlowControl(None)UartFlowContr\
    ol(Hardware)UartFlowControl(XonXoff),NoTopology)Ata(0x0)Ata(Primary,Master)Ata(Primary,Slave)Ata(S\
    econdary,Master)Ata(Secondary,Slave),TCP),TCP,DHCP),TCP,Static),UDP),UDP,DHCP),UDP,Static)IPv4(0.0\
    .0.00.0.0.0,0,0)IPv6([::]:<->[::]:,0,0),TCP,StatelessAutoConfigure),TCP,StatefulAutoConfigure),UDP\
    ,StatelessAutoConfigure),UDP,StatefulAutoConfigure),Static),StatelessAutoConfigure),StatefulAutoCo\
    nfigure)FvVol(ATA(NVME(";

/// Where each text begins.
#[rattlefmt::skip]
pub const TEXT_STARTS: [u16; 171] = [
    0, 0, 4, 5, 6, 13, 26, 32, 37, 41, 49, 58, 65, 74, 81, 94, 102, 109, 117, 122, 126, 144, 167, 191,
    214, 238, 263, 289, 314, 340, 361, 383, 404, 426, 449, 473, 496, 520, 527, 533, 551, 574, 598, 621,
    645, 670, 696, 721, 747, 754, 758, 778, 799, 817, 836, 841, 847, 853, 857, 861, 872, 890, 912, 933,
    940, 944, 949, 954, 959, 967, 969, 971, 975, 980, 985, 990, 998, 1003, 1009, 1015, 1019, 1023, 1026,
    1036, 1041, 1053, 1058, 1068, 1080, 1090, 1102, 1108, 1116, 1121, 1149, 1176, 1204, 1231, 1255,
    1278, 1287, 1301, 1308, 1317, 1328, 1343, 1350, 1361, 1374, 1383, 1397, 1409, 1433, 1447, 1469,
    1478, 1481, 1486, 1491, 1494, 1500, 1509, 1515, 1522, 1525, 1532, 1544, 1554, 1576, 1596, 1604,
    1615, 1622, 1632, 1643, 1651, 1663, 1667, 1675, 1686, 1696, 1710, 1719, 1730, 1751, 1776, 1800,
    1812, 1820, 1839, 1857, 1878, 1898, 1903, 1913, 1925, 1930, 1940, 1952, 1976, 1999, 2027, 2054,
    2082, 2109, 2117, 2141, 2164, 2170, 2174, 2179
];

/// The steps after the first, which is a literal in each form.
#[rattlefmt::skip]
pub const STEPS: [PackedStep; 817] = steps!(
    (Hexadecimal 1 1) 2 (Hexadecimal 0 1 or 0) 3 (Hexadecimal 0 1) 3 (Hexadecimal 0 4) 2
    (Hexadecimal 4 8 or 0) 2 (Hexadecimal 12 8 or 0) 3 (Guid 0 16) {Bytes} 3 (Hexadecimal 0 4) 3
    (Hexadecimal 0 1) 2 (Hexadecimal 1 8 or 0) 3 (Hexadecimal 4 4) 3 (Back 2 2) 2 (Hexadecimal 4 4 or 0)
    3 (Eisa 0 4) 2 (Eisa 8 4) 2 (Hexadecimal 4 4 or 0) {Ids 41} 3 (Hexadecimal 0 4) [Numbers] 3
    (BaseBack 0 4) 2 (Hexadecimal 4 4 or 0) 3 (Marked 20 8) 2 (Marked 28 8 or 0) 2 (Marked 38 2 or 0) 20
    (Marked 16 4 or 0) 3 (Marked 20 8) 2 (Marked 28 8 or 0) 2 (Marked 38 2 or 0) 21 (Marked 16 4 or 0) 3
    (Marked 20 8) 2 (Marked 28 8 or 0) 2 (Marked 38 2 or 0) 22 (Marked 16 4 or 0) 3 (Marked 20 8) 2
    (Marked 28 8 or 0) 2 (Marked 38 2 or 0) 23 (Marked 16 4 or 0) 3 (Marked 20 8) 2 (Marked 28 8 or 0) 2
    (Marked 38 2 or 0) 24 (Marked 16 4 or 0) 3 (Marked 20 8) 2 (Marked 28 8 or 0) 2 (Marked 38 2 or 0)
    25 (Marked 16 4 or 0) 3 (Marked 20 8) 2 (Marked 28 8 or 0) 2 (Marked 38 2 or 0) 26
    (Marked 16 4 or 0) 3 (Marked 20 8) 2 (Marked 28 8 or 0) 2 (Marked 38 2 or 0) 27 (Marked 16 4 or 0) 3
    (Marked 20 8) 2 (Marked 28 8 or 0) 2 (Marked 38 2 or 0) 28 (Marked 16 4 or 0) 3 (Marked 20 8) 2
    (Marked 28 8 or 0) 2 (Marked 38 2 or 0) 29 (Next 37 1) 2 (Marked 16 4 or 0) 3 (Marked 20 8) 2
    (Marked 28 8 or 0) 2 (Marked 38 2 or 0) 30 (Next 37 1) 2 (Marked 16 4 or 0) 3 (Marked 20 8) 2
    (Marked 28 8 or 0) 2 (Marked 38 2 or 0) 31 (Next 37 1) 2 (Marked 16 4 or 0) 3 (Marked 20 8) 2
    (Marked 28 8 or 0) 2 (Marked 38 2 or 0) 32 (Next 37 1) 2 (Marked 16 4 or 0) 3 (Marked 20 8) 2
    (Marked 28 8 or 0) 2 (Marked 38 2 or 0) 33 (Next 37 1) 2 (Marked 16 4 or 0) 3 (Marked 20 8) 2
    (Marked 28 8 or 0) 2 (Marked 38 2 or 0) 34 (Next 37 1) 2 (Marked 16 4 or 0) 3 (Marked 20 8) 2
    (Marked 28 8 or 0) 2 (Marked 38 2 or 0) 35 (Next 37 1) 2 (Marked 16 4 or 0) 3 (Marked 20 8) 2
    (Marked 28 8 or 0) 2 (Marked 38 2 or 0) 36 (Next 37 1) 2 (Marked 16 4 or 0) 3 (Marked 20 8) 2
    (Marked 28 8 or 0) 2 (Marked 38 2 or 0) 2 (Marked 36 2 or 0) 37 (Marked 16 4 or 0) 3 (BaseForth 0 8)
    2 (BaseForth 8 8) 2 (Hexadecimal 18 2 or 0) 39 (BaseForth 0 8) 2 (BaseForth 8 8) 2
    (Hexadecimal 18 2 or 0) 40 (BaseForth 0 8) 2 (BaseForth 8 8) 2 (Hexadecimal 18 2 or 0) 41
    (BaseForth 0 8) 2 (BaseForth 8 8) 2 (Hexadecimal 18 2 or 0) 42 (BaseForth 0 8) 2 (BaseForth 8 8) 2
    (Hexadecimal 18 2 or 0) 43 (BaseForth 0 8) 2 (BaseForth 8 8) 2 (Hexadecimal 18 2 or 0) 44
    (BaseForth 0 8) 2 (BaseForth 8 8) 2 (Hexadecimal 18 2 or 0) 45 (BaseForth 0 8) 2 (BaseForth 8 8) 2
    (Hexadecimal 18 2 or 0) 46 (BaseForth 0 8) 2 (BaseForth 8 8) 2 (Hexadecimal 18 2 or 0) 47
    (BaseForth 0 8) 2 (BaseForth 8 8) 2 (Hexadecimal 18 2 or 0) 29 (Next 17 1) 3 (BaseForth 0 8) 2
    (BaseForth 8 8) 2 (Hexadecimal 18 2 or 0) 30 (Next 17 1) 3 (BaseForth 0 8) 2 (BaseForth 8 8) 2
    (Hexadecimal 18 2 or 0) 31 (Next 17 1) 3 (BaseForth 0 8) 2 (BaseForth 8 8) 2 (Hexadecimal 18 2 or 0)
    32 (Next 17 1) 3 (BaseForth 0 8) 2 (BaseForth 8 8) 2 (Hexadecimal 18 2 or 0) 33 (Next 17 1) 3
    (BaseForth 0 8) 2 (BaseForth 8 8) 2 (Hexadecimal 18 2 or 0) 34 (Next 17 1) 3 (BaseForth 0 8) 2
    (BaseForth 8 8) 2 (Hexadecimal 18 2 or 0) 35 (Next 17 1) 3 (BaseForth 0 8) 2 (BaseForth 8 8) 2
    (Hexadecimal 18 2 or 0) 36 (Next 17 1) 3 (BaseForth 0 8) 2 (BaseForth 8 8) 2 (Hexadecimal 18 2 or 0)
    2 (Hexadecimal 16 2 or 0) 48 (Hexadecimal 2 2) 3 (Hexadecimal 2 2 or 0) 3 (Hexadecimal 0 2) 2
    (Hexadecimal 2 2 or 0) 3 (Marked 4 8) 2 (Marked 12 8 or 0) 3 (Back 4 8) 3 (Hexadecimal 0 1) 2
    (Hexadecimal 1 1 or 0) 3 (Hexadecimal 0 4) 2 (Guid 4 16) 2 (Hexadecimal 20 8 or 0) 2
    (Hexadecimal 28 8 or 0) 2 (Hexadecimal 36 8 or 0) 3 (Forth 0 6) 65 (Forth 0 6) 66 (Forth 0 32) 2
    (Hexadecimal 32 1 or 0) 3 (OrDefault 4 8) 2 (OrDefault 12 1) 2 (Word(Words::Parity) 13 1)
    (Word(Words::StopBits) 14 1) (Hexadecimal 2 2) 2 (Hexadecimal 4 2 or 0) 2 (Hexadecimal 0 2 or 0) 69
    {Utf16 34} 70 (Ipv4 1 4) [Ipv4] 3 (Ipv6 1 16) [Ipv6] 3 (Hexadecimal 0 2) 2 (Hexadecimal 2 2 or 255)
    2 (Hexadecimal 4 2 or 0) 3 (Decimal 0 2) 3 (BaseForth 4 8) 2 (BaseForth 12 8) 3 (Hexadecimal 0 4) 2
    (Dashed 4 8) 3 {Name 44} 2 (Hexadecimal 12 2 or 0) 2 (BaseForth 4 8) 2 (Word(Words::Digests) 2 1)
    (Word(Words::Login) 3 1) (Word(Words::Protocol) 0 2) {Padded 41} 3 {Text 41} 3 (Forth 0 6) 3
    (Forth 0 6) 2 (BaseBack 6 1) 3 (Ipv4 4 4) 3 (Ipv4 4 4) 86 (Ipv4 0 4) 2 (Ipv4 15 4) 2 (Ipv4 19 4) 3
    (Ipv4 4 4) 87 (Ipv4 0 4) 2 (Ipv4 15 4) 2 (Ipv4 19 4) 3 (Ipv4 4 4) 88 (Ipv4 0 4) 2 (Ipv4 15 4) 2
    (Ipv4 19 4) 3 (Ipv4 4 4) 89 (Ipv4 0 4) 2 (Ipv4 15 4) 2 (Ipv4 19 4) 3 (Ipv4 4 4) 2
    (Hexadecimal 12 2 or 0) 90 (Ipv4 0 4) 2 (Ipv4 15 4) 2 (Ipv4 19 4) 3 (Ipv4 4 4) 2
    (Hexadecimal 12 2 or 0) 91 (Ipv4 0 4) 2 (Ipv4 15 4) 2 (Ipv4 19 4) 3 (Ipv4 4 4) 86 (Ipv4 0 4) 3
    (Ipv4 4 4) 87 (Ipv4 0 4) 3 (Ipv4 4 4) 88 (Ipv4 0 4) 3 (Ipv4 4 4) 89 (Ipv4 0 4) 3 (Ipv4 4 4) 2
    (Hexadecimal 12 2 or 0) 90 (Ipv4 0 4) 3 (Ipv4 4 4) 2 (Hexadecimal 12 2 or 0) 91 (Ipv4 0 4) 3
    (Ipv6 16 16) 3 (Ipv6 16 16) 87 (Ipv6 0 16) 2 (Hexadecimal 39 1 or 0) 2 (Ipv6 40 16) 3 (Ipv6 16 16)
    93 (Ipv6 0 16) 2 (Hexadecimal 39 1 or 0) 2 (Ipv6 40 16) 3 (Ipv6 16 16) 94 (Ipv6 0 16) 2
    (Hexadecimal 39 1 or 0) 2 (Ipv6 40 16) 3 (Ipv6 16 16) 89 (Ipv6 0 16) 2 (Hexadecimal 39 1 or 0) 2
    (Ipv6 40 16) 3 (Ipv6 16 16) 95 (Ipv6 0 16) 2 (Hexadecimal 39 1 or 0) 2 (Ipv6 40 16) 3 (Ipv6 16 16)
    96 (Ipv6 0 16) 2 (Hexadecimal 39 1 or 0) 2 (Ipv6 40 16) 3 (Ipv6 16 16) 2 (Hexadecimal 36 2 or 0) 91
    (Ipv6 0 16) 2 (Hexadecimal 39 1 or 0) 2 (Ipv6 40 16) 3 (Ipv6 16 16) 2 (Hexadecimal 36 2 or 0) 97
    (Ipv6 0 16) 2 (Hexadecimal 39 1 or 0) 2 (Ipv6 40 16) 3 (Ipv6 16 16) 2 (Hexadecimal 36 2 or 0) 98
    (Ipv6 0 16) 2 (Hexadecimal 39 1 or 0) 2 (Ipv6 40 16) 3 (Ipv6 16 16) 87 (Ipv6 0 16) 3 (Ipv6 16 16) 93
    (Ipv6 0 16) 3 (Ipv6 16 16) 94 (Ipv6 0 16) 3 (Ipv6 16 16) 89 (Ipv6 0 16) 3 (Ipv6 16 16) 95
    (Ipv6 0 16) 3 (Ipv6 16 16) 96 (Ipv6 0 16) 3 (Ipv6 16 16) 2 (Hexadecimal 36 2 or 0) 91 (Ipv6 0 16) 3
    (Ipv6 16 16) 2 (Hexadecimal 36 2 or 0) 97 (Ipv6 0 16) 3 (Ipv6 16 16) 2 (Hexadecimal 36 2 or 0) 98
    (Ipv6 0 16) 3 (Hexadecimal 0 2) 2 (Hexadecimal 2 2 or 255) 2 (Hexadecimal 5 1 or 255) 2
    (Hexadecimal 6 1 or 255) 3 (Hexadecimal 0 2) 2 (Hexadecimal 2 2 or 255) 2 (Hexadecimal 6 1 or 255) 3
    (Marked 0 2) 2 (Marked 2 2 or 255) 2 (Marked 4 1 or 255) 2 (Marked 5 1 or 255) 2 (Marked 6 1 or 255)
    3 (Decimal 0 4) 116 (BaseBack 20 4) 2 (Hexadecimal 4 8 or 0) 2 (Hexadecimal 12 8 or 0) 3
    (Decimal 0 4) 117 (Guid 20 16) 2 (Hexadecimal 4 8 or 0) 2 (Hexadecimal 12 8 or 0) 3 (Decimal 0 4) 2
    (Decimal 37 1 or 0) 118 (Hexadecimal 4 8 or 0) 2 (Hexadecimal 12 8 or 0) 3 (Guid 0 16) 3
    (Hexadecimal 4 8) 2 (Hexadecimal 12 8 or 0) 3 (Hexadecimal 0 8) 2 (Hexadecimal 8 8 or 0) 2
    (Decimal 32 2 or 0) 3 (Hexadecimal 0 8) 2 (Hexadecimal 8 8 or 0) 2 (Decimal 32 2 or 0) 2
    (Guid 16 16) 3 {Name 41} 3 (Hexadecimal 0 2) {NameAfterComma 41} 3 {Name 44} 2
    (Hexadecimal 2 2 or 0) 3 (Hexadecimal 0 2) {NameAfterComma 44} 2 (Hexadecimal 2 2 or 0) 3 (Eisa 0 4)
    2 (Eisa 8 4) {Uid 41} 3 (Marked 20 8) 2 (Marked 28 8 or 0) 2 (Marked 38 2 or 0) 3 (Marked 20 8) 2
    (Marked 28 8 or 0) 2 (Marked 38 2 or 0) 146 (BaseForth 0 8) 3 (Forth 0 6) 2 (Hexadecimal 32 1 or 0)
    3 (Apart(58) 0 6) 2 (Hexadecimal 32 1 or 0) 3 (Apart(45) 0 6) 2 (Hexadecimal 32 1 or 0) 3 (Ipv4 4 4)
    152 (Ipv4 4 4) 153 (Ipv4 4 4) 154 (Ipv4 4 4) 155 (Ipv4 4 4) 156 (Ipv4 4 4) 157 (BaseForth 4 8) 65
    (Apart(58) 0 6) 3 (Apart(45) 0 6) 3 (Forth 0 6) 2 (Marked 6 1 or 0) 3 (Apart(45) 0 6) 2
    (Marked 6 1 or 0) 3 (Apart(58) 0 6) 2 (Marked 6 1 or 0) 3 (Ipv6 16 16) 152 (Ipv6 16 16) 155
    (Ipv6 16 16) 2 (Hexadecimal 36 2) 3 (Ipv6 16 16) 154 (Ipv6 16 16) 160 (Ipv6 16 16) 161 (Ipv6 16 16)
    157 (Ipv6 16 16) 162 (Ipv6 16 16) 163 (Ipv6 16 16) 2 (Hexadecimal 36 2 or 0) 164 (Ipv6 16 16) 2
    (Hexadecimal 36 2 or 0) 165 (Ipv6 16 16) 2 (Hexadecimal 36 2 or 0) 166 (Decimal 0 4) 116
    (Marked 20 4 or 0) 2 (Hexadecimal 4 8 or 0) 2 (Hexadecimal 12 8 or 0) 3 (Decimal 0 1) 2
    (Decimal 1 1 or 0) 2 (Decimal 2 2 or 0) 3 (Hexadecimal 0 4) 2 (Apart(45) 4 8) 3
);

/// Where each list of steps begins.
#[rattlefmt::skip]
pub const STEP_STARTS: [u16; 152] = [
    0, 0, 4, 6, 12, 15, 17, 21, 23, 27, 34, 37, 41, 49, 57, 65, 73, 81, 89, 97, 105, 113, 123, 133, 143,
    153, 163, 173, 183, 193, 203, 209, 215, 221, 227, 233, 239, 245, 251, 257, 265, 273, 281, 289, 297,
    305, 313, 321, 329, 331, 333, 337, 341, 343, 347, 357, 359, 361, 365, 371, 379, 382, 385, 391, 393,
    397, 401, 410, 412, 414, 416, 420, 422, 430, 438, 446, 454, 464, 474, 478, 482, 486, 490, 496, 502,
    504, 512, 520, 528, 536, 544, 552, 562, 572, 582, 586, 590, 594, 598, 602, 606, 612, 618, 624, 632,
    638, 648, 656, 664, 672, 674, 678, 684, 692, 694, 697, 701, 706, 711, 717, 723, 725, 729, 733, 737,
    739, 741, 743, 745, 747, 749, 751, 753, 755, 759, 763, 767, 769, 771, 775, 777, 779, 781, 783, 785,
    787, 791, 795, 799, 807, 813, 817
];

/// The places and the bytes.
#[rattlefmt::skip]
pub const BYTES: [(u8, u8); 721] = bytes!(
    0 208, 1 65, 2 3, 3 10; 0 208, 1 65, 2 8, 3 10; 0 208, 1 65, 2 4, 3 6; 0 208, 1 65, 2 1, 3 3; 0 208,
    1 65, 2 1, 3 5; 0 208, 1 65, 2 1, 3 4; 0 208, 1 65; [180 221 135 212 139 0 217 17 175 220 0 16 131
    255 202 77] 36 0, 37 0; [180 221 135 212 139 0 217 17 175 220 0 16 131 255 202 77] 36 1, 37 0; [180
    221 135 212 139 0 217 17 175 220 0 16 131 255 202 77] 36 17, 37 0; [180 221 135 212 139 0 217 17 175
    220 0 16 131 255 202 77] 36 33, 37 0; [180 221 135 212 139 0 217 17 175 220 0 16 131 255 202 77]
    36 49, 37 0; [180 221 135 212 139 0 217 17 175 220 0 16 131 255 202 77] 36 65, 37 0; [180 221 135
    212 139 0 217 17 175 220 0 16 131 255 202 77] 36 81, 37 0; [180 221 135 212 139 0 217 17 175 220 0
    16 131 255 202 77] 36 97, 37 0; [180 221 135 212 139 0 217 17 175 220 0 16 131 255 202 77] 36 113,
    37 0; [180 221 135 212 139 0 217 17 175 220 0 16 131 255 202 77] 36 2; [180 221 135 212 139 0 217 17
    175 220 0 16 131 255 202 77] 36 18; [180 221 135 212 139 0 217 17 175 220 0 16 131 255 202 77]
    36 34; [180 221 135 212 139 0 217 17 175 220 0 16 131 255 202 77] 36 50; [180 221 135 212 139 0 217
    17 175 220 0 16 131 255 202 77] 36 66; [180 221 135 212 139 0 217 17 175 220 0 16 131 255 202 77]
    36 82; [180 221 135 212 139 0 217 17 175 220 0 16 131 255 202 77] 36 98; [180 221 135 212 139 0 217
    17 175 220 0 16 131 255 202 77] 36 114; [180 221 135 212 139 0 217 17 175 220 0 16 131 255 202 77];
    16 0, 17 0; 16 1, 17 0; 16 17, 17 0; 16 33, 17 0; 16 49, 17 0; 16 65, 17 0; 16 81, 17 0; 16 97,
    17 0; 16 113, 17 0; 16 2; 16 18; 16 34; 16 50; 16 66; 16 82; 16 98; 16 114; 0 1, 1 1; 0 1; 1 1; [157
    154 73 55 47 84 137 76 160 38 53 218 20 32 148 228] 16 0, 17 0, 18 0, 19 0; [157 154 73 55 47 84 137
    76 160 38 53 218 20 32 148 228] 16 1, 17 0, 18 0, 19 0; [157 154 73 55 47 84 137 76 160 38 53 218 20
    32 148 228] 16 2, 17 0, 18 0, 19 0; 32 0; 32 1; 0 0; 12 6, 13 0, 14 0; 12 6, 13 0; 14 1; 12 17,
    13 0, 14 0; 12 17, 13 0; 14 0; 36 6, 37 0, 38 0; 36 6, 37 0, 38 1; 36 6, 37 0; 38 2; 36 17, 37 0,
    38 0; 36 17, 37 0, 38 1; 36 17, 37 0; 38 0; 38 1; 4 1; 4 2; 4 3; 4 6; 4 7; 4 8; 4 9; 4 10; 4 11;
    4 14; 4 220; 4 224; 4 254, 5 1; 4 254, 5 2; 4 254, 5 3; 37 1; 36 1; 37 2; 36 2; 16 90, 17 83,
    18 171, 19 119, 20 252, 21 69, 22 75, 23 98, 24 85, 25 96, 26 247, 27 178, 28 129, 29 209, 30 249,
    31 110; 16 48, 17 189, 18 90, 19 61, 20 117, 21 65, 22 206, 23 135, 24 109, 25 100, 26 210, 27 173,
    28 229, 29 35, 30 196, 31 187; 16 201, 17 2, 18 234, 19 92, 20 7, 21 77, 22 211, 23 105, 24 38,
    25 159, 26 68, 27 150, 28 251, 29 224, 30 150, 31 249; 16 136, 17 129, 18 1, 19 8, 20 205, 21 66,
    22 72, 23 187, 24 16, 25 15, 26 83, 27 135, 28 213, 29 61, 30 237, 31 61; 0 1, 1 0; 0 2, 1 0; 0 3,
    1 0; 0 4, 1 0; 0 5, 1 0; 0 6, 1 0; [83 71 193 224 190 249 210 17 154 12 0 144 39 63 193 77]; [101 96
    166 223 25 180 211 17 154 45 0 144 39 63 193 77]; [11 199 174 123 224 87 118 76 142 135 47 158 40 8
    131 67]; [214 160 21 173 236 139 207 74 160 115 208 29 231 126 45 136]; [210 232 164 235 88 56 236
    65 162 129 38 71 186 150 96 208]; [157 154 73 55 47 84 137 76 160 38 53 218 20 32 148 228]; [157 154
    73 55 47 84 137 76 160 38 53 218 20 32 148 228] 16 1; [157 154 73 55 47 84 137 76 160 38 53 218 20
    32 148 228] 16 2; 12 6; 12 6, 14 1; 12 17; 12 17, 14 1; 39 64; 36 6, 39 64; 36 17, 39 64; 36 6,
    38 1, 39 64; 36 6, 38 2, 39 64; 36 17, 38 1, 39 64; 36 17, 38 2, 39 64; 38 1, 39 64; 38 2, 39 64;
    36 1, 37 1
);

/// Where each list of bytes begins.
#[rattlefmt::skip]
pub const BYTE_STARTS: [u16; 119] = [
    0, 0, 4, 8, 12, 16, 20, 24, 26, 44, 62, 80, 98, 116, 134, 152, 170, 188, 205, 222, 239, 256, 273,
    290, 307, 324, 340, 342, 344, 346, 348, 350, 352, 354, 356, 358, 359, 360, 361, 362, 363, 364, 365,
    366, 368, 369, 370, 390, 410, 430, 431, 432, 433, 436, 438, 439, 442, 444, 445, 448, 451, 453, 454,
    457, 460, 462, 463, 464, 465, 466, 467, 468, 469, 470, 471, 472, 473, 474, 475, 476, 478, 480, 482,
    483, 484, 485, 486, 502, 518, 534, 550, 552, 554, 556, 558, 560, 562, 578, 594, 610, 626, 642, 658,
    675, 692, 693, 695, 696, 698, 699, 701, 703, 706, 709, 712, 715, 717, 719, 721
];

/// The forms of all groups.
#[rattlefmt::skip]
pub const FORMS: [PackedForm; 218] = forms!(
    1 1 Read 2 0 => 0 0 1 1; 1 2 Read 1 0 => 0 0 4 2; 1 3 Read 20 0 => 0 0 5 3;
    1 4 Read 16 0 => 0 0 6 4; 1 5 Read 4 0 => 0 0 7 5; 1 6 Read 9 0 => 0 0 8 6; 2 1 Read 8 0 => 1 0 9 7,
    2 0 10 7, 3 0 11 7, 4 0 12 7, 5 0 13 7, 6 0 14 7, 7 0 15 8; 2 2 Read 12 3 => 0 0 16 9;
    2 3 Read 4 0 => 0 0 17 10; 2 1 Read 8 0 => 0 0 18 11; 3 10 Read 40 0 => 8 0 19 12, 9 0 19 13,
    10 0 19 14, 11 0 19 15, 12 0 19 16, 13 0 19 17, 14 0 19 18, 15 0 19 19, 16 0 19 20, 17 0 19 21,
    18 0 19 22, 19 0 19 23, 20 0 19 24, 21 0 19 25, 22 0 19 26, 23 0 19 27, 24 0 19 28, 25 0 19 29;
    3 22 Read 20 0 => 26 0 38 30, 27 0 38 31, 28 0 38 32, 29 0 38 33, 30 0 38 34, 31 0 38 35,
    32 0 38 36, 33 0 38 37, 34 0 38 38, 35 0 38 39, 36 0 38 40, 37 0 38 41, 38 0 38 42, 39 0 38 43,
    40 0 38 44, 41 0 38 45, 42 0 38 46, 0 0 38 47; 3 1 Display 4 0 => 0 0 49 48;
    3 1 Read 4 0 => 43 0 50 49, 44 0 51 49, 45 0 52 49, 0 0 53 49; 3 2 Read 4 0 => 0 0 54 50;
    3 3 Read 20 0 => 0 0 55 51; 3 4 Read 12 0 => 0 0 56 52; 3 5 Read 2 0 => 0 0 57 53;
    3 6 Read 4 0 => 0 0 58 5; 3 9 Read 44 0 => 0 0 59 54; 3 10 Read 20 0 => 46 0 60 0, 47 0 61 0,
    48 0 62 0; 3 10 Read 16 0 => 0 0 63 4; 3 11 Read 33 0 => 49 0 64 55, 50 0 64 56;
    3 11 Printed 33 0 => 0 0 64 57; 3 14 Read 15 0 => 0 0 67 58; 3 16 Read 6 0 => 0 0 68 59;
    3 31 Read 17 0 => 51 0 71 60, 0 44 71 61; 3 17 Read 1 0 => 0 0 72 2; 3 18 Read 6 0 => 0 0 73 62;
    3 20 Read 2 0 => 0 0 74 63; 3 21 Read 20 0 => 0 0 75 64; 3 23 Read 12 0 => 0 0 76 65;
    3 19 Read 14 0 => 0 0 77 66; 3 28 Read 0 32 => 0 0 78 67; 3 24 Read 0 0 => 0 0 79 68;
    3 25 Read 2 0 => 0 0 80 53; 3 26 Read 1 0 => 0 0 81 2; 3 27 Read 6 0 => 0 0 82 69;
    3 29 Read 1 0 => 0 0 83 2; 3 30 Read 7 0 => 0 0 84 70; 3 12 Display 15 0 => 0 0 85 71;
    3 12 Read 23 0 => 52 0 85 72, 53 54 85 73, 55 0 85 74, 56 54 85 75, 57 0 85 76, 0 54 85 77;
    3 12 Read 15 0 => 52 0 85 78, 53 54 85 79, 55 0 85 80, 56 54 85 81, 57 0 85 82, 0 54 85 83;
    3 13 Display 39 0 => 0 0 92 84; 3 13 Read 56 0 => 58 0 92 85, 59 0 92 86, 60 61 92 87, 62 0 92 88,
    63 0 92 89, 64 61 92 90, 65 0 92 91, 66 0 92 92, 0 61 92 93; 3 13 Read 39 0 => 58 0 92 94,
    59 0 92 95, 60 61 92 96, 62 0 92 97, 63 0 92 98, 64 61 92 99, 65 0 92 100, 66 0 92 101, 0 61 92 102;
    3 15 Read 7 0 => 67 0 99 103, 68 0 100 103, 69 0 101 103, 70 0 102 103, 71 0 103 103, 72 0 104 103,
    73 0 105 103, 74 0 106 103, 75 0 107 103, 76 0 108 103, 77 0 109 103, 78 0 110 103, 79 0 111 104,
    80 0 112 104, 81 0 113 104, 0 0 114 105; 4 1 Read 38 0 => 82 83 115 106, 84 85 115 107;
    4 1 Printed 38 0 => 0 0 115 108; 4 2 Display 20 0 => 0 0 119 5; 4 2 Read 20 0 => 0 0 119 3;
    4 3 Read 16 0 => 0 0 120 4; 4 5 Read 16 0 => 0 0 121 109; 4 6 Read 16 0 => 0 0 122 109;
    4 7 Read 16 0 => 0 0 123 109; 4 8 Read 20 0 => 0 0 124 110; 4 9 Read 34 0 => 86 0 125 111,
    87 0 126 111, 88 0 127 111, 89 0 128 111, 0 0 129 112; 5 1 Display 4 1 => 90 0 130 113,
    91 0 131 113, 92 0 132 113, 93 0 133 113, 94 0 134 113, 95 0 135 113, 0 0 136 114;
    5 1 Read 4 1 => 90 0 130 115, 91 0 131 115, 92 0 132 115, 93 0 133 115, 94 0 134 115, 95 0 135 115,
    0 0 136 116; 2 2 People 12 0 => 0 0 137 117; 3 10 People 16 0 => 0 96 138 0, 0 97 139 0, 0 98 140 0,
    0 99 141 0, 0 100 142 0; 3 10 People 20 0 => 0 101 143 0, 0 102 144 0, 0 103 145 0;
    3 10 People 40 0 => 0 25 19 118, 0 25 19 119; 3 22 People 20 0 => 0 0 38 120;
    3 1 People 4 0 => 0 0 147 0, 0 0 148 0, 0 45 149 0, 0 44 150 0, 0 43 151 0;
    3 11 People 33 0 => 0 0 64 121, 0 0 64 122, 0 0 64 123, 0 0 64 57; 3 12 People 23 0 => 0 0 85 71,
    0 104 85 124, 0 104 85 125, 0 105 85 126, 0 106 85 127, 0 106 85 128, 0 107 85 129, 0 0 158 0;
    3 13 People 56 0 => 0 108 159 0; 3 21 People 20 0 => 0 0 75 130; 3 13 People 56 0 => 0 108 92 84;
    3 23 People 12 0 => 0 0 76 5; 3 27 People 6 0 => 0 0 82 131, 0 0 82 132;
    3 30 People 7 0 => 0 0 84 133, 0 0 84 134, 0 0 84 135; 3 13 People 56 0 => 0 109 92 136,
    0 110 92 137, 0 108 92 138, 0 109 92 139, 0 111 92 140, 0 112 92 141, 0 110 92 142, 0 113 92 143,
    0 114 92 144, 0 108 92 145, 0 115 92 146, 0 116 92 147; 4 1 People 38 0 => 0 117 115 148;
    4 7 People 16 0 => 0 0 167 109; 3 1 Libefivar 4 0 => 0 0 168 149; 3 23 Libefivar 12 0 => 0 0 169 150
);

/// Where each group begins.
#[rattlefmt::skip]
pub const FORM_STARTS: [u16; 18] = [
    0, 6, 16, 25, 34, 52, 87, 100, 110, 119, 135, 150, 164, 165, 202, 214, 216, 218
];
