//! The packed table, which is compiled. tools/pack-table makes this file from the table that people write, in
//! `table.rt` and `words.rt`. Definitions cite the written table, and `group`, `item_of` and `words_of` prove
//! that the packed one means the same.
//!
//! Texts, fields, bytes, rows and words are one constant each. Part `n` of a constant begins at number `n` of
//! its starts, and ends where part `n + 1` begins.

use crate::node_table::parts::{Bytes, Pieces, Text};
use crate::node_table::rows::{
    Item, ItemOf, Items, Mode, Piece, PieceOf, Row, RowOf, Shape, Spare, Tail,
};
use crate::node_table::words::{Word, WordOf, Words};

/// Fields: the shape of one field or more and their bytes if they are omitted, and for each of them the
/// place, the width, and the number of the text that stands after it.
macro_rules! pieces {
    ($($shape:ident $spare:ident:
        $($(($words:ident))? $place:literal $width:literal $ending:literal),+);+) => {
        [$($(PieceOf {
            shape: Shape::$shape $((Words::$words))?,
            place: $place,
            width: $width,
            ending: Text { number: $ending },
            spare: Spare::$spare,
        }),+),+]
    };
}

/// Lists of bytes: the 16 bytes of a GUID at the places from 0 on, if the list begins with them, and then
/// each place and its byte.
macro_rules! bytes {
    ($($([$b0:literal $b1:literal $b2:literal $b3:literal $b4:literal $b5:literal $b6:literal
        $b7:literal $b8:literal $b9:literal $b10:literal $b11:literal $b12:literal $b13:literal
        $b14:literal $b15:literal])? $($place:literal $byte:literal),*);+) => {
        [$($((0, $b0), (1, $b1), (2, $b2), (3, $b3), (4, $b4), (5, $b5), (6, $b6), (7, $b7), (8, $b8),
            (9, $b9), (10, $b10), (11, $b11), (12, $b12), (13, $b13), (14, $b14), (15, $b15),)?
            $(($place, $byte),)*)+]
    };
}

/// An item: the size, and the numbers of its text and its fields.
macro_rules! item {
    ($size:literal $start:literal $pieces:literal) => {
        ItemOf {
            size: $size,
            start: Text { number: $start },
            pieces: Pieces { number: $pieces },
        }
    };
}

/// Rows: what one row or more of a kind share, which is the type, the sub-type, the mode, the least length
/// and what follows it, the numbers of the close and the rest, and the tail; and for each of them the
/// numbers of the other parts, in the order of [`RowOf`].
macro_rules! rows {
    ($($kind:literal $sub_kind:literal $mode:ident $least:literal $more:literal $close:literal
        $rest:literal $tail:expr => $($when:literal $also:literal $start:literal $pieces:literal),+);+) => {
        [$($(RowOf {
            kind: $kind,
            sub_kind: $sub_kind,
            mode: Mode::$mode,
            least: $least,
            more: $more,
            when: Bytes { number: $when },
            also: Bytes { number: $also },
            start: Text { number: $start },
            pieces: Pieces { number: $pieces },
            tail: $tail,
            close: Text { number: $close },
            rest: Pieces { number: $rest },
        }),+),+]
    };
}

/// Words: the bits that count, what they are, and the number of the text.
macro_rules! words {
    ($($mask:literal $number:literal $text:literal),*) => {
        [$(WordOf { mask: $mask, number: $number, text: Text { number: $text } }),*]
    };
}

/// The texts.
#[rattlefmt::skip]
pub const TEXTS: [u8; 2285] = *b"\
    ,0x,.:Pci(0x)PcCard(0xMemoryMapped(0xVenHw(-Ctrl(0xBMC(0xPciRoot(0xPcieRoot(0xFloppy(0xKeyboard(0x\
    Serial(0xParallelPort(0xAcpi(PNPAcpiEx(AcpiAdr(0xAcpi(0xSAS(0x,NoTopology,0,0,0,0x,SAS,Internal,Di\
    rect,0,0x,SATA,Internal,Direct,0,0x,SAS,External,Direct,0,0x,SATA,External,Direct,0,0x,SAS,Interna\
    l,Expanded,0,0x,SATA,Internal,Expanded,0,0x,SAS,External,Expanded,0,0x,SATA,External,Expanded,0,0x\
    ,SAS,Internal,Direct,0x,SATA,Internal,Direct,0x,SAS,External,Direct,0x,SATA,External,Direct,0x,SAS\
    ,Internal,Expanded,0x,SATA,Internal,Expanded,0x,SAS,External,Expanded,0x,SATA,External,Expanded,0x\
    ,0,0,0,0xSasEx(0x,NoTopology,0,0,0),SAS,Internal,Direct,0),SATA,Internal,Direct,0),SAS,External,Di\
    rect,0),SATA,External,Direct,0),SAS,Internal,Expanded,0),SATA,Internal,Expanded,0),SAS,External,Ex\
    panded,0),SATA,External,Expanded,0),0,0,0)Ata(0xAta(Secondary,Slave,0xAta(Secondary,Master,0xAta(P\
    rimary,Slave,0xAta(Primary,Master,0xScsi(0xFibre(0xI1394(USB(0xI2O(0xInfiniband(0xUartFlowCtrl(Non\
    e)UartFlowCtrl(Hardware)UartFlowCtrl(XonXoff)VenMsg(MAC(,0x0),0x1)Uart(UsbWwid(0x,\"\")Dns(Unit(0xSa\
    ta(0xVlan(FibreEx(0xNVMe(0xiSCSI(Wi-Fi(Uri(UFS(0xSD(0xBluetooth(eMMC(0xBluetoothLE(IPv4(,TCP,DHCP,\
    ,TCP,Static,,UDP,DHCP,,UDP,Static,,DHCP,,Static,IPv6(,TCP,StatelessAutoConfigure,,TCP,StatefulAuto\
    Configure,,UDP,StatelessAutoConfigure,,UDP,StatefulAutoConfigure,,StatelessAutoConfigure,,Stateful\
    AutoConfigure,UsbAudio(0xUsbCDCControl(0xUsbHID(0xUsbImage(0xUsbPrinter(0xUsbMassStorage(0xUsbHub(\
    0xUsbCDCData(0xUsbSmartCard(0xUsbVideo(0xUsbDiagnostic(0xUsbWireless(0xUsbDeviceFirmwareUpdate(0xU\
    sbIrdaBridge(0xUsbTestAndMeasurement(0xUsbClass(0xHD(,MBR,0x,GPT,,0,0xCDROM(0xVenMedia(Media(FvFil\
    e(Fv(Offset(0xVirtualDisk(0xVirtualCD(0xPersistentVirtualDisk(0xPersistentVirtualCD(0xRamDisk(0xBB\
    S(Floppy,BBS(HD,BBS(CDROM,BBS(PCMCIA,BBS(USB,BBS(Network,BBS(0xAcpiExp(VenPcAnsi()VenVt100()VenVt1\
    00Plus()VenUtf8()DebugPort()UartFlowControl(None)UartFlowControl(Hardware)UartFlowControl(XonXoff)\
    ,NoTopology)Ata(0x0)Ata(Primary,Master)Ata(Primary,Slave)Ata(Secondary,Master)Ata(Secondary,Slave)\
    ,TCP),TCP,DHCP),TCP,Static),UDP),UDP,DHCP),UDP,Static)IPv4(0.0.0.00.0.0.0,0,0)IPv6([::]:<->[::]:,0\
    ,0)FvVol(ATA(NVME(0xD,N,E,O,M,S,x,D)1)1.5)2)x)CRC32C,CRC32C,CRC32C,None,None,CRC32C,None,None,None\
    ,CHAP_UNI,CHAP_BI,TCP)reserved)";

/// Where each text begins.
#[rattlefmt::skip]
pub const TEXT_STARTS: [u16; 189] = [
    0, 0, 3, 4, 5, 6, 12, 13, 22, 37, 43, 44, 51, 57, 67, 78, 87, 98, 107, 122, 130, 137, 147, 154, 160,
    180, 205, 231, 256, 282, 309, 337, 364, 392, 415, 439, 462, 486, 511, 537, 562, 588, 597, 605, 623,
    646, 670, 693, 717, 742, 768, 793, 819, 826, 832, 854, 877, 897, 918, 925, 933, 939, 945, 951, 964,
    982, 1004, 1025, 1032, 1036, 1041, 1046, 1051, 1061, 1063, 1065, 1069, 1076, 1083, 1088, 1098, 1105,
    1111, 1117, 1121, 1127, 1132, 1142, 1149, 1161, 1166, 1176, 1188, 1198, 1210, 1216, 1224, 1229,
    1257, 1284, 1312, 1339, 1363, 1386, 1397, 1413, 1422, 1433, 1446, 1463, 1472, 1485, 1500, 1511,
    1527, 1541, 1567, 1583, 1607, 1618, 1621, 1628, 1633, 1638, 1646, 1655, 1661, 1668, 1671, 1680,
    1694, 1706, 1730, 1752, 1762, 1773, 1780, 1790, 1801, 1809, 1821, 1827, 1835, 1846, 1856, 1870,
    1879, 1890, 1911, 1936, 1960, 1972, 1980, 1999, 2017, 2038, 2058, 2063, 2073, 2085, 2090, 2100,
    2112, 2136, 2159, 2165, 2169, 2176, 2178, 2180, 2182, 2184, 2186, 2188, 2190, 2192, 2194, 2198,
    2200, 2202, 2216, 2228, 2240, 2250, 2255, 2264, 2272, 2276, 2285
];

/// The fields.
#[rattlefmt::skip]
pub const PIECES: [Piece; 909] = pieces!(
    Hexadecimal Zeros: 0 4 0; Decimal Zeros: 0 1 3, 1 1 3, 2 1 3, 3 1 0; Forth Zeros: 0 2 4, 2 2 4,
    4 2 4, 6 2 4, 8 2 4, 10 2 4, 12 2 4, 14 2 0; Hexadecimal Zeros: 1 1 1, 0 1 6, 0 1 6, 0 4 1, 4 8 1,
    12 8 6; Back Zeros: 0 4 10, 4 2 10, 6 2 10; Forth Zeros: 8 2 10, 10 6 0; Hexadecimal Zeros: 0 4 6,
    0 1 1, 1 8 6, 4 4 6; Back Zeros: 2 2 1; Hexadecimal Zeros: 4 4 6; Eisa Zeros: 0 4 2, 8 4 1;
    Hexadecimal Zeros: 4 4 2; Back Zeros: 0 4 1; Hexadecimal Zeros: 4 4 6, 20 8 1, 28 8 1, 38 2 24,
    16 4 6, 20 8 1, 28 8 1, 38 2 25, 16 4 6, 20 8 1, 28 8 1, 38 2 26, 16 4 6, 20 8 1, 28 8 1, 38 2 27,
    16 4 6, 20 8 1, 28 8 1, 38 2 28, 16 4 6, 20 8 1, 28 8 1, 38 2 29, 16 4 6, 20 8 1, 28 8 1, 38 2 30,
    16 4 6, 20 8 1, 28 8 1, 38 2 31, 16 4 6, 20 8 1, 28 8 1, 38 2 32, 16 4 6, 20 8 1, 28 8 1, 38 2 33;
    Next Zeros: 37 1 1; Hexadecimal Zeros: 16 4 6, 20 8 1, 28 8 1, 38 2 34; Next Zeros: 37 1 1;
    Hexadecimal Zeros: 16 4 6, 20 8 1, 28 8 1, 38 2 35; Next Zeros: 37 1 1; Hexadecimal Zeros: 16 4 6,
    20 8 1, 28 8 1, 38 2 36; Next Zeros: 37 1 1; Hexadecimal Zeros: 16 4 6, 20 8 1, 28 8 1, 38 2 37;
    Next Zeros: 37 1 1; Hexadecimal Zeros: 16 4 6, 20 8 1, 28 8 1, 38 2 38; Next Zeros: 37 1 1;
    Hexadecimal Zeros: 16 4 6, 20 8 1, 28 8 1, 38 2 39; Next Zeros: 37 1 1; Hexadecimal Zeros: 16 4 6,
    20 8 1, 28 8 1, 38 2 40; Next Zeros: 37 1 1; Hexadecimal Zeros: 16 4 6, 20 8 1, 28 8 1, 38 2 1,
    36 2 41, 16 4 6; Forth Zeros: 0 8 1, 8 8 1; Hexadecimal Zeros: 18 2 43; Forth Zeros: 0 8 1, 8 8 1;
    Hexadecimal Zeros: 18 2 44; Forth Zeros: 0 8 1, 8 8 1; Hexadecimal Zeros: 18 2 45;
    Forth Zeros: 0 8 1, 8 8 1; Hexadecimal Zeros: 18 2 46; Forth Zeros: 0 8 1, 8 8 1;
    Hexadecimal Zeros: 18 2 47; Forth Zeros: 0 8 1, 8 8 1; Hexadecimal Zeros: 18 2 48;
    Forth Zeros: 0 8 1, 8 8 1; Hexadecimal Zeros: 18 2 49; Forth Zeros: 0 8 1, 8 8 1;
    Hexadecimal Zeros: 18 2 50; Forth Zeros: 0 8 1, 8 8 1; Hexadecimal Zeros: 18 2 51;
    Forth Zeros: 0 8 1, 8 8 1; Hexadecimal Zeros: 18 2 33; Next Zeros: 17 1 6; Forth Zeros: 0 8 1,
    8 8 1; Hexadecimal Zeros: 18 2 34; Next Zeros: 17 1 6; Forth Zeros: 0 8 1, 8 8 1;
    Hexadecimal Zeros: 18 2 35; Next Zeros: 17 1 6; Forth Zeros: 0 8 1, 8 8 1;
    Hexadecimal Zeros: 18 2 36; Next Zeros: 17 1 6; Forth Zeros: 0 8 1, 8 8 1;
    Hexadecimal Zeros: 18 2 37; Next Zeros: 17 1 6; Forth Zeros: 0 8 1, 8 8 1;
    Hexadecimal Zeros: 18 2 38; Next Zeros: 17 1 6; Forth Zeros: 0 8 1, 8 8 1;
    Hexadecimal Zeros: 18 2 39; Next Zeros: 17 1 6; Forth Zeros: 0 8 1, 8 8 1;
    Hexadecimal Zeros: 18 2 40; Next Zeros: 17 1 6; Forth Zeros: 0 8 1, 8 8 1;
    Hexadecimal Zeros: 18 2 1, 16 2 52, 2 2 6, 0 2 1, 2 2 6, 4 8 1, 12 8 6; Back Zeros: 4 8 6;
    Hexadecimal Zeros: 0 1 1, 1 1 6, 0 4 2; Back Zeros: 4 4 10, 8 2 10, 10 2 10; Forth Zeros: 12 2 10,
    14 6 1; Hexadecimal Zeros: 20 8 1, 28 8 1, 36 8 6; Forth Zeros: 0 6 69, 0 6 70, 0 32 1;
    Hexadecimal Zeros: 32 1 6; OrDefault Zeros: 4 8 2, 12 1 2; Word Zeros: (Parity) 13 1 0,
    (StopBits) 14 1 0; Hexadecimal Zeros: 2 2 1, 4 2 1, 0 2 73; Decimal Zeros: 1 1 3, 2 1 3, 3 1 3,
    4 1 0; Forth Zeros: 1 2 4, 3 2 4, 5 2 4, 7 2 4, 9 2 4, 11 2 4, 13 2 4, 15 2 0;
    Hexadecimal Zeros: 0 2 1; Hexadecimal Ones: 2 2 1; Hexadecimal Zeros: 4 2 6; Decimal Zeros: 0 2 6;
    Forth Zeros: 4 8 1, 12 8 6; Hexadecimal Zeros: 0 4 2; Dashed Zeros: 4 8 6;
    Hexadecimal Zeros: 12 2 1; Forth Zeros: 4 8 2; Word Zeros: (Digests) 2 1 0, (Login) 3 1 0,
    (Protocol) 0 2 0; Forth Zeros: 0 6 6, 0 6 1, 6 1 6; Decimal Zeros: 4 1 3, 5 1 3, 6 1 3, 7 1 6,
    4 1 3, 5 1 3, 6 1 3, 7 1 90, 0 1 3, 1 1 3, 2 1 3, 3 1 2, 15 1 3, 16 1 3, 17 1 3, 18 1 2, 19 1 3,
    20 1 3, 21 1 3, 22 1 6, 4 1 3, 5 1 3, 6 1 3, 7 1 91, 0 1 3, 1 1 3, 2 1 3, 3 1 2, 15 1 3, 16 1 3,
    17 1 3, 18 1 2, 19 1 3, 20 1 3, 21 1 3, 22 1 6, 4 1 3, 5 1 3, 6 1 3, 7 1 92, 0 1 3, 1 1 3, 2 1 3,
    3 1 2, 15 1 3, 16 1 3, 17 1 3, 18 1 2, 19 1 3, 20 1 3, 21 1 3, 22 1 6, 4 1 3, 5 1 3, 6 1 3, 7 1 93,
    0 1 3, 1 1 3, 2 1 3, 3 1 2, 15 1 3, 16 1 3, 17 1 3, 18 1 2, 19 1 3, 20 1 3, 21 1 3, 22 1 6, 4 1 3,
    5 1 3, 6 1 3, 7 1 1; Hexadecimal Zeros: 12 2 94; Decimal Zeros: 0 1 3, 1 1 3, 2 1 3, 3 1 2, 15 1 3,
    16 1 3, 17 1 3, 18 1 2, 19 1 3, 20 1 3, 21 1 3, 22 1 6, 4 1 3, 5 1 3, 6 1 3, 7 1 1;
    Hexadecimal Zeros: 12 2 95; Decimal Zeros: 0 1 3, 1 1 3, 2 1 3, 3 1 2, 15 1 3, 16 1 3, 17 1 3,
    18 1 2, 19 1 3, 20 1 3, 21 1 3, 22 1 6, 4 1 3, 5 1 3, 6 1 3, 7 1 90, 0 1 3, 1 1 3, 2 1 3, 3 1 6,
    4 1 3, 5 1 3, 6 1 3, 7 1 91, 0 1 3, 1 1 3, 2 1 3, 3 1 6, 4 1 3, 5 1 3, 6 1 3, 7 1 92, 0 1 3, 1 1 3,
    2 1 3, 3 1 6, 4 1 3, 5 1 3, 6 1 3, 7 1 93, 0 1 3, 1 1 3, 2 1 3, 3 1 6, 4 1 3, 5 1 3, 6 1 3, 7 1 1;
    Hexadecimal Zeros: 12 2 94; Decimal Zeros: 0 1 3, 1 1 3, 2 1 3, 3 1 6, 4 1 3, 5 1 3, 6 1 3, 7 1 1;
    Hexadecimal Zeros: 12 2 95; Decimal Zeros: 0 1 3, 1 1 3, 2 1 3, 3 1 6; Forth Zeros: 16 2 4, 18 2 4,
    20 2 4, 22 2 4, 24 2 4, 26 2 4, 28 2 4, 30 2 6, 16 2 4, 18 2 4, 20 2 4, 22 2 4, 24 2 4, 26 2 4,
    28 2 4, 30 2 91, 0 2 4, 2 2 4, 4 2 4, 6 2 4, 8 2 4, 10 2 4, 12 2 4, 14 2 1;
    Hexadecimal Zeros: 39 1 2; Forth Zeros: 40 2 4, 42 2 4, 44 2 4, 46 2 4, 48 2 4, 50 2 4, 52 2 4,
    54 2 6, 16 2 4, 18 2 4, 20 2 4, 22 2 4, 24 2 4, 26 2 4, 28 2 4, 30 2 97, 0 2 4, 2 2 4, 4 2 4, 6 2 4,
    8 2 4, 10 2 4, 12 2 4, 14 2 1; Hexadecimal Zeros: 39 1 2; Forth Zeros: 40 2 4, 42 2 4, 44 2 4,
    46 2 4, 48 2 4, 50 2 4, 52 2 4, 54 2 6, 16 2 4, 18 2 4, 20 2 4, 22 2 4, 24 2 4, 26 2 4, 28 2 4,
    30 2 98, 0 2 4, 2 2 4, 4 2 4, 6 2 4, 8 2 4, 10 2 4, 12 2 4, 14 2 1; Hexadecimal Zeros: 39 1 2;
    Forth Zeros: 40 2 4, 42 2 4, 44 2 4, 46 2 4, 48 2 4, 50 2 4, 52 2 4, 54 2 6, 16 2 4, 18 2 4, 20 2 4,
    22 2 4, 24 2 4, 26 2 4, 28 2 4, 30 2 93, 0 2 4, 2 2 4, 4 2 4, 6 2 4, 8 2 4, 10 2 4, 12 2 4, 14 2 1;
    Hexadecimal Zeros: 39 1 2; Forth Zeros: 40 2 4, 42 2 4, 44 2 4, 46 2 4, 48 2 4, 50 2 4, 52 2 4,
    54 2 6, 16 2 4, 18 2 4, 20 2 4, 22 2 4, 24 2 4, 26 2 4, 28 2 4, 30 2 99, 0 2 4, 2 2 4, 4 2 4, 6 2 4,
    8 2 4, 10 2 4, 12 2 4, 14 2 1; Hexadecimal Zeros: 39 1 2; Forth Zeros: 40 2 4, 42 2 4, 44 2 4,
    46 2 4, 48 2 4, 50 2 4, 52 2 4, 54 2 6, 16 2 4, 18 2 4, 20 2 4, 22 2 4, 24 2 4, 26 2 4, 28 2 4,
    30 2 100, 0 2 4, 2 2 4, 4 2 4, 6 2 4, 8 2 4, 10 2 4, 12 2 4, 14 2 1; Hexadecimal Zeros: 39 1 2;
    Forth Zeros: 40 2 4, 42 2 4, 44 2 4, 46 2 4, 48 2 4, 50 2 4, 52 2 4, 54 2 6, 16 2 4, 18 2 4, 20 2 4,
    22 2 4, 24 2 4, 26 2 4, 28 2 4, 30 2 1; Hexadecimal Zeros: 36 2 95; Forth Zeros: 0 2 4, 2 2 4,
    4 2 4, 6 2 4, 8 2 4, 10 2 4, 12 2 4, 14 2 1; Hexadecimal Zeros: 39 1 2; Forth Zeros: 40 2 4, 42 2 4,
    44 2 4, 46 2 4, 48 2 4, 50 2 4, 52 2 4, 54 2 6, 16 2 4, 18 2 4, 20 2 4, 22 2 4, 24 2 4, 26 2 4,
    28 2 4, 30 2 1; Hexadecimal Zeros: 36 2 101; Forth Zeros: 0 2 4, 2 2 4, 4 2 4, 6 2 4, 8 2 4, 10 2 4,
    12 2 4, 14 2 1; Hexadecimal Zeros: 39 1 2; Forth Zeros: 40 2 4, 42 2 4, 44 2 4, 46 2 4, 48 2 4,
    50 2 4, 52 2 4, 54 2 6, 16 2 4, 18 2 4, 20 2 4, 22 2 4, 24 2 4, 26 2 4, 28 2 4, 30 2 1;
    Hexadecimal Zeros: 36 2 102; Forth Zeros: 0 2 4, 2 2 4, 4 2 4, 6 2 4, 8 2 4, 10 2 4, 12 2 4, 14 2 1;
    Hexadecimal Zeros: 39 1 2; Forth Zeros: 40 2 4, 42 2 4, 44 2 4, 46 2 4, 48 2 4, 50 2 4, 52 2 4,
    54 2 6, 16 2 4, 18 2 4, 20 2 4, 22 2 4, 24 2 4, 26 2 4, 28 2 4, 30 2 91, 0 2 4, 2 2 4, 4 2 4, 6 2 4,
    8 2 4, 10 2 4, 12 2 4, 14 2 6, 16 2 4, 18 2 4, 20 2 4, 22 2 4, 24 2 4, 26 2 4, 28 2 4, 30 2 97,
    0 2 4, 2 2 4, 4 2 4, 6 2 4, 8 2 4, 10 2 4, 12 2 4, 14 2 6, 16 2 4, 18 2 4, 20 2 4, 22 2 4, 24 2 4,
    26 2 4, 28 2 4, 30 2 98, 0 2 4, 2 2 4, 4 2 4, 6 2 4, 8 2 4, 10 2 4, 12 2 4, 14 2 6, 16 2 4, 18 2 4,
    20 2 4, 22 2 4, 24 2 4, 26 2 4, 28 2 4, 30 2 93, 0 2 4, 2 2 4, 4 2 4, 6 2 4, 8 2 4, 10 2 4, 12 2 4,
    14 2 6, 16 2 4, 18 2 4, 20 2 4, 22 2 4, 24 2 4, 26 2 4, 28 2 4, 30 2 99, 0 2 4, 2 2 4, 4 2 4, 6 2 4,
    8 2 4, 10 2 4, 12 2 4, 14 2 6, 16 2 4, 18 2 4, 20 2 4, 22 2 4, 24 2 4, 26 2 4, 28 2 4, 30 2 100,
    0 2 4, 2 2 4, 4 2 4, 6 2 4, 8 2 4, 10 2 4, 12 2 4, 14 2 6, 16 2 4, 18 2 4, 20 2 4, 22 2 4, 24 2 4,
    26 2 4, 28 2 4, 30 2 1; Hexadecimal Zeros: 36 2 95; Forth Zeros: 0 2 4, 2 2 4, 4 2 4, 6 2 4, 8 2 4,
    10 2 4, 12 2 4, 14 2 6, 16 2 4, 18 2 4, 20 2 4, 22 2 4, 24 2 4, 26 2 4, 28 2 4, 30 2 1;
    Hexadecimal Zeros: 36 2 101; Forth Zeros: 0 2 4, 2 2 4, 4 2 4, 6 2 4, 8 2 4, 10 2 4, 12 2 4, 14 2 6,
    16 2 4, 18 2 4, 20 2 4, 22 2 4, 24 2 4, 26 2 4, 28 2 4, 30 2 1; Hexadecimal Zeros: 36 2 102;
    Forth Zeros: 0 2 4, 2 2 4, 4 2 4, 6 2 4, 8 2 4, 10 2 4, 12 2 4, 14 2 6; Hexadecimal Ones: 0 2 1,
    2 2 1, 5 1 1, 6 1 6, 0 2 1, 2 2 1, 6 1 6, 0 2 1, 2 2 1, 4 1 1, 5 1 1, 6 1 6; Decimal Zeros: 0 4 120;
    Back Zeros: 20 4 1; Hexadecimal Zeros: 4 8 1, 12 8 6; Decimal Zeros: 0 4 121; Back Zeros: 20 4 10,
    24 2 10, 26 2 10; Forth Zeros: 28 2 10, 30 6 1; Hexadecimal Zeros: 4 8 1, 12 8 6;
    Decimal Zeros: 0 4 2, 37 1 122; Hexadecimal Zeros: 4 8 1, 12 8 6; Back Zeros: 0 4 10, 4 2 10,
    6 2 10; Forth Zeros: 8 2 10, 10 6 6; Hexadecimal Zeros: 0 8 1, 8 8 2; Decimal Zeros: 32 2 6;
    Hexadecimal Zeros: 0 8 1, 8 8 2; Decimal Zeros: 32 2 2; Back Zeros: 16 4 10, 20 2 10, 22 2 10;
    Forth Zeros: 24 2 10, 26 6 6; Hexadecimal Zeros: 0 2 2; Eisa Zeros: 0 4 2, 8 4 2;
    Hexadecimal Zeros: 20 8 1, 28 8 1, 38 2 6, 20 8 1, 28 8 1, 38 2 150; Forth Zeros: 0 8 6, 0 6 1;
    Hexadecimal Zeros: 32 1 6; Forth Zeros: 0 1 4, 1 1 4, 2 1 4, 3 1 4, 4 1 4, 5 1 1;
    Hexadecimal Zeros: 32 1 6; Forth Zeros: 0 1 10, 1 1 10, 2 1 10, 3 1 10, 4 1 10, 5 1 1;
    Hexadecimal Zeros: 32 1 6; Decimal Zeros: 4 1 3, 5 1 3, 6 1 3, 7 1 156, 4 1 3, 5 1 3, 6 1 3,
    7 1 157, 4 1 3, 5 1 3, 6 1 3, 7 1 158, 4 1 3, 5 1 3, 6 1 3, 7 1 159, 4 1 3, 5 1 3, 6 1 3, 7 1 160,
    4 1 3, 5 1 3, 6 1 3, 7 1 161; Forth Zeros: 4 8 69, 0 1 4, 1 1 4, 2 1 4, 3 1 4, 4 1 4, 5 1 6, 0 1 10,
    1 1 10, 2 1 10, 3 1 10, 4 1 10, 5 1 6, 0 6 1; Hexadecimal Zeros: 6 1 6; Forth Zeros: 0 1 10, 1 1 10,
    2 1 10, 3 1 10, 4 1 10, 5 1 1; Hexadecimal Zeros: 6 1 6; Forth Zeros: 0 1 4, 1 1 4, 2 1 4, 3 1 4,
    4 1 4, 5 1 1; Hexadecimal Zeros: 6 1 6; Decimal Zeros: 0 4 120; Hexadecimal Zeros: 20 4 1, 4 8 1,
    12 8 6; Decimal Zeros: 0 1 2, 1 1 2, 2 2 6; Hexadecimal Zeros: 0 4 2; Forth Zeros: 4 1 10, 5 1 10,
    6 1 10, 7 1 10, 8 1 10, 9 1 10, 10 1 10, 11 1 6
);

/// Where each list of fields begins.
#[rattlefmt::skip]
pub const PIECE_STARTS: [u16; 135] = [
    0, 0, 1, 5, 13, 15, 16, 19, 24, 25, 27, 28, 30, 33, 35, 39, 43, 47, 51, 55, 59, 63, 67, 71, 76, 81,
    86, 91, 96, 101, 106, 111, 116, 119, 122, 125, 128, 131, 134, 137, 140, 143, 147, 151, 155, 159,
    163, 167, 171, 175, 179, 180, 182, 184, 185, 187, 196, 197, 198, 200, 204, 207, 211, 219, 222, 223,
    225, 227, 232, 233, 235, 239, 255, 271, 287, 303, 320, 337, 345, 353, 361, 369, 378, 387, 395, 420,
    445, 470, 495, 520, 545, 571, 597, 623, 639, 655, 671, 687, 703, 719, 736, 753, 770, 774, 777, 782,
    786, 794, 798, 803, 806, 814, 815, 817, 820, 823, 824, 826, 833, 840, 844, 848, 852, 856, 860, 864,
    865, 871, 877, 879, 886, 893, 897, 900, 909
];

/// The places and the bytes.
#[rattlefmt::skip]
pub const BYTES: [(u8, u8); 701] = bytes!(
    0 208, 1 65, 2 3, 3 10; 0 208, 1 65, 2 8, 3 10; 0 208, 1 65, 2 4, 3 6; 0 208, 1 65, 2 1, 3 3; 0 208,
    1 65, 2 1, 3 5; 0 208, 1 65, 2 1, 3 4; 0 208, 1 65; [180 221 135 212 139 0 217 17 175 220 0 16 131
    255 202 77] 36 0, 37 0; [180 221 135 212 139 0 217 17 175 220 0 16 131 255 202 77] 36 1, 37 0; [180
    221 135 212 139 0 217 17 175 220 0 16 131 255 202 77] 36 17, 37 0; [180 221 135 212 139 0 217 17 175
    220 0 16 131 255 202 77] 36 33, 37 0; [180 221 135 212 139 0 217 17 175 220 0 16 131 255 202 77]
    36 49, 37 0; [180 221 135 212 139 0 217 17 175 220 0 16 131 255 202 77] 36 65, 37 0; [180 221 135
    212 139 0 217 17 175 220 0 16 131 255 202 77] 36 81, 37 0; [180 221 135 212 139 0 217 17 175 220 0
    16 131 255 202 77] 36 97, 37 0; [180 221 135 212 139 0 217 17 175 220 0 16 131 255 202 77] 36 113,
    37 0; [180 221 135 212 139 0 217 17 175 220 0 16 131 255 202 77] 36 2; [180 221 135 212 139 0 217 17
    175 220 0 16 131 255 202 77] 36 18; [180 221 135 212 139 0 217 17 175 220 0 16 131 255 202 77]
    36 34; [180 221 135 212 139 0 217 17 175 220 0 16 131 255 202 77] 36 50; [180 221 135 212 139 0 217
    17 175 220 0 16 131 255 202 77] 36 66; [180 221 135 212 139 0 217 17 175 220 0 16 131 255 202 77]
    36 82; [180 221 135 212 139 0 217 17 175 220 0 16 131 255 202 77] 36 98; [180 221 135 212 139 0 217
    17 175 220 0 16 131 255 202 77] 36 114; [180 221 135 212 139 0 217 17 175 220 0 16 131 255 202 77];
    16 0, 17 0; 16 1, 17 0; 16 17, 17 0; 16 33, 17 0; 16 49, 17 0; 16 65, 17 0; 16 81, 17 0; 16 97,
    17 0; 16 113, 17 0; 16 2; 16 18; 16 34; 16 50; 16 66; 16 82; 16 98; 16 114; 0 1, 1 1; 0 1; 1 1; [157
    154 73 55 47 84 137 76 160 38 53 218 20 32 148 228] 16 0, 17 0, 18 0, 19 0; [157 154 73 55 47 84 137
    76 160 38 53 218 20 32 148 228] 16 1, 17 0, 18 0, 19 0; [157 154 73 55 47 84 137 76 160 38 53 218 20
    32 148 228] 16 2, 17 0, 18 0, 19 0; 32 0; 32 1; 0 0; 12 6, 13 0, 14 0; 12 6, 13 0; 14 1; 12 17,
    13 0, 14 0; 12 17, 13 0; 14 0; 36 6, 37 0, 38 0; 36 6, 37 0, 38 1; 36 6, 37 0; 38 2; 36 17, 37 0,
    38 0; 36 17, 37 0, 38 1; 36 17, 37 0; 38 0; 38 1; 4 1; 4 2; 4 3; 4 6; 4 7; 4 8; 4 9; 4 10; 4 11;
    4 14; 4 220; 4 224; 4 254, 5 1; 4 254, 5 2; 4 254, 5 3; 37 1; 36 1; 37 2; 36 2; 16 90, 17 83,
    18 171, 19 119, 20 252, 21 69, 22 75, 23 98, 24 85, 25 96, 26 247, 27 178, 28 129, 29 209, 30 249,
    31 110; 16 48, 17 189, 18 90, 19 61, 20 117, 21 65, 22 206, 23 135, 24 109, 25 100, 26 210, 27 173,
    28 229, 29 35, 30 196, 31 187; 16 201, 17 2, 18 234, 19 92, 20 7, 21 77, 22 211, 23 105, 24 38,
    25 159, 26 68, 27 150, 28 251, 29 224, 30 150, 31 249; 16 136, 17 129, 18 1, 19 8, 20 205, 21 66,
    22 72, 23 187, 24 16, 25 15, 26 83, 27 135, 28 213, 29 61, 30 237, 31 61; 0 1, 1 0; 0 2, 1 0; 0 3,
    1 0; 0 4, 1 0; 0 5, 1 0; 0 6, 1 0; [83 71 193 224 190 249 210 17 154 12 0 144 39 63 193 77]; [101 96
    166 223 25 180 211 17 154 45 0 144 39 63 193 77]; [11 199 174 123 224 87 118 76 142 135 47 158 40 8
    131 67]; [214 160 21 173 236 139 207 74 160 115 208 29 231 126 45 136]; [210 232 164 235 88 56 236
    65 162 129 38 71 186 150 96 208]; [157 154 73 55 47 84 137 76 160 38 53 218 20 32 148 228]; [157 154
    73 55 47 84 137 76 160 38 53 218 20 32 148 228] 16 1; [157 154 73 55 47 84 137 76 160 38 53 218 20
    32 148 228] 16 2; 12 6; 12 6, 14 1; 12 17; 12 17, 14 1; 39 64; 36 1, 37 1
);

/// Where each list of bytes begins.
#[rattlefmt::skip]
pub const BYTE_STARTS: [u16; 111] = [
    0, 0, 4, 8, 12, 16, 20, 24, 26, 44, 62, 80, 98, 116, 134, 152, 170, 188, 205, 222, 239, 256, 273,
    290, 307, 324, 340, 342, 344, 346, 348, 350, 352, 354, 356, 358, 359, 360, 361, 362, 363, 364, 365,
    366, 368, 369, 370, 390, 410, 430, 431, 432, 433, 436, 438, 439, 442, 444, 445, 448, 451, 453, 454,
    457, 460, 462, 463, 464, 465, 466, 467, 468, 469, 470, 471, 472, 473, 474, 475, 476, 478, 480, 482,
    483, 484, 485, 486, 502, 518, 534, 550, 552, 554, 556, 558, 560, 562, 578, 594, 610, 626, 642, 658,
    675, 692, 693, 695, 696, 698, 699, 701
];

/// The rows of all groups.
#[rattlefmt::skip]
pub const ROWS: [Row; 206] = rows!(
    1 1 Read 2 0 0 0 Tail::Nothing => 0 0 5 4; 1 2 Read 1 0 0 0 Tail::Nothing => 0 0 7 5;
    1 3 Read 20 0 0 0 Tail::Nothing => 0 0 8 6; 1 4 Read 16 0 6 0 Tail::Bytes => 0 0 9 7;
    1 5 Read 4 0 0 0 Tail::Nothing => 0 0 11 8; 1 6 Read 9 0 0 0 Tail::Nothing => 0 0 12 9;
    2 1 Read 8 0 0 0 Tail::Nothing => 1 0 13 10, 2 0 14 10, 3 0 15 10, 4 0 16 10, 5 0 17 10, 6 0 18 10,
    7 0 19 11; 2 2 Read 12 3 6 0 Tail::Ids => 0 0 20 12;
    2 3 Read 4 0 6 0 Tail::Repeated(Items::Numbers) => 0 0 21 1;
    2 1 Read 8 0 0 0 Tail::Nothing => 0 0 22 13; 3 10 Read 40 0 0 0 Tail::Nothing => 8 0 23 14,
    9 0 23 15, 10 0 23 16, 11 0 23 17, 12 0 23 18, 13 0 23 19, 14 0 23 20, 15 0 23 21, 16 0 23 22,
    17 0 23 23, 18 0 23 24, 19 0 23 25, 20 0 23 26, 21 0 23 27, 22 0 23 28, 23 0 23 29, 24 0 23 30,
    25 0 23 31; 3 22 Read 20 0 0 0 Tail::Nothing => 26 0 42 32, 27 0 42 33, 28 0 42 34, 29 0 42 35,
    30 0 42 36, 31 0 42 37, 32 0 42 38, 33 0 42 39, 34 0 42 40, 35 0 42 41, 36 0 42 42, 37 0 42 43,
    38 0 42 44, 39 0 42 45, 40 0 42 46, 41 0 42 47, 42 0 42 48, 0 0 42 49;
    3 1 Display 4 0 0 0 Tail::Nothing => 0 0 53 50; 3 1 Read 4 0 0 0 Tail::Nothing => 43 0 54 50,
    44 0 55 50, 45 0 56 50, 0 0 57 50; 3 2 Read 4 0 0 0 Tail::Nothing => 0 0 58 51;
    3 3 Read 20 0 0 0 Tail::Nothing => 0 0 59 52; 3 4 Read 12 0 0 0 Tail::Nothing => 0 0 60 53;
    3 5 Read 2 0 0 0 Tail::Nothing => 0 0 61 54; 3 6 Read 4 0 0 0 Tail::Nothing => 0 0 62 8;
    3 9 Read 44 0 0 0 Tail::Nothing => 0 0 63 55; 3 10 Read 20 0 0 0 Tail::Nothing => 46 0 64 0,
    47 0 65 0, 48 0 66 0; 3 10 Read 16 0 6 0 Tail::Bytes => 0 0 67 7;
    3 11 Read 33 0 0 0 Tail::Nothing => 49 0 68 56, 50 0 68 57;
    3 11 Printed 33 0 0 0 Tail::Nothing => 0 0 68 58; 3 14 Read 15 0 0 0 Tail::Nothing => 0 0 71 59;
    3 16 Read 6 0 74 0 Tail::Utf16 => 0 0 72 60;
    3 31 Read 17 0 6 0 Tail::Repeated(Items::Ipv4) => 51 0 75 61;
    3 31 Read 17 0 6 0 Tail::Repeated(Items::Ipv6) => 0 44 75 62;
    3 17 Read 1 0 0 0 Tail::Nothing => 0 0 76 5; 3 18 Read 6 0 0 0 Tail::Nothing => 0 0 77 63;
    3 20 Read 2 0 0 0 Tail::Nothing => 0 0 78 64; 3 21 Read 20 0 0 0 Tail::Nothing => 0 0 79 65;
    3 23 Read 12 0 0 0 Tail::Nothing => 0 0 80 66; 3 19 Read 14 0 1 67 Tail::Name => 0 0 81 0;
    3 28 Read 0 32 6 0 Tail::Padded => 0 0 82 0; 3 24 Read 0 0 6 0 Tail::Text => 0 0 83 0;
    3 25 Read 2 0 0 0 Tail::Nothing => 0 0 84 54; 3 26 Read 1 0 0 0 Tail::Nothing => 0 0 85 5;
    3 27 Read 6 0 0 0 Tail::Nothing => 0 0 86 68; 3 29 Read 1 0 0 0 Tail::Nothing => 0 0 87 5;
    3 30 Read 7 0 0 0 Tail::Nothing => 0 0 88 69; 3 12 Display 15 0 0 0 Tail::Nothing => 0 0 89 70;
    3 12 Read 23 0 0 0 Tail::Nothing => 52 0 89 71, 53 54 89 72, 55 0 89 73, 56 54 89 74, 57 0 89 75,
    0 54 89 76; 3 12 Read 15 0 0 0 Tail::Nothing => 52 0 89 77, 53 54 89 78, 55 0 89 79, 56 54 89 80,
    57 0 89 81, 0 54 89 82; 3 13 Display 39 0 0 0 Tail::Nothing => 0 0 96 83;
    3 13 Read 56 0 0 0 Tail::Nothing => 58 0 96 84, 59 0 96 85, 60 61 96 86, 62 0 96 87, 63 0 96 88,
    64 61 96 89, 65 0 96 90, 66 0 96 91, 0 61 96 92; 3 13 Read 39 0 0 0 Tail::Nothing => 58 0 96 93,
    59 0 96 94, 60 61 96 95, 62 0 96 96, 63 0 96 97, 64 61 96 98, 65 0 96 99, 66 0 96 100, 0 61 96 101;
    3 15 Read 7 0 0 0 Tail::Nothing => 67 0 103 102, 68 0 104 102, 69 0 105 102, 70 0 106 102,
    71 0 107 102, 72 0 108 102, 73 0 109 102, 74 0 110 102, 75 0 111 102, 76 0 112 102, 77 0 113 102,
    78 0 114 102, 79 0 115 103, 80 0 116 103, 81 0 117 103, 0 0 118 104;
    4 1 Read 38 0 0 0 Tail::Nothing => 82 83 119 105, 84 85 119 106;
    4 1 Printed 38 0 0 0 Tail::Nothing => 0 0 119 107; 4 2 Display 20 0 0 0 Tail::Nothing => 0 0 123 8;
    4 2 Read 20 0 0 0 Tail::Nothing => 0 0 123 6; 4 3 Read 16 0 6 0 Tail::Bytes => 0 0 124 7;
    4 5 Read 16 0 0 0 Tail::Nothing => 0 0 125 108; 4 6 Read 16 0 0 0 Tail::Nothing => 0 0 126 108;
    4 7 Read 16 0 0 0 Tail::Nothing => 0 0 127 108; 4 8 Read 20 0 0 0 Tail::Nothing => 0 0 128 52;
    4 9 Read 34 0 0 0 Tail::Nothing => 86 0 129 109, 87 0 130 109, 88 0 131 109, 89 0 132 109,
    0 0 133 110; 5 1 Display 4 1 6 0 Tail::Name => 90 0 134 0, 91 0 135 0, 92 0 136 0, 93 0 137 0,
    94 0 138 0, 95 0 139 0, 0 0 140 111; 5 1 Read 4 1 1 50 Tail::Name => 90 0 134 0, 91 0 135 0,
    92 0 136 0, 93 0 137 0, 94 0 138 0, 95 0 139 0, 0 0 140 111;
    2 2 People 12 0 6 0 Tail::Ids => 0 0 141 112; 3 10 People 16 0 0 0 Tail::Nothing => 0 96 142 0,
    0 97 143 0, 0 98 144 0, 0 99 145 0, 0 100 146 0; 3 10 People 20 0 0 0 Tail::Nothing => 0 101 147 0,
    0 102 148 0, 0 103 149 0; 3 10 People 40 0 0 0 Tail::Nothing => 0 25 23 113, 0 25 23 114;
    3 22 People 20 0 0 0 Tail::Nothing => 0 0 42 115; 3 1 People 4 0 0 0 Tail::Nothing => 0 0 151 0,
    0 0 152 0, 0 45 153 0, 0 44 154 0, 0 43 155 0; 3 11 People 33 0 0 0 Tail::Nothing => 0 0 68 116,
    0 0 68 117, 0 0 68 118, 0 0 68 58; 3 12 People 23 0 0 0 Tail::Nothing => 0 0 89 70, 0 104 89 119,
    0 104 89 120, 0 105 89 121, 0 106 89 122, 0 106 89 123, 0 107 89 124, 0 0 162 0;
    3 13 People 56 0 0 0 Tail::Nothing => 0 108 163 0; 3 21 People 20 0 0 0 Tail::Nothing => 0 0 79 125;
    3 13 People 56 0 0 0 Tail::Nothing => 0 108 96 83; 3 23 People 12 0 0 0 Tail::Nothing => 0 0 80 8;
    3 27 People 6 0 0 0 Tail::Nothing => 0 0 86 126, 0 0 86 127;
    3 30 People 7 0 0 0 Tail::Nothing => 0 0 88 128, 0 0 88 129, 0 0 88 130;
    4 1 People 38 0 0 0 Tail::Nothing => 0 109 119 131;
    4 7 People 16 0 0 0 Tail::Nothing => 0 0 164 108;
    3 1 Libefivar 4 0 0 0 Tail::Nothing => 0 0 165 132;
    3 23 Libefivar 12 0 0 0 Tail::Nothing => 0 0 166 133
);

/// Where each group begins.
#[rattlefmt::skip]
pub const ROW_STARTS: [u16; 17] = [
    0, 6, 16, 25, 34, 52, 87, 100, 110, 119, 135, 150, 164, 165, 202, 204, 206
];

/// The first letters of the texts in each group, with a bit for each letter: the bit of a byte is the number
/// of its low six bits.
#[rattlefmt::skip]
pub const FIRST_LETTERS: [u64; 16] = [
    0x41200c, 0x90842, 0x80000, 0x80000, 0x80000, 0x22000e86256, 0x200, 0x200, 0x200, 0x200000,
    0x45a148, 0x4, 0x2, 0x686256, 0x140, 0x4002
];

/// The words of all lists.
#[rattlefmt::skip]
pub const WORDS: [Word; 21] = words!(
    255 0 167, 255 1 168, 255 2 169, 255 3 170, 255 4 171, 255 5 172, 0 255 173, 255 0 174, 255 1 175,
    255 2 176, 255 3 177, 0 255 178, 10 10 179, 10 2 180, 10 8 181, 0 0 182, 8 8 183, 16 16 184,
    0 0 185, 65535 0 186, 0 1 187
);

/// Where each list of words begins.
#[rattlefmt::skip]
pub const WORD_STARTS: [u16; 6] = [
    0, 7, 12, 16, 19, 21
];

/// `NUMBERS`, packed.
pub const NUMBERS_ITEM: Item = item!(4 1 1);

/// `IPV4_ADDRESSES`, packed.
pub const IPV4_ADDRESSES_ITEM: Item = item!(16 2 2);

/// `IPV6_ADDRESSES`, packed.
pub const IPV6_ADDRESSES_ITEM: Item = item!(16 2 3);
