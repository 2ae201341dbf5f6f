//! Paths that are built and read, file paths, descriptions and load options, with each memory request refused
//! in turn; and long ones, with ample memory.

use for_tests::{
    END, MemoryCall, Refusals, Refusing, is_answered, out_of_memory, refused_in_turn, repeated,
    requests,
};
use std::alloc::{AllocError, Global};
use std::test::Fail;
use uefi_device_path::{
    BuildError, DevicePath, DevicePathBuf, DeviceSubType, DeviceType, FilePathCause, FilePathError,
    LoadOption, LoadOptionBuilder, OptionBuildError, PathTextError,
};
use uefi_path::Path;
use uefi_text::{CStr16, FromSliceWithNulError};

/// A call that requests memory, and its arguments.
#[derive(Clone, Copy)]
enum Call<'a> {
    /// How many nodes to push to a new path, and the data of each.
    Push(usize, &'a [u8]),
    /// The name of a file.
    PushFile(&'a [u16]),
    /// A device path, and another to append.
    Append(&'a [u8], &'a [u8]),
    /// The arguments of `Append`. The second time, the path is appended to the result, where it may fit into
    /// the room that is left.
    AppendTwice(&'a [u8], &'a [u8]),
    /// A device path.
    FilePath(&'a [u8]),
    /// A device path. The call reads its first instance.
    InstanceFilePath(&'a [u8]),
    FromText(&'a str),
    FromLenientText(&'a str),
    FromLibefivarText(&'a str),
    /// A refused text, and the offset of the error.
    NoText(&'a str, usize),
    NoLenientText(&'a str, usize),
    /// A load option.
    Description(&'a [u8]),
    DescriptionLossy(&'a [u8]),
}

/// Returns whether a path with `count` nodes with these data is built, or memory ran out.
fn builds(heap: &Refusing<Global>, count: usize, data: &[u8]) -> Result<bool, AllocError> {
    let mut path = DevicePathBuf::new(heap)?;
    for _ in 0..count {
        let pushed = path.push(DeviceType::MEDIA, DeviceSubType::MEDIA_FILE_PATH, data);
        if !is_answered(pushed, BuildError::OutOfMemory)? {
            return Ok(false);
        }
    }
    Ok(path.as_device_path().node_iter().count() == count)
}

/// Returns whether a file node is pushed, or memory ran out.
fn names(heap: &Refusing<Global>, name: &[u16]) -> Result<bool, AllocError> {
    let mut path = DevicePathBuf::new(heap)?;
    match CStr16::from_u16_with_nul(name) {
        Ok(name) => is_answered(path.push_file(Path::new(name)), BuildError::OutOfMemory),
        Err(_) => Ok(false),
    }
}

/// Returns whether a path is appended to another, which is unchanged if memory ran out.
fn appends(
    heap: &Refusing<Global>,
    start: &[u8],
    added: &[u8],
    times: usize,
) -> Result<bool, AllocError> {
    let (Ok(start), Ok(added)) = (DevicePath::from_bytes(start), DevicePath::from_bytes(added))
    else {
        return Ok(false);
    };
    let mut path = DevicePathBuf::new(heap)?;
    if !is_answered(path.append(start), BuildError::OutOfMemory)? {
        return Ok(false);
    }
    for _ in 0..times {
        let len = path.as_device_path().as_bytes().len();
        let answer = path.append(added);
        let grown = path.as_device_path().as_bytes().len().saturating_sub(len);
        if answer.is_err() {
            return out_of_memory(answer == Err(BuildError::OutOfMemory) && grown == 0);
        }
        if grown.saturating_add(4) != added.as_bytes().len() {
            return Ok(false);
        }
    }
    Ok(true)
}

/// Returns whether a call returned a file path, or memory ran out.
fn is_named<T: Drop>(answer: Result<T, FilePathError>) -> Result<bool, AllocError> {
    match answer {
        Ok(_) => Ok(true),
        Err(error) => out_of_memory(error.cause == FilePathCause::OutOfMemory),
    }
}

/// Returns whether a path or its first instance has a file path, or memory ran out.
fn has_name(heap: &Refusing<Global>, bytes: &[u8], is_instance: bool) -> Result<bool, AllocError> {
    let Ok(path) = DevicePath::from_bytes(bytes) else {
        return Ok(false);
    };
    if !is_instance {
        return is_named(path.file_path(heap));
    }
    match path.instance_iter().next() {
        Some(instance) => is_named(instance.file_path(heap)),
        None => Ok(false),
    }
}

/// Returns whether the description of a load option is copied as a string or as a text, or memory ran out.
fn describes(heap: &Refusing<Global>, bytes: &[u8], lossy: bool) -> Result<bool, AllocError> {
    let Ok(option) = LoadOption::from_bytes(bytes) else {
        return Ok(false);
    };
    if lossy {
        is_answered(option.description_lossy(heap), AllocError)
    } else {
        is_answered(option.description(heap), FromSliceWithNulError::OutOfMemory)
    }
}

/// Returns whether a text is refused at a node that begins at this byte, even if memory runs out.
fn is_refused_at<T: Drop>(read: Result<T, PathTextError>, place: usize) -> bool {
    match read.err() {
        Some(PathTextError::NoNode(fault)) => fault.node == place,
        Some(PathTextError::OutOfMemory) | None => false,
    }
}

impl MemoryCall for Call<'_> {
    fn answer(&self, heap: &Refusing<Global>) -> Result<bool, AllocError> {
        answers(*self, heap)
    }
}

/// Returns whether a call gives the result of ample memory, or memory ran out.
fn answers(call: Call<'_>, heap: &Refusing<Global>) -> Result<bool, AllocError> {
    match call {
        Call::Push(count, data) => builds(heap, count, data),
        Call::PushFile(name) => names(heap, name),
        Call::Append(start, added) => appends(heap, start, added, 1),
        Call::AppendTwice(start, added) => appends(heap, start, added, 2),
        Call::FilePath(bytes) => has_name(heap, bytes, false),
        Call::InstanceFilePath(bytes) => has_name(heap, bytes, true),
        Call::FromText(text) => is_answered(
            DevicePathBuf::from_text(heap, text),
            PathTextError::OutOfMemory,
        ),
        Call::FromLenientText(text) => is_answered(
            DevicePathBuf::from_lenient_text(heap, text),
            PathTextError::OutOfMemory,
        ),
        Call::FromLibefivarText(text) => is_answered(
            DevicePathBuf::from_libefivar_text(heap, text),
            PathTextError::OutOfMemory,
        ),
        Call::NoText(text, place) => {
            Ok(is_refused_at(DevicePathBuf::from_text(heap, text), place))
        }
        Call::NoLenientText(text, place) => {
            Ok(is_refused_at(DevicePathBuf::from_lenient_text(heap, text), place))
        }
        Call::Description(bytes) => describes(heap, bytes, false),
        Call::DescriptionLossy(bytes) => describes(heap, bytes, true),
    }
}

/// A path with one file node, for the file `a`.
const NAMED: &[u8] = &[4, 4, 8, 0, 0x61, 0, 0, 0, 0x7f, 0xff, 4, 0];

/// A load option with the description `a`.
const OPTION: &[u8] = &[1, 0, 0, 0, 4, 0, 0x61, 0, 0, 0, 0x7f, 0xff, 4, 0];

/// Each call, and how many requests it makes.
const ROWS: &[(Call<'static>, u64)] = &[
    (Call::Push(0, &[]), 1),
    (Call::Push(1, &[7; 10]), 2),
    (Call::Push(1, &[7; 5000]), 2),
    (Call::PushFile(&[0x61, 0]), 2),
    (Call::PushFile(&[0]), 2),
    (Call::FilePath(NAMED), 1),
    (Call::InstanceFilePath(NAMED), 1),
    (Call::FromText(""), 1),
    (Call::FromText("PciRoot(0x0)/Pci(0x1F,0x2)"), 1),
    (Call::FromText("USB(0x1,0x0),,\\a"), 1),
    // The path of ten commas is more than four times as long.
    (Call::FromText(",,,,,,,,,,"), 2),
    (Call::FromLenientText(""), 1),
    (Call::FromLenientText("pciroot(0)/pci(31,2)/File(a)"), 1),
    (
        Call::FromLibefivarText("NVMe(0x1,00-25-38-5B-71-B0-03-1C)/File(a)"),
        1,
    ),
    (Call::FromLenientText("sas(1)"), 2),
    (
        Call::FromLenientText("sas(1)/sas(1)/sas(1)/sas(1)/sas(1)"),
        3,
    ),
    (Call::FromLibefivarText("USB(1,0),,,,,,,,,,,,,,"), 2),
    (Call::Description(OPTION), 1),
    // One request for the units, and one for a text of as many bytes.
    (Call::DescriptionLossy(OPTION), 2),
];

/// Calls that refuse a text, and how many requests each makes. The fault of the text comes first, whatever
/// memory there is.
const FAULTS: &[(Call<'static>, u64)] = &[
    (Call::NoText("Pci", 0), 1),
    (Call::NoText("PciRoot(0x0)/Pci(0x1F,0x2)/", 27), 1),
    (Call::NoText("\\a/Path(3,99,0F", 3), 1),
    (Call::NoText(",,,,,,,,,,/", 10), 2),
    (Call::NoLenientText("pciroot(0)/pci(31,2)/", 21), 1),
    (Call::NoLenientText("file(a)/Uri(\u{e9})", 8), 1),
    (
        Call::NoLenientText("sas(1)/sas(1)/sas(1)/sas(1)/sas(1)/", 35),
        3,
    ),
];

#[test]
fn faults_of_texts(rt: HostRuntime) -> Result<(), Fail> {
    for (row, (call, want)) in FAULTS.iter().enumerate() {
        let refusals = refused_in_turn(rt.alloc(), 0, call)?;
        let answered = Refusals {
            failed: 0,
            answered: *want,
        };
        assert_eq!(rt; refusals, answered, "{row}");
    }
    Ok(())
}

#[test]
fn requests_of_each_call(rt: HostRuntime) -> Result<(), Fail> {
    for (row, (call, want)) in ROWS.iter().enumerate() {
        let count = requests(rt.alloc(), 0, call)?;
        assert_eq!(rt; count, *want, "{row}");
    }
    Ok(())
}

/// Returns the units of a text and a NUL, two bytes each.
fn unit_bytes(alloc: Global, text: &str) -> Result<Vec<u8>, AllocError> {
    let mut bytes = Vec::new(alloc);
    for unit in text.encode_utf16() {
        bytes.extend_from_slice(&unit.to_le_bytes())?;
    }
    bytes.extend_from_slice(&[0, 0])?;
    Ok(bytes)
}

/// How many nodes name files, how many characters follow the first text in each name, that text, and the
/// number of requests: one for the path's text, and one for the positions of separators.
const FILE_PATHS: &[(u64, u64, &str, u64)] = &[
    (1, 0, "", 1),
    (1, 0, "\\", 2),
    (1, 7, "", 1),
    (1, 8, "\\", 2),
    (1, 300, "", 1),
    (1, 1000, "\\", 2),
    (2, 1, "", 2),
    (3, 300, "\\", 2),
    (60, 30, "\\", 2),
    (400, 4, "", 2),
    (2, 16_000, "\\", 2),
    (1, 32_764, "", 1),
    (4, 25_000, "\\", 2),
];

#[test]
fn file_paths_of_each_size(rt: HostRuntime) -> Result<(), Fail> {
    for (nodes, characters, front, wanted) in FILE_PATHS {
        let name = repeated(rt.alloc(), "é", *characters)?;
        let data = unit_bytes(rt.alloc(), &format!(in rt.alloc(); "{front}{name}")?)?;
        let mut path = DevicePathBuf::new(rt.alloc())?;
        for _ in 0..*nodes {
            path.push(DeviceType::MEDIA, DeviceSubType::MEDIA_FILE_PATH, &data)?;
        }
        let bytes = path.as_device_path().as_bytes();
        for call in [Call::FilePath(bytes), Call::InstanceFilePath(bytes)] {
            let count = requests(rt.alloc(), 0, &call)?;
            assert_eq!(rt; count, *wanted, "{nodes} {characters} {front}");
        }
    }
    Ok(())
}

/// Whether a text is in the printed form, its beginning, a piece, how often the piece is repeated, and its
/// end.
const TEXTS: &[(bool, &str, &str, u64, &str)] = &[
    (true, "Pci(0x0,0x0)", "/Pci(0x1F,0x7)", 400, ""),
    (true, "Path(3,99,", "0F", 1, ")"),
    (true, "Path(3,99,", "0F", 300, ")"),
    (true, "Path(3,99,", "0F", 2000, ")"),
    (true, "Path(3,99,", "0F", 65_531, ")"),
    (true, "\\", "a", 300, ""),
    (true, "\\", "é", 1000, ""),
    (true, "\\", "中", 1, ""),
    (true, "\\", "中", 300, ""),
    (true, "\\", "a", 32_763, ""),
    (true, "\\", "😀", 200, ""),
    (true, "USB(0x1,0x0)", ",USB(0x1,0x0)", 100, "/\\a"),
    (true, "AcpiAdr(0x1", ",0xFFFFFFFF", 16_381, ")"),
    (false, "pci(0,0)", "/pci(31,7)", 3, ""),
    (false, "path(3,99,", "0f", 300, ")"),
    (false, "file(", "é", 300, ")"),
    (false, "a\\", "中", 300, ""),
    (false, "usb(1,0)", ",usb(1)", 2, "/\\a"),
    (false, "pci(0,0)", "/pci(31,7)", 300, ""),
    (false, "pci(0,0)", "/pci(31,7)", 10_000, ""),
    (false, "path(3,99,", "0f", 65_531, ")"),
    (false, "file(", "中", 32_763, ")"),
];

/// Reading one of these texts makes one request, because no path is more than about twice as long as its
/// text.
#[test]
fn texts_of_each_size(rt: HostRuntime) -> Result<(), Fail> {
    for (is_printed, front, piece, count, back) in TEXTS {
        let pieces = repeated(rt.alloc(), piece, *count)?;
        let text = format!(in rt.alloc(); "{front}{pieces}{back}")?;
        let call = if *is_printed {
            Call::FromText(&text)
        } else {
            Call::FromLenientText(&text)
        };
        let made = requests(rt.alloc(), 0, &call)?;
        assert_eq!(rt; made, 1, "{piece}");
    }
    Ok(())
}

/// How often a character is repeated in a description, and how many bytes of optional data follow the path.
const DESCRIPTIONS: &[(u64, usize)] = &[
    (0, 0),
    (1, 136),
    (300, 0),
    (300, 136),
    (1000, 5000),
    (100_000, 0),
    (1, 100_000),
];

/// Returns whether reading the description as a string makes one request, unless it contains a surrogate
/// pair, and reading it as a nonempty text makes at least two.
fn is_counted(rt: &HostRuntime, text: &str, optional: &[u8]) -> Result<bool, Fail> {
    let mut option = Vec::from_slice(rt.alloc(), &[1, 0, 0, 0, 4, 0])?;
    option.extend_from_slice(&unit_bytes(rt.alloc(), text)?)?;
    option.extend_from_slice(END)?;
    option.extend_from_slice(optional)?;
    let shown = requests(rt.alloc(), 0, &Call::DescriptionLossy(&option))?;
    let is_string = text.contains('😀')
        || requests(rt.alloc(), 0, &Call::Description(&option))? == 1;
    Ok(is_string && (text.is_empty() || 2 <= shown))
}

/// Characters of one unit and one or two bytes, of one unit and three bytes, and of two units.
#[test]
fn descriptions_of_each_size(rt: HostRuntime) -> Result<(), Fail> {
    for (count, optional) in DESCRIPTIONS {
        let data = vec![in rt.alloc(); 7u8; *optional]?;
        for character in ["a", "é", "中", "😀"] {
            let text = repeated(rt.alloc(), character, *count)?;
            assert!(rt; is_counted(&rt, &text, &data)?, "{count} {character}");
        }
    }
    Ok(())
}

/// The fields of a load option to write.
#[derive(Clone, Copy)]
struct Written<'a>(LoadOptionBuilder<'a>);

impl MemoryCall for Written<'_> {
    fn answer(&self, heap: &Refusing<Global>) -> Result<bool, AllocError> {
        is_answered(self.0.to_vec(heap), OptionBuildError::OutOfMemory)
    }
}

/// Returns whether writing an option with a description, paths and optional data of these sizes makes one
/// request.
fn is_written(rt: &HostRuntime, len: usize, paths: usize, optional: usize) -> Result<bool, Fail> {
    let description = vec![in rt.alloc(); 0xe9u16; len]?;
    let data = vec![in rt.alloc(); 7u8; optional]?;
    let list = vec![in rt.alloc(); DevicePath::from_bytes(NAMED)?; paths]?;
    let written = Written(LoadOptionBuilder::new(1, &description, &list, &data));
    Ok(requests(rt.alloc(), 0, &written)? == 1)
}

#[test]
fn options_of_each_size(rt: HostRuntime) -> Result<(), Fail> {
    for (len, paths, optional) in [
        (0, 1, 0),
        (1, 2, 136),
        (300, 400, 0),
        (1000, 5461, 5000),
        (100_000, 1, 0),
        (0, 1, 100_000),
    ] {
        let is_right = is_written(&rt, len, paths, optional)?;
        assert!(rt; is_right, "{len} {paths} {optional}");
    }
    Ok(())
}

/// How many six-byte nodes two paths have, how many requests it takes to create the first path and append the
/// second, and how many to append the second twice.
const APPENDED: &[(usize, usize, u64, u64)] = &[
    (0, 0, 1, 1),
    (0, 1, 2, 3),
    (1, 0, 2, 2),
    (1, 1, 3, 4),
    (10, 1, 3, 3),
    (10, 20, 3, 4),
    (1, 300, 3, 4),
    (17_000, 1, 3, 3),
    (1, 17_000, 3, 4),
    (17_000, 17_000, 3, 4),
];

#[test]
fn appended_paths(rt: HostRuntime) -> Result<(), Fail> {
    for (first, second, once, twice) in APPENDED {
        let (mut start, mut added) = (Vec::new(rt.alloc()), Vec::new(rt.alloc()));
        for _ in 0..*first {
            start.extend_from_slice(&[1, 1, 6, 0, 0, 0x1f])?;
        }
        for _ in 0..*second {
            added.extend_from_slice(&[1, 1, 6, 0, 7, 0])?;
        }
        start.extend_from_slice(END)?;
        added.extend_from_slice(END)?;
        let found = (
            requests(rt.alloc(), 0, &Call::Append(&start, &added))?,
            requests(rt.alloc(), 0, &Call::AppendTwice(&start, &added))?,
        );
        assert!(rt; found == (*once, *twice), "{first}, {second}: {found:?}");
    }
    Ok(())
}

/// How often a character is repeated in a name.
const NAMES: [u64; 6] = [0, 1, 300, 1000, 5000, 32_764];

/// A file node makes one request, after the request for the empty path.
#[test]
fn names_of_each_size(rt: HostRuntime) -> Result<(), Fail> {
    for count in NAMES {
        let mut name = vec![in rt.alloc(); 0xe9u16; count as usize]?;
        name.push(0)?;
        let asked = requests(rt.alloc(), 0, &Call::PushFile(&name))?;
        assert_eq!(rt; asked, 2, "{count}");
    }
    Ok(())
}

#[test]
fn long_inputs(rt: HostRuntime) -> Result<(), Fail> {
    let heap = Refusing::new(rt.alloc(), 0);
    let is_pushed = answers(Call::Push(50_000, &[1, 2]), &heap)?;
    let mut bytes = Vec::from_slice(rt.alloc(), &[4, 4, 0x66, 0xea])?;
    bytes.extend_from_slice(vec![in rt.alloc(); 0x61u8; 60_000]?.as_slice())?;
    bytes.extend_from_slice(&[0, 0, 0x7f, 0xff, 4, 0])?;
    let is_named = answers(Call::FilePath(&bytes), &heap)?;
    let mut option = Vec::from_slice(rt.alloc(), &[1, 0, 0, 0, 4, 0])?;
    option.extend_from_slice(vec![in rt.alloc(); 0x61u8; 200_000]?.as_slice())?;
    option.extend_from_slice(&[0, 0, 0x7f, 0xff, 4, 0])?;
    let is_described = answers(Call::Description(&option), &heap)?
        && answers(Call::DescriptionLossy(&option), &heap)?;
    assert!(rt;
        is_pushed && is_named && is_described,
        "{is_pushed} {is_named} {is_described}"
    );
    Ok(())
}
