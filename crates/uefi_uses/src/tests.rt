use crate::entries::{line_of_entry, path_of_file, starts_by_itself};
use crate::fat_names::takes_place_of;
use crate::loaders::is_offered;
use crate::names::name_len;
use crate::paths::{EntryError, entry_path};
use crate::stored::is_entry;
use std::alloc::Global;
use std::fmt::Display;
use std::test::Fail;
use uefi_boot_variables::{LoadOptionKind, LoadOptionName, NotTwoBytes, OddLength, OrderFull};
use uefi_device_path::build::media::HardDrive;
use uefi_device_path::{LoadOptionCause, LoadOptionError};
use uefi_fat::FatNameError;
use uefi_path::{Path, PathError};
use uefi_text::{BufferTooSmall, CString16, Char16, FromSliceWithNulError, FromStrError};
use upath::JudgeError;

#[test]
fn entries(rt: HostRuntime) -> Result<(), Fail> {
    let entry = entry_path(rt.alloc(), "/efi/boot", "menu.efi");
    let Ok(path) = entry else {
        return Err(std::alloc::AllocError.into());
    };
    assert_eq!(rt;
        path.to_string(rt.alloc())?.as_str(),
        "\\efi\\boot\\menu.efi"
    );
    let refused = entry_path(rt.alloc(), "/efi/boot", "menu?");
    assert!(rt;
        matches!(
            refused.err(),
            Some(EntryError::Path(PathError::IllegalChar(_)))
        )
    );
    Ok(())
}

/// Folders and files that are refused: one is not a text, or the path of both is not valid.
#[test]
fn refused_entries(rt: HostRuntime) {
    for (folder, file, want) in [
        ("a\0", "b", EntryError::Text(FromStrError::InteriorNul)),
        ("a\0", "😀", EntryError::Text(FromStrError::InteriorNul)),
        ("a", "😀", EntryError::Text(FromStrError::InvalidChar)),
        ("a?", "b\0", EntryError::Text(FromStrError::InteriorNul)),
        ("", "", EntryError::Path(PathError::Empty)),
        ("a/", "/b", EntryError::Path(PathError::EmptyComponent)),
        ("a", "../..", EntryError::Path(PathError::ClimbsAboveRoot)),
    ] {
        let entry = entry_path(rt.alloc(), folder, file);
        assert!(rt; entry.err() == Some(want), "{folder:?}, {file:?}");
    }
}

#[test]
fn printed_refusals(rt: HostRuntime) -> Result<(), Fail> {
    let refusal = EntryError::Path(PathError::Empty);
    let printed = format!(in rt.alloc(); "{refusal:?} {:?}", EntryError::OutOfMemory)?;
    assert!(rt; printed.as_str() == "Path(Empty) OutOfMemory");
    Ok(())
}

#[test]
fn stored_entries(rt: HostRuntime) -> Result<(), Fail> {
    let text = CString16::try_from_str(rt.alloc(), "a")?;
    let entry = Path::new(text.as_cstr16());
    // `/a` and its NUL, two bytes for each unit.
    assert_eq!(rt; is_entry(rt.alloc(), b"/\0a\0\0\0", entry), Ok(true));
    assert_eq!(rt; is_entry(rt.alloc(), b"b\0\0\0", entry), Ok(false));
    assert_eq!(rt;
        is_entry(rt.alloc(), b"b", entry),
        Err(JudgeError::HalfUnit)
    );
    Ok(())
}

#[test]
fn names(rt: HostRuntime) {
    assert_eq!(rt; name_len(&[0x48, 0x69, 0]), Ok(2));
    assert_eq!(rt;
        name_len(&[0x48, 0xd800, 0]),
        Err(FromSliceWithNulError::InvalidChar(1))
    );
}

/// Returns whether the menu `\EFI\menu\Menu.efi` offers a file.
fn offers(rt: &HostRuntime, file: &str) -> Result<bool, Fail> {
    let pattern = CString16::try_from_str(rt.alloc(), "\\EFI\\*\\*.efi")?;
    let menu = CString16::try_from_str(rt.alloc(), "\\EFI\\menu\\Menu.efi")?;
    let file = CString16::try_from_str(rt.alloc(), file)?;
    let (file, pattern) = (Path::new(file.as_cstr16()), Path::new(pattern.as_cstr16()));
    Ok(is_offered(file, pattern, Path::new(menu.as_cstr16())))
}

#[test]
fn loaders(rt: HostRuntime) -> Result<(), Fail> {
    assert!(rt; offers(&rt, "\\efi\\Debian\\SHIMX64.EFI")?);
    assert!(rt; !offers(&rt, "\\EFI\\MENU\\menu.EFI")?);
    assert!(rt; !offers(&rt, "\\EFI\\shimx64.efi")?);
    Ok(())
}

/// An active entry with one device path.
const DISK: &[u8] =
    b"\x01\0\0\0\x20\0d\0i\0s\0k\0\0\0\x02\x01\x0c\0\xd0\x41\x03\x0a\0\0\0\0\x01\x01\x06\0\x02\x1f\
    \x03\x12\x0a\0\0\0\xff\xff\0\0\x7f\xff\x04\0";

#[test]
fn boot_entries(rt: HostRuntime) -> Result<(), Fail> {
    assert_eq!(rt; starts_by_itself(DISK), Ok(true));
    assert_eq!(rt;
        line_of_entry(rt.alloc(), DISK)?.as_str(),
        "disk, PciRoot(0x0)/Pci(0x1F,0x2)/Sata(0x0,0xFFFF,0x0)"
    );
    let cut = DISK.get(..47).unwrap_or(&[]);
    let refused = LoadOptionError {
        cause: LoadOptionCause::ListBeyondEnd,
        offset: 4,
    };
    assert_eq!(rt; starts_by_itself(cut), Err(refused));
    Ok(())
}

#[test]
fn paths_of_files(rt: HostRuntime) -> Result<(), Fail> {
    let partition = HardDrive {
        partition_number: 1,
        partition_start: 2048,
        partition_size: 0x10_0000,
        partition_signature: [0, 1, 2, 3, 4, 5, 6, 7, 8, 9, 10, 11, 12, 13, 14, 15],
        partition_format: 2,
        signature_type: 2,
    };
    let name = CString16::try_from_str(rt.alloc(), "\\a.efi")?;
    let path = path_of_file(rt.alloc(), &partition, Path::new(name.as_cstr16()))?;
    let text = format!(in rt.alloc(); "{}", path.as_device_path())?;
    assert_eq!(rt;
        text.as_str(),
        "HD(1,GPT,03020100-0504-0706-0809-0A0B0C0D0E0F,0x800,0x100000)/\\a.efi"
    );
    Ok(())
}

#[test]
fn names_of_one_file(rt: HostRuntime) -> Result<(), Fail> {
    let new = CString16::try_from_str(rt.alloc(), "Boot.")?;
    let present = CString16::try_from_str(rt.alloc(), "BOOT")?;
    assert!(rt; takes_place_of(new.as_cstr16().as_slice(), present.as_cstr16().as_slice()));
    Ok(())
}

/// Returns whether an error prints this sentence.
fn says<T: Display>(alloc: Global, error: &T, sentence: &str) -> bool {
    matches!(error.to_string(alloc), Ok(text) if text.as_str() == sentence)
}

#[test]
fn errors_of_names_and_orders(rt: HostRuntime) -> Result<(), Fail> {
    let (alloc, star) = (rt.alloc(), Char16::try_from('*')?);
    let illegal = "name contains an illegal character (value 42)";
    assert!(rt;
        says(
            alloc,
            &FatNameError::Empty,
            "name contains only spaces and dots"
        )
    );
    assert!(rt;
        says(
            alloc,
            &FatNameError::TooLong,
            "name is longer than 255 characters"
        )
    );
    assert!(rt; says(alloc, &FatNameError::IllegalChar(star), illegal));
    assert!(rt; says(alloc, &OddLength, "boot order has an odd number of bytes"));
    assert!(rt; says(alloc, &NotTwoBytes(3), "expected 2 bytes, found 3"));
    assert!(rt; says(alloc, &OrderFull, "boot order is full"));
    Ok(())
}

/// The name of a variable is written if it fits. A buffer that is too small is refused and unchanged.
#[test]
fn names_in_buffers(rt: HostRuntime) {
    let name = LoadOptionName {
        kind: LoadOptionKind::Boot,
        number: 0x12ab,
    };
    for len in 0..12 {
        let mut room = [9; 12];
        let refused = name
            .to_cstr16(room.get_mut(..len).unwrap_or_default())
            .err();
        let (want, left) = match len {
            0..9 => (Some(BufferTooSmall(9)), [9; 12]),
            _ => (
                None,
                [0x42, 0x6f, 0x6f, 0x74, 0x31, 0x32, 0x41, 0x42, 0, 9, 9, 9],
            ),
        };
        assert!(rt; refused == want && room == left, "{len}");
    }
}
