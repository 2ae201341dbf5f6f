//! The data after the fields of a node: nothing, bytes, or numbers of two or four bytes.
#![tactic(auto)]

ghost use Rattle.std.specs.Int.{to_le_bytes, w32};
ghost use Rattle.std.specs.List.{flat_map};
ghost use Rattle.std.specs.Prelude.{◌≡◌, ◌+◌, ◌*◌, ◌<◌, ◌^◌, ℕ, List, [], ◌++◌, length, unwrap_or};
ghost use Rattle.uefi_text.specs.UnitBytes.{unit_bytes};
ghost use Rattle.uefi_text.specs.Units.{nul_terminated};
ghost use Rattle.uefi_text.specs.Views.{text_of};

use crate::field_texts::guid::Guid;
use uefi_text::CStr16;
use uefi_text::scan::split;

/// Data that can follow the fields of a node. A contract sees it as `tail_bytes` of it.
pub trait TailBytes: Copy {
    /// The bytes, as contracts see them.
    ghost tail_bytes: { Self → List ℕ };

    /// Returns the number of bytes.
    fn tail_len(self) -> usize
        ensures length { result ≡ length (tail_bytes self) }
        ensures room { result + 65535 < 2 ^ 64 };

    /// Writes the bytes.
    fn write_tail(self, dest: &mut [u8])
        requires { length dest.old ≡ length (tail_bytes self) }
        ensures { dest.new ≡ tail_bytes self };
}

/// No data.
impl TailBytes for () {
    ghost tail_bytes = { λ _. [] };

    fn tail_len(self) -> usize {
        0
    }

    fn write_tail(self, dest: &mut [u8]) {}
}

/// Bytes.
impl TailBytes for &[u8] {
    ghost tail_bytes = { λ bytes. bytes.now };

    fn tail_len(self) -> usize {
        self.len()
    }

    fn write_tail(self, dest: &mut [u8]) {
        dest.copy_from_slice(self);
    }
}

/// Code units, two bytes each, the low byte first.
impl TailBytes for &[u16] {
    ghost tail_bytes = { λ units. unit_bytes units.now };

    fn tail_len(self) -> usize {
        2 * self.len()
    }

    fn write_tail(self, dest: &mut [u8]) {
        split(dest, self);
    }
}

/// The code units of a string, including its NUL.
impl TailBytes for CStr16<'_> {
    ghost tail_bytes = { λ text. unit_bytes (nul_terminated (text_of text)) };

    fn tail_len(self) -> usize {
        2 * self.to_u16_slice_with_nul().len()
    }

    fn write_tail(self, dest: &mut [u8]) {
        split(dest, self.to_u16_slice_with_nul());
    }
}

/// Writes numbers, four bytes each, the low byte first.
fn put_words(bytes: &mut [u8], words: &[u32])
    requires { length bytes.now ≡ 4 * length words.now }
    ensures { bytes.new ≡ flat_map (to_le_bytes w32) words.now }
{
    for i in 0..words.len() {
        bytes[4 * i..4 * i + 4].copy_from_slice(&words[i].to_le_bytes());
    }
}

/// Numbers of four bytes, the low byte first.
impl TailBytes for &[u32] {
    ghost tail_bytes = { λ words. flat_map (to_le_bytes w32) words.now };

    fn tail_len(self) -> usize {
        4 * self.len()
    }

    fn write_tail(self, dest: &mut [u8]) {
        put_words(dest, self);
    }
}

/// A GUID, if there is one, and then bytes.
impl TailBytes for (Option<Guid>, &[u8]) {
    ghost tail_bytes = { λ tail. unwrap_or tail.0 [] ++ tail.1.now };

    fn tail_len(self) -> usize {
        match self.0 {
            Some(guid) => guid.to_bytes().len() + self.1.len(),
            None => self.1.len(),
        }
    }

    fn write_tail(self, dest: &mut [u8]) {
        match self.0 {
            Some(guid) => {
                let guid = guid.to_bytes();
                let (first, rest) = dest.split_at_mut(guid.len());
                first.copy_from_slice(&guid);
                rest.copy_from_slice(self.1);
            }
            None => dest.copy_from_slice(self.1),
        }
    }
}
