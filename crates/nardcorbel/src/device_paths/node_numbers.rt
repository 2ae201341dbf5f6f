//! Numbers in the data of nodes that C holds.
ghost use Rattle.std.specs.Prelude.{◌≡◌, ◌≢◌, ◌↔◌, ◌/◌, ◌%◌, length};
ghost use Rattle.uefi_device_path.specs.TypedNodes.{number_at};
ghost use Rattle.nardcorbel.specs.NodeNumbers.{IsNumberIn};

use crate::reasons::{NO_FIELD, OK};
use uefi_text::Packed;

/// Reads a number from the data of a node, the low byte first. `field` is the offset of the number in the
/// data times 256, plus its number of bytes, which is 1, 2, 4 or 8.
///
/// Returns `OK`, or `NO_FIELD` if the data ends before the number does or its size is another one;
/// `number` is then unchanged. Does not allocate (UEFI Specification 2.10, section 10.3.1).
#[unsafe(no_mangle)]
pub extern "C" fn nard_node_number(content: &[u8], field: u32, number: &mut u64) -> u32
    ensures reason { (result ≡ OK) ↔ IsNumberIn (length content.now) (field / 256) (field % 256) }
    ensures refusal { result ≢ OK → result ≡ NO_FIELD }
    ensures number { result ≡ OK → number.new ≡ number_at (field / 256) (field % 256) content.now }
    ensures unchanged { result ≢ OK → number.new ≡ number.old }
{
    let place = (field / 256) as usize;
    let width = (field % 256) as usize;
    if content.len() < width || content.len() - width < place {
        return NO_FIELD;
    }
    let bytes = &content[place..place + width];
    *number = match width {
        1 => u64::from(u8::read_le(bytes)),
        2 => u64::from(u16::read_le(bytes)),
        4 => u64::from(u32::read_le(bytes)),
        8 => u64::read_le(bytes),
        _ => return NO_FIELD,
    };
    OK
}
