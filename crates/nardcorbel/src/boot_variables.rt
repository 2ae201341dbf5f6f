//! Names of load options, and orders of load options, in units that C holds (UEFI Specification
//! 2.10, section 3.3).
ghost use Rattle.std.specs.Prelude.{◌≡◌, ◌≢◌, ℕ, ◌↔◌, ◌%◌, ◌<◌, ◌≤◌, ◌^◌, false, length, slice_get, take, Err, Some};
ghost use Rattle.std.specs.Str.{IsUtf8};
ghost use Rattle.uefi_boot_variables.specs.declared.variable_names.LoadOptionKind.{LoadOptionKind};
ghost use Rattle.uefi_boot_variables.specs.declared.variable_names.LoadOptionName.{LoadOptionName};
ghost use Rattle.uefi_boot_variables.specs.Names.{name_text};
ghost use Rattle.uefi_boot_variables.specs.Orders.{over, stands_in, with_at, with_front, without};
ghost use Rattle.uefi_text.specs.UnitBytes.{units_of_bytes};
ghost use Rattle.uefi_text.specs.Units.{BeginsWithString};
ghost use Rattle.nardcorbel.specs.BootVariables.{kind_number};
ghost use Rattle.nardcorbel.specs.Outcomes.{Shows, refusal_for};
ghost use Rattle.nardcorbel.specs.Outcomes.Outcome.{Refused, Text};
ghost use Rattle.nardcorbel.specs.Reading.{read_string};
ghost use Rattle.nardcorbel.specs.Strings.{text_until_nul};
ghost use Rattle.nardcorbel.specs.declared.outcomes.Refusal.{Refusal};

use crate::outcomes::{read_string, report_written};
use crate::reasons::{BUFFER_TOO_SMALL, END, NOT_A_NAME, ODD_BYTES, OK};
use crate::utf8_buffers::write_utf8;
use uefi_boot_variables::order_edits::{contains, insert, move_to_front, remove};
use uefi_boot_variables::{LoadOptionKind, LoadOptionName, LoadOrder};

/// `Boot####`.
pub const BOOT: u32 = 0;

/// `Driver####`.
pub const DRIVER: u32 = 1;

/// `SysPrep####`.
pub const SYS_PREP: u32 = 2;

/// `PlatformRecovery####`.
pub const PLATFORM_RECOVERY: u32 = 3;

/// Does nothing. Its clauses state the numbers that `include/nardcorbel.h` gives the kinds.
#[doc(hidden)]
pub fn kinds()
    ensures boot { BOOT ≡ 0 }
    ensures driver { DRIVER ≡ 1 }
    ensures sys_prep { SYS_PREP ≡ 2 }
    ensures platform_recovery { PLATFORM_RECOVERY ≡ 3 }
{}

/// Returns the number of a kind.
fn kind_number(kind: LoadOptionKind) -> u32
    ensures { result ≡ kind_number kind }
{
    match kind {
        LoadOptionKind::Boot => BOOT,
        LoadOptionKind::Driver => DRIVER,
        LoadOptionKind::SysPrep => SYS_PREP,
        LoadOptionKind::PlatformRecovery => PLATFORM_RECOVERY,
    }
}

/// Returns the kind that has a number.
fn kind_of(number: u32) -> Option<LoadOptionKind>
    ensures { (kind : LoadOptionKind) → ((result ≡ Some kind) ↔ (number ≡ kind_number kind)) }
{
    match number {
        BOOT => Some(LoadOptionKind::Boot),
        DRIVER => Some(LoadOptionKind::Driver),
        SYS_PREP => Some(LoadOptionKind::SysPrep),
        PLATFORM_RECOVERY => Some(LoadOptionKind::PlatformRecovery),
        _ => None,
    }
}

/// Reads a text in UTF-8 as the name of a load option, for example `Boot001F`.
///
/// At `OK`, `kind` becomes its kind and `number` its number. A text that `LoadOptionName::from_text` does not
/// read is rejected as `NOT_A_NAME`; `kind` and `number` are then unchanged. Does not allocate.
#[unsafe(no_mangle)]
pub extern "C" fn nard_boot_name_read(text: &[u8], kind: &mut u32, number: &mut u16) -> u32
    ensures name { IsUtf8 text.now → (name : LoadOptionName) → name.number < 2 ^ 16
        → text.now ≡ name_text name
        → (result ≡ OK) × (kind.new ≡ kind_number name.kind) × (number.new ≡ name.number) }
    ensures ok { result ≡ OK → IsUtf8 text.now × ((name : LoadOptionName)
        × (name.number < 2 ^ 16) × (text.now ≡ name_text name)) }
    ensures refused { result ≢ OK → result ≡ NOT_A_NAME }
    ensures unchanged { result ≢ OK → (kind.new ≡ kind.old) × (number.new ≡ number.old) }
{
    let Ok(text) = str::from_utf8(text) else {
        return NOT_A_NAME;
    };
    match LoadOptionName::from_text(text) {
        Some(name) => {
            *kind = kind_number(name.kind);
            *number = name.number;
            OK
        }
        None => NOT_A_NAME,
    }
}

/// Reads the string at the start of units as the name of a load option, for example `Boot001F`.
///
/// At `OK`, `kind` becomes its kind and `number` its number. Units that do not begin with a string are
/// rejected as by `nard_string_length`; a string that `LoadOptionName::from_cstr16` does not read is
/// rejected as `NOT_A_NAME`. If the call fails, `kind` and `number` are unchanged. Does not allocate.
#[unsafe(no_mangle)]
pub extern "C" fn nard_boot_name_read_utf16(units: &[u16], kind: &mut u32, number: &mut u16) -> u32
    ensures no_string { (refusal : Refusal) → read_string units.now ≡ Err refusal
        → result ≡ refusal.reason }
    ensures name { BeginsWithString units.now → (name : LoadOptionName) → name.number < 2 ^ 16
        → text_until_nul units.now ≡ name_text name
        → (result ≡ OK) × (kind.new ≡ kind_number name.kind) × (number.new ≡ name.number) }
    ensures ok { result ≡ OK → BeginsWithString units.now × ((name : LoadOptionName)
        × (name.number < 2 ^ 16) × (text_until_nul units.now ≡ name_text name)) }
    ensures refused { BeginsWithString units.now → result ≢ OK → result ≡ NOT_A_NAME }
    ensures unchanged { result ≢ OK → (kind.new ≡ kind.old) × (number.new ≡ number.old) }
{
    let string = match read_string(units) {
        Ok(string) => string,
        Err(refusal) => return refusal.reason,
    };
    match LoadOptionName::from_cstr16(string) {
        Some(name) => {
            *kind = kind_number(name.kind);
            *number = name.number;
            OK
        }
        None => NOT_A_NAME,
    }
}

/// Writes the name of the load option with a kind and a number, in UTF-8 and with a NUL, to the start of a
/// buffer.
///
/// A kind above 3 is rejected as `NOT_A_NAME`, and `len` is unchanged. Otherwise `len` becomes the length
/// of the name, and a buffer with at most that many places is rejected as `BUFFER_TOO_SMALL`. If the call
/// fails, the buffer is unchanged. Bytes after the NUL are never changed. Does not allocate.
#[unsafe(no_mangle)]
pub extern "C" fn nard_boot_name_write(
    kind: u32,
    number: u16,
    buffer: &mut [u8],
    len: &mut usize,
) -> u32
    ensures unknown { (fault : ℕ) → 3 < kind → Shows (Refused (refusal_for NOT_A_NAME))
        len.old fault buffer.old result len.new fault buffer.new }
    ensures name { (fault : ℕ) → (name : LoadOptionName) → kind ≡ kind_number name.kind
        → number ≡ name.number → Shows (Text (name_text name))
        len.old fault buffer.old result len.new fault buffer.new }
{
    let Some(kind) = kind_of(kind) else {
        return NOT_A_NAME;
    };
    report_written(write_utf8(buffer, &LoadOptionName { kind, number }), len)
}

/// Writes the name of a load option as a string, as [`nard_boot_name_write`] writes it in UTF-8.
#[unsafe(no_mangle)]
pub extern "C" fn nard_boot_name_write_utf16(
    kind: u32,
    number: u16,
    buffer: &mut [u16],
    len: &mut usize,
) -> u32
    ensures unknown { (fault : ℕ) → 3 < kind → Shows (Refused (refusal_for NOT_A_NAME))
        len.old fault buffer.old result len.new fault buffer.new }
    ensures name { (fault : ℕ) → (name : LoadOptionName) → kind ≡ kind_number name.kind
        → number ≡ name.number → Shows (Text (name_text name))
        len.old fault buffer.old result len.new fault buffer.new }
    ensures length { (name : LoadOptionName) → kind ≡ kind_number name.kind → number ≡ name.number
        → len.new ≡ length (name_text name) }
{
    let Some(kind) = kind_of(kind) else {
        return NOT_A_NAME;
    };
    let name = LoadOptionName { kind, number };
    report_written(name.write_cstr16(buffer), len)
}

/// Reads the number at an index of an order from the bytes of a variable such as `BootOrder`.
/// Returns `OK`, or `END` if the index is at the end or beyond it.
///
/// An odd number of bytes is refused as `ODD_BYTES`, whatever the index. At `OK`, `number` becomes
/// the number at the index; otherwise it is unchanged. Does not allocate.
#[unsafe(no_mangle)]
pub extern "C" fn nard_boot_order_read(bytes: &[u8], index: usize, number: &mut u16) -> u32
    ensures odd { (result ≡ ODD_BYTES) ↔ (length bytes.now % 2 ≡ 1) }
    ensures number { result ≡ OK
        → slice_get (units_of_bytes bytes.now) index ≡ Some number.new }
    ensures ok { length bytes.now % 2 ≡ 0 → index < length (units_of_bytes bytes.now)
        → result ≡ OK }
    ensures end { length bytes.now % 2 ≡ 0 → length (units_of_bytes bytes.now) ≤ index
        → result ≡ END }
    ensures unchanged { result ≢ OK → number.new ≡ number.old }
{
    let Ok(order) = LoadOrder::from_bytes(bytes) else {
        return ODD_BYTES;
    };
    match order.get(index) {
        Some(found) => {
            *number = found;
            OK
        }
        None => END,
    }
}

/// Inserts a number at an index among the others of an order, as `order_edits::insert` does, or
/// moves it there if the order contains it. An index beyond the end means the end.
///
/// The order is the first `count` units of `order`, or all units if there are fewer. `count`
/// becomes the new length of the order, and the units after the order are unchanged. If the order
/// does not contain the number and has no room for it, the call returns `BUFFER_TOO_SMALL`, and the
/// order and `count` are unchanged. Does not allocate.
#[unsafe(no_mangle)]
pub extern "C" fn nard_boot_order_insert(
    order: &mut [u16],
    count: &mut usize,
    index: usize,
    number: u16,
) -> u32
    ensures small { (result ≡ BUFFER_TOO_SMALL)
        ↔ ((stands_in number (take count.old order.old) ≡ false) × (length order.old ≤ count.old)) }
    ensures ok { result ≢ BUFFER_TOO_SMALL → result ≡ OK }
    ensures order { result ≡ OK
        → order.new ≡ over (with_at index number (take count.old order.old)) order.old }
    ensures count { result ≡ OK
        → count.new ≡ length (with_at index number (take count.old order.old)) }
    ensures unchanged { result ≢ OK → (order.new ≡ order.old) × (count.new ≡ count.old) }
{
    match insert(order, *count, index, number) {
        Ok(len) => {
            *count = len;
            OK
        }
        Err(_) => BUFFER_TOO_SMALL,
    }
}

/// Removes a number from an order, as `order_edits::remove` does, and returns whether the order
/// contained it.
///
/// The order and `count` are as in [`nard_boot_order_insert`]. Does not allocate.
#[unsafe(no_mangle)]
pub extern "C" fn nard_boot_order_remove(order: &mut [u16], count: &mut usize, number: u16) -> bool
    ensures stood { result ≡ stands_in number (take count.old order.old) }
    ensures order { order.new ≡ over (without number (take count.old order.old)) order.old }
    ensures count { count.new ≡ length (without number (take count.old order.old)) }
{
    let stood = contains(order, *count, number);
    *count = remove(order, *count, number);
    stood
}

/// Moves a number of an order to the front, as `order_edits::move_to_front` does, and returns
/// whether the order contained it. If it did not, the order is unchanged.
///
/// The order and `count` are as in [`nard_boot_order_insert`]. Does not allocate.
#[unsafe(no_mangle)]
pub extern "C" fn nard_boot_order_move_to_front(
    order: &mut [u16],
    count: &mut usize,
    number: u16,
) -> bool
    ensures stood { result ≡ stands_in number (take count.old order.old) }
    ensures order { order.new ≡ over (with_front number (take count.old order.old)) order.old }
    ensures count { count.new ≡ length (with_front number (take count.old order.old)) }
{
    let stood = contains(order, *count, number);
    *count = move_to_front(order, *count, number);
    stood
}
