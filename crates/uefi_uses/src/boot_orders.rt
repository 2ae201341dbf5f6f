//! Boot orders: the option that a menu starts by itself, the number in a variable's name, and an order with
//! one entry in front.
ghost use Rattle.std.specs.Prelude.{◌≡◌, ◌↔◌, ◌%◌, ◌^◌, ◌<◌, ℕ, Some, slice_get, length, IfOk, IsErr};
ghost use Rattle.std.specs.Option.{option_map};
ghost use Rattle.uefi_boot_variables.specs.Orders.{once_each, with_front};
ghost use Rattle.uefi_boot_variables.specs.Present.{present_options, shown};
ghost use Rattle.uefi_boot_variables.specs.Names.{name_text};
ghost use Rattle.uefi_boot_variables.specs.Views.{numbers_of};
ghost use Rattle.uefi_boot_variables.specs.declared.variable_names.LoadOptionKind.TheVariants.{Boot};
ghost use Rattle.uefi_text.specs.UnitBytes.{units_of_bytes};

use uefi_boot_variables::{
    LoadOptionKind, LoadOptionName, LoadOrder, OddLength, OrderBuffer, OrderFull,
};

/// Returns the option that a menu starts if nobody chooses: the first option of `BootOrder` whose variable
/// exists, with its number and bytes. Fails if `BootOrder` has an odd number of bytes.
pub fn first_option<'a>(
    order: &'a [u8],
    variables: &'a [(u16, &'a [u8])],
) -> Result<Option<(u16, &'a [u8])>, OddLength>
    ensures first { IfOk result (λ option. option_map shown option
        ≡ slice_get (present_options variables.now (units_of_bytes order.now)) 0) }
    ensures refused { IsErr result ↔ (length order.now % 2 ≡ 1) }
{
    let order = LoadOrder::from_bytes(order)?;
    Ok(order.present(variables).next())
}

/// Returns the number of a boot entry, from the name of its variable.
pub fn boot_number(name: &str) -> Option<u16>
    ensures { (number : ℕ) → number < 2 ^ 16 → ((result ≡ Some number)
        ↔ (name.now ≡ name_text (record { kind = Boot; number = number }))) }
{
    match LoadOptionName::from_text(name) {
        Some(
            LoadOptionName {
                kind: LoadOptionKind::Boot,
                number,
            },
        ) => Some(number),
        _ => None,
    }
}

/// Copies an order to the caller's memory, each number once, with `number` in front if the order contains
/// it. Returns the length of the copy, or fails if the memory has fewer places.
pub fn with_first(
    order: &LoadOrder<'_>,
    number: u16,
    places: &mut [u16],
) -> Result<usize, OrderFull>
    ensures len { IfOk result (λ len.
        len ≡ length (with_front number (once_each (numbers_of order.now)))) }
    ensures refused { IsErr result ↔ (length places.old < length (once_each (numbers_of order.now))) }
{
    let mut edited = OrderBuffer::new(places);
    edited.copy_from(order)?;
    edited.move_to_front(number);
    Ok(edited.len())
}
