//! The items of lists.
#![tactic(auto)]

ghost use Rattle.std.specs.List.{list_all};
ghost use Rattle.std.specs.Prelude.{◌≡◌, ◌<◌, ◌≤◌, IsTrue};
ghost use Rattle.uefi_node_steps.specs.Printing.{code_steps, is_item_step};
ghost use Rattle.uefi_node_steps.specs.Steps.{is_flat, is_sound_step, item_of};

use crate::steps::{Field, Items, Layout, LayoutOf, Shape, StepOf};

/// The items of [`Items::Numbers`](crate::steps::Items::Numbers).
pub const NUMBERS: Layout = LayoutOf {
    size: 4,
    bytes: &[],
    steps: &[
        StepOf::Literal(","),
        StepOf::Field(Field {
            shape: Shape::Hexadecimal,
            place: 0,
            width: 4,
            spare: None,
        }),
    ],
};

/// The items of [`Items::Ipv4`](crate::steps::Items::Ipv4).
pub const IPV4_ADDRESSES: Layout = LayoutOf {
    size: 16,
    bytes: &[],
    steps: &[
        StepOf::Literal(","),
        StepOf::Field(Field {
            shape: Shape::Ipv4,
            place: 0,
            width: 4,
            spare: None,
        }),
    ],
};

/// The items of [`Items::Ipv6`](crate::steps::Items::Ipv6).
pub const IPV6_ADDRESSES: Layout = LayoutOf {
    size: 16,
    bytes: &[],
    steps: &[
        StepOf::Literal(","),
        StepOf::Field(Field {
            shape: Shape::Ipv6,
            place: 0,
            width: 16,
            spare: None,
        }),
    ],
};

/// Returns the items of a list.
pub(crate) fn item_of(items: Items) -> Layout
    ensures size { result.size ≡ (item_of items).size }
    ensures steps { code_steps result.steps.now ≡ (item_of items).steps }
    ensures some { 0 < result.size }
    ensures few { result.size ≤ 16 }
    ensures laid { IsTrue (list_all (is_item_step result.size) (code_steps result.steps.now)) }
    ensures sound { IsTrue (list_all (is_sound_step result.size) (code_steps result.steps.now)) }
    ensures flat { IsTrue (list_all is_flat (code_steps result.steps.now)) }
{
    match items {
        Items::Numbers => NUMBERS,
        Items::Ipv4 => IPV4_ADDRESSES,
        Items::Ipv6 => IPV6_ADDRESSES,
    }
}
