//! Plans with each memory request refused in turn, for short and for long values.

use for_tests::{MemoryCall, Refusing, is_answered, repeated, requests, string};
use std::alloc::{AllocError, Global};
use std::test::Fail;
use uefi_boot_plans::{
    PlanError, Step, Variable, clear, create, create_unlisted, delete, delete_on_full, first, next,
    order, rename, set_active, timeout,
};
use uefi_text::CStr16;

/// A call that makes a plan.
#[derive(Clone, Copy, Debug, Drop, PartialEq)]
enum Call {
    Create(usize),
    CreateUnlisted,
    First,
    Delete,
    DeleteOther,
    DeleteOnFull,
    DeleteOtherOnFull,
    DeleteLast,
    Order,
    EmptyOrder,
    Next(u16),
    Clear(Variable),
    Timeout(u16),
    SetActive(bool),
    Rename,
}

/// The values of variables, for the calls.
#[derive(Clone, Copy)]
struct Values<'a> {
    /// Others, and then the number 7.
    numbers: &'a [u16],
    order: &'a [u8],
    entry: &'a [u8],
    name: CStr16<'a>,
}

/// A call on these values.
#[derive(Clone, Copy)]
struct Planned<'a> {
    call: Call,
    values: Values<'a>,
}

impl MemoryCall for Planned<'_> {
    /// Returns whether there is a plan, or memory ran out.
    fn answer(&self, heap: &Refusing<Global>) -> Result<bool, AllocError> {
        plans(heap, self.call, self.values)
    }
}

type Heap<'h> = &'h Refusing<Global>;

/// Returns whether there is a plan, or memory ran out.
fn plans(heap: Heap<'_>, call: Call, it: Values<'_>) -> Result<bool, AllocError> {
    let memory = PlanError::OutOfMemory;
    match call {
        Call::Create(index) => {
            let entry = Vec::from_slice(heap, it.entry)?;
            is_answered(create(heap, it.order, index, 9, entry), memory)
        }
        Call::CreateUnlisted => {
            let entry = Vec::from_slice(heap, it.entry)?;
            is_answered(create_unlisted(heap, 9, entry), AllocError)
        }
        Call::First => is_answered(first(heap, it.order, 9), memory),
        Call::Delete => is_answered(delete(heap, it.order, Some(7), 7), memory),
        Call::DeleteOther => is_answered(delete(heap, it.order, None, 9), memory),
        Call::DeleteOtherOnFull => is_answered(delete_on_full(heap, it.order, None, 9), memory),
        Call::DeleteOnFull => is_answered(delete_on_full(heap, it.order, Some(7), 7), memory),
        Call::DeleteLast => is_answered(delete(heap, &[7, 0], None, 7), memory),
        Call::Order => is_answered(order(heap, it.numbers), AllocError),
        Call::EmptyOrder => is_answered(order(heap, &[]), AllocError),
        Call::Next(number) => is_answered(next(heap, number), AllocError),
        Call::Clear(variable) => is_answered(clear(heap, variable), AllocError),
        Call::Timeout(seconds) => is_answered(timeout(heap, seconds), AllocError),
        Call::SetActive(active) => is_answered(set_active(heap, 7, it.entry, active), memory),
        Call::Rename => is_answered(rename(heap, 7, it.entry, it.name), memory),
    }
}

/// Each call, and how many requests it makes. Those that create make one more for the entry that they
/// are given.
const ROWS: &[(Call, u64)] = &[
    (Call::Create(0), 5),
    (Call::Create(1), 5),
    (Call::Create(usize::MAX), 5),
    (Call::CreateUnlisted, 2),
    (Call::First, 4),
    (Call::Delete, 3),
    (Call::DeleteOther, 2),
    (Call::DeleteOnFull, 4),
    (Call::DeleteOtherOnFull, 2),
    (Call::DeleteLast, 2),
    (Call::Order, 2),
    (Call::EmptyOrder, 1),
    (Call::Next(0), 2),
    (Call::Next(0x2001), 2),
    (Call::Next(u16::MAX), 2),
    (Call::Clear(Variable::Next), 1),
    (Call::Clear(Variable::Timeout), 1),
    (Call::Timeout(0), 2),
    (Call::Timeout(600), 2),
    (Call::Timeout(601), 2),
    (Call::Timeout(3_600), 2),
    (Call::Timeout(u16::MAX), 2),
    (Call::SetActive(true), 2),
    (Call::SetActive(false), 2),
    (Call::Rename, 2),
];

/// Returns an entry whose description has `count` units, and whose only node and optional data have as many
/// bytes each.
fn entry_of(alloc: Global, count: u16) -> Result<Vec<u8>, Fail> {
    let data = Vec::from_elem(alloc, 1u8, count as usize)?;
    let node = count.saturating_add(4).to_le_bytes();
    let mut entry = Vec::from_slice(alloc, &[1, 0, 0, 0])?;
    entry.extend_from_slice(&count.saturating_add(8).to_le_bytes())?;
    for _ in 0..count {
        entry.extend_from_slice(&[0x6e, 0])?;
    }
    entry.extend_from_slice(&[0, 0, 1, 4, node[0], node[1]])?;
    entry.extend_from_slice(&data)?;
    entry.extend_from_slice(&[0x7f, 0xff, 4, 0])?;
    entry.extend_from_slice(&data)?;
    Ok(entry)
}

/// Runs each call with an order of `count` numbers, and one more, a name of `count` characters, and the entry
/// of [`entry_of`]. Returns the first call with another number of requests, and that number.
fn wrong_call(alloc: Global, count: u16) -> Result<Option<(Call, u64)>, Fail> {
    let mut numbers = Vec::from_elem(alloc, 8u16, count as usize)?;
    numbers.push(7)?;
    let mut order = Vec::new(alloc);
    for number in &numbers {
        order.extend_from_slice(&number.to_le_bytes())?;
    }
    let entry = entry_of(alloc, count)?;
    let text = repeated(alloc, "n", count as u64)?;
    let name = string(alloc, &text)?;
    let values = Values {
        numbers: &numbers,
        order: &order,
        entry: &entry,
        name: name.as_cstr16(),
    };
    for (call, want) in ROWS {
        let found = requests(
            alloc,
            0,
            &Planned {
                call: *call,
                values,
            },
        )?;
        if found != *want {
            return Ok(Some((*call, found)));
        }
    }
    Ok(None)
}

/// The counts are those of usual values, and of values that are longer than any fixed buffer might be.
#[test]
fn requests_of_each_call(rt: HostRuntime) -> Result<(), Fail> {
    for count in [1, 50, 60, 301, 701, 800, 5_000, 30_000] {
        assert_eq!(rt; wrong_call(rt.alloc(), count)?, None, "{count}");
    }
    Ok(())
}
