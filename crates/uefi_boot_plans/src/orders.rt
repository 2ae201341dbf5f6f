//! Plans that change `BootOrder`, `BootNext` and `Timeout`.
#![tactic(auto)]

ghost use Rattle.std.specs.Prelude.{◌≡◌, ◌≢◌, ◌<◌, ◌%◌, ◌^◌, ◌↔◌, ◌∷◌, ◌++◌, [], length, take, Contains, ℕ, IfOk, IfErr, IfSome, IsNone, None, Some, if◌then◌else◌};
ghost use Rattle.uefi_boot_variables.specs.Orders.{over, stands_in, with_at, without};
ghost use Rattle.uefi_boot_plans.specs.Plans.{change_of, changes_of, deleted, is_next, ordered, written};
ghost use Rattle.uefi_text.specs.UnitBytes.{unit_bytes, units_of_bytes};

use crate::plan::{PlanError, Step, Variable};
use std::alloc::{AllocError, Allocator};
use std::collections::BTreeSet;
use uefi_boot_variables::order_edits;
use uefi_text::UnalignedSlice;
use uefi_text::scan::split;

/// Returns the bytes of numbers, two for each, the low byte first.
fn bytes_of<A: Allocator + Copy>(alloc: A, numbers: &[u16]) -> Result<Vec<u8, A>, AllocError>
    ensures { IfOk result (λ bytes. bytes.items ≡ unit_bytes numbers.now) }
{
    let mut bytes = Vec::from_elem(alloc, 0u8, 2 * numbers.len())?;
    split(bytes.as_mut_slice(), numbers);
    Ok(bytes)
}

/// Returns the numbers of an order from its bytes.
fn numbers_of<A: Allocator + Copy>(alloc: A, order: &[u8]) -> Result<Vec<u16, A>, PlanError>
    ensures ok { IfOk result (λ numbers. numbers.items ≡ units_of_bytes order.now) }
    ensures odd { (result ≡ Err PlanError.MalformedOrder) ↔ (length order.now % 2 ≡ 1) }
    ensures memory { IfErr result (λ error.
        error ≢ PlanError.MalformedOrder → error ≡ PlanError.OutOfMemory) }
{
    match UnalignedSlice::from_unit_bytes(order) {
        Some(numbers) => Ok(numbers.to_vec(alloc)?),
        None => Err(PlanError::MalformedOrder),
    }
}

/// Returns the least number that is not used.
pub fn free_number<A: Allocator>(used: &BTreeSet<u16, A>) -> Option<u16>
    ensures free { IfSome result (λ number. Contains used.now.keys number → ⊥) }
    ensures least { IfSome result (λ number.
        (less : ℕ) → less < number → Contains used.now.keys less) }
    ensures none { IsNone result → (number : ℕ) → number < 2 ^ 16 → Contains used.now.keys number }
{
    for number in 0..=u16::MAX {
        if !used.contains(&number) {
            return Some(number);
        }
    }
    None
}

/// Returns the step that writes the order with a number at an index, and nowhere else.
fn placed<A: Allocator + Copy>(
    alloc: A,
    order: &[u8],
    index: usize,
    number: u16,
) -> Result<Step<A>, PlanError>
    ensures ok { IfOk result (λ step. change_of step
        ≡ ordered (with_at index number (units_of_bytes order.now))) }
    ensures odd { (result ≡ Err PlanError.MalformedOrder) ↔ (length order.now % 2 ≡ 1) }
    ensures memory { IfErr result (λ error.
        error ≢ PlanError.MalformedOrder → error ≡ PlanError.OutOfMemory) }
{
    let mut numbers = numbers_of(alloc, order)?;
    let len = numbers.len();
    numbers.push(number)?;
    let len = put_at(numbers.as_mut_slice(), len, index, number);
    Ok(order_step(alloc, &numbers.as_slice()[..len])?)
}

/// Puts a number at an index of an order that has room for it, and returns the new length of the
/// order.
fn put_at(places: &mut [u16], len: usize, index: usize, number: u16) -> usize
    requires { len < length places.old }
    ensures len { result ≡ length (with_at index number (take len places.old)) }
    ensures places { places.new ≡ over (with_at index number (take len places.old)) places.old }
{
    order_edits::insert(places, len, index, number).unwrap()
}

/// Returns the plan that removes a number from the order, which is empty if the order does not
/// contain it.
fn delete_from_order<A: Allocator + Copy>(
    alloc: A,
    order: &[u8],
    number: u16,
) -> Result<Vec<Step<A>, A>, PlanError>
    ensures ok { let numbers = units_of_bytes order.now in IfOk result (λ plan. changes_of plan.items
        ≡ (if stands_in number numbers then ordered (without number numbers) ∷ [] else [])) }
    ensures odd { (result ≡ Err PlanError.MalformedOrder) ↔ (length order.now % 2 ≡ 1) }
    ensures memory { IfErr result (λ error.
        error ≢ PlanError.MalformedOrder → error ≡ PlanError.OutOfMemory) }
{
    let mut numbers = numbers_of(alloc, order)?;
    let len = numbers.len();
    if !order_edits::contains(numbers.as_slice(), len, number) {
        return Ok(Vec::new(alloc));
    }
    let kept = order_edits::remove(numbers.as_mut_slice(), len, number);
    Ok(order_step(alloc, &numbers.as_slice()[..kept])?.alone(alloc)?)
}

/// Returns the step that makes numbers the order. Firmware deletes a variable that is written
/// without bytes.
fn order_step<A: Allocator + Copy>(alloc: A, numbers: &[u16]) -> Result<Step<A>, AllocError>
    ensures { IfOk result (λ step. change_of step ≡ ordered numbers.now) }
{
    if numbers.is_empty() {
        return Ok(Step::delete(Variable::Order));
    }
    Ok(Step::write(Variable::Order, bytes_of(alloc, numbers)?))
}

/// Returns the plan that adds an entry to the order: it writes the entry first, and then the order
/// with the number at an index among the others. Index 0 is the front, and an index beyond the end
/// is the end.
///
/// If the number is in use, the plan replaces that entry: [`free_number`] returns one that is not. If
/// the order names the number already, the number moves to the index.
///
/// Fails with `MalformedOrder` if the order has an odd number of bytes, and otherwise with
/// `OutOfMemory` if memory runs out.
pub fn create<A: Allocator + Copy>(
    alloc: A,
    order: &[u8],
    index: usize,
    number: u16,
    entry: Vec<u8, A>,
) -> Result<Vec<Step<A>, A>, PlanError>
    ensures ok { IfOk result (λ plan. changes_of plan.items
        ≡ written (Variable.Entry number) entry.items
        ∷ ordered (with_at index number (units_of_bytes order.now)) ∷ []) }
    ensures malformed { (result ≡ Err PlanError.MalformedOrder) ↔ (length order.now % 2 ≡ 1) }
    ensures memory { IfErr result (λ error.
        error ≢ PlanError.MalformedOrder → error ≡ PlanError.OutOfMemory) }
{
    let order = placed(alloc, order, index, number)?;
    let mut plan = Step::write(Variable::Entry(number), entry).alone(alloc)?;
    plan.push(order)?;
    Ok(plan)
}

/// Returns the plan that writes an entry and leaves the order as it is.
///
/// If the number is in use, the plan replaces that entry.
pub fn create_unlisted<A: Allocator + Copy>(
    alloc: A,
    number: u16,
    entry: Vec<u8, A>,
) -> Result<Vec<Step<A>, A>, AllocError>
    ensures { IfOk result (λ plan. changes_of plan.items
        ≡ written (Variable.Entry number) entry.items ∷ []) }
{
    Step::write(Variable::Entry(number), entry).alone(alloc)
}

/// Returns the plan that moves an entry to the front of the order, or inserts it there.
///
/// Fails as [`create`] does.
pub fn first<A: Allocator + Copy>(
    alloc: A,
    order: &[u8],
    number: u16,
) -> Result<Vec<Step<A>, A>, PlanError>
    ensures ok { IfOk result (λ plan. changes_of plan.items
        ≡ ordered (with_at 0 number (units_of_bytes order.now)) ∷ []) }
    ensures malformed { (result ≡ Err PlanError.MalformedOrder) ↔ (length order.now % 2 ≡ 1) }
    ensures memory { IfErr result (λ error.
        error ≢ PlanError.MalformedOrder → error ≡ PlanError.OutOfMemory) }
{
    Ok(placed(alloc, order, 0, number)?.alone(alloc)?)
}

/// Returns the plan that deletes an entry. If the order contains the entry, the plan first writes
/// the order without it, or deletes the order if no number is left. Then it deletes `BootNext`, if
/// that names the entry. Then it deletes the entry.
///
/// Fails as [`create`] does.
pub fn delete<A: Allocator + Copy>(
    alloc: A,
    order: &[u8],
    next: Option<u16>,
    number: u16,
) -> Result<Vec<Step<A>, A>, PlanError>
    ensures ok { let numbers = units_of_bytes order.now in IfOk result (λ plan. changes_of plan.items
        ≡ (if stands_in number numbers then ordered (without number numbers) ∷ [] else [])
        ++ (if is_next number next then deleted Variable.Next ∷ [] else [])
        ++ (deleted (Variable.Entry number) ∷ [])) }
    ensures malformed { (result ≡ Err PlanError.MalformedOrder) ↔ (length order.now % 2 ≡ 1) }
    ensures memory { IfErr result (λ error.
        error ≢ PlanError.MalformedOrder → error ≡ PlanError.OutOfMemory) }
{
    let mut plan = delete_from_order(alloc, order, number)?;
    if next == Some(number) {
        plan.push(Step::delete(Variable::Next))?;
    }
    plan.push(Step::delete(Variable::Entry(number)))?;
    Ok(plan)
}

/// Returns the plan that deletes an entry if the store is too full to write the order first. Each
/// step frees space for the next: it deletes `BootNext`, if that names the entry, then the entry, and
/// then writes the order without it, if the order contains it. Firmware skips an entry that the order
/// names but that does not exist.
///
/// Fails as [`create`] does.
pub fn delete_on_full<A: Allocator + Copy>(
    alloc: A,
    order: &[u8],
    next: Option<u16>,
    number: u16,
) -> Result<Vec<Step<A>, A>, PlanError>
    ensures ok { let numbers = units_of_bytes order.now in IfOk result (λ plan. changes_of plan.items
        ≡ (if is_next number next then deleted Variable.Next ∷ [] else [])
        ++ (deleted (Variable.Entry number)
        ∷ (if stands_in number numbers then ordered (without number numbers) ∷ [] else []))) }
    ensures malformed { (result ≡ Err PlanError.MalformedOrder) ↔ (length order.now % 2 ≡ 1) }
    ensures memory { IfErr result (λ error.
        error ≢ PlanError.MalformedOrder → error ≡ PlanError.OutOfMemory) }
{
    let mut order = delete_from_order(alloc, order, number)?;
    let mut plan = Vec::new(alloc);
    if next == Some(number) {
        plan.push(Step::delete(Variable::Next))?;
    }
    plan.push(Step::delete(Variable::Entry(number)))?;
    plan.append(&mut order)?;
    Ok(plan)
}

/// Returns the plan that makes numbers the order.
pub fn order<A: Allocator + Copy>(alloc: A, numbers: &[u16]) -> Result<Vec<Step<A>, A>, AllocError>
    ensures { IfOk result (λ plan. changes_of plan.items ≡ ordered numbers.now ∷ []) }
{
    order_step(alloc, numbers)?.alone(alloc)
}

/// Returns the plan that makes the machine boot an entry once, at its next start.
pub fn next<A: Allocator + Copy>(alloc: A, number: u16) -> Result<Vec<Step<A>, A>, AllocError>
    ensures { IfOk result (λ plan. changes_of plan.items
        ≡ written Variable.Next (unit_bytes (number ∷ [])) ∷ []) }
{
    Step::write(Variable::Next, bytes_of(alloc, &[number])?).alone(alloc)
}

/// Returns the plan that deletes a variable, so that firmware goes by its default: without
/// `BootNext` the machine boots by its order, and without `Timeout` firmware chooses how long it
/// waits.
pub fn clear<A: Allocator + Copy>(
    alloc: A,
    variable: Variable,
) -> Result<Vec<Step<A>, A>, AllocError>
    ensures { IfOk result (λ plan. changes_of plan.items ≡ deleted variable ∷ []) }
{
    Step::delete(variable).alone(alloc)
}

/// Returns the plan that makes the firmware wait for a number of seconds before it boots.
pub fn timeout<A: Allocator + Copy>(alloc: A, seconds: u16) -> Result<Vec<Step<A>, A>, AllocError>
    ensures { IfOk result (λ plan. changes_of plan.items
        ≡ written Variable.Timeout (unit_bytes (seconds ∷ [])) ∷ []) }
{
    Step::write(Variable::Timeout, bytes_of(alloc, &[seconds])?).alone(alloc)
}
