//! Plans that change one field of an entry. Every other byte of the entry is unchanged.
#![tactic(auto)]

ghost use Rattle.std.specs.Prelude.{◌≡◌, ◌∷◌, [], IfErr, IfOk};
ghost use Rattle.uefi_text.specs.Views.{text_of};
ghost use Rattle.uefi_device_path.specs.LoadOptions.{Entry, EntryRefusedFor, IsEntry, entry_bytes};
ghost use Rattle.uefi_device_path.specs.OptionEdits.{with_attributes, with_description};
ghost use Rattle.uefi_device_path.specs.Views.{entry_of};
ghost use Rattle.uefi_boot_plans.specs.Plans.{IsEntryError, activity, changes_of, written};

use crate::plan::{PlanError, Step, Variable};
use std::alloc::{AllocError, Allocator};
use uefi_device_path::{LoadOption, LoadOptionError, set_attributes};
use uefi_text::CStr16;

/// Returns attributes with the first bit, `LOAD_OPTION_ACTIVE`, set or cleared.
fn with_activity(attributes: u32, active: bool) -> u32
    ensures { result ≡ activity active attributes }
{
    attributes - attributes % 2 + u32::from(active)
}

/// Returns the attributes of a load option from its bytes.
fn attributes_of(bytes: &[u8]) -> Result<u32, LoadOptionError>
    ensures ok { IfOk result (λ attributes. (option : Entry) → IsEntry option →
        bytes.now ≡ entry_bytes option → attributes ≡ option.attributes) }
    ensures refusal { IfErr result (λ error. EntryRefusedFor bytes.now error) }
    ensures accepted { IfOk result (λ _.
        (option : Entry) × IsEntry option × (bytes.now ≡ entry_bytes option)) }
{
    Ok(LoadOption::from_bytes(bytes)?.attributes())
}

/// Returns the bytes of an entry, made active or inactive.
fn activated<A: Allocator>(alloc: A, entry: &[u8], active: bool) -> Result<Vec<u8, A>, PlanError>
    ensures ok { IfOk result (λ bytes. (option : Entry) → IsEntry option → entry.now ≡ entry_bytes option →
        bytes.items ≡ entry_bytes (with_attributes (activity active option.attributes) option)) }
    ensures accepted { IfOk result (λ _.
        (option : Entry) × IsEntry option × (entry.now ≡ entry_bytes option)) }
    ensures refused { IfErr result (λ error. IsEntryError entry.now error) }
{
    let attributes = match attributes_of(entry) {
        Ok(attributes) => attributes,
        Err(error) => return Err(PlanError::MalformedEntry(error)),
    };
    let mut bytes = Vec::from_slice(alloc, entry)?;
    match set_attributes(bytes.as_mut_slice(), with_activity(attributes, active)) {
        Ok(()) => Ok(bytes),
        Err(error) => Err(PlanError::MalformedEntry(error)),
    }
}

/// Returns the plan that makes an entry active or inactive.
///
/// Fails with `MalformedEntry` if its bytes are not a load option, and otherwise with `OutOfMemory`
/// if memory runs out.
pub fn set_active<A: Allocator + Copy>(
    alloc: A,
    number: u16,
    entry: &[u8],
    active: bool,
) -> Result<Vec<Step<A>, A>, PlanError>
    ensures ok { IfOk result (λ plan. (option : Entry) → IsEntry option → entry.now ≡ entry_bytes option →
        changes_of plan.items ≡ written (Variable.Entry number)
        (entry_bytes (with_attributes (activity active option.attributes) option)) ∷ []) }
    ensures accepted { IfOk result (λ _.
        (option : Entry) × IsEntry option × (entry.now ≡ entry_bytes option)) }
    ensures refused { IfErr result (λ error. IsEntryError entry.now error) }
{
    let bytes = activated(alloc, entry, active)?;
    Ok(Step::write(Variable::Entry(number), bytes).alone(alloc)?)
}

/// Returns the bytes of a load option with another description.
fn described<A: Allocator + Copy>(
    alloc: A,
    option: &LoadOption<'_>,
    description: CStr16<'_>,
) -> Result<Vec<u8, A>, AllocError>
    ensures { IfOk result (λ bytes. bytes.items
        ≡ entry_bytes (with_description (text_of description.entry) (entry_of option.now))) }
{
    // The old description has its NUL, so there is room.
    let room = option.as_bytes().len() + 2 * description.as_slice().units().len();
    let mut bytes = Vec::from_elem(alloc, 0u8, room)?;
    match option.write_with_description(description, bytes.as_mut_slice()) {
        Ok(len) => {
            bytes.truncate(len);
            Ok(bytes)
        }
        Err(_) => Err(AllocError),
    }
}

/// Returns the plan that gives an entry another description.
///
/// Fails as [`set_active`] does.
pub fn rename<A: Allocator + Copy>(
    alloc: A,
    number: u16,
    entry: &[u8],
    description: CStr16<'_>,
) -> Result<Vec<Step<A>, A>, PlanError>
    ensures ok { IfOk result (λ plan. (option : Entry) → IsEntry option → entry.now ≡ entry_bytes option →
        changes_of plan.items ≡ written (Variable.Entry number)
        (entry_bytes (with_description (text_of description.entry) option)) ∷ []) }
    ensures accepted { IfOk result (λ _.
        (option : Entry) × IsEntry option × (entry.now ≡ entry_bytes option)) }
    ensures refused { IfErr result (λ error. IsEntryError entry.now error) }
{
    let option = match LoadOption::from_bytes(entry) {
        Ok(option) => option,
        Err(error) => return Err(PlanError::MalformedEntry(error)),
    };
    let bytes = described(alloc, &option, description)?;
    Ok(Step::write(Variable::Entry(number), bytes).alone(alloc)?)
}
