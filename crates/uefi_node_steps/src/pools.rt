//! Texts, steps and bytes of the packed table, each kind in one constant. So the table contains no pointer,
//! and firmware that loads a program relocates nothing in it.
#![tactic(auto)]

ghost use Rattle.std.specs.Prelude.{◌≡◌, slice_index};
ghost use Rattle.uefi_device_nodes.specs.Parts.{part_of};
ghost use Rattle.uefi_node_steps.specs.Parts.{other_steps, packed_bytes, packed_step, packed_text};
ghost use Rattle.uefi_node_steps.specs.Printing.{code_step};

use crate::packed::{BYTE_STARTS, BYTES, STEP_STARTS, STEPS, TEXT_STARTS, TEXTS};
use crate::parts::{PackedBytes, PackedStep, PackedSteps, PackedText};
use crate::steps::{Field, Step, StepOf};

/// Returns where a part begins, or 0 after the last part.
fn start_of(starts: &[u16], number: usize) -> usize
    ensures { result ≡ slice_index starts.now number }
{
    if number < starts.len() {
        return usize::from(starts[number]);
    }
    0
}

/// Returns the part with a number. It ends where the next part begins.
pub(crate) fn part<'a, T>(items: &'a [T], starts: &[u16], number: u8) -> &'a [T]
    ensures { result.now ≡ part_of items.now starts.now number }
{
    let number = usize::from(number);
    let from = start_of(starts, number);
    let to = start_of(starts, number + 1);
    let rest = &items[from.min(items.len())..];
    &rest[..to.saturating_sub(from).min(rest.len())]
}

impl PackedText {
    /// Returns the text.
    #[tactic(auto, unfolding(crate::specs::Parts::packed_text))]
    pub fn as_str(self) -> &'static str
        ensures { result.now ≡ packed_text self }
    {
        // SAFETY: the part is UTF-8, which is proved here as the condition of the call.
        unsafe { str::from_utf8_unchecked(part(&TEXTS, &TEXT_STARTS, self.number)) }
    }
}

impl PackedBytes {
    /// Returns the offsets and the values of the bytes.
    #[tactic(auto, unfolding(crate::specs::Parts::packed_bytes))]
    pub fn as_slice(self) -> &'static [(u8, u8)]
        ensures { result.now ≡ packed_bytes self }
    {
        part(&BYTES, &BYTE_STARTS, self.number)
    }
}

impl PackedSteps {
    /// Returns the steps after the first.
    #[tactic(auto, unfolding(crate::specs::Parts::other_steps))]
    pub fn others(self) -> &'static [PackedStep]
        ensures { result.now ≡ other_steps self }
    {
        part(&STEPS, &STEP_STARTS, self.others)
    }
}

impl PackedStep {
    /// Returns the step, unpacked.
    pub fn unpacked(self) -> Step
        ensures { code_step result ≡ packed_step self }
    {
        match self {
            PackedStep::Literal(text) => StepOf::Literal(text.as_str()),
            PackedStep::Field(field) => StepOf::Field(Field {
                shape: field.shape,
                place: usize::from(field.place),
                width: usize::from(field.width),
                spare: field.spare,
            }),
            PackedStep::Data(encoding) => StepOf::Data(encoding),
            PackedStep::Many(items) => StepOf::Many(items),
        }
    }
}
