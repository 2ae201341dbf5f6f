//! The steps of a plan.
#![tactic(auto, using(uefi_text::proofs::Puts::puts))]

ghost use Rattle.std.specs.Prelude.{◌≡◌, ◌∷◌, [], IfOk, Some};
ghost use Rattle.uefi_boot_plans.specs.Plans.{plan_error_text};
ghost use Rattle.uefi_boot_plans.specs.declared.plan.PlanError.TheVariants.{OutOfMemory};

use std::alloc::{AllocError, AllocFailed, Allocator, Global};
use std::error::Error;
use std::fmt;
use uefi_device_path::LoadOptionError;
use uefi_text::text_sink::{Printed, TextSink, print};

/// A variable that a change writes or deletes.
#[derive(Clone, Copy, Debug, PartialEq, Eq)]
pub enum Variable {
    /// `Boot####`, with this number.
    Entry(u16),

    /// `BootOrder`.
    Order,

    /// `BootNext`.
    Next,

    /// `Timeout`.
    Timeout,
}

/// A variable, and the value that it is written with; without a value it is deleted.
#[derive(Drop)]
pub struct Step<A: Allocator = Global> {
    pub variable: Variable,
    pub value: Option<Vec<u8, A>>,
}

/// The reason why there is no plan.
#[derive(Clone, Copy, Debug, PartialEq, Eq)]
pub enum PlanError {
    /// The value of `BootOrder` has an odd number of bytes.
    MalformedOrder,

    /// The value of the entry is not a load option.
    MalformedEntry(LoadOptionError),

    /// Memory ran out.
    OutOfMemory,
}

/// Puts what is wrong, in words.
impl Printed for PlanError {
    ghost printed = { plan_error_text };

    fn put<S: TextSink>(&self, sink: &mut S) {
        match self {
            PlanError::MalformedOrder => sink.put_str("BootOrder has an odd number of bytes"),
            PlanError::MalformedEntry(error) => error.put(sink),
            PlanError::OutOfMemory => sink.put_str("out of memory"),
        }
    }
}

/// Prints the same text.
impl fmt::Display for PlanError {
    ghost output = { λ error. Some (plan_error_text error) };

    fn fmt<W: fmt::Write>(&self, f: &mut fmt::Formatter<W>) -> fmt::Result {
        print(f, self)
    }
}

impl Error for PlanError {}

impl From<AllocError> for PlanError {
    ghost from_gives = { λ _ error. error ≡ OutOfMemory };

    fn from(_error: AllocError) -> PlanError {
        PlanError::OutOfMemory
    }
}

impl<T: Drop> From<AllocFailed<T>> for PlanError {
    ghost from_gives = { λ _ error. error ≡ OutOfMemory };

    fn from(_error: AllocFailed<T>) -> PlanError {
        PlanError::OutOfMemory
    }
}

impl<A: Allocator> Step<A> {
    ghost use Rattle.uefi_boot_plans.specs.Plans.{change_of, deleted, written};

    /// Returns the step that writes a variable with a value.
    pub fn write(variable: Variable, value: Vec<u8, A>) -> Step<A>
        ensures { change_of result ≡ written variable value.items }
    {
        Step {
            variable,
            value: Some(value),
        }
    }

    /// Returns the step that deletes a variable.
    pub fn delete(variable: Variable) -> Step<A>
        ensures { change_of result ≡ deleted variable }
    {
        Step {
            variable,
            value: None,
        }
    }

    /// Returns the plan that consists of this step.
    pub fn alone(self, alloc: A) -> Result<Vec<Step<A>, A>, AllocError>
        ensures { IfOk result (λ plan. plan.items ≡ self ∷ []) }
    {
        let mut plan = Vec::new(alloc);
        plan.push(self)?;
        Ok(plan)
    }
}
