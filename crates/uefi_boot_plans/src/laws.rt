//! The laws of plans, for proofs of callers. Each law is a function that does nothing: its contract is
//! the law.
ghost use Rattle.uefi_boot_plans.specs.PowerFailures.{CreationIsSafe, DeletionIsSafe, DeletionOnFullIsSafe, EditIsSafe, FirstIsSafe, OrderIsSafe, OthersAreSafe};

/// What the variables hold if the power fails before, between or after the writes of a plan: each
/// entry that the plan does not change is there, and is in the order unless the plan removes it.
/// Only the plan of [`delete_on_full`](crate::delete_on_full) leaves an order that names the deleted
/// entry, which firmware skips. `edit` speaks of [`set_active`](crate::set_active),
/// [`rename`](crate::rename) and [`create_unlisted`](crate::create_unlisted).
pub fn power_failures()
    ensures create { CreationIsSafe }
    ensures delete { DeletionIsSafe }
    ensures delete_on_full { DeletionOnFullIsSafe }
    ensures first { FirstIsSafe }
    ensures order { OrderIsSafe }
    ensures edit { EditIsSafe }
    ensures others { OthersAreSafe }
{}
