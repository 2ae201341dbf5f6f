//! Where texts stop being read, and what is expected there.
#![tactic(auto)]

ghost use Rattle.std.specs.Prelude.{◌≡◌};
ghost use Rattle.uefi_node_reader.specs.Stops.{further, stop_at};

use crate::errors::faults::{Expected, Stop};
use crate::texts::Text;

/// Returns the stop at the start of a text, where this was expected.
pub(crate) fn stop_at<T: Text>(text: T, expected: Expected) -> Stop
    ensures { result ≡ stop_at (T.bytes text) expected }
{
    Stop {
        left: text.len(),
        expected,
    }
}

/// Returns the stop with less text left, or the first if neither has less.
pub(crate) fn further(one: Option<Stop>, other: Option<Stop>) -> Option<Stop>
    ensures { result ≡ further one other }
{
    match (one, other) {
        (None, _) => other,
        (Some(_), None) => one,
        (Some(stop), Some(next)) => {
            if next.left < stop.left {
                Some(next)
            } else {
                Some(stop)
            }
        }
    }
}
