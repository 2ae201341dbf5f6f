//! The index of the component for which a path is refused.
#![tactic(auto, using(crate::proofs::Rules::faults_rules))]

ghost use Rattle.std.specs.Prelude.{◌≡◌, ◌↔◌, IfErr, IsOk, MatchOption, MatchResult, None, Some};
ghost use Rattle.uefi_path.specs.FaultPlaces.{IsRefusedAt};
ghost use Rattle.uefi_path.specs.Verdicts.{IsValid, verdict};
ghost use Rattle.uefi_path.specs.Views.{path_text};

use crate::path::Path;
use crate::validation::{PathError, depth_after, find_fault};

/// The reason why a path is refused, and the component's index.
#[derive(Clone, Copy, Debug, PartialEq, Eq)]
pub struct PathFault {
    /// The reason: the error of [`validate_path`](crate::validate_path).
    pub error: PathError,

    /// The index at which the component at fault begins in the text of the path: the number of
    /// characters before it, including a leading separator. It is 0 if the text is empty.
    pub place: usize,
}

/// Returns why a path is refused, and where, if it is refused.
fn find_path_fault(path: Path<'_>) -> Option<PathFault>
    ensures { MatchOption result (verdict (path_text path.entry) ≡ None)
        (λ fault. IsRefusedAt (path_text path.entry) fault) }
{
    if path.is_empty() {
        let error = PathError::Empty;
        return Some(PathFault { error, place: 0 });
    }
    let mut depth = 0;
    for (place, component) in path.component_indices() {
        if let Some(error) = find_fault(component) {
            return Some(PathFault { error, place });
        }
        let Some(left) = depth_after(depth, component) else {
            let error = PathError::ClimbsAboveRoot;
            return Some(PathFault { error, place });
        };
        depth = left;
    }
    None
}

/// Checks a path, as [`validate_path`](crate::validate_path) does. The error also has the index at
/// which the first component at fault begins. Does not allocate.
///
/// ```rust
/// let text = CString16::try_from_str(rt.alloc(), r"\efi\b?ot")?;
/// let error = PathError::IllegalChar(Char16::try_from_char('?')?);
/// let refused = validate_path_at(Path::new(text.as_cstr16()));
/// assert_eq!(rt; refused, Err(PathFault { error, place: 5 }));
/// ```
pub fn validate_path_at(path: Path<'_>) -> Result<(), PathFault>
    ensures valid { IsOk result ↔ IsValid (path_text path.entry) }
    ensures verdict { MatchResult result (λ _. verdict (path_text path.entry) ≡ None)
        (λ fault. verdict (path_text path.entry) ≡ Some fault.error) }
    ensures refusal { IfErr result (λ fault. IsRefusedAt (path_text path.entry) fault) }
{
    match find_path_fault(path) {
        None => Ok(()),
        Some(fault) => Err(fault),
    }
}
