//! Lists of commands on one path.
ghost use Rattle.std.specs.Prelude.{◌≡◌, ◌<◌, ℕ, List, None, IfErr, IfOk, IsSomeAnd, MatchResult, OnOk, length, map, slice_get, take, Some};
ghost use Rattle.uefi_path.specs.Components.{AreComponents, components_of};
ghost use Rattle.uefi_path.specs.SuccessiveParents.{AreParents, parents_of, shorter_prefixes};
ghost use Rattle.uefi_path.specs.Verdicts.{verdict};
ghost use Rattle.uefi_path.specs.Views.{path_text};
ghost use Rattle.uefi_text.specs.Views.{units_of};
ghost use Rattle.upath.specs.PathCommands.{TakesMemory, after_command, after_commands};
ghost use Rattle.upath.specs.ErrorTexts.{run_fault_text};

use std::alloc::{AllocError, Allocator};
use std::error::Error;
use std::fmt;
use uefi_path::{Path, PathBuf, laws};
use uefi_text::number_texts::put_decimal;
use uefi_text::text_sink::{Printed, TextSink, print};
use uefi_text::{CStr16, Char16Slice};

/// An edit of a path buffer.
#[derive(Clone, Copy, Debug)]
pub enum PathCommand<'a> {
    /// The path becomes the path of a string, with each slash replaced.
    From(CStr16<'a>),

    /// Another path is pushed, as [`PathBuf::push`] does.
    Push(Path<'a>),

    /// The path becomes [`PathBuf::join`] of it and another.
    Join(Path<'a>),

    /// The path becomes empty.
    Clear,

    /// The path becomes its parent, or is unchanged if it has none.
    Parent,
}

/// A list of commands was cut short because memory ran out.
#[derive(Clone, Copy, Debug, PartialEq, Eq)]
pub struct RunFault {
    /// The number of commands that were done.
    pub done: usize,
}

/// Puts `out of memory after N commands`, with N in decimal.
impl Printed for RunFault {
    ghost printed = { λ fault. run_fault_text fault.done };

    #[tactic(auto, using(uefi_text::proofs::Puts::puts))]
    fn put<S: TextSink>(&self, sink: &mut S) {
        put_decimal(sink, "out of memory after ", self.done as u64);
        sink.put_str(" commands");
    }
}

/// Prints the same text.
impl fmt::Display for RunFault {
    ghost output = { λ fault. Some (run_fault_text fault.done) };

    fn fmt<W: fmt::Write>(&self, f: &mut fmt::Formatter<W>) -> fmt::Result {
        print(f, self)
    }
}

impl Error for RunFault {}

/// Does one command: the edit both of a list of commands and of a line. After a refusal the path is
/// unchanged.
pub(crate) fn run_command<A: Allocator + Copy>(
    alloc: A,
    path: &mut PathBuf<A>,
    command: PathCommand<'_>,
) -> Result<(), AllocError>
    ensures { MatchResult result
        (λ _. path.new ≡ after_command path.old command.entry)
        (λ _. (path.new ≡ path.old) × TakesMemory path.old command.entry) }
{
    let next = match command {
        PathCommand::From(string) => PathBuf::from(alloc, string),
        PathCommand::Push(other) => return path.push(other),
        PathCommand::Join(other) => path.join(other),
        PathCommand::Clear => {
            path.clear();
            return Ok(());
        }
        PathCommand::Parent => {
            let Some(parent) = path.parent()? else {
                return Ok(());
            };
            Ok(parent)
        }
    };
    *path = next?;
    Ok(())
}

/// Runs commands on a path, one after the other: the path becomes the result of folding their
/// meaning over it.
///
/// If memory runs out, the error says how many commands were done, which is fewer than all, and the
/// path is the result of these. `Clear`, `Push` of an empty path, and `Parent` of a path without a
/// parent do not allocate. The cost is the total cost of the commands.
///
/// ```rust
/// let name = CStr16::from_u16_with_nul(&[0x65, 0x66, 0x69, 0])?;
/// let mut path = PathBuf::new(rt.alloc())?;
/// let commands = [PathCommand::From(name), PathCommand::Push(Path::new(name))];
/// run_commands(rt.alloc(), &mut path, &commands)?;
/// assert_eq!(rt; format!(in rt.alloc(); "{path}")?.as_str(), r"efi\efi");
/// ```
pub fn run_commands<A: Allocator + Copy>(
    alloc: A,
    path: &mut PathBuf<A>,
    commands: &[PathCommand<'_>],
) -> Result<(), RunFault>
    ensures ok { OnOk result (path.new ≡ after_commands path.old commands.now) }
    ensures done { IfErr result (λ fault. fault.done < length commands.now) }
    ensures path { IfErr result (λ fault. path.new ≡ after_commands path.old (take fault.done commands.now)) }
    ensures memory { IfErr result (λ fault.
        IsSomeAnd (slice_get commands.now fault.done) (λ command. TakesMemory path.new command)) }
{
    for done in 0..commands.len() {
        if run_command(alloc, path, commands[done]).is_err() {
            return Err(RunFault { done });
        }
    }
    Ok(())
}

/// Returns the components of a path as a list. They are the only list of pieces without separators
/// that joins to the path's canonical text, except that a list of one empty piece does not count.
/// Allocates for the list. Returns `AllocError` if memory runs out.
///
/// ```rust
/// let text = CString16::try_from_str(rt.alloc(), r"\efi\boot")?;
/// let pieces = pieces(rt.alloc(), Path::new(text.as_cstr16()))?;
/// assert_eq!(rt; pieces.len(), 2);
/// assert_eq!(rt; pieces.last().copied(), Some(text.as_cstr16().as_slice().part(5, 9)));
/// ```
pub fn pieces<'a, A: Allocator>(
    alloc: A,
    path: Path<'a>,
) -> Result<Vec<Char16Slice<'a>, A>, AllocError>
    ensures components { IfOk result (λ pieces.
        AreComponents (path_text path.entry) (map units_of pieces.items)) }
    ensures only { IfOk result (λ pieces. (others : List (List ℕ)) →
        AreComponents (path_text path.entry) others → others ≡ map units_of pieces.items) }
    ensures same { IfOk result (λ pieces. map units_of pieces.items ≡ components_of (path_text path.entry)) }
{
    path.components().collect(alloc)
}

/// Returns the parent of a path, the parent of that parent, and so on until there is none. For a
/// valid path these are its shorter prefixes, the longest first. Allocates as [`PathBuf::parent`]
/// does for each, and for the list. The cost is proportional to the total length of the parents.
/// Returns `AllocError` if memory runs out.
///
/// ```rust
/// let text = CString16::try_from_str(rt.alloc(), r"\a\b\c")?;
/// let path = PathBuf::from(rt.alloc(), text.as_cstr16())?;
/// let parents = all_parents(rt.alloc(), &path)?;
/// let printed = format!(in rt.alloc(); "{} {}", parents[0], parents[1])?;
/// assert_eq!(rt; (parents.len(), printed.as_str()), (2, r"a\b a"));
/// ```
pub fn all_parents<A: Allocator + Copy>(
    alloc: A,
    path: &PathBuf<A>,
) -> Result<Vec<PathBuf<A>, A>, AllocError>
    ensures parents { IfOk result (λ parents. AreParents path.now parents.items) }
    ensures same { IfOk result (λ parents. parents.items ≡ parents_of path.now) }
    ensures prefixes { IfOk result (λ parents.
        verdict path.now ≡ None → parents.items ≡ shorter_prefixes path.now) }
{
    let mut next = path.parent()?;
    let mut parents = Vec::new(alloc);
    while let Some(parent) = next {
        next = parent.parent()?;
        parents.push(parent)?;
    }
    // The two laws do nothing: they say which lists are the successive parents of a path.
    laws::parent_count();
    laws::parents_enumerate();
    Ok(parents)
}
