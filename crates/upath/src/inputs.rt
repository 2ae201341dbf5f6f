//! A run over an input, whole or in parts: a line may begin in one part and end in another.
ghost use Rattle.std.specs.Prelude.{◌≡◌, ◌≤◌, ◌+◌, ◌++◌, [], List, ℕ, length, IfOk, OnOk};
ghost use Rattle.upath.specs.Commands.{command_of};
ghost use Rattle.upath.specs.Lines.{IsUnended};
ghost use Rattle.upath.specs.Output.{output_of, output_with, path_after, printed_by};

use crate::lines::find_line_feed;
use crate::run::Run;
use std::alloc::{AllocError, Allocator};

/// A run of the lines that have ended, and the line that has not.
#[derive(Drop)]
pub(crate) struct PartialRun<A: Allocator + Copy> {
    run: Run<A>,

    /// The bytes of the line that has not ended: they contain no line feed.
    begun: Vec<u8, A>,
}

impl<A: Allocator + Copy> PartialRun<A> {
    /// A run before the first part.
    pub(crate) fn new(alloc: A) -> Result<PartialRun<A>, AllocError>
        ensures { IfOk result (λ partial. (partial.run.path ≡ []) × (partial.run.output.items ≡ [])
            × (partial.begun.items ≡ [])) }
    {
        Ok(PartialRun {
            run: Run::new(alloc)?,
            begun: Vec::new(alloc),
        })
    }

    /// Runs the line that ends with these bytes.
    fn end_line(&mut self, end: &[u8]) -> Result<(), AllocError>
        ensures { OnOk result ((self.new.run.path
            ≡ path_after (command_of (self.old.begun.items ++ end.now)) self.old.run.path)
            × (self.new.run.output.items ≡ self.old.run.output.items
            ++ printed_by (command_of (self.old.begun.items ++ end.now)) self.old.run.path)
            × (self.new.begun.items ≡ [])) }
    {
        if self.begun.is_empty() {
            return self.run.line(end);
        }
        self.begun.extend_from_slice(end)?;
        let done = self.run.line(&self.begun);
        self.begun.clear();
        done
    }

    /// Runs the lines that end in a part, and keeps the bytes after them. If nothing is printed, no
    /// line ended.
    pub(crate) fn add(&mut self, part: &[u8]) -> Result<(), AllocError>
        requires { IsUnended self.old.begun.items }
        ensures unended { OnOk result (IsUnended self.new.begun.items) }
        ensures output { OnOk result ((rest : List ℕ) →
            output_with self.new.run.output.items self.new.run.path (self.new.begun.items ++ rest)
            ≡ output_with self.old.run.output.items self.old.run.path
            (self.old.begun.items ++ (part.now ++ rest))) }
        ensures longer { OnOk result (
            length self.old.run.output.items ≤ length self.new.run.output.items) }
        ensures begun { OnOk result (
            length self.new.run.output.items ≤ length self.old.run.output.items
            → length self.new.begun.items ≡ length self.old.begun.items + length part.now) }
    {
        let mut rest = part;
        while let Some(end) = find_line_feed(rest) {
            self.end_line(&rest[..end])?;
            rest = &rest[end + 1..];
        }
        self.begun.extend_from_slice(rest)
    }

    /// Runs the last line where no line feed ends it, and returns what the run printed.
    pub(crate) fn finish(self) -> Result<Vec<u8, A>, AllocError>
        requires { IsUnended self.begun.items }
        ensures { IfOk result (λ output. output.items
            ≡ output_with self.run.output.items self.run.path self.begun.items) }
    {
        let PartialRun { mut run, begun } = self;
        if !begun.is_empty() {
            run.line(&begun)?;
        }
        Ok(run.into_output())
    }
}

/// Returns what the lines of an input print, from the empty path on.
///
/// A line ends at a line feed; no other byte ends or trims a line.
///
/// | line | effect |
/// |---|---|
/// | `from T` | makes the path that of T, with its slashes replaced, and prints it |
/// | `push T`, `join T` | push the path of T, and print the path |
/// | `clear` | makes the path empty, and prints it |
/// | `parent` | makes the path its parent, and prints it; prints `none` if there is no parent |
/// | `pieces` | prints the number of components, and each component |
/// | `up` | prints the number of successive parents, and each parent |
/// | `eq T`, `cmp T` | print how the path compares with the path of T, whose slashes are kept |
/// | `check` | prints whether the path is accepted, or why not |
/// | `norm` | prints the normal path, or why there is none |
///
/// The edits are those of [`crate::run_commands`]. For a line that is not UTF-8, a line that is not
/// a command, and a T that is not a text of UCS-2, the output is a line that says so, and the path
/// is unchanged. The only error is out of memory; the output is then lost.
///
/// ```rust
/// let output = run_text(rt.alloc(), b"from /efi\npush boot\nparent\nparent\n")?;
/// let wanted = b"= \\efi\n= \\efi\\boot\n= efi\nnone\n";
/// assert_eq!(rt; output.as_slice(), wanted.as_slice());
/// ```
pub fn run_text<A: Allocator + Copy>(alloc: A, input: &[u8]) -> Result<Vec<u8, A>, AllocError>
    ensures { IfOk result (λ output. output.items ≡ output_of input.now) }
{
    let mut run = PartialRun::new(alloc)?;
    run.add(input)?;
    run.finish()
}
