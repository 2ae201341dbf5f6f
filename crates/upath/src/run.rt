//! A run line by line: the path between the lines, and the output of each line.
ghost use Rattle.std.specs.Prelude.{◌≡◌, ◌-◌, ◌++◌, [], length, Some, None, IfOk, IfSome, OnOk, MatchOption, codes};
ghost use Rattle.std.specs.List.{flat_map};
ghost use Rattle.std.specs.Str.{chars};
ghost use Rattle.uefi_path.specs.Components.{components_of};
ghost use Rattle.uefi_text.specs.ErrorTexts.{from_str_error_text};
ghost use Rattle.uefi_text.specs.FromStr.{from_str_refusal};
ghost use Rattle.uefi_path.specs.NormalForms.{normal_of, normal_text};
ghost use Rattle.uefi_path.specs.PathErrors.{path_error_text};
ghost use Rattle.uefi_path.specs.SuccessiveParents.{parent_chain, parents_of};
ghost use Rattle.uefi_path.specs.Verdicts.{verdict};
ghost use Rattle.upath.specs.Commands.{command_of, from_text, push_text, parent_path, eq_text, cmp_text};
ghost use Rattle.upath.specs.Output.{check_line, line, norm_line, parents_lines, path_after, path_line, pieces_lines, printed_by, text_line};
ghost use Rattle.upath.specs.PathCommands.{after_command};

use crate::commands::Command;
use crate::output::{add_count_line, add_line, add_text_line};
use crate::path_commands::{PathCommand, run_command};
use std::alloc::{AllocError, Allocator};
use std::cmp::Ordering;
use uefi_path::{NormalizeError, Path, PathBuf, PathError, validate_path};
use uefi_text::strings::owned_strs::{CString16, FromStrError};

/// A run so far: the path that the next line finds, and what was printed.
#[derive(Drop)]
pub(crate) struct Run<A: Allocator + Copy> {
    alloc: A,
    path: PathBuf<A>,
    output: Vec<u8, A>,
}

/// Returns the number of components of a path.
fn count_components<A: Allocator + Copy>(path: &PathBuf<A>) -> usize
    ensures { result ≡ length (components_of path.now) }
{
    path.components().count()
}

/// Adds a line for each component of a path.
fn add_component_lines<A: Allocator + Copy>(
    output: &mut Vec<u8, A>,
    path: &PathBuf<A>,
) -> Result<(), AllocError>
    ensures { OnOk result (output.new.items
        ≡ output.old.items ++ flat_map (text_line (codes "| ")) (components_of path.now)) }
{
    for component in path.components() {
        add_text_line(output, b"| ", component)?;
    }
    Ok(())
}

/// Returns the number of successive parents of a path whose first parent this is.
fn count_parents<A: Allocator + Copy>(parent: &Option<PathBuf<A>>) -> usize
    requires { IfSome parent.now (λ parent.
        length (parents_of parent) ≡ length (components_of parent) - 1) }
    ensures { result ≡ length (parent_chain parent.now) }
{
    match parent {
        None => 0,
        Some(parent) => count_components(parent).max(1),
    }
}

/// Adds a line for a path, if there is one, for its parent, and so on. Holds at most two of these
/// paths.
fn add_parent_lines<A: Allocator + Copy>(
    output: &mut Vec<u8, A>,
    mut next: Option<PathBuf<A>>,
) -> Result<(), AllocError>
    ensures { OnOk result (output.new.items
        ≡ output.old.items ++ flat_map (text_line (codes "| ")) (parent_chain next)) }
{
    while let Some(path) = next {
        add_text_line(output, b"| ", path.to_cstr16().as_slice())?;
        next = path.parent()?;
    }
    Ok(())
}

impl<A: Allocator + Copy> Run<A> {
    /// A run before its first line.
    pub(crate) fn new(alloc: A) -> Result<Run<A>, AllocError>
        ensures { IfOk result (λ run. (run.path ≡ []) × (run.output.items ≡ [])) }
    {
        Ok(Run {
            alloc,
            path: PathBuf::new(alloc)?,
            output: Vec::new(alloc),
        })
    }

    /// Returns the string of a command's text. If the text is refused, prints why, and returns
    /// `None`.
    #[inline(always)]
    fn read_text(&mut self, text: &str) -> Result<Option<CString16<A>>, AllocError>
        ensures { IfOk result (λ string. (self.new.path ≡ self.old.path) × MatchOption string
            ((error : FromStrError)
            × (from_str_refusal (chars text.now) ≡ Some error)
            × (self.new.output.items ≡ self.old.output.items ++ line (from_str_error_text error)))
            (λ string.
            (from_str_refusal (chars text.now) ≡ None)
            × (string ≡ chars text.now)
            × (self.new.output.items ≡ self.old.output.items))) }
    {
        match CString16::try_from_str(self.alloc, text) {
            Ok(string) => Ok(Some(string)),
            Err(FromStrError::OutOfMemory) => Err(AllocError),
            Err(error) => {
                let line = format!(in self.alloc; "{error}")?;
                add_line(&mut self.output, &line)?;
                Ok(None)
            }
        }
    }

    /// Prints the path.
    fn print_path(&mut self) -> Result<(), AllocError>
        ensures path { self.new.path ≡ self.old.path }
        ensures output { OnOk result
            (self.new.output.items ≡ self.old.output.items ++ path_line self.old.path) }
    {
        add_text_line(&mut self.output, b"= ", self.path.to_cstr16().as_slice())
    }

    /// Edits the path and prints it.
    fn edit(&mut self, command: PathCommand<'_>) -> Result<(), AllocError>
        ensures { OnOk result ((self.new.path ≡ after_command self.old.path command.entry)
            × (self.new.output.items
            ≡ self.old.output.items ++ path_line (after_command self.old.path command.entry))) }
    {
        run_command(self.alloc, &mut self.path, command)?;
        self.print_path()
    }

    /// `from T`
    fn from(&mut self, text: &str) -> Result<(), AllocError>
        ensures { OnOk result ((self.new.path ≡ path_after (from_text text.now) self.old.path)
            × (self.new.output.items
            ≡ self.old.output.items ++ printed_by (from_text text.now) self.old.path)) }
    {
        let Some(string) = self.read_text(text)? else {
            return Ok(());
        };
        let Ok(path) = PathBuf::new_from_cstring16(self.alloc, string) else {
            return Err(AllocError);
        };
        self.path = path;
        self.print_path()
    }

    /// `push T`
    fn push(&mut self, text: &str) -> Result<(), AllocError>
        ensures { OnOk result ((self.new.path ≡ path_after (push_text text.now) self.old.path)
            × (self.new.output.items
            ≡ self.old.output.items ++ printed_by (push_text text.now) self.old.path)) }
    {
        match self.read_text(text)? {
            Some(string) => self.edit(PathCommand::Push(Path::new(string.as_cstr16()))),
            None => Ok(()),
        }
    }

    /// `parent`
    fn parent(&mut self) -> Result<(), AllocError>
        ensures { OnOk result ((self.new.path ≡ path_after parent_path self.old.path)
            × (self.new.output.items ≡ self.old.output.items ++ printed_by parent_path self.old.path)) }
    {
        match self.path.parent()? {
            Some(parent) => {
                self.path = parent;
                self.print_path()
            }
            None => add_line(&mut self.output, "none"),
        }
    }

    /// `pieces`
    fn pieces(&mut self) -> Result<(), AllocError>
        ensures { OnOk result ((self.new.path ≡ self.old.path)
            × (self.new.output.items ≡ self.old.output.items ++ pieces_lines (components_of self.old.path))) }
    {
        let count = count_components(&self.path);
        add_count_line(self.alloc, &mut self.output, "pieces ", count)?;
        add_component_lines(&mut self.output, &self.path)
    }

    /// `up`
    fn up(&mut self) -> Result<(), AllocError>
        ensures { OnOk result ((self.new.path ≡ self.old.path)
            × (self.new.output.items ≡ self.old.output.items ++ parents_lines (parents_of self.old.path))) }
    {
        let parent = self.path.parent()?;
        let count = count_parents(&parent);
        add_count_line(self.alloc, &mut self.output, "parents ", count)?;
        add_parent_lines(&mut self.output, parent)
    }

    /// `eq T`
    fn eq(&mut self, text: &str) -> Result<(), AllocError>
        ensures { OnOk result ((self.new.path ≡ self.old.path)
            × (self.new.output.items
            ≡ self.old.output.items ++ printed_by (eq_text text.now) self.old.path)) }
    {
        let Some(string) = self.read_text(text)? else {
            return Ok(());
        };
        let line = if self.path.as_path() == Path::new(string.as_cstr16()) {
            "equal"
        } else {
            "different"
        };
        add_line(&mut self.output, line)
    }

    /// `cmp T`
    fn cmp(&mut self, text: &str) -> Result<(), AllocError>
        ensures { OnOk result ((self.new.path ≡ self.old.path)
            × (self.new.output.items
            ≡ self.old.output.items ++ printed_by (cmp_text text.now) self.old.path)) }
    {
        let Some(string) = self.read_text(text)? else {
            return Ok(());
        };
        let line = match self.path.as_path().cmp(&Path::new(string.as_cstr16())) {
            Ordering::Less => "less",
            Ordering::Equal => "equal",
            Ordering::Greater => "greater",
        };
        add_line(&mut self.output, line)
    }

    /// Prints why a path is refused.
    fn print_fault(&mut self, error: PathError) -> Result<(), AllocError>
        ensures path { self.new.path ≡ self.old.path }
        ensures output { OnOk result
            (self.new.output.items ≡ self.old.output.items ++ line (path_error_text error)) }
    {
        let line = format!(in self.alloc; "{error}")?;
        add_line(&mut self.output, &line)
    }

    /// `check`
    fn check(&mut self) -> Result<(), AllocError>
        ensures { OnOk result ((self.new.path ≡ self.old.path)
            × (self.new.output.items ≡ self.old.output.items ++ check_line (verdict self.old.path))) }
    {
        match validate_path(self.path.as_path()) {
            Ok(()) => add_line(&mut self.output, "ok"),
            Err(error) => self.print_fault(error),
        }
    }

    /// `norm`
    fn norm(&mut self) -> Result<(), AllocError>
        ensures { OnOk result ((self.new.path ≡ self.old.path)
            × (self.new.output.items ≡ self.old.output.items
            ++ norm_line (verdict self.old.path) (normal_text (normal_of (components_of self.old.path))))) }
    {
        match self.path.as_path().normalize(self.alloc) {
            Ok(path) => add_text_line(&mut self.output, b"= ", path.to_cstr16().as_slice()),
            Err(NormalizeError::Invalid(error)) => self.print_fault(error),
            Err(NormalizeError::OutOfMemory) => Err(AllocError),
        }
    }

    /// Runs a line.
    pub(crate) fn line(&mut self, line: &[u8]) -> Result<(), AllocError>
        ensures { OnOk result ((self.new.path ≡ path_after (command_of line.now) self.old.path)
            × (self.new.output.items
            ≡ self.old.output.items ++ printed_by (command_of line.now) self.old.path)) }
    {
        match Command::of_line(line) {
            Command::From(text) => self.from(text),
            // A text that is joined to the path between the lines is pushed: nothing else needs the
            // path before it.
            Command::Push(text) | Command::Join(text) => self.push(text),
            Command::Clear => self.edit(PathCommand::Clear),
            Command::Parent => self.parent(),
            Command::Pieces => self.pieces(),
            Command::Up => self.up(),
            Command::Eq(text) => self.eq(text),
            Command::Cmp(text) => self.cmp(text),
            Command::Check => self.check(),
            Command::Norm => self.norm(),
            Command::Unknown => add_line(&mut self.output, "? unknown command"),
            Command::NotUtf8 => add_line(&mut self.output, "? not UTF-8"),
        }
    }

    /// Returns the output.
    pub(crate) fn into_output(self) -> Vec<u8, A>
        ensures { result ≡ self.output }
    {
        let Run {
            alloc: _,
            path: _,
            output,
        } = self;
        output
    }
}
