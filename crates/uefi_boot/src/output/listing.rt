//! Prints a machine's boot variables, each entry as soon as it is read.
use crate::files::program_ends::{End, Output, status_of_listing};
use crate::files::variables::{Content, MOST_READ, PassedOver, Source, Variable, Variables};
use crate::output::boot_manager::{Head, HeadJson, name_of, write_variable};
use crate::output::entry::{Exact, Shown, push, write_shown};
use crate::output::growing_texts::{Growing, text_shown};
use crate::{Form, to_json};
use serde::Serialize;
use std::alloc::{AllocError, Global};
use uefi_boot_variables::LoadOptionKind;

/// A file that is not printed, and the reason, in JSON.
#[derive(Drop, Serialize)]
struct PassedOverJson {
    file: String,
    reason: &'static str,
}

/// An entry with its name, in JSON.
#[derive(Drop, Serialize)]
struct Named {
    name: String,
    /// Whether the order of its kind contains the entry; `None` if there is no order.
    in_order: Option<bool>,
    #[serde(flatten)]
    entry: Shown,
    #[serde(flatten)]
    exact: Exact,
}

/// The JSON after the entries.
#[derive(Drop, Serialize)]
struct Tail {
    not_set: Vec<String>,
    passed_over: Vec<PassedOverJson>,
}

/// The listing of all variables, so far.
#[derive(Drop)]
struct Listing<'a> {
    alloc: Global,
    out: Output<'a>,
    variables: &'a Variables<'a>,
    form: Form,
    /// Entries in an order that have no variable, each once.
    not_set: Vec<Variable>,
    is_first: bool,
    is_read: bool,
    is_well: bool,
}

/// Returns the contents of an entry from a file.
pub(crate) fn shown_entry(alloc: Global, content: &Content<'_>) -> Result<Shown, AllocError> {
    match content {
        Content::Bytes(bytes) => Shown::of_entry(alloc, bytes),
        Content::TooShort(reason) => Shown::malformed(alloc, 0, reason),
        Content::Unreadable(cause) => Shown::unreadable(alloc, cause),
    }
}

impl<'a> Listing<'a> {
    /// Prints an entry.
    fn print_entry(
        &mut self,
        source: &Source,
        in_order: Option<bool>,
        buffer: &mut [u8],
    ) -> Result<(), End> {
        let content = self.variables.read(source, buffer)?;
        let entry = shown_entry(self.alloc, &content)?;
        self.is_read = self.is_read && entry.is_read();
        self.is_well = self.is_well && entry.is_well();
        if self.form == Form::Json {
            self.list_entry(source.variable, in_order, entry, &content)?;
        } else {
            self.write_entry(source.variable, in_order, &entry);
        }
        self.out.flush()
    }

    /// Adds an entry to the list in JSON.
    fn list_entry(
        &mut self,
        variable: Variable,
        in_order: Option<bool>,
        entry: Shown,
        content: &Content<'_>,
    ) -> Result<(), End> {
        let named = Named {
            name: text_shown(self.alloc, &variable)?,
            in_order,
            entry,
            exact: Exact::of(self.alloc, content)?,
        };
        let text = to_json(self.alloc, &named)?;
        let between = if self.is_first { "\n" } else { ",\n" };
        self.is_first = false;
        self.out.text.add(&[between]);
        self.out.text.add(&[text.as_str()]);
        Ok(())
    }

    /// Writes an entry in lines.
    fn write_entry(&mut self, variable: Variable, in_order: Option<bool>, entry: &Shown) {
        let out = &mut self.out.text;
        write_variable(out, "", variable, "\n");
        if in_order == Some(false) {
            if let Some(option) = variable.option() {
                write_variable(out, "  not in ", Variable::order_of(option.kind), "\n");
            }
        }
        entry.write(out);
    }

    /// Prints the entries of a kind: first the entries of the order, in order and once each, and
    /// then the others by number.
    fn print_kind(
        &mut self,
        kind: LoadOptionKind,
        order: &Option<Vec<u16>>,
        buffer: &mut [u8],
    ) -> Result<(), End> {
        let mut is_seen = [false; 65536];
        let in_order = order.is_some();
        if let Some(numbers) = order {
            for number in numbers {
                if is_seen[usize::from(*number)] {
                    continue;
                }
                is_seen[usize::from(*number)] = true;
                let variable = Variable::of_kind(kind, *number);
                match self.variables.find(variable) {
                    Some(source) => self.print_entry(&source, Some(true), buffer)?,
                    None => push(&mut self.not_set, variable)?,
                }
            }
        }
        let others = if in_order { Some(false) } else { None };
        let variables = self.variables;
        for source in &variables.sources {
            if let Some(option) = source.variable.option() {
                if option.kind == kind && !is_seen[usize::from(option.number)] {
                    self.print_entry(source, others, buffer)?;
                }
            }
        }
        Ok(())
    }

    /// Prints the entries of all kinds.
    fn print_kinds(&mut self, head: &Head, buffer: &mut [u8]) -> Result<(), End> {
        self.print_kind(LoadOptionKind::Boot, &head.boot_order, buffer)?;
        self.print_kind(LoadOptionKind::Driver, &head.driver_order, buffer)?;
        self.print_kind(LoadOptionKind::SysPrep, &head.sysprep_order, buffer)?;
        self.print_kind(LoadOptionKind::PlatformRecovery, &None, buffer)
    }

    /// Prints the lines before the entries.
    fn print_head(&mut self, head: &Head) -> Result<(), End> {
        self.is_read = head.is_read();
        self.is_well = head.is_well();
        if self.form == Form::Json {
            let json = to_json(self.alloc, &HeadJson::of(self.alloc, head)?)?;
            let fields = json.as_str().strip_suffix("}").unwrap_or("{");
            self.out.text.add(&[fields, ",\n\"entries\":["]);
        } else {
            head.write(&mut self.out.text);
        }
        self.out.flush()
    }

    /// Prints the lines after the entries.
    fn print_tail(&mut self) -> Result<(), End> {
        if self.form == Form::Json {
            let json = to_json(self.alloc, &self.tail()?)?;
            let fields = json.as_str().strip_prefix("{").unwrap_or("}");
            self.out.text.add(&["],\n", fields, "\n"]);
        } else {
            self.write_tail();
        }
        self.out.flush()
    }

    /// Writes the lines after the entries.
    fn write_tail(&mut self) {
        let out = &mut self.out.text;
        for variable in &self.not_set {
            if let Some(option) = variable.option() {
                write_variable(out, "", *variable, ": in ");
                write_variable(out, "", Variable::order_of(option.kind), ", but not set\n");
            }
        }
        for it in &self.variables.passed_over {
            write_passed_over(out, it);
        }
    }

    fn tail(&self) -> Result<Tail, AllocError> {
        let mut tail = Tail {
            not_set: Vec::new(self.alloc),
            passed_over: Vec::new(self.alloc),
        };
        for variable in &self.not_set {
            if let Some(option) = variable.option() {
                tail.not_set
                    .push(name_of(self.alloc, option.kind, option.number)?)?;
            }
        }
        for it in &self.variables.passed_over {
            tail.passed_over.push(PassedOverJson {
                file: it.file.clone()?,
                reason: it.reason,
            })?;
        }
        Ok(tail)
    }
}

/// Writes the line of a file that is not printed.
fn write_passed_over(out: &mut Growing, it: &PassedOver) {
    out.add(&["passed over: "]);
    for character in it.file.as_str().chars() {
        write_shown(out, character);
    }
    out.add(&[": ", it.reason, "\n"]);
}

/// Prints the values of variables, and returns the exit status.
pub(crate) fn print(rt: &HostRuntime, variables: &Variables<'_>, form: Form) -> Result<u8, End> {
    let mut buffer = [0; MOST_READ];
    let head = Head::of(rt.alloc(), variables, &mut buffer)?;
    let mut listing = Listing {
        alloc: rt.alloc(),
        out: Output::new(rt),
        variables,
        form,
        not_set: Vec::new(rt.alloc()),
        is_first: true,
        is_read: true,
        is_well: true,
    };
    listing.print_head(&head)?;
    listing.print_kinds(&head, &mut buffer)?;
    listing.print_tail()?;
    Ok(status_of_listing(listing.is_read, listing.is_well))
}
