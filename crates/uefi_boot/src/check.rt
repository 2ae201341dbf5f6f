//! Reports faults that would make firmware or the machine fail.
use crate::command_line::arguments::Words;
use crate::files::program_ends::{End, Output, status_of_listing};
use crate::files::variables::{
    Content, MOST_READ, OWN, PassedOver, Source, Variable, Variables, path_below, unreadable,
};
use crate::output::boot_manager::Head;
use crate::output::entry::{File, Shown, list_start};
use crate::output::growing_texts::{Growing, joined, text_shown};
use crate::partitions::DISKS;
use crate::{Form, to_json};
use serde::Serialize;
use std::alloc::{AllocError, Global};
use std::collections::BTreeMap;
use std::{fs, io};
use uefi_boot_variables::LoadOptionKind;
use uefi_device_path::media::HardDrive;
use uefi_device_path::{LoadOption, ShortForm};

/// What EDK II's default limit, 1,024 bytes, leaves for the name and the value of a variable after its
/// headers.
const COMMON_LIMIT: usize = 1024 - 60;

/// Returns the greatest size of the value of a variable in firmware with EDK II's default limit.
/// The name is stored in UTF-16, with its NUL.
fn common_limit(name: &str) -> usize {
    COMMON_LIMIT.saturating_sub(name.len().saturating_add(1).saturating_mul(2))
}

/// A fault, in JSON.
#[derive(Drop, Serialize)]
struct Fault<'a> {
    /// The variable, or the file that is not read.
    name: String,
    offset: Option<usize>,
    unreadable: bool,
    reason: &'a str,
}

impl<'a> Fault<'a> {
    /// Writes the line of the fault.
    fn write(&self, out: &mut Growing) {
        out.add(&[self.name.as_str(), ": "]);
        match self.offset {
            Some(offset) => {
                out.add(&["offset "]);
                out.show(&offset);
            }
            None if self.unreadable => out.add(&["cannot be read"]),
            None => out.add(&["passed over"]),
        }
        out.add(&[": ", self.reason, "\n"]);
    }
}

/// The report so far.
#[derive(Drop)]
struct Check<'a> {
    rt: &'a HostRuntime,
    out: Output<'a>,
    form: Form,
    is_first: bool,
    variables: &'a Variables<'a>,
    /// The mount point of the EFI system partition, if it is known.
    esp: Option<&'a str>,
    /// The links of partitions, if they belong to the machine.
    disks: Option<&'a str>,
    /// The number of the first entry with each combination of device path and optional data.
    seen: BTreeMap<Vec<u8>, u16>,
    is_well: bool,
    is_read: bool,
}

/// Returns whether a unit is a control character.
fn is_control(unit: u16) -> bool {
    unit < 0x20 || (0x7f <= unit && unit < 0xa0)
}

impl<'a> Check<'a> {
    /// Adds a fault to the list in JSON, one on a line, or writes its line.
    fn list(&mut self, fault: &Fault<'_>) -> Result<(), End> {
        if self.form == Form::Json {
            let text = to_json(self.rt.alloc(), fault)?;
            let between = if self.is_first { "\n" } else { ",\n" };
            self.is_first = false;
            self.out.text.add(&[between]);
            self.out.text.add(&[text.as_str()]);
        } else {
            fault.write(&mut self.out.text);
        }
        self.out.flush()
    }

    /// Reports a fault of a variable at an offset, in a sentence in parts.
    fn report(&mut self, variable: Variable, offset: usize, sentence: &[&str]) -> Result<(), End> {
        self.is_well = false;
        let reason = joined(self.rt.alloc(), sentence)?;
        self.list(&Fault {
            name: text_shown(self.rt.alloc(), &variable)?,
            offset: Some(offset),
            unreadable: false,
            reason: reason.as_str(),
        })
    }

    /// Reports a fault of a variable in a sentence that names another variable.
    fn report_other(
        &mut self,
        variable: Variable,
        offset: usize,
        before: &str,
        other: Variable,
        after: &str,
    ) -> Result<(), End> {
        let other = text_shown(self.rt.alloc(), &other)?;
        self.report(variable, offset, &[before, other.as_str(), after])
    }

    /// Reports a variable that can't be read.
    fn report_unreadable(&mut self, variable: Variable, cause: &String) -> Result<(), End> {
        self.is_read = false;
        self.list(&Fault {
            name: text_shown(self.rt.alloc(), &variable)?,
            offset: None,
            unreadable: true,
            reason: cause.as_str(),
        })
    }

    /// Reports a file that is not read.
    fn report_skipped(&mut self, skipped: &PassedOver) -> Result<(), End> {
        self.is_well = false;
        self.list(&Fault {
            name: skipped.file.clone()?,
            offset: None,
            unreadable: false,
            reason: skipped.reason,
        })
    }

    /// Checks the variables that are not entries.
    fn check_head(&mut self, head: &Head) -> Result<(), End> {
        for it in &head.silent {
            if it.is_malformed {
                self.report(it.variable, it.offset, &[it.reason.as_str()])?;
            } else {
                self.report_unreadable(it.variable, &it.reason)?;
            }
        }
        self.check_order(Variable::BootOrder, LoadOptionKind::Boot, &head.boot_order)?;
        let (driver, sysprep) = (LoadOptionKind::Driver, LoadOptionKind::SysPrep);
        self.check_order(Variable::DriverOrder, driver, &head.driver_order)?;
        self.check_order(Variable::SysPrepOrder, sysprep, &head.sysprep_order)?;
        if let Some(number) = head.boot_next {
            let variable = Variable::Boot(number);
            if self.variables.find(variable).is_none() {
                self.report_other(Variable::BootNext, 0, "", variable, " is not set")?;
            }
        }
        Ok(())
    }

    /// Checks that each number of an order has a variable, and occurs once.
    fn check_order(
        &mut self,
        order: Variable,
        kind: LoadOptionKind,
        numbers: &Option<Vec<u16>>,
    ) -> Result<(), End> {
        let Some(numbers) = numbers else {
            return Ok(());
        };
        let mut is_seen = [false; 65536];
        for (place, number) in numbers.iter().enumerate() {
            let variable = Variable::of_kind(kind, *number);
            let offset = place.saturating_mul(2);
            let what = if is_seen[usize::from(*number)] {
                " stands twice"
            } else if self.variables.find(variable).is_none() {
                " is not set"
            } else {
                ""
            };
            if !what.is_empty() {
                self.report_other(order, offset, "", variable, what)?;
            }
            is_seen[usize::from(*number)] = true;
        }
        Ok(())
    }

    /// Checks the description of an entry.
    fn check_description(
        &mut self,
        variable: Variable,
        option: &LoadOption<'_>,
    ) -> Result<(), End> {
        let units = option.description_units();
        for (place, unit) in units.iter().enumerate() {
            if is_control(unit) && place.saturating_add(1) < units.len() {
                let offset = place.saturating_mul(2).saturating_add(6);
                let digits = text_shown(self.rt.alloc(), &format_args!("{unit:04X}"))?;
                let what = "the description has the control character U+";
                self.report(variable, offset, &[what, digits.as_str()])?;
            }
        }
        Ok(())
    }

    /// Checks that no other entry has the same device paths and optional data.
    fn check_duplicate(
        &mut self,
        variable: Variable,
        number: u16,
        option: &LoadOption<'_>,
    ) -> Result<(), End> {
        let paths = option.file_path_list();
        let mut key = Vec::from_slice(self.rt.alloc(), &paths.len().to_le_bytes())?;
        key.extend_from_slice(paths)?;
        key.extend_from_slice(option.optional_data())?;
        if let Some(other) = self.seen.get(&key) {
            let (offset, other) = (
                list_start(option.description_units()),
                Variable::Boot(*other),
            );
            let what = "it has the device paths and the data of ";
            return self.report_other(variable, offset, what, other, "");
        }
        self.seen.insert(key, number)?;
        Ok(())
    }

    /// Checks that the machine has the partition at the start of an entry's first device path.
    fn check_disk(&mut self, variable: Variable, option: &LoadOption<'_>) -> Result<(), End> {
        let Some(disks) = self.disks else {
            return Ok(());
        };
        let Some(path) = option.device_paths().next() else {
            return Ok(());
        };
        if path.short_form() != Some(ShortForm::HardDrive) {
            return Ok(());
        }
        let Some(node) = path.node_iter().next() else {
            return Ok(());
        };
        let Ok(drive) = HardDrive::from_node(node) else {
            return Ok(());
        };
        let link = link_of(self.rt.alloc(), drive)?;
        let path = path_below(self.rt.alloc(), disks, link.as_str())?;
        if fs::metadata(self.rt, path.as_str()).is_ok() {
            return Ok(());
        }
        let offset = list_start(option.description_units());
        self.report(
            variable,
            offset,
            &["no disk here has the partition ", link.as_str()],
        )
    }

    /// Checks a file that an entry names.
    fn check_file(&mut self, variable: Variable, file: &File) -> Result<(), End> {
        let path = &file.path;
        if let Some(reason) = &file.refused {
            let sentence = [path.as_str(), ": ", reason.as_str()];
            return self.report(variable, file.offset, &sentence);
        }
        let Some(esp) = self.esp else {
            return Ok(());
        };
        let relative = path.replace(self.rt.alloc(), "\\", "/")?;
        let there = path_below(self.rt.alloc(), esp, relative.as_str())?;
        if fs::metadata(self.rt, there.as_str()).is_ok() {
            return Ok(());
        }
        self.report_absent(variable, file.offset, path.as_str(), esp)
    }

    /// Reports a file that is not in a directory.
    fn report_absent(
        &mut self,
        variable: Variable,
        offset: usize,
        path: &str,
        directory: &str,
    ) -> Result<(), End> {
        self.report(variable, offset, &[path, " is not in ", directory])
    }

    /// Checks that firmware with the common limit keeps an entry.
    fn check_size(&mut self, variable: Variable, len: usize) -> Result<(), End> {
        let limit = common_limit(text_shown(self.rt.alloc(), &variable)?.as_str());
        if len <= limit {
            return Ok(());
        }
        let sentence = text_shown(
            self.rt.alloc(),
            &format_args!(
                "the entry has {len} bytes, and some firmware keeps no more than {limit}"
            ),
        )?;
        self.report(variable, limit, &[sentence.as_str()])
    }

    /// Checks an entry.
    fn check_entry(&mut self, variable: Variable, bytes: &[u8]) -> Result<(), End> {
        let shown = Shown::of_entry(self.rt.alloc(), bytes)?;
        if let Some(fault) = &shown.malformed {
            self.report(variable, fault.offset, &[fault.reason.as_str()])?;
        }
        self.check_size(variable, bytes.len())?;
        for file in &shown.files {
            self.check_file(variable, file)?;
        }
        if let Ok(option) = LoadOption::from_bytes(bytes) {
            self.check_description(variable, &option)?;
            self.check_disk(variable, &option)?;
            if let Variable::Boot(number) = variable {
                self.check_duplicate(variable, number, &option)?;
            }
        }
        Ok(())
    }

    fn check_source(&mut self, source: &Source, buffer: &mut [u8]) -> Result<(), End> {
        let variable = source.variable;
        if variable.option().is_none() {
            return Ok(());
        }
        match self.variables.read(source, buffer)? {
            Content::Bytes(bytes) => self.check_entry(variable, bytes),
            Content::TooShort(reason) => self.report(variable, 0, &[reason]),
            Content::Unreadable(cause) => self.report_unreadable(variable, &cause),
        }
    }

    /// Checks all variables and files.
    fn check_all(&mut self) -> Result<(), End> {
        if self.form == Form::Json {
            self.out.text.add(&["{\"faults\":["]);
        }
        let variables = self.variables;
        let mut buffer = [0; MOST_READ];
        let head = Head::of(self.rt.alloc(), variables, &mut buffer)?;
        self.check_head(&head)?;
        for source in &variables.sources {
            self.check_source(source, &mut buffer)?;
        }
        for it in &variables.passed_over {
            self.report_skipped(it)?;
        }
        if self.form == Form::Json {
            self.out.text.add(&["\n]}\n"]);
        }
        self.out.flush()
    }
}

/// Returns the name of the link to the partition of a node.
fn link_of(alloc: Global, drive: HardDrive<'_>) -> Result<String, AllocError> {
    if let Some(guid) = drive.partition_guid() {
        return text_shown(alloc, &guid)?.to_ascii_lowercase(alloc);
    }
    let [a, b, c, d, ..] = drive.partition_signature();
    let signature = u32::from_le_bytes([a, b, c, d]);
    let number = drive.partition_number();
    format!(in alloc; "{signature:08x}-{number:02x}")
}

/// Returns the value of an option if it is given, and rejects it if it is not a directory.
fn directory<'a>(
    rt: &HostRuntime,
    words: &Words<'a>,
    option: &str,
) -> Result<Option<&'a str>, End> {
    let Some(path) = words.value(option) else {
        return Ok(None);
    };
    match fs::metadata(rt, path) {
        Ok(found) if found.is_dir() => Ok(Some(path)),
        Ok(_) => {
            let error = io::Error::from(io::ErrorKind::NotADirectory);
            Err(unreadable(rt, path, &error))
        }
        Err(error) => Err(unreadable(rt, path, &error)),
    }
}

/// Reports all faults, and returns the exit status.
pub(crate) fn run<'a>(
    rt: &'a HostRuntime,
    words: &Words<'a>,
    folder: &str,
    variables: &'a Variables<'a>,
) -> Result<u8, End> {
    let mut disks = directory(rt, words, "--disks")?;
    if disks.is_none() && folder == OWN && fs::metadata(rt, DISKS).is_ok() {
        disks = Some(DISKS);
    }
    let esp = directory(rt, words, "--esp")?;
    let mut check = Check {
        rt,
        out: Output::new(rt),
        variables,
        form: if words.has("--json") {
            Form::Json
        } else {
            Form::Lines
        },
        is_first: true,
        esp,
        disks,
        seen: BTreeMap::new(rt.alloc()),
        is_well: true,
        is_read: true,
    };
    check.check_all()?;
    Ok(status_of_listing(check.is_read, check.is_well))
}
