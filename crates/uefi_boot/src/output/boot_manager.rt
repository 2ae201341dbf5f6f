//! The variables that determine the order of entries, and the other settings of a boot manager.
use crate::files::program_ends::End;
use crate::files::variables::{Content, MOST_BYTES, Variable, Variables};
use crate::output::entry::{push, write_reserved};
use crate::output::growing_texts::{Growing, text_shown};
use serde::Serialize;
use std::alloc::{AllocError, Global};
use uefi_boot_variables::{LoadOptionKind, LoadOptionName, LoadOrder, read_number};

/// A variable without a usable value, and why.
#[derive(Drop)]
pub(crate) struct Silent {
    pub(crate) variable: Variable,
    pub(crate) reason: String,
    /// The offset of the fault, or 0 if the variable can't be read.
    pub(crate) offset: usize,
    pub(crate) is_malformed: bool,
}

/// The values of the variables that are not entries. A field is `None` if the variable is not set,
/// is malformed, or can't be read.
#[derive(Drop)]
pub(crate) struct Head {
    pub(crate) boot_order: Option<Vec<u16>>,
    pub(crate) boot_current: Option<u16>,
    pub(crate) boot_next: Option<u16>,
    /// How many seconds the firmware waits before it boots; 65,535 waits without a limit.
    pub(crate) timeout: Option<u16>,
    pub(crate) driver_order: Option<Vec<u16>>,
    pub(crate) sysprep_order: Option<Vec<u16>>,
    pub(crate) os_indications: Option<u64>,
    pub(crate) os_indications_supported: Option<u64>,
    pub(crate) silent: Vec<Silent>,
}

/// Returns the name of an entry.
pub(crate) fn name_of(
    alloc: Global,
    kind: LoadOptionKind,
    number: u16,
) -> Result<String, AllocError> {
    text_shown(alloc, &LoadOptionName { kind, number })
}

/// Returns the names of entries.
fn names_of(
    alloc: Global,
    kind: LoadOptionKind,
    numbers: &Option<Vec<u16>>,
) -> Result<Option<Vec<String>>, AllocError> {
    let Some(numbers) = numbers else {
        return Ok(None);
    };
    let mut names = Vec::with_capacity(alloc, numbers.len())?;
    for number in numbers {
        names.push(name_of(alloc, kind, *number)?)?;
    }
    Ok(Some(names))
}

fn name_of_boot(alloc: Global, number: Option<u16>) -> Result<Option<String>, AllocError> {
    match number {
        Some(number) => Ok(Some(name_of(alloc, LoadOptionKind::Boot, number)?)),
        None => Ok(None),
    }
}

impl Head {
    /// Records that a variable has no usable value.
    fn fail(
        &mut self,
        variable: Variable,
        offset: usize,
        reason: String,
        is_malformed: bool,
    ) -> Result<(), AllocError> {
        push(
            &mut self.silent,
            Silent {
                variable,
                reason,
                offset,
                is_malformed,
            },
        )
    }

    /// Returns the value of a variable, if it is set and can be read.
    fn value<'b>(
        &mut self,
        alloc: Global,
        variables: &Variables<'_>,
        variable: Variable,
        buffer: &'b mut [u8],
    ) -> Result<Option<&'b [u8]>, AllocError> {
        let Some(source) = variables.find(variable) else {
            return Ok(None);
        };
        let (offset, reason, is_malformed) = match variables.read(&source, buffer)? {
            Content::Bytes(bytes) => {
                if bytes.len() <= MOST_BYTES {
                    return Ok(Some(bytes));
                }
                let reason = String::from_str(alloc, "longer than a variable")?;
                (MOST_BYTES, reason, true)
            }
            Content::TooShort(reason) => (0, String::from_str(alloc, reason)?, true),
            Content::Unreadable(cause) => (0, cause, false),
        };
        self.fail(variable, offset, reason, is_malformed)?;
        Ok(None)
    }

    /// Returns the number in a variable.
    fn number(
        &mut self,
        alloc: Global,
        variables: &Variables<'_>,
        variable: Variable,
        buffer: &mut [u8],
    ) -> Result<Option<u16>, AllocError> {
        let Some(bytes) = self.value(alloc, variables, variable, buffer)? else {
            return Ok(None);
        };
        match read_number(bytes) {
            Ok(number) => Ok(Some(number)),
            Err(error) => {
                self.fail(
                    variable,
                    bytes.len().min(2),
                    text_shown(alloc, &error)?,
                    true,
                )?;
                Ok(None)
            }
        }
    }

    /// Returns the bits in a variable.
    fn bits(
        &mut self,
        alloc: Global,
        variables: &Variables<'_>,
        variable: Variable,
        buffer: &mut [u8],
    ) -> Result<Option<u64>, AllocError> {
        let Some(bytes) = self.value(alloc, variables, variable, buffer)? else {
            return Ok(None);
        };
        let [a, b, c, d, e, f, g, h] = bytes else {
            let len = bytes.len();
            let what = format_args!("the bits have eight bytes, and not {len}");
            let reason = text_shown(alloc, &what)?;
            self.fail(variable, bytes.len().min(8), reason, true)?;
            return Ok(None);
        };
        Ok(Some(u64::from_le_bytes([*a, *b, *c, *d, *e, *f, *g, *h])))
    }

    /// Returns the numbers of an order.
    fn order(
        &mut self,
        alloc: Global,
        variables: &Variables<'_>,
        variable: Variable,
        buffer: &mut [u8],
    ) -> Result<Option<Vec<u16>>, AllocError> {
        let Some(bytes) = self.value(alloc, variables, variable, buffer)? else {
            return Ok(None);
        };
        match LoadOrder::from_bytes(bytes) {
            Ok(order) => Ok(Some(numbers_of(alloc, order)?)),
            Err(error) => {
                self.fail(variable, bytes.len() - 1, text_shown(alloc, &error)?, true)?;
                Ok(None)
            }
        }
    }

    /// Reads the variables.
    pub(crate) fn of(
        alloc: Global,
        variables: &Variables<'_>,
        buffer: &mut [u8],
    ) -> Result<Head, AllocError> {
        let mut head = Head {
            boot_order: None,
            boot_current: None,
            boot_next: None,
            timeout: None,
            driver_order: None,
            sysprep_order: None,
            os_indications: None,
            os_indications_supported: None,
            silent: Vec::new(alloc),
        };
        head.read_orders(alloc, variables, buffer)?;
        head.read_numbers(alloc, variables, buffer)?;
        head.read_bits(alloc, variables, buffer)?;
        Ok(head)
    }

    fn read_orders(
        &mut self,
        alloc: Global,
        variables: &Variables<'_>,
        buffer: &mut [u8],
    ) -> Result<(), AllocError> {
        self.boot_order = self.order(alloc, variables, Variable::BootOrder, buffer)?;
        self.driver_order = self.order(alloc, variables, Variable::DriverOrder, buffer)?;
        self.sysprep_order = self.order(alloc, variables, Variable::SysPrepOrder, buffer)?;
        Ok(())
    }

    fn read_numbers(
        &mut self,
        alloc: Global,
        variables: &Variables<'_>,
        buffer: &mut [u8],
    ) -> Result<(), AllocError> {
        self.boot_current = self.number(alloc, variables, Variable::BootCurrent, buffer)?;
        self.boot_next = self.number(alloc, variables, Variable::BootNext, buffer)?;
        self.timeout = self.number(alloc, variables, Variable::Timeout, buffer)?;
        Ok(())
    }

    fn read_bits(
        &mut self,
        alloc: Global,
        variables: &Variables<'_>,
        buffer: &mut [u8],
    ) -> Result<(), AllocError> {
        let supported = Variable::OsIndicationsSupported;
        self.os_indications = self.bits(alloc, variables, Variable::OsIndications, buffer)?;
        self.os_indications_supported = self.bits(alloc, variables, supported, buffer)?;
        Ok(())
    }

    /// Writes the line of a variable without a usable value, if it is malformed or can't be read.
    /// Returns whether it is.
    fn write_fault(&self, out: &mut Growing, variable: Variable) -> bool {
        for silent in &self.silent {
            if silent.variable == variable {
                let what = if silent.is_malformed {
                    ": malformed: "
                } else {
                    ": cannot be read: "
                };
                write_variable(out, "", variable, what);
                out.add(&[silent.reason.as_str(), "\n"]);
                return true;
            }
        }
        false
    }

    /// Writes why a variable has no usable value: it is malformed, can't be read, or is not set.
    fn write_without(&self, out: &mut Growing, variable: Variable) {
        if !self.write_fault(out, variable) {
            write_variable(out, "", variable, ": not set\n");
        }
    }

    /// Writes the line of the time that the firmware waits, if the variable is set.
    fn write_timeout(&self, out: &mut Growing) {
        match self.timeout {
            Some(seconds) => write_timeout(out, seconds),
            None => {
                self.write_fault(out, Variable::Timeout);
            }
        }
    }

    /// Writes the line of a variable that names one entry.
    fn write_one(&self, out: &mut Growing, variable: Variable, number: Option<u16>) {
        match number {
            Some(number) => write_named(out, variable, number),
            None => self.write_without(out, variable),
        }
    }

    /// Writes the line of an order of drivers or of preparations, if the variable is set.
    fn write_other_order(&self, out: &mut Growing, kind: LoadOptionKind, order: &Option<Vec<u16>>) {
        let variable = Variable::order_of(kind);
        match order {
            Some(numbers) => write_order(out, variable, kind, numbers),
            None => {
                self.write_fault(out, variable);
            }
        }
    }

    /// Writes the line of bits, if the variable is set.
    fn write_bits(&self, out: &mut Growing, variable: Variable, bits: Option<u64>) {
        match bits {
            Some(bits) => {
                write_variable(out, "", variable, ": ");
                write_indications(out, bits);
            }
            None => {
                self.write_fault(out, variable);
            }
        }
    }

    /// Writes the values line by line.
    pub(crate) fn write(&self, out: &mut Growing) {
        let order = Variable::BootOrder;
        match &self.boot_order {
            Some(numbers) => write_order(out, order, LoadOptionKind::Boot, numbers),
            None => self.write_without(out, order),
        }
        self.write_one(out, Variable::BootCurrent, self.boot_current);
        self.write_one(out, Variable::BootNext, self.boot_next);
        self.write_timeout(out);
        self.write_other_order(out, LoadOptionKind::Driver, &self.driver_order);
        self.write_other_order(out, LoadOptionKind::SysPrep, &self.sysprep_order);
        self.write_bits(out, Variable::OsIndications, self.os_indications);
        let supported = Variable::OsIndicationsSupported;
        self.write_bits(out, supported, self.os_indications_supported);
    }

    /// Returns whether every variable can be read.
    pub(crate) fn is_read(&self) -> bool {
        self.silent.iter().all(|it| it.is_malformed)
    }

    /// Returns whether nothing is malformed.
    pub(crate) fn is_well(&self) -> bool {
        self.silent.iter().all(|it| !it.is_malformed)
    }
}

/// Returns the numbers of an order.
pub(crate) fn numbers_of(alloc: Global, order: LoadOrder<'_>) -> Result<Vec<u16>, AllocError> {
    let mut numbers = Vec::with_capacity(alloc, order.len())?;
    for number in order.iter() {
        numbers.push(number)?;
    }
    Ok(numbers)
}

/// Writes the name of a variable between two texts.
pub(crate) fn write_variable(out: &mut Growing, before: &str, variable: Variable, after: &str) {
    out.add(&[before]);
    out.show(&variable);
    out.add(&[after]);
}

/// Writes the line of a variable that names an entry.
pub(crate) fn write_named(out: &mut Growing, variable: Variable, number: u16) {
    write_variable(out, "", variable, ": ");
    write_variable(out, "", Variable::Boot(number), "\n");
}

/// Writes the line of an order.
pub(crate) fn write_order(
    out: &mut Growing,
    variable: Variable,
    kind: LoadOptionKind,
    numbers: &[u16],
) {
    write_variable(out, "", variable, ":");
    for number in numbers {
        write_variable(out, " ", Variable::of_kind(kind, *number), "");
    }
    out.add(&["\n"]);
}

/// Writes the line of the time that the firmware waits.
pub(crate) fn write_timeout(out: &mut Growing, seconds: u16) {
    if seconds == u16::MAX {
        out.add(&["Timeout: none, the firmware waits for a choice\n"]);
        return;
    }
    out.add(&["Timeout: "]);
    out.show(&seconds);
    out.add(&[" seconds\n"]);
}

/// Returns the name of a bit of `OsIndications` and `OsIndicationsSupported` (UEFI Specification
/// 2.10, section 8.5.4).
fn indication(place: u32) -> &'static str {
    match place {
        0 => "boot to firmware UI",
        1 => "timestamp revocation",
        2 => "file capsule delivery",
        3 => "FMP capsule",
        4 => "capsule result variable",
        5 => "start OS recovery",
        6 => "start platform recovery",
        _ => "JSON configuration data refresh",
    }
}

/// Writes the names of bits, and an end of line.
fn write_indications(out: &mut Growing, bits: u64) {
    if bits == 0 {
        out.add(&["none"]);
    }
    let mut is_first = true;
    for place in 0..8 {
        if (bits >> place) % 2 == 1 {
            out.add(&[if is_first { "" } else { ", " }]);
            out.add(&[indication(place)]);
            is_first = false;
        }
    }
    let between = if is_first { "" } else { ", " };
    write_reserved(out, between, bits & 0xffff_ffff_ffff_ff00);
    out.add(&["\n"]);
}

/// A variable without a usable value, in JSON.
#[derive(Drop, Serialize)]
struct SilentJson {
    variable: String,
    reason: String,
}

/// The values of the variables, in JSON.
#[derive(Drop, Serialize)]
pub(crate) struct HeadJson {
    boot_order: Option<Vec<String>>,
    boot_current: Option<String>,
    boot_next: Option<String>,
    timeout: Option<u16>,
    driver_order: Option<Vec<String>>,
    sysprep_order: Option<Vec<String>>,
    os_indications: Option<u64>,
    os_indications_supported: Option<u64>,
    malformed: Vec<SilentJson>,
    unreadable: Vec<SilentJson>,
}

impl HeadJson {
    pub(crate) fn of(alloc: Global, head: &Head) -> Result<HeadJson, AllocError> {
        Ok(HeadJson {
            boot_order: names_of(alloc, LoadOptionKind::Boot, &head.boot_order)?,
            boot_current: name_of_boot(alloc, head.boot_current)?,
            boot_next: name_of_boot(alloc, head.boot_next)?,
            timeout: head.timeout,
            driver_order: names_of(alloc, LoadOptionKind::Driver, &head.driver_order)?,
            sysprep_order: names_of(alloc, LoadOptionKind::SysPrep, &head.sysprep_order)?,
            os_indications: head.os_indications,
            os_indications_supported: head.os_indications_supported,
            malformed: silent_of(alloc, head, true)?,
            unreadable: silent_of(alloc, head, false)?,
        })
    }
}

/// Returns the variables that are malformed, or those that can't be read.
fn silent_of(
    alloc: Global,
    head: &Head,
    are_malformed: bool,
) -> Result<Vec<SilentJson>, AllocError> {
    let mut found = Vec::new(alloc);
    for it in &head.silent {
        if it.is_malformed == are_malformed {
            let variable = text_shown(alloc, &it.variable)?;
            let reason = it.reason.clone()?;
            found.push(SilentJson { variable, reason })?;
        }
    }
    Ok(found)
}
