//! Changes boot variables: reads the values that a verb needs, and carries out its plan.
use crate::changes::Machine;
use crate::command_line::arguments::{Verb, Words};
use crate::files::program_ends::{
    End, MALFORMED, Parts, UNREADABLE, UNWRITTEN, WRONG_ARGUMENTS, print, refuse, refuse_for,
    refuse_with,
};
use crate::files::variables::{
    Content, MOST_BYTES, MOST_READ, OWN, Variable, file_name, find_all, find_own, lowercase_file,
};
use crate::{check, create};
use std::collections::BTreeSet;
use std::fs;
use uefi_boot_plans::{PlanError, Step, Variable as Changed};
use uefi_boot_variables::{LoadOptionKind, LoadOrder, read_number};

/// The kinds of entries that the commands change, the start of the names of their variables, and what to
/// say of such a name if the command is about another kind.
const KINDS: &[(LoadOptionKind, &str, &str)] = &[
    (
        LoadOptionKind::Boot,
        "Boot",
        " is a boot entry (omit --driver and --sysprep)",
    ),
    (
        LoadOptionKind::Driver,
        "Driver",
        " is not a boot entry (add --driver)",
    ),
    (
        LoadOptionKind::SysPrep,
        "SysPrep",
        " is not a boot entry (add --sysprep)",
    ),
];

/// Returns the number that one to four hexadecimal digits are.
fn read_digits(digits: &str) -> Option<u16> {
    if digits.is_empty() || 4 < digits.len() || !digits.bytes().all(|it| it.is_ascii_hexdigit()) {
        return None;
    }
    u16::from_str_radix(digits, 16).ok()
}

/// Returns the number of the entry that a variable's name is, its kind, and what to say if the command is
/// about another kind.
fn read_name(name: &str) -> Option<(u16, LoadOptionKind, &str)> {
    for (kind, start, advice) in KINDS {
        if let Some(number) = name.strip_prefix(*start).and_then(read_digits) {
            return Some((number, *kind, *advice));
        }
    }
    None
}

impl<'a> Machine<'a> {
    /// Reports what is wrong with a variable.
    fn refuse(&self, status: u8, variable: Variable, what: &[&str]) -> End {
        refuse_with(self.rt, status, format_args!("{variable} {}", Parts(what)))
    }

    /// Returns the word at an index after the verb; `Words::check` has counted them.
    fn word<'w>(&self, words: &Words<'w>, place: usize) -> &'w str {
        words.plain(place).unwrap_or("")
    }

    /// Returns the variable of an entry of the kind that the command is about.
    fn variable(&self, number: u16) -> Variable {
        Variable::of_kind(self.kind, number)
    }

    /// Returns the number of an entry that a word names: hexadecimal digits, alone or after the start of
    /// the variable's name.
    fn number(&self, word: &str) -> Result<u16, End> {
        if let Some((number, kind, advice)) = read_name(word) {
            return if kind == self.kind {
                Ok(number)
            } else {
                Err(refuse(self.rt, WRONG_ARGUMENTS, &[word, advice]))
            };
        }
        match read_digits(word) {
            Some(number) => Ok(number),
            None => {
                let message = ["'", word, "' is not the number of an entry (such as 001F)"];
                Err(refuse(self.rt, WRONG_ARGUMENTS, &message))
            }
        }
    }

    /// Returns the number of an entry whose variable exists.
    fn existing(&self, word: &str) -> Result<u16, End> {
        let number = self.number(word)?;
        let variable = self.variable(number);
        match self.variables.find(variable) {
            Some(_) => Ok(number),
            None => {
                let what = "does not exist (run uefi_boot to list the entries)";
                Err(self.refuse(MALFORMED, variable, &[what]))
            }
        }
    }

    /// Returns the value of a variable, if it is set.
    fn value(&self, variable: Variable) -> Result<Option<Vec<u8>>, End> {
        let Some(source) = self.variables.find(variable) else {
            return Ok(None);
        };
        let mut buffer = [0; MOST_READ];
        match self.variables.read(&source, &mut buffer)? {
            Content::Unreadable(cause) => Err(self.refuse_unreadable(variable, &cause)),
            Content::Bytes(bytes) if bytes.len() <= MOST_BYTES => {
                Ok(Some(Vec::from_slice(self.rt.alloc(), bytes)?))
            }
            Content::Bytes(_) => {
                Err(self.refuse(
                    MALFORMED,
                    variable,
                    &["is malformed: longer than a variable"],
                ))
            }
            Content::TooShort(reason) => {
                Err(self.refuse(MALFORMED, variable, &["is malformed: ", reason]))
            }
        }
    }

    /// Reports that a variable can't be read.
    fn refuse_unreadable(&self, variable: Variable, cause: &String) -> End {
        refuse_with(
            self.rt,
            UNREADABLE,
            format_args!("cannot read {variable}: {cause}"),
        )
    }

    /// Returns the value of a variable, or an empty one if it is not set.
    fn value_or_empty(&self, variable: Variable) -> Result<Vec<u8>, End> {
        match self.value(variable)? {
            Some(bytes) => Ok(bytes),
            None => Ok(Vec::new(self.rt.alloc())),
        }
    }

    /// Returns the value of the order, or an empty one if the variable is not set.
    fn order(&self) -> Result<Vec<u8>, End> {
        self.value_or_empty(Variable::order_of(self.kind))
    }

    /// Returns the value of an entry that exists.
    fn entry(&self, number: u16) -> Result<Vec<u8>, End> {
        self.value_or_empty(self.variable(number))
    }

    /// Carries out a plan, or reports why there is none.
    fn carry(&self, number: u16, plan: Result<Vec<Step>, PlanError>) -> Result<u8, End> {
        self.carry_out(&self.planned(number, plan)?, &[])
    }

    /// Returns a plan, or reports why there is none.
    fn planned(&self, number: u16, plan: Result<Vec<Step>, PlanError>) -> Result<Vec<Step>, End> {
        match plan {
            Ok(plan) => Ok(plan),
            Err(PlanError::OutOfMemory) => Err(End::OutOfMemory),
            Err(PlanError::MalformedOrder) => Err(self.refuse_order()),
            Err(PlanError::MalformedEntry(error)) => {
                let variable = self.variable(number);
                let (offset, cause) = (error.offset, error.cause);
                let message = format_args!("{variable} is malformed at offset {offset}: {cause}");
                Err(refuse_with(self.rt, MALFORMED, message))
            }
        }
    }

    /// Reports that the order is malformed.
    fn refuse_order(&self) -> End {
        let what = "is malformed: boot order has an odd number of bytes\n\
                    to replace it, type: uefi_boot order --force NUMBER ..";
        self.refuse(MALFORMED, Variable::order_of(self.kind), &[what])
    }

    /// Refuses to replace a malformed variable, unless the user asked for that with `--force`.
    fn keep_malformed(&self, variable: Variable) -> Result<(), End> {
        if self.is_forced {
            return Ok(());
        }
        let Some(bytes) = self.value(variable)? else {
            return Ok(());
        };
        let is_well = match variable {
            Variable::BootNext | Variable::Timeout => read_number(&bytes).is_ok(),
            _ => LoadOrder::from_bytes(&bytes).is_ok(),
        };
        if is_well {
            return Ok(());
        }
        Err(self.refuse(
            MALFORMED,
            variable,
            &["is malformed: to replace it, add --force"],
        ))
    }

    fn create(&self, words: &Words<'_>) -> Result<u8, End> {
        let index = create::index_of(self.rt, words)?;
        let option = create::option_of(self.rt, words)?;
        let number = self.new_number(words)?;
        let alloc = self.rt.alloc();
        let Some(index) = index else {
            let plan = uefi_boot_plans::create_unlisted(alloc, number, option)?;
            return self.carry_out(&plan, &[]);
        };
        let order = self.order()?;
        let plan = uefi_boot_plans::create(alloc, &order, index, number, option);
        self.carry(number, plan)
    }

    /// Returns the number of a new entry.
    fn new_number(&self, words: &Words<'_>) -> Result<u16, End> {
        let Some(word) = words.value("--number") else {
            return self.free_number();
        };
        let number = self.number(word)?;
        let variable = self.variable(number);
        match self.variables.find(variable) {
            Some(_) => Err(self.refuse(MALFORMED, variable, &["already exists"])),
            None => Ok(number),
        }
    }

    /// Returns the smallest number without an entry.
    fn free_number(&self) -> Result<u16, End> {
        let mut used = BTreeSet::new(self.rt.alloc());
        for source in &self.variables.sources {
            if let Some(option) = source.variable.option() {
                if option.kind == self.kind {
                    used.insert(option.number)?;
                }
            }
        }
        match uefi_boot_plans::free_number(&used) {
            Some(number) => Ok(number),
            None => Err(refuse(self.rt, MALFORMED, &["all 65,536 entry numbers are in use"])),
        }
    }

    /// Returns the number in `BootNext`, if it names an entry. A malformed `BootNext` names none.
    fn next_number(&self) -> Result<Option<u16>, End> {
        if self.kind != LoadOptionKind::Boot {
            return Ok(None);
        }
        let Some(bytes) = self.value(Variable::BootNext)? else {
            return Ok(None);
        };
        Ok(read_number(&bytes).ok())
    }

    fn delete(&self, words: &Words<'_>) -> Result<u8, End> {
        let word = self.word(words, 0);
        if let Some(file) = lowercase_file(self.rt, self.folder, word)? {
            return self.delete_file(file.as_str());
        }
        let number = self.existing(word)?;
        let order = self.order()?;
        let next = self.next_number()?;
        let alloc = self.rt.alloc();
        let plan = uefi_boot_plans::delete(alloc, &order, next, number);
        let if_full = uefi_boot_plans::delete_on_full(alloc, &order, next, number);
        self.carry_out(
            &self.planned(number, plan)?,
            &self.planned(number, if_full)?,
        )
    }

    /// Deletes a variable whose name firmware does not read as that of an entry.
    fn delete_file(&self, path: &str) -> Result<u8, End> {
        let name = file_name(path);
        if self.is_dry_run {
            print(self.rt, &["would delete ", name, "\n"])?;
        } else if let Err(error) = fs::remove_file(self.rt, path) {
            let _ = refuse_for(self.rt, UNWRITTEN, &["cannot change ", path], error);
            return Err(refuse(self.rt, UNWRITTEN, &["not changed: ", name]));
        } else {
            print(self.rt, &["deleted ", name, "\n"])?;
        }
        Ok(0)
    }

    /// Returns the numbers of the words after `order`, which blanks or commas separate.
    fn listed(&self, words: &Words<'_>) -> Result<Vec<u16>, End> {
        let mut numbers = Vec::new(self.rt.alloc());
        let mut is_named = [false; 65536];
        for place in 0..usize::MAX {
            let Some(word) = words.plain(place) else {
                break;
            };
            for word in word.split(',') {
                let number = self.existing(word)?;
                if is_named[usize::from(number)] {
                    let variable = self.variable(number);
                    return Err(self.refuse(WRONG_ARGUMENTS, variable, &["is listed twice"]));
                }
                is_named[usize::from(number)] = true;
                numbers.push(number)?;
            }
        }
        Ok(numbers)
    }

    /// Returns the numbers of the present order, each at its first index.
    fn each_once(&self) -> Result<Vec<u16>, End> {
        let order = self.order()?;
        let Ok(order) = LoadOrder::from_bytes(&order) else {
            return Err(self.refuse_order());
        };
        let mut numbers = Vec::with_capacity(self.rt.alloc(), order.len())?;
        let mut is_named = [false; 65536];
        for number in order.iter() {
            if !is_named[usize::from(number)] {
                is_named[usize::from(number)] = true;
                numbers.push(number)?;
            }
        }
        Ok(numbers)
    }

    fn order_all(&self, words: &Words<'_>) -> Result<u8, End> {
        let order = Variable::order_of(self.kind);
        let numbers = match (words.has("--unique"), words.plain(0)) {
            (true, None) => self.each_once()?,
            (false, Some("none")) if words.plain(1).is_none() => {
                if self.variables.find(order).is_none() {
                    return Ok(0);
                }
                Vec::new(self.rt.alloc())
            }
            (false, Some(_)) => self.listed(words)?,
            _ => return Err(words.refuse_usage(self.rt)),
        };
        let plan = uefi_boot_plans::order(self.rt.alloc(), &numbers)?;
        self.replace(order, &plan)
    }

    fn first(&self, words: &Words<'_>) -> Result<u8, End> {
        let number = self.existing(self.word(words, 0))?;
        let order = self.order()?;
        let plan = uefi_boot_plans::first(self.rt.alloc(), &order, number);
        self.carry(number, plan)
    }

    /// Carries out a plan that replaces a variable.
    fn replace(&self, variable: Variable, plan: &[Step]) -> Result<u8, End> {
        self.keep_malformed(variable)?;
        self.carry_out(plan, &[])
    }

    /// Deletes a variable, if it is set.
    fn clear(&self, variable: Variable, changed: Changed) -> Result<u8, End> {
        if self.variables.find(variable).is_none() {
            return Ok(0);
        }
        self.replace(variable, &uefi_boot_plans::clear(self.rt.alloc(), changed)?)
    }

    fn next(&self, words: &Words<'_>) -> Result<u8, End> {
        let word = self.word(words, 0);
        if word == "none" {
            return self.clear(Variable::BootNext, Changed::Next);
        }
        let plan = uefi_boot_plans::next(self.rt.alloc(), self.existing(word)?)?;
        self.replace(Variable::BootNext, &plan)
    }

    fn set_active(&self, words: &Words<'_>, active: bool) -> Result<u8, End> {
        let number = self.existing(self.word(words, 0))?;
        let entry = self.entry(number)?;
        let plan = uefi_boot_plans::set_active(self.rt.alloc(), number, &entry, active);
        self.carry(number, plan)
    }

    fn rename(&self, words: &Words<'_>) -> Result<u8, End> {
        let number = self.existing(self.word(words, 0))?;
        let description = create::string(self.rt, "rename", self.word(words, 1))?;
        let entry = self.entry(number)?;
        let plan = uefi_boot_plans::rename(
            self.rt.alloc(),
            number,
            &entry,
            description.as_cstr16(),
        );
        self.carry(number, plan)
    }

    fn timeout(&self, words: &Words<'_>) -> Result<u8, End> {
        let word = self.word(words, 0);
        let seconds = match word {
            "none" => return self.clear(Variable::Timeout, Changed::Timeout),
            "forever" => u16::MAX,
            _ => self.seconds(word)?,
        };
        let plan = uefi_boot_plans::timeout(self.rt.alloc(), seconds)?;
        self.replace(Variable::Timeout, &plan)
    }

    /// Returns a number of seconds that firmware can wait.
    fn seconds(&self, word: &str) -> Result<u16, End> {
        match word.parse::<u16>() {
            Ok(seconds) if seconds < u16::MAX => Ok(seconds),
            _ => {
                let what = "' is not a number of seconds below 65535, forever or none";
                Err(refuse(self.rt, WRONG_ARGUMENTS, &["'", word, what]))
            }
        }
    }

    /// Runs a verb.
    fn run(&self, verb: Verb, words: &Words<'_>) -> Result<u8, End> {
        match verb {
            Verb::Check => check::run(self.rt, words, self.folder, &self.variables),
            Verb::Create => self.create(words),
            Verb::Delete => self.delete(words),
            Verb::Order => self.order_all(words),
            Verb::First => self.first(words),
            Verb::Next => self.next(words),
            Verb::Activate => self.set_active(words, true),
            Verb::Deactivate => self.set_active(words, false),
            Verb::Rename => self.rename(words),
            Verb::Timeout => self.timeout(words),
        }
    }
}

/// Runs a verb with the other words, and returns the exit status. Does not print what it changes if it is to
/// be quiet.
pub(crate) fn run<'a>(
    rt: &'a HostRuntime,
    verb: Verb,
    words: &'a [&'a str],
    is_quiet: bool,
) -> Result<u8, End> {
    let words = Words::new(rt.alloc(), verb, words)?;
    if words.asks_help() {
        print(rt, &[verb.help()])?;
        return Ok(0);
    }
    words.check(rt)?;
    let folder = words.value("--variables").unwrap_or(OWN);
    let arguments = [folder];
    let variables = if folder == OWN {
        find_own(rt, &arguments)?
    } else {
        find_all(rt, &arguments)?
    };
    let machine = Machine {
        rt,
        folder,
        kind: words.kind(),
        variables,
        is_quiet,
        is_dry_run: words.has("--dry-run"),
        is_forced: words.has("--force"),
    };
    machine.run(verb, &words)
}
