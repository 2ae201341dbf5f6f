//! Takes the options of efibootmgr 17 and prints what it prints, for scripts that call it by its name. Each
//! change is made by the command of this program that does the same.
use crate::command_line::arguments::{Verb, is_option};
use crate::files::program_ends::{
    End, Output, WRONG_ARGUMENTS, complain, print, refuse, refuse_with,
};
use crate::files::variables::{Content, MOST_READ, OWN, Variable, Variables, find_all, find_own};
use crate::output::boot_manager::{Head, write_variable};
use crate::output::entry::Shown;
use crate::output::growing_texts::{Growing, joined};
use crate::verbs;
use std::alloc::AllocError;
use std::env;
use uefi_boot_variables::LoadOptionKind;
use uefi_device_path::LoadOption;

/// The letters of options without and with a value. `-g` and `-w` change nothing here: a partition is found
/// without them.
const FLAGS: &str = "aABcCDgNOqrTuvVwyh";

const VALUED: &str = "bdilLnopt@";

/// The long names of options, and their letters.
const NAMES: &[(&str, char)] = &[
    ("active", 'a'),
    ("inactive", 'A'),
    ("bootnum", 'b'),
    ("delete-bootnum", 'B'),
    ("create", 'c'),
    ("create-only", 'C'),
    ("remove-dups", 'D'),
    ("disk", 'd'),
    ("driver", 'r'),
    ("gpt", 'g'),
    ("iface", 'i'),
    ("loader", 'l'),
    ("label", 'L'),
    ("bootnext", 'n'),
    ("delete-bootnext", 'N'),
    ("bootorder", 'o'),
    ("delete-bootorder", 'O'),
    ("part", 'p'),
    ("quiet", 'q'),
    ("timeout", 't'),
    ("delete-timeout", 'T'),
    ("unicode", 'u'),
    ("UCS-2", 'u'),
    ("verbose", 'v'),
    ("version", 'V'),
    ("write-signature", 'w'),
    ("sysprep", 'y'),
    ("append-binary-args", '@'),
    ("help", 'h'),
];

const HELP: &str = "Usage: efibootmgr [OPTIONS] [TEXT ..]
List or change the boot entries of this machine with the options of efibootmgr 17, for scripts.
uefi_boot --help describes the program behind it. -e, -E, -m and -M are not available.
";

/// The options that change an entry, the command that does it, and what to call it.
const CHANGES_OF_ENTRIES: &[(char, Verb, &str)] = &[
    ('B', Verb::Delete, "delete"),
    ('a', Verb::Activate, "activate"),
    ('A', Verb::Deactivate, "deactivate"),
];

/// The options that change other variables, the command that does it, and its word if that is not the
/// option's value.
const CHANGES: &[(char, Verb, &str)] = &[
    ('O', Verb::Order, "none"),
    ('o', Verb::Order, ""),
    ('D', Verb::Order, "--unique"),
    ('N', Verb::Next, "none"),
    ('T', Verb::Timeout, "none"),
    ('n', Verb::Next, ""),
    ('t', Verb::Timeout, ""),
];

/// The options of a command line.
#[derive(Drop)]
struct Given<'a> {
    rt: &'a HostRuntime,
    flags: Vec<char>,
    values: Vec<(char, &'a str)>,
    /// The words that are not options.
    plain: Vec<&'a str>,
    /// The directory of the variables.
    folder: &'a str,
}

/// Reports an option that is not available.
fn refuse_option(rt: &HostRuntime, option: &str) -> End {
    refuse(
        rt,
        WRONG_ARGUMENTS,
        &[
            "efibootmgr: invalid option '",
            option,
            "' (efibootmgr --help)",
        ],
    )
}

/// Returns the letter of a long name.
fn letter_of(name: &str) -> Option<char> {
    for (known, letter) in NAMES {
        if *known == name {
            return Some(*letter);
        }
    }
    None
}

impl<'a> Given<'a> {
    /// Adds an option with its letter, and the value if it stands in the same word. Returns the letter if
    /// the value is the next word.
    fn add(&mut self, letter: char, value: Option<&'a str>) -> Result<Option<char>, End> {
        if !VALUED.contains(letter) {
            self.flags.push(letter)?;
            return Ok(None);
        }
        match value {
            Some(value) => {
                self.values.push((letter, value))?;
                Ok(None)
            }
            None => Ok(Some(letter)),
        }
    }

    /// Adds the options of a word that begins with `--`.
    fn add_long(&mut self, word: &'a str) -> Result<Option<char>, End> {
        let name = word.strip_prefix("--").unwrap_or(word);
        let (name, value) = match name.split_once('=') {
            Some((name, value)) => (name, Some(value)),
            None => (name, None),
        };
        match letter_of(name) {
            Some(letter) => self.add(letter, value),
            None => Err(refuse_option(self.rt, word)),
        }
    }

    /// Adds the options of a word of letters. The first letter with a value takes the rest of the word.
    fn add_letters(&mut self, word: &'a str) -> Result<Option<char>, End> {
        for (place, letter) in word.char_indices().skip(1) {
            if VALUED.contains(letter) {
                let rest = word.get(place.saturating_add(1)..).unwrap_or("");
                return self.add(letter, if rest.is_empty() { None } else { Some(rest) });
            }
            if !FLAGS.contains(letter) {
                return Err(refuse_option(self.rt, word));
            }
            self.flags.push(letter)?;
        }
        Ok(None)
    }

    /// Reads all words.
    fn read(&mut self, words: &'a [&'a str]) -> Result<(), End> {
        let (mut pending, mut are_plain) = (None, false);
        for word in words {
            let word = *word;
            if let Some(letter) = pending {
                self.values.push((letter, word))?;
                pending = None;
            } else if are_plain || !is_option(word) {
                // Empty words before the others add no blanks.
                if !self.plain.is_empty() || !word.is_empty() {
                    self.plain.push(word)?;
                }
            } else if word == "--" {
                are_plain = true;
            } else if word.starts_with("--") {
                pending = self.add_long(word)?;
            } else {
                pending = self.add_letters(word)?;
            }
        }
        match pending {
            Some(letter) => {
                let message = format_args!("efibootmgr: option '-{letter}' needs a value");
                Err(refuse_with(self.rt, WRONG_ARGUMENTS, message))
            }
            None => Ok(()),
        }
    }

    fn has(&self, letter: char) -> bool {
        self.flags.contains(&letter)
    }

    /// Returns the last value of an option.
    fn value(&self, letter: char) -> Option<&'a str> {
        let mut found = None;
        for (known, value) in &self.values {
            if *known == letter {
                found = Some(*value);
            }
        }
        found
    }

    fn kind(&self) -> LoadOptionKind {
        if self.has('y') {
            LoadOptionKind::SysPrep
        } else if self.has('r') {
            LoadOptionKind::Driver
        } else {
            LoadOptionKind::Boot
        }
    }

    /// Returns the number of the entry that an action is about.
    fn number(&self, action: &str) -> Result<&'a str, End> {
        match self.value('b') {
            Some(number) => Ok(number),
            None => {
                Err(refuse(
                    self.rt,
                    WRONG_ARGUMENTS,
                    &["efibootmgr: pass the entry to ", action, " with -b"],
                ))
            }
        }
    }

    /// Carries out a command of this program, with the variables and the kind of entries that are given.
    fn carry_out(&self, verb: Verb, mut words: Vec<String>) -> Result<(), End> {
        let alloc = self.rt.alloc();
        words.push(joined(alloc, &["--variables=", self.folder])?)?;
        match (verb, self.kind()) {
            (Verb::Next | Verb::Timeout, _) | (_, LoadOptionKind::Boot) => {}
            (_, LoadOptionKind::Driver) => words.push(String::from_str(alloc, "--driver")?)?,
            _ => words.push(String::from_str(alloc, "--sysprep")?)?,
        }
        let mut texts = Vec::with_capacity(alloc, words.len())?;
        for word in &words {
            texts.push(word.as_str())?;
        }
        verbs::run(self.rt, verb, &texts, true)?;
        Ok(())
    }

    /// Carries out a command with one word.
    fn carry(&self, verb: Verb, word: &str) -> Result<(), End> {
        let mut words = Vec::new(self.rt.alloc());
        words.push(String::from_str(self.rt.alloc(), word)?)?;
        self.carry_out(verb, words)
    }

    /// Adds an option of `create` and its value to words, if the value is given.
    fn add_option(
        &self,
        words: &mut Vec<String>,
        option: &str,
        value: Option<&str>,
    ) -> Result<(), AllocError> {
        if let Some(value) = value {
            words.push(joined(self.rt.alloc(), &[option, value])?)?;
        }
        Ok(())
    }

    /// Adds what the new entry boots.
    fn add_loader(&self, words: &mut Vec<String>) -> Result<(), AllocError> {
        if let Some(name) = self.value('i') {
            return self.add_option(words, "--interface=", Some(name));
        }
        let loader = self.value('l').unwrap_or("\\EFI\\debian\\grub.efi");
        self.add_option(
            words,
            "--disk=",
            Some(self.value('d').unwrap_or("/dev/sda")),
        )?;
        self.add_option(words, "--partition=", Some(self.value('p').unwrap_or("1")))?;
        self.add_option(words, "--loader=", Some(loader))
    }

    /// Adds the optional data of the new entry.
    fn add_data(&self, words: &mut Vec<String>) -> Result<(), AllocError> {
        if !self.plain.is_empty() {
            let text = self.plain.join(self.rt.alloc(), " ")?;
            let option = if self.has('u') {
                "--data="
            } else {
                "--data-ascii="
            };
            self.add_option(words, option, Some(text.as_str()))?;
        }
        self.add_option(words, "--data-file=", self.value('@'))
    }

    /// Creates an entry.
    fn create(&self) -> Result<(), End> {
        let mut words = Vec::new(self.rt.alloc());
        let label = self.value('L').unwrap_or("Linux");
        self.add_option(&mut words, "--description=", Some(label))?;
        self.add_loader(&mut words)?;
        self.add_option(&mut words, "--number=", self.value('b'))?;
        self.add_data(&mut words)?;
        let no_order = if self.has('C') { Some("") } else { None };
        self.add_option(&mut words, "--no-order", no_order)?;
        self.add_option(&mut words, "--force", Some(""))?;
        self.carry_out(Verb::Create, words)
    }

    /// Makes all changes, in the order of efibootmgr.
    fn change(&self) -> Result<(), End> {
        for (letter, verb, action) in CHANGES_OF_ENTRIES {
            if self.has(*letter) {
                self.carry(*verb, self.number(action)?)?;
            }
        }
        if self.has('c') || self.has('C') {
            self.create()?;
        }
        for (letter, verb, word) in CHANGES {
            let word = if word.is_empty() {
                self.value(*letter)
            } else if self.has(*letter) {
                Some(*word)
            } else {
                None
            };
            if let Some(word) = word {
                self.carry(*verb, word)?;
            }
        }
        Ok(())
    }

    /// Adds the lines of the variables that name an entry or a time, if they are set.
    fn add_settings(&self, out: &mut Growing, head: &Head) {
        if let Some(number) = head.boot_next {
            add_number(out, "BootNext: ", number, "\n");
        }
        if let Some(number) = head.boot_current {
            add_number(out, "BootCurrent: ", number, "\n");
        }
        if let Some(seconds) = head.timeout {
            out.add(&["Timeout: "]);
            out.show(&seconds);
            out.add(&[" seconds\n"]);
        }
    }

    /// Adds the line of an order, if it is set.
    fn add_order(&self, out: &mut Growing, order: Variable, numbers: &Option<Vec<u16>>) {
        let Some(numbers) = numbers else {
            let is_boot = order == Variable::BootOrder;
            let what = if is_boot {
                "; firmware will attempt recovery\n"
            } else {
                "\n"
            };
            write_variable(out, "No ", order, " is set");
            out.add(&[what]);
            return;
        };
        write_variable(out, "", order, ": ");
        for (place, number) in numbers.iter().enumerate() {
            add_number(out, if place == 0 { "" } else { "," }, *number, "");
        }
        out.add(&["\n"]);
    }

    /// Adds the lines before the entries.
    fn add_head(&self, out: &mut Growing, head: &Head) {
        match self.kind() {
            LoadOptionKind::Driver => {
                self.add_order(out, Variable::DriverOrder, &head.driver_order);
            }
            LoadOptionKind::SysPrep => {
                self.add_order(out, Variable::SysPrepOrder, &head.sysprep_order);
            }
            _ => {
                self.add_settings(out, head);
                self.add_order(out, Variable::BootOrder, &head.boot_order);
            }
        }
    }

    /// Adds the device path and the optional data of an entry.
    fn add_contents(&self, out: &mut Growing, option: &LoadOption<'_>) {
        out.add_char('\t');
        if let Some(path) = option.device_paths().next() {
            out.show(&path.display_libefivar());
        }
        for byte in option.optional_data() {
            let is_shown = matches!(*byte, 0x20..=0x7f);
            out.add_char(if is_shown { char::from(*byte) } else { '.' });
        }
    }

    /// Adds the line of an entry.
    fn add_entry(
        &self,
        out: &mut Growing,
        variable: Variable,
        bytes: &[u8],
    ) -> Result<(), AllocError> {
        let shown = Shown::of_entry(self.rt.alloc(), bytes)?;
        let star = if shown.active == Some(true) {
            "* "
        } else {
            "  "
        };
        write_variable(out, "", variable, star);
        if let Some(description) = &shown.description {
            out.add(&[description.as_str()]);
        }
        if let (true, Ok(option)) = (self.has('v'), LoadOption::from_bytes(bytes)) {
            self.add_contents(out, &option);
        }
        out.add(&["\n"]);
        if let Some(fault) = &shown.malformed {
            let (offset, reason) = (fault.offset, &fault.reason);
            let message = format_args!("{variable}: malformed at offset {offset}: {reason}");
            complain(self.rt, message);
        }
        Ok(())
    }

    /// Adds the lines of the entries that are among others, or of those that are not.
    fn add_entries(
        &self,
        out: &mut Growing,
        variables: &Variables<'_>,
        others: &[Variable],
        are_among: bool,
    ) -> Result<(), AllocError> {
        let mut buffer = [0; MOST_READ];
        for source in &variables.sources {
            let is_of_kind = match source.variable.option() {
                Some(option) => option.kind == self.kind(),
                None => false,
            };
            if !is_of_kind || others.contains(&source.variable) != are_among {
                continue;
            }
            if let Content::Bytes(bytes) = variables.read(source, &mut buffer)? {
                self.add_entry(out, source.variable, bytes)?;
            }
        }
        Ok(())
    }

    /// Prints the variables, those last that did not exist before.
    fn print(&self, variables: &Variables<'_>, before: &[Variable]) -> Result<(), End> {
        let mut out = Output::new(self.rt);
        let mut buffer = [0; MOST_READ];
        let head = Head::of(self.rt.alloc(), variables, &mut buffer)?;
        self.add_head(&mut out.text, &head);
        self.add_entries(&mut out.text, variables, before, true)?;
        self.add_entries(&mut out.text, variables, before, false)?;
        out.flush()
    }

    /// Makes all changes, and prints the variables.
    fn change_and_print(&self) -> Result<(), End> {
        let folder = [self.folder];
        let mut before = Vec::new(self.rt.alloc());
        for source in &find(self.rt, &folder)?.sources {
            before.push(source.variable)?;
        }
        self.change()?;
        if self.has('q') {
            return Ok(());
        }
        self.print(&find(self.rt, &folder)?, &before)
    }
}

/// Adds a number of four hexadecimal digits between two texts.
fn add_number(out: &mut Growing, before: &str, number: u16, after: &str) {
    out.add(&[before]);
    out.show(&format_args!("{number:04X}"));
    out.add(&[after]);
}

/// Finds the variables of a directory.
fn find<'a>(rt: &'a HostRuntime, folder: &'a [&'a str; 1]) -> Result<Variables<'a>, End> {
    if folder[0] == OWN {
        find_own(rt, folder)
    } else {
        find_all(rt, folder)
    }
}

/// Runs a command line of efibootmgr, and returns the exit status.
pub(crate) fn run(rt: &HostRuntime, words: &[&str]) -> Result<u8, End> {
    // The variable that libefivar reads.
    match env::var(rt, "EFIVARFS_PATH") {
        Ok(folder) => run_in(rt, folder.as_str(), words),
        Err(_) => run_in(rt, OWN, words),
    }
}

/// Runs a command line of efibootmgr on the variables of a directory.
fn run_in<'a>(rt: &'a HostRuntime, folder: &'a str, words: &'a [&'a str]) -> Result<u8, End> {
    let mut given = Given {
        rt,
        flags: Vec::new(rt.alloc()),
        values: Vec::new(rt.alloc()),
        plain: Vec::new(rt.alloc()),
        folder,
    };
    given.read(words)?;
    if given.has('h') {
        print(rt, &[HELP])?;
    } else if given.has('V') {
        print(rt, &["version 17\n"])?;
    } else {
        given.change_and_print()?;
    }
    Ok(0)
}
