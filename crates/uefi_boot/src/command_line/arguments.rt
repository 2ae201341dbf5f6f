//! The words after the program's name: its verbs, their options, and the nearest match of a wrong
//! one.
use crate::command_line::{help, hints};
use crate::files::program_ends::{End, WRONG_ARGUMENTS, refuse};
use std::alloc::{AllocError, Global};
use strsim::levenshtein;
use uefi_boot_variables::LoadOptionKind;

/// The actions of the program on variables, besides printing them.
#[derive(Clone, Copy, PartialEq, Eq)]
pub(crate) enum Verb {
    Check,
    Create,
    Delete,
    Order,
    First,
    Next,
    Activate,
    Deactivate,
    Rename,
    Timeout,
}

const VERBS: [&str; 10] = [
    "check",
    "create",
    "delete",
    "order",
    "first",
    "next",
    "activate",
    "deactivate",
    "rename",
    "timeout",
];

impl Verb {
    /// Returns the verb with this name.
    pub(crate) fn of_word(word: &str) -> Option<Verb> {
        match word {
            "check" => Some(Verb::Check),
            "create" => Some(Verb::Create),
            "delete" => Some(Verb::Delete),
            "order" => Some(Verb::Order),
            "first" => Some(Verb::First),
            "next" => Some(Verb::Next),
            "activate" => Some(Verb::Activate),
            "deactivate" => Some(Verb::Deactivate),
            "rename" => Some(Verb::Rename),
            "timeout" => Some(Verb::Timeout),
            _ => None,
        }
    }

    /// Returns the usage text of the verb.
    pub(crate) fn help(self) -> &'static str {
        match self {
            Verb::Check => help::CHECK,
            Verb::Create => help::CREATE,
            Verb::Delete => help::DELETE,
            Verb::Order => help::ORDER,
            Verb::First => help::FIRST,
            Verb::Next => help::NEXT,
            Verb::Activate => help::ACTIVATE,
            Verb::Deactivate => help::DEACTIVATE,
            Verb::Rename => help::RENAME,
            Verb::Timeout => help::TIMEOUT,
        }
    }

    /// Returns the options that take a value in the next word.
    fn values(self) -> &'static [&'static str] {
        match self {
            Verb::Create => &[
                "--variables",
                "--description",
                "--path",
                "--disk",
                "--partuuid",
                "--interface",
                "--partition",
                "--start",
                "--size",
                "--loader",
                "--data",
                "--data-ascii",
                "--data-hex",
                "--data-file",
                "--number",
                "--index",
            ],
            Verb::Check => &["--variables", "--esp", "--disks"],
            _ => &["--variables"],
        }
    }

    /// Returns the options that take no value.
    fn flags(self) -> &'static [&'static str] {
        match self {
            Verb::Check => &["--help", "--json"],
            Verb::Create => &[
                "--help",
                "--dry-run",
                "--driver",
                "--sysprep",
                "--inactive",
                "--force",
                "--last",
                "--no-order",
                "--full-path",
            ],
            Verb::Order => {
                &[
                    "--help",
                    "--dry-run",
                    "--driver",
                    "--sysprep",
                    "--force",
                    "--unique",
                ]
            }
            Verb::Next | Verb::Timeout => &["--help", "--dry-run", "--force"],
            _ => &["--help", "--dry-run", "--driver", "--sysprep"],
        }
    }

    /// Returns the least and the greatest number of words that the verb takes, without options.
    fn counts(self) -> (usize, usize) {
        match self {
            Verb::Check | Verb::Create => (0, 0),
            Verb::Order => (0, usize::MAX),
            Verb::Rename => (2, 2),
            _ => (1, 1),
        }
    }
}

/// Returns whether an option of some verb takes a value in the next word.
fn takes_value(option: &str) -> bool {
    Verb::Create.values().contains(&option) || Verb::Check.values().contains(&option)
}

/// Returns whether some verb has an option.
fn is_of_a_verb(option: &str) -> bool {
    takes_value(option)
        || Verb::Create.flags().contains(&option)
        || Verb::Order.flags().contains(&option)
}

/// Returns whether a word is an option. A lone `-` stands for standard input or output.
pub(crate) fn is_option(word: &str) -> bool {
    word.starts_with("-") && word != "-"
}

/// Returns the index of the first word that is neither an option nor the value of one, if no `--` precedes
/// it.
pub(crate) fn first_plain(words: &[&str]) -> Option<usize> {
    let mut is_value = false;
    for (place, word) in words.iter().enumerate() {
        let word = *word;
        if is_value {
            is_value = false;
        } else if word == "--" {
            return None;
        } else if is_option(word) {
            is_value = takes_value(word);
        } else {
            return Some(place);
        }
    }
    None
}

/// Returns the candidate that begins with a word, or otherwise the one with the fewest edits from
/// it, and how many edits these are.
fn nearest<'w>(
    alloc: Global,
    word: &'w str,
    candidates: &[&'static str],
) -> Result<(&'w str, usize), AllocError> {
    let (mut best, mut fewest) = ("--help", usize::MAX);
    for candidate in candidates {
        let edits = if candidate.starts_with(word) {
            0
        } else {
            levenshtein(alloc, word, candidate)?
        };
        if edits < fewest {
            best = candidate;
            fewest = edits;
        }
    }
    Ok((best, fewest))
}

/// Reports that an option does not exist, and what to type instead.
pub(crate) fn refuse_option(rt: &HostRuntime, option: &str, options: &[&'static str]) -> End {
    if let Some(hint) = hints::of_option(option) {
        return refuse(
            rt,
            WRONG_ARGUMENTS,
            &["unknown option '", option, "' (type ", hint, ")"],
        );
    }
    if option == "--json" {
        return refuse(
            rt,
            WRONG_ARGUMENTS,
            &["only uefi_boot and uefi_boot check have the option '--json'"],
        );
    }
    if is_of_a_verb(option) {
        return refuse(
            rt,
            WRONG_ARGUMENTS,
            &[
                "option '",
                option,
                "' does not belong here (uefi_boot --help lists the commands)",
            ],
        );
    }
    match nearest(rt.alloc(), option, options) {
        Ok((best, _)) => refuse(
            rt,
            WRONG_ARGUMENTS,
            &["unknown option '", option, "' (did you mean '", best, "'?)"],
        ),
        Err(error) => End::from(error),
    }
}

/// Returns the verb that begins with a word, or otherwise the nearest verb within two edits.
pub(crate) fn meant_verb(alloc: Global, word: &str) -> Result<Option<&str>, AllocError> {
    let (best, edits) = nearest(alloc, word, &VERBS)?;
    Ok(if edits <= 2 { Some(best) } else { None })
}

/// The words after a verb.
#[derive(Drop)]
pub(crate) struct Words<'a> {
    verb: Verb,
    words: &'a [&'a str],
    /// The indexes of the options, and of the words that are neither options nor values of options.
    options: Vec<usize>,
    plain: Vec<usize>,
}

/// Returns the value in a word after the option's name and an equals sign.
fn attached<'a>(word: &'a str, option: &str) -> Option<&'a str> {
    word.strip_prefix(option)?.strip_prefix("=")
}

impl<'a> Words<'a> {
    pub(crate) fn new(
        alloc: Global,
        verb: Verb,
        words: &'a [&'a str],
    ) -> Result<Words<'a>, AllocError> {
        let (mut options, mut plain) = (Vec::new(alloc), Vec::new(alloc));
        let (mut is_value, mut are_plain) = (false, false);
        for (place, word) in words.iter().enumerate() {
            let word = *word;
            if is_value {
                is_value = false;
            } else if are_plain || !is_option(word) {
                plain.push(place)?;
            } else if word == "--" {
                are_plain = true;
            } else {
                options.push(place)?;
                is_value = verb.values().contains(&word);
            }
        }
        Ok(Words {
            verb,
            words,
            options,
            plain,
        })
    }

    /// Returns the word at an index, or an empty one after the last.
    fn word(&self, place: usize) -> &'a str {
        match self.words.get(place) {
            Some(word) => *word,
            None => "",
        }
    }

    /// Returns the value of an option, if it is given.
    pub(crate) fn value(&self, option: &str) -> Option<&'a str> {
        for place in &self.options {
            let word = self.word(*place);
            if word == option {
                return Some(self.word(place.saturating_add(1)));
            }
            if let Some(value) = attached(word, option) {
                return Some(value);
            }
        }
        None
    }

    /// Returns whether an option without a value is given.
    pub(crate) fn has(&self, option: &str) -> bool {
        self.options.iter().any(|place| self.word(*place) == option)
    }

    /// Returns the kind of the entries that the command is about.
    pub(crate) fn kind(&self) -> LoadOptionKind {
        if self.has("--driver") {
            LoadOptionKind::Driver
        } else if self.has("--sysprep") {
            LoadOptionKind::SysPrep
        } else {
            LoadOptionKind::Boot
        }
    }

    /// Rejects more than one of some options, with or without values.
    pub(crate) fn check_alternatives(
        &self,
        rt: &HostRuntime,
        options: &[&'static str],
        names: &str,
    ) -> Result<(), End> {
        let given = options
            .iter()
            .filter(|it| self.has(it) || self.value(it).is_some());
        if 1 < given.count() {
            return Err(refuse(rt, WRONG_ARGUMENTS, &["pass only one of ", names]));
        }
        Ok(())
    }

    /// Returns whether help is requested.
    pub(crate) fn asks_help(&self) -> bool {
        self.has("-h") || self.has("--help")
    }

    /// Returns the word at an index among the words that are neither options nor values.
    pub(crate) fn plain(&self, place: usize) -> Option<&'a str> {
        Some(self.word(*self.plain.get(place)?))
    }

    /// Returns whether a word is an option of the verb.
    fn is_known(&self, word: &str) -> bool {
        word == "-h"
            || self.verb.flags().contains(&word)
            || self.verb.values().contains(&word)
            || self
                .verb
                .values()
                .iter()
                .any(|option| attached(word, option).is_some())
    }

    /// Returns the error that the words do not fit, with the line of the help that lists them.
    pub(crate) fn refuse_usage(&self, rt: &HostRuntime) -> End {
        let usage = self.verb.help().split_once('\n').map_or("", |it| it.0);
        refuse(rt, WRONG_ARGUMENTS, &[usage])
    }

    /// Rejects options that the verb does not have, options without a value or given twice, and too few
    /// or too many words.
    pub(crate) fn check(&self, rt: &HostRuntime) -> Result<(), End> {
        for (count, place) in self.options.iter().enumerate() {
            let word = self.word(*place);
            if !self.is_known(word) {
                return Err(self.refuse_word(rt, word)?);
            }
            if self.verb.values().contains(&word) {
                self.check_value(rt, word, self.words.get(place.saturating_add(1)))?;
            }
            self.check_repeated(rt, word, count)?;
        }
        self.check_alternatives(rt, &["--driver", "--sysprep"], "--driver and --sysprep")?;
        let (least, most) = self.verb.counts();
        if self.plain.len() < least {
            return Err(self.refuse_usage(rt));
        }
        match self.plain(most) {
            None => Ok(()),
            Some(word) => {
                Err(refuse(
                    rt,
                    WRONG_ARGUMENTS,
                    &[
                        "unexpected word '",
                        word,
                        "' (a text with blanks needs quotation marks)",
                    ],
                ))
            }
        }
    }

    /// Rejects an option with a value if one of the options before it is the same.
    fn check_repeated(&self, rt: &HostRuntime, word: &str, count: usize) -> Result<(), End> {
        let name = word.split_once('=').map_or(word, |it| it.0);
        for place in self.options.iter().take(count) {
            let other = self.word(*place);
            if other == name || attached(other, name).is_some() {
                return Err(refuse(rt, WRONG_ARGUMENTS, &["option '", name, "' is given twice"]));
            }
        }
        Ok(())
    }

    /// Rejects an option without a value, or with another option in place of the value.
    fn check_value(&self, rt: &HostRuntime, option: &str, value: Option<&&str>) -> Result<(), End> {
        let message = match value {
            Some(value) if is_option(value) => {
                let what = "' needs a value (to pass '";
                return Err(refuse(
                    rt,
                    WRONG_ARGUMENTS,
                    &[
                        "option '", option, what, *value, "', type ", option, "=", *value, ")",
                    ],
                ));
            }
            Some(_) => return Ok(()),
            None => ["option '", option, "' needs a value"],
        };
        Err(refuse(rt, WRONG_ARGUMENTS, &message))
    }

    fn refuse_word(&self, rt: &HostRuntime, word: &str) -> Result<End, AllocError> {
        let mut options = Vec::from_slice(rt.alloc(), self.verb.values())?;
        options.extend_from_slice(self.verb.flags())?;
        Ok(refuse_option(rt, word, &options))
    }
}
