//! Prints, checks and changes the variables that determine what a machine boots: one boot entry
//! from standard input, or all variables in a folder or in files.
//!
//! Without an argument, the program prints the variables of the machine if standard input is a
//! terminal. Otherwise, and for the argument `-`, it reads a variable `Boot####` from standard
//! input: a load option (UEFI Specification 2.10, section 3.1.3), with or without the four bytes of
//! the variable's attributes that Linux puts before it. It prints its attributes, its description,
//! each file that it names, with a verdict, and its optional data, as text if it is text.
//!
//! The arguments are files of variables, or folders of them: Linux's `efivars`, whose files are
//! named by the variable and its GUID, or files that are named by the variable alone. The program
//! prints the orders, `BootCurrent`, `BootNext` and the other settings, and then each entry: first
//! the entries of the order, in its order, and then the others by number. It opens a file of a
//! folder only if its name is the name of one of these variables, and prints an entry as soon as
//! its position is known. For a variable that can't be read it prints the cause.
//!
//! With `--json`, the output is JSON. If the first word is a verb, the program checks or changes
//! variables.
//!
//! The exit status is
//!
//! | status | if |
//! |---|---|
//! | 0 | all is well |
//! | 1 | a variable is malformed (it is printed with reason and offset), or a change is refused |
//! | 2 | a read of standard input or a write of standard output failed |
//! | 3 | memory ran out; standard error has `out of memory` |
//! | 4 | a variable or a folder can't be read |
//! | 5 | the arguments are wrong; standard error has a message |
//! | 6 | a variable can't be written |
#![tactic(auto)]

ghost use Rattle.std.specs.Prelude.{◌≤◌, IfOk, length};

mod buses;
mod changes;
mod check;
mod command_line;
mod create;
mod efibootmgr;
mod files;
mod output;
mod partitions;
mod verbs;

use command_line::arguments::{Verb, first_plain, is_option, meant_verb, refuse_option};
use command_line::{help, hints};
use files::program_ends::{End, MALFORMED, Output, WRONG_ARGUMENTS, print, refuse, status_of};
use files::variables::{
    Content, MOST_READ, OWN, file_name, find_all, find_own, without_attributes,
};
use output::entry::{Exact, Shown};
use output::listing;
use serde::Serialize;
use std::alloc::{AllocError, Global};
use std::io::{self, IsTerminal, Read};
use std::process::ExitCode;
use std::{env, fs};

const VERSION: &str = "uefi_boot 0.8.0-dev\n";

const NOT_UTF_8: &str =
    "an argument is not valid UTF-8 (for a directory with such a name, type cd and then .)";

const OPTIONS: [&str; 4] = ["--json", "--help", "-h", "--version"];

/// Reads bytes from a reader until its end, or until the buffer is full.
fn fill<R: Read>(reader: &mut R, buffer: &mut [u8]) -> io::Result<usize>
    ensures { IfOk result (λ count. count ≤ length buffer.new) }
{
    let mut filled = 0;
    while filled < buffer.len() {
        let count = reader.read(&mut buffer[filled..])?;
        if count == 0 {
            break;
        }
        filled += count;
    }
    Ok(filled)
}

/// The form of the output.
#[derive(Clone, Copy, PartialEq, Eq)]
pub(crate) enum Form {
    Lines,
    Json,
}

/// Returns a value as JSON, on one line. Every value here has a JSON form, so it fails only if
/// memory runs out.
pub(crate) fn to_json<T: Serialize>(alloc: Global, value: &T) -> Result<String, AllocError> {
    match serde_json::to_string(alloc, value) {
        Ok(text) => Ok(text),
        Err(_) => Err(AllocError),
    }
}

/// An entry from standard input, in JSON.
#[derive(Drop, Serialize)]
struct Alone {
    #[serde(flatten)]
    entry: Shown,
    #[serde(flatten)]
    exact: Exact,
}

/// Prints a text.
fn print_text(rt: &HostRuntime, text: &str) -> Result<u8, End> {
    print(rt, &[text])?;
    Ok(0)
}

/// Prints the entry on standard input.
fn print_entry(rt: &HostRuntime, form: Form) -> Result<u8, End> {
    let alloc = rt.alloc();
    let mut buffer = [0; MOST_READ];
    let Ok(count) = fill(&mut rt.reader(), &mut buffer) else {
        return Err(End::NoStream);
    };
    let bytes = without_attributes(&buffer[..count]);
    let entry = Shown::of_entry(alloc, bytes)?;
    let status = if entry.is_well() { 0 } else { MALFORMED };
    let mut out = Output::new(rt);
    match form {
        Form::Lines => entry.write(&mut out.text),
        Form::Json => {
            let exact = Exact::of(alloc, &Content::Bytes(bytes))?;
            let json = to_json(alloc, &Alone { entry, exact })?;
            out.text.add(&[json.as_str(), "\n"]);
        }
    }
    out.flush()?;
    Ok(status)
}

/// Prints the default without an argument: standard input, or the variables of the machine if
/// standard input is a terminal.
fn print_own(rt: &HostRuntime, form: Form) -> Result<u8, End> {
    if !rt.stdin().is_terminal() {
        return print_entry(rt, form);
    }
    listing::print(rt, &find_own(rt, &[OWN])?, form)
}

/// Reports that a word is neither a command nor a file, and what to type instead, if that is known.
fn refuse_command(rt: &HostRuntime, name: &str) -> Result<(), End> {
    if let Some(hint) = hints::of_command(name) {
        return Err(refuse(
            rt,
            WRONG_ARGUMENTS,
            &["unknown command or file '", name, "' (type ", hint, ")"],
        ));
    }
    if Verb::of_word(name).is_some() {
        return Ok(());
    }
    if let Some(verb) = meant_verb(rt.alloc(), name)? {
        return Err(refuse(
            rt,
            WRONG_ARGUMENTS,
            &[
                "unknown command or file '",
                name,
                "' (did you mean '",
                verb,
                "'?)",
            ],
        ));
    }
    Ok(())
}

/// Prints the variables of files and folders.
fn print_files(rt: &HostRuntime, names: &[&str], form: Form) -> Result<u8, End> {
    if let [name, ..] = names {
        let name = *name;
        if !name.contains("/") && fs::metadata(rt, name).is_err() {
            refuse_command(rt, name)?;
        }
    }
    listing::print(rt, &find_all(rt, names)?, form)
}

/// Runs a command line whose first word is not a verb.
fn show(rt: &HostRuntime, words: &[&str]) -> Result<u8, End> {
    let mut names = Vec::new(rt.alloc());
    let mut form = Form::Lines;
    let mut are_names = false;
    for word in words {
        match *word {
            name if are_names || !is_option(name) => names.push(name)?,
            "--" => are_names = true,
            "-h" | "--help" => return print_text(rt, help::PROGRAM),
            "--version" => return print_text(rt, VERSION),
            "--json" => form = Form::Json,
            option => return Err(refuse_option(rt, option, &OPTIONS)),
        }
    }
    match names.as_slice() {
        [] => print_own(rt, form),
        [name] if *name == "-" => print_entry(rt, form),
        _ => print_files(rt, &names, form),
    }
}

/// Returns the name by which the program was called, and the words after it.
fn read_arguments(rt: &HostRuntime) -> Result<Vec<String>, End> {
    let arguments = match env::args(rt) {
        Ok(arguments) => arguments,
        Err(error) if matches!(error.kind(), io::ErrorKind::InvalidData) => {
            return Err(refuse(rt, WRONG_ARGUMENTS, &[NOT_UTF_8]));
        }
        Err(_) => return Err(End::OutOfMemory),
    };
    let mut read = Vec::new(rt.alloc());
    for argument in arguments {
        read.push(argument)?;
    }
    Ok(read)
}

/// Prints the help of the program, or of a command.
fn print_help(rt: &HostRuntime, word: Option<&&str>) -> Result<u8, End> {
    if let Some(word) = word {
        if let Some(verb) = Verb::of_word(word) {
            return print_text(rt, verb.help());
        }
    }
    print_text(rt, help::PROGRAM)
}

/// Runs the command of the first word that is neither an option nor the value of one, if it is a command.
fn run_words(rt: &HostRuntime, words: &[&str]) -> Result<u8, End> {
    let Some(place) = first_plain(words) else {
        return show(rt, words);
    };
    let word = match words.get(place) {
        Some(word) => *word,
        None => "",
    };
    if word == "help" {
        return print_help(rt, words.get(place.saturating_add(1)));
    }
    let Some(verb) = Verb::of_word(word) else {
        return show(rt, words);
    };
    let mut others = Vec::new(rt.alloc());
    for (index, word) in words.iter().enumerate() {
        if index != place {
            others.push(*word)?;
        }
    }
    verbs::run(rt, verb, &others, false)
}

fn run(rt: &HostRuntime) -> Result<u8, End> {
    let arguments = read_arguments(rt)?;
    let mut words = Vec::new(rt.alloc());
    for argument in &arguments {
        words.push(argument.as_str())?;
    }
    match words.as_slice() {
        [name, words @ ..] if file_name(name) == "efibootmgr" => efibootmgr::run(rt, words),
        [_, words @ ..] => run_words(rt, words),
        [] => run_words(rt, &[]),
    }
}

fn main(rt: HostRuntime) -> ExitCode {
    let result = run(&rt);
    status_of(&rt, result)
}
