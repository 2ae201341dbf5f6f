//! What to type instead of the words of other programs, such as efibootmgr and bcdedit.

/// Options of efibootmgr, and what does the same here.
const OPTIONS: &[(&str, &str)] = &[
    ("-a", "uefi_boot activate NUMBER"),
    ("--active", "uefi_boot activate NUMBER"),
    ("-A", "uefi_boot deactivate NUMBER"),
    ("-b", "uefi_boot delete NUMBER, or another command"),
    ("--bootnum", "uefi_boot delete NUMBER, or another command"),
    ("-B", "uefi_boot delete NUMBER"),
    ("--delete-bootnum", "uefi_boot delete NUMBER"),
    ("-c", "uefi_boot create"),
    ("--create", "uefi_boot create"),
    ("-C", "uefi_boot create --no-order"),
    ("--create-only", "uefi_boot create --no-order"),
    ("-d", "--disk DISK"),
    ("-D", "uefi_boot order --unique"),
    ("--remove-dups", "uefi_boot order --unique"),
    ("-i", "--interface NAME"),
    ("--iface", "--interface NAME"),
    ("-l", "--loader FILE"),
    ("-L", "--description TEXT"),
    ("--label", "--description TEXT"),
    ("-n", "uefi_boot next NUMBER"),
    ("--bootnext", "uefi_boot next NUMBER"),
    ("-N", "uefi_boot next none"),
    ("--delete-bootnext", "uefi_boot next none"),
    ("-o", "uefi_boot order NUMBER .."),
    ("--bootorder", "uefi_boot order NUMBER .."),
    ("-O", "uefi_boot order none"),
    ("--delete-bootorder", "uefi_boot order none"),
    ("-p", "--partition N"),
    ("--part", "--partition N"),
    ("-q", "uefi_boot COMMAND > /dev/null"),
    ("--quiet", "uefi_boot COMMAND > /dev/null"),
    ("-r", "--driver"),
    ("-t", "uefi_boot timeout SECONDS"),
    ("--timeout", "uefi_boot timeout SECONDS"),
    ("-T", "uefi_boot timeout none"),
    ("--delete-timeout", "uefi_boot timeout none"),
    ("-u", "--data TEXT"),
    ("--unicode", "--data TEXT"),
    ("-v", "uefi_boot, which prints everything"),
    ("--verbose", "uefi_boot, which prints everything"),
    ("-V", "uefi_boot --version"),
    ("-y", "--sysprep"),
    ("-@", "--data-file FILE"),
    ("--append-binary-args", "--data-file FILE"),
];

/// Commands of other programs.
const COMMANDS: &[(&str, &str)] = &[
    ("list", "uefi_boot"),
    ("ls", "uefi_boot"),
    ("show", "uefi_boot"),
    ("print", "uefi_boot"),
    ("status", "uefi_boot"),
    ("add", "uefi_boot create"),
    ("new", "uefi_boot create"),
    ("remove", "uefi_boot delete NUMBER"),
    ("rm", "uefi_boot delete NUMBER"),
    ("del", "uefi_boot delete NUMBER"),
    ("enable", "uefi_boot activate NUMBER"),
    ("disable", "uefi_boot deactivate NUMBER"),
    ("bootorder", "uefi_boot order NUMBER .."),
    ("set-order", "uefi_boot order NUMBER .."),
    ("bootnext", "uefi_boot next NUMBER"),
    ("default", "uefi_boot first NUMBER"),
    ("set-default", "uefi_boot first NUMBER"),
];

/// Returns what a table has for a word.
fn found<'w>(table: &[(&'static str, &'static str)], word: &'w str) -> Option<&'w str> {
    for (name, hint) in table {
        if *name == word {
            return Some(*hint);
        }
    }
    None
}

/// Returns what to type instead of an option of efibootmgr. The value of a letter may follow it in the
/// same word.
pub(crate) fn of_option(option: &str) -> Option<&str> {
    if option.starts_with("--") {
        return found(OPTIONS, option);
    }
    found(OPTIONS, option.get(..2).unwrap_or(option))
}

/// Returns what to type instead of a command of another program.
pub(crate) fn of_command(word: &str) -> Option<&str> {
    found(COMMANDS, word)
}
