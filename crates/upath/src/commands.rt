//! The commands that lines give. A verb with a text is the part of the line before the first space,
//! and the text is everything after that space; a verb without a text is the whole line.
ghost use Rattle.std.specs.Prelude.{◌≡◌};
ghost use Rattle.upath.specs.Commands.{command_of, command_shown, verb_alone, verb_with};

/// The command of a line.
pub(crate) enum Command<'a> {
    /// `from T`: the path becomes the path of T.
    From(&'a str),

    /// `push T`: the path of T is pushed.
    Push(&'a str),

    /// `join T`: the path becomes the result of joining it with the path of T.
    Join(&'a str),

    /// `clear`: the path becomes empty.
    Clear,

    /// `parent`: the path becomes its parent, if it has one.
    Parent,

    /// `pieces`: the components are printed.
    Pieces,

    /// `up`: the successive parents are printed.
    Up,

    /// `eq T`: the path is compared with the path of T.
    Eq(&'a str),

    /// `cmp T`: the path is ordered against the path of T.
    Cmp(&'a str),

    /// `check`: the path is checked.
    Check,

    /// `norm`: the normal path is printed.
    Norm,

    /// A line that is not a command.
    Unknown,

    /// A line that is not UTF-8.
    NotUtf8,
}

impl<'a> Command<'a> {
    /// The command of a line.
    pub(crate) fn of_line(line: &'a [u8]) -> Command<'a>
        ensures { command_shown result ≡ command_of line.now }
    {
        let Ok(text) = simdutf8::compat::from_utf8(line) else {
            return Command::NotUtf8;
        };
        match text.split_once(' ') {
            Some((verb, text)) => Command::with_text(verb, text),
            None => Command::alone(text),
        }
    }

    fn with_text(verb: &str, text: &'a str) -> Command<'a>
        ensures { command_shown result ≡ verb_with verb.now text.now }
    {
        match verb {
            "from" => Command::From(text),
            "push" => Command::Push(text),
            "join" => Command::Join(text),
            "eq" => Command::Eq(text),
            "cmp" => Command::Cmp(text),
            _ => Command::Unknown,
        }
    }

    fn alone(verb: &str) -> Command<'a>
        ensures { command_shown result ≡ verb_alone verb.now }
    {
        match verb {
            "clear" => Command::Clear,
            "parent" => Command::Parent,
            "pieces" => Command::Pieces,
            "up" => Command::Up,
            "check" => Command::Check,
            "norm" => Command::Norm,
            _ => Command::Unknown,
        }
    }
}
