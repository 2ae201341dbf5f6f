//! What programs do with paths, with each memory request refused in turn until a run makes all of them; and
//! how many requests each call makes.

use for_tests::{
    FailingReader, MemoryCall, Refusing, is_answered, out_of_memory, refused_in_turn, requests,
    string,
};
use std::alloc::{AllocError, Global};
use std::io::ErrorKind;
use std::test::Fail;
use uefi_path::{Path, PathBuf};
use uefi_text::{CStr16, CString16, Char16Slice};
use upath::{
    JudgeError, PathCommand, RunFault, StreamFault, Watched, all_parents, judge, pieces,
    run_commands, run_streams, run_text,
};

/// The verb of a command, its text, and the text of the path afterwards.
type Step = (&'static str, &'static str, &'static str);

/// The text of a path, the commands that run on it, and how many of the first commands request memory.
const RUNS: &[(&str, &[Step], usize)] = &[
    (
        "",
        &[
            ("from", "/a", r"\a"),
            ("push", "b", r"\a\b"),
            ("parent", "", "a"),
            ("parent", "", "a"),
            ("clear", "", ""),
        ],
        3,
    ),
    (
        r"q\",
        &[
            ("push", "x", r"q\x"),
            ("join", "/y", r"q\x\\y"),
            ("parent", "", r"q\x\"),
        ],
        3,
    ),
    (
        "",
        &[("parent", "", ""), ("push", "", ""), ("clear", "", "")],
        0,
    ),
];

/// Returns the command with this verb and text.
fn command<'a>(verb: &str, text: CStr16<'a>) -> PathCommand<'a> {
    match verb {
        "from" => PathCommand::From(text),
        "push" => PathCommand::Push(Path::new(text)),
        "join" => PathCommand::Join(Path::new(text)),
        "parent" => PathCommand::Parent,
        _ => PathCommand::Clear,
    }
}

/// Returns whether commands leave the text whose index is the number of commands that were done: all of them,
/// or those before memory ran out.
fn runs(
    heap: &Refusing<Global>,
    commands: &[PathCommand<'_>],
    texts: &[CString16],
) -> Result<bool, AllocError> {
    let Some(start) = texts.first() else {
        return Ok(false);
    };
    let mut path = PathBuf::from(heap, start.as_cstr16())?;
    let outcome = run_commands(heap, &mut path, commands);
    let done = match outcome {
        Ok(()) => commands.len(),
        Err(RunFault { done }) => done,
    };
    let is_right = matches!(texts.get(done), Some(text) if path.to_cstr16() == text.as_cstr16());
    match outcome {
        Ok(()) => Ok(is_right),
        Err(_) => out_of_memory(is_right && done < commands.len()),
    }
}

/// Commands, and the text of the path before the first and after each.
#[derive(Clone, Copy)]
struct CommandRun<'a> {
    commands: &'a [PathCommand<'a>],
    texts: &'a [CString16],
}

impl MemoryCall for CommandRun<'_> {
    fn answer(&self, heap: &Refusing<Global>) -> Result<bool, AllocError> {
        runs(heap, self.commands, self.texts)
    }
}

/// Returns how many requests the first `count` commands of a row make, if they leave the row's texts.
fn are_run(rt: &HostRuntime, start: &str, steps: &[Step], count: usize) -> Result<u64, Fail> {
    let (mut given, mut texts) = (
        Vec::new(rt.alloc()),
        vec![in rt.alloc(); string(rt.alloc(), start)?]?,
    );
    for (_, text, after) in steps {
        given.push(string(rt.alloc(), text)?)?;
        texts.push(string(rt.alloc(), after)?)?;
    }
    let mut commands = Vec::new(rt.alloc());
    for ((verb, _, _), text) in steps.iter().zip(&given).take(count) {
        commands.push(command(verb, text.as_cstr16()))?;
    }
    let run = CommandRun {
        commands: &commands,
        texts: &texts,
    };
    requests(rt.alloc(), 0, &run)
}

/// The first `taking` commands and the initial path make all requests.
#[test]
fn commands_in_turn(rt: HostRuntime) -> Result<(), Fail> {
    for (start, steps, taking) in RUNS {
        let least = are_run(&rt, start, steps, 0)?;
        let most = are_run(&rt, start, steps, *taking)?;
        for count in 0..=steps.len() {
            let asked = are_run(&rt, start, steps, count)?;
            let is_right = least <= asked && asked <= most;
            assert!(rt;
                is_right && (asked == most) == (*taking <= count),
                "{start}, {count}"
            );
        }
    }
    Ok(())
}

/// A call that requests memory, and its arguments.
#[derive(Clone, Copy)]
enum Call<'a> {
    Judge(&'a [u8]),
    /// Lines, and what they print.
    RunText(&'a [u8], &'a [u8]),
    /// The memory of the writer, lines, and what they print.
    RunStreams(Global, &'a [u8], &'a [u8]),
}

impl MemoryCall for Call<'_> {
    fn answer(&self, heap: &Refusing<Global>) -> Result<bool, AllocError> {
        match *self {
            Call::Judge(bytes) => judges(heap, bytes),
            Call::RunText(input, output) => Ok(run_text(heap, input)?.as_slice() == output),
            Call::RunStreams(alloc, input, output) => writes(heap, alloc, (input, output)),
        }
    }
}

/// Returns the texts of a path: empty, then `a`, then with another `b` pushed each time.
fn texts_of_pushes(alloc: Global) -> Result<Vec<CString16>, Fail> {
    let mut texts = vec![in alloc; string(alloc, "")?]?;
    let mut text = String::new(alloc);
    text.push('a')?;
    for _ in 0..65 {
        texts.push(string(alloc, &text)?)?;
        text.push_str(r"\b")?;
    }
    Ok(texts)
}

/// One command sets the path `a`, and 64 commands push `b`.
#[test]
fn requests_of_commands(rt: HostRuntime) -> Result<(), Fail> {
    let (a, b) = (
        CStr16::from_u16_with_nul(&[97, 0])?,
        CStr16::from_u16_with_nul(&[98, 0])?,
    );
    let mut long = [PathCommand::Push(Path::new(b)); 65];
    long[0] = PathCommand::From(a);
    let texts = texts_of_pushes(rt.alloc())?;
    let run = CommandRun {
        commands: &long,
        texts: &texts,
    };
    assert!(rt; 2 <= requests(rt.alloc(), 1, &run)?);
    Ok(())
}

/// Bytes, and how many requests judging them makes: one for the text, and one for the positions of
/// separators. Bytes that are not a string are refused before both requests, and the path is validated after
/// both.
const JUDGED: &[(&[u8], u64)] = &[
    (b"a\0\0\0", 1),
    (b"a\0\\\0b\0\0\0", 2),
    (b"/\0b\0\0\0", 2),
    (b"a\0\\\0>\0\0\0", 2),
    (b"a\0>\0\0\0", 1),
    (b"\0\0", 1),
    (b"a\0\0", 0),
    (b"a\0", 0),
    (b"\0\xd8", 0),
];

/// Returns whether bytes are judged, or memory ran out.
fn judges(heap: &Refusing<Global>, bytes: &[u8]) -> Result<bool, AllocError> {
    match judge(heap, bytes) {
        Err(JudgeError::OutOfMemory) => Err(AllocError),
        _ => Ok(true),
    }
}

/// The text of a path whose parents are listed.
#[derive(Clone, Copy)]
struct Parents<'a>(CStr16<'a>);

impl MemoryCall for Parents<'_> {
    fn answer(&self, heap: &Refusing<Global>) -> Result<bool, AllocError> {
        let path = PathBuf::from(heap, self.0)?;
        is_answered(all_parents(heap, &path), AllocError)
    }
}

/// Returns whether a run over streams writes the output, or nothing when memory ran out. The reader returns 5
/// bytes a call, so most lines arrive in parts.
fn writes(heap: &Refusing<Global>, alloc: Global, run: (&[u8], &[u8])) -> Result<bool, AllocError> {
    let (input, want) = run;
    let mut reader = Watched::new(FailingReader {
        rest: input,
        step: 5,
        failing: 0,
        kind: ErrorKind::Interrupted,
        calls: 0,
    });
    let mut writer = Watched::new(Vec::new(alloc));
    let outcome = run_streams(heap, &mut reader, &mut writer);
    let is_unmarked = !reader.has_failed() && !writer.has_failed();
    let output: Vec<u8> = writer.into_inner();
    match outcome {
        Ok(()) => Ok(is_unmarked && output.as_slice() == want),
        Err(StreamFault::OutOfMemory) => out_of_memory(is_unmarked && output.is_empty()),
        Err(_) => Ok(false),
    }
}

const INPUT: &[u8] =
    b"from \\foo\\bar\npieces\neq foo\nfrom a\xc3\xa9/c\npieces\neq \xf0\x9f\x98\x80\nwhat\n\
      \xff\npush b\njoin c/d\nup\nnorm\nparent\ncmp a\ncheck\nclear\ncheck\n";

const OUTPUT: &[u8] =
    b"= \\foo\\bar\npieces 2\n| foo\n| bar\ndifferent\n= a\xc3\xa9\\c\npieces 2\n| a\xc3\xa9\n| c\n\
      UCS-2 Conversion Error: Invalid character\n? unknown command\n? not UTF-8\n\
      = a\xc3\xa9\\c\\b\n= a\xc3\xa9\\c\\b\\c\\d\n\
      parents 4\n| a\xc3\xa9\\c\\b\\c\n| a\xc3\xa9\\c\\b\n| a\xc3\xa9\\c\n| a\xc3\xa9\n\
      = a\xc3\xa9\\c\\b\\c\\d\n= a\xc3\xa9\\c\\b\\c\ngreater\nok\n= \npath is empty\n";

#[test]
fn requests_for_bytes(rt: HostRuntime) -> Result<(), Fail> {
    for (bytes, want) in JUDGED {
        assert_eq!(rt;
            requests(rt.alloc(), 0, &Call::Judge(bytes))?,
            *want,
            "{bytes:?}"
        );
    }
    Ok(())
}

/// Each refused request ends its run.
#[test]
fn requests_of_runs(rt: HostRuntime) -> Result<(), Fail> {
    let alloc = rt.alloc();
    let text = string(alloc, r"a\b\c")?;
    let (short, wanted): (&[u8], &[u8]) = (
        b"from \\foo\\bar\npieces\n",
        b"= \\foo\\bar\npieces 2\n| foo\n| bar\n",
    );
    let counts = [
        requests(alloc, 2, &Parents(text.as_cstr16()))?,
        requests(alloc, 0, &Call::RunText(INPUT, OUTPUT))?,
        requests(alloc, 0, &Call::RunStreams(alloc, INPUT, OUTPUT))?,
        requests(alloc, 0, &Call::RunStreams(alloc, short, wanted))?,
    ];
    let [parents, run, streams, few] = counts;
    assert!(rt;
        2 <= parents && 6 <= run && 7 <= streams && 3 <= few,
        "{counts:?}"
    );
    Ok(())
}

/// A path, and the components that `pieces` lists.
#[derive(Clone, Copy)]
struct Listed<'a>(Path<'a>, &'a [Char16Slice<'a>]);

impl MemoryCall for Listed<'_> {
    fn answer(&self, heap: &Refusing<Global>) -> Result<bool, AllocError> {
        Ok(pieces(heap, self.0)?.as_slice() == self.1)
    }
}

/// Returns whether `pieces` lists the components of a path as `want`, or memory ran out, with the request of
/// this number and the next one both refused. Returns `None` if the call makes no such request.
fn lists_twice_refused(
    alloc: Global,
    number: u64,
    path: Path<'_>,
    want: &[Char16Slice<'_>],
) -> Option<bool> {
    let inner = Refusing::new(alloc, number);
    let outer = Refusing::new(&inner, number);
    let answer = pieces(&outer, path);
    if !outer.has_refused() {
        return None;
    }
    Some(match &answer {
        Ok(list) => list.as_slice() == want,
        Err(_) => inner.has_refused(),
    })
}

/// A list that is refused room to grow requests less room once more. So one refusal need not fail the call;
/// two in a row may.
#[test]
fn requests_for_components(rt: HostRuntime) -> Result<(), Fail> {
    let text = string(rt.alloc(), r"a\\\\\\\\\\b\c\d\e\f\g\h\i\j\k\l")?;
    let path = Path::new(text.as_cstr16());
    let want = pieces(rt.alloc(), path)?;
    let refusals = refused_in_turn(rt.alloc(), 0, &Listed(path, &want))?;
    assert!(rt; refusals.failed != 0 || refusals.answered != 0);
    let mut refused = 0u64;
    for number in 1..100u64 {
        match lists_twice_refused(rt.alloc(), number, path, &want) {
            None => break,
            Some(is_right) => assert!(rt; is_right, "at request {number}"),
        }
        refused = number;
    }
    assert!(rt; 0 < refused && refused < 99, "{refused} requests");
    Ok(())
}
