//! Paths whose memory requests are refused in turn until a run makes all of them. That run gives the result
//! of ample memory. Calls on a buffer use the buffer's own allocator. One table has all calls. All succeed on
//! a path of 300,000 characters.

use for_tests::{
    MemoryCall, Refusing, has_text, is_answered, out_of_memory, repeated, requests, string,
};
use std::alloc::{AllocError, Global};
use std::test::Fail;
use uefi_path::{CountedUnits, NormalizeError, Path, PathBuf, PathError};
use uefi_text::{CStr16, CString16};

/// A path buffer whose allocator refuses a request.
type Buffer<'a> = PathBuf<&'a Refusing<Global>>;

/// A call that creates or changes a path, or needs no memory.
#[derive(Clone, Copy)]
enum Call {
    New,
    NewFromCString16,
    From,
    ToPathBuf,
    Join,
    Parent,
    CloneBuffer,
    JoinBuffer,
    ParentOfBuffer,
    Push,
    PushCounted,
    Normalize,
    RefusedNormalize,
    SetFileName,
    SetExtension,
    Pop,
    Clear,
    IntoCString16,
    Nothing,
    ReplaceSlashes,
}

/// Returns whether a path takes over a copy of a string, or the same string comes back when memory ran out.
fn takes_over(heap: &Refusing<Global>, text: CStr16<'_>) -> Result<bool, AllocError> {
    match PathBuf::new_from_cstring16(heap, CString16::from_cstr16(heap, text)?) {
        Ok(_) => Ok(true),
        Err(kept) => out_of_memory(kept.eq_cstr16(text)),
    }
}

/// Creates the path buffer of a text, with no spare room.
fn filled<'a>(heap: &'a Refusing<Global>, text: CStr16<'_>) -> Result<Buffer<'a>, AllocError> {
    let mut filled = CString16::with_capacity(heap, text.num_chars())?;
    filled.push_str(text)?;
    PathBuf::new_from_cstring16(heap, filled).map_err(|_| AllocError)
}

/// Returns whether a buffer is cleared and its former path is pushed to it, or memory ran out.
fn clears_and_takes(heap: &Refusing<Global>, text: CStr16<'_>) -> Result<bool, AllocError> {
    let mut path = PathBuf::from(heap, text)?;
    path.clear();
    is_answered(path.push(Path::new(text)), AllocError)
}

/// Returns whether the file name or the extension of a path is replaced, or the path is unchanged when memory
/// ran out.
fn renames(
    heap: &Refusing<Global>,
    text: CStr16<'_>,
    other: CStr16<'_>,
    is_extension: bool,
) -> Result<bool, AllocError> {
    let mut path = PathBuf::from(heap, text)?;
    let is_set = if is_extension {
        path.set_extension(other).is_ok()
    } else {
        path.set_file_name(other).is_ok()
    };
    if is_set {
        Ok(true)
    } else {
        out_of_memory(path.to_cstr16() == text)
    }
}

/// Returns whether a path loses its last component, and its memory has room to push it again.
fn pops_and_takes(
    heap: &Refusing<Global>,
    text: CStr16<'_>,
    last: CStr16<'_>,
) -> Result<bool, AllocError> {
    let mut path = PathBuf::from(heap, text)?;
    let is_shorter = path.pop() && path.to_cstr16().num_chars() < text.num_chars();
    path.push(Path::new(last))?;
    Ok(is_shorter && path.to_cstr16() == text)
}

/// Returns whether a text and its buffer have no parent, and a push of the empty path succeeds.
fn needs_no_memory(
    heap: &Refusing<Global>,
    text: CStr16<'_>,
    empty: Path<'_>,
) -> Result<bool, AllocError> {
    let mut path = PathBuf::from(heap, text)?;
    path.push(empty)?;
    Ok(path.parent()?.is_none() && Path::new(text).parent(heap)?.is_none())
}

/// Returns whether `a/b` becomes a path, or its string comes back with the slash when memory ran out.
fn replaces_or_keeps(heap: &Refusing<Global>, text: CStr16<'_>) -> Result<bool, AllocError> {
    let taken = CString16::from_cstr16(heap, text)?;
    match PathBuf::new_from_cstring16(heap, taken) {
        Ok(path) => Ok(has_text(path.to_cstr16(), r"a\b")),
        Err(kept) => out_of_memory(has_text(kept.as_cstr16(), "a/b")),
    }
}

/// A call on two texts.
#[derive(Clone, Copy)]
struct OnTexts<'a> {
    call: Call,
    text: CStr16<'a>,
    other: CStr16<'a>,
}

impl MemoryCall for OnTexts<'_> {
    fn answer(&self, heap: &Refusing<Global>) -> Result<bool, AllocError> {
        answers(self.call, heap, self.text, self.other)
    }
}

/// Returns whether a call gives the result of ample memory, or memory ran out.
fn answers(
    call: Call,
    heap: &Refusing<Global>,
    text: CStr16<'_>,
    other: CStr16<'_>,
) -> Result<bool, AllocError> {
    let (path, more) = (Path::new(text), Path::new(other));
    match call {
        Call::New => is_answered(PathBuf::new(heap), AllocError),
        Call::NewFromCString16 => takes_over(heap, text),
        Call::From => is_answered(PathBuf::from(heap, text), AllocError),
        Call::ToPathBuf => is_answered(path.to_path_buf(heap), AllocError),
        Call::Join => is_answered(path.join(heap, more), AllocError),
        Call::Parent => Ok(path.parent(heap)?.is_some()),
        Call::CloneBuffer => is_answered(PathBuf::from(heap, text)?.clone(), AllocError),
        Call::JoinBuffer => is_answered(PathBuf::from(heap, text)?.join(more), AllocError),
        Call::ParentOfBuffer => Ok(PathBuf::from(heap, text)?.parent()?.is_some()),
        Call::Push => is_answered(filled(heap, text)?.push(more), AllocError),
        Call::PushCounted => is_answered(
            filled(heap, text)?.push_counted(&mut CountedUnits::new(other)),
            AllocError,
        ),
        Call::Normalize => is_answered(path.normalize(heap), NormalizeError::OutOfMemory),
        Call::RefusedNormalize => Ok(
            path.normalize(heap).err() == Some(NormalizeError::Invalid(PathError::EmptyComponent)),
        ),
        Call::SetFileName => renames(heap, text, other, false),
        Call::SetExtension => renames(heap, text, other, true),
        Call::Pop => pops_and_takes(heap, text, other),
        Call::Clear => clears_and_takes(heap, text),
        Call::IntoCString16 => Ok(PathBuf::from(heap, text)?.into_cstring16().eq_cstr16(text)),
        Call::Nothing => needs_no_memory(heap, text, more),
        Call::ReplaceSlashes => replaces_or_keeps(heap, text),
    }
}

/// Counts the requests of a call after `setup` earlier ones.
fn count_of(rt: &HostRuntime, call: Call, setup: u64, texts: [&str; 2]) -> Result<u64, Fail> {
    let [text, other] = texts;
    let (text, other) = (string(rt.alloc(), text)?, string(rt.alloc(), other)?);
    let on_texts = OnTexts {
        call,
        text: text.as_cstr16(),
        other: other.as_cstr16(),
    };
    requests(rt.alloc(), setup, &on_texts)
}

/// A call, how many requests precede it, its texts, and the least and the greatest number of its requests. In
/// the texts, `@` stands for a name of some length, and `#` for a path of that many names.
type Counted = (Call, u64, [&'static str; 2], u64, u64);

/// A path takes over the memory of its string, and gives it back. It requests memory for its text, and for
/// the positions of its separators if it has any. A push requests memory once for the text, and for the
/// positions as they grow.
const ROWS: &[Counted] = &[
    (Call::New, 0, ["", ""], 1, 1),
    (Call::NewFromCString16, 1, ["@", ""], 0, 0),
    (Call::NewFromCString16, 1, ["#", ""], 1, 1),
    (Call::NewFromCString16, 1, ["@/@", ""], 1, 1),
    (Call::From, 0, ["@", ""], 1, 1),
    (Call::From, 0, ["/#", ""], 2, 2),
    (Call::ToPathBuf, 0, ["#/a", ""], 2, 2),
    (Call::Join, 0, [r"/a\b", "c/d"], 2, 2),
    (Call::Join, 0, ["#", r"\\\\\\\"], 2, 2),
    (Call::Parent, 0, [r"#\@", ""], 2, 2),
    (Call::Parent, 0, [r"@\b", ""], 1, 1),
    (Call::Parent, 0, [r"\\b", ""], 1, 1),
    (Call::Parent, 0, [r"#\\@", ""], 2, 2),
    (Call::Parent, 0, [r"\\#\b", ""], 2, 2),
    (Call::CloneBuffer, 2, ["#", ""], 2, 2),
    (Call::Join, 0, ["@", "@"], 2, 2),
    (Call::Join, 0, ["@", ""], 1, 1),
    (Call::Join, 0, ["", "@"], 1, 1),
    (Call::Join, 0, ["", "/#"], 2, 16),
    (Call::JoinBuffer, 2, ["#", "/b"], 2, 2),
    (Call::JoinBuffer, 1, ["@", "@"], 2, 2),
    (Call::JoinBuffer, 1, ["", "/#"], 2, 2),
    (Call::ParentOfBuffer, 2, [r"#\@", ""], 2, 2),
    (Call::ParentOfBuffer, 2, [r"@\b", ""], 1, 1),
    (Call::ParentOfBuffer, 2, [r"#\\@", ""], 2, 2),
    (Call::ParentOfBuffer, 2, [r"\\#\b", ""], 2, 2),
    (Call::Push, 2, ["#", "b"], 2, 2),
    (Call::PushCounted, 2, ["#", "b"], 2, 2),
    (Call::Push, 1, ["", "@/"], 2, 2),
    (Call::Push, 1, ["", "/#"], 2, 16),
    (Call::PushCounted, 1, ["", "/#"], 2, 16),
    (Call::Normalize, 0, ["@", ""], 1, 1),
    (Call::Normalize, 0, [r"@\..", ""], 2, 2),
    (Call::Normalize, 0, [r"a\..\.\b", ""], 1, 1),
    (Call::Normalize, 0, ["#", ""], 2, 2),
    (Call::RefusedNormalize, 0, [r"#\", ""], 0, 0),
    (Call::SetFileName, 1, ["", "@"], 1, 1),
    (Call::SetFileName, 1, ["@", "#"], 2, 2),
    (Call::SetFileName, 2, ["#", "@"], 2, 2),
    (Call::SetFileName, 2, [r"\@", ""], 2, 2),
    (Call::SetExtension, 1, ["", "@"], 0, 0),
    (Call::SetExtension, 2, [r"\", "@"], 0, 0),
    (Call::SetExtension, 1, ["@", "efi"], 2, 2),
    (Call::SetExtension, 2, ["#", "@"], 3, 3),
    (Call::SetExtension, 2, ["#.efi", ""], 2, 2),
    (Call::Pop, 2, [r"#\@", "@"], 0, 0),
    (Call::Pop, 2, [r"@\b", "b"], 0, 0),
    (Call::IntoCString16, 2, ["#", ""], 0, 0),
    (Call::Nothing, 2, [r"\@", ""], 0, 0),
    (Call::Nothing, 1, ["@", ""], 0, 0),
];

/// Replaces each `@` and `#` of a text.
fn spread(rt: &HostRuntime, text: &str, name: &str, names: &str) -> Result<String, Fail> {
    let whole = text.replace(rt.alloc(), '@', name)?;
    Ok(whole.replace(rt.alloc(), '#', names)?)
}

/// Counts the requests of a call, with each `@` and `#` of its texts replaced.
fn spread_count(rt: &HostRuntime, row: &Counted, name: &str, names: &str) -> Result<u64, Fail> {
    let (call, setup, [text, other], _, _) = row;
    let text = spread(rt, text, name, names)?;
    let other = spread(rt, other, name, names)?;
    count_of(rt, *call, *setup, [&text, &other])
}

/// Returns the first row whose call makes a wrong number of requests, and that number.
fn find_wrong(rt: &HostRuntime, rows: &[Counted], size: u64) -> Result<Option<(usize, u64)>, Fail> {
    let name = repeated(rt.alloc(), "a", size)?;
    let mut names = repeated(rt.alloc(), r"ab\", size)?;
    names.push('c')?;
    for (row, counted) in rows.iter().enumerate() {
        let (_, _, _, least, most) = counted;
        let count = spread_count(rt, counted, &name, &names)?;
        if count < *least || *most < count {
            return Ok(Some((row, count)));
        }
    }
    Ok(None)
}

#[test]
fn requests_of_each_call(rt: HostRuntime) -> Result<(), Fail> {
    for size in [1, 10, 63, 64, 65, 70, 300, 513, 5000, 100_000] {
        let wrong = find_wrong(&rt, ROWS, size)?;
        assert!(rt; wrong.is_none(), "{size}: {wrong:?}");
    }
    Ok(())
}

#[test]
fn slashes_after_a_refusal(rt: HostRuntime) -> Result<(), Fail> {
    assert!(rt; count_of(&rt, Call::ReplaceSlashes, 1, ["a/b", ""])? == 1);
    Ok(())
}

/// A cleared buffer has room for its former path, so a push of that path requests no memory.
#[test]
fn requests_after_clearing(rt: HostRuntime) -> Result<(), Fail> {
    for size in [10, 64, 84, 85, 300, 5000] {
        let mut names = repeated(rt.alloc(), r"ab\", size)?;
        names.push('c')?;
        let asked = count_of(&rt, Call::Clear, 2, [&names, ""])?;
        assert_eq!(rt; asked, 0, "{size}");
    }
    Ok(())
}
