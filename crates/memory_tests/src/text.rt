//! Calls whose memory requests are refused in turn until a run makes all of them, and how many each call
//! makes. Each call checks its input before it requests memory.

use for_tests::{
    MemoryCall, Refusing, characters, is_answered, out_of_memory, repeated, requests, string,
};
use std::alloc::{AllocError, Global};
use std::fmt::Write;
use std::iter;
use std::test::Fail;
use uefi_text::FromSliceWithNulError::{InteriorNul, InvalidChar, NotNulTerminated};
use uefi_text::{
    CStr16, CString16, Char16, FromSliceUntilNulError as UntilNul,
    FromSliceWithNulError as WithNul, FromStrError, NUL_16, UnalignedSlice,
};

/// Creates a string with a text and no spare room.
fn filled<'a>(
    heap: &'a Refusing<Global>,
    text: CStr16<'_>,
) -> Result<CString16<&'a Refusing<Global>>, AllocError> {
    let mut filled = CString16::with_capacity(heap, text.num_chars())?;
    filled.push_str(text)?;
    Ok(filled)
}

/// A way to change a string.
#[derive(Clone, Copy)]
enum Change {
    Clear,
    Push,
    PushStr,
    PushPart,
    PushNothing,
    PushEmpty,
    Reserve,
    WriteStr,
    Extend,
    ExtendByNone,
    ExtendByText,
}

/// Returns whether a string is changed, or memory ran out.
fn changes(
    change: Change,
    heap: &Refusing<Global>,
    part: CStr16<'_>,
    rust: &str,
) -> Result<bool, AllocError> {
    let Ok(c) = Char16::try_from('c') else {
        return Ok(false);
    };
    if c == NUL_16 {
        return Ok(false);
    }
    let mut text = filled(heap, part)?;
    let changed = match change {
        Change::Clear => {
            text.clear();
            text.push_str(part)
        }
        Change::Push => text.push(c),
        Change::PushStr => text.push_str(part),
        Change::PushPart => text.push_part(part.as_slice()),
        Change::PushNothing => text.push_part(part.as_slice().part(0, 0)),
        Change::PushEmpty => match CStr16::from_u16_with_nul(&[0]) {
            Ok(empty) => text.push_str(empty),
            Err(_) => Err(AllocError),
        },
        Change::Reserve => {
            text.reserve(2)?;
            text.push(c)?;
            text.push(c)
        }
        Change::WriteStr => text.write_str(rust).map_err(|_| AllocError),
        Change::Extend => text.extend(iter::repeat_n(c, 64)),
        Change::ExtendByNone => text.extend(iter::repeat_n(c, 0)),
        Change::ExtendByText => text.extend(part.iter()),
    };
    is_answered(changed, AllocError)
}

/// A text, in each form that a call takes.
#[derive(Clone, Copy)]
struct Text<'a> {
    rust: &'a str,
    part: CStr16<'a>,
    list: &'a [Char16],
    bytes: &'a [u8],
    items: UnalignedSlice<'a, u16>,
    no_items: UnalignedSlice<'a, u16>,
}

/// A call on a text.
#[derive(Clone, Copy)]
enum Call {
    // Calls that create a string from a text, or copy the content of a string.
    WithCapacity,
    TryFromStr,
    FromCStr16,
    ToOwned,
    ToCString16,
    AsBytes,
    ToRustString,
    Clone,
    // Calls that read characters, bytes and packed units.
    FromChar16UntilNul,
    FromChar16WithNul,
    FromBytesWithNul,
    TryFromUnaligned,
    ItemsToCString16,
    ItemsToVec,
    NoItemsToVec,
    // Calls that add to other values, without and with room.
    AddUtf8,
    AddUtf8InRoom,
    FillSink,
    Change(Change),
}

/// Returns whether the bytes of a text are added to a list of one byte with this much room, or memory ran
/// out.
fn adds_bytes(heap: &Refusing<Global>, part: CStr16<'_>, room: usize) -> Result<bool, AllocError> {
    let mut bytes = Vec::with_capacity(heap, room)?;
    bytes.push(b'x')?;
    is_answered(part.as_slice().add_utf8_to(&mut bytes), AllocError)
}

/// Returns whether a sink receives the text of a string, or memory ran out.
fn fills_sink(heap: &Refusing<Global>, part: CStr16<'_>) -> Result<bool, AllocError> {
    let mut sink = String::new(heap);
    Ok(part.as_str_in_buf(&mut sink).map_err(|_| AllocError)? == ())
}

/// Returns whether a call that creates a string or copies one succeeds, or memory ran out.
fn copies(heap: &Refusing<Global>, call: Call, text: &Text<'_>) -> Result<bool, AllocError> {
    let part = text.part;
    match call {
        Call::WithCapacity => {
            is_answered(CString16::with_capacity(heap, text.rust.len()), AllocError)
        }
        Call::TryFromStr => {
            is_answered(
                CString16::try_from_str(heap, text.rust),
                FromStrError::OutOfMemory,
            )
        }
        Call::FromCStr16 => is_answered(CString16::from_cstr16(heap, part), AllocError),
        Call::ToOwned => is_answered(part.to_owned(heap), AllocError),
        Call::ToCString16 => {
            is_answered(
                part.as_slice().to_cstring16(heap),
                FromStrError::OutOfMemory,
            )
        }
        Call::AsBytes => is_answered(part.as_bytes(heap), AllocError),
        Call::ToRustString => is_answered(part.to_rust_string(heap), AllocError),
        Call::Clone => is_answered(filled(heap, part)?.clone(), AllocError),
        _ => Ok(false),
    }
}

/// Returns whether a call that reads characters, bytes or packed units succeeds, or memory ran out.
fn reads(heap: &Refusing<Global>, call: Call, text: &Text<'_>) -> Result<bool, AllocError> {
    match call {
        Call::FromChar16UntilNul => is_answered(
            CStr16::from_char16_until_nul(heap, text.list),
            UntilNul::OutOfMemory,
        ),
        Call::FromChar16WithNul => {
            is_answered(
                CStr16::from_char16_with_nul(heap, text.list),
                WithNul::OutOfMemory,
            )
        }
        Call::FromBytesWithNul => {
            is_answered(
                CStr16::from_bytes_with_nul(heap, text.bytes),
                WithNul::OutOfMemory,
            )
        }
        Call::TryFromUnaligned => is_answered(
            CString16::try_from_unaligned(heap, &text.items),
            WithNul::OutOfMemory,
        ),
        Call::ItemsToCString16 => {
            is_answered(text.items.to_cstring16(heap), WithNul::OutOfMemory)
        }
        Call::ItemsToVec => is_answered(text.items.to_vec(heap), AllocError),
        Call::NoItemsToVec => is_answered(text.no_items.to_vec(heap), AllocError),
        _ => Ok(false),
    }
}

/// A call on this text.
#[derive(Clone, Copy)]
struct OnText<'a> {
    call: Call,
    text: Text<'a>,
}

impl MemoryCall for OnText<'_> {
    fn answer(&self, heap: &Refusing<Global>) -> Result<bool, AllocError> {
        let (part, rust) = (self.text.part, self.text.rust);
        match self.call {
            Call::AddUtf8 => adds_bytes(heap, part, 1),
            Call::AddUtf8InRoom => adds_bytes(heap, part, rust.len().saturating_add(1)),
            Call::FillSink => fills_sink(heap, part),
            Call::Change(change) => changes(change, heap, part, rust),
            call => Ok(copies(heap, call, &self.text)? || reads(heap, call, &self.text)?),
        }
    }
}

/// Each call, how many requests precede it, and the least and the greatest number of its requests.
const CALLS: &[(Call, u64, u64, u64)] = &[
    (Call::WithCapacity, 0, 1, 1),
    (Call::TryFromStr, 0, 1, 1),
    (Call::FromCStr16, 0, 1, 1),
    (Call::ToOwned, 0, 1, 1),
    (Call::ToCString16, 0, 1, 1),
    (Call::AsBytes, 0, 1, 1),
    (Call::ToRustString, 0, 1, 1),
    (Call::Clone, 1, 1, 1),
    (Call::FromChar16UntilNul, 0, 1, 1),
    (Call::FromChar16WithNul, 0, 1, 1),
    (Call::FromBytesWithNul, 0, 1, 1),
    (Call::TryFromUnaligned, 0, 1, 1),
    (Call::ItemsToCString16, 0, 1, 1),
    (Call::ItemsToVec, 0, 1, 1),
    (Call::NoItemsToVec, 0, 0, 0),
    (Call::AddUtf8, 1, 1, 1),
    (Call::AddUtf8InRoom, 1, 0, 0),
    // A sink requests memory, but how often depends on the sink.
    (Call::FillSink, 0, 1, u64::MAX),
    (Call::Change(Change::Clear), 1, 0, 0),
    (Call::Change(Change::Push), 1, 1, 1),
    (Call::Change(Change::PushStr), 1, 1, 1),
    (Call::Change(Change::PushPart), 1, 1, 1),
    (Call::Change(Change::PushNothing), 1, 0, 0),
    (Call::Change(Change::PushEmpty), 1, 0, 0),
    (Call::Change(Change::Reserve), 1, 1, 1),
    (Call::Change(Change::WriteStr), 1, 1, 1),
    (Call::Change(Change::Extend), 1, 1, 96),
    (Call::Change(Change::ExtendByNone), 1, 0, 0),
    (Call::Change(Change::ExtendByText), 1, 1, 2),
];

/// Returns whether each call on a text makes the expected number of requests.
fn are_counted(alloc: Global, text: Text<'_>) -> Result<bool, Fail> {
    for (call, setup, least, most) in CALLS {
        let count = requests(alloc, *setup, &OnText { call: *call, text })?;
        if count < *least || *most < count {
            return Ok(false);
        }
    }
    Ok(true)
}

/// Checks `are_counted` for a text.
fn is_counted(rt: &HostRuntime, rust: &str) -> Result<bool, Fail> {
    let owned = string(rt.alloc(), rust)?;
    let part = owned.as_cstr16();
    let bytes = part.as_bytes(rt.alloc())?;
    let list = characters(rt.alloc(), part.to_u16_slice_with_nul())?;
    let text = Text {
        rust,
        part,
        list: &list,
        bytes: &bytes,
        items: UnalignedSlice::from_unit_bytes(&bytes).ok_or("units")?,
        no_items: UnalignedSlice::try_new(&bytes, 0).ok_or("no units")?,
    };
    are_counted(rt.alloc(), text)
}

/// How often a piece is repeated in a text: numbers around the blocks that loops over units and bytes
/// process.
const SIZES: &[u64] = &[1, 3, 10, 63, 64, 65, 70, 300, 5000];

/// Pieces of texts, and what follows the last piece: texts of characters of one width, and texts that mix
/// widths.
const PIECES: &[(&str, &str)] = &[
    ("a", ""),
    ("é", ""),
    ("漢", ""),
    ("a", "ÿ"),
    ("aé", "\u{ffff}"),
    ("a漢", "b"),
];

/// Long texts are converted, too.
#[test]
fn requests_of_each_call(rt: HostRuntime) -> Result<(), Fail> {
    for size in SIZES {
        for (piece, end) in PIECES {
            let mut text = repeated(rt.alloc(), piece, *size)?;
            text.push_str(end)?;
            assert!(rt; is_counted(&rt, &text)?, "{size} times {piece}");
        }
    }
    for piece in ["a", "é漢"] {
        let is_right = is_counted(&rt, &repeated(rt.alloc(), piece, 100_000)?)?;
        assert!(rt; is_right, "{piece}");
    }
    Ok(())
}

/// Returns whether a vector of these units becomes a string, or is refused with this error.
fn takes_over(
    heap: &Refusing<Global>,
    units: &[u16],
    want: Option<WithNul>,
) -> Result<bool, AllocError> {
    let mut list = Vec::with_capacity(heap, 4)?;
    list.extend_from_slice(units)?;
    Ok(match CString16::try_from_vec(list) {
        Ok(string) => want.is_none() && string.as_cstr16().to_u16_slice_with_nul() == units,
        Err(error) => want == Some(error),
    })
}

/// The units of vectors, and why each is refused, if it is.
const VECTORS: &[(&[u16], Option<WithNul>)] = &[
    (&[120, 0], None),
    (&[97, 0, 98, 0], Some(InteriorNul(1))),
    (&[0xd800, 0], Some(InvalidChar(0))),
    (&[], Some(NotNulTerminated)),
];

/// The units of a vector that a string takes over, and why it is refused, if it is.
#[derive(Clone, Copy)]
struct Taken<'a>(&'a [u16], Option<WithNul>);

impl MemoryCall for Taken<'_> {
    fn answer(&self, heap: &Refusing<Global>) -> Result<bool, AllocError> {
        takes_over(heap, self.0, self.1)
    }
}

/// A string takes over its vector's memory.
#[test]
fn requests_for_vectors(rt: HostRuntime) -> Result<(), Fail> {
    for (units, want) in VECTORS {
        let count = requests(rt.alloc(), 1, &Taken(units, *want))?;
        assert!(rt; count == 0, "{units:?}");
    }
    Ok(())
}

/// The creation of an empty string.
#[derive(Clone, Copy)]
struct New;

impl MemoryCall for New {
    fn answer(&self, heap: &Refusing<Global>) -> Result<bool, AllocError> {
        Ok(CString16::new(heap)?.is_empty())
    }
}

#[test]
fn requests_for_room(rt: HostRuntime) -> Result<(), Fail> {
    let count = requests(rt.alloc(), 0, &New)?;
    let is_refused = CString16::with_capacity(rt.alloc(), usize::MAX).is_err();
    assert!(rt; count == 1 && is_refused, "{count}");
    Ok(())
}

/// Returns whether a text is `ab` and `count` times `c`.
fn is_ab_and(text: CStr16<'_>, count: usize) -> bool {
    match text.to_u16_slice() {
        [97, 98, rest @ ..] => rest.len() == count && rest.iter().all(|unit| *unit == 99),
        _ => false,
    }
}

/// Returns whether 64 characters are pushed to `ab` one by one, or those before the refused one remain.
fn pushes_one_by_one(
    heap: &Refusing<Global>,
    ab: CStr16<'_>,
    c: Char16,
) -> Result<bool, AllocError> {
    let mut text = filled(heap, ab)?;
    for count in 0..64 {
        if c != NUL_16 && text.push(c).is_err() {
            return out_of_memory(is_ab_and(text.as_cstr16(), count));
        }
    }
    Ok(is_ab_and(text.as_cstr16(), 64))
}

/// Returns whether `ab` is extended by 64 characters, or by fewer if memory ran out.
fn extends(heap: &Refusing<Global>, ab: CStr16<'_>, c: Char16) -> Result<bool, AllocError> {
    let mut text = filled(heap, ab)?;
    if c != NUL_16 && text.extend(iter::repeat_n(c, 64)).is_err() {
        let count = text.num_chars().saturating_sub(2);
        return out_of_memory(count < 64 && is_ab_and(text.as_cstr16(), count));
    }
    Ok(is_ab_and(text.as_cstr16(), 64))
}

/// Returns whether texts, bytes and packed units are refused because of their characters.
fn refuses(heap: &Refusing<Global>, items: UnalignedSlice<'_, u16>, bytes: &[u8]) -> bool {
    let want = Some(InvalidChar(0));
    CString16::try_from_str(heap, "x\0").err() == Some(FromStrError::InteriorNul)
        && CString16::try_from_str(heap, "é\0").err() == Some(FromStrError::InteriorNul)
        && CString16::try_from_str(heap, "😀").err() == Some(FromStrError::InvalidChar)
        && CStr16::from_bytes_with_nul(heap, bytes).err() == want
        && items.to_cstring16(heap).err() == want
}

/// Returns whether characters are refused because they have no NUL, or contain one.
fn refuses_characters(heap: &Refusing<Global>, string: CStr16<'_>, open: &[Char16]) -> bool {
    CStr16::from_char16_until_nul(heap, open).err() == Some(UntilNul::NoNul)
        && CStr16::from_char16_with_nul(heap, open).err() == Some(NotNulTerminated)
        && string.as_slice_with_nul().to_cstring16(heap).err() == Some(FromStrError::InteriorNul)
}

/// The text `ab`, the character `c`, and whether 64 of these are pushed one by one.
#[derive(Clone, Copy)]
struct Growing<'a>(CStr16<'a>, Char16, bool);

impl MemoryCall for Growing<'_> {
    fn answer(&self, heap: &Refusing<Global>) -> Result<bool, AllocError> {
        if self.2 {
            pushes_one_by_one(heap, self.0, self.1)
        } else {
            extends(heap, self.0, self.1)
        }
    }
}

#[test]
fn held_after_a_refusal(rt: HostRuntime) -> Result<(), Fail> {
    let (ab, c) = (
        CStr16::from_u16_with_nul(&[97, 98, 0])?,
        Char16::try_from('c')?,
    );
    let pushed = requests(rt.alloc(), 1, &Growing(ab, c, true))?;
    let extended = requests(rt.alloc(), 1, &Growing(ab, c, false))?;
    assert!(rt; 1 <= pushed && 1 <= extended, "{pushed} {extended}");
    Ok(())
}

/// Units and bytes that are no string.
#[derive(Clone, Copy)]
struct Refused<'a>(UnalignedSlice<'a, u16>, &'a [u8]);

impl MemoryCall for Refused<'_> {
    fn answer(&self, heap: &Refusing<Global>) -> Result<bool, AllocError> {
        Ok(refuses(heap, self.0, self.1))
    }
}

/// A string, and characters without a NUL.
#[derive(Clone, Copy)]
struct RefusedCharacters<'a>(CStr16<'a>, &'a [Char16]);

impl MemoryCall for RefusedCharacters<'_> {
    fn answer(&self, heap: &Refusing<Global>) -> Result<bool, AllocError> {
        Ok(refuses_characters(heap, self.0, self.1))
    }
}

#[test]
fn refused_without_a_request(rt: HostRuntime) -> Result<(), Fail> {
    let bytes = &[0, 0xd8, 0, 0];
    let items = UnalignedSlice::from_unit_bytes(bytes).ok_or("units")?;
    let open = characters(rt.alloc(), &[97])?;
    let string = CStr16::from_u16_with_nul(&[97, 0])?;
    let counts = [
        requests(rt.alloc(), 0, &Refused(items, bytes))?,
        requests(rt.alloc(), 0, &RefusedCharacters(string, &open))?,
    ];
    assert!(rt; counts == [0, 0], "{counts:?}");
    Ok(())
}
