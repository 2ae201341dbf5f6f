//! The outcomes that calls report: a length, or an error and where the input is wrong.
#![tactic(auto, unfolding(crate::specs::Reading::read_string, crate::specs::Reading::read_utf8), using(crate::proofs::Inputs::reads))]

ghost use Rattle.std.specs.Prelude.{◌≡◌, ◌≢◌, ℕ, ◌↔◌, ◌-◌, ◌<◌, ◌^◌, IfErr, IfOk, IsOk, OnOk, Err, Ok};
ghost use Rattle.std.specs.Result.{result_map_both};
ghost use Rattle.std.specs.Str.{IsUtf8};
ghost use Rattle.uefi_text.specs.Units.{BeginsWithString};
ghost use Rattle.uefi_text.specs.Views.{text_of};
ghost use Rattle.uefi_device_path.specs.Paths.{BeginWithPath};
ghost use Rattle.uefi_device_path.specs.Views.{nodes_of};
ghost use Rattle.nardcorbel.specs.Outcomes.{ShowsNumber, when_read, refusal_at, refusal_for, too_small};
ghost use Rattle.nardcorbel.specs.Outcomes.Outcome.{Number, Refused as RefusedCall};
ghost use Rattle.nardcorbel.specs.Reading.{read_path, read_string, read_utf8};
ghost use Rattle.nardcorbel.specs.Refusals.{build_refused, entry_refusal, grow_refused, nameless_refusal, node_refusal, option_refused, path_refusal, room_refused, text_refused};
ghost use Rattle.nardcorbel.specs.Strings.{text_until_nul};

use crate::reasons::{
    BUFFER_TOO_SMALL, EMPTY_LIST, INTERIOR_NUL, INVALID_CHAR, LIST_TOO_LONG, NO_NODE, NO_NUL,
    NODE_OF_END, NODE_TOO_LONG, NOT_UTF8, OK, name_reason, node_reason, option_reason,
};
use uefi_device_path::{
    BuildError, DevicePath, DevicePathError, FilePathError, GrowError, LoadOptionError, NodeError,
    OptionBuildError, PushTextError, fault_place,
};
use uefi_text::{BufferTooSmall, CStr16, FromSliceUntilNulError};

/// Why a call fails, as C sees it.
#[derive(Clone, Copy)]
pub(crate) struct Refusal {
    /// One of [`crate::reasons`].
    pub reason: u32,

    /// The length of the result for which the buffer is too small.
    pub needed: Option<usize>,

    /// The index or offset at which the input is wrong.
    pub fault: Option<usize>,
}

impl Refusal {
    /// An error, and where the input is wrong.
    pub(crate) fn at(reason: u32, place: usize) -> Refusal
        ensures { result ≡ refusal_at reason place }
    {
        Refusal {
            reason,
            needed: None,
            fault: Some(place),
        }
    }

    /// An error that leaves the caller's numbers unchanged.
    pub(crate) fn of(reason: u32) -> Refusal
        ensures { result ≡ refusal_for reason }
    {
        Refusal {
            reason,
            needed: None,
            fault: None,
        }
    }

    /// A buffer is too small for a result of this length.
    pub(crate) fn too_small(needed: usize) -> Refusal
        ensures { result ≡ too_small needed }
    {
        Refusal {
            reason: BUFFER_TOO_SMALL,
            needed: Some(needed),
            fault: None,
        }
    }
}

/// An error of the library that C sees as a refusal.
pub(crate) trait Refused: Copy {
    ghost use Rattle.nardcorbel.specs.declared.outcomes.Refusal.{Refusal};

    /// The refusal.
    ghost refusal: { Self → Refusal };

    /// Returns the refusal.
    fn refusal(self) -> Refusal
        ensures { result ≡ refusal self };
}

impl Refused for Refusal {
    ghost refusal = { λ refusal. refusal };

    fn refusal(self) -> Refusal {
        self
    }
}

/// The length is that of the text without its NUL.
impl Refused for BufferTooSmall {
    ghost refusal = { room_refused };

    fn refusal(self) -> Refusal {
        Refusal::too_small(self.0.saturating_sub(1))
    }
}

impl Refused for DevicePathError {
    ghost refusal = { path_refusal };

    fn refusal(self) -> Refusal {
        Refusal::at(node_reason(self.cause), self.offset)
    }
}

impl Refused for NodeError {
    ghost refusal = { node_refusal };

    fn refusal(self) -> Refusal {
        Refusal::at(node_reason(self), fault_place(self))
    }
}

impl Refused for FilePathError {
    ghost refusal = { nameless_refusal };

    fn refusal(self) -> Refusal {
        Refusal::at(name_reason(self.cause), self.offset)
    }
}

/// Memory is never the reason.
impl Refused for BuildError {
    ghost refusal = { build_refused };

    fn refusal(self) -> Refusal {
        match self {
            BuildError::BufferTooSmall(needed) => Refusal::too_small(needed),
            BuildError::EndNode => Refusal::of(NODE_OF_END),
            BuildError::NodeTooLong => Refusal::of(NODE_TOO_LONG),
            BuildError::OutOfMemory => Refusal::of(BUFFER_TOO_SMALL),
        }
    }
}

impl Refused for GrowError {
    ghost refusal = { grow_refused };

    fn refusal(self) -> Refusal {
        match self {
            GrowError::Path(error) => error.refusal(),
            GrowError::Build(error) => error.refusal(),
        }
    }
}

impl Refused for LoadOptionError {
    ghost refusal = { entry_refusal };

    fn refusal(self) -> Refusal {
        Refusal::at(option_reason(self.cause), self.offset)
    }
}

/// Memory is never the reason.
impl Refused for OptionBuildError {
    ghost refusal = { option_refused };

    fn refusal(self) -> Refusal {
        match self {
            OptionBuildError::BufferTooSmall(needed) => Refusal::too_small(needed),
            OptionBuildError::NulInDescription(_) => Refusal::of(INTERIOR_NUL),
            OptionBuildError::EmptyList => Refusal::of(EMPTY_LIST),
            OptionBuildError::ListTooLong | OptionBuildError::TooLong => Refusal::of(LIST_TOO_LONG),
            OptionBuildError::OutOfMemory => Refusal::of(BUFFER_TOO_SMALL),
        }
    }
}

impl Refused for PushTextError {
    ghost refusal = { text_refused };

    fn refusal(self) -> Refusal {
        match self {
            PushTextError::Path(error) => error.refusal(),
            PushTextError::NoNode(fault) => Refusal::at(NO_NODE, fault.byte),
            PushTextError::BufferTooSmall(needed) => Refusal::too_small(needed),
        }
    }
}

/// Reports what a call gives: a length in `len`, or why it fails.
pub(crate) fn report<E: Refused>(given: Result<usize, E>, len: &mut usize, fault: &mut usize) -> u32
    ensures shows { ShowsNumber (when_read (result_map_both (λ number. number) E.refusal given) Number)
        len.old fault.old result len.new fault.new }
    ensures fits { len.new < 2 ^ 64 }
{
    let refusal = match given {
        Ok(number) => {
            *len = number;
            return OK;
        }
        Err(error) => error.refusal(),
    };
    *len = refusal.needed.unwrap_or(*len);
    *fault = refusal.fault.unwrap_or(*fault);
    refusal.reason
}

/// Reports what a call gives that finds no fault in its input.
pub(crate) fn report_written(given: Result<usize, BufferTooSmall>, len: &mut usize) -> u32
    ensures shows { (fault : ℕ) → ShowsNumber
        (when_read (result_map_both (λ number. number) room_refused given) Number)
        len.old fault result len.new fault }
    ensures fits { len.new < 2 ^ 64 }
{
    match given {
        Ok(number) => {
            *len = number;
            OK
        }
        Err(error) => {
            *len = error.0.saturating_sub(1);
            BUFFER_TOO_SMALL
        }
    }
}

/// Reports why a call fails.
pub(crate) fn refuse<E: Refused>(error: E, len: &mut usize, fault: &mut usize) -> u32
    ensures { ShowsNumber (RefusedCall (E.refusal error)) len.old fault.old result len.new fault.new }
{
    report(Err(error), len, fault)
}

/// Reports that a buffer is too small for a text, which needs this many places with its NUL.
pub(crate) fn refuse_room(needed: usize, len: &mut usize, fault: &mut usize) -> u32
    ensures shows { ShowsNumber (RefusedCall (too_small (needed - 1))) len.old fault.old
        result len.new fault.new }
    ensures fits { needed < 2 ^ 64 }
{
    refuse(BufferTooSmall(needed), len, fault)
}

/// The string that units begin with; memory is never the reason of a refusal.
pub(crate) fn read_string(units: &[u16]) -> Result<CStr16<'_>, Refusal>
    ensures ok { IfOk result (λ string. read_string units.now ≡ Ok (text_of string)) }
    ensures err { IfErr result (λ refusal. read_string units.now ≡ Err refusal) }
    ensures accepts { IsOk result ↔ BeginsWithString units.now }
    ensures text { IfOk result (λ string. text_of string ≡ text_until_nul units.now) }
    ensures reason { IfErr result (λ refusal. refusal.reason ≢ OK) }
{
    let refusal = match CStr16::from_u16_until_nul(units) {
        Ok(string) => return Ok(string),
        Err(FromSliceUntilNulError::InvalidChar(index)) => Refusal::at(INVALID_CHAR, index),
        Err(FromSliceUntilNulError::NoNul | FromSliceUntilNulError::OutOfMemory) => {
            Refusal::at(NO_NUL, units.len())
        }
    };
    Err(refusal)
}

/// The text that bytes are.
pub(crate) fn read_utf8(bytes: &[u8]) -> Result<&str, Refusal>
    ensures ok { IfOk result (λ text. read_utf8 bytes.now ≡ Ok text.now) }
    ensures err { IfErr result (λ refusal. read_utf8 bytes.now ≡ Err refusal) }
    ensures text { IfOk result (λ text. text.now ≡ bytes.now) }
    ensures utf8 { OnOk result (IsUtf8 bytes.now) }
{
    match str::from_utf8(bytes) {
        Ok(text) => Ok(text),
        Err(error) => Err(Refusal::at(NOT_UTF8, error.valid_up_to())),
    }
}

/// The device path that bytes begin with.
pub(crate) fn read_path(bytes: &[u8]) -> Result<DevicePath<'_>, Refusal>
    ensures ok { IfOk result (λ path. read_path bytes.now ≡ Ok (nodes_of path)) }
    ensures begins { IfOk result (λ path. BeginWithPath bytes.now (nodes_of path)) }
    ensures err { IfErr result (λ refusal. read_path bytes.now ≡ Err refusal) }
{
    match DevicePath::from_bytes(bytes) {
        Ok(path) => Ok(path),
        Err(error) => Err(error.refusal()),
    }
}
