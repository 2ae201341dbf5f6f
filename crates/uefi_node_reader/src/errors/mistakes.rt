//! Where a person would say that a call is wrong: at the start of the field, if the field accepts certain
//! words or texts.
#![tactic(auto)]

ghost use Rattle.std.specs.Prelude.{◌≡◌};
ghost use Rattle.uefi_node_reader.specs.Mistakes.{choice_of, field_at, field_on, first_choice, has_guid, is_flow_control, is_in_value, is_in_word, is_internet, is_sas, is_word, is_wrong_whole, later_choice, mistake, second_choice, third_choice, word_stop};

use crate::errors::faults::{Choice, Expected, Stop};
use crate::exact::clear_texts::first_of;
use crate::lenient::ambiguous::begins_with;
use crate::lenient::tidied::past_mark;
use crate::texts::Text;

/// Returns whether a tidied call is the call of a SAS device.
fn is_sas<T: Text>(call: T) -> bool
    ensures { result ≡ is_sas (T.bytes call) }
{
    begins_with(b"SAS(", call) || begins_with(b"SASEx(", call)
}

/// Returns whether a tidied call is the call of a serial port's flow control.
fn is_flow_control<T: Text>(call: T) -> bool
    ensures { result ≡ is_flow_control (T.bytes call) }
{
    begins_with(b"UARTFLOWCTRL(", call) || begins_with(b"UARTFLOWCONTROL(", call)
}

/// Returns whether a tidied call begins with an IP address.
fn is_internet<T: Text>(call: T) -> bool
    ensures { result ≡ is_internet (T.bytes call) }
{
    begins_with(b"IPV4(", call) || begins_with(b"IPV6(", call) || begins_with(b"DNS(", call)
}

/// Returns whether a tidied call begins with a GUID.
fn has_guid<T: Text>(call: T) -> bool
    ensures { result ≡ has_guid (T.bytes call) }
{
    begins_with(b"FV(", call)
        || begins_with(b"FVFILE(", call)
        || begins_with(b"FVVOL(", call)
        || begins_with(b"MEDIA(", call)
        || begins_with(b"VENHW(", call)
        || begins_with(b"VENMSG(", call)
        || begins_with(b"VENMEDIA(", call)
}

/// Returns what the first field of a tidied call accepts.
fn first_choice<T: Text>(call: T) -> Option<Choice>
    ensures { result ≡ first_choice (T.bytes call) }
{
    if begins_with(b"ATA(", call) {
        Some(Choice::AtaChannel)
    } else if begins_with(b"BBS(", call) {
        Some(Choice::BootDevice)
    } else if is_flow_control(call) {
        Some(Choice::FlowControl)
    } else if begins_with(b"ACPI(", call) {
        Some(Choice::AcpiId)
    } else if begins_with(b"MAC(", call) {
        Some(Choice::MacAddress)
    } else if is_internet(call) {
        Some(Choice::IpAddress)
    } else if has_guid(call) {
        Some(Choice::Guid)
    } else {
        None
    }
}

/// Returns what the second field of a tidied call accepts.
fn second_choice<T: Text>(call: T) -> Option<Choice>
    ensures { result ≡ second_choice (T.bytes call) }
{
    if begins_with(b"ATA(", call) {
        Some(Choice::AtaDrive)
    } else if begins_with(b"HD(", call) {
        Some(Choice::PartitionFormat)
    } else if begins_with(b"IPV4(", call) || begins_with(b"IPV6(", call) {
        Some(Choice::IpProtocol)
    } else {
        None
    }
}

/// Returns what the third field of a tidied call accepts.
fn third_choice<T: Text>(call: T) -> Option<Choice>
    ensures { result ≡ third_choice (T.bytes call) }
{
    if begins_with(b"IPV4(", call) {
        Some(Choice::Ipv4Origin)
    } else if begins_with(b"IPV6(", call) {
        Some(Choice::Ipv6Origin)
    } else {
        None
    }
}

/// Returns what a later field of a tidied call accepts, by the field's number.
fn later_choice<T: Text>(call: T, field: usize) -> Option<Choice>
    ensures { result ≡ later_choice (T.bytes call) field }
{
    if is_sas(call) {
        if field == 3 {
            Some(Choice::SasProtocol)
        } else if field == 4 {
            Some(Choice::SasLocation)
        } else if field == 5 {
            Some(Choice::SasConnection)
        } else {
            None
        }
    } else if begins_with(b"ISCSI(", call) {
        if field == 3 || field == 4 {
            Some(Choice::Digest)
        } else if field == 5 {
            Some(Choice::Login)
        } else if field == 6 {
            Some(Choice::IscsiProtocol)
        } else {
            None
        }
    } else {
        None
    }
}

/// Returns what a field of a tidied call accepts. The number of the field is the number of commas
/// before it.
fn choice_of<T: Text>(call: T, field: usize) -> Option<Choice>
    ensures { result ≡ choice_of (T.bytes call) field }
{
    if field == 0 {
        first_choice(call)
    } else if field == 1 {
        second_choice(call)
    } else if field == 2 {
        third_choice(call)
    } else {
        later_choice(call, field)
    }
}

/// Returns a tidied call from the start of a field.
fn field_on<T: Text>(call: T, field: usize) -> T
    ensures { T.bytes result ≡ field_on (T.bytes call) field }
{
    let mut rest = past_mark(b'(', call);
    'fields: for _ in 0..field {
        rest = past_mark(b',', rest);
    }
    rest
}

/// Returns the number of the field where this much of a tidied call is left: the number of commas before.
fn field_at<T: Text>(call: T, left: usize) -> usize
    ensures { result ≡ field_at (T.bytes call) left }
{
    let mut field = 0;
    let mut rest = call;
    'bytes: for _ in 0..call.len().saturating_sub(left) {
        if let Some((byte, after)) = rest.split_first() {
            if byte == b',' {
                field += 1;
            }
            rest = after;
        }
    }
    field
}

/// Returns whether this is expected inside a word, or in place of a word, before this rest of a tidied
/// call. A letter or a digit in place of a comma continues the word.
fn is_in_word<T: Text>(expected: Expected, rest: T) -> bool
    ensures { result ≡ is_in_word expected (T.bytes rest) }
{
    match expected {
        Expected::Byte(byte) => byte != b',' || first_of(rest).is_ascii_alphanumeric(),
        Expected::AsPrinted => true,
        _ => false,
    }
}

/// Returns whether this is expected in a value, of which `passed` bytes come first, only because the value
/// has another form: a MAC address without colons, or a short IPv6 address.
fn is_in_value<T: Text>(call: T, expected: Expected, passed: usize) -> bool
    ensures { result ≡ is_in_value (T.bytes call) expected passed }
{
    match expected {
        Expected::Byte(byte) => begins_with(b"MAC(", call) && byte == b':' && passed == 2,
        Expected::Digits(_) => begins_with(b"IPV6(", call),
        _ => false,
    }
}

/// Returns whether a field accepts certain words, and no other values.
fn is_word(choice: Choice) -> bool
    ensures { result ≡ is_word choice }
{
    !matches!(
        choice,
        Choice::AcpiId | Choice::MacAddress | Choice::IpAddress | Choice::Guid
    )
}

/// Returns whether a call that stops in a field is wrong from the start of that field on.
fn is_wrong_whole<T: Text>(call: T, stop: Stop, field: T, choice: Choice) -> bool
    ensures { result ≡ is_wrong_whole (T.bytes call) stop (T.bytes field) choice }
{
    let len = field.len();
    if stop.left == len {
        return true;
    }
    if is_word(choice) {
        let passed = call.len().saturating_sub(stop.left);
        is_in_word(stop.expected, call.split_at(passed).1)
    } else {
        is_in_value(call, stop.expected, len.saturating_sub(stop.left))
    }
}

/// Returns where a tidied call stops, or the start of the field in which it stops.
fn word_stop<T: Text>(call: T, stop: Stop, field: T, choice: Option<Choice>) -> Stop
    ensures { result ≡ word_stop (T.bytes call) stop (T.bytes field) choice }
{
    match choice {
        Some(choice) if is_wrong_whole(call, stop, field, choice) => Stop {
            left: field.len(),
            expected: Expected::Word(choice),
        },
        _ => stop,
    }
}

/// Returns where a tidied call is wrong, from where it stops: at the start of the field, if the call stops
/// there or in a word, and the field accepts certain words or texts.
pub(crate) fn mistake<T: Text>(call: T, stop: Stop) -> Stop
    ensures { result ≡ mistake (T.bytes call) stop }
{
    let field = field_at(call, stop.left);
    word_stop(call, stop, field_on(call, field), choice_of(call, field))
}
