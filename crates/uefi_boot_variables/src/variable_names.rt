//! Names of the variables that hold load options (UEFI Specification 2.10, sections 3.1.3 and 3.3).
ghost use Rattle.std.specs.Prelude.{◌≡◌, ℕ, ◌+◌, ◌*◌, ◌^◌, ◌<◌, ◌≤◌, ◌↔◌, ◌++◌, length, map, slice_index, take, IfErr, IfOk, IfSome, IsErr, IsTrue, OnOk, Some};
ghost use Rattle.uefi_boot_variables.specs.declared.variable_names.LoadOptionKind.{LoadOptionKind};
ghost use Rattle.uefi_boot_variables.specs.declared.variable_names.LoadOptionName.{LoadOptionName};
ghost use Rattle.uefi_boot_variables.specs.Names.{name_digit, four_digits, name_text, word_of};
ghost use Rattle.uefi_text.specs.UnalignedCStr16.{with_prefix};
ghost use Rattle.uefi_text.specs.UnitTexts.{written_len};
ghost use Rattle.uefi_text.specs.Units.{nul_terminated};
ghost use Rattle.uefi_text.specs.Views.{text_of};

use std::fmt;
use uefi_text::text_sink::{Printed, TextSink, print};
use uefi_text::{BufferTooSmall, CStr16};

/// The way in which firmware uses a load option.
#[derive(Clone, Copy, Debug, PartialEq, Eq)]
pub enum LoadOptionKind {
    /// `Boot####`: a system or an application that is started.
    Boot,

    /// `Driver####`: a driver that is loaded before anything is booted.
    Driver,

    /// `SysPrep####`: an application that prepares the system, and runs before anything is booted.
    SysPrep,

    /// `PlatformRecovery####`: an option that the platform starts if nothing else boots.
    PlatformRecovery,
}

/// The name of a variable that holds a load option: the word of its kind, and its number in four
/// hexadecimal digits, in upper case. A contract sees its text as `name_text` of it.
#[derive(Clone, Copy, Debug, PartialEq, Eq)]
pub struct LoadOptionName {
    /// The kind, for which the name's word stands.
    pub kind: LoadOptionKind,

    /// The number by which an order names the option.
    pub number: u16,
}

/// A unit of a text: a byte of UTF-8 or a unit of UCS-2.
trait Unit: Copy {
    /// The number of a unit.
    ghost number: { Self → ℕ };

    fn number(self) -> u16
        ensures { result ≡ number self };
}

impl Unit for u8 {
    ghost number = { λ unit. unit };

    fn number(self) -> u16 {
        u16::from(self)
    }
}

impl Unit for u16 {
    ghost number = { λ unit. unit };

    fn number(self) -> u16 {
        self
    }
}

/// Returns the number of the unit at an index.
fn unit_at<U: Unit>(units: &[U], place: usize) -> u16
    requires { place < length units.now }
    ensures { result ≡ slice_index (map U.number units.now) place }
{
    units[place].number()
}

/// Returns the upper-case hexadecimal digit of a number below 16.
fn digit(number: u16) -> u8
    requires { number < 16 }
    ensures { result ≡ name_digit number }
{
    if number < 10 {
        b'0' + number as u8
    } else {
        b'A' - 10 + number as u8
    }
}

/// Returns the digits of a number.
fn digits(number: u16) -> [u8; 4]
    ensures { result ≡ four_digits number }
{
    [
        digit(number / 4096),
        digit(number / 256 % 16),
        digit(number / 16 % 16),
        digit(number % 16),
    ]
}

/// Returns the number whose digit a unit is.
fn read_digit(unit: u16) -> Option<u16>
    ensures below { IfSome result (λ number. number < 16) }
    ensures exact { (number : ℕ) → number < 16 → ((result ≡ Some number) ↔ (unit ≡ name_digit number)) }
{
    match unit {
        0x30..=0x39 => Some(unit - 0x30),
        0x41..=0x46 => Some(unit - 0x37),
        _ => None,
    }
}

/// Returns the number whose four digits units are.
fn read_digits<U: Unit>(units: &[U]) -> Option<u16>
    ensures exact { (number : ℕ) → number < 2 ^ 16
        → ((result ≡ Some number) ↔ (map U.number units.now ≡ four_digits number)) }
{
    if units.len() != 4 {
        return None;
    }
    let a = read_digit(unit_at(units, 0))?;
    let b = read_digit(unit_at(units, 1))?;
    let c = read_digit(unit_at(units, 2))?;
    let d = read_digit(unit_at(units, 3))?;
    Some(((a * 16 + b) * 16 + c) * 16 + d)
}

/// Returns whether units are the units of an ASCII text.
fn are_these<U: Unit>(units: &[U], text: &str) -> bool
    ensures { IsTrue result ↔ (map U.number units.now ≡ text.now) }
{
    let bytes = text.as_bytes();
    if units.len() != bytes.len() {
        return false;
    }
    for place in 0..bytes.len() {
        if unit_at(units, place) != u16::from(bytes[place]) {
            return false;
        }
    }
    true
}

/// Returns the kind whose word units are.
fn read_word<U: Unit>(units: &[U]) -> Option<LoadOptionKind>
    ensures exact { (kind : LoadOptionKind)
        → ((result ≡ Some kind) ↔ (map U.number units.now ≡ word_of kind)) }
{
    if are_these(units, LoadOptionKind::Boot.word()) {
        return Some(LoadOptionKind::Boot);
    }
    if are_these(units, LoadOptionKind::Driver.word()) {
        return Some(LoadOptionKind::Driver);
    }
    if are_these(units, LoadOptionKind::SysPrep.word()) {
        return Some(LoadOptionKind::SysPrep);
    }
    if are_these(units, LoadOptionKind::PlatformRecovery.word()) {
        return Some(LoadOptionKind::PlatformRecovery);
    }
    None
}

/// Returns the name whose text units are.
fn read_name<U: Unit>(units: &[U]) -> Option<LoadOptionName>
    ensures ok { IfSome result (λ name. map U.number units.now ≡ name_text name) }
    ensures exact { (name : LoadOptionName) → name.number < 2 ^ 16
        → ((result ≡ Some name) ↔ (map U.number units.now ≡ name_text name)) }
{
    if units.len() < 4 {
        return None;
    }
    let (word, digits) = units.split_at(units.len() - 4);
    let kind = read_word(word)?;
    let number = read_digits(digits)?;
    Some(LoadOptionName { kind, number })
}

/// Writes the name of a kind's word and a number, and a NUL.
fn put_name(word: &str, number: u16, places: &mut [u16])
    requires { length places.old ≡ length word.now + 5 }
    ensures { places.new ≡ nul_terminated (word.now ++ four_digits number) }
{
    let bytes = word.as_bytes();
    let (front, back) = places.split_at_mut(bytes.len());
    for place in 0..bytes.len() {
        front[place] = u16::from(bytes[place]);
    }
    let [a, b, c, d] = digits(number);
    back.copy_from_slice(&[u16::from(a), u16::from(b), u16::from(c), u16::from(d), 0]);
}

impl LoadOptionKind {
    /// Returns the word at the start of the names of its options.
    ///
    /// ```rust
    /// assert_eq!(rt; LoadOptionKind::Driver.word(), "Driver");
    /// assert_eq!(rt; LoadOptionKind::PlatformRecovery.word(), "PlatformRecovery");
    /// ```
    pub fn word(self) -> &'static str
        ensures { result.now ≡ word_of self }
    {
        match self {
            LoadOptionKind::Boot => "Boot",
            LoadOptionKind::Driver => "Driver",
            LoadOptionKind::SysPrep => "SysPrep",
            LoadOptionKind::PlatformRecovery => "PlatformRecovery",
        }
    }
}

impl LoadOptionName {
    /// Reads a whole Rust text as a name. Returns `None` exactly if it is not a name, for example
    /// because it has lower-case digits, fewer or more than four digits, or a word in another case.
    /// Does not allocate.
    ///
    /// ```rust
    /// let name = LoadOptionName { kind: LoadOptionKind::Boot, number: 0x1f };
    /// assert_eq!(rt; LoadOptionName::from_text("Boot001F"), Some(name));
    /// assert_eq!(rt; LoadOptionName::from_text("Boot001f"), None);
    /// ```
    pub fn from_text(text: &str) -> Option<Self>
        ensures ok { IfSome result (λ name. text.now ≡ name_text name) }
        ensures exact { (name : LoadOptionName) → name.number < 2 ^ 16
            → ((result ≡ Some name) ↔ (text.now ≡ name_text name)) }
    {
        read_name(text.as_bytes())
    }

    /// Reads a string as a name, as [`LoadOptionName::from_text`] reads a text. Does not allocate.
    ///
    /// ```rust
    /// let text = CString16::try_from_str(rt.alloc(), "SysPrep000A")?;
    /// let name = LoadOptionName::from_cstr16(text.as_cstr16());
    /// assert_eq!(rt; name.map(|it| it.kind), Some(LoadOptionKind::SysPrep));
    /// assert_eq!(rt; name.map(|it| it.number), Some(10));
    /// ```
    pub fn from_cstr16(string: CStr16<'_>) -> Option<Self>
        ensures ok { IfSome result (λ name. text_of string.entry ≡ name_text name) }
        ensures exact { (name : LoadOptionName) → name.number < 2 ^ 16
            → ((result ≡ Some name) ↔ (text_of string.entry ≡ name_text name)) }
    {
        read_name(string.to_u16_slice())
    }

    /// Writes the name as a string to the start of a buffer, and returns its length without the
    /// NUL. The rest of the buffer is unchanged.
    ///
    /// Fails only if the buffer is too small, and then leaves it unchanged. Does not allocate.
    ///
    /// ```rust
    /// let name = LoadOptionName { kind: LoadOptionKind::Boot, number: 0x1f };
    /// let mut buffer = [0xffff; 9];
    /// assert_eq!(rt; name.write_cstr16(&mut buffer), Ok(8));
    /// assert_eq!(rt; buffer, [0x42, 0x6f, 0x6f, 0x74, 0x30, 0x30, 0x31, 0x46, 0]);
    /// assert_eq!(rt; name.write_cstr16(&mut [0; 8]), Err(BufferTooSmall(9)));
    /// ```
    pub fn write_cstr16(self, buffer: &mut [u16]) -> Result<usize, BufferTooSmall>
        ensures len { result ≡ written_len (name_text self) buffer.old }
        ensures buffer { buffer.new ≡ with_prefix (nul_terminated (name_text self)) buffer.old }
        ensures room { IfOk result (λ len. len < length buffer.old) }
        ensures string { OnOk result
            (take (length (name_text self) + 1) buffer.new ≡ nul_terminated (name_text self)) }
    {
        let word = self.kind.word();
        let len = word.len() + 4;
        if buffer.len() <= len {
            return Err(BufferTooSmall(len + 1));
        }
        put_name(word, self.number, &mut buffer[..len + 1]);
        Ok(len)
    }

    /// Writes the name as [`LoadOptionName::write_cstr16`] does, and borrows it from the buffer.
    ///
    /// ```rust
    /// let name = LoadOptionName { kind: LoadOptionKind::Driver, number: 7 };
    /// let mut buffer = [0; 16];
    /// let string = name.to_cstr16(&mut buffer)?;
    /// assert_eq!(rt; format!(in rt.alloc(); "{string}")?.as_str(), "Driver0007");
    /// ```
    pub fn to_cstr16(self, buffer: &mut [u16]) -> Result<CStr16<'_>, BufferTooSmall>
        ensures ok { IfOk result (λ string. text_of string ≡ name_text self) }
        ensures refused { IsErr result ↔ (length buffer.old ≤ length (name_text self)) }
        ensures needs { IfErr result (λ error. error.0 ≡ length (name_text self) + 1) }
    {
        let len = self.write_cstr16(buffer)?;
        Ok(CStr16::from_string(&buffer[..len + 1]))
    }
}

/// Puts the name.
impl Printed for LoadOptionName {
    ghost printed = { name_text };

    #[tactic(auto, using(uefi_text::proofs::Puts::puts))]
    fn put<S: TextSink>(&self, sink: &mut S) {
        let [a, b, c, d] = digits(self.number);
        sink.put_str(self.kind.word());
        sink.put_char(char::from(a));
        sink.put_char(char::from(b));
        sink.put_char(char::from(c));
        sink.put_char(char::from(d));
    }
}

/// Prints the name.
impl fmt::Display for LoadOptionName {
    ghost output = { λ name. Some (name_text name) };

    fn fmt<W: fmt::Write>(&self, f: &mut fmt::Formatter<W>) -> fmt::Result {
        print(f, self)
    }
}
